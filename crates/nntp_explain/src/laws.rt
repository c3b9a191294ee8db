//! Laws of explanations.
ghost use Rattle.std.specs.Prelude.{◌≡◌, ◌<◌, ◌++◌, ℕ, Bool, false, List, [], ◌∷◌, Some, MatchOption, length, codes, decimal};
ghost use Rattle.nntp_wire.specs.Answer.{Asked, Response};
ghost use Rattle.nntp_wire.specs.declared.limit.Limit.{Limit};
ghost use Rattle.nntp_wire.specs.declared.marks.Marks.{Marks};
ghost use Rattle.nntp_article.specs.Session.Misfit.{misfit, below_low};
ghost use Rattle.nntp_article.specs.Inner.Misfit.{marked_by};
ghost use Rattle.nntp_article.specs.declared.session.profile.Profile.{Profile};
ghost use Rattle.nntp_pair.specs.Pairing.{Paired, Unpaired, asked_at};
ghost use Rattle.nntp_theory.specs.Permitted.{ArePermittedBehind};
ghost use Rattle.nntp_theory.specs.Reading.{Refused, IsJudged};
ghost use Rattle.nntp_facts.specs.Inner.Noted.{FactsKept, HasNotedBehind, IsDue};
ghost use Rattle.nntp_wire.specs.Session.{closes};
ghost use Rattle.nntp_several.specs.Sessions.{Named};
ghost use Rattle.nntp_explain.specs.Explaining.{visible_left, Counts, counts_text, titled, IsExplanation, IsExplanationOfAll};
ghost use Rattle.nntp_explain.specs.Reasons.{low_giver};
ghost use Rattle.nntp_explain.specs.Standing.{cited};

use nntp_article::session::laws::reasons_are_so;

/// Where a low mark is below an earlier one of the group, an accepted answer gave that one (RFC 3977, section 6.1.1.2).
pub fn low_marks_have_givers()
    ensures { (profile : Profile) (session : ℕ) (accepted : List Paired) (asked : Asked) (response : Response) (low : ℕ)
        → misfit profile (visible_left accepted) asked response ≡ Some (below_low low)
        → MatchOption (marked_by response) ⊥ (λ marked. MatchOption (low_giver marked.0 low (cited session accepted)) ⊥
        (λ place. place < length (cited session accepted))) }
{
    reasons_are_so();
}

/// No answer that closes the connection is refused, since it fits wherever it may stand, and says nothing of a spool. So
/// the one that closed it is among the accepted ones, of which it is the last.
pub fn closing_answers_are_accepted()
    ensures { (profile : Profile) (facts : FactsKept) (earlier : List (List Paired)) (past : List Paired) (pair : Paired) (before after : Unpaired)
        → HasNotedBehind profile facts earlier past → IsDue facts pair → IsJudged (ArePermittedBehind profile earlier) past before (Refused pair) after
        → closes (asked_at pair.place) pair.response ≡ false }
{}

/// Of one session, the report on several has the lines of the report on it alone, behind its title, and counts the same.
pub fn one_session_is_explained_alone()
    ensures alone { (limit : Limit) (marks : Marks) (s : Named) (text : List ℕ) (good : Bool) → IsExplanationOfAll limit marks (s ∷ []) text good
        → (lines : List ℕ) × (c : Counts) × (text ≡ titled 1 s.name c.bad ++ lines ++ codes "end sessions=" ++ decimal 1 ++ codes " " ++ counts_text c)
        × IsExplanation limit marks s.session.client s.session.server (lines ++ codes "end " ++ counts_text c) good }
    ensures of_all { (limit : Limit) (marks : Marks) (s : Named) (text : List ℕ) (good : Bool)
        → IsExplanation limit marks s.session.client s.session.server text good
        → (lines : List ℕ) × (c : Counts) × (text ≡ lines ++ codes "end " ++ counts_text c)
        × IsExplanationOfAll limit marks (s ∷ []) (titled 1 s.name c.bad ++ lines ++ codes "end sessions=" ++ decimal 1 ++ codes " " ++ counts_text c) good }
{}
