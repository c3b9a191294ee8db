//! Laws of verdicts on several sessions of one spool.
ghost use Rattle.std.specs.Prelude.{◌≡◌, ◌↔◌, ◌<◌, ◌^◌, ℕ, List, [], ◌∷◌, ◌++◌, length, map, Option, Ok, IsTrue};
ghost use Rattle.nntp_article.specs.Session.Spool.{Spool};
ghost use Rattle.nntp_theory.specs.Given.{IsGiven};
ghost use Rattle.nntp_theory.specs.Inner.Given.{size};
ghost use Rattle.nntp_pair.specs.declared.class.Class.{Class};
ghost use Rattle.nntp_verdict.specs.Judging.{IsVerdict, IsVerdictOfAll, StopsAt};
ghost use Rattle.nntp_store.specs.Limited.{LimitedSpool};
ghost use Rattle.nntp_store.specs.Reading.{spool_at};
ghost use Rattle.nntp_store.specs.Text.{spool_text};
ghost use Rattle.nntp_verdict.specs.Verdict.{Judgement, JudgementOfAll, consistent_of_all, bad_of_all, is_consistent_of_all};
ghost use Rattle.nntp_verdict.specs.Inner.Verdict.{verdict_of_one};
ghost use Rattle.nntp_wire.specs.declared.limit.Limit.{Limit};
ghost use Rattle.nntp_article.specs.Session.Limit.{profile_of};
ghost use Rattle.nntp_theory.specs.Permitted.{exchanged};
ghost use Rattle.nntp_pair.specs.Pairing.{Paired};
ghost use Rattle.nntp_several.specs.Inner.Paired.{ArePaired};
ghost use Rattle.nntp_wire.specs.declared.marks.Marks.{Marks};
ghost use Rattle.nntp_theory.specs.Answered.{SomePermitsEach, facts_of_all};
ghost use Rattle.nntp_several.specs.Sessions.{Recorded, ExplainsAll};
ghost use Rattle.nntp_several.specs.Outcome.{NoOfAll, IsOutcomeOfAll};

/// Several sessions have one verdict by a limit and marks, and it is a yes exactly if some spool
/// explains them all. That of one session is that of its two streams.
pub fn sessions_have_one_verdict()
    ensures one { (limit : Limit) (marks : Marks) (sessions : List Recorded) (verdict other : JudgementOfAll)
        → IsVerdictOfAll limit marks sessions verdict → IsVerdictOfAll limit marks sessions other → verdict ≡ other }
    ensures yes { (limit : Limit) (marks : Marks) (sessions : List Recorded) (verdict : JudgementOfAll) → IsVerdictOfAll limit marks sessions verdict
        → IsTrue (is_consistent_of_all verdict) ↔ ((S : Spool) × ExplainsAll (profile_of limit marks) S sessions) }
    ensures alone { (limit : Limit) (marks : Marks) (s : Recorded) (verdict : Judgement)
        → IsVerdictOfAll limit marks (s ∷ []) (verdict_of_one verdict) ↔ IsVerdict limit marks s.client s.server verdict }
{}

/// Where the pairings of all sessions come to their ends, and some spool permits their exchanges, the
/// verdict is a yes with the given spool, if that is read back from its text; and it is a no where
/// the outcome is one, with what stands at its place.
pub fn verdict_follows_the_outcome()
    ensures yes { (limit : Limit) (marks : Marks) (sessions : List Recorded) (exchanges : List (List Paired)) (L : LimitedSpool)
        → L.limit ≡ limit → spool_at (spool_text L) ≡ Ok L → ArePaired sessions exchanges → SomePermitsEach (profile_of limit marks) (map exchanged exchanges)
        → size (facts_of_all (profile_of limit marks).marks (map exchanged exchanges)) < 2 ^ 210
        → IsGiven (facts_of_all (profile_of limit marks).marks (map exchanged exchanges)) L.spool
        → IsVerdictOfAll limit marks sessions (consistent_of_all L (map length exchanges)) }
    ensures no { (limit : Limit) (marks : Marks) (before : List Recorded) (s : Recorded) (more : List Recorded) (answer : ℕ) (class : Class)
        (command : Option (List ℕ)) (reply : List ℕ)
        → IsOutcomeOfAll (profile_of limit marks) (before ++ s ∷ more) (NoOfAll (length before) answer class)
        → StopsAt s.client s.server answer class command reply
        → IsVerdictOfAll limit marks (before ++ s ∷ more) (bad_of_all (length before) answer class command reply) }
{}
