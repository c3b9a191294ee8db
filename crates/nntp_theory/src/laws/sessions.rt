//! Laws of several sessions of one spool, by what their answers say.
ghost use Rattle.std.specs.{Prelude.{◌≡◌, ◌↔◌, ◌⊎◌, ◌<◌, ◌^◌, ◌+◌, false, List, [], ◌∷◌, ◌++◌, length, map, Some, IsTrue}, List.{AllByRecursion}};
ghost use Rattle.nntp_article.specs.{Session.{Spool.{Spool, IsSpool}, Machine.{start, fits}}, declared.session.profile.Profile.{Profile}};
ghost use Rattle.nntp_said.specs.{Facts.{Holds, facts_of}, declared.position.Position.TheVariants.{Nowhere}};
ghost use Rattle.nntp_theory.specs.{Given.{IsGiven, HasAtLeast, facts_of_session}, Inner.{Given.{size}, Together.{Together, Join}, Exchanged.{AreFew}}};
ghost use Rattle.nntp_theory.specs.{Inner.Answered.{FitEach}, Permitted.{exchanged}, Classes.{visible_from, position_from, asked_next}, Answered.{Answered}};
ghost use Rattle.nntp_theory.specs.Answered.{PermitsEach, SomePermitsEach, facts_of_all};
ghost use Rattle.nntp_pair.specs.Pairing.{Paired};
ghost use Rattle.nntp_wire.specs.{Answer.{Asked, Response}, declared.marks.Marks.{Marks}};

/// A spool permits each of several sessions exactly if each fits and all that their answers say
/// holds of it.
#[tactic(auto, using(crate::proofs::Given::SessionsByFacts::said_each, crate::proofs::Given::SessionsByFacts::permits_each))]
pub fn sessions_are_permitted_by_facts()
    ensures { (profile : Profile) (S : Spool) (sessions : List Answered)
        → PermitsEach profile S sessions ↔ (FitEach profile sessions × AllByRecursion (Holds S) (facts_of_all profile.marks sessions)) }
{}

/// Some spool permits each of them exactly if each fits and what all say stands together; and that
/// is decided. Then the given spool of all that they say permits them, and is the least that does.
pub fn sessions_are_permitted_where_all_stands_together()
    ensures exactly_if { (profile : Profile) (sessions : List Answered) → size (facts_of_all profile.marks sessions) < 2 ^ 210
        → SomePermitsEach profile sessions ↔ (FitEach profile sessions × Together (facts_of_all profile.marks sessions)) }
    ensures decided { (profile : Profile) (sessions : List Answered) → size (facts_of_all profile.marks sessions) < 2 ^ 210
        → SomePermitsEach profile sessions ⊎ (SomePermitsEach profile sessions → ⊥) }
    ensures given_exists { (profile : Profile) (sessions : List Answered) → FitEach profile sessions → size (facts_of_all profile.marks sessions) < 2 ^ 210
        → (G : Spool) × IsGiven (facts_of_all profile.marks sessions) G }
    ensures given_permits { (profile : Profile) (G : Spool) (sessions : List Answered) → FitEach profile sessions
        → Together (facts_of_all profile.marks sessions)
        → size (facts_of_all profile.marks sessions) < 2 ^ 210 → IsGiven (facts_of_all profile.marks sessions) G → IsSpool profile.limit G
        × PermitsEach profile G sessions }
    ensures given_is_least { (profile : Profile) (S G : Spool) (sessions : List Answered) → IsSpool profile.limit S → PermitsEach profile S sessions
        → IsGiven (facts_of_all profile.marks sessions) G → HasAtLeast (facts_of_all profile.marks sessions) G S }
{}

/// Behind sessions that some spool permits, some spool permits one answer more of the last one
/// exactly if it fits its own session, and what it says joins what all sessions said.
pub fn next_answer_joins_all_sessions()
    ensures answer { (profile : Profile) (earlier : List Answered) (prompts : List Asked) (answers : List Response) (asked : Asked) (response : Response)
        → asked_next prompts answers ≡ Some asked
        → size (facts_of_all profile.marks (earlier ++ record { prompts = prompts; answers = answers ++ response ∷ [] } ∷ [])) < 2 ^ 210
        → SomePermitsEach profile (earlier ++ record { prompts = prompts; answers = answers } ∷ [])
        → SomePermitsEach profile (earlier ++ record { prompts = prompts; answers = answers ++ response ∷ [] } ∷ [])
        ↔ (((visible_from start.visible prompts answers).closed ≡ false) × IsTrue (fits profile (visible_from start.visible prompts answers) asked response)
        × Join (facts_of_all profile.marks earlier ++ facts_of_session profile.marks prompts answers)
        (facts_of profile.marks (visible_from start.visible prompts answers) (position_from Nowhere prompts answers) asked response)) }
    ensures size { (how : Marks) (earlier : List (List Paired)) (past : List Paired) → length earlier < 2 ^ 64 → AllByRecursion AreFew earlier → AreFew past
        → size (facts_of_all how (map exchanged earlier ++ exchanged past ∷ [])) < 2 ^ 210 }
{}
