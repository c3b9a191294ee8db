//! Laws of the reading of two streams by what is noted of it, and those of nntp_theory.
ghost use Rattle.std.specs.{Prelude.{◌≡◌, ℕ, List, [], ◌∷◌, ◌++◌, length, Some}, List.{AllByRecursion}};
ghost use Rattle.nntp_article.specs.declared.session.profile.Profile.{Profile};
ghost use Rattle.nntp_pair.specs.{Pairing.{Paired, Unpaired, IsNext, streams}, declared.class.Class.TheVariants.{OutOfPlace, Contradiction}};
ghost use Rattle.nntp_theory.specs.declared.noted.Noted.TheVariants.{Consistent, OutOfPlace as NotedOutOfPlace, Contradiction as NotedContradiction};
ghost use Rattle.nntp_theory.specs.{Conflict.{placed_of, placed_behind, SomeHas, told_with, below}, Inner.Conflict.{FitsThere}, Permitted.{ArePermitted}};
ghost use Rattle.nntp_theory.specs.Reading.{Judged, Accepted, Refused, accepted_of, accepted_with, IsJudged, AreJudged, class_behind};
ghost use Rattle.nntp_facts.specs.Inner.Noted.{FactsKept, HasNoted, IsNoted, IsDue};
ghost use Rattle.nntp_wire.specs.Session.{ClientStream};

pub use nntp_theory::laws::reading::{
    accepted_answers_are_permitted, first_bad_answer_is_the_outcome,
    reading_without_bad_answers_is_explained, streams_have_one_reading,
};

/// Behind answers that are judged the next one is judged by those that were accepted. The index
/// counts all answers, and where a pair comes next, none of the accepted ones closed the connection.
pub fn next_answer_is_judged()
    ensures answers { (profile : Profile) (client : ClientStream) (server : List ℕ) (answers : List Judged) (answer : Judged) (left after : Unpaired)
        → AreJudged (ArePermitted profile) [] (streams client server) answers left → IsJudged (ArePermitted profile) (accepted_of answers) left answer after
        → AreJudged (ArePermitted profile) [] (streams client server) (answers ++ answer ∷ []) after }
    ensures accepted { (answers : List Judged) (answer : Judged) → accepted_of (answers ++ answer ∷ []) ≡ accepted_with (accepted_of answers) answer }
    ensures index { (profile : Profile) (client : ClientStream) (server : List ℕ) (answers : List Judged) (left : Unpaired)
        → AreJudged (ArePermitted profile) [] (streams client server) answers left → left.index ≡ length answers }
    ensures due { (profile : Profile) (client : ClientStream) (server : List ℕ) (answers : List Judged) (left after : Unpaired) (pair : Paired)
        (facts : FactsKept)
        → AreJudged (ArePermitted profile) [] (streams client server) answers left → HasNoted profile facts (accepted_of answers) → IsNext left pair after
        → IsDue facts pair }
{}

/// What is noted of the next exchange says how it is judged, and of which class it is where it is
/// bad.
pub fn noted_exchange_is_judged()
    ensures consistent { (profile : Profile) (past : List Paired) (pair : Paired) (old new : FactsKept) (before after : Unpaired)
        → IsNoted profile past pair old new Consistent → IsNext before pair after → IsJudged (ArePermitted profile) past before (Accepted pair) after }
    ensures out_of_place { (profile : Profile) (past : List Paired) (pair : Paired) (old new : FactsKept) (before after : Unpaired)
        → HasNoted profile old past → IsNoted profile past pair old new NotedOutOfPlace → IsNext before pair after
        → IsJudged (ArePermitted profile) past before (Refused pair) after × (class_behind profile past (Refused pair) ≡ Some OutOfPlace) }
    ensures contradiction { (profile : Profile) (past : List Paired) (pair : Paired) (old new : FactsKept) (before after : Unpaired)
        → HasNoted profile old past → IsNoted profile past pair old new NotedContradiction → IsNext before pair after
        → IsJudged (ArePermitted profile) past before (Refused pair) after × (class_behind profile past (Refused pair) ≡ Some Contradiction) }
{}

/// The accepted exchanges fit where they stand, and so does one that contradicts them, which no
/// spool has with them. So [`Core::find`](crate::Core::find) may be called.
pub fn noted_contradiction_conflicts()
    ensures next { (past : List Paired) (pair : Paired) → placed_of (past ++ pair ∷ []) ≡ placed_of past ++ placed_behind past pair ∷ [] }
    ensures accepted { (profile : Profile) (facts : FactsKept) (past : List Paired) → HasNoted profile facts past
        → AllByRecursion (FitsThere profile) (placed_of past) }
    ensures contradiction { (profile : Profile) (past : List Paired) (pair : Paired) (old new : FactsKept)
        → HasNoted profile old past → IsDue old pair → IsNoted profile past pair old new NotedContradiction
        → FitsThere profile (placed_behind past pair)
        × (SomeHas profile (told_with profile (placed_behind past pair) (placed_of past) (below (length (placed_of past)))) → ⊥) }
{}
