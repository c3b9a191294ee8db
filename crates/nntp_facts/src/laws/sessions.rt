//! Laws of several sessions by what is noted of them, and those of nntp_theory.
ghost use Rattle.std.specs.Prelude.{◌≡◌, ◌↔◌, ◌<◌, ◌^◌, ◌+◌, List, [], ◌∷◌, ◌++◌, length, Some};
ghost use Rattle.nntp_article.specs.declared.session.profile.Profile.{Profile};
ghost use Rattle.nntp_theory.specs.{Inner.{Together.{Together, Join}, Exchanged.{said_behind}, Permits.{SomePermits}}, Permitted.{ArePermitted}};
ghost use Rattle.nntp_theory.specs.{Permitted.{ArePermittedBehind}, declared.noted.Noted.TheVariants.{Consistent, OutOfPlace as NotedOutOfPlace}};
ghost use Rattle.nntp_theory.specs.{declared.noted.Noted.TheVariants.{Contradiction}, Reading.{Accepted, Refused, IsJudged, class_behind}};
ghost use Rattle.nntp_pair.specs.{declared.class.Class.TheVariants.{OutOfPlace, Contradiction as Contradicts}, Pairing.{Paired, Unpaired, IsNext, asked_of}};
ghost use Rattle.nntp_pair.specs.Pairing.{responses_of};
ghost use Rattle.nntp_facts.specs.Inner.Noted.{FactsKept, HasNotedBehind, IsNotedBehind, begun, advanced, said_then, MayBeNoted};
ghost use Rattle.nntp_kept.specs.Inner.{Kept.{Kept, IsKept}, Saying.{IsSelectedShown}};

pub use nntp_theory::laws::sessions::{
    next_answer_joins_all_sessions, sessions_are_permitted_by_facts,
    sessions_are_permitted_where_all_stands_together,
};

/// The exchanges of a first session are permitted exactly if some spool permits them as a session.
/// Where facts are those of sessions, they are so as the next session begins, with a visible state
/// and a place of its own.
pub fn session_begins_behind_others()
    ensures alone { (profile : Profile) (past : List Paired) → ArePermitted profile past ↔ SomePermits profile (asked_of past) (responses_of past) }
    ensures begins { (profile : Profile) (facts : FactsKept) (earlier : List (List Paired)) (past : List Paired) → HasNotedBehind profile facts earlier past
        → length earlier + 1 < 2 ^ 64 → HasNotedBehind profile (begun facts) (earlier ++ past ∷ []) [] }
{}

/// What was noted of sessions stands together, and shows the group that is selected. A further
/// exchange that may be noted is accepted exactly if what it says joins all that was said; and then
/// the facts advance, with what is kept of it.
pub fn exchange_is_noted_behind_others()
    ensures stands { (profile : Profile) (facts : FactsKept) (earlier : List (List Paired)) (past : List Paired) → HasNotedBehind profile facts earlier past
        → Together (said_behind profile.marks earlier past) × IsSelectedShown facts.visible (said_behind profile.marks earlier past) }
    ensures consistent { (profile : Profile) (facts : FactsKept) (earlier : List (List Paired)) (past : List Paired) (pair : Paired) (kept : Kept)
        → HasNotedBehind profile facts earlier past → MayBeNoted profile facts pair
        → Join (said_behind profile.marks earlier past) (said_then profile facts pair)
        → IsKept (said_behind profile.marks earlier past ++ said_then profile facts pair) kept
        → IsNotedBehind profile earlier past pair facts (advanced facts pair kept) Consistent }
    ensures contradiction { (profile : Profile) (facts : FactsKept) (earlier : List (List Paired)) (past : List Paired) (pair : Paired)
        → HasNotedBehind profile facts earlier past → MayBeNoted profile facts pair
        → (Join (said_behind profile.marks earlier past) (said_then profile facts pair) → ⊥)
        → IsNotedBehind profile earlier past pair facts facts Contradiction }
{}

/// What is noted of the next exchange behind other sessions says how it is judged in the reading that
/// goes on, and of which class it is where it is bad.
pub fn noted_exchange_is_judged_behind_others()
    ensures consistent { (profile : Profile) (earlier : List (List Paired)) (past : List Paired) (pair : Paired) (old new : FactsKept) (before after : Unpaired)
        → IsNotedBehind profile earlier past pair old new Consistent → IsNext before pair after
        → IsJudged (ArePermittedBehind profile earlier) past before (Accepted pair) after }
    ensures contradiction { (profile : Profile) (earlier : List (List Paired)) (past : List Paired) (pair : Paired) (old new : FactsKept)
        (before after : Unpaired)
        → HasNotedBehind profile old earlier past → IsNotedBehind profile earlier past pair old new Contradiction → IsNext before pair after
        → IsJudged (ArePermittedBehind profile earlier) past before (Refused pair) after × (class_behind profile past (Refused pair) ≡ Some Contradicts) }
    ensures out_of_place { (profile : Profile) (earlier : List (List Paired)) (past : List Paired) (pair : Paired) (old new : FactsKept)
        (before after : Unpaired)
        → HasNotedBehind profile old earlier past → IsNotedBehind profile earlier past pair old new NotedOutOfPlace → IsNext before pair after
        → IsJudged (ArePermittedBehind profile earlier) past before (Refused pair) after × (class_behind profile past (Refused pair) ≡ Some OutOfPlace) }
{}
