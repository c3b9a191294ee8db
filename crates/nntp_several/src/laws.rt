//! Laws of several sessions of one spool.
ghost use Rattle.std.specs.Prelude.{Contains, ◌≡◌, ◌↔◌, ◌⊎◌, ◌<◌, ◌^◌, ◌+◌, ℕ, List, [], ◌∷◌, ◌++◌, length, map, Option, IsTrue};
ghost use Rattle.std.specs.List.{AllByRecursion};
ghost use Rattle.nntp_article.specs.Session.Spool.{Spool};
ghost use Rattle.nntp_article.specs.declared.session.profile.Profile.{Profile};
ghost use Rattle.nntp_theory.specs.Given.{IsGiven};
ghost use Rattle.nntp_theory.specs.Inner.Given.{size};
ghost use Rattle.nntp_several.specs.Reading.{ReadSession, IsReadingOfAll};
ghost use Rattle.nntp_several.specs.Inner.Reading.{IsGood, IsFirstBad};
ghost use Rattle.nntp_pair.specs.declared.class.Class.{Class};
ghost use Rattle.nntp_several.specs.Verifying.{VerifiedOfAll, PermitsAll, IsVerifiedOfAll};
ghost use Rattle.nntp_pair.specs.declared.class.Class.TheVariants.{OutOfPlace, Contradiction as Contradicts};
ghost use Rattle.nntp_facts.specs.Inner.Noted.{FactsKept, HasNotedBehind, IsDue, IsNotedBehind, begun};
ghost use Rattle.nntp_theory.specs.Inner.Exchanged.{said_behind};
ghost use Rattle.nntp_theory.specs.Permitted.{exchanged, ArePermittedBehind};
ghost use Rattle.nntp_theory.specs.Conflict.{placed_behind, SomeHas, told_with, below};
ghost use Rattle.nntp_theory.specs.Inner.Conflict.{FitsThere};
ghost use Rattle.nntp_several.specs.Conflict.{placed_of_all};
ghost use Rattle.nntp_theory.specs.declared.noted.Noted.TheVariants.{Consistent, OutOfPlace as NotedOutOfPlace, Contradiction};
ghost use Rattle.nntp_theory.specs.Classes.{visible_from, class_by, HasClass, IsSettled};
ghost use Rattle.nntp_pair.specs.Classes.{class_of};
ghost use Rattle.nntp_pair.specs.Pairing.{Paired, Unpaired, IsNext, AreNext, Ends, end, bad, IsPairing, asked_at, asked_of, responses_of, streams};
ghost use Rattle.nntp_pair.specs.declared.class.PairClass.{PairClass};
ghost use Rattle.nntp_several.specs.Inner.Paired.{ArePaired};
ghost use Rattle.nntp_several.specs.Inner.Passing.{PassedOfAll};
ghost use Rattle.nntp_several.specs.Told.{with_more, IsBadForGoodOfAll, IsToldBadOfAll};
ghost use Rattle.nntp_article.specs.Session.Machine.{start, fits};
ghost use Rattle.nntp_theory.specs.Answered.{SomePermitsEach, facts_of_all};
ghost use Rattle.nntp_several.specs.Sessions.{Recorded, ExplainsEach, ExplainsAll, BadBehind, BadOfAll, answered_by, counts_of};
ghost use Rattle.nntp_several.specs.Inner.Sessions.{octets_of};
ghost use Rattle.nntp_several.specs.Outcome.{OutcomeOfAll, YesOfAll, NoOfAll, IsLeastOfAll, IsOutcomeOfAll};
ghost use Rattle.nntp_several.specs.Inner.Outcome.{is_yes_of_all, of_one};
ghost use Rattle.nntp_article.specs.Session.Explains.{Explains, Bad};
ghost use Rattle.nntp_theory.specs.Reading.{IsReading};
ghost use Rattle.nntp_theory.specs.Outcome.{Outcome, IsOutcome};
ghost use Rattle.nntp_wire.specs.Session.{further};

/// Some spool explains several sessions, or exactly one answer is bad, and never both.
pub fn sessions_are_explained_or_bad()
    ensures explained_or_bad { (profile : Profile) (sessions : List Recorded) → octets_of sessions < 2 ^ 210
        → ((S : Spool) × ExplainsAll profile S sessions) ⊎ ((j : ℕ) × (k : ℕ) × BadOfAll profile sessions j k) }
    ensures never_both { (profile : Profile) (S : Spool) (sessions : List Recorded) (j k : ℕ)
        → ExplainsAll profile S sessions → BadOfAll profile sessions j k → ⊥ }
    ensures one_bad { (profile : Profile) (sessions : List Recorded) (j i k l : ℕ)
        → BadOfAll profile sessions j k → BadOfAll profile sessions i l → (j ≡ i) × (k ≡ l) }
{}

/// Several sessions have exactly one outcome. It is a yes if some spool explains them all, and else
/// a no.
pub fn sessions_have_one_outcome()
    ensures some { (profile : Profile) (sessions : List Recorded) → octets_of sessions < 2 ^ 210 → (outcome : OutcomeOfAll)
        × IsOutcomeOfAll profile sessions outcome }
    ensures one { (profile : Profile) (sessions : List Recorded) (outcome other : OutcomeOfAll)
        → IsOutcomeOfAll profile sessions outcome → IsOutcomeOfAll profile sessions other → outcome ≡ other }
    ensures yes { (profile : Profile) (sessions : List Recorded) (outcome : OutcomeOfAll) → IsOutcomeOfAll profile sessions outcome
        → IsTrue (is_yes_of_all outcome) ↔ ((S : Spool) × ExplainsAll profile S sessions) }
{}

/// If some spool explains them all, then the given spool of all that they say is their least
/// explanation.
pub fn given_spool_explains_sessions()
    ensures { (profile : Profile) (S G : Spool) (sessions : List Recorded) (explained : ExplainsAll profile S sessions)
        → size (facts_of_all profile.marks (answered_by profile S sessions explained.1)) < 2 ^ 210
        → IsGiven (facts_of_all profile.marks (answered_by profile S sessions explained.1)) G
        → IsLeastOfAll profile sessions G (counts_of (answered_by profile S sessions explained.1)) }
{}

/// What is said of one session is what is said of its two streams.
pub fn one_session_is_two_streams()
    ensures explained { (profile : Profile) (S : Spool) (s : Recorded) → ExplainsAll profile S (s ∷ []) ↔ ((n : ℕ) × Explains profile S s.client s.server n) }
    ensures bad { (profile : Profile) (s : Recorded) (k : ℕ) → BadOfAll profile (s ∷ []) 0 k ↔ Bad profile s.client s.server k }
    ensures outcome { (profile : Profile) (s : Recorded) (outcome : Outcome) → IsOutcomeOfAll profile (s ∷ []) (of_one outcome)
        ↔ IsOutcome profile s.client s.server outcome }
    ensures only { (profile : Profile) (s : Recorded) (outcome : OutcomeOfAll) → IsOutcomeOfAll profile (s ∷ []) outcome → (one : Outcome)
        × (outcome ≡ of_one one) }
    ensures reading { (profile : Profile) (s : Recorded) (r : ReadSession) → IsReadingOfAll profile (s ∷ []) (r ∷ [])
        ↔ IsReading profile s.client s.server r.answers r.ending }
{}

/// Several sessions have exactly one reading.
pub fn sessions_have_one_reading()
    ensures some { (profile : Profile) (sessions : List Recorded) → octets_of sessions < 2 ^ 210 → (readings : List ReadSession)
        × IsReadingOfAll profile sessions readings }
    ensures one { (profile : Profile) (sessions : List Recorded) (readings others : List ReadSession)
        → IsReadingOfAll profile sessions readings → IsReadingOfAll profile sessions others → readings ≡ others }
{}

/// The first bad answer of the first session that has one is that of the outcome; and no session
/// has one exactly if some spool explains them all.
pub fn first_bad_session_is_the_outcome()
    ensures first { (profile : Profile) (sessions : List Recorded) (front : List ReadSession) (r : ReadSession) (rest : List ReadSession) (answer : ℕ)
        (class : Class)
        → IsReadingOfAll profile sessions (front ++ r ∷ rest) → AllByRecursion IsGood front → IsFirstBad profile r answer class
        → IsOutcomeOfAll profile sessions (NoOfAll (length front) answer class) }
    ensures good { (profile : Profile) (sessions : List Recorded) (readings : List ReadSession) → IsReadingOfAll profile sessions readings
        → AllByRecursion IsGood readings ↔ ((S : Spool) × ExplainsAll profile S sessions) }
{}

/// Where the pairings of all sessions come to the ends of their servers' octets, and some spool
/// permits their exchanges, the outcome is a yes with the given spool of all that they say.
pub fn outcome_at_the_ends()
    ensures { (profile : Profile) (sessions : List Recorded) (exchanges : List (List Paired)) (G : Spool)
        → size (facts_of_all profile.marks (map exchanged exchanges)) < 2 ^ 210 → ArePaired sessions exchanges
        → SomePermitsEach profile (map exchanged exchanges)
        → IsGiven (facts_of_all profile.marks (map exchanged exchanges)) G → IsOutcomeOfAll profile sessions (YesOfAll G (map length exchanges)) }
{}

/// Behind sessions that are paired to their ends, and exchanges that some spool permits, the outcome
/// is a no at octets at which the pairing ends, and at an exchange that no spool permits.
pub fn outcome_within_a_session()
    ensures octets { (profile : Profile) (before : List Recorded) (earlier : List (List Paired)) (paired : ArePaired before earlier) (s : Recorded)
        (more : List Recorded)
        → SomePermitsEach profile (map exchanged earlier) → (pairs : List Paired) (class : PairClass)
        → IsPairing s.client s.server pairs (bad class) → ArePermittedBehind profile earlier pairs
        → IsOutcomeOfAll profile (before ++ s ∷ more) (NoOfAll (length before) (length pairs) (class_of class)) }
    ensures response { (profile : Profile) (before : List Recorded) (earlier : List (List Paired)) (paired : ArePaired before earlier) (s : Recorded)
        (more : List Recorded)
        → SomePermitsEach profile (map exchanged earlier) → (pairs : List Paired) (pair : Paired) (between after : Unpaired)
        → AreNext (streams s.client s.server) pairs between → IsNext between pair after → ArePermittedBehind profile earlier pairs
        → (ArePermittedBehind profile earlier (pairs ++ pair ∷ []) → ⊥)
        → IsOutcomeOfAll profile (before ++ s ∷ more)
        (NoOfAll (length before) (length pairs) (class_by (fits profile (visible_from start.visible (asked_of pairs) (responses_of pairs)) (asked_at pair.place)
        pair.response))) }
{}

/// The accepted answers of all sessions fit where each stands, and so does one that contradicts
/// them, which no spool has with them.
pub fn contradiction_conflicts_with_all_sessions()
    ensures next { (earlier : List (List Paired)) (past : List Paired) (pair : Paired) → placed_of_all earlier (past ++ pair ∷ []) ≡ placed_of_all earlier past
        ++ placed_behind past pair ∷ [] }
    ensures accepted { (profile : Profile) (facts : FactsKept) (earlier : List (List Paired)) (past : List Paired) → HasNotedBehind profile facts earlier past
        → AllByRecursion (FitsThere profile) (placed_of_all earlier past) }
    ensures contradiction { (profile : Profile) (facts : FactsKept) (earlier : List (List Paired)) (past : List Paired) (pair : Paired)
        → HasNotedBehind profile facts earlier past → IsDue facts pair → IsNotedBehind profile earlier past pair facts facts Contradiction
        → FitsThere profile (placed_behind past pair)
        × (SomeHas profile (told_with profile (placed_behind past pair) (placed_of_all earlier past) (below (length (placed_of_all earlier past)))) → ⊥) }
{}

/// A spool that explains sessions explains some of them, in any order. So the order of sessions
/// decides neither whether some spool explains them, nor which one is given.
pub fn order_of_sessions_decides_no_spool()
    ensures explained { (profile : Profile) (S : Spool) (some all : List Recorded) → ((s : Recorded) → Contains some s → Contains all s)
        → ExplainsAll profile S all → ExplainsAll profile S some }
    ensures given { (profile : Profile) (sessions others : List Recorded) (S T : Spool) (answers counts : List ℕ)
        → ((s : Recorded) → Contains sessions s → Contains others s) → ((s : Recorded) → Contains others s → Contains sessions s)
        → IsLeastOfAll profile sessions S answers → IsLeastOfAll profile others T counts → S ≡ T }
{}

/// What `verify` answers of several sessions is one; and of a spool that explains them all it is
/// that it permits them, with the answers of each.
pub fn sessions_are_verified_in_one_way()
    ensures one { (profile : Profile) (S : Spool) (sessions : List Recorded) (verified other : VerifiedOfAll)
        → IsVerifiedOfAll profile S sessions verified → IsVerifiedOfAll profile S sessions other → verified ≡ other }
    ensures explained { (profile : Profile) (S : Spool) (sessions : List Recorded) (explained : ExplainsEach profile S sessions) (verified : VerifiedOfAll)
        → IsVerifiedOfAll profile S sessions verified → verified ≡ PermitsAll (counts_of (answered_by profile S sessions explained)) }
{}

/// A bad answer is the outcome whatever sessions follow; and where it is settled, whatever octets of
/// its own session follow, too.
pub fn bad_answer_stays_whatever_follows()
    ensures ended { (profile : Profile) (before : List Recorded) (s : Recorded) (more : List Recorded) (answer : ℕ) (class : Class)
        → BadBehind profile before s answer → HasClass profile s.client s.server answer class
        → IsOutcomeOfAll profile (before ++ s ∷ more) (NoOfAll (length before) answer class) }
    ensures settled { (profile : Profile) (before : List Recorded) (s : Recorded) (more_client more_server : List ℕ) (more : List Recorded) (answer : ℕ)
        (class : Class)
        → BadBehind profile before s answer → HasClass profile s.client s.server answer class → IsSettled s.client s.server answer class
        → IsOutcomeOfAll profile (before ++ record { client = further s.client more_client; server = s.server ++ more_server }
        ∷ more) (NoOfAll (length before) answer class) }
{}

/// Sessions are judged one exchange after the other. It begins with a first session of which nothing
/// has passed; an exchange that is noted passes; and where the pairing ends with no octet left, the
/// next session begins, or the outcome is a yes with the given spool. It is a no at octets that answer
/// nothing, and at an exchange that isn't accepted, whatever sessions follow.
pub fn sessions_are_judged_in_turn()
    ensures begins { (profile : Profile) (facts : FactsKept) (s : Recorded) → HasNotedBehind profile facts [] []
        → PassedOfAll profile [] s facts (streams s.client s.server) }
    ensures passes { (profile : Profile) (before : List Recorded) (s : Recorded) (old new : FactsKept) (left after : Unpaired) (pair : Paired)
        (passed : PassedOfAll profile before s old left)
        → IsNext left pair after → IsNotedBehind profile passed.earlier passed.pairs pair old new Consistent → PassedOfAll profile before s new after }
    ensures goes_on { (profile : Profile) (before : List Recorded) (s next : Recorded) (facts : FactsKept) (left : Unpaired) (unanswered : ℕ)
        → PassedOfAll profile before s facts left
        → Ends left (end unanswered) → length before + 1 < 2 ^ 64 → PassedOfAll profile (before ++ s
        ∷ []) next (begun facts) (streams next.client next.server) }
    ensures yes { (profile : Profile) (before : List Recorded) (s : Recorded) (facts : FactsKept) (left : Unpaired) (unanswered : ℕ) (G : Spool)
        (passed : PassedOfAll profile before s facts left)
        → Ends left (end unanswered) → IsGiven (said_behind profile.marks passed.earlier passed.pairs) G
        → IsOutcomeOfAll profile (before ++ s ∷ []) (YesOfAll G (map length (passed.earlier ++ passed.pairs ∷ []))) }
    ensures octets { (profile : Profile) (before : List Recorded) (s : Recorded) (more : List Recorded) (facts : FactsKept) (left : Unpaired)
        (class : PairClass) (passed : PassedOfAll profile before s facts left)
        → Ends left (bad class) → IsOutcomeOfAll profile (before ++ s ∷ more) (NoOfAll (length before) (length passed.pairs) (class_of class)) }
    ensures contradiction { (profile : Profile) (before : List Recorded) (s : Recorded) (more : List Recorded) (old new : FactsKept) (left after : Unpaired)
        (pair : Paired) (passed : PassedOfAll profile before s old left)
        → IsNext left pair after → IsNotedBehind profile passed.earlier passed.pairs pair old new Contradiction
        → IsOutcomeOfAll profile (before ++ s ∷ more) (NoOfAll (length before) (length passed.pairs) Contradicts) }
    ensures out_of_place { (profile : Profile) (before : List Recorded) (s : Recorded) (more : List Recorded) (old new : FactsKept) (left after : Unpaired)
        (pair : Paired) (passed : PassedOfAll profile before s old left)
        → IsNext left pair after → IsNotedBehind profile passed.earlier passed.pairs pair old new NotedOutOfPlace
        → IsOutcomeOfAll profile (before ++ s ∷ more) (NoOfAll (length before) (length passed.pairs) OutOfPlace) }
{}

/// What may be told of sessions as bad is one thing; and where an answer is told, it is the outcome
/// whatever octets of the last session and whatever sessions follow.
pub fn one_of_all_is_told_bad()
    ensures one { (profile : Profile) (before : List Recorded) (s : Recorded) (told other : Option (ℕ × ℕ × Class))
        → IsToldBadOfAll profile before s told → IsToldBadOfAll profile before s other → told ≡ other }
    ensures stays { (profile : Profile) (before : List Recorded) (s : Recorded) (more_client more_server : List ℕ) (more : List Recorded) (j k : ℕ)
        (class : Class)
        → IsBadForGoodOfAll profile before s j k class
        → IsOutcomeOfAll profile (before ++ with_more s more_client more_server ∷ more) (NoOfAll j k class) }
{}
