//! Laws of the reading of two streams, which goes on behind bad answers.
ghost use Rattle.std.specs.Prelude.{◌≡◌, ℕ, ◌↔◌, ◌≤◌, ◌<◌, ◌^◌, List, [], ◌∷◌, ◌++◌, length, map, Some};
ghost use Rattle.nntp_article.specs.{Session.{Spool.{Spool}, Explains.{Explains}}, declared.session.profile.Profile.{Profile}};
ghost use Rattle.nntp_pair.specs.{declared.class.{PairClass.{PairClass}, Class.{Class}}, Pairing.{Paired, Unpaired, Ending, end, bad, asked_of, responses_of}};
ghost use Rattle.nntp_pair.specs.{Pairing.{streams}, Classes.{class_of}};
ghost use Rattle.nntp_theory.specs.{Given.{facts_of_session}, Inner.Given.{size}, Permitted.{ArePermitted}, Outcome.{No, IsOutcome}, Reading.{Judged}};
ghost use Rattle.nntp_theory.specs.Reading.{Accepted, accepted_of, AreJudged, class_behind, IsReading};
ghost use Rattle.nntp_wire.specs.Session.{ClientStream};

/// Two streams have exactly one reading.
pub fn streams_have_one_reading()
    ensures some { (profile : Profile) (client : ClientStream) (server : List ℕ) → length server < 2 ^ 210
        → (answers : List Judged) × (ending : Ending) × IsReading profile client server answers ending }
    ensures one { (profile : Profile) (client : ClientStream) (server : List ℕ) (answers others : List Judged) (ending other : Ending)
        → IsReading profile client server answers ending → IsReading profile client server others other → (answers ≡ others) × (ending ≡ other) }
{}

/// The first bad answer of a reading is that of the outcome, of its class; where all answers are
/// accepted, these are the octets at which the reading ends.
pub fn first_bad_answer_is_the_outcome()
    ensures answer { (profile : Profile) (client : ClientStream) (server : List ℕ) (pairs : List Paired) (answer : Judged) (more : List Judged)
        (ending : Ending) (class : Class)
        → IsReading profile client server (map Accepted pairs ++ answer ∷ more) ending → class_behind profile pairs answer ≡ Some class
        → IsOutcome profile client server (No (length pairs) class) }
    ensures octets { (profile : Profile) (client : ClientStream) (server : List ℕ) (pairs : List Paired) (class : PairClass)
        → IsReading profile client server (map Accepted pairs) (bad class) → IsOutcome profile client server (No (length pairs) (class_of class)) }
{}

/// All answers of a reading are accepted, and no octet is left, exactly if some spool explains both
/// streams.
pub fn reading_without_bad_answers_is_explained()
    ensures { (profile : Profile) (client : ClientStream) (server : List ℕ) (answers : List Judged) (ending : Ending)
        → IsReading profile client server answers ending → ((answers ≡ map Accepted (accepted_of answers)) × (unanswered : ℕ) × (ending ≡ end unanswered))
        ↔ ((S : Spool) × (n : ℕ) × Explains profile S client server n) }
{}

/// Some spool permits the accepted answers together, and what they say is bounded by the server's
/// octets.
pub fn accepted_answers_are_permitted()
    ensures permitted { (profile : Profile) (client : ClientStream) (server : List ℕ) (answers : List Judged) (left : Unpaired)
        → AreJudged (ArePermitted profile) [] (streams client server) answers left → ArePermitted profile (accepted_of answers) }
    ensures size { (profile : Profile) (client : ClientStream) (server : List ℕ) (answers : List Judged) (left : Unpaired)
        → AreJudged (ArePermitted profile) [] (streams client server) answers left
        → size (facts_of_session profile.marks (asked_of (accepted_of answers)) (responses_of (accepted_of answers))) ≤ length server }
{}
