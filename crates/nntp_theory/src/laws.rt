//! Laws that follow from the definitions alone.
ghost use Rattle.std.specs.{Prelude.{◌≡◌, ℕ, Contains, ◌↔◌, ◌≤◌, ◌<◌, ◌+◌, ◌^◌, ◌⊎◌, false, List, [], ◌∷◌, ◌++◌, length, IsTrue, Some}, List.{AllByRecursion}};
ghost use Rattle.std.specs.{List.{flat_map}, FinMap.{insert, len}};
ghost use Rattle.nntp_article.specs.Session.{Spool.{Spool, Numbers, IsNumber, IsGroup, IsSpool, Name}, Machine.{Run, start, fits, Visible, visible_after}};
ghost use Rattle.nntp_article.specs.{Session.Explains.{Explains, ExplainsUpTo, Bad}, declared.session.profile.Profile.{Profile}};
ghost use Rattle.nntp_said.specs.{Asks.{Meets, Ask, position_after}, declared.position.Position.{Position, TheVariants.{Nowhere}}, Inner.Facts.{FitsAll}};
ghost use Rattle.nntp_said.specs.Facts.{Holds, Fact, facts_of, facts_from};
ghost use Rattle.nntp_theory.specs.Given.{asks_of, is_known, demand, IsOneMore, IsGivenNumber, HasGivenNumbers, IsGiven, facts_of_session, HasAtLeast, join};
ghost use Rattle.nntp_theory.specs.Inner.{Given.{size, weight}, Together.{IsWellFormed, Together, AgreeWithin, Join}, Permits.{SomePermits}};
ghost use Rattle.nntp_theory.specs.{Inner.{Permits.{IsFirstUnpermitted}, Outcome.{is_yes}, Conflict.{FitsThere, IsPartOfCore}}, Together.{MeetsDemand}};
ghost use Rattle.nntp_theory.specs.{Outcome.{Outcome, Yes, No, IsOutcome}, Classes.{HasClass, IsSettled, class_by, visible_from, position_from, asked_next}};
ghost use Rattle.nntp_theory.specs.Conflict.{Placed, placed_from, a_group, told, SomeHas, told_with, below, Point, ConflictAt, IsFirstPoint, IsCore};
ghost use Rattle.nntp_theory.specs.Conflict.{IsEndOfCore, AreAmong};
ghost use Rattle.nntp_wire.specs.{Inner.Octets.{are_octets}, Session.{prompts_of, Spelled, ClientStream, further}, Answer.{Asked, Response, Spells}};
ghost use Rattle.nntp_wire.specs.declared.marks.Marks.{Marks, TheVariants.{Strict}};
ghost use Rattle.nntp_pair.specs.{declared.class.{Class.{Class, TheVariants.{OutOfPlace}}, PairClass.{PairClass}}, Classes.{class_of}, Pairing.{Paired}};
ghost use Rattle.nntp_pair.specs.Pairing.{Unpaired, IsNext, AreNext, IsBad, Ending, end, bad, IsPairing, responses_of, asked_of, asked_at, streams};
ghost use Rattle.nntp_pair.specs.Inner.Pairing.{IsLasting, HasPairs, lines_in};

pub mod reading;
pub mod sessions;

/// The given numbers of a group meet what is asked of them, if a spool's numbers do.
pub fn given_numbers_meet_what_is_asked()
    ensures { (limit : ℕ) (S : Spool) (facts : List Fact) (name : Name) (G : Numbers)
        → IsSpool limit S → AllByRecursion (Holds S) facts → HasGivenNumbers (asks_of name facts) G → AllByRecursion (Meets G) (asks_of name facts) }
{}

/// The given numbers of a group are those that are known and, if there is one, the one more number.
/// With it the demand on the first number is met; without it the demand is met exactly if the known
/// numbers meet it.
pub fn given_numbers_are_counted()
    ensures demand_met { (asks : List Ask) (e : ℕ) → IsOneMore asks e → MeetsDemand (demand asks) (IsGivenNumber asks) }
    ensures demand_of_known { (asks : List Ask) → ((e : ℕ) → IsOneMore asks e → ⊥)
        → MeetsDemand (demand asks) (IsGivenNumber asks) ↔ MeetsDemand (demand asks) (λ n. IsTrue (is_known asks n)) }
    ensures none_more { (asks : List Ask) (M : Numbers) → ((n : ℕ) → IsNumber M n ↔ IsTrue (is_known asks n))
        → ((e : ℕ) → IsOneMore asks e → ⊥) → HasGivenNumbers asks M }
    ensures one_more { (asks : List Ask) (M : Numbers) (e : ℕ) → ((n : ℕ) → IsNumber M n ↔ IsTrue (is_known asks n)) → IsOneMore asks e
        → HasGivenNumbers asks (insert M e []) × (len (insert M e []) ≡ len M + 1) }
    ensures as_many { (asks : List Ask) (N M : Numbers) → HasGivenNumbers asks N → HasGivenNumbers asks M → len N ≡ len M }
{}

/// Where marks are strict, no number is given beside those that are shown and the marks.
pub fn strict_marks_are_all_that_is_added()
    ensures { (profile : Profile) (prompts : List Asked) (answers : List Response) (name : Name) (n : ℕ)
        → profile.marks ≡ Strict → FitsAll profile start.visible prompts answers
        → IsOneMore (asks_of name (facts_of_session profile.marks prompts answers)) n → ⊥ }
{}

/// For some facts there is at most one given spool.
#[tactic(auto, using(crate::proofs::Given::OneGivenSpool::given_once))]
pub fn given_spool_is_one()
    ensures { (facts : List Fact) (G H : Spool) → IsGiven facts G → IsGiven facts H → G ≡ H }
{}

/// The size of what a session says is bounded by its answers and their lines. So it is below 2^210
/// for fewer than 2^64 answers, each of fewer than 2^64 lines.
#[tactic(auto, using(crate::proofs::Ids::SizeOfASession::session_size, crate::proofs::Ids::SizeOfASession::pairs_weight))]
pub fn size_is_bounded()
    ensures answers { (how : Marks) (prompts : List Asked) (answers : List Response) → size (facts_of_session how prompts answers) ≤ weight answers }
    ensures pairs { (how : Marks) (pairs : List Paired) → AllByRecursion (λ pair. lines_in pair.response < 2 ^ 64) pairs → length pairs < 2 ^ 64
        → size (facts_of_session how (asked_of pairs) (responses_of pairs)) < 2 ^ 210 }
{}

/// The size of what a session says is at most the number of octets that spell its answers, and so
/// of the server's octets.
pub fn size_is_bounded_by_octets()
    ensures spelled { (how : Marks) (prompts : List Asked) (answers : List Response) (octets : List ℕ)
        → Spelled prompts answers octets → size (facts_of_session how prompts answers) ≤ length octets }
    ensures paired { (how : Marks) (client : ClientStream) (server : List ℕ) (pairs : List Paired) (left : Unpaired)
        → AreNext (streams client server) pairs left → size (facts_of_session how (asked_of pairs) (responses_of pairs)) ≤ length server }
{}

/// A session with one answer more says what it said before, and then what that answer says. It fits
/// if it fitted before and left the connection open, and the answer fits the state that it left.
pub fn answers_add_up()
    ensures facts { (how : Marks) (v : Visible) (at : Position) (prompts : List Asked) (answers : List Response) (asked : Asked) (response : Response)
        → asked_next prompts answers ≡ Some asked → facts_from how v at prompts (answers ++ response ∷ []) ≡ facts_from how v at prompts answers ++ facts_of how
        (visible_from v prompts answers) (position_from at prompts answers) asked response }
    ensures fitting { (profile : Profile) (v : Visible) (prompts : List Asked) (answers : List Response) (asked : Asked) (response : Response)
        → asked_next prompts answers ≡ Some asked → FitsAll profile v prompts (answers ++ response ∷ [])
        ↔ (FitsAll profile v prompts answers × ((visible_from v prompts answers).closed ≡ false)
        × IsTrue (fits profile (visible_from v prompts answers) asked response)) }
    ensures visible { (v : Visible) (prompts : List Asked) (answers : List Response) (asked : Asked) (response : Response)
        → asked_next prompts answers ≡ Some asked
        → visible_from v prompts (answers ++ response ∷ []) ≡ visible_after (visible_from v prompts answers) asked response }
    ensures position { (at : Position) (prompts : List Asked) (answers : List Response) (asked : Asked) (response : Response)
        → asked_next prompts answers ≡ Some asked
        → position_from at prompts (answers ++ response ∷ []) ≡ position_after (position_from at prompts answers) asked response }
{}

/// The names, ids and lines in what an answer says are such, if octets spell the answer.
pub fn spelled_answers_are_well_formed()
    ensures { (how : Marks) (v : Visible) (at : Position) (asked : Asked) (response : Response) (octets : List ℕ)
        → Spells asked response octets → IsTrue (are_octets octets) → AllByRecursion IsWellFormed (facts_of how v at asked response) }
{}

/// No prompt matters but those that are answered. Where answers are paired, these are the prompts
/// of the lines of the pairs.
pub fn answered_prompts_matter()
    ensures permitted { (profile : Profile) (prompts more : List Asked) (answers : List Response) → length prompts ≡ length answers
        → SomePermits profile (prompts ++ more) answers ↔ SomePermits profile prompts answers }
    ensures facts { (how : Marks) (v : Visible) (at : Position) (prompts more : List Asked) (answers : List Response) → length prompts ≡ length answers
        → facts_from how v at (prompts ++ more) answers ≡ facts_from how v at prompts answers }
    ensures visible { (v : Visible) (prompts more : List Asked) (answers : List Response) → length prompts ≡ length answers
        → visible_from v (prompts ++ more) answers ≡ visible_from v prompts answers }
    ensures next { (prompts more : List Asked) (asked : Asked) (answers : List Response) → length prompts ≡ length answers
        → asked_next (prompts ++ asked ∷ more) answers ≡ Some asked }
    ensures paired { (client : ClientStream) (server : List ℕ) (pairs : List Paired) (left : Unpaired) → AreNext (streams client server) pairs left
        → (more : List Asked) × (prompts_of client ≡ asked_of pairs ++ more) }
    ensures pairs_permitted { (profile : Profile) (client : ClientStream) (server : List ℕ) (pairs : List Paired) (left : Unpaired)
        → AreNext (streams client server) pairs left
        → SomePermits profile (prompts_of client) (responses_of pairs) ↔ SomePermits profile (asked_of pairs) (responses_of pairs) }
{}

/// A session without answers is permitted by some spool.
pub fn no_answers_are_permitted()
    ensures { (profile : Profile) (prompts : List Asked) → SomePermits profile prompts [] }
{}

/// If a spool permits a session, then so does the given spool.
pub fn given_spool_permits()
    ensures { (profile : Profile) (S G : Spool) (prompts : List Asked) (answers : List Response)
        → IsSpool profile.limit S → Run profile S start prompts answers → size (facts_of_session profile.marks prompts answers) < 2 ^ 210
        → IsGiven (facts_of_session profile.marks prompts answers) G → IsSpool profile.limit G × Run profile G start prompts answers }
{}

/// A spool that permits a session lacks nothing that the session shows, and has no fewer numbers in
/// a group than the given one.
#[tactic(auto, using(crate::proofs::Given::GivenPermits::given_is_least))]
pub fn given_spool_is_least()
    ensures { (profile : Profile) (S G : Spool) (prompts : List Asked) (answers : List Response)
        → IsSpool profile.limit S → Run profile S start prompts answers → size (facts_of_session profile.marks prompts answers) < 2 ^ 210
        → IsGiven (facts_of_session profile.marks prompts answers) G → HasAtLeast (facts_of_session profile.marks prompts answers) G S }
{}

/// If a spool permits a session, then a spool is given for it.
pub fn given_spool_exists()
    ensures { (profile : Profile) (S : Spool) (prompts : List Asked) (answers : List Response)
        → IsSpool profile.limit S → Run profile S start prompts answers → size (facts_of_session profile.marks prompts answers) < 2 ^ 210
        → (G : Spool) × IsGiven (facts_of_session profile.marks prompts answers) G }
{}

/// Some spool permits a session exactly if each answer fits and what the answers say stands together.
pub fn permitted_where_all_stands_together()
    ensures of_spool { (limit : ℕ) (S : Spool) (facts : List Fact) → IsSpool limit S → AllByRecursion (Holds S) facts → Together facts }
    ensures only_if { (profile : Profile) (prompts : List Asked) (answers : List Response)
        → SomePermits profile prompts answers → FitsAll profile start.visible prompts answers × Together (facts_of_session profile.marks prompts answers) }
    ensures exactly_if { (profile : Profile) (prompts : List Asked) (answers : List Response) → size (facts_of_session profile.marks prompts answers) < 2 ^ 210
        → SomePermits profile prompts answers ↔ (FitsAll profile start.visible prompts answers × Together (facts_of_session profile.marks prompts answers)) }
    ensures given_exists { (profile : Profile) (prompts : List Asked) (answers : List Response)
        → FitsAll profile start.visible prompts answers → size (facts_of_session profile.marks prompts answers) < 2 ^ 210 → (G : Spool)
        × IsGiven (facts_of_session profile.marks prompts answers) G }
    ensures given_permits { (profile : Profile) (G : Spool) (prompts : List Asked) (answers : List Response)
        → FitsAll profile start.visible prompts answers → Together (facts_of_session profile.marks prompts answers)
        → size (facts_of_session profile.marks prompts answers) < 2 ^ 210
        → IsGiven (facts_of_session profile.marks prompts answers) G → IsSpool profile.limit G × Run profile G start prompts answers }
{}

/// Some spool permits one answer more behind answers that some spool permits, exactly if it fits
/// and what it says joins what was said.
pub fn next_answer_is_permitted_where_it_joins()
    ensures demand { (asks more : List Ask) → demand (asks ++ more) ≡ join (demand asks) (demand more) }
    ensures facts { (facts more : List Fact) → Together facts → AgreeWithin more → Together (facts ++ more) ↔ Join facts more }
    ensures within { (how : Marks) (v : Visible) (at : Position) (asked : Asked) (response : Response) → AgreeWithin (facts_of how v at asked response) }
    ensures answer { (profile : Profile) (prompts : List Asked) (answers : List Response) (asked : Asked) (response : Response)
        → asked_next prompts answers ≡ Some asked → size (facts_of_session profile.marks prompts (answers ++ response ∷ [])) < 2 ^ 210
        → SomePermits profile prompts answers → SomePermits profile prompts (answers ++ response ∷ [])
        ↔ (((visible_from start.visible prompts answers).closed ≡ false) × IsTrue (fits profile (visible_from start.visible prompts answers) asked response)
        × Join (facts_of_session profile.marks prompts answers) (facts_of profile.marks (visible_from start.visible prompts answers)
        (position_from Nowhere prompts answers) asked response)) }
{}

/// Either some spool permits a session, or none does.
#[tactic(auto, using(crate::proofs::Given::SessionsByFacts::some_or_none))]
pub fn some_spool_permits_or_none()
    ensures { (profile : Profile) (prompts : List Asked) (answers : List Response) → size (facts_of_session profile.marks prompts answers) < 2 ^ 210
        → SomePermits profile prompts answers ⊎ (SomePermits profile prompts answers → ⊥) }
{}

/// Some spool permits a session, or exactly one answer is bad, and never both.
pub fn one_answer_is_bad()
    ensures permitted_or_bad { (profile : Profile) (prompts : List Asked) (answers : List Response)
        → size (facts_of_session profile.marks prompts answers) < 2 ^ 210
        → SomePermits profile prompts answers ⊎ ((k : ℕ) × IsFirstUnpermitted profile prompts answers k) }
    ensures never_both { (profile : Profile) (prompts : List Asked) (answers : List Response) (k : ℕ)
        → SomePermits profile prompts answers → IsFirstUnpermitted profile prompts answers k → ⊥ }
    ensures one_bad { (profile : Profile) (prompts : List Asked) (answers : List Response) (k j : ℕ)
        → IsFirstUnpermitted profile prompts answers k → IsFirstUnpermitted profile prompts answers j → k ≡ j }
{}

/// Some spool explains two streams, or exactly one answer is bad, and never both.
pub fn streams_are_explained_or_bad()
    ensures explained_or_bad { (profile : Profile) (client : ClientStream) (server : List ℕ) → length server < 2 ^ 210
        → ((S : Spool) × (n : ℕ) × Explains profile S client server n) ⊎ ((k : ℕ) × Bad profile client server k) }
    ensures never_both { (profile : Profile) (S : Spool) (client : ClientStream) (server : List ℕ) (n k : ℕ)
        → Explains profile S client server n → Bad profile client server k → ⊥ }
    ensures one_bad { (profile : Profile) (client : ClientStream) (server : List ℕ) (k j : ℕ)
        → Bad profile client server k → Bad profile client server j → k ≡ j }
{}

/// A bad answer has one class.
pub fn bad_answer_has_one_class()
    ensures { (profile : Profile) (client : ClientStream) (server : List ℕ) (k : ℕ) → Bad profile client server k
        → (class : Class) × HasClass profile client server k class × ((other : Class) → HasClass profile client server k other → other ≡ class) }
{}

/// A bad answer whose frame is whole, or that comes after the connection was closed, is bad of the
/// same class whatever octets follow.
pub fn settled_answer_stays_bad()
    ensures { (profile : Profile) (client : ClientStream) (server more_client more_server : List ℕ) (k : ℕ) (class : Class)
        → HasClass profile client server k class → IsSettled client server k class → Bad profile client server k
        → Bad profile (further client more_client) (server ++ more_server) k × HasClass profile (further client more_client) (server ++ more_server) k class }
{}

/// Where the pairing of two streams ends at octets, these have the class of that end, which is
/// settled exactly if the end is lasting.
#[tactic(auto, using(crate::proofs::Streams::ClassAtTheEnd::end_has_class, crate::proofs::Streams::ClassAtTheEnd::settled_lasts))]
pub fn pairing_ends_in_class()
    ensures class { (profile : Profile) (client : ClientStream) (server : List ℕ) (pairs : List Paired) (left : Unpaired) (class : PairClass)
        → AreNext (streams client server) pairs left → IsBad class left → HasClass profile client server (length pairs) (class_of class) }
    ensures settled { (client : ClientStream) (server : List ℕ) (pairs : List Paired) (left : Unpaired) (class : PairClass)
        → AreNext (streams client server) pairs left → IsSettled client server (length pairs) (class_of class) ↔ IsLasting class left }
{}

/// A spool explains both streams, if their pairing comes to the end of the server's octets and the
/// spool permits its responses.
pub fn pairing_to_the_end_is_explained()
    ensures { (profile : Profile) (S : Spool) (client : ClientStream) (server : List ℕ) (pairs : List Paired) (unanswered : ℕ)
        → IsPairing client server pairs (end unanswered) → IsSpool profile.limit S
        → Run profile S start (prompts_of client) (responses_of pairs) → Explains profile S client server (length pairs) }
{}

/// Where a pairing ends at octets, and some spool permits its responses, the answer at these octets
/// is bad, of the class of that end.
pub fn pairing_to_octets_is_bad()
    ensures { (profile : Profile) (client : ClientStream) (server : List ℕ) (pairs : List Paired) (class : PairClass)
        → IsPairing client server pairs (bad class) → SomePermits profile (prompts_of client) (responses_of pairs)
        → Bad profile client server (length pairs) × HasClass profile client server (length pairs) (class_of class) }
{}

/// A paired response that no spool permits behind those that some spool permits is a bad answer; it
/// is out of place where it doesn't fit the visible state, and else a contradiction.
pub fn unpermitted_response_is_bad()
    ensures bad { (profile : Profile) (client : ClientStream) (server : List ℕ) (pairs : List Paired) (pair : Paired) (before after : Unpaired)
        → AreNext (streams client server) pairs before → IsNext before pair after → SomePermits profile (prompts_of client) (responses_of pairs)
        → (SomePermits profile (prompts_of client) (responses_of pairs ++ pair.response ∷ []) → ⊥) → Bad profile client server (length pairs) }
    ensures class { (profile : Profile) (client : ClientStream) (server : List ℕ) (pairs : List Paired) (pair : Paired) (before after : Unpaired)
        → AreNext (streams client server) pairs before → IsNext before pair after → HasClass profile client server (length pairs) (class_by
        (fits profile (visible_from start.visible (prompts_of client) (responses_of pairs)) (asked_at pair.place) pair.response)) }
    ensures unfitting { (profile : Profile) (client : ClientStream) (server : List ℕ) (pairs : List Paired) (pair : Paired) (before after : Unpaired)
        → AreNext (streams client server) pairs before → IsNext before pair after
        → fits profile (visible_from start.visible (prompts_of client) (responses_of pairs)) (asked_at pair.place) pair.response ≡ false
        → SomePermits profile (prompts_of client) (responses_of pairs ++ pair.response ∷ []) → ⊥ }
{}

/// The answers of an explanation are the responses of the first pairs of the streams, in order, and
/// it leaves the octets that these pairs leave.
#[tactic(auto, using(crate::proofs::Streams::ExplainedPairs::by_pairs))]
pub fn explanation_is_by_pairs()
    ensures { (profile : Profile) (S : Spool) (client : ClientStream) (server : List ℕ) (n : ℕ) (rest : List ℕ)
        → (explained : ExplainsUpTo profile S client server n rest) → HasPairs (streams client server) explained.answers rest }
{}

/// The answers of an explanation of both streams are those of the whole pairing, which ends with no
/// octet left. So where a pairing ends at octets, no spool explains the streams.
pub fn explanation_is_by_all_pairs()
    ensures { (profile : Profile) (S : Spool) (client : ClientStream) (server : List ℕ) (n : ℕ) (pairs : List Paired) (ending : Ending)
        → IsPairing client server pairs ending → (explained : Explains profile S client server n)
        → (responses_of pairs ≡ explained.answers) × (unanswered : ℕ) × (ending ≡ end unanswered) }
{}

/// Two streams have exactly one outcome. It is a yes if some spool explains them, and else a no.
pub fn streams_have_one_outcome()
    ensures some { (profile : Profile) (client : ClientStream) (server : List ℕ) → length server < 2 ^ 210
        → (outcome : Outcome) × IsOutcome profile client server outcome }
    ensures one { (profile : Profile) (client : ClientStream) (server : List ℕ) (outcome other : Outcome)
        → IsOutcome profile client server outcome → IsOutcome profile client server other → outcome ≡ other }
    ensures yes { (profile : Profile) (client : ClientStream) (server : List ℕ) (outcome : Outcome) → IsOutcome profile client server outcome
        → IsTrue (is_yes outcome) ↔ ((S : Spool) × (n : ℕ) × Explains profile S client server n) }
{}

/// Where the pairing comes to the end of the server's octets, and some spool permits its responses,
/// the outcome is a yes with the given spool.
pub fn outcome_at_the_end()
    ensures { (profile : Profile) (client : ClientStream) (server : List ℕ) (pairs : List Paired) (unanswered : ℕ) (G : Spool)
        → size (facts_of_session profile.marks (asked_of pairs) (responses_of pairs)) < 2 ^ 210
        → IsPairing client server pairs (end unanswered) → SomePermits profile (asked_of pairs) (responses_of pairs)
        → IsGiven (facts_of_session profile.marks (asked_of pairs) (responses_of pairs)) G → IsOutcome profile client server (Yes G (length pairs)) }
{}

/// Where the pairing ends at octets, and some spool permits its responses, the outcome is a no at
/// these octets, of the class of that end.
pub fn outcome_at_octets()
    ensures { (profile : Profile) (client : ClientStream) (server : List ℕ) (pairs : List Paired) (class : PairClass)
        → IsPairing client server pairs (bad class) → SomePermits profile (asked_of pairs) (responses_of pairs)
        → IsOutcome profile client server (No (length pairs) (class_of class)) }
{}

/// At a paired response that no spool permits behind those that some spool permits, the outcome is
/// a no. It is OutOfPlace where the response doesn't fit the visible state, whatever the spools
/// are.
pub fn outcome_at_a_response()
    ensures unpermitted { (profile : Profile) (client : ClientStream) (server : List ℕ) (pairs : List Paired) (pair : Paired) (before after : Unpaired)
        → AreNext (streams client server) pairs before → IsNext before pair after → SomePermits profile (asked_of pairs) (responses_of pairs)
        → (SomePermits profile (asked_of (pairs ++ pair ∷ [])) (responses_of (pairs ++ pair ∷ [])) → ⊥)
        → IsOutcome profile client server (No (length pairs) (class_by
        (fits profile (visible_from start.visible (asked_of pairs) (responses_of pairs)) (asked_at pair.place) pair.response))) }
    ensures unfitting { (profile : Profile) (client : ClientStream) (server : List ℕ) (pairs : List Paired) (pair : Paired) (before after : Unpaired)
        → AreNext (streams client server) pairs before → IsNext before pair after → SomePermits profile (asked_of pairs) (responses_of pairs)
        → fits profile (visible_from start.visible (asked_of pairs) (responses_of pairs)) (asked_at pair.place) pair.response ≡ false
        → IsOutcome profile client server (No (length pairs) OutOfPlace) }
{}

/// A spool that has some facts has each part of them.
pub fn fewer_facts_hold()
    ensures { (profile : Profile) (facts more : List Fact) → ((fact : Fact) → Contains facts fact → Contains more fact)
        → SomeHas profile more → SomeHas profile facts }
{}

/// Some spool has what answers say, each of which fits where it stands, exactly if all of it stands
/// together. The answers need be no session: they may be some answers of one.
pub fn answers_stand_together_where_a_spool_has_them()
    ensures all { (profile : Profile) (answers : List Placed) → AllByRecursion (FitsThere profile) answers → size (flat_map (told profile) answers) < 2 ^ 210
        → SomeHas profile (flat_map (told profile) answers) ↔ Together (flat_map (told profile) answers) }
    ensures some { (profile : Profile) (bad : Placed) (answers : List Placed) (places : List ℕ) → FitsThere profile bad
        → AllByRecursion (FitsThere profile) answers → size (told_with profile bad answers places) < 2 ^ 210
        → SomeHas profile (told_with profile bad answers places) ↔ Together (told_with profile bad answers places) }
    ensures fitting { (profile : Profile) (v : Visible) (at : Position) (prompts : List Asked) (answers : List Response)
        → FitsAll profile v prompts answers → AllByRecursion (FitsThere profile) (placed_from v at prompts answers) }
    ensures session { (profile : Profile) (S : Spool) (v : Visible) (at : Position) (prompts : List Asked) (answers : List Response)
        → AllByRecursion (Holds S) (flat_map (told profile) (placed_from v at prompts answers))
        → AllByRecursion (Holds S) (facts_from profile.marks v at prompts answers) }
{}

/// Answers with which a bad one conflicts, and none of which can be left out, are found from the last one down. At
/// the start nothing is found. Where the answers below a place stand with what is found, and those
/// up to the place don't, the answer at the place is found. What is found is such a set, once it
/// conflicts alone. As long as it doesn't, each conflict has another answer below the last place.
pub fn core_is_found()
    ensures start { (profile : Profile) (bad : Placed) (answers : List Placed)
        → (SomeHas profile (told_with profile bad answers (below (length answers))) → ⊥) → IsPartOfCore profile bad answers (length answers) [] }
    ensures step { (profile : Profile) (bad : Placed) (answers : List Placed) (bound k : ℕ) (places : List ℕ)
        → IsPartOfCore profile bad answers bound places → k < bound → bound ≤ length answers
        → SomeHas profile (told_with profile bad answers (below k ++ places))
        → (SomeHas profile (told_with profile bad answers (below (k + 1) ++ places)) → ⊥) → IsPartOfCore profile bad answers k (k ∷ places) }
    ensures in_each { (profile : Profile) (bad : Placed) (answers : List Placed) (bound : ℕ) (places some : List ℕ) (k : ℕ)
        → IsPartOfCore profile bad answers bound places → ((j : ℕ) → Contains some j → Contains (below bound ++ places) j)
        → (SomeHas profile (told_with profile bad answers some) → ⊥) → Contains places k → Contains some k }
    ensures done { (profile : Profile) (bad : Placed) (answers : List Placed) (bound : ℕ) (places : List ℕ)
        → IsPartOfCore profile bad answers bound places → (SomeHas profile (told_with profile bad answers places) → ⊥) → IsCore profile bad answers places }
    ensures rest { (profile : Profile) (bad : Placed) (answers : List Placed) (bound : ℕ) (places some : List ℕ)
        → IsEndOfCore profile bad answers bound places → AreAmong some (below bound ++ places)
        → (SomeHas profile (told_with profile bad answers some) → ⊥) → (k : ℕ) × (k < bound) × Contains some k }
{}

/// A session that fits is permitted exactly if some spool has what its answers say, each by itself.
/// So a contradiction conflicts with the answers before it. The facts `a_group` hold of each spool
/// that has the group.
pub fn contradiction_conflicts_with_those_before()
    ensures group { (profile : Profile) (S : Spool) (name : Name) → IsSpool profile.limit S → IsGroup S name → AllByRecursion (Holds S) (a_group profile name) }
    ensures session { (profile : Profile) (prompts : List Asked) (answers : List Response) → FitsAll profile start.visible prompts answers
        → SomePermits profile prompts answers ↔ SomeHas profile (flat_map (told profile) (placed_from start.visible Nowhere prompts answers)) }
    ensures bad { (profile : Profile) (prompts : List Asked) (answers : List Response) (asked : Asked) (response : Response)
        → asked_next prompts answers ≡ Some asked → FitsAll profile start.visible prompts (answers ++ response ∷ [])
        → (SomePermits profile prompts (answers ++ response ∷ []) → ⊥) → SomeHas profile (told_with profile (record {
          selected = (visible_from start.visible prompts answers).selected;
          position = position_from Nowhere prompts answers;
          asked = asked;
          response = response;
        })
        (placed_from start.visible Nowhere prompts answers) (below (length (placed_from start.visible Nowhere prompts answers)))) → ⊥ }
{}

/// No spool has facts that conflict at some point. What answers say that no spool has, each fitting
/// where it stands, conflicts at some point, and so at a first one.
pub fn no_spool_has_what_conflicts()
    ensures none { (profile : Profile) (facts : List Fact) (point : Point) → ConflictAt facts point → SomeHas profile facts → ⊥ }
    ensures point { (profile : Profile) (bad : Placed) (answers : List Placed) (places : List ℕ) → FitsThere profile bad
        → AllByRecursion (FitsThere profile) answers
        → AllByRecursion IsWellFormed (told_with profile bad answers places) → size (told_with profile bad answers places) < 2 ^ 210
        → (SomeHas profile (told_with profile bad answers places) → ⊥) → (point : Point) × IsFirstPoint (told_with profile bad answers places) point }
{}
