//! Laws of pairings, and of octets that are spellings one after the other.
ghost use Rattle.std.specs.Prelude.{◌≡◌, ◌≢◌, ◌↔◌, ◌⊎◌, ℕ, List, [], ◌++◌, Option, MatchOption, length, map, drop};
ghost use Rattle.nntp_wire.specs.Answer.{Response};
ghost use Rattle.nntp_wire.specs.Misspelling.{misspelling};
ghost use Rattle.nntp_wire.specs.declared.misspelling.Misspelling.TheVariants.{WrongBlock};
ghost use Rattle.nntp_wire.specs.Session.{ClientStream, further, prompts_of};
ghost use Rattle.nntp_wire.specs.Inner.Session.{AreSpelled, StaysOpen};
ghost use Rattle.nntp_pair.specs.declared.class.PairClass.{PairClass};
ghost use Rattle.nntp_pair.specs.declared.class.PairClass.TheVariants.{Malformed};
ghost use Rattle.nntp_pair.specs.declared.peek.Peek.{Peek};
ghost use Rattle.nntp_pair.specs.declared.peek.Peek.TheVariants.{Nothing};
ghost use Rattle.nntp_pair.specs.declared.ending.Ending.TheVariants.{End, Bad};
ghost use Rattle.nntp_pair.specs.Inner.Feeding.{Fed, IsFed, IsPeek, IsEnding, left_of, with_octets};
ghost use Rattle.nntp_pair.specs.Pairing.{Place, Paired, Unpaired, IsNext, IsPassedOver, AreNext, Ending, end, bad};
ghost use Rattle.nntp_pair.specs.Pairing.{Ends, IsPairing, responses_of, asked_at, places_of, streams};
ghost use Rattle.nntp_pair.specs.Inner.Pairing.{IsLasting, HasPairs, with_more};

/// One pair comes next, and then one thing is left.
pub fn one_next_pair()
    ensures { (before left other : Unpaired) (pair also : Paired) → IsNext before pair left → IsNext before also other → (pair ≡ also) × (left ≡ other) }
{}

/// Where a pair comes next, no pairing ends.
pub fn no_pair_at_an_end()
    ensures { (ending : Ending) (before left : Unpaired) (pair : Paired) → IsNext before pair left → ¬ (Ends before ending) }
{}

/// A pair comes next, or the pairing ends.
pub fn a_pair_or_an_end()
    ensures { (before : Unpaired) → ((pair : Paired) × (left : Unpaired) × IsNext before pair left) ⊎ ((ending : Ending) × Ends before ending) }
{}

/// A pairing ends in one way.
pub fn one_end()
    ensures { (ending other : Ending) (left : Unpaired) → Ends left ending → Ends left other → ending ≡ other }
{}

/// One frame that spells nothing is passed over, and then one thing is left.
pub fn one_passed_over()
    ensures { (before left other : Unpaired) (place also : Place) (initial second : List ℕ) (block next : Option (List ℕ))
        → IsPassedOver before place initial block left → IsPassedOver before also second next other
        → (place ≡ also) × (initial ≡ second) × (block ≡ next) × (left ≡ other) }
{}

/// There is one exactly where the pairing ends at a frame that spells nothing. So no pair comes next there.
pub fn malformed_is_passed_over()
    ensures { (before : Unpaired) → Ends before (bad Malformed)
        ↔ ((place : Place) × (initial : List ℕ) × (block : Option (List ℕ)) × (left : Unpaired) × IsPassedOver before place initial block left) }
{}

/// There is a reason why a frame that is passed over spells nothing, and it isn't that its block isn't due.
pub fn passed_over_for_a_reason()
    ensures { (before left : Unpaired) (place : Place) (initial : List ℕ) (block : Option (List ℕ)) → IsPassedOver before place initial block left
        → MatchOption (misspelling (asked_at place) initial block) ⊥ (λ why. why ≢ WrongBlock) }
{}

/// Two streams have one pairing.
pub fn one_pairing()
    ensures { (client : ClientStream) (server : List ℕ) (pairs others : List Paired) (ending other : Ending)
        → IsPairing client server pairs ending → IsPairing client server others other → (pairs ≡ others) × (ending ≡ other) }
{}

/// The index of the place that is next is the number of pairs before it.
pub fn index_counts_pairs()
    ensures { (client : ClientStream) (server : List ℕ) (pairs : List Paired) (left : Unpaired)
        → AreNext (streams client server) pairs left → left.index ≡ length pairs }
{}

/// The places that are left are those behind the pairs.
pub fn places_go_in_order()
    ensures { (client : ClientStream) (server : List ℕ) (pairs : List Paired) (left : Unpaired)
        → AreNext (streams client server) pairs left → drop (length pairs) (places_of client) ≡ left.places }
{}

/// What is asked at the places of a session are its prompts.
pub fn places_ask_the_prompts()
    ensures { (client : ClientStream) → map asked_at (places_of client) ≡ prompts_of client }
{}

/// With more octets behind both streams the pairs are the same.
pub fn pairs_stay()
    ensures { (client : ClientStream) (server client_more server_more : List ℕ) (pairs : List Paired) (left : Unpaired)
        → AreNext (streams client server) pairs left
        → (places : List Place) × AreNext (streams (further client client_more) (server ++ server_more)) pairs (with_more places server_more left) }
{}

/// And so is a bad end that no octets can mend: a frame that spells nothing, or octets on a closed connection.
pub fn lasting_end_stays()
    ensures { (client : ClientStream) (server client_more server_more : List ℕ) (pairs : List Paired) (class : PairClass)
        (pairing : IsPairing client server pairs (bad class))
        → IsLasting class pairing.left → IsPairing (further client client_more) (server ++ server_more) pairs (bad class) }
{}

/// Pairs are spelled one after the other, and none but the last closes the connection.
pub fn pairs_are_spelled()
    ensures { (client : ClientStream) (server : List ℕ) (pairs : List Paired) (left : Unpaired) → AreNext (streams client server) pairs left
        → AreSpelled (prompts_of client) (responses_of pairs) server left.server × StaysOpen (prompts_of client) (responses_of pairs) }
{}

/// Responses that are spelled one after the other, and of which none but the last closes, are the responses of pairs.
pub fn spelled_are_pairs()
    ensures { (client : ClientStream) (server : List ℕ) (responses : List Response) (rest : List ℕ)
        → AreSpelled (prompts_of client) responses server rest → StaysOpen (prompts_of client) responses
        → HasPairs (streams client server) responses rest }
{}

/// Such responses are the first of the pairing's.
pub fn spelled_come_first()
    ensures { (client : ClientStream) (server : List ℕ) (pairs : List Paired) (ending : Ending) (responses : List Response) (rest : List ℕ)
        → IsPairing client server pairs ending → AreSpelled (prompts_of client) responses server rest → StaysOpen (prompts_of client) responses
        → (more : List Response) × (responses_of pairs ≡ responses ++ more) }
{}

/// Where their spellings are all octets of the server, they are those of the pairing, which ends with no octet left.
pub fn spelled_whole()
    ensures { (client : ClientStream) (server : List ℕ) (pairs : List Paired) (ending : Ending) (responses : List Response)
        → IsPairing client server pairs ending → AreSpelled (prompts_of client) responses server [] → StaysOpen (prompts_of client) responses
        → (responses_of pairs ≡ responses) × (unanswered : ℕ) × (ending ≡ end unanswered) }
{}

/// Where the pairing ends at octets, no responses have all octets of the server as their spellings.
pub fn bad_end_is_unspelled()
    ensures { (client : ClientStream) (server : List ℕ) (pairs : List Paired) (class : PairClass) (responses : List Response)
        → IsPairing client server pairs (bad class) → StaysOpen (prompts_of client) responses
        → ¬ (AreSpelled (prompts_of client) responses server []) }
{}

/// What a feed tells is determined by what it holds.
pub fn one_peek()
    ensures { (fed : Fed) (peek other : Peek) → IsPeek fed peek → IsPeek fed other → peek ≡ other }
{}

/// With more octets of both streams it tells the same, unless it told that nothing waits.
pub fn peek_stays()
    ensures { (fed : Fed) (client_more server_more : List ℕ) (peek : Peek) → IsPeek fed peek → peek ≢ Nothing
        → IsPeek (with_octets client_more server_more fed) peek }
{}

/// The pairs that a feed has passed are the first of the pairing of what came, what it holds is left, and its index counts them.
pub fn fed_is_paired()
    ensures { (fed : Fed) (client : ClientStream) (server : List ℕ) (pairs : List Paired) → IsFed fed client server pairs
        → AreNext (streams client server) pairs (left_of fed) × (fed.index ≡ length pairs) }
{}

/// Where a feed ends with no octet left, these pairs are the pairing of what came.
pub fn end_of_a_feed()
    ensures { (fed : Fed) (client : ClientStream) (server : List ℕ) (pairs : List Paired) (unanswered : ℕ) → IsFed fed client server pairs
        → IsEnding fed (End unanswered) → IsPairing client server pairs (end unanswered) }
{}

/// And so they are where it ends at octets that answer nothing: those of the place behind the pairs.
pub fn bad_end_of_a_feed()
    ensures { (fed : Fed) (client : ClientStream) (server : List ℕ) (pairs : List Paired) (index : ℕ) (class : PairClass) → IsFed fed client server pairs
        → IsEnding fed (Bad index class) → IsPairing client server pairs (bad class) × (index ≡ length pairs) }
{}
