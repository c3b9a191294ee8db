//! Laws of what a spool explains of a pairing.
ghost use Rattle.std.specs.Prelude.{◌≡◌, ℕ, List, length};
ghost use Rattle.nntp_pair.specs.declared.class.PairClass.{PairClass};
ghost use Rattle.nntp_pair.specs.Pairing.{Paired, Unpaired, IsNext, AreNext, Ends, bad, asked_at, streams};
ghost use Rattle.nntp_article.specs.Session.Machine.{start, MayAnswer};
ghost use Rattle.nntp_article.specs.Session.Explains.{Explains, ExplainsUpTo};
ghost use Rattle.nntp_spool.specs.Inner.Sessions.{state_after, MayAnswerAll};
ghost use Rattle.nntp_spool.specs.Sessions.{RefusesAt};
ghost use Rattle.nntp_article.specs.Session.Spool.{Spool, IsSpool};
ghost use Rattle.nntp_article.specs.declared.session.profile.Profile.{Profile};
ghost use Rattle.nntp_wire.specs.Session.{ClientStream};

/// A spool that permits the responses of some pairs explains as many answers, up to the octets that
/// these pairs leave.
pub fn what_is_permitted_is_explained()
    ensures { (profile : Profile) (S : Spool) (client : ClientStream) (server : List ℕ) (pairs : List Paired) (left : Unpaired) → IsSpool profile.limit S
        → AreNext (streams client server) pairs left → MayAnswerAll profile S start pairs → ExplainsUpTo profile S client server (length pairs) left.server }
{}

/// A response that isn't permitted behind those that are is the first answer that the spool doesn't
/// explain.
pub fn what_is_not_permitted_is_refused()
    ensures { (profile : Profile) (S : Spool) (client : ClientStream) (server : List ℕ) (pairs : List Paired) (left behind : Unpaired) (x : Paired)
        → IsSpool profile.limit S
        → AreNext (streams client server) pairs left → MayAnswerAll profile S start pairs → IsNext left x behind
        → ¬ (MayAnswer profile S (state_after S start pairs) (asked_at x.place) x.response) → RefusesAt profile S client server (length pairs) }
{}

/// Octets that answer nothing behind responses that are permitted are the first answer that the spool
/// doesn't explain.
pub fn what_answers_nothing_is_refused()
    ensures { (profile : Profile) (S : Spool) (client : ClientStream) (server : List ℕ) (pairs : List Paired) (left : Unpaired) (class : PairClass)
        → IsSpool profile.limit S
        → AreNext (streams client server) pairs left → MayAnswerAll profile S start pairs → Ends left (bad class)
        → RefusesAt profile S client server (length pairs) }
{}

/// A spool that explains two streams refuses none of their answers. So `verify` answers `Permits`
/// exactly if the spool explains both streams.
pub fn explaining_is_no_refusal()
    ensures { (profile : Profile) (S : Spool) (client : ClientStream) (server : List ℕ) (n k : ℕ)
        → Explains profile S client server n → ¬ (RefusesAt profile S client server k) }
{}
