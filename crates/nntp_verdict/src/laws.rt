//! Laws of verdicts: two streams have one, and it is a yes exactly if some spool explains them; and what is bad for
//! good stays so. And those of verdicts on several sessions.
ghost use Rattle.std.specs.Prelude.{◌≡◌, ◌↔◌, ◌++◌, ℕ, List, Option, is_some, IsTrue};
ghost use Rattle.nntp_wire.specs.declared.limit.Limit.{Limit};
ghost use Rattle.nntp_wire.specs.declared.marks.Marks.{Marks};
ghost use Rattle.nntp_article.specs.Session.Explains.{Explains};
ghost use Rattle.nntp_article.specs.Session.Limit.{profile_of};
ghost use Rattle.nntp_article.specs.Session.Spool.{Spool};
ghost use Rattle.nntp_article.specs.declared.session.profile.Profile.{Profile};
ghost use Rattle.nntp_verdict.specs.Checking.{IsBadForGood, IsToldBad};
ghost use Rattle.nntp_verdict.specs.Judging.{IsVerdict};
ghost use Rattle.nntp_pair.specs.declared.class.Class.{Class};
ghost use Rattle.nntp_verdict.specs.Verdict.{Judgement};
ghost use Rattle.nntp_verdict.specs.Inner.Verdict.{is_consistent};
ghost use Rattle.nntp_wire.specs.Session.{ClientStream};
ghost use Rattle.nntp_wire.specs.Session.{further};

mod sessions;

pub use sessions::{sessions_have_one_verdict, verdict_follows_the_outcome};

/// Two streams have one verdict by a limit and marks.
pub fn one_verdict()
    ensures { (limit : Limit) (marks : Marks) (client : ClientStream) (server : List ℕ) (verdict other : Judgement)
        → IsVerdict limit marks client server verdict → IsVerdict limit marks client server other → verdict ≡ other }
{}

/// It is a yes exactly if some spool explains them.
pub fn yes_where_a_spool_explains()
    ensures { (limit : Limit) (marks : Marks) (client : ClientStream) (server : List ℕ) (verdict : Judgement) → IsVerdict limit marks client server verdict
        → IsTrue (is_consistent verdict) ↔ ((S : Spool) × (n : ℕ) × Explains (profile_of limit marks) S client server n) }
{}

/// An answer that is bad for good is so whatever octets follow.
pub fn bad_for_good_stays()
    ensures { (profile : Profile) (client : ClientStream) (server client_more server_more : List ℕ) (answer : ℕ) (class : Class)
        → IsBadForGood profile client server answer class → IsBadForGood profile (further client client_more) (server ++ server_more) answer class }
{}

/// What may be told of two streams as bad is one thing; and where an answer is told, it is told whatever octets follow.
pub fn one_is_told_bad()
    ensures one { (profile : Profile) (client : ClientStream) (server : List ℕ) (told other : Option (ℕ × Class)) → IsToldBad profile client server told
        → IsToldBad profile client server other → told ≡ other }
    ensures stays { (profile : Profile) (client : ClientStream) (server client_more server_more : List ℕ) (told other : Option (ℕ × Class))
        → IsTrue (is_some told)
        → IsToldBad profile client server told → IsToldBad profile (further client client_more) (server ++ server_more) other → other ≡ told }
{}
