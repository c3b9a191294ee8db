//! What is said of several sessions.
ghost use Rattle.std.specs.Prelude.{◌≡◌};
ghost use Rattle.nntp_verdict.specs.Verdict.{is_consistent_of_all, sessions_verdict_shown, verdict_shown};
ghost use Rattle.nntp_verdict.specs.Inner.Verdict.{last_of, verdict_of_last};

use crate::verdict::Verdict;
use nntp_pair::Class;
use nntp_spool::Spool;
use std::alloc::{Allocator, Global};

/// Whether a spool explains several sessions.
#[derive(Drop)]
pub enum SessionsVerdict<A: Allocator = Global> {
    /// The spool explains all sessions.
    Consistent {
        /// The given spool: it has what every spool has that explains the sessions.
        spool: Spool<A>,
        /// How many answers the server gave in each session, the greeting among them.
        answers: Vec<u64, A>,
    },
    /// No spool explains the sessions before this one and the answers of this one up to this answer.
    Bad {
        /// The index of the session, which counts from 0.
        session: u64,
        /// The number of the answer in its session: the greeting is answer 0, and answer k is for the k-th line of the
        /// client, counted from 1.
        answer: u64,
        /// Why the answer is bad.
        class: Class,
        /// The first 512 octets of the line that is answered, without its CRLF; none for the greeting, and where the
        /// client sent no such line.
        command: Option<Vec<u8, A>>,
        /// The first 512 octets of the server's stream from this answer on, up to the first CRLF or the stream's end.
        reply: Vec<u8, A>,
    },
}

impl<A: Allocator> SessionsVerdict<A> {
    /// Whether a spool explains the sessions.
    pub fn is_consistent(&self) -> bool
        ensures { result ≡ is_consistent_of_all (sessions_verdict_shown self.now) }
    {
        match self {
            SessionsVerdict::Consistent { .. } => true,
            SessionsVerdict::Bad { .. } => false,
        }
    }

    /// What it says of the last session: the spool, and how many answers that session has; or the bad answer, without
    /// its session. Of one session it is the verdict on that.
    pub fn of_last(self) -> Verdict<A>
        ensures { verdict_shown result ≡ verdict_of_last (sessions_verdict_shown self) }
    {
        match self {
            SessionsVerdict::Consistent { spool, answers } => Verdict::Consistent {
                spool,
                answers: last_of(&answers),
            },
            SessionsVerdict::Bad {
                session: _,
                answer,
                class,
                command,
                reply,
            } => Verdict::Bad {
                answer,
                class,
                command,
                reply,
            },
        }
    }
}

/// The last of the numbers, or 0 where there is none.
fn last_of(numbers: &[u64]) -> u64
    ensures { result ≡ last_of numbers.now }
{
    match numbers.last() {
        Some(number) => *number,
        None => 0,
    }
}
