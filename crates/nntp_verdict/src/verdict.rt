//! What is said of a session.
ghost use Rattle.std.specs.Prelude.{◌≡◌};
ghost use Rattle.nntp_verdict.specs.Inner.Verdict.{is_consistent};
ghost use Rattle.nntp_verdict.specs.Verdict.{verdict_shown};

use nntp_pair::Class;
use nntp_spool::Spool;
use std::alloc::{Allocator, Global};

/// Whether a spool explains a session.
#[derive(Drop)]
pub enum Verdict<A: Allocator = Global> {
    /// The spool explains the whole session.
    Consistent {
        /// The given spool: it has what every spool has that explains the session.
        spool: Spool<A>,
        /// How many answers the server gave, the greeting among them.
        answers: u64,
    },
    /// No spool explains the answers up to this one.
    Bad {
        /// The number of the answer: the greeting is answer 0, and answer k is for the k-th line of the client, counted
        /// from 1.
        answer: u64,
        /// Why the answer is bad.
        class: Class,
        /// The first 512 octets of the line that is answered, without its CRLF; none for the greeting, and where the
        /// client sent no such line.
        command: Option<Vec<u8, A>>,
        /// The first 512 octets of the server's stream from this answer on, up to the first CRLF or the stream's end.
        reply: Vec<u8, A>,
    },
}

impl<A: Allocator> Verdict<A> {
    /// Whether a spool explains the session.
    pub fn is_consistent(&self) -> bool
        ensures { result ≡ is_consistent (verdict_shown self.now) }
    {
        match self {
            Verdict::Consistent { .. } => true,
            Verdict::Bad { .. } => false,
        }
    }
}
