//! How the pairing ends where no more octets come.
use crate::class::PairClass;

/// How the pairing ends where no more octets come.
#[derive(Clone, Copy, PartialEq, Eq)]
pub enum Ending {
    /// It doesn't end here: a whole exchange waits.
    More,
    /// No octet of the server is left.
    End {
        /// How many lines of the client have no answer.
        unanswered: u64,
    },
    /// It ends at octets that answer nothing.
    Bad {
        /// The index of their place: 0 is the greeting's, k that of the client's k-th line, counted from 1.
        index: u64,
        /// Why they answer nothing.
        class: PairClass,
    },
    /// Memory was refused to an earlier call.
    Failed,
}
