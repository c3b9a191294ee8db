//! What comes next in a pairing.
use crate::class::PairClass;
use crate::exchange::Exchange;

/// What comes next in a pairing.
#[derive(Drop)]
pub enum Step<'a> {
    /// The next exchange.
    Exchange(Exchange<'a>),
    /// The pairing ends at octets that answer nothing.
    Bad {
        /// The index of their place: 0 is the greeting's, k that of the client's k-th line, counted from 1.
        index: u64,
        /// Why they answer nothing.
        class: PairClass,
    },
    /// The pairing ends with no octet of the server left.
    End {
        /// How many lines of the client have no answer.
        unanswered: u64,
    },
}
