//! What waits among the octets that came.
use crate::class::PairClass;
use crate::exchange::Exchange;

/// What waits among the octets that came.
#[derive(Drop)]
pub enum Peek<'a> {
    /// The next exchange, lent out of the feed's buffers.
    Whole(Exchange<'a>),
    /// No exchange is whole yet.
    Nothing,
    /// Octets that answer nothing, whatever follows: a frame that spells no response, or octets behind a response that
    /// closes the connection.
    Bad {
        /// The index of their place: 0 is the greeting's, k that of the client's k-th line, counted from 1.
        index: u64,
        /// Why they answer nothing: Malformed or Surplus.
        class: PairClass,
    },
    /// Memory was refused to an earlier call.
    Failed,
}
