//! Why octets aren't taken.
ghost use Rattle.std.specs.Prelude.{◌≡◌};
ghost use Rattle.nntp_pair.specs.declared.pair_error.PairError.TheVariants.{Memory};

use std::alloc::AllocError;
use thiserror::Error;

/// Why octets of a stream aren't taken, or no verdict on them is given.
#[derive(Clone, Copy, Debug, PartialEq, Eq, Error)]
pub enum PairError {
    /// Memory was refused to this call. From now on each call answers Failed.
    #[error("out of memory")]
    Memory,
    /// Memory was refused to an earlier call. Nothing has changed.
    #[error("failed before")]
    Failed,
    /// The stream would have more than 2^64 - 1 octets. Nothing has changed.
    #[error("stream too long")]
    TooLong,
}

impl From<AllocError> for PairError {
    ghost from_gives = { λ _ error. error ≡ Memory };

    fn from(_error: AllocError) -> PairError {
        PairError::Memory
    }
}
