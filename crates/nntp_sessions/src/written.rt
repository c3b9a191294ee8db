//! The text of a spool, as a test wants it: in memory.
use nntp_spool::{Spool, Watched};
use std::alloc::{AllocError, Allocator, Global};

/// The text of a spool.
pub fn spool_text<A: Allocator>(alloc: Global, spool: &Spool<A>) -> Result<Vec<u8>, AllocError> {
    with_spool_text(Vec::new(alloc), spool)
}

/// Octets, and behind them the text of a spool. Nothing but want of memory stops it.
pub fn with_spool_text<A: Allocator>(
    octets: Vec<u8>,
    spool: &Spool<A>,
) -> Result<Vec<u8>, AllocError> {
    let mut output = Watched::new(octets);
    match spool.write(&mut output) {
        Ok(()) => Ok(output.into_inner()),
        Err(_) => Err(AllocError),
    }
}
