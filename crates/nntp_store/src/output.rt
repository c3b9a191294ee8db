//! Octets that are handed to a writer.
ghost use Rattle.std.specs.Prelude.{◌≡◌, ◌||◌, is_err};
ghost use Rattle.nntp_store.specs.Watched.{inner_of};
ghost use Rattle.nntp_store.specs.Inner.Watched.{has_failed_of};
ghost use Rattle.nntp_store.specs.Inner.Writing.{Writes};

use crate::watched::Watched;
use std::io::Write;
use thiserror::Error;

/// The error of writing: the writer answered an error, or took none of some octets.
#[derive(Clone, Copy, Debug, PartialEq, Eq, Error)]
#[error("write failed")]
pub struct WriteFault;

/// Hands all of the octets to the writer, in as many calls as it needs. The writer isn't flushed.
///
/// # Errors
///
/// [`WriteFault`], if the writer answers an error, an interrupted call too, or takes none of the
/// octets. It took a front of them then.
pub fn put<W: Write>(w: &mut Watched<W>, octets: &[u8]) -> Result<(), WriteFault>
    ensures text { Writes result (W.contents (inner_of w.old)) (W.contents (inner_of w.new)) octets.now }
    ensures failed { has_failed_of w.new ≡ (has_failed_of w.old || is_err result) }
{
    let mut rest = octets;
    while !rest.is_empty() {
        match w.write(rest) {
            Ok(0) => return Err(WriteFault),
            Ok(count) => rest = rest.split_at(count).1,
            Err(_) => return Err(WriteFault),
        }
    }
    Ok(())
}
