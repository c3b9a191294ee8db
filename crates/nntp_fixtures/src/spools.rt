//! Texts of spools that are put to sessions.
use crate::expectations::expect_octets;
use nntp_sessions::spool_text;
use nntp_spool::{Spool, Verified, verify};
use nntp_wire::Marks;
use std::alloc::Global;
use std::test::Fail;

/// Puts a spool to a session. This has to be the text of the spool.
fn put_read(
    alloc: Global,
    name: &str,
    marks: Marks,
    (spool, text): (&Spool, &[u8]),
    (client, server): (&[u8], &[u8]),
) -> Result<Verified, Fail> {
    expect_octets(name, &spool_text(alloc, spool)?, text)?;
    Ok(verify(alloc, marks, spool, client, server)?)
}

/// Reads the text of a spool, which has to be written as it was read, and puts the spool to a session.
///
/// # Errors
///
/// Want of memory, and that the text isn't that of a spool.
pub fn put(
    alloc: Global,
    name: &str,
    marks: Marks,
    text: &[u8],
    streams: (&[u8], &[u8]),
) -> Result<Verified, Fail> {
    let spool = Spool::read(alloc, text)?;
    put_read(alloc, name, marks, (&spool, text), streams)
}
