//! Streams that come in pieces.
use crate::choices::checker_by;
use crate::told::is_told;
use crate::verdicts::shown;
use nntp_pair::{Class, PairError};
use nntp_sessions::Choice;
use nntp_verdict::{Checker, Verdict};
use std::alloc::{Allocator, Global};
use std::test::Fail;

/// Gives both streams in two pieces each, split at these places.
///
/// # Errors
///
/// What the checker answers to the first piece that it doesn't take.
pub fn feed_split<A: Allocator + Copy>(
    checker: &mut Checker<A>,
    (client, server): (&[u8], &[u8]),
    (at_client, at_server): (usize, usize),
) -> Result<(), PairError> {
    let (client_front, client_rest) = client.split_at(at_client.min(client.len()));
    let (server_front, server_rest) = server.split_at(at_server.min(server.len()));
    checker.feed_client(client_front)?;
    checker.feed_server(server_front)?;
    checker.feed_client(client_rest)?;
    checker.feed_server(server_rest)
}

/// The report on a verdict, if what was told as bad is its bad answer.
fn shown_as_told(
    alloc: Global,
    told: Option<(u64, Class)>,
    verdict: &Verdict,
) -> Result<Vec<u8>, Fail> {
    if !is_told(told, verdict) {
        return Err("something else was told as bad".into());
    }
    Ok(shown(alloc, verdict)?)
}

/// The report on the session that came to a checker.
///
/// # Errors
///
/// Want of memory, and that something else was told as bad than the bad answer of the verdict.
pub fn finished(alloc: Global, checker: Checker) -> Result<Vec<u8>, Fail> {
    let told = checker.bad();
    let verdict = checker.finish()?;
    shown_as_told(alloc, told, &verdict)
}

/// The report of a checker to which both streams come in two pieces each, split at these places.
///
/// # Errors
///
/// Those of `finished`.
pub fn checked_split(
    alloc: Global,
    choice: Choice,
    streams: (&[u8], &[u8]),
    places: (usize, usize),
) -> Result<Vec<u8>, Fail> {
    let mut checker = checker_by(choice, alloc);
    feed_split(&mut checker, streams, places)?;
    finished(alloc, checker)
}
