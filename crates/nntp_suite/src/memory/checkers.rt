//! Want of memory while worked sessions come in pieces.
use crate::memory::verdicts::right_if_shown;
use nntp_fixtures::{checker_by, feed_split};
use nntp_little_memory::{Ended, give_each, refuse_each};
use nntp_pair::PairError;
use nntp_sessions::{Session, each_session};
use nntp_verdict::Checker;
use std::alloc::{Allocator, Global};
use std::test::Fail;

/// How a call ended that wants memory: from then on each one has to answer Failed, and nothing is bad.
fn after_want<A: Allocator + Copy>(mut checker: Checker<A>) -> Ended {
    let is_client_taken = checker.feed_client(b"QUIT\r\n") != Err(PairError::Failed);
    let is_server_taken = checker.feed_server(b"200 hi\r\n") != Err(PairError::Failed);
    if is_client_taken || is_server_taken || checker.bad().is_some() {
        return Ended::Wrong;
    }
    match checker.finish() {
        Err(PairError::Failed) => Ended::Memory,
        _ => Ended::Wrong,
    }
}

/// By a checker, to which each stream comes in two pieces.
fn judge_in_pieces<A: Allocator + Copy>(
    alloc: Global,
    heap: A,
    session: &Session,
    wanted: &str,
) -> Ended {
    let (client, server) = session.streams();
    let places = (client.len() / 2, server.len() / 2);
    let mut checker = checker_by(session.choice, heap);
    match feed_split(&mut checker, (client, server), places) {
        Ok(()) => {}
        Err(PairError::Memory) => return after_want(checker),
        Err(_) => return Ended::Wrong,
    }
    match checker.finish() {
        Ok(verdict) => right_if_shown(alloc, &verdict, wanted),
        Err(PairError::Memory) => Ended::Memory,
        Err(_) => Ended::Wrong,
    }
}

#[test]
fn sessions_in_pieces(rt: HostRuntime) -> Result<(), Fail> {
    for session in each_session(rt.alloc())? {
        let wanted = session.report(rt.alloc())?;
        refuse_each(rt.alloc(), session.name, |heap| {
            judge_in_pieces(rt.alloc(), heap, session, wanted.as_str())
        })?;
    }
    Ok(())
}

#[test]
fn sessions_in_pieces_with_few_octets(rt: HostRuntime) -> Result<(), Fail> {
    for session in each_session(rt.alloc())? {
        let wanted = session.report(rt.alloc())?;
        give_each(rt.alloc(), session.name, |heap| {
            judge_in_pieces(rt.alloc(), heap, session, wanted.as_str())
        })?;
    }
    Ok(())
}
