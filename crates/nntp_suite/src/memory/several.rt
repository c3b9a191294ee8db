//! Want of memory while several sessions are judged.
use nntp_fixtures::{
    check_sessions_by, checker_taking, feed_sessions, recorded, sessions_shown, verified_shown,
};
use nntp_little_memory::{Ended, refuse_each, right_if};
use nntp_pair::PairError;
use nntp_sessions::{NARROW_LENIENT, session_lists};
use nntp_several::{Recorded, verify_sessions};
use nntp_spool::Spool;
use nntp_verdict::{Checker, SessionsVerdict};
use nntp_wire::Overviews;
use std::alloc::{Allocator, Global};
use std::test::Fail;

/// Right if the verdict is this one.
fn right_if_shown<A: Allocator>(
    alloc: Global,
    verdict: &SessionsVerdict<A>,
    wanted: &str,
) -> Ended {
    match sessions_shown(alloc, verdict) {
        Ok(octets) => right_if(octets.as_slice() == wanted.as_bytes()),
        Err(_) => Ended::Wrong,
    }
}

/// By `check_sessions`.
pub(crate) fn judge_at_once<A: Allocator + Copy>(
    alloc: Global,
    heap: A,
    sessions: &[Recorded<'_>],
    wanted: &str,
) -> Ended {
    match check_sessions_by(NARROW_LENIENT, heap, sessions) {
        Ok(verdict) => right_if_shown(alloc, &verdict, wanted),
        Err(_) => Ended::Memory,
    }
}

/// How a call ended that wants memory: from then on each one has to answer Failed, and nothing is bad.
fn after_want<A: Allocator + Copy>(mut checker: Checker<A>) -> Ended {
    let is_begun = checker.begin_session() != Err(PairError::Failed);
    let is_taken = checker.feed_server(b"200 hi\r\n") != Err(PairError::Failed);
    if is_begun || is_taken || checker.bad_of_sessions().is_some() {
        return Ended::Wrong;
    }
    match checker.finish_sessions() {
        Err(PairError::Failed) => Ended::Memory,
        _ => Ended::Wrong,
    }
}

/// By a checker that takes overviews so, to which the sessions come one after the other.
pub(crate) fn judge_in_turn<A: Allocator + Copy>(
    alloc: Global,
    heap: A,
    overviews: Overviews,
    sessions: &[Recorded<'_>],
    wanted: &str,
) -> Ended {
    let mut checker = checker_taking(NARROW_LENIENT, heap, overviews);
    match feed_sessions(&mut checker, sessions) {
        Ok(()) => {}
        Err(PairError::Memory) => return after_want(checker),
        Err(_) => return Ended::Wrong,
    }
    match checker.finish_sessions() {
        Ok(verdict) => right_if_shown(alloc, &verdict, wanted),
        Err(PairError::Memory) => Ended::Memory,
        Err(_) => Ended::Wrong,
    }
}

/// By `verify_sessions`.
pub(crate) fn verify_given<A: Allocator + Copy>(
    alloc: Global,
    heap: A,
    spool: &Spool,
    sessions: &[Recorded<'_>],
    wanted: &str,
) -> Ended {
    let Ok(verified) = verify_sessions(heap, NARROW_LENIENT.marks, spool, sessions) else {
        return Ended::Memory;
    };
    match verified_shown(alloc, &verified) {
        Ok(shown) => right_if(shown.as_str() == wanted),
        Err(_) => Ended::Wrong,
    }
}

#[test]
fn verdicts_on_several_sessions(rt: HostRuntime) -> Result<(), Fail> {
    for list in session_lists() {
        let sessions = recorded(rt.alloc(), list.sessions)?;
        let wanted = list.report(rt.alloc())?;
        refuse_each(rt.alloc(), list.name, |heap| {
            judge_at_once(rt.alloc(), heap, &sessions, wanted.as_str())
        })?;
    }
    Ok(())
}

#[test]
fn sessions_in_turn(rt: HostRuntime) -> Result<(), Fail> {
    for list in session_lists() {
        if !list.sessions.is_empty() {
            let sessions = recorded(rt.alloc(), list.sessions)?;
            let wanted = list.report(rt.alloc())?;
            refuse_each(rt.alloc(), list.name, |heap| {
                judge_in_turn(
                    rt.alloc(),
                    heap,
                    Overviews::Opaque,
                    &sessions,
                    wanted.as_str(),
                )
            })?;
        }
    }
    Ok(())
}

#[test]
fn spools_that_are_put_to_several_sessions(rt: HostRuntime) -> Result<(), Fail> {
    for list in session_lists() {
        let sessions = recorded(rt.alloc(), list.sessions)?;
        let spool = Spool::read(rt.alloc(), list.given.as_bytes())?;
        refuse_each(rt.alloc(), list.name, |heap| {
            verify_given(rt.alloc(), heap, &spool, &sessions, list.verified)
        })?;
    }
    Ok(())
}
