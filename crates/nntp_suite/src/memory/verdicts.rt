//! Want of memory while worked sessions are judged.
use nntp_fixtures::{check_by, shown};
use nntp_little_memory::{Ended, give_each, refuse_each, right_if};
use nntp_sessions::{Session, each_session};
use nntp_verdict::Verdict;
use std::alloc::{Allocator, Global};
use std::test::Fail;

/// Right if the report on the verdict is this one.
pub(crate) fn right_if_shown<A: Allocator>(
    alloc: Global,
    verdict: &Verdict<A>,
    wanted: &str,
) -> Ended {
    match shown(alloc, verdict) {
        Ok(octets) => right_if(octets.as_slice() == wanted.as_bytes()),
        Err(_) => Ended::Wrong,
    }
}

/// By `check`.
fn judge_at_once<A: Allocator + Copy>(
    alloc: Global,
    heap: A,
    session: &Session,
    wanted: &str,
) -> Ended {
    match check_by(session.choice, heap, session.streams()) {
        Ok(verdict) => right_if_shown(alloc, &verdict, wanted),
        Err(_) => Ended::Memory,
    }
}

#[test]
fn verdicts_on_worked_sessions(rt: HostRuntime) -> Result<(), Fail> {
    for session in each_session(rt.alloc())? {
        let wanted = session.report(rt.alloc())?;
        refuse_each(rt.alloc(), session.name, |heap| {
            judge_at_once(rt.alloc(), heap, session, wanted.as_str())
        })?;
    }
    Ok(())
}

#[test]
fn verdicts_with_few_octets(rt: HostRuntime) -> Result<(), Fail> {
    for session in each_session(rt.alloc())? {
        let wanted = session.report(rt.alloc())?;
        give_each(rt.alloc(), session.name, |heap| {
            judge_at_once(rt.alloc(), heap, session, wanted.as_str())
        })?;
    }
    Ok(())
}
