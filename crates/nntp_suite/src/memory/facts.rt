//! Want of memory while exchanges are noted, and while the spool is made of what was noted.
use crate::memory::spools::right_if_written;
use nntp_fixtures::{Stop, Whole, bad_of, beginning, note_all};
use nntp_little_memory::{Ended, refuse_each, right_if};
use nntp_pair::Class;
use nntp_refusing::{Refusal, Refusing};
use nntp_sessions::{Choice, Session, each_row, each_session};
use nntp_wire::{Limit, Marks};
use nntp_witness::witness;
use std::alloc::{AllocError, Allocator, Global};
use std::test::Fail;

/// How many answers are right, and the class of the one behind them, if that is bad.
pub(crate) fn outcome<A: Allocator>(
    noted: Result<Whole<A>, Stop>,
) -> Result<(u64, Option<Class>), Ended> {
    match noted {
        Ok(whole) => Ok((whole.answers, whole.class)),
        Err(Stop::Bad { answer, class }) => Ok((answer, Some(class))),
        Err(Stop::Memory) => Err(Ended::Memory),
        Err(Stop::Wrong) => Err(Ended::Wrong),
    }
}

/// Notes the exchanges of a session, up to the one that its verdict calls bad.
fn note_session<A: Allocator + Copy>(alloc: Global, heap: A, session: &Session) -> Ended {
    let (client, server) = session.streams();
    let Choice { limit, marks } = session.choice;
    let (answer, class) = match outcome(note_all(heap, limit, marks, client, server)) {
        Ok(outcome) => outcome,
        Err(ended) => return ended,
    };
    match beginning(alloc, answer, class) {
        Ok(words) => right_if(session.verdict.starts_with(words.as_str())),
        Err(AllocError) => Ended::Wrong,
    }
}

#[test]
fn exchanges_of_worked_sessions_are_noted(rt: HostRuntime) -> Result<(), Fail> {
    let mut most = 0;
    for session in each_session(rt.alloc())? {
        let refused = refuse_each(rt.alloc(), session.name, |heap| {
            note_session(rt.alloc(), heap, session)
        })?;
        most = refused.max(most);
    }
    assert!(rt; most > 3, "{most}");
    Ok(())
}

/// Notes the exchanges of two streams by strict marks. So many answers are right, and the one behind them is
/// bad where a class is told.
fn note_strictly<A: Allocator + Copy>(
    heap: A,
    limit: Limit,
    (client, server): (&[u8], &[u8]),
    wanted: (u64, Option<Class>),
) -> Ended {
    match outcome(note_all(heap, limit, Marks::Strict, client, server)) {
        Ok(outcome) => right_if(outcome == wanted),
        Err(ended) => ended,
    }
}

#[test]
fn exchanges_with_strict_marks_are_noted(rt: HostRuntime) -> Result<(), Fail> {
    let mut most = 0;
    for row in each_row(rt.alloc())? {
        let refused = refuse_each(rt.alloc(), row.name, |heap| {
            note_strictly(heap, Limit::Narrow, row.streams(), bad_of(row.strict))
        })?;
        most = refused.max(most);
    }
    assert!(rt; most > 3, "{most}");
    Ok(())
}

#[test]
fn exchanges_of_worked_sessions_are_noted_by_strict_marks(rt: HostRuntime) -> Result<(), Fail> {
    let ample = Refusing::new(rt.alloc(), Refusal::Never);
    for session in each_session(rt.alloc())? {
        let limit = session.choice.limit;
        let (client, server) = session.streams();
        let Ok(wanted) = outcome(note_all(&ample, limit, Marks::Strict, client, server)) else {
            return Err("memory was refused".into());
        };
        refuse_each(rt.alloc(), session.name, |heap| {
            note_strictly(heap, limit, (client, server), wanted)
        })?;
    }
    Ok(())
}

/// Makes the spool that is given for a session, of facts that are kept in `ample` memory.
fn make_spool<A: Allocator + Copy>(alloc: Global, heap: A, ample: A, session: &Session) -> Ended {
    let (client, server) = session.streams();
    let Choice { limit, marks } = session.choice;
    let Ok(mut whole) = note_all(ample, limit, marks, client, server) else {
        return Ended::Wrong;
    };
    match witness(heap, &mut whole.facts) {
        Ok(spool) => right_if_written(alloc, &spool, session.given.0.as_bytes()),
        Err(AllocError) => Ended::Memory,
    }
}

#[test]
fn spools_of_worked_sessions_are_made(rt: HostRuntime) -> Result<(), Fail> {
    let ample = Refusing::new(rt.alloc(), Refusal::Never);
    let mut most = 0;
    for session in each_session(rt.alloc())? {
        if session.is_consistent() {
            let refused = refuse_each(rt.alloc(), session.name, |heap| {
                make_spool(rt.alloc(), heap, &ample, session)
            })?;
            most = refused.max(most);
        }
    }
    assert!(rt; most > 3, "{most}");
    Ok(())
}
