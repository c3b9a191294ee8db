//! Spools that are put to worked sessions: their texts, and `verify`, which is held against the slow judge.
use nntp_fixtures::{expect_verified, put};
use nntp_sessions::{Session, each_session};
use nntp_slow_judge::put_spool;
use nntp_spool::Verified;
use nntp_wire::Marks;
use std::alloc::Global;
use std::test::Fail;

/// What the slow judge says where the spool of a text is put to a session.
fn put_slowly(
    alloc: Global,
    marks: Marks,
    text: &[u8],
    streams: (&[u8], &[u8]),
) -> Result<Verified, Fail> {
    let Some(put) = put_spool(alloc, marks, text, streams)? else {
        return Err("the slow judge takes it for the text of no spool".into());
    };
    Ok(if put.are_all {
        Verified::Permits {
            answers: put.answers,
        }
    } else {
        Verified::Refuses { index: put.answers }
    })
}

/// Puts the spool of a text to a session, by both judges, which have to say the same.
pub(crate) fn put_to_both(
    alloc: Global,
    name: &str,
    marks: Marks,
    text: &[u8],
    streams: (&[u8], &[u8]),
) -> Result<Verified, Fail> {
    let verified = put(alloc, name, marks, text, streams)?;
    expect_verified(name, verified, put_slowly(alloc, marks, text, streams)?)?;
    Ok(verified)
}

/// Puts the spool of a text to a worked session, which has to be answered so.
fn expect_put(
    alloc: Global,
    session: &Session,
    name: &str,
    (text, wanted): (&str, Verified),
) -> Result<(), Fail> {
    let marks = session.choice.marks;
    let verified = put_to_both(alloc, name, marks, text.as_bytes(), session.streams())?;
    expect_verified(name, verified, wanted)
}

/// Puts the spools of a worked session to it.
fn put_all(alloc: Global, session: &Session) -> Result<(), Fail> {
    expect_put(alloc, session, session.name, session.given)?;
    for other in session.others {
        let name = format!(in alloc; "{}, and {}", session.name, other.0)?;
        expect_put(alloc, session, name.as_str(), *other)?;
    }
    Ok(())
}

#[test]
fn spools_of_worked_sessions(rt: HostRuntime) -> Result<(), Fail> {
    for session in each_session(rt.alloc())? {
        put_all(rt.alloc(), session)?;
    }
    Ok(())
}
