//! The verdicts of `check`.
use nntp_fixtures::{check_by, expect_octets, shown};
use nntp_sessions::{NARROW_LENIENT, Session, each_session};
use nntp_verdict::Verdict;
use std::alloc::{AllocError, Global};
use std::test::Fail;

/// The report on a worked session is the one that is wanted.
fn expect_report(alloc: Global, session: &Session) -> Result<(), Fail> {
    let wanted = session.report(alloc)?;
    let verdict = check_by(session.choice, alloc, session.streams())?;
    expect_octets(session.name, &shown(alloc, &verdict)?, wanted.as_bytes())
}

#[test]
fn verdicts_on_worked_sessions(rt: HostRuntime) -> Result<(), Fail> {
    for session in each_session(rt.alloc())? {
        expect_report(rt.alloc(), session)?;
    }
    Ok(())
}

/// A front, 600 times a letter, and what follows.
fn long(alloc: Global, front: &[u8], letter: u8, rest: &[u8]) -> Result<Vec<u8>, AllocError> {
    let mut octets = Vec::from_slice(alloc, front)?;
    for _ in 0..600 {
        octets.push(letter)?;
    }
    octets.extend_from_slice(rest)?;
    Ok(octets)
}

/// Whether this is 512 times the letter.
fn is_front(octets: &[u8], letter: u8) -> bool {
    octets.len() == 512 && octets.iter().all(|octet| *octet == letter)
}

/// Whether the verdict shows the front of a line of `x`, and of a reply of `y`.
fn shows_fronts(verdict: &Verdict) -> bool {
    match verdict {
        Verdict::Bad {
            answer: 1,
            command: Some(command),
            reply,
            ..
        } => is_front(command, b'x') && is_front(reply, b'y'),
        _ => false,
    }
}

/// Whether the verdict on these streams does.
fn are_shown(alloc: Global, streams: (&[u8], &[u8])) -> Result<bool, AllocError> {
    let verdict = check_by(NARROW_LENIENT, alloc, streams)?;
    Ok(shows_fronts(&verdict))
}

#[test]
fn verdicts_show_at_most_512_octets(rt: HostRuntime) -> Result<(), Fail> {
    let client = long(rt.alloc(), b"", b'x', b"\r\n")?;
    let server = long(rt.alloc(), b"200 hi\r\n", b'y', b"")?;
    assert!(rt; are_shown(rt.alloc(), (&client, &server))?);
    Ok(())
}
