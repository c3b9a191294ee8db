//! Spools that are widened: they have the same groups and articles, and the greater limit.
use crate::given_spools::put_to_both;
use nntp_fixtures::{expect_octets, expect_verified};
use nntp_sessions::{Session, each_session, spool_text};
use nntp_spool::{Spool, Verified};
use nntp_wire::{Limit, Marks};
use std::alloc::Global;
use std::test::Fail;

/// The first lines of the text of a narrow spool, and of a wide one.
const NARROW: &str = "spool 1\n";

const WIDE: &str = "spool 2\nlimit 9999999999999999\n";

/// The limit of the spool with this text, and the lines behind those that tell it.
fn limit_and_content(text: &str) -> Option<(Limit, &str)> {
    match text.strip_prefix(NARROW) {
        Some(content) => Some((Limit::Narrow, content)),
        None => Some((Limit::Wide, text.strip_prefix(WIDE)?)),
    }
}

/// The spool of a text, if this is its limit.
fn read_within(alloc: Global, limit: Limit, text: &str) -> Result<Spool, Fail> {
    let spool = Spool::read(alloc, text.as_bytes())?;
    if spool.limit() == limit {
        Ok(spool)
    } else {
        Err("a spool has another limit than its text".into())
    }
}

/// The text of a wide spool.
fn wide_text(alloc: Global, spool: &Spool) -> Result<Vec<u8>, Fail> {
    if spool.limit() != Limit::Wide {
        return Err("a spool that is widened has another limit".into());
    }
    Ok(spool_text(alloc, spool)?)
}

/// The text of a spool that is widened.
fn widened_text(alloc: Global, spool: Spool) -> Result<Vec<u8>, Fail> {
    wide_text(alloc, &spool.widened())
}

/// The text of the spool of this text when it is widened: it has the same content.
fn widen(alloc: Global, text: &str) -> Result<Vec<u8>, Fail> {
    let Some((limit, content)) = limit_and_content(text) else {
        return Err("a text with another first line".into());
    };
    let written = widened_text(alloc, read_within(alloc, limit, text)?)?;
    let wanted = format!(in alloc; "{WIDE}{content}")?;
    expect_octets(text, &written, wanted.as_bytes())?;
    Ok(written)
}

#[test]
fn a_group_without_numbers(rt: HostRuntime) -> Result<(), Fail> {
    let wide = widen(rt.alloc(), "spool 1\ngroup g 0\nend\n")?;
    let wanted = b"spool 2\nlimit 9999999999999999\ngroup g 0\nend\n";
    expect_octets("a group", &wide, wanted.as_slice())?;
    let streams = (b"".as_slice(), b"".as_slice());
    let verified = put_to_both(rt.alloc(), "a group", Marks::Lenient, &wide, streams)?;
    expect_verified("a group", verified, Verified::Permits { answers: 0 })
}

/// Widens the spool that is given for a session. It permits the session still, if it did.
fn widen_given(alloc: Global, session: &Session) -> Result<(), Fail> {
    let (text, verified) = session.given;
    let name = session.name;
    let marks = session.choice.marks;
    let wide = widen(alloc, text)?;
    let again = put_to_both(alloc, name, marks, &wide, session.streams())?;
    match verified {
        Verified::Permits { .. } => expect_verified(name, again, verified),
        Verified::Refuses { .. } => Ok(()),
    }
}

#[test]
fn given_spools(rt: HostRuntime) -> Result<(), Fail> {
    for session in each_session(rt.alloc())? {
        widen_given(rt.alloc(), session)?;
    }
    Ok(())
}
