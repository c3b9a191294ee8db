//! The verdicts on both sessions, and what `verify` answers of two spools.
use crate::example::session::{CLIENT, SERVER, SHORTER_CLIENT, SHORTER_SERVER};
use nntp_fixtures::{check_by, expect_octets, expect_verified, put, shown};
use nntp_sessions::NARROW_LENIENT;
use nntp_spool::Verified;
use nntp_wire::Marks;
use std::alloc::Global;
use std::test::Fail;

/// The report of `check` on the whole session.
const BAD: &[u8] = b"bad answer 4 Contradiction\ncommand STAT 1\nanswer 423 no\n";

/// The first line of the report on the shorter one, and the text of the given spool.
const CONSISTENT: &[u8] = b"consistent answers=5 groups=1 numbers=2 articles=2\n";

const GIVEN: &[u8] = b"spool 1\ngroup misc.test 2\n1 <w0@invented.invalid>\n2 <a@x>\n\
article <a@x> 2 0\n|Subject: two\n|Message-ID: <a@x>\n\
article <w0@invented.invalid> 1 0\n|Message-ID: <w0@invented.invalid>\nend\n";

/// The same with another number.
const OTHER: &[u8] = b"spool 1\ngroup misc.test 2\n1 <w0@invented.invalid>\n3 <a@x>\n\
article <a@x> 2 0\n|Subject: two\n|Message-ID: <a@x>\n\
article <w0@invented.invalid> 1 0\n|Message-ID: <w0@invented.invalid>\nend\n";

#[test]
fn of_the_whole_session(rt: HostRuntime) -> Result<(), Fail> {
    let verdict = check_by(NARROW_LENIENT, rt.alloc(), (CLIENT, SERVER))?;
    expect_octets("the whole session", &shown(rt.alloc(), &verdict)?, BAD)
}

#[test]
fn of_the_shorter_session(rt: HostRuntime) -> Result<(), Fail> {
    let streams = (SHORTER_CLIENT, SHORTER_SERVER);
    let mut wanted = Vec::from_slice(rt.alloc(), CONSISTENT)?;
    wanted.extend_from_slice(GIVEN)?;
    let verdict = check_by(NARROW_LENIENT, rt.alloc(), streams)?;
    expect_octets(
        "the shorter session",
        &shown(rt.alloc(), &verdict)?,
        &wanted,
    )
}

/// `verify` answers so of the spool of this text.
fn expect(
    alloc: Global,
    text: &[u8],
    streams: (&[u8], &[u8]),
    wanted: Verified,
) -> Result<(), Fail> {
    let verified = put(alloc, "a spool", Marks::Lenient, text, streams)?;
    expect_verified("a spool", verified, wanted)
}

#[test]
fn of_two_spools(rt: HostRuntime) -> Result<(), Fail> {
    let alloc = rt.alloc();
    let shorter = (SHORTER_CLIENT, SHORTER_SERVER);
    let permits = Verified::Permits { answers: 5 };
    expect(alloc, GIVEN, shorter, permits)?;
    let refuses = Verified::Refuses { index: 2 };
    expect(alloc, OTHER, shorter, refuses)?;
    let refuses = Verified::Refuses { index: 4 };
    expect(alloc, GIVEN, (CLIENT, SERVER), refuses)
}
