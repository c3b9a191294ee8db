//! Runs over worked sessions, and over texts of spools.
use crate::runs::Run;
use crate::tasks::{CHECK, VERIFY};
use crate::trials::Trial;
use nntp_check::{Kind, ReadFault, RunFault};
use nntp_sessions::{capture, with_spool};
use std::test::Fail;

#[test]
fn reports_on_sessions(rt: HostRuntime) -> Result<(), Fail> {
    Ok(Trial::Pass(4096).all(&rt, rt.alloc())?)
}

#[test]
fn octets_that_are_not_printed(rt: HostRuntime) -> Result<(), Fail> {
    let capture = capture(rt.alloc(), "GROUP \\\t\x01\r\n", "200 hi\r\n2\u{e9}\r\n")?;
    let wanted = b"bad answer 1 Malformed\ncommand GROUP \\\\\\x09\\x01\nanswer 2\\xc3\\xa9\n";
    Run::of("escapes", CHECK, capture.as_bytes(), false, wanted).pass(&rt, rt.alloc(), 4096);
    Ok(())
}

/// The streams of a session whose second answer gives an id.
const CLIENT: &str = "GROUP g\r\nNEXT\r\n";

const SERVER: &str = "200 hi\r\n211 3 1 5 g\r\n223 4 <b@x>\r\n";

/// A spool that explains it.
const SPOOL: &str =
    "spool 1\ngroup g 2\n1 <a@x>\n4 <b@x>\narticle <a@x> 1 0\n|Subject: a\narticle <b@x> 1 0\n|Subject: b\nend\n";

#[test]
fn the_text_of_a_spool_in_two_pieces(rt: HostRuntime) -> Result<(), Fail> {
    let capture = capture(rt.alloc(), CLIENT, SERVER)?;
    let (front, rest) = SPOOL.split_at(50);
    let first = with_spool(rt.alloc(), capture.as_str(), front)?;
    let both = with_spool(rt.alloc(), first.as_str(), rest)?;
    let wanted = b"permits answers=3\n";
    Run::of("two pieces", VERIFY, both.as_bytes(), true, wanted).pass(&rt, rt.alloc(), 4096);
    Ok(())
}

/// Pieces of texts that are no spool, with the line and the kind of the first fault.
const NO_SPOOLS: [(&str, u64, Kind); 10] = [
    ("", 1, Kind::Shape),
    ("spool 7\nspool 1", 1, Kind::Shape),
    ("spool 8\nspool 1\n", 2, Kind::Shape),
    ("spool 24\nspool 1\ngroup a,b 0\nend\n", 2, Kind::Name),
    ("spool 27\nspool 1\ngroup g 1\n0 <a@b>\n\n", 3, Kind::Number),
    (
        "spool 32\nspool 1\ngroup h 0\ngroup g 0\nend\n",
        3,
        Kind::Order,
    ),
    ("spool 12\nspool 1\nend\nspool 4\nend\n", 3, Kind::Shape),
    ("spool 12\nspool 2\nend\n", 2, Kind::Shape),
    ("spool 29\nspool 2\nlimit 2147483647\nend\n", 2, Kind::Shape),
    (
        "spool 35\nspool 1\ngroup g 1\n2147483648 <a@b>\n",
        3,
        Kind::Number,
    ),
];

#[test]
fn texts_of_no_spool(rt: HostRuntime) -> Result<(), Fail> {
    let session = capture(rt.alloc(), CLIENT, SERVER)?;
    for (pieces, line, kind) in NO_SPOOLS {
        let capture = format!(in rt.alloc(); "{session}{pieces}")?;
        let fault = RunFault::Spool(ReadFault { line, kind });
        let run = Run::of(pieces, VERIFY, capture.as_bytes(), false, b"");
        run.stopped(fault, b"").pass(&rt, rt.alloc(), 4096);
    }
    Ok(())
}
