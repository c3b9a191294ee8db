//! What `explain` prints of sessions.
mod conflicts;
mod endings;
mod headers;
mod kinds;
mod listed_ids;
mod misfits;
mod misspellings;
mod searched;
mod several;

use crate::reported::Reported;
use crate::runs::Run;
use crate::tasks::EXPLAIN;
use crate::trials::Trial;
pub(crate) use conflicts::CONFLICTS;
pub(crate) use endings::ENDINGS;
pub(crate) use kinds::{POINTS, SAYS};
pub(crate) use misfits::MISFITS;
pub(crate) use misspellings::MISSPELLINGS;
use nntp_sessions::capture;
use std::alloc::{AllocError, Global};
use std::process::Abort;
use std::test::Fail;

/// Sessions with nothing that is bad.
pub(crate) const FAULTLESS: &[Reported] = &[
    Reported {
        name: "nothing at all",
        task: EXPLAIN,
        client: b"",
        server: b"",
        report: b"end answers=0 bad=0 unanswered=0\n",
        answer: true,
    },
    Reported {
        name: "nothing that is bad",
        task: EXPLAIN,
        client: b"GROUP g\r\nQUIT\r\nHELP\r\n",
        server: b"200 hi\r\n211 1 1 1 g\r\n205 bye\r\n",
        report: b"end answers=3 bad=0 unanswered=1\n",
        answer: true,
    },
];

#[test]
fn each_kind_of_point_and_each_thing_that_is_said(rt: HostRuntime) -> Result<(), Fail> {
    Trial::Pass(4096).reports(&rt, rt.alloc(), POINTS)?;
    Ok(Trial::Pass(1).reports(&rt, rt.alloc(), SAYS)?)
}

/// Explains two streams, of which some answer is bad.
fn expect_told(
    rt: &impl Abort,
    alloc: Global,
    (client, server): (&str, &str),
    report: &str,
) -> Result<(), AllocError> {
    let capture = capture(alloc, client, server)?;
    Run::of(
        report,
        EXPLAIN,
        capture.as_bytes(),
        false,
        report.as_bytes(),
    )
    .pass(rt, alloc, 4096);
    Ok(())
}

/// A command and an answer that doesn't fit it, so many times.
fn many_bad(alloc: Global, count: u64) -> Result<(String, String), AllocError> {
    let mut client = String::new(alloc);
    let mut server = String::from_str(alloc, "200 hi\r\n")?;
    for _ in 0..count {
        client.push_str("STAT\r\n")?;
        server.push_str("430 no\r\n")?;
    }
    Ok((client, server))
}

/// What is printed of these, which are so many answers with the greeting: where the session stands, and why they are bad,
/// is told of the first hundred alone.
fn many_told(alloc: Global, count: u64, answers: u64) -> Result<String, AllocError> {
    let mut report = String::new(alloc);
    for k in 1..=count {
        let lines = format!(in alloc; "bad answer {k} OutOfPlace\ncommand STAT\nanswer 430 no\n")?;
        report.push_str(lines.as_str())?;
        if k <= 100 {
            report.push_str("in no group\nwhy code 430 allowed 412\n")?;
        }
    }
    let last = format!(in alloc; "end answers={answers} bad={count} unanswered=0\n")?;
    report.push_str(last.as_str())?;
    Ok(report)
}

#[test]
fn where_it_stands_is_told_a_hundred_times(rt: HostRuntime) -> Result<(), Fail> {
    let alloc = rt.alloc();
    for (count, answers) in [(99, 100), (100, 101), (101, 102), (103, 104)] {
        let (client, server) = many_bad(alloc, count)?;
        let report = many_told(alloc, count, answers)?;
        let streams = (client.as_str(), server.as_str());
        expect_told(&rt, alloc, streams, report.as_str())?;
    }
    Ok(())
}

/// An initial line of 513 octets, its CRLF among them, as the answer to a command.
fn one_octet_too_long(alloc: Global) -> Result<(String, String), AllocError> {
    let client = String::from_str(alloc, "QUIT\r\n")?;
    let mut server = String::from_str(alloc, "200 hi\r\n205 ")?;
    for _ in 0..507 {
        server.push_str("x")?;
    }
    server.push_str("\r\n")?;
    Ok((client, server))
}

/// What is printed of it.
fn too_long_told(alloc: Global) -> Result<String, AllocError> {
    let mut report = String::from_str(alloc, "bad answer 1 Malformed\ncommand QUIT\nanswer 205 ")?;
    for _ in 0..507 {
        report.push_str("x")?;
    }
    report.push_str("\nin no group\nwhy length 513\nend answers=2 bad=1 unanswered=0\n")?;
    Ok(report)
}

#[test]
fn a_line_that_is_too_long(rt: HostRuntime) -> Result<(), Fail> {
    let alloc = rt.alloc();
    let (client, server) = one_octet_too_long(alloc)?;
    let report = too_long_told(alloc)?;
    let streams = (client.as_str(), server.as_str());
    Ok(expect_told(&rt, alloc, streams, report.as_str())?)
}

/// A group of twenty numbers at most, and one that is the twenty-first, in both streams.
fn one_too_many(alloc: Global) -> Result<(String, String), AllocError> {
    let mut client = String::from_str(alloc, "GROUP g\r\n")?;
    let mut server = String::from_str(alloc, "200 hi\r\n211 20 1 50 g\r\n")?;
    for n in 1..=21 {
        let line = format!(in alloc; "STAT {n}\r\n")?;
        client.push_str(line.as_str())?;
        let line = format!(in alloc; "223 {n} <a{n}@x>\r\n")?;
        server.push_str(line.as_str())?;
    }
    Ok((client, server))
}

/// What is printed of them: of the twenty-one reasons the last four.
fn four_told(alloc: Global) -> Result<String, AllocError> {
    let mut report = String::from_str(
        alloc,
        "bad answer 22 Contradiction\ncommand STAT 21\nanswer 223 21 <a21@x>\nin g since 1 at 20 since 21\nabout count g\nsays number g 21 is <a21@x>\n\
        because some of 0 to 17\n",
    )?;
    for before in 16..20 {
        let number = before + 1;
        let lines = format!(in alloc;
            "because answer {}\ncommand STAT {number}\nanswer 223 {number} <a{number}@x>\nin g since 1 at {before} since {number}\n\
            says number g {number} is <a{number}@x>\n",
            before + 2
        )?;
        report.push_str(lines.as_str())?;
    }
    report.push_str("end answers=23 bad=1 unanswered=0\n")?;
    Ok(report)
}

#[test]
fn four_reasons_are_told_of_many(rt: HostRuntime) -> Result<(), Fail> {
    let alloc = rt.alloc();
    let (client, server) = one_too_many(alloc)?;
    let report = four_told(alloc)?;
    let streams = (client.as_str(), server.as_str());
    Ok(expect_told(&rt, alloc, streams, report.as_str())?)
}
