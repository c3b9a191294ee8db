//! Sessions that `explain` and the slow judge read to their end: which answers are bad, and the reasons of contradictions.
use crate::overviews::By;
use nntp_fixtures::expect_octets;
use nntp_run_fixtures::{explain_task, written};
use nntp_sessions::{
    BASES, CHOICES, Choice, NARROW_LENIENT, NARROW_STRICT, Random, Wandering, each_row,
    each_session,
};
use nntp_slow_judge::{Reading, read};
use nntp_wire::{Overviews, number, words};
use std::alloc::{AllocError, Global};
use std::process::Abort;
use std::test::Fail;

/// A contradiction of a report: the bad answer, the answers that are told as its reasons, and whether they are all.
#[derive(Drop)]
struct Conflict {
    bad: u64,
    reasons: Vec<u64>,
    is_whole: bool,
}

/// What is compared of a report: its lines that begin with `bad answer` or `end`, and the contradictions.
#[derive(Drop)]
struct Explained {
    alloc: Global,
    lines: Vec<u8>,
    conflicts: Vec<Conflict>,
    /// Whether the last bad answer so far is a contradiction.
    is_in_conflict: bool,
}

impl Explained {
    /// Reads the lines of a report.
    fn of(alloc: Global, report: &[u8]) -> Result<Explained, AllocError> {
        let mut explained = Explained {
            alloc,
            lines: Vec::new(alloc),
            conflicts: Vec::new(alloc),
            is_in_conflict: false,
        };
        let mut line = Vec::new(alloc);
        for octet in report {
            if *octet == b'\n' {
                explained.add(&line)?;
                line.clear();
            } else {
                line.push(*octet)?;
            }
        }
        Ok(explained)
    }

    /// Reads one line more.
    fn add(&mut self, line: &[u8]) -> Result<(), AllocError> {
        if line.starts_with(b"bad answer ") || line.starts_with(b"end ") {
            self.lines.extend_from_slice(line)?;
            self.lines.push(b'\n')?;
        }
        if let Some(rest) = line.strip_prefix(b"bad answer ") {
            return self.add_bad(rest);
        }
        if !self.is_in_conflict {
            return Ok(());
        }
        if let Some(conflict) = self.conflicts.last_mut() {
            if let Some(index) = line.strip_prefix(b"because answer ") {
                conflict.reasons.push(number(index).unwrap_or(0))?;
            } else if line.starts_with(b"because ") {
                conflict.is_whole = false;
            }
        }
        Ok(())
    }

    /// Begins a contradiction, if these are the index and the class of one.
    fn add_bad(&mut self, rest: &[u8]) -> Result<(), AllocError> {
        let mut words = words(rest);
        let (Some(index), Some(class)) = (words.next(), words.next()) else {
            return Ok(());
        };
        self.is_in_conflict = class == b"Contradiction".as_slice();
        if !self.is_in_conflict {
            return Ok(());
        }
        self.conflicts.push(Conflict {
            bad: number(index).unwrap_or(0),
            reasons: Vec::new(self.alloc),
            is_whole: true,
        })?;
        Ok(())
    }
}

/// The capture of two streams, each in one piece.
fn capture(alloc: Global, (client, server): (&[u8], &[u8])) -> Result<Vec<u8>, AllocError> {
    let mut capture = format!(in alloc; "client {}\n", client.len())?.into_bytes();
    capture.extend_from_slice(client)?;
    capture.extend_from_slice(format!(in alloc; "server {}\n", server.len())?.as_bytes())?;
    capture.extend_from_slice(server)?;
    Ok(capture)
}

/// What is compared of the report of `explain` on two streams.
fn explain(alloc: Global, by: By, streams: (&[u8], &[u8])) -> Result<Explained, Fail> {
    let capture = capture(alloc, streams)?;
    let (_, report) = written(alloc, explain_task(by.choice, by.overviews), &capture)?;
    Ok(Explained::of(alloc, &report)?)
}

/// Whether the reasons of a conflict suffice, and none can be left out: no spool has what they and the bad answer say,
/// and without any one of them some spool has what is left.
fn is_irredundant(reading: &Reading<'_>, conflict: &Conflict) -> Result<bool, AllocError> {
    if reading.some_spool_has(conflict.bad, &conflict.reasons, None)? != Some(false) {
        return Ok(false);
    }
    for index in &conflict.reasons {
        let others = reading.some_spool_has(conflict.bad, &conflict.reasons, Some(*index))?;
        if others != Some(true) {
            return Ok(false);
        }
    }
    Ok(true)
}

/// How many contradictions there were, and how many of them have no reason, one, and more.
#[derive(Clone, Copy)]
pub(crate) struct Counts {
    with_none: u64,
    pub(crate) with_one: u64,
    pub(crate) with_more: u64,
}

impl Counts {
    pub(crate) fn new() -> Counts {
        Counts {
            with_none: 0,
            with_one: 0,
            with_more: 0,
        }
    }

    fn add(&mut self, conflict: &Conflict) {
        let count = match conflict.reasons.len() {
            0 => &mut self.with_none,
            1 => &mut self.with_one,
            _ => &mut self.with_more,
        };
        *count = count.saturating_add(1);
    }
}

/// The reasons of a conflict suffice, and none can be left out, if they are all told.
fn expect_reasons(name: &str, reading: &Reading<'_>, conflict: &Conflict) -> Result<(), Fail> {
    if !conflict.is_whole || is_irredundant(reading, conflict)? {
        return Ok(());
    }
    Err(Fail::new(format_args!("answer {}: {name}", conflict.bad)))
}

/// Compares a report with what the slow judge read.
fn compare_reading(
    name: &str,
    explained: &Explained,
    reading: &Reading<'_>,
    counts: &mut Counts,
) -> Result<(), Fail> {
    expect_octets(name, &explained.lines, reading.lines().as_bytes())?;
    for conflict in &explained.conflicts {
        expect_reasons(name, reading, conflict)?;
        counts.add(conflict);
    }
    Ok(())
}

/// Compares what both say of two streams.
pub(crate) fn compare_by(
    alloc: Global,
    by: By,
    streams: (&[u8], &[u8]),
    counts: &mut Counts,
) -> Result<(), Fail> {
    let (client, server) = (streams.0.escape_ascii(), streams.1.escape_ascii());
    let name = format!(in alloc; "{:?}: {client}, {server}", by.choice)?;
    let explained = explain(alloc, by, streams)?;
    let reading = read(alloc, by.choice, by.overviews, streams)?;
    compare_reading(name.as_str(), &explained, &reading, counts)
}

/// The same where overviews are opaque.
fn compare(
    alloc: Global,
    choice: Choice,
    streams: (&[u8], &[u8]),
    counts: &mut Counts,
) -> Result<(), Fail> {
    let overviews = Overviews::Opaque;
    compare_by(alloc, By { choice, overviews }, streams, counts)
}

#[test]
fn worked_sessions(rt: HostRuntime) -> Result<(), Fail> {
    let mut counts = Counts::new();
    for session in each_session(rt.alloc())? {
        for choice in CHOICES {
            compare(rt.alloc(), choice, session.streams(), &mut counts)?;
        }
    }
    expect_each(&rt, counts, 0);
    Ok(())
}

#[test]
fn sessions_with_marks(rt: HostRuntime) -> Result<(), Fail> {
    let mut counts = Counts::new();
    for row in each_row(rt.alloc())? {
        for choice in CHOICES {
            compare(rt.alloc(), choice, row.streams(), &mut counts)?;
        }
    }
    Ok(())
}

/// There were more than so many contradictions with no reason, with one and with more.
fn expect_each(rt: &impl Abort, counts: Counts, least: u64) {
    let Counts {
        with_none,
        with_one,
        with_more,
    } = counts;
    assert!(rt;
        with_none > least && with_one > least && with_more > least,
        "{with_none}, {with_one}, {with_more}"
    );
}

/// Goes on with two sessions by a dozen exchanges each.
fn go_on(
    alloc: Global,
    random: &mut Random,
    first: &mut Wandering,
    second: &mut Wandering,
) -> Result<(), AllocError> {
    for _ in 0..12 {
        first.go_on(alloc, random)?;
        second.go_on(alloc, random)?;
    }
    Ok(())
}

/// Three parts of a stream in one.
fn joined(alloc: Global, parts: [&[u8]; 3]) -> Result<Vec<u8>, AllocError> {
    let mut stream = Vec::new(alloc);
    for part in parts {
        stream.extend_from_slice(part)?;
    }
    Ok(stream)
}

/// Two random sessions of a dozen exchanges in one: between them the answer to HEAD is malformed, with its block, and the
/// greeting of the second answers a line that isn't understood.
fn two_in_one(alloc: Global, random: &mut Random) -> Result<(Vec<u8>, Vec<u8>), AllocError> {
    let mut first = Wandering::new(alloc)?;
    let mut second = Wandering::new(alloc)?;
    go_on(alloc, random, &mut first, &mut second)?;
    let (asked, answered) = first.streams();
    let (asked_then, answered_then) = second.streams();
    let malformed = b"221 one <a@b>\r\nSubject: s\r\n.\r\n".as_slice();
    let client = joined(alloc, [asked, b"HEAD\r\nXHELLO\r\n", asked_then])?;
    let server = joined(alloc, [answered, malformed, answered_then])?;
    Ok((client, server))
}

/// Compares random sessions about 0 and about the narrow limit.
fn compare_random(rt: &impl Abort, alloc: Global, choice: Choice) -> Result<(), Fail> {
    let mut counts = Counts::new();
    for base in BASES {
        let mut random = Random::new(20_261_125, base);
        for _ in 0..40 {
            let (client, server) = two_in_one(alloc, &mut random)?;
            compare(alloc, choice, (&client, &server), &mut counts)?;
        }
    }
    expect_each(rt, counts, 2);
    Ok(())
}

#[test]
fn random_sessions(rt: HostRuntime) -> Result<(), Fail> {
    for choice in [NARROW_LENIENT, NARROW_STRICT] {
        compare_random(&rt, rt.alloc(), choice)?;
    }
    Ok(())
}
