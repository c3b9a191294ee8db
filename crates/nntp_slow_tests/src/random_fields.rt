//! Heads and overviews of one article, made at random of a few lines and a few fields, and sometimes its id alone, as they
//! are noted, by a checker and by the slow judge.
use crate::overviews::{Counts, compare};
use nntp_sessions::{NARROW_LENIENT, Random};
use std::alloc::{AllocError, Global};
use std::test::Fail;

/// First lines of headers. `~` stands for TAB.
const HEADERS: [&str; 12] = [
    "Subject: a",
    "Subject:",
    "subject:a  b",
    "SUBJECT: ~ a:",
    "Subject:b",
    "Subjects: a",
    "X: a",
    "References: a",
    "references:~b a ",
    "REFERENCES:",
    "From: a",
    "Date:~a",
];

/// Lines that continue a header.
const MORE: [&str; 4] = [" a", "~b", " ", "~ a b "];

/// What an overview has for a Subject.
const SUBJECTS: [&str; 8] = ["", "a", "b", "a b", " a  b", " ", "b a ", "a:"];

/// What it has for a From or a Date, most often nothing.
const OTHERS: [&str; 4] = ["", "", " ", "a"];

/// What it has behind the id.
const RESTS: [&str; 7] = ["", "~", "~a", "~ a  b", "~b a~9~1", "~~9~1~X: a", "~ ~40"];

/// One of the words.
fn pick(random: &mut Random, words: &[&'static str]) -> &'static str {
    let index = random.below(words.len());
    words.get(index).copied().unwrap_or("")
}

/// The answer to HEAD.
fn head(alloc: Global, random: &mut Random) -> Result<String, AllocError> {
    let first = pick(random, &HEADERS);
    let mut head = format!(in alloc; "221 1 <1@x>/{first}/")?;
    for _ in 0..random.below(4) {
        let lines: &[&'static str] = if random.below(2) == 0 {
            &HEADERS
        } else {
            &MORE
        };
        head.push_str(pick(random, lines))?;
        head.push_str("/")?;
    }
    head.push_str(".")?;
    Ok(head)
}

/// The answer to XOVER.
fn overview(alloc: Global, random: &mut Random) -> Result<String, AllocError> {
    let subject = pick(random, &SUBJECTS);
    let from = pick(random, &OTHERS);
    let date = pick(random, &OTHERS);
    let rest = pick(random, &RESTS);
    format!(in alloc; "224 x/1~{subject}~{from}~{date}~<1@x>{rest}/.")
}

/// A head and an overview, one behind the other, and sometimes the id before them or between them.
fn compare_both(alloc: Global, random: &mut Random, counts: &mut Counts) -> Result<(), Fail> {
    let head = head(alloc, random)?;
    let overview = overview(alloc, random)?;
    let selected = ("GROUP g", "211 3 1 4 g");
    let head = ("HEAD 1", head.as_str());
    let overview = ("XOVER 1", overview.as_str());
    let listed = ("HDR Message-ID 1", "225 h/1 <1@x>/.");
    let choice = NARROW_LENIENT;
    counts.add(match random.below(6) {
        0 => compare(alloc, choice, &[selected, listed, head, overview])?,
        1 => compare(alloc, choice, &[selected, overview, listed, head])?,
        2 | 3 => compare(alloc, choice, &[selected, head, overview])?,
        _ => compare(alloc, choice, &[selected, overview, head])?,
    });
    Ok(())
}

#[test]
fn heads_and_overviews_at_random(rt: HostRuntime) -> Result<(), Fail> {
    let mut random = Random::new(20_261_130, 0);
    let mut counts = Counts::new();
    for _ in 0..600 {
        compare_both(rt.alloc(), &mut random, &mut counts)?;
    }
    assert!(rt; counts.consistent > 20, "{}", counts.consistent);
    assert!(rt; counts.others > 200, "{}", counts.others);
    Ok(())
}
