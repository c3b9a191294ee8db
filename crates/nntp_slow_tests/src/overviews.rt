//! Short sessions in which overviews are judged, as they are noted, by a checker and by the slow judge (RFC 3977, sections
//! 8.3 and 8.5).
use crate::judged::compare_verdict;
use crate::noted::compare_noted;
use nntp_fixtures::checker_taking;
use nntp_pair::{Pairs, Step};
use nntp_sessions::{Answered, Choice, NARROW_LENIENT, NARROW_STRICT};
use nntp_slow_judge::{Judged, SlowVerdict};
use nntp_verdict::Verdict;
use nntp_wire::Overviews;
use std::alloc::{AllocError, Global};
use std::process::Abort;
use std::test::Fail;

/// A command and its answer. `/` stands between lines, `~` for TAB, and `#` for what an overview has between its number
/// and its id.
pub(crate) type Exchange = (&'static str, &'static str);

/// What is said of the group.
pub(crate) const SELECTED: [Exchange; 3] = [
    ("GROUP g", "211 3 1 4 g"),
    ("GROUP g", "211 2 2 4 g"),
    ("GROUP g", "211 0 0 0 g"),
];

/// What is said behind it.
const EXCHANGES: [Exchange; 27] = [
    ("XOVER 1-3", "224 x/1#<1@x>/3#<3@x>/."),
    ("XOVER 2-4", "224 x/2#<2@x>/3#<3@x>/4#<4@x>/."),
    ("XOVER 3-", "224 x/4#<4@x>/."),
    ("XOVER 2", "224 x/."),
    ("XOVER 1-2", "420 no"),
    ("XOVER 3", "423 no"),
    ("XOVER 2-4", "224 x/4#<4@x>/2#<2@x>/."),
    ("OVER 1-3", "224 x/2#<3@x>/."),
    ("OVER 1-3", "224 x/."),
    ("OVER 1-2", "420 no"),
    ("OVER 2-3", "423 no"),
    ("OVER 3-", "224 x/4#<3@x>/."),
    ("OVER 3-4", "224 x/3#<3@x>/4#<3@x>/."),
    ("OVER", "224 x/2#<2@x>/."),
    ("OVER", "224 x/3#<3@x>/."),
    ("OVER", "224 x/2#<2@x>/3#<3@x>/."),
    ("OVER", "420 no"),
    ("OVER <3@x>", "224 x/3#<3@x>/."),
    ("OVER <3@x>", "224 x/2#<3@x>/."),
    ("OVER <3@x>", "430 no"),
    ("STAT", "223 2 <2@x>"),
    ("STAT 3", "223 3 <3@x>"),
    ("STAT 3", "423 no"),
    ("STAT <3@x>", "223 0 <3@x>"),
    ("NEXT", "223 3 <3@x>"),
    ("NEXT", "421 no"),
    ("LAST", "223 2 <2@x>"),
];

/// What is said of the headers of an article.
pub(crate) const FIELDS: [Exchange; 12] = [
    ("XOVER 1-3", "224 x/1#<1@x>/3#<3@x>~<r@x>/."),
    ("XOVER 3-", "224 x/3~ s  ~f~d~<3@x>~<r@x> ~9~1/."),
    ("XOVER 3", "224 x/3~t~f~d~<3@x>~<r@x>/."),
    ("XOVER 3", "224 x/3#<3@x>/."),
    ("OVER <3@x>", "224 x/0#<3@x>~<r@x>~40~7~X/."),
    ("OVER <3@x>", "224 x/0~t~f~d~<3@x>~/."),
    ("OVER", "224 x/3#<3@x>~<r@x>/."),
    (
        "HEAD 3",
        "221 3 <3@x>/Subject: s/From: f/Date: d/References: <r@x>/.",
    ),
    ("HEAD <3@x>", "221 0 <3@x>/Subject: t/From: f/Date: d/."),
    (
        "ARTICLE <3@x>",
        "220 0 <3@x>/subject:/~s/From: f/DATE: d/References:~<r@x>/Subject: t//one/.",
    ),
    (
        "ARTICLE 3",
        "220 3 <3@x>/From: f/Date: d/Subject: s//References: <r@x>/.",
    ),
    ("BODY <3@x>", "222 0 <3@x>/Subject: t/."),
];

/// Adds lines to a stream.
fn put_lines(stream: &mut Vec<u8>, lines: &str) -> Result<(), AllocError> {
    for octet in lines.as_bytes() {
        match *octet {
            b'/' => stream.extend_from_slice(b"\r\n")?,
            b'#' => stream.extend_from_slice(b"\ts\tf\td\t")?,
            b'~' => stream.push(b'\t')?,
            _ => stream.push(*octet)?,
        }
    }
    stream.extend_from_slice(b"\r\n")
}

/// All exchanges of two streams, where overviews are judged.
fn exchanges<'a>(
    alloc: Global,
    client: &'a [u8],
    server: &'a [u8],
) -> Result<Vec<Answered<'a>>, AllocError> {
    let mut answered = Vec::new(alloc);
    let mut pairs = Pairs::taking(Overviews::Judged, client, server);
    for _ in 0..server.len() {
        let Step::Exchange(exchange) = pairs.next() else {
            break;
        };
        let end = server.len().saturating_sub(pairs.ahead().rest.len());
        answered.push(Answered { exchange, end })?;
    }
    Ok(answered)
}

/// The verdict of a checker on two streams, where overviews are judged.
fn checked(alloc: Global, choice: Choice, client: &[u8], server: &[u8]) -> Result<Verdict, Fail> {
    let mut checker = checker_taking(choice, alloc, Overviews::Judged);
    checker.feed_client(client)?;
    checker.feed_server(server)?;
    Ok(checker.finish()?)
}

/// Puts two streams to all, and tells what is said of them.
fn compare_streams(
    alloc: Global,
    choice: Choice,
    (client, server): (&[u8], &[u8]),
    exchanges: &[Answered<'_>],
) -> Result<Judged, Fail> {
    let name = format!(in alloc; "{choice:?}: {}", server.escape_ascii())?;
    let name = name.as_str();
    let slow = SlowVerdict::of(alloc, choice, exchanges)?;
    let streams = (client, server);
    let taken = Overviews::Judged;
    compare_noted(alloc, choice, taken, name, streams, exchanges, &slow)?;
    let verdict = checked(alloc, choice, client, server)?;
    compare_verdict(alloc, choice, taken, name, streams, &verdict, &slow)?;
    Ok(slow.judged)
}

/// Puts these exchanges behind a greeting to all, and tells whether they are consistent.
pub(crate) fn compare(alloc: Global, choice: Choice, said: &[(&str, &str)]) -> Result<bool, Fail> {
    let mut client = Vec::new(alloc);
    let mut server = Vec::from_slice(alloc, b"200 hi\r\n")?;
    for (command, answer) in said {
        put_lines(&mut client, *command)?;
        put_lines(&mut server, *answer)?;
    }
    let exchanges = exchanges(alloc, &client, &server)?;
    if exchanges.len() != said.len().saturating_add(1) {
        return Err("some octets are no answers".into());
    }
    let streams = (client.as_slice(), server.as_slice());
    Ok(compare_streams(alloc, choice, streams, &exchanges)? == Judged::Consistent)
}

/// How many sessions are consistent, and how many aren't.
#[derive(Clone, Copy)]
pub(crate) struct Counts {
    pub(crate) consistent: u64,
    pub(crate) others: u64,
}

impl Counts {
    pub(crate) fn new() -> Counts {
        Counts {
            consistent: 0,
            others: 0,
        }
    }

    pub(crate) fn add(&mut self, is_consistent: bool) {
        let count = if is_consistent {
            &mut self.consistent
        } else {
            &mut self.others
        };
        *count = count.saturating_add(1);
    }
}

/// Each two of these exchanges, behind one and before another.
pub(crate) fn compare_pairs(
    alloc: Global,
    choice: Choice,
    (first, last): (Exchange, Exchange),
    exchanges: &[Exchange],
    counts: &mut Counts,
) -> Result<(), Fail> {
    for second in exchanges {
        for third in exchanges {
            counts.add(compare(alloc, choice, &[first, *second, *third, last])?);
        }
    }
    Ok(())
}

/// Each two exchanges behind one that selects the group, and one more behind both: some are consistent, and some aren't.
fn compare_all(rt: &impl Abort, alloc: Global, choice: Choice, last: Exchange) -> Result<(), Fail> {
    let mut counts = Counts::new();
    for selected in SELECTED {
        compare_pairs(alloc, choice, (selected, last), &EXCHANGES, &mut counts)?;
    }
    assert!(rt; counts.consistent > 20, "{}", counts.consistent);
    assert!(rt; counts.others > 1_000, "{}", counts.others);
    Ok(())
}

#[test]
fn overviews_and_then_a_step(rt: HostRuntime) -> Result<(), Fail> {
    let last = ("NEXT", "223 4 <4@x>");
    compare_all(&rt, rt.alloc(), NARROW_LENIENT, last)
}

#[test]
fn overviews_and_then_a_range(rt: HostRuntime) -> Result<(), Fail> {
    let last = ("XOVER 1-4", "224 x/2#<2@x>/3#<3@x>/.");
    compare_all(&rt, rt.alloc(), NARROW_LENIENT, last)
}

#[test]
fn overviews_and_strict_marks(rt: HostRuntime) -> Result<(), Fail> {
    let last = ("STAT 4", "223 4 <4@x>");
    compare_all(&rt, rt.alloc(), NARROW_STRICT, last)
}

/// Each three of what is said of headers. They are consistent where they tell the same, send one head and one body, and
/// show no number that they deny: so counted, 291 are.
#[test]
fn overviews_and_heads(rt: HostRuntime) -> Result<(), Fail> {
    let mut counts = Counts::new();
    let selected = ("GROUP g", "211 3 1 4 g");
    for last in FIELDS {
        compare_pairs(
            rt.alloc(),
            NARROW_LENIENT,
            (selected, last),
            &FIELDS,
            &mut counts,
        )?;
    }
    assert!(rt; counts.consistent == 291, "{}", counts.consistent);
    assert!(rt; counts.others == 1_437, "{}", counts.others);
    Ok(())
}
