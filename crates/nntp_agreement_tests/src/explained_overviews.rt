//! Random sessions with overviews that `explain` and the slow judge read to their end, where overviews are judged.
use crate::explained::{Counts, compare_by};
use crate::overviews::{By, EXCHANGES, Exchange, Recording, SELECTED};
use nntp_sessions::{NARROW_LENIENT, NARROW_STRICT, Random};
use nntp_wire::Overviews;
use std::alloc::{AllocError, Global};
use std::test::Fail;

/// What else is said: of headers, and of numbers without overviews.
const OTHERS: [Exchange; 8] = [
    (
        "XOVER 1-\r\n",
        "224 x\r\n1\ts\tf\td\t<a@x>\r\n3\tt\tf\td\t<c@x>\r\n.\r\n",
    ),
    ("OVER <a@x>\r\n", "224 x\r\n0\ts\tf\td\t<a@x>\r\n.\r\n"),
    (
        "HEAD 1\r\n",
        "221 1 <a@x>\r\nSubject: s\r\nFrom: f\r\nDate: d\r\n.\r\n",
    ),
    (
        "HEAD <a@x>\r\n",
        "221 0 <a@x>\r\nSubject: t\r\nFrom: f\r\n.\r\n",
    ),
    ("GROUP g\r\n", "211 1 1 4 g\r\n"),
    ("NEXT\r\n", "223 3 <c@x>\r\n"),
    ("STAT 4\r\n", "223 4 <d@x>\r\n"),
    ("STAT <c@x>\r\n", "430 no\r\n"),
];

/// One of these exchanges.
fn one_of(random: &mut Random, exchanges: &[Exchange]) -> Exchange {
    let place = random.below(exchanges.len());
    exchanges.get(place).copied().unwrap_or(SELECTED)
}

/// A session of eight exchanges behind a selection, of either list.
fn any_session(alloc: Global, random: &mut Random) -> Result<Recording, AllocError> {
    let mut said = Vec::new(alloc);
    said.push(SELECTED)?;
    for _ in 0..8 {
        let exchanges: &[Exchange] = if random.below(2) == 0 {
            &EXCHANGES
        } else {
            &OTHERS
        };
        said.push(one_of(random, exchanges))?;
    }
    Recording::of(alloc, &said)
}

/// Compares such sessions.
fn compare_random(alloc: Global, by: By, counts: &mut Counts) -> Result<(), Fail> {
    let mut random = Random::new(20_261_130, 0);
    for _ in 0..40 {
        let recording = any_session(alloc, &mut random)?;
        compare_by(alloc, by, recording.streams(), counts)?;
    }
    Ok(())
}

#[test]
fn random_sessions_with_overviews(rt: HostRuntime) -> Result<(), Fail> {
    let mut counts = Counts::new();
    for choice in [NARROW_LENIENT, NARROW_STRICT] {
        let overviews = Overviews::Judged;
        compare_random(rt.alloc(), By { choice, overviews }, &mut counts)?;
    }
    let Counts {
        with_one,
        with_more,
        ..
    } = counts;
    assert!(rt; with_one > 20 && with_more > 2, "{with_one}, {with_more}");
    Ok(())
}
