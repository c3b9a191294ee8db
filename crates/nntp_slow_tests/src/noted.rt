//! What is noted of a session, against the slow judge: which answer is bad, and what is known of the groups if none is.
use nntp_fixtures::{Stop, Whole, expect_octets, group_lines, note_taking};
use nntp_pair::Class;
use nntp_sessions::{Answered, Choice};
use nntp_slow_judge::{Judged, SlowVerdict};
use nntp_wire::Overviews;
use std::alloc::Global;
use std::test::Fail;

/// What is said of a session, how many answers are consistent, and the lines of the groups if all are.
type Said = (Judged, u64, String);

/// What is said of a session whose exchanges were all noted.
fn said_of(alloc: Global, whole: &Whole<Global>) -> Result<Said, Fail> {
    if whole.class.is_some() {
        return Err("octets are left".into());
    }
    let lines = group_lines(alloc, &whole.facts)?;
    Ok((Judged::Consistent, whole.answers, lines))
}

/// What is noted of two streams, which end behind the last exchange, where overviews are taken so.
fn note(
    alloc: Global,
    choice: Choice,
    overviews: Overviews,
    (client, server): (&[u8], &[u8]),
) -> Result<Said, Fail> {
    let Choice { limit, marks } = choice;
    match note_taking(alloc, limit, marks, overviews, client, server) {
        Ok(whole) => said_of(alloc, &whole),
        Err(Stop::Bad { answer, class }) => {
            let judged = if class == Class::OutOfPlace {
                Judged::OutOfPlace
            } else {
                Judged::Contradiction
            };
            Ok((judged, answer, String::new(alloc)))
        }
        Err(_) => Err("memory was refused".into()),
    }
}

/// Compares what is noted of two streams with what the slow judge says.
pub(crate) fn compare_noted(
    alloc: Global,
    choice: Choice,
    overviews: Overviews,
    name: &str,
    streams: (&[u8], &[u8]),
    exchanges: &[Answered<'_>],
    slow: &SlowVerdict,
) -> Result<(), Fail> {
    let (judged, good, lines) = note(alloc, choice, overviews, streams)?;
    if (judged, good) != (slow.judged, slow.good as u64) {
        return Err(Fail::new(format_args!("{name}: {good}, {judged:?}")));
    }
    if judged != Judged::Consistent {
        return Ok(());
    }
    let wanted = nntp_slow_judge::group_lines(alloc, choice.marks, exchanges)?;
    expect_octets(name, lines.as_bytes(), wanted.as_bytes())
}
