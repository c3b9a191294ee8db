//! Sessions that the slow judge judges too, answer by answer.
use crate::given_spools::put_to_both;
use crate::noted::compare_noted;
use nntp_fixtures::{check_by, expect_front, expect_octets, expect_verified, shown};
use nntp_sessions::{
    Answered, BASES, CHOICES, Choice, NARROW_LENIENT, NARROW_STRICT, Random, Session, Wandering,
    each_row, each_session, exchanges,
};
use nntp_slow_judge::{Judged, SlowVerdict};
use nntp_spool::{Verified, verify_taking};
use nntp_verdict::Verdict;
use nntp_wire::Overviews;
use std::alloc::{AllocError, Global};
use std::process::Abort;
use std::test::Fail;

/// Compares a verdict on two streams, where overviews are taken so, with what the slow judge says. `verify_taking`
/// permits the spool that is given.
pub(crate) fn compare_verdict(
    alloc: Global,
    choice: Choice,
    overviews: Overviews,
    name: &str,
    (client, server): (&[u8], &[u8]),
    verdict: &Verdict,
    slow: &SlowVerdict,
) -> Result<(), Fail> {
    slow.expect_told(alloc, name, &shown(alloc, verdict)?)?;
    let Verdict::Consistent { spool, answers } = verdict else {
        return Ok(());
    };
    let verified = verify_taking(alloc, choice.marks, spool, overviews, client, server)?;
    expect_verified(name, verified, Verified::Permits { answers: *answers })
}

/// Compares `check` of two streams, which end behind the last exchange, with what the slow judge says.
fn compare_check(
    alloc: Global,
    choice: Choice,
    name: &str,
    streams: (&[u8], &[u8]),
    slow: &SlowVerdict,
) -> Result<(), Fail> {
    let verdict = check_by(choice, alloc, streams)?;
    let overviews = Overviews::Opaque;
    compare_verdict(alloc, choice, overviews, name, streams, &verdict, slow)
}

/// Compares `check` and what is noted of these exchanges.
fn compare(
    alloc: Global,
    choice: Choice,
    name: &str,
    streams: (&[u8], &[u8]),
    exchanges: &[Answered<'_>],
    slow: &SlowVerdict,
) -> Result<(), Fail> {
    compare_check(alloc, choice, name, streams, slow)?;
    let overviews = Overviews::Opaque;
    compare_noted(alloc, choice, overviews, name, streams, exchanges, slow)
}

/// The verdict on a worked session is that of the slow judge, as is the spool.
fn judge_worked(alloc: Global, session: &Session) -> Result<(), Fail> {
    let name = session.name;
    let (client, server) = session.streams();
    let slow = SlowVerdict::of(alloc, session.choice, &exchanges(alloc, client, server)?)?;
    let first = slow.first_line(alloc, session.is_consistent())?;
    expect_front(name, session.verdict.as_bytes(), first.as_str())?;
    expect_octets(name, &slow.text, session.given.0.as_bytes())
}

/// Judges by each choice the front of a session that ends behind the last of these answers.
fn judge_front(
    alloc: Global,
    name: &str,
    (client, server): (&[u8], &[u8]),
    front: &[Answered<'_>],
) -> Result<(), Fail> {
    let end = front.last().map_or(0, |answered| answered.end);
    let (server, _) = server.split_at(end.min(server.len()));
    for choice in CHOICES {
        let slow = SlowVerdict::of(alloc, choice, front)?;
        compare(alloc, choice, name, (client, server), front, &slow)?;
    }
    Ok(())
}

/// Judges each front of a session that ends behind an answer.
fn judge_fronts(alloc: Global, name: &str, streams: (&[u8], &[u8])) -> Result<(), Fail> {
    let exchanges = exchanges(alloc, streams.0, streams.1)?;
    for count in 0..=exchanges.len() {
        let (front, _) = exchanges.split_at(count);
        judge_front(alloc, name, streams, front)?;
    }
    Ok(())
}

#[test]
fn worked_sessions(rt: HostRuntime) -> Result<(), Fail> {
    for session in each_session(rt.alloc())? {
        judge_worked(rt.alloc(), session)?;
        judge_fronts(rt.alloc(), session.name, session.streams())?;
    }
    Ok(())
}

#[test]
fn sessions_with_marks(rt: HostRuntime) -> Result<(), Fail> {
    for row in each_row(rt.alloc())? {
        judge_fronts(rt.alloc(), row.name, row.streams())?;
    }
    Ok(())
}

/// How often each was judged.
#[derive(Clone, Copy)]
struct Counts {
    consistent: u64,
    out_of_place: u64,
    contradictions: u64,
}

impl Counts {
    fn new() -> Counts {
        Counts {
            consistent: 0,
            out_of_place: 0,
            contradictions: 0,
        }
    }

    fn add(&mut self, judged: Judged) {
        let count = match judged {
            Judged::Consistent => &mut self.consistent,
            Judged::OutOfPlace => &mut self.out_of_place,
            Judged::Contradiction => &mut self.contradictions,
        };
        *count = count.saturating_add(1);
    }
}

/// Judges the last exchange of two streams, of which those before it are consistent. The spool that was given for those
/// is put to all of them.
fn judge_last(
    alloc: Global,
    choice: Choice,
    streams: (&[u8], &[u8]),
    slow: &mut SlowVerdict,
) -> Result<(), Fail> {
    let name = format!(in alloc; "{choice:?}: {}", streams.0.escape_ascii())?;
    let name = name.as_str();
    put_to_both(alloc, name, choice.marks, &slow.text, streams)?;
    let exchanges = exchanges(alloc, streams.0, streams.1)?;
    if exchanges.len() != slow.good.saturating_add(1) {
        return Err("some octets are no answers".into());
    }
    slow.go_on(alloc, choice, &exchanges)?;
    compare(alloc, choice, name, streams, &exchanges, slow)
}

/// What the slow judge says of a greeting.
fn greeted(alloc: Global, choice: Choice, session: &Wandering) -> Result<SlowVerdict, AllocError> {
    let (client, server) = session.streams();
    SlowVerdict::of(alloc, choice, &exchanges(alloc, client, server)?)
}

/// Goes on with a session: each answer that isn't consistent with those before it is taken back.
fn wander(
    alloc: Global,
    choice: Choice,
    random: &mut Random,
    counts: &mut Counts,
) -> Result<(), Fail> {
    let mut session = Wandering::new(alloc)?;
    let mut slow = greeted(alloc, choice, &session)?;
    for _ in 0..12 {
        session.go_on(alloc, random)?;
        judge_last(alloc, choice, session.streams(), &mut slow)?;
        counts.add(slow.judged);
        if slow.judged != Judged::Consistent {
            session.go_back();
        }
    }
    Ok(())
}

/// Judges random sessions about 0 and about the narrow limit.
fn judge_random(rt: &impl Abort, alloc: Global, choice: Choice) -> Result<(), Fail> {
    let mut counts = Counts::new();
    for base in BASES {
        let mut random = Random::new(20_261_122, base);
        for _ in 0..150 {
            wander(alloc, choice, &mut random, &mut counts)?;
        }
    }
    assert!(rt; counts.consistent > 300, "{}", counts.consistent);
    assert!(rt; counts.out_of_place > 60, "{}", counts.out_of_place);
    assert!(rt; counts.contradictions > 60, "{}", counts.contradictions);
    Ok(())
}

#[test]
fn random_sessions_with_lenient_marks(rt: HostRuntime) -> Result<(), Fail> {
    judge_random(&rt, rt.alloc(), NARROW_LENIENT)
}

#[test]
fn random_sessions_with_strict_marks(rt: HostRuntime) -> Result<(), Fail> {
    judge_random(&rt, rt.alloc(), NARROW_STRICT)
}
