//! Lists of random sessions over the same few groups, numbers and ids: each call that judges several sessions has to say
//! what the slow judge says, which takes their exchanges one session behind the other.
use crate::slow_list::SlowList;
use nntp_fixtures::{
    check_by, checked_by_octets, checked_in_turn, checked_sessions, checker_by, expect_octets,
    feed_split, finished_sessions, recorded,
};
use nntp_pair::PairError;
use nntp_sessions::{
    Alone, BASES, Choice, NARROW_LENIENT, NARROW_STRICT, Random, Wandering, session_pairs,
};
use nntp_several::Recorded;
use nntp_slow_judge::Judged;
use nntp_verdict::{Checker, Verdict};
use nntp_wire::Overviews;
use std::alloc::{AllocError, Global};
use std::process::Abort;
use std::test::Fail;

/// Gives sessions one after the other, each stream in two pieces that are cut at random.
fn feed_cut(
    checker: &mut Checker,
    random: &mut Random,
    sessions: &[Recorded<'_>],
) -> Result<(), PairError> {
    let mut is_first = true;
    for session in sessions {
        if !is_first {
            checker.begin_session()?;
        }
        is_first = false;
        let (client, server) = (session.client, session.server);
        let places = (
            random.below(client.len().saturating_add(1)),
            random.below(server.len().saturating_add(1)),
        );
        feed_split(checker, (client, server), places)?;
    }
    Ok(())
}

/// What a checker says, to which the streams come in pieces that are cut at random.
fn checked_cut(
    alloc: Global,
    choice: Choice,
    random: &mut Random,
    sessions: &[Recorded<'_>],
) -> Result<Vec<u8>, Fail> {
    let mut checker = checker_by(choice, alloc);
    feed_cut(&mut checker, random, sessions)?;
    finished_sessions(alloc, checker, sessions.len())
}

/// What each call says of sessions: they all say the same.
fn checked_alike(
    alloc: Global,
    choice: Choice,
    name: &str,
    random: &mut Random,
    sessions: &[Recorded<'_>],
) -> Result<Vec<u8>, Fail> {
    let report = checked_sessions(alloc, choice, sessions)?;
    expect_octets(name, &checked_in_turn(alloc, choice, sessions)?, &report)?;
    expect_octets(name, &checked_by_octets(alloc, choice, sessions)?, &report)?;
    expect_octets(
        name,
        &checked_cut(alloc, choice, random, sessions)?,
        &report,
    )?;
    Ok(report)
}

/// Compares what is said of sessions, of which all octets are answers. Tells what the slow judge says of the last exchange
/// that it judges, and its session, if it is bad.
fn compare(
    alloc: Global,
    choice: Choice,
    name: &str,
    random: &mut Random,
    sessions: &[Recorded<'_>],
) -> Result<(Judged, u64), Fail> {
    let report = checked_alike(alloc, choice, name, random, sessions)?;
    let slow = SlowList::of(alloc, choice, sessions)?;
    slow.compare_report(alloc, name, &report)?;
    slow.verify(alloc, name, choice.marks, sessions)?;
    slow.put_to_each(alloc, name, choice.marks, sessions)?;
    Ok(slow.said())
}

/// Compares what is said of two sessions, of which no spool explains the second behind the first.
fn compare_pair(
    rt: &impl Abort,
    alloc: Global,
    name: &str,
    first: &Alone,
    second: &Alone,
) -> Result<(), Fail> {
    let sessions = recorded(
        alloc,
        &[(first.client, first.server), (second.client, second.server)],
    )?;
    let mut random = Random::new(20_261_128, 0);
    let said = compare(alloc, NARROW_LENIENT, name, &mut random, &sessions)?;
    assert_eq!(rt; said, (Judged::Contradiction, 1), "{name}");
    Ok(())
}

#[test]
fn sessions_that_stand_alone(rt: HostRuntime) -> Result<(), Fail> {
    for pair in session_pairs() {
        compare_pair(&rt, rt.alloc(), pair.name, &pair.one, &pair.other)?;
        compare_pair(&rt, rt.alloc(), pair.name, &pair.other, &pair.one)?;
    }
    Ok(())
}

/// Whether some spool explains a session.
fn is_explained(alloc: Global, choice: Choice, session: &Wandering) -> Result<bool, AllocError> {
    Ok(match check_by(choice, alloc, session.streams())? {
        Verdict::Consistent { .. } => true,
        Verdict::Bad { .. } => false,
    })
}

/// A random session. Where no spool explains it with an exchange more, that is mostly taken back.
fn wander(alloc: Global, choice: Choice, random: &mut Random) -> Result<Wandering, AllocError> {
    let mut session = Wandering::new(alloc)?;
    for _ in 0..8 {
        session.go_on(alloc, random)?;
        if random.below(48) > 0 && !is_explained(alloc, choice, &session)? {
            session.go_back();
        }
    }
    Ok(session)
}

/// The streams of a session, behind which the connection is perhaps closed.
fn closed(
    alloc: Global,
    session: &Wandering,
    is_closed: bool,
) -> Result<(Vec<u8>, Vec<u8>), AllocError> {
    let (asked, answered) = session.streams();
    let mut client = Vec::from_slice(alloc, asked)?;
    let mut server = Vec::from_slice(alloc, answered)?;
    if is_closed {
        client.extend_from_slice(b"QUIT\r\n")?;
        server.extend_from_slice(b"205 bye\r\n")?;
    }
    Ok((client, server))
}

/// The streams of two to four random sessions.
fn random_list(
    alloc: Global,
    choice: Choice,
    random: &mut Random,
) -> Result<Vec<(Vec<u8>, Vec<u8>)>, AllocError> {
    let mut list = Vec::new(alloc);
    for _ in 0..random.below(3).saturating_add(2) {
        let session = wander(alloc, choice, random)?;
        let is_closed = random.below(6) == 0;
        list.push(closed(alloc, &session, is_closed)?)?;
    }
    Ok(list)
}

/// Sessions of these streams.
fn sessions_of<'a>(
    alloc: Global,
    list: &'a [(Vec<u8>, Vec<u8>)],
) -> Result<Vec<Recorded<'a>>, AllocError> {
    let mut sessions = Vec::new(alloc);
    for (client, server) in list {
        sessions.push(Recorded {
            overviews: Overviews::Opaque,
            client: client.as_slice(),
            server: server.as_slice(),
        })?;
    }
    Ok(sessions)
}

/// A name that tells how sessions are judged, and their streams.
fn name_of(alloc: Global, choice: Choice, sessions: &[Recorded<'_>]) -> Result<String, AllocError> {
    let mut name = format!(in alloc; "{choice:?}")?;
    for session in sessions {
        let (client, server) = (session.client, session.server);
        let streams = format!(in alloc; ": {}; {}", client.escape_ascii(), server.escape_ascii())?;
        name.push_str(streams.as_str())?;
    }
    Ok(name)
}

/// How many lists are consistent, and of how many the first bad exchange is of the first session; of a later one and
/// doesn't fit; of a later one and contradicts those before it.
#[derive(Clone, Copy)]
struct Counts {
    consistent: u64,
    in_first: u64,
    out_of_place: u64,
    contradictions: u64,
}

impl Counts {
    fn new() -> Counts {
        Counts {
            consistent: 0,
            in_first: 0,
            out_of_place: 0,
            contradictions: 0,
        }
    }

    fn add(&mut self, said: (Judged, u64)) {
        let count = match said {
            (Judged::Consistent, _) => &mut self.consistent,
            (_, 0) => &mut self.in_first,
            (Judged::OutOfPlace, _) => &mut self.out_of_place,
            (Judged::Contradiction, _) => &mut self.contradictions,
        };
        *count = count.saturating_add(1);
    }

    /// There were enough of each.
    fn expect(self, rt: &impl Abort) {
        let Counts {
            consistent,
            in_first,
            out_of_place,
            contradictions,
        } = self;
        assert!(rt;
            consistent > 40 && in_first > 15 && out_of_place > 8 && contradictions > 60,
            "{consistent}, {in_first}, {out_of_place}, {contradictions}"
        );
    }
}

/// Compares what is said of a random list.
fn compare_random(
    alloc: Global,
    choice: Choice,
    random: &mut Random,
) -> Result<(Judged, u64), Fail> {
    let list = random_list(alloc, choice, random)?;
    let sessions = sessions_of(alloc, &list)?;
    let name = name_of(alloc, choice, &sessions)?;
    compare(alloc, choice, name.as_str(), random, &sessions)
}

/// Compares what is said of random lists about 0 and about the narrow limit.
fn compare_lists(rt: &impl Abort, alloc: Global, choice: Choice) -> Result<(), Fail> {
    let mut counts = Counts::new();
    for base in BASES {
        let mut random = Random::new(20_261_128, base);
        for _ in 0..150 {
            counts.add(compare_random(alloc, choice, &mut random)?);
        }
    }
    counts.expect(rt);
    Ok(())
}

#[test]
fn random_lists_with_lenient_marks(rt: HostRuntime) -> Result<(), Fail> {
    compare_lists(&rt, rt.alloc(), NARROW_LENIENT)
}

#[test]
fn random_lists_with_strict_marks(rt: HostRuntime) -> Result<(), Fail> {
    compare_lists(&rt, rt.alloc(), NARROW_STRICT)
}
