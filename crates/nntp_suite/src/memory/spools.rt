//! Want of memory while a spool is built, read and put to a session.
use linked_list_allocator::LocalHeap;
use nntp_little_memory::{AMPLE, Ended, give_each, refuse_each, right_if};
use nntp_refusing::{Refusal, Refusing};
use nntp_sessions::{Session, each_session, spool_text};
use nntp_spool::{Article, Counts, Kind, ReadFault, Spool, SpoolBuilder, SpoolFault, verify};
use nntp_wire::Limit;
use std::alloc::{AllocError, Allocator, Global};
use std::process::Abort;
use std::test::Fail;

type Heap<'a> = &'a Refusing<Global>;

/// A call on a builder.
#[derive(Clone, Copy)]
enum Call {
    Group(&'static [u8]),
    Number(&'static [u8], u64, &'static [u8]),
    /// The id, the lines of the head and those of the body.
    Article(&'static [u8], &'static [&'static [u8]], &'static [&'static [u8]]),
}

/// Calls, each with its outcome.
const CALLS: [(Call, Result<(), SpoolFault>); 14] = [
    (Call::Group(b"g"), Ok(())),
    (Call::Group(b"g"), Err(SpoolFault::DuplicateGroup)),
    (Call::Group(b"a,b"), Err(SpoolFault::BadName)),
    (
        Call::Number(b"h", 1, b"<a@b>"),
        Err(SpoolFault::UnknownGroup),
    ),
    (Call::Number(b"g", 0, b"<a@b>"), Err(SpoolFault::BadNumber)),
    (Call::Number(b"g", 1, b"a"), Err(SpoolFault::BadId)),
    (Call::Number(b"g", 1, b"<a@b>"), Ok(())),
    (
        Call::Number(b"g", 1, b"<c@d>"),
        Err(SpoolFault::DuplicateNumber),
    ),
    (
        Call::Number(b"g", 2, b"<a@b>"),
        Err(SpoolFault::DuplicateId),
    ),
    (Call::Article(b"<a@b>", &[], &[]), Err(SpoolFault::BadHead)),
    (
        Call::Article(b"<a@b>", &[b"Message-ID: <c@d>"], &[]),
        Err(SpoolFault::BadHead),
    ),
    (
        Call::Article(b"<a@b>", &[b"Subject: s"], &[b"a\rb"]),
        Err(SpoolFault::BadBody),
    ),
    (Call::Article(b"<a@b>", &[b"Subject: s"], &[]), Ok(())),
    (
        Call::Article(b"<a@b>", &[b"Subject: s"], &[]),
        Err(SpoolFault::DuplicateId),
    ),
];

/// Ids without their articles.
const UNKNOWN: [(Call, Result<(), SpoolFault>); 3] = [
    (Call::Group(b"g"), Ok(())),
    (Call::Number(b"g", 1, b"<a@b>"), Ok(())),
    (Call::Number(b"g", 2, b"<c@d>"), Ok(())),
];

/// A number that is above a narrow limit.
const BAD_NUMBER: [(Call, Result<(), SpoolFault>); 3] = [
    (Call::Group(b"g"), Ok(())),
    (Call::Article(b"<a@b>", &[b"Subject: s"], &[]), Ok(())),
    (
        Call::Number(b"g", 2_147_483_648, b"<a@b>"),
        Err(SpoolFault::BadNumber),
    ),
];

/// The greatest number by a wide limit, and the next one.
const WIDE_NUMBERS: [(Call, Result<(), SpoolFault>); 4] = [
    (Call::Group(b"g"), Ok(())),
    (
        Call::Number(b"g", 10_000_000_000_000_000, b"<a@b>"),
        Err(SpoolFault::BadNumber),
    ),
    (Call::Number(b"g", 9_999_999_999_999_999, b"<a@b>"), Ok(())),
    (Call::Article(b"<a@b>", &[b"Subject: s"], &[]), Ok(())),
];

/// Lines that are held.
fn lines<'a>(
    heap: Heap<'a>,
    texts: &[&[u8]],
) -> Result<Vec<Vec<u8, Heap<'a>>, Heap<'a>>, AllocError> {
    let mut lines = Vec::new(heap);
    for text in texts {
        lines.push(Vec::from_slice(heap, *text)?)?;
    }
    Ok(lines)
}

impl Call {
    /// Makes the call; an article is made of `ample` memory.
    fn make<'a>(
        &self,
        builder: &mut SpoolBuilder<Heap<'a>>,
        ample: Heap<'a>,
    ) -> Result<Result<(), SpoolFault>, AllocError> {
        match self {
            Call::Group(name) => Ok(builder.group(*name)),
            Call::Number(name, number, id) => Ok(builder.number(*name, *number, *id)),
            Call::Article(id, head, body) => {
                let article = Article {
                    head: lines(ample, *head)?,
                    body: lines(ample, *body)?,
                };
                Ok(builder.article(*id, article))
            }
        }
    }
}

/// Whether the next two calls fail.
fn still_fails(builder: &mut SpoolBuilder<Heap<'_>>) -> bool {
    let first = builder.group(b"h");
    let second = builder.number(b"g", 2, b"<e@f>");
    first == Err(SpoolFault::Failed) && second == Err(SpoolFault::Failed)
}

/// Makes the calls, and `finish` behind them. The call of which a request was refused wants memory,
/// and each later one fails.
fn build<'a>(
    heap: Heap<'a>,
    ample: Heap<'a>,
    limit: Limit,
    calls: &[(Call, Result<(), SpoolFault>)],
    wanted: Result<Counts, SpoolFault>,
) -> Ended {
    let mut builder = SpoolBuilder::new(heap, limit);
    let mut has_failed = false;
    for (call, outcome) in calls {
        let Ok(told) = call.make(&mut builder, ample) else {
            return Ended::Wrong;
        };
        let is_right = if has_failed {
            told == Err(SpoolFault::Failed)
        } else if heap.has_refused() {
            has_failed = true;
            told == Err(SpoolFault::Memory)
        } else {
            told == *outcome
        };
        if !is_right {
            return Ended::Wrong;
        }
    }
    if has_failed && !still_fails(&mut builder) {
        return Ended::Wrong;
    }
    let finished = builder.finish().map(|spool| spool.counts());
    if has_failed && finished == Err(SpoolFault::Failed) {
        return Ended::Memory;
    }
    right_if(!has_failed && finished == wanted)
}

/// Calls by name, with the limit of the builder before them and the answer of `finish` behind them.
type Building<'a> = (
    &'a str,
    Limit,
    &'a [(Call, Result<(), SpoolFault>)],
    Result<Counts, SpoolFault>,
);

/// Builds a spool, with each request refused in turn.
fn refuse_building(rt: &impl Abort, alloc: Global, building: Building<'_>) -> Result<(), Fail> {
    let (name, limit, calls, wanted) = building;
    let ample = Refusing::new(alloc, Refusal::Never);
    let refused = refuse_each(alloc, name, |heap| {
        build(heap, &ample, limit, calls, wanted)
    })?;
    assert!(rt; refused > 3, "{refused}");
    Ok(())
}

const ONE_ARTICLE: Counts = Counts {
    groups: 1,
    numbers: 1,
    articles: 1,
};

const NO_NUMBER: Counts = Counts {
    groups: 1,
    numbers: 0,
    articles: 1,
};

const BUILDINGS: [Building<'static>; 5] = [
    (
        "an id without its article",
        Limit::Narrow,
        &UNKNOWN,
        Err(SpoolFault::UnknownId),
    ),
    (
        "a spool of one article",
        Limit::Narrow,
        &CALLS,
        Ok(ONE_ARTICLE),
    ),
    (
        "a wide spool of one article",
        Limit::Wide,
        &CALLS,
        Ok(ONE_ARTICLE),
    ),
    (
        "a number above 31 bits",
        Limit::Narrow,
        &BAD_NUMBER,
        Ok(NO_NUMBER),
    ),
    (
        "numbers of a wide spool",
        Limit::Wide,
        &WIDE_NUMBERS,
        Ok(ONE_ARTICLE),
    ),
];

#[test]
fn spools_that_are_built(rt: HostRuntime) -> Result<(), Fail> {
    for building in BUILDINGS {
        refuse_building(&rt, rt.alloc(), building)?;
    }
    Ok(())
}

/// Right if the spool is written so.
pub(crate) fn right_if_written<A: Allocator>(
    alloc: Global,
    spool: &Spool<A>,
    text: &[u8],
) -> Ended {
    match spool_text(alloc, spool) {
        Ok(octets) => right_if(octets.as_slice() == text),
        Err(AllocError) => Ended::Wrong,
    }
}

/// Reads octets as the text of a spool, and writes the spool again.
fn read<A: Allocator + Copy>(
    alloc: Global,
    heap: A,
    text: &[u8],
    wanted: Option<ReadFault>,
) -> Ended {
    match Spool::read(heap, text) {
        Ok(spool) => match wanted {
            None => right_if_written(alloc, &spool, text),
            Some(_) => Ended::Wrong,
        },
        Err(
            ReadFault {
                line: 0,
                kind: Kind::Memory,
            },
        ) => Ended::Memory,
        Err(fault) => right_if(wanted == Some(fault)),
    }
}

#[test]
fn spools_of_worked_sessions_are_read(rt: HostRuntime) -> Result<(), Fail> {
    for session in each_session(rt.alloc())? {
        let (text, _) = session.given;
        refuse_each(rt.alloc(), session.name, |heap| {
            read(rt.alloc(), heap, text.as_bytes(), None)
        })?;
    }
    Ok(())
}

/// Reads octets as the text of a spool with scratch memory apart, and writes the spool again.
fn read_apart<A: Allocator + Copy, T: Allocator + Copy>(
    alloc: Global,
    heap: A,
    scratch: T,
    text: &[u8],
) -> Ended {
    match Spool::read_with(heap, scratch, text) {
        Ok(spool) => right_if_written(alloc, &spool, text),
        Err(fault) => {
            if fault.kind == Kind::Memory {
                Ended::Memory
            } else {
                Ended::Wrong
            }
        }
    }
}

#[test]
fn spools_are_read_with_scratch_memory_apart(rt: HostRuntime) -> Result<(), Fail> {
    let ample = rt.alloc();
    for session in each_session(ample)? {
        let text = session.given.0.as_bytes();
        refuse_each(
            ample,
            session.name,
            |heap| read_apart(ample, heap, ample, text),
        )?;
        refuse_each(
            ample,
            session.name,
            |heap| read_apart(ample, ample, heap, text),
        )?;
    }
    Ok(())
}

/// Octets by name that are no text of a spool, and the first fault.
const NO_SPOOLS: [(&str, &[u8], u64, Kind); 6] = [
    (
        "a number that begins with 0",
        b"spool 1\ngroup g 1\n01 <a@b>\nend\n",
        3,
        Kind::Shape,
    ),
    (
        "groups in another order",
        b"spool 1\ngroup h 0\ngroup g 0\nend\n",
        3,
        Kind::Order,
    ),
    (
        "an id without its article",
        b"spool 1\ngroup g 1\n1 <a@b>\nend\n",
        4,
        Kind::UnknownId,
    ),
    ("no octets", b"", 1, Kind::Shape),
    (
        "another limit",
        b"spool 2\nlimit 2147483647\nend\n",
        2,
        Kind::Shape,
    ),
    (
        "a number above a narrow limit",
        b"spool 1\ngroup g 1\n2147483648 <a@b>\n",
        3,
        Kind::Number,
    ),
];

#[test]
fn texts_of_no_spool_are_read(rt: HostRuntime) -> Result<(), Fail> {
    for (name, text, line, kind) in NO_SPOOLS {
        let fault = Some(ReadFault { line, kind });
        refuse_each(rt.alloc(), name, |heap| {
            read(rt.alloc(), heap, text, fault)
        })?;
    }
    Ok(())
}

/// Puts the spool that is given for a session, which is made of `ample` memory, to it.
fn verify_given<A: Allocator + Copy>(heap: A, ample: A, session: &Session) -> Ended {
    let (text, wanted) = session.given;
    let Ok(spool) = Spool::read(ample, text.as_bytes()) else {
        return Ended::Wrong;
    };
    let (client, server) = session.streams();
    match verify(heap, session.choice.marks, &spool, client, server) {
        Ok(verified) => right_if(verified == wanted),
        Err(AllocError) => Ended::Memory,
    }
}

#[test]
fn spools_that_are_put_to_worked_sessions(rt: HostRuntime) -> Result<(), Fail> {
    let ample = Refusing::new(rt.alloc(), Refusal::Never);
    let mut most = 0;
    for session in each_session(rt.alloc())? {
        let refused = refuse_each(rt.alloc(), session.name, |heap| {
            verify_given(heap, &ample, session)
        })?;
        most = refused.max(most);
    }
    assert!(rt; most > 3, "{most}");
    Ok(())
}

#[test]
fn spools_with_few_octets(rt: HostRuntime) -> Result<(), Fail> {
    for session in each_session(rt.alloc())? {
        let (text, _) = session.given;
        give_each(rt.alloc(), session.name, |heap| {
            read(rt.alloc(), heap, text.as_bytes(), None)
        })?;
    }
    Ok(())
}

#[test]
fn spools_that_are_put_with_few_octets(rt: HostRuntime) -> Result<(), Fail> {
    let ample = LocalHeap::new(rt.alloc(), AMPLE)?;
    for session in each_session(rt.alloc())? {
        give_each(rt.alloc(), session.name, |heap| {
            verify_given(heap, &ample, session)
        })?;
    }
    Ok(())
}
