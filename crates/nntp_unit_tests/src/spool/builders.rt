//! What a builder takes, refuses and builds.
use super::{Content, holds};
use nntp_spool::{Article, Spool, SpoolBuilder, SpoolFault};
use nntp_wire::Limit;
use std::alloc::{AllocError, Global};
use std::process::Abort;

/// A call on a builder.
enum Call {
    Group(&'static str),
    Number(&'static str, u64, &'static str),
    Article(&'static str, &'static [&'static str], &'static [&'static str]),
}

use Call::{Article as AddArticle, Group, Number};

/// Calls on a builder, each with the fault that is answered, and what is built at the end.
struct Script {
    name: &'static str,
    limit: Limit,
    calls: &'static [(Call, Option<SpoolFault>)],
    built: Result<Content, SpoolFault>,
}

const SCRIPTS: &[Script] = &[
    Script {
        name: "refused calls",
        limit: Limit::Narrow,
        calls: &[
            (Group("g"), None),
            (Group("g"), Some(SpoolFault::DuplicateGroup)),
            (Group("a,b"), Some(SpoolFault::BadName)),
            (Number("h", 1, "<a@b>"), Some(SpoolFault::UnknownGroup)),
            (Number("g", 0, "<a@b>"), Some(SpoolFault::BadNumber)),
            (Number("g", 1, "a"), Some(SpoolFault::BadId)),
            (Number("g", 1, "<a@b>"), None),
            (Number("g", 1, "<c@d>"), Some(SpoolFault::DuplicateNumber)),
            (Number("g", 2, "<a@b>"), Some(SpoolFault::DuplicateId)),
            (AddArticle("<a@b>", &[], &[]), Some(SpoolFault::BadHead)),
            (
                AddArticle("<a@b>", &["Message-ID: <c@d>"], &[]),
                Some(SpoolFault::BadHead),
            ),
            (
                AddArticle("<a@b>", &["Subject: s"], &["a\rb"]),
                Some(SpoolFault::BadBody),
            ),
        ],
        built: Err(SpoolFault::UnknownId),
    },
    Script {
        name: "an article",
        limit: Limit::Narrow,
        calls: &[
            (Group("g"), None),
            (Number("g", 1, "<a@b>"), None),
            (
                AddArticle("a", &["Subject: s"], &[]),
                Some(SpoolFault::BadId),
            ),
            (
                AddArticle("<a@b>", &["Subject: a\rb"], &[]),
                Some(SpoolFault::BadHead),
            ),
            (AddArticle("<a@b>", &["Subject: s"], &[]), None),
            (
                AddArticle("<a@b>", &["Subject: s"], &[]),
                Some(SpoolFault::DuplicateId),
            ),
        ],
        built: Ok((
            Limit::Narrow,
            (1, 1, 1),
            "spool 1\ngroup g 1\n1 <a@b>\narticle <a@b> 1 0\n|Subject: s\nend\n",
        )),
    },
    // The id of another group's number may be the same; that of this group's may not.
    Script {
        name: "two groups",
        limit: Limit::Narrow,
        calls: &[
            (Group("h"), None),
            (Number("h", 1, "<a@b>"), None),
            (Group("g"), None),
            (Number("g", 1, "<a@b>"), None),
            (Number("g", 2, "<a@b>"), Some(SpoolFault::DuplicateId)),
            (AddArticle("<a@b>", &["Subject: s"], &["."]), None),
        ],
        built: Ok((
            Limit::Narrow,
            (2, 2, 1),
            "spool 1\ngroup g 1\n1 <a@b>\ngroup h 1\n1 <a@b>\narticle <a@b> 1 1\n|Subject: s\n|.\nend\n",
        )),
    },
    Script {
        name: "articles in any order",
        limit: Limit::Narrow,
        calls: &[
            (AddArticle("<b@x>", &["A: b"], &[]), None),
            (
                AddArticle("<b@x>", &["A: b"], &[]),
                Some(SpoolFault::DuplicateId),
            ),
            (AddArticle("<d@x>", &["A: b"], &[]), None),
            (AddArticle("<a@x>", &["A: b"], &[]), None),
            (AddArticle("<c@x>", &["A: b"], &[]), None),
            (
                AddArticle("<a@x>", &["A: b"], &[]),
                Some(SpoolFault::DuplicateId),
            ),
            (AddArticle("<e@x>", &["A: b"], &[]), None),
            (
                AddArticle("<e@x>", &["A: b"], &[]),
                Some(SpoolFault::DuplicateId),
            ),
        ],
        built: Ok((
            Limit::Narrow,
            (0, 0, 5),
            "spool 1\narticle <a@x> 1 0\n|A: b\narticle <b@x> 1 0\n|A: b\narticle <c@x> 1 0\n|A: b\narticle <d@x> 1 0\n|A: b\narticle <e@x> 1 0\n|A: b\nend\n",
        )),
    },
    Script {
        name: "narrow numbers",
        limit: Limit::Narrow,
        calls: &[
            (Group("g"), None),
            (Number("g", 2_147_483_647, "<a@b>"), None),
            (Number("g", 1, "<c@d>"), None),
            (Number("g", 0, "<e@f>"), Some(SpoolFault::BadNumber)),
            (
                Number("g", 2_147_483_648, "<e@f>"),
                Some(SpoolFault::BadNumber),
            ),
            (
                Number("g", 9_999_999_999_999_999, "<e@f>"),
                Some(SpoolFault::BadNumber),
            ),
            (Number("g", u64::MAX, "<e@f>"), Some(SpoolFault::BadNumber)),
        ],
        built: Err(SpoolFault::UnknownId),
    },
    Script {
        name: "wide numbers",
        limit: Limit::Wide,
        calls: &[
            (Group("g"), None),
            (Number("g", 1, "<c@d>"), None),
            (Number("g", 2_147_483_647, "<e@f>"), None),
            (Number("g", 2_147_483_648, "<g@h>"), None),
            (Number("g", 0, "<i@j>"), Some(SpoolFault::BadNumber)),
            (
                Number("g", 10_000_000_000_000_000, "<i@j>"),
                Some(SpoolFault::BadNumber),
            ),
            (Number("g", u64::MAX, "<i@j>"), Some(SpoolFault::BadNumber)),
        ],
        built: Err(SpoolFault::UnknownId),
    },
    Script {
        name: "a wide spool",
        limit: Limit::Wide,
        calls: &[
            (Group("g"), None),
            (Number("g", 9_999_999_999_999_999, "<a@b>"), None),
            (AddArticle("<a@b>", &["Subject: s"], &[]), None),
        ],
        built: Ok((
            Limit::Wide,
            (1, 1, 1),
            "spool 2\nlimit 9999999999999999\ngroup g 1\n9999999999999999 <a@b>\narticle <a@b> 1 0\n|Subject: s\nend\n",
        )),
    },
];

fn lines(alloc: Global, texts: &[&str]) -> Result<Vec<Vec<u8>>, AllocError> {
    let mut lines = Vec::new(alloc);
    for text in texts {
        lines.push(Vec::from_slice(alloc, text.as_bytes())?)?;
    }
    Ok(lines)
}

fn article(alloc: Global, head: &[&str], body: &[&str]) -> Result<Article, AllocError> {
    Ok(Article {
        head: lines(alloc, head)?,
        body: lines(alloc, body)?,
    })
}

/// Adds an article of these lines.
fn add(
    alloc: Global,
    builder: &mut SpoolBuilder,
    id: &str,
    head: &[&str],
    body: &[&str],
) -> Result<(), SpoolFault> {
    match article(alloc, head, body) {
        Ok(article) => builder.article(id.as_bytes(), article),
        Err(_) => Err(SpoolFault::Memory),
    }
}

/// Makes the call, and gives what is answered.
fn answer(alloc: Global, builder: &mut SpoolBuilder, call: &Call) -> Result<(), SpoolFault> {
    match call {
        Group(name) => builder.group(name.as_bytes()),
        Number(name, number, id) => builder.number(name.as_bytes(), *number, id.as_bytes()),
        AddArticle(id, head, body) => add(alloc, builder, id, head, body),
    }
}

/// Whether this is what is built.
fn is_built(
    alloc: Global,
    built: &Result<Spool, SpoolFault>,
    want: &Result<Content, SpoolFault>,
) -> bool {
    match (built, want) {
        (Ok(spool), Ok(content)) => holds(alloc, spool, *content),
        (Err(fault), Err(want)) => fault == want,
        _ => false,
    }
}

/// A builder answers the calls as it is to.
fn follow(rt: &impl Abort, alloc: Global, script: &Script) {
    let mut builder = SpoolBuilder::new(alloc, script.limit);
    for (call, want) in script.calls {
        assert!(rt;
            answer(alloc, &mut builder, call).err() == *want,
            "{}",
            script.name
        );
    }
    assert!(rt;
        is_built(alloc, &builder.finish(), &script.built),
        "{}",
        script.name
    );
}

#[test]
fn builders_follow_scripts(rt: HostRuntime) {
    for script in SCRIPTS {
        follow(&rt, rt.alloc(), script);
    }
}
