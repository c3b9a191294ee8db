//! The text of a spool, read and written.
use super::{Content, holds};
use nntp_spool::{Kind, ReadFault, Spool};
use nntp_wire::Limit;
use std::alloc::Global;

/// A text that is refused, with the line and the kind of its first fault.
type Refused = (&'static str, u64, Kind);

const REFUSED: &[Refused] = &[
    // Lines of another form.
    ("", 1, Kind::Shape),
    ("spool 1", 1, Kind::Shape),
    ("spool 3\nend\n", 1, Kind::Shape),
    ("spool 0\nend\n", 1, Kind::Shape),
    ("spool 1\n", 2, Kind::Shape),
    ("spool 1\nend", 2, Kind::Shape),
    ("spool 1\r\nend\r\n", 1, Kind::Shape),
    ("spool 1\nend\r\n", 2, Kind::Shape),
    ("spool 1\ngroup g 0\r\nend\n", 2, Kind::Shape),
    ("spool 1\nend\nend\n", 3, Kind::Shape),
    ("spool 1\nend\nx", 3, Kind::Shape),
    ("spool 1\ngroup g 1\n01 <a@b>\nend\n", 3, Kind::Shape),
    ("spool 1\ngroup g 1\n1  <a@b>\nend\n", 3, Kind::Shape),
    ("spool 1\ngroup  0\nend\n", 2, Kind::Shape),
    ("spool 1\ngroup g 00\nend\n", 2, Kind::Shape),
    // Limits of another form.
    ("spool 2", 1, Kind::Shape),
    ("spool 2\n", 2, Kind::Shape),
    ("spool 2\nend\n", 2, Kind::Shape),
    ("spool 2\nlimit 2147483647\nend\n", 2, Kind::Shape),
    ("spool 2\nlimit 9999999999999999", 2, Kind::Shape),
    ("spool 2\nlimit 9999999999999999\r\nend\n", 2, Kind::Shape),
    ("spool 2\nlimit 09999999999999999\nend\n", 2, Kind::Shape),
    ("spool 2\nlimit 99999999999999999\nend\n", 2, Kind::Shape),
    ("spool 2\n\nlimit 9999999999999999\nend\n", 2, Kind::Shape),
    ("spool 2\nlimit 9999999999999999\n", 3, Kind::Shape),
    (
        "spool 2\nlimit 9999999999999999\nlimit 9999999999999999\nend\n",
        3,
        Kind::Shape,
    ),
    ("spool 1\nlimit 2147483647\nend\n", 2, Kind::Shape),
    ("spool 1\nlimit 9999999999999999\nend\n", 2, Kind::Shape),
    ("limit 9999999999999999\nend\n", 1, Kind::Shape),
    // Numbers of wide spools.
    (
        "spool 2\nlimit 9999999999999999\ngroup g 1\n10000000000000000 <a@b>\n",
        4,
        Kind::Number,
    ),
    (
        "spool 2\nlimit 9999999999999999\ngroup g 1\n0 <a@b>\n",
        4,
        Kind::Number,
    ),
    (
        "spool 2\nlimit 9999999999999999\ngroup g 1\n99999999999999999999999 <a@b>\n",
        4,
        Kind::Number,
    ),
    (
        "spool 2\nlimit 9999999999999999\ngroup g 1\n9999999999999999 <a@b>\nend\n",
        5,
        Kind::UnknownId,
    ),
    // Counts of more lines than the text has.
    (
        "spool 1\ngroup g 9223372036854775808\nend\n",
        3,
        Kind::Shape,
    ),
    (
        "spool 1\ngroup g 18446744073709551615\n1 <a@b>\nend\n",
        4,
        Kind::Shape,
    ),
    (
        "spool 1\ngroup g 18446744073709551616\nend\n",
        2,
        Kind::Shape,
    ),
    (
        "spool 1\ngroup g 99999999999999999999\nend\n",
        2,
        Kind::Shape,
    ),
    (
        "spool 1\narticle <a@b> 18446744073709551615 0\n|A: b\nend\n",
        4,
        Kind::Shape,
    ),
    // Lines of articles.
    (
        "spool 1\narticle <a@b> 1 1\n|Subject: s\n|a\0b\nend\n",
        4,
        Kind::Shape,
    ),
    (
        "spool 1\narticle <a@b> 1 1\n|Subject: s\n|a\r\nend\n",
        4,
        Kind::Shape,
    ),
    (
        "spool 1\narticle <a@b> 1 0\nSubject: s\nend\n",
        3,
        Kind::Shape,
    ),
    (
        "spool 1\narticle <a@b> 1 0\n|Subject: s\ngroup g 0\nend\n",
        4,
        Kind::Shape,
    ),
    // Names, numbers and ids.
    ("spool 1\ngroup a,b 0\nend\n", 2, Kind::Name),
    ("spool 1\ngroup g\0h 0\nend\n", 2, Kind::Name),
    ("spool 1\ngroup g 1\n0 <a@b>\n", 3, Kind::Number),
    ("spool 1\ngroup g 1\n2147483648 <a@b>\n", 3, Kind::Number),
    (
        "spool 1\ngroup g 1\n99999999999999999999999 <a@b>\n",
        3,
        Kind::Number,
    ),
    ("spool 1\ngroup g 1\n1 a\n", 3, Kind::Id),
    ("spool 1\ngroup g 1\n1 <a@b>\r\nend\n", 3, Kind::Id),
    ("spool 1\ngroup g 1\n0 a\n", 3, Kind::Number),
    ("spool 1\narticle a 0 0\nend\n", 2, Kind::Id),
    // The order of lists.
    ("spool 1\ngroup h 0\ngroup g 0\nend\n", 3, Kind::Order),
    ("spool 1\ngroup g 0\ngroup g 0\nend\n", 3, Kind::Order),
    (
        "spool 1\ngroup g 2\n2 <a@b>\n1 <c@d>\nend\n",
        4,
        Kind::Order,
    ),
    (
        "spool 1\ngroup g 2\n1 <a@b>\n1 <a@b>\nend\n",
        4,
        Kind::Order,
    ),
    (
        "spool 1\narticle <a@b> 1 0\n|A: b\narticle <a@b> 1 0\n|A: b\nend\n",
        4,
        Kind::Order,
    ),
    ("spool 1\ngroup ga 0\ngroup g 0\nend\n", 3, Kind::Order),
    // Ids, and the articles that they have.
    (
        "spool 1\ngroup g 2\n1 <a@b>\n2 <a@b>\n",
        4,
        Kind::DuplicateId,
    ),
    ("spool 1\ngroup g 1\n1 <a@b>\nend\n", 4, Kind::UnknownId),
    // Heads of articles.
    ("spool 1\narticle <a@b> 0 0\nend\n", 2, Kind::Head),
    (
        "spool 1\narticle <a@b> 1 1\n|Message-ID: <c@d>\n|x\nend\n",
        2,
        Kind::Head,
    ),
    ("spool 1\narticle <a@b> 0 1\nx\nend\n", 3, Kind::Shape),
];

fn fault_of(alloc: Global, text: &str) -> Option<ReadFault> {
    Spool::read(alloc, text.as_bytes()).err()
}

#[test]
fn texts_that_are_refused(rt: HostRuntime) {
    for &(text, line, kind) in REFUSED {
        assert!(rt;
            fault_of(rt.alloc(), text) == Some(ReadFault { line, kind }),
            "{text:?}"
        );
    }
}

/// Texts that are read, and written again as they were.
const READ: &[Content] = &[
    (Limit::Narrow, (0, 0, 0), "spool 1\nend\n"),
    (
        Limit::Narrow,
        (1, 2, 2),
        "spool 1\ngroup g 2\n1 <w0@invented.invalid>\n4 <b@x>\narticle <b@x> 1 0\n|Message-ID: <b@x>\narticle <w0@invented.invalid> 1 0\n\
        |Message-ID: <w0@invented.invalid>\nend\n",
    ),
    // An article in no group, whose body has lines that begin with dots.
    (
        Limit::Narrow,
        (0, 0, 1),
        "spool 1\narticle <a@b> 1 3\n|Message-ID: <a@b>\n|.\n|..x\n|\nend\n",
    ),
    // Two groups that share an article.
    (
        Limit::Narrow,
        (2, 2, 1),
        "spool 1\ngroup g 1\n1 <a@b>\ngroup h 1\n1 <a@b>\narticle <a@b> 1 0\n|A: b\nend\n",
    ),
    // The first number that a narrow spool hasn't, and the greatest that a wide one has.
    (
        Limit::Wide,
        (1, 2, 2),
        "spool 2\nlimit 9999999999999999\ngroup g 2\n2147483648 <a@b>\n9999999999999999 <c@d>\narticle <a@b> 1 0\n|Message-ID: <a@b>\narticle <c@d> 1 1\n\
        |A: b\n|x\nend\n",
    ),
    (
        Limit::Wide,
        (1, 1, 1),
        "spool 2\nlimit 9999999999999999\ngroup g 1\n1 <a@b>\narticle <a@b> 1 0\n|A: b\nend\n",
    ),
    (
        Limit::Wide,
        (0, 0, 0),
        "spool 2\nlimit 9999999999999999\nend\n",
    ),
];

/// Whether the text is read as this spool, and written again.
fn is_read(alloc: Global, content: Content) -> bool {
    match Spool::read(alloc, content.2.as_bytes()) {
        Ok(spool) => holds(alloc, &spool, content),
        Err(_) => false,
    }
}

#[test]
fn texts_are_read_and_written_again(rt: HostRuntime) {
    for &content in READ {
        assert!(rt; is_read(rt.alloc(), content), "{:?}", content.2);
    }
}

#[test]
fn a_spool_is_widened(rt: HostRuntime) {
    const WIDE: Content = (
        Limit::Wide,
        (1, 0, 0),
        "spool 2\nlimit 9999999999999999\ngroup g 0\nend\n",
    );
    let Ok(spool) = Spool::read(rt.alloc(), b"spool 1\ngroup g 0\nend\n") else {
        panic!(rt; "no spool");
    };
    let wide = spool.widened();
    assert!(rt; holds(rt.alloc(), &wide, WIDE));
    assert!(rt; holds(rt.alloc(), &wide.widened(), WIDE));
}
