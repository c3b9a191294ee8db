//! Worked rows: what the definitions of a pairing and of a feed are meant to say.
use nntp_pair::{Ahead, Ending, Feed, PairClass, Pairs, Peek, Step};
use std::process::Abort;

/// The line and the initial line of an exchange.
type Pair = (Option<&'static [u8]>, &'static [u8]);

/// A session: its name, both streams, its exchanges, and how its pairing ends.
type Row = (
    &'static str,
    (&'static [u8], &'static [u8]),
    &'static [Pair],
    Ending,
);

const ROWS: &[Row] = &[
    ("no octets", (b"", b""), &[], Ending::End { unanswered: 0 }),
    (
        "no answer",
        (b"QUIT\r\n", b""),
        &[],
        Ending::End { unanswered: 1 },
    ),
    (
        "a rest of the client",
        (b"QUIT\r\nSTAT", b"200 hi\r\n205 bye\r\n"),
        &[(None, b"200 hi"), (Some(b"QUIT"), b"205 bye")],
        Ending::End { unanswered: 0 },
    ),
    (
        "a rest alone",
        (b"QUIT", b"200 hi\r\n"),
        &[(None, b"200 hi")],
        Ending::End { unanswered: 0 },
    ),
    (
        "more commands than answers",
        (b"GROUP g\r\nNEXT\r\nQUIT\r\n", b"200 hi\r\n"),
        &[(None, b"200 hi")],
        Ending::End { unanswered: 3 },
    ),
    (
        "400 and unanswered commands",
        (b"HELP\r\nGROUP g\r\nQUIT\r\n", b"200 hi\r\n400 bye\r\n"),
        &[(None, b"200 hi"), (Some(b"HELP"), b"400 bye")],
        Ending::End { unanswered: 2 },
    ),
    (
        "400 as greeting",
        (b"GROUP g\r\n", b"400 no\r\n"),
        &[(None, b"400 no")],
        Ending::End { unanswered: 1 },
    ),
    (
        "pipelined commands",
        (
            b"GROUP g\r\nLISTGROUP g\r\nSTAT <a@b>\r\nQUIT\r\n",
            b"201 hi\r\n211 0 1 0 g\r\n211 1 3 3 g\r\n3\r\n.\r\n430 no\r\n205 bye\r\n",
        ),
        &[
            (None, b"201 hi"),
            (Some(b"GROUP g"), b"211 0 1 0 g"),
            (Some(b"LISTGROUP g"), b"211 1 3 3 g"),
            (Some(b"STAT <a@b>"), b"430 no"),
            (Some(b"QUIT"), b"205 bye"),
        ],
        Ending::End { unanswered: 0 },
    ),
    (
        "a whole article",
        (
            b"ARTICLE <a@b>\r\n",
            b"200 hi\r\n220 0 <a@b>\r\nSubject: one\r\n\r\n.\r\n",
        ),
        &[(None, b"200 hi"), (Some(b"ARTICLE <a@b>"), b"220 0 <a@b>")],
        Ending::End { unanswered: 0 },
    ),
    (
        "an empty line",
        (b"\r\nGROUP g\r\n", b"200 hi\r\n501 what\r\n411 no\r\n"),
        &[
            (None, b"200 hi"),
            (Some(b""), b"501 what"),
            (Some(b"GROUP g"), b"411 no"),
        ],
        Ending::End { unanswered: 0 },
    ),
    (
        "502 to another command",
        (b"GROUP g\r\nNEXT\r\n", b"200 hi\r\n502 no\r\n412 no\r\n"),
        &[
            (None, b"200 hi"),
            (Some(b"GROUP g"), b"502 no"),
            (Some(b"NEXT"), b"412 no"),
        ],
        Ending::End { unanswered: 0 },
    ),
    (
        "a command without block",
        (
            b"GROUP g\r\nNEXT\r\n",
            b"200 hi\r\n211 1 5 5 g\r\n421 no\r\n",
        ),
        &[
            (None, b"200 hi"),
            (Some(b"GROUP g"), b"211 1 5 5 g"),
            (Some(b"NEXT"), b"421 no"),
        ],
        Ending::End { unanswered: 0 },
    ),
    (
        "a sent line of dot and x",
        (b"BODY <a@b>\r\n", b"200 hi\r\n222 0 <a@b>\r\n.x\r\n.\r\n"),
        &[(None, b"200 hi")],
        Ending::Bad {
            index: 1,
            class: PairClass::Malformed,
        },
    ),
    (
        "an octet after 205",
        (b"QUIT\r\n", b"200 hi\r\n205 bye\r\nx"),
        &[(None, b"200 hi"), (Some(b"QUIT"), b"205 bye")],
        Ending::Bad {
            index: 2,
            class: PairClass::Surplus,
        },
    ),
    (
        "an answer after 205",
        (b"QUIT\r\nGROUP g\r\n", b"200 hi\r\n205 bye\r\n411 no\r\n"),
        &[(None, b"200 hi"), (Some(b"QUIT"), b"205 bye")],
        Ending::Bad {
            index: 2,
            class: PairClass::Surplus,
        },
    ),
    (
        "an answer after 502 to MODE READER",
        (
            b"MODE READER\r\nGROUP g\r\n",
            b"200 hi\r\n502 no\r\n411 no\r\n",
        ),
        &[(None, b"200 hi"), (Some(b"MODE READER"), b"502 no")],
        Ending::Bad {
            index: 2,
            class: PairClass::Surplus,
        },
    ),
    (
        "an answer after 400",
        (b"GROUP g\r\n", b"400 no\r\n411 no\r\n"),
        &[(None, b"400 no")],
        Ending::Bad {
            index: 1,
            class: PairClass::Surplus,
        },
    ),
    (
        "an answer to no command",
        (b"GROUP g", b"200 hi\r\n411 no\r\n"),
        &[(None, b"200 hi")],
        Ending::Bad {
            index: 1,
            class: PairClass::Surplus,
        },
    ),
    (
        "half a line to no command",
        (b"", b"200 hi\r\n411"),
        &[(None, b"200 hi")],
        Ending::Bad {
            index: 1,
            class: PairClass::Surplus,
        },
    ),
    (
        "a block that does not end",
        (
            b"ARTICLE <a@b>\r\n",
            b"200 hi\r\n220 0 <a@b>\r\nSubject: one\r\n\r\n",
        ),
        &[(None, b"200 hi")],
        Ending::Bad {
            index: 1,
            class: PairClass::Cut,
        },
    ),
    (
        "a greeting that does not end",
        (b"QUIT\r\n", b"200 hi\r"),
        &[],
        Ending::Bad {
            index: 0,
            class: PairClass::Cut,
        },
    ),
    (
        "no code",
        (b"HELP\r\n", b"200 hi\r\n2x3 ok\r\n"),
        &[(None, b"200 hi")],
        Ending::Bad {
            index: 1,
            class: PairClass::Malformed,
        },
    ),
    (
        "no greeting",
        (b"QUIT\r\n", b"\r\n205 bye\r\n"),
        &[],
        Ending::Bad {
            index: 0,
            class: PairClass::Malformed,
        },
    ),
];

/// Whether an exchange is next, of this index, this line and this initial line.
fn is_next(pairs: &mut Pairs<'_>, index: u64, (line, initial): Pair) -> bool {
    match pairs.next() {
        Step::Exchange(exchange) => {
            exchange.index() == index && exchange.line() == line && exchange.initial() == initial
        }
        _ => false,
    }
}

/// How the pairing ends, where no exchange is next.
fn end(pairs: &mut Pairs<'_>) -> Ending {
    match pairs.next() {
        Step::Exchange(_) => Ending::More,
        Step::Bad { index, class } => Ending::Bad { index, class },
        Step::End { unanswered } => Ending::End { unanswered },
    }
}

/// The session has these exchanges, and ends so each time that it is asked.
fn has_pairing(rt: &impl Abort, &(name, (client, server), exchanges, want): &Row) {
    let mut pairs = Pairs::new(client, server);
    for (index, &exchange) in exchanges.iter().enumerate() {
        assert!(rt; is_next(&mut pairs, index as u64, exchange), "{name}");
    }
    for _ in 0..3 {
        assert!(rt; end(&mut pairs) == want, "{name}");
    }
}

#[test]
fn pairings(rt: HostRuntime) {
    for row in ROWS {
        has_pairing(&rt, row);
    }
}

/// Whether this line, if there is one, and this rest of the server's octets are ahead.
fn is_ahead(ahead: Ahead<'_>, line: Option<&[u8]>, rest: &[u8]) -> bool {
    ahead.line == line && ahead.rest == rest
}

#[test]
fn what_is_ahead(rt: HostRuntime) {
    let server = b"200 hi\r\n220 0 <a@b>\r\nSubject: one\r\n\r\n";
    let mut pairs = Pairs::new(b"ARTICLE <a@b>\r\nQUIT\r\n", server);
    assert!(rt; is_ahead(pairs.ahead(), None, server));
    assert!(rt; is_next(&mut pairs, 0, (None, b"200 hi")));
    let rest = b"220 0 <a@b>\r\nSubject: one\r\n\r\n";
    assert!(rt; rest.len() == 29);
    let cut = Ending::Bad {
        index: 1,
        class: PairClass::Cut,
    };
    for _ in 0..2 {
        assert!(rt; is_ahead(pairs.ahead(), Some(b"ARTICLE <a@b>"), rest));
        assert!(rt; end(&mut pairs) == cut);
    }
}

/// Octets come from the server.
fn from_server(rt: &impl Abort, feed: &mut Feed, octets: &[u8]) {
    assert!(rt; feed.feed_server(octets).is_ok());
}

/// Octets come from the client.
fn from_client(rt: &impl Abort, feed: &mut Feed, octets: &[u8]) {
    assert!(rt; feed.feed_client(octets).is_ok());
}

/// Passes the exchange that waits, which has this index.
fn pass(rt: &impl Abort, feed: &mut Feed, index: u64) {
    let Peek::Whole(exchange) = feed.peek() else {
        panic!(rt; "nothing waits");
    };
    assert!(rt; exchange.index() == index);
    feed.advance();
}

/// Whether no whole exchange waits, and nothing is bad for good.
fn nothing_waits(feed: &Feed) -> bool {
    matches!(feed.peek(), Peek::Nothing)
}

#[test]
fn an_answer_before_its_command(rt: HostRuntime) {
    let mut feed = Feed::new(rt.alloc());
    from_server(&rt, &mut feed, b"200 hi\r\n411 no\r\n");
    pass(&rt, &mut feed, 0);
    assert!(rt; nothing_waits(&feed));
    let surplus = Ending::Bad {
        index: 1,
        class: PairClass::Surplus,
    };
    assert!(rt; feed.finish() == surplus);
    from_client(&rt, &mut feed, b"GROUP g\r\n");
    assert!(rt; feed.finish() == Ending::More);
    pass(&rt, &mut feed, 1);
    assert!(rt; feed.finish() == Ending::End { unanswered: 0 });
}

#[test]
fn a_long_block(rt: HostRuntime) {
    let mut feed = Feed::new(rt.alloc());
    from_client(&rt, &mut feed, b"HELP\r\n");
    from_server(&rt, &mut feed, b"200 hi\r\n100 help\r\n");
    pass(&rt, &mut feed, 0);
    for _ in 0..20_000 {
        for octet in b"line\r\n" {
            from_server(&rt, &mut feed, &[*octet]);
        }
        assert!(rt; nothing_waits(&feed));
    }
    from_server(&rt, &mut feed, b".\r\n");
    pass(&rt, &mut feed, 1);
    assert!(rt; feed.finish() == Ending::End { unanswered: 0 });
}

#[test]
fn many_commands_before_their_answers(rt: HostRuntime) {
    let mut feed = Feed::new(rt.alloc());
    for _ in 0..50_000 {
        from_client(&rt, &mut feed, b"NEXT\r\n");
    }
    from_server(&rt, &mut feed, b"200 hi\r\n");
    pass(&rt, &mut feed, 0);
    for index in 1..50_001 {
        from_server(&rt, &mut feed, b"412 no\r\n");
        pass(&rt, &mut feed, index);
    }
    assert!(rt; feed.finish() == Ending::End { unanswered: 0 });
}
