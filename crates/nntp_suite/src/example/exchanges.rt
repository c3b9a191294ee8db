//! The exchanges: their places and lines, what is asked, and what is answered.
use crate::example::session::{CLIENT, ID, NAME, SERVER, are_head_lines, next};
use nntp_pair::{Ending, Exchange, Feed, Pairs, Peek, Step};
use nntp_wire::{Answer, Block, Command, Prompt, WaterMarks, What, Which};
use std::process::Abort;

/// The line and the initial line of an exchange.
type Pair = (Option<&'static [u8]>, &'static [u8]);

const PAIRS: [Pair; 6] = [
    (None, b"200 hi"),
    (Some(b"GROUP misc.test"), b"211 3 1 9 misc.test"),
    (Some(b"NEXT"), b"223 2 <a@x>"),
    (Some(b"HEAD"), b"221 2 <a@x>"),
    (Some(b"STAT 1"), b"423 no"),
    (Some(b"QUIT"), b"205 bye"),
];

/// Whether the exchange stands at this place, and has this line and this initial line.
fn is_at(exchange: &Exchange<'_>, place: usize, (line, initial): Pair) -> bool {
    exchange.index() == place as u64 && exchange.line() == line && exchange.initial() == initial
}

#[test]
fn of_whole_streams(rt: HostRuntime) {
    let mut pairs = Pairs::new(CLIENT, SERVER);
    for (place, &pair) in PAIRS.iter().enumerate() {
        let exchange = next(&rt, &mut pairs);
        assert!(rt; is_at(&exchange, place, pair), "{place}");
    }
    assert!(rt; matches!(pairs.next(), Step::End { unanswered: 0 }));
}

/// Passes the exchange that waits, which is this one.
fn pass(rt: &impl Abort, feed: &mut Feed, place: usize, pair: Pair) {
    let Peek::Whole(exchange) = feed.peek() else {
        panic!(rt; "nothing waits");
    };
    assert!(rt; is_at(&exchange, place, pair), "{place}");
    feed.advance();
}

#[test]
fn of_a_feed(rt: HostRuntime) {
    let mut feed = Feed::new(rt.alloc());
    assert!(rt; feed.feed_client(CLIENT).is_ok());
    assert!(rt; feed.feed_server(SERVER).is_ok());
    for (place, &pair) in PAIRS.iter().enumerate() {
        pass(&rt, &mut feed, place, pair);
    }
    assert!(rt; feed.finish() == Ending::End { unanswered: 0 });
}

/// Whether this is what is asked at the place.
fn is_asked(place: u64, prompt: &Prompt<'_>) -> bool {
    match (place, prompt) {
        (0, Prompt::Greeting) => true,
        (1, Prompt::To(Command::Group(word))) => *word == NAME,
        (2, Prompt::To(Command::Next)) => true,
        (3, Prompt::To(Command::Retrieve { what, which })) => {
            *what == What::Head && matches!(which, Which::Current)
        }
        (4, Prompt::To(Command::Retrieve { what, which })) => {
            *what == What::Stat && matches!(which, Which::Number(Some(1)))
        }
        (5, Prompt::To(Command::Quit)) => true,
        _ => false,
    }
}

/// Whether this is what is answered at the place.
fn is_answered(place: u64, answer: &Answer<'_>) -> bool {
    match (place, answer) {
        (0, Answer::Plain { code }) => *code == 200,
        (1, Answer::Group { marks, name }) => {
            *marks == WaterMarks::new(3, 1, 9) && name.as_slice() == NAME
        }
        (
            2 | 3,
            Answer::Sent {
                code,
                number,
                id,
                block,
            },
        ) => { *number == 2 && id.as_slice() == ID && is_sent(place, *code, block) }
        (4, Answer::Plain { code }) => *code == 423,
        (5, Answer::Plain { code }) => *code == 205,
        _ => false,
    }
}

/// Whether this code and this block are sent at the place.
fn is_sent(place: u64, code: u64, block: &Option<Block<'_>>) -> bool {
    match block {
        Some(block) => place == 3 && code == 221 && are_head_lines(block.lines()),
        None => place == 2 && code == 223,
    }
}

#[test]
fn what_is_asked_and_answered(rt: HostRuntime) {
    let mut pairs = Pairs::new(CLIENT, SERVER);
    for place in 0..6 {
        let exchange = next(&rt, &mut pairs);
        assert!(rt; is_asked(place, exchange.prompt()), "{place}");
        assert!(rt; is_answered(place, exchange.answer()), "{place}");
    }
}
