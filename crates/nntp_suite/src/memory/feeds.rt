//! Want of memory while streams are fed in pieces.
use nntp_little_memory::{Ended, refuse_each};
use nntp_pair::{Ending, Feed, PairClass, PairError, Peek};
use nntp_refusing::Refusing;
use std::alloc::Global;
use std::test::Fail;

type Heap<'a> = &'a Refusing<Global>;

/// The next octets of a stream.
#[derive(Clone, Copy)]
enum Piece {
    Client(&'static [u8]),
    Server(&'static [u8]),
}

/// A feeding.
#[derive(Clone, Copy)]
struct Feeding {
    piece: Piece,
    /// The initial lines of the answers that are whole then.
    whole: &'static [&'static [u8]],
    /// How the pairing ends behind them.
    ending: Ending,
}

/// A body, whose block comes in two pieces.
const BODY: [Feeding; 3] = [
    Feeding {
        piece: Piece::Client(b"BODY <a@b>\r\n"),
        whole: &[],
        ending: Ending::End { unanswered: 1 },
    },
    Feeding {
        piece: Piece::Server(b"200 hi\r\n222 0 <a@b>\r\n..\r\n..."),
        whole: &[b"200 hi"],
        ending: Ending::Bad {
            index: 1,
            class: PairClass::Cut,
        },
    },
    Feeding {
        piece: Piece::Server(b"x\r\n\r\n.\r\n"),
        whole: &[b"222 0 <a@b>"],
        ending: Ending::End { unanswered: 0 },
    },
];

/// An answer that comes before its line.
const ANSWER_FIRST: [Feeding; 2] = [
    Feeding {
        piece: Piece::Server(b"200 hi\r\n411 no\r\n"),
        whole: &[b"200 hi"],
        ending: Ending::Bad {
            index: 1,
            class: PairClass::Surplus,
        },
    },
    Feeding {
        piece: Piece::Client(b"GROUP g\r\n"),
        whole: &[b"411 no"],
        ending: Ending::End { unanswered: 0 },
    },
];

/// Feeds a piece.
fn feed_piece(feed: &mut Feed<Heap<'_>>, piece: Piece) -> Result<(), PairError> {
    match piece {
        Piece::Client(octets) => feed.feed_client(octets),
        Piece::Server(octets) => feed.feed_server(octets),
    }
}

/// Passes the exchange that waits, if its answer has this initial line.
fn passes(feed: &mut Feed<Heap<'_>>, initial: &[u8]) -> bool {
    let Peek::Whole(exchange) = feed.peek() else {
        return false;
    };
    if exchange.initial() != initial {
        return false;
    }
    feed.advance();
    true
}

/// Passes the exchanges that wait, if their answers have these initial lines.
fn passes_all(feed: &mut Feed<Heap<'_>>, whole: &[&[u8]]) -> bool {
    for initial in whole {
        if !passes(feed, *initial) {
            return false;
        }
    }
    !matches!(feed.peek(), Peek::Whole(_))
}

/// How a feeding ended that wants memory: from then on each call has to answer Failed, and nothing is
/// ahead.
fn after_want(mut feed: Feed<Heap<'_>>) -> Ended {
    let is_client_taken = feed.feed_client(b"QUIT\r\n") != Err(PairError::Failed);
    let is_server_taken = feed.feed_server(b"200 hi\r\n") != Err(PairError::Failed);
    if is_client_taken || is_server_taken || !matches!(feed.peek(), Peek::Failed) {
        return Ended::Wrong;
    }
    let ahead = feed.ahead();
    if ahead.line.is_none() && ahead.rest.is_empty() && feed.finish() == Ending::Failed {
        Ended::Memory
    } else {
        Ended::Wrong
    }
}

/// Makes the feedings. The one of which a request was refused wants memory.
fn feed_all(heap: Heap<'_>, feedings: &[Feeding]) -> Ended {
    let mut feed = Feed::new(heap);
    for feeding in feedings {
        match feed_piece(&mut feed, feeding.piece) {
            Ok(()) if !heap.has_refused() => {}
            Err(PairError::Memory) if heap.has_refused() => return after_want(feed),
            _ => return Ended::Wrong,
        }
        if !passes_all(&mut feed, feeding.whole) || feed.finish() != feeding.ending {
            return Ended::Wrong;
        }
    }
    Ended::Right
}

/// Feedings by name.
const FEEDINGS: [(&str, &[Feeding]); 2] = [
    ("a body in two pieces", &BODY),
    ("an answer before its line", &ANSWER_FIRST),
];

#[test]
fn streams_that_are_fed(rt: HostRuntime) -> Result<(), Fail> {
    for (name, feedings) in FEEDINGS {
        let refused = refuse_each(rt.alloc(), name, |heap| feed_all(heap, feedings))?;
        assert!(rt; refused > 1, "{name}, {refused}");
    }
    Ok(())
}
