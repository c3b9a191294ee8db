//! Checkers: the worked sessions in pieces, and what is told as bad while octets come.
use nntp_fixtures::{checked_split, checker_by, expect_octets, finished};
use nntp_pair::Class;
use nntp_sessions::{NARROW_LENIENT, Random, Session, each_session};
use nntp_verdict::Checker;
use std::alloc::Global;
use std::test::Fail;

/// Splits the server's stream at each place, behind the whole stream of the client; and the client's at each place,
/// round the whole stream of the server.
fn split_everywhere(alloc: Global, session: &Session) -> Result<(), Fail> {
    let wanted = session.report(alloc)?;
    let (client, server) = session.streams();
    for place in 0..server.len() + client.len() {
        let places = match place.checked_sub(server.len()) {
            None => (client.len(), place),
            Some(at) => (at, server.len()),
        };
        let report = checked_split(alloc, session.choice, (client, server), places)?;
        expect_octets(session.name, &report, wanted.as_bytes())?;
    }
    Ok(())
}

#[test]
fn sessions_in_two_pieces(rt: HostRuntime) -> Result<(), Fail> {
    for session in each_session(rt.alloc())? {
        split_everywhere(rt.alloc(), session)?;
    }
    Ok(())
}

/// Gives a piece of each stream. An answer that was told as bad is told still.
fn feed(checker: &mut Checker, name: &str, (client, server): (&[u8], &[u8])) -> Result<(), Fail> {
    let told = checker.bad();
    checker.feed_client(client)?;
    checker.feed_server(server)?;
    if told.is_none() || told == checker.bad() {
        return Ok(());
    }
    Err(Fail::new(format_args!("{name}: another answer is told as bad")))
}

/// In which pieces the octets of both streams come: of one octet, or of 0 to 7.
#[derive(Clone, Copy)]
enum Order {
    ClientFirst,
    ServerFirst,
    InTurn,
    AtRandom,
}

/// In each order.
const ORDERS: [Order; 4] = [
    Order::ClientFirst,
    Order::ServerFirst,
    Order::InTurn,
    Order::AtRandom,
];

impl Order {
    /// How many octets come next of the client and of the server, if so many are left of them.
    fn next(self, random: &mut Random, client: &[u8], server: &[u8]) -> (usize, usize) {
        match self {
            Order::ClientFirst => (1, usize::from(client.is_empty())),
            Order::ServerFirst => (usize::from(server.is_empty()), 1),
            Order::InTurn => (1, 1),
            Order::AtRandom => (random.below(8), random.below(8)),
        }
    }
}

/// Gives both streams of a session in this order.
fn feed_all(
    checker: &mut Checker,
    random: &mut Random,
    session: &Session,
    order: Order,
) -> Result<(), Fail> {
    let (mut client, mut server) = session.streams();
    for _ in 0..client.len() + server.len() {
        let (of_client, of_server) = order.next(random, client, server);
        let (client_piece, client_rest) = client.split_at(of_client.min(client.len()));
        let (server_piece, server_rest) = server.split_at(of_server.min(server.len()));
        feed(checker, session.name, (client_piece, server_piece))?;
        client = client_rest;
        server = server_rest;
    }
    feed(checker, session.name, (client, server))
}

/// Gives both streams of a session in this order, and expects the report that is wanted.
fn check_in_order(
    alloc: Global,
    random: &mut Random,
    session: &Session,
    order: Order,
) -> Result<(), Fail> {
    let wanted = session.report(alloc)?;
    let mut checker = checker_by(session.choice, alloc);
    feed_all(&mut checker, random, session, order)?;
    expect_octets(session.name, &finished(alloc, checker)?, wanted.as_bytes())
}

#[test]
fn sessions_in_pieces(rt: HostRuntime) -> Result<(), Fail> {
    let mut random = Random::new(16, 0);
    for session in each_session(rt.alloc())? {
        for order in ORDERS {
            check_in_order(rt.alloc(), &mut random, session, order)?;
        }
    }
    Ok(())
}

/// Pieces of both streams, which answer is told as bad behind each, and the report in the end.
#[derive(Clone, Copy)]
struct Telling {
    name: &'static str,
    pieces: &'static [(&'static [u8], &'static [u8], Option<(u64, Class)>)],
    report: &'static [u8],
}

const SURPLUS: Option<(u64, Class)> = Some((2, Class::Surplus));

const OUT_OF_PLACE: Option<(u64, Class)> = Some((1, Class::OutOfPlace));

const TELLINGS: [Telling; 4] = [
    Telling {
        name: "octets on a closed connection",
        pieces: &[
            (b"QUIT\r\n", b"200 hi\r\n205 bye\r\n", None),
            (b"", b"x", SURPLUS),
            (b"", b"y\r\n", SURPLUS),
        ],
        report: b"bad answer 2 Surplus\nno command\nanswer xy\n",
    },
    Telling {
        name: "a line on a closed connection",
        pieces: &[
            (b"QUIT\r\n", b"200 hi\r\n205 bye\r\n", None),
            (b"", b"x", SURPLUS),
            (b"", b"y\r\n", SURPLUS),
            (b"GROUP g\r\n", b"", SURPLUS),
        ],
        report: b"bad answer 2 Surplus\ncommand GROUP g\nanswer xy\n",
    },
    Telling {
        name: "an answer that comes before its line",
        pieces: &[
            (b"", b"200 hi\r\n411 no\r\n", None),
            (b"GROUP g\r\n", b"", None),
        ],
        report: b"consistent answers=2 groups=0 numbers=0 articles=0\nspool 1\nend\n",
    },
    Telling {
        name: "a bad answer stays",
        pieces: &[
            (
                b"NEXT\r\nGROUP g\r\n",
                b"200 hi\r\n223 1 <a@b>\r\n",
                OUT_OF_PLACE,
            ),
            (b"", b"411 no\r\n2", OUT_OF_PLACE),
            (b"QUIT\r\n", b"", OUT_OF_PLACE),
        ],
        report: b"bad answer 1 OutOfPlace\ncommand NEXT\nanswer 223 1 <a@b>\n",
    },
];

/// Gives the pieces, and expects what is told behind each.
fn tell(checker: &mut Checker, telling: &Telling) -> Result<(), Fail> {
    let Telling { name, .. } = *telling;
    for (client, server, told) in telling.pieces {
        feed(checker, name, (*client, *server))?;
        if checker.bad() != *told {
            return Err(Fail::new(format_args!("{name}: {:?} is told as bad", checker.bad())));
        }
    }
    Ok(())
}

/// Gives the pieces, and expects the report.
fn tell_all(alloc: Global, telling: &Telling) -> Result<(), Fail> {
    let mut checker = checker_by(NARROW_LENIENT, alloc);
    tell(&mut checker, telling)?;
    expect_octets(telling.name, &finished(alloc, checker)?, telling.report)
}

#[test]
fn what_is_told_as_bad_while_octets_come(rt: HostRuntime) -> Result<(), Fail> {
    for telling in &TELLINGS {
        tell_all(rt.alloc(), telling)?;
    }
    Ok(())
}
