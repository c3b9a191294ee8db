//! Several sessions of one spool, by each call that takes them: pairs and lists of sessions, and worked sessions that
//! follow each other or are parted.
use nntp_fixtures::{
    checked_by_octets, checked_in_turn, checked_sessions, expect_octets, recorded,
    verified_sessions,
};
use nntp_pair::Exchange;
use nntp_sessions::{
    Alone, Choice, NARROW_LENIENT, Session, each_session, exchanges, report, session_lists,
    session_pairs,
};
use nntp_several::Recorded;
use nntp_spool::Verified;
use nntp_wire::{Answer, Command, Overviews, Prompt};
use std::alloc::Global;
use std::test::Fail;

/// What is to be said of sessions in their order.
#[derive(Clone, Copy)]
struct Wanted<'a> {
    /// The verdict up to the spool's text.
    verdict: &'a str,
    /// The text of a spool: of the given one, if some spool explains them all.
    given: &'a str,
    /// What `verify_sessions` answers of it.
    verified: &'a str,
}

/// Puts sessions to each call. A checker has one session from its beginning on, so that no session at all is put to the
/// others alone.
fn expect(
    alloc: Global,
    choice: Choice,
    name: &str,
    sessions: &[Recorded<'_>],
    wanted: Wanted<'_>,
) -> Result<(), Fail> {
    let report = report(alloc, wanted.verdict, wanted.given)?;
    let report = report.as_bytes();
    expect_octets(name, &checked_sessions(alloc, choice, sessions)?, report)?;
    if !sessions.is_empty() {
        expect_octets(name, &checked_in_turn(alloc, choice, sessions)?, report)?;
        expect_octets(name, &checked_by_octets(alloc, choice, sessions)?, report)?;
    }
    let text = wanted.given.as_bytes();
    let verified = verified_sessions(alloc, choice.marks, text, sessions)?;
    expect_octets(name, verified.as_bytes(), wanted.verified.as_bytes())
}

#[test]
fn sessions_in_their_order(rt: HostRuntime) -> Result<(), Fail> {
    for list in session_lists() {
        let sessions = recorded(rt.alloc(), list.sessions)?;
        let wanted = Wanted {
            verdict: list.verdict,
            given: list.given,
            verified: list.verified,
        };
        expect(rt.alloc(), NARROW_LENIENT, list.name, &sessions, wanted)?;
    }
    Ok(())
}

/// Some spool explains a session alone.
fn expect_alone(alloc: Global, name: &str, session: &Alone) -> Result<(), Fail> {
    let (given, answers) = session.given;
    let verdict = format!(in alloc; "consistent answers={answers}\n")?;
    let verified = format!(in alloc; "permits answers={answers}\n")?;
    let wanted = Wanted {
        verdict: verdict.as_str(),
        given,
        verified: verified.as_str(),
    };
    let sessions = recorded(alloc, &[(session.client, session.server)])?;
    expect(alloc, NARROW_LENIENT, name, &sessions, wanted)
}

/// No spool explains a session together with another one that comes first. That one's spool explains the answers before
/// the bad one.
fn expect_behind(alloc: Global, name: &str, first: &Alone, session: &Alone) -> Result<(), Fail> {
    let (index, command, answer) = session.behind;
    let verdict = format!(in alloc;
        "session 1\nbad answer {index} Contradiction\ncommand {command}\nanswer {answer}\n"
    )?;
    let verified = format!(in alloc; "session 1\nrefuses answer {index}\n")?;
    let wanted = Wanted {
        verdict: verdict.as_str(),
        given: first.given.0,
        verified: verified.as_str(),
    };
    let sessions = recorded(
        alloc,
        &[
            (first.client, first.server),
            (session.client, session.server),
        ],
    )?;
    expect(alloc, NARROW_LENIENT, name, &sessions, wanted)
}

#[test]
fn sessions_that_stand_alone(rt: HostRuntime) -> Result<(), Fail> {
    for pair in session_pairs() {
        for (first, second) in [(&pair.one, &pair.other), (&pair.other, &pair.one)] {
            expect_alone(rt.alloc(), pair.name, first)?;
            expect_behind(rt.alloc(), pair.name, first, second)?;
        }
    }
    Ok(())
}

/// A worked session behind one without octets, and once more behind itself.
fn expect_again(alloc: Global, session: &Session) -> Result<(), Fail> {
    let Session { client, server, .. } = *session;
    let sessions = recorded(alloc, &[("", ""), (client, server), (client, server)])?;
    let (given, verified) = session.given;
    let (verdict, verified) = match verified {
        Verified::Permits { answers } => (
            format!(in alloc; "consistent answers=0,{answers},{answers}\n")?,
            format!(in alloc; "permits answers=0,{answers},{answers}\n")?,
        ),
        Verified::Refuses { index } => (
            format!(in alloc; "session 1\n{}", session.verdict)?,
            format!(in alloc; "session 1\nrefuses answer {index}\n")?,
        ),
    };
    let wanted = Wanted {
        verdict: verdict.as_str(),
        given,
        verified: verified.as_str(),
    };
    expect(alloc, session.choice, session.name, &sessions, wanted)
}

#[test]
fn worked_sessions_once_more(rt: HostRuntime) -> Result<(), Fail> {
    for session in each_session(rt.alloc())? {
        expect_again(rt.alloc(), session)?;
    }
    Ok(())
}

/// Whether an answer selects the group that the command names. Then nothing that follows hangs on where the session stood
/// before.
fn begins_anew(exchange: &Exchange<'_>) -> bool {
    let names_group = match exchange.prompt() {
        Prompt::To(Command::Group(_)) => true,
        Prompt::To(Command::ListGroup { group, .. }) => group.is_some(),
        _ => false,
    };
    names_group
        && matches!(
            exchange.answer(),
            Answer::Group { .. } | Answer::Numbers { .. }
        )
}

/// Parts a consistent session behind so many octets of both streams, before the answer of this index. The second part has
/// a greeting of its own.
fn expect_parted(
    alloc: Global,
    session: &Session,
    (asked, answered): (usize, usize),
    (index, answers): (u64, u64),
) -> Result<(), Fail> {
    let (client, server) = session.streams();
    let (client_front, client_rest) = client.split_at(asked.min(client.len()));
    let (server_front, server_rest) = server.split_at(answered.min(server.len()));
    let mut greeted = Vec::from_slice(alloc, b"200 hi\r\n")?;
    greeted.extend_from_slice(server_rest)?;
    let sessions = [
        Recorded {
            overviews: Overviews::Opaque,
            client: client_front,
            server: server_front,
        },
        Recorded {
            overviews: Overviews::Opaque,
            client: client_rest,
            server: greeted.as_slice(),
        },
    ];
    let rest = answers.saturating_sub(index).saturating_add(1);
    let verdict = format!(in alloc; "consistent answers={index},{rest}\n")?;
    let verified = format!(in alloc; "permits answers={index},{rest}\n")?;
    let wanted = Wanted {
        verdict: verdict.as_str(),
        given: session.given.0,
        verified: verified.as_str(),
    };
    let name = format!(in alloc; "{}, before answer {index}", session.name)?;
    expect(alloc, session.choice, name.as_str(), &sessions, wanted)
}

/// Parts a consistent session of so many answers before each answer that selects the group that the command names.
fn part(alloc: Global, session: &Session, answers: u64) -> Result<(), Fail> {
    let (client, server) = session.streams();
    let mut asked = 0usize;
    let mut answered = 0usize;
    for next in &exchanges(alloc, client, server)? {
        let index = next.exchange.index();
        if begins_anew(&next.exchange) {
            expect_parted(alloc, session, (asked, answered), (index, answers))?;
        }
        if let Some(line) = next.exchange.line() {
            asked = asked.saturating_add(line.len()).saturating_add(2);
        }
        answered = next.end;
    }
    Ok(())
}

#[test]
fn worked_sessions_in_two(rt: HostRuntime) -> Result<(), Fail> {
    for session in each_session(rt.alloc())? {
        if let (_, Verified::Permits { answers }) = session.given {
            part(rt.alloc(), session, answers)?;
        }
    }
    Ok(())
}
