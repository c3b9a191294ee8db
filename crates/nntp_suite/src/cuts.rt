//! Recordings that end early: each consistent worked session, with one of both streams cut after each octet.
use nntp_fixtures::{check_by, checked_split, expect_front, expect_octets, shown};
use nntp_sessions::{Answered, Choice, Session, each_session, exchanges};
use std::alloc::{AllocError, Global};
use std::test::Fail;

/// The report of `check` on these streams, on which `Checker` agrees.
fn report(
    alloc: Global,
    choice: Choice,
    name: &str,
    (client, server): (&[u8], &[u8]),
) -> Result<Vec<u8>, Fail> {
    let places = (client.len() / 2, server.len() / 2);
    let split = checked_split(alloc, choice, (client, server), places)?;
    let report = shown(alloc, &check_by(choice, alloc, (client, server))?)?;
    expect_octets(name, &split, &report)?;
    Ok(report)
}

/// The beginning of the report where the server's stream is cut at this place: a yes where an answer ends, or
/// no octet came.
fn first_line(
    alloc: Global,
    exchanges: &[Answered<'_>],
    place: usize,
) -> Result<String, AllocError> {
    let mut count = 0usize;
    let mut last = 0;
    for answered in exchanges {
        if answered.end <= place {
            count = count.saturating_add(1);
            last = answered.end;
        }
    }
    if last == place {
        format!(in alloc; "consistent answers={count} ")
    } else {
        format!(in alloc; "bad answer {count} Cut\n")
    }
}

/// Cuts the server's stream after each octet.
fn cut_server(alloc: Global, session: &Session) -> Result<(), Fail> {
    let Session { name, choice, .. } = *session;
    let (client, server) = session.streams();
    let exchanges = exchanges(alloc, client, server)?;
    for place in 0..server.len() {
        let (front, _) = server.split_at(place);
        let first = first_line(alloc, &exchanges, place)?;
        let report = report(alloc, choice, name, (client, front))?;
        expect_front(name, &report, first.as_str())?;
    }
    Ok(())
}

#[test]
fn streams_of_the_server(rt: HostRuntime) -> Result<(), Fail> {
    for session in each_session(rt.alloc())? {
        if session.is_consistent() {
            cut_server(rt.alloc(), session)?;
        }
    }
    Ok(())
}

/// The report where nothing asks for an answer.
fn surplus(alloc: Global, answered: &Answered<'_>) -> Result<Vec<u8>, AllocError> {
    let index = answered.exchange.index();
    let first = format!(in alloc; "bad answer {index} Surplus\nno command\nanswer ")?;
    let mut report = first.into_bytes();
    report.extend_from_slice(answered.exchange.initial())?;
    report.push(b'\n')?;
    Ok(report)
}

/// Cuts the client's stream after each octet of the line that was answered last, its CR included, and before its
/// first one. `lines` ends with that line, and `server` with its answer.
fn cut_line(
    alloc: Global,
    choice: Choice,
    name: &str,
    (lines, server): (&[u8], &[u8]),
    answered: &Answered<'_>,
) -> Result<(), Fail> {
    let wanted = surplus(alloc, answered)?;
    let length = answered.exchange.line().map_or(0, |line| line.len());
    for missing in 1..=length.saturating_add(2) {
        let (front, _) = lines.split_at(lines.len().saturating_sub(missing));
        let report = report(alloc, choice, name, (front, server))?;
        expect_octets(name, &report, &wanted)?;
    }
    Ok(())
}

/// Cuts the client's stream inside each line that is answered.
fn cut_client(alloc: Global, session: &Session) -> Result<(), Fail> {
    let Session { name, choice, .. } = *session;
    let (client, server) = session.streams();
    let mut end = 0usize;
    for answered in &exchanges(alloc, client, server)? {
        if let Some(line) = answered.exchange.line() {
            end = end.saturating_add(line.len()).saturating_add(2);
            let (lines, _) = client.split_at(end.min(client.len()));
            let (answers, _) = server.split_at(answered.end.min(server.len()));
            cut_line(alloc, choice, name, (lines, answers), answered)?;
        }
    }
    Ok(())
}

#[test]
fn streams_of_the_client(rt: HostRuntime) -> Result<(), Fail> {
    for session in each_session(rt.alloc())? {
        if session.is_consistent() {
            cut_client(rt.alloc(), session)?;
        }
    }
    Ok(())
}
