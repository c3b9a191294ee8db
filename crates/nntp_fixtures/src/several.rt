//! Several sessions: their calls by a choice, and what these answer as octets that a test compares.
use crate::choices::{checker_by, checker_taking};
use crate::told::is_told_of_sessions;
use crate::verdicts::show_bad;
use nntp_pair::{Class, PairError};
use nntp_sessions::{Choice, with_spool_text};
use nntp_several::{Recorded, VerifiedSessions, verify_sessions};
use nntp_spool::Spool;
use nntp_verdict::{Checker, SessionsVerdict, check_sessions};
use nntp_wire::{Marks, Overviews};
use std::alloc::{AllocError, Allocator, Global};
use std::test::Fail;

/// A session of these streams of the client and of the server, where overviews are taken so.
pub fn recorded_taking<'a>(
    overviews: Overviews,
    (client, server): (&'a str, &'a str),
) -> Recorded<'a> {
    Recorded {
        overviews,
        client: client.as_bytes(),
        server: server.as_bytes(),
    }
}

/// Sessions, of each of which these are the streams of the client and of the server, where overviews are opaque.
pub fn recorded<'a>(
    alloc: Global,
    sessions: &[(&'a str, &'a str)],
) -> Result<Vec<Recorded<'a>>, AllocError> {
    let mut recorded = Vec::new(alloc);
    for streams in sessions {
        recorded.push(recorded_taking(Overviews::Opaque, *streams))?;
    }
    Ok(recorded)
}

/// The verdict of `check_sessions`.
pub fn check_sessions_by<A: Allocator + Copy>(
    choice: Choice,
    alloc: A,
    sessions: &[Recorded<'_>],
) -> Result<SessionsVerdict<A>, AllocError> {
    check_sessions(alloc, choice.limit, choice.marks, sessions)
}

/// Gives sessions one after the other, each stream in one piece, the first one to the session that has begun.
///
/// # Errors
///
/// What the checker answers to the first call that it refuses.
pub fn feed_sessions<A: Allocator + Copy>(
    checker: &mut Checker<A>,
    sessions: &[Recorded<'_>],
) -> Result<(), PairError> {
    let mut is_first = true;
    for session in sessions {
        if !is_first {
            checker.begin_session()?;
        }
        is_first = false;
        checker.feed_client(session.client)?;
        checker.feed_server(session.server)?;
    }
    Ok(())
}

/// A verdict on sessions, with nothing escaped: how many answers each session has, and the spool; or the session that is
/// bad, and the report on its answer.
pub fn sessions_shown<A: Allocator>(
    alloc: Global,
    verdict: &SessionsVerdict<A>,
) -> Result<Vec<u8>, AllocError> {
    match verdict {
        SessionsVerdict::Consistent { spool, answers } => {
            let first = answers_line(alloc, "consistent", answers)?;
            with_spool_text(first.into_bytes(), spool)
        }
        SessionsVerdict::Bad {
            session,
            answer,
            class,
            command,
            reply,
        } => {
            let mut shown = Vec::new(alloc);
            let first = format!(in alloc; "session {session}\nbad answer {answer} {class}\n")?;
            show_bad(&mut shown, first.as_str(), command.as_ref(), reply)?;
            Ok(shown)
        }
    }
}

/// What `verify_sessions` answers.
pub fn verified_shown<A: Allocator>(
    alloc: Global,
    verified: &VerifiedSessions<A>,
) -> Result<String, AllocError> {
    match verified {
        VerifiedSessions::Permits { answers } => answers_line(alloc, "permits", answers),
        VerifiedSessions::Refuses { session, index } => {
            format!(in alloc; "session {session}\nrefuses answer {index}\n")
        }
    }
}

/// A word, and how many answers each session has.
fn answers_line(alloc: Global, word: &str, answers: &[u64]) -> Result<String, AllocError> {
    let mut line = format!(in alloc; "{word} answers=")?;
    let mut before = "";
    for count in answers {
        line.push_str(format!(in alloc; "{before}{count}")?.as_str())?;
        before = ",";
    }
    line.push_str("\n")?;
    Ok(line)
}

/// What `check_sessions` says.
pub fn checked_sessions(
    alloc: Global,
    choice: Choice,
    sessions: &[Recorded<'_>],
) -> Result<Vec<u8>, AllocError> {
    sessions_shown(alloc, &check_sessions_by(choice, alloc, sessions)?)
}

/// What `verify_sessions` answers of a spool.
fn verified_by(
    alloc: Global,
    marks: Marks,
    spool: &Spool,
    sessions: &[Recorded<'_>],
) -> Result<String, Fail> {
    let verified = verify_sessions(alloc, marks, spool, sessions)?;
    Ok(verified_shown(alloc, &verified)?)
}

/// What `verify_sessions` answers of the spool with this text.
///
/// # Errors
///
/// Want of memory, and that the text isn't that of a spool.
pub fn verified_sessions(
    alloc: Global,
    marks: Marks,
    text: &[u8],
    sessions: &[Recorded<'_>],
) -> Result<String, Fail> {
    let spool = Spool::read(alloc, text)?;
    verified_by(alloc, marks, &spool, sessions)
}

/// A verdict on so many sessions, if what was told as bad is its bad answer.
fn sessions_shown_as_told(
    alloc: Global,
    told: Option<(u64, u64, Class)>,
    verdict: &SessionsVerdict,
    count: usize,
) -> Result<Vec<u8>, Fail> {
    if !is_told_of_sessions(told, verdict, count) {
        return Err("something else was told as bad".into());
    }
    Ok(sessions_shown(alloc, verdict)?)
}

/// What a checker says, to which so many sessions came.
///
/// # Errors
///
/// Want of memory, and that something else was told as bad than the bad answer of the verdict.
pub fn finished_sessions(alloc: Global, checker: Checker, count: usize) -> Result<Vec<u8>, Fail> {
    let told = checker.bad_of_sessions();
    let verdict = checker.finish_sessions()?;
    sessions_shown_as_told(alloc, told, &verdict, count)
}

/// What a checker says, to which each stream comes in one piece.
///
/// # Errors
///
/// Those of `finished_sessions`.
pub fn checked_in_turn(
    alloc: Global,
    choice: Choice,
    sessions: &[Recorded<'_>],
) -> Result<Vec<u8>, Fail> {
    let mut checker = checker_by(choice, alloc);
    feed_sessions(&mut checker, sessions)?;
    finished_sessions(alloc, checker, sessions.len())
}

/// Gives the client's stream octet by octet.
fn feed_client_octets(checker: &mut Checker, octets: &[u8]) -> Result<(), PairError> {
    for octet in octets {
        checker.feed_client(&[*octet])?;
    }
    Ok(())
}

/// Gives the server's stream octet by octet.
fn feed_server_octets(checker: &mut Checker, octets: &[u8]) -> Result<(), PairError> {
    for octet in octets {
        checker.feed_server(&[*octet])?;
    }
    Ok(())
}

/// Gives sessions one after the other, octet by octet, the server's stream first.
fn feed_octets(checker: &mut Checker, sessions: &[Recorded<'_>]) -> Result<(), PairError> {
    let mut is_first = true;
    for session in sessions {
        if !is_first {
            checker.begin_session()?;
        }
        is_first = false;
        feed_server_octets(checker, session.server)?;
        feed_client_octets(checker, session.client)?;
    }
    Ok(())
}

/// What a checker says, to which the streams come octet by octet.
///
/// # Errors
///
/// Those of `finished_sessions`.
pub fn checked_by_octets(
    alloc: Global,
    choice: Choice,
    sessions: &[Recorded<'_>],
) -> Result<Vec<u8>, Fail> {
    checked_taking(alloc, choice, Overviews::Opaque, sessions)
}

/// What a checker says that takes overviews so, to which the streams come octet by octet.
///
/// # Errors
///
/// Those of `finished_sessions`.
pub fn checked_taking(
    alloc: Global,
    choice: Choice,
    overviews: Overviews,
    sessions: &[Recorded<'_>],
) -> Result<Vec<u8>, Fail> {
    let mut checker = checker_taking(choice, alloc, overviews);
    feed_octets(&mut checker, sessions)?;
    finished_sessions(alloc, checker, sessions.len())
}
