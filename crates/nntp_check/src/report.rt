//! The reports of `check` and `verify`.
ghost use Rattle.std.specs.Prelude.{◌≡◌, ◌+◌, ◌<◌, ◌^◌, ◌++◌, ◌||◌, is_err, IfOk, OnOk, codes, decimal, length, sum};
ghost use Rattle.std.specs.Option.{option_copied, option_map};
ghost use Rattle.nntp_printing.specs.Title.{title_line};
ghost use Rattle.nntp_several.specs.Inner.VerifyingView.{verified_shown};
ghost use Rattle.nntp_store.specs.Watched.{inner_of};
ghost use Rattle.nntp_store.specs.Inner.Watched.{has_failed_of};
ghost use Rattle.nntp_store.specs.Inner.Writing.{Writes};
ghost use Rattle.nntp_wire.specs.Inner.Held.{held as names_in};
ghost use Rattle.nntp_check.specs.Inner.Report.{IsVerifiedWithin, IsWithin, text_behind};
ghost use Rattle.nntp_check.specs.Report.{answers_text, if_several, names_of, report_of, verified_report};
ghost use Rattle.nntp_verdict.specs.Verdict.{sessions_verdict_shown};

use nntp_printing::{put_bad_answer, put_number, put_sum, put_title};
use nntp_several::{Named, VerifiedSessions};
use nntp_spool::{Counts, Watched, WriteFault};
use nntp_verdict::SessionsVerdict;
use std::alloc::{AllocError, Allocator};
use std::io::Write;

/// The lines of the report on a verdict that stand before the spool's text, or all of them where there is none. What is
/// told of several sessions alone is told if these are several, and their names are these.
pub(crate) fn first_lines<A: Allocator + Copy>(
    alloc: A,
    is_several: bool,
    names: &[Vec<u8, A>],
    verdict: &SessionsVerdict<A>,
) -> Result<Vec<u8, A>, AllocError>
    requires { IsWithin (length names.now) (sessions_verdict_shown verdict.now) }
    ensures { IfOk result (λ first. first.items ++ text_behind (sessions_verdict_shown verdict.now)
        ≡ report_of is_several (names_in names.now) (sessions_verdict_shown verdict.now)) }
{
    let mut text = Vec::new(alloc);
    match verdict {
        SessionsVerdict::Consistent { spool, answers } => {
            put_consistent(&mut text, is_several, answers, spool.counts())?;
            Ok(text)
        }
        SessionsVerdict::Bad {
            session,
            answer,
            class,
            command,
            reply,
        } => {
            let name = &names[*session as usize];
            put_title_if(&mut text, is_several, *session, name)?;
            put_bad_answer(&mut text, *answer, *class, line_of(command), reply)?;
            Ok(text)
        }
    }
}

/// The line of the client that a verdict shows.
fn line_of<A: Allocator>(command: &Option<Vec<u8, A>>) -> Option<&[u8]>
    ensures { option_copied result ≡ option_map (λ line. line.items) command.now }
{
    match command {
        Some(line) => Some(line.as_slice()),
        None => None,
    }
}

/// Writes what of the report on a verdict stands behind its first lines: the text of the spool, where there is one.
pub(crate) fn put_text_behind<A: Allocator, W: Write>(
    verdict: &SessionsVerdict<A>,
    output: &mut Watched<W>,
) -> Result<(), WriteFault>
    ensures text { Writes result (W.contents (inner_of output.old)) (W.contents (inner_of output.new)) (text_behind (sessions_verdict_shown verdict.now)) }
    ensures failed { has_failed_of output.new ≡ (has_failed_of output.old || is_err result) }
{
    match verdict {
        SessionsVerdict::Consistent { spool, .. } => spool.write(output),
        SessionsVerdict::Bad { .. } => Ok(()),
    }
}

/// Adds the report on what `verify` answers of these sessions.
pub(crate) fn put_verified<A: Allocator + Copy>(
    text: &mut Vec<u8, A>,
    is_several: bool,
    sessions: &[Named<'_>],
    verified: &VerifiedSessions<A>,
) -> Result<(), AllocError>
    requires { IsVerifiedWithin (length sessions.now) (verified_shown verified.now) }
    ensures { OnOk result (text.new.items ≡ text.old.items ++ verified_report is_several (names_of sessions.now) (verified_shown verified.now)) }
{
    match verified {
        VerifiedSessions::Permits { answers } => {
            text.extend_from_slice(b"permits ")?;
            put_answers(text, is_several, answers)?;
            text.extend_from_slice(b"\n")
        }
        VerifiedSessions::Refuses { session, index } => {
            let named = &sessions[*session as usize];
            put_refusal(text, is_several, *session, named.name, *index)
        }
    }
}

/// Adds that this answer of a session isn't explained, behind the session's title if there are several. Both are counted
/// from 0.
fn put_refusal<A: Allocator + Copy>(
    text: &mut Vec<u8, A>,
    is_several: bool,
    session: u64,
    name: &[u8],
    answer: u64,
) -> Result<(), AllocError>
    requires { session + 1 < 2 ^ 64 }
    ensures { OnOk result (text.new.items ≡ text.old.items ++ (if_several is_several (title_line (session + 1) name.now) ++ codes "refuses answer "
        ++ decimal answer ++ codes "\n")) }
{
    put_title_if(text, is_several, session, name)?;
    put_number(text, b"refuses answer ", answer)?;
    text.extend_from_slice(b"\n")
}

/// Adds the title of this session, counted from 0, if there are several.
fn put_title_if<A: Allocator + Copy>(
    text: &mut Vec<u8, A>,
    is_several: bool,
    session: u64,
    name: &[u8],
) -> Result<(), AllocError>
    requires { session + 1 < 2 ^ 64 }
    ensures { OnOk result (text.new.items ≡ text.old.items ++ if_several is_several (title_line (session + 1) name.now)) }
{
    if is_several {
        put_title(text, session + 1, name)?;
    }
    Ok(())
}

/// Adds how much explains how many answers.
fn put_consistent<A: Allocator + Copy>(
    text: &mut Vec<u8, A>,
    is_several: bool,
    answers: &[u64],
    counts: Counts,
) -> Result<(), AllocError>
    ensures { OnOk result (text.new.items ≡ text.old.items ++ codes "consistent " ++ answers_text is_several answers.now ++ codes " groups="
        ++ decimal counts.groups
        ++ codes " numbers=" ++ decimal counts.numbers ++ codes " articles=" ++ decimal counts.articles ++ codes "\n") }
{
    text.extend_from_slice(b"consistent ")?;
    put_answers(text, is_several, answers)?;
    put_number(text, b" groups=", counts.groups)?;
    put_sum(text, b" numbers=", counts.numbers)?;
    put_number(text, b" articles=", counts.articles)?;
    text.extend_from_slice(b"\n")
}

/// Adds how many answers there are in all, and before that, of several, how many sessions have them.
fn put_answers<A: Allocator + Copy>(
    text: &mut Vec<u8, A>,
    is_several: bool,
    answers: &[u64],
) -> Result<(), AllocError>
    ensures { OnOk result (text.new.items ≡ text.old.items ++ answers_text is_several answers.now) }
{
    if is_several {
        put_number(text, b"sessions=", answers.len() as u64)?;
        text.push(b' ')?;
    }
    put_sum(text, b"answers=", total(answers))
}

/// The sum of the numbers.
fn total(numbers: &[u64]) -> u128
    ensures { result ≡ sum numbers.now }
{
    let mut total = 0;
    for number in numbers {
        total += u128::from(*number);
    }
    total
}
