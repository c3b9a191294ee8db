//! A slow judge of sessions, by plain lists. It works out anew from all answers what is shown and what
//! is denied, makes the spool that is given for them, and looks up in it what each answer says. Sessions of one spool it
//! judges as one list of exchanges, one session behind the other. It reads a session on behind bad answers too, and tells
//! whether some spool has what answers say by themselves. A spool that comes as a text it puts to a session. Of what it
//! judges it calls nothing but what reads octets and pairs answers.
#![tactic(auto)]

mod blocks;
mod ends;
mod fields;
mod given;
mod numbers;
mod overviews;
mod reading;
mod rules;
mod said;
mod slow_verdict;
mod spool;
mod standing;
mod text;
mod told;
mod visible;
mod wildmats;

use given::given_spool;
use nntp_pair::Exchange;
use nntp_sessions::{Answered, Choice, exchanges};
use nntp_wire::{Limit, Marks};
pub use reading::{Reading, read};
use said::Said;
pub use slow_verdict::SlowVerdict;
use standing::count_permitted;
use std::alloc::{AllocError, Global};
use text::{read_text, text_of};
use visible::Visible;
pub use wildmats::is_matched;

/// What is said of an answer behind those before it.
#[derive(Clone, Copy, Debug, PartialEq, Eq)]
pub enum Judged {
    Consistent,
    OutOfPlace,
    Contradiction,
}

/// The exchanges alone.
fn listed<'e, 'a>(
    alloc: Global,
    answered: &'e [Answered<'a>],
) -> Result<Vec<&'e Exchange<'a>>, AllocError> {
    let mut exchanges = Vec::new(alloc);
    for answered in answered {
        exchanges.push(&answered.exchange)?;
    }
    Ok(exchanges)
}

/// What is said of the last of these exchanges, where some spool explains those before it; and the text
/// of the spool that is given for all of them, where that one explains them. They may be of several sessions, one behind
/// the other: each begins with its greeting.
fn judge(
    alloc: Global,
    choice: Choice,
    exchanges: &[Answered<'_>],
) -> Result<(Judged, Vec<u8>), AllocError> {
    judge_listed(alloc, choice, &listed(alloc, exchanges)?)
}

/// The same of exchanges alone.
pub(crate) fn judge_listed(
    alloc: Global,
    choice: Choice,
    exchanges: &[&Exchange<'_>],
) -> Result<(Judged, Vec<u8>), AllocError> {
    if !fits(alloc, choice.limit, exchanges)? {
        return Ok((Judged::OutOfPlace, Vec::new(alloc)));
    }
    match explaining_text(alloc, choice, exchanges)? {
        Some(text) => Ok((Judged::Consistent, text)),
        None => Ok((Judged::Contradiction, Vec::new(alloc))),
    }
}

/// A line for each group, of what these exchanges show and of the numbers that are given, where some spool
/// explains them.
pub fn group_lines(
    alloc: Global,
    marks: Marks,
    exchanges: &[Answered<'_>],
) -> Result<String, AllocError> {
    let said = hear(alloc, &listed(alloc, exchanges)?)?;
    given::group_lines(alloc, marks, &said)
}

/// How many answers of a session a spool explains, and whether the server sent nothing else.
#[derive(Clone, Copy, Debug, PartialEq, Eq)]
pub struct Put {
    pub answers: u64,
    pub are_all: bool,
}

/// Puts the spool of this text to a session. None where the octets are the text of no spool.
pub fn put_spool(
    alloc: Global,
    marks: Marks,
    text: &[u8],
    (client, server): (&[u8], &[u8]),
) -> Result<Option<Put>, AllocError> {
    let Some(spool) = read_text(alloc, text)? else {
        return Ok(None);
    };
    let answered = exchanges(alloc, client, server)?;
    let count = count_permitted(alloc, &spool, marks, &listed(alloc, &answered)?)?;
    let end = answered.last().map_or(0, |answered| answered.end);
    Ok(Some(Put {
        answers: count as u64,
        are_all: count == answered.len() && end == server.len(),
    }))
}

/// What all of the exchanges say.
fn hear<'a>(alloc: Global, exchanges: &[&Exchange<'a>]) -> Result<Said<'a>, AllocError> {
    let mut said = Said::new(alloc);
    for exchange in exchanges {
        said.hear(*exchange)?;
    }
    Ok(said)
}

/// Whether the last exchange fits the visible state that those before it leave.
fn fits(alloc: Global, limit: Limit, exchanges: &[&Exchange<'_>]) -> Result<bool, AllocError> {
    let mut visible = Visible::new(alloc, limit);
    let mut fits = true;
    for exchange in exchanges {
        fits = visible.fits(*exchange);
        visible.pass(*exchange)?;
    }
    Ok(fits)
}

/// The text of the spool that is given for these exchanges, if it explains them.
fn explaining_text(
    alloc: Global,
    choice: Choice,
    exchanges: &[&Exchange<'_>],
) -> Result<Option<Vec<u8>>, AllocError> {
    let said = hear(alloc, exchanges)?;
    let Some(spool) = given_spool(alloc, choice, &said)? else {
        return Ok(None);
    };
    if count_permitted(alloc, &spool, choice.marks, exchanges)? < exchanges.len() {
        return Ok(None);
    }
    Ok(Some(text_of(alloc, &spool)?))
}
