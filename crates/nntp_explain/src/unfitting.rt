//! Why an answer doesn't fit, as `explain` prints it, with the answer that made the state.
ghost use Rattle.std.specs.Prelude.{◌≡◌, ◌++◌, [], OnOk};
ghost use Rattle.std.specs.Option.{option_map_or};
ghost use Rattle.nntp_wire.specs.Inner.AnswerView.{response};
ghost use Rattle.nntp_article.specs.Inner.MisfitView.{why_if};
ghost use Rattle.nntp_explain.specs.Reasons.{gives_low, giver_lines, low_giver, unfitting_lines};

use crate::reasons::{put_because_at, put_misfit};
use nntp_article::Misfit;
use nntp_facts::Placed;
use nntp_wire::Answer;
use std::alloc::{AllocError, Allocator};

/// Adds why an answer of the session `here` doesn't fit behind these of that session, if it doesn't.
pub(crate) fn put_unfitting<A: Allocator + Copy>(
    text: &mut Vec<u8, A>,
    here: u64,
    answers: &[Placed<'_>],
    answer: &Answer<'_>,
    reason: Option<Misfit<'_>>,
) -> Result<(), AllocError>
    ensures { OnOk result (text.new.items ≡ text.old.items
        ++ option_map_or (unfitting_lines here answers.now (response answer.now)) (why_if reason.entry) []) }
{
    match reason {
        Some(Misfit::BelowLow(low)) => {
            put_misfit(text, Misfit::BelowLow(low))?;
            put_giver(text, here, answers, answer, low)
        }
        Some(misfit) => put_misfit(text, misfit),
        None => Ok(()),
    }
}

/// Adds the answer that gave the group of a 211 this low mark.
fn put_giver<A: Allocator + Copy>(
    text: &mut Vec<u8, A>,
    here: u64,
    answers: &[Placed<'_>],
    answer: &Answer<'_>,
    low: u64,
) -> Result<(), AllocError>
    ensures { OnOk result (text.new.items ≡ text.old.items ++ giver_lines here answers.now (response answer.now) low) }
{
    let giver = match answer {
        Answer::Group { name, .. } | Answer::Numbers { name, .. } => {
            low_giver(answers, name.as_slice(), low)
        }
        _ => None,
    };
    match giver {
        Some(place) => put_because_at(text, here, answers, place),
        None => Ok(()),
    }
}

/// The place of the first answer that gave the group this low mark (RFC 3977, section 6.1.1.2).
fn low_giver(answers: &[Placed<'_>], name: &[u8], low: u64) -> Option<usize>
    ensures { result ≡ low_giver name.now low answers.now }
{
    for (place, answer) in answers.iter().enumerate() {
        if gives_low(answer.answer(), name, low) {
            return Some(place);
        }
    }
    None
}

/// Tells whether an answer gives the group this low mark.
fn gives_low(answer: &Answer<'_>, group: &[u8], low: u64) -> bool
    ensures { result ≡ gives_low group.now low (response answer.now) }
{
    match answer {
        Answer::Group { marks, name } | Answer::Numbers { marks, name, .. } => {
            name.as_slice() == group && marks.low == low
        }
        _ => false,
    }
}
