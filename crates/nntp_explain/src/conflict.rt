//! What a bad answer and accepted ones conflict about, as `explain` prints it.
ghost use Rattle.std.specs.Prelude.{◌≡◌, ◌++◌, ◌<◌, ◌-◌, ◌^◌, [], IfSome, OnOk, slice_get};
ghost use Rattle.std.specs.List.{flat_map};
ghost use Rattle.std.specs.Option.{option_map_or};
ghost use Rattle.nntp_wire.specs.Inner.AnswerView.{response};
ghost use Rattle.nntp_wire.specs.Inner.View.{asked};
ghost use Rattle.nntp_facts.specs.{Inner.PointView.{point_of}, Standing.{stands_of}};
ghost use Rattle.nntp_explain.specs.Says.{conflict_lines, first_part, part_at, part_sent, reason_lines, said_lines, told_line};

use crate::reasons::{put_about, put_because_at, put_rest};
use crate::said_numbers::is_same;
use crate::said_parts::{body_of, first_difference, head_of};
use crate::says::{About, put_said};
use nntp_facts::{Core, Placed, Point};
use nntp_wire::{Answer, Block, Command, Marks, Prompt};
use std::alloc::{AllocError, Allocator};

/// Adds what a bad answer and the accepted ones of a core conflict about, and what each of them says about it; where the
/// core is cut short, that others are below. `answers` are the accepted ones; `here` is the session of the bad one.
pub(crate) fn put_conflict<A: Allocator + Copy>(
    text: &mut Vec<u8, A>,
    here: u64,
    how: Marks,
    point: Point<'_>,
    bad: &Placed<'_>,
    answers: &[Placed<'_>],
    core: &Core<A>,
) -> Result<(), AllocError>
    ensures { OnOk result (text.new.items ≡ text.old.items
        ++ conflict_lines here how (point_of point.entry) (stands_of bad.now) answers.now core.now) }
{
    put_about(text, &point)?;
    let line = told_line(&point, bad, answers, core.places());
    let about = About { point, line };
    put_said(text, how, &about, bad)?;
    put_rest(text, here, answers, core.rest())?;
    put_reasons(text, here, how, &about, answers, core.places())
}

/// Adds the answers at the places as reasons, one after the other, and what each says about the point.
fn put_reasons<A: Allocator + Copy>(
    text: &mut Vec<u8, A>,
    here: u64,
    how: Marks,
    about: &About<'_>,
    answers: &[Placed<'_>],
    places: &[usize],
) -> Result<(), AllocError>
    requires { IfSome about.now.line (λ place. place < 2 ^ 64 - 1) }
    ensures { OnOk result (text.new.items ≡ text.old.items
        ++ flat_map (reason_lines here how about.now.line (point_of about.now.point) answers.now) places.now) }
{
    for place in places {
        put_reason(text, here, how, about, answers, *place)?;
    }
    Ok(())
}

/// Adds the answer at a place as a reason, and what it says about the point.
fn put_reason<A: Allocator + Copy>(
    text: &mut Vec<u8, A>,
    here: u64,
    how: Marks,
    about: &About<'_>,
    answers: &[Placed<'_>],
    place: usize,
) -> Result<(), AllocError>
    requires { IfSome about.now.line (λ place. place < 2 ^ 64 - 1) }
    ensures { OnOk result (text.new.items ≡ text.old.items
        ++ reason_lines here how about.now.line (point_of about.now.point) answers.now place) }
{
    put_because_at(text, here, answers, place)?;
    put_said_at(text, how, about, answers, place)
}

/// Adds what the answer at a place says about the point, if one is there.
fn put_said_at<A: Allocator + Copy>(
    text: &mut Vec<u8, A>,
    how: Marks,
    about: &About<'_>,
    answers: &[Placed<'_>],
    place: usize,
) -> Result<(), AllocError>
    requires { IfSome about.now.line (λ place. place < 2 ^ 64 - 1) }
    ensures { OnOk result (text.new.items ≡ text.old.items
        ++ option_map_or (λ a. said_lines how about.now.line (point_of about.now.point) (stands_of a)) (slice_get answers.now place) []) }
{
    match answers.get(place) {
        Some(answer) => put_said(text, how, about, answer),
        None => Ok(()),
    }
}

/// The place of the line that is told of a head or a body: the first in which those differ that the bad answer and the
/// first of the others send.
fn told_line(
    point: &Point<'_>,
    bad: &Placed<'_>,
    answers: &[Placed<'_>],
    places: &[usize],
) -> Option<usize>
    ensures line { result ≡ told_line (point_of point.now) (stands_of bad.now) answers.now places.now }
    ensures small { IfSome result (λ place. place < 2 ^ 64 - 1) }
{
    match (part_sent(point, bad), first_part(point, answers, places)) {
        (Some(this), Some(other)) => first_difference(&this, &other),
        _ => None,
    }
}

/// The first head or body that the answers at the places send.
fn first_part<'a>(point: &Point<'_>, answers: &[Placed<'a>], places: &[usize]) -> Option<Block<'a>>
    ensures { result ≡ first_part (point_of point.now) answers.now places.now }
{
    for place in places {
        let part = part_at(point, answers, *place);
        if part.is_some() {
            return part;
        }
    }
    None
}

/// The head or the body that the answer at a place sends.
fn part_at<'a>(point: &Point<'_>, answers: &[Placed<'a>], place: usize) -> Option<Block<'a>>
    ensures { result ≡ part_at (point_of point.now) answers.now place }
{
    match answers.get(place) {
        Some(answer) => part_sent(point, answer),
        None => None,
    }
}

/// The head or the body that an answer sends, at a point that is about one.
fn part_sent<'a>(point: &Point<'_>, answer: &Placed<'a>) -> Option<Block<'a>>
    ensures { result ≡ part_sent (point_of point.now) (stands_of answer.now).asked (stands_of answer.now).response }
{
    match (answer.prompt(), answer.answer()) {
        (
            Prompt::To(Command::Retrieve { what, .. }),
            Answer::Sent {
                code: _,
                number: _,
                id,
                block,
            },
        ) => match point {
            Point::HeadOf(other) if is_same(id.as_slice(), *other) => head_of(
                *what,
                block.as_ref(),
            ),
            Point::BodyOf(other) if is_same(id.as_slice(), *other) => body_of(
                *what,
                block.as_ref(),
            ),
            _ => None,
        },
        _ => None,
    }
}
