//! What an answer says about the point of a conflict, as `explain` prints it.
ghost use Rattle.std.specs.Prelude.{◌≡◌, ◌++◌, ◌<◌, ◌-◌, ◌^◌, None, IfSome, OnOk, length, option_map};
ghost use Rattle.std.specs.List.{list_any};
ghost use Rattle.nntp_wire.specs.Listing.{active_groups, overviews_of};
ghost use Rattle.nntp_article.specs.Session.Machine.{is_same};
ghost use Rattle.nntp_said.specs.Facts.{ThereIs, ThereIsNo, Asks, IdAt, TextIs, NoArticle, FieldsAre, OverviewsAre, GroupsAre};
ghost use Rattle.nntp_said.specs.Inner.FactView.{ask_of, fact_of};
ghost use Rattle.nntp_facts.specs.{Inner.PointView.{point_of}, Standing.{stands_of}};
ghost use Rattle.nntp_theory.specs.Conflict as points;
ghost use Rattle.nntp_explain.specs.Says.{groups_line, said_lines, says};

use crate::ask::with_or_without;
use crate::said_fields::{put_head_field, put_overview_field};
use crate::said_numbers::{is_same, put_asked, put_bounds, put_id_line, put_numbered};
use crate::said_overviews::{has_overview_of, put_overview_at, put_overview_of};
use crate::said_parts::{body_of, head_of, put_part};
use nntp_facts::{Ask, Fact, NumberLines, Placed, Point};
use nntp_printing::{put_escaped_line, put_number};
use nntp_wire::{Block, GroupName, Marks, Range, What, Wildmat, matches_if_given};
use std::alloc::{AllocError, Allocator};

/// What is told of an answer: what it says about this point.
#[derive(Drop)]
pub(crate) struct About<'p> {
    /// The point.
    pub(crate) point: Point<'p>,
    /// The line that is told of a head or a body, if one is. It counts from 0.
    pub(crate) line: Option<usize>,
}

/// Adds what an answer says about the point, a line for each thing that it says.
pub(crate) fn put_said<A: Allocator + Copy>(
    text: &mut Vec<u8, A>,
    how: Marks,
    about: &About<'_>,
    answer: &Placed<'_>,
) -> Result<(), AllocError>
    requires { IfSome about.now.line (λ place. place < 2 ^ 64 - 1) }
    ensures { OnOk result (text.new.items ≡ text.old.items ++ said_lines how about.now.line (point_of about.now.point) (stands_of answer.now)) }
{
    for fact in answer.facts(how) {
        put_fact(text, about, &fact)?;
    }
    Ok(())
}

/// Adds what a fact says about the point.
fn put_fact<A: Allocator + Copy>(
    text: &mut Vec<u8, A>,
    about: &About<'_>,
    fact: &Fact<'_>,
) -> Result<(), AllocError>
    requires { IfSome about.now.line (λ place. place < 2 ^ 64 - 1) }
    ensures { OnOk result (text.new.items ≡ text.old.items ++ says about.now.line (point_of about.now.point) (fact_of fact.now)) }
{
    match fact {
        Fact::ThereIs(name) => put_there_is(text, about, name.as_slice()),
        Fact::ThereIsNo(name) => put_there_is_no(text, about, *name),
        Fact::Asks(name, ask) => put_ask(text, about, *name, ask),
        Fact::IdAt(name, number, id) => put_id_at(text, about, *name, *number, id.as_bytes()),
        Fact::TextIs { what, id, block } => {
            put_text_is(text, about, *what, id.as_bytes(), *block)
        }
        Fact::NoArticle(id) => put_no_article(text, about, *id),
        Fact::FieldsAre { block } => put_fields(text, about, *block),
        Fact::OverviewsAre { name, range, block } => {
            put_overviews(text, about, *name, *range, *block)
        }
        Fact::GroupsAre { wildmat, block } => put_groups(text, about, *wildmat, *block),
    }
}

/// Adds that there is such a group.
fn put_there_is<A: Allocator + Copy>(
    text: &mut Vec<u8, A>,
    about: &About<'_>,
    name: &[u8],
) -> Result<(), AllocError>
    ensures { OnOk result (text.new.items ≡ text.old.items ++ says about.now.line (point_of about.now.point) (ThereIs name.now)) }
{
    match &about.point {
        Point::Group(group) if is_same(name, group.as_slice()) => {
            put_escaped_line(text, b"says group ", name)
        }
        _ => Ok(()),
    }
}

/// Adds that there is no such group.
fn put_there_is_no<A: Allocator + Copy>(
    text: &mut Vec<u8, A>,
    about: &About<'_>,
    name: &[u8],
) -> Result<(), AllocError>
    ensures { OnOk result (text.new.items ≡ text.old.items ++ says about.now.line (point_of about.now.point) (ThereIsNo name.now)) }
{
    match &about.point {
        Point::Group(group) if is_same(name, group.as_slice()) => {
            put_escaped_line(text, b"says no group ", name)
        }
        _ => Ok(()),
    }
}

/// Adds what is asked of the numbers of a group.
fn put_ask<A: Allocator + Copy>(
    text: &mut Vec<u8, A>,
    about: &About<'_>,
    name: &[u8],
    ask: &Ask<'_>,
) -> Result<(), AllocError>
    ensures { OnOk result (text.new.items ≡ text.old.items ++ says about.now.line (point_of about.now.point) (Asks name.now (ask_of ask.now))) }
{
    match &about.point {
        Point::Step(group) | Point::Count(group) | Point::First(group) => {
            put_asked(text, *group, None, name, ask)
        }
        Point::Number {
            name: group,
            number,
        } => put_asked(text, *group, Some(*number), name, ask),
        _ => Ok(()),
    }
}

/// Adds that a number of a group has an id.
fn put_id_at<A: Allocator + Copy>(
    text: &mut Vec<u8, A>,
    about: &About<'_>,
    name: &[u8],
    number: u64,
    id: &[u8],
) -> Result<(), AllocError>
    ensures { OnOk result (text.new.items ≡ text.old.items ++ says about.now.line (point_of about.now.point) (IdAt name.now number id.now)) }
{
    match &about.point {
        Point::Step(group) | Point::Count(group) | Point::First(group) => {
            put_numbered(text, *group, None, name, number, id)
        }
        Point::Number {
            name: group,
            number: other,
        } => put_numbered(text, *group, Some(*other), name, number, id),
        Point::IdOf {
            name: group,
            number: other,
        } if is_same(name, *group) && number == *other => put_id_line(text, *group, *other, id),
        Point::PlaceOf {
            name: group,
            id: other,
        } if is_same(name, *group) && is_same(id, *other) => put_id_line(
            text, *group, number, *other,
        ),
        Point::Article(other) if is_same(id, *other) => put_id_line(text, name, number, id),
        _ => Ok(()),
    }
}

/// Adds what the overviews of a range say.
fn put_overviews<A: Allocator + Copy>(
    text: &mut Vec<u8, A>,
    about: &About<'_>,
    name: &[u8],
    range: Range,
    block: &Block<'_>,
) -> Result<(), AllocError>
    ensures { OnOk result (text.new.items ≡ text.old.items
        ++ says about.now.line (point_of about.now.point) (OverviewsAre name.now range (overviews_of block.now))) }
{
    match &about.point {
        Point::IdOf {
            name: group,
            number,
        } if is_same(name, *group) => put_overview_at(text, *group, *number, block),
        Point::PlaceOf { name: group, id } if is_same(name, *group) => {
            put_overview_of(text, *group, *id, block)
        }
        Point::Article(id) => put_overview_of(text, name, *id, block),
        Point::FieldOf { id, field } => put_overview_field(text, *id, *field, block),
        _ => {
            let lines = NumberLines::Overviews(block);
            put_ask(text, about, name, &Ask::Lists { range, lines })
        }
    }
}

/// Adds what is sent of the article of an id: of a head or a body the line at the place, or what the head tells of a header.
fn put_text_is<A: Allocator + Copy>(
    text: &mut Vec<u8, A>,
    about: &About<'_>,
    what: What,
    id: &[u8],
    block: Option<&Block<'_>>,
) -> Result<(), AllocError>
    requires { IfSome about.now.line (λ place. place < 2 ^ 64 - 1) }
    ensures { OnOk result (text.new.items
        ≡ text.old.items ++ says about.now.line (point_of about.now.point) (TextIs what id.now (option_map (λ b. b.now) block.entry))) }
{
    match &about.point {
        Point::Article(other) if is_same(id, *other) => {
            put_escaped_line(text, b"says article ", id)
        }
        Point::HeadOf(other) if is_same(id, *other) => {
            put_part(text, b"head", *other, about.line, &head_of(what, block))
        }
        Point::BodyOf(other) if is_same(id, *other) => {
            put_part(text, b"body", *other, about.line, &body_of(what, block))
        }
        Point::FieldOf { id: other, field } if is_same(id, *other) => {
            put_head_field(text, *other, *field, &head_of(what, block))
        }
        _ => Ok(()),
    }
}

/// Adds that an id has no article.
fn put_no_article<A: Allocator + Copy>(
    text: &mut Vec<u8, A>,
    about: &About<'_>,
    id: &[u8],
) -> Result<(), AllocError>
    ensures { OnOk result (text.new.items ≡ text.old.items ++ says about.now.line (point_of about.now.point) (NoArticle id.now)) }
{
    match &about.point {
        Point::Article(other) if is_same(id, *other) => {
            put_escaped_line(text, b"says no article ", id)
        }
        _ => Ok(()),
    }
}

/// Adds what overviews tell of their articles.
fn put_fields<A: Allocator + Copy>(
    text: &mut Vec<u8, A>,
    about: &About<'_>,
    block: &Block<'_>,
) -> Result<(), AllocError>
    ensures { OnOk result (text.new.items ≡ text.old.items
        ++ says about.now.line (point_of about.now.point) (FieldsAre (overviews_of block.now))) }
{
    match &about.point {
        Point::Article(id) if has_overview_of(block, *id) => {
            put_escaped_line(text, b"says article ", *id)
        }
        Point::FieldOf { id, field } => put_overview_field(text, *id, *field, block),
        _ => Ok(()),
    }
}

/// Adds what a list of groups says.
fn put_groups<A: Allocator + Copy>(
    text: &mut Vec<u8, A>,
    about: &About<'_>,
    wildmat: &Option<Wildmat<'_>>,
    block: &Block<'_>,
) -> Result<(), AllocError>
    ensures { OnOk result (text.new.items ≡ text.old.items
        ++ says about.now.line (point_of about.now.point) (GroupsAre wildmat.now (active_groups block.now))) }
{
    match &about.point {
        Point::Group(name) => put_group_listed(text, name, wildmat, block),
        Point::Step(group) | Point::Count(group) | Point::First(group) => {
            put_bounds(text, *group, None, block)
        }
        Point::Number {
            name: group,
            number,
        } => put_bounds(text, *group, Some(*number), block),
        _ => Ok(()),
    }
}

/// Adds whether a group is listed, where it is or the wildmat matches it.
fn put_group_listed<A: Allocator + Copy>(
    text: &mut Vec<u8, A>,
    name: &GroupName<'_>,
    wildmat: &Option<Wildmat<'_>>,
    block: &Block<'_>,
) -> Result<(), AllocError>
    ensures { OnOk result (text.new.items ≡ text.old.items ++ says None (points.Group name.now) (GroupsAre wildmat.now (active_groups block.now))) }
{
    let is_listed = lists_group(block, name.as_slice());
    if is_listed || matches_if_given(wildmat, name) {
        put_groups_line(text, name.as_slice(), block, is_listed)
    } else {
        Ok(())
    }
}

/// Adds the line of groups that are listed, and whether this is one of them.
fn put_groups_line<A: Allocator + Copy>(
    text: &mut Vec<u8, A>,
    name: &[u8],
    block: &Block<'_>,
    is_listed: bool,
) -> Result<(), AllocError>
    ensures { OnOk result (text.new.items ≡ text.old.items ++ groups_line name.now (active_groups block.now) is_listed) }
{
    put_number(text, b"says groups are ", count_of(block))?;
    put_escaped_line(text, with_or_without(is_listed), name)
}

/// Returns how many groups the lines list.
fn count_of(block: &Block<'_>) -> u64
    ensures { result ≡ length (active_groups block.now) }
{
    block.groups().count() as u64
}

/// Tells whether a group is listed.
fn lists_group(block: &Block<'_>, name: &[u8]) -> bool
    ensures { result ≡ list_any (λ line. is_same line.name name.now) (active_groups block.now) }
{
    for line in block.groups() {
        if is_same(line.name.as_slice(), name) {
            return true;
        }
    }
    false
}
