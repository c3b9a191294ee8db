//! The parts of a spool's text, read line by line.
ghost use Rattle.std.specs.Prelude.{◌≡◌, true, false, IfOk, IfErr};
ghost use Rattle.nntp_store.specs.Inner.Reading.{Gives};
ghost use Rattle.nntp_store.specs.Reading.{barred_line_at, barred_lines_at, number_in, number_at, numbers_at, group_at};
ghost use Rattle.nntp_store.specs.Reading.{article_at, item_at, items_at, end_at, content_at, wide_at, limit_at, spool_at};
ghost use Rattle.nntp_store.specs.Inner.ReadingView.{place_shown, turn_shown, turn_of};
ghost use Rattle.nntp_content.specs.Content.{no_spool};
ghost use Rattle.nntp_store.specs.Limited.{LimitedSpool, IsWithinLimit};
ghost use Rattle.nntp_store.specs.Text.{spool_text};
ghost use Rattle.nntp_store.specs.Inner.Faults.{IsFault};

use crate::text::fields::{article_number, fault, next_line, number_and_id, opening_of, unbarred};
use crate::text::place::{Opening, Place, Turn};
use crate::text::read_fault::{Kind, ReadError, ReadFault};
use crate::value::Spool;
use crate::value::well_formed::{id_of, is_block_head_of, name_of};
use nntp_content::{Content, Gathered, Numbers};
use nntp_wire::{Limit, OwnedBlock};
use std::alloc::Allocator;
use std::mem;

/// The lines of the article that is read, in memory that is kept from one to the next.
#[derive(Drop)]
struct ArticleLines<T: Allocator> {
    head: OwnedBlock<T>,
    body: OwnedBlock<T>,
}

/// Reads one more line of an article.
#[tactic(auto, unfolding(crate::specs::Reading::barred_line_at))]
fn barred_line_at<'a, T: Allocator + Copy>(
    lines: &mut OwnedBlock<T>,
    place: Place<'a>,
) -> Result<Place<'a>, ReadError>
    ensures { Gives (λ next. (lines.new, place_shown next)) result (barred_line_at (lines.old, place_shown place.entry)) }
{
    let (line, next) = next_line(place)?;
    let Some(content) = unbarred(line) else {
        return Err(fault(place.line, Kind::Shape));
    };
    lines.push(content)?;
    Ok(next)
}

/// Reads so many lines of an article, in the place of those that were read before.
fn barred_lines_at<'a, T: Allocator + Copy>(
    lines: &mut OwnedBlock<T>,
    count: u64,
    place: Place<'a>,
) -> Result<Place<'a>, ReadError>
    ensures { Gives (λ next. (lines.new, place_shown next)) result (barred_lines_at count (place_shown place.entry)) }
{
    lines.clear();
    let mut rest = place;
    for _ in 0..count {
        rest = barred_line_at(lines, rest)?;
    }
    Ok(rest)
}

/// Reads the number and the id of a line.
#[tactic(auto, unfolding(crate::specs::Reading::number_in))]
fn number_in(limit: u64, at: u64, line: &[u8]) -> Result<(u64, &str), ReadError>
    ensures { Gives (λ x. (x.0, x.1.now)) result (number_in limit at line.now) }
{
    let Some(line) = number_and_id(line) else {
        return Err(fault(at, Kind::Shape));
    };
    let Some(number) = article_number(limit, line) else {
        return Err(fault(at, Kind::Number));
    };
    let Some(id) = id_of(line.id) else {
        return Err(fault(at, Kind::Id));
    };
    Ok((number, id))
}

/// Reads one more number of a group.
#[tactic(auto, unfolding(crate::specs::Reading::number_at))]
fn number_at<'a, A: Allocator + Copy>(
    alloc: A,
    limit: u64,
    numbers: &mut Numbers<A>,
    place: Place<'a>,
) -> Result<Place<'a>, ReadError>
    ensures { Gives (λ next. (numbers.new, place_shown next)) result (number_at limit (numbers.old, place_shown place.entry)) }
{
    let (line, next) = next_line(place)?;
    let (number, id) = number_in(limit, place.line, line)?;
    if !numbers.is_after(number) {
        return Err(fault(place.line, Kind::Order));
    }
    if !numbers.insert(alloc, number, id)? {
        return Err(fault(place.line, Kind::DuplicateId));
    }
    Ok(next)
}

/// Reads the numbers of a group.
fn numbers_at<A: Allocator + Copy>(
    alloc: A,
    limit: u64,
    count: u64,
    place: Place<'_>,
) -> Result<(Numbers<A>, Place<'_>), ReadError>
    ensures { Gives (λ x. (x.0, place_shown x.1)) result (numbers_at limit count (place_shown place.entry)) }
{
    let mut numbers = Numbers::new(alloc);
    let mut rest = place;
    for _ in 0..count {
        rest = number_at(alloc, limit, &mut numbers, rest)?;
    }
    Ok((numbers, rest))
}

/// Reads a group, behind its first line.
#[tactic(auto, unfolding(crate::specs::Reading::group_at))]
fn group_at<'a, A: Allocator + Copy, T: Allocator + Copy>(
    alloc: A,
    limit: u64,
    line: u64,
    name: &[u8],
    count: u64,
    gathered: &mut Gathered<A, T>,
    place: Place<'a>,
) -> Result<Turn<'a, A>, ReadError>
    ensures { Gives (turn_shown gathered.new) result (turn_of false (group_at limit line name.now count gathered.old (place_shown place.entry))) }
{
    let Some(name) = name_of(name) else {
        return Err(fault(line, Kind::Name));
    };
    if !gathered.is_after_groups(name) {
        return Err(fault(line, Kind::Order));
    }
    let (numbers, next) = numbers_at(alloc, limit, count, place)?;
    gathered.add_group(alloc, name, numbers)?;
    Ok(Turn::On {
        articles: false,
        place: next,
    })
}

/// Reads an article, behind its first line.
#[tactic(auto, unfolding(crate::specs::Reading::article_at))]
fn article_at<'a, A: Allocator + Copy, T: Allocator + Copy>(
    alloc: A,
    line: u64,
    id: &[u8],
    heads: u64,
    bodies: u64,
    gathered: &mut Gathered<A, T>,
    lines: &mut ArticleLines<T>,
    place: Place<'a>,
) -> Result<Turn<'a, A>, ReadError>
    ensures { Gives (turn_shown gathered.new) result (turn_of true (article_at line id.now heads bodies gathered.old (place_shown place.entry))) }
{
    let Some(id) = id_of(id) else {
        return Err(fault(line, Kind::Id));
    };
    if !gathered.is_after_articles(id) {
        return Err(fault(line, Kind::Order));
    }
    let next = barred_lines_at(&mut lines.head, heads, place)?;
    let next = barred_lines_at(&mut lines.body, bodies, next)?;
    if !is_block_head_of(id, &lines.head) {
        return Err(fault(line, Kind::Head));
    }
    gathered.add_article(alloc, id, &lines.head, &lines.body)?;
    Ok(Turn::On {
        articles: true,
        place: next,
    })
}

/// Reads the end, behind its line. What was gathered is taken.
fn ends_at<'a, A: Allocator + Copy, T: Allocator + Copy>(
    alloc: A,
    scratch: T,
    line: u64,
    gathered: &mut Gathered<A, T>,
    place: Place<'a>,
) -> Result<Turn<'a, A>, ReadError>
    ensures { Gives (turn_shown gathered.new) result (end_at line gathered.old (place_shown place.entry)) }
{
    let content = mem::replace(gathered, Gathered::new(alloc, scratch)).into_content(alloc)?;
    if content.has_articles() {
        Ok(Turn::Done { content, place })
    } else {
        Err(fault(line, Kind::UnknownId))
    }
}

/// Reads a group, an article or the end.
#[tactic(auto, unfolding(crate::specs::Reading::item_at))]
fn item_at<'a, A: Allocator + Copy, T: Allocator + Copy>(
    alloc: A,
    scratch: T,
    limit: u64,
    articles: bool,
    gathered: &mut Gathered<A, T>,
    lines: &mut ArticleLines<T>,
    place: Place<'a>,
) -> Result<Turn<'a, A>, ReadError>
    ensures { Gives (turn_shown gathered.new) result (item_at limit articles gathered.old (place_shown place.entry)) }
{
    let (line, next) = next_line(place)?;
    let Some(opening) = opening_of(line) else {
        return Err(fault(place.line, Kind::Shape));
    };
    match opening {
        Opening::Group { name, count } => {
            if articles {
                return Err(fault(place.line, Kind::Shape));
            }
            group_at(alloc, limit, place.line, name, count, gathered, next)
        }
        Opening::Article { id, heads, bodies } => {
            article_at(alloc, place.line, id, heads, bodies, gathered, lines, next)
        }
        Opening::End => ends_at(alloc, scratch, place.line, gathered, next),
    }
}

/// Reads all groups and articles, up to the end.
fn items_at<'a, A: Allocator + Copy, T: Allocator + Copy>(
    alloc: A,
    scratch: T,
    limit: u64,
    most: u64,
    gathered: &mut Gathered<A, T>,
    lines: &mut ArticleLines<T>,
    place: Place<'a>,
) -> Result<(Content<A>, Place<'a>), ReadError>
    ensures { Gives (λ x. (x.0, place_shown x.1)) result (items_at limit most false gathered.old (place_shown place.entry)) }
{
    let mut articles = false;
    let mut rest = place;
    for _ in 0..most {
        match item_at(alloc, scratch, limit, articles, gathered, lines, rest)? {
            Turn::On {
                articles: behind,
                place,
            } => {
                articles = behind;
                rest = place;
            }
            Turn::Done { content, place } => return Ok((content, place)),
        }
    }
    Err(fault(rest.line, Kind::Shape))
}

/// Reads all groups and articles, up to the end of the text, where none is gathered yet.
#[tactic(auto, using(crate::proofs::SplitLines::ended), unfolding(crate::specs::Reading::content_at))]
fn items_to_end<A: Allocator + Copy, T: Allocator + Copy>(
    alloc: A,
    scratch: T,
    limit: u64,
    most: u64,
    gathered: &mut Gathered<A, T>,
    lines: &mut ArticleLines<T>,
    place: Place<'_>,
) -> Result<Content<A>, ReadError>
    requires { gathered.old ≡ no_spool }
    ensures { Gives (λ content. content) result (content_at limit most (place_shown place.entry)) }
{
    let (content, end) = items_at(alloc, scratch, limit, most, gathered, lines, place)?;
    if !end.rest.is_empty() {
        return Err(fault(end.line, Kind::Shape));
    }
    Ok(content)
}

/// Reads all groups and articles, behind the lines of the limit.
fn content_at<A: Allocator + Copy, T: Allocator + Copy>(
    alloc: A,
    scratch: T,
    limit: u64,
    most: u64,
    place: Place<'_>,
) -> Result<Content<A>, ReadError>
    ensures { Gives (λ content. content) result (content_at limit most (place_shown place.entry)) }
{
    let mut gathered = Gathered::new(alloc, scratch);
    let mut lines = ArticleLines {
        head: OwnedBlock::new(scratch),
        body: OwnedBlock::new(scratch),
    };
    // Both are lent, and so dropped at one exit alone: the check goes through the drops of each.
    items_to_end(
        alloc,
        scratch,
        limit,
        most,
        &mut gathered,
        &mut lines,
        place,
    )
}

/// Reads the second line of a text whose limit is the wide one.
#[tactic(auto, unfolding(crate::specs::Reading::wide_at))]
fn wide_at(place: Place<'_>) -> Result<(Limit, Place<'_>), ReadError>
    ensures { Gives (λ x. (x.0, place_shown x.1)) result (wide_at (place_shown place.entry)) }
{
    let (line, next) = next_line(place)?;
    if line == b"limit 9999999999999999".as_slice() {
        Ok((Limit::Wide, next))
    } else {
        Err(fault(place.line, Kind::Shape))
    }
}

/// Reads the limit, and returns it with the place behind its lines.
#[tactic(auto, unfolding(crate::specs::Reading::limit_at))]
fn limit_at(place: Place<'_>) -> Result<(Limit, Place<'_>), ReadError>
    ensures { Gives (λ x. (x.0, place_shown x.1)) result (limit_at (place_shown place.entry)) }
{
    let (line, next) = next_line(place)?;
    if line == b"spool 1".as_slice() {
        Ok((Limit::Narrow, next))
    } else if line == b"spool 2".as_slice() {
        wide_at(next)
    } else {
        Err(fault(place.line, Kind::Shape))
    }
}

/// Reads a whole text: the limit, and all groups and articles.
#[tactic(auto, unfolding(crate::specs::Reading::spool_at))]
fn parts_of_text<A: Allocator + Copy, T: Allocator + Copy>(
    alloc: A,
    scratch: T,
    octets: &[u8],
) -> Result<(Limit, Content<A>), ReadError>
    ensures { Gives (λ x. record { limit = x.0; spool = x.1 }) result (spool_at octets.now) }
{
    let start = Place {
        line: 1,
        rest: octets,
    };
    let (limit, rest) = limit_at(start)?;
    let content = content_at(alloc, scratch, limit.value(), octets.len() as u64, rest)?;
    Ok((limit, content))
}

impl<A: Allocator + Copy> Spool<A> {
    /// Reads the spool whose text the octets are. No memory is taken on the word of a count alone.
    ///
    /// # Errors
    ///
    /// A [`ReadFault`], if the octets are the text of no spool: it is their first fault, told of a
    /// line that counts from 1. If memory is refused, it is [`Kind::Memory`], told of line 0.
    pub fn read(alloc: A, octets: &[u8]) -> Result<Spool<A>, ReadFault>
        ensures spool { IfOk result (λ spool. octets.now ≡ spool_text spool) }
        ensures same { (L : LimitedSpool) → IsWithinLimit L → octets.now ≡ spool_text L → IfOk result (λ spool. spool ≡ L) }
        ensures fault { IfErr result (λ fault. IsFault octets.now fault) }
    {
        Spool::read_with(alloc, alloc, octets)
    }

    /// Reads the spool whose text the octets are as [`Spool::read`] does. What isn't kept in the spool is taken of
    /// `scratch`, and given back.
    ///
    /// # Errors
    ///
    /// Those of [`Spool::read`].
    pub fn read_with<T: Allocator + Copy>(
        alloc: A,
        scratch: T,
        octets: &[u8],
    ) -> Result<Spool<A>, ReadFault>
        ensures spool { IfOk result (λ spool. octets.now ≡ spool_text spool) }
        ensures same { (L : LimitedSpool) → IsWithinLimit L → octets.now ≡ spool_text L → IfOk result (λ spool. spool ≡ L) }
        ensures fault { IfErr result (λ fault. IsFault octets.now fault) }
    {
        match parts_of_text(alloc, scratch, octets) {
            Ok((limit, content)) => Ok(Spool::new(limit, content)),
            Err(ReadError::Fault(fault)) => Err(fault),
            Err(ReadError::Memory) => Err(ReadFault {
                line: 0,
                kind: Kind::Memory,
            }),
        }
    }
}
