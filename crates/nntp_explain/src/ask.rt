//! One thing that an answer says of the numbers of a group, as `explain` prints it.
ghost use Rattle.std.specs.Prelude.{◌≡◌, ◌==◌, ◌++◌, None, true, OnOk, codes, decimal, length};
ghost use Rattle.std.specs.List.{list_any};
ghost use Rattle.std.specs.Option.{option_map_or};
ghost use Rattle.nntp_wire.specs.Listing.{listed_numbers, overviews_of};
ghost use Rattle.nntp_article.specs.Session.Machine.{is_in_range, overview_numbers};
ghost use Rattle.nntp_theory.specs.Given.{is_end};
ghost use Rattle.nntp_said.specs.Asks as asks;
ghost use Rattle.nntp_said.specs.Inner.FactView.{ask_of, numbers_listed};
ghost use Rattle.nntp_explain.specs.Says.{ask_text, ask_word, bears_on, current_place, current_word, listed_text, marks_text, place_text, range_text};
ghost use Rattle.nntp_explain.specs.Says.{with_or_without};

use crate::reasons::put_number_line;
use nntp_facts::{Ask, NumberLines, Position};
use nntp_printing::put_number;
use nntp_wire::{Block, Marks, Range, WaterMarks};
use std::alloc::{AllocError, Allocator};

/// The word that the line of an ask begins with.
pub(crate) fn ask_word(ask: &Ask<'_>) -> &'static [u8]
    ensures { result.now ≡ ask_word (ask_of ask.now) }
{
    match ask {
        Ask::Estimates { .. } | Ask::Bounds { .. } | Ask::Lists { .. } => b"numbers",
        Ask::Lacks(_) => b"number",
        Ask::StandsAt(at, _) => current_word(*at),
        Ask::StandsNowhere(at) => current_word(*at),
        Ask::StepsUp(_, _) | Ask::IsTop(_) => b"next",
        Ask::StepsDown(_, _) | Ask::IsBottom(_) => b"last",
    }
}

/// Tells whether an ask shows the number, denies it, or has it as a strict mark.
pub(crate) fn bears_on(ask: &Ask<'_>, number: u64) -> bool
    ensures { result ≡ bears_on (ask_of ask.now) number }
{
    match ask {
        Ask::Estimates { how, marks } => {
            number < marks.low || marks.high < number || is_end(*how, *marks, number)
        }
        Ask::Bounds { low, high } => number < *low || *high < number,
        Ask::Lists { range, lines } => lists(lines, number) || is_in_range(*range, number),
        Ask::Lacks(missing) => *missing == number,
        Ask::StandsAt(Position::First, first) => *first == number || number < *first,
        Ask::StandsNowhere(Position::First) => true,
        Ask::StandsAt(_, _) | Ask::StandsNowhere(_) => false,
        Ask::StepsUp(Position::Known(from), next) => {
            *next == number || (*from < number && number < *next)
        }
        Ask::StepsDown(Position::Known(from), last) => {
            *last == number || (*last < number && number < *from)
        }
        Ask::StepsUp(_, next) => *next == number,
        Ask::StepsDown(_, last) => *last == number,
        Ask::IsTop(Position::Known(from)) => *from < number,
        Ask::IsBottom(Position::Known(from)) => number < *from,
        Ask::IsTop(_) | Ask::IsBottom(_) => false,
    }
}

/// Adds what stands behind the name of the group.
pub(crate) fn put_ask_text<A: Allocator + Copy>(
    text: &mut Vec<u8, A>,
    ask: &Ask<'_>,
) -> Result<(), AllocError>
    ensures { OnOk result (text.new.items ≡ text.old.items ++ ask_text (ask_of ask.now)) }
{
    match ask {
        Ask::Estimates { how, marks } => {
            put_number(text, b" at most ", marks.estimate)?;
            put_marks(text, *how, marks.low, marks.high)
        }
        Ask::Bounds { low, high } => put_marks(text, Marks::Lenient, *low, *high),
        Ask::Lists { range, lines } => {
            put_range(text, *range)?;
            put_number(text, b" are ", count_of(lines))
        }
        Ask::Lacks(number) => {
            put_number(text, b" ", *number)?;
            put_found(text, None)
        }
        Ask::StandsAt(at, number) => put_current(text, *at, Some(*number)),
        Ask::StandsNowhere(at) => put_current(text, *at, None),
        Ask::StepsUp(at, number) | Ask::StepsDown(at, number) => put_step(text, *at, Some(*number)),
        Ask::IsTop(at) | Ask::IsBottom(at) => put_step(text, *at, None),
    }
}

/// Ends the line: about a number, with whether it is among those that are listed.
pub(crate) fn put_listed<A: Allocator + Copy>(
    text: &mut Vec<u8, A>,
    about: Option<u64>,
    ask: &Ask<'_>,
) -> Result<(), AllocError>
    ensures { OnOk result (text.new.items ≡ text.old.items ++ (listed_text about (ask_of ask.now) ++ codes "\n")) }
{
    match (about, ask) {
        (Some(number), Ask::Lists { lines, .. }) => {
            put_number_line(text, with_or_without(lists(lines, number)), number)
        }
        _ => text.extend_from_slice(b"\n"),
    }
}

/// Tells whether the number is a mark that is read strictly.
fn is_end(how: Marks, marks: WaterMarks, number: u64) -> bool
    ensures { result ≡ is_end (asks.Estimates how marks) number }
{
    match how {
        Marks::Lenient => false,
        Marks::Strict => marks.low == number || marks.high == number,
    }
}

/// Tells whether the number is one of those that are listed.
fn lists(lines: &NumberLines<'_>, number: u64) -> bool
    ensures { result ≡ list_any (λ m. number == m) (numbers_listed lines.now) }
{
    match lines {
        NumberLines::Nothing => false,
        NumberLines::Numbers(block) => has_number(*block, number),
        NumberLines::Overviews(block) => has_overview(*block, number),
    }
}

/// Tells whether the number is one of those that the lines are.
fn has_number(block: &Block<'_>, number: u64) -> bool
    ensures { result ≡ list_any (λ m. number == m) (listed_numbers block.now) }
{
    for listed in block.numbers() {
        if number == listed {
            return true;
        }
    }
    false
}

/// Tells whether one of the overviews that the lines are is that of the number.
fn has_overview(block: &Block<'_>, number: u64) -> bool
    ensures { result ≡ list_any (λ m. number == m) (overview_numbers (overviews_of block.now)) }
{
    for overview in block.overviews() {
        if number == overview.number {
            return true;
        }
    }
    false
}

/// Returns how many numbers are listed.
fn count_of(lines: &NumberLines<'_>) -> u64
    ensures { result ≡ length (numbers_listed lines.now) }
{
    match lines {
        NumberLines::Nothing => 0,
        NumberLines::Numbers(block) => block.numbers().count() as u64,
        NumberLines::Overviews(block) => count_overviews(*block),
    }
}

/// Returns how many overviews the lines are.
fn count_overviews(block: &Block<'_>) -> u64
    ensures { result ≡ length (overviews_of block.now) }
{
    block.overviews().count() as u64
}

/// Tells whether the range has the number.
fn is_in_range(range: Range, number: u64) -> bool
    ensures { result ≡ is_in_range range number }
{
    range.first <= number && range.last.is_none_or(|last| number <= last)
}

/// The words before a number that is listed, or isn't.
pub(crate) fn with_or_without(is_listed: bool) -> &'static [u8]
    ensures { result.now ≡ with_or_without is_listed }
{
    if is_listed { b" with " } else { b" without " }
}

/// The word for the current article.
fn current_word(at: Position) -> &'static [u8]
    ensures { result.now ≡ current_word at }
{
    match at {
        Position::Known(_) => b"current",
        Position::Nowhere | Position::First => b"first",
    }
}

/// Adds the number of the current article, if it is known.
fn put_current_place<A: Allocator + Copy>(
    text: &mut Vec<u8, A>,
    at: Position,
) -> Result<(), AllocError>
    ensures { OnOk result (text.new.items ≡ text.old.items ++ current_place at) }
{
    match at {
        Position::Known(number) => put_number(text, b" ", number),
        Position::Nowhere | Position::First => Ok(()),
    }
}

/// Adds the number of the current article, if it is known, and the one that it is, or that it is missing.
fn put_current<A: Allocator + Copy>(
    text: &mut Vec<u8, A>,
    at: Position,
    found: Option<u64>,
) -> Result<(), AllocError>
    ensures { OnOk result (text.new.items ≡ text.old.items
        ++ (current_place at ++ option_map_or (λ n. codes " is " ++ decimal n) found (codes " is missing"))) }
{
    put_current_place(text, at)?;
    put_found(text, found)
}

/// Adds what a step is taken from.
fn put_from<A: Allocator + Copy>(text: &mut Vec<u8, A>, at: Position) -> Result<(), AllocError>
    ensures { OnOk result (text.new.items ≡ text.old.items ++ codes " from " ++ place_text at) }
{
    match at {
        Position::Known(number) => put_number(text, b" from ", number),
        Position::Nowhere | Position::First => text.extend_from_slice(b" from first"),
    }
}

/// Adds where a step leads, if it leads anywhere.
fn put_step<A: Allocator + Copy>(
    text: &mut Vec<u8, A>,
    at: Position,
    found: Option<u64>,
) -> Result<(), AllocError>
    ensures { OnOk result (text.new.items ≡ text.old.items
        ++ (codes " from " ++ place_text at ++ option_map_or (λ n. codes " is " ++ decimal n) found (codes " is missing"))) }
{
    put_from(text, at)?;
    put_found(text, found)
}

/// Adds which number is found, or that none is.
fn put_found<A: Allocator + Copy>(
    text: &mut Vec<u8, A>,
    found: Option<u64>,
) -> Result<(), AllocError>
    ensures { OnOk result (text.new.items ≡ text.old.items ++ option_map_or (λ n. codes " is " ++ decimal n) found (codes " is missing")) }
{
    match found {
        Some(number) => put_number(text, b" is ", number),
        None => text.extend_from_slice(b" is missing"),
    }
}

/// Adds two marks.
fn put_marks<A: Allocator + Copy>(
    text: &mut Vec<u8, A>,
    how: Marks,
    low: u64,
    high: u64,
) -> Result<(), AllocError>
    ensures { OnOk result (text.new.items ≡ text.old.items ++ marks_text how low high) }
{
    match how {
        Marks::Lenient => put_two(text, b" within ", low, b"-", high),
        Marks::Strict => put_two(text, b" from ", low, b" to ", high),
    }
}

/// Adds two numbers, each behind a label.
fn put_two<A: Allocator + Copy>(
    text: &mut Vec<u8, A>,
    label: &[u8],
    number: u64,
    between: &[u8],
    other: u64,
) -> Result<(), AllocError>
    ensures { OnOk result (text.new.items ≡ text.old.items ++ label.now ++ decimal number ++ between.now ++ decimal other) }
{
    put_number(text, label, number)?;
    put_number(text, between, other)
}

/// Adds a range.
fn put_range<A: Allocator + Copy>(text: &mut Vec<u8, A>, range: Range) -> Result<(), AllocError>
    ensures { OnOk result (text.new.items ≡ text.old.items ++ codes " " ++ range_text range) }
{
    put_number(text, b" ", range.first)?;
    match range.last {
        Some(last) => put_number(text, b"-", last),
        None => text.extend_from_slice(b"-"),
    }
}
