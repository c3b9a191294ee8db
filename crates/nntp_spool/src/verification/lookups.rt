//! The lookups in the numbers of a group that tell whether they meet what an answer asks.
ghost use Rattle.std.specs.Prelude.{◌≡◌, ℕ, ◌≤◌, ◌↔◌, [], true, IsTrue, MatchOption, IfSome, Some};
ghost use Rattle.std.specs.FinMap as map;
ghost use Rattle.nntp_article.specs.Session.Spool.{IsNumber, IsNextAbove, IsNextBelow, NoneAbove, NoneBelow, Lists};
ghost use Rattle.nntp_article.specs.Session.Machine.{AreEnds, Bound, is_ascending};
ghost use Rattle.nntp_said.specs.Asks.{Meets, current_in};
ghost use Rattle.nntp_said.specs.Inner.FactView.{ask_of};
ghost use Rattle.nntp_spool.specs.Inner.ListedNumbers.{IsNextFrom, ListsFrom};
ghost use Rattle.nntp_spool.specs.Inner.Sessions.{AsksThese};

use nntp_article::session::laws::first_is_least;
use nntp_said::{Ask, Position};
use nntp_store::Numbers;
use nntp_wire::{Marks, Range, WaterMarks};
use std::alloc::Allocator;

/// Tells whether the numbers meet what is asked; `listed` are the numbers that the answer lists.
/// Where a step is asked, the number to which that leads, and the id there, are kept in `entry`.
pub(crate) fn meet<'s, S: Allocator>(
    numbers: &'s Numbers<S>,
    ask: &Ask<'_>,
    listed: &[u64],
    entry: &mut Option<(u64, &'s str)>,
) -> bool
    requires listed { AsksThese listed.now (ask_of ask.now) }
    requires entry { IfSome entry.old (λ e. map.get numbers.now e.0 ≡ Some e.1.now) }
    ensures meet { IsTrue result ↔ Meets numbers.now (ask_of ask.now) }
    ensures entry { IfSome entry.new (λ e. map.get numbers.now e.0 ≡ Some e.1.now) }
{
    match *ask {
        Ask::Estimates { how, marks } => is_bound(numbers, how, marks),
        Ask::Bounds { low, high } => is_between(numbers, low, high),
        Ask::Lists { range, .. } => lists(numbers, range, listed),
        Ask::Lacks(number) => numbers.id(number).is_none(),
        Ask::StandsAt(at, number) => current(numbers, at) == Some(number),
        Ask::StandsNowhere(at) => current(numbers, at).is_none(),
        Ask::StepsUp(at, number) => leads(above(numbers, at), number, entry),
        Ask::StepsDown(at, number) => leads(below(numbers, at), number, entry),
        Ask::IsTop(at) => current(numbers, at).is_some() && above(numbers, at).is_none(),
        Ask::IsBottom(at) => current(numbers, at).is_some() && below(numbers, at).is_none(),
    }
}

/// Returns the current article at a position.
fn current<S: Allocator>(numbers: &Numbers<S>, at: Position) -> Option<u64>
    ensures { result ≡ current_in numbers.now at }
{
    first_is_least();
    match at {
        Position::Nowhere => None,
        Position::First => numbers.least(),
        Position::Known(number) => Some(number),
    }
}

/// Returns the number above the current article, and the id there.
fn above<S: Allocator>(numbers: &Numbers<S>, at: Position) -> Option<(u64, &str)>
    ensures { MatchOption (current_in numbers.now at) (result ≡ None) (λ c. MatchOption result (NoneAbove numbers.now c)
        (λ next. IsNextAbove numbers.now c next.0 × (map.get numbers.now next.0 ≡ Some next.1.now))) }
{
    numbers.next_above(current(numbers, at)?)
}

/// Returns the number below the current article, and the id there.
fn below<S: Allocator>(numbers: &Numbers<S>, at: Position) -> Option<(u64, &str)>
    ensures { MatchOption (current_in numbers.now at) (result ≡ None) (λ c. MatchOption result (NoneBelow numbers.now c)
        (λ next. IsNextBelow numbers.now c next.0 × (map.get numbers.now next.0 ≡ Some next.1.now))) }
{
    numbers.next_below(current(numbers, at)?)
}

/// Tells whether there are at most as many numbers as estimated, all between the marks, and
/// both marks are numbers where they have to be.
fn is_bound<S: Allocator>(numbers: &Numbers<S>, how: Marks, marks: WaterMarks) -> bool
    ensures { IsTrue result ↔ Bound how numbers.now marks }
{
    numbers.len() as u64 <= marks.estimate
        && is_between(numbers, marks.low, marks.high)
        && has_ends(numbers, how, marks)
}

/// Tells whether both marks are numbers, where they are read strictly and there is a number.
fn has_ends<S: Allocator>(numbers: &Numbers<S>, how: Marks, marks: WaterMarks) -> bool
    ensures { IsTrue result ↔ AreEnds how numbers.now marks }
{
    match how {
        Marks::Lenient => true,
        Marks::Strict => match numbers.least() {
            Some(_) => numbers.id(marks.low).is_some() && numbers.id(marks.high).is_some(),
            None => true,
        },
    }
}

/// Tells whether each number is between the marks.
pub(crate) fn is_between<S: Allocator>(numbers: &Numbers<S>, low: u64, high: u64) -> bool
    ensures { IsTrue result ↔ ((n : ℕ) → IsNumber numbers.now n → (low ≤ n) × (n ≤ high)) }
{
    match (numbers.least(), numbers.greatest()) {
        (Some(least), Some(greatest)) => low <= least && greatest <= high,
        _ => true,
    }
}

/// Returns the least number above this one, or the least of all where none is given.
fn next_from<S: Allocator>(numbers: &Numbers<S>, before: Option<u64>) -> Option<u64>
    ensures { IsNextFrom numbers.now before result }
{
    match before {
        Some(number) => match numbers.next_above(number) {
            Some((above, _)) => Some(above),
            None => None,
        },
        None => numbers.least(),
    }
}

/// Tells whether the numbers within the range are the listed ones.
fn lists<S: Allocator>(numbers: &Numbers<S>, range: Range, listed: &[u64]) -> bool
    requires { is_ascending listed.now ≡ true }
    ensures { IsTrue result ↔ Lists numbers.now range listed.now }
{
    // There is none before 0.
    let mut before = range.first.checked_sub(1);
    for number in listed {
        if !is_next_within(numbers, range, before, *number) {
            return false;
        }
        before = Some(*number);
    }
    has_none_within(numbers, range, before)
}

/// Tells whether the number is the next one, and not above the range.
fn is_next_within<S: Allocator>(
    numbers: &Numbers<S>,
    range: Range,
    before: Option<u64>,
    number: u64,
) -> bool
    ensures { IsTrue result ↔ (IsNextFrom numbers.now before (Some number) × IfSome range.last (λ last. number ≤ last)) }
{
    next_from(numbers, before) == Some(number) && is_up_to(range.last, number)
}

/// Tells whether the next number, if there is one, is above the range.
fn has_none_within<S: Allocator>(numbers: &Numbers<S>, range: Range, before: Option<u64>) -> bool
    ensures { IsTrue result ↔ ListsFrom numbers.now range before [] }
{
    match next_from(numbers, before) {
        Some(number) => !is_up_to(range.last, number),
        None => true,
    }
}

/// Tells whether a step leads to this number, and keeps where it leads.
fn leads<'s>(found: Option<(u64, &'s str)>, number: u64, entry: &mut Option<(u64, &'s str)>) -> bool
    ensures leads { IsTrue result ↔ MatchOption found.entry ⊥ (λ next. next.0 ≡ number) }
    ensures entry { entry.new ≡ found.entry }
{
    *entry = found;
    match found {
        Some((next, _)) => next == number,
        None => false,
    }
}

/// Tells whether the number is at most the last one, if there is a last one.
fn is_up_to(last: Option<u64>, number: u64) -> bool
    ensures { IsTrue result ↔ IfSome last (λ last. number ≤ last) }
{
    match last {
        Some(last) => number <= last,
        None => true,
    }
}
