//! The overviews that an answer lists (RFC 3977, sections 8.3 and 8.5).
ghost use Rattle.std.specs.Prelude.{◌≡◌, IfOk, map};
ghost use Rattle.std.specs.List.{AllByRecursion};
ghost use Rattle.nntp_wire.specs.Listing.{overviews_of};
ghost use Rattle.nntp_wire.specs.Inner.View.{overview_value};
ghost use Rattle.nntp_article.specs.Session.Machine.{overview_numbers};
ghost use Rattle.nntp_article.specs.Inner.Fields.{TellsWords};

use nntp_wire::{Block, OverviewLine};
use std::alloc::{AllocError, Allocator, Global};
use std::marker::Model;

/// The overviews that an answer lists, in the order of their lines. What they tell of headers are words of lines that hold
/// neither NUL, CR nor LF (RFC 3977, sections 8.3 and 8.5).
#[derive(Drop)]
pub struct ListedOverviews<'a, A: Allocator = Global> {
    /// The number of each.
    numbers: Vec<u64, A>,
    overviews: Vec<OverviewLine<'a>, A>,
}

impl<'a, A: Allocator> Model for ListedOverviews<'a, A> {
    ghost use Rattle.std.specs.Prelude.{◌≡◌, List, map};
    ghost use Rattle.std.specs.List.{AllByRecursion};
    ghost use Rattle.nntp_wire.specs.Listing.{OverviewValue};
    ghost use Rattle.nntp_wire.specs.Inner.View.{overview_value};
    ghost use Rattle.nntp_article.specs.Session.Machine.{overview_numbers};
    ghost use Rattle.nntp_article.specs.Inner.Fields.{TellsWords};

    ghost Value = { List OverviewValue };

    ghost view = { λ l. map overview_value l.overviews.items };

    ghost invariant = { λ l. (l.numbers.items ≡ overview_numbers (map overview_value l.overviews.items))
        × AllByRecursion TellsWords (map overview_value l.overviews.items) };
}

impl<'a, A: Allocator + Copy> ListedOverviews<'a, A> {
    /// Reads the overviews that the lines are.
    pub(crate) fn of(alloc: A, block: &Block<'a>) -> Result<ListedOverviews<'a, A>, AllocError>
        ensures { IfOk result (λ listed. listed ≡ overviews_of block.now) }
    {
        let overviews = overviews_in(alloc, block)?;
        let numbers = numbers_of(alloc, &overviews)?;
        Ok(ListedOverviews { numbers, overviews })
    }
}

impl<'a, A: Allocator> ListedOverviews<'a, A> {
    /// Returns the number of each.
    pub fn numbers(&self) -> &[u64]
        ensures { result.now ≡ overview_numbers self.now }
    {
        &self.numbers
    }

    /// Returns the overviews.
    pub fn overviews(&self) -> &[OverviewLine<'a>]
        ensures overviews { map overview_value result.now ≡ self.now }
        ensures words { AllByRecursion TellsWords self.now }
    {
        &self.overviews
    }
}

/// Collects the overviews that the lines are.
fn overviews_in<'a, A: Allocator + Copy>(
    alloc: A,
    block: &Block<'a>,
) -> Result<Vec<OverviewLine<'a>, A>, AllocError>
    ensures overviews { IfOk result (λ overviews. map overview_value overviews.items ≡ overviews_of block.now) }
    ensures words { IfOk result (λ overviews. AllByRecursion TellsWords (map overview_value overviews.items)) }
{
    let mut overviews = Vec::new(alloc);
    for overview in block.overviews() {
        overviews.push(overview)?;
    }
    Ok(overviews)
}

/// Collects the numbers of overviews.
fn numbers_of<A: Allocator + Copy>(
    alloc: A,
    overviews: &[OverviewLine<'_>],
) -> Result<Vec<u64, A>, AllocError>
    ensures { IfOk result (λ numbers. numbers.items ≡ overview_numbers (map overview_value overviews.now)) }
{
    let mut numbers = Vec::new(alloc);
    for overview in overviews {
        numbers.push(overview.number)?;
    }
    Ok(numbers)
}
