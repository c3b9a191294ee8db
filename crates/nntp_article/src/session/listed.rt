//! What an answer lists (RFC 3977, sections 6.1.2, 7.6.3 and 8.3).
ghost use Rattle.std.specs.Prelude.{◌≡◌, IfOk, map};
ghost use Rattle.std.specs.List.{AllByRecursion};
ghost use Rattle.nntp_wire.specs.Listing.{active_groups, listed_numbers};
ghost use Rattle.nntp_wire.specs.Inner.View.{active_value, overview_value};
ghost use Rattle.nntp_wire.specs.Inner.AnswerView.{response};
ghost use Rattle.nntp_article.specs.Inner.Fields.{TellsWords};
ghost use Rattle.nntp_article.specs.Inner.Listed.{lists, lists_of};

use crate::session::listed_overviews::ListedOverviews;
use nntp_wire::{ActiveLine, Answer, Block, OverviewLine};
use std::alloc::{AllocError, Allocator, Global};

/// What an answer lists, which is of one kind at most.
#[derive(Drop)]
pub enum Listed<'a, A: Allocator = Global> {
    /// Nothing, as most answers do.
    Nothing,
    /// The numbers of a 211 to LISTGROUP (RFC 3977, section 6.1.2).
    Numbers(Vec<u64, A>),
    /// The groups of a 215 to LIST ACTIVE (RFC 3977, section 7.6.3).
    Groups(Vec<ActiveLine<'a>, A>),
    /// The overviews of a 224 to OVER or XOVER, a 225 to HDR or a 221 to XHDR (RFC 3977, sections 8.3 and 8.5).
    Overviews(ListedOverviews<'a, A>),
}

impl<'a, A: Allocator + Copy> Listed<'a, A> {
    /// Reads what an answer lists. Where it lists nothing, no memory is taken.
    ///
    /// # Errors
    ///
    /// If memory is refused.
    pub fn of(alloc: A, answer: &Answer<'a>) -> Result<Listed<'a, A>, AllocError>
        ensures { IfOk result (λ listed. lists listed ≡ lists_of (response answer.now)) }
    {
        match answer {
            Answer::Numbers { block, .. } => Ok(Listed::Numbers(numbers_in(alloc, block)?)),
            Answer::Active(block) => Ok(Listed::Groups(groups_in(alloc, block)?)),
            Answer::Overviews(block) => Ok(Listed::Overviews(ListedOverviews::of(alloc, block)?)),
            _ => Ok(Listed::Nothing),
        }
    }
}

impl<'a, A: Allocator> Listed<'a, A> {
    /// The numbers that are listed, by themselves or with overviews.
    pub fn numbers(&self) -> &[u64]
        ensures { result.now ≡ (lists self.now).numbers }
    {
        match self {
            Listed::Numbers(numbers) => numbers,
            Listed::Overviews(listed) => listed.numbers(),
            _ => &[],
        }
    }

    /// The groups that are listed.
    pub fn groups(&self) -> &[ActiveLine<'a>]
        ensures { map active_value result.now ≡ (lists self.now).groups }
    {
        match self {
            Listed::Groups(groups) => groups,
            _ => &[],
        }
    }

    /// The overviews that are listed. What they tell of headers are words of lines that hold neither NUL, CR nor LF.
    pub fn overviews(&self) -> &[OverviewLine<'a>]
        ensures overviews { map overview_value result.now ≡ (lists self.now).overviews }
        ensures words { AllByRecursion TellsWords (lists self.now).overviews }
    {
        match self {
            Listed::Overviews(listed) => listed.overviews(),
            _ => &[],
        }
    }
}

/// Collects the numbers that the lines are.
fn numbers_in<A: Allocator + Copy>(alloc: A, block: &Block<'_>) -> Result<Vec<u64, A>, AllocError>
    ensures { IfOk result (λ numbers. numbers.items ≡ listed_numbers block.now) }
{
    let mut numbers = Vec::new(alloc);
    for number in block.numbers() {
        numbers.push(number)?;
    }
    Ok(numbers)
}

/// Collects the groups that the lines report.
fn groups_in<'a, A: Allocator + Copy>(
    alloc: A,
    block: &Block<'a>,
) -> Result<Vec<ActiveLine<'a>, A>, AllocError>
    ensures { IfOk result (λ groups. map active_value groups.items ≡ active_groups block.now) }
{
    let mut groups = Vec::new(alloc);
    for group in block.groups() {
        groups.push(group)?;
    }
    Ok(groups)
}
