//! The intervals that ascending numbers leave of a range.
ghost use Rattle.std.specs.{Prelude.{◌≡◌, ℕ, true, false, ◌||◌, IsTrue, OnOk, ◌↔◌, Some}, Iterator.{YieldsFirst, item_count}};
ghost use Rattle.nntp_intervals.specs.Inner.Intervals.{holds};
ghost use Rattle.nntp_numbers.specs.Inner.Summary.{has, gaps};

use crate::number_set::NumberSet;
use nntp_intervals::IntervalSet;
use std::alloc::{AllocError, Allocator};
use std::marker::Model;

/// An iterator over the intervals of a range before, between and behind ascending numbers, some of
/// them empty.
#[derive(Drop)]
pub(crate) struct Gaps<'a> {
    /// The number at which the next interval begins, if there is one.
    pub(crate) start: Option<u64>,
    /// The last number of the range.
    pub(crate) last: u64,
    /// The numbers that aren't passed yet.
    pub(crate) numbers: &'a [u64],
}

impl<'a> Model for Gaps<'a> {
    ghost use Rattle.std.specs.Prelude.{List, ℕ};

    ghost Value = { List (ℕ × ℕ) };

    ghost use Rattle.nntp_numbers.specs.Inner.Summary.{gaps};

    ghost view = { λ g. gaps g.start g.last g.numbers.now };
}

impl<'a> Iterator for Gaps<'a> {
    type Item = (u64, u64);

    ghost next_gives = { YieldsFirst (λ gaps. gaps) };

    ghost remaining = { item_count (λ gaps. gaps) };

    fn next(&mut self) -> Option<(u64, u64)> {
        let start = self.start?;
        match self.numbers.split_first() {
            Some((n, rest)) => {
                self.start = n.checked_add(1);
                self.numbers = rest;
                Some((start, n.saturating_sub(1)))
            }
            None => {
                self.start = None;
                Some((start, self.last))
            }
        }
    }
}

/// Tells whether no shown number is in one of the intervals.
pub(crate) fn none_in_gaps<A: Allocator>(shown: &NumberSet<A>, mut gaps: Gaps<'_>) -> bool
    ensures { IsTrue result ↔ ((n : ℕ) → has shown.now n ≡ true → holds gaps.entry n ≡ false) }
{
    while let Some((first, last)) = gaps.next() {
        if shown.meets(first, last) {
            return false;
        }
    }
    true
}

/// Adds the numbers of the intervals.
pub(crate) fn deny_gaps<A: Allocator + Copy>(
    denied: &mut IntervalSet<A>,
    mut gaps: Gaps<'_>,
) -> Result<(), AllocError>
    ensures { OnOk result ((n : ℕ) → holds denied.new n ≡ (holds denied.old n || holds gaps.entry n)) }
{
    while let Some((first, last)) = gaps.next() {
        if first <= last {
            denied.insert(first, last)?;
        }
    }
    Ok(())
}
