//! The first number that is free, which no answer denies.
ghost use Rattle.std.specs.{Prelude.{◌≡◌, ℕ, nat_lt, ◌^◌, ◌<◌, ◌≤◌, ◌⊎◌, ◌↔◌, ◌||◌, true, false, max, [], IsTrue}, List.{list_all}};
ghost use Rattle.nntp_intervals.specs.Inner.Intervals.{holds};
ghost use Rattle.nntp_numbers.specs.Inner.{Part.{IsRegular}, PartView.{said}, Summary.{denied_after, is_open, FirstFreeBelow}};

use crate::numbers_part::NumbersPart;
use nntp_intervals::IntervalSet;
use std::alloc::Allocator;

impl<'s> NumbersPart<'s> {
    /// Returns the first free number after the part, where no number of the part is denied: the
    /// first of these, if what is free without them is in their interval.
    pub(crate) fn first_free<A: Allocator>(&self, denied: &IntervalSet<A>) -> Option<u64>
        ensures { IsRegular (said self.now) → IsTrue (list_all (is_open denied.now (said self.now)) self.now.numbers.now)
            → FirstFreeBelow (denied_after denied.now (said self.now)) result }
    {
        let start = self.low.max(1);
        match self.numbers.first() {
            Some(n) => Some(free_before(denied, start, self.first, *n)),
            None => self.first_free_outside(denied, start),
        }
    }

    /// Returns the first free number from `start` on that is outside the interval.
    fn first_free_outside<A: Allocator>(&self, denied: &IntervalSet<A>, start: u64) -> Option<u64>
        ensures { self.now.numbers.now ≡ [] → start ≡ max self.now.low 1 → FirstFreeBelow (denied_after denied.now (said self.now)) result }
    {
        let free = denied.least_free_from(start)?;
        let free = if self.first <= free && free <= self.last {
            denied.least_free_from(self.last.checked_add(1)?)?
        } else {
            free
        };
        if free <= self.high { Some(free) } else { None }
    }
}

/// Returns the first free number from `start` on, if it is below `first`, and else `n`.
fn free_before<A: Allocator>(denied: &IntervalSet<A>, start: u64, first: u64, n: u64) -> u64
    ensures kind { (result < first) ⊎ (result ≡ n) }
    ensures from { start ≤ n → start ≤ result }
    ensures free { holds denied.now n ≡ false → holds denied.now result ≡ false }
    ensures before { (m : ℕ) → start ≤ m → m < result → m < first → holds denied.now m ≡ true }
    ensures up { first ≤ n → result ≤ n }
{
    match denied.least_free_from(start) {
        Some(free) if free < first => free,
        _ => n,
    }
}

/// Tells whether each number that isn't between the marks is denied.
pub(crate) fn denies_outside<A: Allocator>(denied: &IntervalSet<A>, low: u64, high: u64) -> bool
    ensures { IsTrue result ↔ ((n : ℕ) → n < 2 ^ 64 → (nat_lt n low || nat_lt high n) ≡ true → holds denied.now n ≡ true) }
{
    denies_below(denied, low) && denies_above(denied, high)
}

/// Tells whether each number below `low` is denied.
fn denies_below<A: Allocator>(denied: &IntervalSet<A>, low: u64) -> bool
    ensures { IsTrue result ↔ ((n : ℕ) → n < low → holds denied.now n ≡ true) }
{
    match denied.least_free_from(0) {
        Some(free) => low <= free,
        None => true,
    }
}

/// Tells whether each number above `high` is denied.
fn denies_above<A: Allocator>(denied: &IntervalSet<A>, high: u64) -> bool
    ensures { IsTrue result ↔ ((n : ℕ) → n < 2 ^ 64 → high < n → holds denied.now n ≡ true) }
{
    match high.checked_add(1) {
        Some(next) => denied.least_free_from(next).is_none(),
        None => true,
    }
}
