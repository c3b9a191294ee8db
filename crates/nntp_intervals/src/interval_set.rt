//! The set of numbers, and the questions that it answers.
ghost use Rattle.std.specs.Prelude.{◌≡◌, ℕ, ◌||◌, ◌↔◌, [], IfSome, IsTrue, IfOk, OnOk, OnErr, MatchOption};
ghost use Rattle.nntp_intervals.specs.Inner.Intervals.{holds, is_between, IsLeastFree, IsFullFrom, Meets};
ghost use Rattle.nntp_intervals.specs.Inner.Outside.{outside, is_outside};

use crate::intervals::Intervals;
use std::alloc::{AllocError, Allocator, Global};
use std::marker::Model;

/// A set of numbers of 64 bits, kept as few intervals. As long as it has those alone that aren't
/// between two marks, it takes no memory.
///
/// Each operation takes time logarithmic in the number of intervals; `insert` does so on average
/// over the insertions so far, since it may join intervals that these added.
#[derive(Drop)]
pub struct IntervalSet<A: Allocator = Global> {
    /// Each number below it is in the set.
    low: u64,
    /// Each number above it is in the set.
    high: u64,
    /// The other numbers of the set. Once there are some, the marks stay as they are.
    others: Intervals<A>,
}

impl<A: Allocator> Model for IntervalSet<A> {
    ghost use Rattle.std.specs.Prelude.{List, ℕ, ◌++◌};
    ghost use Rattle.nntp_intervals.specs.Inner.Outside.{outside};

    ghost Value = { List (ℕ × ℕ) };

    ghost view = { λ a. a.others ++ outside a.low a.high };
}

impl<A: Allocator + Copy> IntervalSet<A> {
    /// Creates the empty set. It takes memory from `alloc`, but none before the first insertion.
    pub fn new(alloc: A) -> IntervalSet<A>
        ensures { result ≡ [] }
    {
        IntervalSet::outside(alloc, 0, u64::MAX)
    }

    /// Creates the set of the numbers below `low` and of those above `high`. It takes no memory.
    pub fn outside(alloc: A, low: u64, high: u64) -> IntervalSet<A>
        ensures { result ≡ outside low high }
    {
        IntervalSet {
            low,
            high,
            others: Intervals::new(alloc),
        }
    }

    /// Returns a set of the same numbers.
    ///
    /// # Errors
    ///
    /// If memory is refused.
    pub fn copy(&self) -> Result<IntervalSet<A>, AllocError>
        ensures { IfOk result (λ set. set ≡ self.now) }
    {
        Ok(IntervalSet {
            low: self.low,
            high: self.high,
            others: self.others.copy()?,
        })
    }

    /// Adds the numbers from `first` to `last`, both included. It adds none where `last` is below
    /// `first`.
    ///
    /// # Errors
    ///
    /// [`AllocError`], if memory is refused. The set stays as it was.
    pub fn insert(&mut self, first: u64, last: u64) -> Result<(), AllocError>
        ensures ok { OnOk result ((n : ℕ) → holds self.new n ≡ (holds self.old n || is_between first last n)) }
        ensures err { OnErr result (self.new ≡ self.old) }
    {
        if last < self.low || self.high < first {
            return Ok(());
        }
        if self.others.is_empty() {
            if let Some((low, high)) = marks_after(self.low, self.high, first, last) {
                self.low = low;
                self.high = high;
                return Ok(());
            }
        }
        self.others.insert(first, last)
    }
}

impl<A: Allocator> IntervalSet<A> {
    /// Tells whether the number is in the set.
    pub fn contains(&self, n: u64) -> bool
        ensures { result ≡ holds self.now n }
    {
        n < self.low || self.high < n || self.others.contains(n)
    }

    /// Returns the least number from `n` on that isn't in the set, or `None` if each number of 64
    /// bits from `n` on is in it.
    pub fn least_free_from(&self, n: u64) -> Option<u64>
        ensures { MatchOption result (IsFullFrom self.now n) (IsLeastFree self.now n) }
    {
        match self.others.least_free_from(n.max(self.low)) {
            Some(free) if free <= self.high => Some(free),
            _ => None,
        }
    }

    /// Tells whether some number from `first` to `last`, both included, is in the set.
    pub fn meets(&self, first: u64, last: u64) -> bool
        ensures { IsTrue result ↔ Meets self.now first last }
    {
        first <= last && (first < self.low || self.high < last || self.others.meets(first, last))
    }

    /// Returns the two marks, if the set has only numbers that aren't between them.
    pub fn marks(&self) -> Option<(u64, u64)>
        ensures { IfSome result (λ marks. self.now ≡ outside marks.0 marks.1) }
    {
        if self.others.is_empty() {
            Some((self.low, self.high))
        } else {
            None
        }
    }
}

/// Returns the marks that the numbers from `first` to `last` aren't between either, if the numbers
/// between those and the ones before are these alone.
fn marks_after(low: u64, high: u64, first: u64, last: u64) -> Option<(u64, u64)>
    ensures { IfSome result (λ marks. (n : ℕ) → is_outside marks.0 marks.1 n ≡ (is_outside low high n || is_between first last n)) }
{
    if first <= low && last < u64::MAX {
        Some((low.max(last + 1), high))
    } else if high <= last && 0 < first {
        Some((low, high.min(first - 1)))
    } else {
        None
    }
}
