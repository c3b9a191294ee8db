//! Sets of article numbers.
ghost use Rattle.std.specs.Prelude.{◌≡◌, ℕ, ◌+◌, ◌^◌, ◌<◌, ◌↔◌, ◌&&◌, ◌||◌, ◌==◌, nat_lt, true, false, length, [], IsTrue, IfOk, OnOk, OnErr};
ghost use Rattle.std.specs.{Ordering.{nat_cmp}, List.Sorted.{IsStrictlySortedBy}};
ghost use Rattle.nntp_intervals.specs.Inner.Intervals.{is_between};
ghost use Rattle.nntp_numbers.specs.Inner.Summary.{has, shown_after, PassSoMany};

use crate::ascending_numbers::AscendingNumbers;
use crate::ends::{self, Ends};
use crate::shown::HowMany;
use std::alloc::{AllocError, Allocator, Global};
use std::collections::BTreeSet;
use std::marker::Model;
use std::ops::Bound;

/// A set of article numbers. One or two take no memory.
#[derive(Drop)]
pub(crate) struct NumberSet<A: Allocator = Global> {
    /// The least and the greatest number, if there are any.
    ends: Option<Ends>,
    /// The numbers between these.
    between: BTreeSet<u64, A>,
}

impl<A: Allocator> Model for NumberSet<A> {
    ghost use Rattle.std.specs.Prelude.{List, ℕ};
    ghost use Rattle.nntp_numbers.specs.Inner.NumberSets.{numbers_in, AreBetween};

    ghost Value = { List ℕ };

    ghost view = { λ s. numbers_in s.ends s.between.keys };

    ghost invariant = { λ s. AreBetween s.ends s.between.keys };
}

impl<A: Allocator + Copy> NumberSet<A> {
    /// Creates the empty set.
    pub(crate) fn new(alloc: A) -> NumberSet<A>
        ensures { result ≡ [] }
    {
        NumberSet {
            ends: None,
            between: BTreeSet::new(alloc),
        }
    }

    /// Returns a set of the same numbers.
    ///
    /// # Errors
    ///
    /// If memory is refused.
    pub(crate) fn copy(&self) -> Result<NumberSet<A>, AllocError>
        ensures { IfOk result (λ set. set ≡ self.now) }
    {
        Ok(NumberSet {
            ends: self.ends,
            between: self.between.clone()?,
        })
    }

    /// Adds the number.
    ///
    /// # Errors
    ///
    /// If memory is refused. The set stays as it was.
    pub(crate) fn insert(&mut self, n: u64) -> Result<(), AllocError>
        ensures shown { OnOk result ((m : ℕ) → has self.new m ≡ (has self.old m || n == m)) }
        ensures ascends { OnOk result (IsStrictlySortedBy nat_cmp self.new) }
        ensures err { OnErr result (self.new ≡ self.old) }
    {
        let ends = ends::join(self.ends, Some(Ends { low: n, high: n }));
        if let Some(middle) = ends::brought_between(self.ends, n) {
            self.between.insert(middle)?;
        }
        self.ends = ends;
        Ok(())
    }

    /// Adds the numbers.
    pub(crate) fn insert_all(&mut self, numbers: &[u64]) -> Result<(), AllocError>
        ensures shown { OnOk result ((n : ℕ) → has self.new n ≡ shown_after self.old numbers.now n) }
        ensures ascends { OnOk result (IsStrictlySortedBy nat_cmp self.old → IsStrictlySortedBy nat_cmp self.new) }
    {
        for n in numbers {
            self.insert(*n)?;
        }
        Ok(())
    }
}

impl<A: Allocator> NumberSet<A> {
    /// Tells whether the set is empty.
    pub(crate) fn is_empty(&self) -> bool
        ensures { IsTrue result ↔ (length self.now ≡ 0) }
    {
        self.ends.is_none()
    }

    /// Returns how many numbers there are.
    #[tactic(auto, using(crate::proofs::NumberSets::opened_ascend))]
    pub(crate) fn len(&self) -> usize
        ensures len { result ≡ length self.now }
        ensures small { result < 2 ^ 63 + 2 }
        ensures ascends { IsStrictlySortedBy nat_cmp self.now }
    {
        match self.ends {
            None => 0,
            Some(ends) if ends.low == ends.high => 1,
            Some(_) => self.between.len() + 2,
        }
    }

    /// Tells whether the number is in the set. Sessions ascend, so the greatest one is tried first.
    pub(crate) fn contains(&self, n: u64) -> bool
        ensures { result ≡ has self.now n }
    {
        match self.ends {
            Some(ends) if ends.high <= n => ends.high == n,
            Some(ends) => ends.low == n || self.between.contains(&n),
            None => false,
        }
    }

    /// Tells whether a number of the set is from `first` to `last`.
    pub(crate) fn meets(&self, first: u64, last: u64) -> bool
        ensures { result ≡ false ↔ ((n : ℕ) → has self.now n ≡ true → is_between first last n ≡ false) }
    {
        match self.ends {
            Some(ends) => {
                is_between(first, last, ends.low)
                    || is_between(first, last, ends.high)
                    || has_between(&self.between, first, last)
            }
            None => false,
        }
    }

    /// Tells whether all numbers of the set are between the marks.
    pub(crate) fn none_outside(&self, low: u64, high: u64) -> bool
        ensures { IsTrue result ↔ ((n : ℕ) → has self.now n ≡ true → (nat_lt n low || nat_lt high n) ≡ false) }
    {
        match self.ends {
            Some(ends) => low <= ends.low && ends.high <= high,
            None => true,
        }
    }

    /// Counts the numbers.
    pub(crate) fn how_many(&self) -> HowMany
        ensures { PassSoMany (has self.now) result }
    {
        match self.ends {
            None => HowMany::Absent,
            Some(ends) if ends.low == ends.high => HowMany::Single,
            Some(_) => HowMany::Several,
        }
    }

    /// Counts the numbers below `k`.
    pub(crate) fn how_many_below(&self, k: u64) -> HowMany
        ensures { PassSoMany (λ n. has self.now n && nat_lt n k) result }
    {
        let Some(ends) = self.ends else {
            return HowMany::Absent;
        };
        // The number behind the least one, or this if it is alone.
        let second = self.between.first().copied().unwrap_or(ends.high);
        if k <= ends.low {
            HowMany::Absent
        } else if ends.low < second && second < k {
            HowMany::Several
        } else {
            HowMany::Single
        }
    }

    /// Returns the numbers, ascending.
    pub(crate) fn iter(&self) -> AscendingNumbers<'_>
        ensures { result ≡ self.now }
    {
        let (low, high) = match self.ends {
            Some(ends) if ends.low < ends.high => (Some(ends.low), Some(ends.high)),
            Some(ends) => (Some(ends.low), None),
            None => (None, None),
        };
        AscendingNumbers {
            low,
            between: self.between.iter(),
            high,
        }
    }
}

/// Tells whether one of the numbers is from `first` to `last`.
fn has_between<A: Allocator>(numbers: &BTreeSet<u64, A>, first: u64, last: u64) -> bool
    ensures { result ≡ false ↔ ((n : ℕ) → has numbers.now.keys n ≡ true → is_between first last n ≡ false) }
{
    first <= last
        && numbers
            .range((Bound::Included(first), Bound::Included(last)))
            .next()
            .is_some()
}

/// Tells whether the number is from `first` to `last`.
fn is_between(first: u64, last: u64, n: u64) -> bool
    ensures { result ≡ is_between first last n }
{
    first <= n && n <= last
}
