//! Intervals of numbers, and the questions that they answer.
ghost use Rattle.std.specs.Prelude.{◌≡◌, ℕ, ◌||◌, ◌↔◌, [], if◌then◌else◌, IsSome, IsTrue, IfOk, OnOk, OnErr, MatchOption};
ghost use Rattle.std.specs.Ordering.{nat_cmp};
ghost use Rattle.std.specs.BTreeMap.{get, IsOrdered};
ghost use Rattle.nntp_intervals.specs.Inner.Intervals.{holds, is_between, IsLeastFree, IsFullFrom, Covers, Meets};
ghost use Rattle.nntp_intervals.specs.Inner.Neighbours.{IsLastUpTo, IsFreeUpTo, IsFirstJoined, IsLastJoined, is_within};

use std::alloc::{AllocError, Allocator, Global};
use std::collections::BTreeMap;
use std::marker::Model;
use std::ops::Bound;

/// A set of numbers of 64 bits, kept as few intervals: between two of them there is a number that
/// is not in the set.
///
/// Each operation takes time logarithmic in the number of intervals; `insert` does so on average
/// over the insertions so far, since it may join intervals that these added.
#[derive(Drop)]
pub(crate) struct Intervals<A: Allocator = Global> {
    /// The last number of each interval, looked up by its first number.
    lasts: BTreeMap<u64, u64, A>,
}

impl<A: Allocator> Model for Intervals<A> {
    ghost use Rattle.std.specs.Prelude.{List, ℕ};

    ghost Value = { List (ℕ × ℕ) };

    ghost view = { λ a. a.lasts.entries };

    ghost use Rattle.nntp_intervals.specs.Inner.Intervals.{AreApart};

    ghost invariant = { λ a. AreApart a.lasts.entries };
}

impl<A: Allocator + Copy> Intervals<A> {
    /// Creates the empty set. It takes memory from `alloc`, but none before the first insertion.
    pub(crate) fn new(alloc: A) -> Intervals<A>
        ensures { result ≡ [] }
    {
        Intervals {
            lasts: BTreeMap::new(alloc),
        }
    }

    /// Returns a set of the same numbers.
    ///
    /// # Errors
    ///
    /// If memory is refused.
    pub(crate) fn copy(&self) -> Result<Intervals<A>, AllocError>
        ensures { IfOk result (λ set. set ≡ self.now) }
    {
        Ok(Intervals {
            lasts: self.lasts.clone()?,
        })
    }

    /// Adds the numbers from `first` to `last`, both included. It adds none where `last` is below
    /// `first`.
    ///
    /// # Errors
    ///
    /// [`AllocError`], if memory is refused. The set stays as it was.
    pub(crate) fn insert(&mut self, first: u64, last: u64) -> Result<(), AllocError>
        ensures ok { OnOk result ((n : ℕ) → holds self.new n ≡ (holds self.old n || is_between first last n)) }
        ensures err { OnErr result (self.new ≡ self.old) }
    {
        if self.covers(first, last) {
            return Ok(());
        }
        let start = self.first_joined(first);
        let end = self.last_joined(last);
        self.lasts.insert(start, end)?;
        remove_within(&mut self.lasts, start, end);
        Ok(())
    }
}

impl<A: Allocator> Intervals<A> {
    /// Tells whether the set is empty.
    pub(crate) fn is_empty(&self) -> bool
        ensures { IsTrue result ↔ (self.now ≡ []) }
    {
        self.lasts.is_empty()
    }

    /// Tells whether the number is in the set.
    pub(crate) fn contains(&self, n: u64) -> bool
        ensures { result ≡ holds self.now n }
    {
        match self.last_up_to(n) {
            Some((_, last)) => n <= last,
            None => false,
        }
    }

    /// Returns the least number from `n` on that isn't in the set, or `None` if each number of 64
    /// bits from `n` on is in it.
    pub(crate) fn least_free_from(&self, n: u64) -> Option<u64>
        ensures { MatchOption result (IsFullFrom self.now n) (IsLeastFree self.now n) }
    {
        match self.last_up_to(n) {
            Some((_, last)) if n <= last => last.checked_add(1),
            _ => Some(n),
        }
    }

    /// Tells whether each number from `first` to `last`, both included, is in the set.
    fn covers(&self, first: u64, last: u64) -> bool
        ensures { IsTrue result ↔ Covers self.now first last }
    {
        match self.least_free_from(first) {
            Some(free) => last < free,
            None => true,
        }
    }

    /// Tells whether some number from `first` to `last`, both included, is in the set.
    pub(crate) fn meets(&self, first: u64, last: u64) -> bool
        ensures { IsTrue result ↔ Meets self.now first last }
    {
        match self.last_up_to(last) {
            Some((_, end)) => first <= last && first <= end,
            None => false,
        }
    }

    /// Returns the first and the last number of the last interval that begins at `n` or before it.
    fn last_up_to(&self, n: u64) -> Option<(u64, u64)>
        ensures { MatchOption result (IsFreeUpTo self.now n) (λ i. IsLastUpTo self.now n i.0 i.1) }
    {
        match self
            .lasts
            .range((Bound::Unbounded, Bound::Included(n)))
            .next_back()
        {
            Some((first, last)) => Some((*first, *last)),
            None => None,
        }
    }

    /// Returns the first number of the interval that numbers from `first` on become a part of.
    fn first_joined(&self, first: u64) -> u64
        ensures { IsFirstJoined self.now first result }
    {
        match self.last_up_to(first) {
            Some((start, end)) if first <= end.saturating_add(1) => start,
            _ => first,
        }
    }

    /// Returns the last number of the interval that numbers up to `last` become a part of.
    fn last_joined(&self, last: u64) -> u64
        ensures { IsLastJoined self.now last result }
    {
        match self.last_up_to(last.saturating_add(1)) {
            Some((_, end)) if last < end => end,
            _ => last,
        }
    }
}

/// Removes the intervals that begin behind `start` and not behind `end`.
fn remove_within<A: Allocator>(lasts: &mut BTreeMap<u64, u64, A>, start: u64, end: u64)
    ensures gone { (n : ℕ) → get nat_cmp lasts.new n ≡ (if is_within start end n then None else get nat_cmp lasts.old n) }
    ensures ordered { IsOrdered nat_cmp lasts.old → IsOrdered nat_cmp lasts.new }
{
    while let Some(first) = first_within(lasts, start, end) {
        lasts.remove(&first);
    }
}

/// Returns where the first interval begins that begins behind `start`, if it doesn't begin behind
/// `end`.
fn first_within<A: Allocator>(lasts: &BTreeMap<u64, u64, A>, start: u64, end: u64) -> Option<u64>
    ensures { MatchOption result ((n : ℕ) → IsTrue (is_within start end n) → get nat_cmp lasts.now n ≡ None) (λ n. IsTrue (is_within start end n)
        × IsSome (get nat_cmp lasts.now n)) }
{
    match lasts
        .range((Bound::Excluded(start), Bound::Unbounded))
        .next()
    {
        Some((first, _)) if *first <= end => Some(*first),
        _ => None,
    }
}
