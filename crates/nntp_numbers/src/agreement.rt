//! Whether nothing is both shown and denied, where a part is said beside what is kept.
ghost use Rattle.std.specs.{Prelude.{◌≡◌, ℕ, ◌↔◌, true, false, Some, IsTrue}, List.{list_all}};
ghost use Rattle.nntp_numbers.specs.Inner.{Part.{part_denies, IsRegular}, PartView.{said}, Summary.{has, denied_after, AgreesWith, AreOpen, is_open, gaps}};

use crate::ends::Ends;
use crate::gaps::{Gaps, none_in_gaps};
use crate::number_set::NumberSet;
use crate::numbers_part::NumbersPart;
use nntp_intervals::IntervalSet;
use std::alloc::Allocator;

impl<'s> NumbersPart<'s> {
    /// Tells whether the part can be, and nothing is both shown and denied.
    pub(crate) fn agrees<A: Allocator>(&self, shown: &NumberSet<A>, denied: &IntervalSet<A>) -> bool
        ensures { IsRegular (said self.now) → IsTrue result ↔ AgreesWith shown.now denied.now (said self.now) }
    {
        self.is_possible && self.denies_none(shown) && self.shows_free(denied)
    }

    /// Tells whether no number that is shown is denied by the part.
    fn denies_none<A: Allocator>(&self, shown: &NumberSet<A>) -> bool
        ensures { IsRegular (said self.now) → IsTrue result ↔ ((n : ℕ) → has shown.now n ≡ true → part_denies (said self.now) n ≡ false) }
    {
        shown.none_outside(self.low, self.high) && none_in_gaps(shown, self.gaps())
    }

    /// Tells whether no number of the part is denied.
    fn shows_free<A: Allocator>(&self, denied: &IntervalSet<A>) -> bool
        ensures { result ≡ list_all (is_open denied.now (said self.now)) self.now.numbers.now }
    {
        self.numbers.iter().all(|n| self.is_open(denied, *n))
    }

    /// Tells whether the number is between the marks, and not denied.
    fn is_open<A: Allocator>(&self, denied: &IntervalSet<A>, n: u64) -> bool
        ensures { result ≡ is_open denied.now (said self.now) n }
    {
        self.low <= n && n <= self.high && !denied.contains(n)
    }

    /// Tells whether neither of the two strict marks is denied after the part.
    pub(crate) fn leaves<A: Allocator>(&self, denied: &IntervalSet<A>, ends: Option<Ends>) -> bool
        ensures { IsTrue result ↔ AreOpen denied.now (said self.now) ends }
    {
        match ends {
            Some(ends) => {
                !self.denies_after(denied, ends.low) && !self.denies_after(denied, ends.high)
            }
            None => true,
        }
    }

    /// Tells whether the number is denied after the part.
    fn denies_after<A: Allocator>(&self, denied: &IntervalSet<A>, n: u64) -> bool
        ensures { result ≡ denied_after denied.now (said self.now) n }
    {
        denied.contains(n)
            || n < self.low
            || self.high < n
            || (self.first <= n && n <= self.last && !self.numbers.contains(&n))
    }

    /// Returns the intervals of numbers of which the part says that they aren't there.
    pub(crate) fn gaps(&self) -> Gaps<'s>
        ensures { result ≡ gaps (Some self.now.first) self.now.last self.now.numbers.now }
    {
        Gaps {
            start: Some(self.first),
            last: self.last,
            numbers: self.numbers,
        }
    }
}
