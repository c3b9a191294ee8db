//! The count of numbers, and of those that a demand wants.
ghost use Rattle.std.specs.Prelude.{◌≡◌, ℕ, Bool, IsTrue, ◌||◌, ◌==◌, ◌+◌, ◌-◌, ◌^◌, ◌<◌, ◌≤◌};
ghost use Rattle.nntp_article.specs.Session.Machine.{is_ascending};
ghost use Rattle.nntp_numbers.specs.Inner.{Part.{is_end_of}, Summary.{shown_after, IsTally}};

use crate::ends::Ends;
use crate::number_set::NumberSet;
use crate::shown::{HowMany, how_many_wanted};
use nntp_theory::Demand;
use std::alloc::Allocator;

/// The count of some numbers, and of those among them that a demand wants.
#[derive(Clone, Copy)]
pub(crate) struct Tally {
    /// How many of the numbers the demand wants.
    pub(crate) found: HowMany,
    /// How many numbers there are.
    pub(crate) count: u64,
}

impl Tally {
    /// Counts one number more, unless it is among them.
    fn with(self, demand: Demand, n: u64, is_there: bool) -> Tally
        requires { self.count < 2 ^ 64 - 1 }
        ensures tally { (p : ℕ → Bool) → is_there ≡ p n → IsTally p demand self.found self.count
            → IsTally (λ m. p m || n == m) demand result.found result.count }
        ensures count { result.count ≤ self.count + 1 }
    {
        if is_there {
            return self;
        }
        Tally {
            found: if demand.wants(n) {
                self.found.and_one()
            } else {
                self.found
            },
            count: self.count + 1,
        }
    }

    /// Counts the numbers that are shown and those of a list, with the two ends, where there are
    /// some.
    pub(crate) fn of<A: Allocator>(
        shown: &NumberSet<A>,
        numbers: &[u64],
        ends: Option<Ends>,
        demand: Demand,
    ) -> Tally
        ensures tally { IsTrue (is_ascending numbers.now)
            → IsTally (λ n. shown_after shown.now numbers.now n || is_end_of ends n) demand result.found result.count }
        ensures small { result.count < 2 ^ 64 - 1 }
    {
        let tally = tally_shown(shown, numbers, demand);
        let Some(ends) = ends else {
            return tally;
        };
        let low = is_shown_after(shown, numbers, ends.low);
        let high = ends.high == ends.low || is_shown_after(shown, numbers, ends.high);
        tally
            .with(demand, ends.low, low)
            .with(demand, ends.high, high)
    }
}

/// Counts the numbers that are shown and those of a list.
fn tally_shown<A: Allocator>(shown: &NumberSet<A>, numbers: &[u64], demand: Demand) -> Tally
    ensures tally { IsTrue (is_ascending numbers.now) → IsTally (shown_after shown.now numbers.now) demand result.found result.count }
    ensures small { result.count < 2 ^ 64 - 3 }
{
    let mut tally = Tally {
        found: how_many_wanted(shown, demand),
        count: shown.len() as u64,
    };
    for n in numbers {
        tally = tally.with(demand, *n, shown.contains(*n));
    }
    tally
}

/// Tells whether the number is shown, or one of the list.
fn is_shown_after<A: Allocator>(shown: &NumberSet<A>, numbers: &[u64], n: u64) -> bool
    ensures { result ≡ shown_after shown.now numbers.now n }
{
    shown.contains(n) || numbers.contains(&n)
}
