//! What all answers so far say of the numbers of one group.
ghost use Rattle.std.specs.Prelude.{◌≡◌, ℕ, true, nat_lt, ◌^◌, ◌-◌, ◌<◌, ◌↔◌, ◌&&◌, ◌||◌, List, [], ◌++◌, Option, IsTrue, IfSome, IfOk, OnOk};
ghost use Rattle.std.specs.List.{list_all};
ghost use Rattle.nntp_intervals.specs.Inner.Intervals.{holds};
ghost use Rattle.nntp_said.specs.Asks.{Ask};
ghost use Rattle.nntp_theory.specs.{Inner.{Together.{AsksStand}, Estimates.{is_within}}, Given.{join}};
ghost use Rattle.nntp_numbers.specs.Inner.{Part.{Says, IsRegular}, PartView.{said}, Unseen.{known_ends_in, unless_shown, one_more_in, unseen_in}};
ghost use Rattle.nntp_numbers.specs.Inner.{Unseen.{unseen_high_in}, Summary.{IsSummary, AreBounded, AddsNothing, ends_after, denied_after, is_open}};
ghost use Rattle.nntp_numbers.specs.Inner.{Summary.{FirstFreeBelow, has_room, is_settled}, Between.{numbers_between}};

mod conflict;

use crate::ascending_numbers::AscendingNumbers;
use crate::ends::{self, Ends};
use crate::free::denies_outside;
use crate::gaps::deny_gaps;
use crate::number_set::NumberSet;
use crate::numbers_part::NumbersPart;
use crate::shown::{HowMany, how_many_wanted};
use crate::tally::Tally;
use nntp_intervals::IntervalSet;
use nntp_theory::Demand;
use std::alloc::{AllocError, Allocator, Global};
use std::marker::Model;

/// What the answers so far say of the numbers of one group.
#[derive(Drop)]
pub struct Numbers<A: Allocator = Global> {
    /// The numbers that are there.
    shown: NumberSet<A>,
    /// The numbers that are not there.
    denied: IntervalSet<A>,
    /// The greatest number of numbers that there may be.
    estimate: Option<u64>,
    /// The strict marks, both of which are numbers if there is any number.
    ends: Option<Ends>,
    /// What is said of the first number, where it isn't shown.
    demand: Demand,
}

impl<A: Allocator> Model for Numbers<A> {
    ghost use Rattle.nntp_numbers.specs.Inner.{Summary.{Summary}, SummaryView.{coded_summary}};

    ghost Value = { Summary };

    ghost coded = { coded_summary };

    ghost view = { λ g. record { shown = g.shown; denied = g.denied; estimate = g.estimate; ends = g.ends; demand = g.demand } };
}

impl<A: Allocator + Copy> Numbers<A> {
    /// Creates what is kept of a group of which nothing is said yet.
    pub fn new(alloc: A) -> Numbers<A>
        ensures { IsSummary result [] }
    {
        Numbers {
            shown: NumberSet::new(alloc),
            denied: IntervalSet::new(alloc),
            estimate: None,
            ends: None,
            demand: Demand::NoDemand,
        }
    }

    /// Creates what is kept of a group of which it is said alone that no number is below `low` or
    /// above `high`. It takes no memory.
    pub fn between(alloc: A, low: u64, high: u64) -> Numbers<A>
        ensures { result ≡ numbers_between low high }
    {
        Numbers {
            shown: NumberSet::new(alloc),
            denied: IntervalSet::outside(alloc, low, high),
            estimate: None,
            ends: None,
            demand: Demand::NoDemand,
        }
    }

    /// Returns the same.
    pub fn copy(&self) -> Result<Numbers<A>, AllocError>
        ensures { IfOk result (λ numbers. numbers ≡ self.now) }
    {
        Ok(Numbers {
            shown: self.shown.copy()?,
            denied: self.denied.copy()?,
            estimate: self.estimate,
            ends: self.ends,
            demand: self.demand,
        })
    }

    /// Adds what the part says. After an error the value says nothing of use.
    pub fn add(&mut self, part: &NumbersPart<'_>) -> Result<(), AllocError>
        ensures { OnOk result ((asks more : List Ask) → IsSummary self.old asks → Says (said part.now) more → IsSummary self.new (asks ++ more)) }
    {
        deny(&mut self.denied, part)?;
        self.shown.insert_all(part.numbers)?;
        self.estimate = least(self.estimate, part.estimate);
        self.ends = ends::join(self.ends, part.ends);
        self.demand = self.demand.join(part.demand);
        Ok(())
    }
}

impl<A: Allocator> Numbers<A> {
    /// Returns two marks, if it is said alone that no number is below the first or above the second.
    pub fn marks(&self) -> Option<(u64, u64)>
        ensures { IfSome result (λ marks. self.now ≡ numbers_between marks.0 marks.1) }
    {
        match (self.estimate, self.ends, self.demand) {
            (None, None, Demand::NoDemand) if self.shown.is_empty() => self.denied.marks(),
            _ => None,
        }
    }

    /// Tells whether what the part says stands together with all that was said before.
    pub fn joins(&self, part: &NumbersPart<'_>) -> bool
        ensures { (asks more : List Ask) → IsSummary self.now asks → AsksStand asks → AreBounded (asks ++ more) → Says (said part.now) more
            → IsTrue result ↔ AsksStand (asks ++ more) }
    {
        let demand = self.demand.join(part.demand);
        let ends = self.ends_after(part, demand);
        part.agrees(&self.shown, &self.denied)
            && part.leaves(&self.denied, ends)
            && is_settled(
                demand,
                Tally::of(&self.shown, part.numbers, ends, demand),
                &self.denied,
                part,
                least(self.estimate, part.estimate),
            )
    }

    /// Tells whether all that the part says was said before: it says nothing of the numbers between
    /// its marks, and denies, estimates and demands no more than what is kept.
    pub fn has_said(&self, part: &NumbersPart<'_>) -> bool
        ensures { IsTrue result ↔ AddsNothing self.now (said part.now) }
    {
        part.is_of_marks()
            && is_implied(self.estimate, part.estimate)
            && ends::join(self.ends, part.ends) == self.ends
            && self.demand.join(part.demand) == self.demand
            && denies_outside(&self.denied, part.low, part.high)
    }

    /// Returns the strict marks after the part, where it is said then that there is a number.
    fn ends_after(&self, part: &NumbersPart<'_>, demand: Demand) -> Option<Ends>
        ensures { demand ≡ join self.now.demand part.now.demand → result ≡ ends_after self.now (said part.now) }
    {
        if self.shown.is_empty() && part.numbers.is_empty() && !demand.is_some() {
            return None;
        }
        ends::join(self.ends, part.ends)
    }

    /// Returns the least number that the group is given, where it isn't shown.
    pub fn unseen(&self) -> Option<u64>
        ensures { result ≡ unseen_in self.now }
    {
        match self.known_ends() {
            Some(ends) => self.unless_shown(ends.low),
            None => self.one_more(),
        }
    }

    /// Returns the greatest number that the group is given, where it is neither shown nor the
    /// least.
    pub fn unseen_high(&self) -> Option<u64>
        ensures { result ≡ unseen_high_in self.now }
    {
        let ends = self.known_ends()?;
        if ends.high == ends.low {
            return None;
        }
        self.unless_shown(ends.high)
    }

    /// Returns the strict marks, where it is said that there is a number.
    fn known_ends(&self) -> Option<Ends>
        ensures { result ≡ known_ends_in self.now }
    {
        if self.shown.is_empty() && !self.demand.is_some() {
            return None;
        }
        self.ends
    }

    /// Returns the number, where it isn't shown.
    fn unless_shown(&self, n: u64) -> Option<u64>
        ensures { result ≡ unless_shown self.now.shown n }
    {
        if self.shown.contains(n) {
            None
        } else {
            Some(n)
        }
    }

    /// Returns the one more number: the first that isn't denied, where no number is known that the
    /// demand wants.
    fn one_more(&self) -> Option<u64>
        ensures { result ≡ one_more_in self.now }
    {
        let HowMany::Absent = how_many_wanted(&self.shown, self.demand) else {
            return None;
        };
        let n = self.denied.least_free_from(1)?;
        if self.demand.wants(n) { Some(n) } else { None }
    }

    /// Returns the numbers that are shown, ascending.
    pub fn shown(&self) -> AscendingNumbers<'_>
        ensures { result ≡ self.now.shown }
    {
        self.shown.iter()
    }
}

/// Returns the lesser of two estimates.
fn least(a: Option<u64>, b: Option<u64>) -> Option<u64>
    ensures { (n : ℕ) → is_within result n ≡ (is_within a n && is_within b n) }
{
    match (a, b) {
        (None, e) => e,
        (e, None) => e,
        (Some(a), Some(b)) => Some(a.min(b)),
    }
}

/// Tells whether each count within the first estimate is within the other.
fn is_implied(estimate: Option<u64>, other: Option<u64>) -> bool
    ensures { IsTrue result ↔ ((n : ℕ) → is_within estimate n ≡ true → is_within other n ≡ true) }
{
    match (estimate, other) {
        (_, None) => true,
        (None, Some(_)) => false,
        (Some(estimate), Some(other)) => estimate <= other,
    }
}

/// Tells whether a count of numbers is no more than is estimated.
fn is_within(estimate: Option<u64>, count: u64) -> bool
    ensures { result ≡ is_within estimate count }
{
    match estimate {
        Some(estimate) => count <= estimate,
        None => true,
    }
}

/// Tells whether the demand is met: by the numbers that are known, of which the tally counts those
/// that it wants, or by one more, the first free number after the part.
fn is_settled<A: Allocator>(
    demand: Demand,
    tally: Tally,
    denied: &IntervalSet<A>,
    part: &NumbersPart<'_>,
    estimate: Option<u64>,
) -> bool
    requires { tally.count < 2 ^ 64 - 1 }
    ensures { IsRegular (said part.now) → IsTrue (list_all (is_open denied.now (said part.now)) part.now.numbers.now)
        → (free : Option ℕ) → FirstFreeBelow (denied_after denied.now (said part.now)) free → result ≡ is_settled demand tally.found free tally.count estimate }
{
    match (demand, tally.found) {
        (Demand::NoDemand, _) => is_within(estimate, tally.count),
        (Demand::Impossible, _) => false,
        (_, HowMany::Absent) => has_room(demand, part.first_free(denied), tally.count, estimate),
        (Demand::NotEmpty, _) => is_within(estimate, tally.count),
        (_, HowMany::Single) => is_within(estimate, tally.count),
        (_, HowMany::Several) => false,
    }
}

/// Tells whether the demand wants the free number, and there is room for it.
fn has_room(demand: Demand, free: Option<u64>, count: u64, estimate: Option<u64>) -> bool
    requires { count < 2 ^ 64 - 1 }
    ensures { result ≡ has_room demand free count estimate }
{
    match free {
        Some(n) => demand.wants(n) && is_within(estimate, count + 1),
        None => false,
    }
}

/// Adds the numbers that the part denies.
fn deny<A: Allocator + Copy>(
    denied: &mut IntervalSet<A>,
    part: &NumbersPart<'_>,
) -> Result<(), AllocError>
    ensures { OnOk result (IsRegular (said part.now) → (n : ℕ) → n < 2 ^ 64 → holds denied.new n ≡ denied_after denied.old (said part.now) n) }
{
    deny_outside(denied, part.low, part.high)?;
    deny_gaps(denied, part.gaps())
}

/// Adds the numbers that aren't between the marks.
fn deny_outside<A: Allocator + Copy>(
    denied: &mut IntervalSet<A>,
    low: u64,
    high: u64,
) -> Result<(), AllocError>
    ensures { OnOk result ((n : ℕ) → n < 2 ^ 64 → holds denied.new n ≡ (holds denied.old n || (nat_lt n low || nat_lt high n))) }
{
    if 0 < low {
        denied.insert(0, low - 1)?;
    }
    if high < u64::MAX {
        denied.insert(high + 1, u64::MAX)?;
    }
    Ok(())
}
