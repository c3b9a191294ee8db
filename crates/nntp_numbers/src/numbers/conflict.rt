//! The parts of what is said of the numbers of a group, each by itself.
ghost use Rattle.std.specs.Prelude.{◌≡◌, ℕ, ◌^◌, ◌<◌, ◌-◌, ◌↔◌, ◌&&◌, List, Option, IsTrue, MatchOption};
ghost use Rattle.nntp_said.specs.Asks.{Ask};
ghost use Rattle.nntp_theory.specs.{Given.{is_known, is_denied, demand, wants, IsOneMore, IsGivenNumber}, Together.{MeetsDemand}, Inner.Conflict.{AreApart}};
ghost use Rattle.nntp_theory.specs.Conflict.{AreTooMany};
ghost use Rattle.nntp_numbers.specs.Inner.{Part.{is_end_of}, Unseen.{known_ends_in}, Summary.{IsSummary, AreBounded, has, PassSoMany, IsTally, is_met}};
ghost use Rattle.nntp_numbers.specs.Inner.Summary.{DeniedAmong};

use crate::number_set::NumberSet;
use crate::numbers::{Numbers, is_within};
use crate::shown::HowMany;
use crate::tally::Tally;
use nntp_intervals::IntervalSet;
use nntp_theory::Demand;
use std::alloc::Allocator;

impl<A: Allocator> Numbers<A> {
    /// Returns a known number that is denied, if there is one: the least that is shown, or else a
    /// strict mark.
    #[tactic(auto, using(crate::proofs::ConflictsOfNumbers::end_or_apart))]
    pub fn denied_known(&self) -> Option<u64>
        ensures { (asks : List Ask) → IsSummary self.now asks → AreBounded asks
            → MatchOption result (AreApart asks) (λ n. IsTrue (is_known asks n) × IsTrue (is_denied asks n)) }
    {
        match denied_among(&self.shown, &self.denied) {
            Some(n) => Some(n),
            None => self.denied_end(),
        }
    }

    /// Returns a known strict mark that is denied, if there is one.
    fn denied_end(&self) -> Option<u64>
        ensures { DeniedAmong (is_end_of (known_ends_in self.now)) self.now.denied result }
    {
        let ends = self.known_ends()?;
        if self.denied.contains(ends.low) {
            Some(ends.low)
        } else if self.denied.contains(ends.high) {
            Some(ends.high)
        } else {
            None
        }
    }

    /// Tells whether the given numbers are more than is estimated, where no known number is denied.
    pub fn are_too_many(&self) -> bool
        ensures { (asks : List Ask) → IsSummary self.now asks → AreBounded asks → AreApart asks → IsTrue result ↔ AreTooMany asks }
    {
        let tally = self.tally();
        let more = if self.has_one_more(tally.found) { 1 } else { 0 };
        !is_within(self.estimate, tally.count + more)
    }

    /// Tells whether the given numbers meet the demand, where no known number is denied.
    pub fn meet_demand(&self) -> bool
        ensures { (asks : List Ask) → IsSummary self.now asks → AreBounded asks → AreApart asks
            → IsTrue result ↔ MeetsDemand (demand asks) (IsGivenNumber asks) }
    {
        let found = self.tally().found;
        is_met(self.demand, found) || self.has_one_more(found)
    }

    /// Tells whether a number is given beside those that are known, of which the demand wants so
    /// many.
    fn has_one_more(&self, found: HowMany) -> bool
        ensures { (asks : List Ask) → IsSummary self.now asks → AreBounded asks → PassSoMany (λ n. is_known asks n && wants (demand asks) n) found
            → IsTrue result ↔ ((n : ℕ) × IsOneMore asks n) }
    {
        matches!(found, HowMany::Absent) && self.one_more().is_some()
    }

    /// Counts the known numbers, and those of them that the demand wants.
    fn tally(&self) -> Tally
        ensures tally { (asks : List Ask) → IsSummary self.now asks → AreBounded asks → AreApart asks
            → IsTally (is_known asks) (demand asks) result.found result.count }
        ensures small { result.count < 2 ^ 64 - 1 }
    {
        Tally::of(&self.shown, &[], self.known_ends(), self.demand)
    }
}

/// Tells whether the numbers that are known meet the demand, if it wants so many of them.
fn is_met(demand: Demand, found: HowMany) -> bool
    ensures { result ≡ is_met demand found }
{
    match (demand, found) {
        (Demand::NoDemand, _) => true,
        (Demand::Impossible, _) => false,
        (_, HowMany::Absent) => false,
        (Demand::NotEmpty, _) => true,
        (_, HowMany::Single) => true,
        (_, HowMany::Several) => false,
    }
}

/// Returns the least shown number that is denied, if there is one.
fn denied_among<A: Allocator>(shown: &NumberSet<A>, denied: &IntervalSet<A>) -> Option<u64>
    ensures { DeniedAmong (has shown.now) denied.now result }
{
    let mut numbers = shown.iter();
    while let Some(n) = numbers.next() {
        if denied.contains(n) {
            return Some(n);
        }
    }
    None
}
