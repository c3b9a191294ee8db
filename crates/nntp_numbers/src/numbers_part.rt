//! What an answer says of the numbers of one group (RFC 3977, section 6.1).
ghost use Rattle.std.specs.Prelude.{◌≡◌, ◌^◌, ◌<◌, [], ◌∷◌, ◌↔◌, IsTrue};
ghost use Rattle.nntp_wire.specs.{Limit.{greatest}, declared.marks.Marks.TheVariants.{Lenient}};
ghost use Rattle.nntp_article.specs.declared.session.profile.Profile.{Profile};
ghost use Rattle.nntp_theory.specs.Conflict.{widest};
ghost use Rattle.nntp_said.specs.{Asks.{Estimates, Bounds}, Inner.FactView.{ask_of}};
ghost use Rattle.nntp_numbers.specs.Inner.{Part.{Says, only_has}, PartOf.{IsSmall, listing, none_above, none_below, nothing_said, part_with, standing_at}};
ghost use Rattle.nntp_numbers.specs.Inner.{PartOf.{standing_nowhere, stepping_down, stepping_up}, Summary.{AreBounded}};

use crate::ends::Ends;
use nntp_said::{Ask, Position};
use nntp_theory::Demand;
use nntp_wire::{Limit, Marks, WaterMarks};

/// What one answer says at once of the numbers of a group.
#[derive(Drop)]
pub struct NumbersPart<'s> {
    /// Whether any numbers can be as the answer says.
    pub is_possible: bool,
    /// The low end: no number of the group is below it.
    pub(crate) low: u64,
    /// The high end: no number of the group is above it.
    pub(crate) high: u64,
    /// The first number of an interval in which the group has those of `numbers`, and no others.
    pub(crate) first: u64,
    /// The last number of that interval, which is empty where this is below `first`.
    pub(crate) last: u64,
    /// The numbers that are there, ascending.
    pub(crate) numbers: &'s [u64],
    /// The greatest number of numbers that there may be.
    pub(crate) estimate: Option<u64>,
    /// The strict marks, both of which are numbers if there is any number.
    pub(crate) ends: Option<Ends>,
    /// What is said of the first number, where it isn't shown.
    pub(crate) demand: Demand,
    /// The types say so too, but the check goes by them only where a number is read.
    ghost ends_fit: { (high < 2 ^ 64) × (last < 2 ^ 64) },
}

impl<'s> NumbersPart<'s> {
    ghost use Rattle.nntp_numbers.specs.Inner.PartView.{said};

    /// Says nothing of the numbers.
    pub fn nothing() -> NumbersPart<'s>
        ensures value { said result ≡ nothing_said }
        ensures says { Says (said result) [] }
    {
        NumbersPart {
            is_possible: true,
            low: 0,
            high: u64::MAX,
            first: 1,
            last: 0,
            numbers: &[],
            estimate: None,
            ends: None,
            demand: Demand::NoDemand,
        }
    }

    /// Tells whether the part says that the number is there, and no more.
    pub fn says_only(&self, number: u64) -> bool
        ensures { IsTrue result ↔ (said self.now ≡ only_has number) }
    {
        self.is_possible
            && self.low == 0
            && self.high == u64::MAX
            && self.first == number
            && self.last == number
            && is_alone(self.numbers, number)
            && self.estimate.is_none()
            && self.ends.is_none()
            && !self.demand.is_some()
    }

    /// Tells whether the part can be, and says nothing of the numbers between its marks.
    pub(crate) fn is_of_marks(&self) -> bool
        ensures { IsTrue result ↔ (IsTrue self.now.is_possible × (self.now.numbers.now ≡ []) × (self.now.last < self.now.first)) }
    {
        self.is_possible && self.numbers.is_empty() && self.last < self.first
    }

    /// Says what a 211 to GROUP reports: there are at most so many numbers, between the marks.
    pub fn of_marks(how: Marks, marks: WaterMarks) -> NumbersPart<'s>
        ensures says { Says (said result) (Estimates how marks ∷ []) }
        ensures bounded { AreBounded (Estimates how marks ∷ []) }
    {
        let mut part = NumbersPart::nothing();
        part.say_marks(how, marks);
        part
    }

    /// Says what holds of the numbers of each group: they are within the widest marks.
    pub fn of_widest(limit: Limit) -> NumbersPart<'s>
        ensures says { (profile : Profile) → profile.limit ≡ greatest limit → Says (said result) (Estimates Lenient (widest profile) ∷ []) }
        ensures bounded { (profile : Profile) → profile.limit ≡ greatest limit → AreBounded (Estimates Lenient (widest profile) ∷ []) }
    {
        let widest = WaterMarks {
            estimate: limit.value(),
            low: 1,
            high: limit.value(),
        };
        NumbersPart::of_marks(Marks::Lenient, widest)
    }

    /// Says that all numbers are between the marks.
    pub fn of_bounds(low: u64, high: u64) -> NumbersPart<'s>
        ensures { Says (said result) (Bounds low high ∷ []) }
    {
        let mut part = NumbersPart::nothing();
        part.low = low;
        part.high = high;
        part
    }

    /// Says this too; `shown` are the numbers that its answer shows.
    pub fn say(&mut self, ask: Ask<'_>, shown: &'s [u64])
        ensures says { said self.new ≡ part_with shown.now (ask_of ask.entry) (said self.old) }
        ensures small { IsSmall (said self.new) }
    {
        match ask {
            Ask::Estimates { how, marks } => self.say_marks(how, marks),
            Ask::Bounds { low, high } => {
                self.low = low;
                self.high = high;
            }
            Ask::Lists { range, .. } => {
                self.list(range.first, range.last.unwrap_or(u64::MAX), shown);
            }
            Ask::Lacks(number) => self.list(number, number, &[]),
            Ask::StandsAt(at, number) => {
                self.list(number, number, shown);
                self.stand_at(at, number);
            }
            Ask::StandsNowhere(at) => self.stand_nowhere(at),
            Ask::StepsUp(at, number) => {
                self.list(number, number, shown);
                self.step_up(at, number);
            }
            Ask::StepsDown(at, number) => {
                self.list(number, number, shown);
                self.step_down(at, number);
            }
            Ask::IsTop(at) => self.end_above(at),
            Ask::IsBottom(at) => self.end_below(at),
        }
    }

    /// Says too that there are at most so many numbers, between the marks, which are read so.
    fn say_marks(&mut self, how: Marks, marks: WaterMarks)
        ensures { said self.new ≡ part_with [] (Estimates how marks) (said self.old) }
    {
        self.low = marks.low;
        self.high = marks.high;
        self.estimate = Some(marks.estimate);
        self.ends = Ends::of_marks(how, marks);
    }

    /// Says too that from the first number to the last one these are there, and no others.
    pub fn list(&mut self, first: u64, last: u64, numbers: &'s [u64])
        ensures says { said self.new ≡ listing first last numbers.now (said self.old) }
        ensures small { IsSmall (said self.new) }
    {
        self.first = first;
        self.last = last;
        self.numbers = numbers;
    }

    /// Says too that the number at the position is this.
    fn stand_at(&mut self, at: Position, number: u64)
        ensures { said self.new ≡ standing_at at number (said self.old) }
    {
        match at {
            Position::Nowhere => self.is_possible = false,
            Position::First => self.low = number,
            Position::Known(current) => self.is_possible = current == number,
        }
    }

    /// Says too that there is no number at the position.
    fn stand_nowhere(&mut self, at: Position)
        ensures { said self.new ≡ standing_nowhere at (said self.old) }
    {
        match at {
            Position::Nowhere => {}
            Position::First => self.list(0, u64::MAX, &[]),
            Position::Known(_) => self.is_possible = false,
        }
    }

    /// Says too that the next number above the position is this.
    fn step_up(&mut self, at: Position, number: u64)
        ensures { said self.new ≡ stepping_up at number (said self.old) }
    {
        match at {
            Position::First => self.demand = Demand::SecondIs(number),
            Position::Known(current) if current < number => self.first = current + 1,
            _ => self.is_possible = false,
        }
    }

    /// Says too that the next number below the position is this.
    fn step_down(&mut self, at: Position, number: u64)
        ensures { said self.new ≡ stepping_down at number (said self.old) }
    {
        match at {
            Position::Known(current) if number < current => self.last = current - 1,
            _ => self.is_possible = false,
        }
    }

    /// Says too that no number is above the position.
    fn end_above(&mut self, at: Position)
        ensures { said self.new ≡ none_above at (said self.old) }
    {
        match at {
            Position::Nowhere => self.is_possible = false,
            Position::First => self.demand = Demand::OnlyOne,
            Position::Known(current) => self.high = current,
        }
    }

    /// Says too that no number is below the position.
    fn end_below(&mut self, at: Position)
        ensures { said self.new ≡ none_below at (said self.old) }
    {
        match at {
            Position::Nowhere => self.is_possible = false,
            Position::First => self.demand = Demand::NotEmpty,
            Position::Known(current) => self.low = current,
        }
    }
}

/// Tells whether the number is the only one of these.
fn is_alone(numbers: &[u64], number: u64) -> bool
    ensures { IsTrue result ↔ (numbers.now ≡ number ∷ []) }
{
    match numbers {
        [only] => *only == number,
        _ => false,
    }
}
