//! How many numbers are shown that a demand wants.
ghost use Rattle.std.specs.Prelude.{◌≡◌, ◌&&◌};
ghost use Rattle.nntp_theory.specs.Given.{wants};
ghost use Rattle.nntp_numbers.specs.Inner.Summary.{has, PassSoMany, and_one};

use crate::number_set::NumberSet;
use nntp_theory::Demand;
use std::alloc::Allocator;

/// How many numbers were found: none, one or more than one.
#[derive(Clone, Copy)]
pub(crate) enum HowMany {
    /// No number was found.
    Absent,
    /// One number was found.
    Single,
    /// More than one number was found.
    Several,
}

impl HowMany {
    /// Returns the count with one number more.
    pub(crate) fn and_one(self) -> HowMany
        ensures { result ≡ and_one self }
    {
        match self {
            HowMany::Absent => HowMany::Single,
            _ => HowMany::Several,
        }
    }
}

/// Counts the shown numbers that the demand wants.
pub(crate) fn how_many_wanted<A: Allocator>(shown: &NumberSet<A>, demand: Demand) -> HowMany
    ensures { PassSoMany (λ n. has shown.now n && wants demand n) result }
{
    match demand {
        Demand::NotEmpty | Demand::OnlyOne => shown.how_many(),
        Demand::SecondIs(k) => shown.how_many_below(k),
        _ => HowMany::Absent,
    }
}
