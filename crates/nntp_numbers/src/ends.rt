//! The least and the greatest of some article numbers.
ghost use Rattle.std.specs.Prelude.{◌≡◌};
ghost use Rattle.nntp_said.specs.Asks.{Estimates};
ghost use Rattle.nntp_numbers.specs.Inner.{NumberSets.{brought_between}, Part.{ends_in, join_ends}};

use nntp_wire::{Marks, WaterMarks};

/// The least and the greatest of some article numbers, as of all strict marks of a group (RFC 3977,
/// section 6.1.1.2): if the group has any number, both are numbers of it.
#[derive(Clone, Copy, PartialEq, Eq)]
pub(crate) struct Ends {
    /// The least number; of strict marks the least low water mark that was reported.
    pub(crate) low: u64,
    /// The greatest number; of strict marks the greatest high water mark that was reported.
    pub(crate) high: u64,
}

impl Ends {
    /// Returns the marks that a 211 reports, if they are read strictly.
    pub(crate) fn of_marks(how: Marks, marks: WaterMarks) -> Option<Ends>
        ensures { result ≡ ends_in (Estimates how marks) }
    {
        match how {
            Marks::Lenient => None,
            Marks::Strict => Some(Ends {
                low: marks.low,
                high: marks.high,
            }),
        }
    }
}

/// Joins the ends of both: the lesser low one, and the greater high one.
pub(crate) fn join(ends: Option<Ends>, more: Option<Ends>) -> Option<Ends>
    ensures { result ≡ join_ends ends more }
{
    match (ends, more) {
        (None, ends) => ends,
        (ends, None) => ends,
        (Some(ends), Some(more)) => Some(Ends {
            low: ends.low.min(more.low),
            high: ends.high.max(more.high),
        }),
    }
}

/// Returns the number that is between the ends once `n` is one of the numbers, if it brings one
/// there: `n`, or the end whose place it takes.
pub(crate) fn brought_between(ends: Option<Ends>, n: u64) -> Option<u64>
    ensures { result ≡ brought_between ends n }
{
    let ends = ends?;
    let middle = n.max(ends.low).min(ends.high);
    if ends.low.min(n) < middle && middle < ends.high.max(n) {
        Some(middle)
    } else {
        None
    }
}
