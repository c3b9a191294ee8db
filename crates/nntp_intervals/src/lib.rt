//! Sets of numbers of 64 bits, kept as intervals.
#![tactic(auto)]

mod interval_set;
mod intervals;

pub use interval_set::IntervalSet;
