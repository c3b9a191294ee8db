//! What is kept of the numbers of one group, and whether what an answer says of them stands with it.
#![tactic(auto)]

mod agreement;
mod ascending_numbers;
mod ends;
mod free;
mod gaps;
mod number_set;
mod numbers;
mod numbers_part;
mod shown;
mod tally;

pub use ascending_numbers::AscendingNumbers;
pub use numbers::Numbers;
pub use numbers_part::NumbersPart;
