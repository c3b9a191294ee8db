//! The numbers that the lines of LISTGROUP list (RFC 3977, section 6.1.2).
ghost use Rattle.std.specs.Prelude.{◌≡◌, ◌<◌, ◌^◌, length, List, ℕ};
ghost use Rattle.std.specs.Iterator.{YieldsFirst, item_count};
ghost use Rattle.nntp_wire.specs.Listing.{listed_number_of, listed_numbers, are_listed_numbers};

use crate::block::{Block, Lines};
use crate::line::{number, words};
use std::marker::Model;

/// Reads a line of the response to LISTGROUP, given without its CRLF (RFC 3977, section 6.1.2).
///
/// Returns `None` unless the line has exactly one word, a number of 1 to 16 digits.
pub fn listed_number(line: &[u8]) -> Option<u64>
    ensures { result ≡ listed_number_of line.now }
{
    let mut words = words(line);
    match (words.next(), words.next()) {
        (Some(word), None) => number(word),
        _ => None,
    }
}

/// Tells whether each line of the block is a number.
pub(crate) fn are_listed_numbers(block: &Block<'_>) -> bool
    ensures { result ≡ are_listed_numbers block.now }
{
    block.lines().all(|line| listed_number(line).is_some())
}

/// An iterator over the numbers that the lines of a block list, first to last (RFC 3977,
/// section 6.1.2). It yields nothing for a line that is no number.
#[derive(Drop)]
pub struct ListedNumbers<'a> {
    lines: Lines<'a>,
}

impl<'a> Model for ListedNumbers<'a> {
    ghost use Rattle.std.specs.Prelude.{List, ℕ};
    ghost use Rattle.nntp_wire.specs.Listing.{listed_numbers};

    ghost Value = { List ℕ };

    ghost view = { λ s. listed_numbers s.lines };
}

impl<'a> Block<'a> {
    /// Returns the numbers that the lines list, first to last (RFC 3977, section 6.1.2).
    ///
    /// A line that [`listed_number`] refuses is passed over. The block of
    /// [`Answer::Numbers`](crate::Answer::Numbers) has no such line.
    pub fn numbers(&self) -> ListedNumbers<'a>
        ensures listed { result ≡ listed_numbers self.now }
        ensures short { length result < 2 ^ 64 }
    {
        ListedNumbers {
            lines: self.lines(),
        }
    }
}

impl<'a> Iterator for ListedNumbers<'a> {
    type Item = u64;

    ghost next_gives = { YieldsFirst (λ numbers. numbers) };

    ghost remaining = { item_count (λ numbers. numbers) };

    fn next(&mut self) -> Option<u64> {
        while let Some(line) = self.lines.next() {
            if let Some(number) = listed_number(line) {
                return Some(number);
            }
        }
        None
    }
}
