//! The groups that the lines of LIST ACTIVE list (RFC 3977, section 7.6.3).
ghost use Rattle.std.specs.Prelude.{◌≡◌, ◌<◌, ◌^◌, ◌∷◌, [], length, List, option_map, is_some};
ghost use Rattle.std.specs.Iterator.{YieldsFirstBy, item_count};
ghost use Rattle.nntp_wire.specs.Listing.{active_of, active_of_words, active_groups, are_active_lines};
ghost use Rattle.nntp_wire.specs.Inner.View.{active_value};

use crate::block::{Block, Lines};
use crate::group_name::GroupName;
use crate::laws::group_names_are_decided;
use crate::line::{number, words};
use std::marker::Model;

/// A line of the response to LIST ACTIVE, which reports one group (RFC 3977, section 7.6.3).
#[derive(Drop)]
pub struct ActiveLine<'a> {
    /// The name of the group.
    pub name: GroupName<'a>,
    /// The reported high water mark, which is the second word of the line.
    pub high: u64,
    /// The reported low water mark, which is the third word of the line.
    pub low: u64,
    /// The octets of the fourth word, which tells whether posting is allowed. It may be any word.
    pub status: &'a [u8],
}

/// Reads a line of the response to LIST ACTIVE, given without its CRLF (RFC 3977, section 7.6.3).
///
/// Returns `None` unless the line has exactly four words: a group name, the high and the low water
/// mark as numbers of 1 to 16 digits, and the status.
pub fn active_line(line: &[u8]) -> Option<ActiveLine<'_>>
    ensures { option_map active_value result ≡ active_of line.now }
{
    let mut words = words(line);
    match (
        words.next(),
        words.next(),
        words.next(),
        words.next(),
        words.next(),
    ) {
        (Some(name), Some(high), Some(low), Some(status), None) => {
            active_words(name, high, low, status)
        }
        _ => None,
    }
}

/// Reads the four words of such a line.
fn active_words<'a>(
    name: &'a [u8],
    high: &[u8],
    low: &[u8],
    status: &'a [u8],
) -> Option<ActiveLine<'a>>
    ensures { option_map active_value result ≡ active_of_words (name.now ∷ high.now ∷ low.now ∷ status.now ∷ []) }
{
    group_names_are_decided();
    Some(ActiveLine {
        name: GroupName::parse(name)?,
        high: number(high)?,
        low: number(low)?,
        status,
    })
}

/// Tells whether the line is one of LIST ACTIVE.
pub(crate) fn is_active_line(line: &[u8]) -> bool
    ensures { result ≡ is_some (active_of line.now) }
{
    active_line(line).is_some()
}

/// Tells whether each line of the block is one of LIST ACTIVE.
pub(crate) fn are_active_lines(block: &Block<'_>) -> bool
    ensures { result ≡ are_active_lines block.now }
{
    block.lines().all(|line| is_active_line(line))
}

/// An iterator over the groups that the lines of a block report, first to last (RFC 3977,
/// section 7.6.3). It yields nothing for a line that reports no group.
#[derive(Drop)]
pub struct ActiveLines<'a> {
    lines: Lines<'a>,
}

impl<'a> Model for ActiveLines<'a> {
    ghost use Rattle.std.specs.Prelude.{List};
    ghost use Rattle.nntp_wire.specs.Listing.{ActiveValue, active_groups};

    ghost Value = { List ActiveValue };

    ghost view = { λ s. active_groups s.lines };
}

impl<'a> Block<'a> {
    /// Returns the groups that the lines report, first to last (RFC 3977, section 7.6.3).
    ///
    /// A line that [`active_line`] refuses is passed over. The block of
    /// [`Answer::Active`](crate::Answer::Active) has no such line.
    pub fn groups(&self) -> ActiveLines<'a>
        ensures listed { result ≡ active_groups self.now }
        ensures short { length result < 2 ^ 64 }
    {
        ActiveLines {
            lines: self.lines(),
        }
    }
}

impl<'a> Iterator for ActiveLines<'a> {
    type Item = ActiveLine<'a>;

    ghost next_gives = { YieldsFirstBy active_value (λ groups. groups) };

    ghost remaining = { item_count (λ groups. groups) };

    fn next(&mut self) -> Option<ActiveLine<'a>> {
        while let Some(line) = self.lines.next() {
            if let Some(active) = active_line(line) {
                return Some(active);
            }
        }
        None
    }
}
