//! What overviews say of one message-id, as `explain` prints it.
ghost use Rattle.std.specs.Prelude.{◌≡◌, ◌++◌, [], OnOk};
ghost use Rattle.std.specs.Option.{option_map_or};
ghost use Rattle.nntp_wire.specs.Listing.{overviews_of};
ghost use Rattle.nntp_theory.specs.Given.{first_given, has_overview_of, id_of_overview};
ghost use Rattle.nntp_theory.specs.Together.{number_of_overview};
ghost use Rattle.nntp_explain.specs.Says.{id_line};

use crate::said_numbers::{is_same, put_id_line};
use nntp_wire::{Block, MessageId};
use std::alloc::{AllocError, Allocator};

/// Adds the id of the first overview at the number, if there is one.
pub(crate) fn put_overview_at<A: Allocator + Copy>(
    text: &mut Vec<u8, A>,
    name: &[u8],
    number: u64,
    block: &Block<'_>,
) -> Result<(), AllocError>
    ensures { OnOk result (text.new.items ≡ text.old.items
        ++ option_map_or (id_line name.now number) (first_given (id_of_overview number) (overviews_of block.now)) []) }
{
    match id_at(block, number) {
        Some(id) => put_id_line(text, name, number, id.as_str().as_bytes()),
        None => Ok(()),
    }
}

/// Adds the number of the first overview with the id, if there is one.
pub(crate) fn put_overview_of<A: Allocator + Copy>(
    text: &mut Vec<u8, A>,
    name: &[u8],
    id: &[u8],
    block: &Block<'_>,
) -> Result<(), AllocError>
    ensures { OnOk result (text.new.items ≡ text.old.items
        ++ option_map_or (λ number. id_line name.now number id.now) (first_given (number_of_overview id.now) (overviews_of block.now)) []) }
{
    match number_of(block, id) {
        Some(number) => put_id_line(text, name, number, id),
        None => Ok(()),
    }
}

/// Returns the id of the first overview at the number.
fn id_at<'a>(block: &Block<'a>, number: u64) -> Option<MessageId<'a>>
    ensures { result ≡ first_given (id_of_overview number) (overviews_of block.now) }
{
    for overview in block.overviews() {
        if overview.number == number {
            return Some(overview.id);
        }
    }
    None
}

/// Returns the number of the first overview with the id.
fn number_of(block: &Block<'_>, id: &[u8]) -> Option<u64>
    ensures { result ≡ first_given (number_of_overview id.now) (overviews_of block.now) }
{
    for overview in block.overviews() {
        if is_same(overview.id.as_str().as_bytes(), id) {
            return Some(overview.number);
        }
    }
    None
}

/// Tells whether one of the overviews has the id.
pub(crate) fn has_overview_of(block: &Block<'_>, id: &[u8]) -> bool
    ensures { result ≡ has_overview_of id.now (overviews_of block.now) }
{
    for overview in block.overviews() {
        if is_same(overview.id.as_str().as_bytes(), id) {
            return true;
        }
    }
    false
}
