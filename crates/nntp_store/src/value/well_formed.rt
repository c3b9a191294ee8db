//! The forms that names, ids and lines have to have.
ghost use Rattle.std.specs.Prelude.{◌≡◌, ◌<◌, ◌^◌, true, false, length, IsTrue, MatchOption};
ghost use Rattle.std.specs.List.{list_all};
ghost use Rattle.nntp_wire.specs.Decided.{is_group_name, is_message_id};
ghost use Rattle.nntp_article.specs.Session.Spool.{is_line};
ghost use Rattle.nntp_content.specs.Content.{is_head_of};
ghost use Rattle.nntp_wire.specs.Inner.Held.{held};

use memchr::memchr3;
use nntp_article::{Head, lines_say};
use nntp_wire::laws::{group_names_are_decided, message_ids_are_decided};
use nntp_wire::{GroupName, MessageId, OwnedBlock};
use std::alloc::Allocator;

/// Returns the group name that the octets are, as text.
pub(crate) fn name_of(octets: &[u8]) -> Option<&str>
    ensures { MatchOption result (is_group_name octets.now ≡ false) (λ name. (is_group_name octets.now ≡ true) × (name.now ≡ octets.now)) }
{
    group_names_are_decided();
    match GroupName::parse(octets) {
        Some(name) => Some(name.as_str()),
        None => None,
    }
}

/// Returns the message-id that the octets are, as text.
pub(crate) fn id_of(octets: &[u8]) -> Option<&str>
    ensures { MatchOption result (is_message_id octets.now ≡ false) (λ id. (is_message_id octets.now ≡ true) × (id.now ≡ octets.now)) }
{
    message_ids_are_decided();
    match MessageId::parse(octets) {
        Some(id) => Some(id.as_str()),
        None => None,
    }
}

/// Tells whether the octets have no NUL, CR or LF.
pub(crate) fn is_line(line: &[u8]) -> bool
    ensures { result ≡ is_line line.now }
{
    memchr3(0, b'\r', b'\n', line).is_none()
}

/// Tells whether the lines have no NUL, CR or LF.
pub(crate) fn are_lines<A: Allocator>(lines: &[Vec<u8, A>]) -> bool
    ensures { result ≡ list_all is_line (held lines.now) }
{
    lines.iter().all(|line| is_line(line.as_slice()))
}

/// The law that no line of a block has a NUL, CR or LF, so that none is looked at again.
pub(crate) fn block_has_lines<A: Allocator>(block: &OwnedBlock<A>)
    ensures lines { IsTrue (list_all is_line block.now) }
    ensures short { length block.now < 2 ^ 64 }
{
    let _lent = block.as_block();
}

/// Tells whether the lines are a head that says this id or none.
pub(crate) fn is_head_of<A: Allocator>(id: &str, lines: &[Vec<u8, A>]) -> bool
    ensures { result ≡ is_head_of id.now (held lines.now) }
{
    match lines_say(lines) {
        Some(Some(said)) => said.as_str() == id,
        Some(None) => true,
        None => false,
    }
}

/// Tells whether the lines of a block are a head that says this id or none.
pub(crate) fn is_block_head_of<A: Allocator>(id: &str, lines: &OwnedBlock<A>) -> bool
    ensures { result ≡ is_head_of id.now lines.now }
{
    let Some(head) = Head::parse(&lines.as_block()) else {
        return false;
    };
    match head.message_id() {
        Some(said) => said.as_str() == id,
        None => true,
    }
}
