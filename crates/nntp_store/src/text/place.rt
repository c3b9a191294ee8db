//! The places of a text that is read, and what stands there.
ghost use Rattle.std.specs.Prelude.{◌≡◌, ◌<◌, ◌+◌, ◌-◌, ◌^◌, true, length};
ghost use Rattle.nntp_store.specs.Fields.{is_decimal};

use nntp_content::Content;
use std::alloc::Allocator;

/// The place of the reader: the next line's number, and the octets from there on.
#[derive(Clone, Copy)]
pub(crate) struct Place<'a> {
    /// The number of the next line, which counts from 1.
    pub(crate) line: u64,
    /// The octets from the next line on.
    pub(crate) rest: &'a [u8],
    ghost in_range: { line + length rest.now < 2 ^ 64 - 1 },
}

/// A line that begins a group or an article, or ends the text.
pub(crate) enum Opening<'a> {
    /// The line begins a group that has so many numbers.
    Group {
        /// The octets of the group's name.
        name: &'a [u8],
        /// The number of number lines that follow.
        count: u64,
    },
    /// The line begins an article whose head and body have so many lines.
    Article {
        /// The octets of the article's message-id.
        id: &'a [u8],
        /// The number of lines of the head.
        heads: u64,
        /// The number of lines of the body.
        bodies: u64,
    },
    /// The line ends the text.
    End,
}

/// The line of a number: its digits, without leading zeros, and its id.
#[derive(Clone, Copy)]
pub(crate) struct NumberLine<'a> {
    /// The digits of the number, without leading zeros.
    pub(crate) digits: &'a [u8],
    /// The octets of the id.
    pub(crate) id: &'a [u8],
    ghost decimal: { is_decimal digits.now ≡ true },
}

/// The way on from an item: to the next one, or to the end.
#[derive(Drop)]
pub(crate) enum Turn<'a, A: Allocator> {
    /// The text goes on at the place, behind an article or not.
    On {
        articles: bool,
        place: Place<'a>,
    },
    /// The text is done at the place, and has this content.
    Done {
        content: Content<A>,
        place: Place<'a>,
    },
}
