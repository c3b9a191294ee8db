//! Headers (RFC 3977, section 3.6; RFC 1036, section 2).
ghost use Rattle.std.specs.Prelude.{◌≡◌, ◌<◌, ◌^◌, ◌++◌, if◌then◌else◌, [], ◌∷◌, IsTrue, MatchOption, IfOk, length};
ghost use Rattle.std.specs.List.{list_all, prefix_len};
ghost use Rattle.std.specs.Iterator.{YieldsFirst, item_count};
ghost use Rattle.nntp_article.specs.Article.Parts.{headers, is_empty, is_header, is_continuation, name_of, content_of, skip_blanks};

use crate::article::head_line::{is_continuation, skip_blanks, skip_last_blanks, split_at_colon};
use nntp_wire::{Block, Lines};
use std::alloc::{AllocError, Allocator};
use std::marker::Model;

/// A header of a head: its first line, and the lines that continue it (RFC 3977, section 3.6). Only
/// `Head::headers` makes one.
#[derive(Drop)]
pub struct Header<'a> {
    name: &'a [u8],
    lines: Block<'a>,
}

impl<'a> Model for Header<'a> {
    ghost use Rattle.std.specs.Prelude.{◌≡◌, IsTrue, List, ℕ};
    ghost use Rattle.nntp_article.specs.Article.Parts.{is_header, name_of};

    ghost Value = { List (List ℕ) };

    ghost view = { λ h. h.lines };

    ghost invariant = { λ h. IsTrue (is_header h.lines) × (h.name.now ≡ name_of h.lines) };
}

impl<'a> Header<'a> {
    /// The octets of the header's name, as they stand before the first colon.
    pub fn name(&self) -> &'a [u8]
        ensures { result.now ≡ name_of self.now }
    {
        self.name
    }

    /// All lines of the header: the first, and its continuation lines, which begin with SP or TAB.
    pub fn lines(&self) -> Block<'a>
        ensures lines { result ≡ self.now }
        ensures is_header { IsTrue (is_header self.now) }
    {
        self.lines.copy()
    }
}

/// The headers of a head, first to last.
#[derive(Drop)]
pub struct Headers<'a> {
    rest: Block<'a>,
}

impl<'a> Model for Headers<'a> {
    ghost use Rattle.std.specs.Prelude.{IsTrue, List, ℕ};
    ghost use Rattle.std.specs.List.{list_all};
    ghost use Rattle.nntp_article.specs.Article.Parts.{headers, is_header};

    ghost Value = { List (List (List ℕ)) };

    ghost view = { λ h. headers h.rest };

    ghost invariant = { λ h. IsTrue (list_all is_header (headers h.rest)) };
}

impl<'a> Headers<'a> {
    pub(crate) fn new(lines: Block<'a>) -> Headers<'a>
        requires { IsTrue (list_all is_header (headers lines)) }
        ensures { result ≡ headers lines.entry }
    {
        Headers { rest: lines }
    }
}

impl<'a> Iterator for Headers<'a> {
    type Item = Header<'a>;

    ghost next_gives = { YieldsFirst (λ headers. headers) };

    ghost remaining = { item_count (λ headers. headers) };

    fn next(&mut self) -> Option<Header<'a>> {
        let (header, rest) = split_header(&self.rest)?;
        self.rest = rest;
        Some(header)
    }
}

/// The first header, and the lines behind it.
fn split_header<'a>(lines: &Block<'a>) -> Option<(Header<'a>, Block<'a>)>
    requires { IsTrue (list_all is_header (headers lines.now)) }
    ensures { MatchOption result (headers lines.now ≡ []) (λ p. headers lines.now ≡ p.0 ∷ headers p.1) }
{
    let mut rest = lines.lines();
    let first = rest.next()?;
    let (name, _) = split_at_colon(first);
    let (lines, rest) = lines.split_at_line(1 + continuation_len(rest));
    Some((Header { name, lines }, rest))
}

/// How many lines continue the header before them.
fn continuation_len(lines: Lines<'_>) -> usize
    requires { length lines < 2 ^ 64 }
    ensures { result ≡ prefix_len is_continuation lines.entry }
{
    let mut lines = lines;
    let mut count = 0;
    while let Some(line) = lines.next() {
        if !is_continuation(line) {
            return count;
        }
        count += 1;
    }
    count
}

/// The octets of a header's content: what follows the colon, with the continuation lines as they
/// are, without SP and TAB at both ends (RFC 3977, section 3.6). The memory is taken from `alloc`.
///
/// # Errors
///
/// Where memory was refused.
pub fn content<A: Allocator + Copy>(alloc: A, header: &Header<'_>) -> Result<Vec<u8, A>, AllocError>
    ensures { IfOk result (λ octets. octets.items ≡ content_of header.now) }
{
    let mut lines = header.lines.lines();
    let mut octets = Vec::new(alloc);
    let Some(first) = lines.next() else {
        return Ok(octets);
    };
    let (_, value) = split_at_colon(first);
    append(&mut octets, value)?;
    while let Some(line) = lines.next() {
        append(&mut octets, line)?;
    }
    let len = skip_last_blanks(&octets).len();
    octets.truncate(len);
    Ok(octets)
}

/// Puts a piece behind the octets, without SP and TAB at their front.
fn append<A: Allocator>(octets: &mut Vec<u8, A>, piece: &[u8]) -> Result<(), AllocError>
    ensures { IfOk result (λ _. octets.new.items
        ≡ (if is_empty octets.old.items then skip_blanks piece.now else octets.old.items ++ piece.now)) }
{
    if octets.is_empty() {
        octets.extend_from_slice(skip_blanks(piece))
    } else {
        octets.extend_from_slice(piece)
    }
}
