//! The words of a line (RFC 3977, section 3.1).
ghost use Rattle.std.specs.Prelude.{◌≡◌, ◌<◌, List, [], ◌∷◌, ℕ, length, slice_index, true, false, IfSome, MatchOption};
ghost use Rattle.std.specs.List.{flat_map};
ghost use Rattle.std.specs.Iterator.{YieldsFirstRef, item_count};
ghost use Rattle.nntp_wire.specs.Inner.Words.{are_joined};
ghost use Rattle.nntp_wire.specs.Octets.{is_blank, space};
ghost use Rattle.nntp_wire.specs.Words.{words_of};

use memchr::memchr2;
use std::marker::Model;

/// An iterator over the words of a line, first to last (RFC 3977, section 3.1). It yields the
/// octets of each word.
#[derive(Drop)]
pub struct Words<'a> {
    rest: &'a [u8],
}

impl<'a> Model for Words<'a> {
    ghost Value = { List (List ℕ) };

    ghost view = { λ s. words_of s.rest.now };
}

impl<'a> Words<'a> {
    /// Begins with the first word of the line.
    pub(crate) fn new(line: &'a [u8]) -> Words<'a>
        ensures { result ≡ words_of line.now }
    {
        Words { rest: line }
    }

    /// Returns the octets of all words, if they stand with one SP between each two and nothing behind the last.
    pub fn joined(&self) -> Option<&'a [u8]>
        ensures { IfSome result (λ text. flat_map (λ w. space ∷ w) self.now ≡ space ∷ text.now) }
    {
        if are_joined(self.rest) {
            Some(self.rest)
        } else {
            None
        }
    }

    /// Returns the same words once more.
    pub fn copy(&self) -> Words<'a>
        ensures { result ≡ self.now }
    {
        Words { rest: self.rest }
    }
}

impl<'a> Iterator for Words<'a> {
    type Item = &'a [u8];

    ghost next_gives = { YieldsFirstRef (λ words. words) };

    ghost remaining = { item_count (λ words. words) };

    fn next(&mut self) -> Option<&'a [u8]> {
        let Some((word, rest)) = split_word(self.rest) else {
            self.rest = &[];
            return None;
        };
        self.rest = rest;
        Some(word)
    }
}

/// Tells whether the octets are words with one SP between each two, and nothing in front of the first or behind the last.
fn are_joined(text: &[u8]) -> bool
    ensures { result ≡ are_joined true text.now }
{
    let mut is_behind_blank = true;
    for octet in text {
        if *octet == b'\t' || (*octet == b' ' && is_behind_blank) {
            return false;
        }
        is_behind_blank = *octet == b' ';
    }
    !is_behind_blank
}

/// Returns the first word, and the octets behind it.
fn split_word(line: &[u8]) -> Option<(&[u8], &[u8])>
    ensures { MatchOption result (words_of line.now ≡ []) (λ p. words_of line.now ≡ p.0.now ∷ words_of p.1.now) }
{
    let rest = skip_blanks(line);
    if rest.is_empty() {
        return None;
    }
    let end = memchr2(b' ', b'\t', rest).unwrap_or(rest.len());
    Some(rest.split_at(end))
}

/// Returns the octets from the first on that is no SP and no TAB.
pub(crate) fn skip_blanks(line: &[u8]) -> &[u8]
    ensures words { words_of result.now ≡ words_of line.now }
    ensures first { 0 < length result.now → is_blank (slice_index result.now 0) ≡ false }
{
    let mut rest = line;
    while let Some((first, others)) = rest.split_first() {
        if *first != b' ' && *first != b'\t' {
            return rest;
        }
        rest = others;
    }
    rest
}
