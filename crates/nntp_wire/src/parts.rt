//! The parts of octets between separators: the patterns of a wildmat, and the fields of an overview (RFC 3977, sections 4.1
//! and 8.3.2).
ghost use Rattle.std.specs.Prelude.{◌≡◌, ◌==◌, ◌∷◌, List, ℕ};
ghost use Rattle.std.specs.Iterator.{YieldsFirstRef, item_count};
ghost use Rattle.std.specs.List.{slice_split};
ghost use Rattle.std.specs.Option.{option_copied};
ghost use Rattle.nntp_wire.specs.Inner.Octets.{parts_left};

use memchr::memchr;
use std::marker::Model;

/// An iterator over the parts between separators, first to last. It yields the octets of each part. There is at least one,
/// which may be empty.
#[derive(Drop)]
pub(crate) struct Parts<'a> {
    separator: u8,
    /// What is left, from the next part on; none behind the last one.
    rest: Option<&'a [u8]>,
}

impl<'a> Model for Parts<'a> {
    ghost Value = { List (List ℕ) };

    ghost view = { λ s. parts_left s.separator (option_copied s.rest) };
}

impl<'a> Parts<'a> {
    /// Begins with the first part of these octets.
    pub(crate) fn new(separator: u8, bytes: &'a [u8]) -> Parts<'a>
        ensures { result ≡ slice_split (λ b. b == separator) bytes.now }
    {
        Parts {
            separator,
            rest: Some(bytes),
        }
    }
}

impl<'a> Iterator for Parts<'a> {
    type Item = &'a [u8];

    ghost next_gives = { YieldsFirstRef (λ parts. parts) };

    ghost remaining = { item_count (λ parts. parts) };

    fn next(&mut self) -> Option<&'a [u8]> {
        let (part, rest) = split_part(self.separator, self.rest?);
        self.rest = rest;
        Some(part)
    }
}

/// Returns the first part, and the octets behind its separator.
fn split_part(separator: u8, bytes: &[u8]) -> (&[u8], Option<&[u8]>)
    ensures { slice_split (λ b. b == separator) bytes.now ≡ result.0.now ∷ parts_left separator (option_copied result.1) }
{
    match memchr(separator, bytes) {
        Some(end) => {
            let (part, rest) = bytes.split_at(end);
            let (_, rest) = rest.split_at(1);
            (part, Some(rest))
        }
        None => (bytes, None),
    }
}
