//! The first line of a capability list (RFC 3977, section 5.2).
ghost use Rattle.std.specs.Prelude.{◌≡◌};
ghost use Rattle.nntp_wire.specs.Listing.{begins_with_versions, gives_versions, are_versions, is_version};

use crate::block::Block;
use crate::line::{are_digits, is_same_word, words};
use crate::word::Words;

/// Tells whether the first line of a capability list gives versions.
pub(crate) fn begins_with_versions(block: &Block<'_>) -> bool
    ensures { result ≡ begins_with_versions block.now }
{
    match block.lines().next() {
        Some(line) => gives_versions(words(line)),
        None => false,
    }
}

/// Tells whether the words are VERSION and then versions.
pub(crate) fn gives_versions(mut words: Words<'_>) -> bool
    ensures { result ≡ gives_versions words.entry }
{
    match words.next() {
        Some(keyword) => is_same_word(keyword, b"VERSION") && are_versions(words),
        None => false,
    }
}

/// Tells whether the words are one or more versions.
fn are_versions(mut words: Words<'_>) -> bool
    ensures { result ≡ are_versions words.entry }
{
    match words.next() {
        Some(first) => is_version(first) && words.all(|word| is_version(word)),
        None => false,
    }
}

/// Tells whether the word is digits, the first of them not 0.
fn is_version(word: &[u8]) -> bool
    ensures { result ≡ is_version word.now }
{
    are_digits(word) && word.first() != Some(&b'0')
}
