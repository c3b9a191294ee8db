//! The search for some octets in a stream that grows.
ghost use Rattle.std.specs.Prelude.{◌≡◌, ◌<◌, ◌≤◌, ◌+◌, ◌-◌, ℕ, List, length, slice_index, IsTrue, IsFalse};
ghost use Rattle.memchr.specs.Find.{FindsNeedle, OccursAt};
ghost use Rattle.nntp_wire.specs.Octets.{crlf};
ghost use Rattle.nntp_wire.specs.Inner.Block.{end_of_block};
ghost use Rattle.nntp_wire.specs.Inner.Search.{IsSearched, IsThrough};

use memchr::{memchr, memmem};

/// How many of the first dots are looked at one by one, before many octets are searched at once:
/// those of an article of some lines, its last among them.
const FIRST_DOTS: usize = 16;

/// A search for some octets, its needle, in a stream that grows. No octet that can't begin or end
/// the needle any more is looked at again.
#[derive(Clone, Copy, PartialEq, Eq)]
pub(crate) enum Search {
    /// The needle begins at none of so many octets at the front of the stream, whatever follows.
    Passed(usize),
    /// The needle begins behind so many octets, and nowhere before.
    Found(usize),
}

impl Search {
    /// Begins a search.
    pub(crate) fn new() -> Search
        ensures { (needle stream : List ℕ) → IsSearched needle stream result }
    {
        Search::Passed(0)
    }

    /// Goes on with the search, up to the end of the stream, of which it has seen all or a front.
    pub(crate) fn go_on(&mut self, needle: &[u8], stream: &[u8])
        requires some { 0 < length needle.now }
        requires searched { IsSearched needle.now stream.now self.old }
        ensures searched { IsSearched needle.now stream.now self.new }
        ensures through { IsThrough needle.now stream.now self.new }
    {
        let Search::Passed(passed) = *self else {
            return;
        };
        let (_, ahead) = stream.split_at(passed);
        *self = match find(ahead, needle) {
            Some(end) => Search::Found(passed + end),
            None => Search::Passed((stream.len() + 1).saturating_sub(needle.len())),
        };
    }
}

/// Returns where the needle begins first in the octets.
fn find(octets: &[u8], needle: &[u8]) -> Option<usize>
    ensures { FindsNeedle octets.now needle.now 0 result }
{
    if needle == b"\r\n".as_slice() {
        return find_crlf(octets);
    }
    if needle == b"\r\n.\r\n".as_slice() {
        return find_block_end(octets);
    }
    memmem::find(octets, needle)
}

/// Returns where the first CRLF begins in the octets, which mostly is at the first CR.
fn find_crlf(octets: &[u8]) -> Option<usize>
    ensures { FindsNeedle octets.now crlf 0 result }
{
    let at = memchr(b'\r', octets)?;
    if octets.get(at + 1) == Some(&b'\n') {
        return Some(at);
    }
    memmem::find(octets, b"\r\n")
}

/// Returns where CRLF, a dot and CRLF begin first in the octets. In a short block that is at one of
/// its first dots.
fn find_block_end(octets: &[u8]) -> Option<usize>
    ensures { FindsNeedle octets.now end_of_block 0 result }
{
    let mut seen = 0;
    for _dot in 0..FIRST_DOTS {
        let (_, ahead) = octets.split_at(seen);
        let dot = seen + memchr(b'.', ahead)?;
        if is_dot_line(octets, dot) {
            return Some(dot - 2);
        }
        seen = dot + 1;
    }
    memmem::find(octets, b"\r\n.\r\n")
}

/// Tells whether CRLF stands before a dot and behind it.
fn is_dot_line(octets: &[u8], dot: usize) -> bool
    requires is_dot { slice_index octets.now dot ≡ 46 }
    requires within { dot < length octets.now }
    ensures yes { IsTrue result → (2 ≤ dot) × OccursAt octets.now end_of_block (dot - 2) }
    ensures no { IsFalse result → (k : ℕ) → k + 2 ≡ dot → ¬ (OccursAt octets.now end_of_block k) }
{
    dot >= 2
        && octets.len() - dot >= 3
        && octets[dot - 2] == b'\r'
        && octets[dot - 1] == b'\n'
        && octets[dot + 1] == b'\r'
        && octets[dot + 2] == b'\n'
}
