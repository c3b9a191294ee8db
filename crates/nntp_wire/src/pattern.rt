//! One pattern of a wildmat against the whole of a text (RFC 3977, section 4.2).
ghost use Rattle.std.specs.Prelude.{◌↔◌, List, ℕ, map, IsTrue};
ghost use Rattle.nntp_wire.specs.Name.{IsUtf8Of};
ghost use Rattle.nntp_wire.specs.Wildmat.{Matches, item_of};
ghost use Rattle.nntp_wire.specs.Inner.Pattern.{Takes, IsShorter};

use crate::group_name::first_char;

/// The step that the first item makes in a text.
enum Step<'a> {
    /// There is no item and no text left.
    Ends,
    /// The item is `*`; these are the items behind it.
    Star(&'a [u8]),
    /// The item takes one character; these are the items and the text behind it.
    One(&'a [u8], &'a [u8]),
    /// The items don't match the text.
    Fails,
}

/// Tells whether the items match the whole text.
///
/// Where they don't fit, the items behind the last `*` are tried one character further on, and
/// never those behind an earlier one: what `*` takes may always be longer. So the steps are in the
/// order of the items times the characters.
pub(crate) fn matches_items(pattern: &[u8], text: &[u8]) -> bool
    ensures { (ps ts : List ℕ) → IsUtf8Of ps pattern.now → IsUtf8Of ts text.now → IsTrue result ↔ Matches (map item_of ps) ts }
{
    let mut items = pattern;
    let mut left = text;
    // The items behind the last `*`, and the text at which they were tried last.
    let mut after = pattern;
    let mut from: &[u8] = &[];
    loop {
        match first_step(items, left) {
            Step::Ends => return true,
            Step::Star(rest) => {
                items = rest;
                after = rest;
                from = left;
            }
            Step::One(rest, others) => {
                items = rest;
                left = others;
            }
            Step::Fails => {
                let Some((_, others)) = first_char(from) else {
                    return false;
                };
                items = after;
                left = others;
                from = others;
            }
        }
    }
}

/// Returns the step that the first item makes in the text.
fn first_step<'a>(items: &'a [u8], text: &'a [u8]) -> Step<'a>
    ensures takes { (ps ts : List ℕ) → IsUtf8Of ps items.now → IsUtf8Of ts text.now → Takes result ps ts }
    ensures shorter { IsShorter result items.now text.now }
{
    let Some((item, rest)) = first_char(items) else {
        return if text.is_empty() {
            Step::Ends
        } else {
            Step::Fails
        };
    };
    if item == '*' {
        return Step::Star(rest);
    }
    let Some((c, others)) = first_char(text) else {
        return Step::Fails;
    };
    if item != '?' && item != c {
        return Step::Fails;
    }
    Step::One(rest, others)
}
