//! The lines of a text and their fields.
ghost use Rattle.std.specs.Prelude.{◌≡◌, ◌≤◌, ◌^◌, ◌∷◌, [], Some, None, true, option_map, option_copied, MatchOption, if◌then◌else◌};
ghost use Rattle.nntp_store.specs.Inner.Reading.{Gives};
ghost use Rattle.nntp_store.specs.Reading.{line_at};
ghost use Rattle.nntp_store.specs.Fields.{fields_of, are_digits, is_decimal, is_count, value_of, opening_of, number_and_id, unbarred};
ghost use Rattle.nntp_article.specs.Session.Machine.{is_article_number};
ghost use Rattle.nntp_store.specs.Inner.ReadingView.{place_shown, opening_shown, number_line_shown, words_from};

use crate::text::place::{NumberLine, Opening, Place};
use crate::text::read_fault::{Kind, ReadError, ReadFault};
use crate::value::well_formed::is_line;
use memchr::memchr;
use nntp_article::is_article_number;

/// Makes a fault of this kind, told of this line.
pub(crate) fn fault(line: u64, kind: Kind) -> ReadError
    ensures { result ≡ ReadError.Fault (record { line = line; kind = kind }) }
{
    ReadError::Fault(ReadFault { line, kind })
}

/// Returns the next line, without its LF, and the place behind it.
pub(crate) fn next_line(place: Place<'_>) -> Result<(&[u8], Place<'_>), ReadError>
    ensures { Gives (λ x. (x.0.now, place_shown x.1)) result (line_at (place_shown place.entry)) }
{
    match memchr(b'\n', place.rest) {
        None => Err(fault(place.line, Kind::Shape)),
        Some(at) => {
            let (line, behind) = place.rest.split_at(at);
            let (_, rest) = behind.split_at(1);
            Ok((
                line,
                Place {
                    line: place.line + 1,
                    rest,
                },
            ))
        }
    }
}

/// Returns the first field of a line, and what stands behind the space after it.
fn cut(line: &[u8]) -> (&[u8], Option<&[u8]>)
    ensures { fields_of line.now ≡ result.0.now ∷ words_from result.1 }
{
    match memchr(b' ', line) {
        None => (line, None),
        Some(at) => {
            let (word, rest) = line.split_at(at);
            let (_, rest) = rest.split_at(1);
            (word, Some(rest))
        }
    }
}

/// Tells whether each octet is a digit.
fn is_digits(word: &[u8]) -> bool
    ensures { result ≡ are_digits word.now }
{
    word.iter().all(|c| c.is_ascii_digit())
}

/// Tells whether the field is a number without leading zeros.
fn is_decimal_word(word: &[u8]) -> bool
    ensures { result ≡ is_decimal word.now }
{
    match word {
        [] => false,
        [first, rest @ ..] => is_digits(word) && (*first != b'0' || rest.is_empty()),
    }
}

/// Returns the number that digits write, if 64 bits hold it.
fn value(digits: &[u8]) -> Option<u64>
    requires { are_digits digits.now ≡ true }
    ensures { MatchOption result (2 ^ 64 ≤ value_of digits.now) (λ v. v ≡ value_of digits.now) }
{
    let mut value = 0u64;
    for digit in digits {
        let Some(tens) = value.checked_mul(10) else {
            return None;
        };
        let Some(sum) = tens.checked_add((*digit - b'0') as u64) else {
            return None;
        };
        value = sum;
    }
    Some(value)
}

/// Reads a field as a count: a number of 64 bits without leading zeros.
fn count_of(word: &[u8]) -> Option<u64>
    ensures { result ≡ (if is_count word.now then Some (value_of word.now) else None) }
{
    if is_decimal_word(word) {
        value(word)
    } else {
        None
    }
}

/// Reads three fields as the line that begins a group.
fn group_opening<'a>(word: &[u8], name: &'a [u8], count: &[u8]) -> Option<Opening<'a>>
    ensures { option_map opening_shown result ≡ opening_of (word.now ∷ name.now ∷ count.now ∷ []) }
{
    if word != b"group".as_slice() || name.is_empty() {
        return None;
    }
    match count_of(count) {
        Some(count) => Some(Opening::Group { name, count }),
        None => None,
    }
}

/// Reads four fields as the line that begins an article.
fn article_opening<'a>(
    word: &[u8],
    id: &'a [u8],
    heads: &[u8],
    bodies: &[u8],
) -> Option<Opening<'a>>
    ensures { option_map opening_shown result ≡ opening_of (word.now ∷ id.now ∷ heads.now ∷ bodies.now ∷ []) }
{
    if word != b"article".as_slice() || id.is_empty() {
        return None;
    }
    match (count_of(heads), count_of(bodies)) {
        (Some(heads), Some(bodies)) => Some(Opening::Article { id, heads, bodies }),
        _ => None,
    }
}

/// Returns the item that a line begins.
pub(crate) fn opening_of(line: &[u8]) -> Option<Opening<'_>>
    ensures { option_map opening_shown result ≡ opening_of (fields_of line.now) }
{
    let (word, rest) = cut(line);
    let Some(rest) = rest else {
        return if word == b"end".as_slice() {
            Some(Opening::End)
        } else {
            None
        };
    };
    let (first, rest) = cut(rest);
    let Some(rest) = rest else {
        return None;
    };
    let (second, rest) = cut(rest);
    let Some(rest) = rest else {
        return group_opening(word, first, second);
    };
    let (third, rest) = cut(rest);
    match rest {
        None => article_opening(word, first, second, third),
        Some(_) => None,
    }
}

/// Reads two fields as the line of a number.
fn number_line<'a>(digits: &'a [u8], id: &'a [u8]) -> Option<NumberLine<'a>>
    ensures { option_map number_line_shown result ≡ number_and_id (digits.now ∷ id.now ∷ []) }
{
    if is_decimal_word(digits) && !id.is_empty() {
        Some(NumberLine { digits, id })
    } else {
        None
    }
}

/// Reads a line as that of a number and its id.
pub(crate) fn number_and_id(line: &[u8]) -> Option<NumberLine<'_>>
    ensures { option_map number_line_shown result ≡ number_and_id (fields_of line.now) }
{
    let (word, rest) = cut(line);
    let Some(rest) = rest else {
        return None;
    };
    let (id, rest) = cut(rest);
    match rest {
        None => number_line(word, id),
        Some(_) => None,
    }
}

/// Returns the number of a line, if it is an article number.
pub(crate) fn article_number(limit: u64, line: NumberLine<'_>) -> Option<u64>
    ensures { result ≡ (if is_article_number limit (value_of line.entry.digits.now) then Some (value_of line.entry.digits.now) else None) }
{
    match value(line.digits) {
        Some(number) => {
            if is_article_number(limit, number) {
                Some(number)
            } else {
                None
            }
        }
        None => None,
    }
}

/// Returns a line of an article without the `|` in front.
pub(crate) fn unbarred(line: &[u8]) -> Option<&[u8]>
    ensures { option_copied result ≡ unbarred line.now }
{
    match line.split_first() {
        Some((first, rest)) => {
            if *first == b'|' && is_line(rest) {
                Some(rest)
            } else {
                None
            }
        }
        None => None,
    }
}
