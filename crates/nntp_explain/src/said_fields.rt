//! What an answer tells of the headers of an article, as `explain` prints it.
ghost use Rattle.std.specs.Prelude.{◌≡◌, ◌++◌, ◌∷◌, ◌-◌, [], IfOk, OnOk, length, option_map, take};
ghost use Rattle.std.specs.Option.{option_map_or};
ghost use Rattle.nntp_wire.specs.Listing.{overviews_of};
ghost use Rattle.nntp_wire.specs.Inner.View.{overview_value};
ghost use Rattle.nntp_article.specs.Article.Fields.{fields_of_head, words_in};
ghost use Rattle.nntp_said.specs.Facts.{FieldsAre};
ghost use Rattle.nntp_theory.specs.Given.{fields_of_overview, first_given};
ghost use Rattle.nntp_theory.specs.Conflict.{words_told};
ghost use Rattle.nntp_printing.specs.Printing.{escaped};
ghost use Rattle.nntp_printing.specs.BadAnswer.{shown};
ghost use Rattle.nntp_explain.specs.Says.{field_line, spaced, words_text};

use crate::reasons::put_field_name;
use crate::said_numbers::is_same;
use nntp_article::{Field, FieldWords, Fields};
use nntp_printing::put_escaped;
use nntp_wire::{Block, OverviewLine};
use std::alloc::{AllocError, Allocator};

/// The most octets of the words of a header that a report shows: those that it shows of a line.
const SHOWN: usize = 512;

/// Adds what the first overview with the id tells of the header, if there is one.
pub(crate) fn put_overview_field<A: Allocator + Copy>(
    text: &mut Vec<u8, A>,
    id: &[u8],
    field: Field,
    block: &Block<'_>,
) -> Result<(), AllocError>
    ensures { OnOk result (text.new.items ≡ text.old.items
        ++ option_map_or (field_line id.now field) (words_told id.now field (FieldsAre (overviews_of block.now))) []) }
{
    match fields_of(block, id) {
        Some(fields) => put_field(text, id, field, fields.of(field)),
        None => Ok(()),
    }
}

/// Returns what the first overview with the id that tells of headers tells.
fn fields_of<'a>(block: &Block<'a>, id: &[u8]) -> Option<Fields<'a>>
    ensures { result ≡ first_given (fields_of_overview id.now) (overviews_of block.now) }
{
    for overview in block.overviews() {
        if let Some(fields) = own_fields(&overview, id) {
            return Some(fields);
        }
    }
    None
}

/// Returns what the overview tells of headers, if it has the id.
fn own_fields<'a>(overview: &OverviewLine<'a>, id: &[u8]) -> Option<Fields<'a>>
    ensures { result ≡ fields_of_overview id.now (overview_value overview.now) }
{
    if is_same(overview.id.as_str().as_bytes(), id) {
        Fields::of_overview(overview)
    } else {
        None
    }
}

/// Adds what the head tells of the header, if it is sent.
pub(crate) fn put_head_field<A: Allocator + Copy>(
    text: &mut Vec<u8, A>,
    id: &[u8],
    field: Field,
    head: &Option<Block<'_>>,
) -> Result<(), AllocError>
    ensures { OnOk result (text.new.items ≡ text.old.items
        ++ option_map_or (field_line id.now field) (option_map (λ fields. words_in fields field) (option_map fields_of_head head.now)) []) }
{
    match head {
        Some(lines) => put_field(text, id, field, Fields::of_head(lines).of(field)),
        None => Ok(()),
    }
}

/// Adds the line of a header.
fn put_field<A: Allocator + Copy>(
    text: &mut Vec<u8, A>,
    id: &[u8],
    field: Field,
    words: FieldWords<'_>,
) -> Result<(), AllocError>
    ensures { OnOk result (text.new.items ≡ text.old.items ++ field_line id.now field words.entry) }
{
    put_field_name(text, b"says field ", id, field)?;
    put_words_line(text, words)
}

/// Adds what the words of a header are, if there are some.
fn put_words_line<A: Allocator + Copy>(
    text: &mut Vec<u8, A>,
    words: FieldWords<'_>,
) -> Result<(), AllocError>
    ensures { OnOk result (text.new.items ≡ text.old.items ++ words_text words.entry) }
{
    let mut words = words;
    let Some(first) = words.next() else {
        return text.extend_from_slice(b" is missing\n");
    };
    text.extend_from_slice(b" is ")?;
    put_words(text, first, words)?;
    text.extend_from_slice(b"\n")
}

/// Adds words with a space between, as far as a report shows them.
fn put_words<A: Allocator + Copy>(
    text: &mut Vec<u8, A>,
    first: &[u8],
    more: FieldWords<'_>,
) -> Result<(), AllocError>
    ensures { OnOk result (text.new.items ≡ text.old.items ++ escaped (shown (spaced (first.now ∷ more.entry)))) }
{
    let mut room = put_front(text, first, SHOWN)?;
    for word in more {
        room = put_front(text, b" ", room)?;
        room = put_front(text, word, room)?;
    }
    Ok(())
}

/// Adds the first octets of these, as many as there is room for, and returns the room that is left.
fn put_front<A: Allocator + Copy>(
    text: &mut Vec<u8, A>,
    octets: &[u8],
    room: usize,
) -> Result<usize, AllocError>
    ensures front { OnOk result (text.new.items ≡ text.old.items ++ escaped (take room octets.now)) }
    ensures left { IfOk result (λ left. left ≡ room - length octets.now) }
{
    let (front, _) = octets.split_at(room.min(octets.len()));
    put_escaped(text, front)?;
    Ok(room - front.len())
}
