//! The overviews that the lines of OVER, XOVER, HDR and XHDR are (RFC 3977, sections 8.3 and 8.5).
ghost use Rattle.std.specs.Prelude.{◌≡◌, ◌<◌, ◌^◌, length, List, ℕ, option_map, is_some, IsTrue};
ghost use Rattle.std.specs.List.{list_all};
ghost use Rattle.std.specs.Iterator.{YieldsFirstBy, item_count};
ghost use Rattle.nntp_wire.specs.Listing.{id_alone, id_of, overview_of, overviews_of, are_overview_lines, number_in_front, id_in_place};
ghost use Rattle.nntp_wire.specs.Listing.{listed_id_of, listed_id_of_words, listed_overview_of, are_listed_ids, number_of_words};
ghost use Rattle.nntp_wire.specs.Words.{words_of};
ghost use Rattle.nntp_wire.specs.Block.{AreClean};
ghost use Rattle.nntp_wire.specs.Inner.Octets.{are_octets};
ghost use Rattle.nntp_wire.specs.Inner.View.{overview_value};

use crate::block::{Block, Lines};
use crate::laws::message_ids_are_decided;
use crate::line::{number, words};
use crate::listed_numbers::listed_number;
use crate::message_id::MessageId;
use crate::owned_block::block_of;
use crate::parts::Parts;
use crate::word::Words;
use std::marker::Model;

/// What a line of the response to OVER or XOVER tells of four headers (RFC 3977, section 8.3.2).
#[derive(Drop)]
pub struct OverviewFields<'a> {
    /// The words of its Subject.
    pub subject: Words<'a>,
    /// The words of its From.
    pub from: Words<'a>,
    /// The words of its Date.
    pub date: Words<'a>,
    /// The words of its References, none where the line ends before them.
    pub references: Words<'a>,
}

impl<'a> Model for OverviewFields<'a> {
    ghost use Rattle.nntp_wire.specs.Listing.{Fields};

    ghost Value = { Fields };

    ghost view = { λ f. record { subject = f.subject; from = f.from; date = f.date; references = f.references } };
}

/// A line of the response to OVER, XOVER, HDR or XHDR, which tells of one article (RFC 3977, sections 8.3 and 8.5).
#[derive(Drop)]
pub struct OverviewLine<'a> {
    /// The article number, which may be 0 where the command named the article by its message-id.
    pub number: u64,
    /// The message-id of the article.
    pub id: MessageId<'a>,
    /// What is told of its headers. It is `None` in a line of HDR or XHDR.
    pub told: Option<OverviewFields<'a>>,
}

/// Reads a line of the response to OVER or XOVER, given without its CRLF (RFC 3977, section 8.3).
///
/// Returns `None` unless the line has five fields or more between TABs, of which the first is one word, a number of 1 to 16
/// digits, and the fifth one word, a message-id. The sixth is the last one that is looked at.
pub fn overview_line(line: &[u8]) -> Option<OverviewLine<'_>>
    ensures { option_map overview_value result ≡ overview_of line.now }
{
    let mut fields = Parts::new(b'\t', line);
    match (
        fields.next(),
        fields.next(),
        fields.next(),
        fields.next(),
        fields.next(),
    ) {
        (Some(number), Some(subject), Some(from), Some(date), Some(id)) => Some(OverviewLine {
            number: listed_number(number)?,
            id: id_alone(id)?,
            told: Some(OverviewFields {
                subject: words(subject),
                from: words(from),
                date: words(date),
                references: words(fields.next().unwrap_or(&[])),
            }),
        }),
        _ => None,
    }
}

/// Reads a line of the response to HDR or XHDR about Message-ID, given without its CRLF (RFC 3977, section 8.5).
///
/// Returns `None` unless the line has no TAB and two words, a number of 1 to 16 digits and a message-id.
pub fn listed_id(line: &[u8]) -> Option<OverviewLine<'_>>
    ensures { option_map overview_value result ≡ listed_id_of line.now }
{
    let mut fields = Parts::new(b'\t', line);
    match (fields.next(), fields.next()) {
        (Some(field), None) => listed_id_of_field(field),
        _ => None,
    }
}

/// Reads a field that is two words, a number and a message-id.
fn listed_id_of_field(field: &[u8]) -> Option<OverviewLine<'_>>
    ensures { option_map overview_value result ≡ listed_id_of_words (words_of field.now) }
{
    let mut words = words(field);
    match (words.next(), words.next(), words.next()) {
        (Some(number_word), Some(id), None) => Some(OverviewLine {
            number: number(number_word)?,
            id: id_of(id)?,
            told: None,
        }),
        _ => None,
    }
}

/// Reads what a line of either kind tells of one article.
fn listed_overview(line: &[u8]) -> Option<OverviewLine<'_>>
    ensures { option_map overview_value result ≡ listed_overview_of line.now }
{
    match overview_line(line) {
        Some(overview) => Some(overview),
        None => listed_id(line),
    }
}

/// Reads a field that is one word, a message-id.
fn id_alone(field: &[u8]) -> Option<MessageId<'_>>
    ensures { result ≡ id_alone (words_of field.now) }
{
    let mut words = words(field);
    match (words.next(), words.next()) {
        (Some(word), None) => id_of(word),
        _ => None,
    }
}

/// Reads a word that is a message-id.
fn id_of(word: &[u8]) -> Option<MessageId<'_>>
    ensures { result ≡ id_of word.now }
{
    message_ids_are_decided();
    MessageId::parse(word)
}

/// Tells whether the first field of the line is one number.
pub(crate) fn has_number_in_front(line: &[u8]) -> bool
    ensures { result ≡ is_some (number_in_front line.now) }
{
    match Parts::new(b'\t', line).next() {
        Some(field) => listed_number(field).is_some(),
        None => false,
    }
}

/// Tells whether the fifth field of the line is one message-id.
pub(crate) fn has_id_in_place(line: &[u8]) -> bool
    ensures { result ≡ is_some (id_in_place line.now) }
{
    match Parts::new(b'\t', line).nth(4) {
        Some(field) => id_alone(field).is_some(),
        None => false,
    }
}

/// Tells whether the first word of the line is a number.
pub(crate) fn begins_with_number(line: &[u8]) -> bool
    ensures { result ≡ is_some (number_of_words (words_of line.now)) }
{
    match words(line).next() {
        Some(word) => number(word).is_some(),
        None => false,
    }
}

/// Tells whether the line is one of HDR or XHDR.
pub(crate) fn is_listed_id(line: &[u8]) -> bool
    ensures { result ≡ is_some (listed_id_of line.now) }
{
    listed_id(line).is_some()
}

/// Tells whether each line of the block is one of HDR or XHDR.
pub(crate) fn are_listed_ids(block: &Block<'_>) -> bool
    ensures { result ≡ are_listed_ids block.now }
{
    block.lines().all(|line| is_listed_id(line))
}

/// Tells whether the line is one of OVER or XOVER.
fn is_overview_line(line: &[u8]) -> bool
    ensures { result ≡ is_some (overview_of line.now) }
{
    overview_line(line).is_some()
}

/// Tells whether each line of the block is one of OVER or XOVER.
pub(crate) fn are_overview_lines(block: &Block<'_>) -> bool
    ensures { result ≡ are_overview_lines block.now }
{
    block.lines().all(|line| is_overview_line(line))
}

/// An iterator over what the lines of a block tell of articles, first to last (RFC 3977, sections 8.3 and 8.5). It yields
/// nothing for a line that tells of none.
#[derive(Drop)]
pub struct OverviewLines<'a> {
    lines: Lines<'a>,
}

impl<'a> Model for OverviewLines<'a> {
    ghost use Rattle.std.specs.Prelude.{List};
    ghost use Rattle.nntp_wire.specs.Listing.{OverviewValue, overviews_of};

    ghost Value = { List OverviewValue };

    ghost view = { λ s. overviews_of s.lines };
}

impl<'a> Block<'a> {
    /// Returns what the lines tell of articles, first to last (RFC 3977, sections 8.3 and 8.5).
    ///
    /// A line that [`overview_line`] and [`listed_id`] refuse is passed over. The block of
    /// [`Answer::Overviews`](crate::Answer::Overviews) has no such line.
    pub fn overviews(&self) -> OverviewLines<'a>
        ensures listed { result ≡ overviews_of self.now }
        ensures clean { AreClean self.now }
        ensures octets { IsTrue (list_all are_octets self.now) }
        ensures short { length result < 2 ^ 64 }
    {
        OverviewLines {
            lines: block_of(self.sent).lines(),
        }
    }
}

impl<'a> Iterator for OverviewLines<'a> {
    type Item = OverviewLine<'a>;

    ghost next_gives = { YieldsFirstBy overview_value (λ overviews. overviews) };

    ghost remaining = { item_count (λ overviews. overviews) };

    fn next(&mut self) -> Option<OverviewLine<'a>> {
        while let Some(line) = self.lines.next() {
            if let Some(overview) = listed_overview(line) {
                return Some(overview);
            }
        }
        None
    }
}
