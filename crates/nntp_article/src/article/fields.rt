//! What heads and overviews tell of four headers (RFC 3977, section 8.3.2).
ghost use Rattle.std.specs.Prelude.{◌≡◌, ◌≢◌, ◌↔◌, ◌∷◌, IsTrue, IfSome, MatchOption};
ghost use Rattle.std.specs.List.{flat_map};
ghost use Rattle.std.specs.Iterator.{YieldsFirstRef, item_count};
ghost use Rattle.nntp_wire.specs.Inner.View.{overview_value};
ghost use Rattle.nntp_wire.specs.Octets.{space};
ghost use Rattle.nntp_article.specs.Article.Parts.{headers};
ghost use Rattle.nntp_article.specs.Article.Fields.{name_of_field, words_in, words_named, fields_of_head};

use crate::article::field::Field;
use crate::article::head_line::{is_continuation, split_at_colon};
use nntp_wire::{Block, Lines, OverviewLine, Words, is_same_word, words};
use std::marker::Model;

/// An iterator over the words of a header, first to last: those of its first line behind the colon,
/// and those of the lines that continue it. It yields the octets of each word.
#[derive(Drop)]
pub struct FieldWords<'a> {
    /// The words of the line that it is at.
    words: Words<'a>,
    /// The lines behind, up to which the header may go on. None where it ends with these words.
    lines: Option<Lines<'a>>,
}

impl<'a> Model for FieldWords<'a> {
    ghost use Rattle.std.specs.Prelude.{List, ℕ};
    ghost use Rattle.nntp_article.specs.Inner.Fields.{words_left};

    ghost Value = { List (List ℕ) };

    ghost view = { λ f. words_left f.words f.lines };
}

impl<'a> FieldWords<'a> {
    /// The words of the first header that has the name of the field, none where no line begins one.
    fn of_head(lines: &Block<'a>, field: Field) -> FieldWords<'a>
        ensures { result ≡ words_named (name_of_field field) (headers lines.now) }
    {
        let mut rest = lines.lines();
        while let Some(line) = rest.next() {
            let (name, value) = split_at_colon(line);
            if is_same_word(name, field.name().as_bytes()) {
                return FieldWords {
                    words: words(value),
                    lines: Some(rest),
                };
            }
        }
        FieldWords::of_line(words(&[]))
    }

    /// The words of a header that no line continues.
    fn of_line(words: Words<'a>) -> FieldWords<'a>
        ensures { result ≡ words.entry }
    {
        FieldWords { words, lines: None }
    }

    /// Returns the octets of all words, if they stand in one line with one SP between each two and nothing behind the last.
    pub(crate) fn joined(&self) -> Option<&'a [u8]>
        ensures { IfSome result (λ text. flat_map (λ w. space ∷ w) self.now ≡ space ∷ text.now) }
    {
        match self.lines {
            Some(_) => None,
            None => self.words.joined(),
        }
    }

    /// Whether the others are the same words, in the same order, octet by octet.
    fn is_same(self, others: FieldWords<'_>) -> bool
        ensures { IsTrue result ↔ (self.entry ≡ others.entry) }
    {
        let mut left = self;
        let mut right = others;
        while let Some(word) = left.next() {
            if right.next() != Some(word) {
                return false;
            }
        }
        right.next().is_none()
    }
}

impl<'a> Iterator for FieldWords<'a> {
    type Item = &'a [u8];

    ghost next_gives = { YieldsFirstRef (λ words. words) };

    ghost remaining = { item_count (λ words. words) };

    fn next(&mut self) -> Option<&'a [u8]> {
        if let Some(word) = self.words.next() {
            return Some(word);
        }
        let mut lines = self.lines.take()?;
        while let Some(line) = lines.next() {
            if !is_continuation(line) {
                return None;
            }
            self.words = words(line);
            if let Some(word) = self.words.next() {
                self.lines = Some(lines);
                return Some(word);
            }
        }
        None
    }
}

/// What a head or an overview tells of four headers: the words of each, none where it has no such
/// header.
#[derive(Drop)]
pub struct Fields<'a> {
    /// The words of its Subject.
    pub subject: FieldWords<'a>,
    /// The words of its From.
    pub from: FieldWords<'a>,
    /// The words of its Date.
    pub date: FieldWords<'a>,
    /// The words of its References.
    pub references: FieldWords<'a>,
}

impl<'a> Model for Fields<'a> {
    ghost use Rattle.nntp_wire.specs.Listing.{Fields as FieldsValue};

    ghost Value = { FieldsValue };

    ghost view = { λ f. record { subject = f.subject; from = f.from; date = f.date; references = f.references } };
}

impl<'a> Fields<'a> {
    /// What the head tells: of each name the first header, upper or lower case.
    pub fn of_head(lines: &Block<'a>) -> Fields<'a>
        ensures { result ≡ fields_of_head lines.now }
    {
        Fields {
            subject: FieldWords::of_head(lines, Field::Subject),
            from: FieldWords::of_head(lines, Field::From),
            date: FieldWords::of_head(lines, Field::Date),
            references: FieldWords::of_head(lines, Field::References),
        }
    }

    /// What a line tells that lists an article. It is `None` for a line of HDR or XHDR, which tells of no header.
    pub fn of_overview(overview: &OverviewLine<'a>) -> Option<Fields<'a>>
        ensures { result ≡ (overview_value overview.now).told }
    {
        let told = overview.told.as_ref()?;
        Some(Fields {
            subject: FieldWords::of_line(told.subject.copy()),
            from: FieldWords::of_line(told.from.copy()),
            date: FieldWords::of_line(told.date.copy()),
            references: FieldWords::of_line(told.references.copy()),
        })
    }

    /// The words of one header.
    pub fn of(self, field: Field) -> FieldWords<'a>
        ensures { result ≡ words_in self.entry field }
    {
        match field {
            Field::Subject => self.subject,
            Field::From => self.from,
            Field::Date => self.date,
            Field::References => self.references,
        }
    }

    /// The first header of which the other tells other words. None where both tell the same.
    pub fn first_difference(self, other: Fields<'_>) -> Option<Field>
        ensures { MatchOption result (self.entry ≡ other.entry) (λ field. words_in self.entry field ≢ words_in other.entry field) }
    {
        if !self.subject.is_same(other.subject) {
            return Some(Field::Subject);
        }
        if !self.from.is_same(other.from) {
            return Some(Field::From);
        }
        if !self.date.is_same(other.date) {
            return Some(Field::Date);
        }
        if !self.references.is_same(other.references) {
            return Some(Field::References);
        }
        None
    }
}
