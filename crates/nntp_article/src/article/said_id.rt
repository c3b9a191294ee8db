//! The id that the lines of a head say (RFC 1036, section 2.1.5).
//!
//! A message id has no blank inside and a continuation line begins with one, so the content of
//! a header is a message id exactly if that is the only word of its lines behind the colon.
ghost use Rattle.std.specs.Prelude.{◌≡◌, ◌++◌, ◌∷◌, false, IsTrue, List, [], ℕ};
ghost use Rattle.std.specs.List.{list_all, after_first};
ghost use Rattle.std.specs.Option.{SomeIff, option_copied};
ghost use Rattle.nntp_wire.specs.Inner.Held.{held};
ghost use Rattle.nntp_wire.specs.Octets.{is_clean};
ghost use Rattle.nntp_wire.specs.Words.{words_of};
ghost use Rattle.nntp_article.specs.Article.Parts.{Line, Header, is_colon, is_continuation, is_head, is_clean_head, said_id};
ghost use Rattle.nntp_article.specs.Inner.Parts.{is_head_line};
ghost use Rattle.nntp_article.specs.Inner.SaidId.{names_id, id_with, id_by};

use crate::article::head_line::{
    begins_header, is_clean, is_continuation, is_head_line, split_at_colon,
};
use nntp_wire::{MessageId, is_same_word, words};
use std::alloc::Allocator;

/// What the lines so far hold of Message-ID headers.
#[derive(Clone, Copy)]
enum Found<'a> {
    /// No such header.
    NoHeader,
    /// One, with no word behind the colon.
    NoWord,
    /// One, with one word behind the colon.
    Word(&'a [u8]),
    /// More than one, or one with more words: they say no id.
    NoId,
}

impl<'a> Found<'a> {
    /// The same with more octets of the content.
    fn with(self, octets: &'a [u8]) -> Found<'a>
        ensures { (more : List (List ℕ)) (ids : List Header)
            → id_with result more ids ≡ id_with self.entry (words_of octets.now ++ more) ids }
    {
        let mut words = words(octets);
        match (self, words.next(), words.next()) {
            (_, None, _) => self,
            (Found::NoWord, Some(word), None) => Found::Word(word),
            (Found::NoHeader, _, _) => self,
            (_, _, _) => Found::NoId,
        }
    }
}

/// What the lines of a head so far say of its id.
#[derive(Clone, Copy)]
pub(crate) struct SaidId<'a> {
    found: Found<'a>,
    /// Whether the last line is one of a Message-ID header.
    is_open: bool,
}

impl<'a> SaidId<'a> {
    /// What no line says.
    pub(crate) fn new() -> SaidId<'a>
        ensures { (lines : List Line) → id_by result lines ≡ said_id lines }
    {
        SaidId {
            found: Found::NoHeader,
            is_open: false,
        }
    }

    /// Takes one more line.
    pub(crate) fn note(&mut self, line: &'a [u8])
        ensures { (lines : List Line) → id_by self.new lines ≡ id_by self.old (line.now ∷ lines) }
    {
        *self = self.with(line);
    }

    /// The same with one more line.
    fn with(self, line: &'a [u8]) -> SaidId<'a>
        ensures { (lines : List Line) → id_by result lines ≡ id_by self.entry (line.now ∷ lines) }
    {
        if !is_continuation(line) {
            return self.begin(line);
        }
        if !self.is_open {
            return self;
        }
        SaidId {
            found: self.found.with(line),
            is_open: true,
        }
    }

    /// The same with the first line of a header.
    fn begin(self, line: &'a [u8]) -> SaidId<'a>
        requires { is_continuation line.now ≡ false }
        ensures { (lines : List Line) → id_by result lines ≡ id_by self.entry (line.now ∷ lines) }
    {
        let Some(value) = id_value(line) else {
            return SaidId {
                found: self.found,
                is_open: false,
            };
        };
        let found = match self.found {
            Found::NoHeader => Found::NoWord.with(value),
            _ => Found::NoId,
        };
        SaidId {
            found,
            is_open: true,
        }
    }

    /// The id that the lines say.
    pub(crate) fn id(self) -> Option<MessageId<'a>>
        ensures { result ≡ id_by self.entry [] }
    {
        match self.found {
            Found::Word(word) => MessageId::parse(word),
            _ => None,
        }
    }
}

/// What stands behind the colon of a line that begins a Message-ID header.
fn id_value(line: &[u8]) -> Option<&[u8]>
    ensures { SomeIff (option_copied result) (IsTrue (names_id line.now)) (after_first is_colon line.now) }
{
    // Most names begin with another letter: no colon is searched for in their lines.
    if !matches!(line, [b'M' | b'm', ..]) {
        return None;
    }
    let (name, value) = split_at_colon(line);
    if !is_same_word(name, b"Message-ID") {
        return None;
    }
    Some(value)
}

/// The message id that these lines say, where they are a head: the same as `Head::message_id` (RFC
/// 1036, section 2.1.5). None where they are no head or one of them holds NUL, CR or LF; Some(None)
/// where the head says no id.
pub fn lines_say<A: Allocator>(lines: &[Vec<u8, A>]) -> Option<Option<MessageId<'_>>>
    ensures { SomeIff result (IsTrue (is_clean_head (held lines.now))) (said_id (held lines.now)) }
{
    if !is_clean_head(lines) {
        return None;
    }
    Some(id_of(lines))
}

/// Whether the lines are a head, and none holds NUL, CR or LF.
fn is_clean_head<A: Allocator>(lines: &[Vec<u8, A>]) -> bool
    ensures { result ≡ is_clean_head (held lines.now) }
{
    are_clean(lines) && is_head(lines)
}

/// Whether no line holds NUL, CR or LF.
fn are_clean<A: Allocator>(lines: &[Vec<u8, A>]) -> bool
    ensures { result ≡ list_all is_clean (held lines.now) }
{
    let mut rest = lines;
    while let Some((line, others)) = rest.split_first() {
        if !is_clean(line) {
            return false;
        }
        rest = others;
    }
    true
}

/// Whether the lines are one or more headers.
fn is_head<A: Allocator>(lines: &[Vec<u8, A>]) -> bool
    ensures { result ≡ is_head (held lines.now) }
{
    let Some((first, more)) = lines.split_first() else {
        return false;
    };
    begins_header(first) && are_head_lines(more)
}

/// Whether each line begins a header or continues one.
fn are_head_lines<A: Allocator>(lines: &[Vec<u8, A>]) -> bool
    ensures { result ≡ list_all is_head_line (held lines.now) }
{
    let mut rest = lines;
    while let Some((line, others)) = rest.split_first() {
        if !is_head_line(line) {
            return false;
        }
        rest = others;
    }
    true
}

/// The id that the lines say.
fn id_of<A: Allocator>(lines: &[Vec<u8, A>]) -> Option<MessageId<'_>>
    ensures { result ≡ said_id (held lines.now) }
{
    let mut said = SaidId::new();
    let mut rest = lines;
    while let Some((line, others)) = rest.split_first() {
        said.note(line);
        rest = others;
    }
    said.id()
}
