//! What overviews told of four headers, as it is held.
ghost use Rattle.std.specs.Prelude.{◌≡◌, ◌++◌, ◌∷◌, [], IsTrue, IfOk};
ghost use Rattle.std.specs.List.{list_all, flat_map};
ghost use Rattle.nntp_wire.specs.Octets.{space};
ghost use Rattle.nntp_article.specs.Article.Fields.{name_of_field, field_line, field_lines};
ghost use Rattle.nntp_article.specs.Inner.Fields.{is_word, AreWords};

use crate::article::field::Field;
use crate::article::fields::{FieldWords, Fields};
use nntp_wire::{Block, OwnedBlock};
use std::alloc::{AllocError, Allocator, Global};
use std::marker::Model;

/// What overviews told of four headers (RFC 3977, section 8.3.2), held in as much memory as it needs: as the lines of a
/// head that tells it, and nothing else.
#[derive(Drop)]
pub struct ToldFields<A: Allocator = Global> {
    /// A line for each header that was told with a word.
    lines: OwnedBlock<A>,
}

impl<A: Allocator> Model for ToldFields<A> {
    ghost use Rattle.std.specs.Prelude.{◌≡◌};
    ghost use Rattle.nntp_article.specs.Article.Fields.{fields_of_head, field_lines};
    ghost use Rattle.nntp_wire.specs.Listing.{Fields as FieldsValue};

    ghost Value = { FieldsValue };

    ghost view = { λ t. fields_of_head t.lines };

    ghost invariant = { λ t. t.lines ≡ field_lines (fields_of_head t.lines) };
}

impl<A: Allocator> ToldFields<A> {
    /// Lends what was told.
    pub fn fields(&self) -> Fields<'_>
        ensures fields { result ≡ self.now }
        ensures words { AreWords result }
    {
        Fields::of_head(&self.lines.as_block())
    }

    /// Lends the lines of a head that tell it.
    pub(crate) fn lines(&self) -> Block<'_>
        ensures lines { result ≡ field_lines self.now }
    {
        self.lines.as_block()
    }
}

/// The octets that the lines of a head that is made seldom have more of, so that memory for them is taken once.
pub(crate) const USUAL_HEAD: usize = 512;

/// The octets that the line of a header seldom has more of, so that memory for it is taken once.
pub(crate) const USUAL_LINE: usize = 128;

impl<A: Allocator + Copy> ToldFields<A> {
    /// Holds what an overview tells.
    ///
    /// # Errors
    ///
    /// If memory is refused.
    pub fn of(alloc: A, told: Fields<'_>) -> Result<ToldFields<A>, AllocError>
        requires { AreWords told }
        ensures { IfOk result (λ held. held ≡ told.entry) }
    {
        let mut head = OwnedBlock::with_capacity(alloc, USUAL_HEAD)?;
        let mut line = Vec::with_capacity(alloc, USUAL_LINE)?;
        push_fields(&mut head, &mut line, told)?;
        let lines = head.as_block().to_owned(alloc)?;
        Ok(ToldFields { lines })
    }
}

/// Puts the lines of headers that tell this of the four behind the others. Each is written in memory that an earlier one was
/// written in.
fn push_fields<A: Allocator + Copy>(
    head: &mut OwnedBlock<A>,
    line: &mut Vec<u8, A>,
    told: Fields<'_>,
) -> Result<(), AllocError>
    requires { AreWords told }
    ensures { IfOk result (λ _. head.new ≡ head.old ++ field_lines told.entry) }
{
    push_field(head, line, Field::Subject, told.subject)?;
    push_field(head, line, Field::From, told.from)?;
    push_field(head, line, Field::Date, told.date)?;
    push_field(head, line, Field::References, told.references)
}

/// Puts the line of a header with these words behind the others, if there is a word. The line is
/// written in memory that an earlier one was written in.
fn push_field<A: Allocator + Copy>(
    head: &mut OwnedBlock<A>,
    line: &mut Vec<u8, A>,
    field: Field,
    words: FieldWords<'_>,
) -> Result<(), AllocError>
    requires { IsTrue (list_all is_word words) }
    ensures { IfOk result (λ _. head.new ≡ head.old ++ field_line (name_of_field field ++ 58 ∷ []) words.entry) }
{
    line.clear();
    line.extend_from_slice(field.name().as_bytes())?;
    line.push(b':')?;
    let start = line.len();
    put_words(line, words)?;
    if line.len() == start {
        return Ok(());
    }
    head.push(line)
}

/// Puts the words of a header behind the others, each behind a space.
fn put_words<A: Allocator + Copy>(
    line: &mut Vec<u8, A>,
    words: FieldWords<'_>,
) -> Result<(), AllocError>
    ensures { IfOk result (λ _. line.new.items ≡ line.old.items ++ flat_map (λ w. space ∷ w) words.entry) }
{
    if let Some(text) = words.joined() {
        return put_word(line, text);
    }
    let mut words = words;
    while let Some(word) = words.next() {
        put_word(line, word)?;
    }
    Ok(())
}

/// Puts a word behind the others, behind a space.
fn put_word<A: Allocator + Copy>(line: &mut Vec<u8, A>, word: &[u8]) -> Result<(), AllocError>
    ensures { IfOk result (λ _. line.new.items ≡ line.old.items ++ space ∷ word.now) }
{
    line.push(b' ')?;
    line.extend_from_slice(word)
}
