//! Heads of articles (RFC 3977, section 3.6; RFC 1036, section 2).
ghost use Rattle.std.specs.Prelude.{◌≡◌, IsTrue};
ghost use Rattle.std.specs.Option.{SomeIff};
ghost use Rattle.nntp_article.specs.Article.Parts.{is_head, headers, said_id};

use crate::article::head_line::{begins_header, is_head_line};
use crate::article::header::Headers;
use crate::article::said_id::SaidId;
use nntp_wire::{Block, MessageId};
use std::marker::Model;

/// The head of an article: one or more headers (RFC 3977, section 3.6). Only `Head::parse` makes
/// one.
#[derive(Drop)]
pub struct Head<'a> {
    lines: Block<'a>,
    /// What the lines say of its id.
    said: SaidId<'a>,
}

impl<'a> Model for Head<'a> {
    ghost use Rattle.std.specs.Prelude.{◌≡◌, IsTrue, List, [], ℕ};
    ghost use Rattle.nntp_article.specs.Article.Parts.{is_head, said_id};
    ghost use Rattle.nntp_article.specs.Inner.SaidId.{id_by};

    ghost Value = { List (List ℕ) };

    ghost view = { λ h. h.lines };

    ghost invariant = { λ h. IsTrue (is_head h.lines) × (id_by h.said [] ≡ said_id h.lines) };
}

impl<'a> Head<'a> {
    /// The head that the lines are. None where they are not one or more headers.
    pub fn parse(lines: &Block<'a>) -> Option<Head<'a>>
        ensures { SomeIff result (IsTrue (is_head lines.now)) lines.now }
    {
        let mut rest = lines.lines();
        let first = rest.next()?;
        if !begins_header(first) {
            return None;
        }
        let mut said = SaidId::new();
        said.note(first);
        while let Some(line) = rest.next() {
            if !is_head_line(line) {
                return None;
            }
            said.note(line);
        }
        Some(Head {
            lines: lines.copy(),
            said,
        })
    }

    /// The headers of the head, first to last.
    pub fn headers(&self) -> Headers<'a>
        ensures headers { result ≡ headers self.now }
        ensures is_head { IsTrue (is_head self.now) }
    {
        Headers::new(self.lines.copy())
    }

    /// The message id that the head says: the content of its one Message-ID header, where that is a
    /// message id (RFC 1036, section 2.1.5). None where there is no such header or more than one, and
    /// where its content is no message id.
    pub fn message_id(&self) -> Option<MessageId<'a>>
        ensures { result ≡ said_id self.now }
    {
        self.said.id()
    }
}
