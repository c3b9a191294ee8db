//! What is sent of an article, and the id that its head says (RFC 3977, section 6.2).
ghost use Rattle.std.specs.Prelude.{◌≡◌};
ghost use Rattle.nntp_article.specs.Article.Parts.{said_id};
ghost use Rattle.nntp_article.specs.Session.Machine.{is_same};
ghost use Rattle.nntp_article.specs.Session.Misfit.{said_misfit, head_misfit};
ghost use Rattle.nntp_article.specs.Inner.MisfitView.{why_if};

use crate::article::{Head, Parts};
use crate::session::misfit::Misfit;
use nntp_wire::{Block, What};

/// Whether these are the same octets.
pub(crate) fn is_same(name: &[u8], word: &[u8]) -> bool
    ensures { result ≡ is_same name.now word.now }
{
    name == word
}

/// Why the head can't be that of the article of this id, if it can't.
fn said_misfit<'a>(id: &[u8], head: &Head<'a>) -> Option<Misfit<'a>>
    ensures { why_if result ≡ said_misfit id.now (said_id head.now) }
{
    let said = head.message_id()?;
    if is_same(said.as_slice(), id) {
        return None;
    }
    Some(Misfit::OtherId(said.as_slice()))
}

/// Why what is sent isn't the part that was asked for, if it isn't.
pub(crate) fn head_misfit<'a>(
    what: What,
    id: &[u8],
    block: &Option<Block<'a>>,
) -> Option<Misfit<'a>>
    ensures { why_if result ≡ head_misfit what id.now block.now }
{
    let head = match (what, block) {
        (What::Article, Some(lines)) => match Parts::split(lines) {
            Some(parts) => Head::parse(&parts.head),
            None => None,
        },
        (What::Head, Some(lines)) => Head::parse(lines),
        (What::Body, Some(_)) => return None,
        (What::Stat, None) => return None,
        _ => None,
    };
    match head {
        Some(head) => said_misfit(id, &head),
        None => Some(Misfit::NoHead),
    }
}
