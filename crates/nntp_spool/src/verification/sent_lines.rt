//! The comparison of what is sent of an article with the article's text.
ghost use Rattle.std.specs.Prelude.{◌≡◌, ◌↔◌, IsTrue, option_map};
ghost use Rattle.nntp_article.specs.Session.Spool.{text_of};
ghost use Rattle.nntp_content.specs.Inner.ArticleLines.{text_stored};

use nntp_store::StoredArticle;
use nntp_wire::{Block, What};
use std::alloc::Allocator;

/// Tells whether the block is what is sent of the article.
pub(crate) fn has_text<A: Allocator>(
    article: &StoredArticle<A>,
    what: What,
    block: Option<&Block<'_>>,
) -> bool
    ensures { IsTrue result ↔ (text_of what (text_stored article.now) ≡ option_map (λ b. b.now) block.entry) }
{
    let Some(sent) = block else {
        return what == What::Stat;
    };
    let head = article.head.as_ref().as_block();
    let body = article.body.as_ref().as_block();
    match what {
        What::Article => sent.is_article(&head, &body),
        What::Head => sent.is_same(&head),
        What::Body => sent.is_same(&body),
        What::Stat => false,
    }
}
