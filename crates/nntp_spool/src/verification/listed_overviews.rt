//! The comparison of the overviews that OVER, XOVER, HDR or XHDR lists with the articles of a spool, and with a group of it where
//! they are those of a range (RFC 3977, sections 8.3 and 8.5).
ghost use Rattle.std.specs.Prelude.{◌≡◌, ◌↔◌, map, IfSome, IsTrue};
ghost use Rattle.std.specs.List.{AllByRecursion};
ghost use Rattle.nntp_wire.specs.Inner.View.{overview_value};
ghost use Rattle.nntp_wire.specs.Listing.{overviews_of};
ghost use Rattle.nntp_article.specs.Article.Fields.{fields_of_head};
ghost use Rattle.nntp_article.specs.Session.Spool.{numbers as numbers_of};
ghost use Rattle.nntp_article.specs.Session.Machine.{HasOverview, ListsOverviews};
ghost use Rattle.nntp_article.specs.Inner.Listed.{lists};
ghost use Rattle.nntp_said.specs.Facts.{OverviewsAre};
ghost use Rattle.nntp_content.specs.Inner.ArticleLines.{text_stored};
ghost use Rattle.nntp_spool.specs.Inner.ListedOverviews.{StandsIn};
ghost use Rattle.nntp_spool.specs.Inner.Sessions.{SaysThese};

use crate::verification::last_group::LastGroup;
use nntp_article::{Fields, Listed};
use nntp_said::{Ask, NumberLines};
use nntp_store::{Content, StoredArticle};
use nntp_wire::{Block, OverviewLine, Range};
use std::alloc::Allocator;

/// Tells whether the overviews are of all numbers that the group has in the range, each has the id at its number, and
/// the article of the id tells the same; `listed` is what the lines of the overviews list.
pub(crate) fn lists_overviews<A: Allocator, S: Allocator>(
    group: &mut LastGroup<'_, S>,
    name: &[u8],
    range: Range,
    block: &Block<'_>,
    listed: &Listed<'_, A>,
) -> bool
    requires listed { SaysThese (lists listed.now) (OverviewsAre name.now range (overviews_of block.now)) }
    ensures spool { group.new ≡ group.old }
    ensures lists { IsTrue result ↔ ListsOverviews group.old (numbers_of group.old name.now) range (overviews_of block.now) }
{
    let lines = NumberLines::Overviews(block);
    group.meets(name, &Ask::Lists { range, lines }, listed.numbers())
        && stand_in(group, name, listed.overviews())
}

/// Tells whether each overview has the id at its number in the group, and the article of the id tells the same.
fn stand_in<S: Allocator>(
    group: &mut LastGroup<'_, S>,
    name: &[u8],
    overviews: &[OverviewLine<'_>],
) -> bool
    ensures spool { group.new ≡ group.old }
    ensures stand { IsTrue result ↔ AllByRecursion (StandsIn group.old name.now) (map overview_value overviews.now) }
{
    for overview in overviews {
        if !stands_in(group, name, overview) {
            return false;
        }
    }
    true
}

/// Tells whether the overview has the id at its number in the group, and the article of the id tells the same.
fn stands_in<S: Allocator>(
    group: &mut LastGroup<'_, S>,
    name: &[u8],
    overview: &OverviewLine<'_>,
) -> bool
    ensures spool { group.new ≡ group.old }
    ensures stands { IsTrue result ↔ StandsIn group.old name.now (overview_value overview.now) }
{
    group.has_id(name, overview.number, overview.id.as_str())
        && has_overview(group.spool(), overview)
}

/// Tells whether the id of each overview has an article that tells the same.
pub(crate) fn have_overviews<A: Allocator>(spool: &Content<A>, block: &Block<'_>) -> bool
    ensures { IsTrue result ↔ AllByRecursion (HasOverview spool.now) (overviews_of block.now) }
{
    for overview in block.overviews() {
        if !has_overview(spool, &overview) {
            return false;
        }
    }
    true
}

/// Tells whether the id of the overview has an article that tells the same.
fn has_overview<A: Allocator>(spool: &Content<A>, overview: &OverviewLine<'_>) -> bool
    ensures { IsTrue result ↔ HasOverview spool.now (overview_value overview.now) }
{
    match spool.article(overview.id.as_str()) {
        Some(article) => tells_fields(article, overview),
        None => false,
    }
}

/// Tells whether the head of the article tells of four headers what the overview does, if this does.
fn tells_fields<A: Allocator>(article: &StoredArticle<A>, overview: &OverviewLine<'_>) -> bool
    ensures { IsTrue result ↔ IfSome (overview_value overview.now).told (λ fields. fields_of_head (text_stored article.now).head ≡ fields) }
{
    let Some(told) = Fields::of_overview(overview) else {
        return true;
    };
    let head = article.head.as_ref().as_block();
    Fields::of_head(&head).first_difference(told).is_none()
}
