//! The text of a spool, handed to a writer.
ghost use Rattle.std.specs.Prelude.{◌≡◌, ◌∷◌, [], ◌||◌, is_err, length, map as list_map};
ghost use Rattle.std.specs.List.{flat_map};
ghost use Rattle.std.specs.FinMap as map;
ghost use Rattle.std.specs.String.{string_bytes};
ghost use Rattle.nntp_store.specs.Text.{with_line_ends, number_line, group_line, article_line, barred, group_lines, article_lines, limit_lines, content_lines};
ghost use Rattle.nntp_store.specs.Text.{spool_text};
ghost use Rattle.nntp_content.specs.Inner.ArticleLines.{text_stored};
ghost use Rattle.nntp_content.specs.Inner.ArticlesView.{articles_shown, Ascend};
ghost use Rattle.nntp_store.specs.Watched.{inner_of};
ghost use Rattle.nntp_store.specs.Inner.Watched.{has_failed_of};
ghost use Rattle.nntp_store.specs.Inner.Writing.{Writes};
ghost use Rattle.nntp_store.specs.Inner.Buffering.{Puts};

use crate::buffered_output::BufferedOutput;
use crate::output::WriteFault;
use crate::value::Spool;
use crate::watched::Watched;
use itoa::Buffer;
use nntp_content::{Content, Held, Numbers, StoredArticle};
use nntp_wire::{Block, Limit};
use std::alloc::Allocator;
use std::collections::BTreeMap;
use std::io::Write;
use std::rc::RcStr;

/// Writes the line of a number.
fn put_number_line<W: Write>(
    output: &mut BufferedOutput<'_, W>,
    number: u64,
    id: &[u8],
) -> Result<(), WriteFault>
    ensures { Puts W.contents result output.old output.new (with_line_ends (number_line number id.now ∷ [])) }
{
    let mut buffer = Buffer::new();
    output.put_pieces(&[buffer.format(number).as_bytes(), b" ", id, b"\n"])
}

/// Writes the first line of a group.
fn put_group_line<W: Write>(
    output: &mut BufferedOutput<'_, W>,
    name: &[u8],
    count: u64,
) -> Result<(), WriteFault>
    ensures { Puts W.contents result output.old output.new (with_line_ends (group_line name.now count ∷ [])) }
{
    let mut buffer = Buffer::new();
    let count = buffer.format(count).as_bytes();
    output.put_pieces(&[b"group ", name, b" ", count, b"\n"])
}

/// Writes the first line of an article.
fn put_article_line<W: Write>(
    output: &mut BufferedOutput<'_, W>,
    id: &[u8],
    heads: u64,
    bodies: u64,
) -> Result<(), WriteFault>
    ensures { Puts W.contents result output.old output.new (with_line_ends (article_line id.now heads bodies ∷ [])) }
{
    let mut head_count = Buffer::new();
    let mut body_count = Buffer::new();
    let heads = head_count.format(heads).as_bytes();
    let bodies = body_count.format(bodies).as_bytes();
    output.put_pieces(&[b"article ", id, b" ", heads, b" ", bodies, b"\n"])
}

/// Writes the lines of a head or a body.
fn put_barred_lines<W: Write>(
    output: &mut BufferedOutput<'_, W>,
    lines: &Block<'_>,
) -> Result<(), WriteFault>
    ensures { Puts W.contents result output.old output.new (with_line_ends (barred lines.now)) }
{
    output.put_each(
        lines.lines(),
        |output, line| output.put_pieces(&[b"|", line, b"\n"]),
    )
}

/// Writes the lines of the numbers.
fn put_numbers<W: Write, A: Allocator>(
    output: &mut BufferedOutput<'_, W>,
    numbers: &Numbers<A>,
) -> Result<(), WriteFault>
    ensures { Puts W.contents result output.old output.new (with_line_ends (list_map (λ e. number_line e.0 e.1) (map.entries numbers.now))) }
{
    output.put_each(numbers.as_slice().iter(), |output, numbered| {
        put_number_line(output, numbered.0, numbered.1.as_str().as_bytes())
    })
}

/// Writes all lines of a group.
fn put_group<W: Write, A: Allocator>(
    output: &mut BufferedOutput<'_, W>,
    name: &[u8],
    numbers: &Numbers<A>,
) -> Result<(), WriteFault>
    ensures { Puts W.contents result output.old output.new (with_line_ends (group_lines (name.now, numbers.now))) }
{
    put_group_line(output, name, numbers.len() as u64)?;
    put_numbers(output, numbers)
}

/// Returns how many lines a head or a body has.
fn line_count(lines: &Block<'_>) -> usize
    ensures { result ≡ length lines.now }
{
    lines.lines().count()
}

/// Writes all lines of an article.
fn put_article<W: Write, A: Allocator>(
    output: &mut BufferedOutput<'_, W>,
    id: &[u8],
    article: &StoredArticle<A>,
) -> Result<(), WriteFault>
    ensures { Puts W.contents result output.old output.new (with_line_ends (article_lines (id.now, text_stored article.now))) }
{
    let (head, body) = (
        article.head.as_ref().as_block(),
        article.body.as_ref().as_block(),
    );
    put_article_line(
        output,
        id,
        line_count(&head) as u64,
        line_count(&body) as u64,
    )?;
    put_barred_lines(output, &head)?;
    put_barred_lines(output, &body)
}

/// Writes the lines that say the limit.
fn put_limit<W: Write>(output: &mut BufferedOutput<'_, W>, limit: Limit) -> Result<(), WriteFault>
    ensures { Puts W.contents result output.old output.new (with_line_ends (limit_lines limit)) }
{
    match limit {
        Limit::Narrow => output.put(b"spool 1\n"),
        Limit::Wide => output.put(b"spool 2\nlimit 9999999999999999\n"),
    }
}

/// Writes the lines of articles whose ids ascend.
fn put_articles<W: Write, A: Allocator>(
    output: &mut BufferedOutput<'_, W>,
    articles: &[(RcStr<A>, StoredArticle<A>)],
) -> Result<(), WriteFault>
    requires { Ascend articles.now }
    ensures { Puts W.contents result output.old output.new (with_line_ends (flat_map article_lines (map.entries (articles_shown articles.now)))) }
{
    output.put_each(articles.iter(), |output, article| {
        put_article(output, article.0.as_str().as_bytes(), &article.1)
    })
}

/// Writes the lines of the articles of a map.
fn put_articles_of_map<W: Write, A: Allocator>(
    output: &mut BufferedOutput<'_, W>,
    articles: &BTreeMap<RcStr<A>, StoredArticle<A>, A>,
) -> Result<(), WriteFault>
    ensures { Puts W.contents result output.old output.new (with_line_ends (flat_map article_lines (map.entries (articles_shown articles.now.entries)))) }
{
    output.put_each(articles.iter(), |output, (id, article)| {
        put_article(output, id.as_str().as_bytes(), article)
    })
}

/// Writes the lines of all groups.
fn put_all_groups<W: Write, A: Allocator>(
    output: &mut BufferedOutput<'_, W>,
    content: &Content<A>,
) -> Result<(), WriteFault>
    ensures { Puts W.contents result output.old output.new (with_line_ends (flat_map group_lines (map.entries content.now.groups))) }
{
    output.put_each(
        content.groups().iter(),
        |output, (name, numbers)|
            ensures { Puts W.contents result output.old output.new (with_line_ends (group_lines (string_bytes name.entry.now, numbers.entry.now))) }
        { put_group(output, name.as_bytes(), numbers.or(content.no_numbers())) },
    )
}

/// Writes the lines of all articles.
fn put_all_articles<W: Write, A: Allocator>(
    output: &mut BufferedOutput<'_, W>,
    content: &Content<A>,
) -> Result<(), WriteFault>
    ensures { Puts W.contents result output.old output.new (with_line_ends (flat_map article_lines (map.entries content.now.articles))) }
{
    match content.articles().held() {
        Held::InOrder(articles) => put_articles(output, articles.as_slice()),
        Held::InAnyOrder(articles) => put_articles_of_map(output, articles),
    }
}

/// Writes all groups and all articles, and the end.
fn put_content<W: Write, A: Allocator>(
    output: &mut BufferedOutput<'_, W>,
    content: &Content<A>,
) -> Result<(), WriteFault>
    ensures { Puts W.contents result output.old output.new (with_line_ends (content_lines content.now)) }
{
    put_all_groups(output, content)?;
    put_all_articles(output, content)?;
    output.put(b"end\n")
}

impl<A: Allocator> Spool<A> {
    /// Writes the text of the spool, many lines in one call of the writer. It isn't flushed. No memory is asked for.
    ///
    /// # Errors
    ///
    /// [`WriteFault`], if the writer answers an error or takes none of some octets. It took a front
    /// of the text then.
    pub fn write<W: Write>(&self, w: &mut Watched<W>) -> Result<(), WriteFault>
        ensures text { Writes result (W.contents (inner_of w.old)) (W.contents (inner_of w.new)) (spool_text self.now) }
        ensures failed { has_failed_of w.new ≡ (has_failed_of w.old || is_err result) }
    {
        let mut output = BufferedOutput::new(w);
        put_limit(&mut output, self.limit())?;
        put_content(&mut output, self.content())?;
        output.hand_on()
    }
}
