//! What an answer sends of heads and bodies, as `explain` prints it.
ghost use Rattle.std.specs.Prelude.{◌≡◌, ◌++◌, ◌<◌, ◌-◌, ◌^◌, [], Some, IfSome, OnOk, codes, decimal, length, option_map, slice_get};
ghost use Rattle.std.specs.Option.{option_copied, option_map_or};
ghost use Rattle.nntp_article.specs.Article.Parts.{head_part, body_part};
ghost use Rattle.nntp_kept_articles.specs.Inner.Articles.{head_sent, body_sent};
ghost use Rattle.nntp_explain.specs.Says.{first_difference, line_text, part_line, subject};

use crate::said_numbers::put_subject;
use nntp_article::Parts;
use nntp_printing::{put_escaped_line, put_number, shown};
use nntp_wire::{Block, What};
use std::alloc::{AllocError, Allocator};

/// The head that is sent, if one is.
pub(crate) fn head_of<'a>(what: What, block: Option<&Block<'a>>) -> Option<Block<'a>>
    ensures { result ≡ head_sent what (option_map (λ b. b.now) block.entry) }
{
    match (what, block) {
        (What::Article, Some(lines)) => {
            let (head, _) = parts_of(lines);
            Some(head)
        }
        (What::Head, Some(lines)) => Some(lines.copy()),
        _ => None,
    }
}

/// The body that is sent, if one is.
pub(crate) fn body_of<'a>(what: What, block: Option<&Block<'a>>) -> Option<Block<'a>>
    ensures { result ≡ body_sent what (option_map (λ b. b.now) block.entry) }
{
    match (what, block) {
        (What::Article, Some(lines)) => {
            let (_, body) = parts_of(lines);
            Some(body)
        }
        (What::Body, Some(lines)) => Some(lines.copy()),
        _ => None,
    }
}

/// The lines before the first empty one, and those behind it. Where none is empty, all are before.
fn parts_of<'a>(article: &Block<'a>) -> (Block<'a>, Block<'a>)
    ensures head { result.0 ≡ head_part article.now }
    ensures body { result.1 ≡ body_part article.now }
{
    match Parts::split(article) {
        Some(parts) => (parts.head, parts.body),
        None => {
            let (nothing, _) = article.split_at_line(0);
            (article.copy(), nothing)
        }
    }
}

/// Adds the line of a head or a body, if it is sent: how many lines it has, and the one at the place.
pub(crate) fn put_part<A: Allocator + Copy>(
    text: &mut Vec<u8, A>,
    word: &[u8],
    id: &[u8],
    place: Option<usize>,
    part: &Option<Block<'_>>,
) -> Result<(), AllocError>
    requires { IfSome place (λ k. k < 2 ^ 64 - 1) }
    ensures { OnOk result (text.new.items ≡ text.old.items ++ option_map_or (part_line word.now id.now place) part.now []) }
{
    match (part, place) {
        (Some(lines), Some(place)) => put_part_line(text, word, id, place, lines),
        _ => Ok(()),
    }
}

/// Adds the line of a head or a body that is sent.
fn put_part_line<A: Allocator + Copy>(
    text: &mut Vec<u8, A>,
    word: &[u8],
    id: &[u8],
    place: usize,
    lines: &Block<'_>,
) -> Result<(), AllocError>
    requires { place < 2 ^ 64 - 1 }
    ensures { OnOk result (text.new.items ≡ text.old.items ++ part_line word.now id.now (Some place) lines.now) }
{
    put_counted(text, word, id, lines)?;
    put_number(text, b" lines, line ", place as u64 + 1)?;
    put_line(text, line_at(lines, place))
}

/// Adds what the line of a head or a body begins with, and how many lines it has.
fn put_counted<A: Allocator + Copy>(
    text: &mut Vec<u8, A>,
    word: &[u8],
    id: &[u8],
    lines: &Block<'_>,
) -> Result<(), AllocError>
    ensures { OnOk result (text.new.items ≡ text.old.items ++ subject word.now id.now ++ codes " " ++ decimal (length lines.now)) }
{
    put_subject(text, word, id)?;
    put_number(text, b" ", lines.lines().count() as u64)
}

/// Returns the line at the place, if it is there.
fn line_at<'a>(lines: &Block<'a>, place: usize) -> Option<&'a [u8]>
    ensures { option_copied result ≡ slice_get lines.now place }
{
    lines.lines().nth(place)
}

/// Adds what a line is, if it is there.
fn put_line<A: Allocator + Copy>(
    text: &mut Vec<u8, A>,
    line: Option<&[u8]>,
) -> Result<(), AllocError>
    ensures { OnOk result (text.new.items ≡ text.old.items ++ line_text (option_copied line.entry)) }
{
    match line {
        Some(line) => { put_escaped_line(text, b" is ", shown(line)) }
        None => text.extend_from_slice(b" is missing\n"),
    }
}

/// The place of the first line in which two heads or bodies differ, if they do.
pub(crate) fn first_difference(these: &Block<'_>, those: &Block<'_>) -> Option<usize>
    ensures place { result ≡ first_difference these.now those.now }
    ensures small { IfSome result (λ place. place < 2 ^ 64 - 1) }
{
    let mut theirs = those.lines();
    let mut place = 0;
    for our in these.lines() {
        match theirs.next() {
            Some(their) if our == their => place += 1,
            _ => return Some(place),
        }
    }
    match theirs.next() {
        Some(_) => Some(place),
        None => None,
    }
}
