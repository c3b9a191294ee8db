//! The text of a spool, written and read.
use crate::spool::{Article, Group, Numbered, Spool};
use nntp_wire::{Limit, number, words};
use std::alloc::{AllocError, Global};

/// The text of a spool.
pub(crate) fn text_of(alloc: Global, spool: &Spool) -> Result<Vec<u8>, AllocError> {
    let first = match spool.limit {
        Limit::Narrow => "spool 1\n",
        Limit::Wide => "spool 2\nlimit 9999999999999999\n",
    };
    let mut text = Vec::from_slice(alloc, first.as_bytes())?;
    put_groups(alloc, &mut text, spool.groups.as_slice())?;
    put_articles(alloc, &mut text, spool.articles.as_slice())?;
    text.extend_from_slice(b"end\n")?;
    Ok(text)
}

/// Puts groups one after the other.
fn put_groups(alloc: Global, text: &mut Vec<u8>, groups: &[Group]) -> Result<(), AllocError> {
    for group in groups {
        put_group(alloc, text, group)?;
    }
    Ok(())
}

/// Puts articles one after the other.
fn put_articles(alloc: Global, text: &mut Vec<u8>, articles: &[Article]) -> Result<(), AllocError> {
    for article in articles {
        put_article(alloc, text, article)?;
    }
    Ok(())
}

/// Puts a group with its numbers.
fn put_group(alloc: Global, text: &mut Vec<u8>, group: &Group) -> Result<(), AllocError> {
    text.extend_from_slice(b"group ")?;
    let count = format!(in alloc; " {}", group.numbers.len())?;
    put_line(text, group.name.as_slice(), count.as_bytes())?;
    for numbered in &group.numbers {
        let number = format!(in alloc; "{} ", numbered.number)?;
        put_line(text, number.as_bytes(), numbered.id.as_slice())?;
    }
    Ok(())
}

/// Puts an article with its lines.
fn put_article(alloc: Global, text: &mut Vec<u8>, article: &Article) -> Result<(), AllocError> {
    text.extend_from_slice(b"article ")?;
    let counts = format!(in alloc; " {} {}", article.head.len(), article.body.len())?;
    put_line(text, article.id.as_slice(), counts.as_bytes())?;
    put_lines(text, article.head.as_slice())?;
    put_lines(text, article.body.as_slice())
}

/// Puts lines of an article.
fn put_lines(text: &mut Vec<u8>, lines: &[Vec<u8>]) -> Result<(), AllocError> {
    for line in lines {
        put_line(text, b"|", line.as_slice())?;
    }
    Ok(())
}

/// Puts a line of two parts.
fn put_line(text: &mut Vec<u8>, front: &[u8], rest: &[u8]) -> Result<(), AllocError> {
    text.extend_from_slice(front)?;
    text.extend_from_slice(rest)?;
    text.extend_from_slice(b"\n")
}

/// The spool of a text, or none where the octets are the text of no spool: what was read of them is written again, and
/// has to be the same.
pub(crate) fn read_text(alloc: Global, octets: &[u8]) -> Result<Option<Spool>, AllocError> {
    let mut spool = Spool::new(alloc, Limit::Narrow);
    read_lines(alloc, &mut spool, octets)?;
    let again = text_of(alloc, &spool)?;
    if spool.is_spool() && again.as_slice() == octets {
        Ok(Some(spool))
    } else {
        Ok(None)
    }
}

/// Reads the lines of a text one after the other.
fn read_lines(alloc: Global, spool: &mut Spool, octets: &[u8]) -> Result<(), AllocError> {
    let mut line = Vec::new(alloc);
    let mut heads = 0;
    for octet in octets {
        if *octet == b'\n' {
            heads = read_line(alloc, spool, line.as_slice(), heads)?;
            line.clear();
        } else {
            line.push(*octet)?;
        }
    }
    Ok(())
}

/// Reads a line, where so many lines of a head are still to come. Tells how many are to come behind it.
fn read_line(alloc: Global, spool: &mut Spool, line: &[u8], heads: u64) -> Result<u64, AllocError> {
    if let Some(content) = line.strip_prefix(b"|") {
        read_content(alloc, spool, content, heads > 0)?;
        return Ok(heads.saturating_sub(1));
    }
    let mut words = words(line);
    let (Some(first), Some(second)) = (words.next(), words.next()) else {
        return Ok(0);
    };
    match number(first) {
        Some(value) => read_number(alloc, spool, value, second)?,
        None => read_opening(alloc, spool, first, second)?,
    }
    Ok(match words.next() {
        Some(count) => number(count).unwrap_or(0),
        None => 0,
    })
}

/// Reads a line of the head or of the body of the last article.
fn read_content(
    alloc: Global,
    spool: &mut Spool,
    content: &[u8],
    is_head: bool,
) -> Result<(), AllocError> {
    let Some(article) = spool.articles.last_mut() else {
        return Ok(());
    };
    let line = Vec::from_slice(alloc, content)?;
    if is_head {
        article.head.push(line)?;
    } else {
        article.body.push(line)?;
    }
    Ok(())
}

/// Reads a number of the last group, and its id.
fn read_number(alloc: Global, spool: &mut Spool, number: u64, id: &[u8]) -> Result<(), AllocError> {
    let Some(group) = spool.groups.last_mut() else {
        return Ok(());
    };
    let id = Vec::from_slice(alloc, id)?;
    group.numbers.push(Numbered { number, id })?;
    Ok(())
}

/// Reads a line that tells the limit, or begins a group or an article.
fn read_opening(
    alloc: Global,
    spool: &mut Spool,
    first: &[u8],
    second: &[u8],
) -> Result<(), AllocError> {
    if first == b"group".as_slice() {
        spool.groups.push(Group {
            name: Vec::from_slice(alloc, second)?,
            numbers: Vec::new(alloc),
        })?;
    } else if first == b"article".as_slice() {
        spool.articles.push(Article {
            id: Vec::from_slice(alloc, second)?,
            head: Vec::new(alloc),
            body: Vec::new(alloc),
        })?;
    } else if first == b"spool".as_slice() && second == b"2".as_slice() {
        spool.limit = Limit::Wide;
    }
    Ok(())
}
