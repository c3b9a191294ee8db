//! The spool that is given for what answers say.
use crate::ends::{add_marks, unseen_marks};
use crate::fields::{add_lines, told_by_overview};
use crate::numbers::least_free;
use crate::said::Said;
use crate::spool::{Article, Group, Numbered, Spool};
use nntp_sessions::{Choice, push_name, push_number, push_unseen};
use nntp_wire::Marks;
use std::alloc::{AllocError, Global};

/// The spool that is given, or none where what is said makes no spool.
pub(crate) fn given_spool(
    alloc: Global,
    choice: Choice,
    said: &Said<'_>,
) -> Result<Option<Spool>, AllocError> {
    let mut spool = Spool::new(alloc, choice.limit);
    build(alloc, choice.marks, said, &mut spool)?;
    if spool.is_spool() {
        Ok(Some(spool))
    } else {
        Ok(None)
    }
}

/// Builds the groups and the articles.
fn build(
    alloc: Global,
    marks: Marks,
    said: &Said<'_>,
    spool: &mut Spool,
) -> Result<(), AllocError> {
    let mut ids = Vec::new(alloc);
    let mut next = 0;
    for name in names(alloc, said)? {
        let group = group(alloc, marks, said, name, &mut next)?;
        add_ids(alloc, &mut ids, &group)?;
        spool.groups.push(group)?;
    }
    add_sent(alloc, &mut ids, said)?;
    ids.sort_unstable();
    ids.dedup();
    add_articles(alloc, said, &ids, &mut spool.articles)
}

/// A group with its numbers, each with its id. The next id that is invented has this number.
fn group(
    alloc: Global,
    marks: Marks,
    said: &Said<'_>,
    name: &[u8],
    next: &mut u64,
) -> Result<Group, AllocError> {
    let mut group = Group {
        name: Vec::from_slice(alloc, name)?,
        numbers: Vec::new(alloc),
    };
    for number in numbers(alloc, marks, said, name)? {
        let id = match shown_id(said, name, number) {
            Some(id) => Vec::from_slice(alloc, id)?,
            None => invented(alloc, said, next)?,
        };
        group.numbers.push(Numbered { number, id })?;
    }
    Ok(group)
}

/// Adds the ids of a group.
fn add_ids(alloc: Global, ids: &mut Vec<Vec<u8>>, group: &Group) -> Result<(), AllocError> {
    for numbered in &group.numbers {
        ids.push(Vec::from_slice(alloc, numbered.id.as_slice())?)?;
    }
    Ok(())
}

/// Adds the ids of which something was sent.
fn add_sent(alloc: Global, ids: &mut Vec<Vec<u8>>, said: &Said<'_>) -> Result<(), AllocError> {
    for sent in &said.sent {
        ids.push(Vec::from_slice(alloc, sent.id)?)?;
    }
    Ok(())
}

/// Adds the articles of these ids.
fn add_articles(
    alloc: Global,
    said: &Said<'_>,
    ids: &[Vec<u8>],
    articles: &mut Vec<Article>,
) -> Result<(), AllocError> {
    for id in ids {
        articles.push(article(alloc, said, id.as_slice())?)?;
    }
    Ok(())
}

/// The groups that are shown, in the order of their octets.
fn names<'a>(alloc: Global, said: &Said<'a>) -> Result<Vec<&'a [u8]>, AllocError> {
    let mut names: Vec<&'a [u8]> = Vec::new(alloc);
    for name in &said.groups {
        names.push(*name)?;
    }
    names.sort_unstable();
    names.dedup();
    Ok(names)
}

/// The numbers of a group that are shown.
fn shown_numbers(alloc: Global, said: &Said<'_>, group: &[u8]) -> Result<Vec<u64>, AllocError> {
    let mut numbers: Vec<u64> = Vec::new(alloc);
    for shown in &said.shown {
        if shown.group == group {
            numbers.push(shown.number)?;
        }
    }
    numbers.sort_unstable();
    numbers.dedup();
    Ok(numbers)
}

/// The numbers of a group, ascending: those that are shown, its marks where they are strict and it has a number, and
/// one more where one is needed.
fn numbers(
    alloc: Global,
    marks: Marks,
    said: &Said<'_>,
    group: &[u8],
) -> Result<Vec<u64>, AllocError> {
    let mut numbers = shown_numbers(alloc, said, group)?;
    if marks == Marks::Strict {
        add_marks(&mut numbers, said, group)?;
    }
    if let Some(number) = one_more(said, group, &numbers) {
        numbers.push(number)?;
    }
    numbers.sort_unstable();
    Ok(numbers)
}

/// A line for each group: its numbers that are shown, and those that are given beside them.
pub(crate) fn group_lines(
    alloc: Global,
    marks: Marks,
    said: &Said<'_>,
) -> Result<String, AllocError> {
    let mut text = String::new(alloc);
    for name in names(alloc, said)? {
        push_name(alloc, &mut text, name)?;
        push_numbers(alloc, &mut text, marks, said, name)?;
    }
    Ok(text)
}

/// The rest of the line of a group.
fn push_numbers(
    alloc: Global,
    text: &mut String,
    marks: Marks,
    said: &Said<'_>,
    group: &[u8],
) -> Result<(), AllocError> {
    let shown = shown_numbers(alloc, said, group)?;
    for number in &shown {
        push_number(alloc, text, *number, shown_id(said, group, *number))?;
    }
    let (low, high) = match marks {
        Marks::Lenient => (one_more(said, group, &shown), None),
        Marks::Strict => unseen_marks(said, group, &shown),
    };
    push_unseen(alloc, text, low, high)
}

/// The one number more that is needed, if it is there.
fn one_more(said: &Said<'_>, group: &[u8], numbers: &[u64]) -> Option<u64> {
    let least = least_free(&said.denied, group);
    for unseen in &said.unseen {
        if unseen.group == group {
            match unseen.below {
                None if numbers.is_empty() => return Some(least),
                Some(below) if least < below && !numbers.iter().any(|number| *number < below) => {
                    return Some(least);
                }
                _ => {}
            }
        }
    }
    None
}

/// The id that is shown for a number.
fn shown_id<'a>(said: &Said<'a>, group: &[u8], number: u64) -> Option<&'a [u8]> {
    for shown in &said.shown {
        if shown.group == group && shown.number == number && shown.id.is_some() {
            return shown.id;
        }
    }
    None
}

/// The next invented id that nobody mentions.
fn invented(alloc: Global, said: &Said<'_>, next: &mut u64) -> Result<Vec<u8>, AllocError> {
    for _ in &said.mentioned {
        let id = spelled(alloc, *next)?;
        if !said.mentioned.iter().any(|other| *other == id.as_slice()) {
            break;
        }
        *next = next.saturating_add(1);
    }
    let id = spelled(alloc, *next)?;
    *next = next.saturating_add(1);
    Ok(id)
}

fn spelled(alloc: Global, number: u64) -> Result<Vec<u8>, AllocError> {
    Ok(format!(in alloc; "<w{number}@invented.invalid>")?.into_bytes())
}

/// The article of an id, by what was sent of it.
fn article(alloc: Global, said: &Said<'_>, id: &[u8]) -> Result<Article, AllocError> {
    let head = match head_sent(said, id) {
        Some(lines) => copied(alloc, lines)?,
        None => made_head(alloc, said, id)?,
    };
    let body = match body_sent(said, id) {
        Some(lines) => copied(alloc, lines)?,
        None => Vec::new(alloc),
    };
    Ok(Article {
        id: Vec::from_slice(alloc, id)?,
        head,
        body,
    })
}

/// The first head that was sent of an id.
fn head_sent<'s, 'a>(said: &'s Said<'a>, id: &[u8]) -> Option<&'s [&'a [u8]]> {
    for sent in &said.sent {
        if let (true, Some(lines)) = (sent.id == id, &sent.head) {
            return Some(lines.as_slice());
        }
    }
    None
}

/// The first body that was sent of an id.
fn body_sent<'s, 'a>(said: &'s Said<'a>, id: &[u8]) -> Option<&'s [&'a [u8]]> {
    for sent in &said.sent {
        if let (true, Some(lines)) = (sent.id == id, &sent.body) {
            return Some(lines.as_slice());
        }
    }
    None
}

/// A head that says the id, and what the first overview of it tells.
fn made_head(alloc: Global, said: &Said<'_>, id: &[u8]) -> Result<Vec<Vec<u8>>, AllocError> {
    let mut line = Vec::from_slice(alloc, b"Message-ID: ")?;
    line.extend_from_slice(id)?;
    let mut lines = Vec::new(alloc);
    lines.push(line)?;
    if let Some(overview) = said.overviews.iter().find(|overview| overview.id == id) {
        add_lines(alloc, &mut lines, &told_by_overview(alloc, overview.line)?)?;
    }
    Ok(lines)
}

fn copied(alloc: Global, lines: &[&[u8]]) -> Result<Vec<Vec<u8>>, AllocError> {
    let mut copies = Vec::new(alloc);
    for line in lines {
        copies.push(Vec::from_slice(alloc, *line)?)?;
    }
    Ok(copies)
}
