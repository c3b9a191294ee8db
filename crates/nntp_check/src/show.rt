//! An exchange as a reader sees it: its line, and what its answer says of groups and articles.
ghost use Rattle.std.specs.Prelude.{◌≡◌, ◌++◌, map, OnOk};
ghost use Rattle.std.specs.List.{flat_map};
ghost use Rattle.std.specs.Option.{option_copied};
ghost use Rattle.nntp_wire.specs.Inner.AnswerView.{response};
ghost use Rattle.nntp_article.specs.Article.Control.{new_group, other};
ghost use Rattle.nntp_article.specs.Inner.View.{control_value};
ghost use Rattle.nntp_check.specs.Show.{exchange_text, exchange_line, prompt_text, under, under_article, under_head, control_line, missing_line, missing_names};
ghost use Rattle.nntp_check.specs.Show.{is_one_missing, word_if, end_line};

use nntp_article::{Control, Head, Missing, Parts, control, missing};
use nntp_pair::Exchange;
use nntp_printing::{put_escaped, put_escaped_line, put_number};
use nntp_wire::{Answer, Block};
use std::alloc::{AllocError, Allocator};

/// Adds the last line, where no octet of the server is left.
pub(crate) fn put_end<A: Allocator + Copy>(
    text: &mut Vec<u8, A>,
    answers: u64,
    unanswered: u64,
) -> Result<(), AllocError>
    ensures { OnOk result (text.new.items ≡ text.old.items ++ end_line answers unanswered) }
{
    put_number(text, b"end answers=", answers)?;
    put_number(text, b" unanswered=", unanswered)?;
    text.extend_from_slice(b"\n")
}

/// Adds an exchange: its line, and what its answer says.
pub(crate) fn put_exchange<A: Allocator + Copy>(
    alloc: A,
    text: &mut Vec<u8, A>,
    exchange: &Exchange<'_>,
) -> Result<(), AllocError>
    ensures { OnOk result (text.new.items ≡ text.old.items ++ exchange_text exchange.now) }
{
    put_exchange_line(text, exchange)?;
    put_answer(alloc, text, exchange.answer())
}

/// Adds the line of an exchange: its index, what is answered, and the initial line.
fn put_exchange_line<A: Allocator + Copy>(
    text: &mut Vec<u8, A>,
    exchange: &Exchange<'_>,
) -> Result<(), AllocError>
    ensures { OnOk result (text.new.items ≡ text.old.items ++ exchange_line exchange.now) }
{
    put_number(text, b"", exchange.index())?;
    text.push(b' ')?;
    put_prompt(text, exchange.line())?;
    put_escaped_line(text, b" -> ", exchange.initial())
}

/// Adds what is answered: the line of the client, or the greeting.
fn put_prompt<A: Allocator + Copy>(
    text: &mut Vec<u8, A>,
    line: Option<&[u8]>,
) -> Result<(), AllocError>
    ensures { OnOk result (text.new.items ≡ text.old.items ++ prompt_text (option_copied line.entry)) }
{
    match line {
        Some(line) => put_escaped(text, line),
        None => text.extend_from_slice(b"greeting"),
    }
}

/// Adds what an answer says: the group that it names, or what the head says that it sends.
fn put_answer<A: Allocator + Copy>(
    alloc: A,
    text: &mut Vec<u8, A>,
    answer: &Answer<'_>,
) -> Result<(), AllocError>
    ensures { OnOk result (text.new.items ≡ text.old.items ++ under (response answer.now)) }
{
    match answer {
        Answer::Group { name, .. } | Answer::Numbers { name, .. } => {
            put_escaped_line(text, b"  group ", name.as_slice())
        }
        Answer::Sent {
            code: 220,
            block: Some(article),
            ..
        } => put_article(alloc, text, article),
        Answer::Sent {
            code: 221,
            block: Some(head),
            ..
        } => put_head(alloc, text, head),
        _ => Ok(()),
    }
}

/// Adds what the head of an article says, if it has both parts.
fn put_article<A: Allocator + Copy>(
    alloc: A,
    text: &mut Vec<u8, A>,
    article: &Block<'_>,
) -> Result<(), AllocError>
    ensures { OnOk result (text.new.items ≡ text.old.items ++ under_article article.now) }
{
    match Parts::split(article) {
        Some(parts) => put_head(alloc, text, &parts.head),
        None => Ok(()),
    }
}

/// Adds what a head says, if the lines are one: its Control headers, and which headers it lacks.
fn put_head<A: Allocator + Copy>(
    alloc: A,
    text: &mut Vec<u8, A>,
    lines: &Block<'_>,
) -> Result<(), AllocError>
    ensures { OnOk result (text.new.items ≡ text.old.items ++ under_head lines.now) }
{
    let Some(head) = Head::parse(lines) else {
        return Ok(());
    };
    let controls = control(alloc, &head)?;
    put_controls(text, &controls)?;
    put_missing(text, missing(&head))
}

/// Adds a line for each Control header.
fn put_controls<A: Allocator + Copy>(
    text: &mut Vec<u8, A>,
    controls: &[Control<A>],
) -> Result<(), AllocError>
    ensures { OnOk result (text.new.items ≡ text.old.items ++ flat_map control_line (map control_value controls.now)) }
{
    for control in controls {
        put_control(text, control)?;
    }
    Ok(())
}

/// Adds the line of a Control header.
fn put_control<A: Allocator + Copy>(
    text: &mut Vec<u8, A>,
    control: &Control<A>,
) -> Result<(), AllocError>
    ensures { OnOk result (text.new.items ≡ text.old.items ++ control_line (control_value control.now)) }
{
    match control {
        Control::Cancel(id) => put_escaped_line(text, b"  control cancel ", id),
        Control::NewGroup { name, moderated } => put_new_group(text, name, *moderated),
        Control::RmGroup(name) => put_escaped_line(text, b"  control rmgroup ", name),
        Control::Other(content) => put_other(text, content),
    }
}

/// Adds the line of a group that is to be made.
fn put_new_group<A: Allocator + Copy>(
    text: &mut Vec<u8, A>,
    name: &[u8],
    moderated: bool,
) -> Result<(), AllocError>
    ensures { OnOk result (text.new.items ≡ text.old.items ++ control_line (new_group name.now moderated)) }
{
    text.extend_from_slice(b"  control newgroup ")?;
    put_escaped(text, name)?;
    put_word_if(text, moderated, b"moderated")?;
    text.extend_from_slice(b"\n")
}

/// Adds the line of a Control header of another content, which may be empty.
fn put_other<A: Allocator + Copy>(text: &mut Vec<u8, A>, content: &[u8]) -> Result<(), AllocError>
    ensures { OnOk result (text.new.items ≡ text.old.items ++ control_line (other content.now)) }
{
    if content.is_empty() {
        return text.extend_from_slice(b"  control other\n");
    }
    put_escaped_line(text, b"  control other ", content)
}

/// Adds the line of the headers that are missing, if any is.
fn put_missing<A: Allocator + Copy>(
    text: &mut Vec<u8, A>,
    missing: Missing,
) -> Result<(), AllocError>
    ensures { OnOk result (text.new.items ≡ text.old.items ++ missing_line missing) }
{
    if !is_one_missing(missing) {
        return Ok(());
    }
    text.extend_from_slice(b"  missing")?;
    put_missing_names(text, missing)?;
    text.extend_from_slice(b"\n")
}

/// Adds the names of the headers that are missing.
fn put_missing_names<A: Allocator + Copy>(
    text: &mut Vec<u8, A>,
    missing: Missing,
) -> Result<(), AllocError>
    ensures { OnOk result (text.new.items ≡ text.old.items ++ missing_names missing) }
{
    put_word_if(text, missing.from, b"From")?;
    put_word_if(text, missing.date, b"Date")?;
    put_word_if(text, missing.newsgroups, b"Newsgroups")?;
    put_word_if(text, missing.subject, b"Subject")?;
    put_word_if(text, missing.message_id, b"Message-ID")?;
    put_word_if(text, missing.path, b"Path")
}

/// Whether one of the headers is missing.
fn is_one_missing(missing: Missing) -> bool
    ensures { result ≡ is_one_missing missing }
{
    missing.from
        || missing.date
        || missing.newsgroups
        || missing.subject
        || missing.message_id
        || missing.path
}

/// Adds a space and the word, if it is told.
fn put_word_if<A: Allocator + Copy>(
    text: &mut Vec<u8, A>,
    is_told: bool,
    word: &[u8],
) -> Result<(), AllocError>
    ensures { OnOk result (text.new.items ≡ text.old.items ++ word_if is_told word.now) }
{
    if !is_told {
        return Ok(());
    }
    text.push(b' ')?;
    text.extend_from_slice(word)
}
