//! What an answer says of the numbers of a group, as `explain` prints it.
ghost use Rattle.std.specs.Prelude.{◌≡◌, ◌==◌, ◌++◌, None, true, OnOk};
ghost use Rattle.std.specs.Option.{option_map_or};
ghost use Rattle.nntp_wire.specs.Listing.{active_groups};
ghost use Rattle.nntp_article.specs.Session.Machine.{is_same};
ghost use Rattle.nntp_said.specs.Facts.{Asks, GroupsAre, IdAt};
ghost use Rattle.nntp_said.specs.Inner.FactView.{ask_of};
ghost use Rattle.nntp_explain.specs.Says.{ask_line, bears_on, id_line, numbers_said, subject};

use crate::ask::{ask_word, bears_on, put_ask_text, put_listed};
use nntp_facts::Ask;
use nntp_printing::{put_escaped, put_escaped_line, put_number};
use nntp_wire::Block;
use std::alloc::{AllocError, Allocator};

/// Adds the line of what is asked of the numbers of a group; about a number only where it bears on it.
fn put_ask_line<A: Allocator + Copy>(
    text: &mut Vec<u8, A>,
    about: Option<u64>,
    name: &[u8],
    ask: &Ask<'_>,
) -> Result<(), AllocError>
    ensures { OnOk result (text.new.items ≡ text.old.items ++ ask_line about name.now (ask_of ask.now)) }
{
    if !is_told(about, ask) {
        return Ok(());
    }
    put_subject(text, ask_word(ask), name)?;
    put_ask_text(text, ask)?;
    put_listed(text, about, ask)
}

/// Adds what the line of a group or an id begins with.
pub(crate) fn put_subject<A: Allocator + Copy>(
    text: &mut Vec<u8, A>,
    word: &[u8],
    name: &[u8],
) -> Result<(), AllocError>
    ensures { OnOk result (text.new.items ≡ text.old.items ++ subject word.now name.now) }
{
    text.extend_from_slice(b"says ")?;
    text.extend_from_slice(word)?;
    text.push(b' ')?;
    put_escaped(text, name)
}

/// Tells whether it is to be told: about a number only where it bears on it.
fn is_told(about: Option<u64>, ask: &Ask<'_>) -> bool
    ensures { result ≡ option_map_or (bears_on (ask_of ask.now)) about true }
{
    match about {
        Some(number) => bears_on(ask, number),
        None => true,
    }
}

/// Adds the line of the id at a number.
pub(crate) fn put_id_line<A: Allocator + Copy>(
    text: &mut Vec<u8, A>,
    name: &[u8],
    number: u64,
    id: &[u8],
) -> Result<(), AllocError>
    ensures { OnOk result (text.new.items ≡ text.old.items ++ id_line name.now number id.now) }
{
    put_subject(text, b"number", name)?;
    put_number(text, b" ", number)?;
    put_escaped_line(text, b" is ", id)
}

/// Adds what is asked of the numbers of a group, about these of one group.
pub(crate) fn put_asked<A: Allocator + Copy>(
    text: &mut Vec<u8, A>,
    group: &[u8],
    about: Option<u64>,
    name: &[u8],
    ask: &Ask<'_>,
) -> Result<(), AllocError>
    ensures { OnOk result (text.new.items ≡ text.old.items ++ numbers_said group.now about (Asks name.now (ask_of ask.now))) }
{
    if is_same(name, group) {
        put_ask_line(text, about, group, ask)
    } else {
        Ok(())
    }
}

/// Adds that a number has an id, about the numbers of one group.
pub(crate) fn put_numbered<A: Allocator + Copy>(
    text: &mut Vec<u8, A>,
    group: &[u8],
    about: Option<u64>,
    name: &[u8],
    number: u64,
    id: &[u8],
) -> Result<(), AllocError>
    ensures { OnOk result (text.new.items ≡ text.old.items ++ numbers_said group.now about (IdAt name.now number id.now)) }
{
    if is_same(name, group) && about.is_none_or(|n| number == n) {
        put_id_line(text, name, number, id)
    } else {
        Ok(())
    }
}

/// Adds the marks that LIST ACTIVE reports of one group, about its numbers.
pub(crate) fn put_bounds<A: Allocator + Copy>(
    text: &mut Vec<u8, A>,
    group: &[u8],
    about: Option<u64>,
    block: &Block<'_>,
) -> Result<(), AllocError>
    ensures { OnOk result (text.new.items ≡ text.old.items ++ numbers_said group.now about (GroupsAre None (active_groups block.now))) }
{
    for line in block.groups() {
        let ask = Ask::Bounds {
            low: line.low,
            high: line.high,
        };
        put_asked(text, group, about, line.name.as_slice(), &ask)?;
    }
    Ok(())
}

/// Tells whether these are the same octets.
pub(crate) fn is_same(these: &[u8], those: &[u8]) -> bool
    ensures { result ≡ is_same these.now those.now }
{
    these == those
}
