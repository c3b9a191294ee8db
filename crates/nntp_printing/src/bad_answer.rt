//! What reports print of a bad answer: which it is, why, the line that it answers, and its initial line.
ghost use Rattle.std.specs.Prelude.{◌≡◌, ◌++◌, OnOk};
ghost use Rattle.std.specs.Option.{option_copied, option_map};
ghost use Rattle.nntp_printing.specs.BadAnswer.{bad_line, bad_lines, class_word, command_line, IsFirstLine, shown};

use crate::printing::{put_escaped_line, put_number};
use nntp_pair::Class;
use nntp_wire::split_first_line;
use std::alloc::{AllocError, Allocator};

/// The most octets of a line that a report shows.
const SHOWN: usize = 512;

/// Adds the line of a bad answer: which it is, counted from 0 for the greeting, and why.
///
/// # Errors
///
/// `AllocError` where memory is refused.
pub fn put_bad_line<A: Allocator + Copy>(
    text: &mut Vec<u8, A>,
    answer: u64,
    class: Class,
) -> Result<(), AllocError>
    ensures { OnOk result (text.new.items ≡ text.old.items ++ bad_line answer class) }
{
    put_number(text, b"bad answer ", answer)?;
    text.push(b' ')?;
    text.extend_from_slice(word(class))?;
    text.push(b'\n')?;
    Ok(())
}

/// The word that is printed for a class.
fn word(class: Class) -> &'static [u8]
    ensures { result.now ≡ class_word class }
{
    match class {
        Class::Surplus => b"Surplus",
        Class::Cut => b"Cut",
        Class::Malformed => b"Malformed",
        Class::OutOfPlace => b"OutOfPlace",
        Class::Contradiction => b"Contradiction",
    }
}

/// Adds the line of the client that a bad answer is for, if there is one.
///
/// # Errors
///
/// `AllocError` where memory is refused.
pub fn put_command<A: Allocator + Copy>(
    text: &mut Vec<u8, A>,
    command: Option<&[u8]>,
) -> Result<(), AllocError>
    ensures { OnOk result (text.new.items ≡ text.old.items ++ command_line (option_copied command.entry)) }
{
    match command {
        Some(line) => put_escaped_line(text, b"command ", line),
        None => text.extend_from_slice(b"no command\n"),
    }
}

/// Adds the lines of a bad answer: which it is, and why; the line that it is for; and its initial line.
///
/// # Errors
///
/// `AllocError` where memory is refused.
pub fn put_bad_answer<A: Allocator + Copy>(
    text: &mut Vec<u8, A>,
    answer: u64,
    class: Class,
    command: Option<&[u8]>,
    reply: &[u8],
) -> Result<(), AllocError>
    ensures { OnOk result (text.new.items ≡ text.old.items ++ bad_lines answer class (option_copied command.entry) reply.now) }
{
    put_bad_line(text, answer, class)?;
    put_command(text, command)?;
    put_escaped_line(text, b"answer ", reply)
}

/// The octets up to the first CRLF (RFC 3977, section 3.1), or all of them where there is none.
pub fn first_line(octets: &[u8]) -> &[u8]
    ensures { IsFirstLine octets.now result.now }
{
    match split_first_line(octets) {
        Some((line, _)) => line,
        None => octets,
    }
}

/// The first 512 octets of a line, which is what a report shows of it.
pub fn shown(line: &[u8]) -> &[u8]
    ensures { result.now ≡ shown line.now }
{
    let (front, _) = line.split_at(SHOWN.min(line.len()));
    front
}

/// The same of a line, if there is one.
pub fn shown_line<'a>(line: Option<&'a [u8]>) -> Option<&'a [u8]>
    ensures { option_copied result ≡ option_map shown (option_copied line.entry) }
{
    match line {
        Some(line) => Some(shown(line)),
        None => None,
    }
}
