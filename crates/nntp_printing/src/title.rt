//! The title of a session, in reports on several.
ghost use Rattle.std.specs.Prelude.{◌≡◌, ◌++◌, OnOk};
ghost use Rattle.nntp_printing.specs.Title.{title_line};

use crate::bad_answer::shown;
use crate::printing::{put_escaped_line, put_number};
use std::alloc::{AllocError, Allocator};

/// Adds the title of a session: its number, and the first 512 octets of its name.
///
/// # Errors
///
/// `AllocError` where memory is refused.
pub fn put_title<A: Allocator + Copy>(
    text: &mut Vec<u8, A>,
    number: u64,
    name: &[u8],
) -> Result<(), AllocError>
    ensures { OnOk result (text.new.items ≡ text.old.items ++ title_line number name.now) }
{
    put_number(text, b"session ", number)?;
    if name.is_empty() {
        text.push(b'\n')?;
        return Ok(());
    }
    put_escaped_line(text, b" ", shown(name))
}
