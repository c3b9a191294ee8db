//! Lines that tell what is known of groups, part by part.
use std::alloc::{AllocError, Global};

/// The name of a group, with which its line begins.
pub fn push_name(alloc: Global, text: &mut String, name: &[u8]) -> Result<(), AllocError> {
    let words = format!(in alloc; "{}", name.escape_ascii())?;
    text.push_str(words.as_str())
}

/// A number, with its id where that is shown.
pub fn push_number(
    alloc: Global,
    text: &mut String,
    number: u64,
    id: Option<&[u8]>,
) -> Result<(), AllocError> {
    let words = match id {
        Some(id) => format!(in alloc; " {number}{}", id.escape_ascii())?,
        None => format!(in alloc; " {number}")?,
    };
    text.push_str(words.as_str())
}

/// The end of a line: the numbers that are given and not shown.
pub fn push_unseen(
    alloc: Global,
    text: &mut String,
    unseen: Option<u64>,
    unseen_high: Option<u64>,
) -> Result<(), AllocError> {
    if let Some(number) = unseen {
        text.push_str(format!(in alloc; " unseen {number}")?.as_str())?;
    }
    if let Some(number) = unseen_high {
        text.push_str(format!(in alloc; " unseen high {number}")?.as_str())?;
    }
    text.push_str("\n")
}
