//! Marks that are read strictly: where a group has numbers, those of each 211 are the least and the greatest.
use crate::said::{Reported, Said};
use std::alloc::AllocError;

/// Whether the group has a number: one is shown, or the first is there and not seen.
fn has_number(said: &Said<'_>, group: &[u8]) -> bool {
    said.shown.iter().any(|shown| shown.group == group)
        || said.unseen.iter().any(|unseen| unseen.group == group)
}

/// Adds the marks of a group that has a number to its numbers.
pub(crate) fn add_marks(
    numbers: &mut Vec<u64>,
    said: &Said<'_>,
    group: &[u8],
) -> Result<(), AllocError> {
    if !has_number(said, group) {
        return Ok(());
    }
    for reported in &said.reported {
        if reported.group == group {
            add(numbers, reported.low)?;
            add(numbers, reported.high)?;
        }
    }
    Ok(())
}

/// The low and the high mark of a group that has a number, each where it isn't shown; the high mark only where
/// it isn't the low one.
pub(crate) fn unseen_marks(
    said: &Said<'_>,
    group: &[u8],
    shown: &[u64],
) -> (Option<u64>, Option<u64>) {
    if !has_number(said, group) {
        return (None, None);
    }
    let is_shown = |mark: u64| shown.iter().any(|number| *number == mark);
    for reported in &said.reported {
        if reported.group == group {
            let Reported { low, high, .. } = *reported;
            return (
                if is_shown(low) { None } else { Some(low) },
                if is_shown(high) || high == low {
                    None
                } else {
                    Some(high)
                },
            );
        }
    }
    (None, None)
}

/// Adds a number, if it isn't there.
fn add(numbers: &mut Vec<u64>, number: u64) -> Result<(), AllocError> {
    if !numbers.iter().any(|other| *other == number) {
        numbers.push(number)?;
    }
    Ok(())
}
