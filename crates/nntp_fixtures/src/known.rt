//! Lines that tell what is known of groups: of each its name, its numbers that are shown, each with its id where
//! that is shown, and the numbers that are given beside them.
use nntp_facts::{Facts, ShownGroup};
use nntp_sessions::{push_name, push_number, push_unseen};
use std::alloc::{AllocError, Allocator, Global};

/// A line for each group that facts show.
pub fn group_lines<A: Allocator>(alloc: Global, facts: &Facts<A>) -> Result<String, AllocError> {
    let mut text = String::new(alloc);
    for group in facts.groups() {
        push_name(alloc, &mut text, group.name())?;
        push_numbers(alloc, &mut text, &group)?;
        push_unseen(alloc, &mut text, group.unseen(), group.unseen_high())?;
    }
    Ok(text)
}

fn push_numbers<A: Allocator>(
    alloc: Global,
    text: &mut String,
    group: &ShownGroup<'_, A>,
) -> Result<(), AllocError> {
    for seen in group.numbers() {
        let id = match seen.id {
            Some(id) => Some(id.as_str().as_bytes()),
            None => None,
        };
        push_number(alloc, text, seen.number, id)?;
    }
    Ok(())
}
