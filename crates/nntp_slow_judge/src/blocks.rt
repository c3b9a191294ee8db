//! What blocks list or send, against what a spool has.
use crate::spool::{Article, Group, Spool};
use crate::wildmats::is_matched;
use nntp_wire::{Block, Lines, Range, What, Wildmat};

impl Group {
    /// Whether the block lists its numbers in the range, and no others.
    pub(crate) fn is_list(&self, range: &Range, block: &Block<'_>) -> bool {
        for number in block.numbers() {
            if !self.has(number) || !is_in(range, number) {
                return false;
            }
        }
        self.is_whole_list(range, block)
    }

    /// Whether the block lists all of its numbers in the range.
    fn is_whole_list(&self, range: &Range, block: &Block<'_>) -> bool {
        for numbered in &self.numbers {
            if is_in(range, numbered.number) && !lists(block, numbered.number) {
                return false;
            }
        }
        true
    }

    /// Whether it matches the wildmat, if there is one.
    fn is_asked_for(&self, wildmat: Option<&Wildmat<'_>>) -> bool {
        match wildmat {
            Some(wildmat) => is_matched(wildmat.as_slice(), self.name.as_slice()),
            None => true,
        }
    }

    /// Whether the block lists it.
    fn is_listed(&self, block: &Block<'_>) -> bool {
        for active in block.groups() {
            if active.name.as_slice() == self.name.as_slice() {
                return true;
            }
        }
        false
    }
}

impl Spool {
    /// Whether the block lists the groups that match and no others, with their numbers between the marks.
    pub(crate) fn is_list(&self, wildmat: Option<&Wildmat<'_>>, block: &Block<'_>) -> bool {
        for group in &self.groups {
            if group.is_listed(block) != group.is_asked_for(wildmat) {
                return false;
            }
        }
        self.has_listed(block)
    }

    /// Whether each listed name is a group's, with its numbers between the marks.
    fn has_listed(&self, block: &Block<'_>) -> bool {
        for active in block.groups() {
            let is_between = match self.group(active.name.as_slice()) {
                Some(group) => group.is_between(active.low, active.high),
                None => false,
            };
            if !is_between {
                return false;
            }
        }
        true
    }
}

impl Article {
    /// Whether the block sends it, or its head or its body, as was asked for.
    pub(crate) fn is_sent(&self, what: What, block: &Block<'_>) -> bool {
        let mut lines = block.lines();
        let has_head = what == What::Body || begin(&mut lines, self.head.as_slice());
        let is_parted = what != What::Article || lines.next().is_some_and(|line| line.is_empty());
        let has_body = what == What::Head || begin(&mut lines, self.body.as_slice());
        has_head && is_parted && has_body && lines.next().is_none()
    }
}

/// Whether the range has the number.
pub(crate) fn is_in(range: &Range, number: u64) -> bool {
    let is_up_to = match range.last {
        Some(last) => number <= last,
        None => true,
    };
    range.first <= number && is_up_to
}

/// Whether the block lists the number.
fn lists(block: &Block<'_>, number: u64) -> bool {
    for listed in block.numbers() {
        if listed == number {
            return true;
        }
    }
    false
}

/// Takes as many lines as these are, and tells whether they are the same.
fn begin(lines: &mut Lines<'_>, wanted: &[Vec<u8>]) -> bool {
    for line in wanted {
        let is_same = match lines.next() {
            Some(sent) => sent == line.as_slice(),
            None => false,
        };
        if !is_same {
            return false;
        }
    }
    true
}
