//! Where a session stands over a spool, and whether the spool has what is answered there.
use crate::spool::{Article, Group, Spool};
use crate::visible::{Visible, is_generic};
use nntp_pair::Exchange;
use nntp_wire::{Answer, Block, Command, Marks, Prompt, WaterMarks, What, Which};
use std::alloc::{AllocError, Global};

/// A spool, how the marks of a 211 are read, the selected group, and the number of the current article.
#[derive(Clone, Copy)]
pub(crate) struct Standing<'s> {
    alloc: Global,
    spool: &'s Spool,
    marks: Marks,
    selected: Option<&'s Group>,
    current: Option<u64>,
}

impl<'s> Standing<'s> {
    /// Before the greeting.
    fn new(alloc: Global, spool: &'s Spool, marks: Marks) -> Standing<'s> {
        Standing {
            alloc,
            spool,
            marks,
            selected: None,
            current: None,
        }
    }

    /// In this group at this number; without a number, at the first of the group.
    pub(crate) fn at(
        alloc: Global,
        spool: &'s Spool,
        marks: Marks,
        selected: Option<&[u8]>,
        current: Option<u64>,
    ) -> Standing<'s> {
        let mut standing = Standing::new(alloc, spool, marks);
        if let Some(name) = selected {
            standing.select(name);
        }
        if current.is_some() {
            standing.current = current;
        }
        standing
    }

    /// Goes to the first number of a group.
    fn select(&mut self, name: &[u8]) {
        let selected = self.spool.group(name);
        self.current = match selected {
            Some(group) => group.least(),
            None => None,
        };
        self.selected = selected;
    }

    /// Goes where an answer leads. A greeting begins a session, in which no group is selected.
    fn pass(&mut self, exchange: &Exchange<'_>) {
        match (exchange.prompt(), exchange.answer()) {
            (Prompt::Greeting, _) => {
                *self = Standing::new(self.alloc, self.spool, self.marks);
            }
            (_, Answer::Group { name, .. }) => self.select(name.as_slice()),
            (_, Answer::Numbers { name, .. }) => self.select(name.as_slice()),
            (
                Prompt::To(
                    Command::Next
                    | Command::Last
                    | Command::Retrieve {
                        which: Which::Number(_),
                        ..
                    },
                ),
                Answer::Sent { number, .. },
            ) => self.current = Some(*number),
            _ => {}
        }
    }

    /// Whether the spool has what an answer that fits says.
    pub(crate) fn has(&self, exchange: &Exchange<'_>) -> Result<bool, AllocError> {
        let Prompt::To(command) = exchange.prompt() else {
            return Ok(true);
        };
        Ok(match exchange.answer() {
            Answer::Plain { code } => is_generic(*code) || self.has_code(command, *code),
            Answer::Group { marks, name } => self.has_marks(name.as_slice(), *marks),
            Answer::Numbers { marks, name, block } => {
                self.has_marks(name.as_slice(), *marks)
                    && self.has_list(command, name.as_slice(), block)
            }
            Answer::Sent {
                number,
                id,
                block,
                ..
            } => self.has_sent(command, *number, id.as_slice(), block.as_ref()),
            Answer::Active(block) => match command {
                Command::ListActive(wildmat) => self.spool.is_list(wildmat.as_ref(), block),
                _ => false,
            },
            Answer::Overviews(block) => match command {
                Command::Over { which, .. } => self.has_overviews(which, block)?,
                _ => false,
            },
        })
    }

    /// Whether what a code alone says is so: what isn't named here says nothing of a spool.
    fn has_code(&self, command: &Command<'_>, code: u64) -> bool {
        match (command, code) {
            (Command::Group(word), 411) => self.spool.group(*word).is_none(),
            (
                Command::ListGroup {
                    group: Some(word),
                    ..
                },
                411,
            ) => self.spool.group(*word).is_none(),
            (
                Command::Next
                | Command::Last
                | Command::Retrieve {
                    which: Which::Current,
                    ..
                },
                420,
            ) => self.current.is_none(),
            (Command::Next, 421) => self.current.is_some() && self.above().is_none(),
            (Command::Last, 422) => self.current.is_some() && self.below().is_none(),
            (Command::Retrieve { which, .. }, _) => self.has_none(which, code),
            (Command::Over { which, .. }, _) => self.has_no_overview(which, code),
            _ => true,
        }
    }

    /// Whether there is no article of an id or a number, if a code says so.
    fn has_none(&self, which: &Which<'_>, code: u64) -> bool {
        match (which, code) {
            (Which::Id(word), 430) => self.spool.article(*word).is_none(),
            (Which::Number(Some(number)), 423) => match self.selected {
                Some(group) => !group.has(*number),
                None => true,
            },
            _ => true,
        }
    }

    /// The selected group.
    pub(crate) fn group(&self) -> Option<&'s Group> {
        self.selected
    }

    /// The number of the current article.
    pub(crate) fn number(&self) -> Option<u64> {
        self.current
    }

    /// The article of an id.
    pub(crate) fn article(&self, id: &[u8]) -> Option<&'s Article> {
        self.spool.article(id)
    }

    /// Of which memory is taken.
    pub(crate) fn alloc(&self) -> Global {
        self.alloc
    }

    /// The least number of the group above the current one.
    fn above(&self) -> Option<u64> {
        match (self.selected, self.current) {
            (Some(group), Some(from)) => group.above(from),
            _ => None,
        }
    }

    /// The greatest number of the group below the current one.
    fn below(&self) -> Option<u64> {
        match (self.selected, self.current) {
            (Some(group), Some(from)) => group.below(from),
            _ => None,
        }
    }

    /// Whether there is such a group, with at most as many numbers as estimated, all between the marks; and where marks
    /// are strict, they are its least and its greatest number, if it has some.
    fn has_marks(&self, name: &[u8], marks: WaterMarks) -> bool {
        let Some(group) = self.spool.group(name) else {
            return false;
        };
        let WaterMarks {
            estimate,
            low,
            high,
        } = marks;
        group.numbers.len() as u64 <= estimate
            && group.is_between(low, high)
            && (self.marks == Marks::Lenient || group.has_ends(low, high))
    }

    /// Whether there is such a group, with just the listed numbers in the range that was asked for.
    fn has_list(&self, command: &Command<'_>, name: &[u8], block: &Block<'_>) -> bool {
        match (self.spool.group(name), command) {
            (Some(group), Command::ListGroup { range, .. }) => group.is_list(range, block),
            _ => false,
        }
    }

    /// Whether an answer with a number and an id is so: by what was asked for, and what was sent.
    fn has_sent(
        &self,
        command: &Command<'_>,
        number: u64,
        id: &[u8],
        block: Option<&Block<'_>>,
    ) -> bool {
        let is_there = match self.selected {
            Some(group) => group.has_at(number, id),
            None => false,
        };
        match command {
            Command::Next => is_there && self.above() == Some(number),
            Command::Last => is_there && self.below() == Some(number),
            Command::Retrieve { what, which } => {
                let is_found = match which {
                    Which::Id(_) => number == 0 || is_there,
                    Which::Number(_) => is_there,
                    Which::Current => is_there && self.current == Some(number),
                };
                is_found && self.has_text(*what, id, block)
            }
            _ => false,
        }
    }

    /// Whether an id has an article, and this is sent of it.
    fn has_text(&self, what: What, id: &[u8], block: Option<&Block<'_>>) -> bool {
        match (self.spool.article(id), block) {
            (Some(article), Some(block)) => what != What::Stat && article.is_sent(what, block),
            (Some(_), None) => what == What::Stat,
            _ => false,
        }
    }
}

/// How many of the exchanges, from the first on, the spool permits.
pub(crate) fn count_permitted(
    alloc: Global,
    spool: &Spool,
    marks: Marks,
    exchanges: &[&Exchange<'_>],
) -> Result<usize, AllocError> {
    let mut visible = Visible::new(alloc, spool.limit);
    let mut standing = Standing::new(alloc, spool, marks);
    let mut count = 0usize;
    for exchange in exchanges {
        if !visible.fits(*exchange) || !standing.has(*exchange)? {
            return Ok(count);
        }
        visible.pass(*exchange)?;
        standing.pass(*exchange);
        count = count.saturating_add(1);
    }
    Ok(count)
}
