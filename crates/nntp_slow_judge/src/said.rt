//! What the answers of a session say of every spool that gives them.
use crate::fields::Overview;
use crate::numbers::{Denied, gaps, outside};
use nntp_pair::Exchange;
use nntp_wire::{Answer, Block, Command, Prompt, Range, What, Which, active_line, listed_number};
use std::alloc::{AllocError, Global};

/// Where a session stands in the selected group.
#[derive(Clone, Copy)]
enum Place {
    /// At the first article, which is not yet seen.
    First,
    /// At the article of a number.
    Number(u64),
}

/// A number of a group, and its id where it is shown.
#[derive(Clone, Copy)]
pub(crate) struct Shown<'a> {
    pub(crate) group: &'a [u8],
    pub(crate) number: u64,
    pub(crate) id: Option<&'a [u8]>,
}

/// That the first number of a group is not seen: it has one, and one below a number if that is told.
#[derive(Clone, Copy)]
pub(crate) struct Unseen<'a> {
    pub(crate) group: &'a [u8],
    pub(crate) below: Option<u64>,
}

/// The marks that a 211 reports of a group.
#[derive(Clone, Copy)]
pub(crate) struct Reported<'a> {
    pub(crate) group: &'a [u8],
    pub(crate) low: u64,
    pub(crate) high: u64,
}

/// A success for an id, with what was sent.
#[derive(Drop)]
pub(crate) struct Sent<'a> {
    pub(crate) id: &'a [u8],
    pub(crate) head: Option<Vec<&'a [u8]>>,
    pub(crate) body: Option<Vec<&'a [u8]>>,
}

/// What was said so far, in lists.
pub(crate) struct Said<'a> {
    alloc: Global,
    selected: Option<&'a [u8]>,
    place: Place,
    pub(crate) groups: Vec<&'a [u8]>,
    pub(crate) shown: Vec<Shown<'a>>,
    pub(crate) denied: Vec<Denied<'a>>,
    pub(crate) reported: Vec<Reported<'a>>,
    pub(crate) unseen: Vec<Unseen<'a>>,
    pub(crate) mentioned: Vec<&'a [u8]>,
    pub(crate) sent: Vec<Sent<'a>>,
    pub(crate) overviews: Vec<Overview<'a>>,
}

/// By hand, since a derived one is checked list by list at each place where what was said may be dropped.
impl<'a> Drop for Said<'a> {
    fn drop(self) {
        let Said {
            alloc: _,
            selected: _,
            place: _,
            groups: _,
            shown: _,
            denied: _,
            reported: _,
            unseen: _,
            mentioned: _,
            sent: _,
            overviews: _,
        } = self;
    }
}

impl<'a> Said<'a> {
    pub(crate) fn new(alloc: Global) -> Said<'a> {
        Said {
            alloc,
            selected: None,
            place: Place::First,
            groups: Vec::new(alloc),
            shown: Vec::new(alloc),
            denied: Vec::new(alloc),
            reported: Vec::new(alloc),
            unseen: Vec::new(alloc),
            mentioned: Vec::new(alloc),
            sent: Vec::new(alloc),
            overviews: Vec::new(alloc),
        }
    }

    /// Where the session stands: the selected group, and the number of the current article where it was shown.
    pub(crate) fn stands(&self) -> (Option<&'a [u8]>, Option<u64>) {
        let current = match self.place {
            Place::First => None,
            Place::Number(number) => Some(number),
        };
        (self.selected, current)
    }

    /// Goes there.
    pub(crate) fn stand(&mut self, selected: Option<&'a [u8]>, current: Option<u64>) {
        self.selected = selected;
        self.place = match current {
            Some(number) => Place::Number(number),
            None => Place::First,
        };
    }

    /// Adds to the groups each of whose numbers something is said.
    pub(crate) fn add_groups(&mut self) -> Result<(), AllocError> {
        for shown in &self.shown {
            self.groups.push(shown.group)?;
        }
        for denied in &self.denied {
            self.groups.push(denied.group)?;
        }
        for unseen in &self.unseen {
            self.groups.push(unseen.group)?;
        }
        Ok(())
    }

    /// Adds what one more answer says. A greeting begins a session, in which no group is selected.
    pub(crate) fn hear(&mut self, exchange: &Exchange<'a>) -> Result<(), AllocError> {
        let Prompt::To(command) = exchange.prompt() else {
            self.stand(None, None);
            return Ok(());
        };
        match exchange.answer() {
            Answer::Group { marks, name } => self.select(name.as_slice(), marks.low, marks.high),
            Answer::Numbers { marks, name, block } => {
                self.select(name.as_slice(), marks.low, marks.high)?;
                self.hear_list(command, name.as_slice(), block)
            }
            Answer::Sent {
                number,
                id,
                block,
                ..
            } => self.hear_sent(command, *number, id.as_slice(), block.as_ref()),
            Answer::Active(block) => self.hear_groups(block),
            Answer::Overviews(block) => match command {
                Command::Over { which, .. } => self.hear_overviews(which, block),
                _ => Ok(()),
            },
            Answer::Plain { code } => self.hear_code(command, *code),
        }
    }

    /// A 211: the group is there, and no number is outside its marks.
    fn select(&mut self, name: &'a [u8], low: u64, high: u64) -> Result<(), AllocError> {
        self.groups.push(name)?;
        outside(&mut self.denied, name, low, high)?;
        self.reported.push(Reported {
            group: name,
            low,
            high,
        })?;
        self.selected = Some(name);
        self.place = Place::First;
        Ok(())
    }

    /// The numbers of a LISTGROUP: those in the range and no others.
    fn hear_list(
        &mut self,
        command: &Command<'a>,
        group: &'a [u8],
        block: &Block<'a>,
    ) -> Result<(), AllocError> {
        let mut numbers = Vec::new(self.alloc);
        for line in block.lines() {
            if let Some(number) = listed_number(line) {
                numbers.push(number)?;
                self.show(group, number, None)?;
            }
        }
        match command {
            Command::ListGroup { range, .. } => {
                let Range { first, last } = range;
                gaps(
                    &mut self.denied,
                    group,
                    (*first, last.unwrap_or(u64::MAX)),
                    &numbers,
                )
            }
            _ => Ok(()),
        }
    }

    /// The groups of a LIST ACTIVE.
    fn hear_groups(&mut self, block: &Block<'a>) -> Result<(), AllocError> {
        for line in block.lines() {
            if let Some(active) = active_line(line) {
                let name = active.name.as_slice();
                self.groups.push(name)?;
                outside(&mut self.denied, name, active.low, active.high)?;
            }
        }
        Ok(())
    }

    /// A success, with its number and its id.
    fn hear_sent(
        &mut self,
        command: &Command<'a>,
        number: u64,
        id: &'a [u8],
        block: Option<&Block<'a>>,
    ) -> Result<(), AllocError> {
        self.mention(id)?;
        if let (Some(group), true) = (self.selected, number != 0) {
            self.show(group, number, Some(id))?;
            self.hear_move(command, group, number)?;
        }
        match command {
            Command::Retrieve { what, .. } => self.hear_article(*what, id, block),
            _ => Ok(()),
        }
    }

    /// What a success says of the numbers beside its own, and where it leads.
    fn hear_move(
        &mut self,
        command: &Command<'a>,
        group: &'a [u8],
        number: u64,
    ) -> Result<(), AllocError> {
        match (command, self.place) {
            (Command::Next, Place::First) => self.unseen.push(Unseen {
                group,
                below: Some(number),
            })?,
            (Command::Next, Place::Number(from)) => self.deny(
                group,
                from.saturating_add(1),
                number.saturating_sub(1),
            )?,
            (Command::Last, Place::Number(from)) => self.deny(
                group,
                number.saturating_add(1),
                from.saturating_sub(1),
            )?,
            (
                Command::Retrieve {
                    which: Which::Current,
                    ..
                },
                Place::First,
            ) => self.deny(group, 0, number.saturating_sub(1))?,
            _ => {}
        }
        match command {
            Command::Retrieve {
                which: Which::Id(_),
                ..
            } => {}
            _ => self.place = Place::Number(number),
        }
        Ok(())
    }

    /// The head and the body that were sent.
    fn hear_article(
        &mut self,
        what: What,
        id: &'a [u8],
        block: Option<&Block<'a>>,
    ) -> Result<(), AllocError> {
        let mut head = Vec::new(self.alloc);
        let mut body = Vec::new(self.alloc);
        let mut is_body = what == What::Body;
        if let Some(block) = block {
            for line in block.lines() {
                if is_body {
                    body.push(line)?;
                } else if what == What::Article && line.is_empty() {
                    is_body = true;
                } else {
                    head.push(line)?;
                }
            }
        }
        let has_head = what == What::Article || what == What::Head;
        let has_body = what == What::Article || what == What::Body;
        self.sent.push(Sent {
            id,
            head: if has_head { Some(head) } else { None },
            body: if has_body { Some(body) } else { None },
        })?;
        Ok(())
    }

    /// A success of STAT, which sends nothing.
    pub(crate) fn hear_stat(&mut self, id: &'a [u8]) -> Result<(), AllocError> {
        self.mention(id)?;
        self.hear_article(What::Stat, id, None)
    }

    /// The number is there, with this id if one is told.
    pub(crate) fn show(
        &mut self,
        group: &'a [u8],
        number: u64,
        id: Option<&'a [u8]>,
    ) -> Result<(), AllocError> {
        self.shown.push(Shown { group, number, id })?;
        Ok(())
    }

    /// The id is told, or denied.
    pub(crate) fn mention(&mut self, id: &'a [u8]) -> Result<(), AllocError> {
        self.mentioned.push(id)?;
        Ok(())
    }

    /// A code without arguments.
    fn hear_code(&mut self, command: &Command<'a>, code: u64) -> Result<(), AllocError> {
        if let Command::Over { which, .. } = command {
            return self.hear_no_overview(which, code);
        }
        if let (
            Command::Retrieve {
                which: Which::Id(word),
                ..
            },
            430,
        ) = (command, code)
        {
            self.mention(*word)?;
        }
        match self.selected {
            Some(group) => self.hear_refusal(command, group, code),
            None => Ok(()),
        }
    }

    /// What a code without arguments says of the numbers of the selected group.
    fn hear_refusal(
        &mut self,
        command: &Command<'a>,
        group: &'a [u8],
        code: u64,
    ) -> Result<(), AllocError> {
        match (command, code, self.place) {
            (
                Command::Next
                | Command::Last
                | Command::Retrieve {
                    which: Which::Current,
                    ..
                },
                420,
                _,
            ) => self.deny(group, 0, u64::MAX),
            (Command::Next, 421, Place::First) | (Command::Last, 422, Place::First) => {
                self.unseen.push(Unseen { group, below: None })?;
                Ok(())
            }
            (Command::Next, 421, Place::Number(from)) => {
                self.deny(group, from.saturating_add(1), u64::MAX)
            }
            (Command::Last, 422, Place::Number(from)) => {
                self.deny(group, 0, from.saturating_sub(1))
            }
            (
                Command::Retrieve {
                    which: Which::Number(Some(number)),
                    ..
                },
                423,
                _,
            ) => self.deny(group, *number, *number),
            _ => Ok(()),
        }
    }

    pub(crate) fn deny(
        &mut self,
        group: &'a [u8],
        first: u64,
        last: u64,
    ) -> Result<(), AllocError> {
        self.denied.push(Denied { group, first, last })?;
        Ok(())
    }
}
