//! Which answers fit the visible state of a session, whatever the spool is.
use crate::wildmats::is_matched;
use nntp_article::{Head, Parts};
use nntp_pair::Exchange;
use nntp_wire::{
    Answer, Block, Command, Limit, MessageId, Prompt, Range, WaterMarks, What, Which, Wildmat,
    active_line, listed_number,
};
use std::alloc::{AllocError, Global};

/// The greatest article number, the selected group, and the low marks that were reported.
#[derive(Drop)]
pub(crate) struct Visible<'a> {
    alloc: Global,
    greatest: u64,
    selected: Option<&'a [u8]>,
    lows: Vec<(&'a [u8], u64)>,
}

/// The greatest number of 31 bits, or of 16 digits.
pub(crate) fn greatest(limit: Limit) -> u64 {
    match limit {
        Limit::Narrow => (1 << 31) - 1,
        Limit::Wide => 9_999_999_999_999_999,
    }
}

/// Whether any command may be answered so.
pub(crate) fn is_generic(code: u64) -> bool {
    matches!(
        code,
        400 | 401 | 403 | 480 | 483 | 500 | 501 | 502 | 503 | 504
    )
}

impl<'a> Visible<'a> {
    pub(crate) fn new(alloc: Global, limit: Limit) -> Visible<'a> {
        Visible {
            alloc,
            greatest: greatest(limit),
            selected: None,
            lows: Vec::new(alloc),
        }
    }

    /// The state behind an answer. A greeting begins a session, in which no group is selected and no mark reported.
    pub(crate) fn pass(&mut self, exchange: &Exchange<'a>) -> Result<(), AllocError> {
        if let Prompt::Greeting = exchange.prompt() {
            self.selected = None;
            self.lows.clear();
        }
        let (marks, name) = match exchange.answer() {
            Answer::Group { marks, name } => (*marks, name.as_slice()),
            Answer::Numbers { marks, name, .. } => (*marks, name.as_slice()),
            _ => return Ok(()),
        };
        self.selected = Some(name);
        if marks.low != 0 || marks.high != 0 {
            self.lows.push((name, marks.low))?;
        }
        Ok(())
    }

    pub(crate) fn fits(&self, exchange: &Exchange<'_>) -> bool {
        match (exchange.prompt(), exchange.answer()) {
            (Prompt::Greeting, Answer::Plain { code }) => matches!(*code, 200 | 201 | 400 | 502),
            (Prompt::To(command), Answer::Plain { code }) => {
                is_generic(*code) || self.code_fits(command, *code)
            }
            (Prompt::To(command), answer) => self.answer_fits(command, answer),
            _ => false,
        }
    }

    pub(crate) fn is_selected(&self) -> bool {
        self.selected.is_some()
    }

    pub(crate) fn is_number(&self, number: u64) -> bool {
        1 <= number && number <= self.greatest
    }

    /// Whether marks without an estimate are well formed.
    fn are_marks(&self, low: u64, high: u64) -> bool {
        let are_zeros = low == 0 && high == 0;
        are_zeros || (1 <= low && low <= high.saturating_add(1) && high <= self.greatest)
    }

    fn code_fits(&self, command: &Command<'_>, code: u64) -> bool {
        let is_selected = self.is_selected();
        match command {
            Command::Capabilities => code == 101,
            Command::ModeReader => code == 200 || code == 201,
            Command::Quit => code == 205,
            Command::Group(_) => code == 411,
            Command::ListGroup { group: Some(_), .. } => code == 411,
            Command::ListGroup { group: None, .. } => code == 412 && !is_selected,
            Command::Next => match code {
                412 => !is_selected,
                420 | 421 => is_selected,
                _ => false,
            },
            Command::Last => match code {
                412 => !is_selected,
                420 | 422 => is_selected,
                _ => false,
            },
            Command::Retrieve { which, .. } => match (which, code) {
                (Which::Id(_), 430) => true,
                (Which::Number(_) | Which::Current, 412) => !is_selected,
                (Which::Number(_), 423) => is_selected,
                (Which::Current, 420) => is_selected,
                _ => false,
            },
            Command::Over { keyword, which } => self.over_code_fits(*keyword, which, code),
            Command::Opaque => code == 381 || code < 300 || 399 < code,
            Command::ListActive(_) | Command::IllFormed => false,
        }
    }

    fn answer_fits(&self, command: &Command<'_>, answer: &Answer<'_>) -> bool {
        match (command, answer) {
            (Command::Group(word), Answer::Group { marks, name }) => {
                name.as_slice() == *word && self.marks_fit(*marks, *word)
            }
            (Command::ListGroup { group, range }, Answer::Numbers { marks, name, block }) =>
                match group.or(self.selected) {
                    Some(wanted) => {
                        name.as_slice() == wanted
                            && self.marks_fit(*marks, wanted)
                            && self.list_fits(range, block)
                    }
                    None => false,
                },
            (Command::Next | Command::Last, Answer::Sent { number, .. }) => {
                self.selected.is_some() && self.is_number(*number)
            }
            (
                Command::Retrieve { what, which },
                Answer::Sent {
                    number,
                    id,
                    block,
                    ..
                },
            ) => self.number_fits(which, *number, id) && head_fits(*what, id, block.as_ref()),
            (Command::ListActive(wildmat), Answer::Active(block)) => {
                self.groups_fit(wildmat.as_ref(), block)
            }
            (Command::Over { keyword, which }, Answer::Overviews(block)) => {
                self.overviews_fit(*keyword, which, block)
            }
            _ => false,
        }
    }

    fn marks_fit(&self, marks: WaterMarks, name: &[u8]) -> bool {
        let WaterMarks {
            estimate,
            low,
            high,
        } = marks;
        if estimate == 0 && low == 0 && high == 0 {
            return true;
        }
        let room = high.saturating_add(1).saturating_sub(low);
        1 <= low
            && self.are_marks(low, high)
            && estimate <= room
            && !self
                .lows
                .iter()
                .any(|(other, least)| *other == name && low < *least)
    }

    pub(crate) fn number_fits(&self, which: &Which<'_>, number: u64, id: &MessageId<'_>) -> bool {
        let is_there = self.selected.is_some() && self.is_number(number);
        match which {
            Which::Id(word) => id.as_slice() == *word && (number == 0 || is_there),
            Which::Number(wanted) => *wanted == Some(number) && is_there,
            Which::Current => is_there,
        }
    }

    fn groups_fit(&self, wildmat: Option<&Wildmat<'_>>, block: &Block<'_>) -> bool {
        for (index, line) in block.lines().enumerate() {
            let Some(active) = active_line(line) else {
                return false;
            };
            let name = active.name.as_slice();
            let matches = match wildmat {
                Some(wildmat) => is_matched(wildmat.as_slice(), name),
                None => true,
            };
            if !matches || !self.are_marks(active.low, active.high) {
                return false;
            }
            for other in block.lines().take(index) {
                if active_line(other).is_some_and(|other| other.name.as_slice() == name) {
                    return false;
                }
            }
        }
        true
    }

    /// Whether the listed numbers ascend and are numbers of the range.
    fn list_fits(&self, range: &Range, block: &Block<'_>) -> bool {
        let last = range.last.unwrap_or(self.greatest);
        let mut before = 0;
        for line in block.lines() {
            let Some(number) = listed_number(line) else {
                return false;
            };
            let is_within = range.first <= number && number <= last;
            if number <= before || !self.is_number(number) || !is_within {
                return false;
            }
            before = number;
        }
        true
    }
}

/// Whether a head is sent where one is due, and says no other id.
fn head_fits(what: What, id: &MessageId<'_>, block: Option<&Block<'_>>) -> bool {
    let head = match (what, block) {
        (What::Body | What::Stat, _) => return true,
        (_, None) => return false,
        (What::Head, Some(block)) => Head::parse(block),
        (What::Article, Some(block)) => match Parts::split(block) {
            Some(parts) => Head::parse(&parts.head),
            None => None,
        },
    };
    match head {
        Some(head) => match head.message_id() {
            Some(said) => said.as_slice() == id.as_slice(),
            None => true,
        },
        None => false,
    }
}
