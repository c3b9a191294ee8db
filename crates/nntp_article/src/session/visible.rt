//! What a session shows of its state, whatever the spool.
ghost use Rattle.std.specs.Prelude.{◌≡◌, IsTrue, OnOk, OnErr, unwrap_or, []};
ghost use Rattle.std.specs.Option.{option_copied};
ghost use Rattle.std.specs.FinMap.{get, insert};
ghost use Rattle.nntp_wire.specs.Inner.View.{asked};
ghost use Rattle.nntp_wire.specs.Inner.AnswerView.{response};
ghost use Rattle.nntp_article.specs.Session.Machine.{start, visible_after, selects};

mod allowed;
mod codes;
mod groups;
mod heads;
mod marks;
mod misfits;
mod numbers;
mod overviews;

pub use codes::is_generic_failure;
use marks::are_zeros;
use nntp_wire::{Answer, Prompt, WaterMarks};
pub use numbers::is_article_number;
use std::alloc::{AllocError, Allocator, Global};
use std::collections::BTreeMap;
use std::marker::Model;

/// What a session shows of its state: whether the server closed the connection, the selected group,
/// and the greatest low water mark of each group so far.
#[derive(Drop)]
pub struct Visible<A: Allocator = Global> {
    alloc: A,
    closed: bool,
    selected: Option<Vec<u8, A>>,
    lows: BTreeMap<Vec<u8, A>, u64, A>,
}

impl<A: Allocator> Model for Visible<A> {
    ghost use Rattle.std.specs.{Prelude.{option_map}, Ordering.{nat_cmp}, Cmp.Lexicographic.{slice_cmp}};
    ghost use Rattle.nntp_article.specs.Session.Machine.{Visible as VisibleState};
    ghost use Rattle.nntp_article.specs.Inner.{Coded.{coded_visible}, ShownMap.{shown}};

    ghost Value = { VisibleState };

    ghost coded = { coded_visible };

    ghost view = { λ a. record {
      closed = a.closed;
      selected = option_map (λ name. name.items) a.selected;
      lows = shown (slice_cmp nat_cmp) (λ name. name.items) (λ low. low) a.lows.entries;
    } };
}

impl<A: Allocator + Copy> Visible<A> {
    /// The visible state before the greeting: the connection is open, no group is selected, and no
    /// low water mark was reported. The memory for names of groups is taken from `alloc`.
    pub fn new(alloc: A) -> Visible<A>
        ensures { result ≡ start.visible }
    {
        Visible {
            alloc,
            closed: false,
            selected: None,
            lows: BTreeMap::new(alloc),
        }
    }

    /// Goes on to the visible state that the answer leaves.
    ///
    /// # Errors
    ///
    /// Where memory was refused. The state is then as it was.
    pub fn advance(&mut self, prompt: &Prompt<'_>, answer: &Answer<'_>) -> Result<(), AllocError>
        ensures ok { OnOk result (self.new ≡ visible_after self.old (asked prompt.now) (response answer.now)) }
        ensures err { OnErr result (self.new ≡ self.old) }
    {
        match answer {
            Answer::Group { marks, name } => self.select(name.as_slice(), *marks),
            Answer::Numbers { marks, name, .. } => self.select(name.as_slice(), *marks),
            _ => {
                self.closed = self.closed || answer.closes(prompt);
                Ok(())
            }
        }
    }

    /// Selects the group, and keeps its low mark unless all three numbers are zero. Where neither
    /// is new no memory is taken.
    fn select(&mut self, name: &[u8], marks: WaterMarks) -> Result<(), AllocError>
        ensures ok { OnOk result (self.new ≡ selects self.old marks name.now) }
        ensures err { OnErr result (self.new ≡ self.old) }
    {
        if self.is_noted(name, marks) {
            return Ok(());
        }
        let selected = Vec::from_slice(self.alloc, name)?;
        if !are_zeros(marks) {
            self.note_low(name, marks.low)?;
        }
        self.selected = Some(selected);
        Ok(())
    }

    fn note_low(&mut self, name: &[u8], low: u64) -> Result<(), AllocError>
        ensures ok { OnOk result (self.new ≡ record self.old { lows = insert self.old.lows name.now low }) }
        ensures err { OnErr result (self.new ≡ self.old) }
    {
        self.lows.insert(Vec::from_slice(self.alloc, name)?, low)?;
        Ok(())
    }
}

impl<A: Allocator> Visible<A> {
    /// Whether the group is selected already, and its low mark kept, so that to select it changes
    /// nothing.
    fn is_noted(&self, name: &[u8], marks: WaterMarks) -> bool
        ensures { IsTrue result → selects self.now marks name.now ≡ self.now }
    {
        match self.selected() {
            Some(selected) if selected == name => {
                are_zeros(marks) || self.low(name) == Some(marks.low)
            }
            _ => false,
        }
    }

    /// Whether the server closed the connection.
    pub fn is_closed(&self) -> bool
        ensures { result ≡ self.now.closed }
    {
        self.closed
    }

    /// The name of the selected group (RFC 3977, section 6.1.1). None where no group is selected.
    pub fn selected(&self) -> Option<&[u8]>
        ensures { option_copied result ≡ self.now.selected }
    {
        match &self.selected {
            Some(name) => Some(name.as_slice()),
            None => None,
        }
    }

    /// The name of the selected group, or the empty name, which names no group.
    pub fn selected_name(&self) -> &[u8]
        ensures { result.now ≡ unwrap_or self.now.selected [] }
    {
        self.selected().unwrap_or(&[])
    }

    /// The greatest low water mark that was reported so far for the group of this name, marks of
    /// three zeros aside (RFC 3977, section 6.1.1.2). None where there is no such mark.
    pub fn low(&self, name: &[u8]) -> Option<u64>
        ensures { get self.now.lows name.now ≡ result }
    {
        self.lows.get(name).copied()
    }
}
