//! Where a session stands, and by which answers (RFC 3977, section 6.1).
ghost use Rattle.std.specs.Prelude.{◌≡◌};
ghost use Rattle.nntp_facts.specs.Standing.{mover, moved, nowhere, selecting, standing_after};

use nntp_pair::Exchange;
use nntp_said::Position;
use nntp_wire::{Answer, GroupName};

/// The group that is selected, if one is, and where the session stands in it.
#[derive(Drop)]
pub struct Standing<'a> {
    /// The name of the group.
    pub selected: Option<GroupName<'a>>,
    /// The index of the answer that selected it.
    pub selected_by: u64,
    /// The current article.
    pub position: Position,
    /// The index of the answer that made it the current one.
    pub moved_by: u64,
}

impl<'a> Standing<'a> {
    /// In no group, as where a session begins.
    pub fn nowhere() -> Standing<'a>
        ensures { result ≡ nowhere }
    {
        Standing {
            selected: None,
            selected_by: 0,
            position: Position::Nowhere,
            moved_by: 0,
        }
    }

    /// Returns the same once more.
    pub fn copy(&self) -> Standing<'a>
        ensures { result ≡ self.now }
    {
        Standing {
            selected: copied(&self.selected),
            selected_by: self.selected_by,
            position: self.position,
            moved_by: self.moved_by,
        }
    }

    /// Where an answer leaves the session.
    pub fn after(&self, exchange: &Exchange<'a>) -> Standing<'a>
        ensures { result ≡ standing_after self.now exchange.now }
    {
        match exchange.answer() {
            Answer::Group { name, .. } => Standing::selecting(name, exchange.index()),
            Answer::Numbers { name, .. } => Standing::selecting(name, exchange.index()),
            _ => self.moved(exchange),
        }
    }

    /// At the first article of a group that the answer selects.
    fn selecting(name: &GroupName<'a>, index: u64) -> Standing<'a>
        ensures { result ≡ selecting name.now index }
    {
        Standing {
            selected: Some(name.copy()),
            selected_by: index,
            position: Position::First,
            moved_by: index,
        }
    }

    /// Where an answer that selects no group leads.
    fn moved(&self, exchange: &Exchange<'a>) -> Standing<'a>
        ensures { result ≡ moved exchange.now self.now }
    {
        let position = self.position.after(exchange.prompt(), exchange.answer());
        Standing {
            selected: copied(&self.selected),
            selected_by: self.selected_by,
            position,
            moved_by: mover(self.position, position, self.moved_by, exchange.index()),
        }
    }
}

/// The answer that led to a position: this one, unless the session stood there before.
fn mover(before: Position, after: Position, old: u64, this: u64) -> u64
    ensures { result ≡ mover before after old this }
{
    match (before, after) {
        (Position::Known(before), Position::Known(after)) if before == after => old,
        (_, Position::Known(_)) => this,
        _ => old,
    }
}

/// Returns the same name once more.
fn copied<'a>(name: &Option<GroupName<'a>>) -> Option<GroupName<'a>>
    ensures { result ≡ name.now }
{
    Some(name.as_ref()?.copy())
}
