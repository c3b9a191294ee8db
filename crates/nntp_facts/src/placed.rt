//! Exchanges where they stand.
ghost use Rattle.std.specs.{Prelude.{◌≡◌, ◌<◌, ◌^◌, [], option_map, unwrap_or, IfSome, IsTrue}, List.{AllByRecursion}};
ghost use Rattle.nntp_wire.specs.{declared.marks.Marks.{Marks}, Inner.{AnswerView.{response}, View.{asked}}, Name.{IsGroupName}};
ghost use Rattle.nntp_article.specs.Session.Machine.{Visible};
ghost use Rattle.nntp_theory.specs.{Conflict.{said}, Inner.Together.{IsWellFormed}};
ghost use Rattle.nntp_said.specs.Facts.{facts_of};
ghost use Rattle.nntp_pair.specs.Inner.Pairing.{lines_in};
ghost use Rattle.nntp_facts.specs.Standing.{stands_of};

use crate::same::{is_same_answer, is_same_name};
use crate::standing::Standing;
use nntp_pair::Exchange;
use nntp_said::{Position, SaidFacts, facts_of};
use nntp_wire::{Answer, GroupName, Marks, Prompt};

/// An exchange of a session where it stands (RFC 3977, section 6.1).
#[derive(Drop)]
pub struct Placed<'a> {
    /// The number of its session, which counts from 1.
    pub session: u64,
    /// Where its session stands before it.
    pub standing: Standing<'a>,
    /// The exchange.
    pub exchange: Exchange<'a>,
}

impl<'a> Placed<'a> {
    /// Returns the group that is selected, if one is.
    pub(crate) fn selected(&self) -> Option<&GroupName<'a>>
        ensures { option_map (λ name. name.now) result ≡ (stands_of self.now).selected }
    {
        self.standing.selected.as_ref()
    }

    /// Returns the octets of the name of the selected group, or none if no group is selected.
    pub fn selected_name(&self) -> &'a [u8]
        ensures value { result.now ≡ unwrap_or (stands_of self.now).selected [] }
        ensures is_name { IfSome (stands_of self.now).selected IsGroupName }
    {
        match &self.standing.selected {
            Some(name) => name.as_slice(),
            None => &[],
        }
    }

    /// Returns the position at which the session stands.
    pub fn position(&self) -> Position
        ensures { result ≡ (stands_of self.now).position }
    {
        self.standing.position
    }

    /// Returns what is answered.
    pub fn prompt(&self) -> &Prompt<'a>
        ensures { asked result.now ≡ (stands_of self.now).asked }
    {
        self.exchange.prompt()
    }

    /// Returns what the response says.
    pub fn answer(&self) -> &Answer<'a>
        ensures value { response result.now ≡ (stands_of self.now).response }
        ensures few_lines { lines_in (stands_of self.now).response < 2 ^ 64 }
        ensures well_formed { (how : Marks) (v : Visible) (at : Position)
            → AllByRecursion IsWellFormed (facts_of how v at (stands_of self.now).asked (stands_of self.now).response) }
    {
        self.exchange.answer()
    }

    /// Tells whether both are the same answer to the same line, from the same place, octet by octet. Of two lines that are
    /// the same command in other octets it is false.
    pub fn is_same(&self, other: &Placed<'_>) -> bool
        ensures { IsTrue result → stands_of self.now ≡ stands_of other.now }
    {
        is_same_name(&self.standing.selected, &other.standing.selected)
            && self.standing.position == other.standing.position
            && self.exchange.place().is_same(other.exchange.place())
            && is_same_answer(self.exchange.answer(), other.exchange.answer())
    }

    /// Returns what the answer says of the spool, where marks are read so: at most three facts.
    pub fn facts(&self, how: Marks) -> SaidFacts<'_>
        ensures { result ≡ said how (stands_of self.now) }
    {
        facts_of(
            how,
            self.selected_name(),
            self.position(),
            self.prompt(),
            self.answer(),
        )
    }
}
