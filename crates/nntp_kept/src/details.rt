//! The details that are kept of one group: its numbers, and the ids that are shown at numbers.
ghost use Rattle.std.specs.{Prelude.{◌≡◌, ◌↔◌, List, [], ◌++◌, IsTrue, IfSome, IfOk, OnOk, Some, option_map}, Option.{option_copied}, Rc.{rc_str_bytes}};
ghost use Rattle.std.specs.FinMap.{get, insert, empty};
ghost use Rattle.nntp_said.specs.Asks.{Ask};
ghost use Rattle.nntp_theory.specs.Inner.Together.{AsksStand};
ghost use Rattle.nntp_numbers.specs.Inner.{Part.{Says}, PartView.{said}, Summary.{IsSummary, AreBounded}, Unseen.{unseen_in, unseen_high_in}};
ghost use Rattle.nntp_kept.specs.Inner.{SayingView.{id_at, of_group}, Kept.{Agree, IsFree, MayHave, ids_with, places_with}, Between.{group_between}};
ghost use Rattle.nntp_kept.specs.Inner.KeptSaying.{HasSaid, IsTextOf};

use crate::numbered_ids::NumberedIds;
use crate::saying::{GroupPart, IdAt};
use nntp_numbers::{AscendingNumbers, Numbers};
use std::alloc::{AllocError, Allocator, Global};
use std::marker::Model;
use std::rc::RcStr;

/// What is kept of one group of which more is said than marks.
pub(crate) struct Details<A: Allocator = Global> {
    numbers: Numbers<A>,
    ids: NumberedIds<A>,
}

/// By hand, since a derived one is checked field by field at each place where details may be dropped.
impl<A: Allocator> Drop for Details<A> {
    fn drop(self) {
        let Details { numbers: _, ids: _ } = self;
    }
}

impl<A: Allocator> Model for Details<A> {
    ghost use Rattle.nntp_kept.specs.Inner.{Kept.{KeptGroup}, GroupView.{coded_group}};

    ghost Value = { KeptGroup };

    ghost coded = { coded_group };

    ghost view = { λ g. record { numbers = g.numbers; ids = g.ids.0; places = g.ids.1 } };
}

impl<A: Allocator + Copy> Details<A> {
    /// Creates what is kept of a group of which nothing is said yet.
    pub(crate) fn new(alloc: A) -> Details<A>
        ensures numbers { IsSummary result.numbers [] }
        ensures ids { (result.ids ≡ empty) × (result.places ≡ empty) }
    {
        Details {
            numbers: Numbers::new(alloc),
            ids: NumberedIds::new(alloc),
        }
    }

    /// Creates what is kept of a group of which it is said alone that no number is below `low` or
    /// above `high`. It takes no memory.
    pub(crate) fn between(alloc: A, low: u64, high: u64) -> Details<A>
        ensures { result ≡ group_between low high }
    {
        Details {
            numbers: Numbers::between(alloc, low, high),
            ids: NumberedIds::new(alloc),
        }
    }

    /// Adds what is said of the group, with the text of the id that a number has. After an error the
    /// value says nothing of use.
    pub(crate) fn add(
        &mut self,
        part: &GroupPart<'_>,
        text: Option<RcStr<A>>,
    ) -> Result<(), AllocError>
        ensures numbers { OnOk result ((asks more : List Ask) → IsSummary self.old.numbers asks → Says (said part.now.numbers) more
            → IsSummary self.new.numbers (asks ++ more)) }
        ensures ids { OnOk result (IsTextOf (option_map (λ text. rc_str_bytes text) text) (id_at part.now.id)
            → Agree (get self.old.ids) (get self.old.places) (id_at part.now.id) → MayHave self.old.ids self.old.places (id_at part.now.id)
            → (self.new.ids ≡ ids_with self.old.ids (id_at part.now.id)) × (self.new.places ≡ places_with self.old.places (id_at part.now.id))) }
    {
        self.numbers.add(&part.numbers)?;
        self.add_id(part.id, text)
    }

    /// Adds that the number has the id of this text, if it may have it. After an error the value says
    /// nothing of use.
    fn add_id(&mut self, id: Option<IdAt<'_>>, text: Option<RcStr<A>>) -> Result<(), AllocError>
        ensures numbers { self.new.numbers ≡ self.old.numbers }
        ensures ids { OnOk result (IsTextOf (option_map (λ text. rc_str_bytes text) text) (id_at id.entry)
            → Agree (get self.old.ids) (get self.old.places) (id_at id.entry) → MayHave self.old.ids self.old.places (id_at id.entry)
            → (self.new.ids ≡ ids_with self.old.ids (id_at id.entry)) × (self.new.places ≡ places_with self.old.places (id_at id.entry))) }
    {
        match (id, text) {
            (Some(at), Some(text)) => self.add_id_at(at.number, text),
            _ => Ok(()),
        }
    }

    /// Adds that the number has the id of this text, if it may have it. Nothing is added where an id is
    /// shown at the number already. After an error the value says nothing of use.
    fn add_id_at(&mut self, number: u64, id: RcStr<A>) -> Result<(), AllocError>
        ensures numbers { self.new.numbers ≡ self.old.numbers }
        ensures ids { OnOk result (Agree (get self.old.ids) (get self.old.places) (Some (number, rc_str_bytes id))
            → IsFree (get self.old.ids number) (get self.old.places (rc_str_bytes id)) (number, rc_str_bytes id)
            → (self.new.ids ≡ insert self.old.ids number (rc_str_bytes id)) × (self.new.places ≡ insert self.old.places (rc_str_bytes id) number)) }
    {
        if self.id(number).is_some() {
            return Ok(());
        }
        self.ids.add(number, id)
    }

    /// Returns what is said of the numbers of the group.
    pub(crate) fn numbers(&self) -> Result<Numbers<A>, AllocError>
        ensures { IfOk result (λ numbers. numbers ≡ self.now.numbers) }
    {
        self.numbers.copy()
    }
}

impl<A: Allocator> Details<A> {
    /// Returns two marks, if it is said alone that no number is below the first or above the second.
    pub(crate) fn marks(&self) -> Option<(u64, u64)>
        ensures { IfSome result (λ marks. self.now ≡ group_between marks.0 marks.1) }
    {
        if self.ids.is_empty() {
            self.numbers.marks()
        } else {
            None
        }
    }

    /// Tells whether what is said of the group stands together with all that was said before: what
    /// is said of its numbers, and that the number has the id, which is shown at no other number,
    /// and no other id there.
    pub(crate) fn joins(&self, part: &GroupPart<'_>) -> bool
        ensures { (asks more : List Ask) → IsSummary self.now.numbers asks → AsksStand asks → AreBounded (asks ++ more) → Says (said part.now.numbers) more
            → Agree (get self.now.ids) (get self.now.places) (id_at part.now.id) → IsTrue result
            ↔ (AsksStand (asks ++ more) × MayHave self.now.ids self.now.places (id_at part.now.id)) }
    {
        self.numbers.joins(&part.numbers) && self.may_have(part.id)
    }

    /// Tells whether all that is said was said before: of no id, or only that a number is there,
    /// with the id that is shown there already.
    pub(crate) fn has_said(&self, part: &GroupPart<'_>) -> bool
        ensures { IsTrue result ↔ HasSaid self.now (of_group part.now) }
    {
        match part.id {
            Some(at) => part.numbers.says_only(at.number) && self.has_id(at),
            None => self.numbers.has_said(&part.numbers),
        }
    }

    /// Tells whether the id is shown at the number.
    fn has_id(&self, at: IdAt<'_>) -> bool
        ensures { IsTrue result ↔ (get self.now.ids at.entry.number ≡ Some at.entry.id.now) }
    {
        match self.id(at.number) {
            Some(id) => id == at.id,
            None => false,
        }
    }

    /// Tells whether the number may have the id.
    fn may_have(&self, id: Option<IdAt<'_>>) -> bool
        ensures { Agree (get self.now.ids) (get self.now.places) (id_at id.entry) → IsTrue result ↔ MayHave self.now.ids self.now.places (id_at id.entry) }
    {
        match id {
            Some(at) => self.is_free(at),
            None => true,
        }
    }

    /// Tells whether no other id is shown at the number, and the id at no other number: an id that
    /// is shown there already is shown nowhere else.
    fn is_free(&self, at: IdAt<'_>) -> bool
        ensures { Agree (get self.now.ids) (get self.now.places) (Some (at.entry.number, at.entry.id.now))
            → IsTrue result ↔ IsFree (get self.now.ids at.entry.number) (get self.now.places at.entry.id.now) (at.entry.number, at.entry.id.now) }
    {
        match self.id(at.number) {
            Some(other) => other == at.id,
            None => self.has_no_other_place(at),
        }
    }

    /// Tells whether the id is shown at no other number.
    fn has_no_other_place(&self, at: IdAt<'_>) -> bool
        ensures { IsTrue result ↔ IfSome (get self.now.places at.entry.id.now) (λ other. at.entry.number ≡ other) }
    {
        match self.place(at.id) {
            Some(other) => other == at.number,
            None => true,
        }
    }

    /// Returns the least number that the group is given, where it isn't shown.
    pub(crate) fn unseen(&self) -> Option<u64>
        ensures { result ≡ unseen_in self.now.numbers }
    {
        self.numbers.unseen()
    }

    /// Returns the greatest number that the group is given, where it is neither shown nor the
    /// least.
    pub(crate) fn unseen_high(&self) -> Option<u64>
        ensures { result ≡ unseen_high_in self.now.numbers }
    {
        self.numbers.unseen_high()
    }

    /// Returns the numbers that are shown, ascending.
    pub(crate) fn shown(&self) -> AscendingNumbers<'_>
        ensures { result ≡ self.now.numbers.shown }
    {
        self.numbers.shown()
    }

    /// Returns the id at the number, if one is shown.
    pub(crate) fn id(&self, number: u64) -> Option<&str>
        ensures { option_copied result ≡ get self.now.ids number }
    {
        Some(self.id_text(number)?.as_str())
    }

    /// Returns the text of the id at the number, if one is shown.
    pub(crate) fn id_text(&self, number: u64) -> Option<&RcStr<A>>
        ensures { option_map (λ id. rc_str_bytes id.now) result ≡ get self.now.ids number }
    {
        self.ids.id(number)
    }

    /// Returns the number of the id, if one is shown.
    pub(crate) fn place(&self, id: &str) -> Option<u64>
        ensures { result ≡ get self.now.places id.now }
    {
        self.ids.place(id)
    }
}
