//! What is kept of one group, in as little memory as it needs.
ghost use Rattle.std.specs.{Prelude.{◌≡◌, ◌↔◌, List, [], ◌++◌, IsTrue, IfOk, OnOk, MatchOption, option_map}, Option.{option_copied}, Rc.{rc_str_bytes}};
ghost use Rattle.std.specs.FinMap.{get};
ghost use Rattle.nntp_said.specs.Asks.{Ask};
ghost use Rattle.nntp_theory.specs.Inner.Together.{AsksStand};
ghost use Rattle.nntp_numbers.specs.Inner.{Part.{Says}, PartView.{said}, Summary.{IsSummary, AreBounded}, Unseen.{unseen_in, unseen_high_in}};
ghost use Rattle.nntp_kept.specs.Inner.{SayingView.{id_at, of_group}, Kept.{Agree, MayHave, ids_with, places_with}, Between.{IsBetween}, KeptSaying.{HasSaid}};
ghost use Rattle.nntp_kept.specs.Inner.KeptSaying.{IsTextOf};

use crate::details::Details;
use crate::saying::GroupPart;
use nntp_numbers::{AscendingNumbers, Numbers};
use std::alloc::{AllocError, Allocator, Global};
use std::boxed::Box;
use std::marker::Model;
use std::rc::RcStr;

/// What is kept of one group.
#[derive(Drop)]
pub(crate) struct Group<A: Allocator = Global> {
    held: Held<A>,
}

/// What is kept of a group, by how much is said of it.
#[derive(Drop)]
pub(crate) enum Held<A: Allocator> {
    /// It is said alone that no number is below the first of these marks or above the second.
    Between(u64, u64),
    /// More is said.
    Whole(Box<Details<A>, A>),
}

impl<A: Allocator> Model for Group<A> {
    ghost use Rattle.nntp_kept.specs.Inner.{Kept.{KeptGroup}, GroupView.{coded_group}, GroupHeld.{group_held}};

    ghost Value = { KeptGroup };

    ghost coded = { coded_group };

    ghost view = { λ g. group_held g.held };
}

impl<A: Allocator + Copy> Group<A> {
    /// Holds these details. Where they are two marks alone it takes no memory.
    pub(crate) fn of(alloc: A, details: Details<A>) -> Result<Group<A>, AllocError>
        ensures { IfOk result (λ group. group ≡ details) }
    {
        let held = match details.marks() {
            Some((low, high)) => Held::Between(low, high),
            None => Held::Whole(Box::new(alloc, details)?),
        };
        Ok(Group { held })
    }

    /// Adds what is said of the group, with the text of the id that a number has. After an error the
    /// value says nothing of use.
    pub(crate) fn add(
        &mut self,
        alloc: A,
        part: &GroupPart<'_>,
        text: Option<RcStr<A>>,
    ) -> Result<(), AllocError>
        ensures numbers { OnOk result ((asks more : List Ask) → IsSummary self.old.numbers asks → Says (said part.now.numbers) more
            → IsSummary self.new.numbers (asks ++ more)) }
        ensures ids { OnOk result (IsTextOf (option_map (λ text. rc_str_bytes text) text) (id_at part.now.id)
            → Agree (get self.old.ids) (get self.old.places) (id_at part.now.id) → MayHave self.old.ids self.old.places (id_at part.now.id)
            → (self.new.ids ≡ ids_with self.old.ids (id_at part.now.id)) × (self.new.places ≡ places_with self.old.places (id_at part.now.id))) }
    {
        let (low, high) = match &mut self.held {
            Held::Whole(details) => return details.as_mut().add(part, text),
            Held::Between(low, high) => (*low, *high),
        };
        let mut details = Details::between(alloc, low, high);
        details.add(part, text)?;
        *self = Group::of(alloc, details)?;
        Ok(())
    }

    /// Returns what is said of the numbers of the group.
    pub(crate) fn numbers(&self, alloc: A) -> Result<Numbers<A>, AllocError>
        ensures { IfOk result (λ numbers. numbers ≡ self.now.numbers) }
    {
        match &self.held {
            Held::Whole(details) => details.numbers(),
            Held::Between(low, high) => Ok(Numbers::between(alloc, *low, *high)),
        }
    }

    /// Tells whether what is said of the group stands together with all that was said before: what
    /// is said of its numbers, and that the number has the id, which is shown at no other number,
    /// and no other id there.
    pub(crate) fn joins(&self, alloc: A, part: &GroupPart<'_>) -> bool
        ensures { (asks more : List Ask) → IsSummary self.now.numbers asks → AsksStand asks → AreBounded (asks ++ more) → Says (said part.now.numbers) more
            → Agree (get self.now.ids) (get self.now.places) (id_at part.now.id) → IsTrue result
            ↔ (AsksStand (asks ++ more) × MayHave self.now.ids self.now.places (id_at part.now.id)) }
    {
        match &self.held {
            Held::Whole(details) => details.joins(part),
            Held::Between(low, high) => Details::between(alloc, *low, *high).joins(part),
        }
    }

    /// Tells whether all that is said was said before: of no id, or only that a number is there,
    /// with the id that is shown there already.
    pub(crate) fn has_said(&self, alloc: A, part: &GroupPart<'_>) -> bool
        ensures { IsTrue result ↔ HasSaid self.now (of_group part.now) }
    {
        match &self.held {
            Held::Whole(details) => details.has_said(part),
            Held::Between(low, high) => Details::between(alloc, *low, *high).has_said(part),
        }
    }
}

impl<A: Allocator> Group<A> {
    /// Returns the details, if more is said than marks.
    fn details(&self) -> Option<&Details<A>>
        ensures { MatchOption result (IsBetween self.now) (λ details. details.now ≡ self.now) }
    {
        match &self.held {
            Held::Whole(details) => Some(details.as_ref()),
            Held::Between(_, _) => None,
        }
    }

    /// Returns the least number that the group is given, where it isn't shown.
    pub(crate) fn unseen(&self) -> Option<u64>
        ensures { result ≡ unseen_in self.now.numbers }
    {
        self.details()?.unseen()
    }

    /// Returns the greatest number that the group is given, where it is neither shown nor the
    /// least.
    pub(crate) fn unseen_high(&self) -> Option<u64>
        ensures { result ≡ unseen_high_in self.now.numbers }
    {
        self.details()?.unseen_high()
    }

    /// Returns the numbers that are shown, ascending, if there may be some.
    pub(crate) fn shown(&self) -> Option<AscendingNumbers<'_>>
        ensures { MatchOption result (self.now.numbers.shown ≡ []) (λ shown. shown ≡ self.now.numbers.shown) }
    {
        Some(self.details()?.shown())
    }

    /// Returns the id at the number, if one is shown.
    #[tactic(auto, using(crate::proofs::Keeping::MarksAlone::none_identified))]
    pub(crate) fn id(&self, number: u64) -> Option<&str>
        ensures { option_copied result ≡ get self.now.ids number }
    {
        self.details()?.id(number)
    }

    /// Returns the text of the id at the number, if one is shown.
    #[tactic(auto, using(crate::proofs::Keeping::MarksAlone::none_identified))]
    pub(crate) fn id_text(&self, number: u64) -> Option<&RcStr<A>>
        ensures { option_map (λ id. rc_str_bytes id.now) result ≡ get self.now.ids number }
    {
        self.details()?.id_text(number)
    }

    /// Returns the number of the id, if one is shown.
    #[tactic(auto, using(crate::proofs::Keeping::MarksAlone::none_placed))]
    pub(crate) fn place(&self, id: &str) -> Option<u64>
        ensures { result ≡ get self.now.places id.now }
    {
        self.details()?.place(id)
    }
}
