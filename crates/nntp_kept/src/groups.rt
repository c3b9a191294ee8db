//! What answers say of groups.
ghost use Rattle.std.specs.Prelude.{◌≡◌, ◌↔◌, ◌==◌, false, true, List, ◌++◌, IsTrue, MatchOption, IfOk, OnOk, option_copied, option_map};
ghost use Rattle.std.specs.{Option.{option_map_or}, Rc.{rc_str_bytes}};
ghost use Rattle.nntp_article.specs.Session.{Machine.{is_same}, Spool.{Name}};
ghost use Rattle.nntp_said.specs.Asks.{Ask};
ghost use Rattle.nntp_theory.specs.Inner.Together.{AsksStand};
ghost use Rattle.nntp_numbers.specs.Inner.{Part.{Says}, PartView.{said}, Summary.{IsSummary, AreBounded}};
ghost use Rattle.nntp_kept.specs.Inner.{SayingView.{id_at, of_group}, Kept.{joins_at_all, Told, AreKept, Agree, IsShownAt, MayShow, AreKeptWith}};
ghost use Rattle.nntp_kept.specs.{Inner.{KeptSaying.{IsTextOf, HasSaid}, Readers.{shown_groups}}, declared.joins.Joins.TheVariants.{Again}};
ghost use Rattle.std.specs.FinMap as map;

mod listed;

use crate::details::Details;
use crate::group::Group;
use crate::joins::Joins;
use crate::saying::GroupPart;
use crate::shown_groups::ShownGroups;
use crate::taken_groups::TakenGroups;
use nntp_numbers::Numbers;
use std::alloc::{AllocError, Allocator, Global};
use std::collections::BTreeMap;
use std::marker::Model;
use std::mem;
use std::rc::RcStr;

/// The groups that are shown, by their names, with what is kept of each.
#[derive(Drop)]
pub struct Groups<A: Allocator = Global> {
    alloc: A,
    groups: BTreeMap<Vec<u8, A>, Group<A>, A>,
}

impl<A: Allocator> Model for Groups<A> {
    ghost use Rattle.std.specs.{FinMap.{FinMap}, Ordering.{nat_cmp}, Cmp.Lexicographic.{slice_cmp}};
    ghost use Rattle.nntp_article.specs.Inner.ShownMap.{shown};
    ghost use Rattle.nntp_kept.specs.Inner.{Kept.{KeptGroup}, GroupView.{coded_groups}};

    ghost Value = { FinMap (slice_cmp nat_cmp) KeptGroup };

    ghost coded = { coded_groups };

    ghost view = { λ a. shown (slice_cmp nat_cmp) (λ name. name.items) (λ group. group) a.groups.entries };
}

impl<A: Allocator + Copy> Groups<A> {
    /// Creates what is kept of a session without answers: no group is shown.
    pub(crate) fn new(alloc: A) -> Groups<A>
        ensures { result ≡ map.empty }
    {
        Groups {
            alloc,
            groups: BTreeMap::new(alloc),
        }
    }

    /// Adds what is said of a group, which is shown from now on, with the text of the id that a number has.
    /// After an error the value says nothing of use.
    pub(crate) fn add(
        &mut self,
        part: &GroupPart<'_>,
        text: Option<RcStr<A>>,
    ) -> Result<(), AllocError>
        ensures { OnOk result ((before : Name → Told) (asks : List Ask) → IsTextOf (option_map (λ text. rc_str_bytes text) text) (id_at part.now.id)
            → AreKept before self.old → Says (said part.now.numbers) asks → ((before part.now.name.now).is_shown ≡ false → AreBounded asks)
            → Agree (before part.now.name.now).ids (before part.now.name.now).places (id_at part.now.id)
            → MayShow (before part.now.name.now) (id_at part.now.id)
            → AreKeptWith before part.now.name.now asks (id_at part.now.id) self.new) }
    {
        if let Some(group) = self.groups.get_mut(part.name) {
            return group.add(self.alloc, part, text);
        }
        let mut details = Details::new(self.alloc);
        details.add(part, text)?;
        self.put(part.name, Group::of(self.alloc, details)?)
    }

    /// Adds a group, or puts it in the place of the one of its name.
    fn put(&mut self, name: &[u8], group: Group<A>) -> Result<(), AllocError>
        ensures { OnOk result (self.new ≡ map.insert self.old name.now group) }
    {
        self.groups
            .insert(Vec::from_slice(self.alloc, name)?, group)?;
        Ok(())
    }

    /// Tells how what is said of a group joins all that was said before.
    pub(crate) fn joins(&self, part: &GroupPart<'_>) -> Joins
        ensures at_all { (tells : Name → Told) (asks : List Ask) → AreKept tells self.now → AsksStand (tells part.now.name.now).asks
            → Says (said part.now.numbers) asks
            → ((tells part.now.name.now).is_shown ≡ false → AreBounded asks)
            → Agree (tells part.now.name.now).ids (tells part.now.name.now).places (id_at part.now.id)
            → IsShownAt (tells part.now.name.now) (id_at part.now.id)
            → IsTrue (joins_at_all result) ↔ (AsksStand ((tells part.now.name.now).asks ++ asks) × MayShow (tells part.now.name.now) (id_at part.now.id)) }
        ensures again { result ≡ Again → (tells : Name → Told) (asks : List Ask) → AreKept tells self.now → Says (said part.now.numbers) asks
            → Agree (tells part.now.name.now).ids (tells part.now.name.now).places (id_at part.now.id) → IsShownAt (tells part.now.name.now) (id_at part.now.id)
            → AreKeptWith tells part.now.name.now asks (id_at part.now.id) self.now }
        ensures said { result ≡ Again → MatchOption (map.get self.now part.now.name.now) ⊥ (λ group. HasSaid group (of_group part.now)) }
    {
        match self.get(part.name) {
            Some(group) if group.has_said(self.alloc, part) => Joins::Again,
            Some(group) => Joins::new_if(group.joins(self.alloc, part)),
            None => Joins::new_if(Details::new(self.alloc).joins(part)),
        }
    }

    /// Gives the groups away, in byte order of their names. None is left.
    pub(crate) fn take(&mut self) -> TakenGroups<A>
        ensures { result ≡ shown_groups self.old }
    {
        let groups = mem::replace(&mut self.groups, BTreeMap::new(self.alloc));
        TakenGroups::new(groups.into_iter())
    }

    /// Returns what is said of the numbers of a group: nothing where it isn't shown.
    pub fn numbers(&self, name: &[u8]) -> Result<Numbers<A>, AllocError>
        ensures { IfOk result (λ numbers. (tells : Name → Told) → AreKept tells self.now → IsSummary numbers (tells name.now).asks) }
    {
        match self.get(name) {
            Some(group) => group.numbers(self.alloc),
            None => Ok(Numbers::new(self.alloc)),
        }
    }
}

impl<A: Allocator> Groups<A> {
    /// Returns the id that is shown at the number of the group.
    pub(crate) fn id(&self, name: &[u8], number: u64) -> Option<&str>
        ensures { (tells : Name → Told) → AreKept tells self.now → option_copied result ≡ (tells name.now).ids number }
    {
        self.get(name)?.id(number)
    }

    /// Returns the number at which the id is shown in the group.
    pub(crate) fn place(&self, name: &[u8], id: &str) -> Option<u64>
        ensures { (tells : Name → Told) → AreKept tells self.now → result ≡ (tells name.now).places id.now }
    {
        self.get(name)?.place(id)
    }

    /// Tells whether no other id is shown at the number of the group.
    pub fn may_have(&self, name: &[u8], number: u64, id: &str) -> bool
        ensures { (tells : Name → Told) → AreKept tells self.now
            → result ≡ option_map_or (λ other. is_same other id.now) ((tells name.now).ids number) true }
    {
        match self.id(name, number) {
            Some(other) => other == id,
            None => true,
        }
    }

    /// Tells whether the id is shown at no other number of the group.
    pub fn may_stand_at(&self, name: &[u8], number: u64, id: &str) -> bool
        ensures { (tells : Name → Told) → AreKept tells self.now
            → result ≡ option_map_or (λ other. other == number) ((tells name.now).places id.now) true }
    {
        match self.place(name, id) {
            Some(other) => other == number,
            None => true,
        }
    }

    /// Tells whether the group is shown.
    pub fn is_shown(&self, name: &[u8]) -> bool
        ensures { (tells : Name → Told) → AreKept tells self.now → result ≡ (tells name.now).is_shown }
    {
        self.get(name).is_some()
    }

    /// Returns what is kept of a group, if it is shown.
    fn get(&self, name: &[u8]) -> Option<&Group<A>>
        ensures { option_copied result ≡ map.get self.now name.now }
    {
        self.groups.get(name)
    }

    /// Returns the groups, in byte order of their names.
    pub fn shown(&self) -> ShownGroups<'_, A>
        ensures { result ≡ shown_groups self.now }
    {
        ShownGroups::new(self.groups.iter())
    }
}
