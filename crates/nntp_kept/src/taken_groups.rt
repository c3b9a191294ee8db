//! The groups that answers show, given away one after the other.
ghost use Rattle.std.specs.{Prelude.{◌≡◌}, Iterator.{YieldsFirst, item_count}};
ghost use Rattle.nntp_kept.specs.Inner.{Readers.{shown_in}, ReadersView.{named}};

use crate::group::Group;
use crate::shown_groups::ShownGroup;
use std::alloc::{Allocator, Global};
use std::collections::btree_map;
use std::marker::Model;

/// A group that answers show, which the facts have given away.
#[derive(Drop)]
pub struct TakenGroup<A: Allocator = Global> {
    name: Vec<u8, A>,
    group: Group<A>,
}

impl<A: Allocator> Model for TakenGroup<A> {
    ghost use Rattle.nntp_kept.specs.Inner.Readers.{ShownGroup as GroupValue, shown_group};

    ghost Value = { GroupValue };

    ghost view = { λ t. shown_group t.name.items t.group };
}

impl<A: Allocator> TakenGroup<A> {
    /// Lends the group, so that it can be read.
    pub fn shown(&self) -> ShownGroup<'_, A>
        ensures { result ≡ self.now }
    {
        ShownGroup::new(self.name.as_slice(), &self.group)
    }
}

/// An iterator that gives away the groups that answers show, in byte order of their names. As it goes
/// on, it gives back the memory that they took among the facts.
#[derive(Drop)]
pub struct TakenGroups<A: Allocator = Global> {
    rest: btree_map::IntoIter<Vec<u8, A>, Group<A>, A>,
}

impl<A: Allocator> Model for TakenGroups<A> {
    ghost use Rattle.std.specs.Prelude.{List};
    ghost use Rattle.nntp_kept.specs.Inner.{Readers.{ShownGroup as GroupValue, shown_in}, ReadersView.{named}};

    ghost Value = { List GroupValue };

    ghost view = { λ s. shown_in (named s.rest) };
}

impl<A: Allocator> TakenGroups<A> {
    /// Begins with the first of these groups.
    pub(crate) fn new(rest: btree_map::IntoIter<Vec<u8, A>, Group<A>, A>) -> TakenGroups<A>
        ensures { result ≡ shown_in (named rest) }
    {
        TakenGroups { rest }
    }
}

impl<A: Allocator> Iterator for TakenGroups<A> {
    type Item = TakenGroup<A>;

    ghost next_gives = { YieldsFirst (λ groups. groups) };

    ghost remaining = { item_count (λ groups. groups) };

    fn next(&mut self) -> Option<TakenGroup<A>> {
        let (name, group) = self.rest.next()?;
        Some(TakenGroup { name, group })
    }
}
