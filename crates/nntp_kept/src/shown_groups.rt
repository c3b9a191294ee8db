//! The groups that answers show, one after the other.
ghost use Rattle.std.specs.{Prelude.{◌≡◌, option_map, slice_get}, Iterator.{YieldsFirst, item_count}};
ghost use Rattle.nntp_kept.specs.Inner.{Readers.{shown_in, shown_group}, ReadersView.{named, number_value}};

use crate::group::Group;
use crate::shown_numbers::{ShownNumber, ShownNumbers};
use std::alloc::{Allocator, Global};
use std::collections::btree_map;
use std::marker::Model;

/// A group that answers show, with the numbers that it is given.
#[derive(Drop)]
pub struct ShownGroup<'a, A: Allocator = Global> {
    name: &'a [u8],
    group: &'a Group<A>,
}

impl<'a, A: Allocator> Model for ShownGroup<'a, A> {
    ghost use Rattle.nntp_kept.specs.Inner.Readers.{ShownGroup as GroupValue, shown_group};

    ghost Value = { GroupValue };

    ghost view = { λ s. shown_group s.name.now s.group.now };
}

impl<'a, A: Allocator> ShownGroup<'a, A> {
    /// Lends a group of this name.
    pub(crate) fn new(name: &'a [u8], group: &'a Group<A>) -> ShownGroup<'a, A>
        ensures { result ≡ shown_group name.now group.now }
    {
        ShownGroup { name, group }
    }

    /// Returns the octets of the group's name.
    pub fn name(&self) -> &'a [u8]
        ensures { result.now ≡ self.now.name }
    {
        self.name
    }

    /// Returns the numbers that answers show in the group, ascending.
    pub fn numbers(&self) -> ShownNumbers<'a, A>
        ensures { result ≡ self.now.numbers }
    {
        ShownNumbers::new(self.group)
    }

    /// Returns the number at the index, which counts from 0 in the order of
    /// [`numbers`](ShownGroup::numbers), or `None` if there are no more numbers than that.
    pub fn number(&self, index: usize) -> Option<ShownNumber<'a, A>>
        ensures { option_map number_value result ≡ slice_get self.now.numbers index }
    {
        self.numbers().nth(index)
    }

    /// Returns the least number that the group is given, or `None` if that one is shown, or if
    /// there is none. It is the low water mark, where marks are read strictly (RFC 3977,
    /// section 6.1.1.2); and otherwise one more number, where no number that is shown can be the
    /// first one.
    pub fn unseen(&self) -> Option<u64>
        ensures { result ≡ self.now.unseen }
    {
        self.group.unseen()
    }

    /// Returns the greatest number that the group is given, or `None` if that one is shown or is
    /// the least, or if there is none. It is the high water mark, where marks are read strictly
    /// (RFC 3977, section 6.1.1.2).
    pub fn unseen_high(&self) -> Option<u64>
        ensures { result ≡ self.now.unseen_high }
    {
        self.group.unseen_high()
    }
}

/// An iterator over the groups that answers show, in byte order of their names.
#[derive(Drop)]
pub struct ShownGroups<'a, A: Allocator = Global> {
    rest: btree_map::Iter<'a, Vec<u8, A>, Group<A>>,
}

impl<'a, A: Allocator> Model for ShownGroups<'a, A> {
    ghost use Rattle.std.specs.Prelude.{List};
    ghost use Rattle.nntp_kept.specs.Inner.{Readers.{ShownGroup as GroupValue, shown_in}, ReadersView.{named}};

    ghost Value = { List GroupValue };

    ghost view = { λ s. shown_in (named s.rest) };
}

impl<'a, A: Allocator> ShownGroups<'a, A> {
    /// Begins with the first of these groups.
    pub(crate) fn new(rest: btree_map::Iter<'a, Vec<u8, A>, Group<A>>) -> ShownGroups<'a, A>
        ensures { result ≡ shown_in (named rest.entry) }
    {
        ShownGroups { rest }
    }
}

impl<'a, A: Allocator> Iterator for ShownGroups<'a, A> {
    type Item = ShownGroup<'a, A>;

    ghost next_gives = { YieldsFirst (λ groups. groups) };

    ghost remaining = { item_count (λ groups. groups) };

    fn next(&mut self) -> Option<ShownGroup<'a, A>> {
        let (name, group) = self.rest.next()?;
        Some(ShownGroup::new(name.as_slice(), group))
    }
}
