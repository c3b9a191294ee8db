//! The groups that LIST ACTIVE lists, beside those that are kept (RFC 3977, section 7.6.3).
ghost use Rattle.std.specs.Prelude.{◌≡◌, ℕ, ◌++◌, ◌∷◌, ◌&&◌, not, [], false, true, List, map, Option, IsTrue, IfOk, OnOk, MatchOption};
ghost use Rattle.std.specs.{Option.{option_map_or}, List.{list_any}, BTreeMap.{keys}};
ghost use Rattle.nntp_wire.specs.{Decided.{matches_name}, Listing.{active_groups}, Inner.View.{active_value}, Name.{IsGroupName}};
ghost use Rattle.nntp_article.specs.Session.{Spool.{Name}, Machine.{is_same}};
ghost use Rattle.nntp_said.specs.Facts.{Fact, GroupsAre};
ghost use Rattle.nntp_theory.specs.{Inner.Together.{Together}, Together.{denies_group}, Given.{is_shown_group}};
ghost use Rattle.nntp_kept.specs.Inner.{Kept.{AreKeptGroups, asked_count}, ListedGroups.{is_listed, NoneIsMissing}};

use crate::group::Group;
use crate::groups::Groups;
use crate::saying::GroupPart;
use nntp_wire::{ActiveLine, Block, GroupName, Wildmat, is_asked, matches_if_given};
use std::alloc::{AllocError, Allocator};
use std::collections::{BTreeMap, BTreeSet};

impl<A: Allocator> Groups<A> {
    /// Returns how many of the groups match.
    pub(crate) fn count_asked(&self, wildmat: &Option<Wildmat<'_>>) -> usize
        ensures { result ≡ asked_count self.now wildmat.now }
    {
        self.groups
            .iter()
            .filter(|(name, _)| is_asked(wildmat, name.as_slice()))
            .count()
    }
}

impl<A: Allocator + Copy> Groups<A> {
    /// Adds that the listed groups are there, with their numbers between the marks. After an error the
    /// value says nothing of use.
    pub(crate) fn bound_all(&mut self, groups: &[ActiveLine<'_>]) -> Result<(), AllocError>
        ensures { OnOk result ((facts : List Fact) (wildmat : Option (List ℕ)) → AreKeptGroups facts self.old
            → AreKeptGroups (facts ++ GroupsAre wildmat (map active_value groups.now) ∷ []) self.new) }
    {
        for group in groups {
            self.add(&GroupPart::of_bounds(group), None)?;
        }
        Ok(())
    }

    /// Returns the first group that is shown and matches, and isn't listed.
    pub fn unlisted<'s>(
        &'s self,
        wildmat: &Option<Wildmat<'_>>,
        block: &Block<'_>,
    ) -> Result<Option<GroupName<'s>>, AllocError>
        ensures { IfOk result (λ name. (facts : List Fact) → AreKeptGroups facts self.now → Together facts
            → MatchOption name (NoneIsMissing facts wildmat.now (active_groups block.now))
            (λ name. IsTrue (is_shown_group facts name) × IsTrue (denies_group name (GroupsAre wildmat.now (active_groups block.now))))) }
    {
        let listed = names_of(self.alloc, block)?;
        Ok(first_unlisted(&self.groups, &listed, wildmat))
    }
}

/// Returns the first of the groups that matches, and isn't listed.
fn first_unlisted<'s, A: Allocator>(
    groups: &'s BTreeMap<Vec<u8, A>, Group<A>, A>,
    listed: &BTreeSet<&[u8], A>,
    wildmat: &Option<Wildmat<'_>>,
) -> Option<GroupName<'s>>
    ensures { MatchOption result ((name : Name) → IsTrue (list_any (λ k. is_same k.items name) (keys groups.now)) → IsGroupName name
        → (option_map_or (λ w. matches_name w name) wildmat.now true && not (list_any (λ k. is_same k.now name) listed.now.keys)) ≡ false)
        (λ name. IsTrue (list_any (λ k. is_same k.items name) (keys groups.now))
        × IsTrue (option_map_or (λ w. matches_name w name) wildmat.now true && not (list_any (λ k. is_same k.now name) listed.now.keys))) }
{
    let mut names = groups.keys();
    while let Some(name) = names.next() {
        if let Some(group) = group_unlisted(listed, wildmat, name.as_slice()) {
            return Some(group);
        }
    }
    None
}

/// Returns the group of this name, if it matches, and isn't listed.
fn group_unlisted<'s, A: Allocator>(
    listed: &BTreeSet<&[u8], A>,
    wildmat: &Option<Wildmat<'_>>,
    name: &'s [u8],
) -> Option<GroupName<'s>>
    ensures { MatchOption result (IsGroupName name.now
        → (option_map_or (λ w. matches_name w name.now) wildmat.now true && not (list_any (λ k. is_same k.now name.now) listed.now.keys)) ≡ false)
        (λ group. (name.now ≡ group) × IsTrue (option_map_or (λ w. matches_name w group) wildmat.now true && not
        (list_any (λ k. is_same k.now group) listed.now.keys))) }
{
    let group = GroupName::parse(name)?;
    if is_unlisted(listed, wildmat, &group) {
        Some(group)
    } else {
        None
    }
}

/// Collects the names of the groups that the lines list.
fn names_of<'a, A: Allocator + Copy>(
    alloc: A,
    block: &Block<'a>,
) -> Result<BTreeSet<&'a [u8], A>, AllocError>
    ensures { IfOk result (λ names. (name : Name) → list_any (λ k. is_same k.now name) names.keys ≡ is_listed (active_groups block.now) name) }
{
    let mut names = BTreeSet::new(alloc);
    for group in block.groups() {
        names.insert(group.name.as_slice())?;
    }
    Ok(names)
}

/// Tells whether the group matches, and isn't listed.
fn is_unlisted<A: Allocator>(
    listed: &BTreeSet<&[u8], A>,
    wildmat: &Option<Wildmat<'_>>,
    group: &GroupName<'_>,
) -> bool
    ensures { result ≡ (option_map_or (λ w. matches_name w group.now) wildmat.now true && not (list_any (λ k. is_same k.now group.now) listed.now.keys)) }
{
    matches_if_given(wildmat, group) && !is_one_of(listed, group.as_slice())
}

/// Tells whether the name is one of these names.
fn is_one_of<A: Allocator>(names: &BTreeSet<&[u8], A>, name: &[u8]) -> bool
    ensures { result ≡ list_any (λ k. is_same k.now name.now) names.now.keys }
{
    names.contains(name)
}
