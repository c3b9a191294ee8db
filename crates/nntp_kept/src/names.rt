//! The names that are no groups, and the wildmats that were answered.
ghost use Rattle.std.specs.{Prelude.{◌≡◌, ◌&&◌, ◌||◌, ◌++◌, ◌∷◌, [], false, List, length, IfSome, OnOk}, List.{list_any}, BTreeMap.{keys}};
ghost use Rattle.nntp_wire.specs.{Decided.{matches_name}, Wildmat.{is_wildmat}, Listing.{ActiveValue}};
ghost use Rattle.nntp_article.specs.Session.{Spool.{Name}, Machine.{is_same}};
ghost use Rattle.nntp_said.specs.Facts.{Fact, GroupsAre};
ghost use Rattle.nntp_theory.specs.{Given.{is_shown_group}, Together.{denies_group}};
ghost use Rattle.nntp_kept.specs.Inner.{Kept.{AreKeptNames}, ListedGroups.{MayList, WereListed}};

use nntp_wire::laws::matching_is_decided;
use nntp_wire::{GroupName, Wildmat};
use std::alloc::{AllocError, Allocator, Global};
use std::collections::{BTreeMap, BTreeSet};
use std::marker::Model;

/// What answers say of names that they don't show as groups.
#[derive(Drop)]
pub(crate) struct Names<A: Allocator = Global> {
    /// The names of which it was said that there is no such group.
    denied: BTreeSet<Vec<u8, A>, A>,
    /// The wildmats for which the matching groups were listed, each with how many these are.
    wildmats: BTreeMap<Vec<u8, A>, usize, A>,
    /// The number of all groups, if LIST ACTIVE listed all of them.
    all_listed: Option<usize>,
}

impl<A: Allocator> Model for Names<A> {
    ghost use Rattle.std.specs.Prelude.{map};
    ghost use Rattle.nntp_article.specs.Inner.ShownMap.{shown_entry};
    ghost use Rattle.nntp_kept.specs.Inner.Kept.{KeptNames};

    ghost Value = { KeptNames };

    ghost view = { λ a. record {
      denied = map (λ name. name.items) a.denied.keys;
      wildmats = map (shown_entry (λ wildmat. wildmat.items) (λ count. count)) a.wildmats.entries;
      all_listed = a.all_listed;
    } };
}

impl<A: Allocator + Copy> Names<A> {
    /// Creates what is kept of a session without answers: no name is denied.
    pub(crate) fn new(alloc: A) -> Names<A>
        ensures { AreKeptNames [] result }
    {
        Names {
            denied: BTreeSet::new(alloc),
            wildmats: BTreeMap::new(alloc),
            all_listed: None,
        }
    }

    /// Adds that there is no such group.
    pub(crate) fn deny(&mut self, alloc: A, name: &[u8]) -> Result<(), AllocError>
        ensures { OnOk result ((facts more : List Fact) → AreKeptNames facts self.old
            → ((other : Name) → list_any (denies_group other) more ≡ is_same name.now other)
            → AreKeptNames (facts ++ more) self.new) }
    {
        self.denied.insert(Vec::from_slice(alloc, name)?)?;
        Ok(())
    }

    /// Adds that all groups that match were listed, or all groups where there is no wildmat, and
    /// how many these are.
    pub(crate) fn list(
        &mut self,
        alloc: A,
        wildmat: &Option<Wildmat<'_>>,
        count: usize,
    ) -> Result<(), AllocError>
        ensures { OnOk result ((facts : List Fact) (lines : List ActiveValue) → AreKeptNames facts self.old → MayList wildmat.now lines → length lines ≡ count
            → AreKeptNames (facts ++ GroupsAre wildmat.now lines ∷ []) self.new) }
    {
        match wildmat {
            Some(wildmat) => {
                self.wildmats
                    .insert(Vec::from_slice(alloc, wildmat.as_slice())?, count)?;
            }
            None => self.all_listed = Some(count),
        }
        Ok(())
    }
}

impl<A: Allocator> Names<A> {
    /// Tells whether a name that isn't shown is that of no group.
    pub(crate) fn denies(&self, name: &GroupName<'_>) -> bool
        ensures { (facts : List Fact) → AreKeptNames facts self.now → is_shown_group facts name.now ≡ false → result ≡ list_any (denies_group name.now) facts }
    {
        is_denied(
            &self.denied,
            self.all_listed.is_some(),
            &self.wildmats,
            name,
        )
    }

    /// Returns how many groups were listed for the wildmat, or without one, if that was answered.
    pub(crate) fn listed(&self, wildmat: &Option<Wildmat<'_>>) -> Option<usize>
        ensures { (facts : List Fact) → AreKeptNames facts self.now → IfSome result (WereListed facts wildmat.now) }
    {
        match wildmat {
            Some(wildmat) => self.wildmats.get(wildmat.as_slice()).copied(),
            None => self.all_listed,
        }
    }
}

/// Tells whether the name is denied: it is one of these names; or all groups were listed, and it
/// isn't shown; or one of the answered wildmats matches it.
fn is_denied<A: Allocator>(
    denied: &BTreeSet<Vec<u8, A>, A>,
    all_listed: bool,
    wildmats: &BTreeMap<Vec<u8, A>, usize, A>,
    name: &GroupName<'_>,
) -> bool
    ensures { result ≡ (list_any (λ other. is_same other.items name.now) denied.now.keys || all_listed
        || list_any (λ wildmat. is_wildmat wildmat.items && matches_name wildmat.items name.now) (keys wildmats.now)) }
{
    is_one_of(denied, name.as_slice()) || all_listed || some_matches(wildmats, name)
}

/// Tells whether the name is one of these names.
fn is_one_of<A: Allocator>(names: &BTreeSet<Vec<u8, A>, A>, name: &[u8]) -> bool
    ensures { result ≡ list_any (λ other. is_same other.items name.now) names.now.keys }
{
    names.contains(name)
}

/// Tells whether one of the wildmats matches the name.
fn some_matches<A: Allocator>(
    wildmats: &BTreeMap<Vec<u8, A>, usize, A>,
    name: &GroupName<'_>,
) -> bool
    ensures { result ≡ list_any (λ wildmat. is_wildmat wildmat.items && matches_name wildmat.items name.now) (keys wildmats.now) }
{
    wildmats
        .keys()
        .any(|wildmat| matches(wildmat.as_slice(), name))
}

/// Tells whether the octets are a wildmat that matches the name.
fn matches(wildmat: &[u8], name: &GroupName<'_>) -> bool
    ensures { result ≡ (is_wildmat wildmat.now && matches_name wildmat.now name.now) }
{
    matching_is_decided();
    match Wildmat::parse(wildmat) {
        Some(wildmat) => wildmat.matches(name),
        None => false,
    }
}
