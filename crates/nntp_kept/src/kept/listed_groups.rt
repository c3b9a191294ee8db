//! What an answer to LIST ACTIVE says beside all that was said before (RFC 3977, section 7.6.3).
ghost use Rattle.std.specs.{Prelude.{◌≡◌, ◌↔◌, ◌++◌, ◌∷◌, [], List, length, map, MatchOption, IsTrue, IfOk, OnOk}, List.{AllByRecursion}};
ghost use Rattle.nntp_wire.specs.Inner.View.{active_value};
ghost use Rattle.nntp_said.specs.Facts.{Fact, GroupsAre};
ghost use Rattle.nntp_theory.specs.{Inner.Together.{IsWellFormed, Together, Join}, Given.{is_shown_group}};
ghost use Rattle.nntp_kept.specs.Inner.{Kept.{IsKept, AreAdded, asked_count}, ListedGroups.{MayList, LineJoins, shown_lines}};

use crate::kept::Kept;
use crate::saying::GroupPart;
use nntp_wire::{ActiveLine, Wildmat};
use std::alloc::{AllocError, Allocator};

impl<A: Allocator + Copy> Kept<A> {
    /// Adds the groups that an answer lists, all that match, if they stand together with all before, and
    /// tells whether they do. After an error the value says nothing of use.
    pub(crate) fn note_groups(
        &mut self,
        wildmat: &Option<Wildmat<'_>>,
        groups: &[ActiveLine<'_>],
    ) -> Result<bool, AllocError>
        ensures { IfOk result (λ does. (facts : List Fact) → IsKept facts self.old → Together facts
            → AllByRecursion IsWellFormed (GroupsAre wildmat.now (map active_value groups.now) ∷ [])
            → MayList wildmat.now (map active_value groups.now)
            → AreAdded facts (GroupsAre wildmat.now (map active_value groups.now) ∷ []) self.old self.new does) }
    {
        if !self.may_list_groups(wildmat, groups) {
            return Ok(false);
        }
        self.list_groups(wildmat, groups)?;
        Ok(true)
    }

    /// Tells whether the groups that an answer lists as all that match stand together with all that
    /// was said before. Each of them matches, and none is listed twice, so none that is shown is
    /// missing where as many of them are shown as match.
    #[tactic(auto, using(crate::proofs::Keeping::ListedGroups::listing_joins))]
    fn may_list_groups(&self, wildmat: &Option<Wildmat<'_>>, groups: &[ActiveLine<'_>]) -> bool
        ensures { (facts : List Fact) → IsKept facts self.now → Together facts
            → AllByRecursion IsWellFormed (GroupsAre wildmat.now (map active_value groups.now) ∷ []) → MayList wildmat.now (map active_value groups.now)
            → IsTrue result ↔ Join facts (GroupsAre wildmat.now (map active_value groups.now) ∷ []) }
    {
        match self.count_joining(groups) {
            Some(shown) => shown == self.count_asked(wildmat),
            None => false,
        }
    }

    /// Returns how many groups are shown and match: as many as were listed for the wildmat, if that
    /// was answered.
    #[tactic(auto, using(crate::proofs::Keeping::CountedGroups::were_asked))]
    fn count_asked(&self, wildmat: &Option<Wildmat<'_>>) -> usize
        ensures { (facts : List Fact) → IsKept facts self.now → Together facts → result ≡ asked_count self.now.groups wildmat.now }
    {
        match self.names.listed(wildmat) {
            Some(count) => count,
            None => self.groups.count_asked(wildmat),
        }
    }

    /// Adds that the groups that match are the listed ones. After an error the value says nothing
    /// of use.
    fn list_groups(
        &mut self,
        wildmat: &Option<Wildmat<'_>>,
        groups: &[ActiveLine<'_>],
    ) -> Result<(), AllocError>
        ensures { OnOk result ((facts : List Fact) → IsKept facts self.old → MayList wildmat.now (map active_value groups.now)
            → Join facts (GroupsAre wildmat.now (map active_value groups.now) ∷ [])
            → IsKept (facts ++ GroupsAre wildmat.now (map active_value groups.now) ∷ []) self.new) }
    {
        self.groups.bound_all(groups)?;
        self.names.list(self.alloc, wildmat, groups.len())
    }

    /// Returns how many of the listed groups are shown already, if each may be there, with its numbers
    /// between the marks.
    #[tactic(auto, using(nntp_article::proofs::SessionLemmas::LinesLeft::none_left))]
    fn count_joining(&self, groups: &[ActiveLine<'_>]) -> Option<usize>
        ensures { (facts : List Fact) → IsKept facts self.now → Together facts → MatchOption result
            (AllByRecursion (LineJoins facts) (map active_value groups.now) → ⊥)
            (λ shown. AllByRecursion (LineJoins facts) (map active_value groups.now) × (shown ≡ length (shown_lines facts (map active_value groups.now)))) }
    {
        let mut shown = 0;
        for line in groups {
            let is_shown = self.groups.is_shown(line.name.as_slice());
            if !self.may_bound(line, is_shown) {
                return None;
            }
            shown += usize::from(is_shown);
        }
        Some(shown)
    }

    /// Tells whether a listed group, which is shown already or isn't, may be there, with its numbers
    /// between the marks.
    fn may_bound(&self, line: &ActiveLine<'_>, is_shown: bool) -> bool
        ensures { (facts : List Fact) → IsKept facts self.now → Together facts → is_shown ≡ is_shown_group facts (active_value line.now).name
            → IsTrue result ↔ LineJoins facts (active_value line.now) }
    {
        (is_shown || !self.names.denies(&line.name))
            && self.groups.joins(&GroupPart::of_bounds(line)).at_all()
    }
}
