//! What is told of an answer that contradicts those that were accepted.
ghost use Rattle.std.specs.Prelude.{◌≡◌, ◌⊎◌, true, false, ◌≤◌, List, length, map, OnOk, IfOk};
ghost use Rattle.nntp_article.specs.declared.session.profile.Profile.{Profile};
ghost use Rattle.nntp_said.specs.Facts.{Fact};
ghost use Rattle.nntp_theory.specs.Conflict.{told_with, places_of};
ghost use Rattle.nntp_facts.specs.Inner.{Points.{AreHeld}, StatementView.{held_of}};
ghost use Rattle.nntp_pair.specs.declared.class.Class.TheVariants.{Contradiction};
ghost use Rattle.nntp_facts.specs.Inner.Noted.{profile_kept};
ghost use Rattle.nntp_explain.specs.Explaining.{are_looked_for, TellsCore};
ghost use Rattle.nntp_explain.specs.Inner.ExplainingView.{kept_of, placed_here, refuses};
ghost use Rattle.nntp_explain.specs.Inner.ExplainingView.{AreReasons, Contradicts, Fits, GoesOn};
ghost use Rattle.nntp_explain.specs.Inner.ExplainingView.{AddsReason, IsRefused, StandsAlone, TellsBad, TellsConflict};
ghost use Rattle.nntp_explain.specs.Inner.ExplainingView.{TellsContradiction, TellsNext, TellsSome};
ghost use Rattle.nntp_facts.specs.Standing.{stands_of};

use crate::conflict::put_conflict;
use crate::contradiction::{ToldContradiction, reason_of};
use crate::explainer::Explainer;
use nntp_facts::{Conflict, Core, Placed};
use nntp_pair::{Class, Exchange};
use nntp_wire::Marks;
use std::alloc::{AllocError, Allocator};

/// How many answers are looked for at most with which a bad one conflicts.
const CITED: usize = 4;

/// Behind fewer bad answers they are looked for in any case.
const SEARCHED: u64 = 3;

/// Else they are looked for where the number of bad answers times that of accepted ones is below this.
const PRODUCT: u64 = 20_000;

impl<'a, A: Allocator + Copy> Explainer<'a, A> {
    /// Tells that the answer of an exchange contradicts those that were accepted.
    pub(super) fn refuse_contradiction(&mut self, exchange: Exchange<'a>) -> Result<(), AllocError>
        requires few { self.old.bad ≤ length self.old.text.items }
        requires fit { Fits (kept_of self.old) (placed_here (kept_of self.old) exchange) }
        requires conflict { Contradicts (kept_of self.old) (placed_here (kept_of self.old) exchange) }
        requires reasons { AreReasons (profile_kept self.old.facts) (kept_of self.old) self.old.contradictions.items }
        ensures kept { OnOk result (kept_of self.new ≡ record (refuses (kept_of self.old)) { contradictions = self.new.contradictions.items }) }
        ensures reasons { OnOk result (AreReasons (profile_kept self.old.facts) (kept_of self.old) self.new.contradictions.items) }
        ensures adds { OnOk result (AddsReason (placed_here (kept_of self.old) exchange.entry)
            self.old.contradictions.items self.new.contradictions.items) }
        ensures text { OnOk result ((facts : List Fact) → IsRefused (kept_of self.old) facts (placed_here (kept_of self.old) exchange.entry)
            → TellsBad (kept_of self.old) exchange.entry.index Contradiction exchange.entry.place.line exchange.entry.initial
            (TellsNext (kept_of self.old) facts (placed_here (kept_of self.old) exchange.entry)) self.old.text.items self.new.text.items) }
    {
        let line = exchange.line();
        let looked_for = are_looked_for(self.bad, self.accepted.len());
        if !self.put_bad(
            exchange.index(),
            Class::Contradiction,
            line,
            exchange.initial(),
        )? {
            return Ok(());
        }
        let bad = Placed {
            session: self.session,
            standing: self.standing.copy(),
            exchange,
        };
        self.tell_conflict(bad, looked_for)
    }

    /// Tells with which of the accepted answers the bad one conflicts, and about what. It is what was told of the same
    /// answer from the same place, if the session had one.
    fn tell_conflict(&mut self, bad: Placed<'a>, looked_for: bool) -> Result<(), AllocError>
        requires fit { Fits (kept_of self.old) (stands_of bad) }
        requires conflict { Contradicts (kept_of self.old) (stands_of bad) }
        requires reasons { AreReasons (profile_kept self.old.facts) (kept_of self.old) self.old.contradictions.items }
        ensures kept { OnOk result (kept_of self.new ≡ record (kept_of self.old) { contradictions = self.new.contradictions.items }) }
        ensures reasons { OnOk result (AreReasons (profile_kept self.old.facts) (kept_of self.old) self.new.contradictions.items) }
        ensures adds { OnOk result (AddsReason (stands_of bad.entry) self.old.contradictions.items self.new.contradictions.items) }
        ensures text { OnOk result ((facts : List Fact) → IsRefused (kept_of self.old) facts (stands_of bad.entry)
            → GoesOn (TellsContradiction looked_for (kept_of self.old) facts (stands_of bad.entry)) self.old.text.items self.new.text.items) }
    {
        if let Some(reason) = reason_of(&self.contradictions, &bad) {
            return self.text.extend_from_slice(reason);
        }
        let mut reason = Vec::new(self.alloc);
        if self.is_cut_short(&bad, looked_for)? {
            self.put_some(&mut reason, &bad)?;
            return self.text.extend_from_slice(&reason);
        }
        self.put_found(&mut reason, &bad)?;
        self.text.extend_from_slice(&reason)?;
        self.contradictions
            .push(ToldContradiction::new(bad, reason))?;
        Ok(())
    }

    /// Tells whether the accepted answers with which the bad one conflicts aren't looked for, and there are some: it
    /// doesn't conflict with itself.
    fn is_cut_short(&self, bad: &Placed<'a>, looked_for: bool) -> Result<bool, AllocError>
        requires fit { Fits (kept_of self.now) (stands_of bad.now) }
        requires conflict { Contradicts (kept_of self.now) (stands_of bad.now) }
        ensures short { IfOk result (λ short. short ≡ true → (looked_for ≡ false) × StandsAlone (kept_of self.now) (stands_of bad.now)) }
        ensures whole { IfOk result (λ short. short ≡ false → (looked_for ≡ true) ⊎ (StandsAlone (kept_of self.now) (stands_of bad.now) → ⊥)) }
    {
        if looked_for {
            return Ok(false);
        }
        let limit = self.facts.limit();
        let marks = self.facts.marks();
        let core = Core::find(self.alloc, limit, marks, &self.accepted, bad, 0)?;
        Ok(core.rest().is_some())
    }

    /// Adds that the bad answer conflicts with some of the accepted ones, and about what: none of them is looked for.
    fn put_some(&self, text: &mut Vec<u8, A>, bad: &Placed<'a>) -> Result<(), AllocError>
        ensures { OnOk result ((facts : List Fact) → IsRefused (kept_of self.now) facts (stands_of bad.now) → StandsAlone (kept_of self.now) (stands_of bad.now)
            → GoesOn (TellsSome (kept_of self.now) facts (stands_of bad.now)) text.old.items text.new.items) }
    {
        let core = Core::below(self.alloc, self.accepted.len());
        let refusal = self.facts.refusal(bad)?;
        match refusal.point()? {
            Some(point) => put_conflict(
                text,
                self.session,
                self.facts.marks(),
                point,
                bad,
                &self.accepted,
                &core,
            ),
            None => Ok(()),
        }
    }

    /// Finds with which of the accepted answers the bad one conflicts, and adds these, and about what.
    fn put_found(&self, text: &mut Vec<u8, A>, bad: &Placed<'a>) -> Result<(), AllocError>
        requires fit { Fits (kept_of self.now) (stands_of bad.now) }
        requires conflict { Contradicts (kept_of self.now) (stands_of bad.now) }
        ensures { OnOk result (GoesOn (TellsConflict (kept_of self.now) (stands_of bad.now)) text.old.items text.new.items) }
    {
        let limit = self.facts.limit();
        let marks = self.facts.marks();
        let core = Core::find(self.alloc, limit, marks, &self.accepted, bad, CITED)?;
        let conflict = Conflict::of(self.alloc, limit, marks, &self.accepted, bad, &core)?;
        put_point_of(
            text,
            self.session,
            marks,
            &conflict,
            bad,
            &self.accepted,
            &core,
        )
    }
}

/// Tells whether the accepted answers with which a bad one conflicts are looked for, behind so many bad answers and so
/// many accepted ones.
fn are_looked_for(bad: u64, accepted: usize) -> bool
    ensures { result ≡ are_looked_for bad accepted }
{
    bad < SEARCHED || bad.saturating_mul(accepted as u64) < PRODUCT
}

/// Adds what the answers of a core conflict about, and which they are.
fn put_point_of<A: Allocator + Copy>(
    text: &mut Vec<u8, A>,
    here: u64,
    marks: Marks,
    conflict: &Conflict<'_, A>,
    bad: &Placed<'_>,
    answers: &[Placed<'_>],
    core: &Core<A>,
) -> Result<(), AllocError>
    ensures { OnOk result ((profile : Profile) → marks ≡ profile.marks
        → AreHeld profile (told_with profile (stands_of bad.now) (map stands_of answers.now) (places_of core.now)) (held_of conflict.now)
        → GoesOn (TellsCore here profile (stands_of bad.now) answers.now core.now) text.old.items text.new.items) }
{
    match conflict.point()? {
        Some(point) => put_conflict(text, here, marks, point, bad, answers, core),
        None => Ok(()),
    }
}
