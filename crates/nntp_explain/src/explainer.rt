//! What is kept of sessions that are read on behind bad answers, and what is told of a bad answer.
ghost use Rattle.std.specs.Prelude.{◌≡◌, ◌≢◌, ℕ, ◌+◌, ◌<◌, ◌≤◌, ◌^◌, ◌++◌, List, None, drop, length, nat_lt, OnOk, IfOk};
ghost use Rattle.std.specs.Option.{option_copied};
ghost use Rattle.nntp_wire.specs.Inner.View.{asked};
ghost use Rattle.nntp_article.specs.declared.session.profile.Profile.{Profile};
ghost use Rattle.nntp_pair.specs.Pairing.{Unpaired, IsNext};
ghost use Rattle.nntp_pair.specs.declared.class.PairClass.TheVariants.{Malformed};
ghost use Rattle.nntp_pair.specs.declared.class.Class.TheVariants.{Malformed as MalformedClass, OutOfPlace, Contradiction};
ghost use Rattle.nntp_pair.specs.Classes.{class_of};
ghost use Rattle.nntp_facts.specs.Inner.Noted.{profile_kept};
ghost use Rattle.nntp_printing.specs.BadAnswer.{IsFirstLine};
ghost use Rattle.nntp_explain.specs.Explaining.{front_lines, place_lines, IsEndReason};
ghost use Rattle.nntp_explain.specs.Inner.ExplainingView.{Before, begins, kept_of, keeps, refuses, title_of};
ghost use Rattle.nntp_explain.specs.Inner.ExplainingView.{unfitting_told, unspelled_lines, HasReadNone, HasTold};
ghost use Rattle.nntp_explain.specs.Inner.ExplainingView.{TellsBad};
ghost use Rattle.nntp_wire.specs.Session.{ClientStream};

mod contradictions;

use crate::contradiction::ToldContradiction;
use crate::ending::put_end_reason;
use crate::reasons::{put_misspelling, put_standing};
use crate::unfitting::put_unfitting;
use nntp_facts::{Facts, Noted, Placed, Standing};
use nntp_pair::{Ahead, Class, Exchange, MalformedFrame, PairClass};
use nntp_printing::{first_line, put_bad_answer, put_title, shown, shown_line};
use nntp_wire::{Limit, Marks, Misspelling};
use std::alloc::{AllocError, Allocator};
use std::mem;

/// How many bad answers are told with more than their three lines.
const EXPLAINED: u64 = 100;

/// Reads on behind bad answers: each is passed over, and the next one is judged behind those that were accepted, of
/// earlier sessions and of its own.
#[derive(Drop)]
pub(crate) struct Explainer<'a, A: Allocator> {
    alloc: A,
    /// What the accepted answers say.
    pub(crate) facts: Facts<A>,
    /// The accepted answers of all sessions, each where it stands.
    pub(crate) accepted: Vec<Placed<'a>, A>,
    /// The number of the session that is read, which counts from 1.
    session: u64,
    /// How many of the accepted answers are of earlier sessions.
    others: usize,
    /// The name of the session, until an answer of it is told as bad; none where it has no title.
    title: Option<&'a [u8]>,
    /// Where its accepted answers leave the session.
    standing: Standing<'a>,
    /// The contradictions of the session that were told.
    contradictions: Vec<ToldContradiction<'a, A>, A>,
    /// How many answers of all sessions are bad so far.
    pub(crate) bad: u64,
    /// The report so far.
    pub(crate) text: Vec<u8, A>,
}

impl<'a, A: Allocator + Copy> Explainer<'a, A> {
    /// No session was read yet. It takes no memory.
    pub(crate) fn new(alloc: A, limit: Limit, marks: Marks) -> Explainer<'a, A>
        ensures none { HasReadNone result }
        ensures limit { result.facts.limit ≡ limit }
        ensures marks { result.facts.marks ≡ marks }
    {
        Explainer {
            alloc,
            facts: Facts::new(alloc, limit, marks),
            accepted: Vec::new(alloc),
            session: 0,
            others: 0,
            title: None,
            standing: Standing::nowhere(),
            contradictions: Vec::new(alloc),
            bad: 0,
            text: Vec::new(alloc),
        }
    }

    /// Begins a further session, which has this title.
    pub(crate) fn begin(&mut self, title: Option<&'a [u8]>)
        requires { self.old.session + 1 < 2 ^ 64 }
        ensures kept { kept_of self.new ≡ begins (option_copied title.entry) (kept_of self.old) }
        ensures text { self.new.text.items ≡ self.old.text.items }
    {
        self.facts.begin_session();
        self.session += 1;
        self.others = self.accepted.len();
        self.title = title;
        self.standing = Standing::nowhere();
        self.contradictions.clear();
    }

    /// Accepts the next exchange, if some spool permits it together with those that were accepted, and else tells that
    /// its answer is bad, and why.
    pub(crate) fn note(&mut self, exchange: Exchange<'a>) -> Result<(), AllocError>
        requires told { (b : Before) × (client : ClientStream) × (server : List ℕ) × (left : Unpaired) × (behind : Unpaired)
            × HasTold (profile_kept self.old.facts) b client server self.old left × IsNext left exchange behind }
        ensures { OnOk result ((profile : Profile) (b : Before) (client : ClientStream) (server : List ℕ) (left behind : Unpaired)
            → HasTold profile b client server self.old left → IsNext left exchange.entry behind → HasTold profile b client server self.new behind) }
    {
        let Ok(noted) = self.facts.note(&exchange) else {
            return Err(AllocError);
        };
        match noted {
            Noted::Consistent => self.accept(exchange),
            Noted::OutOfPlace => self.refuse_unfitting(&exchange),
            Noted::Contradiction => self.refuse_contradiction(exchange),
        }
    }

    /// Adds an accepted exchange.
    fn accept(&mut self, exchange: Exchange<'a>) -> Result<(), AllocError>
        ensures kept { OnOk result (kept_of self.new ≡ keeps exchange.entry (kept_of self.old)) }
        ensures text { OnOk result (self.new.text.items ≡ self.old.text.items) }
    {
        let after = self.standing.after(&exchange);
        let standing = mem::replace(&mut self.standing, after);
        self.accepted.push(Placed {
            session: self.session,
            standing,
            exchange,
        })?;
        Ok(())
    }

    /// Tells that the answer of an exchange doesn't fit.
    fn refuse_unfitting(&mut self, exchange: &Exchange<'a>) -> Result<(), AllocError>
        requires few { self.old.bad ≤ length self.old.text.items }
        requires others { self.old.others ≤ length self.old.accepted.items }
        ensures kept { OnOk result (kept_of self.new ≡ refuses (kept_of self.old)) }
        ensures text { OnOk result (TellsBad (kept_of self.old) exchange.now.index OutOfPlace exchange.now.place.line exchange.now.initial
            (λ reason. reason ≡ unfitting_told (kept_of self.old) exchange.now) self.old.text.items self.new.text.items) }
    {
        let line = exchange.line();
        if self.put_bad(
            exchange.index(),
            Class::OutOfPlace,
            line,
            exchange.initial(),
        )? {
            let reason = self.facts.misfit(exchange)?;
            put_unfitting(
                &mut self.text,
                self.session,
                self.accepted.split_at(self.others).1,
                exchange.answer(),
                reason,
            )
        } else {
            Ok(())
        }
    }

    /// Tells that the frame at this place spells nothing.
    pub(crate) fn refuse_malformed(
        &mut self,
        index: u64,
        malformed: &MalformedFrame<'_>,
    ) -> Result<(), AllocError>
        requires { self.old.bad ≤ length self.old.text.items }
        ensures kept { OnOk result (kept_of self.new ≡ refuses (kept_of self.old)) }
        ensures text { OnOk result (TellsBad (kept_of self.old) index MalformedClass malformed.now.place.line malformed.now.frame.initial
            (λ reason. reason ≡ unspelled_lines (asked malformed.now.prompt) malformed.now.frame.initial malformed.now.frame.block)
            self.old.text.items self.new.text.items) }
    {
        let initial = malformed.frame.initial();
        if self.put_bad(index, Class::Malformed, malformed.place.line(), initial)? {
            put_unspelled(&mut self.text, malformed)
        } else {
            Ok(())
        }
    }

    /// Tells that the octets ahead, at this place, answer nothing.
    pub(crate) fn refuse_octets(
        &mut self,
        index: u64,
        class: PairClass,
        ahead: Ahead<'_>,
    ) -> Result<(), AllocError>
        requires few { self.old.bad ≤ length self.old.text.items }
        requires others { self.old.others ≤ length self.old.accepted.items }
        requires passed { class ≢ Malformed }
        ensures kept { OnOk result (kept_of self.new ≡ refuses (kept_of self.old)) }
        ensures text { OnOk result ((line : List ℕ) × IsFirstLine ahead.entry.rest.now line
            × TellsBad (kept_of self.old) index (class_of class) (option_copied ahead.entry.line) line
            (IsEndReason self.old.session class (drop self.old.others self.old.accepted.items) ahead.entry.rest.now) self.old.text.items self.new.text.items) }
    {
        let initial = first_line(ahead.rest);
        if self.put_bad(index, Class::from(class), ahead.line, initial)? {
            put_end_reason(
                &mut self.text,
                self.session,
                class,
                self.accepted.split_at(self.others).1,
                ahead.rest,
            )
        } else {
            Ok(())
        }
    }

    /// Adds the lines of a bad answer, behind the title where it is the first of its session, and where the session
    /// stands, if fewer than a hundred are bad before it: then a reason is to be told too.
    fn put_bad(
        &mut self,
        index: u64,
        class: Class,
        line: Option<&[u8]>,
        initial: &[u8],
    ) -> Result<bool, AllocError>
        requires { self.old.bad ≤ length self.old.text.items }
        ensures told { IfOk result (λ is_told. is_told ≡ nat_lt self.old.bad 100) }
        ensures text { OnOk result (self.new.text.items ≡ (self.old.text.items ++ title_of (kept_of self.old))
            ++ front_lines index class (option_copied line.entry) initial.now ++ place_lines self.old.bad self.old.standing) }
        ensures kept { OnOk result (kept_of self.new ≡ refuses (kept_of self.old)) }
    {
        self.put_title()?;
        put_bad_answer(
            &mut self.text,
            index,
            class,
            shown_line(line),
            shown(initial),
        )?;
        let is_told = self.bad < EXPLAINED;
        self.bad += 1;
        if is_told {
            put_standing(&mut self.text, &self.standing)?;
        }
        Ok(is_told)
    }

    /// Adds the title of the session, if it has one and no answer of it was told as bad.
    fn put_title(&mut self) -> Result<(), AllocError>
        ensures text { OnOk result (self.new.text.items ≡ self.old.text.items ++ title_of (kept_of self.old)) }
        ensures kept { OnOk result (kept_of self.new ≡ record (kept_of self.old) { title = None }) }
    {
        match self.title.take() {
            Some(name) => put_title(&mut self.text, self.session, name),
            None => Ok(()),
        }
    }
}

/// Adds why a frame spells nothing.
fn put_unspelled<A: Allocator + Copy>(
    text: &mut Vec<u8, A>,
    malformed: &MalformedFrame<'_>,
) -> Result<(), AllocError>
    ensures { OnOk result (text.new.items ≡ text.old.items
        ++ unspelled_lines (asked malformed.now.prompt) malformed.now.frame.initial malformed.now.frame.block) }
{
    match Misspelling::of(&malformed.prompt, &malformed.frame) {
        Some(misspelling) => put_misspelling(text, misspelling),
        None => Ok(()),
    }
}
