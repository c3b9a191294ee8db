//! The group of a spool that was looked up last: the next answer mostly speaks of it too.
ghost use Rattle.std.specs.Prelude.{◌≡◌, ◌↔◌, true, Some, IsTrue, is_some, option_map, IfSome};
ghost use Rattle.std.specs.FinMap as map;
ghost use Rattle.nntp_article.specs.Session.Spool.{numbers as numbers_of};
ghost use Rattle.nntp_said.specs.Asks.{Meets};
ghost use Rattle.nntp_said.specs.Inner.FactView.{ask_of};
ghost use Rattle.nntp_spool.specs.Inner.Sessions.{AsksThese};

use crate::verification::lookups::meet;
use nntp_said::Ask;
use nntp_store::{Content, Numbers};
use std::alloc::Allocator;
use std::marker::Model;

/// A group: its name and its numbers.
type Group<'s, S> = (&'s str, &'s Numbers<S>);

/// A number and the id there.
type Entry<'s> = (u64, &'s str);

/// A spool, and of its groups the one that was looked up last.
#[derive(Drop)]
pub(crate) struct LastGroup<'s, S: Allocator> {
    spool: &'s Content<S>,
    group: Option<Group<'s, S>>,
    /// That to which a step in the group led last.
    entry: Option<Entry<'s>>,
}

impl<'s, S: Allocator> Model for LastGroup<'s, S> {
    ghost use Rattle.std.specs.Prelude.{◌≡◌, Some, IfSome};
    ghost use Rattle.std.specs.FinMap as map;
    ghost use Rattle.nntp_article.specs.Session.Spool.{Spool as SpoolValue};
    ghost use Rattle.nntp_content.specs.Inner.Codes.{coded_spool};

    ghost Value = { SpoolValue };

    ghost coded = { coded_spool };

    ghost view = { λ s. s.spool.now };

    ghost invariant = { λ s. IfSome s.group (λ g. (map.get s.spool.now.groups g.0.now ≡ Some g.1.now)
        × IfSome s.entry (λ e. map.get g.1.now e.0 ≡ Some e.1.now)) };
}

impl<'s, S: Allocator> LastGroup<'s, S> {
    /// Begins the lookups in a spool.
    pub(crate) fn new(spool: &'s Content<S>) -> LastGroup<'s, S>
        ensures { result ≡ spool.now }
    {
        LastGroup {
            spool,
            group: None,
            entry: None,
        }
    }

    /// Returns the spool.
    pub(crate) fn spool(&self) -> &'s Content<S>
        ensures { result.now ≡ self.now }
    {
        self.spool
    }

    /// Tells whether the word names a group.
    pub(crate) fn is_group(&mut self, word: &[u8]) -> bool
        ensures is { result ≡ is_some (map.get self.old.groups word.now) }
        ensures spool { self.new ≡ self.old }
    {
        turn_to(&mut self.group, &mut self.entry, self.spool, word);
        self.group.is_some()
    }

    /// Tells whether the numbers of the group that the word names meet what is asked; `listed` are the
    /// numbers that the answer lists. Where the word names no group there are no numbers.
    pub(crate) fn meets(&mut self, word: &[u8], ask: &Ask<'_>, listed: &[u64]) -> bool
        requires { AsksThese listed.now (ask_of ask.now) }
        ensures meets { IsTrue result ↔ Meets (numbers_of self.old word.now) (ask_of ask.now) }
        ensures spool { self.new ≡ self.old }
    {
        turn_to(&mut self.group, &mut self.entry, self.spool, word);
        match self.group {
            Some((_, numbers)) => meet(numbers, ask, listed, &mut self.entry),
            None => meet(self.spool.no_numbers(), ask, listed, &mut None),
        }
    }

    /// Tells whether the number has this id in the group that the word names. Where a step led to the
    /// number last, the id isn't looked for.
    pub(crate) fn has_id(&mut self, word: &[u8], number: u64, id: &str) -> bool
        ensures has { IsTrue result ↔ (map.get (numbers_of self.old word.now) number ≡ Some id.now) }
        ensures spool { self.new ≡ self.old }
    {
        turn_to(&mut self.group, &mut self.entry, self.spool, word);
        let Some((_, numbers)) = self.group else {
            return false;
        };
        match self.entry {
            Some((at, there)) if at == number => there == id,
            _ => numbers.id(number) == Some(id),
        }
    }
}

/// Makes the group that is held the one that the word names, if there is one. It is looked for only where another is
/// held.
fn turn_to<'s, S: Allocator>(
    group: &mut Option<Group<'s, S>>,
    entry: &mut Option<Entry<'s>>,
    spool: &'s Content<S>,
    word: &[u8],
)
    requires held { IfSome group.old (λ g. (map.get spool.now.groups g.0.now ≡ Some g.1.now)
        × IfSome entry.old (λ e. map.get g.1.now e.0 ≡ Some e.1.now)) }
    ensures held { IfSome group.new (λ g. (map.get spool.now.groups g.0.now ≡ Some g.1.now)
        × IfSome entry.new (λ e. map.get g.1.now e.0 ≡ Some e.1.now)) }
    ensures numbers { option_map (λ g. g.1.now) group.new ≡ map.get spool.now.groups word.now }
{
    if let Some((name, _)) = group {
        if name.as_bytes() == word {
            return;
        }
    }
    *group = spool.kept_group(word);
    *entry = None;
}
