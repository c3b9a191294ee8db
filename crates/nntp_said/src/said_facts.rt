//! The facts that an answer says, one after the other.
ghost use Rattle.std.specs.{Prelude.{◌≡◌, ◌↔◌, IsTrue, [], ◌∷◌, drop, option_map, slice_get}, Iterator.{YieldsFirstBy, item_count}};
ghost use Rattle.nntp_said.specs.Inner.{FactView.{fact_of, facts_at}, Places.{Place}};

use crate::fact::Fact;
use std::marker::Model;

/// An iterator over what an answer says of the spool, which is at most three things.
#[derive(Drop)]
pub struct SaidFacts<'s> {
    /// The facts, up to the first place that has none.
    places: [Option<Fact<'s>>; 3],
    /// How many are passed.
    passed: usize,
}

impl<'s> Model for SaidFacts<'s> {
    ghost use Rattle.std.specs.Prelude.{List, drop, ◌≤◌};
    ghost use Rattle.nntp_said.specs.{Facts.{Fact as FactValue}, Inner.FactView.{facts_at}};

    ghost Value = { List FactValue };

    ghost view = { λ s. facts_at (drop s.passed s.places) };

    ghost invariant = { λ s. s.passed ≤ 3 };
}

impl<'s> SaidFacts<'s> {
    /// Says nothing.
    pub(crate) fn none() -> SaidFacts<'s>
        ensures { result ≡ [] }
    {
        SaidFacts {
            places: [None, None, None],
            passed: 0,
        }
    }

    /// Says one thing.
    pub(crate) fn one(fact: Fact<'s>) -> SaidFacts<'s>
        ensures { result ≡ fact_of fact.entry ∷ [] }
    {
        SaidFacts {
            places: [Some(fact), None, None],
            passed: 0,
        }
    }

    /// Says two things.
    pub(crate) fn two(first: Fact<'s>, second: Fact<'s>) -> SaidFacts<'s>
        ensures { result ≡ fact_of first.entry ∷ fact_of second.entry ∷ [] }
    {
        SaidFacts {
            places: [Some(first), Some(second), None],
            passed: 0,
        }
    }

    /// Says three things.
    pub(crate) fn three(first: Fact<'s>, second: Fact<'s>, third: Fact<'s>) -> SaidFacts<'s>
        ensures { result ≡ fact_of first.entry ∷ fact_of second.entry ∷ fact_of third.entry ∷ [] }
    {
        SaidFacts {
            places: [Some(first), Some(second), Some(third)],
            passed: 0,
        }
    }

    /// Returns the first of the facts that are left, where it stands.
    pub fn first(&self) -> Option<&Fact<'s>>
        ensures { option_map (λ fact. fact_of fact.now) result ≡ slice_get self.now 0 }
    {
        self.places.get(self.passed)?.as_ref()
    }

    /// Goes past the first of the facts that are left, if one is.
    pub fn pass_first(&mut self)
        ensures { self.new ≡ drop 1 self.old }
    {
        if let Some(Some(_)) = self.places.get(self.passed) {
            self.passed += 1;
        }
    }

    /// Tells whether one of the facts that are left, overviews aside, gives the message-id at a number.
    pub fn place(&self, id: &str) -> bool
        ensures { IsTrue result ↔ Place id.now self.now }
    {
        one_places(self.places.split_at(self.passed).1, id)
    }
}

/// Tells whether one of the facts, up to the first place that has none and overviews aside, gives the
/// message-id at a number.
fn one_places(places: &[Option<Fact<'_>>], id: &str) -> bool
    ensures { IsTrue result ↔ Place id.now (facts_at places.now) }
{
    for place in places {
        let Some(fact) = place else {
            return false;
        };
        if gives(fact, id) {
            return true;
        }
    }
    false
}

/// Tells whether the fact, which is no list of overviews, gives the message-id at a number.
fn gives(fact: &Fact<'_>, id: &str) -> bool
    ensures { IsTrue result ↔ Place id.now (fact_of fact.now ∷ []) }
{
    match fact {
        Fact::IdAt(_, _, other) => *other == id,
        _ => false,
    }
}

impl<'s> Iterator for SaidFacts<'s> {
    type Item = Fact<'s>;

    ghost next_gives = { YieldsFirstBy fact_of (λ facts. facts) };

    ghost remaining = { item_count (λ facts. facts) };

    fn next(&mut self) -> Option<Fact<'s>> {
        let fact = self.first().copied();
        self.pass_first();
        fact
    }
}
