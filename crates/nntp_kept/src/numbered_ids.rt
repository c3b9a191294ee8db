//! The message-ids that are shown at numbers of one group.
ghost use Rattle.std.specs.{Prelude.{◌≡◌, IsTrue, OnOk, option_map}, Option.{option_copied}, Ordering.{nat_cmp}, BTreeMap.{get as entry}, Rc.{rc_str_bytes}};
ghost use Rattle.std.specs.FinMap.{get, insert, empty};
ghost use Rattle.nntp_kept.specs.Inner.{IdsHeld.{numbered, ids_in, places_in}, Kept.{ids_with, places_with, id_of, place_of}};

use std::alloc::{AllocError, Allocator, Global};
use std::collections::BTreeMap;
use std::marker::Model;
use std::rc::RcStr;

/// The message-ids that are shown at numbers of one group. Two take no maps, and most groups of a
/// long list have no more.
#[derive(Drop)]
pub(crate) struct NumberedIds<A: Allocator = Global> {
    /// The id that was added last.
    latest: Option<NumberedId<A>>,
    /// The id that was added before that.
    earlier: Option<NumberedId<A>>,
    /// The other ids, each by its number.
    ids: BTreeMap<u64, RcStr<A>, A>,
    /// The numbers of the other ids, each by its id.
    places: BTreeMap<RcStr<A>, u64, A>,
}

/// A message-id that is shown at a number.
#[derive(Drop)]
pub(crate) struct NumberedId<A: Allocator> {
    number: u64,
    id: RcStr<A>,
}

impl<A: Allocator> Model for NumberedIds<A> {
    ghost use Rattle.std.specs.{Prelude.{ℕ, option_map}, Ordering.{nat_cmp}, Cmp.Lexicographic.{slice_cmp}, FinMap.{FinMap}};
    ghost use Rattle.nntp_article.specs.Article.Parts.{Id};
    ghost use Rattle.nntp_kept.specs.Inner.{GroupView.{coded_ids}, IdsHeld.{numbered, ids_in, places_in}, Kept.{ids_with, places_with}};

    ghost Value = { FinMap nat_cmp Id × FinMap (slice_cmp nat_cmp) ℕ };

    ghost coded = { coded_ids };

    ghost view = { λ s. (
      ids_with (ids_with (ids_in s.ids.entries) (option_map numbered s.earlier)) (option_map numbered s.latest),
      places_with (places_with (places_in s.places.entries) (option_map numbered s.earlier)) (option_map numbered s.latest),
    ) };
}

impl<A: Allocator + Copy> NumberedIds<A> {
    /// Creates what holds no id. It takes no memory.
    pub(crate) fn new(alloc: A) -> NumberedIds<A>
        ensures { result ≡ (empty, empty) }
    {
        NumberedIds {
            latest: None,
            earlier: None,
            ids: BTreeMap::new(alloc),
            places: BTreeMap::new(alloc),
        }
    }

    /// Adds that the number has the id. After an error the value says nothing of use.
    pub(crate) fn add(&mut self, number: u64, id: RcStr<A>) -> Result<(), AllocError>
        ensures ids { OnOk result (self.new.0 ≡ insert self.old.0 number (rc_str_bytes id)) }
        ensures places { OnOk result (self.new.1 ≡ insert self.old.1 (rc_str_bytes id) number) }
    {
        add_to_maps(&mut self.ids, &mut self.places, self.earlier.take())?;
        self.earlier = self.latest.replace(NumberedId { number, id });
        Ok(())
    }
}

impl<A: Allocator> NumberedIds<A> {
    /// Tells whether no id is held.
    pub(crate) fn is_empty(&self) -> bool
        ensures { IsTrue result → self.now ≡ (empty, empty) }
    {
        self.latest.is_none()
            && self.earlier.is_none()
            && self.ids.is_empty()
            && self.places.is_empty()
    }

    /// Returns the id at the number, if there is one.
    #[tactic(auto, using(crate::proofs::Keeping::HeldIds::id_beside))]
    pub(crate) fn id(&self, number: u64) -> Option<&RcStr<A>>
        ensures { option_map (λ id. rc_str_bytes id.now) result ≡ get self.now.0 number }
    {
        if let Some(id) = id_at(&self.latest, number) {
            return Some(id);
        }
        if let Some(id) = id_at(&self.earlier, number) {
            return Some(id);
        }
        find(&self.ids, number)
    }

    /// Returns the number of the id, if it has one.
    #[tactic(auto, using(crate::proofs::Keeping::HeldIds::place_beside))]
    pub(crate) fn place(&self, id: &str) -> Option<u64>
        ensures { result ≡ get self.now.1 id.now }
    {
        if let Some(number) = number_of(&self.latest, id) {
            return Some(number);
        }
        if let Some(number) = number_of(&self.earlier, id) {
            return Some(number);
        }
        self.places.get(id).copied()
    }
}

/// Returns the id that is held, if it is at the number.
fn id_at<A: Allocator>(held: &Option<NumberedId<A>>, number: u64) -> Option<&RcStr<A>>
    ensures { option_map (λ id. rc_str_bytes id.now) result ≡ id_of (option_map numbered held.now) number }
{
    match held {
        Some(held) if held.number == number => Some(&held.id),
        _ => None,
    }
}

/// Returns the number that is held, if it has the id.
fn number_of<A: Allocator>(held: &Option<NumberedId<A>>, id: &str) -> Option<u64>
    ensures { result ≡ place_of (option_map numbered held.now) id.now }
{
    match held {
        Some(held) if held.id.as_str() == id => Some(held.number),
        _ => None,
    }
}

/// Adds an id, if there is one, to two maps of ids. After an error they say nothing of use.
fn add_to_maps<A: Allocator + Copy>(
    ids: &mut BTreeMap<u64, RcStr<A>, A>,
    places: &mut BTreeMap<RcStr<A>, u64, A>,
    held: Option<NumberedId<A>>,
) -> Result<(), AllocError>
    ensures ids { OnOk result (ids_in ids.new.entries ≡ ids_with (ids_in ids.old.entries) (option_map numbered held)) }
    ensures places { OnOk result (places_in places.new.entries ≡ places_with (places_in places.old.entries) (option_map numbered held)) }
{
    let Some(held) = held else {
        return Ok(());
    };
    ids.insert(held.number, held.id.clone()?)?;
    places.insert(held.id, held.number)?;
    Ok(())
}

/// Returns what a map has at the number. Sessions ascend, so the greatest number is tried first.
fn find<V, A: Allocator>(map: &BTreeMap<u64, V, A>, n: u64) -> Option<&V>
    ensures { option_copied result ≡ entry nat_cmp map.now n }
{
    match map.last_key_value() {
        Some((last, value)) if *last <= n => { if *last == n { Some(value) } else { None } }
        _ => map.get(&n),
    }
}
