//! The numbers of one group, with the id at each.
ghost use Rattle.std.specs.Prelude.{◌≡◌, ℕ, ◌≤◌, ◌<◌, None, Some, true, false, not, is_some, OnOk, OnErr, IfOk, IfErr};
ghost use Rattle.std.specs.Prelude.{option_copied, MatchOption, vec_len, vec_capacity};
ghost use Rattle.std.specs.FinMap as map;
ghost use Rattle.std.specs.Rc.{rc_str_bytes};
ghost use Rattle.nntp_article.specs.Inner.Spool.{IsFirst};
ghost use Rattle.nntp_article.specs.Session.Spool.{IsNextAbove, IsNextBelow, NoneAbove, NoneBelow, IsNumber};
ghost use Rattle.nntp_content.specs.Ascending.{is_last};
ghost use Rattle.nntp_content.specs.Numbers.{has_id};
ghost use Rattle.nntp_content.specs.Inner.Numbers.{with_number, numbers_shown, AreAscending, AreKnown, AreIdsOf, AreParts};

use std::alloc::{AllocError, Allocator, Global};
use std::collections::BTreeSet;
use std::marker::Model;
use std::rc::RcStr;

/// So many numbers may have their ids gone through, where one is looked up.
const FEW: usize = 8;

/// A number, and the message-id there.
pub type Numbered<A> = (u64, RcStr<A>);

/// The numbers of a group, ascending, and the message-id at each.
#[derive(Drop)]
pub struct Numbers<A: Allocator = Global> {
    /// Each number with its message-id.
    pub(crate) ids: Vec<Numbered<A>, A>,
    /// The ids once more, each the same text, to look one up. It is empty while there are few.
    pub(crate) known: BTreeSet<RcStr<A>, A>,
}

impl<A: Allocator> Model for Numbers<A> {
    ghost use Rattle.std.specs.Prelude.{List, ℕ};
    ghost use Rattle.std.specs.Ordering.{nat_cmp};
    ghost use Rattle.std.specs.Coded.{coded_ℕ, coded_list};
    ghost use Rattle.std.specs.FinMap as map;
    ghost use Rattle.nntp_content.specs.Inner.Numbers.{numbers_shown, AreAscending, AreKnown};

    ghost Value = { map.FinMap nat_cmp (List ℕ) };

    ghost coded = { map.code coded_ℕ (coded_list coded_ℕ) };

    ghost view = { λ a. numbers_shown a.ids.items };

    ghost invariant = { λ a. AreAscending a.ids.items × AreKnown a.known.keys (numbers_shown a.ids.items) };
}

impl<A: Allocator + Copy> Numbers<A> {
    /// Creates the numbers of a group without numbers.
    pub fn new(alloc: A) -> Numbers<A>
        ensures { result ≡ map.empty }
    {
        Numbers {
            ids: Vec::new(alloc),
            known: BTreeSet::new(alloc),
        }
    }

    /// Adds a number above all others with its id, and answers true. Where the id is there already,
    /// it answers false and adds nothing.
    pub fn insert(&mut self, alloc: A, number: u64, id: &str) -> Result<bool, AllocError>
        requires { is_last self.old number ≡ true }
        ensures added { IfOk result (λ added. added ≡ not (has_id self.old id.now)) }
        ensures ok { OnOk result (self.new ≡ with_number self.old number id.now) }
    {
        let id = RcStr::from_str(alloc, id)?;
        self.put(alloc, number, &id)
    }

    /// Adds a number that isn't there with its id, and answers true. Where the id is there already,
    /// it answers false and adds nothing. Memory is refused to ids alone that aren't there. The numbers above it are
    /// moved.
    pub(crate) fn put(&mut self, alloc: A, number: u64, id: &RcStr<A>) -> Result<bool, AllocError>
        requires { map.get self.old number ≡ None }
        ensures added { IfOk result (λ added. added ≡ not (has_id self.old (rc_str_bytes id.now))) }
        ensures ok { OnOk result (self.new ≡ with_number self.old number (rc_str_bytes id.now)) }
        ensures absent { IfErr result (λ e. has_id self.old (rc_str_bytes id.now) ≡ false) }
        ensures err { OnErr result (self.new ≡ self.old) }
    {
        let Ok((held, known)) = handles(&mut self.ids, id) else {
            return if self.has_some_id(id.as_str()) {
                Ok(false)
            } else {
                Err(AllocError)
            };
        };
        if !learn(alloc, &mut self.known, &self.ids, known)? {
            return Ok(false);
        }
        let at = split_before(&self.ids, number).0.len();
        self.ids.insert(at, (number, held))?;
        Ok(true)
    }
}

/// Makes two handles of an id, and room for one number more. The first two take no more than they need.
fn handles<A: Allocator>(
    ids: &mut Vec<Numbered<A>, A>,
    id: &RcStr<A>,
) -> Result<(RcStr<A>, RcStr<A>), AllocError>
    ensures ids { ids.new.items ≡ ids.old.items }
    ensures room { OnOk result (vec_len ids.new < vec_capacity ids.new) }
    ensures same { IfOk result (λ h. (rc_str_bytes h.0 ≡ rc_str_bytes id.now) × (rc_str_bytes h.1 ≡ rc_str_bytes id.now)) }
{
    if ids.is_empty() {
        ids.reserve_exact(2)?;
    } else {
        ids.reserve(1)?;
    }
    Ok((id.clone()?, id.clone()?))
}

/// Adds the id of one number more to those that are known, if there aren't few, and answers true. Where a number has the
/// id already, it answers false and adds nothing.
fn learn<A: Allocator + Copy>(
    alloc: A,
    known: &mut BTreeSet<RcStr<A>, A>,
    ids: &[Numbered<A>],
    id: RcStr<A>,
) -> Result<bool, AllocError>
    requires { AreAscending ids.now × AreKnown known.old.keys (numbers_shown ids.now) }
    ensures added { IfOk result (λ added. added ≡ not (has_id (numbers_shown ids.now) (rc_str_bytes id))) }
    ensures ok { (n : ℕ) → map.get (numbers_shown ids.now) n ≡ None
        → OnOk result (AreKnown known.new.keys (with_number (numbers_shown ids.now) n (rc_str_bytes id))) }
    ensures absent { IfErr result (λ e. has_id (numbers_shown ids.now) (rc_str_bytes id) ≡ false) }
    ensures err { OnErr result (AreKnown known.new.keys (numbers_shown ids.now)) }
{
    if known.is_empty() {
        if is_among(ids, id.as_str()) {
            return Ok(false);
        }
        if ids.len() < FEW {
            return Ok(true);
        }
        *known = ids_of(alloc, ids)?;
    }
    Ok(known.insert(id)?)
}

/// Tells whether one of the numbers has the id.
fn is_among<A: Allocator>(ids: &[Numbered<A>], id: &str) -> bool
    requires { AreAscending ids.now }
    ensures { result ≡ has_id (numbers_shown ids.now) id.now }
{
    ids.iter().any(|numbered| numbered.1.as_str() == id)
}

/// Returns the ids of numbers.
fn ids_of<A: Allocator + Copy>(
    alloc: A,
    ids: &[Numbered<A>],
) -> Result<BTreeSet<RcStr<A>, A>, AllocError>
    requires { AreAscending ids.now }
    ensures { IfOk result (λ known. AreIdsOf known.keys (numbers_shown ids.now)) }
{
    let mut known = BTreeSet::new(alloc);
    for numbered in ids {
        known.insert(numbered.1.clone()?)?;
    }
    Ok(known)
}

/// Parts the numbers that are below this one from the others.
fn split_before<A: Allocator>(ids: &[Numbered<A>], number: u64) -> (&[Numbered<A>], &[Numbered<A>])
    requires { AreAscending ids.now }
    ensures { AreParts ids.now (λ n. n < number) (λ n. number ≤ n) result.0.now result.1.now }
{
    ids.split_at(ids.partition_point(|numbered| numbered.0 < number))
}

/// Parts the numbers up to this one from the others.
fn split_behind<A: Allocator>(ids: &[Numbered<A>], number: u64) -> (&[Numbered<A>], &[Numbered<A>])
    requires { AreAscending ids.now }
    ensures { AreParts ids.now (λ n. n ≤ number) (λ n. number < n) result.0.now result.1.now }
{
    ids.split_at(ids.partition_point(|numbered| numbered.0 <= number))
}

impl<A: Allocator> Numbers<A> {
    /// Returns the numbers, ascending, each with its message-id.
    pub fn as_slice(&self) -> &[Numbered<A>]
        ensures shown { numbers_shown result.now ≡ self.now }
        ensures ascending { AreAscending result.now }
    {
        &self.ids
    }

    /// Returns how many numbers there are.
    pub fn len(&self) -> usize
        ensures { result ≡ map.len self.now }
    {
        self.ids.len()
    }

    /// Returns the id at a number.
    pub fn id(&self, number: u64) -> Option<&str>
        ensures { option_copied result ≡ map.get self.now number }
    {
        let numbered = split_before(&self.ids, number).1.first()?;
        if numbered.0 == number {
            Some(numbered.1.as_str())
        } else {
            None
        }
    }

    /// Tells whether there is the number. One above all others isn't looked for.
    pub fn has_number(&self, number: u64) -> bool
        ensures { result ≡ is_some (map.get self.now number) }
    {
        !self.is_after(number) && self.id(number).is_some()
    }

    /// Returns the least number.
    pub fn least(&self) -> Option<u64>
        ensures { IsFirst self.now result }
    {
        match self.ids.first() {
            Some(numbered) => Some(numbered.0),
            None => None,
        }
    }

    /// Returns the greatest number.
    pub fn greatest(&self) -> Option<u64>
        ensures { MatchOption result ((m : ℕ) → map.get self.now m ≡ None) (λ n. IsNumber self.now n × ((m : ℕ) → IsNumber self.now m → m ≤ n)) }
    {
        match self.ids.last() {
            Some(numbered) => Some(numbered.0),
            None => None,
        }
    }

    /// Returns the least number above this one, and the id there.
    pub fn next_above(&self, number: u64) -> Option<(u64, &str)>
        ensures { MatchOption result (NoneAbove self.now number) (λ next. IsNextAbove self.now number next.0 × (map.get self.now next.0 ≡ Some next.1.now)) }
    {
        match split_behind(&self.ids, number).1.first() {
            Some(numbered) => Some((numbered.0, numbered.1.as_str())),
            None => None,
        }
    }

    /// Returns the greatest number below this one, and the id there.
    pub fn next_below(&self, number: u64) -> Option<(u64, &str)>
        ensures { MatchOption result (NoneBelow self.now number) (λ next. IsNextBelow self.now number next.0 × (map.get self.now next.0 ≡ Some next.1.now)) }
    {
        match split_before(&self.ids, number).0.last() {
            Some(numbered) => Some((numbered.0, numbered.1.as_str())),
            None => None,
        }
    }

    /// Tells whether the number is greater than each one here.
    pub fn is_after(&self, number: u64) -> bool
        ensures { result ≡ is_last self.now number }
    {
        match self.greatest() {
            Some(greatest) => greatest < number,
            None => true,
        }
    }

    /// Tells whether some number has the id.
    pub(crate) fn has_some_id(&self, id: &str) -> bool
        ensures { result ≡ has_id self.now id.now }
    {
        if self.known.is_empty() {
            is_among(&self.ids, id)
        } else {
            self.known.contains(id)
        }
    }
}
