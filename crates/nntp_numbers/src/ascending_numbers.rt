//! Article numbers, one after the other.
ghost use Rattle.std.specs.Iterator.{YieldsFirst, item_count};

use std::collections::btree_set;
use std::marker::Model;

/// An iterator over article numbers, ascending.
#[derive(Drop)]
pub struct AscendingNumbers<'a> {
    /// The least number, if it isn't passed yet.
    pub(crate) low: Option<u64>,
    /// The numbers between the least and the greatest that aren't passed yet.
    pub(crate) between: btree_set::Iter<'a, u64>,
    /// The greatest number, if it isn't the least one or passed yet.
    pub(crate) high: Option<u64>,
}

impl<'a> Model for AscendingNumbers<'a> {
    ghost use Rattle.std.specs.Prelude.{List, ℕ};
    ghost use Rattle.nntp_numbers.specs.Inner.NumberSets.{numbers_left};

    ghost Value = { List ℕ };

    ghost view = { λ s. numbers_left s.low s.between s.high };
}

impl<'a> Iterator for AscendingNumbers<'a> {
    type Item = u64;

    ghost next_gives = { YieldsFirst (λ ns. ns) };

    ghost remaining = { item_count (λ ns. ns) };

    fn next(&mut self) -> Option<u64> {
        if let Some(low) = self.low.take() {
            return Some(low);
        }
        match self.between.next() {
            Some(n) => Some(*n),
            None => self.high.take(),
        }
    }
}
