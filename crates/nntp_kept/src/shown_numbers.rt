//! The numbers that answers show in a group, one after the other.
ghost use Rattle.std.specs.{Prelude.{◌≡◌}, Iterator.{YieldsFirstBy, item_count}};
ghost use Rattle.nntp_kept.specs.Inner.{Readers.{with_ids}, ReadersView.{number_value}};

use crate::group::Group;
use nntp_numbers::AscendingNumbers;
use std::alloc::{Allocator, Global};
use std::marker::Model;
use std::rc::RcStr;

/// A number that answers show in a group.
#[derive(Drop)]
pub struct ShownNumber<'a, A: Allocator = Global> {
    /// The article number.
    pub number: u64,
    /// The message-id at the number, with the angle brackets, or `None` if no answer shows it.
    pub id: Option<&'a RcStr<A>>,
}

/// An iterator over the numbers that answers show in a group, ascending.
#[derive(Drop)]
pub struct ShownNumbers<'a, A: Allocator = Global> {
    rest: Option<AscendingNumbers<'a>>,
    group: &'a Group<A>,
}

impl<'a, A: Allocator> Model for ShownNumbers<'a, A> {
    ghost use Rattle.std.specs.Prelude.{List, [], ℕ, Option, unwrap_or};
    ghost use Rattle.nntp_article.specs.Article.Parts.{Id};
    ghost use Rattle.nntp_kept.specs.Inner.Readers.{with_ids};

    ghost Value = { List (ℕ × Option Id) };

    ghost view = { λ s. with_ids s.group.now (unwrap_or s.rest []) };
}

impl<'a, A: Allocator> ShownNumbers<'a, A> {
    /// Begins with the first of all numbers that are shown in the group.
    pub(crate) fn new(group: &'a Group<A>) -> ShownNumbers<'a, A>
        ensures { result ≡ with_ids group.now group.now.numbers.shown }
    {
        ShownNumbers {
            rest: group.shown(),
            group,
        }
    }
}

impl<'a, A: Allocator> Iterator for ShownNumbers<'a, A> {
    type Item = ShownNumber<'a, A>;

    ghost next_gives = { YieldsFirstBy number_value (λ numbers. numbers) };

    ghost remaining = { item_count (λ numbers. numbers) };

    fn next(&mut self) -> Option<ShownNumber<'a, A>> {
        let number = self.rest.as_mut()?.next()?;
        Some(ShownNumber {
            number,
            id: self.group.id_text(number),
        })
    }
}
