//! The numbers of a group, behind a box where there are some.
ghost use Rattle.std.specs.Prelude.{◌≡◌, None, false, not, IfOk, IfErr, OnOk, OnErr};
ghost use Rattle.std.specs.FinMap as map;
ghost use Rattle.std.specs.Rc.{rc_str_bytes};
ghost use Rattle.nntp_content.specs.Numbers.{has_id};
ghost use Rattle.nntp_content.specs.Inner.Numbers.{with_number};

use crate::numbers::Numbers;
use std::alloc::{AllocError, Allocator, Global};
use std::boxed::Box;
use std::marker::Model;
use std::rc::RcStr;

/// The numbers of a group as the map of the groups holds them: a group without numbers takes little
/// room there.
#[derive(Drop)]
pub struct BoxedNumbers<A: Allocator = Global> {
    numbers: Option<Box<Numbers<A>, A>>,
}

impl<A: Allocator> Model for BoxedNumbers<A> {
    ghost use Rattle.std.specs.Prelude.{List, ℕ, unwrap_or, option_map, box_value};
    ghost use Rattle.std.specs.Ordering.{nat_cmp};
    ghost use Rattle.std.specs.Coded.{coded_ℕ, coded_list};
    ghost use Rattle.std.specs.FinMap as map;

    ghost Value = { map.FinMap nat_cmp (List ℕ) };

    ghost coded = { map.code coded_ℕ (coded_list coded_ℕ) };

    ghost view = { λ b. unwrap_or (option_map box_value b.numbers) map.empty };
}

impl<A: Allocator + Copy> BoxedNumbers<A> {
    /// Holds these numbers. Where there are none it takes no memory.
    pub(crate) fn of(alloc: A, numbers: Numbers<A>) -> Result<BoxedNumbers<A>, AllocError>
        ensures { IfOk result (λ boxed. boxed ≡ numbers) }
    {
        if numbers.least().is_none() {
            return Ok(BoxedNumbers::none());
        }
        Ok(BoxedNumbers {
            numbers: Some(Box::new(alloc, numbers)?),
        })
    }

    /// Adds a number with its id, as [`Numbers::put`] does.
    pub(crate) fn put(&mut self, alloc: A, number: u64, id: &RcStr<A>) -> Result<bool, AllocError>
        requires { map.get self.old number ≡ None }
        ensures added { IfOk result (λ added. added ≡ not (has_id self.old (rc_str_bytes id.now))) }
        ensures ok { OnOk result (self.new ≡ with_number self.old number (rc_str_bytes id.now)) }
        ensures absent { IfErr result (λ e. has_id self.old (rc_str_bytes id.now) ≡ false) }
        ensures err { OnErr result (self.new ≡ self.old) }
    {
        if let Some(numbers) = &mut self.numbers {
            return numbers.as_mut().put(alloc, number, id);
        }
        let mut numbers = Numbers::new(alloc);
        let added = numbers.put(alloc, number, id)?;
        self.numbers = Some(Box::new(alloc, numbers)?);
        Ok(added)
    }
}

impl<A: Allocator> BoxedNumbers<A> {
    /// Holds no numbers.
    pub fn none() -> BoxedNumbers<A>
        ensures { result ≡ map.empty }
    {
        BoxedNumbers { numbers: None }
    }

    /// Returns the numbers, or those that are lent where there are none.
    pub fn or<'n>(&'n self, none: &'n Numbers<A>) -> &'n Numbers<A>
        requires { none.now ≡ map.empty }
        ensures { result.now ≡ self.now }
    {
        match &self.numbers {
            Some(numbers) => numbers.as_ref(),
            None => none,
        }
    }
}
