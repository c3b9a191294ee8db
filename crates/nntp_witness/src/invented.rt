//! The message-ids that are invented.
ghost use Rattle.std.specs.Prelude.{◌≡◌, ◌-◌, ◌<◌, ◌^◌, List, IfOk};
ghost use Rattle.std.specs.Rc.{rc_str_bytes};
ghost use Rattle.nntp_said.specs.Facts.{Fact};
ghost use Rattle.nntp_theory.specs.Given.{invented, is_mentioned, IsFirstFree};
ghost use Rattle.nntp_witness.specs.Inner.Witness.{HaveArticles};

use itoa::Buffer;
use nntp_facts::Facts;
use std::alloc::{AllocError, Allocator};
use std::rc::RcStr;

/// A message-id that is invented, and its number.
#[derive(Drop)]
pub(crate) struct Invented<A: Allocator> {
    /// The number that the id has in it.
    pub(crate) number: u64,
    /// The id, with the angle brackets.
    pub(crate) id: RcStr<A>,
}

/// Makes the first id that no answer mentions, of those that are invented with numbers from `from`
/// on. Ids with all numbers of 64 bits find no room in memory.
pub(crate) fn invent<A: Allocator + Copy>(
    alloc: A,
    facts: &Facts<A>,
    from: u64,
) -> Result<Invented<A>, AllocError>
    ensures is { IfOk result (λ i. rc_str_bytes i.id ≡ invented i.number) }
    ensures small { IfOk result (λ i. i.number < 2 ^ 64 - 1) }
    ensures first { IfOk result (λ i. (said : List Fact) → HaveArticles facts.now said
        → IsFirstFree (λ k. is_mentioned said (invented k)) from i.number) }
{
    for number in from..u64::MAX {
        let id = made_id(alloc, number)?;
        if !facts.mentions(id.as_str().as_bytes()) {
            return Ok(Invented { number, id });
        }
    }
    Err(AllocError)
}

/// Makes the id that is invented with the number.
fn made_id<A: Allocator + Copy>(alloc: A, number: u64) -> Result<RcStr<A>, AllocError>
    ensures { IfOk result (λ id. rc_str_bytes id ≡ invented number) }
{
    let mut buffer = Buffer::new();
    let mut id = String::from_str(alloc, "<w")?;
    id.push_str(buffer.format(number))?;
    id.push_str("@invented.invalid>")?;
    RcStr::from_str(alloc, id.as_str())
}
