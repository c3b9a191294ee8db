//! Heads that are made of an id and of what is told of four headers.
ghost use Rattle.std.specs.Prelude.{◌≡◌, ◌++◌, IfOk, option_map};
ghost use Rattle.nntp_article.specs.Article.Fields.{made_head, plain_head};

use crate::article::told_fields::{ToldFields, USUAL_HEAD, USUAL_LINE};
use nntp_wire::{MessageId, OwnedBlock};
use std::alloc::{AllocError, Allocator};

/// Makes a head that says the message-id, and of the four headers those that are told with a word,
/// each on a line of its own, in as much memory as it needs.
///
/// # Errors
///
/// If memory is refused.
pub fn made_head<A: Allocator + Copy>(
    alloc: A,
    id: &MessageId<'_>,
    told: Option<&ToldFields<A>>,
) -> Result<OwnedBlock<A>, AllocError>
    ensures { IfOk result (λ head. head ≡ made_head id.now (option_map (λ told. told.now) told.entry)) }
{
    let mut head = OwnedBlock::with_capacity(alloc, USUAL_HEAD)?;
    push_id(alloc, &mut head, id)?;
    if let Some(told) = told {
        head.extend(&told.lines())?;
    }
    head.as_block().to_owned(alloc)
}

/// Puts the line that says the message-id behind the others.
fn push_id<A: Allocator + Copy>(
    alloc: A,
    head: &mut OwnedBlock<A>,
    id: &MessageId<'_>,
) -> Result<(), AllocError>
    ensures { IfOk result (λ _. head.new ≡ head.old ++ plain_head id.now) }
{
    let mut line = Vec::with_capacity(alloc, USUAL_LINE)?;
    line.extend_from_slice(b"Message-ID: ")?;
    line.extend_from_slice(id.as_slice())?;
    head.push(&line)
}
