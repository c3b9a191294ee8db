//! The parts of the articles of the given spool, of which less may be shown than they have.
ghost use Rattle.std.specs.Prelude.{◌≡◌, [], IfOk, option_map, unwrap_or};
ghost use Rattle.std.specs.Rc.{rc_str_bytes};
ghost use Rattle.nntp_wire.specs.Name.{IsMessageId};
ghost use Rattle.nntp_article.specs.Article.Fields.{made_head};
ghost use Rattle.nntp_witness.specs.Inner.Making.{Makes};

use nntp_article::{ToldFields, made_head};
use nntp_facts::ShownArticle;
use nntp_store::SpoolFault;
use nntp_wire::{MessageId, OwnedBlock};
use std::alloc::{AllocError, Allocator};
use std::rc::{Rc, RcStr};

/// Returns the head as it was sent, or one that says the message-id, and of four headers what overviews tell.
pub(crate) fn given_head<A: Allocator + Copy>(
    alloc: A,
    shown: &ShownArticle<'_, A>,
) -> Result<Rc<OwnedBlock<A>, A>, SpoolFault>
    ensures { IsMessageId shown.now.id → Makes result (λ head. head.value ≡ unwrap_or shown.now.head (made_head shown.now.id shown.now.fields)) }
{
    match shown.head() {
        Some(head) => shared(head),
        None => head_of(alloc, shown.id(), shown.told()),
    }
}

/// Returns the body as it was sent, or the one of no lines, which is at hand.
pub(crate) fn given_body<'b, A: Allocator>(
    shown: &'b ShownArticle<'_, A>,
    no_lines: &'b Rc<OwnedBlock<A>, A>,
) -> &'b Rc<OwnedBlock<A>, A>
    requires { no_lines.now.value ≡ [] }
    ensures { result.now.value ≡ unwrap_or shown.now.body [] }
{
    match shown.body() {
        Some(body) => body,
        None => no_lines,
    }
}

/// Returns one more handle of a block.
fn shared<A: Allocator>(block: &Rc<OwnedBlock<A>, A>) -> Result<Rc<OwnedBlock<A>, A>, SpoolFault>
    ensures { Makes result (λ handle. handle.value ≡ block.now.value) }
{
    match block.clone() {
        Ok(handle) => Ok(handle),
        Err(_) => Err(SpoolFault::Memory),
    }
}

/// Makes a block of no lines.
pub(crate) fn no_lines<A: Allocator + Copy>(alloc: A) -> Result<Rc<OwnedBlock<A>, A>, SpoolFault>
    ensures { Makes result (λ block. block.value ≡ []) }
{
    match Rc::new(alloc, OwnedBlock::new(alloc)) {
        Ok(block) => Ok(block),
        Err(_) => Err(SpoolFault::Memory),
    }
}

/// Makes a head that says the message-id, and of four headers what is told.
pub(crate) fn head_of<'a, A: Allocator + Copy>(
    alloc: A,
    id: &'a RcStr<A>,
    told: Option<&'a ToldFields<A>>,
) -> Result<Rc<OwnedBlock<A>, A>, SpoolFault>
    ensures { IsMessageId (rc_str_bytes id.now)
        → Makes result (λ head. head.value ≡ made_head (rc_str_bytes id.now) (option_map (λ told. told.now) told.entry)) }
{
    let Some(id) = MessageId::parse(id.as_str().as_bytes()) else {
        return Err(SpoolFault::BadId);
    };
    match shared_head(alloc, &id, told) {
        Ok(head) => Ok(head),
        Err(_) => Err(SpoolFault::Memory),
    }
}

/// Makes the head of a message-id, to be shared.
fn shared_head<A: Allocator + Copy>(
    alloc: A,
    id: &MessageId<'_>,
    told: Option<&ToldFields<A>>,
) -> Result<Rc<OwnedBlock<A>, A>, AllocError>
    ensures { IfOk result (λ head. head.value ≡ made_head id.now (option_map (λ told. told.now) told.entry)) }
{
    Ok(Rc::new(alloc, made_head(alloc, id, told)?)?)
}
