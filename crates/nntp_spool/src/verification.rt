//! Whether a given spool explains a session.
ghost use Rattle.std.specs.Prelude.{◌≡◌, ◌↔◌, IsTrue, IfOk};
ghost use Rattle.nntp_pair.specs.Pairing.{asked_at};
ghost use Rattle.nntp_article.specs.Session.Limit.{profile_of};
ghost use Rattle.nntp_article.specs.Session.Machine.{MayAnswer, start};
ghost use Rattle.nntp_article.specs.Session.Spool.{IsSpool};
ghost use Rattle.nntp_article.specs.Inner.Listed.{lists, lists_of};
ghost use Rattle.nntp_said.specs.Inner.Asks.{state_at};
ghost use Rattle.nntp_spool.specs.Inner.AskedCounts.{AreCounted};
ghost use Rattle.nntp_spool.specs.Verifying.{IsVerified};
ghost use Rattle.nntp_wire.specs.Session.{taken};
ghost use Rattle.nntp_wire.specs.declared.overviews.Overviews.TheVariants.{Opaque};

mod asked_counts;
mod holding;
mod last_group;
mod listed_groups;
mod listed_overviews;
mod lookups;
mod sent_lines;
mod verified;

use asked_counts::AskedCounts;
use holding::hold;
use last_group::LastGroup;
use nntp_article::{Listed, Profile, Visible};
use nntp_pair::{Exchange, Pairs, Step};
use nntp_said::{Position, facts_of};
use nntp_store::{Content, Spool};
use nntp_wire::{Marks, Overviews};
use std::alloc::{AllocError, Allocator};
pub use verified::Verified;

/// Tells whether the spool explains both streams of a session: whether it permits each answer that
/// the server's octets spell, and no octets are left. If it doesn't, the value tells the first
/// answer that the spool doesn't explain together with those before it.
///
/// `client` and `server` are all octets of the two streams. The session is judged by the spool's
/// limit of article numbers (RFC 3977, section 6), and with the water marks of a 211 read as
/// `marks` tells (section 6.1.1.2). Overviews are opaque: [`verify_taking`] is told how they
/// are taken. What is taken of `alloc` is given back.
///
/// # Errors
///
/// [`AllocError`], if memory is refused.
pub fn verify<A: Allocator + Copy, S: Allocator>(
    alloc: A,
    marks: Marks,
    spool: &Spool<S>,
    client: &[u8],
    server: &[u8],
) -> Result<Verified, AllocError>
    ensures { IfOk result (λ verified. IsVerified (profile_of spool.now.limit marks) spool.now.spool (taken Opaque client.now) server.now verified) }
{
    verify_taking(alloc, marks, spool, Overviews::Opaque, client, server)
}

/// Tells whether the spool explains both streams of a session, as [`verify`] does, where overviews are taken so.
///
/// # Errors
///
/// [`AllocError`], if memory is refused.
pub fn verify_taking<A: Allocator + Copy, S: Allocator>(
    alloc: A,
    marks: Marks,
    spool: &Spool<S>,
    overviews: Overviews,
    client: &[u8],
    server: &[u8],
) -> Result<Verified, AllocError>
    ensures { IfOk result (λ verified. IsVerified (profile_of spool.now.limit marks) spool.now.spool (taken overviews client.now) server.now verified) }
{
    let profile = Profile::of(spool.limit(), marks);
    let content = spool.content();
    let mut visible = Visible::new(alloc);
    let mut counts = AskedCounts::new(alloc);
    // Both are lent, and so dropped at one exit alone: the check goes through the drops of each.
    judge(
        alloc,
        profile,
        content,
        overviews,
        client,
        server,
        &mut visible,
        &mut counts,
    )
}

/// Goes over the exchanges of both streams, from the state before the greeting on, as
/// [`verify_taking`] does.
fn judge<A: Allocator + Copy, S: Allocator>(
    alloc: A,
    profile: Profile,
    content: &Content<S>,
    overviews: Overviews,
    client: &[u8],
    server: &[u8],
    visible: &mut Visible<A>,
    counts: &mut AskedCounts<A>,
) -> Result<Verified, AllocError>
    requires spool { IsSpool profile.limit content.now }
    requires start { visible.old ≡ start.visible }
    requires counted { AreCounted content.now counts.old }
    ensures { IfOk result (λ verified. IsVerified profile content.now (taken overviews client.now) server.now verified) }
{
    let mut pairs = Pairs::taking(overviews, client, server);
    let mut group = LastGroup::new(content);
    let mut position = Position::Nowhere;
    let mut answers = 0;
    loop {
        match pairs.next() {
            Step::Exchange(exchange) => {
                if !may_answer(
                    alloc, profile, &mut group, counts, visible, position, &exchange,
                )? {
                    return Ok(Verified::Refuses { index: answers });
                }
                let prompt = exchange.prompt();
                let answer = exchange.answer();
                visible.advance(prompt, answer)?;
                position = position.after(prompt, answer);
                answers = exchange.index() + 1;
            }
            Step::Bad { .. } => return Ok(Verified::Refuses { index: answers }),
            Step::End { .. } => return Ok(Verified::Permits { answers }),
        }
    }
}

/// Tells whether the spool permits the exchange where a session stands: what it shows, and its
/// place in the selected group.
fn may_answer<A: Allocator + Copy, S: Allocator>(
    alloc: A,
    profile: Profile,
    group: &mut LastGroup<'_, S>,
    counts: &mut AskedCounts<A>,
    visible: &Visible<A>,
    position: Position,
    exchange: &Exchange<'_>,
) -> Result<bool, AllocError>
    requires spool { IsSpool profile.limit group.old }
    requires counted { AreCounted group.old counts.old }
    ensures spool { group.new ≡ group.old }
    ensures counted { IfOk result (λ _. AreCounted group.old counts.new) }
    ensures may { IfOk result (λ may. IsTrue may
        ↔ MayAnswer profile group.old (state_at group.old visible.now position) (asked_at exchange.now.place) exchange.now.response) }
{
    let listed = Listed::of(alloc, exchange.answer())?;
    // It is lent, and so dropped at one exit alone: the check goes through each drop.
    may_answer_listing(profile, group, counts, visible, position, exchange, &listed)
}

/// Tells whether the spool permits the exchange, as [`may_answer`] does; `listed` is what the answer lists.
fn may_answer_listing<'a, A: Allocator + Copy, S: Allocator>(
    profile: Profile,
    group: &mut LastGroup<'_, S>,
    counts: &mut AskedCounts<A>,
    visible: &Visible<A>,
    position: Position,
    exchange: &Exchange<'a>,
    listed: &Listed<'a, A>,
) -> Result<bool, AllocError>
    requires spool { IsSpool profile.limit group.old }
    requires counted { AreCounted group.old counts.old }
    requires listed { lists listed.now ≡ lists_of exchange.now.response }
    ensures spool { group.new ≡ group.old }
    ensures counted { IfOk result (λ _. AreCounted group.old counts.new) }
    ensures may { IfOk result (λ may. IsTrue may
        ↔ MayAnswer profile group.old (state_at group.old visible.now position) (asked_at exchange.now.place) exchange.now.response) }
{
    let prompt = exchange.prompt();
    let answer = exchange.answer();
    let why = visible.misfit_as_read(profile, prompt, answer, listed)?;
    if visible.is_closed() || why.is_some() {
        return Ok(false);
    }
    let selected = visible.selected_name();
    let facts = &mut facts_of(profile.marks, selected, position, prompt, answer);
    hold(group, counts, listed, facts)
}
