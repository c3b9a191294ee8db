//! The spool that is given for the accepted exchanges of sessions.
ghost use Rattle.std.specs.Prelude.{◌≡◌, List, IfOk};
ghost use Rattle.nntp_pair.specs.Pairing.{Paired};
ghost use Rattle.nntp_article.specs.declared.session.profile.Profile.{Profile};
ghost use Rattle.nntp_article.specs.Session.Spool.{Spool as SpoolValue};
ghost use Rattle.nntp_said.specs.Facts.{Fact};
ghost use Rattle.nntp_facts.specs.Inner.Noted.{HasNotedBehind};
ghost use Rattle.nntp_store.specs.Inner.Text.{IsWritten};
ghost use Rattle.nntp_witness.specs.Inner.Witness.{HaveNoted, HaveNotedSome, IsGivenSpool, IsWitnessWithin};
ghost use Rattle.nntp_witness.specs.Inner.Making.{Makes};

use crate::maker::SpoolMaker;
use nntp_facts::Facts;
use nntp_store::{Spool, SpoolFault};
use std::alloc::{AllocError, Allocator};

/// Makes the given spool of the exchanges that the facts accepted, of all sessions, which permits
/// each session and has the limit of the facts.
///
/// It has the groups, numbers and articles that every spool has which permits the exchanges, with
/// water marks that are read strictly among the numbers (RFC 3977, section 6.1.1.2). A group that
/// needs it has one number more, and a number has a message-id of the form `<wK@invented.invalid>`
/// where none is shown.
///
/// The facts must not have failed. They give each group and each article away as it is made, so
/// none is left of them, and what is said isn't held beside the spool. It takes time in the order of
/// what the facts hold, but for logarithms.
///
/// # Errors
///
/// [`AllocError`], if memory is refused.
pub fn witness<A: Allocator + Copy>(alloc: A, facts: &mut Facts<A>) -> Result<Spool<A>, AllocError>
    requires { HaveNotedSome facts.old }
    ensures given { IfOk result (λ spool. (profile : Profile) (earlier : List (List Paired)) (past : List Paired)
        → HasNotedBehind profile facts.old earlier past
        → IsWitnessWithin facts.old.limit profile earlier past spool) }
    ensures is_written { IfOk result IsWritten }
{
    match make(alloc, facts) {
        Ok(spool) => Ok(spool),
        Err(SpoolFault::Memory) => Err(AllocError),
        Err(_) => unreachable!(),
    }
}

/// Makes the given spool. No fault of the builder comes but want of memory.
fn make<A: Allocator + Copy>(alloc: A, facts: &mut Facts<A>) -> Result<Spool<A>, SpoolFault>
    ensures given { (said : List Fact) (G : SpoolValue) → HaveNoted facts.old said → IsGivenSpool facts.old.limit said G
        → Makes result (λ spool. spool ≡ record { limit = facts.old.limit; spool = G }) }
    ensures is_written { IfOk result IsWritten }
{
    let groups = facts.take_groups();
    let mut maker = SpoolMaker::of_groups(alloc, facts, groups)?;
    maker.add_articles(facts.take_articles())?;
    maker.finish()
}
