//! Whether a given spool explains several sessions.
ghost use Rattle.std.specs.Prelude.{IfOk};
ghost use Rattle.nntp_article.specs.Session.Limit.{profile_of};
ghost use Rattle.nntp_several.specs.Verifying.{IsVerifiedOfAll};
ghost use Rattle.nntp_several.specs.Inner.VerifyingView.{verified_shown};

use crate::recorded::Recorded;
use nntp_spool::{Spool, Verified, verify_taking};
use nntp_wire::Marks;
use std::alloc::{AllocError, Allocator, Global};

/// The outcome of [`verify_sessions`]: whether a given spool explains each of several sessions.
#[derive(Drop)]
pub enum VerifiedSessions<A: Allocator = Global> {
    /// The spool explains each session.
    Permits {
        /// How many answers each has, the greeting among them.
        answers: Vec<u64, A>,
    },
    /// The spool doesn't explain an answer of a session, and explains the sessions before it.
    Refuses {
        /// The index of the session, which counts from 0.
        session: u64,
        /// The index of the first of its answers that the spool doesn't explain together with those
        /// before it. The greeting has index 0.
        index: u64,
    },
}

/// Tells whether the spool explains each of the sessions, as [`verify_taking`] does of one. If it doesn't,
/// the value tells the first session of which it doesn't explain an answer, and the first such answer.
///
/// # Errors
///
/// [`AllocError`], if memory is refused.
pub fn verify_sessions<A: Allocator + Copy, S: Allocator>(
    alloc: A,
    marks: Marks,
    spool: &Spool<S>,
    sessions: &[Recorded<'_>],
) -> Result<VerifiedSessions<A>, AllocError>
    ensures { IfOk result (λ verified. IsVerifiedOfAll (profile_of spool.now.limit marks) spool.now.spool sessions.now (verified_shown verified)) }
{
    let mut answers = Vec::new(alloc);
    for session in sessions {
        match verify_taking(
            alloc,
            marks,
            spool,
            session.overviews,
            session.client,
            session.server,
        )? {
            Verified::Permits { answers: count } => answers.push(count)?,
            Verified::Refuses { index } => {
                return Ok(VerifiedSessions::Refuses {
                    session: answers.len() as u64,
                    index,
                });
            }
        }
    }
    Ok(VerifiedSessions::Permits { answers })
}
