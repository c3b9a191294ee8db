//! What a checker told as bad, against the verdict that it gives in the end.
use nntp_pair::Class;
use nntp_verdict::{SessionsVerdict, Verdict};

/// Whether what is told as bad at the end is the bad answer of the verdict: where nothing is told, the answer isn't
/// whole, or is none.
pub(crate) fn is_told(told: Option<(u64, Class)>, verdict: &Verdict) -> bool {
    match verdict {
        Verdict::Consistent { .. } => told.is_none(),
        Verdict::Bad { answer, class, .. } => match told {
            Some((index, told_class)) => index == *answer && told_class == *class,
            None => is_left(*class),
        },
    }
}

/// The same of so many sessions. Where nothing is told, the answer is of the last one.
pub(crate) fn is_told_of_sessions(
    told: Option<(u64, u64, Class)>,
    verdict: &SessionsVerdict,
    count: usize,
) -> bool {
    match verdict {
        SessionsVerdict::Consistent { .. } => told.is_none(),
        SessionsVerdict::Bad {
            session,
            answer,
            class,
            ..
        } => match told {
            Some((told_session, index, told_class)) => {
                told_session == *session && index == *answer && told_class == *class
            }
            None => session.saturating_add(1) == count as u64 && is_left(*class),
        },
    }
}

/// Whether such octets are only known as bad where nothing follows.
fn is_left(class: Class) -> bool {
    class == Class::Cut || class == Class::Surplus
}
