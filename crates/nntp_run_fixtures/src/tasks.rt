//! Tasks by a limit of article numbers, a way to read marks, and how overviews are taken.
use nntp_check::{Overviews, Task};
use nntp_sessions::Choice;

/// The task of judging a session.
pub fn check_task(choice: Choice, overviews: Overviews) -> Task {
    Task::Check {
        limit: choice.limit,
        marks: choice.marks,
        overviews,
    }
}

/// The task of telling whether a spool explains a session. The limit is that of the spool.
pub fn verify_task(choice: Choice, overviews: Overviews) -> Task {
    Task::Verify {
        marks: choice.marks,
        overviews,
    }
}

/// The task of telling all that is bad of a session.
pub fn explain_task(choice: Choice, overviews: Overviews) -> Task {
    Task::Explain {
        limit: choice.limit,
        marks: choice.marks,
        overviews,
    }
}
