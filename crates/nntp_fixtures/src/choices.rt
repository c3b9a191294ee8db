//! What is done by a limit of article numbers and a way to read marks.
use nntp_sessions::Choice;
use nntp_verdict::{Checker, Verdict, check};
use nntp_wire::Overviews;
use std::alloc::{AllocError, Allocator};

/// The verdict of `check` on two streams.
pub fn check_by<A: Allocator + Copy>(
    choice: Choice,
    alloc: A,
    (client, server): (&[u8], &[u8]),
) -> Result<Verdict<A>, AllocError> {
    check(alloc, choice.limit, choice.marks, client, server)
}

/// A checker to which nothing was fed.
pub fn checker_by<A: Allocator + Copy>(choice: Choice, alloc: A) -> Checker<A> {
    Checker::new(alloc, choice.limit, choice.marks)
}

/// A checker to which nothing was fed, where overviews are taken so.
pub fn checker_taking<A: Allocator + Copy>(
    choice: Choice,
    alloc: A,
    overviews: Overviews,
) -> Checker<A> {
    Checker::taking(alloc, choice.limit, choice.marks, overviews)
}
