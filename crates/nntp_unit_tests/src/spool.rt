//! The text of a spool, read and written, what a builder takes, refuses and builds, and which overviews a spool explains.
mod builders;
mod overviews;
mod texts;

use nntp_spool::{Counts, Spool, Watched};
use nntp_wire::Limit;
use std::alloc::Global;

/// A spool: its limit, how many groups, numbers and articles it has, and its text.
type Content = (Limit, (u64, u128, u64), &'static str);

/// Whether this is written of the spool.
fn is_written(alloc: Global, spool: &Spool, text: &str) -> bool {
    let mut output = Watched::new(Vec::new(alloc));
    let has_passed = spool.write(&mut output).is_ok() && !output.failed();
    let octets = output.into_inner();
    has_passed && octets.as_slice() == text.as_bytes()
}

/// Whether the spool is this one.
fn holds(alloc: Global, spool: &Spool, content: Content) -> bool {
    let (limit, (groups, numbers, articles), text) = content;
    let counts = Counts {
        groups,
        numbers,
        articles,
    };
    spool.limit() == limit && spool.counts() == counts && is_written(alloc, spool, text)
}
