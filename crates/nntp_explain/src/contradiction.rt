//! Contradictions that were told.
ghost use Rattle.std.specs.Prelude.{◌≡◌, ⊤, Contains, MatchOption};
ghost use Rattle.nntp_facts.specs.Standing.{stands_of};

use nntp_facts::Placed;
use std::alloc::Allocator;
use std::marker::Model;

/// An answer that contradicts the accepted ones, and what was told of that.
#[derive(Drop)]
pub(crate) struct ToldContradiction<'a, A: Allocator> {
    /// The bad answer where it stands.
    bad: Placed<'a>,
    /// The accepted answers with which it conflicts, and about what, as it was printed.
    reason: Vec<u8, A>,
}

impl<'a, A: Allocator> Model for ToldContradiction<'a, A> {
    ghost use Rattle.nntp_explain.specs.Inner.Explaining.{ToldContradiction as ToldValue};
    ghost use Rattle.nntp_facts.specs.Standing.{stands_of};

    ghost Value = { ToldValue };

    ghost view = { λ c. record { bad = stands_of c.bad; reason = c.reason.items } };
}

impl<'a, A: Allocator> ToldContradiction<'a, A> {
    /// Puts a bad answer and its reason together.
    pub(crate) fn new(bad: Placed<'a>, reason: Vec<u8, A>) -> ToldContradiction<'a, A>
        ensures { result ≡ record { bad = stands_of bad.entry; reason = reason.items } }
    {
        ToldContradiction { bad, reason }
    }
}

/// Returns the reason that was told of the same answer from the same place, if one was.
pub(crate) fn reason_of<'c, A: Allocator>(
    contradictions: &'c [ToldContradiction<'_, A>],
    bad: &Placed<'_>,
) -> Option<&'c [u8]>
    ensures { MatchOption result ⊤ (λ reason. Contains contradictions.now (record { bad = stands_of bad.now; reason = reason.now })) }
{
    for told in contradictions {
        if told.bad.is_same(bad) {
            return Some(&told.reason);
        }
    }
    None
}
