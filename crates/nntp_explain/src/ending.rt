//! What stands behind the bad answers of a session: why octets that are left answer nothing, and what the last line
//! counts.
ghost use Rattle.std.specs.Prelude.{◌≡◌, ◌≢◌, ◌++◌, OnOk};
ghost use Rattle.nntp_pair.specs.declared.class.PairClass.TheVariants.{Malformed};
ghost use Rattle.nntp_explain.specs.Explaining.{counts_text, IsEndReason};
ghost use Rattle.nntp_explain.specs.Inner.ExplainingView.{GoesOn};

use crate::reasons::{put_cut, put_surplus};
use nntp_facts::Placed;
use nntp_pair::PairClass;
use nntp_printing::{put_number, put_sum};
use std::alloc::{AllocError, Allocator};

/// Adds why octets of the session `here` that are left answer nothing, behind these accepted answers of it.
pub(crate) fn put_end_reason<A: Allocator + Copy>(
    text: &mut Vec<u8, A>,
    here: u64,
    class: PairClass,
    answers: &[Placed<'_>],
    octets: &[u8],
) -> Result<(), AllocError>
    requires { class ≢ Malformed }
    ensures { OnOk result (GoesOn (IsEndReason here class answers.now octets.now) text.old.items text.new.items) }
{
    match class {
        PairClass::Surplus => put_surplus(text, here, answers),
        PairClass::Cut => put_cut(text, octets),
        PairClass::Malformed => unreachable!(),
    }
}

/// Adds what the last line counts: how many answers there are, how many of them are bad, and how many lines have none.
pub(crate) fn put_counts<A: Allocator + Copy>(
    text: &mut Vec<u8, A>,
    answers: u128,
    bad: u64,
    unanswered: u128,
) -> Result<(), AllocError>
    ensures { OnOk result (text.new.items ≡ text.old.items ++ counts_text (record { answers = answers; bad = bad; unanswered = unanswered })) }
{
    put_sum(text, b"answers=", answers)?;
    put_number(text, b" bad=", bad)?;
    put_sum(text, b" unanswered=", unanswered)?;
    text.extend_from_slice(b"\n")
}
