//! Why an answer doesn't fit what a session shows.

/// Why an answer doesn't fit what a session shows of its state, whatever the spool: the first
/// condition that fails (RFC 3977, sections 3.2.1, 5, 6 and 7.6).
#[derive(Clone, Copy)]
pub enum Misfit<'a> {
    /// No answer of this code fits here (RFC 3977, section 3.2).
    WrongCode {
        /// The code of the answer.
        code: u64,
        /// The codes that fit here, ascending. The generic failures, which fit each command, are
        /// named for a greeting alone. Of a command that isn't understood they are those of 300 to
        /// 399, since all others fit it.
        allowed: &'static [u64],
    },
    /// The name in the answer isn't that of the group that was asked for (RFC 3977, section 6.1).
    WrongName(&'a [u8]),
    /// The number in the answer isn't the one that was asked for, or no group is selected that it
    /// could be of (RFC 3977, sections 6.2.1 and 8.3).
    WrongNumber(u64),
    /// The id in the answer isn't the one that was asked for (RFC 3977, sections 6.2.1 and 8.3).
    WrongId(&'a [u8]),
    /// The low mark in the answer is below this one, which was reported earlier for the group
    /// (RFC 3977, section 6.1.1.2).
    BelowLow(u64),
    /// The marks of this group begin below 1, are in no order, or leave no room for the estimate
    /// (RFC 3977, sections 6.1.1.2 and 7.6.3).
    WrongMarks(&'a [u8]),
    /// The number is 0, or greater than the greatest article number (RFC 3977, section 6).
    BeyondLimit(u64),
    /// A listed number isn't greater than the one before it (RFC 3977, sections 6.1.2 and 8.3).
    NotAbove {
        /// The number before it.
        before: u64,
        /// The number that isn't greater.
        number: u64,
    },
    /// A listed number is outside the range that was asked for (RFC 3977, sections 6.1.2 and 8.3).
    BeyondRange(u64),
    /// The wildmat doesn't match the name of this listed group (RFC 3977, section 7.6.3).
    Unmatched(&'a [u8]),
    /// An earlier line lists this group, or this id, too (RFC 3977, sections 7.6.3 and 8.3).
    ListedTwice(&'a [u8]),
    /// No line stands where OVER lists a range, or another number of lines than one where the overview
    /// of one article was asked for (RFC 3977, section 8.3).
    WrongLines,
    /// What is sent hasn't the parts that were asked for: no head stands where one is due (RFC 3977,
    /// section 3.6).
    NoHead,
    /// The head says this id, which isn't the one in the answer (RFC 3977, section 6.2.1).
    OtherId(&'a [u8]),
}
