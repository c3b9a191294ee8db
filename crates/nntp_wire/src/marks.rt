//! The two ways to read the water marks of a 211.

/// The way in which the low and the high water mark of a 211 are read (RFC 3977, section 6.1.1.2).
#[derive(Clone, Copy, Debug, PartialEq, Eq)]
pub enum Marks {
    /// The marks bound the numbers of the group, and needn't be numbers of it.
    Lenient,
    /// The marks are the least and the greatest number of the group, if it has any number.
    Strict,
}
