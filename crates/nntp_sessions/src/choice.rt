//! By what sessions are judged: how large article numbers may be, and how the water marks of a 211 are read.
use nntp_wire::{Limit, Marks};

/// A limit of article numbers, and how marks are read.
#[derive(Clone, Copy, Debug, PartialEq, Eq)]
pub struct Choice {
    pub limit: Limit,
    pub marks: Marks,
}

pub const NARROW_LENIENT: Choice = Choice {
    limit: Limit::Narrow,
    marks: Marks::Lenient,
};

pub const NARROW_STRICT: Choice = Choice {
    limit: Limit::Narrow,
    marks: Marks::Strict,
};

pub const WIDE_LENIENT: Choice = Choice {
    limit: Limit::Wide,
    marks: Marks::Lenient,
};

pub const WIDE_STRICT: Choice = Choice {
    limit: Limit::Wide,
    marks: Marks::Strict,
};

/// All of them.
pub const CHOICES: [Choice; 4] = [NARROW_LENIENT, NARROW_STRICT, WIDE_LENIENT, WIDE_STRICT];
