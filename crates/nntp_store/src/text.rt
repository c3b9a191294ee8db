//! The text of a spool, which is written and read.
mod fields;
mod place;
pub(crate) mod read;
pub(crate) mod read_fault;
mod write;

pub use read_fault::{Kind, ReadFault};
