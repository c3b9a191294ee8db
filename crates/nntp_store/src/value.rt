//! A spool, and the builder of one.
mod builder;
mod spool;
mod spool_fault;
pub(crate) mod well_formed;

pub use builder::SpoolBuilder;
pub use spool::{Counts, Spool};
pub use spool_fault::SpoolFault;
