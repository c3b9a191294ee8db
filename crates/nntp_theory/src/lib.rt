//! What sessions say of every spool: when a spool has it all, which one is given, which answer is bad, and of which
//! class. The definitions are in `specs`; `laws` has what follows from them.
#![tactic(auto)]

mod demand;
pub mod laws;
mod noted;

pub use demand::Demand;
pub use noted::Noted;
