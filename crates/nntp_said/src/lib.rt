//! What answers say of every spool: facts, and where in a group a session stands.
#![tactic(auto)]

mod fact;
pub mod laws;
mod position;
mod said_facts;
mod table;

pub use fact::{Ask, Fact, NumberLines};
pub use position::Position;
pub use said_facts::SaidFacts;
pub use table::facts_of;
