//! Pairing: which response of the server answers which line of the client (RFC 3977, section 3.5).
//!
//! `Pairs` goes over both recorded streams. Each step is an exchange, or how the pairing ends.
//! `Feed` tells the same of streams that come in pieces.
#![tactic(auto)]

mod buffer;
mod class;
mod ending;
mod exchange;
mod feed;
pub mod laws;
mod octet_counts;
mod pair_error;
mod pairs;
mod peek;
mod place;
mod places;
mod searches;
mod side;
mod step;

pub use class::{Class, PairClass};
pub use ending::Ending;
pub use exchange::Exchange;
pub use feed::Feed;
pub use octet_counts::OctetCounts;
pub use pair_error::PairError;
pub use pairs::{Ahead, MalformedFrame, Pairs};
pub use peek::Peek;
pub use place::Place;
pub use side::Side;
pub use step::Step;
