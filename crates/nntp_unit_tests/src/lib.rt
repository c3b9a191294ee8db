//! What single calls of the crates below the checker are meant to answer. The tests of each crate are in the
//! module of its name. Examples that need no run, as those of parsers, are in `proofs/`, over the definitions
//! that the contracts of the calls cite.
#![tactic(auto)]

#[cfg(test)]
mod article;
#[cfg(test)]
mod intervals;
#[cfg(test)]
mod pair;
#[cfg(test)]
mod refusing;
#[cfg(test)]
mod said;
#[cfg(test)]
mod spool;
#[cfg(test)]
mod wire;
