//! Tests of what is judged: worked sessions go through every call, whole and in pieces, and with little memory; and the
//! session of docs/EXAMPLE.md.
#![tactic(auto)]

#[cfg(test)]
mod checkers;
#[cfg(test)]
mod cuts;
#[cfg(test)]
mod example;
#[cfg(test)]
mod listed_id_verdicts;
#[cfg(test)]
mod listed_ids;
#[cfg(test)]
mod marks;
#[cfg(test)]
mod memory;
#[cfg(test)]
mod overview_fields;
#[cfg(test)]
mod overview_spools;
#[cfg(test)]
mod overview_verdicts;
#[cfg(test)]
mod overviews;
#[cfg(test)]
mod several;
#[cfg(test)]
mod verdicts;
