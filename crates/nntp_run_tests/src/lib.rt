//! Runs by fake readers and writers: what they answer and write, the command line, faults, and want of memory.
#![tactic(auto)]

#[cfg(test)]
mod command_lines;
#[cfg(test)]
mod explanations;
#[cfg(test)]
mod faults;
#[cfg(test)]
mod listed_ids;
#[cfg(test)]
mod memory;
#[cfg(test)]
mod overviews;
#[cfg(test)]
mod reported;
#[cfg(test)]
mod runs;
#[cfg(test)]
mod several;
#[cfg(test)]
mod shows;
#[cfg(test)]
mod tasks;
#[cfg(test)]
mod trials;
#[cfg(test)]
mod worked;
