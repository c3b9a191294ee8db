//! Tests in which runs have to agree with calls and with the slow judge: every small session, lines at their limits,
//! sessions that `explain` reads to their end, with overviews and without, and short ones with overviews.
#![tactic(auto)]

#[cfg(test)]
mod explained;
#[cfg(test)]
mod explained_overviews;
#[cfg(test)]
mod family;
#[cfg(test)]
mod limits;
#[cfg(test)]
mod overviews;
#[cfg(test)]
mod runs;
