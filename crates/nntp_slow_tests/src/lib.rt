//! Tests of verdicts, of what is noted and of `verify`, which are held against the slow judge; and of its wildmats.
#![tactic(auto)]

#[cfg(test)]
mod given_spools;
#[cfg(test)]
mod judged;
#[cfg(test)]
mod listed_ids;
#[cfg(test)]
mod noted;
#[cfg(test)]
mod overviews;
#[cfg(test)]
mod random_fields;
#[cfg(test)]
mod random_lists;
#[cfg(test)]
mod short_sessions;
#[cfg(test)]
mod slow_list;
#[cfg(test)]
mod widened;
#[cfg(test)]
mod wildmats;
