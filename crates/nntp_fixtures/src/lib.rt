//! What tests that cross crates call: the calls of the checker by a choice, what is told of a session as values and octets
//! that a test compares, and what tests expect of these.
#![tactic(auto)]

mod choices;
mod expectations;
mod known;
mod notes;
mod pieces;
mod several;
mod spools;
mod told;
mod verdicts;

pub use choices::{check_by, checker_by, checker_taking};
pub use expectations::{expect_front, expect_octets, expect_verified};
pub use known::group_lines;
pub use notes::{Stop, Whole, bad_of, beginning, note_all, note_taking};
pub use pieces::{checked_split, feed_split, finished};
pub use several::{
    check_sessions_by, checked_by_octets, checked_in_turn, checked_sessions, checked_taking,
    feed_sessions, finished_sessions, recorded, recorded_taking, sessions_shown, verified_sessions,
    verified_shown,
};
pub use spools::put;
pub use verdicts::shown;
