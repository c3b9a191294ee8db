//! Octets, numbers, bad answers and the titles of sessions as reports print them.
#![tactic(auto)]

mod bad_answer;
mod printing;
mod title;

pub use bad_answer::{first_line, put_bad_answer, put_bad_line, put_command, shown, shown_line};
pub use printing::{put_escaped, put_escaped_line, put_number, put_sum};
pub use title::put_title;
