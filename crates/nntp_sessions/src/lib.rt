//! Worked sessions of a news reader and a server, with what is to be said of each and of several; sessions made at random;
//! the exchanges of a session, and the lines that tell what is known of its groups; and readers and writers for runs.
#![tactic(auto)]

mod answered;
mod choice;
mod fakes;
mod group_lines;
mod marks;
mod random;
mod sessions;
mod several;
mod written;

pub use answered::{Answered, exchanges};
pub use choice::{CHOICES, Choice, NARROW_LENIENT, NARROW_STRICT, WIDE_LENIENT, WIDE_STRICT};
pub use fakes::{
    EndlessReader, FakeReader, FakeWriter, Full, cut_reader, endless_reader, reader, writer,
};
pub use group_lines::{push_name, push_number, push_unseen};
pub use marks::{Outcome, Row, each_row};
pub use random::{BASES, Random, Wandering};
pub use sessions::{Session, capture, each_session, report, verified_report, with_spool};
pub use several::{Alone, SessionList, SessionPair, session_lists, session_pairs};
pub use written::{spool_text, with_spool_text};
