//! The spool of a news server: its groups, their article numbers and its articles. A spool is built
//! call by call, written as text and read back, and looked up.
#![tactic(auto)]

mod buffered_output;
pub mod laws;
mod output;
mod text;
mod value;
mod watched;

pub use nntp_content::{Article, Content, Numbers, StoredArticle};
pub use output::{WriteFault, put};
pub use text::{Kind, ReadFault};
pub use value::{Counts, Spool, SpoolBuilder, SpoolFault};
pub use watched::Watched;
