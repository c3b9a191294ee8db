//! What a spool holds: the numbers of its groups, with the ids at them, and its articles by their ids.
#![tactic(auto)]

mod article;
mod articles;
mod ascending;
mod boxed_numbers;
mod content;
mod gathered;
mod numbers;

pub use article::{Article, StoredArticle};
pub use articles::{Articles, Held};
pub use boxed_numbers::BoxedNumbers;
pub use content::Content;
pub use gathered::Gathered;
pub use numbers::{Numbered, Numbers};
