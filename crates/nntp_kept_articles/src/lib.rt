//! What is kept of articles: whether an id has one, and what answers sent and overviews told of it.
#![tactic(auto)]

mod added;
mod article_part;
mod articles;
mod known;
mod sent;
mod shown_articles;
mod taken_articles;

pub use added::Added;
pub use article_part::ArticlePart;
pub use articles::Articles;
pub use sent::Sent;
pub use shown_articles::{ShownArticle, ShownArticles};
pub use taken_articles::{TakenArticle, TakenArticles};
