//! A session over one spool: what its machine shows whatever the spool, and the laws of its definitions
//! (RFC 3977, sections 3.2.1, 5, 6 and 7.6).
pub mod laws;
mod listed;
mod listed_overviews;
mod misfit;
mod profile;
mod visible;

pub use listed::Listed;
pub use listed_overviews::ListedOverviews;
pub use misfit::Misfit;
pub use profile::Profile;
pub use visible::{Visible, is_article_number, is_generic_failure};
