//! What is kept of all that answers said of the spool, and whether more stands together with it.
#![tactic(auto)]

mod details;
mod group;
mod groups;
mod joins;
mod kept;
mod names;
mod numbered_ids;
mod saying;
mod shown_groups;
mod shown_numbers;
mod taken_groups;

pub use groups::Groups;
pub use kept::Kept;
pub use nntp_kept_articles::{
    ArticlePart, Articles, Sent, ShownArticle, ShownArticles, TakenArticle, TakenArticles,
};
pub use saying::{ActivePart, GroupPart, IdAt, OverviewsPart, Saying};
pub use shown_groups::{ShownGroup, ShownGroups};
pub use shown_numbers::{ShownNumber, ShownNumbers};
pub use taken_groups::{TakenGroup, TakenGroups};
