//! Two things, each in a room of its own. `article`: articles (RFC 3977, section 3.6; RFC 1036), that
//! is, their parts, heads, headers and control messages. `session`: what a spool is, and the machine of
//! a session over one spool, with its laws, and the part of that machine that no spool is asked for.
#![tactic(auto)]

pub mod article;
pub mod session;

pub use article::{
    Control, Field, FieldWords, Fields, Head, Header, Headers, Missing, Parts, ToldFields, content,
    control, lines_say, made_head, missing,
};
pub use session::{
    Listed, ListedOverviews, Misfit, Profile, Visible, is_article_number, is_generic_failure,
};
