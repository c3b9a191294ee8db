//! What an answer says of one message-id.
use nntp_wire::{Block, What};

/// What an answer says of one message-id.
#[derive(Drop)]
pub enum ArticlePart<'s> {
    /// The id of these octets, which need be no text, has no article.
    Lacks(&'s [u8]),
    /// The id has an article.
    Exists(&'s str),
    /// A success names the id, and sends this block of its article.
    Sends {
        /// The message-id.
        id: &'s str,
        /// The parts of the article that the command asks for.
        what: What,
        /// The lines that are sent, if any are.
        block: Option<&'s Block<'s>>,
    },
    /// A success that no range was asked of is the overview of the id's article.
    Describes {
        /// The message-id.
        id: &'s str,
        /// The line that is the overview.
        block: &'s Block<'s>,
    },
}
