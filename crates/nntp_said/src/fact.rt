//! What an answer says of the spool, one thing at a time (RFC 3977, sections 6 and 7.6.3).
use crate::position::Position;
use nntp_wire::{Block, GroupName, Marks, Range, WaterMarks, What, Wildmat};

/// One thing that an answer says of the spool.
#[derive(Clone, Copy)]
pub enum Fact<'s> {
    /// There is such a group.
    ThereIs(&'s GroupName<'s>),
    /// There is no group of this name. Its octets need be no group name.
    ThereIsNo(&'s [u8]),
    /// Of the numbers of the group of this name this is asked.
    Asks(&'s [u8], Ask<'s>),
    /// The group of this name gives the message-id at the number.
    IdAt(&'s [u8], u64, &'s str),
    /// The message-id has an article.
    TextIs {
        /// The parts of the article that the command asks for.
        what: What,
        /// The message-id.
        id: &'s str,
        /// The lines that are sent, if any are.
        block: Option<&'s Block<'s>>,
    },
    /// This has no article. Its octets need be no message-id.
    NoArticle(&'s [u8]),
    /// The id of each overview has an article, whose head tells the same.
    FieldsAre {
        /// The lines that are the overviews.
        block: &'s Block<'s>,
    },
    /// The overviews of the numbers of a group in a range are these, and each is that of its article.
    OverviewsAre {
        /// The name of the group.
        name: &'s [u8],
        /// The range that was asked for.
        range: Range,
        /// The lines that are the overviews.
        block: &'s Block<'s>,
    },
    /// The groups that match are these.
    GroupsAre {
        /// The wildmat that the groups match, if one is given.
        wildmat: &'s Option<Wildmat<'s>>,
        /// The lines that list the groups.
        block: &'s Block<'s>,
    },
}

/// One thing that an answer says of the numbers of a group (RFC 3977, section 6.1).
#[derive(Clone, Copy)]
pub enum Ask<'s> {
    /// There are at most so many, between the marks, which are read so.
    Estimates {
        /// How the marks are read.
        how: Marks,
        /// The estimate and the marks.
        marks: WaterMarks,
    },
    /// All numbers are between these.
    Bounds {
        /// The low mark.
        low: u64,
        /// The high mark.
        high: u64,
    },
    /// Those in the range are listed.
    Lists {
        /// The range that was asked for.
        range: Range,
        /// The lines that list them.
        lines: NumberLines<'s>,
    },
    /// The number isn't there.
    Lacks(u64),
    /// The current article is this number.
    StandsAt(Position, u64),
    /// There is no current article.
    StandsNowhere(Position),
    /// The next number above the current article is this.
    StepsUp(Position, u64),
    /// The next number below the current article is this.
    StepsDown(Position, u64),
    /// No number is above the current article.
    IsTop(Position),
    /// No number is below the current article.
    IsBottom(Position),
}

/// The lines that list numbers.
#[derive(Clone, Copy)]
pub enum NumberLines<'s> {
    /// None: a code alone tells that there is none.
    Nothing,
    /// The lines, each of which is a number (RFC 3977, section 6.1.2).
    Numbers(&'s Block<'s>),
    /// The lines, each of which is an overview with a number (RFC 3977, section 8.3).
    Overviews(&'s Block<'s>),
}
