//! What answers conflict about.
use nntp_article::Field;
use nntp_wire::GroupName;

/// What a bad answer and those with which it conflicts disagree about. Names and message-ids are octets of the answers.
/// The variants stand in the order in which the kinds of points are looked for.
#[derive(Drop)]
pub enum Point<'a> {
    /// A step in the group of this name, or its current article, can't be (RFC 3977, section 6.1).
    Step(&'a [u8]),
    /// Whether there is such a group.
    Group(GroupName<'a>),
    /// Whether the group has the number.
    Number {
        /// The name of the group.
        name: &'a [u8],
        /// The article number.
        number: u64,
    },
    /// How many numbers the group of this name has.
    Count(&'a [u8]),
    /// With which numbers the group of this name begins.
    First(&'a [u8]),
    /// Which message-id is at the number.
    IdOf {
        /// The name of the group.
        name: &'a [u8],
        /// The article number.
        number: u64,
    },
    /// At which number of the group the message-id is.
    PlaceOf {
        /// The name of the group.
        name: &'a [u8],
        /// The message-id.
        id: &'a [u8],
    },
    /// Whether the message-id has an article.
    Article(&'a [u8]),
    /// Which head the article of the message-id has.
    HeadOf(&'a [u8]),
    /// Which body the article of the message-id has.
    BodyOf(&'a [u8]),
    /// What a header of the article of the message-id tells.
    FieldOf {
        /// The message-id.
        id: &'a [u8],
        /// Which header it is.
        field: Field,
    },
}
