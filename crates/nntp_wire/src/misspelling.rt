//! Why a frame spells no response (RFC 3977, sections 3.1, 3.1.1, 3.2, 5.2, 6 and 7.6.3).
ghost use Rattle.std.specs.Prelude.{◌≡◌};
ghost use Rattle.std.specs.Option.{option_copied};
ghost use Rattle.nntp_wire.specs.Lines.{lines_of_stream};
ghost use Rattle.nntp_wire.specs.Misspelling.{arguments_of, dues, is_argument, argument_misspelling, listing_fault, line_fault, kind_behind};
ghost use Rattle.nntp_wire.specs.Misspelling.{lines_misspelling, line_misspelling, block_misspelling, misspelling};
ghost use Rattle.nntp_wire.specs.Inner.View.{asked};

use crate::active_lines::is_active_line;
use crate::arguments::argument;
use crate::block::{has_no_single_dot, without_dot};
use crate::command::Prompt;
use crate::group_name::GroupName;
use crate::kind::Kind;
use crate::laws::{group_names_are_decided, message_ids_are_decided};
use crate::line::{has_clean_octets, number, words};
use crate::listed_numbers::listed_number;
use crate::message_id::MessageId;
use crate::overview_lines::{
    begins_with_number, has_id_in_place, has_number_in_front, is_listed_id,
};
use crate::response::Frame;
use crate::status::{is_block_due, is_fitting};
use crate::stream::split_first_line;
use crate::versions::gives_versions;

/// Why a frame spells no response to its prompt: the rule of spelling that fails first (RFC 3977,
/// sections 3.1, 3.1.1, 3.2, 5.2, 6 and 7.6.3).
#[derive(Clone, Copy, PartialEq, Eq)]
pub enum Misspelling {
    /// The initial line holds NUL, CR or LF (RFC 3977, section 3.1).
    WrongOctet,
    /// The initial line has so many octets, its CRLF among them, which are more than 512 (RFC 3977,
    /// section 3.1).
    TooLong(usize),
    /// The initial line doesn't begin with a code: three digits, the first of them 1 to 5, and then
    /// the end of the line or a space (RFC 3977, section 3.2).
    NoCode,
    /// An argument behind the code isn't what is due there, or there is none (RFC 3977,
    /// section 3.2).
    WrongArgument {
        /// Which argument it is. The first is 1.
        place: usize,
        /// What is due there.
        due: Due,
    },
    /// A line of the block is wrong (RFC 3977, section 3.1.1).
    WrongLine {
        /// Which line it is. The first is 1.
        place: usize,
        /// What is wrong with it.
        fault: LineFault,
    },
    /// There is a block where none is due, or there is none where one is: the frame was cut for
    /// another prompt.
    WrongBlock,
}

/// What is due as an argument of an initial line (RFC 3977, sections 6.1 and 6.2).
#[derive(Clone, Copy, PartialEq, Eq)]
pub enum Due {
    /// A number of 1 to 16 digits.
    Number,
    /// The name of a group.
    GroupName,
    /// A message-id.
    MessageId,
}

/// What is wrong with a line of a block.
#[derive(Clone, Copy, PartialEq, Eq)]
pub enum LineFault {
    /// The line holds NUL, CR or LF (RFC 3977, section 3.1.1).
    BadOctet,
    /// The line is sent with a dot in front that isn't followed by another (RFC 3977,
    /// section 3.1.1).
    SingleDot,
    /// The line isn't one number, as LISTGROUP lists them (RFC 3977, section 6.1.2).
    NoNumber,
    /// The line isn't a group, two numbers and a word, as LIST ACTIVE lists them (RFC 3977,
    /// section 7.6.3).
    NoGroup,
    /// The first field of an overview isn't one number (RFC 3977, section 8.3).
    NoArticleNumber,
    /// The fifth field of an overview isn't one message-id, or there is none (RFC 3977, section 8.3).
    NoMessageId,
    /// The first word of a line of HDR or XHDR isn't a number (RFC 3977, section 8.5).
    NoListedNumber,
    /// A line of HDR or XHDR isn't a number and a message-id (RFC 3977, section 8.5).
    NoListedId,
    /// The line doesn't give versions, as the first capability has to (RFC 3977, section 5.2).
    NoVersions,
}

impl Misspelling {
    /// Returns why the octets of a frame spell no response to this prompt. It takes no memory, and
    /// goes through the octets once more.
    ///
    /// Returns `None` exactly where [`Answer::parse`](crate::Answer::parse) reads a response.
    pub fn of(prompt: &Prompt<'_>, frame: &Frame<'_>) -> Option<Misspelling>
        ensures { result ≡ misspelling (asked prompt.now) frame.now.initial frame.now.block }
    {
        let line = frame.initial();
        if !has_clean_octets(line) {
            return Some(Misspelling::WrongOctet);
        }
        if !is_fitting(prompt, line.len()) {
            return Some(Misspelling::TooLong(line.len() + 2));
        }
        let Some(code) = frame.code() else {
            return Some(Misspelling::NoCode);
        };
        let kind = Kind::of(prompt, code);
        let (_, bytes) = line.split_at(3);
        if let Some(why) = argument_misspelling(dues(kind), bytes) {
            return Some(why);
        }
        block_misspelling(kind, is_block_due(prompt.kind(), code), frame.block())
    }
}

/// Returns what is due behind a code.
fn dues(kind: Kind) -> &'static [Due]
    ensures { result.now ≡ dues kind }
{
    match kind {
        Kind::Group | Kind::Numbers => &[Due::Number, Due::Number, Due::Number, Due::GroupName],
        Kind::Sent => &[Due::Number, Due::MessageId],
        _ => &[],
    }
}

/// Tells whether an argument is what is due.
fn is_argument(due: Due, word: &[u8]) -> bool
    ensures { result ≡ is_argument due word.now }
{
    group_names_are_decided();
    message_ids_are_decided();
    match due {
        Due::Number => number(word).is_some(),
        Due::GroupName => GroupName::parse(word).is_some(),
        Due::MessageId => MessageId::parse(word).is_some(),
    }
}

/// Returns the first argument that isn't what is due.
fn argument_misspelling(dues: &[Due], bytes: &[u8]) -> Option<Misspelling>
    ensures { result ≡ argument_misspelling 1 dues.now (arguments_of bytes.now) }
{
    let mut place = 1;
    let mut rest = bytes;
    for due in dues {
        let wrong = Misspelling::WrongArgument { place, due: *due };
        let Some((word, others)) = argument(rest) else {
            return Some(wrong);
        };
        if !is_argument(*due, word) {
            return Some(wrong);
        }
        rest = others;
        place += 1;
    }
    None
}

/// Returns what is wrong with the octets before a dot line, where a block is due or isn't.
fn block_misspelling(kind: Kind, is_due: bool, sent: Option<&[u8]>) -> Option<Misspelling>
    ensures { result ≡ block_misspelling kind is_due (option_copied sent.entry) }
{
    match (sent, is_due) {
        (Some(sent), true) => lines_misspelling(kind, sent),
        (None, false) => None,
        _ => Some(Misspelling::WrongBlock),
    }
}

/// Returns what is wrong with the lines of a block.
fn lines_misspelling(kind: Kind, sent: &[u8]) -> Option<Misspelling>
    ensures { result ≡ lines_misspelling kind (lines_of_stream sent.now) }
{
    if matches!(kind, Kind::Capabilities) && split_first_line(sent).is_none() {
        return Some(Misspelling::WrongLine {
            place: 1,
            fault: LineFault::NoVersions,
        });
    }
    line_misspelling(kind, sent)
}

/// Returns the first line that is wrong.
fn line_misspelling(kind: Kind, sent: &[u8]) -> Option<Misspelling>
    ensures { result ≡ line_misspelling kind 1 (lines_of_stream sent.now) }
{
    let mut kind = kind;
    let mut place = 1;
    let mut rest = sent;
    while let Some((line, others)) = split_first_line(rest) {
        if let Some(fault) = line_fault(kind, line) {
            return Some(Misspelling::WrongLine { place, fault });
        }
        kind = kind_behind(kind);
        place += 1;
        rest = others;
    }
    None
}

/// Returns what the lines behind a first one have to list.
fn kind_behind(kind: Kind) -> Kind
    ensures { result ≡ kind_behind kind }
{
    match kind {
        Kind::Capabilities => Kind::Plain,
        other => other,
    }
}

/// Returns what is wrong with a line as it is sent.
fn line_fault(kind: Kind, line: &[u8]) -> Option<LineFault>
    ensures { result ≡ line_fault kind line.now }
{
    if !has_clean_octets(line) {
        return Some(LineFault::BadOctet);
    }
    if !has_no_single_dot(line) {
        return Some(LineFault::SingleDot);
    }
    listing_fault(kind, without_dot(line))
}

/// Returns what a line lacks that it has to list.
fn listing_fault(kind: Kind, line: &[u8]) -> Option<LineFault>
    ensures { result ≡ listing_fault kind line.now }
{
    match kind {
        Kind::Numbers if listed_number(line).is_none() => Some(LineFault::NoNumber),
        Kind::Active if !is_active_line(line) => Some(LineFault::NoGroup),
        Kind::Overview if !has_number_in_front(line) => Some(LineFault::NoArticleNumber),
        Kind::Overview if !has_id_in_place(line) => Some(LineFault::NoMessageId),
        Kind::Ids if !begins_with_number(line) => Some(LineFault::NoListedNumber),
        Kind::Ids if !is_listed_id(line) => Some(LineFault::NoListedId),
        Kind::Capabilities if !gives_versions(words(line)) => Some(LineFault::NoVersions),
        _ => None,
    }
}
