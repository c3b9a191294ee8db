//! What the Control headers of a head say (RFC 1036, section 3).
ghost use Rattle.std.specs.Prelude.{◌≡◌, ◌++◌, [], ◌∷◌, IfOk, map, List, ℕ, unwrap_or, option_map};
ghost use Rattle.std.specs.Str.{bytes_eq};
ghost use Rattle.nntp_wire.specs.Decided.{is_message_id, is_group_name};
ghost use Rattle.nntp_article.specs.Article.Control.{controls_of, controls_among, control_of, control_of_two, control_of_three, other};
ghost use Rattle.nntp_article.specs.Inner.View.{control_value};

use crate::article::control_message::Control;
use crate::article::head::Head;
use crate::article::header::{Header, content};
use nntp_wire::{GroupName, MessageId, is_same_word, words};
use std::alloc::{AllocError, Allocator};

/// What the Control headers of a head say, first to last (RFC 1036, section 3). The memory is taken
/// from `alloc`.
///
/// # Errors
///
/// Where memory was refused.
pub fn control<A: Allocator + Copy>(
    alloc: A,
    head: &Head<'_>,
) -> Result<Vec<Control<A>, A>, AllocError>
    ensures { IfOk result (λ controls. map control_value controls.items ≡ controls_of head.now) }
{
    let mut controls = Vec::new(alloc);
    let mut headers = head.headers();
    while let Some(header) = headers.next() {
        push_control(alloc, &mut controls, &header)?;
    }
    Ok(controls)
}

/// Puts what the header says behind the others, if it is a Control header.
fn push_control<A: Allocator + Copy>(
    alloc: A,
    controls: &mut Vec<Control<A>, A>,
    header: &Header<'_>,
) -> Result<(), AllocError>
    ensures { IfOk result (λ _. map control_value controls.new.items
        ≡ map control_value controls.old.items ++ controls_among (header.now ∷ [])) }
{
    if !is_same_word(header.name(), b"Control") {
        return Ok(());
    }
    let control = control_of(alloc, content(alloc, header)?)?;
    controls.push(control)?;
    Ok(())
}

/// What the content of a Control header says.
fn control_of<A: Allocator + Copy>(alloc: A, content: Vec<u8, A>) -> Result<Control<A>, AllocError>
    ensures { IfOk result (λ control. control_value control ≡ control_of content.items) }
{
    match message_in(alloc, &content)? {
        Some(control) => Ok(control),
        None => Ok(Control::Other(content)),
    }
}

/// The control message that the content of a Control header is, if it is one.
fn message_in<A: Allocator + Copy>(
    alloc: A,
    content: &[u8],
) -> Result<Option<Control<A>>, AllocError>
    ensures { IfOk result (λ control. unwrap_or (option_map control_value control) (other content.now) ≡ control_of content.now) }
{
    let mut words = words(content);
    match (words.next(), words.next(), words.next(), words.next()) {
        (Some(verb), Some(subject), None, _) => of_two(alloc, verb, subject),
        (Some(verb), Some(subject), Some(status), None) => of_three(alloc, verb, subject, status),
        _ => Ok(None),
    }
}

/// What two words say, where they are a control message.
fn of_two<A: Allocator + Copy>(
    alloc: A,
    verb: &[u8],
    subject: &[u8],
) -> Result<Option<Control<A>>, AllocError>
    ensures { IfOk result (λ control. (content : List ℕ)
        → unwrap_or (option_map control_value control) (other content) ≡ control_of_two content verb.now subject.now) }
{
    if is_equal(verb, b"cancel") && is_message_id(subject) {
        return Ok(Some(Control::Cancel(Vec::from_slice(alloc, subject)?)));
    }
    if is_equal(verb, b"newgroup") && is_group_name(subject) {
        return Ok(Some(Control::NewGroup {
            name: Vec::from_slice(alloc, subject)?,
            moderated: false,
        }));
    }
    if is_equal(verb, b"rmgroup") && is_group_name(subject) {
        return Ok(Some(Control::RmGroup(Vec::from_slice(alloc, subject)?)));
    }
    Ok(None)
}

/// What three words say, where they are a control message.
fn of_three<A: Allocator + Copy>(
    alloc: A,
    verb: &[u8],
    subject: &[u8],
    status: &[u8],
) -> Result<Option<Control<A>>, AllocError>
    ensures { IfOk result (λ control. (content : List ℕ)
        → unwrap_or (option_map control_value control) (other content) ≡ control_of_three content verb.now subject.now status.now) }
{
    if is_equal(verb, b"newgroup") && is_group_name(subject) && is_equal(status, b"moderated") {
        return Ok(Some(Control::NewGroup {
            name: Vec::from_slice(alloc, subject)?,
            moderated: true,
        }));
    }
    Ok(None)
}

/// Whether the words are equal, octet by octet.
fn is_equal(word: &[u8], other: &[u8]) -> bool
    ensures { result ≡ bytes_eq word.now other.now }
{
    word == other
}

/// Whether the word is a message id.
fn is_message_id(word: &[u8]) -> bool
    ensures { result ≡ is_message_id word.now }
{
    MessageId::parse(word).is_some()
}

/// Whether the word is the name of a group.
fn is_group_name(word: &[u8]) -> bool
    ensures { result ≡ is_group_name word.now }
{
    GroupName::parse(word).is_some()
}
