//! Message-ids (RFC 3977, section 3.6).
ghost use Rattle.std.specs.Prelude.{◌≡◌, ◌↔◌, IsTrue, All};
ghost use Rattle.std.specs.Option.{SomeIff};
ghost use Rattle.nntp_wire.specs.Name.{IsMessageId, IsIdOctet};

use std::marker::Model;
use std::str;

/// A message-id, which names an article (RFC 3977, section 3.6). Its angle brackets are part of it.
#[derive(Drop)]
pub struct MessageId<'a> {
    text: &'a str,
}

impl<'a> Model for MessageId<'a> {
    ghost use Rattle.std.specs.Prelude.{List, ℕ};
    ghost use Rattle.nntp_wire.specs.Name.{IsMessageId};

    ghost Value = { List ℕ };

    ghost view = { λ s. s.text.now };

    ghost invariant = { λ s. IsMessageId s.text.now };
}

impl<'a> MessageId<'a> {
    /// Takes the octets as a message-id (RFC 3977, section 3.6).
    ///
    /// Returns `None` unless there are 3 to 250 octets of visible ASCII, which begin with `<`, end
    /// with `>` and have no other `>`.
    pub fn parse(bytes: &'a [u8]) -> Option<MessageId<'a>>
        ensures { SomeIff result (IsMessageId bytes.now) bytes.now }
    {
        if bytes.len() < 3 || bytes.len() > 250 {
            return None;
        }
        let last = bytes.len() - 1;
        if bytes[0] != b'<' || bytes[last] != b'>' {
            return None;
        }
        let inside = &bytes[1..last];
        if !are_id_octets(inside) {
            return None;
        }
        let text = id_text(bytes);
        Some(MessageId { text })
    }

    /// Returns the octets of the message-id, with the angle brackets.
    pub fn as_slice(&self) -> &'a [u8]
        ensures value { result.now ≡ self.now }
        ensures is_id { IsMessageId self.now }
    {
        self.text.as_bytes()
    }

    /// Returns the message-id as text, with the angle brackets.
    pub fn as_str(&self) -> &'a str
        ensures value { result.now ≡ self.now }
        ensures is_id { IsMessageId self.now }
    {
        self.text
    }
}

/// Tells whether the octets may stand inside a message-id.
fn are_id_octets(inside: &[u8]) -> bool
    ensures { IsTrue result ↔ All IsIdOctet inside.now }
{
    inside
        .iter()
        .all(|b| *b >= 0x21 && *b <= 0x7E && *b != b'>')
}

/// Returns the octets of a message-id as text.
fn id_text(bytes: &[u8]) -> &str
    requires { IsMessageId bytes.now }
    ensures value { result.now ≡ bytes.now }
    ensures is_id { IsMessageId result.now }
{
    str::from_utf8(bytes).unwrap()
}
