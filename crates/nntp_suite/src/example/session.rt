//! The octets of the session, and what is looked for in them. They are those of docs/EXAMPLE.md; `tools/test` compares
//! them.
use nntp_pair::{Exchange, Pairs, Step};
use nntp_wire::Lines;
use std::process::Abort;

/// What the client sent.
pub(crate) const CLIENT: &[u8] = b"GROUP misc.test\r\nNEXT\r\nHEAD\r\nSTAT 1\r\nQUIT\r\n";

/// What the server sent.
pub(crate) const SERVER: &[u8] = b"200 hi\r\n211 3 1 9 misc.test\r\n223 2 <a@x>\r\n\
221 2 <a@x>\r\nSubject: two\r\nMessage-ID: <a@x>\r\n.\r\n423 no\r\n205 bye\r\n";

/// What the client sent, but for the command that got the bad answer.
pub(crate) const SHORTER_CLIENT: &[u8] = b"GROUP misc.test\r\nNEXT\r\nHEAD\r\nQUIT\r\n";

/// What the server sent, but for the bad answer.
pub(crate) const SHORTER_SERVER: &[u8] = b"200 hi\r\n211 3 1 9 misc.test\r\n223 2 <a@x>\r\n\
221 2 <a@x>\r\nSubject: two\r\nMessage-ID: <a@x>\r\n.\r\n205 bye\r\n";

/// The name of the group.
pub(crate) const NAME: &[u8] = b"misc.test";

/// The message-id that is shown.
pub(crate) const ID: &[u8] = b"<a@x>";

/// The next exchange of both streams.
pub(crate) fn next<'a>(rt: &impl Abort, pairs: &mut Pairs<'a>) -> Exchange<'a> {
    let Step::Exchange(exchange) = pairs.next() else {
        panic!(rt; "no exchange is left");
    };
    exchange
}

/// Whether these are the lines of the head that is sent.
pub(crate) fn are_head_lines(mut lines: Lines<'_>) -> bool {
    lines.next() == Some(b"Subject: two".as_slice())
        && lines.next() == Some(b"Message-ID: <a@x>".as_slice())
        && lines.next().is_none()
}
