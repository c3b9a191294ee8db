//! Lines of a head (RFC 3977, section 3.6; RFC 1036, section 2).
ghost use Rattle.std.specs.Prelude.{◌≡◌, not};
ghost use Rattle.std.specs.List.{find, before_first, after_first};
ghost use Rattle.nntp_wire.specs.Octets.{is_blank, is_clean};
ghost use Rattle.nntp_article.specs.Article.Parts.{is_continuation, is_colon, is_name_octet, begins_header, skip_blanks, skip_last_blanks};
ghost use Rattle.nntp_article.specs.Inner.Parts.{is_head_line};

use memchr::{memchr, memchr3};

/// Whether the octet is SP or TAB.
fn is_blank(octet: u8) -> bool
    ensures { result ≡ is_blank octet }
{
    octet == b' ' || octet == b'\t'
}

/// Whether no octet is NUL, CR or LF.
pub(crate) fn is_clean(line: &[u8]) -> bool
    ensures { result ≡ is_clean line.now }
{
    memchr3(0, b'\r', b'\n', line).is_none()
}

/// Whether the line continues the header before it.
pub(crate) fn is_continuation(line: &[u8]) -> bool
    ensures { result ≡ is_continuation line.now }
{
    match line {
        [first, ..] => is_blank(*first),
        [] => false,
    }
}

/// Whether the octet may stand in the name of a header.
fn is_name_octet(octet: u8) -> bool
    ensures { result ≡ is_name_octet octet }
{
    octet >= 0x21 && octet <= 0x7E && octet != b':'
}

/// Whether the line begins a header: with a name and a colon.
#[tactic(auto, using(crate::proofs::ArticleLemmas::LineLemmas::begins_by_name))]
pub(crate) fn begins_header(line: &[u8]) -> bool
    ensures { result ≡ begins_header line.now }
{
    let Some((first, more)) = line.split_first() else {
        return false;
    };
    is_name_octet(*first) && behind_name(more) == Some(b':')
}

/// The first of the octets that may not stand in the name of a header.
fn behind_name(octets: &[u8]) -> Option<u8>
    ensures { result ≡ find (λ octet. not (is_name_octet octet)) octets.now }
{
    octets.iter().copied().find(|octet| !is_name_octet(*octet))
}

/// Whether the line begins a header or continues one.
pub(crate) fn is_head_line(line: &[u8]) -> bool
    ensures { result ≡ is_head_line line.now }
{
    is_continuation(line) || begins_header(line)
}

/// The octets before the first colon, and those behind it.
pub(crate) fn split_at_colon(line: &[u8]) -> (&[u8], &[u8])
    ensures name { result.0.now ≡ before_first is_colon line.now }
    ensures value { result.1.now ≡ after_first is_colon line.now }
{
    match memchr(b':', line) {
        Some(end) => {
            let (name, value) = line.split_at(end);
            let (_, value) = value.split_at(1);
            (name, value)
        }
        None => (line, &[]),
    }
}

/// The octets without SP and TAB at their front.
pub(crate) fn skip_blanks(octets: &[u8]) -> &[u8]
    ensures { result.now ≡ skip_blanks octets.now }
{
    let mut rest = octets;
    while let Some((first, others)) = rest.split_first() {
        if !is_blank(*first) {
            return rest;
        }
        rest = others;
    }
    rest
}

/// The octets without SP and TAB at their end.
pub(crate) fn skip_last_blanks(octets: &[u8]) -> &[u8]
    ensures { result.now ≡ skip_last_blanks octets.now }
{
    let mut rest = octets;
    while let Some((last, others)) = rest.split_last() {
        if !is_blank(*last) {
            return rest;
        }
        rest = others;
    }
    rest
}
