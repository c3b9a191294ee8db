//! The headers that an article has to have (RFC 1036, section 2.1).
ghost use Rattle.std.specs.Prelude.{◌≡◌, ◌&&◌, not, codes};
ghost use Rattle.nntp_article.specs.Article.Parts.{is_named};
ghost use Rattle.nntp_article.specs.Article.Required.{missing_of};

use crate::article::head::Head;
use crate::article::header::Header;
use crate::article::missing_headers::Missing;
use nntp_wire::is_same_word;

/// Which of the six required headers the head lacks (RFC 1036, section 2.1). Names of headers are
/// compared without case.
pub fn missing(head: &Head<'_>) -> Missing
    ensures { result ≡ missing_of head.now }
{
    let mut missing = Missing {
        from: true,
        date: true,
        newsgroups: true,
        subject: true,
        message_id: true,
        path: true,
    };
    let mut headers = head.headers();
    while let Some(header) = headers.next() {
        missing = without(missing, &header);
    }
    missing
}

/// What is still missing beside this header.
fn without(missing: Missing, header: &Header<'_>) -> Missing
    ensures from { result.from ≡ (missing.from && not (is_named (codes "From") header.now)) }
    ensures date { result.date ≡ (missing.date && not (is_named (codes "Date") header.now)) }
    ensures newsgroups { result.newsgroups ≡ (missing.newsgroups && not (is_named (codes "Newsgroups") header.now)) }
    ensures subject { result.subject ≡ (missing.subject && not (is_named (codes "Subject") header.now)) }
    ensures message_id { result.message_id ≡ (missing.message_id && not (is_named (codes "Message-ID") header.now)) }
    ensures path { result.path ≡ (missing.path && not (is_named (codes "Path") header.now)) }
{
    let name = header.name();
    Missing {
        from: missing.from && !is_same_word(name, b"From"),
        date: missing.date && !is_same_word(name, b"Date"),
        newsgroups: missing.newsgroups && !is_same_word(name, b"Newsgroups"),
        subject: missing.subject && !is_same_word(name, b"Subject"),
        message_id: missing.message_id && !is_same_word(name, b"Message-ID"),
        path: missing.path && !is_same_word(name, b"Path"),
    }
}
