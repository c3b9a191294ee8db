//! Which overviews a spool explains: those that tell what its articles do of four headers, or nothing but their ids.
use nntp_spool::{Spool, Verified, verify_taking};
use nntp_wire::{Marks, Overviews};
use std::alloc::{AllocError, Global};

/// A group of two articles: one has all four headers, two of which are folded, and a second Subject; the other has
/// none of them.
const SPOOL: &str = "spool 1\ngroup g 2\n1 <a@b>\n3 <c@d>\n\
    article <a@b> 8 1\n|Path: p\n|Subject: one\n|\ttwo\n|from: A <a@x>\n|Date:1 Jan 2000\n|References: <r@x>\n| <s@x>\n|Subject: three\n|four\n\
    article <c@d> 1 1\n|Path: p\n|Subject: five\nend\n";

/// A command in the group, what is sent for it, and whether the spool explains that.
type Row = (&'static str, &'static str, bool);

/// The overview of the first article.
const FIRST: &[Row] = &[
    (
        "OVER <a@b>",
        "0\tone two\tA <a@x>\t1 Jan 2000\t<a@b>\t<r@x> <s@x>\r\n",
        true,
    ),
    // At its number, with more blanks and more fields.
    (
        "XOVER",
        "1\t one   two\tA  <a@x> \t1 Jan 2000\t<a@b>\t<r@x>  <s@x>\t10\t1\tXref: x\r\n",
        true,
    ),
    // The second Subject, both, the first line of the first alone, nothing, upper case, a longer word, and words in another order.
    (
        "OVER <a@b>",
        "0\tthree\tA <a@x>\t1 Jan 2000\t<a@b>\t<r@x> <s@x>\r\n",
        false,
    ),
    (
        "OVER <a@b>",
        "0\tone two three\tA <a@x>\t1 Jan 2000\t<a@b>\t<r@x> <s@x>\r\n",
        false,
    ),
    (
        "OVER <a@b>",
        "0\tone\tA <a@x>\t1 Jan 2000\t<a@b>\t<r@x> <s@x>\r\n",
        false,
    ),
    (
        "OVER <a@b>",
        "0\t\tA <a@x>\t1 Jan 2000\t<a@b>\t<r@x> <s@x>\r\n",
        false,
    ),
    (
        "OVER <a@b>",
        "0\tOne two\tA <a@x>\t1 Jan 2000\t<a@b>\t<r@x> <s@x>\r\n",
        false,
    ),
    (
        "OVER <a@b>",
        "0\tone twos\tA <a@x>\t1 Jan 2000\t<a@b>\t<r@x> <s@x>\r\n",
        false,
    ),
    (
        "OVER <a@b>",
        "0\ttwo one\tA <a@x>\t1 Jan 2000\t<a@b>\t<r@x> <s@x>\r\n",
        false,
    ),
    // Another From, and another Date.
    (
        "OVER <a@b>",
        "0\tone two\tA <b@x>\t1 Jan 2000\t<a@b>\t<r@x> <s@x>\r\n",
        false,
    ),
    (
        "OVER <a@b>",
        "0\tone two\tA <a@x>\t2 Jan 2000\t<a@b>\t<r@x> <s@x>\r\n",
        false,
    ),
    // Not all of References, too much, and no such field.
    (
        "OVER <a@b>",
        "0\tone two\tA <a@x>\t1 Jan 2000\t<a@b>\t<r@x>\r\n",
        false,
    ),
    (
        "OVER <a@b>",
        "0\tone two\tA <a@x>\t1 Jan 2000\t<a@b>\t<r@x> <s@x> <t@x>\r\n",
        false,
    ),
    (
        "OVER <a@b>",
        "0\tone two\tA <a@x>\t1 Jan 2000\t<a@b>\r\n",
        false,
    ),
    // The current article, at another number.
    (
        "OVER",
        "3\tone two\tA <a@x>\t1 Jan 2000\t<a@b>\t<r@x> <s@x>\r\n",
        false,
    ),
];

/// The overview of the second article, and that of one that the spool hasn't.
const SECOND: &[Row] = &[
    ("OVER <c@d>", "0\t\t\t\t<c@d>\r\n", true),
    ("OVER <c@d>", "3\t \t\t\t<c@d>\t\t10\r\n", true),
    // A line of the body is no header.
    ("OVER <c@d>", "0\tfive\t\t\t<c@d>\r\n", false),
    ("OVER <c@d>", "0\t\tf\t\t<c@d>\r\n", false),
    ("OVER <c@d>", "0\t\t\td\t<c@d>\r\n", false),
    ("OVER <c@d>", "0\t\t\t\t<c@d>\t<r@x>\r\n", false),
    ("OVER <e@f>", "0\t\t\t\t<e@f>\r\n", false),
];

/// The overviews of ranges.
const RANGES: &[Row] = &[
    (
        "XOVER 1-",
        "1\tone two\tA <a@x>\t1 Jan 2000\t<a@b>\t<r@x> <s@x>\r\n3\t\t\t\t<c@d>\r\n",
        true,
    ),
    // The first, the last, or neither tells what its article does.
    (
        "XOVER 1-",
        "1\tone two\tA <a@x>\t1 Jan 2000\t<a@b>\t<r@x> <s@x>\r\n3\tfive\t\t\t<c@d>\r\n",
        false,
    ),
    (
        "XOVER 1-",
        "1\tthree\tA <a@x>\t1 Jan 2000\t<a@b>\t<r@x> <s@x>\r\n3\t\t\t\t<c@d>\r\n",
        false,
    ),
    (
        "OVER 1-3",
        "1\t\t\t\t<a@b>\r\n3\tone two\tA <a@x>\t1 Jan 2000\t<c@d>\t<r@x> <s@x>\r\n",
        false,
    ),
    ("OVER 2-3", "3\t\t\t\t<c@d>\r\n", true),
    ("OVER 2-3", "3\t\tf\t\t<c@d>\r\n", false),
    // Both tell it, of each other's numbers.
    (
        "OVER 1-3",
        "1\t\t\t\t<c@d>\r\n3\tone two\tA <a@x>\t1 Jan 2000\t<a@b>\t<r@x> <s@x>\r\n",
        false,
    ),
];

/// The ids of ranges, of which nothing else is told.
const IDS: &[Row] = &[
    ("HDR Message-ID 1-3", "1 <a@b>\r\n3 <c@d>\r\n", true),
    ("XHDR Message-ID 1-", "1 <a@b>\r\n03  <c@d>\r\n", true),
    ("HDR Message-ID 2-", "3 <c@d>\r\n", true),
    ("XHDR Message-ID 2", "", true),
    // One number is left out, or all are.
    ("HDR Message-ID 1-3", "1 <a@b>\r\n", false),
    ("HDR Message-ID 1-3", "3 <c@d>\r\n", false),
    ("XHDR Message-ID 1-3", "", false),
    // A number that the group hasn't, with an id that has an article, and with one that has none.
    ("HDR Message-ID 2-3", "2 <a@b>\r\n3 <c@d>\r\n", false),
    ("XHDR Message-ID 2", "2 <e@f>\r\n", false),
    // Each other's ids, and another one.
    ("HDR Message-ID 1-3", "1 <c@d>\r\n3 <a@b>\r\n", false),
    ("XHDR Message-ID 3", "3 <e@f>\r\n", false),
];

/// The code by which what is sent for the command begins.
fn code_of(line: &str) -> u64 {
    if line.starts_with("HDR") {
        225
    } else if line.starts_with("XHDR") {
        221
    } else {
        224
    }
}

/// Verifies the answer behind the selection of the group.
fn verified(
    alloc: Global,
    spool: &Spool,
    taken: Overviews,
    line: &str,
    sent: &str,
) -> Result<Verified, AllocError> {
    let client = format!(in alloc; "GROUP g\r\n{line}\r\n")?;
    let code = code_of(line);
    let server = format!(in alloc; "200 hi\r\n211 2 1 3 g\r\n{code} x\r\n{sent}.\r\n")?;
    verify_taking(
        alloc,
        Marks::Lenient,
        spool,
        taken,
        client.as_bytes(),
        server.as_bytes(),
    )
}

/// What is wrong with a row, if it is.
fn fault(alloc: Global, &(line, sent, is_explained): &Row) -> Option<&'static str> {
    let Ok(spool) = Spool::read(alloc, SPOOL.as_bytes()) else {
        return Some("no spool");
    };
    let judged = match is_explained {
        true => Verified::Permits { answers: 3 },
        false => Verified::Refuses { index: 2 },
    };
    if verified(alloc, &spool, Overviews::Judged, line, sent) != Ok(judged) {
        return Some("judged otherwise");
    }
    let opaque = Verified::Permits { answers: 3 };
    if verified(alloc, &spool, Overviews::Opaque, line, sent) != Ok(opaque) {
        return Some("looked at where opaque");
    }
    None
}

#[test]
fn overviews_tell_what_their_articles_do(rt: HostRuntime) {
    for rows in [FIRST, SECOND, RANGES, IDS] {
        for row in rows {
            let fault = fault(rt.alloc(), row);
            assert!(rt; fault.is_none(), "{fault:?}: {row:?}");
        }
    }
}
