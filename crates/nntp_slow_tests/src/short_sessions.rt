//! Short sessions in a group, put to a few spools: of each, `verify` has to answer as the slow judge does.
use crate::given_spools::put_to_both;
use nntp_spool::Verified;
use nntp_wire::Marks;
use std::alloc::{AllocError, Global};
use std::process::Abort;
use std::test::Fail;

/// A command and its answer. `/` stands between lines, `$` for one number and `#` for another; the id at the number 4 is
/// `<4@x>`.
type Exchange = (&'static str, &'static str);

/// The numbers of a spool's group g.
const GROUPS: [&[u64]; 3] = [&[1, 6], &[1, 2, 4, 6], &[1, 3, 4, 5, 6]];

/// What is said of the group.
const SELECTED: Exchange = ("GROUP g", "211 6 1 6 g");

/// What is said of a number then.
const NUMBERS: [Exchange; 2] = [("STAT $", "223 $ <$@x>"), ("STAT $", "423 no")];

/// What is said behind both.
const EXCHANGES: [Exchange; 26] = [
    ("NEXT", "223 # <#@x>"),
    ("NEXT", "421 no"),
    ("NEXT", "420 no"),
    ("LAST", "223 # <#@x>"),
    ("LAST", "422 no"),
    ("LAST", "420 no"),
    ("STAT", "223 # <#@x>"),
    ("STAT", "420 no"),
    ("STAT #", "223 # <#@x>"),
    ("STAT #", "223 # <4@x>"),
    ("STAT #", "423 no"),
    ("STAT <#@x>", "223 0 <#@x>"),
    ("STAT <#@x>", "223 # <#@x>"),
    ("STAT <#@x>", "430 no"),
    ("HEAD #", "221 # <#@x>/Subject: #/."),
    ("HEAD #", "221 # <#@x>/Subject: 4/."),
    ("BODY <#@x>", "222 0 <#@x>/text #/."),
    ("ARTICLE", "220 # <#@x>/Subject: #//text #/."),
    ("LISTGROUP g #-", "211 6 1 6 g/4/6/."),
    ("LISTGROUP g 1-#", "211 6 1 6 g/1/2/."),
    ("LISTGROUP g #", "211 6 1 6 g/#/."),
    ("GROUP g", "211 # 1 6 g"),
    ("GROUP g", "211 6 1 7 g"),
    ("GROUP h", "411 no"),
    ("LIST", "215 list/g # 1 y/."),
    ("LIST ACTIVE h", "215 list/."),
];

/// What is said at the end.
const LAST: Exchange = ("STAT", "223 # <#@x>");

/// Adds lines to a stream.
fn put_lines(
    alloc: Global,
    stream: &mut Vec<u8>,
    lines: &str,
    (from, number): (u64, u64),
) -> Result<(), AllocError> {
    for octet in lines.as_bytes() {
        match *octet {
            b'/' => stream.extend_from_slice(b"\r\n")?,
            b'$' => stream.extend_from_slice(format!(in alloc; "{from}")?.as_bytes())?,
            b'#' => stream.extend_from_slice(format!(in alloc; "{number}")?.as_bytes())?,
            other => stream.push(other)?,
        }
    }
    stream.extend_from_slice(b"\r\n")
}

/// The text of the spool that has a group g with these numbers.
fn text(alloc: Global, numbers: &[u64]) -> Result<String, AllocError> {
    let mut text = format!(in alloc; "spool 1\ngroup g {}\n", numbers.len())?;
    let mut articles = String::new(alloc);
    for number in numbers {
        text.push_str(format!(in alloc; "{number} <{number}@x>\n")?.as_str())?;
        let article = format!(in alloc;
            "article <{number}@x> 1 1\n|Subject: {number}\n|text {number}\n"
        )?;
        articles.push_str(article.as_str())?;
    }
    text.push_str(articles.as_str())?;
    text.push_str("end\n")?;
    Ok(text)
}

/// How often a spool permits a session, and how often it doesn't.
#[derive(Clone, Copy)]
struct Counts {
    permitted: u64,
    refused: u64,
}

/// Puts a spool to a session of these exchanges.
fn put(
    alloc: Global,
    marks: Marks,
    text: &str,
    exchanges: &[Exchange],
    numbers: (u64, u64),
    counts: &mut Counts,
) -> Result<(), Fail> {
    let mut client = Vec::new(alloc);
    let mut server = Vec::from_slice(alloc, b"200 hi\r\n")?;
    for (command, answer) in exchanges {
        put_lines(alloc, &mut client, *command, numbers)?;
        put_lines(alloc, &mut server, *answer, numbers)?;
    }
    let name = format!(in alloc; "{marks:?}: {text}{}", server.escape_ascii())?;
    let octets = text.as_bytes();
    match put_to_both(alloc, name.as_str(), marks, octets, (&client, &server))? {
        Verified::Permits { .. } => counts.permitted = counts.permitted.saturating_add(1),
        Verified::Refuses { .. } => counts.refused = counts.refused.saturating_add(1),
    }
    Ok(())
}

/// Puts a spool to the sessions with this exchange behind each number.
fn put_behind(
    alloc: Global,
    marks: Marks,
    text: &str,
    exchange: Exchange,
    counts: &mut Counts,
) -> Result<(), Fail> {
    for first in NUMBERS {
        for from in [1, 2, 4, 6] {
            for number in 1..7 {
                let exchanges = [SELECTED, first, exchange, LAST];
                put(alloc, marks, text, &exchanges, (from, number), counts)?;
            }
        }
    }
    Ok(())
}

/// Puts each spool to all sessions.
fn put_all(rt: &impl Abort, alloc: Global, marks: Marks) -> Result<(), Fail> {
    let mut counts = Counts {
        permitted: 0,
        refused: 0,
    };
    for numbers in GROUPS {
        let text = text(alloc, numbers)?;
        for exchange in EXCHANGES {
            put_behind(alloc, marks, text.as_str(), exchange, &mut counts)?;
        }
    }
    assert!(rt; counts.permitted > 50, "{}", counts.permitted);
    assert!(rt; counts.refused > 100, "{}", counts.refused);
    Ok(())
}

#[test]
fn lenient_marks(rt: HostRuntime) -> Result<(), Fail> {
    put_all(&rt, rt.alloc(), Marks::Lenient)
}

#[test]
fn strict_marks(rt: HostRuntime) -> Result<(), Fail> {
    put_all(&rt, rt.alloc(), Marks::Strict)
}
