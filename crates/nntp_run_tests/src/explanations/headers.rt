//! What `explain` prints of overviews and heads that tell other words of a header, where OVER and XOVER are judged.
use crate::explanations::several::{Told, expect_report, expect_reports};
use nntp_check::Overviews;
use std::alloc::{AllocError, Global};
use std::test::Fail;

const TOLD: &[Told] = &[
    // A From that the overview has in quotes.
    Told {
        sessions: &[(
            b"",
            b"GROUP g\r\nXOVER 1\r\nHEAD 1\r\n",
            b"200 hi\r\n211 5 1 5 g\r\n224 ov\r\n1\ts\t\"A\" <f@x>\td\t<a@x>\t\t10\t1\r\n.\r\n\
            221 1 <a@x>\r\nSubject: s\r\nFrom: A <f@x>\r\nDate: d\r\n.\r\n",
        )],
        report: "session 1\nbad answer 3 Contradiction\ncommand HEAD 1\nanswer 221 1 <a@x>\nin g since 1 at first\n\
            about field <a@x> From\nsays field <a@x> From is A <f@x>\n\
            because answer 2\ncommand XOVER 1\nanswer 224 ov\nin g since 1 at first\nsays field <a@x> From is \"A\" <f@x>\n\
            end sessions=1 answers=4 bad=1 unanswered=0\n",
    },
    // An overview that ends behind the id, and References in the head.
    Told {
        sessions: &[(
            b"",
            b"GROUP g\r\nXOVER 1\r\nHEAD 1\r\n",
            b"200 hi\r\n211 5 1 5 g\r\n224 ov\r\n1\ts\tf\td\t<a@x>\r\n.\r\n\
            221 1 <a@x>\r\nSubject: s\r\nFrom: f\r\nDate: d\r\nReferences: <r@x>\r\n.\r\n",
        )],
        report: "session 1\nbad answer 3 Contradiction\ncommand HEAD 1\nanswer 221 1 <a@x>\nin g since 1 at first\n\
            about field <a@x> References\nsays field <a@x> References is <r@x>\n\
            because answer 2\ncommand XOVER 1\nanswer 224 ov\nin g since 1 at first\nsays field <a@x> References is missing\n\
            end sessions=1 answers=4 bad=1 unanswered=0\n",
    },
    // An id in two groups, of which the overviews have two Subjects; in each list another overview stands before it.
    Told {
        sessions: &[(
            b"",
            b"GROUP g\r\nXOVER 1-2\r\nGROUP h\r\nXOVER 6-7\r\n",
            b"200 hi\r\n211 5 1 5 g\r\n224 ov\r\n1\tp\tf\td\t<p@x>\r\n2\tone\tf\td\t<a@x>\r\n.\r\n\
            211 5 5 9 h\r\n224 ov\r\n6\tq\tf\td\t<q@x>\r\n7\ttwo\tf\td\t<a@x>\r\n.\r\n",
        )],
        report: "session 1\nbad answer 4 Contradiction\ncommand XOVER 6-7\nanswer 224 ov\nin h since 3 at first\n\
            about field <a@x> Subject\nsays field <a@x> Subject is two\n\
            because answer 2\ncommand XOVER 1-2\nanswer 224 ov\nin g since 1 at first\nsays field <a@x> Subject is one\n\
            end sessions=1 answers=5 bad=1 unanswered=0\n",
    },
    // Words of lines that continue a header, and other octets; the overview of an id alone, that names it no number.
    Told {
        sessions: &[(
            b"",
            b"HEAD <a@x>\r\nOVER <a@x>\r\n",
            b"200 hi\r\n221 0 <a@x>\r\nSubject: one  two\r\n\tthree \\\r\nFrom: f\r\nDate: d\r\n.\r\n\
            224 ov\r\n0\tone two thr\xE9\tf\td\t<a@x>\t\t10\t1\r\n.\r\n",
        )],
        report: "session 1\nbad answer 2 Contradiction\ncommand OVER <a@x>\nanswer 224 ov\nin no group\n\
            about field <a@x> Subject\nsays field <a@x> Subject is one two thr\\xe9\n\
            because answer 1\ncommand HEAD <a@x>\nanswer 221 0 <a@x>\nin no group\nsays field <a@x> Subject is one two three \\\\\n\
            end sessions=1 answers=3 bad=1 unanswered=0\n",
    },
    // A Date of an article that is sent whole, and of the overview of the current article, in another session; and an id
    // that an overview showed, denied there.
    Told {
        sessions: &[
            (
                b"first",
                b"GROUP g\r\nSTAT 3\r\nXOVER\r\n",
                b"200 hi\r\n211 5 1 5 g\r\n223 3 <c@x>\r\n224 ov\r\n3\ts\tf\td\t<c@x>\t\t10\t1\r\n.\r\n",
            ),
            (
                b"second",
                b"ARTICLE <c@x>\r\nOVER <e@x>\r\nOVER <e@x>\r\n",
                b"200 hi\r\n220 0 <c@x>\r\nSubject: s\r\nFrom: f\r\nDate: e\r\n\r\nDate: d\r\n.\r\n\
                224 ov\r\n0\ts\tf\td\t<e@x>\r\n.\r\n430 no\r\n",
            ),
        ],
        report: "session 2 second\nbad answer 1 Contradiction\ncommand ARTICLE <c@x>\nanswer 220 0 <c@x>\nin no group\n\
            about field <c@x> Date\nsays field <c@x> Date is e\n\
            because answer 3 of session 1\ncommand XOVER\nanswer 224 ov\nin g since 1 at 3 since 2\nsays field <c@x> Date is d\n\
            bad answer 3 Contradiction\ncommand OVER <e@x>\nanswer 430 no\nin no group\n\
            about article <e@x>\nsays no article <e@x>\n\
            because answer 2\ncommand OVER <e@x>\nanswer 224 ov\nin no group\nsays article <e@x>\n\
            end sessions=2 answers=8 bad=2 unanswered=0\n",
    },
];

#[test]
fn overviews_and_heads_that_tell_other_words(rt: HostRuntime) -> Result<(), Fail> {
    Ok(expect_reports(&rt, rt.alloc(), Overviews::Judged, TOLD)?)
}

/// What the server sends of a Subject of one word, and of one of so many words of ten letters.
fn many_words(alloc: Global, words: u64) -> Result<String, AllocError> {
    let mut server = String::from_str(
        alloc,
        "200 hi\r\n221 0 <a@x>\r\nSubject: s\r\nFrom: f\r\nDate: d\r\n.\r\n224 ov\r\n0\t",
    )?;
    for _ in 0..words {
        server.push_str("abcdefghij ")?;
    }
    server.push_str("\tf\td\t<a@x>\r\n.\r\n")?;
    Ok(server)
}

/// What is printed of it: 46 of the words, and six letters of the next, are 512 octets.
fn first_words_told(alloc: Global) -> Result<String, AllocError> {
    let mut report = String::from_str(
        alloc,
        "session 1\nbad answer 2 Contradiction\ncommand OVER <a@x>\nanswer 224 ov\nin no group\nabout field <a@x> Subject\n\
        says field <a@x> Subject is ",
    )?;
    for _ in 0..46 {
        report.push_str("abcdefghij ")?;
    }
    report.push_str(
        "abcdef\nbecause answer 1\ncommand HEAD <a@x>\nanswer 221 0 <a@x>\nin no group\nsays field <a@x> Subject is s\n\
        end sessions=1 answers=3 bad=1 unanswered=0\n",
    )?;
    Ok(report)
}

#[test]
fn the_first_octets_of_many_words(rt: HostRuntime) -> Result<(), Fail> {
    let alloc = rt.alloc();
    let server = many_words(alloc, 60)?;
    let report = first_words_told(alloc)?;
    let client = b"HEAD <a@x>\r\nOVER <a@x>\r\n".as_slice();
    let sessions = [(b"".as_slice(), client, server.as_bytes())];
    Ok(expect_report(&rt, alloc, Overviews::Judged, &sessions, report.as_str())?)
}
