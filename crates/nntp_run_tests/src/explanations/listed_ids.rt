//! What `explain` prints of HDR and XHDR of Message-ID, where overviews are judged.
use crate::explanations::several::{Told, expect_reports};
use nntp_check::Overviews;
use std::test::Fail;

/// Commands, of which GROUP and QUIT alone are answered by what fits.
const MISFITS: &[Told] = &[Told {
    sessions: &[(
        b"",
        b"HDR Message-ID 1-3\r\nGROUP g\r\nHDR Message-ID 2-4\r\nXHDR Message-ID 2-4\r\nHDR Message-ID 1-3\r\nHDR Message-ID 1-3\r\n\
        XHDR Message-ID 1-3\r\nXHDR Message-ID 0-\r\nHDR Message-ID 1-3\r\nHDR Message-ID 1-3\r\nXHDR Message-ID 1-3\r\n\
        HDR Message-ID 1-3\r\nQUIT\r\n",
        b"200 hi\r\n225 h\r\n1 <a@x>\r\n.\r\n211 5 1 5 g\r\n420 no\r\n430 no\r\n225 h\r\n.\r\n225 h\r\n3 <c@x>\r\n1 <a@x>\r\n.\r\n\
        221 h\r\n4 <d@x>\r\n.\r\n221 h\r\n0 <a@x>\r\n.\r\n225 h\r\n1 <a@x>\r\n3 <a@x>\r\n.\r\n225 h\r\nx <a@x>\r\n.\r\n\
        221 h\r\n1 <a@x>\r\n3\t<c@x>\r\n.\r\n221 h\r\n1 <a@x>\r\n.\r\n205 bye\r\n",
    )],
    report: "session 1\nbad answer 1 OutOfPlace\ncommand HDR Message-ID 1-3\nanswer 225 h\nin no group\nwhy code 225 allowed 412\n\
        bad answer 3 OutOfPlace\ncommand HDR Message-ID 2-4\nanswer 420 no\nin g since 2 at first\nwhy code 420 allowed 225 423\n\
        bad answer 4 OutOfPlace\ncommand XHDR Message-ID 2-4\nanswer 430 no\nin g since 2 at first\nwhy code 430 allowed 221 420 423\n\
        bad answer 5 OutOfPlace\ncommand HDR Message-ID 1-3\nanswer 225 h\nin g since 2 at first\nwhy lines\n\
        bad answer 6 OutOfPlace\ncommand HDR Message-ID 1-3\nanswer 225 h\nin g since 2 at first\nwhy order 3 1\n\
        bad answer 7 OutOfPlace\ncommand XHDR Message-ID 1-3\nanswer 221 h\nin g since 2 at first\nwhy range 4\n\
        bad answer 8 OutOfPlace\ncommand XHDR Message-ID 0-\nanswer 221 h\nin g since 2 at first\nwhy limit 0\n\
        bad answer 9 OutOfPlace\ncommand HDR Message-ID 1-3\nanswer 225 h\nin g since 2 at first\nwhy twice <a@x>\n\
        bad answer 10 Malformed\ncommand HDR Message-ID 1-3\nanswer 225 h\nin g since 2 at first\nwhy block line 1 number\n\
        bad answer 11 Malformed\ncommand XHDR Message-ID 1-3\nanswer 221 h\nin g since 2 at first\nwhy block line 2 id\n\
        bad answer 12 OutOfPlace\ncommand HDR Message-ID 1-3\nanswer 221 h\nin g since 2 at first\nwhy code 221 allowed 225 423\n\
        end sessions=1 answers=14 bad=11 unanswered=0\n",
}];

#[test]
fn lists_of_ids_that_do_not_fit(rt: HostRuntime) -> Result<(), Fail> {
    Ok(expect_reports(&rt, rt.alloc(), Overviews::Judged, MISFITS)?)
}

const CONFLICTS: &[Told] = &[
    // A number that is left out.
    Told {
        sessions: &[(
            b"",
            b"GROUP g\r\nHDR Message-ID 1-3\r\nSTAT 2\r\n",
            b"200 hi\r\n211 5 1 5 g\r\n225 h\r\n1 <a@x>\r\n3 <c@x>\r\n.\r\n223 2 <b@x>\r\n",
        )],
        report: "session 1\nbad answer 3 Contradiction\ncommand STAT 2\nanswer 223 2 <b@x>\nin g since 1 at first\n\
            about number g 2\nsays number g 2 is <b@x>\n\
            because answer 2\ncommand HDR Message-ID 1-3\nanswer 225 h\nin g since 1 at first\nsays numbers g 1-3 are 2 without 2\n\
            end sessions=1 answers=4 bad=1 unanswered=0\n",
    },
    // No number at all, and then one.
    Told {
        sessions: &[(
            b"",
            b"GROUP g\r\nXHDR Message-ID 1\r\nSTAT 1\r\n",
            b"200 hi\r\n211 5 1 5 g\r\n221 h\r\n.\r\n223 1 <a@x>\r\n",
        )],
        report: "session 1\nbad answer 3 Contradiction\ncommand STAT 1\nanswer 223 1 <a@x>\nin g since 1 at first\n\
            about number g 1\nsays number g 1 is <a@x>\n\
            because answer 2\ncommand XHDR Message-ID 1\nanswer 221 h\nin g since 1 at first\nsays numbers g 1-1 are 0 without 1\n\
            end sessions=1 answers=4 bad=1 unanswered=0\n",
    },
    // The same by 423, behind the number.
    Told {
        sessions: &[(
            b"",
            b"GROUP g\r\nSTAT 3\r\nHDR message-id 2-\r\n",
            b"200 hi\r\n211 5 1 5 g\r\n223 3 <c@x>\r\n423 no\r\n",
        )],
        report: "session 1\nbad answer 3 Contradiction\ncommand HDR message-id 2-\nanswer 423 no\nin g since 1 at 3 since 2\n\
            about number g 3\nsays numbers g 2- are 0 without 3\n\
            because answer 2\ncommand STAT 3\nanswer 223 3 <c@x>\nin g since 1 at first\nsays number g 3 is <c@x>\n\
            end sessions=1 answers=4 bad=1 unanswered=0\n",
    },
    // Another id.
    Told {
        sessions: &[(
            b"",
            b"GROUP g\r\nXHDR message-id 1\r\nSTAT 1\r\n",
            b"200 hi\r\n211 5 1 5 g\r\n221 h\r\n1 <a@x>\r\n.\r\n223 1 <b@x>\r\n",
        )],
        report: "session 1\nbad answer 3 Contradiction\ncommand STAT 1\nanswer 223 1 <b@x>\nin g since 1 at first\n\
            about id g 1\nsays number g 1 is <b@x>\n\
            because answer 2\ncommand XHDR message-id 1\nanswer 221 h\nin g since 1 at first\nsays number g 1 is <a@x>\n\
            end sessions=1 answers=4 bad=1 unanswered=0\n",
    },
    // More numbers than the group has.
    Told {
        sessions: &[(
            b"",
            b"GROUP g\r\nHDR Message-ID 1-4\r\n",
            b"200 hi\r\n211 3 1 4 g\r\n225 h\r\n1 <a@x>\r\n2 <b@x>\r\n3 <c@x>\r\n4 <d@x>\r\n.\r\n",
        )],
        report: "session 1\nbad answer 2 Contradiction\ncommand HDR Message-ID 1-4\nanswer 225 h\nin g since 1 at first\n\
            about count g\nsays numbers g 1-4 are 4\n\
            because answer 1\ncommand GROUP g\nanswer 211 3 1 4 g\nin no group\nsays numbers g at most 3 within 1-4\n\
            end sessions=1 answers=3 bad=1 unanswered=0\n",
    },
    // An id at another number, and one that is denied.
    Told {
        sessions: &[(
            b"",
            b"STAT <a@x>\r\nGROUP g\r\nHDR Message-ID 1\r\nSTAT 4\r\nXHDR Message-ID 2-3\r\n",
            b"200 hi\r\n430 no\r\n211 5 1 5 g\r\n225 h\r\n1 <a@x>\r\n.\r\n223 4 <c@x>\r\n221 h\r\n3 <c@x>\r\n.\r\n",
        )],
        report: "session 1\nbad answer 3 Contradiction\ncommand HDR Message-ID 1\nanswer 225 h\nin g since 2 at first\n\
            about article <a@x>\nsays number g 1 is <a@x>\n\
            because answer 1\ncommand STAT <a@x>\nanswer 430 no\nin no group\nsays no article <a@x>\n\
            bad answer 5 Contradiction\ncommand XHDR Message-ID 2-3\nanswer 221 h\nin g since 2 at 4 since 4\n\
            about place g <c@x>\nsays number g 3 is <c@x>\n\
            because answer 4\ncommand STAT 4\nanswer 223 4 <c@x>\nin g since 2 at first\nsays number g 4 is <c@x>\n\
            end sessions=1 answers=6 bad=2 unanswered=0\n",
    },
    // The id of an article, which tells nothing of a header; in another session the overview that does, and then a head.
    Told {
        sessions: &[
            (
                b"first",
                b"GROUP g\r\nHDR Message-ID 1\r\n",
                b"200 hi\r\n211 5 1 5 g\r\n225 h\r\n1 <a@x>\r\n.\r\n",
            ),
            (
                b"second",
                b"GROUP g\r\nXOVER 1\r\nHEAD 1\r\nXHDR Message-ID 1\r\n",
                b"200 hi\r\n211 5 1 5 g\r\n224 ov\r\n1\tone\tf\td\t<a@x>\r\n.\r\n221 1 <a@x>\r\nSubject: two\r\nFrom: f\r\nDate: d\r\n.\r\n\
                221 h\r\n1 <b@x>\r\n.\r\n",
            ),
        ],
        report: "session 2 second\nbad answer 3 Contradiction\ncommand HEAD 1\nanswer 221 1 <a@x>\nin g since 1 at first\n\
            about field <a@x> Subject\nsays field <a@x> Subject is two\n\
            because answer 2\ncommand XOVER 1\nanswer 224 ov\nin g since 1 at first\nsays field <a@x> Subject is one\n\
            bad answer 4 Contradiction\ncommand XHDR Message-ID 1\nanswer 221 h\nin g since 1 at first\n\
            about id g 1\nsays number g 1 is <b@x>\n\
            because answer 2 of session 1\ncommand HDR Message-ID 1\nanswer 225 h\nin g since 1 at first\nsays number g 1 is <a@x>\n\
            end sessions=2 answers=8 bad=2 unanswered=0\n",
    },
];

#[test]
fn ids_that_no_spool_has(rt: HostRuntime) -> Result<(), Fail> {
    Ok(expect_reports(&rt, rt.alloc(), Overviews::Judged, CONFLICTS)?)
}
