//! Runs over captures with HDR of Message-ID, where overviews are judged (RFC 3977, section 8.5), and where they are opaque.
use crate::several::Captured;
use crate::tasks::{CHECK, CHECK_OVERVIEW, EXPLAIN, EXPLAIN_OVERVIEW, VERIFY, VERIFY_OVERVIEW};
use nntp_check::Task;

/// The ids of 1 to 3 leave number 2 out, and then it is there.
const LEFT_OUT: &[u8] =
    b"client 37\nGROUP g\r\nHDR Message-ID 1-3\r\nSTAT 2\r\nserver 62\n200 hi\r\n211 5 1 5 g\r\n225 h\r\n1 <a@x>\r\n3 <c@x>\r\n.\r\n\
    223 2 <b@x>\r\n";

/// The ids of 1 to 3, and a spool that has them.
const THERE: &[u8] =
    b"client 29\nGROUP g\r\nHDR Message-ID 1-3\r\nserver 49\n200 hi\r\n211 5 1 5 g\r\n225 h\r\n1 <a@x>\r\n3 <c@x>\r\n.\r\n\
    spool 102\nspool 1\ngroup g 2\n1 <a@x>\n3 <c@x>\narticle <a@x> 1 0\n|Subject: one\narticle <c@x> 1 0\n|Subject: two\nend\n";

/// The same with a spool that has number 2 too.
const NOT_ALL: &[u8] =
    b"client 29\nGROUP g\r\nHDR Message-ID 1-3\r\nserver 49\n200 hi\r\n211 5 1 5 g\r\n225 h\r\n1 <a@x>\r\n3 <c@x>\r\n.\r\n\
    spool 134\nspool 1\ngroup g 3\n1 <a@x>\n2 <b@x>\n3 <c@x>\narticle <a@x> 1 0\n|X: y\narticle <b@x> 1 0\n|Subject: two\n\
    article <c@x> 1 0\n|Subject: one\nend\n";

/// A TAB between a number and its id.
const TAB: &[u8] =
    b"client 27\nGROUP g\r\nHDR Message-ID 1\r\nserver 40\n200 hi\r\n211 5 1 5 g\r\n225 h\r\n1\t<a@x>\r\n.\r\n";

pub(crate) const LISTED_IDS: &[Captured] = &[
    Captured {
        name: "a number whose id is left out",
        task: CHECK,
        capture: LEFT_OUT,
        report: b"consistent answers=4 groups=1 numbers=1 articles=1\nspool 1\ngroup g 1\n2 <b@x>\narticle <b@x> 1 0\n|Message-ID: <b@x>\n\
            end\n",
        answer: true,
    },
    Captured {
        name: "a number whose id is left out",
        task: CHECK_OVERVIEW,
        capture: LEFT_OUT,
        report: b"bad answer 3 Contradiction\ncommand STAT 2\nanswer 223 2 <b@x>\n",
        answer: false,
    },
    Captured {
        name: "a number whose id is left out",
        task: Task::Show,
        capture: LEFT_OUT,
        report: b"0 greeting -> 200 hi\n1 GROUP g -> 211 5 1 5 g\n  group g\n2 HDR Message-ID 1-3 -> 225 h\n3 STAT 2 -> 223 2 <b@x>\n\
            end answers=4 unanswered=0\n",
        answer: true,
    },
    Captured {
        name: "a number whose id is left out",
        task: EXPLAIN,
        capture: LEFT_OUT,
        report: b"end answers=4 bad=0 unanswered=0\n",
        answer: true,
    },
    Captured {
        name: "a number whose id is left out",
        task: EXPLAIN_OVERVIEW,
        capture: LEFT_OUT,
        report: b"bad answer 3 Contradiction\ncommand STAT 2\nanswer 223 2 <b@x>\nin g since 1 at first\nabout number g 2\n\
            says number g 2 is <b@x>\nbecause answer 2\ncommand HDR Message-ID 1-3\nanswer 225 h\nin g since 1 at first\n\
            says numbers g 1-3 are 2 without 2\nend answers=4 bad=1 unanswered=0\n",
        answer: false,
    },
    Captured {
        name: "ids that are there",
        task: CHECK_OVERVIEW,
        capture: THERE,
        report: b"consistent answers=3 groups=1 numbers=2 articles=2\nspool 1\ngroup g 2\n1 <a@x>\n3 <c@x>\narticle <a@x> 1 0\n\
            |Message-ID: <a@x>\narticle <c@x> 1 0\n|Message-ID: <c@x>\nend\n",
        answer: true,
    },
    Captured {
        name: "ids that are there",
        task: VERIFY_OVERVIEW,
        capture: THERE,
        report: b"permits answers=3\n",
        answer: true,
    },
    Captured {
        name: "ids that are not all",
        task: VERIFY,
        capture: NOT_ALL,
        report: b"permits answers=3\n",
        answer: true,
    },
    Captured {
        name: "ids that are not all",
        task: VERIFY_OVERVIEW,
        capture: NOT_ALL,
        report: b"refuses answer 2\n",
        answer: false,
    },
    Captured {
        name: "a TAB before an id",
        task: CHECK_OVERVIEW,
        capture: TAB,
        report: b"bad answer 2 Malformed\ncommand HDR Message-ID 1\nanswer 225 h\n",
        answer: false,
    },
    Captured {
        name: "a TAB before an id",
        task: EXPLAIN_OVERVIEW,
        capture: TAB,
        report: b"bad answer 2 Malformed\ncommand HDR Message-ID 1\nanswer 225 h\nin g since 1 at first\nwhy block line 1 id\n\
            end answers=3 bad=1 unanswered=0\n",
        answer: false,
    },
];

#[test]
fn captures_of_listed_ids_cut_at_every_octet(rt: HostRuntime) {
    for captured in LISTED_IDS {
        captured.run().cut_everywhere(&rt, rt.alloc());
    }
}
