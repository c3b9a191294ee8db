//! Runs over captures with overviews, where OVER and XOVER are judged (RFC 3977, section 8.3; RFC 2980, section 2.8), and
//! where they are opaque.
use crate::several::Captured;
use crate::tasks::{
    CHECK, CHECK_OVERVIEW, CHECK_OVERVIEW_STRICTLY, CHECK_OVERVIEW_WIDE,
    CHECK_OVERVIEW_WIDE_AND_STRICT, CHECK_STRICTLY, CHECK_WIDE, EXPLAIN, EXPLAIN_OVERVIEW,
    EXPLAIN_OVERVIEW_STRICTLY, EXPLAIN_OVERVIEW_WIDE, EXPLAIN_STRICTLY, EXPLAIN_WIDE, VERIFY,
    VERIFY_OVERVIEW, VERIFY_OVERVIEW_STRICTLY, VERIFY_STRICTLY,
};
use nntp_check::Task;

/// The overviews of 1 to 3 leave number 2 out, and then it is there.
const LEFT_OUT: &[u8] =
    b"client 28\nGROUP g\r\nXOVER 1-3\r\nSTAT 2\r\nserver 78\n200 hi\r\n211 5 1 5 g\r\n224 x\r\n1\t\t\t\t<a@x>\t\t9\t1\r\n\
    3\t\t\t\t<c@x>\t\t9\t1\r\n.\r\n223 2 <b@x>\r\n";

/// The same with a spool of the numbers 1 to 3.
const LEFT_OUT_BUT_THERE: &[u8] =
    b"client 28\nGROUP g\r\nXOVER 1-3\r\nSTAT 2\r\nserver 78\n200 hi\r\n211 5 1 5 g\r\n224 x\r\n1\t\t\t\t<a@x>\t\t9\t1\r\n\
    3\t\t\t\t<c@x>\t\t9\t1\r\n.\r\n223 2 <b@x>\r\nspool 157\nspool 1\ngroup g 3\n1 <a@x>\n2 <b@x>\n3 <c@x>\n\
    article <a@x> 1 0\n|Message-ID: <a@x>\narticle <b@x> 1 0\n|Message-ID: <b@x>\narticle <c@x> 1 0\n|Message-ID: <c@x>\n\
    end\n";

/// The overviews of 1 to 3 leave number 2 out, and it is missing; 1 has the id of its overview.
const MISSING: &[u8] =
    b"client 36\nGROUP g\r\nXOVER 1-3\r\nSTAT 2\r\nSTAT 1\r\nserver 86\n200 hi\r\n211 5 1 5 g\r\n224 x\r\n1\t\t\t\t<a@x>\t\t9\t1\r\n\
    3\t\t\t\t<c@x>\t\t9\t1\r\n.\r\n423 no\r\n223 1 <a@x>\r\n";

/// The same with the spool that is given where overviews are judged.
const MISSING_AND_GIVEN: &[u8] =
    b"client 36\nGROUP g\r\nXOVER 1-3\r\nSTAT 2\r\nSTAT 1\r\nserver 86\n200 hi\r\n211 5 1 5 g\r\n224 x\r\n1\t\t\t\t<a@x>\t\t9\t1\r\n\
    3\t\t\t\t<c@x>\t\t9\t1\r\n.\r\n423 no\r\n223 1 <a@x>\r\nspool 112\nspool 1\ngroup g 2\n1 <a@x>\n3 <c@x>\n\
    article <a@x> 1 0\n|Message-ID: <a@x>\narticle <c@x> 1 0\n|Message-ID: <c@x>\nend\n";

/// The same with the spool that is given where they are opaque.
const MISSING_AND_LESS: &[u8] =
    b"client 36\nGROUP g\r\nXOVER 1-3\r\nSTAT 2\r\nSTAT 1\r\nserver 86\n200 hi\r\n211 5 1 5 g\r\n224 x\r\n1\t\t\t\t<a@x>\t\t9\t1\r\n\
    3\t\t\t\t<c@x>\t\t9\t1\r\n.\r\n423 no\r\n223 1 <a@x>\r\nspool 67\nspool 1\ngroup g 1\n1 <a@x>\narticle <a@x> 1 0\n\
    |Message-ID: <a@x>\nend\n";

/// Overviews in the first of two sessions, and in the second the number that they leave out.
const TWO: &[u8] =
    b"session 1\naclient 20\nGROUP g\r\nXOVER 1-3\r\nserver 65\n200 hi\r\n211 5 1 5 g\r\n224 x\r\n1\t\t\t\t<a@x>\t\t9\t1\r\n\
    3\t\t\t\t<c@x>\t\t9\t1\r\n.\r\nsession 1\nbclient 17\nGROUP g\r\nSTAT 2\r\nserver 34\n200 hi\r\n211 5 1 5 g\r\n\
    223 2 <b@x>\r\n";

/// The same two sessions in the other order.
const TWO_TURNED: &[u8] =
    b"session 1\nbclient 17\nGROUP g\r\nSTAT 2\r\nserver 34\n200 hi\r\n211 5 1 5 g\r\n223 2 <b@x>\r\nsession 1\n\
    aclient 20\nGROUP g\r\nXOVER 1-3\r\nserver 65\n200 hi\r\n211 5 1 5 g\r\n224 x\r\n1\t\t\t\t<a@x>\t\t9\t1\r\n\
    3\t\t\t\t<c@x>\t\t9\t1\r\n.\r\n";

/// The two sessions with a spool of number 2 alone.
const TWO_AND_A_SPOOL: &[u8] =
    b"session 1\naclient 20\nGROUP g\r\nXOVER 1-3\r\nserver 65\n200 hi\r\n211 5 1 5 g\r\n224 x\r\n1\t\t\t\t<a@x>\t\t9\t1\r\n\
    3\t\t\t\t<c@x>\t\t9\t1\r\n.\r\nsession 1\nbclient 17\nGROUP g\r\nSTAT 2\r\nserver 34\n200 hi\r\n211 5 1 5 g\r\n\
    223 2 <b@x>\r\nspool 67\nspool 1\ngroup g 1\n2 <b@x>\narticle <b@x> 1 0\n|Message-ID: <b@x>\nend\n";

/// The same in the other order.
const TWO_TURNED_AND_A_SPOOL: &[u8] =
    b"session 1\nbclient 17\nGROUP g\r\nSTAT 2\r\nserver 34\n200 hi\r\n211 5 1 5 g\r\n223 2 <b@x>\r\nsession 1\n\
    aclient 20\nGROUP g\r\nXOVER 1-3\r\nserver 65\n200 hi\r\n211 5 1 5 g\r\n224 x\r\n1\t\t\t\t<a@x>\t\t9\t1\r\n\
    3\t\t\t\t<c@x>\t\t9\t1\r\n.\r\nspool 67\nspool 1\ngroup g 1\n2 <b@x>\narticle <b@x> 1 0\n|Message-ID: <b@x>\n\
    end\n";

/// An overview without a message-id.
const NO_ID: &[u8] =
    b"client 18\nGROUP g\r\nXOVER 1\r\nserver 40\n200 hi\r\n211 5 1 5 g\r\n224 x\r\n1\t\t\t\tno\r\n.\r\n";

/// Number 2 is there, and the overviews of the low mark are none.
const NO_LOW_MARK: &[u8] =
    b"client 26\nGROUP g\r\nSTAT 2\r\nXOVER 1\r\nserver 44\n200 hi\r\n211 3 1 4 g\r\n223 2 <b@x>\r\n224 x\r\n\
    .\r\n";

/// The same with a spool that has both marks.
const NO_LOW_MARK_BUT_THERE: &[u8] =
    b"client 26\nGROUP g\r\nSTAT 2\r\nXOVER 1\r\nserver 44\n200 hi\r\n211 3 1 4 g\r\n223 2 <b@x>\r\n224 x\r\n\
    .\r\nspool 253\nspool 1\ngroup g 3\n1 <w0@invented.invalid>\n2 <b@x>\n4 <w1@invented.invalid>\narticle <b@x> 1 0\n\
    |Message-ID: <b@x>\narticle <w0@invented.invalid> 1 0\n|Message-ID: <w0@invented.invalid>\narticle <w1@invented.invalid> 1 0\n\
    |Message-ID: <w1@invented.invalid>\nend\n";

/// An overview at a number above the narrow limit, and above the high mark.
const WIDE_NUMBER: &[u8] =
    b"client 19\nGROUP g\r\nXOVER 1-\r\nserver 57\n200 hi\r\n211 5 1 5 g\r\n224 x\r\n2147483648\t\t\t\t<a@x>\t\t9\t1\r\n\
    .\r\n";

pub(crate) const OVERVIEWS: &[Captured] = &[
    Captured {
        name: "a number that overviews leave out",
        task: CHECK,
        capture: LEFT_OUT,
        report: b"consistent answers=4 groups=1 numbers=1 articles=1\nspool 1\ngroup g 1\n2 <b@x>\narticle <b@x> 1 0\n|Message-ID: <b@x>\n\
            end\n",
        answer: true,
    },
    Captured {
        name: "a number that overviews leave out",
        task: CHECK_OVERVIEW,
        capture: LEFT_OUT,
        report: b"bad answer 3 Contradiction\ncommand STAT 2\nanswer 223 2 <b@x>\n",
        answer: false,
    },
    Captured {
        name: "a number that overviews leave out",
        task: CHECK_OVERVIEW_WIDE_AND_STRICT,
        capture: LEFT_OUT,
        report: b"bad answer 3 Contradiction\ncommand STAT 2\nanswer 223 2 <b@x>\n",
        answer: false,
    },
    Captured {
        name: "a number that overviews leave out",
        task: Task::Show,
        capture: LEFT_OUT,
        report: b"0 greeting -> 200 hi\n1 GROUP g -> 211 5 1 5 g\n  group g\n2 XOVER 1-3 -> 224 x\n3 STAT 2 -> 223 2 <b@x>\n\
            end answers=4 unanswered=0\n",
        answer: true,
    },
    Captured {
        name: "a number that overviews leave out",
        task: EXPLAIN,
        capture: LEFT_OUT,
        report: b"end answers=4 bad=0 unanswered=0\n",
        answer: true,
    },
    Captured {
        name: "a number that overviews leave out",
        task: EXPLAIN_OVERVIEW,
        capture: LEFT_OUT,
        report: b"bad answer 3 Contradiction\ncommand STAT 2\nanswer 223 2 <b@x>\nin g since 1 at first\nabout number g 2\n\
            says number g 2 is <b@x>\nbecause answer 2\ncommand XOVER 1-3\nanswer 224 x\nin g since 1 at first\nsays numbers g 1-3 are 2 without 2\n\
            end answers=4 bad=1 unanswered=0\n",
        answer: false,
    },
    Captured {
        name: "a number that overviews leave out",
        task: VERIFY,
        capture: LEFT_OUT_BUT_THERE,
        report: b"permits answers=4\n",
        answer: true,
    },
    Captured {
        name: "a number that overviews leave out",
        task: VERIFY_OVERVIEW,
        capture: LEFT_OUT_BUT_THERE,
        report: b"refuses answer 2\n",
        answer: false,
    },
    Captured {
        name: "a number that is missing",
        task: CHECK,
        capture: MISSING,
        report: b"consistent answers=5 groups=1 numbers=1 articles=1\nspool 1\ngroup g 1\n1 <a@x>\narticle <a@x> 1 0\n|Message-ID: <a@x>\n\
            end\n",
        answer: true,
    },
    Captured {
        name: "a number that is missing",
        task: CHECK_OVERVIEW,
        capture: MISSING,
        report: b"consistent answers=5 groups=1 numbers=2 articles=2\nspool 1\ngroup g 2\n1 <a@x>\n3 <c@x>\narticle <a@x> 1 0\n\
            |Message-ID: <a@x>\narticle <c@x> 1 0\n|Message-ID: <c@x>\nend\n",
        answer: true,
    },
    Captured {
        name: "a number that is missing",
        task: EXPLAIN_OVERVIEW,
        capture: MISSING,
        report: b"end answers=5 bad=0 unanswered=0\n",
        answer: true,
    },
    Captured {
        name: "a number that is missing",
        task: VERIFY,
        capture: MISSING_AND_GIVEN,
        report: b"permits answers=5\n",
        answer: true,
    },
    Captured {
        name: "a number that is missing",
        task: VERIFY_OVERVIEW,
        capture: MISSING_AND_GIVEN,
        report: b"permits answers=5\n",
        answer: true,
    },
    Captured {
        name: "a number that is missing",
        task: VERIFY,
        capture: MISSING_AND_LESS,
        report: b"permits answers=5\n",
        answer: true,
    },
    Captured {
        name: "a number that is missing",
        task: VERIFY_OVERVIEW,
        capture: MISSING_AND_LESS,
        report: b"refuses answer 2\n",
        answer: false,
    },
    Captured {
        name: "overviews in the first of two sessions",
        task: CHECK,
        capture: TWO,
        report: b"consistent sessions=2 answers=6 groups=1 numbers=1 articles=1\nspool 1\ngroup g 1\n2 <b@x>\narticle <b@x> 1 0\n\
            |Message-ID: <b@x>\nend\n",
        answer: true,
    },
    Captured {
        name: "overviews in the first of two sessions",
        task: CHECK_OVERVIEW,
        capture: TWO,
        report: b"session 2 b\nbad answer 2 Contradiction\ncommand STAT 2\nanswer 223 2 <b@x>\n",
        answer: false,
    },
    Captured {
        name: "overviews in the first of two sessions",
        task: EXPLAIN,
        capture: TWO,
        report: b"end sessions=2 answers=6 bad=0 unanswered=0\n",
        answer: true,
    },
    Captured {
        name: "overviews in the first of two sessions",
        task: EXPLAIN_OVERVIEW,
        capture: TWO,
        report: b"session 2 b\nbad answer 2 Contradiction\ncommand STAT 2\nanswer 223 2 <b@x>\nin g since 1 at first\nabout number g 2\n\
            says number g 2 is <b@x>\nbecause answer 2 of session 1\ncommand XOVER 1-3\nanswer 224 x\nin g since 1 at first\n\
            says numbers g 1-3 are 2 without 2\nend sessions=2 answers=6 bad=1 unanswered=0\n",
        answer: false,
    },
    Captured {
        name: "overviews in the second of two sessions",
        task: CHECK_OVERVIEW,
        capture: TWO_TURNED,
        report: b"session 2 a\nbad answer 2 Contradiction\ncommand XOVER 1-3\nanswer 224 x\n",
        answer: false,
    },
    Captured {
        name: "overviews in the second of two sessions",
        task: EXPLAIN_OVERVIEW,
        capture: TWO_TURNED,
        report: b"session 2 a\nbad answer 2 Contradiction\ncommand XOVER 1-3\nanswer 224 x\nin g since 1 at first\nabout number g 2\n\
            says numbers g 1-3 are 2 without 2\nbecause answer 2 of session 1\ncommand STAT 2\nanswer 223 2 <b@x>\n\
            in g since 1 at first\nsays number g 2 is <b@x>\nend sessions=2 answers=6 bad=1 unanswered=0\n",
        answer: false,
    },
    Captured {
        name: "overviews in the first of two sessions",
        task: VERIFY,
        capture: TWO_AND_A_SPOOL,
        report: b"permits sessions=2 answers=6\n",
        answer: true,
    },
    Captured {
        name: "overviews in the first of two sessions",
        task: VERIFY_OVERVIEW,
        capture: TWO_AND_A_SPOOL,
        report: b"session 1 a\nrefuses answer 2\n",
        answer: false,
    },
    Captured {
        name: "overviews in the second of two sessions",
        task: VERIFY_OVERVIEW,
        capture: TWO_TURNED_AND_A_SPOOL,
        report: b"session 2 a\nrefuses answer 2\n",
        answer: false,
    },
    Captured {
        name: "an overview without a message-id",
        task: CHECK,
        capture: NO_ID,
        report: b"consistent answers=3 groups=1 numbers=0 articles=0\nspool 1\ngroup g 0\nend\n",
        answer: true,
    },
    Captured {
        name: "an overview without a message-id",
        task: CHECK_OVERVIEW,
        capture: NO_ID,
        report: b"bad answer 2 Malformed\ncommand XOVER 1\nanswer 224 x\n",
        answer: false,
    },
    Captured {
        name: "an overview without a message-id",
        task: EXPLAIN_OVERVIEW,
        capture: NO_ID,
        report: b"bad answer 2 Malformed\ncommand XOVER 1\nanswer 224 x\nin g since 1 at first\nwhy block line 1 id\nend answers=3 bad=1 unanswered=0\n",
        answer: false,
    },
    Captured {
        name: "a mark without an overview",
        task: CHECK_STRICTLY,
        capture: NO_LOW_MARK,
        report: b"consistent answers=4 groups=1 numbers=3 articles=3\nspool 1\ngroup g 3\n1 <w0@invented.invalid>\n2 <b@x>\n\
            4 <w1@invented.invalid>\narticle <b@x> 1 0\n|Message-ID: <b@x>\narticle <w0@invented.invalid> 1 0\n|Message-ID: <w0@invented.invalid>\n\
            article <w1@invented.invalid> 1 0\n|Message-ID: <w1@invented.invalid>\nend\n",
        answer: true,
    },
    Captured {
        name: "a mark without an overview",
        task: CHECK_OVERVIEW,
        capture: NO_LOW_MARK,
        report: b"consistent answers=4 groups=1 numbers=1 articles=1\nspool 1\ngroup g 1\n2 <b@x>\narticle <b@x> 1 0\n|Message-ID: <b@x>\n\
            end\n",
        answer: true,
    },
    Captured {
        name: "a mark without an overview",
        task: CHECK_OVERVIEW_STRICTLY,
        capture: NO_LOW_MARK,
        report: b"bad answer 3 Contradiction\ncommand XOVER 1\nanswer 224 x\n",
        answer: false,
    },
    Captured {
        name: "a mark without an overview",
        task: EXPLAIN_OVERVIEW,
        capture: NO_LOW_MARK,
        report: b"end answers=4 bad=0 unanswered=0\n",
        answer: true,
    },
    Captured {
        name: "a mark without an overview",
        task: EXPLAIN_STRICTLY,
        capture: NO_LOW_MARK,
        report: b"end answers=4 bad=0 unanswered=0\n",
        answer: true,
    },
    Captured {
        name: "a mark without an overview",
        task: EXPLAIN_OVERVIEW_STRICTLY,
        capture: NO_LOW_MARK,
        report: b"bad answer 3 Contradiction\ncommand XOVER 1\nanswer 224 x\nin g since 1 at 2 since 2\nabout number g 1\n\
            says numbers g 1-1 are 0 without 1\nbecause answer 1\ncommand GROUP g\nanswer 211 3 1 4 g\nin no group\n\
            says numbers g at most 3 from 1 to 4\nbecause answer 2\ncommand STAT 2\nanswer 223 2 <b@x>\nin g since 1 at first\n\
            end answers=4 bad=1 unanswered=0\n",
        answer: false,
    },
    Captured {
        name: "a mark without an overview",
        task: VERIFY_STRICTLY,
        capture: NO_LOW_MARK_BUT_THERE,
        report: b"permits answers=4\n",
        answer: true,
    },
    Captured {
        name: "a mark without an overview",
        task: VERIFY_OVERVIEW_STRICTLY,
        capture: NO_LOW_MARK_BUT_THERE,
        report: b"refuses answer 3\n",
        answer: false,
    },
    Captured {
        name: "a mark without an overview",
        task: VERIFY_OVERVIEW,
        capture: NO_LOW_MARK_BUT_THERE,
        report: b"refuses answer 3\n",
        answer: false,
    },
    Captured {
        name: "an overview at a wide number",
        task: CHECK_WIDE,
        capture: WIDE_NUMBER,
        report: b"consistent answers=3 groups=1 numbers=0 articles=0\nspool 2\nlimit 9999999999999999\ngroup g 0\nend\n",
        answer: true,
    },
    Captured {
        name: "an overview at a wide number",
        task: CHECK_OVERVIEW,
        capture: WIDE_NUMBER,
        report: b"bad answer 2 OutOfPlace\ncommand XOVER 1-\nanswer 224 x\n",
        answer: false,
    },
    Captured {
        name: "an overview at a wide number",
        task: CHECK_OVERVIEW_WIDE,
        capture: WIDE_NUMBER,
        report: b"bad answer 2 Contradiction\ncommand XOVER 1-\nanswer 224 x\n",
        answer: false,
    },
    Captured {
        name: "an overview at a wide number",
        task: EXPLAIN_OVERVIEW,
        capture: WIDE_NUMBER,
        report: b"bad answer 2 OutOfPlace\ncommand XOVER 1-\nanswer 224 x\nin g since 1 at first\nwhy limit 2147483648\n\
            end answers=3 bad=1 unanswered=0\n",
        answer: false,
    },
    Captured {
        name: "an overview at a wide number",
        task: EXPLAIN_OVERVIEW_WIDE,
        capture: WIDE_NUMBER,
        report: b"bad answer 2 Contradiction\ncommand XOVER 1-\nanswer 224 x\nin g since 1 at first\nabout number g 2147483648\n\
            says numbers g 1- are 1 with 2147483648\nbecause answer 1\ncommand GROUP g\nanswer 211 5 1 5 g\nin no group\n\
            says numbers g at most 5 within 1-5\nend answers=3 bad=1 unanswered=0\n",
        answer: false,
    },
    Captured {
        name: "an overview at a wide number",
        task: EXPLAIN_WIDE,
        capture: WIDE_NUMBER,
        report: b"end answers=3 bad=0 unanswered=0\n",
        answer: true,
    },
];

#[test]
fn captures_of_overviews_cut_at_every_octet(rt: HostRuntime) {
    for captured in OVERVIEWS {
        captured.run().cut_everywhere(&rt, rt.alloc());
    }
}
