//! Sessions with answers that don't fit, and what `explain` prints of them.
use crate::reported::Reported;
use crate::tasks::{EXPLAIN, EXPLAIN_WIDE};

/// Commands, of which the second alone is answered by what fits.
const MISFITS_CLIENT: &[u8] = b"GROUP g\r\nGROUP g\r\nSTAT 6\r\nSTAT <a@b>\r\nGROUP g\r\n\
LISTGROUP g\r\nLISTGROUP g 6-\r\nLIST ACTIVE g*\r\nLIST\r\nHEAD <a@b>\r\nHEAD <a@b>\r\nSTAT x y\r\n";

const MISFITS_SERVER: &[u8] =
    b"200 hi\r\n211 1 1 1 h\r\n211 3 5 9 g\r\n223 7 <a@b>\r\n223 0 <c@b>\r\n211 3 4 9 g\r\n\
211 3 5 9 g\r\n5\r\n7\r\n7\r\n.\r\n\
211 3 5 9 g\r\n5\r\n7\r\n.\r\n\
215 list\r\ng 9 5 y\r\nh 9 5 y\r\n.\r\n\
215 list\r\na 0 1 y\r\na 0 1 y\r\n.\r\n\
221 0 <a@b>\r\nno header\r\n.\r\n\
221 0 <a@b>\r\nMessage-ID: <c@d>\r\n.\r\n\
423 no\r\n";

const MISFITS_REPORT: &[u8] = b"bad answer 1 OutOfPlace
command GROUP g
answer 211 1 1 1 h
in no group
why name h
bad answer 3 OutOfPlace
command STAT 6
answer 223 7 <a@b>
in g since 2 at first
why number 7
bad answer 4 OutOfPlace
command STAT <a@b>
answer 223 0 <c@b>
in g since 2 at first
why id <c@b>
bad answer 5 OutOfPlace
command GROUP g
answer 211 3 4 9 g
in g since 2 at first
why low 5
because answer 2
command GROUP g
answer 211 3 5 9 g
in no group
bad answer 6 OutOfPlace
command LISTGROUP g
answer 211 3 5 9 g
in g since 2 at first
why order 7 7
bad answer 7 OutOfPlace
command LISTGROUP g 6-
answer 211 3 5 9 g
in g since 2 at first
why range 5
bad answer 8 OutOfPlace
command LIST ACTIVE g*
answer 215 list
in g since 2 at first
why match h
bad answer 9 OutOfPlace
command LIST
answer 215 list
in g since 2 at first
why twice a
bad answer 10 OutOfPlace
command HEAD <a@b>
answer 221 0 <a@b>
in g since 2 at first
why head
bad answer 11 OutOfPlace
command HEAD <a@b>
answer 221 0 <a@b>
in g since 2 at first
why own <c@d>
bad answer 12 OutOfPlace
command STAT x y
answer 423 no
in g since 2 at first
why code 423
end answers=13 bad=11 unanswered=0
";

/// Answers that don't fit, whatever the spool.
pub(crate) const MISFITS: &[Reported] = &[
    Reported {
        name: "codes that don't fit, in no group and in one",
        task: EXPLAIN,
        client: b"NEXT\r\nGROUP g\r\nNEXT\r\nLAST\r\nQUIT\r\n",
        server: b"200 hi\r\n420 no\r\n211 3 1 5 g\r\n223 4 <b@x>\r\n421 no\r\n205 bye\r\n",
        report: b"bad answer 1 OutOfPlace
command NEXT
answer 420 no
in no group
why code 420 allowed 412
bad answer 4 OutOfPlace
command LAST
answer 421 no
in g since 2 at 4 since 3
why code 421 allowed 223 420 422
end answers=6 bad=2 unanswered=0
",
        answer: false,
    },
    Reported {
        name: "a bad answer that would select a group",
        task: EXPLAIN,
        client: b"GROUP g\r\nGROUP h\r\nLAST\r\n",
        server: b"200 hi\r\n211 1 1 5 g\r\n211 9 1 5 h\r\n421 no\r\n",
        report: b"bad answer 2 OutOfPlace
command GROUP h
answer 211 9 1 5 h
in g since 1 at first
why marks h
bad answer 3 OutOfPlace
command LAST
answer 421 no
in g since 1 at first
why code 421 allowed 223 420 422
end answers=4 bad=2 unanswered=0
",
        answer: false,
    },
    Reported {
        name: "a greeting that is none",
        task: EXPLAIN,
        client: b"GROUP g\r\nLAST\r\n",
        server: b"203 hi\r\n211 1 1 1 g\r\n421 no\r\n",
        report: b"bad answer 0 OutOfPlace
no command
answer 203 hi
in no group
why code 203 allowed 200 201 400 502
bad answer 2 OutOfPlace
command LAST
answer 421 no
in g since 1 at first
why code 421 allowed 223 420 422
end answers=3 bad=2 unanswered=0
",
        answer: false,
    },
    Reported {
        name: "a session stands at an article since the answer that led there",
        task: EXPLAIN,
        client: b"GROUP g\r\nSTAT 3\r\nSTAT\r\nSTAT 3\r\nSTAT <a@b>\r\nLAST\r\nSTAT 4\r\nLAST\r\n",
        server: b"200 hi\r\n211 5 1 5 g\r\n223 3 <a@b>\r\n223 3 <a@b>\r\n223 3 <a@b>\r\n223 0 <a@b>\r\n421 no\r\n223 4 <c@b>\r\n421 no\r\n",
        report: b"bad answer 6 OutOfPlace
command LAST
answer 421 no
in g since 1 at 3 since 2
why code 421 allowed 223 420 422
bad answer 8 OutOfPlace
command LAST
answer 421 no
in g since 1 at 4 since 7
why code 421 allowed 223 420 422
end answers=9 bad=2 unanswered=0
",
        answer: false,
    },
    Reported {
        name: "a group that is selected by its list",
        task: EXPLAIN,
        client: b"GROUP gr\xC3\xBCn\r\nNEXT\r\nLISTGROUP gr\xC3\xBCn\r\nNEXT\r\n",
        server: b"200 hi\r\n211 2 1 2 gr\xC3\xBCn\r\n223 2 <a@b>\r\n211 2 1 2 gr\xC3\xBCn\r\n1\r\n2\r\n.\r\n422 no\r\n",
        report: b"bad answer 4 OutOfPlace
command NEXT
answer 422 no
in gr\\xc3\\xbcn since 3 at first
why code 422 allowed 223 420 421
end answers=5 bad=1 unanswered=0
",
        answer: false,
    },
    Reported {
        name: "numbers of more than 31 bits",
        task: EXPLAIN,
        client: b"GROUP g\r\n",
        server: b"200 hi\r\n211 1 1 2147483648 g\r\n",
        report: b"bad answer 1 OutOfPlace
command GROUP g
answer 211 1 1 2147483648 g
in no group
why limit 2147483648
end answers=2 bad=1 unanswered=0
",
        answer: false,
    },
    Reported {
        name: "numbers that may be wide",
        task: EXPLAIN_WIDE,
        client: b"GROUP g\r\n",
        server: b"200 hi\r\n211 1 1 2147483648 g\r\n",
        report: b"end answers=2 bad=0 unanswered=0\n",
        answer: true,
    },
    Reported {
        name: "each reason why an answer doesn't fit",
        task: EXPLAIN,
        client: MISFITS_CLIENT,
        server: MISFITS_SERVER,
        report: MISFITS_REPORT,
        answer: false,
    },
];
