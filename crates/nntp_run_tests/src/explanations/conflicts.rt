//! Sessions whose answers conflict, and what `explain` prints of them.
use crate::reported::Reported;
use crate::tasks::{EXPLAIN, EXPLAIN_STRICTLY};

/// Answers that no spool has together.
pub(crate) const CONFLICTS: &[Reported] = &[
    Reported {
        name: "a bad answer says nothing",
        task: EXPLAIN,
        client: b"GROUP g\r\nSTAT 3\r\nSTAT 3\r\nSTAT 3\r\n",
        server: b"200 hi\r\n211 1 1 5 g\r\n223 3 <a@b>\r\n423 no\r\n223 3 <a@b>\r\n",
        report: b"bad answer 3 Contradiction
command STAT 3
answer 423 no
in g since 1 at 3 since 2
about number g 3
says number g 3 is missing
because answer 2
command STAT 3
answer 223 3 <a@b>
in g since 1 at first
says number g 3 is <a@b>
end answers=5 bad=1 unanswered=0
",
        answer: false,
    },
    Reported {
        name: "the one that comes first is kept",
        task: EXPLAIN,
        client: b"STAT <a@b>\r\nSTAT <a@b>\r\nSTAT <a@b>\r\n",
        server: b"200 hi\r\n430 no\r\n223 0 <a@b>\r\n223 0 <a@b>\r\n",
        report: b"bad answer 2 Contradiction
command STAT <a@b>
answer 223 0 <a@b>
in no group
about article <a@b>
says article <a@b>
because answer 1
command STAT <a@b>
answer 430 no
in no group
says no article <a@b>
bad answer 3 Contradiction
command STAT <a@b>
answer 223 0 <a@b>
in no group
about article <a@b>
says article <a@b>
because answer 1
command STAT <a@b>
answer 430 no
in no group
says no article <a@b>
end answers=4 bad=2 unanswered=0
",
        answer: false,
    },
    Reported {
        name: "marks that needn't be numbers",
        task: EXPLAIN,
        client: b"GROUP g\r\nSTAT 1\r\n",
        server: b"200 hi\r\n211 1 1 2 g\r\n223 1 <a@b>\r\n",
        report: b"end answers=3 bad=0 unanswered=0\n",
        answer: true,
    },
    Reported {
        name: "marks that are numbers",
        task: EXPLAIN_STRICTLY,
        client: b"GROUP g\r\nSTAT 1\r\n",
        server: b"200 hi\r\n211 1 1 2 g\r\n223 1 <a@b>\r\n",
        report: b"bad answer 2 Contradiction
command STAT 1
answer 223 1 <a@b>
in g since 1 at first
about count g
says number g 1 is <a@b>
because answer 1
command GROUP g
answer 211 1 1 2 g
in no group
says numbers g at most 1 from 1 to 2
end answers=3 bad=1 unanswered=0
",
        answer: false,
    },
    Reported {
        name: "an estimate that three answers break",
        task: EXPLAIN,
        client: b"GROUP g\r\nSTAT 1\r\nSTAT 2\r\nSTAT 3\r\n",
        server: b"200 hi\r\n211 2 1 5 g\r\n223 1 <a@x>\r\n223 2 <b@x>\r\n223 3 <c@x>\r\n",
        report: b"bad answer 4 Contradiction
command STAT 3
answer 223 3 <c@x>
in g since 1 at 2 since 3
about count g
says number g 3 is <c@x>
because answer 1
command GROUP g
answer 211 2 1 5 g
in no group
says numbers g at most 2 within 1-5
because answer 2
command STAT 1
answer 223 1 <a@x>
in g since 1 at first
says number g 1 is <a@x>
because answer 3
command STAT 2
answer 223 2 <b@x>
in g since 1 at 1 since 2
says number g 2 is <b@x>
end answers=5 bad=1 unanswered=0
",
        answer: false,
    },
    Reported {
        name: "an answer that contradicts itself",
        task: EXPLAIN,
        client: b"LISTGROUP g\r\n",
        server: b"200 hi\r\n211 1 1 5 g\r\n1\r\n2\r\n.\r\n",
        report: b"bad answer 1 Contradiction
command LISTGROUP g
answer 211 1 1 5 g
in no group
about count g
says numbers g at most 1 within 1-5
says numbers g 1- are 2
end answers=2 bad=1 unanswered=0
",
        answer: false,
    },
    Reported {
        name: "four reasons are all",
        task: EXPLAIN,
        client: b"GROUP g\r\nSTAT 1\r\nSTAT 2\r\nSTAT 3\r\nSTAT 4\r\nGROUP g\r\n",
        server: b"200 hi\r\n211 9 1 9 g\r\n223 1 <a@x>\r\n223 2 <b@x>\r\n223 3 <c@x>\r\n223 4 <d@x>\r\n211 3 1 9 g\r\n",
        report: b"bad answer 6 Contradiction
command GROUP g
answer 211 3 1 9 g
in g since 1 at 4 since 5
about count g
says numbers g at most 3 within 1-9
because answer 2
command STAT 1
answer 223 1 <a@x>
in g since 1 at first
says number g 1 is <a@x>
because answer 3
command STAT 2
answer 223 2 <b@x>
in g since 1 at 1 since 2
says number g 2 is <b@x>
because answer 4
command STAT 3
answer 223 3 <c@x>
in g since 1 at 2 since 3
says number g 3 is <c@x>
because answer 5
command STAT 4
answer 223 4 <d@x>
in g since 1 at 3 since 4
says number g 4 is <d@x>
end answers=7 bad=1 unanswered=0
",
        answer: false,
    },
    Reported {
        name: "the same answer again, from the same place and from another one",
        task: EXPLAIN,
        client: b"GROUP g\r\nSTAT 1\r\nSTAT 1\r\nSTAT <a@x>\r\nSTAT 1\r\nSTAT 2\r\nSTAT 1\r\n",
        server: b"200 hi\r\n211 5 1 9 g\r\n223 1 <a@x>\r\n423 no\r\n223 0 <a@x>\r\n423 no\r\n223 2 <b@x>\r\n423 no\r\n",
        report: b"bad answer 3 Contradiction
command STAT 1
answer 423 no
in g since 1 at 1 since 2
about number g 1
says number g 1 is missing
because answer 2
command STAT 1
answer 223 1 <a@x>
in g since 1 at first
says number g 1 is <a@x>
bad answer 5 Contradiction
command STAT 1
answer 423 no
in g since 1 at 1 since 2
about number g 1
says number g 1 is missing
because answer 2
command STAT 1
answer 223 1 <a@x>
in g since 1 at first
says number g 1 is <a@x>
bad answer 7 Contradiction
command STAT 1
answer 423 no
in g since 1 at 2 since 6
about number g 1
says number g 1 is missing
because answer 2
command STAT 1
answer 223 1 <a@x>
in g since 1 at first
says number g 1 is <a@x>
end answers=8 bad=3 unanswered=0
",
        answer: false,
    },
];
