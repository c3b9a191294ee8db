//! Sessions with octets that are no answer, and what `explain` prints of them.
use crate::reported::Reported;
use crate::tasks::EXPLAIN;

/// Answers that spell nothing, are cut, or answer nothing.
pub(crate) const ENDINGS: &[Reported] = &[
    Reported {
        name: "a line that spells nothing",
        task: EXPLAIN,
        client: b"HELP\r\nSTAT <a@b>\r\nQUIT\r\n",
        server: b"200 hi\r\n2x3 ok\r\n430 no\r\n205 bye\r\n",
        report: b"bad answer 1 Malformed
command HELP
answer 2x3 ok
in no group
why code
end answers=4 bad=1 unanswered=0
",
        answer: false,
    },
    Reported {
        name: "a block that spells nothing is passed over whole",
        task: EXPLAIN,
        client: b"BODY <a@b>\r\nBODY <a@b>\r\nQUIT\r\n",
        server: b"200 hi\r\n222 0 <a@b>\r\n.x\r\n.\r\n222 0 <a@b>\r\n..x\r\n.\r\n205 bye\r\n",
        report: b"bad answer 1 Malformed
command BODY <a@b>
answer 222 0 <a@b>
in no group
why block line 1 dot
end answers=4 bad=1 unanswered=0
",
        answer: false,
    },
    Reported {
        name: "a block that is cut",
        task: EXPLAIN,
        client: b"GROUP g\r\nHEAD 1\r\nQUIT\r\n",
        server: b"200 hi\r\n211 1 1 1 g\r\n221 1 <a@b>\r\nFrom: a\r\n",
        report: b"bad answer 2 Cut
command HEAD 1
answer 221 1 <a@b>
in g since 1 at first
why block
end answers=3 bad=1 unanswered=1
",
        answer: false,
    },
    Reported {
        name: "an initial line that is cut",
        task: EXPLAIN,
        client: b"HELP\r\nQUIT\r\n",
        server: b"200 hi\r\n100 help\n.\n",
        report: b"bad answer 1 Cut
command HELP
answer 100 help\\x0a.\\x0a
in no group
why line
end answers=2 bad=1 unanswered=1
",
        answer: false,
    },
    Reported {
        name: "octets behind the last line's answer",
        task: EXPLAIN,
        client: b"HELP\r\n",
        server: b"200 hi\r\n100 help\r\n.\r\nx\r\ny",
        report: b"bad answer 2 Surplus
no command
answer x
in no group
why no command
end answers=3 bad=1 unanswered=0
",
        answer: false,
    },
    Reported {
        name: "octets where the connection is closed",
        task: EXPLAIN,
        client: b"QUIT\r\nGROUP g\r\nHELP\r\n",
        server: b"200 hi\r\n205 bye\r\n411 no\r\n",
        report: b"bad answer 2 Surplus
command GROUP g
answer 411 no
in no group
why closed
because answer 1
command QUIT
answer 205 bye
in no group
end answers=3 bad=1 unanswered=1
",
        answer: false,
    },
    Reported {
        name: "octets behind an answer that closed the connection behind a bad one",
        task: EXPLAIN,
        client: b"GROUP g\r\nSTAT 1\r\nHELP\r\nQUIT\r\n",
        server: b"200 hi\r\n211 1 1 1 g\r\n223 2 <a@b>\r\n400 bye\r\n205 bye\r\n",
        report: b"bad answer 2 OutOfPlace
command STAT 1
answer 223 2 <a@b>
in g since 1 at first
why number 2
bad answer 4 Surplus
command QUIT
answer 205 bye
in g since 1 at first
why closed
because answer 3
command HELP
answer 400 bye
in g since 1 at first
end answers=5 bad=2 unanswered=0
",
        answer: false,
    },
    Reported {
        name: "octets where the greeting closed the connection",
        task: EXPLAIN,
        client: b"",
        server: b"502 no\r\n205 bye\r\n",
        report: b"bad answer 1 Surplus
no command
answer 205 bye
in no group
why closed
because answer 0
no command
answer 502 no
in no group
end answers=2 bad=1 unanswered=0
",
        answer: false,
    },
    Reported {
        name: "octets that are escaped",
        task: EXPLAIN,
        client: b"XX\\\t\xE9\r\n",
        server: b"200 hi\r\n34\xFF\r\n",
        report: b"bad answer 1 Malformed
command XX\\\\\\x09\\xe9
answer 34\\xff
in no group
why code
end answers=2 bad=1 unanswered=0
",
        answer: false,
    },
];
