//! Sessions, and what `show` prints of them.
use crate::reported::Reported;
use nntp_check::Task;

/// A head with Control headers on several lines, and of names and verbs in several cases.
const CONTROLS: &[u8] = b"200 hi\r\n221 0 <c@x>\r\n\
Control: newgroup\r\n\tcomp.x\r\n moderated\r\n\
Control:\r\n rmgroup comp.y\r\n\
CONTROL: newgroup comp.z\r\n\
From: a\r\n\
Control: cancel  \r\n <c@x> more\r\n\
control: Cancel <a@b>\r\n\
Control: cancel a@b\r\n\
Control: newgroup a\\b\r\n\
Control: sendsys\r\n\tnow \r\n\
Control: \t\r\n\
Control:\r\n\
Controls: cancel <a@b>\r\n.\r\n";

const CONTROLS_REPORT: &[u8] = b"0 greeting -> 200 hi
1 HEAD <c@x> -> 221 0 <c@x>
  control newgroup comp.x moderated
  control rmgroup comp.y
  control newgroup comp.z
  control other cancel   <c@x> more
  control other Cancel <a@b>
  control other cancel a@b
  control other newgroup a\\\\b
  control other sendsys\\x09now
  control other
  control other
  missing Date Newsgroups Subject Message-ID Path
end answers=2 unanswered=0
";

/// An article with the six headers, its body like a head.
const COMPLETE: &[u8] = b"200 hi\r\n220 7 <a@b>\r\n\
Path: x!y\r\nFROM: a\r\nnewsgroups: g\r\nsubject:\r\n again\r\nMessage-id: <a@b>\r\nDate: now\r\n\
\r\nControl: cancel <c@x>\r\n.\r\n";

/// Heads and articles that are none, and what is no head nor an article by its code.
const NO_HEADS: &[u8] = b"200 hi\r\n\
221 0 <a@b>\r\n From: a\r\nControl: cancel <c@x>\r\n.\r\n\
221 0 <a@b>\r\nControl: cancel <c@x>\r\nno header\r\n.\r\n\
221 0 <a@b>\r\n.\r\n\
220 0 <a@b>\r\nControl: cancel <c@x>\r\n.\r\n\
220 0 <a@b>\r\n\r\nControl: cancel <c@x>\r\n.\r\n\
220 0 <a@b>\r\nControl cancel\r\n\r\n.\r\n\
222 0 <a@b>\r\nControl: cancel <c@x>\r\n.\r\n\
223 0 <a@b>\r\n\
430 no\r\n";

pub(crate) const SHOWN: &[Reported] = &[
    Reported {
        name: "a control message on two lines",
        task: Task::Show,
        client: b"HEAD <c@x>\r\nQUIT\r\n",
        server: b"200 hi\r\n221 0 <c@x>\r\nControl: cancel\r\n <a@b>\r\nMessage-ID: <c@x>\r\n.\r\n205 bye\r\n",
        report: b"0 greeting -> 200 hi
1 HEAD <c@x> -> 221 0 <c@x>
  control cancel <a@b>
  missing From Date Newsgroups Subject Path
2 QUIT -> 205 bye
end answers=3 unanswered=0
",
        answer: true,
    },
    Reported {
        name: "a group, an article and a line without an answer",
        task: Task::Show,
        client: b"GROUP g\r\nARTICLE 1\r\nHELP\r\n",
        server: b"200 hi\r\n211 1 1 1 g\r\n220 1 <a@b>\r\nControl: newgroup comp.x moderated\r\nControl: sendsys\r\n\r\n.\r\n",
        report: b"0 greeting -> 200 hi
1 GROUP g -> 211 1 1 1 g
  group g
2 ARTICLE 1 -> 220 1 <a@b>
  control newgroup comp.x moderated
  control other sendsys
  missing From Date Newsgroups Subject Message-ID Path
end answers=3 unanswered=1
",
        answer: true,
    },
    Reported {
        name: "an octet behind the last answer",
        task: Task::Show,
        client: b"QUIT\r\n",
        server: b"200 hi\r\n205 bye\r\nx",
        report: b"0 greeting -> 200 hi\n1 QUIT -> 205 bye\nbad answer 2 Surplus\n",
        answer: false,
    },
    Reported {
        name: "a backslash in a command line",
        task: Task::Show,
        client: b"HEL\\P\r\n",
        server: b"200 hi\r\n500 no\r\n",
        report: b"0 greeting -> 200 hi\n1 HEL\\\\P -> 500 no\nend answers=2 unanswered=0\n",
        answer: true,
    },
    Reported {
        name: "nothing at all",
        task: Task::Show,
        client: b"",
        server: b"",
        report: b"end answers=0 unanswered=0\n",
        answer: true,
    },
    Reported {
        name: "a server that says nothing",
        task: Task::Show,
        client: b"HELP\r\nQUIT\r\nno line",
        server: b"",
        report: b"end answers=0 unanswered=2\n",
        answer: true,
    },
    Reported {
        name: "a server that answers once, and is left",
        task: Task::Show,
        client: b"",
        server: b"400 later\r\n",
        report: b"0 greeting -> 400 later\nend answers=1 unanswered=0\n",
        answer: true,
    },
    Reported {
        name: "names of the answers",
        task: Task::Show,
        client: b"GROUP g\r\nLISTGROUP\r\nGROUP g\r\nLIST ACTIVE\r\n",
        server: b"200 hi\r\n211 0 1 0 h\r\n211 1 4 4 gr\xC3\xBCn\r\n4\r\n.\r\n411 no\r\n215 ok\r\ng 1 1 y\r\n.\r\n",
        report: b"0 greeting -> 200 hi
1 GROUP g -> 211 0 1 0 h
  group h
2 LISTGROUP -> 211 1 4 4 gr\\xc3\\xbcn
  group gr\\xc3\\xbcn
3 GROUP g -> 411 no
4 LIST ACTIVE -> 215 ok
end answers=5 unanswered=0
",
        answer: true,
    },
    Reported {
        name: "Control headers of each kind",
        task: Task::Show,
        client: b"HEAD <c@x>\r\n",
        server: CONTROLS,
        report: CONTROLS_REPORT,
        answer: true,
    },
    Reported {
        name: "octets past ASCII",
        task: Task::Show,
        client: b"HEAD <c@x>\r\nXX\xE9\t\x7F\r\n\r\n",
        server: b"200 \xFF\r\n221 0 <c@x>\r\nControl: newgroup gr\xC3\xBCn\r\nControl: newgroup gr\xFCn\r\nSubject: \xFC\r\n.\r\n500 n\xE3o\r\n501\r\n",
        report: b"0 greeting -> 200 \\xff
1 HEAD <c@x> -> 221 0 <c@x>
  control newgroup gr\\xc3\\xbcn
  control other newgroup gr\\xfcn
  missing From Date Newsgroups Message-ID Path
2 XX\\xe9\\x09\\x7f -> 500 n\\xe3o
3  -> 501
end answers=4 unanswered=0
",
        answer: true,
    },
    Reported {
        name: "a head with none of the six headers",
        task: Task::Show,
        client: b"HEAD <c@x>\r\n",
        server: b"200 hi\r\n221 0 <c@x>\r\nX-From: a\r\n.\r\n",
        report: b"0 greeting -> 200 hi
1 HEAD <c@x> -> 221 0 <c@x>
  missing From Date Newsgroups Subject Message-ID Path
end answers=2 unanswered=0
",
        answer: true,
    },
    Reported {
        name: "an article with all of them",
        task: Task::Show,
        client: b"ARTICLE 7\r\n",
        server: COMPLETE,
        report: b"0 greeting -> 200 hi\n1 ARTICLE 7 -> 220 7 <a@b>\nend answers=2 unanswered=0\n",
        answer: true,
    },
    Reported {
        name: "lines that are no head",
        task: Task::Show,
        client: b"HEAD 1\r\nHEAD 2\r\nHEAD 3\r\nARTICLE 4\r\nARTICLE 5\r\nARTICLE 6\r\nBODY 7\r\nSTAT 8\r\nHEAD <a@b>\r\n",
        server: NO_HEADS,
        report: b"0 greeting -> 200 hi
1 HEAD 1 -> 221 0 <a@b>
2 HEAD 2 -> 221 0 <a@b>
3 HEAD 3 -> 221 0 <a@b>
4 ARTICLE 4 -> 220 0 <a@b>
5 ARTICLE 5 -> 220 0 <a@b>
6 ARTICLE 6 -> 220 0 <a@b>
7 BODY 7 -> 222 0 <a@b>
8 STAT 8 -> 223 0 <a@b>
9 HEAD <a@b> -> 430 no
end answers=10 unanswered=0
",
        answer: true,
    },
    Reported {
        name: "an answer that is cut",
        task: Task::Show,
        client: b"GROUP g\r\nHEAD 1\r\nQUIT\r\n",
        server: b"200 hi\r\n211 1 1 1 g\r\n221 1 <a@b>\r\nFrom: a\r\n",
        report: b"0 greeting -> 200 hi\n1 GROUP g -> 211 1 1 1 g\n  group g\nbad answer 2 Cut\n",
        answer: false,
    },
    Reported {
        name: "an answer that is malformed",
        task: Task::Show,
        client: b"GROUP g\r\n",
        server: b"200 hi\r\n211 x\r\n",
        report: b"0 greeting -> 200 hi\nbad answer 1 Malformed\n",
        answer: false,
    },
    Reported {
        name: "an answer that no spool gives",
        task: Task::Show,
        client: b"GROUP g\r\nGROUP g\r\n",
        server: b"200 hi\r\n211 1 1 1 g\r\n411 no\r\n",
        report: b"0 greeting -> 200 hi
1 GROUP g -> 211 1 1 1 g
  group g
2 GROUP g -> 411 no
end answers=3 unanswered=0
",
        answer: true,
    },
];
