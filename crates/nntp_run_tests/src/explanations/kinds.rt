//! Sessions with a conflict about each kind of point, and with each thing that answers say about one, and what `explain`
//! prints of them.
use crate::reported::Reported;
use crate::tasks::EXPLAIN;

/// Commands, of which some are answered so that no spool has it with what was said before, about each kind of point.
const POINTS_CLIENT: &[u8] =
    b"GROUP g\r\nSTAT 3\r\nSTAT 3\r\nSTAT 4\r\nSTAT 3\r\nNEXT\r\nGROUP g\r\nSTAT <c@x>\r\n\
HEAD <c@x>\r\nHEAD <c@x>\r\nBODY <c@x>\r\nBODY <c@x>\r\nSTAT 1\r\nSTAT 2\r\nSTAT 4\r\n\
GROUP h\r\nNEXT\r\nSTAT 1\r\nSTAT 2\r\nLIST ACTIVE\r\nLIST ACTIVE\r\n";

const POINTS_SERVER: &[u8] =
    b"200 hi\r\n211 3 1 5 g\r\n223 3 <c@x>\r\n423 no\r\n223 4 <c@x>\r\n223 3 <d@x>\r\n223 2 <b@x>\r\n411 no\r\n430 no\r\n\
221 0 <c@x>\r\nSubject: a\r\n.\r\n\
221 0 <c@x>\r\nSubject: b\r\n.\r\n\
222 0 <c@x>\r\nx\r\n.\r\n\
222 0 <c@x>\r\nx\r\ny\r\n.\r\n\
223 1 <a@x>\r\n223 2 <b@x>\r\n223 4 <e@x>\r\n\
211 5 1 5 h\r\n223 3 <h3@x>\r\n223 1 <h1@x>\r\n223 2 <h2@x>\r\n\
215 list\r\nh 5 1 y\r\n.\r\n\
215 list\r\ng 5 1 y\r\nh 2 1 y\r\n.\r\n";

const POINTS_REPORT: &[u8] = b"bad answer 3 Contradiction
command STAT 3
answer 423 no
in g since 1 at 3 since 2
about number g 3
says number g 3 is missing
because answer 2
command STAT 3
answer 223 3 <c@x>
in g since 1 at first
says number g 3 is <c@x>
bad answer 4 Contradiction
command STAT 4
answer 223 4 <c@x>
in g since 1 at 3 since 2
about place g <c@x>
says number g 4 is <c@x>
because answer 2
command STAT 3
answer 223 3 <c@x>
in g since 1 at first
says number g 3 is <c@x>
bad answer 5 Contradiction
command STAT 3
answer 223 3 <d@x>
in g since 1 at 3 since 2
about id g 3
says number g 3 is <d@x>
because answer 2
command STAT 3
answer 223 3 <c@x>
in g since 1 at first
says number g 3 is <c@x>
bad answer 6 Contradiction
command NEXT
answer 223 2 <b@x>
in g since 1 at 3 since 2
about step g
says next g from 3 is 2
says number g 2 is <b@x>
bad answer 7 Contradiction
command GROUP g
answer 411 no
in g since 1 at 3 since 2
about group g
says no group g
because answer 1
command GROUP g
answer 211 3 1 5 g
in no group
says group g
bad answer 8 Contradiction
command STAT <c@x>
answer 430 no
in g since 1 at 3 since 2
about article <c@x>
says no article <c@x>
because answer 2
command STAT 3
answer 223 3 <c@x>
in g since 1 at first
says article <c@x>
says number g 3 is <c@x>
bad answer 10 Contradiction
command HEAD <c@x>
answer 221 0 <c@x>
in g since 1 at 3 since 2
about head <c@x>
says head <c@x> 1 lines, line 1 is Subject: b
because answer 9
command HEAD <c@x>
answer 221 0 <c@x>
in g since 1 at 3 since 2
says head <c@x> 1 lines, line 1 is Subject: a
bad answer 12 Contradiction
command BODY <c@x>
answer 222 0 <c@x>
in g since 1 at 3 since 2
about body <c@x>
says body <c@x> 2 lines, line 2 is y
because answer 11
command BODY <c@x>
answer 222 0 <c@x>
in g since 1 at 3 since 2
says body <c@x> 1 lines, line 2 is missing
bad answer 15 Contradiction
command STAT 4
answer 223 4 <e@x>
in g since 1 at 2 since 14
about count g
says number g 4 is <e@x>
because answer 1
command GROUP g
answer 211 3 1 5 g
in no group
says numbers g at most 3 within 1-5
because answer 2
command STAT 3
answer 223 3 <c@x>
in g since 1 at first
says number g 3 is <c@x>
because answer 13
command STAT 1
answer 223 1 <a@x>
in g since 1 at 3 since 2
says number g 1 is <a@x>
because answer 14
command STAT 2
answer 223 2 <b@x>
in g since 1 at 1 since 13
says number g 2 is <b@x>
bad answer 19 Contradiction
command STAT 2
answer 223 2 <h2@x>
in h since 16 at 1 since 18
about first h
says number h 2 is <h2@x>
because answer 17
command NEXT
answer 223 3 <h3@x>
in h since 16 at first
says next h from first is 3
says number h 3 is <h3@x>
because answer 18
command STAT 1
answer 223 1 <h1@x>
in h since 16 at 3 since 17
says number h 1 is <h1@x>
bad answer 20 Contradiction
command LIST ACTIVE
answer 215 list
in h since 16 at 1 since 18
about group g
says groups are 1 without g
because answer 1
command GROUP g
answer 211 3 1 5 g
in no group
says group g
bad answer 21 Contradiction
command LIST ACTIVE
answer 215 list
in h since 16 at 1 since 18
about number h 3
says numbers h within 1-2
because answer 17
command NEXT
answer 223 3 <h3@x>
in h since 16 at first
says next h from first is 3
says number h 3 is <h3@x>
end answers=22 bad=12 unanswered=0
";

/// Commands, of which some are answered so that no spool has it with what was said before, by all that answers say.
const SAYS_CLIENT: &[u8] = b"GROUP g\r\nSTAT\r\nSTAT 2\r\nSTAT\r\nSTAT\r\nNEXT\r\nSTAT 7\r\n\
GROUP h\r\nSTAT 5\r\nLAST\r\nSTAT 2\r\n\
GROUP i\r\nSTAT 5\r\nLAST\r\nSTAT 4\r\nSTAT 12\r\n\
GROUP j\r\nSTAT\r\nSTAT 5\r\n\
GROUP k\r\nNEXT\r\nSTAT 5\r\nSTAT 6\r\n\
LISTGROUP l 3-7\r\nSTAT 5\r\nSTAT 4\r\n\
LIST ACTIVE m*\r\nGROUP m\r\nGROUP m\r\nSTAT 12\r\n\
ARTICLE <d@x>\r\nHEAD <d@x>\r\nBODY <d@x>\r\nQUIT\r\n";

const SAYS_SERVER: &[u8] =
    b"200 hi\r\n211 5 1 9 g\r\n223 4 <d@x>\r\n223 2 <b@x>\r\n223 5 <e@x>\r\n420 no\r\n421 no\r\n223 7 <g@x>\r\n\
211 5 1 9 h\r\n223 5 <h5@x>\r\n422 no\r\n223 2 <h2@x>\r\n\
211 5 1 9 i\r\n223 5 <i5@x>\r\n223 3 <i3@x>\r\n223 4 <i4@x>\r\n223 12 <i12@x>\r\n\
211 5 1 9 j\r\n420 no\r\n223 5 <j5@x>\r\n\
211 5 1 9 k\r\n421 no\r\n223 5 <k5@x>\r\n223 6 <k6@x>\r\n\
211 3 2 9 l\r\n3\r\n4\r\n7\r\n.\r\n223 5 <l5@x>\r\n423 no\r\n\
215 list\r\nm 9 1 y\r\n.\r\n411 no\r\n211 5 1 9 m\r\n223 12 <m12@x>\r\n\
220 0 <d@x>\r\nA: 1\r\nB: 2\r\n\r\nx\r\n.\r\n221 0 <d@x>\r\nA: 1\r\n.\r\n222 0 <d@x>\r\ny\r\n.\r\n205 bye\r\n";

const SAYS_REPORT: &[u8] = b"bad answer 3 Contradiction
command STAT 2
answer 223 2 <b@x>
in g since 1 at 4 since 2
about number g 2
says number g 2 is <b@x>
because answer 2
command STAT
answer 223 4 <d@x>
in g since 1 at first
says first g is 4
bad answer 4 Contradiction
command STAT
answer 223 5 <e@x>
in g since 1 at 4 since 2
about step g
says current g 4 is 5
says number g 5 is <e@x>
bad answer 5 Contradiction
command STAT
answer 420 no
in g since 1 at 4 since 2
about step g
says current g 4 is missing
bad answer 7 Contradiction
command STAT 7
answer 223 7 <g@x>
in g since 1 at 4 since 2
about number g 7
says number g 7 is <g@x>
because answer 6
command NEXT
answer 421 no
in g since 1 at 4 since 2
says next g from 4 is missing
bad answer 11 Contradiction
command STAT 2
answer 223 2 <h2@x>
in h since 8 at 5 since 9
about number h 2
says number h 2 is <h2@x>
because answer 10
command LAST
answer 422 no
in h since 8 at 5 since 9
says last h from 5 is missing
bad answer 15 Contradiction
command STAT 4
answer 223 4 <i4@x>
in i since 12 at 3 since 14
about number i 4
says number i 4 is <i4@x>
because answer 14
command LAST
answer 223 3 <i3@x>
in i since 12 at 5 since 13
says last i from 5 is 3
bad answer 16 Contradiction
command STAT 12
answer 223 12 <i12@x>
in i since 12 at 3 since 14
about number i 12
says number i 12 is <i12@x>
because answer 12
command GROUP i
answer 211 5 1 9 i
in h since 8 at 5 since 9
says numbers i at most 5 within 1-9
bad answer 19 Contradiction
command STAT 5
answer 223 5 <j5@x>
in j since 17 at first
about number j 5
says number j 5 is <j5@x>
because answer 18
command STAT
answer 420 no
in j since 17 at first
says first j is missing
bad answer 23 Contradiction
command STAT 6
answer 223 6 <k6@x>
in k since 20 at 5 since 22
about first k
says number k 6 is <k6@x>
because answer 21
command NEXT
answer 421 no
in k since 20 at first
says next k from first is missing
because answer 22
command STAT 5
answer 223 5 <k5@x>
in k since 20 at first
says number k 5 is <k5@x>
bad answer 25 Contradiction
command STAT 5
answer 223 5 <l5@x>
in l since 24 at first
about number l 5
says number l 5 is <l5@x>
because answer 24
command LISTGROUP l 3-7
answer 211 3 2 9 l
in k since 20 at 5 since 22
says numbers l 3-7 are 3 without 5
bad answer 26 Contradiction
command STAT 4
answer 423 no
in l since 24 at first
about number l 4
says number l 4 is missing
because answer 24
command LISTGROUP l 3-7
answer 211 3 2 9 l
in k since 20 at 5 since 22
says numbers l 3-7 are 3 with 4
bad answer 28 Contradiction
command GROUP m
answer 411 no
in l since 24 at first
about group m
says no group m
because answer 27
command LIST ACTIVE m*
answer 215 list
in l since 24 at first
says groups are 1 with m
bad answer 30 Contradiction
command STAT 12
answer 223 12 <m12@x>
in m since 29 at first
about number m 12
says number m 12 is <m12@x>
because answer 27
command LIST ACTIVE m*
answer 215 list
in l since 24 at first
says numbers m within 1-9
bad answer 32 Contradiction
command HEAD <d@x>
answer 221 0 <d@x>
in m since 29 at first
about head <d@x>
says head <d@x> 1 lines, line 2 is missing
because answer 31
command ARTICLE <d@x>
answer 220 0 <d@x>
in m since 29 at first
says head <d@x> 2 lines, line 2 is B: 2
bad answer 33 Contradiction
command BODY <d@x>
answer 222 0 <d@x>
in m since 29 at first
about body <d@x>
says body <d@x> 1 lines, line 1 is y
because answer 31
command ARTICLE <d@x>
answer 220 0 <d@x>
in m since 29 at first
says body <d@x> 1 lines, line 1 is x
end answers=35 bad=15 unanswered=0
";

/// A conflict about each kind of point.
pub(crate) const POINTS: &[Reported] = &[Reported {
    name: "each kind of point about which answers conflict",
    task: EXPLAIN,
    client: POINTS_CLIENT,
    server: POINTS_SERVER,
    report: POINTS_REPORT,
    answer: false,
}];

/// Conflicts by each thing that answers say.
pub(crate) const SAYS: &[Reported] = &[Reported {
    name: "each thing that answers say about a point",
    task: EXPLAIN,
    client: SAYS_CLIENT,
    server: SAYS_SERVER,
    report: SAYS_REPORT,
    answer: false,
}];
