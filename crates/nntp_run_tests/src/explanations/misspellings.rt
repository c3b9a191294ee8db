//! A session with an answer for each reason why a frame spells nothing, and what `explain` prints of it.
use crate::reported::Reported;
use crate::tasks::EXPLAIN;

/// Commands, of which the last alone is answered by what spells an answer.
const MISSPELLED_CLIENT: &[u8] = b"DATE\r\nGROUP g\r\nGROUP g\r\nSTAT 1\r\nSTAT <a@b>\r\nHELP\r\n\
BODY <a@b>\r\nLISTGROUP g\r\nLIST ACTIVE\r\nCAPABILITIES\r\nCAPABILITIES\r\nQUIT\r\n";

const MISSPELLED_SERVER: &[u8] = b"200 hi\r\n111 a\0b\r\n211 1 x 1 g\r\n211 1 1 1\r\n\
223 1 a@b\r\n223\r\n100 help\r\na\r\nb\0\r\n.\r\n\
222 0 <a@b>\r\na\r\n..\r\n.b\r\n.\r\n\
211 2 1 2 g\r\n1\r\nx\r\n.\r\n\
215 list\r\ng 1 x y\r\n.\r\n\
101 capabilities\r\nREADER\r\n.\r\n\
101 capabilities\r\n.\r\n\
205 bye\r\n";

const MISSPELLED_REPORT: &[u8] = b"bad answer 1 Malformed
command DATE
answer 111 a\\x00b
in no group
why octet
bad answer 2 Malformed
command GROUP g
answer 211 1 x 1 g
in no group
why argument 2 number
bad answer 3 Malformed
command GROUP g
answer 211 1 1 1
in no group
why argument 4 group
bad answer 4 Malformed
command STAT 1
answer 223 1 a@b
in no group
why argument 2 id
bad answer 5 Malformed
command STAT <a@b>
answer 223
in no group
why argument 1 number
bad answer 6 Malformed
command HELP
answer 100 help
in no group
why block line 2 octet
bad answer 7 Malformed
command BODY <a@b>
answer 222 0 <a@b>
in no group
why block line 3 dot
bad answer 8 Malformed
command LISTGROUP g
answer 211 2 1 2 g
in no group
why block line 2 number
bad answer 9 Malformed
command LIST ACTIVE
answer 215 list
in no group
why block line 1 group
bad answer 10 Malformed
command CAPABILITIES
answer 101 capabilities
in no group
why block line 1 versions
bad answer 11 Malformed
command CAPABILITIES
answer 101 capabilities
in no group
why block line 1 versions
end answers=13 bad=11 unanswered=0
";

/// Answers of which each breaks another rule of spelling.
pub(crate) const MISSPELLINGS: &[Reported] = &[Reported {
    name: "each reason why a frame spells nothing, but a line that is too long",
    task: EXPLAIN,
    client: MISSPELLED_CLIENT,
    server: MISSPELLED_SERVER,
    report: MISSPELLED_REPORT,
    answer: false,
}];
