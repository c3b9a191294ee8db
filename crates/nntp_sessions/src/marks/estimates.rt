//! Estimates beside marks.
use super::{Outcome, Row};

const ROWS: &[Row] = &[
    Row {
        name: "an estimate of one, and two marks",
        client: "GROUP g\r\nNEXT\r\n",
        server: "200 hi\r\n211 1 1 5 g\r\n223 4 <b@x>\r\n",
        lenient: Outcome::Contradiction(2),
        strict: Outcome::Contradiction(2),
    },
    Row {
        name: "an estimate of one, and the low mark is a number",
        client: "GROUP g\r\nSTAT 1\r\n",
        server: "200 hi\r\n211 1 1 5 g\r\n223 1 <a@b>\r\n",
        lenient: Outcome::Consistent(3, "g 1<a@b>\n"),
        strict: Outcome::Contradiction(2),
    },
    Row {
        name: "an estimate of one, and the high mark is a number",
        client: "GROUP g\r\nSTAT 5\r\n",
        server: "200 hi\r\n211 1 1 5 g\r\n223 5 <a@b>\r\n",
        lenient: Outcome::Consistent(3, "g 5<a@b>\n"),
        strict: Outcome::Contradiction(2),
    },
    Row {
        name: "an estimate of one, and no article behind the first",
        client: "GROUP g\r\nNEXT\r\n",
        server: "200 hi\r\n211 1 1 5 g\r\n421 no\r\n",
        lenient: Outcome::Consistent(3, "g unseen 1\n"),
        strict: Outcome::Contradiction(2),
    },
    Row {
        name: "an estimate of one, and no article before the first",
        client: "GROUP g\r\nLAST\r\n",
        server: "200 hi\r\n211 1 1 5 g\r\n422 no\r\n",
        lenient: Outcome::Consistent(3, "g unseen 1\n"),
        strict: Outcome::Contradiction(2),
    },
    Row {
        name: "an estimate of one, and no article",
        client: "GROUP g\r\nSTAT\r\n",
        server: "200 hi\r\n211 1 1 5 g\r\n420 no\r\n",
        lenient: Outcome::Consistent(3, "g\n"),
        strict: Outcome::Consistent(3, "g\n"),
    },
    Row {
        name: "an estimate of none, and an article",
        client: "GROUP g\r\nSTAT 1\r\n",
        server: "200 hi\r\n211 0 1 5 g\r\n223 1 <a@b>\r\n",
        lenient: Outcome::Contradiction(2),
        strict: Outcome::Contradiction(2),
    },
    Row {
        name: "an estimate of two, and the low mark is a number",
        client: "GROUP g\r\nSTAT 1\r\n",
        server: "200 hi\r\n211 2 1 5 g\r\n223 1 <a@b>\r\n",
        lenient: Outcome::Consistent(3, "g 1<a@b>\n"),
        strict: Outcome::Consistent(3, "g 1<a@b> unseen high 5\n"),
    },
    Row {
        name: "an estimate of two, and the high mark is a number",
        client: "GROUP g\r\nSTAT 5\r\n",
        server: "200 hi\r\n211 2 1 5 g\r\n223 5 <a@b>\r\n",
        lenient: Outcome::Consistent(3, "g 5<a@b>\n"),
        strict: Outcome::Consistent(3, "g 5<a@b> unseen 1\n"),
    },
    Row {
        name: "an estimate of two, and both marks are numbers",
        client: "GROUP g\r\nSTAT 1\r\nNEXT\r\n",
        server: "200 hi\r\n211 2 1 5 g\r\n223 1 <a@b>\r\n223 5 <b@x>\r\n",
        lenient: Outcome::Consistent(4, "g 1<a@b> 5<b@x>\n"),
        strict: Outcome::Consistent(4, "g 1<a@b> 5<b@x>\n"),
    },
    Row {
        name: "an estimate of two, and a number between the marks",
        client: "GROUP g\r\nSTAT 3\r\n",
        server: "200 hi\r\n211 2 1 5 g\r\n223 3 <a@b>\r\n",
        lenient: Outcome::Consistent(3, "g 3<a@b>\n"),
        strict: Outcome::Contradiction(2),
    },
    Row {
        name: "an estimate of two, and no article before the first",
        client: "GROUP g\r\nLAST\r\n",
        server: "200 hi\r\n211 2 1 5 g\r\n422 no\r\n",
        lenient: Outcome::Consistent(3, "g unseen 1\n"),
        strict: Outcome::Consistent(3, "g unseen 1 unseen high 5\n"),
    },
];

/// Hands them out.
pub(super) fn rows() -> &'static [Row] {
    ROWS
}
