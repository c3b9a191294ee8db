//! Where responses end, a wildmat with many stars, and what lines tell of articles.
use nntp_wire::{Answer, Block, Command, GroupName, Prompt, Wildmat, frame, listed_id};
use std::process::Abort;

/// A line, what the server sends, and how many octets of that are the response to the line.
type Row = (&'static [u8], &'static [u8], Option<usize>);

const ROWS: &[Row] = &[
    // Without a block: octets stand behind, or what begins the line isn't a code that a block follows.
    (b"GROUP g", b"211 0 1 0 g\r\nmore", Some(13)),
    (b"HELP", b"1000 help\r\n", Some(11)),
    (b"HELP", b"100\thelp\r\n", Some(10)),
    (b"HELP", b"100-help\r\n", Some(10)),
    (b"HELP", b"500 a\rb\nc\r\n", Some(11)),
    (b"HELP", b"\r\n", Some(2)),
    (b"HELP", b"500 no\r", None),
    (b"HELP", b"", None),
    // With a block, up to the first line that is a dot alone.
    (b"HELP", b"100\r\n.\r\nmore", Some(8)),
    (b"HELP", b"100\r\na\r\n.\r\n", Some(11)),
    (b"HELP", b"100 help\r\n..\r\n.\r\n", Some(17)),
    (b"HELP", b"100 help\r\na.\r\n.\r\n", Some(17)),
    (b"HELP", b"100\r\n.\n.\r\n.\r\n", Some(13)),
    (b"HELP", b"100\r\n\r\n.\r\n", Some(10)),
    (b"HELP", b"100\r\na\r\n.", None),
    (b"HELP", b"100\r\na\r\n.\r", None),
    (b"HELP", b"100\r\n.\r", None),
    (b"HELP", b"100\r\na\r\n", None),
    (b"HELP", b"100\r\n", None),
    // After 211 a block follows only in response to LISTGROUP.
    (b"GROUP g", b"211 0 1 0 g\r\n.\r\nmore", Some(13)),
    (b"LISTGROUP g", b"211 0 1 0 g\r\n.\r\nmore", Some(16)),
    (b"LISTGROUP", b"211 0 1 0 g\r\nmore\r\n", None),
];

/// How many octets the response to a line takes at the front of a stream.
fn frame_len(line: &[u8], stream: &[u8]) -> Option<usize> {
    let prompt = Prompt::To(Command::parse(line));
    Some(frame(&prompt, stream)?.len())
}

#[test]
fn lengths_of_frames(rt: HostRuntime) {
    for &(line, stream, want) in ROWS {
        assert!(rt; frame_len(line, stream) == want, "{stream:?}");
    }
}

/// Whether the wildmat matches the name, where they are one.
fn matches(wildmat: &[u8], name: &[u8]) -> Option<bool> {
    let wildmat = Wildmat::parse(wildmat)?;
    let name = GroupName::parse(name)?;
    Some(wildmat.matches(&name))
}

#[test]
fn many_stars_answer_at_once(rt: HostRuntime) {
    let mut pattern = [b'a'; 400];
    for (i, item) in pattern.iter_mut().enumerate() {
        if i % 2 == 0 {
            *item = b'*';
        }
    }
    let mut name = [b'a'; 401];
    assert!(rt; matches(&pattern, &name) == Some(true));
    name[400] = b'b';
    assert!(rt; matches(&pattern, &name) == Some(false));
}

/// A line, and the number and the id that it lists.
type Listed = (&'static [u8], Option<(u64, &'static [u8])>);

const LISTED: &[Listed] = &[
    (b"3 <z@x>", Some((3, b"<z@x>"))),
    (b"  03   <z@x> ", Some((3, b"<z@x>"))),
    (b"0 <z@x>", Some((0, b"<z@x>"))),
    (
        b"1234567890123456 <z@x>",
        Some((1_234_567_890_123_456, b"<z@x>")),
    ),
    // A number of 17 digits, no number, no id, and another word.
    (b"00000000000000003 <z@x>", None),
    (b"x <z@x>", None),
    (b"<z@x>", None),
    (b"3", None),
    (b"3 z@x", None),
    (b"3 <z@x> x", None),
    (b"", None),
    // A TAB, which parts the fields of an overview.
    (b"3\t<z@x>", None),
    (b"3 <z@x>\t", None),
    (b"3\t\t\t\t<z@x>", None),
];

/// The number and the id that the line lists, if it does.
fn listed(line: &[u8]) -> Option<(u64, &[u8])> {
    let listed = listed_id(line)?;
    Some((listed.number, listed.id.as_slice()))
}

#[test]
fn ids_that_lines_list(rt: HostRuntime) {
    for &(line, want) in LISTED {
        assert!(rt; listed(line) == want, "{line:?}");
    }
}

/// What a line tells of an article: its number, its id, and whether anything is told of headers.
type Told = (u64, &'static [u8], bool);

/// Lines of both kinds, and among them some of neither.
const MIXED: &[u8] = b"222 0 <z@x>\r\n1 <a@x>\r\n2\t\t\t\t<b@x>\r\n3\t<c@x>\r\n\r\n\
    4  <d@x>\r\n5 s f d <e@x>\r\n6\ts\tf\td\t<f@x>\tr\r\n<g@x>\r\n.\r\n";

const TOLD: &[Told] = &[
    (1, b"<a@x>", false),
    (2, b"<b@x>", true),
    (4, b"<d@x>", false),
    (6, b"<f@x>", true),
];

/// The lines of a response to BODY.
fn body(sent: &'static [u8]) -> Option<Block<'static>> {
    let prompt = Prompt::To(Command::parse(b"BODY <z@x>"));
    let frame = frame(&prompt, sent)?;
    match Answer::parse(&prompt, &frame) {
        Ok(Answer::Sent { block, .. }) => block,
        _ => None,
    }
}

/// The lines tell this, first to last, and then nothing.
fn expect(rt: &impl Abort, lines: &Block<'_>, wanted: &[Told]) {
    let mut overviews = lines.overviews();
    for &(number, id, is_told) in wanted {
        let Some(overview) = overviews.next() else {
            panic!(rt; "{number} isn't told");
        };
        assert!(rt; overview.number == number, "{number}");
        assert!(rt; overview.id.as_slice() == id, "{number}");
        assert!(rt; overview.told.is_some() == is_told, "{number}");
    }
    assert!(rt; overviews.next().is_none());
}

#[test]
fn lines_of_both_kinds(rt: HostRuntime) {
    let Some(lines) = body(MIXED) else {
        panic!(rt; "no lines");
    };
    expect(&rt, &lines, TOLD);
}
