//! What heads and overviews tell of four headers, where they differ, and heads that are made of it.
use nntp_article::{Field, FieldWords, Fields, ToldFields, made_head};
use nntp_refusing::{Refusal, Refusing};
use nntp_wire::{
    Answer, Block, Command, MessageId, OwnedBlock, Prompt, frame, listed_id, overview_line,
};
use std::alloc::{AllocError, Allocator};
use std::process::Abort;

/// The words of Subject, From, Date and References.
type Told = [&'static [&'static [u8]]; 4];

/// A response to BODY, and what its lines tell as a head.
type Head = (&'static [u8], Told);

const HEADS: &[Head] = &[
    (b"222 0 <z@x>\r\n.\r\n", [&[], &[], &[], &[]]),
    // All of the four, the last one folded.
    (
        b"222 0 <z@x>\r\nPath: p\r\nSubject: a b\r\nFrom: A <a@x>\r\nDate: 1 Jan 2000\r\n\
          References: <a@x>\r\n\t<b@x> <c@x>\r\n\t<d@x>\r\nXref: y\r\n.\r\n",
        [
            &[b"a", b"b"],
            &[b"A", b"<a@x>"],
            &[b"1", b"Jan", b"2000"],
            &[b"<a@x>", b"<b@x>", b"<c@x>", b"<d@x>"],
        ],
    ),
    // The second header of a name, and what continues it, are passed over.
    (
        b"222 0 <z@x>\r\nSubject: one\r\nSubject: two\r\n three\r\n.\r\n",
        [&[b"one"], &[], &[], &[]],
    ),
    // Also where the first has no word.
    (
        b"222 0 <z@x>\r\nSubject:\r\nFrom: f\r\nSubject: two\r\n.\r\n",
        [&[], &[b"f"], &[], &[]],
    ),
    // Upper and lower case, and no blank behind the colon.
    (
        b"222 0 <z@x>\r\nreferences:<a@x>\r\nSUBJECT:s\r\nfROM:\tf\r\ndate: d\r\n.\r\n",
        [&[b"s"], &[b"f"], &[b"d"], &[b"<a@x>"]],
    ),
    // Nothing behind the colon, or blanks alone.
    (
        b"222 0 <z@x>\r\nSubject:\r\nFrom: \r\nDate:\t \t\r\nX: y\r\n.\r\n",
        [&[], &[], &[], &[]],
    ),
    // Words on continuation lines alone, and blanks on one of these.
    (
        b"222 0 <z@x>\r\nDate:\r\n 1\r\n \r\n\t\t2 3 \r\nSubject: s\r\n t\r\n.\r\n",
        [&[b"s", b"t"], &[], &[b"1", b"2", b"3"], &[]],
    ),
    // A line that continues a header has no name, and the first of all has none either.
    (
        b"222 0 <z@x>\r\n Subject: a\r\nX: y\r\n\tFrom: f\r\n Date: d\r\n.\r\n",
        [&[], &[], &[], &[]],
    ),
    // Names that are longer or shorter, a line of a name alone, and a second colon.
    (
        b"222 0 <z@x>\r\nSubjects: a\r\nSubject : b\r\nSubjec: c\r\nDate: a: b\r\n.\r\n",
        [&[], &[], &[b"a:", b"b"], &[]],
    ),
    // An empty line ends the header.
    (
        b"222 0 <z@x>\r\nFrom: f\r\n\r\n g\r\n.\r\n",
        [&[], &[b"f"], &[], &[]],
    ),
];

/// An overview, and what it tells.
type Overview = (&'static [u8], Told);

const OVERVIEWS: &[Overview] = &[
    (
        b"3\ta b\tA <a@x>\t1 Jan 2000\t<z@x>\t<a@x>  <b@x>\t10\t2",
        [
            &[b"a", b"b"],
            &[b"A", b"<a@x>"],
            &[b"1", b"Jan", b"2000"],
            &[b"<a@x>", b"<b@x>"],
        ],
    ),
    (b"3\t\t \td\t<z@x>", [&[], &[], &[b"d"], &[]]),
    (b"3\ts\tf\td\t<z@x>\t\t10", [&[b"s"], &[b"f"], &[b"d"], &[]]),
];

/// An overview that differs from the first of the rows below, and the first header that does.
type Difference = (&'static [u8], Option<Field>);

const DIFFERENCES: &[Difference] = &[
    (b"1\ts t\tf\td\t<z@x>\tr", None),
    (b"2\t s  t \tf \t d\t<y@x>\tr \t7", None),
    (b"1\ts\tf\td\t<z@x>\tr", Some(Field::Subject)),
    (b"1\ts t u\tg\te\t<z@x>\tq", Some(Field::Subject)),
    (b"1\tt s\tf\td\t<z@x>\tr", Some(Field::Subject)),
    (b"1\tS t\tf\td\t<z@x>\tr", Some(Field::Subject)),
    (b"1\ts t\tg\te\t<z@x>\tr", Some(Field::From)),
    (b"1\ts t\tf\t\t<z@x>\tr", Some(Field::Date)),
    (b"1\ts t\tf\td\t<z@x>\tr r", Some(Field::References)),
    (b"1\ts t\tf\td\t<z@x>", Some(Field::References)),
];

/// A response to BODY, and one whose lines are the head that is made of what its lines tell.
type Made = (&'static [u8], &'static [u8]);

const MADE: &[Made] = &[
    (
        b"222 0 <z@x>\r\nDate:\r\n.\r\n",
        b"222 0 <z@x>\r\nMessage-ID: <z@x>\r\n.\r\n",
    ),
    (
        b"222 0 <z@x>\r\nreferences: <a@x>\r\n\t<b@x>\r\nfrom:f\r\n.\r\n",
        b"222 0 <z@x>\r\nMessage-ID: <z@x>\r\nFrom: f\r\nReferences: <a@x> <b@x>\r\n.\r\n",
    ),
    (
        b"222 0 <z@x>\r\nDate: 1  Jan\r\nSubject: .a b\r\nReferences: <a@x>\r\nFrom: f\r\n.\r\n",
        b"222 0 <z@x>\r\nMessage-ID: <z@x>\r\nSubject: .a b\r\nFrom: f\r\nDate: 1 Jan\r\nReferences: <a@x>\r\n.\r\n",
    ),
];

/// The lines of a response to BODY, and the id that it names.
fn body(sent: &'static [u8]) -> Option<(MessageId<'static>, Block<'static>)> {
    let prompt = Prompt::To(Command::parse(b"BODY <z@x>"));
    let frame = frame(&prompt, sent)?;
    match Answer::parse(&prompt, &frame) {
        Ok(Answer::Sent { id, block, .. }) => Some((id, block?)),
        _ => None,
    }
}

/// The words are these.
fn are(words: FieldWords<'_>, wanted: &[&[u8]]) -> bool {
    let mut words = words;
    for word in wanted {
        if words.next() != Some(*word) {
            return false;
        }
    }
    words.next().is_none() && words.next().is_none()
}

#[test]
fn heads_tell_words(rt: HostRuntime) {
    for &(sent, [subject, from, date, references]) in HEADS {
        let Some((_, block)) = body(sent) else {
            panic!(rt; "no lines");
        };
        let told = Fields::of_head(&block);
        assert!(rt; are(told.subject, subject), "Subject of {sent:?}");
        assert!(rt; are(told.from, from), "From of {sent:?}");
        assert!(rt; are(told.date, date), "Date of {sent:?}");
        assert!(rt; are(told.references, references), "References of {sent:?}");
    }
}

#[test]
fn overviews_tell_words(rt: HostRuntime) {
    let fields = [Field::Subject, Field::From, Field::Date, Field::References];
    for &(line, wanted) in OVERVIEWS {
        for (field, words) in fields.into_iter().zip(wanted) {
            let Some(told) = told_by(line) else {
                panic!(rt; "no overview");
            };
            assert!(rt; are(told.of(field), words), "{line:?}");
        }
    }
}

#[test]
fn listed_ids_tell_no_words(rt: HostRuntime) {
    let Some(listed) = listed_id(b"3 <z@x>") else {
        panic!(rt; "no id");
    };
    assert!(rt; Fields::of_overview(&listed).is_none());
}

#[test]
fn names_of_fields(rt: HostRuntime) {
    assert_eq!(rt; Field::Subject.name(), "Subject");
    assert_eq!(rt; Field::From.name(), "From");
    assert_eq!(rt; Field::Date.name(), "Date");
    assert_eq!(rt; Field::References.name(), "References");
}

/// What the overview tells, if the line is one.
fn told_by(line: &[u8]) -> Option<Fields<'_>> {
    Fields::of_overview(&overview_line(line)?)
}

#[test]
fn first_differences(rt: HostRuntime) {
    for &(line, wanted) in DIFFERENCES {
        let (Some(one), Some(other)) = (told_by(b"1\ts t\tf\td\t<z@x>\tr"), told_by(line)) else {
            panic!(rt; "no overview");
        };
        assert!(rt; one.first_difference(other) == wanted, "{line:?}");
    }
}

/// Makes a head of what the lines tell.
fn made_of<A: Allocator + Copy>(
    alloc: A,
    id: &MessageId<'_>,
    lines: &Block<'_>,
) -> Result<OwnedBlock<A>, AllocError> {
    let lines = lines.to_owned(alloc)?;
    let told = ToldFields::of(alloc, Fields::of_head(&lines.as_block()))?;
    made_head(alloc, id, Some(&told))
}

#[test]
fn heads_that_are_made(rt: HostRuntime) {
    for &(sent, wanted) in MADE {
        let (Some((id, lines)), Some((_, wanted))) = (body(sent), body(wanted)) else {
            panic!(rt; "no lines");
        };
        let Ok(head) = made_of(rt.alloc(), &id, &lines) else {
            panic!(rt; "no memory");
        };
        assert!(rt; head.as_block().is_same(&wanted), "{sent:?}");
    }
}

#[test]
fn head_of_an_id_alone(rt: HostRuntime) {
    let Some((id, wanted)) = body(b"222 0 <z@x>\r\nMessage-ID: <z@x>\r\n.\r\n") else {
        panic!(rt; "no lines");
    };
    let Ok(head) = made_head(rt.alloc(), &id, None) else {
        panic!(rt; "no memory");
    };
    assert!(rt; head.as_block().is_same(&wanted));
}

#[test]
fn refused_memory_makes_no_head(rt: HostRuntime) {
    let Some((id, lines)) = body(b"222 0 <z@x>\r\nSubject: s\r\nFrom: f\r\n.\r\n") else {
        panic!(rt; "no lines");
    };
    let heap = Refusing::new(rt.alloc(), Refusal::Never);
    assert!(rt; made_of(&heap, &id, &lines).is_ok());
    for n in 1..=heap.requests() {
        let heap = Refusing::new(rt.alloc(), Refusal::One(n));
        assert!(rt; made_of(&heap, &id, &lines).is_err(), "{n}");
        assert!(rt; heap.has_refused(), "{n}");
    }
}
