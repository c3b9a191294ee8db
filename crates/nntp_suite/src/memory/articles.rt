//! Want of memory while a header's content and the control messages of a head are read.
use nntp_article::{Control, Head, content, control};
use nntp_little_memory::{Ended, refuse_each, right_if};
use nntp_refusing::Refusing;
use nntp_wire::{Answer, Command, Prompt, frame};
use std::alloc::Global;
use std::test::Fail;

/// An answer to HEAD whose first header is on two lines.
const CANCEL: &[u8] = b"221 0 <c@x>\r\nControl: cancel\r\n <a@b>\r\nMessage-ID: <c@x>\r\n.\r\n";

/// An answer to HEAD with a Control header of each other kind.
const GROUPS: &[u8] =
    b"221 0 <c@x>\r\nControl: newgroup comp.x moderated\r\nControl: rmgroup comp.y\r\nControl: checkgroups\r\n.\r\n";

/// The head that an answer to HEAD sends.
fn head(answer: &[u8]) -> Option<Head<'_>> {
    let prompt = Prompt::To(Command::parse(b"HEAD <c@x>"));
    let frame = frame(&prompt, answer)?;
    match Answer::parse(&prompt, &frame) {
        Ok(
            Answer::Sent {
                block: Some(block),
                ..
            },
        ) => Head::parse(&block),
        _ => None,
    }
}

/// The content of each header of the answer.
fn contents(heap: &Refusing<Global>, answer: &[u8], wanted: &[&[u8]]) -> Ended {
    let Some(head) = head(answer) else {
        return Ended::Wrong;
    };
    let mut headers = head.headers();
    for want in wanted {
        let Some(header) = headers.next() else {
            return Ended::Wrong;
        };
        match content(heap, &header) {
            Ok(octets) if octets.as_slice() == *want => {}
            Ok(_) => return Ended::Wrong,
            Err(_) => return Ended::Memory,
        }
    }
    right_if(headers.next().is_none())
}

/// Answers by name, and the content of each of their headers.
const CONTENTS: [(&str, &[u8], &[&[u8]]); 2] = [
    (
        "a header of two lines",
        CANCEL,
        &[b"cancel <a@b>", b"<c@x>"],
    ),
    (
        "three headers",
        GROUPS,
        &[
            b"newgroup comp.x moderated",
            b"rmgroup comp.y",
            b"checkgroups",
        ],
    ),
];

#[test]
fn contents_of_headers(rt: HostRuntime) -> Result<(), Fail> {
    for (name, answer, wanted) in CONTENTS {
        let refused = refuse_each(rt.alloc(), name, |heap| contents(heap, answer, wanted))?;
        assert!(rt; refused >= 3, "{refused}");
    }
    Ok(())
}

/// A word for the kind of a control message, and its octets.
fn shown<'a>(control: &'a Control<&Refusing<Global>>) -> (&'static [u8], &'a [u8]) {
    match control {
        Control::Cancel(id) => (b"cancel", id),
        Control::NewGroup {
            name,
            moderated: false,
        } => (b"newgroup", name),
        Control::NewGroup {
            name,
            moderated: true,
        } => (b"moderated newgroup", name),
        Control::RmGroup(name) => (b"rmgroup", name),
        Control::Other(content) => (b"other", content),
    }
}

/// What the Control headers of the answer say.
fn controls(heap: &Refusing<Global>, answer: &[u8], wanted: &[(&[u8], &[u8])]) -> Ended {
    let Some(head) = head(answer) else {
        return Ended::Wrong;
    };
    let Ok(controls) = control(heap, &head) else {
        return Ended::Memory;
    };
    if controls.len() != wanted.len() {
        return Ended::Wrong;
    }
    for (control, (kind, octets)) in controls.iter().zip(wanted) {
        let (shown_kind, shown_octets) = shown(control);
        if shown_kind != *kind || shown_octets != *octets {
            return Ended::Wrong;
        }
    }
    Ended::Right
}

/// Answers by name, and what each of their Control headers says.
const CONTROLS: [(&str, &[u8], &[(&[u8], &[u8])]); 2] = [
    ("a cancellation", CANCEL, &[(b"cancel", b"<a@b>")]),
    (
        "groups",
        GROUPS,
        &[
            (b"moderated newgroup", b"comp.x"),
            (b"rmgroup", b"comp.y"),
            (b"other", b"checkgroups"),
        ],
    ),
];

#[test]
fn control_messages(rt: HostRuntime) -> Result<(), Fail> {
    for (name, answer, wanted) in CONTROLS {
        let refused = refuse_each(rt.alloc(), name, |heap| controls(heap, answer, wanted))?;
        assert!(rt; refused >= 3, "{refused}");
    }
    Ok(())
}
