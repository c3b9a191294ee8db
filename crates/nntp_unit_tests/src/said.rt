//! What answers say, fact by fact: each is looked at where it stands, and passed.
use nntp_said::{Fact, Position, SaidFacts, facts_of};
use nntp_wire::{Answer, Command, Marks, Overviews, Prompt, frame};
use std::process::Abort;

/// A line, the answer to it, and of what the facts speak that it says, first to last.
type Row = (&'static [u8], &'static [u8], &'static [&'static str]);

const ROWS: &[Row] = &[
    (b"HELP", b"500 no\r\n", &[]),
    (b"GROUP g", b"411 no\r\n", &["no group"]),
    (b"NEXT", b"421 no\r\n", &["numbers"]),
    (b"NEXT", b"223 2 <a@b>\r\n", &["numbers", "id"]),
    (b"STAT <a@b>", b"223 0 <a@b>\r\n", &["article"]),
    (b"STAT 2", b"223 2 <a@b>\r\n", &["article", "id"]),
    (b"STAT", b"223 2 <a@b>\r\n", &["article", "numbers", "id"]),
    (b"OVER 1-3", b"423 no\r\n", &["numbers"]),
    (b"XOVER 1-3", b"420 no\r\n", &["numbers"]),
    (b"OVER 1-3", b"420 no\r\n", &[]),
    (b"OVER <a@b>", b"430 no\r\n", &["no article"]),
    (b"OVER", b"420 no\r\n", &["numbers"]),
    (
        b"XOVER 1-3",
        b"224 x\r\n1\ts\tf\td\t<a@b>\r\n3\ts\tf\td\t<c@d>\r\n.\r\n",
        &["overviews"],
    ),
    (
        b"OVER <a@b>",
        b"224 x\r\n0\ts\tf\td\t<a@b>\r\n.\r\n",
        &["fields"],
    ),
    (
        b"OVER <a@b>",
        b"224 x\r\n2\ts\tf\td\t<a@b>\r\n.\r\n",
        &["fields", "id"],
    ),
    (
        b"OVER",
        b"224 x\r\n2\ts\tf\td\t<a@b>\r\n.\r\n",
        &["fields", "numbers", "id"],
    ),
    (b"OVER", b"224 x\r\n.\r\n", &[]),
    (b"HDR Message-ID 1-3", b"423 no\r\n", &["numbers"]),
    (b"XHDR Message-ID 1-3", b"423 no\r\n", &["numbers"]),
    (b"XHDR Message-ID 1-3", b"420 no\r\n", &["numbers"]),
    (b"HDR Message-ID 1-3", b"420 no\r\n", &[]),
    (b"HDR Message-ID 1-3", b"412 no\r\n", &[]),
    (
        b"HDR Message-ID 1-3",
        b"225 x\r\n1 <a@b>\r\n3 <c@d>\r\n.\r\n",
        &["overviews"],
    ),
    (b"XHDR Message-ID 1-3", b"221 x\r\n.\r\n", &["overviews"]),
    (b"HDR Message-ID 1-3", b"221 x\r\n1 x\r\n.\r\n", &[]),
    (b"HDR Subject 1-3", b"225 x\r\n1 <a@b>\r\n.\r\n", &[]),
    (b"HDR Subject 1-3", b"423 no\r\n", &[]),
    (
        b"LISTGROUP g",
        b"211 0 1 0 g\r\n.\r\n",
        &["group", "numbers", "numbers"],
    ),
];

/// Of what the first of the facts speaks.
fn first_of(facts: &SaidFacts<'_>) -> &'static str {
    match facts.first() {
        Some(Fact::ThereIs(_)) => "group",
        Some(Fact::ThereIsNo(_)) => "no group",
        Some(Fact::Asks(_, _)) => "numbers",
        Some(Fact::IdAt(_, _, _)) => "id",
        Some(Fact::TextIs { .. }) => "article",
        Some(Fact::NoArticle(_)) => "no article",
        Some(Fact::FieldsAre { .. }) => "fields",
        Some(Fact::OverviewsAre { .. }) => "overviews",
        Some(Fact::GroupsAre { .. }) => "groups",
        None => "nothing",
    }
}

/// The facts speak of this, one after the other, and then none is left.
fn expect(rt: &impl Abort, facts: &mut SaidFacts<'_>, wanted: &[&'static str]) {
    for want in wanted {
        assert!(rt; first_of(facts) == *want, "{want}");
        facts.pass_first();
    }
    assert!(rt; facts.first().is_none());
    facts.pass_first();
    assert!(rt; facts.first().is_none());
}

#[test]
fn facts_are_passed(rt: HostRuntime) {
    for &(line, sent, wanted) in ROWS {
        let prompt = Prompt::To(Command::parse_as(Overviews::Judged, line));
        let Some(frame) = frame(&prompt, sent) else {
            panic!(rt; "no response");
        };
        let Ok(answer) = Answer::parse(&prompt, &frame) else {
            panic!(rt; "no answer");
        };
        let mut facts = facts_of(Marks::Lenient, b"g", Position::First, &prompt, &answer);
        expect(&rt, &mut facts, wanted);
    }
}
