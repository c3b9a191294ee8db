//! What the answers say, fact by fact.
use crate::example::conflict::first_contradiction;
use crate::example::session::{CLIENT, ID, NAME, SERVER, are_head_lines};
use nntp_facts::{Ask, Fact, Placed, Position};
use nntp_wire::{Block, Limit, Marks, WaterMarks, What};
use std::process::Abort;
use std::test::Fail;

/// Whether the answer at the place asks this of the numbers.
fn is_asked(place: u64, ask: &Ask<'_>) -> bool {
    match (place, ask) {
        (1, Ask::Estimates { how, marks }) => {
            *how == Marks::Lenient && *marks == WaterMarks::new(3, 1, 9)
        }
        (2, Ask::StepsUp(at, number)) => *at == Position::First && *number == 2,
        (3, Ask::StandsAt(at, number)) => *at == Position::Known(2) && *number == 2,
        (4, Ask::Lacks(number)) => *number == 1,
        _ => false,
    }
}

/// Whether the lines of the head are sent.
fn is_head(what: What, block: Option<&Block<'_>>) -> bool {
    match block {
        Some(block) => what == What::Head && are_head_lines(block.lines()),
        None => false,
    }
}

/// Whether this is what is asked of the numbers of the group by the answer at the place.
fn asks(place: u64, fact: &Fact<'_>) -> bool {
    match fact {
        Fact::Asks(name, ask) => *name == NAME && is_asked(place, ask),
        _ => false,
    }
}

/// Whether this is that there is the group.
fn says_group(fact: &Fact<'_>) -> bool {
    match fact {
        Fact::ThereIs(name) => name.as_slice() == NAME,
        _ => false,
    }
}

/// Whether this is that the group has the id at the number 2.
fn says_id(fact: &Fact<'_>) -> bool {
    match fact {
        Fact::IdAt(name, number, id) => *name == NAME && *number == 2 && id.as_bytes() == ID,
        _ => false,
    }
}

/// Whether this is that the id has this head.
fn says_head(fact: &Fact<'_>) -> bool {
    match fact {
        Fact::TextIs { what, id, block } => id.as_bytes() == ID && is_head(*what, *block),
        _ => false,
    }
}

/// Whether this is what the answer at the place says as the thing of this index.
fn is_said(place: u64, index: u64, fact: &Fact<'_>) -> bool {
    match (place, index) {
        (1, 0) => says_group(fact),
        (1, 1) | (2, 0) | (3, 1) | (4, 0) => asks(place, fact),
        (2, 1) | (3, 2) => says_id(fact),
        (3, 0) => says_head(fact),
        _ => false,
    }
}

/// The answer at the place says so many things.
fn expect(rt: &impl Abort, place: u64, count: u64, answer: &Placed<'_>) {
    let mut facts = answer.facts(Marks::Lenient);
    for index in 0..count {
        let Some(fact) = facts.next() else {
            panic!(rt; "answer {place} says {index} things");
        };
        assert!(rt; is_said(place, index, &fact), "answer {place}, {index}");
    }
    assert!(rt; facts.next().is_none(), "answer {place}");
}

#[test]
fn facts(rt: HostRuntime) -> Result<(), Fail> {
    let (limit, marks) = (Limit::Narrow, Marks::Lenient);
    let Some(found) = first_contradiction(rt.alloc(), limit, marks, CLIENT, SERVER)? else {
        return Err("no answer contradicts those before it".into());
    };
    let [greeting, group, next, head] = found.answers.as_slice() else {
        return Err("not four are accepted before it".into());
    };
    expect(&rt, 0, 0, greeting);
    expect(&rt, 1, 2, group);
    expect(&rt, 2, 2, next);
    expect(&rt, 3, 3, head);
    expect(&rt, 4, 1, &found.bad);
    Ok(())
}
