//! Short sessions in which HDR and XHDR of Message-ID are judged, as they are noted, by a checker and by the slow judge (RFC
//! 3977, section 8.5; RFC 2980, section 2.6).
use crate::overviews::{Counts, Exchange, FIELDS, SELECTED, compare, compare_pairs};
use nntp_sessions::NARROW_LENIENT;
use std::alloc::Global;
use std::test::Fail;

/// What is said behind the selection of a group. `/` stands between lines, and `#` for what an overview has between its
/// number and its id.
const EXCHANGES: [Exchange; 16] = [
    ("HDR Message-ID 1-3", "225 h/1 <1@x>/3 <3@x>/."),
    ("HDR Message-ID 2-4", "225 h/2 <2@x>/3 <3@x>/4 <4@x>/."),
    ("hdr message-id 3-", "225 h/4 <3@x>/."),
    ("HDR Message-ID 2", "225 h/."),
    ("HDR Message-ID 2-3", "423 no"),
    ("HDR Message-ID 2-3", "420 no"),
    ("HDR Subject 1-3", "225 h/2 s/."),
    ("xhdr message-id 3-", "221 h/4 <4@x>/."),
    ("XHDR Message-ID 2", "221 h/."),
    ("XHDR Message-ID 2-3", "420 no"),
    ("XHDR Message-ID 3", "423 no"),
    ("XHDR Message-ID 3-4", "221 h/3 <3@x>/4 <3@x>/."),
    ("XHDR Message-ID 2-4", "221 h/4 <4@x>/2 <2@x>/."),
    ("XOVER 1-3", "224 x/1#<1@x>/3#<3@x>/."),
    ("STAT 3", "223 3 <3@x>"),
    ("STAT <3@x>", "430 no"),
];

/// Each two of these behind a selection, and then number 4. They are consistent where each of them fits, and some numbers 1
/// to 4 within the marks, each with an id of its own, are what all of them say: so counted, 129 are.
#[test]
fn ids_and_then_a_number(rt: HostRuntime) -> Result<(), Fail> {
    let mut counts = Counts::new();
    let last = ("STAT 4", "223 4 <4@x>");
    for selected in SELECTED {
        compare_pairs(
            rt.alloc(),
            NARROW_LENIENT,
            (selected, last),
            &EXCHANGES,
            &mut counts,
        )?;
    }
    assert!(rt; counts.consistent == 129, "{}", counts.consistent);
    assert!(rt; counts.others == 639, "{}", counts.others);
    Ok(())
}

/// An id that is listed before, between or behind two things that are said of headers makes no difference to them.
fn compare_beside(
    alloc: Global,
    counts: &mut Counts,
    (first, second): (Exchange, Exchange),
) -> Result<(), Fail> {
    let selected = ("GROUP g", "211 3 1 4 g");
    let listed = ("XHDR Message-ID 3", "221 h/3 <3@x>/.");
    let choice = NARROW_LENIENT;
    let is_consistent = compare(alloc, choice, &[selected, first, second])?;
    for said in [
        [selected, listed, first, second],
        [selected, first, listed, second],
        [selected, first, second, listed],
    ] {
        if compare(alloc, choice, &said)? != is_consistent {
            return Err(Fail::new(format_args!("{first:?}, {second:?}")));
        }
    }
    counts.add(is_consistent);
    Ok(())
}

/// The same beside one thing that is said of headers and each other one.
fn compare_each(alloc: Global, counts: &mut Counts, first: Exchange) -> Result<(), Fail> {
    for second in FIELDS {
        compare_beside(alloc, counts, (first, second))?;
    }
    Ok(())
}

#[test]
fn ids_beside_overviews_and_heads(rt: HostRuntime) -> Result<(), Fail> {
    let mut counts = Counts::new();
    for first in FIELDS {
        compare_each(rt.alloc(), &mut counts, first)?;
    }
    assert!(rt; counts.consistent > 20, "{}", counts.consistent);
    assert!(rt; counts.others > 20, "{}", counts.others);
    Ok(())
}
