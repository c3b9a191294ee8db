//! Wildmats: which names the slow judge takes for matched, by rows written by hand and against `Wildmat::matches`.
use nntp_slow_judge::is_matched;
use nntp_wire::{GroupName, Wildmat};
use std::alloc::{AllocError, Global};
use std::process::Abort;
use std::test::Fail;

/// A wildmat, names that it matches, and names that it doesn't match.
type Row = (
    &'static str,
    &'static [&'static str],
    &'static [&'static str],
);

const ROWS: [Row; 28] = [
    // the examples of RFC 3977, section 4.4
    ("abc", &["abc"], &["", "ab", "abcd", "xabc", "ABC"]),
    ("abc,def", &["abc", "def"], &["abcdef", "ab"]),
    ("\u{a3}", &["\u{a3}"], &["\u{a2}", "\u{e3}", "a"]),
    ("a*", &["a", "ab", "a\u{a3}"], &["", "ba"]),
    (
        "a*b",
        &["ab", "aab", "abab", "a\u{a3}b"],
        &["a", "b", "aba"],
    ),
    ("a*,*b", &["a", "b", "ax", "xb"], &["xa", "bx"]),
    ("a*,!*b", &["a", "aba"], &["ab", "b", "c"]),
    ("a*,!*b,c*", &["a", "c", "cb"], &["ab", "b", "xc"]),
    ("a*,c*,!*b", &["a", "c", "ca"], &["ab", "cb"]),
    (
        "?a*",
        &["ba", "aa", "\u{a3}a", "\u{a3}ab"],
        &["a", "ab", "bba"],
    ),
    (
        "??a*",
        &["bba", "aaa", "\u{a3}\u{a3}a"],
        &["ba", "\u{a3}a", "aab"],
    ),
    ("*a?", &["ab", "aa", "xa\u{a3}"], &["a", "axx", "a\u{a3}x"]),
    (
        "*a??",
        &["abc", "xa\u{a3}\u{a3}"],
        &["ab", "axyz", "a\u{a3}"],
    ),
    // the example of section 4.2
    ("a*,!*b,*c*", &["aaa", "ccb"], &["abb", "xxx"]),
    // the rightmost pattern that matches decides
    ("a,!a", &[], &["a", "b"]),
    ("a,!a,a", &["a"], &["b"]),
    ("*,!a*,ab", &["b", "ab"], &["a", "abc"]),
    ("*,!a*,!ab", &["b"], &["a", "ab", "abc"]),
    // `?` takes one character, of however many octets
    (
        "?",
        &["a", "\u{e9}", "\u{20ac}", "\u{1d11e}"],
        &["", "ab", "\u{e9}\u{e9}"],
    ),
    (
        "??",
        &["ab", "\u{e9}a", "\u{20ac}\u{1d11e}"],
        &["a", "\u{e9}", "\u{20ac}"],
    ),
    (
        "*??",
        &["ab", "\u{1d11e}\u{e9}"],
        &["", "\u{e9}", "\u{1d11e}"],
    ),
    ("?\u{a9}", &["x\u{a9}"], &["\u{a9}", "\u{e9}"]),
    // `*` takes any, and none
    ("*", &["", "a", "a.b", "\u{e9}"], &[]),
    ("**", &["", "a"], &[]),
    ("*ab", &["ab", "aab"], &["aba"]),
    ("*a*b*", &["ab", "xaxbx"], &["ba", "a"]),
    ("a*bc*d", &["abxbcd"], &["abxbd"]),
    ("*\u{e9}*", &["\u{e9}", "a\u{e9}b"], &["", "\u{e8}"]),
];

/// The wildmat matches each of these names, or none of them.
fn expect_each(rt: &impl Abort, wildmat: &str, names: &[&str], are_matched: bool) {
    for name in names {
        let is_matched = is_matched(wildmat.as_bytes(), name.as_bytes());
        assert_eq!(rt; is_matched, are_matched, "{wildmat}: {name}");
    }
}

#[test]
fn rows(rt: HostRuntime) -> Result<(), Fail> {
    for (wildmat, matched, others) in &ROWS {
        expect_each(&rt, *wildmat, *matched, true);
        expect_each(&rt, *wildmat, *others, false);
    }
    Ok(())
}

/// The word of this number: first the one without letters, then those with one letter, with two, and so on.
fn word(alloc: Global, letters: &[&str], number: usize) -> Result<Vec<u8>, AllocError> {
    let mut word = Vec::new(alloc);
    let mut left = number;
    for _ in 0..number {
        if left == 0 {
            break;
        }
        let place = left.saturating_sub(1);
        let letter = place.checked_rem(letters.len()).unwrap_or(0);
        word.extend_from_slice(letters.get(letter).copied().unwrap_or("").as_bytes())?;
        left = place.checked_div(letters.len()).unwrap_or(0);
    }
    Ok(word)
}

/// Compares what both say of a wildmat and each name of one to three letters. Tells how many it matches.
fn compare_names(rt: &impl Abort, alloc: Global, wildmat: &Wildmat<'_>) -> Result<u64, AllocError> {
    let mut count = 0u64;
    for number in 1..40 {
        let octets = word(alloc, &["a", "b", "\u{e9}"], number)?;
        if let Some(name) = GroupName::parse(&octets) {
            let matches = wildmat.matches(&name);
            let slowly = is_matched(wildmat.as_slice(), &octets);
            let wildmat = wildmat.as_slice().escape_ascii();
            assert_eq!(rt; matches, slowly, "{wildmat}: {}", octets.escape_ascii());
            count = count.saturating_add(u64::from(matches));
        }
    }
    Ok(count)
}

/// Every wildmat of at most five of these octets, and every name of one to three letters. Regular expressions that are
/// made of the patterns count as many.
#[test]
fn short_wildmats(rt: HostRuntime) -> Result<(), Fail> {
    let mut wildmats = 0u64;
    let mut matched = 0u64;
    for number in 0..3906 {
        let octets = word(rt.alloc(), &["a", "?", "*", ",", "!"], number)?;
        if let Some(wildmat) = Wildmat::parse(&octets) {
            wildmats = wildmats.saturating_add(1);
            matched = matched.saturating_add(compare_names(&rt, rt.alloc(), &wildmat)?);
        }
    }
    assert_eq!(rt; (wildmats, matched), (759, 12_518));
    Ok(())
}
