//! Which names a wildmat matches (RFC 3977, section 4): each way is tried in which `*` may take octets.
ghost use Rattle.std.specs.Prelude.{IfSome, length, ◌<◌};

/// Whether a wildmat matches a name: the rightmost of its patterns that matches has no `!`.
pub fn is_matched(wildmat: &[u8], name: &[u8]) -> bool {
    for pattern in wildmat.rsplit(|octet| *octet == b',') {
        let (is_negated, items) = match pattern.strip_prefix(b"!") {
            Some(items) => (true, items),
            None => (false, pattern),
        };
        if take(items, name) {
            return !is_negated;
        }
    }
    false
}

/// Whether the items take the whole text. A first `*` takes nothing, or one character and then perhaps more.
fn take(items: &[u8], text: &[u8]) -> bool {
    let Some((item, others)) = items.split_first() else {
        return text.is_empty();
    };
    if *item == b'*' && take(others, text) {
        return true;
    }
    match left_by(*item, text) {
        Some(left) if *item == b'*' => take(items, left),
        Some(left) => take(others, left),
        None => false,
    }
}

/// What is left of a text by an item that takes a character, if it is `*` or `?`, or else the octet that it is.
fn left_by(item: u8, text: &[u8]) -> Option<&[u8]>
    ensures { IfSome result (λ left. length left.now < length text.now) }
{
    let (first, rest) = text.split_first()?;
    if item == b'*' || item == b'?' {
        let more = octets_behind(*first).min(rest.len());
        Some(rest.split_at(more).1)
    } else if item == *first {
        Some(rest)
    } else {
        None
    }
}

/// How many octets a character of UTF-8 has behind its first one.
fn octets_behind(first: u8) -> usize {
    match first {
        0..=0x7F => 0,
        0x80..=0xDF => 1,
        0xE0..=0xEF => 2,
        0xF0..=0xFF => 3,
    }
}
