//! What overviews and heads tell of four headers (RFC 3977, section 8.3.2). What is told of a header is written as its
//! words, with one SP between them: no octets, where there is no word.
use std::alloc::{AllocError, Global};

/// The line that is the overview of an id.
#[derive(Clone, Copy)]
pub(crate) struct Overview<'a> {
    pub(crate) id: &'a [u8],
    pub(crate) line: &'a [u8],
}

/// The headers in the order in which they are told, and which field of an overview is that of each, counted from 0.
const HEADERS: [(&str, usize); 4] = [("Subject", 1), ("From", 2), ("Date", 3), ("References", 5)];

/// What an overview tells of each header.
pub(crate) fn told_by_overview(alloc: Global, line: &[u8]) -> Result<Vec<Vec<u8>>, AllocError> {
    let mut told = Vec::new(alloc);
    for (_, place) in HEADERS {
        let field = field(alloc, line, place)?;
        told.push(words(alloc, &field)?)?;
    }
    Ok(told)
}

/// What a head tells of each header.
pub(crate) fn told_by_head(alloc: Global, head: &[Vec<u8>]) -> Result<Vec<Vec<u8>>, AllocError> {
    let mut told = Vec::new(alloc);
    for (name, _) in HEADERS {
        let content = content(alloc, head, name)?;
        told.push(words(alloc, &content)?)?;
    }
    Ok(told)
}

/// Adds the lines of a head by which this is told.
pub(crate) fn add_lines(
    alloc: Global,
    lines: &mut Vec<Vec<u8>>,
    told: &[Vec<u8>],
) -> Result<(), AllocError> {
    for ((name, _), text) in HEADERS.iter().zip(told) {
        if !text.is_empty() {
            let mut line = Vec::from_slice(alloc, name.as_bytes())?;
            line.extend_from_slice(b": ")?;
            line.extend_from_slice(text)?;
            lines.push(line)?;
        }
    }
    Ok(())
}

fn is_blank(octet: u8) -> bool {
    octet == b' ' || octet == b'\t'
}

/// The words of the octets, with one SP between them.
fn words(alloc: Global, octets: &[u8]) -> Result<Vec<u8>, AllocError> {
    let mut words = Vec::new(alloc);
    let mut is_behind_blank = false;
    for octet in octets {
        if is_blank(*octet) {
            is_behind_blank = true;
        } else {
            if is_behind_blank && !words.is_empty() {
                words.push(b' ')?;
            }
            words.push(*octet)?;
            is_behind_blank = false;
        }
    }
    Ok(words)
}

/// The octets behind so many TABs, up to the next one.
fn field(alloc: Global, line: &[u8], place: usize) -> Result<Vec<u8>, AllocError> {
    let mut field = Vec::new(alloc);
    let mut tabs = 0usize;
    for octet in line {
        if *octet == b'\t' {
            tabs = tabs.saturating_add(1);
        } else if tabs == place {
            field.push(*octet)?;
        }
    }
    Ok(field)
}

/// What stands behind the colon of the first header of the name, and on the lines that continue it.
fn content(alloc: Global, head: &[Vec<u8>], name: &str) -> Result<Vec<u8>, AllocError> {
    let mut content = Vec::new(alloc);
    let mut is_found = false;
    for line in head {
        if line.first().is_some_and(|octet| is_blank(*octet)) {
            if is_found {
                content.extend_from_slice(line)?;
            }
        } else if is_found {
            break;
        } else if let Some(rest) = behind_name(line, name.as_bytes()) {
            is_found = true;
            content.extend_from_slice(rest)?;
        }
    }
    Ok(content)
}

/// What a line has behind the name, upper or lower case, and its colon, if it begins so.
fn behind_name<'a>(line: &'a [u8], name: &[u8]) -> Option<&'a [u8]> {
    let (front, rest) = line.split_at(name.len().min(line.len()));
    if front.eq_ignore_ascii_case(name) {
        rest.strip_prefix(b":")
    } else {
        None
    }
}
