// What the bytes of a text say of a place where it is no JSON. Called by `mending`.
use crate::flaw::{Flaw, FlawKind};

// Whether a byte is one that may stand between values.
pub(crate) fn is_blank(byte: u8) -> bool {
    matches!(byte, b' ' | b'\t' | b'\n' | b'\r')
}

// The place of the last byte before this one that is no blank.
pub(crate) fn last_before(text: &[u8], at: usize) -> Option<usize> {
    let mut place = at.min(text.len());
    'back: while place > 0 {
        place -= 1;
        if !is_blank(text[place]) {
            return Some(place);
        }
    }
    None
}

// Whether a value ends in a byte.
fn ends_value(byte: u8) -> bool {
    byte.is_ascii_alphanumeric() || matches!(byte, b'"' | b']' | b'}' | b'.')
}

// What is wrong with a byte that begins nothing of JSON, or begins it badly.
fn kind_of_byte(byte: u8) -> FlawKind {
    match byte {
        b'"' => FlawKind::BadText,
        b'\'' => FlawKind::SingleQuotes,
        b'/' | b'#' => FlawKind::Comment,
        b'0'..=b'9' | b'-' | b'+' | b'.' => FlawKind::BadNumber,
        _ if byte.is_ascii_alphabetic() => FlawKind::BadWord,
        _ => FlawKind::OtherByte,
    }
}

// Whether a byte begins a value or a key.
fn begins_value(byte: u8) -> bool {
    byte.is_ascii_alphanumeric() || matches!(byte, b'"' | b'[' | b'{' | b'-')
}

// What is wrong at a byte after another one.
fn kind_after(before: u8, byte: u8) -> FlawKind {
    if before == b',' && matches!(byte, b']' | b'}') {
        FlawKind::CommaTooMany
    } else if ends_value(before) && begins_value(byte) {
        FlawKind::CommaMissing
    } else if byte == b',' && before != b':' {
        FlawKind::CommaTooMany
    } else if matches!(byte, b',' | b']' | b'}') {
        FlawKind::ValueMissing
    } else {
        kind_of_byte(byte)
    }
}

// What is wrong where the reader of tokens stops at a place.
pub(crate) fn flaw_at(text: &[u8], at: usize) -> Flaw {
    let Some(byte) = text.get(at) else {
        return Flaw {
            at,
            kind: FlawKind::CutShort,
        };
    };
    let Some(place) = last_before(text, at) else {
        return Flaw {
            at,
            kind: kind_of_byte(*byte),
        };
    };
    let kind = match text.get(place) {
        Some(before) => kind_after(*before, *byte),
        None => kind_of_byte(*byte),
    };
    match kind {
        FlawKind::CommaTooMany if *byte != b',' => Flaw { at: place, kind },
        _ => Flaw { at, kind },
    }
}
