// Numbers, texts, cells and names. Called by `checking`.
use crate::finder::Finder;
use crate::names::tell_unknown;
use crate::parts::Part;
use json_places::{Form, Written};
use std::alloc::{AllocError, Global};

static KINDS: [&str; 3] = ["int", "text", "bytes"];

static INDEX_KINDS: [&str; 3] = ["value", "count", "sum"];

static STATES: [&str; 3] = ["readable", "write-only", "disabled"];

// The whole number without sign that a number's text writes.
fn whole_of(text: &str) -> Option<u64> {
    text.parse::<u64>().ok()
}

// Whether a number's text writes a whole number of 64 bits with sign.
fn is_signed(text: &str) -> bool {
    text != "-0" && text.parse::<i64>().is_ok()
}

// What is told of a number that isn't whole, or out of its bounds.
fn bounds_of(alloc: Global, part: Part, least: u64, most: u64) -> Result<String, AllocError> {
    let words = part.words();
    match part {
        Part::Whole(_, _) => format!(in alloc; "{words} from {least} to {most} is wanted here"),
        _ => { format!(in alloc; "{words}, a whole number from {least} to {most}, is wanted here") }
    }
}

/// Looks at a whole number in bounds.
pub(crate) fn check_whole(
    finder: &mut Finder,
    part: Part,
    least: u64,
    most: u64,
    value: &Written,
) -> Result<(), AllocError> {
    let Form::Number(text) = &value.form else {
        return finder.tell_wanted(part.words(), value);
    };
    match whole_of(text.as_str()) {
        Some(number) if least <= number && number <= most => Ok(()),
        _ => {
            let reason = bounds_of(finder.alloc, part, least, most)?;
            finder.tell(value.begin, reason)
        }
    }
}

/// Looks at a text.
pub(crate) fn check_text(
    finder: &mut Finder,
    part: Part,
    value: &Written,
) -> Result<(), AllocError> {
    match &value.form {
        Form::Text(_) => Ok(()),
        _ => finder.tell_wanted(part.words(), value),
    }
}

/// Looks at `true` or `false`.
pub(crate) fn check_flag(finder: &mut Finder, value: &Written) -> Result<(), AllocError> {
    match &value.form {
        Form::Bool(_) => Ok(()),
        _ => finder.tell_wanted(Part::Flag.words(), value),
    }
}

// The names that are known, and what one of them is called in a message.
fn names_of(part: Part) -> (&'static str, &'static [&'static str]) {
    match part {
        Part::Kind => ("kind of field", &KINDS),
        Part::IndexKind => ("kind of index", &INDEX_KINDS),
        _ => ("state of an index", &STATES),
    }
}

/// Looks at a name that must be a known one.
pub(crate) fn check_named(
    finder: &mut Finder,
    part: Part,
    value: &Written,
) -> Result<(), AllocError> {
    let Some(name) = value.text() else {
        return finder.tell_wanted(part.words(), value);
    };
    let (what, known) = names_of(part);
    if known.contains(&name) {
        Ok(())
    } else {
        tell_unknown(finder, value.begin, what, name, known)
    }
}

// Whether a text is of pairs of hexadecimal digits.
fn is_hex(text: &str) -> bool {
    text.len() % 2 == 0 && text.as_bytes().iter().all(|byte| byte.is_ascii_hexdigit())
}

/// Looks at a text of pairs of hexadecimal digits.
pub(crate) fn check_hex(finder: &mut Finder, value: &Written) -> Result<(), AllocError> {
    match value.text() {
        Some(text) if is_hex(text) => Ok(()),
        Some(_) => finder.say(value.begin, "this isn't of pairs of hexadecimal digits"),
        None => finder.tell_wanted("a text of hexadecimal digits", value),
    }
}

// Looks at the bytes of a cell, an object.
fn check_bytes(finder: &mut Finder, value: &Written) -> Result<(), AllocError> {
    match value.members() {
        Some([one]) if one.key.as_str() == "hex" => check_hex(finder, &one.value),
        _ => finder.say(value.begin, "bytes are an object of the key \"hex\" alone"),
    }
}

/// Looks at a cell.
pub(crate) fn check_cell(finder: &mut Finder, value: &Written) -> Result<(), AllocError> {
    match &value.form {
        Form::Null | Form::Text(_) => Ok(()),
        Form::Number(text) if is_signed(text.as_str()) => Ok(()),
        Form::Number(_) => finder.say(
            value.begin,
            "a cell's number is a whole one of 64 bits with a sign",
        ),
        Form::Object(_) => check_bytes(finder, value),
        Form::Bool(_) | Form::List(_) => finder.tell_wanted(
            "a cell (null, a whole number, a text or bytes)",
            value,
        ),
    }
}
