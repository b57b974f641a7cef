// Cells and records. Called by `steps` and `reading`.
use crate::dice::Dice;
use std::alloc::AllocError;
use std::fmt::Write;

// Numbers of key fields, few so that clients meet, and of other fields.
static KEYS: [&str; 8] = ["0", "1", "2", "3", "4", "5", "-1", "9223372036854775807"];

static NUMBERS: [&str; 8] = [
    "null",
    "0",
    "1",
    "2",
    "3",
    "4",
    "255",
    "-9223372036854775808",
];

static TEXTS: [&str; 6] = [
    "\"\"",
    "\"a\"",
    "\"ab\"",
    "\"b\"",
    "\"b\\u0000\"",
    "\"\u{e9}\"",
];

static BYTES: [&str; 4] = [
    "null",
    "{\"hex\":\"\"}",
    "{\"hex\":\"00ff\"}",
    "{\"hex\":\"61\"}",
];

/// One of the two types.
#[derive(Clone, Copy, Debug, PartialEq, Eq, Drop)]
pub(crate) enum Owner {
    /// Numbers, with a number for its key.
    Numbers,
    /// Texts, with a text and a number for its key.
    Texts,
}

impl Owner {
    /// Draws one.
    pub(crate) fn drawn(dice: &mut Dice) -> Owner {
        if dice.below(3) < 2 {
            Owner::Numbers
        } else {
            Owner::Texts
        }
    }

    /// Its name.
    pub(crate) fn name(self) -> &'static str {
        match self {
            Owner::Numbers => "t",
            Owner::Texts => "u",
        }
    }
}

/// A number for a field that is no key's.
pub(crate) fn number(dice: &mut Dice) -> &'static str {
    dice.pick(&NUMBERS)
}

/// A number for a key field.
pub(crate) fn key_number(dice: &mut Dice) -> &'static str {
    dice.pick(&KEYS)
}

/// A text.
pub(crate) fn text(dice: &mut Dice) -> &'static str {
    dice.pick(&TEXTS)
}

/// Writes the cells of a key.
pub(crate) fn push_key(dice: &mut Dice, line: &mut String, owner: Owner) -> Result<(), AllocError> {
    match owner {
        Owner::Numbers => {
            let key = key_number(dice);
            write!(line, "[{key}]")
        }
        Owner::Texts => {
            let (first, second) = (text(dice), key_number(dice));
            write!(line, "[{first},{second}]")
        }
    }
}

// Writes the cells of a record of numbers, half of them with one of the field that may have been appended.
fn push_numbers(dice: &mut Dice, line: &mut String, is_longer: bool) -> Result<(), AllocError> {
    let (key, a, b) = (key_number(dice), number(dice), number(dice));
    write!(line, "[{key},{a},{b}")?;
    if is_longer && dice.is_one_in(2) {
        let c = number(dice);
        write!(line, ",{c}")?;
    }
    line.push_str("]")
}

/// Writes the cells of a record, and whether a field may have been appended to the type of numbers.
pub(crate) fn push_record(
    dice: &mut Dice,
    line: &mut String,
    owner: Owner,
    is_longer: bool,
) -> Result<(), AllocError> {
    match owner {
        Owner::Numbers => push_numbers(dice, line, is_longer),
        Owner::Texts => {
            let (first, second) = (text(dice), key_number(dice));
            let (own, bytes) = (text(dice), dice.pick(&BYTES));
            write!(line, "[{first},{second},{own},{bytes}]")
        }
    }
}
