// Types and indexes. Called by `steps` and `script`.
use crate::dice::Dice;
use std::alloc::AllocError;
use std::fmt::Write;

// The indexes that a store may begin with.
static INDEXES: [&str; 6] = [
    "{\"name\":\"by_a\",\"kind\":\"value\",\"type\":\"t\",\"columns\":[\"a\"]}",
    "{\"name\":\"by_s\",\"kind\":\"value\",\"type\":\"u\",\"columns\":[\"s\",\"n\"]}",
    "{\"name\":\"all\",\"kind\":\"count\",\"type\":\"t\",\"columns\":[]}",
    "{\"name\":\"per_b\",\"kind\":\"count\",\"type\":\"t\",\"columns\":[\"b\"]}",
    "{\"name\":\"per_a\",\"kind\":\"count\",\"type\":\"t\",\"columns\":[\"a\"],\"clear_when_zero\":true}",
    "{\"name\":\"sum_b\",\"kind\":\"sum\",\"type\":\"t\",\"columns\":[\"b\"],\"summed\":\"a\"}",
];

static TYPES: &str = "{\"name\":\"t\",\"fields\":[[\"k\",\"int\"],[\"a\",\"int\"],[\"b\",\"int\"]],\
    \"key\":[\"k\"]},{\"name\":\"u\",\"fields\":[[\"k\",\"text\"],[\"n\",\"int\"],[\"s\",\"text\"],\
    [\"y\",\"bytes\"]],\"key\":[\"k\",\"n\"]}";

// Indexes that are added later, after their names.
static ADDED: [&str; 5] = [
    "\"kind\":\"value\",\"type\":\"t\",\"columns\":[\"b\",\"a\"]}",
    "\"kind\":\"count\",\"type\":\"t\",\"columns\":[\"a\"]}",
    "\"kind\":\"count\",\"type\":\"t\",\"columns\":[\"b\"],\"clear_when_zero\":true}",
    "\"kind\":\"sum\",\"type\":\"t\",\"columns\":[],\"summed\":\"b\"}",
    "\"kind\":\"value\",\"type\":\"u\",\"columns\":[\"y\"]}",
];

static NAMES: [&str; 9] = [
    "x0", "x0", "x1", "by_a", "by_a", "by_s", "per_a", "per_b", "sum_b",
];

/// Writes the schema that the store begins with.
pub(crate) fn push_schema(dice: &mut Dice, line: &mut String) -> Result<(), AllocError> {
    write!(line, "{{\"types\":[{TYPES}],\"indexes\":[")?;
    let mut is_first = true;
    for index in &INDEXES {
        if !dice.is_one_in(3) {
            line.push_str(if is_first { "" } else { "," })?;
            line.push_str(index)?;
            is_first = false;
        }
    }
    line.push_str("]}")
}

/// Writes an index that is added.
pub(crate) fn push_index(dice: &mut Dice, line: &mut String) -> Result<(), AllocError> {
    let name = dice.pick(&["x0", "x0", "x1"]);
    write!(line, "{{\"name\":\"{name}\",")?;
    line.push_str(dice.pick(&ADDED))
}

/// Writes a type that is added.
pub(crate) fn push_type(dice: &mut Dice, line: &mut String) -> Result<(), AllocError> {
    let name = dice.pick(&["v", "w"]);
    write!(
        line,
        "{{\"name\":\"{name}\",\"fields\":[[\"k\",\"bytes\"]],\"key\":[\"k\"]}}"
    )
}

/// Writes a type's name and a field that is appended to it.
pub(crate) fn push_field(dice: &mut Dice, line: &mut String) -> Result<(), AllocError> {
    line.push_str(dice.pick(&[
        "\"t\",[\"c\",\"int\"]",
        "\"t\",[\"c\",\"int\"]",
        "\"t\",[\"a\",\"int\"]",
        "\"v\",[\"c\",\"text\"]",
    ]))
}

/// How many names of indexes there are to choose from.
pub(crate) const INDEX_NAMES: u32 = 9;

/// The name of an index, by its place among them.
pub(crate) fn index_name(place: u32) -> &'static str {
    NAMES.get(place as usize).copied().unwrap_or("x0")
}
