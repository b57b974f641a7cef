// One step after another. Called by `script`.
ghost use Rattle.std.specs.Prelude.{◌<◌};

use crate::admin::{index_name, push_field, push_index, push_type};
use crate::dice::Dice;
use crate::reading::{push_group, push_query};
use crate::records::{Owner, push_key, push_record};
use std::alloc::AllocError;
use std::fmt::Write;

/// What a client does in a transaction.
#[derive(Clone, Copy, Debug, PartialEq, Eq, Drop)]
pub(crate) enum Act {
    /// It saves a record.
    Save,
    /// It loads one.
    Load,
    /// It removes one.
    Remove,
    /// It asks a query, or makes its plan.
    Query,
    /// It executes the plan that it keeps.
    Execute,
    /// It asks for a total.
    Aggregate,
    /// It adds an index, or a type.
    Define,
    /// It appends a field to a type.
    Append,
    /// It builds a part of an index.
    Build,
    /// It marks an index, asks for its state, or drops it.
    Mark,
    /// It commits.
    Commit,
    /// It abandons the transaction.
    Abandon,
    /// It begins one.
    Begin,
}

/// Whose turn it is.
#[derive(Clone, Copy, Debug, PartialEq, Eq, Drop)]
pub(crate) struct Turn {
    /// The client's number.
    pub client: usize,
    /// How many stores there are.
    pub stores: u32,
    /// The index that is built or marked, by its place among their names.
    pub index: u32,
    /// Whether a field may have been appended to the type of numbers.
    pub is_longer: bool,
}

/// What a client that has a transaction does next.
pub(crate) fn drawn_act(dice: &mut Dice) -> Act {
    match dice.below(100) {
        0..=29 => Act::Save,
        30..=36 => Act::Load,
        37..=42 => Act::Remove,
        43..=52 => Act::Query,
        53..=55 => Act::Execute,
        56..=59 => Act::Aggregate,
        60..=61 => Act::Define,
        62 => Act::Append,
        63..=72 => Act::Build,
        73..=80 => Act::Mark,
        81..=95 => Act::Commit,
        96..=97 => Act::Abandon,
        _ => Act::Begin,
    }
}

// Writes a step of a type and cells.
fn push_typed(
    dice: &mut Dice,
    line: &mut String,
    word: &str,
    turn: Turn,
) -> Result<(), AllocError> {
    let owner = Owner::drawn(dice);
    let (client, name) = (turn.client, owner.name());
    write!(line, "[\"{word}\",{client},\"{name}\",")?;
    if word == "save" {
        push_record(dice, line, owner, turn.is_longer)?;
    } else {
        push_key(dice, line, owner)?;
    }
    line.push_str("]")
}

// Writes a step that asks a query.
fn push_asked(dice: &mut Dice, line: &mut String, client: usize) -> Result<(), AllocError> {
    let word = dice.pick(&["query", "query", "plan"]);
    write!(line, "[\"{word}\",{client},")?;
    push_query(dice, line)?;
    line.push_str("]")
}

// Writes a step that asks for a total.
fn push_total(dice: &mut Dice, line: &mut String, client: usize) -> Result<(), AllocError> {
    write!(line, "[\"aggregate\",{client},")?;
    push_group(dice, line)?;
    line.push_str("]")
}

// Writes a step that adds an index or a type.
fn push_defined(dice: &mut Dice, line: &mut String, client: usize) -> Result<(), AllocError> {
    if dice.is_one_in(4) {
        write!(line, "[\"type\",{client},")?;
        push_type(dice, line)?;
    } else {
        write!(line, "[\"index\",{client},")?;
        push_index(dice, line)?;
    }
    line.push_str("]")
}

// Writes a step that appends a field.
fn push_appended(dice: &mut Dice, line: &mut String, client: usize) -> Result<(), AllocError> {
    write!(line, "[\"field\",{client},")?;
    push_field(dice, line)?;
    line.push_str("]")
}

// Writes a step that marks an index.
fn push_marked(dice: &mut Dice, line: &mut String, turn: Turn) -> Result<(), AllocError> {
    let word = dice.pick(&[
        "write_only",
        "write_only",
        "write_only",
        "readable",
        "readable",
        "disable",
        "state",
        "drop",
    ]);
    let (client, name) = (turn.client, index_name(turn.index));
    write!(line, "[\"{word}\",{client},\"{name}\"]")
}

// Writes a step that builds.
fn push_build(dice: &mut Dice, line: &mut String, turn: Turn) -> Result<(), AllocError> {
    let limit = dice.pick(&["0", "1", "1", "2", "2", "3", "5", "100"]);
    let (client, name) = (turn.client, index_name(turn.index));
    write!(line, "[\"build\",{client},\"{name}\",{limit}]")
}

// Writes a step that begins a transaction: mostly in a store that is made, which isn't named where
// it is the first one.
fn push_begin(dice: &mut Dice, line: &mut String, turn: Turn) -> Result<(), AllocError> {
    let client = turn.client;
    let store = match dice.below(40) {
        0 => dice.pick(&["0", "3", "65535", "65536"]),
        1..=13 if turn.stores > 1 => "2",
        _ => return write!(line, "[\"begin\",{client}]"),
    };
    write!(line, "[\"begin\",{client},{store}]")
}

/// Writes what a client does.
pub(crate) fn push_act(
    dice: &mut Dice,
    line: &mut String,
    act: Act,
    turn: Turn,
) -> Result<(), AllocError> {
    let client = turn.client;
    match act {
        Act::Save => push_typed(dice, line, "save", turn),
        Act::Load => push_typed(dice, line, "load", turn),
        Act::Remove => push_typed(dice, line, "remove", turn),
        Act::Query => push_asked(dice, line, client),
        Act::Execute => write!(line, "[\"execute\",{client}]"),
        Act::Aggregate => push_total(dice, line, client),
        Act::Define => push_defined(dice, line, client),
        Act::Append => push_appended(dice, line, client),
        Act::Build => push_build(dice, line, turn),
        Act::Mark => push_marked(dice, line, turn),
        Act::Commit => write!(line, "[\"commit\",{client}]"),
        Act::Abandon => write!(line, "[\"abandon\",{client}]"),
        Act::Begin => push_begin(dice, line, turn),
    }
}

/// Writes what a role does, or how a client learns of its request.
pub(crate) fn push_role(dice: &mut Dice, line: &mut String) -> Result<(), AllocError> {
    let number = dice.below(2);
    match dice.below(12) {
        0..=1 => write!(line, "[\"resolve\",{number}]"),
        2..=3 => write!(line, "[\"log\",{number}]"),
        4..=5 => write!(line, "[\"pull\",{number}]"),
        6..=7 => line.push_str("[\"report\"]"),
        8 => line.push_str("[\"lost\"]"),
        _ => line.push_str("[\"settle\"]"),
    }
}
