// Queries and totals. Called by `steps`.
use crate::dice::Dice;
use crate::records::{Owner, key_number, number, text};
use std::alloc::AllocError;
use std::fmt::Write;

static OPERATORS: [&str; 6] = ["=", "!=", "<", "<=", ">", ">="];

static JOINS: [&str; 2] = ["and", "or"];

static SORTS: [&str; 6] = [
    "",
    "",
    "",
    ",\"sort\":[\"k\"]",
    ",\"sort\":[\"k\"],\"reverse\":true",
    ",\"sort\":[\"a\"]",
];

// A number that isn't null.
fn compared(dice: &mut Dice) -> &'static str {
    match number(dice) {
        "null" => key_number(dice),
        one => one,
    }
}

// Writes a condition on one field.
fn push_condition(dice: &mut Dice, line: &mut String, owner: Owner) -> Result<(), AllocError> {
    match owner {
        Owner::Numbers if dice.is_one_in(6) => line.push_str("[\"null\",\"a\"]"),
        Owner::Numbers => {
            let operator = dice.pick(&OPERATORS);
            let field = dice.pick(&["k", "k", "a", "a", "b", "b", "c"]);
            let value = compared(dice);
            write!(line, "[\"{operator}\",\"{field}\",{value}]")
        }
        Owner::Texts => {
            let operator = dice.pick(&["=", "starts", "<", ">="]);
            let (field, value) = (dice.pick(&["k", "s"]), text(dice));
            write!(line, "[\"{operator}\",\"{field}\",{value}]")
        }
    }
}

// Writes a filter: a condition, its opposite, or two of them joined.
fn push_filter(dice: &mut Dice, line: &mut String, owner: Owner) -> Result<(), AllocError> {
    match dice.below(4) {
        0 => {
            line.push_str("[\"not\",")?;
            push_condition(dice, line, owner)?;
            line.push_str("]")
        }
        1 => {
            let join = dice.pick(&JOINS);
            write!(line, "[\"{join}\",")?;
            push_condition(dice, line, owner)?;
            line.push_str(",")?;
            push_condition(dice, line, owner)?;
            line.push_str("]")
        }
        _ => push_condition(dice, line, owner),
    }
}

/// Writes a query.
pub(crate) fn push_query(dice: &mut Dice, line: &mut String) -> Result<(), AllocError> {
    let owner = Owner::drawn(dice);
    let name = owner.name();
    write!(line, "{{\"type\":\"{name}\"")?;
    if !dice.is_one_in(5) {
        line.push_str(",\"filter\":")?;
        push_filter(dice, line, owner)?;
    }
    line.push_str(dice.pick(&SORTS))?;
    line.push_str("}")
}

/// Writes which total is asked for: an index, and the cells of a group.
pub(crate) fn push_group(dice: &mut Dice, line: &mut String) -> Result<(), AllocError> {
    let value = number(dice);
    match dice.below(5) {
        0 => line.push_str("\"all\",[]"),
        1 => write!(line, "\"per_b\",[{value}]"),
        2 => write!(line, "\"per_a\",[{value}]"),
        3 => write!(line, "\"sum_b\",[{value}]"),
        _ => write!(line, "\"x1\",[{value}]"),
    }
}
