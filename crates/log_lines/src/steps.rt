// Changes as steps of scripts. Called by `lines`.
use crate::requests::{push_field, push_index, push_name, push_schema, push_type};
use command_log::Change;
use json_forms::cells_text;
use metadata::Cells;
use std::alloc::{AllocError, Global};
use std::fmt::Write;
use tuple_codec::Text;

// The word of a change.
fn word_of(change: &Change) -> &'static str {
    match change {
        Change::Create(_) => "create",
        Change::Type(_) => "type",
        Change::Field(_, _) => "field",
        Change::Index(_) => "index",
        Change::Save(_, _) => "save",
        Change::Remove(_, _) => "remove",
        Change::Drop(_) => "drop",
        Change::Disable(_) => "disable",
        Change::WriteOnly(_) => "write_only",
        Change::Readable(_) => "readable",
        Change::Build(_, _) => "build",
    }
}

// Appends a name and cells.
fn push_cells(
    alloc: Global,
    out: &mut String,
    name: &Text,
    cells: &Cells,
) -> Result<(), AllocError> {
    push_name(alloc, out, name)?;
    out.push_str(",")?;
    out.push_str(cells_text(alloc, cells)?.as_str())
}

// Appends what a change says.
fn push_said(alloc: Global, out: &mut String, change: &Change) -> Result<(), AllocError> {
    match change {
        Change::Create(asked) => push_schema(alloc, out, asked),
        Change::Type(asked) => push_type(alloc, out, asked),
        Change::Field(name, field) => {
            push_name(alloc, out, name)?;
            out.push_str(",")?;
            push_field(alloc, out, field)
        }
        Change::Index(asked) => push_index(alloc, out, asked),
        Change::Save(name, cells) | Change::Remove(name, cells) => {
            push_cells(alloc, out, name, cells)
        }
        Change::Drop(name)
        | Change::Disable(name)
        | Change::WriteOnly(name)
        | Change::Readable(name) => push_name(alloc, out, name),
        Change::Build(name, limit) => {
            push_name(alloc, out, name)?;
            write!(out, ",{limit}")
        }
    }
}

/// Appends the step of a client that a change is.
pub(crate) fn push_step(
    alloc: Global,
    out: &mut String,
    client: u64,
    change: &Change,
) -> Result<(), AllocError> {
    let word = word_of(change);
    write!(out, "[\"{word}\",{client},")?;
    push_said(alloc, out, change)?;
    out.push_str("]")
}
