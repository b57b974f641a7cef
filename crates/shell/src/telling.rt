// What a step replies, in the shell's words. Called by `stepping`.
use crate::error::ShellError;
use crate::refusals::refusal_words;
use crate::stores::Stores;
use cluster_core::Cluster;
use json_forms::cells_text;
use metadata::State;
use packed_rows::Rows;
use record_store::StoreNumber;
use schedule::{Command, Reply, Report, Step};
use script::push_reply;
use shell_text::{fields_of, push_table, range_named, range_words};
use std::alloc::{AllocError, Global};
use std::fmt::Write as _;
use std::io::Write;

/// How rows are told.
#[derive(Clone, Copy, Debug, PartialEq, Eq, Drop)]
pub enum RowForm {
    /// On one line, as by `run`.
    Line,
    /// As JSON, a row a line.
    Json,
    /// As a table.
    Table,
}

/// Which long work is told of on standard error.
#[derive(Clone, Copy, Debug, PartialEq, Eq, Drop)]
pub enum Watch {
    /// None.
    Nothing,
    /// The reading of records, of which nothing else is told.
    Imports,
    /// That of files of lines, too.
    All,
}

/// How steps are told.
#[derive(Clone, Copy, Debug, PartialEq, Eq, Drop)]
pub struct Telling {
    /// How rows are.
    pub rows: RowForm,
    /// Whether a step is told before its reply.
    pub is_echo: bool,
    /// Whether a person reads along: there is a prompt.
    pub is_prompting: bool,
    /// Which long work is watched.
    pub watch: Watch,
}

// Writes rows, each on a line of its own.
fn push_json_rows(alloc: Global, lines: &mut String, rows: &Rows) -> Result<(), AllocError> {
    for place in 0..rows.len() {
        if let Some(cells) = rows.cells_at(alloc, place)? {
            lines.push_str(cells_text(alloc, &cells)?.as_str())?;
            lines.push_str("\n")?;
        }
    }
    Ok(())
}

// The names of the fields of a type of a store, none where it isn't committed.
fn field_names(
    alloc: Global,
    cluster: &Cluster,
    store: StoreNumber,
    type_name: &str,
) -> Result<Vec<String>, AllocError> {
    let mut names = Vec::new(alloc);
    if let Some(fields) = fields_of(alloc, cluster, store, type_name)? {
        for field in &fields {
            names.push(String::from_str(alloc, field.name.as_str())?)?;
        }
    }
    Ok(names)
}

// The names of the fields of the rows that a step asks for, as far as they are committed.
fn heads_of(
    alloc: Global,
    stores: &Stores,
    cluster: &Cluster,
    step: &Step,
) -> Result<Vec<String>, AllocError> {
    match step {
        Step::Perform(client, Command::Query(asked)) => {
            let type_name = asked.query().record_type.as_str();
            field_names(alloc, cluster, stores.of(*client), type_name)
        }
        _ => Ok(Vec::new(alloc)),
    }
}

// Writes rows.
fn push_rows(
    alloc: Global,
    rows_form: RowForm,
    stores: &Stores,
    cluster: &Cluster,
    step: &Step,
    reply: &Reply,
    rows: &Rows,
    lines: &mut String,
) -> Result<(), AllocError> {
    match rows_form {
        RowForm::Line => {
            push_reply(alloc, lines, reply)?;
            lines.push_str("\n")
        }
        RowForm::Json => push_json_rows(alloc, lines, rows),
        RowForm::Table => {
            let heads = heads_of(alloc, stores, cluster, step)?;
            push_table(alloc, lines, heads.as_slice(), rows)
        }
    }
}

// Writes in words what a conflict means.
fn push_meaning(
    alloc: Global,
    cluster: &Cluster,
    report: &Report,
    lines: &mut String,
) -> Result<(), AllocError> {
    let Report::Conflict {
        client,
        seen,
        range,
    } = report
    else {
        return Ok(());
    };
    let words = range_named(alloc, cluster, range)?;
    writeln!(
        lines,
        "  client {client} had read {words}, which version {seen} changed: nothing of this transaction is committed"
    )
}

// What is told of an index that is added where there are records.
const NOT_READ: &str =
    "  there are records of its type already: write_only, build and readable have it read\n";

// Writes in words in which store a transaction is, where it isn't the first one.
fn push_store(step: &Step, lines: &mut String) -> Result<(), AllocError> {
    match step {
        Step::Begin(client, store) if *store != 1 => {
            writeln!(lines, "  client {client} is in store {store}")
        }
        _ => Ok(()),
    }
}

// Writes in words what a reply means, where there is more to tell than it says.
fn push_meanings(
    alloc: Global,
    cluster: &Cluster,
    step: &Step,
    reply: &Reply,
    lines: &mut String,
) -> Result<(), AllocError> {
    match reply {
        Reply::Begun(_) => push_store(step, lines),
        Reply::Indexed(State::Disabled) => lines.push_str(NOT_READ),
        Reply::Reported(reports) => {
            for report in reports.as_slice() {
                push_meaning(alloc, cluster, report, lines)?;
            }
            Ok(())
        }
        Reply::Built { range, .. } => {
            let words = range_words(alloc, range)?;
            writeln!(lines, "  of the records {words}")
        }
        Reply::Refused(refusal) => {
            let words = refusal_words(*refusal);
            writeln!(lines, "  {words}")
        }
        _ => Ok(()),
    }
}

// How many bytes a reply mostly has at most.
const MOSTLY: usize = 80;

/// Tells what a step replied.
pub(crate) fn tell<W: Write>(
    alloc: Global,
    telling: Telling,
    stores: &Stores,
    cluster: &Cluster,
    step: &Step,
    reply: &Reply,
    output: &mut W,
) -> Result<(), ShellError> {
    let mut lines = String::with_capacity(alloc, MOSTLY)?;
    match reply {
        Reply::Rows(rows) => {
            let form = telling.rows;
            push_rows(alloc, form, stores, cluster, step, reply, rows, &mut lines)?;
        }
        _ => {
            push_reply(alloc, &mut lines, reply)?;
            lines.push_str("\n")?;
            push_meanings(alloc, cluster, step, reply, &mut lines)?;
        }
    }
    output.write_all(lines.as_bytes())?;
    Ok(())
}
