// The lines that replies are printed as. Called by `recordctl` for a script, and by the crate
// `race`.
use explain::explain;
use json_forms::{cells_text, rows_text};
use kv_core::{Bytes, KeyRange};
use metadata::{Cells, State};
use packed_rows::Rows;
use schedule::{Reply, Report, SharedPlan};
use std::alloc::{AllocError, Global};
use std::fmt::Write;

// Writes a word and cells behind it.
fn push_cells(
    alloc: Global,
    line: &mut String,
    word: &str,
    cells: &Cells,
) -> Result<(), AllocError> {
    let text = cells_text(alloc, cells)?;
    line.push_str(word)?;
    line.push_str(" ")?;
    line.push_str(text.as_str())
}

fn push_rows(alloc: Global, line: &mut String, rows: &Rows) -> Result<(), AllocError> {
    let text = rows_text(alloc, rows)?;
    line.push_str("rows ")?;
    line.push_str(text.as_str())
}

fn push_plan(alloc: Global, line: &mut String, plan: &SharedPlan) -> Result<(), AllocError> {
    let text = explain(alloc, plan.plan())?;
    write!(line, "plan {text}")
}

// Writes a conflict: the version that wrote in the range, and the range's ends in hexadecimal.
fn push_conflict(
    alloc: Global,
    line: &mut String,
    client: u64,
    seen: u64,
    range: &KeyRange,
) -> Result<(), AllocError> {
    let begin = hex::encode(alloc, range.begin().as_slice())?;
    let end = hex::encode(alloc, range.end().as_slice())?;
    write!(line, "client {client} conflict {seen} {begin}..{end}")
}

/// Writes what became of a transaction behind what the line holds.
pub fn push_report(alloc: Global, line: &mut String, report: &Report) -> Result<(), AllocError> {
    match report {
        Report::Committed { client, version } => {
            write!(line, "client {client} committed {version}")
        }
        Report::Conflict {
            client,
            seen,
            range,
        } => push_conflict(alloc, line, *client, *seen, range),
        Report::Unknown { client } => write!(line, "client {client} unknown"),
    }
}

fn push_reports(alloc: Global, line: &mut String, reports: &[Report]) -> Result<(), AllocError> {
    let mut separator = "";
    for report in reports {
        line.push_str(separator)?;
        push_report(alloc, line, report)?;
        separator = ", ";
    }
    Ok(())
}

// Writes how many records a builder built, and the ends of their range in hexadecimal.
fn push_built(
    alloc: Global,
    line: &mut String,
    records: usize,
    range: &KeyRange,
) -> Result<(), AllocError> {
    let begin = hex::encode(alloc, range.begin().as_slice())?;
    let end = hex::encode(alloc, range.end().as_slice())?;
    write!(line, "built {records} {begin}..{end}")
}

// Writes that the pair of a key isn't a store's, the key in hexadecimal digits.
fn push_corrupt(alloc: Global, line: &mut String, key: &Bytes) -> Result<(), AllocError> {
    let digits = hex::encode(alloc, key.as_slice())?;
    write!(line, "refused Corrupt {digits}")
}

// The name of a state.
fn state_name(state: State) -> &'static str {
    match state {
        State::Readable => "readable",
        State::WriteOnly => "write-only",
        State::Disabled => "disabled",
    }
}

/// Writes what a step replied behind what the line holds. Where memory is wanting it answers
/// `AllocError`, and the line holds a part of the text.
pub fn push_reply(alloc: Global, line: &mut String, reply: &Reply) -> Result<(), AllocError> {
    match reply {
        Reply::Begun(version) => write!(line, "begun {version}"),
        Reply::Done => line.push_str("ok"),
        Reply::SavedNew => line.push_str("saved new"),
        Reply::SavedOver(cells) => push_cells(alloc, line, "saved over", cells),
        Reply::Found(cells) => push_cells(alloc, line, "found", cells),
        Reply::Absent => line.push_str("none"),
        Reply::Removed => line.push_str("removed"),
        Reply::Rows(rows) => push_rows(alloc, line, rows),
        Reply::Planned(plan) => push_plan(alloc, line, plan),
        Reply::Indexed(state) | Reply::State(state) => line.push_str(state_name(*state)),
        Reply::Total(total) => write!(line, "total {total}"),
        Reply::Built { records, range } => push_built(alloc, line, *records, range),
        Reply::Finished => line.push_str("finished"),
        Reply::Submitted(version) => write!(line, "submitted {version}"),
        Reply::ReadOnly => line.push_str("read only"),
        Reply::Nothing => line.push_str("nothing"),
        Reply::Reported(reports) => push_reports(alloc, line, reports.as_slice()),
        Reply::Refused(refusal) => {
            let name = refusal.name();
            write!(line, "refused {name}")
        }
        Reply::Corrupt(key) => push_corrupt(alloc, line, key),
        Reply::Stopped => line.push_str("out of memory"),
    }
}

/// Makes the line that says what the step of this number replied, in the place of what it held.
/// Where memory is wanting it answers `AllocError`, and the line holds a part of the text.
pub fn make_line(
    alloc: Global,
    line: &mut String,
    number: usize,
    reply: &Reply,
) -> Result<(), AllocError> {
    line.clear();
    write!(line, "{number} ")?;
    push_reply(alloc, line, reply)?;
    line.push_str("\n")
}
