// A work that is done by calls of `schedule`, as a service does it that embeds it: lines, done one
// after another. Called by `main` for `bench calls`.
use crate::call_lines::step_of;
use crate::call_rows::{write_pack, write_row};
use crate::call_store::begun;
use schedule::{Reply, Schedule};
use std::alloc::Global;
use std::io::{self, BufWriter, Read, Write};
use std::{mem, str};

// Prints the records that a step has found. None where it is refused.
fn write_found<W: Write>(alloc: Global, output: &mut W, reply: &Reply) -> io::Result<Option<()>> {
    match reply {
        Reply::Found(cells) => write_row(output, cells)?,
        Reply::Rows(rows) => {
            for place in 0..rows.len() {
                if let Some(pack) = rows.pack_at(place) {
                    write_pack(alloc, output, pack)?;
                }
            }
        }
        Reply::Refused(_) => return Ok(None),
        _ => {}
    }
    Ok(Some(()))
}

// Does the step that a line is. None where it is none, or is refused.
fn done<W: Write>(
    alloc: Global,
    schedule: Schedule,
    line: &str,
    output: &mut W,
) -> io::Result<Option<Schedule>> {
    let Some(step) = step_of(alloc, line) else {
        return Ok(None);
    };
    let (schedule, reply) = schedule.step(alloc, &step)?;
    match write_found(alloc, output, &reply)? {
        Some(()) => Ok(Some(schedule)),
        None => Ok(None),
    }
}

// Does lines in turn. None where one isn't done.
fn done_each<W: Write>(
    alloc: Global,
    schedule: Schedule,
    text: &str,
    output: &mut W,
) -> io::Result<Option<Schedule>> {
    let mut schedule = schedule;
    for line in text.lines() {
        match done(alloc, schedule, line, output)? {
            Some(after) => schedule = after,
            None => return Ok(None),
        }
    }
    Ok(Some(schedule))
}

/// Does the lines of the input, and prints the records that they find, as the shell of SQLite does.
/// None where a line isn't done.
///
/// A line is a word and its values, each after a tab: a whole number as it is, a text after a `'`.
/// All but `e`, which settles, have the client's number first. `b` begins, `t` makes the store with
/// a type `t` of the fields `k`, `a` and `b`, with so many of two indexes, and `b` of the kind of a
/// value; `s` saves a record, `l` loads that of a key, `q` asks for those with a value of `a`, `w`
/// for all, and `c` commits.
pub fn run<R: Read, W: Write>(
    alloc: Global,
    input: &mut R,
    output: &mut W,
) -> io::Result<Option<()>> {
    let mut bytes = Vec::new(alloc);
    input.read_to_end(&mut bytes)?;
    let Ok(text) = str::from_utf8(bytes.as_slice()) else {
        return Ok(None);
    };
    let Some(schedule) = begun(alloc) else {
        return Ok(None);
    };
    let mut output = BufWriter::new(alloc, output)?;
    let Some(schedule) = done_each(alloc, schedule, text, &mut output)? else {
        return Ok(None);
    };
    // The process ends next, and takes it with it faster than part by part.
    mem::forget(schedule);
    output.flush()?;
    Ok(Some(()))
}
