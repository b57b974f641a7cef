// The lines of what is wrong. Called by `recordctl` and `shell`.
use crate::finder::Problem;
use json_places::Cursor;
use std::alloc::{AllocError, Global};
use std::fmt::Write;

// Writes the line of a problem of a text of this name.
fn push_problem(
    lines: &mut String,
    name: &str,
    cursor: &mut Cursor<'_>,
    problem: &Problem,
) -> Result<(), AllocError> {
    let place = cursor.place_of(problem.at);
    let (line, column, step) = (place.line, place.column, problem.step);
    write!(lines, "{name}:{line}:{column}: ")?;
    if step > 0 {
        write!(lines, "step {step}: ")?;
    }
    lines.push_str(problem.reason.as_str())?;
    lines.push_str("\n")
}

/// The lines of the problems of a text, each after the name that is given for it, its line and the
/// character in it.
pub fn problem_lines(
    alloc: Global,
    name: &str,
    text: &[u8],
    problems: &[Problem],
) -> Result<String, AllocError> {
    let mut lines = String::new(alloc);
    let mut cursor = Cursor::new(text);
    for problem in problems {
        push_problem(&mut lines, name, &mut cursor, problem)?;
    }
    Ok(lines)
}
