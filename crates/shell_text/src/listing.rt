// The lines of a script's steps. Called by `shell` and `recordctl`.
use json_places::{Reading, Written, on_one_line, read};
use std::alloc::{AllocError, Global};

// The line of a step as it is written.
fn step_line(alloc: Global, text: &[u8], step: &Written) -> Result<Vec<u8>, AllocError> {
    let mut line = on_one_line(alloc, text, step)?;
    line.push(b'\n')?;
    Ok(line)
}

/// The steps of a script as they are written, each on one line: those at the last key `steps` of an
/// object, and none of another text.
pub fn step_lines(alloc: Global, text: &[u8]) -> Result<Vec<Vec<u8>>, AllocError> {
    let mut lines = Vec::new(alloc);
    let Reading { value, flaws: _ } = read(alloc, text)?;
    let Some(script) = value else {
        return Ok(lines);
    };
    let steps = script.get("steps").and_then(|member| member.value.items());
    for step in steps.unwrap_or(&[]) {
        lines.push(step_line(alloc, text, step)?)?;
    }
    Ok(lines)
}
