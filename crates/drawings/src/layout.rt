// Where the steps of a tree stand. Called by `tree`.
ghost use Rattle.std.specs.Prelude.{◌≤◌, length};

use std::alloc::{AllocError, Global};

/// A step of a tree: its text, how deep it stands, and the row of the step that it is part of.
#[derive(Clone, Copy, Debug, Drop)]
pub(crate) struct Row<'a> {
    pub text: &'a str,
    pub depth: usize,
    pub parent: Option<usize>,
}

// How far a line is moved in for a step deeper, in blanks.
const BLANKS: usize = 2;

// The row of a line after the rows on the way to it, from the top.
fn row_of<'a>(line: &'a str, way: &[usize]) -> Row<'a> {
    let text = line.trim_start_matches(' ');
    let depth = line.len().saturating_sub(text.len()) / BLANKS;
    let parent = way.get(depth.wrapping_sub(1)).copied();
    Row {
        text,
        depth,
        parent,
    }
}

/// The rows of a tree whose lines are moved in, each below the one that it is part of.
pub(crate) fn rows_of(alloc: Global, tree: &str) -> Result<Vec<Row<'_>>, AllocError> {
    let mut rows = Vec::new(alloc);
    let mut way = Vec::new(alloc);
    for line in tree.split('\n') {
        let row = row_of(line, way.as_slice());
        if !row.text.is_empty() {
            way.truncate(row.depth);
            way.push(rows.len())?;
            rows.push(row)?;
        }
    }
    Ok(rows)
}
