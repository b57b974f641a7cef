// The tree of a plan as SVG. Called by `recordctl`.
use crate::escaping::push_escaped;
use crate::layout::{Row, rows_of};
use std::alloc::{AllocError, Global};
use std::fmt::Write;

// Sizes in pixels: of a letter, of the box of a step and what is between two, and of the margin.
const LETTER: usize = 8;

const HEIGHT: usize = 28;

const GAP: usize = 12;

const INDENT: usize = 32;

const MARGIN: usize = 12;

// A box, whose place is that of its upper left corner.
#[derive(Clone, Copy, Debug, Drop)]
struct Frame {
    x: usize,
    y: usize,
    width: usize,
}

// The upper end of a row.
fn top_of(index: usize) -> usize {
    index.saturating_mul(HEIGHT + GAP).saturating_add(MARGIN)
}

// The left end of what stands so deep.
fn left_of(depth: usize) -> usize {
    depth.saturating_mul(INDENT).saturating_add(MARGIN)
}

// The box of a row.
fn frame_of(index: usize, row: &Row<'_>) -> Frame {
    let letters = row.text.chars().count();
    Frame {
        x: left_of(row.depth),
        y: top_of(index),
        width: letters.saturating_mul(LETTER).saturating_add(2 * MARGIN),
    }
}

// How wide a drawing of rows is.
fn width_of(rows: &[Row<'_>]) -> usize {
    let mut most = 0;
    for row in rows {
        let frame = frame_of(0, row);
        most = frame.x.saturating_add(frame.width).max(most);
    }
    most.saturating_add(MARGIN)
}

// Writes the line from the step of a row, so deep, to the box of a part of it.
fn push_edge(svg: &mut String, row: usize, depth: usize, part: Frame) -> Result<(), AllocError> {
    let x = left_of(depth).saturating_add(MARGIN);
    let from = top_of(row).saturating_add(HEIGHT);
    let (to, end) = (part.y.saturating_add(HEIGHT / 2), part.x);
    writeln!(svg, "<path d=\"M{x} {from}V{to}H{end}\"/>")
}

// Writes the box of a row with its text.
fn push_box(svg: &mut String, frame: Frame, text: &str) -> Result<(), AllocError> {
    let Frame { x, y, width } = frame;
    writeln!(
        svg,
        "<rect x=\"{x}\" y=\"{y}\" width=\"{width}\" height=\"{HEIGHT}\" rx=\"4\"/>"
    )?;
    let (left, base) = (x.saturating_add(MARGIN), y.saturating_add(19));
    write!(svg, "<text x=\"{left}\" y=\"{base}\">")?;
    push_escaped(svg, text)?;
    svg.push_str("</text>\n")
}

// Writes a row, and the line that leads to it.
fn push_row(svg: &mut String, index: usize, row: &Row<'_>) -> Result<(), AllocError> {
    let frame = frame_of(index, row);
    if let Some(parent) = row.parent {
        push_edge(svg, parent, row.depth.saturating_sub(1), frame)?;
    }
    push_box(svg, frame, row.text)
}

// Writes what stands before the rows.
fn push_head(svg: &mut String, rows: &[Row<'_>]) -> Result<(), AllocError> {
    let (width, height) = (width_of(rows), top_of(rows.len()));
    writeln!(
        svg,
        "<svg xmlns=\"http://www.w3.org/2000/svg\" width=\"{width}\" height=\"{height}\" \
        viewBox=\"0 0 {width} {height}\">"
    )?;
    svg.push_str("<title>Plan of a query</title>\n")?;
    svg.push_str(
        "<style>rect{fill:#f4f7fb;stroke:#5b7aa5}path{fill:none;stroke:#5b7aa5}\
        text{font:13px monospace;white-space:pre}</style>\n",
    )
}

/// A drawing of a tree whose lines are moved in by two blanks for each step deeper: a box for each
/// line, and a line from each to its parts. It is XML whatever the lines are.
pub fn tree_svg(alloc: Global, tree: &str) -> Result<String, AllocError> {
    let rows = rows_of(alloc, tree)?;
    let mut svg = String::new(alloc);
    push_head(&mut svg, rows.as_slice())?;
    for (index, row) in rows.as_slice().iter().enumerate() {
        push_row(&mut svg, index, row)?;
    }
    svg.push_str("</svg>\n")?;
    Ok(svg)
}
