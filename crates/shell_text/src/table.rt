// Rows as a table. Called by `shell`.
use json_forms::cell_text;
use metadata::Cells;
use packed_rows::Rows;
use std::alloc::{AllocError, Global};
use std::fmt::Write;
use unicode_width::UnicodeWidthStr;

// The texts of the cells of a row.
fn texts_of(alloc: Global, row: &Cells) -> Result<Vec<String>, AllocError> {
    let mut texts = Vec::new(alloc);
    for cell in row.as_slice() {
        texts.push(cell_text(alloc, cell)?)?;
    }
    Ok(texts)
}

// Makes each column as wide as the text in it.
fn widen(widths: &mut Vec<usize>, texts: &[String]) -> Result<(), AllocError> {
    for (place, text) in texts.iter().enumerate() {
        let width = text.as_str().width();
        match widths.get_mut(place) {
            Some(widest) => *widest = width.max(*widest),
            None => widths.push(width)?,
        }
    }
    Ok(())
}

// Writes blanks.
fn push_blanks(lines: &mut String, count: usize) -> Result<(), AllocError> {
    for _ in 0..count {
        lines.push_str(" ")?;
    }
    Ok(())
}

// Writes the texts of a row, each in its column.
fn push_row(lines: &mut String, widths: &[usize], texts: &[String]) -> Result<(), AllocError> {
    let mut owed = 0;
    for (text, width) in texts.iter().zip(widths.iter()) {
        push_blanks(lines, owed)?;
        lines.push_str(text.as_str())?;
        owed = width
            .saturating_sub(text.as_str().width())
            .saturating_add(2);
    }
    lines.push_str("\n")
}

/// Writes a table of rows under these heads, if there are as many as a row has cells, and how many
/// rows there are.
pub fn push_table(
    alloc: Global,
    lines: &mut String,
    heads: &[String],
    rows: &Rows,
) -> Result<(), AllocError> {
    let mut widths = Vec::new(alloc);
    let mut texts = Vec::new(alloc);
    for place in 0..rows.len() {
        if let Some(row) = rows.cells_at(alloc, place)? {
            let cells = texts_of(alloc, &row)?;
            widen(&mut widths, cells.as_slice())?;
            texts.push(cells)?;
        }
    }
    if heads.len() == widths.len() {
        widen(&mut widths, heads)?;
        push_row(lines, widths.as_slice(), heads)?;
    }
    for cells in &texts {
        push_row(lines, widths.as_slice(), cells.as_slice())?;
    }
    let count = rows.len();
    let what = if count == 1 { "row" } else { "rows" };
    writeln!(lines, "{count} {what}")
}
