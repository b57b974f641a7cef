// Boxes with texts in them. Called by `schedule`.
use crate::escaping::push_escaped;
use crate::lanes::{ROW, top_of};
use std::alloc::AllocError;
use std::fmt::Write;

// How wide a letter is nearly, in pixels, what is between a text and the end of its box, and what is
// between two rows.
const LETTER: usize = 7;

const MARGIN: usize = 8;

const BETWEEN: usize = 6;

/// A box: its row, its left end, its width, and the class by which it is coloured.
#[derive(Clone, Copy, Debug, Drop)]
pub(crate) struct Frame<'a> {
    pub row: usize,
    pub left: usize,
    pub width: usize,
    pub class: &'a str,
}

impl Frame<'_> {
    // How many letters a line in it has at most.
    fn letters(&self) -> usize {
        self.width.saturating_sub(2 * MARGIN) / LETTER
    }
}

// A text's first letters, as many as these, and the rest.
fn split_at_letter(text: &str, letters: usize) -> (&str, &str) {
    match text.char_indices().nth(letters) {
        Some((place, _)) => (
            text.get(..place).unwrap_or(text),
            text.get(place..).unwrap_or(""),
        ),
        None => (text, ""),
    }
}

// Writes a line of a text, which ends in dots where there is more of it.
fn push_line(
    svg: &mut String,
    frame: Frame<'_>,
    line: usize,
    text: &str,
) -> Result<(), AllocError> {
    let (left, base) = (
        frame.left.saturating_add(MARGIN),
        top_of(frame.row).saturating_add(line),
    );
    let (shown, rest) = split_at_letter(text, frame.letters());
    write!(svg, "<text x=\"{left}\" y=\"{base}\">")?;
    if rest.is_empty() {
        push_escaped(svg, shown)?;
    } else {
        let (shorter, _) = split_at_letter(text, frame.letters().saturating_sub(1));
        push_escaped(svg, shorter)?;
        svg.push_str("\u{2026}")?;
    }
    svg.push_str("</text>")
}

/// Writes a box with two lines in it; the whole of both is told where a pointer rests on it.
pub(crate) fn push_box(
    svg: &mut String,
    frame: Frame<'_>,
    first: &str,
    second: &str,
) -> Result<(), AllocError> {
    let Frame {
        row,
        left,
        width,
        class,
    } = frame;
    let (top, height) = (top_of(row), ROW - BETWEEN);
    write!(svg, "<g class=\"{class}\"><title>")?;
    push_escaped(svg, first)?;
    svg.push_str("\n")?;
    push_escaped(svg, second)?;
    write!(
        svg,
        "</title><rect x=\"{left}\" y=\"{top}\" width=\"{width}\" height=\"{height}\" rx=\"4\"/>"
    )?;
    push_line(svg, frame, 16, first)?;
    push_line(svg, frame, 32, second)?;
    svg.push_str("</g>\n")
}

/// Writes a box with a text in it, which goes on in a second line.
pub(crate) fn push_text_box(
    svg: &mut String,
    frame: Frame<'_>,
    text: &str,
) -> Result<(), AllocError> {
    let (first, rest) = split_at_letter(text, frame.letters());
    push_box(svg, frame, first, rest)
}
