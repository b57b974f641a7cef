// Cells as people read them, and spans of them. Used by `places`.
use metadata::{Cell, Cells};
use std::fmt;

/// Cells, to be shown in round brackets.
#[derive(Clone, Copy)]
pub(crate) struct CellsShown<'a> {
    pub(crate) cells: &'a Cells,
}

/// A cell, to be shown: bytes as hexadecimal digits.
#[derive(Clone, Copy)]
struct CellShown<'a> {
    cell: &'a Cell,
}

impl fmt::Display for CellShown<'_> {
    fn fmt<W: fmt::Write>(&self, f: &mut fmt::Formatter<W>) -> fmt::Result {
        match self.cell {
            Cell::Null => f.write_str("null"),
            Cell::Int(number) => write!(f, "{number}"),
            Cell::Text(text) => write!(f, "{:?}", text.as_str()),
            Cell::Bytes(bytes) => {
                for byte in bytes.as_slice() {
                    write!(f, "{byte:02x}")?;
                }
                Ok(())
            }
        }
    }
}

impl fmt::Display for CellsShown<'_> {
    fn fmt<W: fmt::Write>(&self, f: &mut fmt::Formatter<W>) -> fmt::Result {
        let mut before = "(";
        for cell in self.cells.as_slice() {
            write!(f, "{before}{}", CellShown { cell })?;
            before = ", ";
        }
        f.write_str(")")
    }
}

/// What lies between keys or entries that begin with these cells. It has no beginning, or no end,
/// where no cells are told; whether those at its end are in it isn't told.
#[derive(Drop)]
pub struct Span {
    /// The cells where it begins.
    pub from: Cells,
    /// The cells where it ends.
    pub to: Cells,
}

impl fmt::Display for Span {
    fn fmt<W: fmt::Write>(&self, f: &mut fmt::Formatter<W>) -> fmt::Result {
        let (from, to) = (self.from.as_slice(), self.to.as_slice());
        if !from.is_empty() && self.from.compare(&self.to).is_eq() {
            return write!(f, " at {}", CellsShown { cells: &self.from });
        }
        if !from.is_empty() {
            write!(f, " from {}", CellsShown { cells: &self.from })?;
        }
        if !to.is_empty() {
            write!(f, " to {}", CellsShown { cells: &self.to })?;
        }
        Ok(())
    }
}
