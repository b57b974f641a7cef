// Cells that are lent, and the cells of records by the names of their fields. Called by applications.
ghost use Rattle.std.specs.Prelude.{◌≡◌, IfOk, unwrap_or};
ghost use Rattle.std.specs.Option.{option_copied};
ghost use Rattle.metadata.specs.declared.cells.Cell.TheVariants.{Null};
ghost use Rattle.metadata.specs.Schema.{place_of};
ghost use Rattle.query.specs.Fields.{cell_named};
ghost use Rattle.record_layer.specs.Lent.{lent_cell, lent_cells};
ghost use Rattle.record_layer.specs.Named.{whole_number_in, text_in};

use metadata::{Cell, Cells, Field, Record};
use std::alloc::{AllocError, Global};
use tuple_codec::{ByteString, Text};

/// A cell that is lent: what a field, a column or a filter is given.
#[derive(Clone, Copy, Debug)]
pub enum CellRef<'a> {
    /// No value.
    Null,
    /// A whole number of 64 bits.
    Int(i64),
    /// A text.
    Text(&'a str),
    /// A byte string.
    Bytes(&'a [u8]),
}

/// The cell that was lent, copied.
pub(crate) fn cell_of(alloc: Global, lent: CellRef<'_>) -> Result<Cell, AllocError>
    ensures { IfOk result (λ made. made ≡ lent_cell lent.entry) }
{
    match lent {
        CellRef::Null => Ok(Cell::Null),
        CellRef::Int(number) => Ok(Cell::Int(number)),
        CellRef::Text(text) => Ok(Cell::Text(Text::from_str(alloc, text)?)),
        CellRef::Bytes(bytes) => Ok(Cell::Bytes(ByteString::new(Vec::from_slice(alloc, bytes)?))),
    }
}

/// These cells, copied.
pub fn cells_of(alloc: Global, lent: &[CellRef<'_>]) -> Result<Cells, AllocError>
    ensures { IfOk result (λ made. made ≡ lent_cells lent.now) }
{
    let mut cells = Vec::with_capacity(alloc, lent.len())?;
    for &one in lent {
        cells.push(cell_of(alloc, one)?)?;
    }
    Ok(Cells::new(cells))
}

/// The place of the field of this name.
fn place_of(fields: &[Field], name: &str) -> Option<usize>
    ensures { result ≡ place_of fields.now name.now }
{
    fields.iter().position(|field| field.name.as_str() == name)
}

/// The cell of a record in the field of this name, or None where its type has none.
pub fn cell_named<'a>(row: &'a Record, name: &str) -> Option<&'a Cell>
    ensures { unwrap_or (option_copied result) Null ≡ cell_named row.now name.now }
{
    match place_of(row.definition().fields.as_slice(), name) {
        Some(place) => row.cells().as_slice().get(place),
        None => None,
    }
}

/// The whole number in the field of this name, or None where there is none: where the field is
/// null, is of another kind, or isn't there.
pub fn int_named(row: &Record, name: &str) -> Option<i64>
    ensures { result ≡ whole_number_in (cell_named row.now name.now) }
{
    match cell_named(row, name) {
        Some(Cell::Int(number)) => Some(*number),
        _ => None,
    }
}

/// The text in the field of this name, or None where there is none.
pub fn text_named<'a>(row: &'a Record, name: &str) -> Option<&'a Text>
    ensures { option_copied result ≡ text_in (cell_named row.now name.now) }
{
    match cell_named(row, name) {
        Some(Cell::Text(text)) => Some(text),
        _ => None,
    }
}
