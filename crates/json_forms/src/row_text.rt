// Cells and rows written as JSON, token by token. Called by `script`.
ghost use Rattle.std.specs.Prelude.{◌≡◌, [], All, IfOk, List, OnOk, string_bytes};
ghost use Rattle.json.specs.Lex.{tokens};
ghost use Rattle.metadata.specs.Cell.{IsCell};
ghost use Rattle.metadata.specs.Stored.{AreStoredAs};
ghost use Rattle.metadata.specs.declared.cells.Cell.{Cell as CellValue};
ghost use Rattle.metadata.specs.declared.cells.Cell.TheVariants as cell;
ghost use Rattle.json_forms.specs.CellJson.{IsTextOfCells, IsTextOfRows};
ghost use Rattle.json_forms.specs.RowText.{AreTokensWritten, cell_json, row_json, rows_json};

use json::Writer;
use metadata::{Cell, Cells, unpack_cell};
use packed_rows::Rows;
use std::alloc::{AllocError, Global};

// The bytes that are made ready for a row, so that the text of short ones doesn't grow again and again.
const ROW_ROOM: usize = 32;

// Writes what stands for bytes: `{"hex":".."}`.
fn write_bytes(alloc: Global, out: &mut Writer, bytes: &[u8]) -> Result<(), AllocError>
    ensures { OnOk result (AreTokensWritten (cell_json (cell.Bytes bytes.now)) out.old out.new) }
{
    let digits = hex::encode(alloc, bytes)?;
    out.begin_object()?;
    out.key("hex")?;
    out.string(digits.as_str())?;
    out.end_object()
}

// Writes a cell.
#[inline(always)]
fn write_cell(alloc: Global, out: &mut Writer, cell: &Cell) -> Result<(), AllocError>
    ensures written { OnOk result (AreTokensWritten (cell_json cell.now) out.old out.new) }
    ensures known { IsCell cell.now }
{
    cell.known();
    match cell {
        Cell::Null => out.null(),
        Cell::Int(whole) => out.i64(*whole),
        Cell::Text(text) => out.string(text.as_str()),
        Cell::Bytes(bytes) => write_bytes(alloc, out, bytes.as_slice()),
    }
}

// Writes a cell that isn't wanted any more.
#[inline(always)]
fn write_last(alloc: Global, out: &mut Writer, cell: Cell) -> Result<(), AllocError>
    ensures { OnOk result (AreTokensWritten (cell_json cell) out.old out.new) }
{
    write_cell(alloc, out, &cell)
}

// Writes the list of cells.
fn write_cells(alloc: Global, out: &mut Writer, cells: &Cells) -> Result<(), AllocError>
    ensures written { OnOk result (AreTokensWritten (row_json cells.now) out.old out.new) }
    ensures known { OnOk result (All IsCell cells.now) }
{
    out.begin_array()?;
    for cell in cells.as_slice() {
        write_cell(alloc, out, cell)?;
    }
    out.end_array()
}

// Writes the list of the cells whose pack the bytes are.
fn write_pack(alloc: Global, out: &mut Writer, pack: &[u8]) -> Result<(), AllocError>
    ensures { OnOk result ((cells : List CellValue) → AreStoredAs pack.now cells
        → AreTokensWritten (row_json cells) out.old out.new) }
{
    out.begin_array()?;
    let mut rest = pack;
    while let Some((cell, after)) = unpack_cell(alloc, rest)? {
        write_last(alloc, out, cell)?;
        rest = after;
    }
    out.end_array()
}

// Writes the list of rows.
fn write_rows(alloc: Global, out: &mut Writer, rows: &Rows) -> Result<(), AllocError>
    ensures written { OnOk result (AreTokensWritten (rows_json rows.now) out.old out.new) }
    ensures known { OnOk result (All (All IsCell) rows.now) }
{
    out.begin_array()?;
    for place in 0..rows.len() {
        let Some(pack) = rows.pack_at(place) else {
            unreachable!()
        };
        write_pack(alloc, out, pack)?;
    }
    out.end_array()
}

// The text that was written.
fn text_of(out: Writer) -> Result<String, AllocError>
    ensures { IfOk result (λ text. (out.before ≡ []) → tokens (string_bytes text) ≡ out.tokens) }
{
    match String::from_utf8(out.into_inner()) {
        Ok(text) => Ok(text),
        Err(_) => Err(AllocError),
    }
}

/// The text of cells, a list of JSON, which stands for these cells and no other.
pub fn cells_text(alloc: Global, cells: &Cells) -> Result<String, AllocError>
    ensures { IfOk result (λ text. IsTextOfCells (string_bytes text) cells.now) }
{
    let buffer = Vec::with_capacity(alloc, ROW_ROOM)?;
    let mut out = Writer::new(buffer);
    write_cells(alloc, &mut out, cells)?;
    text_of(out)
}

/// The text of rows, a list of lists of cells, which stands for these rows and no other.
pub fn rows_text(alloc: Global, rows: &Rows) -> Result<String, AllocError>
    ensures { IfOk result (λ text. IsTextOfRows (string_bytes text) rows.now) }
{
    let buffer = Vec::with_capacity(alloc, rows.len().saturating_mul(ROW_ROOM))?;
    let mut out = Writer::new(buffer);
    write_rows(alloc, &mut out, rows)?;
    text_of(out)
}
