// Cells that are read from bytes and from tuples, or skipped in bytes. Used by `stored`, and by
// `packed_rows`, `plan_exec` and `json_forms`.
ghost use Rattle.std.specs.Prelude.{◌≡◌, ◌<◌, ℕ, List, IfOk, IfSome, length};
ghost use Rattle.std.specs.Option.{IfNone};
ghost use Rattle.tuple_codec.specs.Elements.{item_in};
ghost use Rattle.tuple_codec.specs.Item.{int};
ghost use Rattle.metadata.specs.Cell.{cell_of, cells_of, fits, is_value};
ghost use Rattle.metadata.specs.declared.cells.Cell.{Cell as CellValue};
ghost use Rattle.metadata.specs.Stored.{AreStoredAs, BeginsWithCell, BeginsWithOne, IsOfNoCells};

use crate::cells::{Cell, Cells, Kind};
use std::alloc::{AllocError, Global};
use tuple_codec::{Element, Tuple, TupleInt, unpack_first, unpack_int};

// The cell that a whole number of a tuple is, if it has 64 bits.
#[inline(always)]
fn int_cell(value: TupleInt) -> Option<Cell>
    ensures { result ≡ cell_of (int value) }
{
    i64::try_from(value.get()).ok().map(Cell::Int)
}

// The cell that an element of a tuple is, if it is one.
#[inline(always)]
fn cell_in(element: Element) -> Option<Cell>
    ensures { result ≡ cell_of (item_in element) }
{
    match element {
        Element::Null => Some(Cell::Null),
        Element::Int(value) => int_cell(value),
        Element::Text(value) => Some(Cell::Text(value)),
        Element::Bytes(value) => Some(Cell::Bytes(value)),
        _ => None,
    }
}

/// The cell that the bytes begin with, as the pack of several cells does, and the bytes after it.
/// None where they begin with none.
#[inline(always)]
pub fn unpack_cell(alloc: Global, bytes: &[u8]) -> Result<Option<(Cell, &[u8])>, AllocError>
    ensures first { IfOk result (λ found. IfSome found (λ x. BeginsWithCell x.0 x.1.now bytes.now)) }
    ensures none { IfOk result (λ found. IfNone found
        ((cell : CellValue) (rest : List ℕ) → BeginsWithCell cell rest bytes.now → ⊥)) }
    ensures shorter { IfOk result (λ found. IfSome found (λ x. length x.1.now < length bytes.now)) }
{
    // Whole numbers, of which there are many, are read without making an element.
    if let Some(found) = unpack_int(bytes) {
        return match int_cell(found.0) {
            Some(cell) => Ok(Some((cell, found.1))),
            None => Ok(None),
        };
    }
    let Some((element, behind)) = unpack_first(alloc, bytes)? else {
        return Ok(None);
    };
    match cell_in(element) {
        Some(cell) => Ok(Some((cell, behind))),
        None => Ok(None),
    }
}

impl Cell {
    /// What stands after the pack of a cell that is null or of this kind, where the bytes begin
    /// with one, as those of several cells do.
    #[inline(always)]
    pub fn skip_pack(alloc: Global, kind: Kind, bytes: &[u8]) -> Result<Option<&[u8]>, AllocError>
        ensures skipped { IfOk result (λ found.
            IfSome found (λ rest. BeginsWithOne (fits kind) rest.now bytes.now)) }
        ensures none { IfOk result (λ found. IfNone found
            ((rest : List ℕ) → BeginsWithOne (fits kind) rest bytes.now → ⊥)) }
    {
        let Some((cell, after)) = unpack_cell(alloc, bytes)? else {
            return Ok(None);
        };
        if cell.fits(kind) {
            Ok(Some(after))
        } else {
            Ok(None)
        }
    }

    /// What stands after the pack of a cell that is of this kind and not null, where the bytes
    /// begin with one, as those of several cells do.
    #[inline(always)]
    pub fn skip_value(alloc: Global, kind: Kind, bytes: &[u8]) -> Result<Option<&[u8]>, AllocError>
        ensures skipped { IfOk result (λ found.
            IfSome found (λ rest. BeginsWithOne (is_value kind) rest.now bytes.now)) }
        ensures none { IfOk result (λ found. IfNone found
            ((rest : List ℕ) → BeginsWithOne (is_value kind) rest bytes.now → ⊥)) }
    {
        let Some((cell, after)) = unpack_cell(alloc, bytes)? else {
            return Ok(None);
        };
        if cell.fits(kind) && !cell.is_null() {
            Ok(Some(after))
        } else {
            Ok(None)
        }
    }
}

impl Cells {
    /// The cells whose pack these bytes are, or None where they are that of no cells.
    pub fn unpack(alloc: Global, bytes: &[u8]) -> Result<Option<Cells>, AllocError>
        ensures found { IfOk result (λ found. IfSome found (AreStoredAs bytes.now)) }
        ensures none { IfOk result (λ found. IfNone found (IsOfNoCells bytes.now)) }
    {
        Cells::unpack_about(alloc, 0, bytes)
    }

    // The same, where about so many cells are expected.
    pub(crate) fn unpack_about(
        alloc: Global,
        count: usize,
        bytes: &[u8],
    ) -> Result<Option<Cells>, AllocError>
        ensures found { IfOk result (λ found. IfSome found (AreStoredAs bytes.now)) }
        ensures none { IfOk result (λ found. IfNone found (IsOfNoCells bytes.now)) }
    {
        let mut found = Vec::with_capacity(alloc, count)?;
        let mut rest = bytes;
        while !rest.is_empty() {
            let Some((cell, behind)) = unpack_cell(alloc, rest)? else {
                return Ok(None);
            };
            found.push(cell)?;
            rest = behind;
        }
        Ok(Some(Cells { cells: found }))
    }

    /// The cells that a tuple is. None where an item isn't a cell: nested, a truth value, a UUID, a
    /// versionstamp, or a whole number beyond 64 bits.
    pub fn from_tuple(alloc: Global, tuple: Tuple) -> Result<Option<Cells>, AllocError>
        ensures { IfOk result (λ cells. cells ≡ cells_of tuple) }
    {
        let mut cells = Vec::with_capacity(alloc, tuple.elements().len())?;
        for element in tuple.into_elements() {
            let Some(cell) = cell_in(element) else {
                return Ok(None);
            };
            cells.push(cell)?;
        }
        Ok(Some(Cells { cells }))
    }
}
