//! The edges of ranges of keys, read back into cells. Used by `ranges` and `bounds`.
ghost use Rattle.std.specs.Prelude.{◌≡◌, IfOk};
ghost use Rattle.planner.specs.Pack.{unpack};
ghost use Rattle.planner.specs.View.{range_of};
ghost use Rattle.explain.specs.Told.{edge_behind, edge_in, has_all, open_cells, passed_by};

use metadata::Cells;
use planner::KeyRange;
use std::alloc::{AllocError, Global};
use tuple_codec::{UnpackFailure, strinc, unpack};

/// Which of the keys that begin with an edge's cells stand before the edge.
#[derive(Clone, Copy, Debug, PartialEq, Eq, Drop)]
pub(crate) enum Passed {
    /// None of them.
    Nothing,
    /// Those that go on with null.
    Null,
    /// All of them.
    All,
}

/// Where a range of keys begins or ends.
#[derive(Drop)]
pub(crate) struct Edge {
    /// The cells with which the keys around it begin.
    pub cells: Cells,
    /// Which of the keys that begin so stand before it.
    pub passed: Passed,
}

// The cells whose pack bytes are, if they are one.
fn unpacked(alloc: Global, bytes: &[u8]) -> Result<Option<Cells>, AllocError>
    ensures { IfOk result (λ cells. cells ≡ unpack bytes.now) }
{
    match unpack(alloc, bytes) {
        Ok(tuple) => Cells::from_tuple(alloc, tuple),
        Err(UnpackFailure::Memory) => Err(AllocError),
        Err(UnpackFailure::Refused(_)) => Ok(None),
    }
}

// What the byte behind the pack of an edge's cells passes.
fn passed_by(byte: u8) -> Option<Passed>
    ensures { result ≡ passed_by byte }
{
    match byte {
        0x01 => Some(Passed::Null),
        0xff => Some(Passed::All),
        _ => None,
    }
}

// The edge at a pack of cells and a byte behind it.
fn edge_behind(alloc: Global, front: &[u8], last: u8) -> Result<Option<Edge>, AllocError>
    ensures { IfOk result (λ found. found ≡ edge_behind (front.now, last)) }
{
    let Some(passed) = passed_by(last) else {
        return Ok(None);
    };
    match unpacked(alloc, front)? {
        Some(cells) => Ok(Some(Edge { cells, passed })),
        None => Ok(None),
    }
}

/// The edge that bytes are: a pack of cells, or that and one byte. None where they aren't one.
pub(crate) fn edge_in(alloc: Global, bytes: &[u8]) -> Result<Option<Edge>, AllocError>
    ensures { IfOk result (λ found. found ≡ edge_in bytes.now) }
{
    if let Some(cells) = unpacked(alloc, bytes)? {
        let passed = Passed::Nothing;
        return Ok(Some(Edge { cells, passed }));
    }
    match bytes.split_last() {
        Some((last, front)) => edge_behind(alloc, front, *last),
        None => Ok(None),
    }
}

// Whether a range has all keys that begin as it does.
fn has_all(alloc: Global, range: &KeyRange) -> Result<bool, AllocError>
    ensures { IfOk result (λ has. has ≡ has_all (range_of range.now)) }
{
    match strinc(alloc, range.begin.as_slice())? {
        Some(end) => Ok(range.end.as_slice() == end.as_slice()),
        None => Ok(false),
    }
}

/// The cells whose pack the beginning of a range is but for the closing 00, where the range has all
/// keys that begin so.
pub(crate) fn open_cells(alloc: Global, range: &KeyRange) -> Result<Option<Cells>, AllocError>
    ensures { IfOk result (λ cells. cells ≡ open_cells (range_of range.now)) }
{
    if !has_all(alloc, range)? {
        return Ok(None);
    }
    let mut closed = Vec::from_slice(alloc, range.begin.as_slice())?;
    closed.push(0)?;
    unpacked(alloc, closed.as_slice())
}
