//! The range of a scan by what a match says of its columns. Called by `nodes_of`.
ghost use Rattle.std.specs.Prelude.{◌≡◌, ◌++◌, ◌∷◌, [], fold, map, IfOk, OnOk};
ghost use Rattle.metadata.specs.Order.{open_pack};
ghost use Rattle.planner.specs.Pack.{behind_all, pack, pack_cell};
ghost use Rattle.planner.specs.Planned.{matched_range};
ghost use Rattle.planner.specs.Range.{begin_of, bounded, earlier_key, end_of, later_key};
ghost use Rattle.planner.specs.View.{bound_of, bounds_of, fixed_cell, fixed_of, match_of, range_of};

use crate::fixing::{Bound, Fixed};
use crate::matching::Match;
use crate::plan::KeyRange;
use metadata::Cell;
use std::alloc::{AllocError, Global};
use tuple_codec::{ByteString, strinc};

/// Room for the pack of a cell and a byte, as long as it mostly is.
const PACK_ROOM: usize = 16;

/// The pack of a cell.
fn pack_cell(alloc: Global, cell: &Cell) -> Result<Vec<u8>, AllocError>
    ensures { IfOk result (λ bytes. bytes.items ≡ pack_cell cell.now) }
{
    let mut bytes = Vec::with_capacity(alloc, PACK_ROOM)?;
    cell.push_pack(&mut bytes)?;
    Ok(bytes)
}

/// Adds the pack of the cell that a column is fixed to.
fn push_fixed(cell: Fixed, into: &mut Vec<u8>) -> Result<(), AllocError>
    ensures { OnOk result (into.new.items
        ≡ into.old.items ++ pack_cell (fixed_cell cell.entry)) }
{
    match cell {
        Fixed::Null => Cell::Null.push_pack(into),
        Fixed::Value(value) => value.push_pack(into),
    }
}

/// Adds the packs of the cells that columns are fixed to.
fn add_fixed(fixed: &[(usize, Fixed)], into: &mut Vec<u8>) -> Result<(), AllocError>
    ensures { OnOk result (into.new.items ≡ into.old.items
        ++ pack (map (λ f. f.1) (map fixed_of fixed.now))) }
{
    match fixed {
        [] => Ok(()),
        [first, rest @ ..] => {
            push_fixed(first.1, into)?;
            add_fixed(rest, into)
        }
    }
}

/// A cell's pack and a byte behind it.
fn pack_and(alloc: Global, cell: &Cell, byte: u8) -> Result<Vec<u8>, AllocError>
    ensures { IfOk result (λ bytes. bytes.items ≡ pack_cell cell.now ++ byte ∷ []) }
{
    let mut bytes = pack_cell(alloc, cell)?;
    bytes.push(byte)?;
    Ok(bytes)
}

/// A text or a byte string as its pack begins: without the closing 00.
#[tactic(auto, using(crate::proofs::Packs::opened))]
fn open_pack(alloc: Global, cell: &Cell) -> Result<Vec<u8>, AllocError>
    ensures { IfOk result (λ bytes. bytes.items ≡ open_pack cell.now) }
{
    match cell {
        Cell::Null | Cell::Int(_) => Ok(Vec::new(alloc)),
        Cell::Text(_) | Cell::Bytes(_) => {
            let mut bytes = pack_cell(alloc, cell)?;
            let _ = bytes.pop();
            Ok(bytes)
        }
    }
}

/// The least bytes behind all that begin so.
fn behind_all(alloc: Global, bytes: &[u8]) -> Result<Vec<u8>, AllocError>
    ensures { IfOk result (λ end. end.items ≡ behind_all bytes.now) }
{
    match strinc(alloc, bytes)? {
        Some(end) => Ok(end),
        None => Ok(Vec::new(alloc)),
    }
}

/// Where the keys begin that a bound lets in.
fn begin_of(alloc: Global, bound: Bound) -> Result<Vec<u8>, AllocError>
    ensures { IfOk result (λ begin. begin.items ≡ begin_of (bound_of bound.entry)) }
{
    match bound {
        Bound::Above(value) => pack_and(alloc, value, 0xff),
        Bound::From(value) => pack_cell(alloc, value),
        Bound::Below(_) | Bound::UpTo(_) => {
            let mut begin = Vec::new(alloc);
            begin.push(0x01)?;
            Ok(begin)
        }
        Bound::Prefixed(part) => open_pack(alloc, part),
    }
}

/// Where they end.
fn end_of(alloc: Global, bound: Bound) -> Result<Vec<u8>, AllocError>
    ensures { IfOk result (λ end. end.items ≡ end_of (bound_of bound.entry)) }
{
    match bound {
        Bound::Above(_) | Bound::From(_) => {
            let mut end = Vec::new(alloc);
            end.push(0xff)?;
            Ok(end)
        }
        Bound::Below(value) => pack_cell(alloc, value),
        Bound::UpTo(value) => pack_and(alloc, value, 0xff),
        Bound::Prefixed(part) => {
            let begin = open_pack(alloc, part)?;
            behind_all(alloc, begin.as_slice())
        }
    }
}

/// The later of two keys.
fn later(a: Vec<u8>, b: Vec<u8>) -> Vec<u8>
    ensures { result.items ≡ later_key a.items b.items }
{
    if b.as_slice().cmp(a.as_slice()).is_lt() {
        a
    } else {
        b
    }
}

/// The earlier of two keys.
fn earlier(a: Vec<u8>, b: Vec<u8>) -> Vec<u8>
    ensures { result.items ≡ earlier_key a.items b.items }
{
    if b.as_slice().cmp(a.as_slice()).is_lt() {
        b
    } else {
        a
    }
}

/// The latest begin of bounds and of a key.
fn latest_begin(
    alloc: Global,
    begin: Vec<u8>,
    bounds: &[(usize, Bound)],
) -> Result<Vec<u8>, AllocError>
    ensures { IfOk result (λ bytes. bytes.items
        ≡ fold later_key begin.items (map begin_of (map (λ b. b.1) (map bounds_of bounds.now)))) }
{
    match bounds {
        [] => Ok(begin),
        [first, rest @ ..] => {
            let own = begin_of(alloc, first.1)?;
            latest_begin(alloc, later(begin, own), rest)
        }
    }
}

/// The earliest end of bounds and of a key.
fn earliest_end(
    alloc: Global,
    end: Vec<u8>,
    bounds: &[(usize, Bound)],
) -> Result<Vec<u8>, AllocError>
    ensures { IfOk result (λ bytes. bytes.items
        ≡ fold earlier_key end.items (map end_of (map (λ b. b.1) (map bounds_of bounds.now)))) }
{
    match bounds {
        [] => Ok(end),
        [first, rest @ ..] => {
            let own = end_of(alloc, first.1)?;
            earliest_end(alloc, earlier(end, own), rest)
        }
    }
}

/// Bytes behind others.
fn behind(alloc: Global, front: &[u8], bytes: &[u8]) -> Result<ByteString, AllocError>
    ensures { IfOk result (λ joined. joined ≡ front.now ++ bytes.now) }
{
    let mut joined = Vec::with_capacity(alloc, front.len().saturating_add(bytes.len()))?;
    joined.extend_from_slice(front)?;
    joined.extend_from_slice(bytes)?;
    Ok(ByteString::new(joined))
}

/// The range that a match gives a scan of its path.
pub(crate) fn matched_range(alloc: Global, m: &Match) -> Result<KeyRange, AllocError>
    ensures { IfOk result (λ range. range_of range ≡ matched_range (match_of m.now)) }
{
    let mut front = Vec::with_capacity(alloc, PACK_ROOM)?;
    add_fixed(m.fixed.as_slice(), &mut front)?;
    let begin = latest_begin(alloc, Vec::new(alloc), m.bounds.as_slice())?;
    let mut last = Vec::new(alloc);
    last.push(0xff)?;
    let end = earliest_end(alloc, last, m.bounds.as_slice())?;
    let first = behind(alloc, front.as_slice(), begin.as_slice())?;
    let end = later(begin, end);
    let last = behind(alloc, front.as_slice(), end.as_slice())?;
    Ok(KeyRange {
        begin: first,
        end: last,
    })
}
