// Records whose cells are given as packs. Where all fields of a record are stored, which is told
// without taking its value apart, this is the pack. Called by `record_streams` and `fetch_streams`.
ghost use Rattle.std.specs.Prelude.{◌≡◌, ◌∷◌, ◌++◌, [], IfErr, IfOk, IfSome, List, Some, true};
ghost use Rattle.metadata.specs.Record.{Record as RecordValue};
ghost use Rattle.planner.specs.Layout.{stored_record};
ghost use Rattle.plan_exec.specs.Decoding.{AreAfter, IsDamage};
ghost use Rattle.plan_exec.specs.Packing.{ArePiecesAt, IsPieceAt, StandsWhole};
ghost use Rattle.plan_exec.specs.Reads.{or_damaged};

use crate::decoding::behind;
use crate::entries::{after_columns, after_number};
use crate::error::ExecError;
use crate::readers::RecordsOf;
use crate::record_streams::record_of;
use kv_core::Pair;
use metadata::{Cell, Kind};
use packed_rows::Rows;
use std::alloc::{AllocError, Global};

// The pack of the cell at a place, which isn't null, where a value begins with cells of these kinds.
fn piece_at<'a>(
    alloc: Global,
    kinds: &[Kind],
    place: usize,
    value: &'a [u8],
) -> Result<Option<&'a [u8]>, AllocError>
    ensures { IfOk result (λ found. IfSome found (λ piece.
        IsPieceAt value.now place piece.now)) }
{
    if place >= kinds.len() {
        return Ok(None);
    }
    let Some(from) = after_columns(alloc, &kinds[..place], value)? else {
        return Ok(None);
    };
    match Cell::skip_value(alloc, kinds[place], from)? {
        Some(after) => Ok(Some(&from[..from.len() - after.len()])),
        None => Ok(None),
    }
}

// Whether the bytes are the pack of the cells at these places, none of them null.
fn are_pieces(
    alloc: Global,
    kinds: &[Kind],
    places: &[usize],
    value: &[u8],
    pieces: &[u8],
) -> Result<bool, AllocError>
    ensures { IfOk result (λ are. are ≡ true → ArePiecesAt value.now places.now pieces.now) }
{
    let mut rest = pieces;
    for place in places {
        let Some(piece) = piece_at(alloc, kinds, *place, value)? else {
            return Ok(false);
        };
        match behind(piece, rest) {
            Some(after) => rest = after,
            None => return Ok(false),
        }
    }
    Ok(rest.is_empty())
}

// Whether a value is the pack of cells of these kinds.
fn are_all(alloc: Global, kinds: &[Kind], value: &[u8]) -> Result<bool, AllocError>
    ensures { IfOk result (λ are. are ≡ true → AreAfter kinds.now [] value.now) }
{
    match after_columns(alloc, kinds, value)? {
        Some(rest) => Ok(rest.is_empty()),
        None => Ok(false),
    }
}

// Whether a pair stands for a record of the type all of whose fields are stored.
fn is_whole(records: &RecordsOf<'_>, pair: &Pair) -> Result<bool, AllocError>
    ensures { IfOk result (λ is. is ≡ true →
        StandsWhole records.now.store.now.prefix records.now.definition.value pair.now) }
{
    let alloc = records.store.alloc();
    let definition = &records.definition;
    let kinds = records.kinds.as_slice();
    let value = pair.1.as_slice();
    let Some(primary_key) = behind(records.front.as_slice(), pair.0.as_slice()) else {
        return Ok(false);
    };
    let Some(key) = after_number(definition.number, primary_key) else {
        return Ok(false);
    };
    if definition.first_fields > kinds.len() || !are_all(alloc, kinds, value)? {
        return Ok(false);
    }
    let are = are_pieces(alloc, kinds, definition.key.as_slice(), value, key)?;
    Ok(are)
}

/// Adds the cells of the record that a pair stands for.
pub(crate) fn push_record(
    records: &RecordsOf<'_>,
    pair: &Pair,
    given: &mut Rows,
) -> Result<(), ExecError>
    ensures found { IfOk result (λ _. (row : RecordValue)
        × (stored_record records.now.store.now.prefix records.now.definition.value pair.now ≡
        Some row)
        × (given.new ≡ given.old ++ row.cells ∷ [])) }
    ensures damaged { IfErr result (IsDamage (or_damaged pair.now.0
        (stored_record records.now.store.now.prefix records.now.definition.value pair.now))) }
{
    if is_whole(records, pair)? {
        given.push_pack(pair.1.as_slice())?;
        return Ok(());
    }
    let row = record_of(records, pair)?;
    given.push(row.cells())?;
    Ok(())
}
