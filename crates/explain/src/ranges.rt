//! What ranges say of the columns that their keys go by. Called by `plan_tree`.
ghost use Rattle.std.specs.Prelude.{◌≡◌, IfOk, option_map, string_bytes};
ghost use Rattle.planner.specs.View.{range_of};
ghost use Rattle.explain.specs.Shown.{range_words, told_text};
ghost use Rattle.explain.specs.Told.{range_told, told_between, told_by_edges, told_by_prefix};
ghost use Rattle.explain.specs.Told.{told_prefix};

use crate::bounds::{Bound, bounds_between, shared};
use crate::conditions::told_text;
use crate::edges::{Edge, edge_in, open_cells};
use metadata::{Cell, TypeDefinition};
use planner::KeyRange;
use std::alloc::{AllocError, Global};

// What two edges tell.
fn words_between(
    alloc: Global,
    definition: &TypeDefinition,
    columns: &[usize],
    begin: &Edge,
    end: &Edge,
) -> Result<Option<String>, AllocError>
    ensures { IfOk result (λ words. option_map string_bytes words
        ≡ option_map (told_text definition.now columns.now) (told_between begin.now end.now)) }
{
    let (first, last) = (begin.cells.as_slice(), end.cells.as_slice());
    let fixed = shared(first, last);
    let bounds = bounds_between(
        alloc,
        &first[fixed..],
        begin.passed,
        &last[fixed..],
        end.passed,
    )?;
    match bounds {
        Some(bounds) => {
            let words = told_text(
                alloc,
                definition,
                columns,
                &first[..fixed],
                bounds.as_slice(),
            )?;
            Ok(Some(words))
        }
        None => Ok(None),
    }
}

// What the edges of a range tell.
fn words_by_edges(
    alloc: Global,
    definition: &TypeDefinition,
    columns: &[usize],
    range: &KeyRange,
) -> Result<Option<String>, AllocError>
    ensures { IfOk result (λ words. option_map string_bytes words
        ≡ option_map (told_text definition.now columns.now) (told_by_edges (range_of range.now))) }
{
    let Some(begin) = edge_in(alloc, range.begin.as_slice())? else {
        return Ok(None);
    };
    let Some(end) = edge_in(alloc, range.end.as_slice())? else {
        return Ok(None);
    };
    words_between(alloc, definition, columns, &begin, &end)
}

// What cells tell of which the last one is a text or a byte string that begins so.
fn prefix_words(
    alloc: Global,
    definition: &TypeDefinition,
    columns: &[usize],
    fixed: &[Cell],
    last: &Cell,
) -> Result<Option<String>, AllocError>
    ensures { IfOk result (λ words. option_map string_bytes words
        ≡ option_map (told_text definition.now columns.now) (told_prefix (fixed.now, last.now))) }
{
    match last {
        Cell::Null | Cell::Int(_) => Ok(None),
        Cell::Text(_) | Cell::Bytes(_) => {
            let bounds = [Bound::Prefixed(last)];
            let words = told_text(alloc, definition, columns, fixed, &bounds)?;
            Ok(Some(words))
        }
    }
}

// What a range tells that has all keys that begin as it does.
fn words_by_prefix(
    alloc: Global,
    definition: &TypeDefinition,
    columns: &[usize],
    range: &KeyRange,
) -> Result<Option<String>, AllocError>
    ensures { IfOk result (λ words. option_map string_bytes words
        ≡ option_map (told_text definition.now columns.now) (told_by_prefix (range_of range.now))) }
{
    let Some(cells) = open_cells(alloc, range)? else {
        return Ok(None);
    };
    match cells.as_slice().split_last() {
        Some((last, fixed)) => prefix_words(alloc, definition, columns, fixed, last),
        None => Ok(None),
    }
}

// What is told of a range, if something can be.
fn words_told(
    alloc: Global,
    definition: &TypeDefinition,
    columns: &[usize],
    range: &KeyRange,
) -> Result<Option<String>, AllocError>
    ensures { IfOk result (λ words. option_map string_bytes words
        ≡ option_map (told_text definition.now columns.now) (range_told (range_of range.now))) }
{
    match words_by_edges(alloc, definition, columns, range)? {
        Some(words) => Ok(Some(words)),
        None => words_by_prefix(alloc, definition, columns, range),
    }
}

/// What a range of keys says of the columns at some places of a type, if that can be told.
pub(crate) fn range_words(
    alloc: Global,
    definition: &TypeDefinition,
    columns: &[usize],
    range: &KeyRange,
) -> Result<Option<String>, AllocError>
    ensures { IfOk result (λ words. option_map string_bytes words
        ≡ range_words definition.now columns.now (range_of range.now)) }
{
    if range.begin.as_slice() == range.end.as_slice() {
        let words = String::from_str(alloc, "nothing")?;
        return Ok(Some(words));
    }
    words_told(alloc, definition, columns, range)
}
