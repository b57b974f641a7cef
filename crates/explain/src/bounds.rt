//! The bounds that the edges of a range set on a column. Used by `ranges` and `conditions`.
ghost use Rattle.std.specs.Prelude.{◌≡◌, ◌≤◌, IfOk, length, map, option_map};
ghost use Rattle.explain.specs.Told.{both_bounds, bounds_between, lower, one, shared_cells, upper};
ghost use Rattle.explain.specs.View.{bound_shown, bounds_shown};

use crate::edges::Passed;
use metadata::Cell;
use std::alloc::{AllocError, Global};

/// A bound on a column.
#[derive(Clone, Copy)]
pub(crate) enum Bound<'a> {
    Above(&'a Cell),
    From(&'a Cell),
    Below(&'a Cell),
    UpTo(&'a Cell),
    Prefixed(&'a Cell),
}

// The bound that the first edge sets, from the column's cell there and what the edge passes.
fn lower(cells: &[Cell], passed: Passed) -> Option<Bound<'_>>
    ensures { option_map bound_shown result ≡ lower cells.now passed }
{
    match (cells, passed) {
        ([cell], Passed::Nothing) => Some(Bound::From(cell)),
        ([cell], Passed::All) => Some(Bound::Above(cell)),
        _ => None,
    }
}

// The bound that the second edge sets.
fn upper(cells: &[Cell], passed: Passed) -> Option<Bound<'_>>
    ensures { option_map bound_shown result ≡ upper cells.now passed }
{
    match (cells, passed) {
        ([cell], Passed::Nothing) => Some(Bound::Below(cell)),
        ([cell], Passed::All) => Some(Bound::UpTo(cell)),
        _ => None,
    }
}

// A list of one bound, if there is one.
fn one<'a>(alloc: Global, bound: Option<Bound<'a>>) -> Result<Option<Vec<Bound<'a>>>, AllocError>
    ensures { IfOk result (λ made. option_map bounds_shown made ≡ one (option_map bound_shown bound.entry)) }
{
    let Some(bound) = bound else {
        return Ok(None);
    };
    let mut bounds = Vec::new(alloc);
    bounds.push(bound)?;
    Ok(Some(bounds))
}

// A list of two bounds, if there are two.
fn both<'a>(
    alloc: Global,
    low: Option<Bound<'a>>,
    high: Option<Bound<'a>>,
) -> Result<Option<Vec<Bound<'a>>>, AllocError>
    ensures { IfOk result (λ made. option_map bounds_shown made
        ≡ both_bounds (option_map bound_shown low.entry) (option_map bound_shown high.entry)) }
{
    let (Some(low), Some(high)) = (low, high) else {
        return Ok(None);
    };
    let mut bounds = Vec::new(alloc);
    bounds.push(low)?;
    bounds.push(high)?;
    Ok(Some(bounds))
}

/// The bounds that two edges set on a column, from the cells that each has there and what each
/// passes. None where they can't be told.
pub(crate) fn bounds_between<'a>(
    alloc: Global,
    begin: &'a [Cell],
    since: Passed,
    end: &'a [Cell],
    to: Passed,
) -> Result<Option<Vec<Bound<'a>>>, AllocError>
    ensures { IfOk result (λ made. option_map bounds_shown made ≡ bounds_between begin.now since end.now to) }
{
    match (begin, since, end, to) {
        ([], Passed::Nothing, [], Passed::All) => Ok(Some(Vec::new(alloc))),
        ([], Passed::Null, _, _) => one(alloc, upper(end, to)),
        (_, _, [], Passed::All) => one(alloc, lower(begin, since)),
        _ => both(alloc, lower(begin, since), upper(end, to)),
    }
}

/// How many cells two lists have first alike.
pub(crate) fn shared(left: &[Cell], right: &[Cell]) -> usize
    ensures count { result ≡ shared_cells left.now right.now }
    ensures in_left { result ≤ length left.now }
    ensures in_right { result ≤ length right.now }
{
    left.iter()
        .zip(right)
        .take_while(|(a, b)| a.compare(b).is_eq())
        .count()
}
