// The keys by which records and entries are merged and joined. Used by `rows`, `level` and `joined`.
ghost use Rattle.std.specs.Prelude.{◌≡◌, List};
ghost use Rattle.metadata.specs.declared.cells.Cell.{Cell as CellValue};
ghost use Rattle.metadata.specs.Cell.{cell_at};
ghost use Rattle.metadata.specs.Order.{cell_cmp, cells_cmp};
ghost use Rattle.metadata.specs.Record.{key_cells};
ghost use Rattle.planner.specs.Layout.{primary_cells};
ghost use Rattle.plan_exec.specs.Levels.{heads_cmp};

use crate::entry::Entry;
use metadata::{Cell, Record};
use std::cmp::Ordering;

/// What has a key of cells, and is ordered by it.
pub(crate) trait Keyed {
    ghost key: { Self → List CellValue };

    /// The order of the two keys.
    fn compare_keys(&self, other: &Self) -> Ordering
        ensures { result ≡ cells_cmp (key self.now) (key other.now) };
}

// The order of the cells at these places, null past the end.
fn compare_at(cells: &[Cell], place: usize, others: &[Cell], other: usize) -> Ordering
    ensures { result ≡ cell_cmp (cell_at cells.now place) (cell_at others.now other) }
{
    match (cells.get(place), others.get(other)) {
        (Some(cell), Some(other)) => cell.compare(other),
        (Some(cell), None) => cell.compare(&Cell::Null),
        (None, Some(other)) => Cell::Null.compare(other),
        (None, None) => Ordering::Equal,
    }
}

// The order of the cells in the key fields of two records.
fn compare_key_cells(one: &Record, other: &Record) -> Ordering
    ensures { result ≡ cells_cmp (key_cells one.now) (key_cells other.now) }
{
    let cells = one.cells().as_slice();
    let other_cells = other.cells().as_slice();
    let mut other_places = other.definition().key.as_slice();
    for place in one.definition().key.as_slice() {
        let Some((first, rest)) = other_places.split_first() else {
            return Ordering::Greater;
        };
        let order = compare_at(cells, *place, other_cells, *first);
        if order.is_ne() {
            return order;
        }
        other_places = rest;
    }
    if other_places.is_empty() {
        Ordering::Equal
    } else {
        Ordering::Less
    }
}

// A record's key is its primary key.
impl Keyed for Record {
    ghost key = { primary_cells };

    fn compare_keys(&self, other: &Record) -> Ordering {
        let by_type = self.definition().number.cmp(&other.definition().number);
        by_type.then(compare_key_cells(self, other))
    }
}

// An entry's key is the primary key in it.
impl Keyed for Entry {
    ghost key = { λ entry. entry.primary_key };

    fn compare_keys(&self, other: &Entry) -> Ordering {
        self.primary_key().cmp(other.primary_key())
    }
}

/// The order of the keys of two things. One that isn't there comes last.
pub(crate) fn compare_heads<T: Keyed>(head: &Option<T>, other: &Option<T>) -> Ordering
    ensures { result ≡ heads_cmp T.key head.now other.now }
{
    match (head, other) {
        (Some(one), Some(two)) => one.compare_keys(two),
        (Some(_), None) => Ordering::Less,
        (None, _) => Ordering::Greater,
    }
}
