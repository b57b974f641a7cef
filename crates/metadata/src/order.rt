//! The order of cells. Called by `query`, `plan_exec` and `explain`.
ghost use Rattle.std.specs.Prelude.{◌≡◌, ◌↔◌, ◌∷◌, ◌++◌, [], ℕ, List, Some, not, true, All};
ghost use Rattle.std.specs.Ordering.{is_le, ordering_then};
ghost use Rattle.tuple_codec.specs.Order.{bytes_cmp};
ghost use Rattle.tuple_codec.specs.Spelling.{item_spelling, outer, spelling};
ghost use Rattle.tuple_codec.specs.Subspace.{BeginsWith, IsWithin, range_end, subspace_key};
ghost use Rattle.metadata.specs.declared.cells.Cell.{Cell as CellValue};
ghost use Rattle.metadata.specs.Cell.{IsCell, is_null, item_of, items_of};
ghost use Rattle.metadata.specs.Order.{BeginWith, BeginsAs, cell_cmp, cells_cmp};
ghost use Rattle.metadata.specs.Order.{is_stop, is_string, is_tail, open_pack, rank};

use crate::cells::{Cell, Cells};
use std::cmp::Ordering;

impl Cell {
    // Where the kind of the cell stands among the kinds.
    fn rank(&self) -> u8
        ensures { result ≡ rank self.now }
    {
        match self {
            Cell::Null => 0,
            Cell::Bytes(_) => 1,
            Cell::Text(_) => 2,
            Cell::Int(_) => 3,
        }
    }

    /// The order of two cells: null first, then byte strings and texts by their bytes, then whole numbers by value.
    pub fn compare(&self, other: &Cell) -> Ordering
        ensures { result ≡ cell_cmp self.now other.now }
    {
        match (self, other) {
            (Cell::Int(a), Cell::Int(b)) => a.cmp(b),
            (Cell::Text(a), Cell::Text(b)) => a.as_str().as_bytes().cmp(b.as_str().as_bytes()),
            (Cell::Bytes(a), Cell::Bytes(b)) => a.as_slice().cmp(b.as_slice()),
            _ => self.rank().cmp(&other.rank()),
        }
    }
}

impl Cells {
    /// The order of two lists of cells: cell by cell, a prefix first.
    pub fn compare(&self, other: &Cells) -> Ordering
        ensures { result ≡ cells_cmp self.now other.now }
    {
        let mut others = other.as_slice();
        for cell in self.as_slice() {
            let Some((first, rest)) = others.split_first() else {
                return Ordering::Greater;
            };
            let order = cell.compare(first);
            if order.is_ne() {
                return order;
            }
            others = rest;
        }
        if others.is_empty() {
            Ordering::Equal
        } else {
            Ordering::Less
        }
    }
}

/// The packs of cells are ordered as the cells. What stands behind the packs of two cells decides
/// where the cells are equal. Behind a prefix, the keys from the pack of some cells up to that pack
/// and FF are those of the lists that begin with these cells. A pack begins below FF, that of null
/// alone below 01, and one begins as that of a text or a byte string without its closing 00 exactly
/// where the cell is of that kind and begins so.
pub fn cells_are_ordered_as_their_packs()
    ensures order { (a b : List CellValue) → All IsCell a → All IsCell b →
        bytes_cmp (spelling (items_of a)) (spelling (items_of b)) ≡ cells_cmp a b }
    ensures decides { (a b : CellValue) (y z : List ℕ) → IsCell a → IsCell b → is_tail y ≡ true → is_stop z ≡ true
        → bytes_cmp (item_spelling outer (item_of a) ++ y) (item_spelling outer (item_of b) ++ z)
        ≡ ordering_then (cell_cmp a b) (bytes_cmp y z) }
    ensures ranges { (prefix : List ℕ) (fixed cells : List CellValue) → All IsCell fixed → All IsCell cells
        → IsWithin (subspace_key prefix (items_of fixed)) (Some (range_end (subspace_key prefix (items_of fixed))))
        (subspace_key prefix (items_of cells)) ↔ BeginWith fixed cells }
    ensures low { (a : CellValue) (y : List ℕ) → IsCell a → is_tail (item_spelling outer (item_of a) ++ y) ≡ true }
    ensures null_first { (a : CellValue) (y : List ℕ) → IsCell a →
        is_le (bytes_cmp (1 ∷ []) (item_spelling outer (item_of a) ++ y)) ≡ not (is_null a) }
    ensures opens { (part a : CellValue) (y : List ℕ) → is_string part ≡ true → IsCell a → is_tail y ≡ true
        → BeginsWith (open_pack part) (item_spelling outer (item_of a) ++ y) ↔ BeginsAs part a }
{}
