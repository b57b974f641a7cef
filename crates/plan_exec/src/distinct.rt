// The primary keys that were seen. Used by `rows` and `opening`.
ghost use Rattle.std.specs.Prelude.{◌≡◌, ◌∷◌, [], ◌||◌, List, IfOk, OnOk, Some, not, pos, refl};
ghost use Rattle.std.specs.BTreeSet.{contains};
ghost use Rattle.std.specs.Ordering.{eq_by_cmp};
ghost use Rattle.std.specs.Cmp.{eq_by_cmp_equiv, partial_equiv_from_equiv, partial_order_from_agreeing_total};
ghost use Rattle.metadata.specs.declared.cells.Cell.{Cell};
ghost use Rattle.metadata.specs.Order.{cells_cmp};
ghost use Rattle.planner.specs.Layout.{primary_cells};
ghost use Rattle.query.proofs.CellLaws.{cells_cmp_total};

use metadata::{Cells, Record};
use std::alloc::{AllocError, Global};
use std::cmp::Ordering;
use std::collections::BTreeSet;
use std::marker::Model;

// The primary key of a record: the number of its type, and the cells of its key fields.
#[derive(Drop)]
pub(crate) struct PrimaryKey {
    number: u64,
    cells: Cells,
}

impl Model for PrimaryKey {
    ghost use Rattle.std.specs.Prelude.{List, ◌∷◌, pos};
    ghost use Rattle.metadata.specs.declared.cells.Cell.{Cell};
    ghost use Rattle.metadata.specs.declared.cells.Cell.TheVariants.{Int};

    ghost Value = { List Cell };

    ghost view = { λ key. Int (pos key.number) ∷ key.cells };
}

impl PrimaryKey {
    // The primary key of this record.
    fn of(alloc: Global, record: &Record) -> Result<PrimaryKey, AllocError>
        ensures { IfOk result (λ key. key ≡ primary_cells «record».now) }
    {
        let definition = record.definition();
        let cells = record.cells().at(alloc, &definition.key)?;
        Ok(PrimaryKey {
            number: definition.number,
            cells,
        })
    }
}

impl PartialEq for PrimaryKey {
    ghost eq = { eq_by_cmp cells_cmp };

    ghost laws = { partial_equiv_from_equiv (eq_by_cmp_equiv cells_cmp_total) };

    fn eq(&self, other: &PrimaryKey) -> bool {
        self.cmp(other).is_eq()
    }
}

impl Eq for PrimaryKey {
    ghost laws = { eq_by_cmp_equiv cells_cmp_total };
}

impl PartialOrd for PrimaryKey {
    ghost partial_cmp = { λ x y. Some (cells_cmp x y) };

    ghost laws = { partial_order_from_agreeing_total cells_cmp cells_cmp_total (λ x y. refl) (λ x y. refl) };

    fn partial_cmp(&self, other: &PrimaryKey) -> Option<Ordering> {
        Some(self.cmp(other))
    }
}

impl Ord for PrimaryKey {
    ghost cmp = { cells_cmp };

    ghost total = { cells_cmp_total };

    ghost matches_partial_cmp = { λ x y. refl };

    ghost matches_eq = { λ x y. refl };

    fn cmp(&self, other: &PrimaryKey) -> Ordering {
        self.number
            .cmp(&other.number)
            .then(self.cells.compare(&other.cells))
    }
}

/// Primary keys, each once.
#[derive(Drop)]
pub(crate) struct PrimaryKeys {
    pub(crate) alloc: Global,
    pub(crate) keys: BTreeSet<PrimaryKey>,
}

impl PrimaryKeys {
    /// None yet.
    pub(crate) fn new(alloc: Global) -> PrimaryKeys
        ensures { result.keys.keys ≡ [] }
    {
        PrimaryKeys {
            alloc,
            keys: BTreeSet::new(alloc),
        }
    }

    /// Adds that of a row, and answers whether it is new.
    pub(crate) fn insert(&mut self, row: &Record) -> Result<bool, AllocError>
        ensures added { IfOk result (λ added.
            added ≡ not (contains cells_cmp self.old.keys (primary_cells row.now))) }
        ensures keys { OnOk result ((key : List Cell) → contains cells_cmp self.new.keys key
            ≡ (eq_by_cmp cells_cmp (primary_cells row.now) key
            || contains cells_cmp self.old.keys key)) }
    {
        let key = PrimaryKey::of(self.alloc, row)?;
        let added = self.keys.insert(key)?;
        Ok(added)
    }
}
