// The rows of the steps of a plan, which are given one by one. Used by `opening` and `execution`.
ghost use Rattle.std.specs.Prelude.{◌≡◌, ◌∷◌, [], IfErr, IfOk, OnOk, map};
ghost use Rattle.planner.specs.Layout.{primary_cells};
ghost use Rattle.query.specs.View.{filter_of};
ghost use Rattle.plan_exec.specs.Levels.{TakesNext, head_then, merged_levels};
ghost use Rattle.plan_exec.specs.Packing.{HasPacked};
ghost use Rattle.plan_exec.specs.Rows.{chained_levels, first_rows, kept_rows, level_of, new_level};
ghost use Rattle.plan_exec.specs.Rows.{step_course, weights};
ghost use Rattle.plan_exec.specs.Streams.{HasGiven, HasNotGiven};

use crate::distinct::PrimaryKeys;
use crate::error::ExecError;
use crate::fetch_streams::FetchStream;
use crate::keyed::{Keyed, compare_heads};
use crate::record_streams::RecordStream;
use crate::selecting::selects;
use crate::streams::Stream;
use metadata::Record;
use packed_rows::Rows as PackedRows;
use query::Filter;
use std::cmp::Ordering;
use txn::{Snapshot, Transaction};

/// What a step does with the rows of its parts.
#[derive(Drop)]
pub(crate) enum Step<'a> {
    /// It gives the records of a scan, and has no parts.
    Scanned(RecordStream<'a>),
    /// It gives the records of a fetch, and has no parts.
    Fetched(FetchStream<'a>),
    /// It gives the rows of one part after another, as far as the filter is true at them.
    Kept(&'a Filter),
    /// It gives the rows of one part after another, without those whose primary key stood before.
    First(PrimaryKeys),
    /// It gives the rows of all parts in the order of their primary keys, each key once.
    Merged,
    /// It gives the rows of one part after another.
    Chained,
}

/// The rows of a step and of those below it. Among parts that are merged, also its next row and the
/// next row of the parts after it, where these are known.
#[derive(Drop)]
pub(crate) struct Rows<'a> {
    pub(crate) step: Step<'a>,
    pub(crate) parts: Vec<Rows<'a>>,
    pub(crate) head: Option<Record>,
    pub(crate) other: Option<Record>,
}

impl<'a> Rows<'a> {
    /// The rows of a step with these parts, of which nothing is known yet.
    pub(crate) fn new(step: Step<'a>, parts: Vec<Rows<'a>>) -> Rows<'a>
        ensures { level_of result
            ≡ new_level (step_course step.entry (map level_of parts.entry.items)) }
    {
        Rows {
            step,
            parts,
            head: None,
            other: None,
        }
    }

    /// The next row. After an error nothing more is to be asked.
    pub(crate) fn next<S: Snapshot>(
        &mut self,
        tx: &mut Transaction,
        db: &S,
    ) -> Result<Option<Record>, ExecError>
        ensures given { IfOk result (λ given. HasGiven (S.map_at db.now)
            (level_of self.old).stream given (level_of self.new).stream tx.old tx.new) }
        ensures stopped { IfErr result (λ error. HasNotGiven (S.map_at db.now) (S.may_refuse db.now)
            (level_of self.old).stream error tx.old tx.new) }
    {
        match &mut self.step {
            Step::Scanned(records) => records.next(tx, db),
            Step::Fetched(records) => records.next(tx, db),
            step => next_row(step, self.parts.as_mut_slice(), tx, db),
        }
    }
}

impl Rows<'_> {
    /// Adds the cells of the next row to those that were given, and tells whether there was one.
    /// After an error nothing more is to be asked.
    pub(crate) fn next_packed<S: Snapshot>(
        &mut self,
        tx: &mut Transaction,
        db: &S,
        given: &mut PackedRows,
    ) -> Result<bool, ExecError>
        ensures packed { IfOk result (λ more. HasPacked (S.map_at db.now)
            (level_of self.old).stream given.old more given.new (level_of self.new).stream tx.old
            tx.new) }
        ensures stopped { IfErr result (λ error. HasNotGiven (S.map_at db.now) (S.may_refuse db.now)
            (level_of self.old).stream error tx.old tx.new) }
    {
        match &mut self.step {
            Step::Scanned(records) => return records.next_packed(tx, db, given),
            Step::Fetched(records) => return records.next_packed(tx, db, given),
            _ => {}
        }
        self.next_pushed(tx, db, given)
    }

    // The same, where the next row is made before its cells are added.
    fn next_pushed<S: Snapshot>(
        &mut self,
        tx: &mut Transaction,
        db: &S,
        given: &mut PackedRows,
    ) -> Result<bool, ExecError>
        ensures packed { IfOk result (λ more. HasPacked (S.map_at db.now)
            (level_of self.old).stream given.old more given.new (level_of self.new).stream tx.old
            tx.new) }
        ensures stopped { IfErr result (λ error. HasNotGiven (S.map_at db.now) (S.may_refuse db.now)
            (level_of self.old).stream error tx.old tx.new) }
    {
        match self.next(tx, db)? {
            Some(row) => {
                given.push(row.cells())?;
                Ok(true)
            }
            None => Ok(false),
        }
    }
}

// The next row of a step with these parts. After an error nothing more is to be asked.
#[cycle(rows)]
fn next_row<S: Snapshot>(
    step: &mut Step<'_>,
    parts: &mut [Rows<'_>],
    tx: &mut Transaction,
    db: &S,
) -> Result<Option<Record>, ExecError>
    ensures same { OnOk result (weights parts.new ≡ weights parts.old) }
    ensures given { IfOk result (λ given. HasGiven (S.map_at db.now)
        (step_course step.old (map level_of parts.old)) given
        (step_course step.new (map level_of parts.new)) tx.old tx.new) }
    ensures stopped { IfErr result (λ error. HasNotGiven (S.map_at db.now) (S.may_refuse db.now)
        (step_course step.old (map level_of parts.old)) error tx.old tx.new) }
{
    match step {
        Step::Scanned(records) => records.next(tx, db),
        Step::Fetched(records) => records.next(tx, db),
        Step::Kept(condition) => next_kept(condition, parts, tx, db),
        Step::First(seen) => next_first(seen, parts, tx, db),
        Step::Merged => next_merged(parts, tx, db),
        Step::Chained => next_chained(parts, tx, db),
    }
}

// The next row of the first part that has one.
#[cycle(rows)]
fn next_chained<S: Snapshot>(
    parts: &mut [Rows<'_>],
    tx: &mut Transaction,
    db: &S,
) -> Result<Option<Record>, ExecError>
    ensures same { OnOk result (weights parts.new ≡ weights parts.old) }
    ensures given { IfOk result (λ given. HasGiven (S.map_at db.now)
        (chained_levels (map level_of parts.old)) given
        (chained_levels (map level_of parts.new)) tx.old tx.new) }
    ensures stopped { IfErr result (λ error. HasNotGiven (S.map_at db.now) (S.may_refuse db.now)
        (chained_levels (map level_of parts.old)) error tx.old tx.new) }
{
    if parts.is_empty() {
        return Ok(None);
    }
    let first = &mut parts[0];
    match next_row(&mut first.step, first.parts.as_mut_slice(), tx, db)? {
        Some(row) => Ok(Some(row)),
        None => next_chained(&mut parts[1..], tx, db),
    }
}

// The next row at which the filter is true.
#[cycle(rows)]
fn next_kept<S: Snapshot>(
    condition: &Filter,
    parts: &mut [Rows<'_>],
    tx: &mut Transaction,
    db: &S,
) -> Result<Option<Record>, ExecError>
    ensures same { OnOk result (weights parts.new ≡ weights parts.old) }
    ensures given { IfOk result (λ given. HasGiven (S.map_at db.now)
        (kept_rows (filter_of condition.now) (map level_of parts.old)) given
        (kept_rows (filter_of condition.now) (map level_of parts.new)) tx.old tx.new) }
    ensures stopped { IfErr result (λ error. HasNotGiven (S.map_at db.now) (S.may_refuse db.now)
        (kept_rows (filter_of condition.now) (map level_of parts.old)) error tx.old tx.new) }
{
    while let Some(row) = next_chained(parts, tx, db)? {
        if selects(condition, &row) {
            return Ok(Some(row));
        }
    }
    Ok(None)
}

// The next row whose primary key wasn't seen yet.
#[cycle(rows)]
fn next_first<S: Snapshot>(
    seen: &mut PrimaryKeys,
    parts: &mut [Rows<'_>],
    tx: &mut Transaction,
    db: &S,
) -> Result<Option<Record>, ExecError>
    ensures same { OnOk result (weights parts.new ≡ weights parts.old) }
    ensures given { IfOk result (λ given. HasGiven (S.map_at db.now)
        (first_rows seen.old (map level_of parts.old)) given
        (first_rows seen.new (map level_of parts.new)) tx.old tx.new) }
    ensures stopped { IfErr result (λ error. HasNotGiven (S.map_at db.now) (S.may_refuse db.now)
        (first_rows seen.old (map level_of parts.old)) error tx.old tx.new) }
{
    while let Some(row) = next_chained(parts, tx, db)? {
        if seen.insert(&row)? {
            return Ok(Some(row));
        }
    }
    Ok(None)
}

// Goes on to the part's next row, unless it is known.
#[cycle(rows)]
fn find_head<S: Snapshot>(
    part: &mut Rows<'_>,
    tx: &mut Transaction,
    db: &S,
) -> Result<(), ExecError>
    ensures same { OnOk result (weights (part.new ∷ []) ≡ weights (part.old ∷ [])) }
    ensures other { OnOk result ((level_of part.new).other ≡ (level_of part.old).other) }
    ensures given { OnOk result (HasGiven (S.map_at db.now)
        (λ pairs. head_then (level_of part.old).head ((level_of part.old).stream pairs))
        (level_of part.new).head (level_of part.new).stream tx.old tx.new) }
    ensures stopped { IfErr result (λ error. HasNotGiven (S.map_at db.now) (S.may_refuse db.now)
        (λ pairs. head_then (level_of part.old).head ((level_of part.old).stream pairs)) error
        tx.old tx.new) }
{
    if part.head.is_none() {
        part.head = next_row(&mut part.step, part.parts.as_mut_slice(), tx, db)?;
    }
    Ok(())
}

// Takes the one with the lower key. Of two with the same key the first one is dropped, and the
// other one taken.
fn take_next<T: Keyed + Drop>(head: &mut Option<T>, other: &mut Option<T>) -> Option<T>
    ensures { TakesNext T.key head.old other.old result head.new other.new }
{
    match compare_heads(head, other) {
        Ordering::Less => head.take(),
        Ordering::Equal => {
            let _ = head.take();
            other.take()
        }
        Ordering::Greater => other.take(),
    }
}

// The next row of all parts merged by primary key. Of rows with the same key the last part's is
// given.
#[cycle(rows)]
fn next_merged<S: Snapshot>(
    parts: &mut [Rows<'_>],
    tx: &mut Transaction,
    db: &S,
) -> Result<Option<Record>, ExecError>
    ensures same { OnOk result (weights parts.new ≡ weights parts.old) }
    ensures given { IfOk result (λ given. HasGiven (S.map_at db.now)
        (merged_levels (λ stream. stream) primary_cells (map level_of parts.old)) given
        (merged_levels (λ stream. stream) primary_cells (map level_of parts.new)) tx.old tx.new) }
    ensures stopped { IfErr result (λ error. HasNotGiven (S.map_at db.now) (S.may_refuse db.now)
        (merged_levels (λ stream. stream) primary_cells (map level_of parts.old)) error tx.old
        tx.new) }
{
    if parts.is_empty() {
        return Ok(None);
    }
    find_head(&mut parts[0], tx, db)?;
    if parts[0].other.is_none() {
        let other = next_merged(&mut parts[1..], tx, db)?;
        parts[0].other = other;
    }
    let part = &mut parts[0];
    Ok(take_next(&mut part.head, &mut part.other))
}
