//! The calls that execute a plan. Called by `schedule` and applications.
ghost use Rattle.std.specs.Prelude.{◌≡◌, ◌⊎◌, IfOk, IfErr, List, map};
ghost use Rattle.metadata.specs.Record.{Record as RecordValue};
ghost use Rattle.plan_exec.specs.Errors.{exec_memory};
ghost use Rattle.plan_exec.specs.Executing.{IsExecuted, IsExecutionRefused, IsGivenBefore};
ghost use Rattle.plan_exec.specs.Handing.{IsExecutedUntil, RefusesLast, TakesEach};

use crate::accepting::accepted_type;
use crate::error::ExecError;
use crate::opening::rows_of;
use crate::readers::RecordsOf;
use metadata::Record;
use packed_rows::Rows;
use planner::Plan;
use record_store::{Records, Store};
use std::alloc::AllocError;
use txn::{Snapshot, Transaction};

// Room for so many rows is made at first, and for so many bytes of theirs.
const ROWS_ROOM: usize = 16;

const BYTES_ROOM: usize = 32 * ROWS_ROOM;

/// The rows of a plan over an open store, as the transaction sees it: all of them, or none.
///
/// The store has the plan's type, perhaps with fields appended since, and may read each index that
/// the plan scans. The rows are then those that the plan's query asks for. Just the ranges that the
/// plan scans and the keys of the records that it fetches are read: a scan in batches of 64 pairs,
/// each once its first pair is wanted, and a record once its entry is found. So no more is held
/// than the rows, a batch of each scan, and the primary keys that a step has to tell apart.
///
/// # Errors
///
/// In this order:
/// - `OtherSchema` where the store has no type of the plan's number, name and key whose fields begin
///   with the plan's, and `IndexNotReadable` where an index of the plan isn't there with its
///   definition, or isn't readable. Nothing was read then.
/// - `Read` with the snapshot's refusal of a read, after the ranges read before it.
/// - `Corrupt` with the key of the first pair, in reading order, that isn't one that a store has
///   there; an entry without its record is one.
///
/// `Memory` can come anywhere. Nothing is written.
pub fn execute<S: Snapshot>(
    plan: &Plan,
    store: &Store,
    tx: &mut Transaction,
    db: &S,
) -> Result<Records, ExecError>
    ensures executed { IfOk result (λ rows.
        IsExecuted (S.map_at db.now) store.now plan.now rows tx.old tx.new) }
    ensures refused { IfErr result (λ error.
        IsExecutionRefused (S.map_at db.now) (S.may_refuse db.now) store.now plan.now error tx.old
        tx.new) }
{
    plan.query();
    let records = RecordsOf::new(store, accepted_type(store, plan)?)?;
    let mut found = Vec::with_capacity(store.alloc(), ROWS_ROOM)?;
    let mut rows = rows_of(&records, plan.root())?;
    while let Some(row) = rows.next(tx, db)? {
        found.push(row)?;
    }
    Ok(Records::new(found))
}

/// The cells of the rows that `execute` answers, in the same order, each row as the pack of its
/// cells: so a row takes no list of its own. What is read is as with `execute`.
///
/// # Errors
///
/// As with `execute`.
pub fn execute_rows<S: Snapshot>(
    plan: &Plan,
    store: &Store,
    tx: &mut Transaction,
    db: &S,
) -> Result<Rows, ExecError>
    ensures executed { IfOk result (λ rows. (records : List RecordValue)
        × (rows ≡ map (λ r. r.cells) records)
        × IsExecuted (S.map_at db.now) store.now plan.now records tx.old tx.new) }
    ensures refused { IfErr result (λ error.
        IsExecutionRefused (S.map_at db.now) (S.may_refuse db.now) store.now plan.now error tx.old
        tx.new) }
{
    plan.query();
    let records = RecordsOf::new(store, accepted_type(store, plan)?)?;
    let mut found = Rows::with_capacity(store.alloc(), ROWS_ROOM, BYTES_ROOM)?;
    let mut rows = rows_of(&records, plan.root())?;
    while rows.next_packed(tx, db, &mut found)? {}
    Ok(found)
}

/// Hands the rows of a plan over an open store, as the transaction sees it, to a closure, one by
/// one in their order, each as soon as it is found.
///
/// The rows are those that `execute` answers. After an error those that were handed out, with the
/// one at which the closure answered an error, are the first ones of them: only where this answers
/// `Ok` they were all. What is read, and so the transaction's read conflict ranges, is as with
/// `execute`, as far as it came.
///
/// # Errors
///
/// As with `execute`; and `Memory` where the closure answers an error, after which it isn't called
/// again and nothing more is read.
pub fn execute_each<S: Snapshot, F: FnMut(Record) -> Result<(), AllocError>>(
    plan: &Plan,
    store: &Store,
    tx: &mut Transaction,
    db: &S,
    row: &mut F,
) -> Result<(), ExecError>
    requires { F.IsAlwaysCallable row.old }
    ensures executed { IfOk result (λ _. (rows : List RecordValue)
        × TakesEach F.step row.old rows row.new
        × IsExecuted (S.map_at db.now) store.now plan.now rows tx.old tx.new) }
    ensures refused { IfErr result (λ error. (rows : List RecordValue)
        × ((TakesEach F.step row.old rows row.new
        × IsGivenBefore (S.map_at db.now) (S.may_refuse db.now) store.now plan.now rows error tx.old
        tx.new)
        ⊎ ((error ≡ exec_memory) × RefusesLast F.step row.old rows row.new
        × IsExecutedUntil (S.map_at db.now) store.now plan.now rows tx.old tx.new))) }
{
    plan.query();
    let records = RecordsOf::new(store, accepted_type(store, plan)?)?;
    let mut rows = rows_of(&records, plan.root())?;
    while let Some(given) = rows.next(tx, db)? {
        row(given)?;
    }
    Ok(())
}
