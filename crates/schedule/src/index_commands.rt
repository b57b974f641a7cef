// The commands on indexes. Called by `performing`.
ghost use Rattle.std.specs.Prelude.{IfOk, IfErr};
ghost use Rattle.schedule.specs.declared.step.Command.{Command};
ghost use Rattle.schedule.specs.Calls.{IsCommandRefused};
ghost use Rattle.schedule.specs.Known.{IsKnown, StaysKnown};
ghost use Rattle.schedule.specs.Performed.{IsPerformed};

use crate::commands::open;
use crate::known::Known;
use crate::reply::Reply;
use metadata::{Cells, IndexRequest};
use record_store::{StoreError, StoreNumber};
use std::alloc::Global;
use tuple_codec::Text;
use txn::{Snapshot, Transaction};

/// Adds an index to the store.
pub(crate) fn add_index<S: Snapshot>(
    alloc: Global,
    number: StoreNumber,
    tx: &mut Transaction,
    db: &S,
    known: &mut Known,
    request: &IndexRequest,
) -> Result<Reply, StoreError>
    requires known { IsKnown number (S.map_at db.now) known.old.store tx.old }
    ensures known { StaysKnown number (S.map_at db.now) known.new.store tx.old tx.new }
    ensures performed { IfOk result (λ answer.
        IsPerformed number (S.map_at db.now)
        (λ range. S.may_refuse db.now range tx.old.read_version)
        (Command.Index request.now) answer tx.old tx.new) }
    ensures refused { IfErr result (λ error.
        IsCommandRefused number (S.map_at db.now) (S.may_refuse db.now)
        (Command.Index request.now) error tx.old tx.new) }
{
    let mut store = open(alloc, number, tx, db, known)?;
    let state = store.add_index(tx, db, request)?;
    Ok(Reply::Indexed(state))
}

/// Drops the index of this name.
pub(crate) fn drop_index<S: Snapshot>(
    alloc: Global,
    number: StoreNumber,
    tx: &mut Transaction,
    db: &S,
    known: &mut Known,
    name: &Text,
) -> Result<Reply, StoreError>
    requires known { IsKnown number (S.map_at db.now) known.old.store tx.old }
    ensures known { StaysKnown number (S.map_at db.now) known.new.store tx.old tx.new }
    ensures performed { IfOk result (λ answer.
        IsPerformed number (S.map_at db.now)
        (λ range. S.may_refuse db.now range tx.old.read_version)
        (Command.Drop name.now) answer tx.old tx.new) }
    ensures refused { IfErr result (λ error.
        IsCommandRefused number (S.map_at db.now) (S.may_refuse db.now)
        (Command.Drop name.now) error tx.old tx.new) }
{
    let mut store = open(alloc, number, tx, db, known)?;
    store.drop_index(tx, name)?;
    Ok(Reply::Done)
}

/// Disables the index of this name.
pub(crate) fn disable_index<S: Snapshot>(
    alloc: Global,
    number: StoreNumber,
    tx: &mut Transaction,
    db: &S,
    known: &mut Known,
    name: &Text,
) -> Result<Reply, StoreError>
    requires known { IsKnown number (S.map_at db.now) known.old.store tx.old }
    ensures known { StaysKnown number (S.map_at db.now) known.new.store tx.old tx.new }
    ensures performed { IfOk result (λ answer.
        IsPerformed number (S.map_at db.now)
        (λ range. S.may_refuse db.now range tx.old.read_version)
        (Command.Disable name.now) answer tx.old tx.new) }
    ensures refused { IfErr result (λ error.
        IsCommandRefused number (S.map_at db.now) (S.may_refuse db.now)
        (Command.Disable name.now) error tx.old tx.new) }
{
    let mut store = open(alloc, number, tx, db, known)?;
    store.mark_disabled(tx, name)?;
    Ok(Reply::Done)
}

/// Marks the index of this name write-only.
pub(crate) fn mark_write_only<S: Snapshot>(
    alloc: Global,
    number: StoreNumber,
    tx: &mut Transaction,
    db: &S,
    known: &mut Known,
    name: &Text,
) -> Result<Reply, StoreError>
    requires known { IsKnown number (S.map_at db.now) known.old.store tx.old }
    ensures known { StaysKnown number (S.map_at db.now) known.new.store tx.old tx.new }
    ensures performed { IfOk result (λ answer.
        IsPerformed number (S.map_at db.now)
        (λ range. S.may_refuse db.now range tx.old.read_version)
        (Command.WriteOnly name.now) answer tx.old tx.new) }
    ensures refused { IfErr result (λ error.
        IsCommandRefused number (S.map_at db.now) (S.may_refuse db.now)
        (Command.WriteOnly name.now) error tx.old tx.new) }
{
    let mut store = open(alloc, number, tx, db, known)?;
    store.mark_write_only(tx, name)?;
    Ok(Reply::Done)
}

/// Marks the write-only index of this name readable.
pub(crate) fn mark_readable<S: Snapshot>(
    alloc: Global,
    number: StoreNumber,
    tx: &mut Transaction,
    db: &S,
    known: &mut Known,
    name: &Text,
) -> Result<Reply, StoreError>
    requires known { IsKnown number (S.map_at db.now) known.old.store tx.old }
    ensures known { StaysKnown number (S.map_at db.now) known.new.store tx.old tx.new }
    ensures performed { IfOk result (λ answer.
        IsPerformed number (S.map_at db.now)
        (λ range. S.may_refuse db.now range tx.old.read_version)
        (Command.Readable name.now) answer tx.old tx.new) }
    ensures refused { IfErr result (λ error.
        IsCommandRefused number (S.map_at db.now) (S.may_refuse db.now)
        (Command.Readable name.now) error tx.old tx.new) }
{
    let mut store = open(alloc, number, tx, db, known)?;
    store.mark_readable(tx, db, name)?;
    Ok(Reply::Done)
}

/// Asks for the state of the index of this name.
pub(crate) fn index_state<S: Snapshot>(
    alloc: Global,
    number: StoreNumber,
    tx: &mut Transaction,
    db: &S,
    known: &mut Known,
    name: &Text,
) -> Result<Reply, StoreError>
    requires known { IsKnown number (S.map_at db.now) known.old.store tx.old }
    ensures known { StaysKnown number (S.map_at db.now) known.new.store tx.old tx.new }
    ensures performed { IfOk result (λ answer.
        IsPerformed number (S.map_at db.now)
        (λ range. S.may_refuse db.now range tx.old.read_version)
        (Command.State name.now) answer tx.old tx.new) }
    ensures refused { IfErr result (λ error.
        IsCommandRefused number (S.map_at db.now) (S.may_refuse db.now)
        (Command.State name.now) error tx.old tx.new) }
{
    let store = open(alloc, number, tx, db, known)?;
    let state = store.state(name);
    known.store = Some(store);
    match state {
        Ok(state) => Ok(Reply::State(state)),
        Err(refusal) => Err(StoreError::Refused(refusal)),
    }
}

/// Asks for the total of the group of these cells.
pub(crate) fn aggregate<S: Snapshot>(
    alloc: Global,
    number: StoreNumber,
    tx: &mut Transaction,
    db: &S,
    known: &mut Known,
    name: &Text,
    group: &Cells,
) -> Result<Reply, StoreError>
    requires known { IsKnown number (S.map_at db.now) known.old.store tx.old }
    ensures known { StaysKnown number (S.map_at db.now) known.new.store tx.old tx.new }
    ensures performed { IfOk result (λ answer.
        IsPerformed number (S.map_at db.now)
        (λ range. S.may_refuse db.now range tx.old.read_version)
        (Command.Aggregate name.now group.now) answer tx.old tx.new) }
    ensures refused { IfErr result (λ error.
        IsCommandRefused number (S.map_at db.now) (S.may_refuse db.now)
        (Command.Aggregate name.now group.now) error tx.old tx.new) }
{
    let store = open(alloc, number, tx, db, known)?;
    let total = store.aggregate(tx, db, name, group)?;
    known.store = Some(store);
    Ok(Reply::Total(total))
}
