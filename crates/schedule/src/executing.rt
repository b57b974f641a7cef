//! The commands that execute plans: that of a query, and one that is given. Called by `performing`.
ghost use Rattle.std.specs.Prelude.{IfOk, IfErr};
ghost use Rattle.schedule.specs.declared.step.Command.{Command};
ghost use Rattle.schedule.specs.Calls.{IsCommandRefused};
ghost use Rattle.schedule.specs.Executions.{IsExecution, IsNoExecution, IsQueried, IsUnqueried};
ghost use Rattle.schedule.specs.Known.{IsKnown, StaysKnown};
ghost use Rattle.schedule.specs.Performed.{IsPerformed};

use crate::asked_query::AskedQuery;
use crate::commands::open;
use crate::known::Known;
use crate::refusal::Refusal;
use crate::reply::Reply;
use crate::shared_plan::SharedPlan;
use plan_exec::{ExecError, execute_rows, plan_for_store};
use planner::{Plan, PlanError};
use query::Query;
use record_store::{Store, StoreError, StoreNumber};
use std::alloc::Global;
use txn::{Snapshot, Transaction};

/// The rows of a plan over an open store, or why the store doesn't accept it.
fn execution<S: Snapshot>(
    store: &Store,
    tx: &mut Transaction,
    db: &S,
    plan: &Plan,
) -> Result<Reply, StoreError>
    ensures executed { IfOk result (λ answer.
        IsExecution (S.map_at db.now) store.now plan.now answer tx.old tx.new) }
    ensures refused { IfErr result (λ error.
        IsNoExecution (S.map_at db.now) (S.may_refuse db.now) store.now plan.now error tx.old tx.new) }
{
    match execute_rows(plan, store, tx, db) {
        Ok(rows) => Ok(Reply::Rows(rows)),
        Err(ExecError::OtherSchema) => Ok(Reply::Refused(Refusal::OtherSchema)),
        Err(ExecError::IndexNotReadable) => Ok(Reply::Refused(Refusal::IndexNotReadable)),
        Err(ExecError::Read(error)) => Err(StoreError::Read(error)),
        Err(ExecError::Corrupt(key)) => Err(StoreError::Corrupt(key)),
        Err(ExecError::Memory) => Err(StoreError::Memory),
    }
}

/// Executes a plan.
pub(crate) fn execute<S: Snapshot>(
    alloc: Global,
    number: StoreNumber,
    tx: &mut Transaction,
    db: &S,
    known: &mut Known,
    plan: &SharedPlan,
) -> Result<Reply, StoreError>
    requires known { IsKnown number (S.map_at db.now) known.old.store tx.old }
    ensures known { StaysKnown number (S.map_at db.now) known.new.store tx.old tx.new }
    ensures performed { IfOk result (λ answer.
        IsPerformed number (S.map_at db.now)
        (λ range. S.may_refuse db.now range tx.old.read_version)
        (Command.Execute plan.now) answer tx.old tx.new) }
    ensures refused { IfErr result (λ error.
        IsCommandRefused number (S.map_at db.now) (S.may_refuse db.now)
        (Command.Execute plan.now) error tx.old tx.new) }
{
    let plan = plan.plan();
    plan.query();
    let store = open(alloc, number, tx, db, known)?;
    let reply = execution(&store, tx, db, plan)?;
    known.store = Some(store);
    Ok(reply)
}

/// The reply to a query over an open store.
fn query_reply<S: Snapshot>(
    alloc: Global,
    store: &Store,
    tx: &mut Transaction,
    db: &S,
    query: &Query,
) -> Result<Reply, StoreError>
    ensures queried { IfOk result (λ answer.
        IsQueried (S.map_at db.now) store.now query.now answer tx.old tx.new) }
    ensures refused { IfErr result (λ error.
        IsUnqueried (S.map_at db.now) (S.may_refuse db.now) store.now query.now error tx.old tx.new) }
{
    if let Err(error) = query.check(store.schema()) {
        return Ok(Reply::Refused(Refusal::from(error)));
    }
    match plan_for_store(alloc, store, query) {
        Ok(plan) => {
            let reply = execution(store, tx, db, &plan)?;
            Ok(reply)
        }
        Err(PlanError::SortNotServed) => Ok(Reply::Refused(Refusal::SortNotServed)),
        Err(PlanError::Memory) => Err(StoreError::Memory),
    }
}

/// Asks for the answer to a query.
pub(crate) fn query<S: Snapshot>(
    alloc: Global,
    number: StoreNumber,
    tx: &mut Transaction,
    db: &S,
    known: &mut Known,
    asked: &AskedQuery,
) -> Result<Reply, StoreError>
    requires known { IsKnown number (S.map_at db.now) known.old.store tx.old }
    ensures known { StaysKnown number (S.map_at db.now) known.new.store tx.old tx.new }
    ensures performed { IfOk result (λ answer.
        IsPerformed number (S.map_at db.now)
        (λ range. S.may_refuse db.now range tx.old.read_version)
        (Command.Query asked.now) answer tx.old tx.new) }
    ensures refused { IfErr result (λ error.
        IsCommandRefused number (S.map_at db.now) (S.may_refuse db.now)
        (Command.Query asked.now) error tx.old tx.new) }
{
    let store = open(alloc, number, tx, db, known)?;
    let reply = query_reply(alloc, &store, tx, db, asked.query())?;
    known.store = Some(store);
    Ok(reply)
}
