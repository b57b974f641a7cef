//! The command that plans a query. Called by `performing`.
ghost use Rattle.std.specs.Prelude.{IfOk, IfErr};
ghost use Rattle.record_store.specs.Calls.{index_states};
ghost use Rattle.schedule.specs.declared.step.Command.{Command};
ghost use Rattle.schedule.specs.Calls.{IsCommandRefused};
ghost use Rattle.schedule.specs.Known.{IsKnown, StaysKnown};
ghost use Rattle.schedule.specs.Performed.{IsPerformed};
ghost use Rattle.schedule.specs.Planning.{IsPlanReply};

use crate::asked_query::AskedQuery;
use crate::commands::open;
use crate::known::Known;
use crate::refusal::Refusal;
use crate::reply::Reply;
use crate::shared_plan::SharedPlan;
use plan_exec::plan_for_store;
use planner::PlanError;
use record_store::{Store, StoreError, StoreNumber};
use std::alloc::{AllocError, Global};
use txn::{Snapshot, Transaction};

/// The reply to the plan of a query over an open store.
fn plan_reply(alloc: Global, store: &Store, asked: &AskedQuery) -> Result<Reply, AllocError>
    ensures { IfOk result (λ answer.
        IsPlanReply store.now.schema (index_states store.now) asked.now answer) }
{
    let query = asked.query();
    if let Err(error) = query.check(store.schema()) {
        return Ok(Reply::Refused(Refusal::from(error)));
    }
    match plan_for_store(alloc, store, query) {
        Ok(plan) => Ok(Reply::Planned(SharedPlan::new(alloc, plan)?)),
        Err(PlanError::SortNotServed) => Ok(Reply::Refused(Refusal::SortNotServed)),
        Err(PlanError::Memory) => Err(AllocError),
    }
}

/// Asks for the plan of a query.
pub(crate) fn plan<S: Snapshot>(
    alloc: Global,
    number: StoreNumber,
    tx: &mut Transaction,
    db: &S,
    known: &mut Known,
    asked: &AskedQuery,
) -> Result<Reply, StoreError>
    requires known { IsKnown number (S.map_at db.now) known.old.store tx.old }
    ensures known { StaysKnown number (S.map_at db.now) known.new.store tx.old tx.new }
    ensures performed { IfOk result (λ answer.
        IsPerformed number (S.map_at db.now)
        (λ range. S.may_refuse db.now range tx.old.read_version)
        (Command.Plan asked.now) answer tx.old tx.new) }
    ensures refused { IfErr result (λ error.
        IsCommandRefused number (S.map_at db.now) (S.may_refuse db.now)
        (Command.Plan asked.now) error tx.old tx.new) }
{
    let store = open(alloc, number, tx, db, known)?;
    let reply = plan_reply(alloc, &store, asked)?;
    known.store = Some(store);
    Ok(reply)
}
