//! The plan of a query over an open store. Called by `schedule` and applications.
ghost use Rattle.std.specs.Prelude.{◌≡◌, All, Some, None, IfOk, IfErr, IsTrue, IsFalse};
ghost use Rattle.metadata.specs.Schema.{find_type};
ghost use Rattle.record_store.specs.Calls.{index_states};
ghost use Rattle.query.specs.Checked.{query_refusal};
ghost use Rattle.query.specs.View.{query_of};
ghost use Rattle.planner.specs.Choice.{IsChosen};
ghost use Rattle.planner.specs.Planned.{planned};
ghost use Rattle.planner.specs.Right.{IsRightFor, indexes_of, is_served};
ghost use Rattle.planner.specs.Rules.{MayBeUsed, usable};
ghost use Rattle.planner.specs.View.{plan_of};
ghost use Rattle.planner.specs.declared.plan.PlanError.TheVariants.{SortNotServed};
ghost use Rattle.plan_exec.specs.Planning.{AnswersQuery, ScansReadable};

use planner::{Plan, PlanError, plan_query};
use query::Query;
use record_store::Store;
use std::alloc::Global;

/// The plan of a query that `Query::check` doesn't refuse under the schema of an open store: the
/// planner's, by that schema and the states of the store's indexes. It scans readable indexes
/// alone, and its rows over the store are the query's.
///
/// It is refused with `SortNotServed` where neither the primary key nor a readable VALUE index of
/// the query's type serves the sort, and else with `Memory` where memory runs out. Without a sort
/// there is always a plan.
pub fn plan_for_store(alloc: Global, store: &Store, query: &Query) -> Result<Plan, PlanError>
    requires { query_refusal store.now.schema (query_of query.now) ≡ None }
    ensures typed { IfOk result (λ p. find_type store.now.schema query.now.record_type
        ≡ Some (plan_of p).definition) }
    ensures is { IfOk result (λ p. planned (plan_of p).definition
        (usable store.now.schema (index_states store.now) (plan_of p).definition)
        (query_of query.now) ≡ Some (plan_of p).root) }
    ensures right { IfOk result (λ p. IsRightFor (query_of query.now) (plan_of p)) }
    ensures query { IfOk result (λ p. query_of p.query ≡ query_of query.now) }
    ensures usable { IfOk result
        (λ p. All (MayBeUsed store.now.schema (index_states store.now) (plan_of p).definition)
        (indexes_of (plan_of p).root)) }
    ensures chosen { IfOk result (λ p. IsChosen (plan_of p).definition
        (usable store.now.schema (index_states store.now) (plan_of p).definition)
        (query_of query.now) (plan_of p).root) }
    ensures scannable { IfOk result (λ p. ScansReadable store.now (plan_of p)) }
    ensures answers { IfOk result (λ p. AnswersQuery store.now (query_of query.now) (plan_of p)) }
    ensures served { IfOk result (λ _.
        IsTrue (is_served store.now.schema (index_states store.now) (query_of query.now))) }
    ensures refused { IfErr result (λ e. e ≡ SortNotServed →
        IsFalse (is_served store.now.schema (index_states store.now) (query_of query.now))) }
{
    let states = store.index_states(alloc)?;
    plan_query(alloc, store.schema(), states.as_slice(), query)
}
