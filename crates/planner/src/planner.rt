//! The call that plans a query. Called by `plan_exec` and `explain`.
ghost use Rattle.std.specs.Prelude.{◌≡◌, All, Some, None, IfOk, IfErr, IsTrue, IsFalse};
ghost use Rattle.metadata.specs.Schema.{find_type};
ghost use Rattle.query.specs.Checked.{query_refusal};
ghost use Rattle.query.specs.View.{query_of};
ghost use Rattle.planner.specs.Choice.{IsChosen};
ghost use Rattle.planner.specs.Planned.{planned};
ghost use Rattle.planner.specs.Right.{IsRightFor, is_served};
ghost use Rattle.planner.specs.Rising.{MergesRising};
ghost use Rattle.planner.specs.Rules.{MayBeUsed, usable};
ghost use Rattle.planner.specs.Right.{indexes_of};
ghost use Rattle.planner.specs.View.{plan_of};
ghost use Rattle.planner.specs.declared.plan.PlanError.TheVariants.{SortNotServed};

use crate::plan::{Plan, PlanError};
use crate::planning::usable;
use crate::unions::planned;
use metadata::{Schema, State};
use query::{Query, values_known};
use std::alloc::Global;

/// The plan of a query that `Query::check` doesn't refuse, from one state for each index: an index
/// without a state isn't readable. It uses the readable VALUE indexes of the query's type alone. In
/// each union each part goes by primary key by its form alone, and in each intersection each scan.
///
/// It is refused with `SortNotServed` where neither the primary key nor such an index serves the
/// sort, and else with `Memory` where memory runs out. Without a sort there is always a plan.
pub fn plan(
    alloc: Global,
    schema: &Schema,
    states: &[(u64, State)],
    query: &Query,
) -> Result<Plan, PlanError>
    requires { query_refusal schema.now (query_of query.now) ≡ None }
    ensures typed { IfOk result (λ p. find_type schema.now query.now.record_type
        ≡ Some (plan_of p).definition) }
    ensures is { IfOk result
        (λ p. planned (plan_of p).definition (usable schema.now states.now (plan_of p).definition)
        (query_of query.now) ≡ Some (plan_of p).root) }
    ensures right { IfOk result (λ p. IsRightFor (query_of query.now) (plan_of p)) }
    ensures query { IfOk result (λ p. query_of p.query ≡ query_of query.now) }
    ensures merges { IfOk result (λ p. MergesRising (plan_of p).root) }
    ensures usable { IfOk result (λ p. All (MayBeUsed schema.now states.now (plan_of p).definition)
        (indexes_of (plan_of p).root)) }
    ensures chosen { IfOk result
        (λ p. IsChosen (plan_of p).definition (usable schema.now states.now (plan_of p).definition)
        (query_of query.now) (plan_of p).root) }
    ensures served { IfOk result
        (λ _. IsTrue (is_served schema.now states.now (query_of query.now))) }
    ensures refused { IfErr result (λ e. e ≡ SortNotServed →
        IsFalse (is_served schema.now states.now (query_of query.now))) }
{
    values_known(&query.filter);
    let _ = schema.types();
    let Some(own) = schema.type_named(&query.record_type) else {
        return Err(PlanError::SortNotServed);
    };
    let definition = own.copy()?;
    let copy = query.copy(alloc)?;
    let found = usable(alloc, schema, states, own)?;
    match planned(alloc, own, found.as_slice(), query)? {
        Some(root) => Ok(Plan {
            definition,
            root,
            query: copy,
        }),
        None => Err(PlanError::SortNotServed),
    }
}
