// The plan that a text of JSON asks for, without a database. Called by `recordctl` for `explain`.
ghost use Rattle.std.specs.Prelude.{◌≡◌, ◌≢◌, Some, None, Ok, Err, IfOk, IfErr, IsTrue};
ghost use Rattle.std.specs.List.{list_all};
ghost use Rattle.std.specs.Option.{option_copied};
ghost use Rattle.std.specs.Str.{bytes_eq};
ghost use Rattle.metadata.specs.Asked.{schema_asked};
ghost use Rattle.query.specs.Checked.{query_refusal};
ghost use Rattle.query.specs.View.{query_of};
ghost use Rattle.explain.specs.File.{asked_plan};
ghost use Rattle.explain.specs.Planning.{IsPlanAsked, IsPlanAskedBy, IsPlanUnder, asked_refusal};
ghost use Rattle.explain.specs.Planning.{first_given, given_state};
ghost use Rattle.explain.specs.Planning.{asked_states, is_state_of_index, refusal_under};
ghost use Rattle.explain.specs.Planning.{text_refusal};

use crate::error::ExplainError;
use crate::file::{NamedState, PlanRequest, request_of};
use json_forms::PartError;
use metadata::{IndexDefinition, MetadataError, Schema, State};
use planner::{Plan, PlanError, plan_query};
use query::Query;
use std::alloc::{AllocError, Global};
use tuple_codec::Text;

// Whether a state is given for the index of this name.
fn is_named(given: &NamedState, name: &Text) -> bool
    ensures { result ≡ bytes_eq given.now.name name.now }
{
    given.name.as_str() == name.as_str()
}

// The first state given for the index of this name.
fn first_given<'a>(states: &'a [NamedState], name: &Text) -> Option<&'a NamedState>
    ensures { option_copied result ≡ first_given states.now name.now }
{
    states.iter().find(|given| is_named(given, name))
}

// The state of the index of this name: the first one given, or else readable.
fn given_state(states: &[NamedState], name: &Text) -> State
    ensures { result ≡ given_state states.now name.now }
{
    match first_given(states, name) {
        Some(given) => given.state,
        None => State::Readable,
    }
}

// One state for each index.
fn index_states(
    alloc: Global,
    states: &[NamedState],
    indexes: &[IndexDefinition],
) -> Result<Vec<(u64, State)>, AllocError>
    ensures { IfOk result (λ made. made.items ≡ asked_states states.now indexes.now) }
{
    let mut made = Vec::new(alloc);
    for index in indexes {
        made.push((index.number, given_state(states, &index.name)))?;
    }
    Ok(made)
}

// Whether each state is given for an index of the schema.
fn are_indexes(schema: &Schema, states: &[NamedState]) -> bool
    ensures { result ≡ list_all (is_state_of_index schema.now) states.now }
{
    states
        .iter()
        .all(|given| schema.index_named(&given.name).is_some())
}

// The schema that is asked for.
fn schema_made(alloc: Global, request: &PlanRequest) -> Result<Schema, ExplainError>
    ensures ok { IfOk result (λ schema. schema_asked request.now.schema ≡ Ok schema) }
    ensures err { IfErr result (λ error. error ≢ ExplainError.OutOfMemory →
        asked_refusal (asked_plan request.now) ≡ Some error) }
{
    match Schema::of_request(alloc, &request.schema) {
        Ok(schema) => Ok(schema),
        Err(MetadataError::Refused(refusal)) => Err(ExplainError::BadSchema(refusal)),
        Err(MetadataError::Memory) => Err(ExplainError::OutOfMemory),
    }
}

// The plan of a query that isn't refused, under a schema and states of its indexes.
fn plan_checked(
    alloc: Global,
    schema: &Schema,
    states: &[NamedState],
    query: &Query,
) -> Result<Plan, ExplainError>
    requires known { IsTrue (list_all (is_state_of_index schema.now) states.now) }
    requires checked { query_refusal schema.now (query_of query.now) ≡ None }
    ensures ok { IfOk result (IsPlanUnder schema.now states.now (query_of query.now)) }
    ensures err { IfErr result (λ error. error ≢ ExplainError.OutOfMemory →
        refusal_under schema.now states.now (query_of query.now) ≡ Some error) }
{
    let states = index_states(alloc, states, schema.indexes())?;
    match plan_query(alloc, schema, states.as_slice(), query) {
        Ok(plan) => Ok(plan),
        Err(PlanError::SortNotServed) => Err(ExplainError::SortNotServed),
        Err(PlanError::Memory) => Err(ExplainError::OutOfMemory),
    }
}

// The plan of a query under a schema and states given for indexes.
fn plan_under(
    alloc: Global,
    schema: &Schema,
    states: &[NamedState],
    query: &Query,
) -> Result<Plan, ExplainError>
    ensures ok { IfOk result (IsPlanUnder schema.now states.now (query_of query.now)) }
    ensures err { IfErr result (λ error. error ≢ ExplainError.OutOfMemory →
        refusal_under schema.now states.now (query_of query.now) ≡ Some error) }
{
    if !are_indexes(schema, states) {
        return Err(ExplainError::UnknownIndex);
    }
    match query.check(schema) {
        Ok(()) => plan_checked(alloc, schema, states, query),
        Err(error) => Err(ExplainError::BadQuery(error)),
    }
}

// The plan of what is asked.
fn plan_requested(alloc: Global, request: &PlanRequest) -> Result<Plan, ExplainError>
    ensures ok { IfOk result (IsPlanAsked (asked_plan request.now)) }
    ensures err { IfErr result (λ error. error ≢ ExplainError.OutOfMemory →
        asked_refusal (asked_plan request.now) ≡ Some error) }
{
    let schema = schema_made(alloc, request)?;
    plan_under(alloc, &schema, request.states.as_slice(), &request.query)
}

/// The planner's plan of the query in a text of JSON, under the schema that is asked for there and
/// the states given for its indexes; an index without one is readable.
///
/// It is refused with `BadForm` (the text isn't JSON of that form, or has more than 4,000,000
/// bytes), `BadSchema` (there is no such schema), `UnknownIndex` (a state is given for what isn't an
/// index), `BadQuery` (the query is refused under the schema), `SortNotServed` (no path serves the
/// sort), in this order, and with `OutOfMemory` where memory is wanting.
pub fn plan_asked(alloc: Global, text: &[u8]) -> Result<Plan, ExplainError>
    ensures ok { IfOk result (IsPlanAskedBy text.now) }
    ensures err { IfErr result (λ error. error ≢ ExplainError.OutOfMemory →
        text_refusal text.now ≡ Some error) }
{
    match request_of(alloc, text) {
        Ok(request) => plan_requested(alloc, &request),
        Err(PartError::BadForm) => Err(ExplainError::BadForm),
        Err(PartError::OutOfMemory) => Err(ExplainError::OutOfMemory),
    }
}
