// The JSON that asks for a plan. Called by `planning`.
ghost use Rattle.std.specs.Prelude.{◌≡◌, Some, None, IfOk, IfErr};
ghost use Rattle.serde_json.specs.View.{members_view, view};
ghost use Rattle.explain.specs.File.{asked_plan, given_states, named_state_in, plan_request_in};
ghost use Rattle.explain.specs.File.{plan_request_of};
ghost use Rattle.explain.specs.File.{state_of_name, states_beside, states_in};

use json_forms::{PartError, has_only, member, query_of, schema_of, str_of, value_of};
use metadata::{SchemaRequest, State};
use query::Query;
use serde_json::{Map, Value};
use std::alloc::Global;
use tuple_codec::Text;

/// The state of the index of a name.
#[derive(Drop)]
pub(crate) struct NamedState {
    pub name: Text,
    pub state: State,
}

/// What a file asks a plan for: a schema, the states of some of its indexes, and a query.
#[derive(Drop)]
pub(crate) struct PlanRequest {
    pub schema: SchemaRequest,
    pub states: Vec<NamedState>,
    pub query: Query,
}

// The state of this name.
fn state_named(name: &str) -> Result<State, PartError>
    ensures ok { IfOk result (λ read. state_of_name name.now ≡ Some read) }
    ensures err { IfErr result (λ error. error ≡ PartError.BadForm → state_of_name name.now
        ≡ None) }
{
    match name {
        "readable" => Ok(State::Readable),
        "write-only" => Ok(State::WriteOnly),
        "disabled" => Ok(State::Disabled),
        _ => Err(PartError::BadForm),
    }
}

// The state that a text names.
fn state_of(value: &Value) -> Result<State, PartError>
    ensures ok { IfOk result (λ read. named_state_in (view value.now) ≡ Some read) }
    ensures err { IfErr result (λ error. error ≡ PartError.BadForm → named_state_in (view value.now) ≡ None) }
{
    state_named(str_of(value)?)
}

// The states beside the names of indexes.
fn states_of(alloc: Global, members: &Map<String, Value>) -> Result<Vec<NamedState>, PartError>
    ensures ok { IfOk result (λ read. states_beside (members_view members.now.entries) ≡ Some read.items) }
    ensures err { IfErr result (λ error. error ≡ PartError.BadForm →
        states_beside (members_view members.now.entries) ≡ None) }
{
    let mut states = Vec::new(alloc);
    for (name, value) in members.iter() {
        let state = state_of(value)?;
        let name = Text::from_str(alloc, name.as_str())?;
        states.push(NamedState { name, state })?;
    }
    Ok(states)
}

// The states that an object gives.
fn given_states(alloc: Global, value: &Value) -> Result<Vec<NamedState>, PartError>
    ensures ok { IfOk result (λ read. given_states (view value.now) ≡ Some read.items) }
    ensures err { IfErr result (λ error. error ≡ PartError.BadForm → given_states (view value.now) ≡ None) }
{
    match value.as_object() {
        Some(members) => states_of(alloc, members),
        None => Err(PartError::BadForm),
    }
}

// The states that a file gives, none where it has no object of them.
fn states_in(alloc: Global, file: &Value) -> Result<Vec<NamedState>, PartError>
    ensures ok { IfOk result (λ read. states_in (view file.now) ≡ Some read.items) }
    ensures err { IfErr result (λ error. error ≡ PartError.BadForm → states_in (view file.now) ≡ None) }
{
    match file.get("states") {
        Some(states) => given_states(alloc, states),
        None => Ok(Vec::new(alloc)),
    }
}

// The keys that a file may have.
const FILE_KEYS: [&str; 3] = ["schema", "states", "query"];

// What a value asks a plan for.
fn request_in(alloc: Global, file: &Value) -> Result<PlanRequest, PartError>
    ensures ok { IfOk result (λ read. plan_request_in (view file.now) ≡ Some (asked_plan read)) }
    ensures err { IfErr result (λ error. error ≡ PartError.BadForm → plan_request_in (view file.now) ≡ None) }
{
    if !has_only(file, &FILE_KEYS) {
        return Err(PartError::BadForm);
    }
    let schema = schema_of(alloc, member(file, "schema")?)?;
    let states = states_in(alloc, file)?;
    let query = query_of(alloc, member(file, "query")?)?;
    Ok(PlanRequest {
        schema,
        states,
        query,
    })
}

/// What a text asks a plan for, or `BadForm` of another text.
pub(crate) fn request_of(alloc: Global, text: &[u8]) -> Result<PlanRequest, PartError>
    ensures ok { IfOk result (λ read. plan_request_of text.now ≡ Some (asked_plan read)) }
    ensures err { IfErr result (λ error. error ≡ PartError.BadForm → plan_request_of text.now
        ≡ None) }
{
    let file = value_of(alloc, text)?;
    request_in(alloc, &file)
}
