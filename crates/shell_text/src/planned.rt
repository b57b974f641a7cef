// Plans of queries over what is committed. Called by `shell`.
use crate::described::{push_schema, push_states, state_name};
use explain::{ExplainError, plan_asked};
use json_forms::{PartError, query_of, value_of};
use metadata::{IndexDefinition, State};
use query::{Query, QueryError};
use record_store::Store;
use std::alloc::{AllocError, Global};
use std::fmt::Write;

// What a plan is asked for with, as if the index of this number were readable.
fn asked_text(
    alloc: Global,
    store: &Store,
    query: &str,
    readable: Option<u64>,
) -> Result<String, AllocError> {
    let mut text = String::from_str(alloc, "{\"schema\":")?;
    push_schema(&mut text, store.schema())?;
    text.push_str(",\"states\":")?;
    push_states(&mut text, store, readable)?;
    text.push_str(",\"query\":")?;
    text.push_str(query)?;
    text.push_str("}")?;
    Ok(text)
}

// Whether an index would serve the order of a query if it were readable.
fn would_serve(
    alloc: Global,
    store: &Store,
    query: &str,
    index: &IndexDefinition,
) -> Result<bool, AllocError> {
    if store.state_of(index.number) == State::Readable {
        return Ok(false);
    }
    let text = asked_text(alloc, store, query, Some(index.number))?;
    match plan_asked(alloc, text.as_bytes()) {
        Ok(_) => Ok(true),
        Err(ExplainError::OutOfMemory) => Err(AllocError),
        Err(_) => Ok(false),
    }
}

// Which index of a store that isn't readable would serve the order of a query, none where none would.
fn unread_serving(alloc: Global, store: &Store, query: &str) -> Result<Option<String>, AllocError> {
    for index in store.schema().indexes() {
        if would_serve(alloc, store, query, index)? {
            let (name, state) = (
                index.name.as_str(),
                state_name(store.state_of(index.number)),
            );
            let line = format!(in alloc;
                "no readable index serves this order; {name} would, which is {state}\n"
            )?;
            return Ok(Some(line));
        }
    }
    Ok(None)
}

// Writes the line that would add an index for the order of a query.
fn push_serving(out: &mut String, query: &Query) -> Result<(), AllocError> {
    let owner = query.record_type.as_str();
    out.push_str("no readable index serves this order; this one would: index by")?;
    for name in query.sort.as_slice() {
        let name = name.as_str();
        write!(out, "_{name}")?;
    }
    write!(out, " on {owner}")?;
    let mut separator = " ";
    for name in query.sort.as_slice() {
        let name = name.as_str();
        write!(out, "{separator}{name}")?;
        separator = ", ";
    }
    out.push_str("\n")
}

// Which index would serve the order of a query.
fn serving(alloc: Global, store: &Store, query: &str) -> Result<String, AllocError> {
    if let Some(line) = unread_serving(alloc, store, query)? {
        return Ok(line);
    }
    let mut out = String::new(alloc);
    let read = value_of(alloc, query.as_bytes());
    match read.and_then(|value| query_of(alloc, &value)) {
        Ok(query) => push_serving(&mut out, &query)?,
        Err(PartError::OutOfMemory) => return Err(AllocError),
        Err(PartError::BadForm) => {}
    }
    Ok(out)
}

// What is told of a query that is refused.
fn refused(alloc: Global, error: QueryError) -> Result<String, AllocError> {
    format!(in alloc; "refused {error:?}: {error}\n")
}

/// The tree of the plan of a query, or why it has none.
pub fn plan_lines(alloc: Global, store: &Store, query: &str) -> Result<String, AllocError> {
    let text = asked_text(alloc, store, query, None)?;
    match plan_asked(alloc, text.as_bytes()) {
        Ok(plan) => explain::tree(alloc, &plan),
        Err(ExplainError::OutOfMemory) => Err(AllocError),
        Err(ExplainError::SortNotServed) => serving(alloc, store, query),
        Err(ExplainError::BadQuery(error)) => refused(alloc, error),
        Err(error) => format!(in alloc; "{error}\n"),
    }
}
