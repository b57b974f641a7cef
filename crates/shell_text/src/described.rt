// The committed schema, as the lines that make it and as JSON. Called by `planned`, and by `shell`.
use crate::built::push_built;
use crate::opened::Opened;
use cluster_core::Cluster;
use metadata::{Field, IndexDefinition, IndexKind, Kind, Places, Schema, State, TypeDefinition};
use record_store::Store;
use std::alloc::{AllocError, Global};
use std::fmt::Write;

// The name of a kind of field.
fn kind_name(kind: Kind) -> &'static str {
    match kind {
        Kind::Int => "int",
        Kind::Text => "text",
        Kind::Bytes => "bytes",
    }
}

// The name of a kind of index, in JSON and at the beginning of a line.
fn index_kind_name(kind: IndexKind) -> (&'static str, &'static str) {
    match kind {
        IndexKind::Value => ("value", "index"),
        IndexKind::Count => ("count", "count"),
        IndexKind::Sum => ("sum", "sum"),
    }
}

/// The name of a state.
pub(crate) fn state_name(state: State) -> &'static str {
    match state {
        State::Readable => "readable",
        State::WriteOnly => "write-only",
        State::Disabled => "disabled",
    }
}

// The name of the field at a place.
fn name_at(definition: &TypeDefinition, place: usize) -> &str {
    match definition.fields.as_slice().get(place) {
        Some(field) => field.name.as_str(),
        None => "",
    }
}

// Writes the names of the fields at some places, each between these.
fn push_places(
    out: &mut String,
    definition: &TypeDefinition,
    places: &Places,
    quote: &str,
    between: &str,
) -> Result<(), AllocError> {
    let mut separator = "";
    for place in places.as_slice() {
        let name = name_at(definition, *place);
        write!(out, "{separator}{quote}{name}{quote}")?;
        separator = between;
    }
    Ok(())
}

// Writes the line that adds a type.
fn push_type_line(out: &mut String, definition: &TypeDefinition) -> Result<(), AllocError> {
    let name = definition.name.as_str();
    write!(out, "type {name}")?;
    let mut separator = " ";
    for field in definition.fields.as_slice() {
        let (name, kind) = (field.name.as_str(), kind_name(field.kind));
        write!(out, "{separator}{name} {kind}")?;
        separator = ", ";
    }
    out.push_str(" key ")?;
    push_places(out, definition, &definition.key, "", ", ")?;
    out.push_str("\n")
}

/// Writes the lines that add the types.
pub fn push_type_lines(out: &mut String, schema: &Schema) -> Result<(), AllocError> {
    for definition in schema.types() {
        push_type_line(out, definition)?;
    }
    Ok(())
}

// The type of an index.
fn owner_of<'a>(schema: &'a Schema, index: &IndexDefinition) -> Option<&'a TypeDefinition> {
    schema
        .types()
        .iter()
        .find(|definition| definition.number == index.type_number)
}

// Writes the line that adds an index, without its end.
fn push_index_line(
    out: &mut String,
    schema: &Schema,
    index: &IndexDefinition,
) -> Result<(), AllocError> {
    let Some(owner) = owner_of(schema, index) else {
        return Ok(());
    };
    let (name, (_, word)) = (index.name.as_str(), index_kind_name(index.kind));
    write!(out, "{word} {name}")?;
    if let Some(place) = index.summed {
        let summed = name_at(owner, place);
        write!(out, " of {summed}")?;
    }
    let owner_name = owner.name.as_str();
    write!(out, " on {owner_name} ")?;
    push_places(out, owner, &index.columns, "", ", ")?;
    if index.clear_when_zero {
        out.push_str(" clear_when_zero")?;
    }
    Ok(())
}

// Writes a field in JSON.
fn push_field(out: &mut String, field: &Field) -> Result<(), AllocError> {
    let (name, kind) = (field.name.as_str(), kind_name(field.kind));
    write!(out, "[\"{name}\",\"{kind}\"]")
}

// Writes a type in JSON.
fn push_type(out: &mut String, definition: &TypeDefinition) -> Result<(), AllocError> {
    let name = definition.name.as_str();
    write!(out, "{{\"name\":\"{name}\",\"fields\":[")?;
    let mut separator = "";
    for field in definition.fields.as_slice() {
        out.push_str(separator)?;
        push_field(out, field)?;
        separator = ",";
    }
    out.push_str("],\"key\":[")?;
    push_places(out, definition, &definition.key, "\"", ",")?;
    out.push_str("]}")
}

// Writes an index in JSON.
fn push_index(
    out: &mut String,
    owner: &TypeDefinition,
    index: &IndexDefinition,
) -> Result<(), AllocError> {
    let (name, (kind, _)) = (index.name.as_str(), index_kind_name(index.kind));
    let owner_name = owner.name.as_str();
    write!(
        out,
        "{{\"name\":\"{name}\",\"kind\":\"{kind}\",\"type\":\"{owner_name}\",\"columns\":["
    )?;
    push_places(out, owner, &index.columns, "\"", ",")?;
    out.push_str("]")?;
    if let Some(place) = index.summed {
        let summed = name_at(owner, place);
        write!(out, ",\"summed\":\"{summed}\"")?;
    }
    if index.clear_when_zero {
        out.push_str(",\"clear_when_zero\":true")?;
    }
    out.push_str("}")
}

/// Writes a schema in JSON.
pub fn push_schema(out: &mut String, schema: &Schema) -> Result<(), AllocError> {
    out.push_str("{\"types\":[")?;
    let mut separator = "";
    for definition in schema.types() {
        out.push_str(separator)?;
        push_type(out, definition)?;
        separator = ",";
    }
    out.push_str("],\"indexes\":[")?;
    separator = "";
    for index in schema.indexes() {
        if let Some(owner) = owner_of(schema, index) {
            out.push_str(separator)?;
            push_index(out, owner, index)?;
            separator = ",";
        }
    }
    out.push_str("]}")
}

/// Writes the states of the indexes in JSON, as if that of this number were readable.
pub(crate) fn push_states(
    out: &mut String,
    store: &Store,
    readable: Option<u64>,
) -> Result<(), AllocError> {
    out.push_str("{")?;
    let mut separator = "";
    for index in store.schema().indexes() {
        let name = index.name.as_str();
        let state = if readable == Some(index.number) {
            State::Readable
        } else {
            store.state_of(index.number)
        };
        let state = state_name(state);
        write!(out, "{separator}\"{name}\":\"{state}\"")?;
        separator = ",";
    }
    out.push_str("}")
}

// Writes the line of the index at a place of the schema.
fn push_state_line(
    alloc: Global,
    out: &mut String,
    cluster: &Cluster,
    opened: &mut Opened,
    place: usize,
) -> Result<(), AllocError> {
    let Some(index) = opened.schema().indexes().get(place) else {
        return Ok(());
    };
    let number = index.number;
    let state = opened.store.state_of(number);
    let name = state_name(state);
    write!(out, "{name}: ")?;
    push_index_line(out, opened.schema(), index)?;
    if state == State::WriteOnly {
        push_built(alloc, out, cluster, opened, number)?;
    }
    out.push_str("\n")
}

/// Writes a line for each index: its state, the line that adds it, and what is built of it where it
/// is write-only.
pub fn push_index_lines(
    alloc: Global,
    out: &mut String,
    cluster: &Cluster,
    opened: &mut Opened,
) -> Result<(), AllocError> {
    for place in 0..opened.schema().indexes().len() {
        push_state_line(alloc, out, cluster, opened, place)?;
    }
    Ok(())
}
