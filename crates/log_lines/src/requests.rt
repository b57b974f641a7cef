// Types, indexes and schemas as they are asked for, in the JSON of scripts. Called by `steps`.
use json_forms::cell_text;
use metadata::{Cell, Field, IndexKind, IndexRequest, Kind, Names, SchemaRequest, TypeRequest};
use std::alloc::{AllocError, Global};
use tuple_codec::Text;

// The name of a kind of field.
fn kind_name(kind: Kind) -> &'static str {
    match kind {
        Kind::Int => "int",
        Kind::Text => "text",
        Kind::Bytes => "bytes",
    }
}

// The name of a kind of index.
fn index_kind_name(kind: IndexKind) -> &'static str {
    match kind {
        IndexKind::Value => "value",
        IndexKind::Count => "count",
        IndexKind::Sum => "sum",
    }
}

/// Appends a name.
pub(crate) fn push_name(alloc: Global, out: &mut String, name: &Text) -> Result<(), AllocError> {
    let text = cell_text(alloc, &Cell::Text(name.copy()?))?;
    out.push_str(text.as_str())
}

// Appends a list of names.
fn push_names(alloc: Global, out: &mut String, names: &Names) -> Result<(), AllocError> {
    out.push_str("[")?;
    let mut separator = "";
    for name in names.as_slice() {
        out.push_str(separator)?;
        push_name(alloc, out, name)?;
        separator = ",";
    }
    out.push_str("]")
}

/// Appends a field.
pub(crate) fn push_field(alloc: Global, out: &mut String, field: &Field) -> Result<(), AllocError> {
    out.push_str("[")?;
    push_name(alloc, out, &field.name)?;
    out.push_str(",\"")?;
    out.push_str(kind_name(field.kind))?;
    out.push_str("\"]")
}

// Appends a list of fields.
fn push_fields(alloc: Global, out: &mut String, fields: &[Field]) -> Result<(), AllocError> {
    out.push_str("[")?;
    let mut separator = "";
    for field in fields {
        out.push_str(separator)?;
        push_field(alloc, out, field)?;
        separator = ",";
    }
    out.push_str("]")
}

/// Appends a type.
pub(crate) fn push_type(
    alloc: Global,
    out: &mut String,
    asked: &TypeRequest,
) -> Result<(), AllocError> {
    out.push_str("{\"name\":")?;
    push_name(alloc, out, &asked.name)?;
    out.push_str(",\"fields\":")?;
    push_fields(alloc, out, asked.fields.as_slice())?;
    out.push_str(",\"key\":")?;
    push_names(alloc, out, &asked.key)?;
    out.push_str("}")
}

/// Appends an index.
pub(crate) fn push_index(
    alloc: Global,
    out: &mut String,
    asked: &IndexRequest,
) -> Result<(), AllocError> {
    out.push_str("{\"name\":")?;
    push_name(alloc, out, &asked.name)?;
    out.push_str(",\"kind\":\"")?;
    out.push_str(index_kind_name(asked.kind))?;
    out.push_str("\",\"type\":")?;
    push_name(alloc, out, &asked.type_name)?;
    out.push_str(",\"columns\":")?;
    push_names(alloc, out, &asked.columns)?;
    if let Some(summed) = &asked.summed {
        out.push_str(",\"summed\":")?;
        push_name(alloc, out, summed)?;
    }
    if asked.clear_when_zero {
        out.push_str(",\"clear_when_zero\":true")?;
    }
    out.push_str("}")
}

// Appends the types of a schema.
fn push_types(alloc: Global, out: &mut String, types: &[TypeRequest]) -> Result<(), AllocError> {
    out.push_str("[")?;
    let mut separator = "";
    for one in types {
        out.push_str(separator)?;
        push_type(alloc, out, one)?;
        separator = ",";
    }
    out.push_str("]")
}

// Appends the indexes of a schema.
fn push_indexes(
    alloc: Global,
    out: &mut String,
    indexes: &[IndexRequest],
) -> Result<(), AllocError> {
    out.push_str("[")?;
    let mut separator = "";
    for one in indexes {
        out.push_str(separator)?;
        push_index(alloc, out, one)?;
        separator = ",";
    }
    out.push_str("]")
}

/// Appends a schema.
pub(crate) fn push_schema(
    alloc: Global,
    out: &mut String,
    asked: &SchemaRequest,
) -> Result<(), AllocError> {
    out.push_str("{\"types\":")?;
    push_types(alloc, out, asked.types())?;
    out.push_str(",\"indexes\":")?;
    push_indexes(alloc, out, asked.indexes())?;
    out.push_str("}")
}
