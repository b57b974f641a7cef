// Types, indexes and schemas from JSON. Called by `script` and `explain`; lists of names by
// `query_json`.
ghost use Rattle.std.specs.Prelude.{◌≡◌, Some, None, IfOk, IfErr};
ghost use Rattle.serde_json.specs.Find.{as_bool};
ghost use Rattle.serde_json.specs.View.{view};
ghost use Rattle.json_forms.specs.SchemaJson.{json_field, fields_in, json_index, index_kind_in};
ghost use Rattle.json_forms.specs.SchemaJson.{clears_in, index_keys};
ghost use Rattle.json_forms.specs.Json.{has_only};
ghost use Rattle.json_forms.specs.SchemaJson.{index_kind_named, json_index_of_kind, json_indexes};
ghost use Rattle.json_forms.specs.SchemaJson.{json_indexes_listed};
ghost use Rattle.json_forms.specs.SchemaJson.{json_schema, json_types, kind_named, names_in};
ghost use Rattle.json_forms.specs.SchemaJson.{summed_in, type_in};

use crate::error::PartError;
use crate::form::{has_only, list_of, member, str_of, text_of};
use metadata::{Field, Fields, IndexKind, IndexRequest, Kind, Names, SchemaRequest, TypeRequest};
use serde_json::Value;
use std::alloc::Global;
use tuple_codec::Text;

// The kind of this name.
fn kind_of(name: &str) -> Result<Kind, PartError>
    ensures ok { IfOk result (λ read. kind_named name.now ≡ Some read) }
    ensures err { IfErr result (λ error. error ≡ PartError.BadForm → kind_named name.now ≡ None) }
{
    match name {
        "int" => Ok(Kind::Int),
        "text" => Ok(Kind::Text),
        "bytes" => Ok(Kind::Bytes),
        _ => Err(PartError::BadForm),
    }
}

/// The field that a list of its name and its kind stands for: `int`, `text` or `bytes`. `BadForm` of
/// another value.
pub fn field_of(alloc: Global, value: &Value) -> Result<Field, PartError>
    ensures ok { IfOk result (λ read. json_field (view value.now) ≡ Some read) }
    ensures err { IfErr result (λ error. error ≡ PartError.BadForm → json_field (view value.now) ≡ None) }
{
    let [name, kind] = list_of(value)? else {
        return Err(PartError::BadForm);
    };
    let kind = kind_of(str_of(kind)?)?;
    let name = text_of(alloc, name)?;
    Ok(Field { name, kind })
}

// A list of fields.
fn fields_of(alloc: Global, value: &Value) -> Result<Fields, PartError>
    ensures ok { IfOk result (λ read. fields_in (view value.now) ≡ Some read) }
    ensures err { IfErr result (λ error. error ≡ PartError.BadForm → fields_in (view value.now) ≡ None) }
{
    let mut fields = Vec::new(alloc);
    for item in list_of(value)? {
        fields.push(field_of(alloc, item)?)?;
    }
    Ok(Fields::new(fields))
}

// A list of names.
pub(crate) fn names_of(alloc: Global, value: &Value) -> Result<Names, PartError>
    ensures ok { IfOk result (λ read. names_in (view value.now) ≡ Some read) }
    ensures err { IfErr result (λ error. error ≡ PartError.BadForm → names_in (view value.now) ≡ None) }
{
    let mut names = Vec::new(alloc);
    for item in list_of(value)? {
        names.push(text_of(alloc, item)?)?;
    }
    Ok(Names::new(names))
}

// The keys that a type has.
const TYPE_KEYS: [&str; 3] = ["name", "fields", "key"];

/// The type that an object with just the keys `name`, `fields` and `key` asks for: its name, its
/// fields, each a list of its name and its kind, and the names of its key fields. `BadForm` of
/// another value.
pub fn type_of(alloc: Global, value: &Value) -> Result<TypeRequest, PartError>
    ensures ok { IfOk result (λ read. type_in (view value.now) ≡ Some read) }
    ensures err { IfErr result (λ error. error ≡ PartError.BadForm → type_in (view value.now) ≡ None) }
{
    if !has_only(value, &TYPE_KEYS) {
        return Err(PartError::BadForm);
    }
    let name = text_of(alloc, member(value, "name")?)?;
    let fields = fields_of(alloc, member(value, "fields")?)?;
    let key = names_of(alloc, member(value, "key")?)?;
    Ok(TypeRequest { name, fields, key })
}

// A list of types.
fn types_of(alloc: Global, value: &Value) -> Result<Vec<TypeRequest>, PartError>
    ensures ok { IfOk result (λ read. json_types (view value.now) ≡ Some read.items) }
    ensures err { IfErr result (λ error. error ≡ PartError.BadForm → json_types (view value.now) ≡ None) }
{
    let mut types = Vec::new(alloc);
    for item in list_of(value)? {
        types.push(type_of(alloc, item)?)?;
    }
    Ok(types)
}

// The kind of index of this name.
fn index_kind_of(name: &str) -> Result<IndexKind, PartError>
    ensures ok { IfOk result (λ read. index_kind_named name.now ≡ Some read) }
    ensures err { IfErr result (λ error. error ≡ PartError.BadForm → index_kind_named name.now ≡ None) }
{
    match name {
        "value" => Ok(IndexKind::Value),
        "count" => Ok(IndexKind::Count),
        "sum" => Ok(IndexKind::Sum),
        _ => Err(PartError::BadForm),
    }
}

// The kind of index that a text names.
fn index_kind_in(value: &Value) -> Result<IndexKind, PartError>
    ensures ok { IfOk result (λ read. index_kind_in (view value.now) ≡ Some read) }
    ensures err { IfErr result (λ error. error ≡ PartError.BadForm → index_kind_in (view value.now) ≡ None) }
{
    index_kind_of(str_of(value)?)
}

// The keys that an index has, those that a COUNT may have, and those of a SUM.
const INDEX_KEYS: [&str; 4] = ["name", "kind", "type", "columns"];

const COUNT_KEYS: [&str; 5] = ["name", "kind", "type", "columns", "clear_when_zero"];

const SUM_KEYS: [&str; 5] = ["name", "kind", "type", "columns", "summed"];

// Whether a value is an object that has no key but those of an index of this kind.
fn has_index_keys(kind: IndexKind, value: &Value) -> bool
    ensures { result ≡ has_only (index_keys kind) (view value.now) }
{
    match kind {
        IndexKind::Value => has_only(value, &INDEX_KEYS),
        IndexKind::Count => has_only(value, &COUNT_KEYS),
        IndexKind::Sum => has_only(value, &SUM_KEYS),
    }
}

// The name of the summed field, which a SUM alone has.
fn summed_of(alloc: Global, kind: IndexKind, value: &Value) -> Result<Option<Text>, PartError>
    ensures ok { IfOk result (λ read. summed_in kind (view value.now) ≡ Some read) }
    ensures err { IfErr result (λ error. error ≡ PartError.BadForm → summed_in kind (view value.now) ≡ None) }
{
    match kind {
        IndexKind::Value | IndexKind::Count => Ok(None),
        IndexKind::Sum => Ok(Some(text_of(alloc, member(value, "summed")?)?)),
    }
}

// A truth value.
fn truth_of(value: &Value) -> Result<bool, PartError>
    ensures ok { IfOk result (λ truth. as_bool (view value.now) ≡ Some truth) }
    ensures err { IfErr result (λ error. (error ≡ PartError.BadForm) × (as_bool (view value.now) ≡ None)) }
{
    value.as_bool().ok_or(PartError::BadForm)
}

// Whether the totals of an index of a kind are cleared at zero, which a COUNT alone may say.
fn clears_of(kind: IndexKind, value: &Value) -> Result<bool, PartError>
    ensures ok { IfOk result (λ read. clears_in kind (view value.now) ≡ Some read) }
    ensures err { IfErr result (λ error. error ≡ PartError.BadForm → clears_in kind (view value.now) ≡ None) }
{
    match kind {
        IndexKind::Value | IndexKind::Sum => Ok(false),
        IndexKind::Count => match value.get("clear_when_zero") {
            Some(clears) => truth_of(clears),
            None => Ok(false),
        },
    }
}

// The index of a kind that an object asks for.
fn index_of_kind(alloc: Global, kind: IndexKind, value: &Value) -> Result<IndexRequest, PartError>
    ensures ok { IfOk result (λ read. json_index_of_kind kind (view value.now) ≡ Some read) }
    ensures err { IfErr result (λ error. error ≡ PartError.BadForm → json_index_of_kind kind (view value.now) ≡ None) }
{
    if !has_index_keys(kind, value) {
        return Err(PartError::BadForm);
    }
    let name = text_of(alloc, member(value, "name")?)?;
    let type_name = text_of(alloc, member(value, "type")?)?;
    let columns = names_of(alloc, member(value, "columns")?)?;
    let summed = summed_of(alloc, kind, value)?;
    let clear_when_zero = clears_of(kind, value)?;
    Ok(IndexRequest {
        name,
        kind,
        type_name,
        columns,
        summed,
        clear_when_zero,
    })
}

/// The index that an object with just the keys `name`, `kind`, `type` and `columns` asks for, and
/// `summed` for a SUM: its name, its kind (`value`, `count` or `sum`), the name of its type, those
/// of its columns, and that of its summed field. A COUNT may have `clear_when_zero`, whether its
/// totals are cleared where they come back to 0. `BadForm` of another value.
pub fn index_of(alloc: Global, value: &Value) -> Result<IndexRequest, PartError>
    ensures ok { IfOk result (λ read. json_index (view value.now) ≡ Some read) }
    ensures err { IfErr result (λ error. error ≡ PartError.BadForm → json_index (view value.now) ≡ None) }
{
    let kind = index_kind_in(member(value, "kind")?)?;
    index_of_kind(alloc, kind, value)
}

// A list of indexes.
fn indexes_in(alloc: Global, value: &Value) -> Result<Vec<IndexRequest>, PartError>
    ensures ok { IfOk result (λ read. json_indexes_listed (view value.now) ≡ Some read.items) }
    ensures err { IfErr result (λ error. error ≡ PartError.BadForm → json_indexes_listed (view value.now) ≡ None) }
{
    let mut indexes = Vec::new(alloc);
    for item in list_of(value)? {
        indexes.push(index_of(alloc, item)?)?;
    }
    Ok(indexes)
}

// The indexes of a schema, none where it has no list of them.
fn indexes_of(alloc: Global, value: &Value) -> Result<Vec<IndexRequest>, PartError>
    ensures ok { IfOk result (λ read. json_indexes (view value.now) ≡ Some read.items) }
    ensures err { IfErr result (λ error. error ≡ PartError.BadForm → json_indexes (view value.now) ≡ None) }
{
    match value.get("indexes") {
        Some(indexes) => indexes_in(alloc, indexes),
        None => Ok(Vec::new(alloc)),
    }
}

// The keys that a schema may have.
const SCHEMA_KEYS: [&str; 2] = ["types", "indexes"];

/// The schema that an object asks for: at `types` a list of types, and perhaps one of indexes at
/// `indexes`, with no other key. `BadForm` of another value.
pub fn schema_of(alloc: Global, value: &Value) -> Result<SchemaRequest, PartError>
    ensures ok { IfOk result (λ read. json_schema (view value.now) ≡ Some read) }
    ensures err { IfErr result (λ error. error ≡ PartError.BadForm → json_schema (view value.now) ≡ None) }
{
    if !has_only(value, &SCHEMA_KEYS) {
        return Err(PartError::BadForm);
    }
    let types = types_of(alloc, member(value, "types")?)?;
    let indexes = indexes_of(alloc, value)?;
    Ok(SchemaRequest::new(types, indexes))
}
