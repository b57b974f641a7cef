// The written form of a schema, as elements of a tuple. Called by `written`; the numbers of kinds
// and forms by `same_form`.
ghost use Rattle.std.specs.Prelude.{◌≡◌, ◌<◌, ◌==◌, not, length, map, IfOk};
ghost use Rattle.std.specs.List.{list_any};
ghost use Rattle.tuple_codec.specs.Item.{nesting};
ghost use Rattle.tuple_codec.specs.Elements.{item_in, items_in};
ghost use Rattle.metadata.specs.Written.{field_item, form_number, index_item, index_kind_number};
ghost use Rattle.metadata.specs.Written.{kind_number};
ghost use Rattle.metadata.specs.Written.{nested_item, number_item, summed_item, type_item};
ghost use Rattle.metadata.specs.Written.{wants_second, written};

use crate::cells::Kind;
use crate::definition::{Field, TypeDefinition};
use crate::index::{IndexDefinition, IndexKind};
use crate::schema::Schema;
use std::alloc::{AllocError, Global};
use tuple_codec::{Element, Tuple, TupleInt};

// The tuple within a tuple, in which tuples nest fewer than 16 deep.
fn nested(elements: Vec<Element>) -> Element
    requires { nesting (items_in elements.items) < 16 }
    ensures { item_in result ≡ nested_item (items_in elements.items) }
{
    match Tuple::new(elements) {
        Ok(tuple) => Element::Nested(tuple),
        Err(_) => unreachable!(),
    }
}

// A count, a number or a place.
fn number(value: u64) -> Element
    ensures { item_in result ≡ number_item value }
{
    Element::Int(TupleInt::from(value))
}

// The number of a kind.
pub(crate) fn kind_number(kind: Kind) -> u64
    ensures { result ≡ kind_number kind }
{
    match kind {
        Kind::Int => 1,
        Kind::Text => 2,
        Kind::Bytes => 3,
    }
}

// A field's name and kind.
fn field_element(alloc: Global, field: &Field) -> Result<Element, AllocError>
    ensures { IfOk result (λ element. item_in element ≡ field_item field.now) }
{
    let mut parts = Vec::with_capacity(alloc, 2)?;
    parts.push(Element::Text(field.name.copy()?))?;
    parts.push(number(kind_number(field.kind)))?;
    Ok(nested(parts))
}

// Fields, in order.
fn fields_element(alloc: Global, fields: &[Field]) -> Result<Element, AllocError>
    ensures { IfOk result (λ element. item_in element ≡ nested_item (map field_item fields.now)) }
{
    let mut parts = Vec::with_capacity(alloc, fields.len())?;
    for field in fields {
        parts.push(field_element(alloc, field)?)?;
    }
    Ok(nested(parts))
}

// Places of fields, in order.
fn places_element(alloc: Global, places: &[usize]) -> Result<Element, AllocError>
    ensures { IfOk result (λ element. item_in element ≡ nested_item (map number_item places.now)) }
{
    let mut parts = Vec::with_capacity(alloc, places.len())?;
    for place in places {
        parts.push(number(*place as u64))?;
    }
    Ok(nested(parts))
}

// A type's number, name, fields and places of key fields, and by the second form the number of the
// fields that it was added with.
fn type_element(
    alloc: Global,
    second: bool,
    definition: &TypeDefinition,
) -> Result<Element, AllocError>
    ensures { IfOk result (λ element. item_in element ≡ type_item second definition.now) }
{
    let mut parts = Vec::with_capacity(alloc, 5)?;
    parts.push(number(definition.number))?;
    parts.push(Element::Text(definition.name.copy()?))?;
    parts.push(fields_element(alloc, definition.fields.as_slice())?)?;
    parts.push(places_element(alloc, definition.key.as_slice())?)?;
    if second {
        parts.push(number(definition.first_fields as u64))?;
    }
    Ok(nested(parts))
}

// Types, in order.
fn types_element(
    alloc: Global,
    second: bool,
    types: &[TypeDefinition],
) -> Result<Element, AllocError>
    ensures { IfOk result (λ element. item_in element ≡ nested_item (map (type_item second) types.now)) }
{
    let mut parts = Vec::with_capacity(alloc, types.len())?;
    for definition in types {
        parts.push(type_element(alloc, second, definition)?)?;
    }
    Ok(nested(parts))
}

// The number of an index's kind.
pub(crate) fn index_kind_number(kind: IndexKind) -> u64
    ensures { result ≡ index_kind_number kind }
{
    match kind {
        IndexKind::Value => 1,
        IndexKind::Count => 2,
        IndexKind::Sum => 3,
    }
}

// The place of a summed field, or null.
fn summed_element(summed: Option<usize>) -> Element
    ensures { item_in result ≡ summed_item summed }
{
    match summed {
        Some(place) => number(place as u64),
        None => Element::Null,
    }
}

// An index's number, name, kind, type number, places of columns and place of the summed field, and by
// the second form whether it is cleared at zero.
fn index_element(
    alloc: Global,
    second: bool,
    index: &IndexDefinition,
) -> Result<Element, AllocError>
    ensures { IfOk result (λ element. item_in element ≡ index_item second index.now) }
{
    let mut parts = Vec::with_capacity(alloc, 7)?;
    parts.push(number(index.number))?;
    parts.push(Element::Text(index.name.copy()?))?;
    parts.push(number(index_kind_number(index.kind)))?;
    parts.push(number(index.type_number))?;
    parts.push(places_element(alloc, index.columns.as_slice())?)?;
    parts.push(summed_element(index.summed))?;
    if second {
        parts.push(Element::Bool(index.clear_when_zero))?;
    }
    Ok(nested(parts))
}

// Indexes, in order.
fn indexes_element(
    alloc: Global,
    second: bool,
    indexes: &[IndexDefinition],
) -> Result<Element, AllocError>
    ensures { IfOk result (λ element. item_in element ≡ nested_item (map (index_item second) indexes.now)) }
{
    let mut parts = Vec::with_capacity(alloc, indexes.len())?;
    for index in indexes {
        parts.push(index_element(alloc, second, index)?)?;
    }
    Ok(nested(parts))
}

// The number of a form.
pub(crate) fn form_number(second: bool) -> u64
    ensures { result ≡ form_number second }
{
    if second { 2 } else { 1 }
}

// Whether a type has appended fields.
fn has_grown(types: &[TypeDefinition]) -> bool
    ensures { result ≡ list_any (λ type. not (type.first_fields == length type.fields)) types.now }
{
    types.iter().any(|definition| definition.first_fields != definition.fields.as_slice().len())
}

// Whether an index is cleared at zero.
fn has_cleared(indexes: &[IndexDefinition]) -> bool
    ensures { result ≡ list_any (λ index. index.clear_when_zero) indexes.now }
{
    indexes.iter().any(|index| index.clear_when_zero)
}

// Whether the second form is wanted.
pub(crate) fn wants_second(schema: &Schema) -> bool
    ensures { result ≡ wants_second schema.now }
{
    has_grown(schema.types()) || has_cleared(schema.indexes())
}

// The written form of a schema.
pub(crate) fn schema_tuple(alloc: Global, schema: &Schema) -> Result<Tuple, AllocError>
    ensures { IfOk result (λ tuple. tuple ≡ written schema.now) }
{
    let second = wants_second(schema);
    let mut parts = Vec::with_capacity(alloc, 5)?;
    parts.push(number(form_number(second)))?;
    parts.push(number(schema.types().len() as u64))?;
    parts.push(number(schema.last_index))?;
    parts.push(types_element(alloc, second, schema.types())?)?;
    parts.push(indexes_element(alloc, second, schema.indexes())?)?;
    match Tuple::new(parts) {
        Ok(tuple) => Ok(tuple),
        Err(_) => unreachable!(),
    }
}
