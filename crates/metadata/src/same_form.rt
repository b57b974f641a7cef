// Whether a tuple is the written form of a schema, told without writing it. Called by `written`.
ghost use Rattle.std.specs.Prelude.{◌≡◌, ℕ, Bool, false, length, map};
ghost use Rattle.std.specs.Bool.{Decides};
ghost use Rattle.tuple_codec.specs.Item.{Item};
ghost use Rattle.tuple_codec.specs.Elements.{item_in, items_in};
ghost use Rattle.metadata.specs.Written.{field_item, field_parts, index_item, index_parts, nested_item};
ghost use Rattle.metadata.specs.Written.{number_item, summed_item, type_item, type_parts, written};
ghost use Rattle.metadata.specs.Written.{written_in};
ghost use Rattle.tuple_codec.specs.Item.{bool as truth, text};

use crate::definition::{Field, TypeDefinition};
use crate::index::IndexDefinition;
use crate::reading::tuple_of;
use crate::schema::Schema;
use crate::writing::{form_number, index_kind_number, kind_number, wants_second};
use tuple_codec::{Element, Text, Tuple};

// Whether the element is this number.
fn is_number(element: &Element, value: u64) -> bool
    ensures { Decides result (item_in element.now ≡ number_item value) }
{
    match element {
        Element::Int(number) => number.get() == i128::from(value),
        _ => false,
    }
}

// Whether the element is this text.
fn is_text(element: &Element, name: &Text) -> bool
    ensures { Decides result (item_in element.now ≡ text name.now) }
{
    match element {
        Element::Text(text) => text.as_str() == name.as_str(),
        _ => false,
    }
}

// Whether the element is this truth value.
fn is_truth(element: &Element, value: bool) -> bool
    ensures { Decides result (item_in element.now ≡ truth value) }
{
    match element {
        Element::Bool(own) => *own == value,
        _ => false,
    }
}

// What is written as an element of a tuple, in the first form or in the second.
pub(crate) trait Written {
    ghost item: { Bool → Self → Item };

    fn is_in(&self, second: bool, element: &Element) -> bool
        ensures { Decides result (item_in element.now ≡ item second self.now) };
}

// Whether the elements are these, in order.
fn are_in<T: Written>(second: bool, items: &[T], elements: &[Element]) -> bool
    ensures { Decides result (items_in elements.now ≡ map (T.item second) items.now) }
{
    let mut rest = elements;
    for item in items {
        let Some((first, others)) = rest.split_first() else {
            return false;
        };
        if !item.is_in(second, first) {
            return false;
        }
        rest = others;
    }
    rest.is_empty()
}

// Whether the element is the tuple of these, in order.
fn are_within<T: Written>(second: bool, items: &[T], element: &Element) -> bool
    ensures { Decides result (item_in element.now ≡ nested_item (map (T.item second) items.now)) }
{
    match element {
        Element::Nested(tuple) => are_in(second, items, tuple.elements()),
        _ => false,
    }
}

impl Written for usize {
    ghost item = { λ second. number_item };

    fn is_in(&self, _second: bool, element: &Element) -> bool {
        is_number(element, *self as u64)
    }
}

// Whether the elements are a field's name and kind.
fn is_field(field: &Field, parts: &[Element]) -> bool
    ensures { Decides result (items_in parts.now ≡ field_parts field.now) }
{
    match parts {
        [name, kind] => is_text(name, &field.name) && is_number(kind, kind_number(field.kind)),
        _ => false,
    }
}

impl Written for Field {
    ghost item = { λ second. field_item };

    fn is_in(&self, _second: bool, element: &Element) -> bool {
        match tuple_of(element) {
            Some(parts) => is_field(self, parts.elements()),
            None => false,
        }
    }
}

// Whether the elements are a type's number, name, fields and places of key fields.
fn is_type(definition: &TypeDefinition, parts: &[Element]) -> bool
    ensures { Decides result (items_in parts.now ≡ type_parts false definition.now) }
{
    match parts {
        [number, name, fields, key] => {
            is_number(number, definition.number)
                && is_text(name, &definition.name)
                && are_within(false, definition.fields.as_slice(), fields)
                && are_within(false, definition.key.as_slice(), key)
        }
        _ => false,
    }
}

// Whether the elements are these, and in the second form with the number of the type's first fields.
fn is_type_in(second: bool, definition: &TypeDefinition, parts: &[Element]) -> bool
    ensures { Decides result (items_in parts.now ≡ type_parts second definition.now) }
{
    if !second {
        return is_type(definition, parts);
    }
    match parts.split_last() {
        Some((first, front)) => {
            is_type(definition, front) && is_number(first, definition.first_fields as u64)
        }
        None => false,
    }
}

impl Written for TypeDefinition {
    ghost item = { type_item };

    fn is_in(&self, second: bool, element: &Element) -> bool {
        match tuple_of(element) {
            Some(parts) => is_type_in(second, self, parts.elements()),
            None => false,
        }
    }
}

// Whether the element is the place of a summed field, or null where there is none.
fn is_summed(summed: Option<usize>, element: &Element) -> bool
    ensures { Decides result (item_in element.now ≡ summed_item summed) }
{
    match summed {
        Some(place) => is_number(element, place as u64),
        None => matches!(element, Element::Null),
    }
}

// Whether the elements are an index's number, name, kind, type number, places of columns and place of the summed field.
fn is_index(index: &IndexDefinition, parts: &[Element]) -> bool
    ensures { Decides result (items_in parts.now ≡ index_parts false index.now) }
{
    match parts {
        [number, name, kind, type_number, columns, summed] => {
            is_number(number, index.number)
                && is_text(name, &index.name)
                && is_number(kind, index_kind_number(index.kind))
                && is_number(type_number, index.type_number)
                && are_within(false, index.columns.as_slice(), columns)
                && is_summed(index.summed, summed)
        }
        _ => false,
    }
}

// Whether the elements are these, and in the second form with whether the index is cleared at zero.
fn is_index_in(second: bool, index: &IndexDefinition, parts: &[Element]) -> bool
    ensures { Decides result (items_in parts.now ≡ index_parts second index.now) }
{
    if !second {
        return is_index(index, parts);
    }
    match parts.split_last() {
        Some((clears, front)) => is_index(index, front) && is_truth(clears, index.clear_when_zero),
        None => false,
    }
}

impl Written for IndexDefinition {
    ghost item = { index_item };

    fn is_in(&self, second: bool, element: &Element) -> bool {
        match tuple_of(element) {
            Some(parts) => is_index_in(second, self, parts.elements()),
            None => false,
        }
    }
}

// Whether a tuple is the form with this number of a schema.
fn is_written_in(second: bool, schema: &Schema, tuple: &Tuple) -> bool
    ensures { Decides result (tuple.now ≡ written_in second schema.now) }
{
    match tuple.elements() {
        [form, last_type, last_index, types, indexes] => {
            is_number(form, form_number(second))
                && is_number(last_type, schema.types().len() as u64)
                && is_number(last_index, schema.last_index)
                && are_within(second, schema.types(), types)
                && are_within(second, schema.indexes(), indexes)
        }
        _ => false,
    }
}

// Whether a tuple is the written form of a schema.
pub(crate) fn is_written(schema: &Schema, tuple: &Tuple) -> bool
    ensures { Decides result (tuple.now ≡ written schema.now) }
{
    is_written_in(wants_second(schema), schema, tuple)
}
