// Tuples from JSON and back. Called by `recordctl` for `pack` and `unpack`.
ghost use Rattle.std.specs.Prelude.{◌≡◌, ◌+◌, ◌<◌, ◌≤◌, ◌^◌, ℕ, Some, None, IfOk, IfErr};
ghost use Rattle.std.specs.Prelude.{length, slice_index, map, option_map, string_bytes};
ghost use Rattle.serde_json.specs.Data.{depth, items_depth};
ghost use Rattle.serde_json.specs.View.{view, items_view};
ghost use Rattle.tuple_codec.specs.Item.{int, uuid, stamp, nested, items_from, item_depth};
ghost use Rattle.tuple_codec.specs.Item.{nesting, magnitude};
ghost use Rattle.tuple_codec.specs.Elements.{item_in as item_of, items_in};
ghost use Rattle.uuid.specs.Text.{parsed};
ghost use Rattle.json_forms.specs.Json.{each_in};
ghost use Rattle.json_forms.specs.TupleJson.{int_in, stamp_in, of_text, object_in};
ghost use Rattle.json_forms.specs.TupleJson.{json_item, json_tuple, nested_in, tuple_of_text};

use crate::error::PartError;
use crate::form::{hex_of, hex_value, labelled, list_of, only_member, str_of, text_of};
use hex::FromHex;
use serde_json::Value;
use std::alloc::{AllocError, Global};
use tuple_codec::{ByteString, Element, Tuple, TupleInt};
use uuid::Uuid;

// How deep tuples nest in a tuple at most.
const MAX_NESTING: u8 = 16;

// The whole number that a text writes in decimal digits, behind a minus or not.
fn int_of(word: &str) -> Option<TupleInt>
    ensures { result ≡ int_in word.now }
{
    if word.starts_with('+') {
        return None;
    }
    match word.parse::<i128>() {
        Ok(value) => TupleInt::new(value),
        Err(_) => None,
    }
}

// The same of a value that is a text.
fn int_element(value: &Value) -> Result<Element, PartError>
    ensures ok { IfOk result (λ element.
        of_text (λ t. option_map int (int_in t)) (view value.now) ≡ Some (item_of element)) }
    ensures flat { IfOk result (λ element. item_depth (item_of element) ≡ 0) }
    ensures err { IfErr result (λ error. of_text (λ t. option_map int (int_in t)) (view value.now) ≡ None) }
{
    match int_of(str_of(value)?) {
        Some(int) => Ok(Element::Int(int)),
        None => Err(PartError::BadForm),
    }
}

// The UUID that a text writes, in any of the forms of a UUID.
fn uuid_element(value: &Value) -> Result<Element, PartError>
    ensures ok { IfOk result (λ element.
        of_text (λ t. option_map uuid (parsed t)) (view value.now) ≡ Some (item_of element)) }
    ensures flat { IfOk result (λ element. item_depth (item_of element) ≡ 0) }
    ensures err { IfErr result (λ error. of_text (λ t. option_map uuid (parsed t)) (view value.now) ≡ None) }
{
    match Uuid::try_parse(str_of(value)?) {
        Ok(uuid) => Ok(Element::Uuid(uuid)),
        Err(_) => Err(PartError::BadForm),
    }
}

// The versionstamp that a text writes in 24 hexadecimal digits.
fn stamp_element(value: &Value) -> Result<Element, PartError>
    ensures ok { IfOk result (λ element.
        of_text (λ t. option_map stamp (stamp_in t)) (view value.now) ≡ Some (item_of element)) }
    ensures flat { IfOk result (λ element. item_depth (item_of element) ≡ 0) }
    ensures err { IfErr result (λ error. of_text (λ t. option_map stamp (stamp_in t)) (view value.now) ≡ None) }
{
    match <[u8; 12]>::from_hex(str_of(value)?) {
        Ok(stamp) => Ok(Element::Stamp(stamp)),
        Err(_) => Err(PartError::BadForm),
    }
}

// The element that an object of one key stands for.
fn object_element(alloc: Global, value: &Value) -> Result<Element, PartError>
    ensures ok { IfOk result (λ element. object_in (view value.now) ≡ Some (item_of element)) }
    ensures flat { IfOk result (λ element. item_depth (item_of element) ≡ 0) }
    ensures err { IfErr result (λ error. error ≡ PartError.BadForm → object_in (view value.now) ≡ None) }
{
    if let Ok(digits) = only_member(value, "hex") {
        let bytes = hex_of(alloc, digits)?;
        return Ok(Element::Bytes(ByteString::new(bytes)));
    }
    if let Ok(digits) = only_member(value, "int") {
        return int_element(digits);
    }
    if let Ok(text) = only_member(value, "uuid") {
        return uuid_element(text);
    }
    stamp_element(only_member(value, "stamp")?)
}

// The element that a value stands for, in which tuples may nest so many levels deep.
#[cycle(read)]
fn element_of(alloc: Global, value: &Value, levels: u8) -> Result<Element, PartError>
    requires { levels ≤ 16 }
    ensures ok { IfOk result (λ element. json_item levels (view value.now)
        ≡ Some (item_of element)) }
    ensures nests { IfOk result (λ element. item_depth (item_of element) ≤ levels) }
    ensures err { IfErr result (λ error. error ≡ PartError.BadForm → json_item levels (view value.now) ≡ None) }
{
    match value {
        Value::Null => Ok(Element::Null),
        Value::Bool(flag) => Ok(Element::Bool(*flag)),
        Value::Number(number) => match number.as_i64() {
            Some(whole) => Ok(Element::Int(TupleInt::from(whole))),
            None => Err(PartError::BadForm),
        },
        Value::String(_) => Ok(Element::Text(text_of(alloc, value)?)),
        Value::Array(items) => {
            let tuple = nested_tuple(alloc, items.as_slice(), levels)?;
            Ok(Element::Nested(tuple))
        }
        Value::Object(_) => object_element(alloc, value),
    }
}

// The nested tuple that a list stands for.
#[cycle(read)]
fn nested_tuple(alloc: Global, items: &[Value], levels: u8) -> Result<Tuple, PartError>
    requires { levels ≤ 16 }
    ensures ok { IfOk result (λ tuple. nested_in levels (map view items.now) ≡ Some (nested (items_from tuple))) }
    ensures nests { IfOk result (λ tuple. nesting tuple < levels) }
    ensures err { IfErr result (λ error. error ≡ PartError.BadForm → nested_in levels (map view items.now) ≡ None) }
{
    if levels == 0 {
        return Err(PartError::BadForm);
    }
    match Tuple::new(elements_of(alloc, items, levels - 1)?) {
        Ok(tuple) => Ok(tuple),
        Err(_) => unreachable!(),
    }
}

// The elements that the values of a list stand for.
#[cycle(read)]
fn elements_of(alloc: Global, items: &[Value], levels: u8) -> Result<Vec<Element>, PartError>
    requires { levels ≤ 16 }
    ensures ok { IfOk result (λ elements.
        each_in (json_item levels) (map view items.now) ≡ Some (items_in elements.items)) }
    ensures nests { IfOk result (λ elements. nesting (items_in elements.items) ≤ levels) }
    ensures err { IfErr result (λ error.
        error ≡ PartError.BadForm → each_in (json_item levels) (map view items.now) ≡ None) }
{
    let mut elements = Vec::new(alloc);
    for item in items {
        elements.push(element_of(alloc, item, levels)?)?;
    }
    Ok(elements)
}

/// The tuple that a list stands for. An element is `null`, a boolean, a whole number of 64 bits
/// with a sign, a text, a list, which nest 16 deep at most, or an object of one key: `hex` for
/// bytes, `int` for a larger whole number, `uuid` or `stamp`. `BadForm` of another value.
pub fn tuple_of(alloc: Global, value: &Value) -> Result<Tuple, PartError>
    ensures ok { IfOk result (λ tuple. json_tuple (view value.now) ≡ Some tuple) }
    ensures err { IfErr result (λ error. error ≡ PartError.BadForm → json_tuple (view value.now) ≡ None) }
{
    match Tuple::new(elements_of(alloc, list_of(value)?, MAX_NESTING)?) {
        Ok(tuple) => Ok(tuple),
        Err(_) => unreachable!(),
    }
}

// What stands for a whole number: `{"int":".."}` where it is no number of 64 bits with a sign.
fn int_value(alloc: Global, number: TupleInt) -> Result<Value, AllocError>
    ensures read { IfOk result (λ value. (levels : ℕ) → json_item levels (view value) ≡ Some (int number)) }
    ensures depth { IfOk result (λ value. depth (view value) ≤ 1) }
{
    let whole = number.get();
    match i64::try_from(whole) {
        Ok(whole) => Ok(Value::from(whole)),
        Err(_) => labelled(alloc, "int", format!(in alloc; "{whole}")?),
    }
}

// What stands for a UUID: `{"uuid":".."}`, hyphenated and in lower case.
fn uuid_value(alloc: Global, number: &Uuid) -> Result<Value, AllocError>
    ensures read { IfOk result (λ value. (levels : ℕ) → json_item levels (view value) ≡ Some (uuid number.now)) }
    ensures depth { IfOk result (λ value. depth (view value) ≤ 1) }
{
    let mut buffer = Uuid::encode_buffer();
    let text = number.hyphenated().encode_lower(&mut buffer);
    labelled(alloc, "uuid", String::from_str(alloc, text)?)
}

// Each is a byte.
fn bytes_known(bytes: &[u8])
    ensures { (i : ℕ) → slice_index bytes.now i < 256 }
{}

// What an array has.
fn stamp_known(stamp: &[u8; 12])
    ensures length { length stamp.now ≡ 12 }
    ensures bytes { (i : ℕ) → slice_index stamp.now i < 256 }
{
    bytes_known(stamp);
}

// What stands for a versionstamp: `{"stamp":".."}`.
fn stamp_value(alloc: Global, bytes: &[u8; 12]) -> Result<Value, AllocError>
    ensures read { IfOk result (λ value. (levels : ℕ) → json_item levels (view value) ≡ Some (stamp bytes.now)) }
    ensures depth { IfOk result (λ value. depth (view value) ≤ 1) }
{
    stamp_known(bytes);
    labelled(alloc, "stamp", hex::encode(alloc, bytes.as_slice())?)
}

// What stands for an element, in which tuples nest at most so many levels deep.
#[cycle(write)]
fn element_value(alloc: Global, element: &Element, levels: u8) -> Result<Value, AllocError>
    requires small { levels ≤ 16 }
    requires nests { item_depth (item_of element.now) ≤ levels }
    ensures read { IfOk result (λ value. json_item levels (view value)
        ≡ Some (item_of element.now)) }
    ensures depth { IfOk result (λ value. depth (view value) ≤ levels + 1) }
{
    match element {
        Element::Null => Ok(Value::Null),
        Element::Bytes(bytes) => hex_value(alloc, bytes.as_slice()),
        Element::Text(text) => Value::try_from_str(alloc, text.as_str()),
        Element::Nested(tuple) => nested_value(alloc, tuple, levels),
        Element::Int(number) => int_value(alloc, *number),
        Element::Bool(flag) => Ok(Value::from(*flag)),
        Element::Uuid(number) => uuid_value(alloc, number),
        Element::Stamp(bytes) => stamp_value(alloc, bytes),
    }
}

// The list that stands for a nested tuple.
#[cycle(write)]
fn nested_value(alloc: Global, tuple: &Tuple, levels: u8) -> Result<Value, AllocError>
    requires small { levels ≤ 16 }
    requires nests { nesting tuple.now < levels }
    ensures read { IfOk result (λ value. json_item levels (view value) ≡ Some (nested (items_from tuple.now))) }
    ensures depth { IfOk result (λ value. depth (view value) ≤ levels + 1) }
{
    let values = element_values(alloc, tuple.elements(), levels - 1)?;
    Ok(Value::Array(values))
}

// What stands for each element.
#[cycle(write)]
fn element_values(alloc: Global, elements: &[Element], levels: u8) -> Result<Vec<Value>, AllocError>
    requires small { levels ≤ 16 }
    requires nests { nesting (items_in elements.now) ≤ levels }
    ensures read { IfOk result (λ values.
        each_in (json_item levels) (map view values.items) ≡ Some (items_in elements.now)) }
    ensures depth { IfOk result (λ values. items_depth (items_view values.items) ≤ levels + 1) }
{
    let mut values = Vec::new(alloc);
    for element in elements {
        values.push(element_value(alloc, element, levels)?)?;
    }
    Ok(values)
}

// The list that stands for a tuple.
fn tuple_value(alloc: Global, tuple: &Tuple) -> Result<Value, AllocError>
    ensures read { IfOk result (λ value. json_tuple (view value) ≡ Some tuple.now) }
    ensures depth { IfOk result (λ value. depth (view value) ≤ 18) }
{
    let values = element_values(alloc, tuple.elements(), MAX_NESTING)?;
    Ok(Value::Array(values))
}

/// The text of a tuple, a list of JSON, which stands for this tuple and no other.
pub fn tuple_text(alloc: Global, tuple: &Tuple) -> Result<String, AllocError>
    ensures { IfOk result (λ text. tuple_of_text (string_bytes text) ≡ Some tuple.now) }
{
    tuple_value(alloc, tuple)?.to_string(alloc)
}
