// What readers of JSON share: lists, texts, numbers, and the members of objects. Called by the
// readers here, by `script` and by `explain`.
ghost use Rattle.std.specs.Prelude.{◌≡◌, ◌≤◌, ◌↔◌, ℕ, Some, None, IsTrue, IfOk, IfErr};
ghost use Rattle.std.specs.Prelude.{map, string_bytes};
ghost use Rattle.serde_json.specs.Data.{depth};
ghost use Rattle.serde_json.specs.Find.{as_str, get};
ghost use Rattle.serde_json.specs.View.{view, members_view};
ghost use Rattle.tuple_codec.specs.Item.{bytes};
ghost use Rattle.json_forms.specs.CellJson.{cell_data, cell_in};
ghost use Rattle.json_forms.specs.Json.{are_among, has_only, is_among, hex_in, key_count};
ghost use Rattle.json_forms.specs.Json.{labelled, list_in, number_in, only_member};
ghost use Rattle.json_forms.specs.TupleJson.{json_item};

use crate::error::PartError;
use hex::FromHexError;
use metadata::Cell;
use serde_json::{Map, Value, put};
use std::alloc::{AllocError, Global};
use tuple_codec::Text;

/// The items of a list, or `BadForm` of another value.
pub fn list_of(value: &Value) -> Result<&[Value], PartError>
    ensures ok { IfOk result (λ items. list_in (view value.now) ≡ Some (map view items.now)) }
    ensures err { IfErr result (λ error. (error ≡ PartError.BadForm) × (list_in (view value.now) ≡ None)) }
{
    match value.as_array() {
        Some(items) => Ok(items.as_slice()),
        None => Err(PartError::BadForm),
    }
}

/// The characters of a text, or `BadForm` of another value.
pub fn str_of(value: &Value) -> Result<&str, PartError>
    ensures ok { IfOk result (λ text. as_str (view value.now) ≡ Some text.now) }
    ensures err { IfErr result (λ error. (error ≡ PartError.BadForm) × (as_str (view value.now) ≡ None)) }
{
    value.as_str().ok_or(PartError::BadForm)
}

/// A text, or `BadForm` of another value.
pub fn text_of(alloc: Global, value: &Value) -> Result<Text, PartError>
    ensures ok { IfOk result (λ text. as_str (view value.now) ≡ Some text) }
    ensures err { IfErr result (λ error. error ≡ PartError.BadForm → as_str (view value.now) ≡ None) }
{
    let text = String::from_str(alloc, str_of(value)?)?;
    Ok(Text::new(text))
}

// The bytes that a text writes in pairs of hexadecimal digits.
pub(crate) fn hex_of(alloc: Global, value: &Value) -> Result<Vec<u8>, PartError>
    ensures ok { IfOk result (λ bytes. hex_in (view value.now) ≡ Some bytes.items) }
    ensures err { IfErr result (λ error. error ≡ PartError.BadForm → hex_in (view value.now) ≡ None) }
{
    match hex::decode(alloc, str_of(value)?) {
        Ok(bytes) => Ok(bytes),
        Err(FromHexError::OutOfMemory) => Err(PartError::OutOfMemory),
        Err(_) => Err(PartError::BadForm),
    }
}

/// A whole number of 64 bits without sign, or `BadForm` of another value.
pub fn number_of(value: &Value) -> Result<u64, PartError>
    ensures ok { IfOk result (λ number. number_in (view value.now) ≡ Some number) }
    ensures err { IfErr result (λ error. (error ≡ PartError.BadForm) × (number_in (view value.now) ≡ None)) }
{
    value.as_u64().ok_or(PartError::BadForm)
}

// Whether a value is an object of this many keys.
fn has_keys(value: &Value, keys: usize) -> bool
    ensures { IsTrue result ↔ (key_count (view value.now) ≡ Some keys) }
{
    match value.as_object() {
        Some(members) => members.len() == keys,
        None => false,
    }
}

// Whether a text is one of these.
fn is_among(texts: &[&str], text: &str) -> bool
    ensures { result ≡ is_among (map (λ one. one.now) texts.now) text.now }
{
    texts.contains(&text)
}

// Whether members have no key but these.
fn are_among(members: &Map<String, Value>, keys: &[&str]) -> bool
    ensures { result ≡ are_among (map (λ key. key.now) keys.now) (members_view members.now.entries) }
{
    for key in members.keys() {
        if !is_among(&*keys, key.as_str()) {
            return false;
        }
    }
    true
}

/// Whether a value is an object that has no key but these.
pub fn has_only(value: &Value, keys: &[&str]) -> bool
    ensures { result ≡ has_only (map (λ key. key.now) keys.now) (view value.now) }
{
    match value.as_object() {
        Some(members) => are_among(members, keys),
        None => false,
    }
}

/// What stands at a key of an object, or `BadForm` where nothing does or the value is no object.
pub fn member<'a>(object: &'a Value, key: &str) -> Result<&'a Value, PartError>
    ensures ok { IfOk result (λ found. get key.now (view object.entry.now) ≡ Some (view found.now)) }
    ensures err { IfErr result (λ error. (error ≡ PartError.BadForm) × (get key.now (view object.entry.now) ≡ None)) }
{
    object.get(key).ok_or(PartError::BadForm)
}

/// What stands at the key of an object that has no other, or `BadForm` of another value.
pub fn only_member<'a>(object: &'a Value, key: &str) -> Result<&'a Value, PartError>
    ensures ok { IfOk result (λ found. only_member key.now (view object.entry.now) ≡ Some (view found.now)) }
    ensures err { IfErr result (λ error. (error ≡ PartError.BadForm)
        × (only_member key.now (view object.entry.now) ≡ None)) }
{
    if has_keys(object, 1) {
        member(object, key)
    } else {
        Err(PartError::BadForm)
    }
}

// An object of one key, at which a text stands.
pub(crate) fn labelled(alloc: Global, key: &str, text: String) -> Result<Value, AllocError>
    ensures { IfOk result (λ value. view value ≡ labelled key.now (string_bytes text)) }
{
    let mut members = Map::new(alloc);
    put(&mut members, alloc, key, Value::String(text))?;
    Ok(Value::Object(members))
}

// What stands for bytes, as a cell or as an element of a tuple: `{"hex":".."}`.
pub(crate) fn hex_value(alloc: Global, content: &[u8]) -> Result<Value, AllocError>
    ensures is { IfOk result (λ value. view value ≡ cell_data (Cell.Bytes content.now)) }
    ensures read { IfOk result (λ value. cell_in (view value) ≡ Some (Cell.Bytes content.now)) }
    ensures item { IfOk result (λ value.
        (levels : ℕ) → json_item levels (view value) ≡ Some (bytes content.now)) }
    ensures depth { IfOk result (λ value. depth (view value) ≤ 1) }
{
    labelled(alloc, "hex", hex::encode(alloc, content)?)
}
