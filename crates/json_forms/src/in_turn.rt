// Values from the tokens of a text, one after another. Called by `script`.
ghost use Rattle.std.specs.Prelude.{◌≡◌, ◌<◌, ◌∷◌, ◌==◌, length, option_map, slice_index};
ghost use Rattle.std.specs.Prelude.{true, false, None, Some, IfErr, IfOk, IsTrue, OnOk};
ghost use Rattle.json.specs.Json.{items as items_read, members as members_read, read_key};
ghost use Rattle.json.specs.Json.{value as json_value};
ghost use Rattle.json.specs.Reads.{token_of};
ghost use Rattle.serde_json.specs.Data.{no_members, number, unsigned};
ghost use Rattle.serde_json.specs.Find.{of_integer};
ghost use Rattle.serde_json.specs.Read.{converted, number_from, number_of, of_items, of_members};
ghost use Rattle.serde_json.specs.View.{items_view, members_view, view};
ghost use Rattle.serde_json.specs.Find.{as_str};
ghost use Rattle.json_forms.specs.CellJson.{cell_in, cells_in};
ghost use Rattle.json_forms.specs.InTurn.{IsNextOf, IsRestOfList, value_read};

use crate::cell_json::cell_of;
use crate::error::PartError;
use fast_float::Numeral;
use json::{Reader, Token};
use metadata::{Cell, Cells};
use serde_json::{Map, Value};
use std::alloc::Global;
use tuple_codec::Text;

/// The next token of a text, `BadForm` at its end.
pub fn next_token<'a>(reader: &mut Reader<'a>) -> Result<Token<'a>, PartError>
    ensures { IfOk result (λ token. reader.old ≡ token_of token ∷ reader.new) }
{
    reader.next().ok_or(PartError::BadForm)
}

// Whether a number's text begins with a minus sign.
fn has_minus(bytes: &[u8]) -> bool
    ensures value { result ≡ (slice_index bytes.now 0 == 45) }
    ensures len { IsTrue result → 0 < length bytes.now }
{
    !bytes.is_empty() && bytes[0] == b'-'
}

// The whole number of 64 bits that a numeral without sign is.
fn unsigned_of(numeral: &Numeral<'_>) -> Result<u64, PartError>
    ensures { IfOk result (λ whole. number_from false numeral.now ≡ Some (unsigned whole)) }
{
    numeral.to_u64().ok_or(PartError::BadForm)
}

// The whole number of 64 bits below zero that a numeral behind a minus sign is.
fn negative_of(numeral: &Numeral<'_>) -> Result<i64, PartError>
    ensures { IfOk result (λ whole. number_from true numeral.now ≡ Some (of_integer whole)) }
{
    match numeral.to_i64(true) {
        Some(whole) if whole < 0 => Ok(whole),
        _ => Err(PartError::BadForm),
    }
}

/// The whole number of 64 bits without sign that a number's text writes.
pub fn whole_of(text: &str) -> Result<u64, PartError>
    ensures { IfOk result (λ whole. number_of text.now ≡ Some (unsigned whole)) }
{
    let bytes = text.as_bytes();
    if has_minus(bytes) {
        return Err(PartError::BadForm);
    }
    unsigned_of(&Numeral::scan(bytes))
}

// The whole number of 64 bits below zero that a number's text writes.
fn below_zero_of(text: &str) -> Result<i64, PartError>
    ensures { IfOk result (λ whole. number_of text.now ≡ Some (of_integer whole)) }
{
    let bytes = text.as_bytes();
    if !has_minus(bytes) {
        return Err(PartError::BadForm);
    }
    negative_of(&Numeral::scan(&bytes[1..]))
}

// The value of a number's text, where it is a whole number of 64 bits.
fn number_value(text: &str) -> Result<Value, PartError>
    ensures { IfOk result (λ value. option_map number (number_of text.now) ≡ Some (view value)) }
{
    match whole_of(text) {
        Ok(whole) => Ok(Value::from(whole)),
        Err(_) => Ok(Value::from(below_zero_of(text)?)),
    }
}

/// The next value of a text, in which lists and objects nest so deep at most and each number is a
/// whole one of 64 bits. `BadForm` where another one stands there or none does.
#[cycle(reading)]
pub fn next_value(alloc: Global, reader: &mut Reader<'_>, depth: usize) -> Result<Value, PartError>
    ensures ok { IfOk result (λ value.
        value_read depth reader.old ≡ Some (view value, reader.new)) }
    ensures shorter { OnOk result (length reader.new < length reader.old) }
{
    match next_token(reader)? {
        Token::String(text) => Ok(Value::String(String::from_str(alloc, text)?)),
        Token::Number(text) => number_value(text),
        Token::Bool(flag) => Ok(Value::Bool(flag)),
        Token::Null => Ok(Value::Null),
        Token::BeginArray if depth > 0 => Ok(Value::Array(next_items(alloc, reader, depth - 1)?)),
        Token::BeginObject if depth > 0 => {
            Ok(Value::Object(next_members(alloc, reader, depth - 1)?))
        }
        _ => Err(PartError::BadForm),
    }
}

// The values up to the end of their list.
#[cycle(reading)]
fn next_items(alloc: Global, reader: &mut Reader<'_>, depth: usize) -> Result<Vec<Value>, PartError>
    ensures ok { IfOk result (λ found.
        converted of_items (items_read (json_value depth) (length reader.old) reader.old)
        ≡ Some (items_view found.items, reader.new)) }
    ensures shorter { OnOk result (length reader.new < length reader.old) }
{
    let mut found = Vec::new(alloc);
    'items: while !reader.take_end_array() {
        let item = next_value(alloc, reader, depth)?;
        found.push(item)?;
    }
    Ok(found)
}

// The members up to the end of their object.
#[cycle(reading)]
fn next_members(
    alloc: Global,
    reader: &mut Reader<'_>,
    depth: usize,
) -> Result<Map<String, Value>, PartError>
    ensures ok { IfOk result (λ found. converted (λ ms. of_members ms no_members)
        (members_read (json_value depth) (length reader.old) reader.old)
        ≡ Some (members_view found.entries, reader.new)) }
    ensures shorter { OnOk result (length reader.new < length reader.old) }
{
    let mut found = Map::new(alloc);
    'members: while let Some(name) = next_key(reader)? {
        let key = String::from_str(alloc, name)?;
        let member = next_value(alloc, reader, depth)?;
        drop(found.insert(key, member)?);
    }
    Ok(found)
}

// The next key, none at the end of the object.
fn next_key<'a>(reader: &mut Reader<'a>) -> Result<Option<&'a str>, PartError>
    ensures { IfOk result (λ key.
        read_key reader.old ≡ Some (option_map (λ name. name.now) key, reader.new)) }
{
    reader.next_key().map_err(|_| PartError::BadForm)
}

// The cell that a value stands for, whose text it takes over.
fn cell_from(alloc: Global, value: Value) -> Result<Cell, PartError>
    ensures { IfOk result (λ cell. cell_in (view value) ≡ Some cell) }
{
    match value {
        Value::String(text) => Ok(Cell::Text(Text::new(text))),
        other => cell_of(alloc, &other),
    }
}

// The cells up to the end of their list.
fn rest_of_cells(alloc: Global, reader: &mut Reader<'_>, depth: usize) -> Result<Cells, PartError>
    ensures ok { IfOk result (λ cells. IsRestOfList cell_in depth reader.old cells reader.new) }
    ensures shorter { OnOk result (length reader.new < length reader.old) }
{
    let mut cells = Vec::new(alloc);
    'cells: while !reader.take_end_array() {
        let value = next_value(alloc, reader, depth)?;
        cells.push(cell_from(alloc, value)?)?;
    }
    Ok(Cells::new(cells))
}

/// The cells that the next value of a text stands for, where that is a list of them in which lists
/// and objects nest so deep at most.
pub fn next_cells(alloc: Global, reader: &mut Reader<'_>, depth: usize) -> Result<Cells, PartError>
    ensures ok { IfOk result (λ cells. IsNextOf cells_in depth reader.old cells reader.new) }
    ensures shorter { OnOk result (length reader.new < length reader.old) }
{
    match next_token(reader)? {
        Token::BeginArray if depth > 0 => rest_of_cells(alloc, reader, depth - 1),
        _ => Err(PartError::BadForm),
    }
}

/// The text that a value is, which is taken out of it.
pub fn text_from(value: Value) -> Result<Text, PartError>
    ensures ok { IfOk result (λ text. as_str (view value) ≡ Some text) }
    ensures err { IfErr result (λ error.
        (error ≡ PartError.BadForm) × (as_str (view value) ≡ None)) }
{
    match value {
        Value::String(text) => Ok(Text::new(text)),
        _ => Err(PartError::BadForm),
    }
}
