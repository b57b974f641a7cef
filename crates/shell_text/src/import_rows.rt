// The cells that a line of a file has for the fields of a type. Called by `shell`.
use csv::StringRecord;
use hex::FromHexError;
use json_forms::{PartError, cells_of, value_of};
use json_places::{Cursor, read};
use metadata::{Cell, Cells, Field, Kind};
use near_names::nearest;
use serde_json::{Map, Value};
use std::alloc::{AllocError, AllocFailed, Global};
use tuple_codec::{ByteString, Text};

/// Why a line has no cells.
#[derive(Debug, Drop)]
pub enum RowError {
    /// What is wrong with it.
    Bad(String),
    /// There isn't memory enough.
    OutOfMemory,
}

impl From<AllocError> for RowError {
    fn from(_error: AllocError) -> RowError {
        RowError::OutOfMemory
    }
}

impl<T: Drop> From<AllocFailed<T>> for RowError {
    fn from(_error: AllocFailed<T>) -> RowError {
        RowError::OutOfMemory
    }
}

impl RowError {
    // The error of this text.
    pub(crate) fn told(reason: Result<String, AllocError>) -> RowError {
        match reason {
            Ok(reason) => RowError::Bad(reason),
            Err(AllocError) => RowError::OutOfMemory,
        }
    }

    // The same of a text that is no value's.
    pub(crate) fn said(alloc: Global, reason: &str) -> RowError {
        RowError::told(String::from_str(alloc, reason))
    }
}

/// The place of the field of this name.
pub(crate) fn place_of(alloc: Global, fields: &[Field], name: &str) -> Result<usize, RowError> {
    let found = fields.iter().position(|field| field.name.as_str() == name);
    if let Some(place) = found {
        return Ok(place);
    }
    let mut names = Vec::new(alloc);
    for field in fields {
        names.push(field.name.as_str())?;
    }
    match nearest(alloc, name, names.as_slice())? {
        Some(near) => Err(RowError::told(format!(in alloc;
            "no field is called {name:?}; did you mean {near:?}?"
        ))),
        None => Err(RowError::told(format!(in alloc; "no field is called {name:?}"))),
    }
}

// What is wrong with a line that isn't JSON.
fn no_json(alloc: Global, line: &[u8]) -> RowError {
    match read(alloc, line) {
        Ok(reading) => match reading.flaws.first() {
            Some(flaw) => {
                let column = Cursor::new(line).place_of(flaw.at).column;
                let kind = flaw.kind;
                RowError::told(format!(in alloc; "column {column}: {kind}"))
            }
            None => RowError::said(alloc, "this line is too long"),
        },
        Err(AllocError) => RowError::OutOfMemory,
    }
}

// The list of what an object has at the names of fields, null where it has nothing.
fn list_of_object(
    alloc: Global,
    fields: &[Field],
    object: &Map<String, Value>,
) -> Result<Value, RowError> {
    for (name, _) in object {
        place_of(alloc, fields, name.as_str())?;
    }
    let mut values = Vec::new(alloc);
    for field in fields {
        match object.get(field.name.as_str()) {
            Some(value) => values.push(value.clone()?)?,
            None => values.push(Value::Null)?,
        }
    }
    Ok(Value::Array(values))
}

// The cells that a list of JSON stands for.
fn cells_in(alloc: Global, list: &Value) -> Result<Cells, RowError> {
    match cells_of(alloc, list) {
        Ok(cells) => Ok(cells),
        Err(PartError::OutOfMemory) => Err(RowError::OutOfMemory),
        Err(PartError::BadForm) => Err(RowError::said(
            alloc,
            "a cell is a whole number, a text, {\"hex\":\"..\"} or null",
        )),
    }
}

/// The cells that a line of JSON stands for: a list of them, or an object with them at the names of
/// their fields.
pub fn cells_of_line(alloc: Global, fields: &[Field], line: &[u8]) -> Result<Cells, RowError> {
    let value = match value_of(alloc, line) {
        Ok(value) => value,
        Err(PartError::OutOfMemory) => return Err(RowError::OutOfMemory),
        Err(PartError::BadForm) => return Err(no_json(alloc, line)),
    };
    match &value {
        Value::Array(_) => cells_in(alloc, &value),
        Value::Object(object) => cells_in(alloc, &list_of_object(alloc, fields, object)?),
        _ => Err(RowError::said(
            alloc,
            "a line is a list of cells, or an object with them at the names of fields",
        )),
    }
}

// The cell of a kind that a text of a table is: null where there is nothing.
fn cell_of_text(alloc: Global, field: &Field, text: &str) -> Result<Cell, RowError> {
    let name = field.name.as_str();
    match field.kind {
        _ if text.is_empty() => Ok(Cell::Null),
        Kind::Text => Ok(Cell::Text(Text::from_str(alloc, text)?)),
        Kind::Int => match text.parse::<i64>() {
            Ok(number) => Ok(Cell::Int(number)),
            Err(_) => Err(RowError::told(format!(in alloc;
                "{name} is a whole number of 64 bits, not {text:?}"
            ))),
        },
        Kind::Bytes => match hex::decode(alloc, text) {
            Ok(bytes) => Ok(Cell::Bytes(ByteString::new(bytes))),
            Err(FromHexError::OutOfMemory) => Err(RowError::OutOfMemory),
            Err(_) => Err(RowError::told(format!(in alloc;
                "{name} is of pairs of hexadecimal digits, not {text:?}"
            ))),
        },
    }
}

/// The places of the fields that the columns of a table are.
pub fn places_of(
    alloc: Global,
    fields: &[Field],
    names: &StringRecord,
) -> Result<Vec<usize>, RowError> {
    let mut places = Vec::new(alloc);
    for name in names {
        let place = place_of(alloc, fields, name)?;
        if places.as_slice().contains(&place) {
            return Err(RowError::told(format!(in alloc; "the field {name:?} stands twice")));
        }
        places.push(place)?;
    }
    Ok(places)
}

/// The cells that a row of a table has for fields, by the places that its columns are; null where
/// it has none.
pub fn cells_of_row(
    alloc: Global,
    fields: &[Field],
    places: &[usize],
    row: &StringRecord,
) -> Result<Cells, RowError> {
    let mut cells = Vec::new(alloc);
    for (place, field) in fields.iter().enumerate() {
        let column = places.iter().position(|it| *it == place);
        let text = column.and_then(|column| row.get(column)).unwrap_or("");
        cells.push(cell_of_text(alloc, field, text)?)?;
    }
    Ok(Cells::new(cells))
}
