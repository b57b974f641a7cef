// Cells from JSON and back. Called by `query_json` and `filter_json`, and by `script` for the cells
// of commands and races.
ghost use Rattle.std.specs.Prelude.{◌≡◌, ◌≤◌, Some, None, IfOk, IfErr};
ghost use Rattle.serde_json.specs.Data.{depth};
ghost use Rattle.serde_json.specs.View.{view};
ghost use Rattle.json_forms.specs.CellJson.{bytes_in, cell_data, cell_in, cells_in};

use crate::error::PartError;
use crate::form::{hex_of, hex_value, list_of, only_member, text_of};
use metadata::{Cell, Cells};
use serde_json::Value;
use std::alloc::{AllocError, Global};
use tuple_codec::ByteString;

// The bytes that `{"hex":".."}` stands for.
fn bytes_of(alloc: Global, value: &Value) -> Result<ByteString, PartError>
    ensures ok { IfOk result (λ bytes. bytes_in (view value.now) ≡ Some bytes) }
    ensures err { IfErr result (λ error. error ≡ PartError.BadForm → bytes_in (view value.now) ≡ None) }
{
    let bytes = hex_of(alloc, only_member(value, "hex")?)?;
    Ok(ByteString::new(bytes))
}

// The cell that a value stands for.
pub(crate) fn cell_of(alloc: Global, value: &Value) -> Result<Cell, PartError>
    ensures ok { IfOk result (λ cell. cell_in (view value.now) ≡ Some cell) }
    ensures err { IfErr result (λ error. error ≡ PartError.BadForm → cell_in (view value.now) ≡ None) }
{
    match value {
        Value::Null => Ok(Cell::Null),
        Value::Number(number) => match number.as_i64() {
            Some(whole) => Ok(Cell::Int(whole)),
            None => Err(PartError::BadForm),
        },
        Value::String(_) => Ok(Cell::Text(text_of(alloc, value)?)),
        Value::Object(_) => Ok(Cell::Bytes(bytes_of(alloc, value)?)),
        Value::Bool(_) | Value::Array(_) => Err(PartError::BadForm),
    }
}

/// The cells that a list stands for: `null`, whole numbers of 64 bits with a sign, texts, and bytes
/// as `{"hex":".."}`. `BadForm` where the value is no such list.
pub fn cells_of(alloc: Global, value: &Value) -> Result<Cells, PartError>
    ensures ok { IfOk result (λ cells. cells_in (view value.now) ≡ Some cells) }
    ensures err { IfErr result (λ error. error ≡ PartError.BadForm → cells_in (view value.now) ≡ None) }
{
    let mut cells = Vec::new(alloc);
    for item in list_of(value)? {
        cells.push(cell_of(alloc, item)?)?;
    }
    Ok(Cells::new(cells))
}

// What stands for a cell.
pub(crate) fn cell_value(alloc: Global, cell: &Cell) -> Result<Value, AllocError>
    ensures is { IfOk result (λ value. view value ≡ cell_data cell.now) }
    ensures read { IfOk result (λ value. cell_in (view value) ≡ Some cell.now) }
    ensures depth { IfOk result (λ value. depth (view value) ≤ 1) }
{
    match cell {
        Cell::Null => Ok(Value::Null),
        Cell::Int(whole) => Ok(Value::from(*whole)),
        Cell::Text(text) => Value::try_from_str(alloc, text.as_str()),
        Cell::Bytes(bytes) => hex_value(alloc, bytes.as_slice()),
    }
}
