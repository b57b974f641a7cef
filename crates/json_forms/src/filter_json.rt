// Filters and cells as compact JSON. Called by `explain`.
ghost use Rattle.std.specs.Prelude.{◌≡◌, ◌∷◌, [], IfOk, codes, map, string_bytes};
ghost use Rattle.serde_json.specs.Data.{array, item, no_items, string};
ghost use Rattle.serde_json.specs.View.{items_view, view};
ghost use Rattle.query.specs.Filter.{filters_of};
ghost use Rattle.query.specs.View.{filter_of};
ghost use Rattle.json_forms.specs.CellJson.{IsTextOfCell, cell_data};
ghost use Rattle.json_forms.specs.QueryJson.{IsTextOfFilter, filter_data, filters_data};
ghost use Rattle.json_forms.specs.QueryJson.{operator_name, worded};

use crate::cell_json::cell_value;
use metadata::Cell;
use query::{Filter, Operator};
use serde_json::Value;
use std::alloc::{AllocError, Global};
use tuple_codec::Text;

// The name of an operator.
fn name_of(operator: Operator) -> &'static str
    ensures { result.now ≡ operator_name operator }
{
    match operator {
        Operator::Equal => "=",
        Operator::NotEqual => "!=",
        Operator::Less => "<",
        Operator::AtMost => "<=",
        Operator::Greater => ">",
        Operator::AtLeast => ">=",
    }
}

// The beginning of a list: a word.
fn begun(alloc: Global, word: &str) -> Result<Vec<Value>, AllocError>
    ensures { IfOk result (λ items. map view items.items ≡ string word.now ∷ []) }
{
    let mut items = Vec::new(alloc);
    items.push(Value::try_from_str(alloc, word)?)?;
    Ok(items)
}

// The list of a word and a field.
fn field_value(alloc: Global, word: &str, field: &Text) -> Result<Value, AllocError>
    ensures { IfOk result (λ value. view value ≡ worded word.now (item (string field.now) no_items)) }
{
    let mut items = begun(alloc, word)?;
    items.push(Value::try_from_str(alloc, field.as_str())?)?;
    Ok(Value::Array(items))
}

// The list of a word, a field and a cell.
fn comparison_value(
    alloc: Global,
    word: &str,
    field: &Text,
    cell: &Cell,
) -> Result<Value, AllocError>
    ensures { IfOk result (λ value. view value
        ≡ worded word.now (item (string field.now) (item (cell_data cell.now) no_items))) }
{
    let mut items = begun(alloc, word)?;
    items.push(Value::try_from_str(alloc, field.as_str())?)?;
    items.push(cell_value(alloc, cell)?)?;
    Ok(Value::Array(items))
}

// What stands for a filter.
#[cycle(writing)]
fn filter_value(alloc: Global, filter: &Filter) -> Result<Value, AllocError>
    ensures { IfOk result (λ value. view value ≡ filter_data (filter_of filter.now)) }
{
    match filter {
        Filter::Compare {
            field,
            operator,
            value,
        } => comparison_value(alloc, name_of(*operator), field, value),
        Filter::IsNull { field } => field_value(alloc, "null", field),
        Filter::StartsWith { field, value } => comparison_value(alloc, "starts", field, value),
        Filter::And(parts) => filters_value(alloc, "and", parts.as_slice()),
        Filter::Or(parts) => filters_value(alloc, "or", parts.as_slice()),
        Filter::Not(part) => opposite_value(alloc, part),
    }
}

// What stands for the opposite of a filter.
#[cycle(writing)]
fn opposite_value(alloc: Global, part: &Filter) -> Result<Value, AllocError>
    ensures { IfOk result (λ value. view value
        ≡ worded (codes "not") (item (filter_data (filter_of part.now)) no_items)) }
{
    let mut items = begun(alloc, "not")?;
    items.push(filter_value(alloc, part)?)?;
    Ok(Value::Array(items))
}

// The list of a word and of what stands for filters.
#[cycle(writing)]
fn filters_value(alloc: Global, word: &str, parts: &[Filter]) -> Result<Value, AllocError>
    ensures { IfOk result (λ value. view value
        ≡ worded word.now (filters_data (filters_of (map filter_of parts.now)))) }
{
    let mut items = begun(alloc, word)?;
    for part in parts {
        items.push(filter_value(alloc, part)?)?;
    }
    Ok(Value::Array(items))
}

/// The compact JSON of a filter, made anew from it: `["=","a",5]`.
pub fn filter_text(alloc: Global, filter: &Filter) -> Result<String, AllocError>
    ensures { IfOk result (λ text. IsTextOfFilter (string_bytes text) (filter_of filter.now)) }
{
    filter_value(alloc, filter)?.to_string(alloc)
}

/// The compact JSON of a cell: `null`, a whole number, a text, or bytes as `{"hex":".."}`.
pub fn cell_text(alloc: Global, cell: &Cell) -> Result<String, AllocError>
    ensures { IfOk result (λ text. IsTextOfCell (string_bytes text) cell.now) }
{
    cell_value(alloc, cell)?.to_string(alloc)
}
