// Predicates on one field. Called by `walk`.
ghost use Rattle.std.specs.Prelude.{◌≡◌, unwrap_or};
ghost use Rattle.std.specs.Option.{option_copied};
ghost use Rattle.metadata.specs.declared.cells.Cell.TheVariants.{Null};
ghost use Rattle.query.specs.Fields.{cell_named};
ghost use Rattle.query.specs.Truth.{comparison, is_so, known, null_test, prefix_test};

use crate::filter::{Operator, Truth};
use metadata::{Cell, Record};
use std::cmp::Ordering;
use tuple_codec::Text;

// The record's cell in the field of this name. None where its type has none, or the record ends before it.
fn cell_named<'a>(row: &'a Record, name: &Text) -> Option<&'a Cell>
    ensures { unwrap_or (option_copied result) Null ≡ cell_named row.now name.now }
{
    match row.definition().fields.place_of(name) {
        Some(place) => row.cells().as_slice().get(place),
        None => None,
    }
}

// A test's answer, which is known.
fn known(test: bool) -> Truth
    ensures { result ≡ known test }
{
    if test { Truth::True } else { Truth::False }
}

// Whether two values so ordered are so compared.
fn is_so(operator: Operator, order: Ordering) -> bool
    ensures { result ≡ is_so operator order }
{
    match operator {
        Operator::Equal => order.is_eq(),
        Operator::NotEqual => order.is_ne(),
        Operator::Less => order.is_lt(),
        Operator::AtMost => order.is_le(),
        Operator::Greater => order.is_gt(),
        Operator::AtLeast => order.is_ge(),
    }
}

// A cell compared with a value.
fn comparison(operator: Operator, cell: &Cell, value: &Cell) -> Truth
    ensures { result ≡ comparison operator cell.now value.now }
{
    if cell.is_null() {
        return Truth::Unknown;
    }
    known(is_so(operator, cell.compare(value)))
}

// Whether a cell begins with a prefix of its kind.
fn prefix_test(cell: &Cell, part: &Cell) -> Truth
    ensures { result ≡ prefix_test cell.now part.now }
{
    match (cell, part) {
        (Cell::Null, _) => Truth::Unknown,
        (Cell::Text(text), Cell::Text(part)) => known(
            text.as_str()
                .as_bytes()
                .starts_with(part.as_str().as_bytes()),
        ),
        (Cell::Bytes(bytes), Cell::Bytes(part)) => known(
            bytes.as_slice().starts_with(part.as_slice()),
        ),
        _ => Truth::False,
    }
}

// A field of a record compared with a value.
pub(crate) fn compare_field(row: &Record, field: &Text, operator: Operator, value: &Cell) -> Truth
    ensures { result ≡ comparison operator (cell_named row.now field.now) value.now }
{
    match cell_named(row, field) {
        Some(cell) => comparison(operator, cell, value),
        None => Truth::Unknown,
    }
}

// Whether a field of a record is null.
pub(crate) fn is_null_field(row: &Record, field: &Text) -> Truth
    ensures { result ≡ null_test (cell_named row.now field.now) }
{
    match cell_named(row, field) {
        Some(cell) => known(cell.is_null()),
        None => Truth::True,
    }
}

// Whether a field of a record begins with a prefix.
pub(crate) fn starts_field(row: &Record, field: &Text, part: &Cell) -> Truth
    ensures { result ≡ prefix_test (cell_named row.now field.now) part.now }
{
    match cell_named(row, field) {
        Some(cell) => prefix_test(cell, part),
        None => Truth::Unknown,
    }
}
