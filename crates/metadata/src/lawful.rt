// Whether the types and indexes that are read from bytes are those of a schema. Called by `written`;
// `group` finds a type by its number here.
ghost use Rattle.std.specs.Prelude.{◌≡◌, ◌&&◌, length, map, nat_eq, nat_lt, true};
ghost use Rattle.std.specs.List.{list_all};
ghost use Rattle.std.specs.Option.{option_copied, option_map_or};
ghost use Rattle.metadata.specs.IndexChange.{is_int};
ghost use Rattle.metadata.specs.Lawful.{has_good_indexes, is_grown, is_index, is_index_over, is_rising_upto};
ghost use Rattle.metadata.specs.Schema.{kind_at, type_at};

use crate::definition::{Field, TypeDefinition};
use crate::index::IndexDefinition;
use crate::index_change::{MAX_COLUMNS, MAX_INDEX_NUMBER, MAX_INDEXES, is_int, is_shaped};
use crate::names::{has_twice, is_name};

// Whether the numbers of the indexes rise from above one up to another.
fn is_rising_upto(low: u64, high: u64, indexes: &[IndexDefinition]) -> bool
    ensures { result ≡ is_rising_upto low high (map (λ index. index.number) indexes.now) }
{
    let mut last = low;
    let mut rest = indexes;
    while let Some((first, others)) = rest.split_first() {
        if first.number <= last {
            return false;
        }
        last = first.number;
        rest = others;
    }
    last <= high
}

// Whether each place is one of so many.
fn are_places(places: &[usize], count: usize) -> bool
    ensures { result ≡ list_all (λ place. nat_lt place count) places.now }
{
    places.iter().all(|place| *place < count)
}

// Whether the type may have grown: its first fields are among its fields, and its key's among those.
fn is_grown(definition: &TypeDefinition) -> bool
    ensures { result ≡ is_grown definition.now }
{
    definition.first_fields <= definition.fields.as_slice().len()
        && are_places(definition.key.as_slice(), definition.first_fields)
}

// Whether each of the types may have grown so.
pub(crate) fn are_grown(types: &[TypeDefinition]) -> bool
    ensures { result ≡ list_all is_grown types.now }
{
    types.iter().all(is_grown)
}

// Whether there is no summed field, or one of whole numbers.
fn is_summable(fields: &[Field], summed: Option<usize>) -> bool
    ensures { result ≡ option_map_or (λ place. is_int (kind_at fields.now place)) summed true }
{
    match summed {
        Some(place) => is_int(fields, place),
        None => true,
    }
}

// Whether the definition is that of an index over the type.
fn is_index_over(index: &IndexDefinition, definition: &TypeDefinition) -> bool
    ensures { result ≡ is_index_over index.now definition.now }
{
    let fields = definition.fields.as_slice();
    let columns = index.columns.as_slice();
    are_places(columns, fields.len()) && !has_twice(columns) && is_summable(fields, index.summed)
}

// The type with this number.
pub(crate) fn type_at(types: &[TypeDefinition], number: u64) -> Option<&TypeDefinition>
    ensures { option_copied result ≡ type_at types.now number }
{
    types.iter().find(|definition| definition.number == number)
}

// Whether the definition is that of an index over one of the types.
fn is_index(types: &[TypeDefinition], index: &IndexDefinition) -> bool
    ensures { result ≡ is_index types.now index.now }
{
    let columns = index.columns.as_slice().len();
    if !is_name(&index.name) || columns > MAX_COLUMNS {
        return false;
    }
    let is_summed = index.summed.is_some();
    if !is_shaped(index.kind, columns, is_summed, index.clear_when_zero) {
        return false;
    }
    match type_at(types, index.type_number) {
        Some(definition) => is_index_over(index, definition),
        None => false,
    }
}

// Whether each definition is that of an index over one of the types.
fn are_indexes(types: &[TypeDefinition], indexes: &[IndexDefinition]) -> bool
    ensures { result ≡ list_all (is_index types.now) indexes.now }
{
    indexes.iter().all(|index| is_index(types, index))
}

// Whether these are indexes of a schema of these types, up to the last number given, such as calls could have made.
pub(crate) fn has_good_indexes(
    types: &[TypeDefinition],
    last_index: u64,
    indexes: &[IndexDefinition],
) -> bool
    ensures { result ≡ has_good_indexes (record { types = types.now; last_index = last_index; indexes = indexes.now }) }
{
    last_index <= MAX_INDEX_NUMBER
        && is_rising_upto(0, last_index, indexes)
        && indexes.len() <= MAX_INDEXES
        && !has_twice(indexes)
        && are_indexes(types, indexes)
}
