// The indexes that a schema's tuple tells. Called by `written`.
ghost use Rattle.std.specs.Prelude.{◌≡◌, false, unwrap_or, IfOk};
ghost use Rattle.std.specs.Option.{option_map};
ghost use Rattle.tuple_codec.specs.Elements.{item_in, items_in};
ghost use Rattle.metadata.specs.Reading.{all_read, index_in, index_kind_of, index_of, indexes_in};
ghost use Rattle.metadata.specs.Reading.{item_number, places_in, read_at, small_of, summed_of, truth_of};

use crate::definition::Places;
use crate::index::{IndexDefinition, IndexKind};
use crate::reading::{small_at, small_of, text_at, tuple_at, tuple_of};
use std::alloc::{AllocError, Global};
use tuple_codec::{Element, Tuple};

// The number of 64 bits that an element is.
fn number_of(element: &Element) -> Option<u64>
    ensures { result ≡ item_number (item_in element.now) }
{
    match element {
        Element::Int(value) => u64::try_from(value.get()).ok(),
        _ => None,
    }
}

// The number of 64 bits at a place of a tuple.
pub(crate) fn number_at(tuple: &Tuple, place: usize) -> Option<u64>
    ensures { result ≡ read_at item_number tuple.now place }
{
    number_of(tuple.elements().get(place)?)
}

// The kind of an index of a number.
fn index_kind_of(number: u8) -> Option<IndexKind>
    ensures { result ≡ index_kind_of number }
{
    match number {
        1 => Some(IndexKind::Value),
        2 => Some(IndexKind::Count),
        3 => Some(IndexKind::Sum),
        _ => None,
    }
}

// The place of a summed field, or that there is none, which an element is.
fn summed_of(element: &Element) -> Option<Option<usize>>
    ensures { result ≡ summed_of (item_in element.now) }
{
    match element {
        Element::Null => Some(None),
        _ => {
            let place = small_of(element)?;
            Some(Some(usize::from(place)))
        }
    }
}

// The place of a summed field, or that there is none, at a place of a tuple.
fn summed_at(tuple: &Tuple, place: usize) -> Option<Option<usize>>
    ensures { result ≡ read_at summed_of tuple.now place }
{
    summed_of(tuple.elements().get(place)?)
}

// The truth value that an element is.
fn truth_of(element: &Element) -> Option<bool>
    ensures { result ≡ truth_of (item_in element.now) }
{
    match element {
        Element::Bool(value) => Some(*value),
        _ => None,
    }
}

// The truth value at a place of a tuple, false where none is there.
fn truth_at(tuple: &Tuple, place: usize) -> bool
    ensures { result ≡ unwrap_or (read_at truth_of tuple.now place) false }
{
    match tuple.elements().get(place) {
        Some(element) => truth_of(element).unwrap_or(false),
        None => false,
    }
}

// The places that elements are.
fn places_of(alloc: Global, elements: &[Element]) -> Result<Option<Places>, AllocError>
    ensures { IfOk result (λ places. places ≡ all_read small_of (items_in elements.now)) }
{
    let mut places = Vec::with_capacity(alloc, elements.len())?;
    for element in elements {
        let Some(place) = small_of(element) else {
            return Ok(None);
        };
        places.push(usize::from(place))?;
    }
    Ok(Some(Places::new(places)))
}

// The places of the tuple at a place of a tuple.
fn places_in(alloc: Global, parts: &Tuple, at: usize) -> Result<Option<Places>, AllocError>
    ensures { IfOk result (λ places. places ≡ places_in parts.now at) }
{
    match tuple_at(parts, at) {
        Some(places) => places_of(alloc, places.elements()),
        None => Ok(None),
    }
}

// The index that a tuple is.
fn index_in(alloc: Global, parts: &Tuple) -> Result<Option<IndexDefinition>, AllocError>
    ensures { IfOk result (λ index. index ≡ index_in parts.now) }
{
    let Some(number) = number_at(parts, 0) else {
        return Ok(None);
    };
    let Some(name) = text_at(parts, 1) else {
        return Ok(None);
    };
    let Some(kind) = small_at(parts, 2).and_then(index_kind_of) else {
        return Ok(None);
    };
    let Some(type_number) = number_at(parts, 3) else {
        return Ok(None);
    };
    let Some(columns) = places_in(alloc, parts, 4)? else {
        return Ok(None);
    };
    let Some(summed) = summed_at(parts, 5) else {
        return Ok(None);
    };
    let name = name.copy()?;
    Ok(Some(IndexDefinition {
        number,
        name,
        kind,
        type_number,
        columns,
        summed,
        clear_when_zero: truth_at(parts, 6),
    }))
}

// The index that an element is.
fn index_of(alloc: Global, element: &Element) -> Result<Option<IndexDefinition>, AllocError>
    ensures { IfOk result (λ index. index ≡ index_of (item_in element.now)) }
{
    match tuple_of(element) {
        Some(parts) => index_in(alloc, parts),
        None => Ok(None),
    }
}

// The indexes that elements are.
fn indexes_of(
    alloc: Global,
    elements: &[Element],
) -> Result<Option<Vec<IndexDefinition>>, AllocError>
    ensures { IfOk result (λ indexes.
        option_map (λ found. found.items) indexes ≡ all_read index_of (items_in elements.now)) }
{
    let mut indexes = Vec::with_capacity(alloc, elements.len())?;
    for element in elements {
        let Some(index) = index_of(alloc, element)? else {
            return Ok(None);
        };
        indexes.push(index)?;
    }
    Ok(Some(indexes))
}

// The indexes of a schema's tuple.
pub(crate) fn indexes_in(
    alloc: Global,
    tuple: &Tuple,
) -> Result<Option<Vec<IndexDefinition>>, AllocError>
    ensures { IfOk result (λ indexes. option_map (λ found. found.items) indexes ≡ indexes_in tuple.now) }
{
    match tuple_at(tuple, 4) {
        Some(indexes) => indexes_of(alloc, indexes.elements()),
        None => Ok(None),
    }
}
