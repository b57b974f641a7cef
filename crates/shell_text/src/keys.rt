// Keys of a store in words. Called by `ranges`.
use json_forms::cells_text;
use kv_core::KeyRange;
use metadata::{Cells, IndexDefinition, IndexKind, Schema, TypeDefinition};
use std::alloc::{AllocError, Global};
use tuple_codec::{Element, unpack_first};

// The number that an element is, where it is a whole one that isn't negative.
fn number_of(element: &Element) -> Option<u64> {
    match element {
        Element::Int(number) => u64::try_from(number.get()).ok(),
        _ => None,
    }
}

/// The whole number with which bytes begin, and those after it.
pub(crate) fn number_in(alloc: Global, bytes: &[u8]) -> Result<Option<(u64, &[u8])>, AllocError> {
    let Some((first, rest)) = unpack_first(alloc, bytes)? else {
        return Ok(None);
    };
    match number_of(&first) {
        Some(number) => Ok(Some((number, rest))),
        None => Ok(None),
    }
}

// The name of the type of a number.
fn type_name(schema: Option<&Schema>, number: u64) -> &str {
    let types = schema.map_or(&[] as &[TypeDefinition], |schema| schema.types());
    match types.iter().find(|one| one.number == number) {
        Some(found) => found.name.as_str(),
        None => "a type that isn't committed",
    }
}

// The index of a number.
fn index_at(schema: Option<&Schema>, number: u64) -> Option<&IndexDefinition> {
    let indexes = schema.map_or(&[] as &[IndexDefinition], |schema| schema.indexes());
    indexes.iter().find(|one| one.number == number)
}

// What an index is called.
fn index_name(index: Option<&IndexDefinition>) -> &str {
    index.map_or("that is no more", |index| index.name.as_str())
}

// What stands in an index: one of it, and some.
fn in_index(index: Option<&IndexDefinition>) -> (&'static str, &'static str) {
    match index.map(|index| index.kind) {
        Some(IndexKind::Count | IndexKind::Sum) => ("total", "totals"),
        _ => ("entry", "entries"),
    }
}

// Whether the last key of a range is the first one with a byte after it: the range is then of one
// key (0), or of the keys that begin with this one (255).
fn ends_in(range: &KeyRange, byte: u8) -> bool {
    range.end().as_slice().strip_suffix(&[byte]) == Some(range.begin().as_slice())
}

// The cells that stand after the number of a type or of an index, where there are some.
fn cells_in(alloc: Global, rest: &[u8]) -> Result<Option<String>, AllocError> {
    if rest.is_empty() {
        return Ok(None);
    }
    match Cells::unpack(alloc, rest)? {
        Some(cells) => Ok(Some(cells_text(alloc, &cells)?)),
        None => Ok(None),
    }
}

// What stands at a range of a type or of an index: one thing, those of these first cells, or some.
fn part_words(
    alloc: Global,
    range: &KeyRange,
    rest: &[u8],
    (one, some): (&str, &str),
    owner: &str,
) -> Result<String, AllocError> {
    if rest.is_empty() && ends_in(range, 0) {
        return format!(in alloc; "the {one} of {owner}");
    }
    let Some(cells) = cells_in(alloc, rest)? else {
        return format!(in alloc; "{some} of {owner}");
    };
    if ends_in(range, 0) {
        format!(in alloc; "the {one} {cells} of {owner}")
    } else if ends_in(range, 0xff) {
        format!(in alloc; "{some} of {owner} that begin with {cells}")
    } else {
        format!(in alloc; "{some} of {owner}")
    }
}

// What stands at a range of keys of a place of the store, of a type or of an index.
fn place_words(
    alloc: Global,
    schema: Option<&Schema>,
    range: &KeyRange,
    place: u64,
    number: u64,
    rest: &[u8],
) -> Result<String, AllocError> {
    let index = index_at(schema, number);
    let of_index = index_name(index);
    match place {
        1 => {
            let of_type = type_name(schema, number);
            part_words(alloc, range, rest, ("record", "records"), of_type)
        }
        2 => {
            let owner = format!(in alloc; "the index {of_index}")?;
            part_words(alloc, range, rest, in_index(index), owner.as_str())
        }
        5 => format!(in alloc; "the state of the index {of_index}"),
        6 => format!(in alloc; "what is built of the index {of_index}"),
        _ => String::from_str(alloc, "keys of the store"),
    }
}

/// What stands at a range of keys of a store, in words, where the first one has these bytes after
/// what those of its store begin with.
pub(crate) fn words_at(
    alloc: Global,
    schema: Option<&Schema>,
    range: &KeyRange,
    inner: &[u8],
) -> Result<String, AllocError> {
    let Some((place, rest)) = number_in(alloc, inner)? else {
        return String::from_str(alloc, "keys of the store");
    };
    if place == 0 {
        return String::from_str(alloc, "the schema");
    }
    match number_in(alloc, rest)? {
        Some((number, rest)) => place_words(alloc, schema, range, place, number, rest),
        None if place == 5 => String::from_str(alloc, "the states of indexes"),
        None => String::from_str(alloc, "keys of the store"),
    }
}
