// Where in a store the keys of a range stand, as of the range that a conflict tells, in the words
// of the store's schema. Called by applications.
ghost use Rattle.std.specs.Prelude.{◌≡◌, IfOk, is_some};
ghost use Rattle.record_layer.specs.Databases.{is_conflict};

use crate::database::NotCommitted;
use crate::shown::{CellsShown, Span};
use kv_core::{Bytes, KeyRange};
use metadata::{
    Cells, IndexDefinition, IndexKind, PLACE_OF_BUILT_RANGES, PLACE_OF_ENTRIES, PLACE_OF_RECORDS,
    PLACE_OF_SCHEMA, PLACE_OF_STATES, Schema, TypeDefinition,
};
use record_store::StoreNumber;
use std::alloc::{AllocError, Global};
use std::fmt;
use tuple_codec::{Element, Text, UnpackFailure, unpack, unpack_first};

/// Where in a store the keys of a range stand, told by the first of them.
#[derive(Drop)]
pub enum Place {
    /// The schema.
    Schema,
    /// The states of the indexes.
    States,
    /// The record of this type with this primary key, which may be there or not.
    Record { record_type: Text, key: Cells },
    /// The records of this type whose primary keys are in the span.
    Records { record_type: Text, span: Span },
    /// The total of this group in a COUNT or SUM index.
    Total { index: Text, group: Cells },
    /// The entries of an index in the span, each a record's columns and its primary key.
    Entries { index: Text, span: Span },
    /// Which records an index that is being built has.
    BuiltRanges { index: Text },
    /// Keys that no store of this schema has.
    Outside,
}

impl fmt::Display for Place {
    fn fmt<W: fmt::Write>(&self, f: &mut fmt::Formatter<W>) -> fmt::Result {
        match self {
            Place::Schema => f.write_str("the schema"),
            Place::States => f.write_str("the states of indexes"),
            Place::Record { record_type, key } => {
                write!(
                    f,
                    "record {} {}",
                    record_type.as_str(),
                    CellsShown { cells: key }
                )
            }
            Place::Records { record_type, span } => {
                write!(f, "the records of {}{span}", record_type.as_str())
            }
            Place::Total { index, group } => {
                write!(
                    f,
                    "the total of {} {}",
                    index.as_str(),
                    CellsShown { cells: group }
                )
            }
            Place::Entries { index, span } => {
                write!(f, "the entries of index {}{span}", index.as_str())
            }
            Place::BuiltRanges { index } => {
                write!(f, "the built ranges of index {}", index.as_str())
            }
            Place::Outside => f.write_str("keys outside the store"),
        }
    }
}

/// The whole number of 64 bits that an element is.
fn number_in(element: &Element) -> Option<u64> {
    match element {
        Element::Int(number) => u64::try_from(number.get()).ok(),
        _ => None,
    }
}

/// The whole number of 64 bits that bytes begin with, and what stands after it.
fn number_first(alloc: Global, bytes: &[u8]) -> Result<Option<(u64, &[u8])>, AllocError> {
    let Some((element, rest)) = unpack_first(alloc, bytes)? else {
        return Ok(None);
    };
    match number_in(&element) {
        Some(number) => Ok(Some((number, rest))),
        None => Ok(None),
    }
}

/// The number of its place with which a key of a store goes on behind the store's number, and what
/// stands after it.
fn place_first(alloc: Global, key: &Bytes) -> Result<Option<(u64, &[u8])>, AllocError> {
    let Some((number, rest)) = number_first(alloc, key.as_slice())? else {
        return Ok(None);
    };
    match StoreNumber::new(number) {
        Some(_) => number_first(alloc, rest),
        None => Ok(None),
    }
}

/// The cells whose pack bytes are, if they are one.
fn cells_in(alloc: Global, bytes: &[u8]) -> Result<Option<Cells>, AllocError> {
    let tuple = match unpack(alloc, bytes) {
        Ok(tuple) => tuple,
        Err(UnpackFailure::Refused(_)) => return Ok(None),
        Err(UnpackFailure::Memory) => return Err(AllocError),
    };
    Cells::from_tuple(alloc, tuple)
}

/// The cells of an edge of a range: bytes that are a pack, or one and a byte more. None are told
/// of other bytes.
fn edge_cells(alloc: Global, bytes: &[u8]) -> Result<Cells, AllocError> {
    if let Some((_, front)) = bytes.split_last()
        && let Some(cells) = cells_in(alloc, front)?
    {
        return Ok(cells);
    }
    match cells_in(alloc, bytes)? {
        Some(cells) => Ok(cells),
        None => Ok(Cells::new(Vec::new(alloc))),
    }
}

/// The cells at which a range ends that began in this place, under this number.
fn end_cells(alloc: Global, end: &Bytes, place: u64, number: u64) -> Result<Cells, AllocError> {
    if let Some((other, rest)) = place_first(alloc, end)?
        && other == place
        && let Some((other, rest)) = number_first(alloc, rest)?
        && other == number
    {
        return edge_cells(alloc, rest);
    }
    Ok(Cells::new(Vec::new(alloc)))
}

/// The span of a range that begins in this place, under this number, and there at these bytes.
fn span_of(
    alloc: Global,
    range: &KeyRange,
    place: u64,
    number: u64,
    rest: &[u8],
) -> Result<Span, AllocError> {
    let from = edge_cells(alloc, rest)?;
    let to = end_cells(alloc, range.end(), place, number)?;
    Ok(Span { from, to })
}

/// The cells of the one key of a range that ends its key with these bytes, if it has just one.
fn point_cells(alloc: Global, range: &KeyRange, rest: &[u8]) -> Result<Option<Cells>, AllocError> {
    if range.is_point() {
        cells_in(alloc, rest)
    } else {
        Ok(None)
    }
}

/// Where a range begins that begins among the records of a type, there at these bytes.
fn in_type(
    alloc: Global,
    definition: &TypeDefinition,
    range: &KeyRange,
    rest: &[u8],
) -> Result<Place, AllocError> {
    let record_type = definition.name.copy()?;
    if let Some(key) = point_cells(alloc, range, rest)? {
        return Ok(Place::Record { record_type, key });
    }
    let span = span_of(alloc, range, PLACE_OF_RECORDS, definition.number, rest)?;
    Ok(Place::Records { record_type, span })
}

/// Where a range begins that begins among the entries of an index, there at these bytes.
fn in_index(
    alloc: Global,
    definition: &IndexDefinition,
    range: &KeyRange,
    rest: &[u8],
) -> Result<Place, AllocError> {
    let index = definition.name.copy()?;
    if definition.kind != IndexKind::Value
        && let Some(group) = point_cells(alloc, range, rest)?
    {
        return Ok(Place::Total { index, group });
    }
    let span = span_of(alloc, range, PLACE_OF_ENTRIES, definition.number, rest)?;
    Ok(Place::Entries { index, span })
}

/// The type with this number.
fn type_numbered(schema: &Schema, number: u64) -> Option<&TypeDefinition> {
    schema.types().iter().find(|it| it.number == number)
}

/// The index with this number.
fn index_numbered(schema: &Schema, number: u64) -> Option<&IndexDefinition> {
    schema.indexes().iter().find(|it| it.number == number)
}

/// Where a range begins that begins in this place, under this number, there at these bytes.
fn numbered_place(
    alloc: Global,
    schema: &Schema,
    range: &KeyRange,
    place: u64,
    number: u64,
    rest: &[u8],
) -> Result<Place, AllocError> {
    if place == PLACE_OF_RECORDS {
        return match type_numbered(schema, number) {
            Some(definition) => in_type(alloc, definition, range, rest),
            None => Ok(Place::Outside),
        };
    }
    match index_numbered(schema, number) {
        Some(definition) if place == PLACE_OF_ENTRIES => in_index(alloc, definition, range, rest),
        Some(definition) if place == PLACE_OF_BUILT_RANGES => Ok(Place::BuiltRanges {
            index: definition.name.copy()?,
        }),
        _ => Ok(Place::Outside),
    }
}

/// Where in the store of this schema, whichever number it has, a range of keys begins, as the one
/// of a conflict, whose keys are those of the transaction's own store.
pub fn place_of(alloc: Global, schema: &Schema, range: &KeyRange) -> Result<Place, AllocError> {
    let Some((place, rest)) = place_first(alloc, range.begin())? else {
        return Ok(Place::Outside);
    };
    match place {
        PLACE_OF_SCHEMA => Ok(Place::Schema),
        PLACE_OF_STATES => Ok(Place::States),
        _ => match number_first(alloc, rest)? {
            Some((number, rest)) => numbered_place(alloc, schema, range, place, number, rest),
            None => Ok(Place::Outside),
        },
    }
}

impl NotCommitted {
    /// What the transaction had read that a newer version wrote, where that is why. None for
    /// another reason.
    pub fn place(&self, alloc: Global, schema: &Schema) -> Result<Option<Place>, AllocError>
        ensures { IfOk result (λ place. is_some place ≡ is_conflict self.now) }
    {
        match self {
            NotCommitted::Conflict { seen: _, range } => Ok(Some(place_of(alloc, schema, range)?)),
            _ => Ok(None),
        }
    }
}
