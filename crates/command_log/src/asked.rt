// Names, cells, and the fields, types and indexes that are asked for, in tuples. Called by
// `changing`.
ghost use Rattle.std.specs.Prelude.{◌≡◌, IfOk, ⊤};
ghost use Rattle.tuple_codec.specs.Item.{text};
ghost use Rattle.tuple_codec.specs.Elements.{item_in};
ghost use Rattle.metadata.specs.Cell.{IsCell, cell_of, item_of};
ghost use Rattle.metadata.specs.Reading.{field_of, read_at, text_of};
ghost use Rattle.metadata.specs.Written.{field_item};
ghost use Rattle.command_log.specs.Depth.{shallow-cells, shallow-fields, shallow-indexes};
ghost use Rattle.command_log.specs.Depth.{shallow-names, shallow-types};
ghost use Rattle.command_log.specs.Form.{asked_index_item, asked_type_item, summed_name};
ghost use Rattle.command_log.specs.Reading.{asked_index_in, asked_index_rest, asked_type_in};
ghost use Rattle.command_log.specs.Reading.{of_tuple, summed_name_of};

use crate::numbers::{
    index_kind_at, kind_at, number, number_of_index_kind, number_of_kind, truth_at,
};
use crate::part::{Part, list, list_at, nested, part_at, tuple_in};
use metadata::{Cell, Field, Fields, IndexRequest, Names, TypeRequest};
use std::alloc::{AllocError, Global};
use tuple_codec::{Element, Text, Tuple, TupleInt};

impl Part for Text {
    ghost item = { text };

    ghost is = { λ name. ⊤ };

    ghost read = { text_of };

    fn element(&self, _alloc: Global) -> Result<Element, AllocError> {
        Ok(Element::Text(self.copy()?))
    }

    fn of(_alloc: Global, element: &Element) -> Result<Option<Text>, AllocError> {
        match element {
            Element::Text(name) => Ok(Some(name.copy()?)),
            _ => Ok(None),
        }
    }

    ghost shallow = { shallow-names };
}

impl Part for Cell {
    ghost item = { item_of };

    ghost is = { IsCell };

    ghost read = { cell_of };

    fn element(&self, _alloc: Global) -> Result<Element, AllocError> {
        self.known();
        match self {
            Cell::Null => Ok(Element::Null),
            Cell::Int(value) => Ok(Element::Int(TupleInt::from(*value))),
            Cell::Text(value) => Ok(Element::Text(value.copy()?)),
            Cell::Bytes(value) => Ok(Element::Bytes(value.copy()?)),
        }
    }

    fn of(_alloc: Global, element: &Element) -> Result<Option<Cell>, AllocError> {
        match element {
            Element::Null => Ok(Some(Cell::Null)),
            Element::Int(value) => Ok(i64::try_from(value.get()).ok().map(Cell::Int)),
            Element::Text(value) => Ok(Some(Cell::Text(value.copy()?))),
            Element::Bytes(value) => Ok(Some(Cell::Bytes(value.copy()?))),
            _ => Ok(None),
        }
    }

    ghost shallow = { shallow-cells };
}

impl Part for Field {
    ghost item = { field_item };

    ghost is = { λ field. ⊤ };

    ghost read = { field_of };

    fn element(&self, alloc: Global) -> Result<Element, AllocError> {
        let mut elements = Vec::with_capacity(alloc, 2)?;
        elements.push(self.name.element(alloc)?)?;
        elements.push(number(number_of_kind(self.kind)))?;
        Ok(nested(elements))
    }

    fn of(alloc: Global, element: &Element) -> Result<Option<Field>, AllocError> {
        let Some(tuple) = tuple_in(element) else {
            return Ok(None);
        };
        let Some(name) = part_at(alloc, tuple, 0)? else {
            return Ok(None);
        };
        match kind_at(tuple, 1) {
            Some(kind) => Ok(Some(Field { name, kind })),
            None => Ok(None),
        }
    }

    ghost shallow = { shallow-fields };
}

/// The type that a tuple asks for.
fn type_in(alloc: Global, tuple: &Tuple) -> Result<Option<TypeRequest>, AllocError>
    ensures { IfOk result (λ asked. asked ≡ asked_type_in tuple.now) }
{
    let Some(name) = part_at(alloc, tuple, 0)? else {
        return Ok(None);
    };
    let Some(fields) = list_at(alloc, tuple, 1)? else {
        return Ok(None);
    };
    let Some(key) = list_at(alloc, tuple, 2)? else {
        return Ok(None);
    };
    Ok(Some(TypeRequest {
        name,
        fields: Fields::new(fields),
        key: Names::new(key),
    }))
}

impl Part for TypeRequest {
    ghost item = { asked_type_item };

    ghost is = { λ asked. ⊤ };

    ghost read = { of_tuple asked_type_in };

    fn element(&self, alloc: Global) -> Result<Element, AllocError> {
        let mut elements = Vec::with_capacity(alloc, 3)?;
        elements.push(self.name.element(alloc)?)?;
        elements.push(list(alloc, self.fields.as_slice())?)?;
        elements.push(list(alloc, self.key.as_slice())?)?;
        Ok(nested(elements))
    }

    fn of(alloc: Global, element: &Element) -> Result<Option<TypeRequest>, AllocError> {
        match tuple_in(element) {
            Some(tuple) => type_in(alloc, tuple),
            None => Ok(None),
        }
    }

    ghost shallow = { shallow-types };
}

/// The name of a summed field, or null.
fn summed_element(alloc: Global, summed: &Option<Text>) -> Result<Element, AllocError>
    ensures { IfOk result (λ element. item_in element ≡ summed_name summed.now) }
{
    match summed {
        Some(name) => name.element(alloc),
        None => Ok(Element::Null),
    }
}

/// The name of a summed field, or that there is none, at a place of a tuple.
fn summed_at(alloc: Global, tuple: &Tuple, place: usize) -> Result<Option<Option<Text>>, AllocError>
    ensures { IfOk result (λ summed. summed ≡ read_at summed_name_of tuple.now place) }
{
    match tuple.elements().get(place) {
        Some(Element::Null) => Ok(Some(None)),
        Some(Element::Text(name)) => Ok(Some(Some(name.copy()?))),
        _ => Ok(None),
    }
}

/// The index of these names and columns that a tuple asks for.
fn index_rest(
    alloc: Global,
    tuple: &Tuple,
    name: Text,
    type_name: Text,
    columns: Vec<Text>,
) -> Result<Option<IndexRequest>, AllocError>
    ensures { IfOk result (λ asked.
        asked ≡ asked_index_rest tuple.now name type_name columns.items) }
{
    let Some(kind) = index_kind_at(tuple, 1) else {
        return Ok(None);
    };
    let Some(summed) = summed_at(alloc, tuple, 4)? else {
        return Ok(None);
    };
    let Some(clear_when_zero) = truth_at(tuple, 5) else {
        return Ok(None);
    };
    Ok(Some(IndexRequest {
        name,
        kind,
        type_name,
        columns: Names::new(columns),
        summed,
        clear_when_zero,
    }))
}

/// The index that a tuple asks for.
fn index_in(alloc: Global, tuple: &Tuple) -> Result<Option<IndexRequest>, AllocError>
    ensures { IfOk result (λ asked. asked ≡ asked_index_in tuple.now) }
{
    let Some(name) = part_at(alloc, tuple, 0)? else {
        return Ok(None);
    };
    let Some(type_name) = part_at(alloc, tuple, 2)? else {
        return Ok(None);
    };
    match list_at(alloc, tuple, 3)? {
        Some(columns) => index_rest(alloc, tuple, name, type_name, columns),
        None => Ok(None),
    }
}

impl Part for IndexRequest {
    ghost item = { asked_index_item };

    ghost is = { λ asked. ⊤ };

    ghost read = { of_tuple asked_index_in };

    fn element(&self, alloc: Global) -> Result<Element, AllocError> {
        let mut elements = Vec::with_capacity(alloc, 6)?;
        elements.push(self.name.element(alloc)?)?;
        elements.push(number(number_of_index_kind(self.kind)))?;
        elements.push(self.type_name.element(alloc)?)?;
        elements.push(list(alloc, self.columns.as_slice())?)?;
        elements.push(summed_element(alloc, &self.summed)?)?;
        elements.push(Element::Bool(self.clear_when_zero))?;
        Ok(nested(elements))
    }

    fn of(alloc: Global, element: &Element) -> Result<Option<IndexRequest>, AllocError> {
        match tuple_in(element) {
            Some(tuple) => index_in(alloc, tuple),
            None => Ok(None),
        }
    }

    ghost shallow = { shallow-indexes };
}
