// The types that a schema's tuple asks for. What is passed over here, as the numbers of types, is
// compared with the schema's own written form. Called by `written`; parts of it by `index_reading`
// and `same_form`.
ghost use Rattle.std.specs.Prelude.{◌≡◌, IfOk, IfErr};
ghost use Rattle.std.specs.Option.{option_copied, option_map};
ghost use Rattle.tuple_codec.specs.Elements.{item_in, items_in};
ghost use Rattle.metadata.specs.Reading.{all_read, asked_of, field_in, field_of, kind_of, name_of, read_at};
ghost use Rattle.metadata.specs.Reading.{first_of, firsts_in, is_second, request_in, request_of, requests_in};
ghost use Rattle.metadata.specs.Reading.{small_of, text_of, tuple_of};

use crate::cells::Kind;
use crate::definition::{Field, Fields, Names, TypeRequest};
use std::alloc::{AllocError, Global};
use tuple_codec::{Element, Text, Tuple};

// The text that an element is.
fn text_of(element: &Element) -> Option<&Text>
    ensures { option_copied result ≡ text_of (item_in element.now) }
{
    match element {
        Element::Text(text) => Some(text),
        _ => None,
    }
}

// The nested tuple that an element is.
pub(crate) fn tuple_of(element: &Element) -> Option<&Tuple>
    ensures { option_copied result ≡ tuple_of (item_in element.now) }
{
    match element {
        Element::Nested(tuple) => Some(tuple),
        _ => None,
    }
}

// The kind number or place that an element is.
pub(crate) fn small_of(element: &Element) -> Option<u8>
    ensures { result ≡ small_of (item_in element.now) }
{
    match element {
        Element::Int(value) => u8::try_from(value.get()).ok(),
        _ => None,
    }
}

// The text at a place of a tuple.
pub(crate) fn text_at(tuple: &Tuple, place: usize) -> Option<&Text>
    ensures { option_copied result ≡ read_at text_of tuple.now place }
{
    text_of(tuple.elements().get(place)?)
}

// The nested tuple at a place of a tuple.
pub(crate) fn tuple_at(tuple: &Tuple, place: usize) -> Option<&Tuple>
    ensures { option_copied result ≡ read_at tuple_of tuple.now place }
{
    tuple_of(tuple.elements().get(place)?)
}

// The small number at a place of a tuple.
pub(crate) fn small_at(tuple: &Tuple, place: usize) -> Option<u8>
    ensures { result ≡ read_at small_of tuple.now place }
{
    small_of(tuple.elements().get(place)?)
}

// The kind of a number.
fn kind_of(number: u8) -> Option<Kind>
    ensures { result ≡ kind_of number }
{
    match number {
        1 => Some(Kind::Int),
        2 => Some(Kind::Text),
        3 => Some(Kind::Bytes),
        _ => None,
    }
}

// The field that a tuple of its name and kind is.
fn field_in(parts: &Tuple) -> Result<Option<Field>, AllocError>
    ensures { IfOk result (λ field. field ≡ field_in parts.now) }
{
    let Some(name) = text_at(parts, 0) else {
        return Ok(None);
    };
    let Some(kind) = small_at(parts, 1).and_then(kind_of) else {
        return Ok(None);
    };
    let name = name.copy()?;
    Ok(Some(Field { name, kind }))
}

// The field that an element is.
fn field_of(element: &Element) -> Result<Option<Field>, AllocError>
    ensures { IfOk result (λ field. field ≡ field_of (item_in element.now)) }
{
    match tuple_of(element) {
        Some(parts) => field_in(parts),
        None => Ok(None),
    }
}

// The fields that elements are.
fn fields_of(alloc: Global, elements: &[Element]) -> Result<Option<Fields>, AllocError>
    ensures { IfOk result (λ fields. fields ≡ all_read field_of (items_in elements.now)) }
{
    let mut fields = Vec::with_capacity(alloc, elements.len())?;
    for element in elements {
        let Some(field) = field_of(element)? else {
            return Ok(None);
        };
        fields.push(field)?;
    }
    Ok(Some(Fields::new(fields)))
}

// The name of the field at the place that an element is.
fn name_of<'a>(fields: &'a [Field], element: &Element) -> Option<&'a Text>
    ensures { option_copied result ≡ name_of fields.now (item_in element.now) }
{
    let place = small_of(element)?;
    let field = fields.get(usize::from(place))?;
    Some(&field.name)
}

// The names of the fields at the places that elements are.
fn names_of(
    alloc: Global,
    fields: &[Field],
    elements: &[Element],
) -> Result<Option<Names>, AllocError>
    ensures { IfOk result (λ names. names ≡ all_read (name_of fields.now) (items_in elements.now)) }
{
    let mut names = Vec::with_capacity(alloc, elements.len())?;
    for element in elements {
        let Some(name) = name_of(fields, element) else {
            return Ok(None);
        };
        names.push(name.copy()?)?;
    }
    Ok(Some(Names::new(names)))
}

// The request for a type of this name, and of the fields and key that two tuples are.
fn asked_of(
    alloc: Global,
    name: &Text,
    fields: &Tuple,
    places: &Tuple,
) -> Result<Option<TypeRequest>, AllocError>
    ensures { IfOk result (λ request. request ≡ asked_of name.now fields.now places.now) }
{
    let Some(fields) = fields_of(alloc, fields.elements())? else {
        return Ok(None);
    };
    let Some(key) = names_of(alloc, fields.as_slice(), places.elements())? else {
        return Ok(None);
    };
    let name = name.copy()?;
    Ok(Some(TypeRequest { name, fields, key }))
}

// The request for the type that a tuple is.
fn request_in(alloc: Global, parts: &Tuple) -> Result<Option<TypeRequest>, AllocError>
    ensures { IfOk result (λ request. request ≡ request_in parts.now) }
{
    let Some(name) = text_at(parts, 1) else {
        return Ok(None);
    };
    let Some(fields) = tuple_at(parts, 2) else {
        return Ok(None);
    };
    let Some(places) = tuple_at(parts, 3) else {
        return Ok(None);
    };
    asked_of(alloc, name, fields, places)
}

// The request for the type that an element is.
fn request_of(alloc: Global, element: &Element) -> Result<Option<TypeRequest>, AllocError>
    ensures { IfOk result (λ request. request ≡ request_of (item_in element.now)) }
{
    match tuple_of(element) {
        Some(parts) => request_in(alloc, parts),
        None => Ok(None),
    }
}

// The requests for the types that elements are.
fn requests_of(alloc: Global, elements: &[Element]) -> Result<Option<Vec<TypeRequest>>, AllocError>
    ensures { IfOk result (λ requests.
        option_map (λ found. found.items) requests ≡ all_read request_of (items_in elements.now)) }
{
    let mut types = Vec::with_capacity(alloc, elements.len())?;
    for element in elements {
        let Some(request) = request_of(alloc, element)? else {
            return Ok(None);
        };
        types.push(request)?;
    }
    Ok(Some(types))
}

// The requests for the types of a schema's tuple.
pub(crate) fn requests_in(
    alloc: Global,
    tuple: &Tuple,
) -> Result<Option<Vec<TypeRequest>>, AllocError>
    ensures { IfOk result (λ requests. option_map (λ found. found.items) requests ≡ requests_in tuple.now) }
{
    match tuple_at(tuple, 3) {
        Some(types) => requests_of(alloc, types.elements()),
        None => Ok(None),
    }
}

// Whether the first number of a schema's tuple is that of the second form.
pub(crate) fn is_second(tuple: &Tuple) -> bool
    ensures { result ≡ is_second tuple.now }
{
    match small_at(tuple, 0) {
        Some(form) => form == 2,
        None => false,
    }
}

// How many fields the type was added with that an element is, by the second form.
fn first_of(element: &Element) -> Option<u8>
    ensures { result ≡ first_of (item_in element.now) }
{
    small_at(tuple_of(element)?, 4)
}

// The same of the types that elements are.
fn firsts_of(alloc: Global, elements: &[Element]) -> Result<Option<Vec<usize>>, AllocError>
    ensures { IfOk result (λ firsts.
        option_map (λ found. found.items) firsts ≡ all_read first_of (items_in elements.now)) }
{
    let mut firsts = Vec::with_capacity(alloc, elements.len())?;
    for element in elements {
        let Some(first) = first_of(element) else {
            return Ok(None);
        };
        firsts.push(usize::from(first))?;
    }
    Ok(Some(firsts))
}

// The same of the types of a schema's tuple.
pub(crate) fn firsts_in(alloc: Global, tuple: &Tuple) -> Result<Option<Vec<usize>>, AllocError>
    ensures { IfOk result (λ firsts. option_map (λ found. found.items) firsts ≡ firsts_in tuple.now) }
{
    let Some(types) = tuple_at(tuple, 3) else {
        return Ok(None);
    };
    firsts_of(alloc, types.elements())
}
