// What has an item of its own in a tuple: how it is written and read, alone, and several in a tuple
// within the tuple. Met by `asked` and `changing`.
ghost use Rattle.std.specs.Prelude.{◌≡◌, ◌<◌, List, Option, map, All, IfOk, OnOk};
ghost use Rattle.std.specs.Option.{option_copied, option_map};
ghost use Rattle.tuple_codec.specs.Item.{Item, nesting};
ghost use Rattle.tuple_codec.specs.Elements.{item_in, items_in};
ghost use Rattle.metadata.specs.Reading.{all_read, read_at, tuple_of};
ghost use Rattle.metadata.specs.Written.{nested_item};
ghost use Rattle.command_log.specs.Reading.{all_at};

use std::alloc::{AllocError, Global};
use tuple_codec::{Element, Tuple};

/// What is an item of a tuple.
pub(crate) trait Part: Drop {
    /// The item that it is.
    ghost item: { Self → Item };

    /// What is known of it by its type.
    ghost is: { Self → Type 0 };

    /// What an item is, if it is such a one.
    ghost read: { Item → Option Self };

    /// The element of a tuple that it is.
    fn element(&self, alloc: Global) -> Result<Element, AllocError>
        ensures item { IfOk result (λ element. item_in element ≡ item self.now) }
        ensures known { OnOk result (is self.now) };

    /// What an element of a tuple is, if it is such a one.
    fn of(alloc: Global, element: &Element) -> Result<Option<Self>, AllocError>
        ensures { IfOk result (λ part. part ≡ read (item_in element.now)) };

    /// Tuples nest fewer than 16 deep in several.
    ghost shallow: { (parts : List Self) → nesting (map item parts) < 16 };
}

/// The tuple within a tuple, in which tuples nest fewer than 16 deep.
pub(crate) fn nested(elements: Vec<Element>) -> Element
    requires { nesting (items_in elements.items) < 16 }
    ensures { item_in result ≡ nested_item (items_in elements.items) }
{
    let Ok(tuple) = Tuple::new(elements) else {
        unreachable!();
    };
    Element::Nested(tuple)
}

/// Several, in order.
pub(crate) fn list<P: Part>(alloc: Global, parts: &[P]) -> Result<Element, AllocError>
    ensures items { IfOk result (λ element.
        item_in element ≡ nested_item (map P.item parts.now)) }
    ensures known { OnOk result (All P.is parts.now) }
{
    let mut elements = Vec::with_capacity(alloc, parts.len())?;
    for part in parts {
        elements.push(part.element(alloc)?)?;
    }
    Ok(nested(elements))
}

/// The nested tuple that an element is.
pub(crate) fn tuple_in(element: &Element) -> Option<&Tuple>
    ensures { option_copied result ≡ tuple_of (item_in element.now) }
{
    if let Element::Nested(tuple) = element {
        Some(tuple)
    } else {
        None
    }
}

/// What elements are, if each is such a one.
fn list_of<P: Part>(alloc: Global, elements: &[Element]) -> Result<Option<Vec<P>>, AllocError>
    ensures { IfOk result (λ parts.
        option_map (λ found. found.items) parts ≡ all_read P.read (items_in elements.now)) }
{
    let mut parts = Vec::with_capacity(alloc, elements.len())?;
    for element in elements {
        let Some(part) = P::of(alloc, element)? else {
            return Ok(None);
        };
        parts.push(part)?;
    }
    Ok(Some(parts))
}

/// What the element at a place of a tuple is, if it is such a one.
pub(crate) fn part_at<P: Part>(
    alloc: Global,
    tuple: &Tuple,
    place: usize,
) -> Result<Option<P>, AllocError>
    ensures { IfOk result (λ part. part ≡ read_at P.read tuple.now place) }
{
    match tuple.elements().get(place) {
        Some(element) => P::of(alloc, element),
        None => Ok(None),
    }
}

/// What the elements of the tuple at a place of a tuple are, if each is such a one.
pub(crate) fn list_at<P: Part>(
    alloc: Global,
    tuple: &Tuple,
    place: usize,
) -> Result<Option<Vec<P>>, AllocError>
    ensures { IfOk result (λ parts.
        option_map (λ found. found.items) parts ≡ all_at P.read tuple.now place) }
{
    let Some(element) = tuple.elements().get(place) else {
        return Ok(None);
    };
    match tuple_in(element) {
        Some(elements) => list_of(alloc, elements.elements()),
        None => Ok(None),
    }
}
