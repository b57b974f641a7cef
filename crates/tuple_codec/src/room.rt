// How much room a pack wants. Called by `write`.
use crate::{Element, Tuple};

// The bytes of an element's pack, were nothing in it escaped, and a few more.
#[cycle(room)]
fn room_of_element(element: &Element) -> usize {
    match element {
        Element::Null => 2,
        Element::Bytes(bytes) => bytes.as_slice().len().saturating_add(2),
        Element::Text(text) => text.as_str().len().saturating_add(2),
        Element::Nested(tuple) => room_of(tuple).saturating_add(2),
        Element::Int(_) => 9,
        Element::Bool(_) => 1,
        Element::Uuid(_) => 17,
        Element::Stamp(_) => 13,
    }
}

// The same of a tuple: no less than its pack, but for the escapes.
#[cycle(room)]
pub(crate) fn room_of(tuple: &Tuple) -> usize {
    let mut room = 0usize;
    for element in &tuple.elements {
        room = room.saturating_add(room_of_element(element));
    }
    room
}
