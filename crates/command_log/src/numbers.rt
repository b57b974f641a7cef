// Whole numbers and truth values in tuples, and the numbers of kinds. Called by `asked` and
// `changing`.
ghost use Rattle.std.specs.Prelude.{◌≡◌};
ghost use Rattle.std.specs.Option.{option_and_then};
ghost use Rattle.tuple_codec.specs.Elements.{item_in};
ghost use Rattle.metadata.specs.Reading.{index_kind_of, item_number, kind_of, read_at, small_of};
ghost use Rattle.metadata.specs.Reading.{truth_of};
ghost use Rattle.metadata.specs.Written.{index_kind_number, kind_number, number_item};
ghost use Rattle.command_log.specs.Reading.{limit_of};

use metadata::{IndexKind, Kind};
use tuple_codec::{Element, Tuple, TupleInt};

/// A number, as an element of a tuple.
pub(crate) fn number(value: u64) -> Element
    ensures { item_in result ≡ number_item value }
{
    Element::Int(TupleInt::from(value))
}

/// The number below 256 at a place of a tuple.
pub(crate) fn small_at(tuple: &Tuple, place: usize) -> Option<u8>
    ensures { result ≡ read_at small_of tuple.now place }
{
    match tuple.elements().get(place) {
        Some(Element::Int(value)) => u8::try_from(value.get()).ok(),
        _ => None,
    }
}

/// The number of 32 bits at a place of a tuple.
pub(crate) fn limit_at(tuple: &Tuple, place: usize) -> Option<u32>
    ensures { result ≡ read_at limit_of tuple.now place }
{
    match tuple.elements().get(place) {
        Some(Element::Int(value)) => u32::try_from(value.get()).ok(),
        _ => None,
    }
}

/// The number of 64 bits at a place of a tuple.
pub(crate) fn number_at(tuple: &Tuple, place: usize) -> Option<u64>
    ensures { result ≡ read_at item_number tuple.now place }
{
    match tuple.elements().get(place) {
        Some(Element::Int(value)) => u64::try_from(value.get()).ok(),
        _ => None,
    }
}

/// The truth value at a place of a tuple.
pub(crate) fn truth_at(tuple: &Tuple, place: usize) -> Option<bool>
    ensures { result ≡ read_at truth_of tuple.now place }
{
    match tuple.elements().get(place) {
        Some(Element::Bool(value)) => Some(*value),
        _ => None,
    }
}

/// The number of a kind of cells.
pub(crate) fn number_of_kind(asked: Kind) -> u64
    ensures { result ≡ kind_number asked }
{
    match asked {
        Kind::Int => 1,
        Kind::Text => 2,
        Kind::Bytes => 3,
    }
}

/// The kind of cells whose number stands at a place of a tuple.
pub(crate) fn kind_at(tuple: &Tuple, place: usize) -> Option<Kind>
    ensures { result ≡ option_and_then kind_of (read_at small_of tuple.now place) }
{
    match small_at(tuple, place) {
        Some(1) => Some(Kind::Int),
        Some(2) => Some(Kind::Text),
        Some(3) => Some(Kind::Bytes),
        _ => None,
    }
}

/// The number of a kind of indexes.
pub(crate) fn number_of_index_kind(asked: IndexKind) -> u64
    ensures { result ≡ index_kind_number asked }
{
    match asked {
        IndexKind::Value => 1,
        IndexKind::Count => 2,
        IndexKind::Sum => 3,
    }
}

/// The kind of indexes whose number stands at a place of a tuple.
pub(crate) fn index_kind_at(tuple: &Tuple, place: usize) -> Option<IndexKind>
    ensures { result ≡ option_and_then index_kind_of (read_at small_of tuple.now place) }
{
    match small_at(tuple, place) {
        Some(1) => Some(IndexKind::Value),
        Some(2) => Some(IndexKind::Count),
        Some(3) => Some(IndexKind::Sum),
        _ => None,
    }
}
