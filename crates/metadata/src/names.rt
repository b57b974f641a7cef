// The rules of names, and the places of fields by name. Called by `definition`, `schema`,
// `index_change`, `lawful` and `same`.
ghost use Rattle.std.specs.Prelude.{◌≡◌, Bool, IfOk, nat_eq};
ghost use Rattle.std.specs.List.{list_any, list_all};
ghost use Rattle.std.specs.Str.{bytes_eq};
ghost use Rattle.metadata.specs.Change.{field_names, has_twice, has_unknown, is_name};
ghost use Rattle.metadata.specs.Change.{is_name_byte, places_of, same_field};
ghost use Rattle.metadata.specs.Lawful.{same_index};
ghost use Rattle.metadata.specs.Schema.{place_of};

use crate::definition::{Field, Places};
use crate::index::IndexDefinition;
use std::alloc::{AllocError, Global};
use tuple_codec::Text;

/// The most bytes of a name.
pub const MAX_NAME_BYTES: usize = 32;

// Whether two names are the same.
pub(crate) fn is_same(a: &Text, b: &Text) -> bool
    ensures { result ≡ bytes_eq a.now b.now }
{
    a.as_str() == b.as_str()
}

// Whether a byte is a letter, a digit or an underscore.
fn is_name_byte(byte: u8) -> bool
    ensures { result ≡ is_name_byte byte }
{
    byte.is_ascii_alphanumeric() || byte == b'_'
}

// Whether each byte is a letter, a digit or an underscore.
fn are_name_bytes(bytes: &[u8]) -> bool
    ensures { result ≡ list_all is_name_byte bytes.now }
{
    bytes.iter().all(|byte| is_name_byte(*byte))
}

// Whether this is a name: 1 to 32 letters, digits and underscores.
pub(crate) fn is_name(name: &Text) -> bool
    ensures { result ≡ is_name name.now }
{
    let bytes = name.as_str().as_bytes();
    !bytes.is_empty() && bytes.len() <= MAX_NAME_BYTES && are_name_bytes(bytes)
}

// Whether each field has a name.
pub(crate) fn are_named(fields: &[Field]) -> bool
    ensures { result ≡ list_all is_name (field_names fields.now) }
{
    fields.iter().all(|field| is_name(&field.name))
}

// What can be told to be the same as another one.
pub(crate) trait Same {
    ghost same: { Self → Self → Bool };

    fn is_same(&self, other: &Self) -> bool
        ensures { result ≡ same self.now other.now };
}

impl Same for Text {
    ghost same = { bytes_eq };

    fn is_same(&self, other: &Text) -> bool {
        is_same(self, other)
    }
}

impl Same for usize {
    ghost same = { nat_eq };

    fn is_same(&self, other: &usize) -> bool {
        *self == *other
    }
}

impl Same for Field {
    ghost same = { same_field };

    fn is_same(&self, other: &Field) -> bool {
        is_same(&self.name, &other.name)
    }
}

impl Same for IndexDefinition {
    ghost same = { same_index };

    fn is_same(&self, other: &IndexDefinition) -> bool {
        is_same(&self.name, &other.name)
    }
}

// Whether one is the same as one of these.
fn is_among<T: Same>(one: &T, others: &[T]) -> bool
    ensures { result ≡ list_any (T.same one.now) others.now }
{
    others.iter().any(|other| one.is_same(other))
}

// Whether two of these are the same.
pub(crate) fn has_twice<T: Same>(items: &[T]) -> bool
    ensures { result ≡ has_twice T.same items.now }
{
    let mut rest = items;
    while let Some((first, others)) = rest.split_first() {
        if is_among(first, others) {
            return true;
        }
        rest = others;
    }
    false
}

// The place of the field of this name.
pub(crate) fn place_of(fields: &[Field], name: &Text) -> Option<usize>
    ensures { result ≡ place_of fields.now name.now }
{
    fields.iter().position(|field| is_same(&field.name, name))
}

// Whether a name is no field's.
pub(crate) fn has_unknown(fields: &[Field], names: &[Text]) -> bool
    ensures { result ≡ has_unknown fields.now names.now }
{
    names.iter().any(|name| place_of(fields, name).is_none())
}

// The places of the fields of these names, as numbers.
fn numbers_of(alloc: Global, fields: &[Field], names: &[Text]) -> Result<Vec<usize>, AllocError>
    ensures { IfOk result (λ places. places.items ≡ places_of fields.now names.now) }
{
    names
        .iter()
        .filter_map(|name| place_of(fields, name))
        .collect(alloc)
}

// The places of the fields of these names.
pub(crate) fn places_of(
    alloc: Global,
    fields: &[Field],
    names: &[Text],
) -> Result<Places, AllocError>
    ensures { IfOk result (λ places. places ≡ places_of fields.now names.now) }
{
    Ok(Places::new(numbers_of(alloc, fields, names)?))
}
