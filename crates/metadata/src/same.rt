// Whether two definitions of types are the same. Called by `record_store` where a record is saved.
ghost use Rattle.std.specs.Prelude.{◌≡◌};
ghost use Rattle.metadata.specs.Same.{all_same, equal_field, same_kind, same_type};

use crate::cells::Kind;
use crate::definition::{Field, TypeDefinition};
use crate::names::is_same;

// Whether two kinds are the same.
fn is_same_kind(a: Kind, b: Kind) -> bool
    ensures { result ≡ same_kind a b }
{
    match (a, b) {
        (Kind::Int, Kind::Int) => true,
        (Kind::Text, Kind::Text) => true,
        (Kind::Bytes, Kind::Bytes) => true,
        _ => false,
    }
}

// Whether two fields have the same name and kind.
fn is_equal_field(a: &Field, b: &Field) -> bool
    ensures { result ≡ equal_field a.now b.now }
{
    is_same(&a.name, &b.name) && is_same_kind(a.kind, b.kind)
}

// Whether the fields are the same, one by one.
fn are_same_fields(a: &[Field], b: &[Field]) -> bool
    ensures { result ≡ all_same equal_field a.now b.now }
{
    if a.len() != b.len() {
        return false;
    }
    a.iter()
        .zip(b)
        .all(|(one, other)| is_equal_field(one, other))
}

impl TypeDefinition {
    /// Whether this is the same definition as another one: the same number, name, fields and key, and as many fields at
    /// first. It takes no memory.
    pub fn is_same(&self, other: &TypeDefinition) -> bool
        ensures { result ≡ same_type self.now other.now }
    {
        self.number == other.number
            && is_same(&self.name, &other.name)
            && are_same_fields(self.fields.as_slice(), other.fields.as_slice())
            && self.key.as_slice() == other.key.as_slice()
            && self.first_fields == other.first_fields
    }
}
