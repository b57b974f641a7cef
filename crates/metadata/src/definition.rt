// Definitions of record types, and the requests that ask for types and schemas. Used by most
// modules here; `json_forms` and `record_layer` make requests, crates above read definitions.
ghost use Rattle.std.specs.Prelude.{◌≡◌, ◌++◌, ◌∷◌, [], IfOk, OnOk, OnErr};
ghost use Rattle.std.specs.Str.{bytes_eq};
ghost use Rattle.metadata.specs.Change.{has_twice};
ghost use Rattle.metadata.specs.Schema.{field_kinds, key_kinds, kind_at, place_of};

use crate::cells::Kind;
use crate::index::IndexRequest;
use crate::names::{has_twice, place_of};
use std::alloc::{AllocError, Global};
use std::marker::Model;
use tuple_codec::Text;

/// A named field of a type.
#[derive(Drop)]
pub struct Field {
    pub name: Text,
    pub kind: Kind,
}

impl Field {
    /// An equal field.
    pub fn copy(&self) -> Result<Field, AllocError>
        ensures { IfOk result (λ copy. copy ≡ self.now) }
    {
        let name = self.name.copy()?;
        Ok(Field {
            name,
            kind: self.kind,
        })
    }
}

/// The fields of a type, in order.
pub struct Fields {
    fields: Vec<Field>,
}

// Written out, so that no proof of a caller has to take its parts apart where one is dropped.
impl Drop for Fields {
    fn drop(self) {
        let Fields { fields } = self;
        drop(fields);
    }
}

impl Model for Fields {
    ghost use Rattle.std.specs.Prelude.{List};
    ghost use Rattle.metadata.specs.declared.definition.Field.{Field};

    ghost Value = { List Field };

    ghost view = { λ f. f.fields.items };
}

impl Fields {
    /// The list of these fields.
    pub fn new(fields: Vec<Field>) -> Fields
        ensures { result ≡ fields.items }
    {
        Fields { fields }
    }

    /// The fields.
    pub fn as_slice(&self) -> &[Field]
        ensures { result.now ≡ self.now }
    {
        self.fields.as_slice()
    }

    // Adds a field at the end. Where memory is wanting the fields stay as they were.
    pub(crate) fn push(&mut self, field: Field) -> Result<(), AllocError>
        ensures ok { OnOk result (self.new ≡ self.old ++ field ∷ []) }
        ensures err { OnErr result (self.new ≡ self.old) }
    {
        self.fields.push(field)?;
        Ok(())
    }

    /// The place of the field of this name.
    pub fn place_of(&self, name: &Text) -> Option<usize>
        ensures { result ≡ place_of self.now name.now }
    {
        place_of(self.as_slice(), name)
    }

    // The kind of the field at this place.
    pub(crate) fn kind_at(&self, place: usize) -> Option<Kind>
        ensures { result ≡ kind_at self.now place }
    {
        self.fields.get(place).map(|field| field.kind)
    }

    /// Equal fields.
    pub fn copy(&self) -> Result<Fields, AllocError>
        ensures { IfOk result (λ copy. copy ≡ self.now) }
    {
        let mut fields = Vec::with_capacity(*self.fields.allocator(), self.fields.len())?;
        for field in &self.fields {
            fields.push(field.copy()?)?;
        }
        Ok(Fields { fields })
    }
}

/// Places of fields in a type, counted from 0.
pub struct Places {
    places: Vec<usize>,
}

// Written out, so that no proof of a caller has to take its parts apart where one is dropped.
impl Drop for Places {
    fn drop(self) {
        let Places { places } = self;
        drop(places);
    }
}

impl Model for Places {
    ghost use Rattle.std.specs.Prelude.{List, ℕ};

    ghost Value = { List ℕ };

    ghost view = { λ p. p.places.items };
}

impl Places {
    /// The list of these places.
    pub fn new(places: Vec<usize>) -> Places
        ensures { result ≡ places.items }
    {
        Places { places }
    }

    /// The places.
    pub fn as_slice(&self) -> &[usize]
        ensures { result.now ≡ self.now }
    {
        self.places.as_slice()
    }

    /// Equal places.
    pub fn copy(&self) -> Result<Places, AllocError>
        ensures { IfOk result (λ copy. copy ≡ self.now) }
    {
        let places = self.places.clone()?;
        Ok(Places { places })
    }
}

/// A record type: its number, counted from 1, its name, its fields, the places of its key fields, and
/// how many fields it was added with: those after them were appended later.
#[derive(Drop)]
pub struct TypeDefinition {
    pub number: u64,
    pub name: Text,
    pub fields: Fields,
    pub key: Places,
    pub first_fields: usize,
}

impl TypeDefinition {
    /// An equal definition.
    pub fn copy(&self) -> Result<TypeDefinition, AllocError>
        ensures { IfOk result (λ copy. copy ≡ self.now) }
    {
        let name = self.name.copy()?;
        let fields = self.fields.copy()?;
        let key = self.key.copy()?;
        Ok(TypeDefinition {
            number: self.number,
            name,
            fields,
            key,
            first_fields: self.first_fields,
        })
    }

    /// The kinds of the fields, in order.
    pub fn field_kinds(&self, alloc: Global) -> Result<Vec<Kind>, AllocError>
        ensures { IfOk result (λ kinds. kinds.items ≡ field_kinds self.now) }
    {
        self.fields
            .as_slice()
            .iter()
            .map(|field| field.kind)
            .collect(alloc)
    }

    /// The kinds of the key fields, in the key's order.
    pub fn key_kinds(&self, alloc: Global) -> Result<Vec<Kind>, AllocError>
        ensures { IfOk result (λ kinds. kinds.items ≡ key_kinds self.now) }
    {
        self.key
            .as_slice()
            .iter()
            .filter_map(|place| self.fields.kind_at(*place))
            .collect(alloc)
    }
}

/// Names, in order.
pub struct Names {
    names: Vec<Text>,
}

// Written out, so that no proof of a caller has to take its parts apart where one is dropped.
impl Drop for Names {
    fn drop(self) {
        let Names { names } = self;
        drop(names);
    }
}

impl Model for Names {
    ghost use Rattle.std.specs.Prelude.{List, ℕ};

    ghost Value = { List (List ℕ) };

    ghost view = { λ n. n.names.items };
}

impl Names {
    /// The list of these names.
    pub fn new(names: Vec<Text>) -> Names
        ensures { result ≡ names.items }
    {
        Names { names }
    }

    /// The names.
    pub fn as_slice(&self) -> &[Text]
        ensures { result.now ≡ self.now }
    {
        self.names.as_slice()
    }

    /// Whether a name stands twice.
    pub fn has_twice(&self) -> bool
        ensures { result ≡ has_twice bytes_eq self.now }
    {
        has_twice(self.as_slice())
    }

    /// Equal names.
    pub fn copy(&self) -> Result<Names, AllocError>
        ensures { IfOk result (λ copy. copy ≡ self.now) }
    {
        let mut names = Vec::with_capacity(*self.names.allocator(), self.names.len())?;
        for name in &self.names {
            names.push(name.copy()?)?;
        }
        Ok(Names { names })
    }
}

/// A type as it is asked for: its key fields by their names.
#[derive(Drop)]
pub struct TypeRequest {
    pub name: Text,
    pub fields: Fields,
    pub key: Names,
}

impl TypeRequest {
    /// An equal request.
    pub fn copy(&self) -> Result<TypeRequest, AllocError>
        ensures { IfOk result (λ copy. copy ≡ self.now) }
    {
        let name = self.name.copy()?;
        let fields = self.fields.copy()?;
        let key = self.key.copy()?;
        Ok(TypeRequest { name, fields, key })
    }
}

// Equal types.
fn copy_types(alloc: Global, types: &[TypeRequest]) -> Result<Vec<TypeRequest>, AllocError>
    ensures { IfOk result (λ copy. copy.items ≡ types.now) }
{
    let mut copy = Vec::with_capacity(alloc, types.len())?;
    for one in types {
        copy.push(one.copy()?)?;
    }
    Ok(copy)
}

// Equal indexes.
fn copy_indexes(alloc: Global, indexes: &[IndexRequest]) -> Result<Vec<IndexRequest>, AllocError>
    ensures { IfOk result (λ copy. copy.items ≡ indexes.now) }
{
    let mut copy = Vec::with_capacity(alloc, indexes.len())?;
    for index in indexes {
        copy.push(index.copy()?)?;
    }
    Ok(copy)
}

/// A schema as it is asked for: types, added in this order, and then indexes, in theirs.
pub struct SchemaRequest {
    types: Vec<TypeRequest>,
    indexes: Vec<IndexRequest>,
}

// Written out, so that no proof of a caller has to take its parts apart where one is dropped.
impl Drop for SchemaRequest {
    fn drop(self) {
        let SchemaRequest { types, indexes } = self;
        drop(types);
        drop(indexes);
    }
}

impl Model for SchemaRequest {
    ghost use Rattle.metadata.specs.Asked.{SchemaRequest as SchemaRequestValue};

    ghost Value = { SchemaRequestValue };

    ghost view = { λ s. record { types = s.types.items; indexes = s.indexes.items } };
}

impl SchemaRequest {
    /// The request for these types and these indexes over them.
    pub fn new(types: Vec<TypeRequest>, indexes: Vec<IndexRequest>) -> SchemaRequest
        ensures { result ≡ record { types = types.items; indexes = indexes.items } }
    {
        SchemaRequest { types, indexes }
    }

    /// The types asked for.
    pub fn types(&self) -> &[TypeRequest]
        ensures { result.now ≡ self.now.types }
    {
        self.types.as_slice()
    }

    /// The indexes asked for.
    pub fn indexes(&self) -> &[IndexRequest]
        ensures { result.now ≡ self.now.indexes }
    {
        self.indexes.as_slice()
    }

    /// An equal request.
    pub fn copy(&self) -> Result<SchemaRequest, AllocError>
        ensures { IfOk result (λ copy. copy ≡ self.now) }
    {
        let types = copy_types(*self.types.allocator(), &self.types)?;
        let indexes = copy_indexes(*self.indexes.allocator(), &self.indexes)?;
        Ok(SchemaRequest { types, indexes })
    }
}
