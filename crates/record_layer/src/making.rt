// Names, fields, types, indexes and records from texts. Called by applications.
ghost use Rattle.std.specs.Prelude.{◌≡◌, ◌++◌, ◌∷◌, [], IfErr, IfOk, Ok, map};
ghost use Rattle.metadata.specs.Record.{record_of};
ghost use Rattle.metadata.specs.Asked.{schema_asked};
ghost use Rattle.metadata.specs.Answers.{IsRefusedAs};
ghost use Rattle.record_layer.specs.Lent.{lent_cells};
ghost use Rattle.record_layer.specs.Making.{asked_index, asked_type, field_with, is_cleared, kind_asked};
ghost use Rattle.record_layer.specs.Making.{names_of, summed_asked};

use crate::cells::{CellRef, cells_of};
use metadata::{
    Field, Fields, IndexKind, IndexRequest, Kind, MetadataError, Names, Record, Schema,
    SchemaRequest, TypeRequest,
};
use std::alloc::{AllocError, Global};
use std::marker::Model;
use tuple_codec::Text;

/// A name of a type, a field or an index.
pub fn name(alloc: Global, text: &str) -> Result<Text, AllocError>
    ensures { IfOk result (λ name. name ≡ text.now) }
{
    Text::from_str(alloc, text)
}

/// These names, in order.
pub fn names(alloc: Global, texts: &[&str]) -> Result<Names, AllocError>
    ensures { IfOk result (λ names. names ≡ names_of texts.now) }
{
    let mut names = Vec::with_capacity(alloc, texts.len())?;
    for &text in texts {
        names.push(Text::from_str(alloc, text)?)?;
    }
    Ok(Names::new(names))
}

/// A field of this name and kind.
fn field(alloc: Global, name: &str, kind: Kind) -> Result<Field, AllocError>
    ensures { IfOk result (λ field. field ≡ record { name = name.now; kind = kind }) }
{
    let name = Text::from_str(alloc, name)?;
    Ok(Field { name, kind })
}

/// These fields, in order, each with its kind.
pub fn fields(alloc: Global, list: &[(&str, Kind)]) -> Result<Fields, AllocError>
    ensures { IfOk result (λ fields. fields ≡ map field_with list.now) }
{
    let mut fields = Vec::with_capacity(alloc, list.len())?;
    for &(name, kind) in list {
        fields.push(field(alloc, name, kind)?)?;
    }
    Ok(Fields::new(fields))
}

/// The record of the type of this name with these cells, one for each field. Refused, in this
/// order: `UnknownType`, `WrongKind` (a cell of another kind than its field, or another number of
/// cells than of fields), `NullKey` (a key field is null).
pub fn record_with(
    alloc: Global,
    schema: &Schema,
    type_name: &str,
    cells: &[CellRef<'_>],
) -> Result<Record, MetadataError>
    ensures made { IfOk result (λ made.
        record_of schema.now type_name.now (lent_cells cells.now) ≡ Ok made) }
    ensures refused { IfErr result (λ error.
        IsRefusedAs error (record_of schema.now type_name.now (lent_cells cells.now))) }
{
    let type_name = Text::from_str(alloc, type_name)?;
    let made = Record::new(alloc, schema, &type_name, cells_of(alloc, cells)?)?;
    Ok(made)
}

/// What an index keeps, and of which field where it adds up one.
#[derive(Clone, Copy, Debug)]
pub enum IndexOf<'a> {
    /// An entry of each record, in the order of its columns.
    Value,
    /// How many records have the same columns, which stays where it comes back to 0.
    Count,
    /// The same, taken out where it comes back to 0.
    ClearedCount,
    /// The sum of this field over the records that have the same columns.
    Sum(&'a str),
}

/// The kind of such an index.
fn kind_asked(kind: IndexOf<'_>) -> IndexKind
    ensures { result ≡ kind_asked kind.entry }
{
    match kind {
        IndexOf::Value => IndexKind::Value,
        IndexOf::Count | IndexOf::ClearedCount => IndexKind::Count,
        IndexOf::Sum(_) => IndexKind::Sum,
    }
}

/// The field that such an index adds up.
fn summed_asked(alloc: Global, kind: IndexOf<'_>) -> Result<Option<Text>, AllocError>
    ensures { IfOk result (λ summed. summed ≡ summed_asked kind.entry) }
{
    match kind {
        IndexOf::Value | IndexOf::Count | IndexOf::ClearedCount => Ok(None),
        IndexOf::Sum(field) => Ok(Some(Text::from_str(alloc, field)?)),
    }
}

/// Whether the totals of such an index are taken out where they come back to 0.
fn is_cleared(kind: IndexOf<'_>) -> bool
    ensures { result ≡ is_cleared kind.entry }
{
    match kind {
        IndexOf::ClearedCount => true,
        IndexOf::Value | IndexOf::Count | IndexOf::Sum(_) => false,
    }
}

/// A schema that is asked for, type by type and index by index. Nothing is refused before
/// `into_schema`, which looks at all of it.
pub struct SchemaMaker {
    alloc: Global,
    types: Vec<TypeRequest>,
    indexes: Vec<IndexRequest>,
}

// Written out, so that no proof of a caller has to take the lists apart where one is dropped.
impl Drop for SchemaMaker {
    fn drop(self) {
        let SchemaMaker {
            alloc: _,
            types,
            indexes,
        } = self;
        drop(types);
        drop(indexes);
    }
}

impl Model for SchemaMaker {
    ghost use Rattle.metadata.specs.Asked.{SchemaRequest as Asked};

    ghost Value = { Asked };

    ghost view = { λ s. record { types = s.types.items; indexes = s.indexes.items } };
}

impl SchemaMaker {
    /// Without types and indexes.
    pub fn new(alloc: Global) -> SchemaMaker
        ensures { result ≡ record { types = []; indexes = [] } }
    {
        SchemaMaker {
            alloc,
            types: Vec::new(alloc),
            indexes: Vec::new(alloc),
        }
    }

    /// With one type more: its name, its fields with their kinds, and the names of its key fields.
    pub fn with_type(
        self,
        name: &str,
        list: &[(&str, Kind)],
        key: &[&str],
    ) -> Result<SchemaMaker, AllocError>
        ensures { IfOk result (λ made. made ≡ record self {
          types = self.types ++ asked_type name.now list.now key.now ∷ [];
        }) }
    {
        let mut made = self;
        let request = TypeRequest {
            name: Text::from_str(made.alloc, name)?,
            fields: fields(made.alloc, list)?,
            key: names(made.alloc, key)?,
        };
        made.types.push(request)?;
        Ok(made)
    }

    /// With one index more: what it keeps, its name, that of its type, and those of its columns.
    pub fn with_index(
        self,
        kind: IndexOf<'_>,
        name: &str,
        type_name: &str,
        columns: &[&str],
    ) -> Result<SchemaMaker, AllocError>
        ensures { IfOk result (λ made. made ≡ record self {
          indexes = self.indexes
              ++ asked_index kind.entry name.now type_name.now columns.now ∷ [];
        }) }
    {
        let mut made = self;
        let request = IndexRequest {
            name: Text::from_str(made.alloc, name)?,
            kind: kind_asked(kind),
            type_name: Text::from_str(made.alloc, type_name)?,
            columns: names(made.alloc, columns)?,
            summed: summed_asked(made.alloc, kind)?,
            clear_when_zero: is_cleared(kind),
        };
        made.indexes.push(request)?;
        Ok(made)
    }

    /// What is asked for.
    pub fn into_request(self) -> SchemaRequest
        ensures { result ≡ self }
    {
        let SchemaMaker {
            alloc: _,
            types,
            indexes,
        } = self;
        SchemaRequest::new(types, indexes)
    }

    /// The schema, where none of it is refused: the types are added in their order, then the
    /// indexes. The refusal is that of the first one that is refused.
    pub fn into_schema(self) -> Result<Schema, MetadataError>
        ensures made { IfOk result (λ schema. schema_asked self ≡ Ok schema) }
        ensures refused { IfErr result (λ error. IsRefusedAs error (schema_asked self)) }
    {
        let alloc = self.alloc;
        Schema::of_request(alloc, &self.into_request())
    }
}
