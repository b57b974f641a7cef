//! Records in the bytes that they are stored in. Called by `record_store` and `plan_exec`.
ghost use Rattle.std.specs.Prelude.{◌≡◌, ℕ, ◌-◌, ◌++◌, List, length, replicate, IfOk, IfSome, MatchBool};
ghost use Rattle.std.specs.Prelude.{Some};
ghost use Rattle.std.specs.Option.{IfNone};
ghost use Rattle.tuple_codec.specs.Spelling.{spelling};
ghost use Rattle.metadata.specs.Cell.{cells_at};
ghost use Rattle.metadata.specs.Record.{Record as RecordValue, key_items, primary_key};
ghost use Rattle.metadata.specs.Stored.{IsOfNoRecord, IsStoredAs, IsTypeOf, filled};
ghost use Rattle.metadata.specs.Lawful.{IsLawfulSchema};
ghost use Rattle.metadata.specs.Records.{IsStorable};
ghost use Rattle.metadata.specs.Schema.{Schema as SchemaValue, find_type};
ghost use Rattle.metadata.specs.declared.cells.Cell.TheVariants.{Null};
ghost use Rattle.metadata.specs.declared.definition.TypeDefinition.{TypeDefinition as TypeValue};

use crate::cells::{Cell, Cells};
use crate::definition::TypeDefinition;
use crate::record::{Record, check_in};
use std::alloc::{AllocError, Global};
use std::rc::Rc;
use tuple_codec::{TupleInt, strip_int};

// Whether these bytes are the pack of the primary key of the type's number and the cells of its
// key.
#[inline(always)]
fn is_key(definition: &TypeDefinition, cells: &Cells, key: &[u8]) -> bool
    ensures { let items = key_items definition.now.number (cells_at cells.now definition.now.key) in
        MatchBool result (key.now ≡ spelling items) (key.now ≡ spelling items → ⊥) }
{
    let Some(behind) = strip_int(TupleInt::from(definition.number), key) else {
        return false;
    };
    match cells.strip_at(&definition.key, behind) {
        Some(rest) => rest.is_empty(),
        None => false,
    }
}

impl Cells {
    // The cells, with nulls after them up to this count.
    fn with_nulls(self, count: usize) -> Result<Cells, AllocError>
        ensures { IfOk result (λ cells. cells ≡ self ++ replicate (count - length self) Null) }
    {
        let mut cells = self.into_vec();
        for _ in cells.len()..count {
            cells.push(Cell::Null)?;
        }
        Ok(Cells { cells })
    }
}

impl TypeDefinition {
    // The cells of a record by those that are stored, with nulls in the fields that they leave out.
    // None where fewer are stored than the type was added with.
    fn filled(&self, stored: Cells) -> Result<Option<Cells>, AllocError>
        ensures { IfOk result (λ cells. cells ≡ filled self.now stored) }
    {
        if stored.as_slice().len() < self.first_fields {
            return Ok(None);
        }
        let cells = stored.with_nulls(self.fields.as_slice().len())?;
        Ok(Some(cells))
    }

    /// The cells of the record of this type of which these are the pack of its primary key and the
    /// pack of its first cells: of all those that the type was added with, or of more. The others are
    /// null. None where they are those of no record of the type.
    pub fn cells_in(
        &self,
        alloc: Global,
        primary_key: &[u8],
        value: &[u8],
    ) -> Result<Option<Cells>, AllocError>
        ensures found { IfOk result (λ found. IfSome found (λ cells.
            IsStoredAs self.now primary_key.now value.now (record { definition = self.now; cells = cells }))) }
        ensures none { IfOk result (λ found. IfNone found (IsOfNoRecord self.now primary_key.now value.now)) }
    {
        let fields = self.fields.as_slice().len();
        let Some(stored) = Cells::unpack_about(alloc, fields, value)? else {
            return Ok(None);
        };
        let Some(cells) = self.filled(stored)? else {
            return Ok(None);
        };
        match check_in(self, &cells) {
            Ok(()) => {}
            Err(_) => return Ok(None),
        }
        if !is_key(self, &cells, primary_key) {
            return Ok(None);
        }
        Ok(Some(cells))
    }
}

impl Record {
    /// The record of this type of which these are the pack of its primary key and the pack of its
    /// first cells, as `TypeDefinition::cells_in` says. None where they are those of no record of the
    /// type.
    pub fn decode(
        alloc: Global,
        definition: &TypeDefinition,
        primary_key: &[u8],
        value: &[u8],
    ) -> Result<Option<Record>, AllocError>
        ensures found { IfOk result (λ found. IfSome found (IsStoredAs definition.now primary_key.now value.now)) }
        ensures none { IfOk result (λ found. IfNone found (IsOfNoRecord definition.now primary_key.now value.now)) }
    {
        let Some(cells) = definition.cells_in(alloc, primary_key, value)? else {
            return Ok(None);
        };
        let definition = Rc::new(alloc, definition.copy()?)?;
        Ok(Some(Record { definition, cells }))
    }

    /// The same, where the record shares the definition.
    #[inline(always)]
    pub fn decode_shared(
        alloc: Global,
        definition: &Rc<TypeDefinition>,
        primary_key: &[u8],
        value: &[u8],
    ) -> Result<Option<Record>, AllocError>
        ensures found { IfOk result (λ found.
            IfSome found (IsStoredAs definition.now.value primary_key.now value.now)) }
        ensures none { IfOk result (λ found.
            IfNone found (IsOfNoRecord definition.now.value primary_key.now value.now)) }
    {
        let Some(cells) = definition.cells_in(alloc, primary_key, value)? else {
            return Ok(None);
        };
        let definition = definition.clone()?;
        let record = Record { definition, cells };
        Ok(Some(record))
    }
}

/// A key and a value are those of one record of a type at most. Records of a schema's types with one
/// key are of one type and have one primary key. What is stored has a primary key and cells that are
/// values of their types.
pub fn records_are_stored_once()
    ensures once { (type : TypeValue) (key value : List ℕ) (a b : RecordValue) → IsStoredAs type key value a →
        IsStoredAs type key value b → a ≡ b }
    ensures apart { (schema : SchemaValue) (type other : TypeValue) (key value another : List ℕ) (a b : RecordValue) →
        IsLawfulSchema schema → IsTypeOf schema type → IsTypeOf schema other
        → IsStoredAs type key value a → IsStoredAs other key another b
        → (type ≡ other) × (primary_key a ≡ primary_key b) }
    ensures storable { (schema : SchemaValue) (type : TypeValue) (key value : List ℕ) (r : RecordValue) →
        IsLawfulSchema schema → IsTypeOf schema type → IsStoredAs type key value r → IsStorable r }
    ensures typed { (schema : SchemaValue) (name : List ℕ) (type : TypeValue) → IsLawfulSchema schema →
        find_type schema name ≡ Some type → IsTypeOf schema type }
{}
