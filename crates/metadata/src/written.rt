//! The one written form of a schema. Called by `record_store` where a schema is read or written.
ghost use Rattle.std.specs.Prelude.{◌≡◌, ℕ, List, map, Ok, IfOk, IfErr, IfSome, Some};
ghost use Rattle.std.specs.Option.{option_map};
ghost use Rattle.tuple_codec.specs.Spelling.{Spells};
ghost use Rattle.metadata.specs.Schema.{Schema as SchemaValue};
ghost use Rattle.metadata.specs.Change.{add_field, add_type, schema_of, types_alone};
ghost use Rattle.metadata.specs.IndexChange.{add_index, drop_index};
ghost use Rattle.metadata.specs.declared.index.IndexRequest.{IndexRequest};
ghost use Rattle.metadata.specs.Lawful.{IsLawfulSchema, at_once};
ghost use Rattle.metadata.specs.declared.definition.Field.{Field as FieldValue};
ghost use Rattle.metadata.specs.Reading.{IsTupleUnread, asked_in, tuple_schema, types_in, with_firsts};
ghost use Rattle.metadata.specs.declared.definition.TypeRequest.{TypeRequest};
ghost use Rattle.metadata.specs.Written.{IsNoSchema, IsNoTuple, schema_bytes, written};

use crate::definition::TypeDefinition;
use crate::index_reading::{indexes_in, number_at};
use crate::lawful::{are_grown, has_good_indexes};
use crate::reading::{firsts_in, is_second, requests_in};
use crate::refusal::{MetadataError, Refusal};
use crate::same_form::is_written;
use crate::schema::Schema;
use crate::writing::schema_tuple;
use std::alloc::{AllocError, Global};
use tuple_codec::{Tuple, UnpackFailure, pack, unpack};

// The tuple that bytes spell, refused as `BadSchema` where they spell none.
fn tuple_in(alloc: Global, bytes: &[u8]) -> Result<Tuple, MetadataError>
    ensures spelled { IfOk result (λ tuple. Spells tuple bytes.now) }
    ensures refused { IfErr result (λ error. IsNoTuple error bytes.now) }
{
    match unpack(alloc, bytes) {
        Ok(tuple) => Ok(tuple),
        Err(UnpackFailure::Memory) => Err(MetadataError::Memory),
        Err(UnpackFailure::Refused(_)) => Err(MetadataError::Refused(Refusal::BadSchema)),
    }
}

// The types that a tuple asks for, each as if it had been added with all of its fields.
fn asked_in(alloc: Global, tuple: &Tuple) -> Result<Option<Vec<TypeDefinition>>, AllocError>
    ensures read { IfOk result (λ found. option_map (λ types. types.items) found ≡ asked_in tuple.now) }
    ensures made { IfOk result (λ found. IfSome found (λ types.
        (requests : List TypeRequest) × (schema_of requests ≡ Ok (types_alone types.items)))) }
{
    let Some(requests) = requests_in(alloc, tuple)? else {
        return Ok(None);
    };
    match Schema::of_types(alloc, requests) {
        Ok(schema) => Ok(Some(schema.into_types())),
        Err(MetadataError::Memory) => Err(AllocError),
        Err(MetadataError::Refused(_)) => Ok(None),
    }
}

// The types, added with so many fields each, as far as there are such numbers.
fn with_firsts(types: Vec<TypeDefinition>, firsts: &[usize]) -> Vec<TypeDefinition>
    ensures { result.items ≡ with_firsts firsts.now types.items }
{
    let mut grown = types;
    for (place, first) in firsts.iter().enumerate() {
        if place < grown.len() {
            grown[place].first_fields = *first;
        }
    }
    grown
}

// The types that a tuple asks for, as they have grown by the form that it has.
fn types_in(alloc: Global, tuple: &Tuple) -> Result<Option<Vec<TypeDefinition>>, AllocError>
    ensures read { IfOk result (λ found. option_map (λ types. types.items) found ≡ types_in tuple.now) }
    ensures made { IfOk result (λ found. IfSome found (λ types.
        (requests : List TypeRequest) × (schema_of requests ≡ Ok (types_alone (map at_once types.items))))) }
{
    let Some(asked) = asked_in(alloc, tuple)? else {
        return Ok(None);
    };
    if !is_second(tuple) {
        return Ok(Some(asked));
    }
    let Some(firsts) = firsts_in(alloc, tuple)? else {
        return Ok(None);
    };
    let types = with_firsts(asked, firsts.as_slice());
    Ok(Some(types))
}

// The schema that a tuple tells, refused as `BadSchema` where there is none.
fn schema_in(alloc: Global, tuple: &Tuple) -> Result<Schema, MetadataError>
    ensures made { IfOk result (λ schema. IsLawfulSchema schema × (tuple_schema tuple.now ≡ Some schema)) }
    ensures refused { IfErr result (λ error. IsTupleUnread error tuple.now) }
{
    let Some(types) = types_in(alloc, tuple)? else {
        return Err(MetadataError::Refused(Refusal::BadSchema));
    };
    let Some(last_index) = number_at(tuple, 2) else {
        return Err(MetadataError::Refused(Refusal::BadSchema));
    };
    let Some(indexes) = indexes_in(alloc, tuple)? else {
        return Err(MetadataError::Refused(Refusal::BadSchema));
    };
    if !are_grown(types.as_slice()) {
        return Err(MetadataError::Refused(Refusal::BadSchema));
    }
    if !has_good_indexes(types.as_slice(), last_index, indexes.as_slice()) {
        return Err(MetadataError::Refused(Refusal::BadSchema));
    }
    Ok(Schema::of_parts(types, last_index, indexes))
}

impl Schema {
    /// The bytes of the schema, unless memory runs out: the pack of the tuple
    /// `(form, last type number, last index number, types, indexes)`. The form is 2 exactly where a
    /// type has appended fields or an index is cleared at zero, and else 1.
    ///
    /// A type is `(number, name, ((field name, kind)..), (place of a key field..))`, where kinds are
    /// 1 whole number, 2 text, 3 bytes, and places count from 0. An index is `(number, name, kind,
    /// type number, (place of a column..), place of the summed field or null)`, where kinds are
    /// 1 VALUE, 2 COUNT, 3 SUM. In form 2 a type ends with the number of the fields that it was added
    /// with, and an index with whether it is cleared at zero.
    pub fn encode(&self, alloc: Global) -> Result<Vec<u8>, AllocError>
        ensures { IfOk result (λ bytes. bytes.items ≡ schema_bytes self.now) }
    {
        let tuple = schema_tuple(alloc, self)?;
        pack(alloc, &tuple)
    }

    /// The schema whose bytes these are. They are refused as `BadSchema` exactly where they are those
    /// of no lawful schema: one whose types `add_type` and `add_field` make, and whose indexes are such
    /// as `add_index` and `drop_index` leave.
    pub fn decode(alloc: Global, bytes: &[u8]) -> Result<Schema, MetadataError>
        ensures made { IfOk result IsLawfulSchema }
        ensures bytes { IfOk result (λ schema. bytes.now ≡ schema_bytes schema) }
        ensures refused { IfErr result (λ error. IsNoSchema error bytes.now) }
    {
        let tuple = tuple_in(alloc, bytes)?;
        let schema = schema_in(alloc, &tuple)?;
        if is_written(&schema, &tuple) {
            Ok(schema)
        } else {
            Err(MetadataError::Refused(Refusal::BadSchema))
        }
    }
}

/// The bytes of a lawful schema spell its written form, and are those of no other lawful schema.
pub fn schemas_are_written_once()
    ensures spelled { (schema : SchemaValue) → IsLawfulSchema schema → Spells (written schema) (schema_bytes schema) }
    ensures once { (a b : SchemaValue) → IsLawfulSchema a → IsLawfulSchema b → schema_bytes a ≡ schema_bytes b → a ≡ b }
{}

/// What calls make of lawful schemas is lawful: types that requests make, a type, a field or an
/// index that is added, and an index that is dropped.
pub fn schemas_stay_lawful()
    ensures made { (requests : List TypeRequest) (schema : SchemaValue) → schema_of requests ≡ Ok schema →
        IsLawfulSchema schema }
    ensures types { (schema next : SchemaValue) (request : TypeRequest) → IsLawfulSchema schema →
        add_type schema request ≡ Ok next → IsLawfulSchema next }
    ensures fields { (schema next : SchemaValue) (name : List ℕ) (field : FieldValue) → IsLawfulSchema schema →
        add_field schema name field ≡ Ok next → IsLawfulSchema next }
    ensures indexes { (schema next : SchemaValue) (request : IndexRequest) → IsLawfulSchema schema →
        add_index schema request ≡ Ok next → IsLawfulSchema next }
    ensures dropped { (schema next : SchemaValue) (name : List ℕ) → IsLawfulSchema schema →
        drop_index schema name ≡ Ok next → IsLawfulSchema next }
{}
