// Schemas, their limits, and how types are added. Used by the modules here that change, write or
// read one, and by `query`, `planner`, `explain`, `record_store`, `schedule` and applications.
ghost use Rattle.std.specs.Prelude.{◌≡◌, ◌∷◌, ◌==◌, ◌||◌, not, is_some, nat_lt};
ghost use Rattle.std.specs.Prelude.{length, None, Ok, true, IfOk, IfErr, OnOk, OnErr};
ghost use Rattle.std.specs.Option.{option_copied};
ghost use Rattle.std.specs.List.{AllByRecursion, list_all};
ghost use Rattle.metadata.specs.declared.index.IndexKind.TheVariants.{Value};
ghost use Rattle.std.specs.Str.{bytes_eq};
ghost use Rattle.metadata.specs.Schema.{find_type};
ghost use Rattle.metadata.specs.Asked.{add_indexes, schema_asked};
ghost use Rattle.metadata.specs.Change.{add_field, add_type, add_types, append_refusal, appended_at};
ghost use Rattle.metadata.specs.Change.{empty_schema, field_names, field_refusal, has_twice, is_name};
ghost use Rattle.metadata.specs.Change.{same_field, schema_of, type_refusal, with_field, with_type};
ghost use Rattle.metadata.specs.Answers.{IsRefusedAs};
ghost use Rattle.metadata.specs.Lawful.{IsLawfulSchema};

use crate::definition::{Field, Fields, SchemaRequest, TypeDefinition, TypeRequest};
use crate::index::{IndexDefinition, IndexRequest};
use crate::names::{are_named, has_twice, has_unknown, is_name, is_same, places_of};
use crate::refusal::{MetadataError, Refusal};
use std::alloc::{AllocError, Global};
use std::marker::Model;
use tuple_codec::Text;

/// The most types of a schema.
pub const MAX_TYPES: usize = 32;

/// The most fields of a type.
pub const MAX_FIELDS: usize = 32;

/// The most key fields of a type.
pub const MAX_KEY_FIELDS: usize = 8;

// Whether the type's name or a field's isn't a name.
fn has_bad_name(request: &TypeRequest) -> bool
    ensures { result ≡ not (list_all is_name (request.now.name ∷ field_names request.now.fields)) }
{
    !(is_name(&request.name) && are_named(request.fields.as_slice()))
}

// Whether a key has no fields, or one twice.
fn is_bad_key(key: &[Text]) -> bool
    ensures { result ≡ ((length key.now == 0) || has_twice bytes_eq key.now) }
{
    key.is_empty() || has_twice(key)
}

// Why a field isn't appended to a type.
fn append_refusal(definition: &TypeDefinition, field: &Field) -> Option<Refusal>
    ensures { result ≡ append_refusal definition.now field.now }
{
    if definition.fields.place_of(&field.name).is_some() {
        Some(Refusal::NameTaken)
    } else if definition.fields.as_slice().len() >= MAX_FIELDS {
        Some(Refusal::TooMany)
    } else {
        None
    }
}

// Appends a field to the first of the types that has this name. Where memory is wanting the types
// stay as they were.
fn append_field(
    types: &mut Vec<TypeDefinition>,
    name: &Text,
    field: Field,
) -> Result<(), AllocError>
    ensures ok { OnOk result (types.new.items ≡ appended_at name.now field types.old.items) }
    ensures err { OnErr result (types.new.items ≡ types.old.items) }
{
    for place in 0..types.len() {
        if is_same(&types[place].name, name) {
            return types[place].fields.push(field);
        }
    }
    Ok(())
}

// Equal types.
fn copy_types(alloc: Global, types: &[TypeDefinition]) -> Result<Vec<TypeDefinition>, AllocError>
    ensures { IfOk result (λ copy. copy.items ≡ types.now) }
{
    let mut copy = Vec::with_capacity(alloc, types.len())?;
    for definition in types {
        copy.push(definition.copy()?)?;
    }
    Ok(copy)
}

// Equal indexes.
fn copy_indexes(
    alloc: Global,
    indexes: &[IndexDefinition],
) -> Result<Vec<IndexDefinition>, AllocError>
    ensures { IfOk result (λ copy. copy.items ≡ indexes.now) }
{
    let mut copy = Vec::with_capacity(alloc, indexes.len())?;
    for index in indexes {
        copy.push(index.copy()?)?;
    }
    Ok(copy)
}

/// The types of a store and its indexes, both in the order of their numbers.
pub struct Schema {
    pub(crate) types: Vec<TypeDefinition>,
    // The number that was given to an index last. Numbers aren't given twice.
    pub(crate) last_index: u64,
    pub(crate) indexes: Vec<IndexDefinition>,
}

// Written out, so that no proof of a caller has to take its parts apart where one is dropped.
impl Drop for Schema {
    fn drop(self) {
        let Schema {
            types,
            last_index: _,
            indexes,
        } = self;
        drop(types);
        drop(indexes);
    }
}

impl Model for Schema {
    ghost use Rattle.metadata.specs.Schema.{Schema as SchemaValue};
    ghost use Rattle.metadata.specs.Lawful.{IsLawfulSchema};

    ghost Value = { SchemaValue };

    ghost view = { λ s. record { types = s.types.items; last_index = s.last_index; indexes = s.indexes.items } };

    ghost invariant = { λ s. IsLawfulSchema
        (record { types = s.types.items; last_index = s.last_index; indexes = s.indexes.items }) };
}

impl Schema {
    /// The schema without types and indexes.
    pub fn new(alloc: Global) -> Schema
        ensures { result ≡ empty_schema }
    {
        Schema {
            types: Vec::new(alloc),
            last_index: 0,
            indexes: Vec::new(alloc),
        }
    }

    // Adds types in their order, as far as the first that `add_type` refuses.
    fn add_types(&mut self, types: &[TypeRequest]) -> Result<(), MetadataError>
        ensures ok { OnOk result (add_types self.old types.now ≡ Ok self.new) }
        ensures refused { IfErr result (λ error. IsRefusedAs error (add_types self.old types.now)) }
    {
        for one in types {
            self.add_type(one)?;
        }
        Ok(())
    }

    // Adds indexes in their order, as far as the first that `add_index` refuses.
    fn add_indexes(&mut self, indexes: &[IndexRequest]) -> Result<(), MetadataError>
        ensures ok { OnOk result (add_indexes self.old indexes.now ≡ Ok self.new) }
        ensures refused { IfErr result (λ error. IsRefusedAs error (add_indexes self.old indexes.now)) }
    {
        for index in indexes {
            self.add_index(index)?;
        }
        Ok(())
    }

    /// The schema of this request: its types are added to the empty schema in their order, then its
    /// indexes. The refusal is that of the first `add_type` or `add_index` that refuses.
    pub fn of_request(alloc: Global, request: &SchemaRequest) -> Result<Schema, MetadataError>
        ensures made { IfOk result (λ schema. schema_asked request.now ≡ Ok schema) }
        ensures kinds { IfOk result (λ schema. AllByRecursion (λ one. one.kind ≡ Value) request.now.indexes →
            AllByRecursion (λ index. index.kind ≡ Value) schema.indexes) }
        ensures refused { IfErr result (λ error. IsRefusedAs error (schema_asked request.now)) }
    {
        let mut schema = Schema::new(alloc);
        schema.add_types(request.types())?;
        schema.add_indexes(request.indexes())?;
        Ok(schema)
    }

    // The schema of these types alone, which are handed over.
    pub(crate) fn of_types(alloc: Global, types: Vec<TypeRequest>) -> Result<Schema, MetadataError>
        ensures made { IfOk result (λ schema. schema_of types.items ≡ Ok schema) }
        ensures refused { IfErr result (λ error. IsRefusedAs error (schema_of types.items)) }
    {
        let mut schema = Schema::new(alloc);
        for one in types {
            schema.take_type(one)?;
        }
        Ok(schema)
    }

    // The types, handed back.
    pub(crate) fn into_types(self) -> Vec<TypeDefinition>
        ensures { result.items ≡ self.types }
    {
        let Schema {
            types,
            last_index: _,
            indexes,
        } = self;
        drop(indexes);
        types
    }

    // The schema of these types and indexes.
    pub(crate) fn of_parts(
        types: Vec<TypeDefinition>,
        last_index: u64,
        indexes: Vec<IndexDefinition>,
    ) -> Schema
        requires { IsLawfulSchema
            (record { types = types.items; last_index = last_index; indexes = indexes.items }) }
        ensures { result ≡ record { types = types.items; last_index = last_index; indexes = indexes.items } }
    {
        Schema {
            types,
            last_index,
            indexes,
        }
    }

    /// The types, in the order of their numbers. The schema is lawful, as each one is that calls make.
    pub fn types(&self) -> &[TypeDefinition]
        ensures types { result.now ≡ self.now.types }
        ensures lawful { IsLawfulSchema self.now }
    {
        self.types.as_slice()
    }

    /// The type of this name, if there is one.
    pub fn type_named(&self, name: &Text) -> Option<&TypeDefinition>
        ensures { option_copied result ≡ find_type self.now name.now }
    {
        self.types
            .iter()
            .find(|definition| is_same(&definition.name, name))
    }

    // Whether the name is that of a type, or two fields have one name.
    fn has_name_taken(&self, request: &TypeRequest) -> bool
        ensures { result ≡ (is_some (find_type self.now request.now.name) || has_twice same_field request.now.fields) }
    {
        self.type_named(&request.name).is_some() || has_twice(request.fields.as_slice())
    }

    // Whether there would be more types, fields or key fields than there may be.
    fn has_too_many(&self, request: &TypeRequest) -> bool
        ensures { result ≡ (nat_lt 31 (length self.now.types) || nat_lt 32 (length request.now.fields)
            || nat_lt 8 (length request.now.key)) }
    {
        self.types.len() >= MAX_TYPES
            || request.fields.as_slice().len() > MAX_FIELDS
            || request.key.as_slice().len() > MAX_KEY_FIELDS
    }

    // Whether a name or a count keeps a type from being added: the first reason.
    fn refusal(&self, request: &TypeRequest) -> Option<Refusal>
        ensures { result ≡ type_refusal self.now request.now }
    {
        if has_bad_name(request) {
            return Some(Refusal::BadName);
        }
        if self.has_name_taken(request) {
            return Some(Refusal::NameTaken);
        }
        if has_unknown(request.fields.as_slice(), request.key.as_slice()) {
            return Some(Refusal::UnknownField);
        }
        if is_bad_key(request.key.as_slice()) {
            return Some(Refusal::BadSchema);
        }
        if self.has_too_many(request) {
            return Some(Refusal::TooMany);
        }
        None
    }

    // Adds a type of this name and these fields, whose key fields have these names, with the next number.
    fn push_type(&mut self, name: Text, fields: Fields, key: &[Text]) -> Result<(), AllocError>
        requires { type_refusal self.now (record { name = name; fields = fields; key = key.now }) ≡ None }
        ensures ok { OnOk result (self.new
            ≡ with_type self.old (record { name = name; fields = fields; key = key.now })) }
        ensures err { OnErr result (self.new ≡ self.old) }
    {
        let alloc = *self.types.allocator();
        let key = places_of(alloc, fields.as_slice(), key)?;
        let first_fields = fields.as_slice().len();
        self.types.push(TypeDefinition {
            number: self.types.len() as u64 + 1,
            name,
            fields,
            key,
            first_fields,
        })?;
        Ok(())
    }

    // Adds a type as `add_type` does, by a request that is handed over.
    fn take_type(&mut self, request: TypeRequest) -> Result<(), MetadataError>
        ensures ok { OnOk result (add_type self.old request ≡ Ok self.new) }
        ensures refused { IfErr result (λ error. IsRefusedAs error (add_type self.old request)) }
        ensures err { OnErr result (self.new ≡ self.old) }
    {
        if let Some(refusal) = self.refusal(&request) {
            return Err(MetadataError::Refused(refusal));
        }
        self.push_type(request.name, request.fields, request.key.as_slice())?;
        Ok(())
    }

    /// Adds a type, with the next number. Refused, in this order: `BadName` (a name of the type or
    /// of a field isn't 1 to 32 of `a-z A-Z 0-9 _`), `NameTaken` (the type's name stands already,
    /// or two fields have one name), `UnknownField` (a key field isn't a field), `BadSchema` (no
    /// key field, or one twice), `TooMany` (33 types or fields, or 9 key fields). After a refusal
    /// the schema is as before.
    pub fn add_type(&mut self, request: &TypeRequest) -> Result<(), MetadataError>
        ensures ok { OnOk result (add_type self.old request.now ≡ Ok self.new) }
        ensures refused { IfErr result (λ error. IsRefusedAs error (add_type self.old request.now)) }
        ensures err { OnErr result (self.new ≡ self.old) }
    {
        if let Some(refusal) = self.refusal(request) {
            return Err(MetadataError::Refused(refusal));
        }
        let name = request.name.copy()?;
        let fields = request.fields.copy()?;
        self.push_type(name, fields, request.key.as_slice())?;
        Ok(())
    }

    // Why a field isn't appended to the type of this name.
    fn field_refusal(&self, type_name: &Text, field: &Field) -> Option<Refusal>
        ensures { result ≡ field_refusal self.now type_name.now field.now }
    {
        if !is_name(&field.name) {
            return Some(Refusal::BadName);
        }
        match self.type_named(type_name) {
            Some(definition) => append_refusal(definition, field),
            None => Some(Refusal::UnknownType),
        }
    }

    // Appends a field that isn't refused.
    fn push_field(&mut self, type_name: &Text, field: Field) -> Result<(), AllocError>
        requires { field_refusal self.now type_name.now field ≡ None }
        ensures ok { OnOk result (self.new ≡ with_field self.old type_name.now field) }
        ensures err { OnErr result (self.new ≡ self.old) }
    {
        append_field(&mut self.types, type_name, field)
    }

    /// Appends a field to the type of this name: records that were stored before have null there.
    /// Refused, in this order: `BadName` (its name isn't 1 to 32 of `a-z A-Z 0-9 _`), `NameTaken`
    /// (another field of the type has it), `UnknownType`, `TooMany` (33 fields). After a refusal the
    /// schema is as before.
    pub fn add_field(&mut self, type_name: &Text, field: Field) -> Result<(), MetadataError>
        ensures ok { OnOk result (add_field self.old type_name.now field ≡ Ok self.new) }
        ensures refused { IfErr result (λ error. IsRefusedAs error (add_field self.old type_name.now field)) }
        ensures err { OnErr result (self.new ≡ self.old) }
    {
        if let Some(refusal) = self.field_refusal(type_name, &field) {
            return Err(MetadataError::Refused(refusal));
        }
        self.push_field(type_name, field)?;
        Ok(())
    }

    /// An equal schema.
    pub fn copy(&self) -> Result<Schema, AllocError>
        ensures { IfOk result (λ copy. copy ≡ self.now) }
    {
        let types = copy_types(*self.types.allocator(), &self.types)?;
        let indexes = copy_indexes(*self.indexes.allocator(), &self.indexes)?;
        Ok(Schema {
            types,
            last_index: self.last_index,
            indexes,
        })
    }
}
