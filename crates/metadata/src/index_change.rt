// Indexes are added to a schema and dropped. Called by `schema` and `record_store`; `lawful` holds
// what is read from bytes to the same limits.
ghost use Rattle.std.specs.Prelude.{◌≡◌, ◌<◌, false, Ok, IfOk, IfErr, OnOk, OnErr};
ghost use Rattle.std.specs.Prelude.{◌||◌, not, is_some, length, nat_le, nat_lt, map};
ghost use Rattle.std.specs.Option.{option_copied, option_map_or};
ghost use Rattle.std.specs.Str.{bytes_eq};
ghost use Rattle.metadata.specs.Answers.{IsRefusedAs};
ghost use Rattle.metadata.specs.Change.{has_twice};
ghost use Rattle.metadata.specs.IndexChange.{add_index, drop_index, has_unknown_field, index_asked};
ghost use Rattle.metadata.specs.IndexChange.{index_over, is_int, is_shaped, name_refusal, new_index};
ghost use Rattle.metadata.specs.IndexChange.{over_refusal, place_summed, sums_other, without_index};
ghost use Rattle.metadata.specs.Schema.{find_index, kind_at, place_of};

use crate::cells::Kind;
use crate::definition::{Field, TypeDefinition};
use crate::index::{IndexDefinition, IndexKind, IndexRequest};
use crate::names::{has_twice, has_unknown, is_name, is_same, place_of, places_of};
use crate::refusal::{MetadataError, Refusal};
use crate::schema::Schema;
use std::alloc::{AllocError, Global};
use tuple_codec::Text;

/// The most indexes of a schema.
pub const MAX_INDEXES: usize = 64;

/// The most columns of an index.
pub const MAX_COLUMNS: usize = 8;

/// The last number that an index may have.
pub const MAX_INDEX_NUMBER: u64 = 65_535;

// Whether a field is there, and is of whole numbers.
pub(crate) fn is_int(fields: &[Field], place: usize) -> bool
    ensures { result ≡ is_int (kind_at fields.now place) }
{
    match fields.get(place) {
        Some(field) => field.kind == Kind::Int,
        None => false,
    }
}

// Whether so many columns, a summed field or none, and to be cleared at zero or not, are what the
// kind wants.
pub(crate) fn is_shaped(kind: IndexKind, columns: usize, is_summed: bool, clears: bool) -> bool
    ensures { result ≡ is_shaped kind columns is_summed clears }
{
    match kind {
        IndexKind::Value => columns > 0 && !is_summed && !clears,
        IndexKind::Count => !is_summed,
        IndexKind::Sum => is_summed && !clears,
    }
}

// The place of the summed field, if one is asked for and there.
fn place_summed(fields: &[Field], request: &IndexRequest) -> Option<usize>
    ensures { result ≡ place_summed fields.now request.now.summed }
{
    match &request.summed {
        Some(name) => place_of(fields, name),
        None => None,
    }
}

// Whether a summed field is asked for that isn't one of the fields.
fn is_sum_unknown(fields: &[Field], request: &IndexRequest) -> bool
    ensures { result ≡ option_map_or (λ name. not (is_some (place_of fields.now name))) request.now.summed false }
{
    match &request.summed {
        Some(name) => place_of(fields, name).is_none(),
        None => false,
    }
}

// Whether a column or the summed field isn't one of the fields.
fn has_unknown_field(fields: &[Field], request: &IndexRequest) -> bool
    ensures { result ≡ has_unknown_field fields.now request.now }
{
    has_unknown(fields, request.columns.as_slice()) || is_sum_unknown(fields, request)
}

// Whether the summed field isn't of whole numbers.
fn sums_other(fields: &[Field], request: &IndexRequest) -> bool
    ensures { result ≡ sums_other fields.now (place_summed fields.now request.now.summed) }
{
    match place_summed(fields, request) {
        Some(place) => !is_int(fields, place),
        None => false,
    }
}

// Whether the columns and the summed field aren't those of an index of this kind.
fn is_bad_index(request: &IndexRequest) -> bool
    ensures { result ≡ (not (is_shaped request.now.kind (length request.now.columns) (is_some request.now.summed)
        request.now.clear_when_zero)
        || has_twice bytes_eq request.now.columns) }
{
    let columns = request.columns.as_slice();
    let is_summed = request.summed.is_some();
    let clears = request.clear_when_zero;
    !is_shaped(request.kind, columns.len(), is_summed, clears) || has_twice(columns)
}

impl Schema {
    /// The indexes, in the order of their numbers.
    pub fn indexes(&self) -> &[IndexDefinition]
        ensures { result.now ≡ self.now.indexes }
    {
        self.indexes.as_slice()
    }

    /// The index of this name, if there is one.
    pub fn index_named(&self, name: &Text) -> Option<&IndexDefinition>
        ensures { option_copied result ≡ find_index self.now name.now }
    {
        self.indexes.iter().find(|index| is_same(&index.name, name))
    }

    // Whether there would be more indexes, columns or index numbers than there may be.
    fn has_too_many_for(&self, request: &IndexRequest) -> bool
        ensures { result ≡ (nat_lt 63 (length self.now.indexes) || nat_lt 8 (length request.now.columns)
            || nat_le 65535 self.now.last_index) }
    {
        self.indexes.len() >= MAX_INDEXES
            || request.columns.as_slice().len() > MAX_COLUMNS
            || self.last_index >= MAX_INDEX_NUMBER
    }

    // Why an index isn't added for its name.
    fn name_refusal(&self, request: &IndexRequest) -> Option<Refusal>
        ensures { result ≡ name_refusal self.now request.now }
    {
        if !is_name(&request.name) {
            return Some(Refusal::BadName);
        }
        if self.index_named(&request.name).is_some() {
            return Some(Refusal::NameTaken);
        }
        None
    }

    // Why an index isn't added over a type.
    fn over_refusal(&self, definition: &TypeDefinition, request: &IndexRequest) -> Option<Refusal>
        ensures { result ≡ over_refusal self.now definition.now request.now }
    {
        let fields = definition.fields.as_slice();
        if has_unknown_field(fields, request) {
            return Some(Refusal::UnknownField);
        }
        if sums_other(fields, request) {
            return Some(Refusal::WrongKind);
        }
        if is_bad_index(request) {
            return Some(Refusal::BadSchema);
        }
        if self.has_too_many_for(request) {
            return Some(Refusal::TooMany);
        }
        None
    }

    // The index that is asked for over a type, with the next number.
    fn index_asked(
        &self,
        definition: &TypeDefinition,
        request: &IndexRequest,
    ) -> Result<IndexDefinition, AllocError>
        requires { self.now.last_index < 65535 }
        ensures { IfOk result (λ index. index ≡ index_asked self.now definition.now request.now) }
    {
        let alloc = *self.indexes.allocator();
        let fields = definition.fields.as_slice();
        let name = request.name.copy()?;
        let columns = places_of(alloc, fields, request.columns.as_slice())?;
        Ok(IndexDefinition {
            number: self.last_index + 1,
            name,
            kind: request.kind,
            type_number: definition.number,
            columns,
            summed: place_summed(fields, request),
            clear_when_zero: request.clear_when_zero,
        })
    }

    /// The index that `add_index` would add, with the number after the one that was given last. It
    /// is refused as `add_index` is.
    pub fn new_index(&self, request: &IndexRequest) -> Result<IndexDefinition, MetadataError>
        ensures made { IfOk result (λ index. new_index self.now request.now ≡ Ok index) }
        ensures refused { IfErr result (λ error. IsRefusedAs error (new_index self.now request.now)) }
    {
        if let Some(refusal) = self.name_refusal(request) {
            return Err(MetadataError::Refused(refusal));
        }
        let Some(definition) = self.type_named(&request.type_name) else {
            return Err(MetadataError::Refused(Refusal::UnknownType));
        };
        if let Some(refusal) = self.over_refusal(definition, request) {
            return Err(MetadataError::Refused(refusal));
        }
        let index = self.index_asked(definition, request)?;
        Ok(index)
    }

    /// Adds an index, with the number after the one that was given last. Refused, in this order:
    /// `BadName` (the name isn't 1 to 32 of `a-z A-Z 0-9 _`), `NameTaken` (another index has it),
    /// `UnknownType`, `UnknownField` (a column, or the summed field, isn't a field of the type),
    /// `WrongKind` (the summed field isn't of whole numbers), `BadSchema` (a VALUE without columns,
    /// a column twice, a SUM without a summed field, or another kind with one, another kind than
    /// COUNT that is to be cleared at zero), `TooMany` (65 indexes, 9 columns, or the last index
    /// number was given). After a refusal the schema is as before.
    pub fn add_index(&mut self, request: &IndexRequest) -> Result<(), MetadataError>
        ensures ok { OnOk result (add_index self.old request.now ≡ Ok self.new) }
        ensures refused { IfErr result (λ error. IsRefusedAs error (add_index self.old request.now)) }
        ensures err { OnErr result (self.new ≡ self.old) }
    {
        let index = self.new_index(request)?;
        let number = index.number;
        self.indexes.push(index)?;
        self.last_index = number;
        Ok(())
    }

    /// Takes out the index of this name. Its name is free again, and its number isn't given to
    /// another index. Refused with `UnknownIndex` where there is no such index, which leaves the
    /// schema as before.
    pub fn drop_index(&mut self, name: &Text) -> Result<(), Refusal>
        ensures ok { OnOk result (drop_index self.old name.now ≡ Ok self.new) }
        ensures refused { IfErr result (λ refusal. drop_index self.old name.now ≡ Err refusal) }
        ensures err { OnErr result (self.new ≡ self.old) }
    {
        let Some(index) = self.index_named(name) else {
            return Err(Refusal::UnknownIndex);
        };
        let number = index.number;
        self.indexes.retain(|index| index.number != number);
        Ok(())
    }
}
