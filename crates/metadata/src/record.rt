// Records that fit their types, and primary keys. Used by `stored`, and by `query`, `index_maint`,
// `record_store`, `online_builder`, `plan_exec`, `schedule` and `record_layer`.
ghost use Rattle.std.specs.Prelude.{
  ◌≡◌,
  ◌++◌,
  ◌<◌,
  ◌^◌,
  pos,
  Ok,
  Err,
  IfOk,
  IfErr,
  OnOk,
  map,
};
ghost use Rattle.tuple_codec.specs.Item.{IsTuple, int};
ghost use Rattle.tuple_codec.specs.Spelling.{item_spelling, outer, spelling};
ghost use Rattle.metadata.specs.Answers.{IsRefusedAs};
ghost use Rattle.metadata.specs.Cell.{all_fit};
ghost use Rattle.metadata.specs.Record.{key_in, key_items, key_of, primary_key, record_in, record_of};
ghost use Rattle.metadata.specs.Schema.{key_kinds};

use crate::cells::{Cells, flat_tuple};
use crate::definition::{Field, TypeDefinition};
use crate::record_ref::RecordRef;
use crate::refusal::{MetadataError, Refusal};
use crate::schema::Schema;
use std::alloc::{AllocError, Global};
use std::marker::Model;
use std::rc::Rc;
use tuple_codec::{Element, Text, Tuple, TupleInt, pack_int};

/// A record: its type's definition, which records share, and a cell for each field, which the
/// definition allows.
pub struct Record {
    pub(crate) definition: Rc<TypeDefinition>,
    pub(crate) cells: Cells,
}

// Written out, so that no proof of a caller has to take its parts apart where one is dropped.
impl Drop for Record {
    fn drop(self) {
        let Record { definition, cells } = self;
        drop(definition);
        drop(cells);
    }
}

impl Model for Record {
    ghost use Rattle.std.specs.Prelude.{◌≡◌, Ok};
    ghost use Rattle.metadata.specs.Record.{Record as RecordValue, record_in};

    ghost Value = { RecordValue };

    ghost view = { λ r. record { definition = r.definition.value; cells = r.cells } };

    ghost invariant = { λ r. record_in r.definition.value r.cells
        ≡ Ok (record { definition = r.definition.value; cells = r.cells }) };
}

// The primary key of the record of the type with this number and these key cells.
pub(crate) fn key_tuple(alloc: Global, number: u64, cells: &Cells) -> Result<Tuple, AllocError>
    ensures key { IfOk result (λ tuple. tuple ≡ key_items number cells.now) }
    ensures is_tuple { IfOk result IsTuple }
{
    let mut elements = Vec::with_capacity(alloc, cells.as_slice().len() + 1)?;
    elements.push(Element::Int(TupleInt::from(number)))?;
    cells.push_elements(&mut elements)?;
    Ok(flat_tuple(elements))
}

/// The primary key of the record of the type of this name with these key cells: the type's number,
/// then the cells. Refused, in this order: `UnknownType` (no type has the name), `WrongKind` (a
/// cell of another kind than its key field, or another number of cells than of key fields),
/// `NullKey` (a cell is null).
pub fn key_of(
    alloc: Global,
    schema: &Schema,
    type_name: &Text,
    cells: &Cells,
) -> Result<Tuple, MetadataError>
    ensures key { IfOk result (λ tuple. key_of schema.now type_name.now cells.now ≡ Ok tuple) }
    ensures is_tuple { IfOk result IsTuple }
    ensures refused { IfErr result (λ error. IsRefusedAs error (key_of schema.now type_name.now cells.now)) }
{
    let Some(definition) = schema.type_named(type_name) else {
        return Err(MetadataError::Refused(Refusal::UnknownType));
    };
    if let Err(refusal) = definition.check_key(cells) {
        return Err(MetadataError::Refused(refusal));
    }
    Ok(key_tuple(alloc, definition.number, cells)?)
}

impl TypeDefinition {
    // Whether there is a cell for each key field, null or of its kind.
    fn fit_key(&self, cells: &Cells) -> bool
        ensures { result ≡ all_fit (key_kinds self.now) cells.now }
    {
        let mut rest = cells.as_slice();
        for place in self.key.as_slice() {
            let Some(kind) = self.fields.kind_at(*place) else {
                continue;
            };
            let Some((cell, others)) = rest.split_first() else {
                return false;
            };
            if !cell.fits(kind) {
                return false;
            }
            rest = others;
        }
        rest.is_empty()
    }

    // Tells why there is no primary key of this type with these key cells.
    fn check_key(&self, cells: &Cells) -> Result<(), Refusal>
        ensures made { OnOk result (key_in self.now cells.now ≡ Ok (key_items self.now.number cells.now)) }
        ensures refused { IfErr result (λ refusal. key_in self.now cells.now ≡ Err refusal) }
    {
        if !self.fit_key(cells) {
            return Err(Refusal::WrongKind);
        }
        if cells.has_null() {
            return Err(Refusal::NullKey);
        }
        Ok(())
    }

    /// Appends the pack of the primary key of the record of this type with these key cells, as
    /// `key_of` tells it. Refused as `key_of` is where the type is there, and nothing is appended
    /// then. Where memory is wanting some of its bytes may stand there.
    pub fn push_key(&self, cells: &Cells, out: &mut Vec<u8>) -> Result<(), MetadataError>
        ensures key { OnOk result (key_in self.now cells.now ≡ Ok (key_items self.now.number cells.now)) }
        ensures is_tuple { OnOk result (IsTuple (key_items self.now.number cells.now)) }
        ensures packed { OnOk result (out.new.items
            ≡ out.old.items ++ spelling (key_items self.now.number cells.now)) }
        ensures refused { IfErr result (λ error. IsRefusedAs error (key_in self.now cells.now)) }
    {
        if let Err(refusal) = self.check_key(cells) {
            return Err(MetadataError::Refused(refusal));
        }
        push_number(self.number, out)?;
        cells.push_pack(out)?;
        Ok(())
    }
}

// Appends the pack of a type's number, the first element of a primary key. `fits` is the bound that
// an element has.
pub(crate) fn push_number(number: u64, out: &mut Vec<u8>) -> Result<(), AllocError>
    ensures packed { OnOk result (out.new.items
        ≡ out.old.items ++ item_spelling outer (int (pos number))) }
    ensures fits { number < 2 ^ 64 }
{
    pack_int(TupleInt::from(number), out)
}

// Whether there is a cell for each field, null or of its kind.
fn fit_fields(fields: &[Field], cells: &Cells) -> bool
    ensures { result ≡ all_fit (map (λ field. field.kind) fields.now) cells.now }
{
    let mut rest = cells.as_slice();
    for field in fields {
        let Some((cell, others)) = rest.split_first() else {
            return false;
        };
        if !cell.fits(field.kind) {
            return false;
        }
        rest = others;
    }
    rest.is_empty()
}

// Tells why there is no record of this type with these cells.
pub(crate) fn check_in(definition: &TypeDefinition, cells: &Cells) -> Result<(), Refusal>
    ensures made { OnOk result (record_in definition.now cells.now
        ≡ Ok (record { definition = definition.now; cells = cells.now })) }
    ensures refused { IfErr result (λ refusal. record_in definition.now cells.now ≡ Err refusal) }
{
    if !fit_fields(definition.fields.as_slice(), cells) {
        return Err(Refusal::WrongKind);
    }
    if cells.has_null_at(&definition.key) {
        return Err(Refusal::NullKey);
    }
    Ok(())
}

impl Record {
    /// The record of the type of this name with these cells, one for each field. Refused, in this
    /// order: `UnknownType` (no type has the name), `WrongKind` (a cell of another kind than its
    /// field, or another number of cells than of fields), `NullKey` (a key field is null).
    pub fn new(
        alloc: Global,
        schema: &Schema,
        type_name: &Text,
        cells: Cells,
    ) -> Result<Record, MetadataError>
        ensures made { IfOk result (λ made. record_of schema.now type_name.now cells ≡ Ok made) }
        ensures refused { IfErr result (λ error. IsRefusedAs error (record_of schema.now type_name.now cells)) }
    {
        let Some(definition) = schema.type_named(type_name) else {
            return Err(MetadataError::Refused(Refusal::UnknownType));
        };
        if let Err(refusal) = check_in(definition, &cells) {
            return Err(MetadataError::Refused(refusal));
        }
        let definition = Rc::new(alloc, definition.copy()?)?;
        Ok(Record { definition, cells })
    }

    /// The definition of the record's type.
    pub fn definition(&self) -> &TypeDefinition
        ensures definition { result.now ≡ self.now.definition }
        ensures made { record_in self.now.definition self.now.cells ≡ Ok self.now }
    {
        &self.definition
    }

    /// The cells, in the order of the type's fields.
    pub fn cells(&self) -> &Cells
        ensures { result.now ≡ self.now.cells }
    {
        &self.cells
    }

    /// The primary key: the type's number, then the cells of the key fields in the key's order.
    pub fn primary_key(&self, alloc: Global) -> Result<Tuple, AllocError>
        ensures key { IfOk result (λ tuple. tuple ≡ primary_key self.now) }
        ensures is_tuple { IfOk result IsTuple }
    {
        self.lend().primary_key(alloc)
    }

    /// The record, lent.
    pub fn lend(&self) -> RecordRef<'_>
        ensures { result ≡ self.now }
    {
        RecordRef {
            definition: &self.definition,
            cells: &self.cells,
        }
    }

    /// An equal record, which shares the definition.
    pub fn copy(&self) -> Result<Record, AllocError>
        ensures { IfOk result (λ copy. copy ≡ self.now) }
    {
        let cells = self.cells.copy()?;
        let definition = self.definition.clone()?;
        Ok(Record { definition, cells })
    }

    /// The cells, handed back.
    #[inline(always)]
    pub fn into_cells(self) -> Cells
        ensures { result ≡ self.cells }
    {
        let Record { definition, cells } = self;
        drop(definition);
        cells
    }
}
