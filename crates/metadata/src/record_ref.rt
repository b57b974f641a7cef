// Records that are lent. Made by `record`, and by `record_store` of a definition and cells; read by
// `index_maint`.
ghost use Rattle.std.specs.Prelude.{◌≡◌, ◌++◌, Ok, Err, IfOk, IfErr, OnOk};
ghost use Rattle.tuple_codec.specs.Item.{IsTuple};
ghost use Rattle.tuple_codec.specs.Spelling.{spelling};
ghost use Rattle.metadata.specs.Record.{primary_key, record_in};

use crate::cells::Cells;
use crate::definition::TypeDefinition;
use crate::record::{check_in, key_tuple, push_number};
use crate::refusal::Refusal;
use std::alloc::{AllocError, Global};
use std::marker::Model;
use tuple_codec::Tuple;

/// A record whose parts are lent: its type's definition, and a cell for each field, which the
/// definition allows.
#[derive(Drop)]
pub struct RecordRef<'a> {
    pub(crate) definition: &'a TypeDefinition,
    pub(crate) cells: &'a Cells,
}

impl<'a> Model for RecordRef<'a> {
    ghost use Rattle.std.specs.Prelude.{◌≡◌, Ok};
    ghost use Rattle.metadata.specs.Record.{Record as RecordValue, record_in};

    ghost Value = { RecordValue };

    ghost view = { λ r. record { definition = r.definition.now; cells = r.cells.now } };

    ghost invariant = { λ r. record_in r.definition.now r.cells.now
        ≡ Ok (record { definition = r.definition.now; cells = r.cells.now }) };
}

impl<'a> RecordRef<'a> {
    /// The record of this type with these cells, one for each field. Refused, in this order:
    /// `WrongKind` (a cell of another kind than its field, or another number of cells than of
    /// fields), `NullKey` (a key field is null).
    pub fn new(definition: &'a TypeDefinition, cells: &'a Cells) -> Result<RecordRef<'a>, Refusal>
        ensures made { IfOk result (λ made. record_in definition.now cells.now ≡ Ok made) }
        ensures refused { IfErr result (λ refusal. record_in definition.now cells.now ≡ Err refusal) }
    {
        match check_in(definition, cells) {
            Ok(()) => Ok(RecordRef { definition, cells }),
            Err(refusal) => Err(refusal),
        }
    }

    /// The definition of the record's type.
    pub fn definition(&self) -> &TypeDefinition
        ensures definition { result.now ≡ self.now.definition }
        ensures made { record_in self.now.definition self.now.cells ≡ Ok self.now }
    {
        self.definition
    }

    /// The cells, in the order of the type's fields.
    pub fn cells(&self) -> &Cells
        ensures { result.now ≡ self.now.cells }
    {
        self.cells
    }

    /// The primary key: the type's number, then the cells of the key fields in the key's order.
    pub fn primary_key(&self, alloc: Global) -> Result<Tuple, AllocError>
        ensures key { IfOk result (λ tuple. tuple ≡ primary_key self.now) }
        ensures is_tuple { IfOk result IsTuple }
    {
        let cells = self.cells.at(alloc, &self.definition.key)?;
        key_tuple(alloc, self.definition.number, &cells)
    }

    /// Appends the pack of the primary key. Where memory is wanting some of its bytes may stand there.
    pub fn push_primary_key(&self, out: &mut Vec<u8>) -> Result<(), AllocError>
        ensures packed { OnOk result (out.new.items ≡ out.old.items ++ spelling (primary_key self.now)) }
        ensures is_tuple { OnOk result (IsTuple (primary_key self.now)) }
    {
        push_number(self.definition.number, out)?;
        self.cells.push_pack_at(&self.definition.key, out)?;
        Ok(())
    }
}
