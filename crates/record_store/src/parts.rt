// How the first records of a type at positions of a range are read. Called by `online_builder`.
ghost use Rattle.std.specs.Prelude.{◌≡◌, ◌≤◌, Some, IfErr, IfOk};
ghost use Rattle.std.specs.List.{Contains};
ghost use Rattle.std.specs.Option.{option_copied};
ghost use Rattle.metadata.specs.Schema.{type_at};
ghost use Rattle.record_store.specs.Building.{HasReadPart, limited_to, positions_range};
ghost use Rattle.record_store.specs.Reading.{HasNotFound};

use crate::error::StoreError;
use crate::layout::{place, positions_range};
use crate::scan::{Records, records_in};
use crate::store::Store;
use kv_core::KeyRange;
use metadata::{IndexDefinition, PLACE_OF_RECORDS, TypeDefinition};
use txn::{Snapshot, Transaction};

// The type with this number.
fn type_at(types: &[TypeDefinition], number: u64) -> Option<&TypeDefinition>
    ensures { option_copied result ≡ type_at types.now number }
{
    types.iter().find(|definition| definition.number == number)
}

impl Store {
    // The type of an index of the schema.
    fn type_over(&self, index: &IndexDefinition) -> &TypeDefinition
        requires { Contains self.now.schema.indexes index.now }
        ensures { type_at self.now.schema.types index.now.type_number ≡ Some result.now }
    {
        match type_at(self.schema().types(), index.type_number) {
            Some(definition) => definition,
            None => unreachable!(),
        }
    }

    /// The first records of the type of an index of the schema at positions of a range, in the order
    /// of their positions, up to a limit of one at least.
    ///
    /// Refused with the snapshot's refusal of the read, and with `Corrupt` and the key of the first
    /// record whose pair isn't of the written form. No more records are read than are answered.
    pub fn first_records<S: Snapshot>(
        &self,
        tx: &mut Transaction,
        db: &S,
        index: &IndexDefinition,
        range: &KeyRange,
        limit: usize,
    ) -> Result<Records, StoreError>
        requires index { Contains self.now.schema.indexes index.now }
        requires limit { 1 ≤ limit }
        ensures read { IfOk result (λ rows.
            HasReadPart (S.map_at db.now) self.now limit index.now range.now rows tx.old tx.new) }
        ensures refused { IfErr result (λ error.
            HasNotFound (S.map_at db.now) (S.may_refuse db.now) self.now
            (limited_to limit (positions_range self.now.prefix index.now.type_number range.now)) error tx.old tx.new) }
    {
        let alloc = self.alloc();
        let definition = self.type_over(index);
        let keys = positions_range(alloc, self.prefix(), index.type_number, range)?;
        let pairs = tx.get_range(db, &keys, limit, false)?;
        let place = place(alloc, self.prefix(), PLACE_OF_RECORDS)?;
        let records = records_in(alloc, place.as_slice(), definition, pairs.as_slice())?;
        Ok(Records::new(records))
    }
}
