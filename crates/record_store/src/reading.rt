// How the record of a key is read. Called by `load`, `save` and `remove`.
ghost use Rattle.std.specs.Prelude.{◌≡◌, ◌∷◌, [], Some, IfOk, IfErr, IsTrue};
ghost use Rattle.std.specs.FinMap.{get as value_at};
ghost use Rattle.std.specs.Option.{option_map};
ghost use Rattle.kv_core.specs.Bytes.{end_of_keys, key_lt};
ghost use Rattle.kv_core.specs.Range.{point};
ghost use Rattle.metadata.specs.Stored.{IsStoredAs};
ghost use Rattle.record_store.specs.Layout.{packed_in};
ghost use Rattle.record_store.specs.Reading.{HasNotRead, IsFound, IsNotFound};
ghost use Rattle.record_store.specs.Steps.{DidRead};

use crate::error::StoreError;
use crate::layout::packed_in;
use crate::store::Store;
use kv_core::Bytes;
use metadata::{Cells, Record, TypeDefinition};
use txn::{Snapshot, Transaction};

// Reads the value at the key of a record.
pub(crate) fn read_value<S: Snapshot>(
    tx: &mut Transaction,
    db: &S,
    key: &Bytes,
) -> Result<Option<Bytes>, StoreError>
    requires { IsTrue (key_lt key.now end_of_keys) }
    ensures read { IfOk result (λ value.
        DidRead (S.map_at db.now) (point key.now ∷ []) tx.old tx.new
        (λ m. value ≡ value_at m key.now)) }
    ensures refused { IfErr result (λ error.
        HasNotRead (S.map_at db.now) (S.may_refuse db.now) (point key.now ∷ [])
        error tx.old tx.new) }
{
    let value = tx.get(db, key)?;
    Ok(value)
}

impl Store {
    // The record of a type that has this key and this value.
    pub(crate) fn record_with(
        &self,
        definition: &TypeDefinition,
        key: &Bytes,
        value: &Bytes,
    ) -> Result<Record, StoreError>
        ensures found { IfOk result
            (IsStoredAs definition.now (packed_in self.now.prefix key.now) value.now) }
        ensures refused { IfErr result
            (IsNotFound definition.now (packed_in self.now.prefix key.now) key.now
            (Some value.now)) }
    {
        let packed = packed_in(self.prefix(), key);
        match Record::decode(self.alloc(), definition, packed, value.as_slice())? {
            Some(found) => Ok(found),
            None => Err(StoreError::Corrupt(key.copy()?)),
        }
    }

    // The cells of that record alone.
    fn cells_with(
        &self,
        definition: &TypeDefinition,
        key: &Bytes,
        value: &Bytes,
    ) -> Result<Cells, StoreError>
        ensures found { IfOk result (λ cells.
            IsStoredAs definition.now (packed_in self.now.prefix key.now) value.now
            (record { definition = definition.now; cells = cells })) }
        ensures refused { IfErr result
            (IsNotFound definition.now (packed_in self.now.prefix key.now) key.now
            (Some value.now)) }
    {
        let packed = packed_in(self.prefix(), key);
        let Some(cells) = definition.cells_in(self.alloc(), packed, value.as_slice())? else {
            return Err(StoreError::Corrupt(key.copy()?));
        };
        Ok(cells)
    }

    // The record of a type that has this key, whose value was found, if one was.
    pub(crate) fn record_of(
        &self,
        definition: &TypeDefinition,
        key: &Bytes,
        value: Option<Bytes>,
    ) -> Result<Option<Record>, StoreError>
        ensures found { IfOk result
            (IsFound definition.now (packed_in self.now.prefix key.now) value) }
        ensures refused { IfErr result
            (IsNotFound definition.now (packed_in self.now.prefix key.now) key.now value) }
    {
        match value {
            None => Ok(None),
            Some(value) => {
                let found = self.record_with(definition, key, &value)?;
                Ok(Some(found))
            }
        }
    }

    // The cells of that record alone.
    pub(crate) fn cells_of(
        &self,
        definition: &TypeDefinition,
        key: &Bytes,
        value: Option<Bytes>,
    ) -> Result<Option<Cells>, StoreError>
        ensures found { IfOk result (λ found.
            IsFound definition.now (packed_in self.now.prefix key.now) value
            (option_map (λ cells. record { definition = definition.now; cells = cells }) found)) }
        ensures refused { IfErr result
            (IsNotFound definition.now (packed_in self.now.prefix key.now) key.now value) }
    {
        let Some(value) = value else {
            return Ok(None);
        };
        let cells = self.cells_with(definition, key, &value)?;
        Ok(Some(cells))
    }
}
