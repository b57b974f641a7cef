// How the total of a group is read. Called by `schedule` for the command `aggregate`.
ghost use Rattle.std.specs.Prelude.{◌≡◌, ◌==◌, ◌∷◌, [], length, true, None, Some, IfOk, IfErr, OnOk, if◌then◌else◌};
ghost use Rattle.kv_core.specs.Addition.{number_of};
ghost use Rattle.kv_core.specs.Range.{point};
ghost use Rattle.metadata.specs.Group.{fits_group};
ghost use Rattle.metadata.specs.Schema.{find_index};
ghost use Rattle.index_maint.specs.Totals.{IsGroup, group_key};
ghost use Rattle.record_store.specs.Call.{IsAnswered, IsRefused, whole};
ghost use Rattle.record_store.specs.Calls.{aggregate_call};
ghost use Rattle.record_store.specs.Meaning.{total_refusal};
ghost use Rattle.record_store.specs.Reading.{HasNotFound, IsNoTotal, IsTotalFound, IsTotalRead, IsTotalled};
ghost use Rattle.record_store.specs.Steps.{DidRead, unknown_index};
ghost use Rattle.record_store.specs.Store.{state_in};

use crate::error::StoreError;
use crate::store::Store;
use index_maint::group_key;
use kv_core::Bytes;
use metadata::{Cells, IndexDefinition, IndexKind, Refusal, State};
use tuple_codec::Text;
use txn::{Snapshot, Transaction};

// The number of a total's bytes, if there are eight.
fn total_in(bytes: &[u8]) -> Option<u64>
    ensures { result ≡ (if length bytes.now == 8 then Some (number_of bytes.now) else None) }
{
    match bytes {
        [a, b, c, d, e, f, g, h] => Some(u64::from_le_bytes([*a, *b, *c, *d, *e, *f, *g, *h])),
        _ => None,
    }
}

// The total whose bytes were found, where none count as 0.
fn total_found(key: &Bytes, value: Option<Bytes>) -> Result<i64, StoreError>
    ensures found { IfOk result (IsTotalFound value) }
    ensures refused { IfErr result (IsNoTotal key.now value) }
{
    match value {
        None => Ok(0),
        Some(bytes) => match total_in(bytes.as_slice()) {
            Some(total) => Ok(total.cast_signed()),
            None => Err(StoreError::Corrupt(key.copy()?)),
        },
    }
}

impl Store {
    // The index of this name.
    pub(crate) fn index(&self, name: &Text) -> Result<&IndexDefinition, StoreError>
        ensures found { IfOk result (λ index. find_index self.now.schema name.now ≡ Some index.now) }
        ensures refused { IfErr result (λ error.
            (error ≡ unknown_index) × (find_index self.now.schema name.now ≡ None)) }
    {
        match self.schema().index_named(name) {
            Some(index) => Ok(index),
            None => Err(StoreError::Refused(Refusal::UnknownIndex)),
        }
    }

    // Refuses a total of these cells by the index's kind, by the cells, and by the index's state.
    fn refuse_total(&self, index: &IndexDefinition, group: &Cells) -> Result<(), StoreError>
        ensures accepted { OnOk result (total_refusal index.now.kind
            (fits_group self.now.schema index.now group.now) (state_in self.now.states index.now.number) ≡ None) }
        ensures refused { IfErr result (λ error. total_refusal index.now.kind
            (fits_group self.now.schema index.now group.now) (state_in self.now.states index.now.number)
            ≡ Some error) }
    {
        if index.kind == IndexKind::Value {
            return Err(StoreError::NotAggregate);
        }
        if !self.schema().fits_group(index, group) {
            return Err(StoreError::Refused(Refusal::WrongKind));
        }
        if self.state_of(index.number) != State::Readable {
            return Err(StoreError::NotReadable);
        }
        Ok(())
    }

    // Reads the total of a group of an index.
    fn read_total<S: Snapshot>(
        &self,
        tx: &mut Transaction,
        db: &S,
        index: &IndexDefinition,
        group: &Cells,
    ) -> Result<i64, StoreError>
        requires index { IsTotalled self.now index.now }
        requires group { fits_group self.now.schema index.now group.now ≡ true }
        ensures found { IfOk result (λ total.
            DidRead (S.map_at db.now) (point (group_key self.now.prefix index.now.number group.now) ∷ []) tx.old tx.new
            (IsTotalRead self.now index.now group.now total)) }
        ensures refused { IfErr result (λ error.
            HasNotFound (S.map_at db.now) (S.may_refuse db.now) self.now
            (whole (point (group_key self.now.prefix index.now.number group.now) ∷ [])) error tx.old tx.new) }
    {
        let key = group_key(self.alloc(), self.prefix(), index.number, group)?;
        let value = tx.get(db, &key)?;
        let total = total_found(&key, value)?;
        Ok(total)
    }

    /// The total of a group of the COUNT or SUM index of this name, modulo 2^64 and read as signed:
    /// the number of the group's records, or the sum of their summed field, null as 0. A group that
    /// no record is in has the total 0.
    ///
    /// Refused, in this order, before anything is read: `UnknownIndex`, `NotAggregate` (a VALUE
    /// index), `WrongKind` (a cell of another kind than its column, or another number of cells),
    /// `NotReadable`; then with the snapshot's refusal of the read, and with `Corrupt` and the
    /// group's key where the value that stands there hasn't 8 bytes. Only the group's key is read.
    pub fn aggregate<S: Snapshot>(
        &self,
        tx: &mut Transaction,
        db: &S,
        name: &Text,
        group: &Cells,
    ) -> Result<i64, StoreError>
        ensures found { IfOk result (λ total.
            IsAnswered (S.map_at db.now) self.now (aggregate_call self.now name.now group.now) total tx.old tx.new) }
        ensures refused { IfErr result (λ error.
            IsRefused (S.map_at db.now) (S.may_refuse db.now) self.now
            (aggregate_call self.now name.now group.now) error tx.old tx.new) }
    {
        let index = self.index(name)?;
        self.refuse_total(index, group)?;
        let total = self.read_total(tx, db, index, group)?;
        Ok(total)
    }
}
