// How a record is inserted or replaced. Called by `schedule` for the command `save`, and by
// applications.
ghost use Rattle.std.specs.Prelude.{◌≡◌, ◌∷◌, [], All, Some, IfOk, IfErr, IsTrue, OnOk, map};
ghost use Rattle.std.specs.Option.{option_copied};
ghost use Rattle.metadata.specs.Cell.{IsCell};
ghost use Rattle.metadata.specs.Schema.{find_type};
ghost use Rattle.record_store.specs.Call.{IsAnswered, IsRefused};
ghost use Rattle.kv_core.specs.declared.change.Mutation.TheVariants.{Set};
ghost use Rattle.record_store.specs.Calls.{save_as_call, save_call};
ghost use Rattle.record_store.specs.Meaning.{is_own};
ghost use Rattle.record_store.specs.Layout.{record_value};
ghost use Rattle.record_store.specs.BuiltReading.{position_in};
ghost use Rattle.record_store.specs.Reading.{HaveFollowed, HaveNotFollowed};

use crate::error::StoreError;
use crate::layout::{key_of_record, record_value};
use crate::reading::read_value;
use crate::store::Store;
use kv_core::{Bytes, Mutation, Pair};
use metadata::{Cells, Record, RecordRef};
use tuple_codec::Text;
use txn::{Snapshot, Transaction};

impl Store {
    // Whether the record's type is that of the store's schema.
    fn is_own(&self, new: &Record) -> bool
        ensures { result ≡ is_own (find_type self.now.schema new.now.definition.name) new.now }
    {
        let definition = new.definition();
        match self.schema().type_named(&definition.name) {
            Some(own) => own.is_same(definition),
            None => false,
        }
    }

    // What putting a record at its key in the place of another one writes.
    fn replacement(
        &self,
        new: &RecordRef<'_>,
        old: Option<&Record>,
        key: &Bytes,
        found: &[Vec<Pair>],
    ) -> Result<Vec<Mutation>, StoreError>
        ensures mutations { IfOk result (λ mutations.
            HaveFollowed self.now new.now.definition.number
            (position_in self.now.prefix new.now.definition.number key.now)
            (option_copied old.entry) (Some new.now)
            (map (λ pairs. pairs.items) found.now) self.now.schema.indexes
            (Set key.now (record_value new.now.cells) ∷ [])
            mutations.items) }
        ensures cells { OnOk result (All IsCell new.now.cells) }
        ensures refused { IfErr result (HaveNotFollowed self.now new.now.definition.number
            (position_in self.now.prefix new.now.definition.number key.now)
            (map (λ pairs. pairs.items) found.now)) }
    {
        let alloc = self.alloc();
        let at = key.copy()?;
        let value = record_value(alloc, new.cells())?;
        let mut mutations = Vec::new(alloc);
        mutations.push(Mutation::Set { key: at, value })?;
        let number = new.definition().number;
        let old = old.map(Record::lend);
        let old = old.as_ref();
        self.push_index_changes(number, key, found, old, Some(new), &mut mutations)?;
        Ok(mutations)
    }

    // Puts a record of the schema's own in the place of the one with its primary key, as `save` says.
    fn put<S: Snapshot>(
        &self,
        tx: &mut Transaction,
        db: &S,
        new: &RecordRef<'_>,
    ) -> Result<Option<Record>, StoreError>
        requires { IsTrue (is_own (find_type self.now.schema new.now.definition.name) new.now) }
        ensures refused { IfErr result (λ error.
            IsRefused (S.map_at db.now) (S.may_refuse db.now) self.now
            (save_call self.now new.now) error tx.old tx.new) }
        ensures saved { IfOk result (λ old.
            IsAnswered (S.map_at db.now) self.now (save_call self.now new.now) old tx.old tx.new) }
    {
        let key = key_of_record(self.alloc(), self.prefix(), new)?;
        let definition = new.definition();
        let value = read_value(tx, db, &key)?;
        let found = self.read_built(tx, db, definition.number, &key)?;
        let old = self.record_of(definition, &key, value)?;
        let found = found.as_slice();
        let mutations = self.replacement(new, old.as_ref(), &key, found)?;
        tx.write_all(mutations)?;
        Ok(old)
    }

    /// Puts a record in the place of the one with its primary key, which is answered, and has the
    /// indexes of its type follow, of whatever kind: the readable ones, the entries of write-only
    /// VALUE indexes, and the totals of write-only COUNT and SUM indexes where the record's position is
    /// built. Of each of these last is read, after the record's key and in the order of the indexes'
    /// numbers, the range that begins at the position or last before it; for other indexes nothing is.
    ///
    /// Refused with `OtherSchema` where the store's schema hasn't the record's type, before
    /// anything is read; then with the snapshot's refusal of a read, with `Corrupt` and the key of the
    /// first pair read that isn't of the written form, and last with the write limit that the record
    /// meets.
    pub fn save<S: Snapshot>(
        &self,
        tx: &mut Transaction,
        db: &S,
        new: &Record,
    ) -> Result<Option<Record>, StoreError>
        ensures saved { IfOk result (λ old.
            IsAnswered (S.map_at db.now) self.now (save_call self.now new.now) old tx.old tx.new) }
        ensures refused { IfErr result (λ error.
            IsRefused (S.map_at db.now) (S.may_refuse db.now) self.now
            (save_call self.now new.now) error tx.old tx.new) }
    {
        if !self.is_own(new) {
            return Err(StoreError::OtherSchema);
        }
        let new = new.lend();
        self.put(tx, db, &new)
    }

    /// Saves the record of the type of this name with these cells, one for each field, as `save`
    /// says.
    ///
    /// Refused, in this order, before anything is read: `UnknownType`, `WrongKind` (a cell of
    /// another kind than its field, or another number of cells than of fields), `NullKey` (a key
    /// field is null); then as `save` is.
    pub fn save_as<S: Snapshot>(
        &self,
        tx: &mut Transaction,
        db: &S,
        type_name: &Text,
        cells: &Cells,
    ) -> Result<Option<Record>, StoreError>
        ensures saved { IfOk result (λ old.
            IsAnswered (S.map_at db.now) self.now
            (save_as_call self.now type_name.now cells.now) old tx.old tx.new) }
        ensures refused { IfErr result (λ error.
            IsRefused (S.map_at db.now) (S.may_refuse db.now) self.now
            (save_as_call self.now type_name.now cells.now) error tx.old tx.new) }
    {
        let definition = self.definition(type_name)?;
        match RecordRef::new(definition, cells) {
            Ok(new) => self.put(tx, db, &new),
            Err(refusal) => Err(StoreError::Refused(refusal)),
        }
    }
}
