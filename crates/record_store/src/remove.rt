// How a record is removed. Called by `schedule` for the command `remove`.
ghost use Rattle.std.specs.Prelude.{◌∷◌, [], None, Some, IfOk, IfErr, IsTrue, map};
ghost use Rattle.kv_core.specs.Bytes.{end_of_keys, key_lt};
ghost use Rattle.kv_core.specs.Range.{point};
ghost use Rattle.kv_core.specs.declared.change.Mutation.TheVariants.{ClearRange};
ghost use Rattle.record_store.specs.BuiltReading.{position_in};
ghost use Rattle.record_store.specs.Reading.{HaveFollowed, HaveNotFollowed};
ghost use Rattle.record_store.specs.Call.{IsAnswered, IsRefused};
ghost use Rattle.record_store.specs.Calls.{remove_call};

use crate::error::StoreError;
use crate::layout::key_asked;
use crate::reading::read_value;
use crate::store::Store;
use kv_core::{Bytes, KeyRange, Mutation, Pair};
use metadata::{Cells, Record};
use tuple_codec::Text;
use txn::{Snapshot, Transaction};

impl Store {
    // What removing this record of the type with this number writes, which has this key.
    fn removal(
        &self,
        number: u64,
        old: &Record,
        key: &Bytes,
        found: &[Vec<Pair>],
    ) -> Result<Vec<Mutation>, StoreError>
        requires { IsTrue (key_lt key.now end_of_keys) }
        ensures mutations { IfOk result (λ mutations.
            HaveFollowed self.now number (position_in self.now.prefix number key.now)
            (Some old.now) None
            (map (λ pairs. pairs.items) found.now) self.now.schema.indexes
            (ClearRange (point key.now) ∷ []) mutations.items) }
        ensures refused { IfErr result (HaveNotFollowed self.now number
            (position_in self.now.prefix number key.now) (map (λ pairs. pairs.items) found.now)) }
    {
        let alloc = self.alloc();
        let range = KeyRange::point(alloc, key)?;
        let mut mutations = Vec::new(alloc);
        mutations.push(Mutation::ClearRange(range))?;
        let old = old.lend();
        self.push_index_changes(number, key, found, Some(&old), None, &mut mutations)?;
        Ok(mutations)
    }

    /// Takes out the record of the type of this name with these key cells, and tells whether there
    /// was one; the indexes of its type follow as with `save`, and as much is read for them. Where there
    /// was none nothing is written, and nothing more is read.
    ///
    /// Refused as `load` is before anything is read; then as `save` is.
    pub fn remove<S: Snapshot>(
        &self,
        tx: &mut Transaction,
        db: &S,
        type_name: &Text,
        key: &Cells,
    ) -> Result<bool, StoreError>
        ensures removed { IfOk result (λ was_there.
            IsAnswered (S.map_at db.now) self.now
            (remove_call self.now type_name.now key.now) was_there tx.old tx.new) }
        ensures refused { IfErr result (λ error.
            IsRefused (S.map_at db.now) (S.may_refuse db.now) self.now
            (remove_call self.now type_name.now key.now) error tx.old tx.new) }
    {
        let definition = self.definition(type_name)?;
        let at = key_asked(self.alloc(), self.prefix(), definition, key)?;
        let Some(value) = read_value(tx, db, &at)? else {
            return Ok(false);
        };
        let found = self.read_built(tx, db, definition.number, &at)?;
        let old = self.record_with(definition, &at, &value)?;
        let found = found.as_slice();
        let mutations = self.removal(definition.number, &old, &at, found)?;
        tx.write_all(mutations)?;
        Ok(true)
    }
}
