// What a writer of a record reads of the built positions of write-only indexes. Called by `save`,
// `remove` and `following`.
ghost use Rattle.std.specs.Prelude.{◌≡◌, ◌==◌, ◌&&◌, ◌∷◌, [], map, IfErr, IfOk};
ghost use Rattle.std.specs.List.{Contains};
ghost use Rattle.record_store.specs.BuiltReading.{asks, built_reading, is_asked, position_in};
ghost use Rattle.record_store.specs.Reading.{HasReadBuilt, HasReadOne, IsToldOf, IsUntoldOf};
ghost use Rattle.record_store.specs.Reading.{ReadsHaveStopped};

use crate::error::StoreError;
use crate::layout::{records_prefix, without_first};
use crate::store::Store;
use index_maint::built_place;
use kv_core::{Bytes, Pair};
use metadata::{IndexDefinition, IndexKind, State};
use range_set::{position_told, upto_range};
use std::alloc::{AllocError, Global};
use txn::{Snapshot, Transaction};

// The position of a record of the type with this number, by its key.
fn position_in<'a>(
    alloc: Global,
    prefix: &[u8],
    number: u64,
    key: &'a Bytes,
) -> Result<&'a [u8], AllocError>
    ensures { IfOk result (λ position. position.now ≡ position_in prefix.now number key.now) }
{
    let front = records_prefix(alloc, prefix, number)?;
    Ok(without_first(key.as_slice(), front.len()))
}

// Whether a writer reads of an index of this kind in this state whether its position is built.
fn is_asked(state: State, kind: IndexKind) -> bool
    ensures { result ≡ is_asked state kind }
{
    match state {
        State::Readable => false,
        State::Disabled => false,
        State::WriteOnly => match kind {
            IndexKind::Value => false,
            IndexKind::Count => true,
            IndexKind::Sum => true,
        },
    }
}

impl Store {
    // Whether a writer of a record of the type with this number reads it of the index.
    fn asks(&self, number: u64, index: &IndexDefinition) -> bool
        ensures { result ≡ asks self.now number index.now }
    {
        index.type_number == number && is_asked(self.state_of(index.number), index.kind)
    }

    // Reads of one index what tells whether the position is built, where that is asked for.
    fn read_one_built<S: Snapshot>(
        &self,
        tx: &mut Transaction,
        db: &S,
        number: u64,
        key: &Bytes,
        index: &IndexDefinition,
    ) -> Result<Vec<Pair>, StoreError>
        ensures read { IfOk result (λ pairs.
            HasReadOne (S.map_at db.now) self.now number
            (position_in self.now.prefix number key.now)
            index.now pairs.items tx.old tx.new) }
        ensures refused { IfErr result (λ error.
            ReadsHaveStopped (S.map_at db.now) (S.may_refuse db.now)
            (built_reading self.now number (position_in self.now.prefix number key.now)
            (index.now ∷ [])) error tx.old tx.new) }
    {
        let alloc = self.alloc();
        if !self.asks(number, index) {
            return Ok(Vec::new(alloc));
        }
        let prefix = self.prefix();
        let place = built_place(alloc, prefix, index.number)?;
        let position = position_in(alloc, prefix, number, key)?;
        let range = upto_range(alloc, place.as_slice(), position)?;
        let pairs = tx.get_range(db, &range, 1, true)?;
        Ok(pairs)
    }

    // So of all indexes of the schema, in their order, for a record with this key.
    pub(crate) fn read_built<S: Snapshot>(
        &self,
        tx: &mut Transaction,
        db: &S,
        number: u64,
        key: &Bytes,
    ) -> Result<Vec<Vec<Pair>>, StoreError>
        ensures read { IfOk result (λ found.
            HasReadBuilt (S.map_at db.now) self.now number
            (position_in self.now.prefix number key.now) self.now.schema.indexes
            (map (λ pairs. pairs.items) found.items) tx.old tx.new) }
        ensures refused { IfErr result (λ error.
            ReadsHaveStopped (S.map_at db.now) (S.may_refuse db.now)
            (built_reading self.now number (position_in self.now.prefix number key.now)
            self.now.schema.indexes) error tx.old tx.new) }
    {
        let mut found = Vec::new(self.alloc());
        for index in self.schema().indexes() {
            let pairs = self.read_one_built(tx, db, number, key, index)?;
            found.push(pairs)?;
        }
        Ok(found)
    }

    // Whether the position is built in the index, by what was found, where that is asked for.
    pub(crate) fn is_built(
        &self,
        number: u64,
        key: &Bytes,
        index: &IndexDefinition,
        found: &[Pair],
    ) -> Result<bool, StoreError>
        requires { Contains self.now.schema.indexes index.now }
        ensures told { IfOk result (IsToldOf self.now number
            (position_in self.now.prefix number key.now) index.now found.now) }
        ensures refused { IfErr result (IsUntoldOf self.now number
            (position_in self.now.prefix number key.now) index.now found.now) }
    {
        if !self.asks(number, index) {
            return Ok(false);
        }
        let alloc = self.alloc();
        let prefix = self.prefix();
        let place = built_place(alloc, prefix, index.number)?;
        let position = position_in(alloc, prefix, number, key)?;
        let told = position_told(alloc, place.as_slice(), found, position)?;
        Ok(told)
    }
}
