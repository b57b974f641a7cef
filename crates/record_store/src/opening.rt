// How a store is opened. Called by `schedule` for each command but `create`, and by applications;
// what an opening reads, `create` reads too.
ghost use Rattle.std.specs.Prelude.{◌≡◌, ◌∷◌, [], IfOk, IfErr, IfSome, IsTrue, OnOk};
ghost use Rattle.std.specs.FinMap.{get as value_at};
ghost use Rattle.kv_core.specs.Bytes.{end_of_keys, key_lt};
ghost use Rattle.kv_core.specs.Map.{pairs_in};
ghost use Rattle.kv_core.specs.Range.{point};
ghost use Rattle.record_store.specs.Layout.{schema_key, states_range};
ghost use Rattle.record_store.specs.Opening.{AreAllowed, IsOpened, IsReadUnder, IsRefusalOfRead};
ghost use Rattle.record_store.specs.Opening.{IsUnopened, StandsOpen, opening_reach};
ghost use Rattle.record_store.specs.Reading.{HasNotRead, IsNoSchemaFound, IsSchema};
ghost use Rattle.record_store.specs.Steps.{DidRead};

use crate::error::StoreError;
use crate::known::KnownSchema;
use crate::layout::{schema_key, states_range};
use crate::store::Store;
use kv_core::{Bytes, KeyRange, Pair};
use metadata::Schema;
use std::alloc::{AllocError, Global};
use std::sync::Arc;
use txn::{Snapshot, Transaction};

/// What an opening reads under a prefix: the point of the schema's key, and the states' range.
#[derive(Drop)]
pub(crate) struct OpeningReads {
    schema: KeyRange,
    states: KeyRange,
}

impl OpeningReads {
    // What an opening under this prefix reads.
    pub(crate) fn under(alloc: Global, prefix: &[u8]) -> Result<OpeningReads, AllocError>
        requires { IsTrue (key_lt prefix.now end_of_keys) }
        ensures { IfOk result (IsReadUnder prefix.now) }
    {
        let key = schema_key(alloc, prefix)?;
        let schema = KeyRange::point(alloc, &key)?;
        let states = states_range(alloc, prefix)?;
        Ok(OpeningReads { schema, states })
    }
}

// Reads the pair of the schema.
pub(crate) fn read_schema<S: Snapshot>(
    alloc: Global,
    prefix: &[u8],
    tx: &mut Transaction,
    db: &S,
) -> Result<Option<Bytes>, StoreError>
    requires { IsTrue (key_lt prefix.now end_of_keys) }
    ensures read { IfOk result (λ written.
        DidRead (S.map_at db.now) (point (schema_key prefix.now) ∷ []) tx.old tx.new (λ m.
        written ≡ value_at m (schema_key prefix.now))) }
    ensures allowed { OnOk result
        (S.must_refuse db.now (point (schema_key prefix.now)) tx.old.read_version → ⊥) }
    ensures refused { IfErr result (λ error.
        HasNotRead (S.map_at db.now) (S.may_refuse db.now)
        (point (schema_key prefix.now) ∷ []) error tx.old tx.new) }
{
    let key = schema_key(alloc, prefix)?;
    let written = tx.get(db, &key)?;
    Ok(written)
}

// Reads the pairs of the states of indexes.
pub(crate) fn read_states<S: Snapshot>(
    alloc: Global,
    prefix: &[u8],
    tx: &mut Transaction,
    db: &S,
) -> Result<Vec<Pair>, StoreError>
    requires { IsTrue (key_lt prefix.now end_of_keys) }
    ensures read { IfOk result (λ states.
        DidRead (S.map_at db.now) (states_range prefix.now ∷ []) tx.old tx.new (λ m.
        states.items ≡ pairs_in m (states_range prefix.now))) }
    ensures allowed { OnOk result
        (S.must_refuse db.now (states_range prefix.now) tx.old.read_version → ⊥) }
    ensures refused { IfErr result (λ error.
        HasNotRead (S.map_at db.now) (S.may_refuse db.now)
        (states_range prefix.now ∷ []) error tx.old tx.new) }
{
    let range = states_range(alloc, prefix)?;
    let states = tx.get_all(db, &range)?;
    Ok(states)
}

// The schema that was read.
fn schema_found(
    alloc: Global,
    prefix: &[u8],
    known: &mut KnownSchema,
    written: Option<Bytes>,
) -> Result<Arc<Schema>, StoreError>
    requires { IsTrue (key_lt prefix.now end_of_keys) }
    ensures found { IfOk result (λ schema. IsSchema written schema.value) }
    ensures known { IfOk result (λ schema.
        IfSome known.new.written (λ last. last.schema.value ≡ schema.value)) }
    ensures refused { IfErr result (IsNoSchemaFound prefix.now written) }
{
    match written {
        None => Err(StoreError::NoStore),
        Some(bytes) => known.schema_of(alloc, prefix, bytes),
    }
}

impl Store {
    /// Opens the store under this prefix, which doesn't begin with the byte FF: reads its schema
    /// and then the states of its indexes, both before it answers anything but a refused read.
    ///
    /// Refused with `NoStore` where no schema stands there, with `Corrupt` and its key where the
    /// first pair that isn't of the written form is the schema's or a state's, and with the
    /// snapshot's refusal of a read. Of the written form are the pairs of those of the schema's
    /// indexes that are write-only or disabled: that of a readable one is never written.
    pub fn open<S: Snapshot>(
        alloc: Global,
        prefix: &[u8],
        tx: &mut Transaction,
        db: &S,
    ) -> Result<Store, StoreError>
        requires { IsTrue (key_lt prefix.now end_of_keys) }
        ensures opened { IfOk result (λ store. IsOpened (S.map_at db.now) store tx.old tx.new) }
        ensures stands { IfOk result (λ store. StandsOpen (S.map_at db.now) store tx.new) }
        ensures prefix { IfOk result (λ store. store.prefix ≡ prefix.now) }
        ensures allowed { OnOk result
            (AreAllowed (S.must_refuse db.now) (opening_reach prefix.now) tx.new.read_version) }
        ensures refused { IfErr result (λ error.
            IsUnopened (S.map_at db.now) (S.may_refuse db.now) prefix.now error tx.old tx.new) }
    {
        let mut known = KnownSchema::new();
        Store::open_knowing(alloc, prefix, tx, db, &mut known)
    }

    /// The same, where a schema and states may be known that needn't be decoded again. The store's
    /// are known then.
    pub fn open_knowing<S: Snapshot>(
        alloc: Global,
        prefix: &[u8],
        tx: &mut Transaction,
        db: &S,
        known: &mut KnownSchema,
    ) -> Result<Store, StoreError>
        requires { IsTrue (key_lt prefix.now end_of_keys) }
        ensures opened { IfOk result (λ store. IsOpened (S.map_at db.now) store tx.old tx.new) }
        ensures stands { IfOk result (λ store. StandsOpen (S.map_at db.now) store tx.new) }
        ensures prefix { IfOk result (λ store. store.prefix ≡ prefix.now) }
        ensures allowed { OnOk result
            (AreAllowed (S.must_refuse db.now) (opening_reach prefix.now) tx.new.read_version) }
        ensures refused { IfErr result (λ error.
            IsUnopened (S.map_at db.now) (S.may_refuse db.now) prefix.now error tx.old tx.new) }
    {
        let written = read_schema(alloc, prefix, tx, db)?;
        let pairs = read_states(alloc, prefix, tx, db)?;
        let schema = schema_found(alloc, prefix, known, written)?;
        let states = known.states_of(alloc, prefix, &schema, pairs)?;
        let reads = OpeningReads::under(alloc, prefix)?;
        let prefix = Vec::from_slice(alloc, prefix)?;
        Ok(Store {
            prefix,
            schema,
            states,
            reads,
        })
    }

    /// Opens the store again in the transaction in which it stands open: whoever keeps it there
    /// asks this before each use, in place of opening it anew.
    ///
    /// It reads nothing, and takes no memory: what an opening reads was read, and is as it was. So
    /// it is refused only with the snapshot's refusal of one of these reads.
    pub fn reopen<S: Snapshot>(&self, tx: &Transaction, db: &S) -> Result<(), StoreError>
        requires { StandsOpen (S.map_at db.now) self.now tx.now }
        ensures opened { OnOk result (IsOpened (S.map_at db.now) self.now tx.now tx.now) }
        ensures allowed { OnOk result
            (AreAllowed (S.must_refuse db.now)
            (opening_reach self.now.prefix) tx.now.read_version) }
        ensures refused { IfErr result (λ error.
            IsUnopened (S.map_at db.now) (S.may_refuse db.now)
            self.now.prefix error tx.now tx.now) }
        ensures only { IfErr result
            (IsRefusalOfRead (λ range. S.may_refuse db.now range tx.now.read_version)
            (opening_reach self.now.prefix)) }
    {
        tx.check(db, &self.reads.schema)?;
        tx.check(db, &self.reads.states)?;
        Ok(())
    }
}
