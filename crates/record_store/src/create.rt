// How a store is made. Called by `schedule` for `create`, and by applications; what writes a
// schema also by `adding`, `indexes` and `types`.
ghost use Rattle.std.specs.Prelude.{◌≡◌, [], None, IfOk, IfErr, IsTrue, OnOk};
ghost use Rattle.kv_core.specs.Bytes.{end_of_keys, key_lt};
ghost use Rattle.record_store.specs.Calls.{schema_writes};
ghost use Rattle.record_store.specs.Opening.{IsNewStore, IsUncreated};
ghost use Rattle.record_store.specs.Reading.{IsThere};

use crate::error::StoreError;
use crate::layout::schema_key;
use crate::opening::{OpeningReads, read_schema, read_states};
use crate::store::{Store, lawful_known, shared_schema};
use kv_core::{Bytes, Mutation};
use metadata::Schema;
use std::alloc::{AllocError, Global};
use txn::{Snapshot, Transaction};

// Refuses to make a store where a pair stands at the schema's key.
fn refuse_store(written: &Option<Bytes>) -> Result<(), StoreError>
    ensures none { OnOk result (written.now ≡ None) }
    ensures refused { IfErr result (IsThere written.now) }
{
    match written {
        None => Ok(()),
        Some(_) => Err(StoreError::AlreadyThere),
    }
}

// What writing a schema is.
pub(crate) fn schema_mutations(
    alloc: Global,
    prefix: &[u8],
    schema: &Schema,
) -> Result<Vec<Mutation>, AllocError>
    requires { IsTrue (key_lt prefix.now end_of_keys) }
    ensures { IfOk result (λ mutations. mutations.items ≡ schema_writes prefix.now schema.now) }
{
    let key = schema_key(alloc, prefix)?;
    let value = Bytes::new(schema.encode(alloc)?);
    let mut mutations = Vec::new(alloc);
    mutations.push(Mutation::Set { key, value })?;
    Ok(mutations)
}

impl Store {
    /// Makes a store of this schema, without records, under this prefix, which doesn't begin with
    /// the byte FF. Its indexes are readable.
    ///
    /// It reads what opening a store reads. Refused with `AlreadyThere` where a pair stands at the
    /// schema's key, with the snapshot's refusal of a read, and with the write limit that the
    /// schema meets.
    pub fn create<S: Snapshot>(
        alloc: Global,
        prefix: &[u8],
        tx: &mut Transaction,
        db: &S,
        schema: &Schema,
    ) -> Result<Store, StoreError>
        requires { IsTrue (key_lt prefix.now end_of_keys) }
        ensures made { IfOk result (IsNewStore (S.map_at db.now) prefix.now schema.now tx.old tx.new) }
        ensures refused { IfErr result (λ error.
            IsUncreated (S.map_at db.now) (S.may_refuse db.now)
            (record { prefix = prefix.now; schema = schema.now; states = [] }) error tx.old tx.new) }
    {
        lawful_known(schema);
        let written = read_schema(alloc, prefix, tx, db)?;
        let _states = read_states(alloc, prefix, tx, db)?;
        refuse_store(&written)?;
        let reads = OpeningReads::under(alloc, prefix)?;
        let own_prefix = Vec::from_slice(alloc, prefix)?;
        let copy = schema.copy()?;
        let own_schema = shared_schema(alloc, copy)?;
        let mutations = schema_mutations(alloc, prefix, schema)?;
        tx.write_all(mutations)?;
        Ok(Store {
            prefix: own_prefix,
            schema: own_schema,
            states: Vec::new(alloc),
            reads,
        })
    }
}
