// The schema that was opened last, by the bytes that stand for it, and the states of its indexes, by
// their pairs. Whoever opens stores again and again keeps one, and `opening` asks it before it
// decodes them.
ghost use Rattle.std.specs.Prelude.{◌≡◌, IfOk, IfErr, IfSome, IsTrue, MatchBool};
ghost use Rattle.std.specs.Option.{IsSomeAnd};
ghost use Rattle.std.proofs.Props.{props};
ghost use Rattle.kv_core.specs.Bytes.{end_of_keys, key_lt};
ghost use Rattle.metadata.specs.Lawful.{IsLawfulSchema};
ghost use Rattle.metadata.specs.Written.{schema_bytes};
ghost use Rattle.record_store.specs.Reading.{AreStates, HaveNoStates, IsBadSchema};

use crate::error::StoreError;
use crate::found_states::states_found;
use crate::layout::schema_key;
use crate::store::{lawful_known, shared_schema};
use kv_core::{Bytes, Pair};
use metadata::{MetadataError, Schema, State};
use std::alloc::{AllocError, Global};
use std::sync::Arc;

// A schema and the bytes that stand for it; and the states of its indexes, with the pairs that
// stand for them under a prefix.
#[derive(Drop)]
pub(crate) struct Written {
    bytes: Bytes,
    schema: Arc<Schema>,
    prefix: Vec<u8>,
    pairs: Vec<Pair>,
    states: Vec<(u64, State)>,
    ghost same: { bytes ≡ schema_bytes schema.value },
    ghost told: { AreStates prefix.items schema.value.indexes pairs.items states.items } by { Prim.hlevel props },
}

/// The schema that was decoded last, and the states of its indexes: an opening that reads the same
/// bytes again doesn't decode them.
///
/// It changes no answer. One may be kept beside any stores and transactions.
pub struct KnownSchema {
    pub(crate) written: Option<Written>,
}

// Written out, so that no proof of a caller has to take its parts apart where one is dropped.
impl Drop for KnownSchema {
    fn drop(self) {
        let KnownSchema { written } = self;
        drop(written);
    }
}

// Whether two lists of pairs are the same.
fn same_pairs(pairs: &[Pair], others: &[Pair]) -> bool
    ensures { MatchBool result (pairs.now ≡ others.now) (pairs.now ≡ others.now → ⊥) }
{
    pairs == others
}

// The schema of these bytes.
fn decode_schema(alloc: Global, prefix: &[u8], bytes: &Bytes) -> Result<Schema, StoreError>
    requires { IsTrue (key_lt prefix.now end_of_keys) }
    ensures made { IfOk result IsLawfulSchema }
    ensures bytes { IfOk result (λ schema. bytes.now ≡ schema_bytes schema) }
    ensures refused { IfErr result (IsBadSchema prefix.now bytes.now) }
{
    match Schema::decode(alloc, bytes.as_slice()) {
        Ok(schema) => Ok(schema),
        Err(MetadataError::Memory) => Err(StoreError::Memory),
        Err(MetadataError::Refused(_)) => Err(StoreError::Corrupt(schema_key(alloc, prefix)?)),
    }
}

impl KnownSchema {
    /// No schema is known, which takes no memory.
    pub fn new() -> KnownSchema {
        KnownSchema { written: None }
    }

    // The schema of these bytes, where it is the one that is known.
    fn known(&self, bytes: &Bytes) -> Result<Option<Arc<Schema>>, AllocError>
        ensures made { IfOk result (λ found. IfSome found (λ schema. IsLawfulSchema schema.value)) }
        ensures bytes { IfOk result (λ found. IfSome found (λ schema. bytes.now ≡ schema_bytes schema.value)) }
        ensures known { IfOk result (λ found. IfSome found (λ schema.
            IfSome self.now.written (λ last. last.schema.value ≡ schema.value))) }
    {
        match &self.written {
            Some(written) => written.of_bytes(bytes),
            None => Ok(None),
        }
    }

    // The schema of these bytes, which is known then.
    pub(crate) fn schema_of(
        &mut self,
        alloc: Global,
        prefix: &[u8],
        bytes: Bytes,
    ) -> Result<Arc<Schema>, StoreError>
        requires { IsTrue (key_lt prefix.now end_of_keys) }
        ensures made { IfOk result (λ schema. IsLawfulSchema schema.value) }
        ensures bytes { IfOk result (λ schema. bytes ≡ schema_bytes schema.value) }
        ensures known { IfOk result (λ schema.
            IfSome self.new.written (λ last. last.schema.value ≡ schema.value)) }
        ensures refused { IfErr result (IsBadSchema prefix.now bytes) }
    {
        if let Some(schema) = self.known(&bytes)? {
            return Ok(schema);
        }
        let decoded = decode_schema(alloc, prefix, &bytes)?;
        let schema = shared_schema(alloc, decoded)?;
        self.written = Some(Written {
            bytes,
            schema: schema.clone()?,
            prefix: Vec::new(alloc),
            pairs: Vec::new(alloc),
            states: Vec::new(alloc),
        });
        Ok(schema)
    }

    // The states that these pairs stand for, where they are known.
    fn known_states(
        &self,
        alloc: Global,
        prefix: &[u8],
        pairs: &[Pair],
    ) -> Result<Option<Vec<(u64, State)>>, AllocError>
        ensures { IfOk result (λ found. IfSome found (λ states. IsSomeAnd self.now.written (λ last.
            AreStates prefix.now last.schema.value.indexes pairs.now states.items))) }
    {
        match &self.written {
            Some(written) => written.states_of_pairs(alloc, prefix, pairs),
            None => Ok(None),
        }
    }

    // Keeps states and the pairs that stand for them.
    fn keep_states(&mut self, prefix: Vec<u8>, pairs: Vec<Pair>, states: Vec<(u64, State)>)
        requires { IfSome self.old.written (λ last.
            AreStates prefix.items last.schema.value.indexes pairs.items states.items) }
    {
        if let Some(written) = self.written.take() {
            let Written { bytes, schema, .. } = written;
            self.written = Some(Written {
                bytes,
                schema,
                prefix,
                pairs,
                states,
            });
        }
    }

    // The states that pairs stand for, of indexes of the schema that is known; they are known then.
    pub(crate) fn states_of(
        &mut self,
        alloc: Global,
        prefix: &[u8],
        schema: &Schema,
        pairs: Vec<Pair>,
    ) -> Result<Vec<(u64, State)>, StoreError>
        requires below { IsTrue (key_lt prefix.now end_of_keys) }
        requires known { IfSome self.old.written (λ last. last.schema.value ≡ schema.now) }
        ensures found { IfOk result (λ states.
            AreStates prefix.now schema.now.indexes pairs.items states.items) }
        ensures refused { IfErr result (HaveNoStates prefix.now schema.now.indexes pairs.items) }
    {
        if let Some(states) = self.known_states(alloc, prefix, pairs.as_slice())? {
            return Ok(states);
        }
        let states = states_found(alloc, prefix, schema.indexes(), pairs.as_slice())?;
        let told = Vec::from_slice(alloc, states.as_slice())?;
        let prefix = Vec::from_slice(alloc, prefix)?;
        self.keep_states(prefix, pairs, told);
        Ok(states)
    }
}

impl Written {
    // The schema, where these are its bytes.
    fn of_bytes(&self, bytes: &Bytes) -> Result<Option<Arc<Schema>>, AllocError>
        ensures made { IfOk result (λ found. IfSome found (λ schema. IsLawfulSchema schema.value)) }
        ensures bytes { IfOk result (λ found. IfSome found (λ schema. bytes.now ≡ schema_bytes schema.value)) }
        ensures known { IfOk result (λ found.
            IfSome found (λ schema. self.now.schema.value ≡ schema.value)) }
    {
        lawful_known(&self.schema);
        if self.bytes.as_slice() == bytes.as_slice() {
            let schema = self.schema.clone()?;
            Ok(Some(schema))
        } else {
            Ok(None)
        }
    }

    // The states that pairs stand for, where these are the pairs, and the prefix.
    fn states_of_pairs(
        &self,
        alloc: Global,
        prefix: &[u8],
        pairs: &[Pair],
    ) -> Result<Option<Vec<(u64, State)>>, AllocError>
        ensures { IfOk result (λ found. IfSome found (λ states.
            AreStates prefix.now self.now.schema.value.indexes pairs.now states.items)) }
    {
        if self.prefix.as_slice() == prefix && same_pairs(self.pairs.as_slice(), pairs) {
            let states = Vec::from_slice(alloc, self.states.as_slice())?;
            Ok(Some(states))
        } else {
            Ok(None)
        }
    }
}
