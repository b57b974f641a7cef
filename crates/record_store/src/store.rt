// The open store, which has the calls here as its methods. Used by `online_builder`, `plan_exec`,
// `schedule` and applications.
ghost use Rattle.std.specs.Prelude.{◌≡◌, None, Some, IfOk, IfErr, IsTrue};
ghost use Rattle.kv_core.specs.Bytes.{end_of_keys, key_lt};
ghost use Rattle.metadata.specs.Lawful.{IsLawfulSchema};
ghost use Rattle.metadata.specs.Schema.{find_type};
ghost use Rattle.record_store.specs.Steps.{unknown_type};

use crate::error::StoreError;
use crate::opening::OpeningReads;
use metadata::{Refusal, Schema, State, TypeDefinition};
use std::alloc::{AllocError, Global};
use std::marker::Model;
use std::sync::Arc;
use tuple_codec::Text;

/// A store that was opened in a transaction: the prefix of its keys, its schema, and the states of
/// those indexes that aren't readable, by their numbers.
///
/// It is used in the transaction in which it was opened, where nothing else writes under its prefix meanwhile.
pub struct Store {
    pub(crate) prefix: Vec<u8>,
    pub(crate) schema: Arc<Schema>,
    pub(crate) states: Vec<(u64, State)>,
    // What opening it reads.
    pub(crate) reads: OpeningReads,
}

// Written out, so that no proof of a caller has to take its parts apart where one is dropped.
impl Drop for Store {
    fn drop(self) {
        let Store {
            prefix,
            schema,
            states,
            reads,
        } = self;
        drop(prefix);
        drop(schema);
        drop(states);
        drop(reads);
    }
}

impl Model for Store {
    ghost use Rattle.std.specs.Prelude.{IsTrue};
    ghost use Rattle.kv_core.specs.Bytes.{end_of_keys, key_lt};
    ghost use Rattle.metadata.specs.Lawful.{IsLawfulSchema};
    ghost use Rattle.record_store.specs.Call.{Opened};
    ghost use Rattle.record_store.specs.Opening.{IsReadUnder};

    ghost Value = { Opened };

    ghost view = { λ s. record { prefix = s.prefix.items; schema = s.schema.value; states = s.states.items } };

    ghost invariant = { λ s. IsTrue (key_lt s.prefix.items end_of_keys) × IsLawfulSchema s.schema.value
        × IsReadUnder s.prefix.items s.reads };
}

// Each schema is lawful: this tells the prover so, and does nothing.
pub(crate) fn lawful_known(schema: &Schema)
    ensures { IsLawfulSchema schema.now }
{
    let _types = schema.types();
}

// The schema, to be shared.
pub(crate) fn shared_schema(alloc: Global, schema: Schema) -> Result<Arc<Schema>, AllocError>
    ensures { IfOk result (λ shared. shared.value ≡ schema) }
{
    let shared = Arc::new(alloc, schema)?;
    Ok(shared)
}

impl Store {
    /// The schema of the store.
    pub fn schema(&self) -> &Schema
        ensures { result.now ≡ self.now.schema }
    {
        &self.schema
    }

    /// The prefix of the store's keys, which doesn't begin with the byte FF.
    pub fn prefix(&self) -> &[u8]
        ensures prefix { result.now ≡ self.now.prefix }
        ensures below { IsTrue (key_lt self.now.prefix end_of_keys) }
        ensures lawful { IsLawfulSchema self.now.schema }
    {
        &self.prefix
    }

    // The definition of the type of this name.
    pub(crate) fn definition(&self, type_name: &Text) -> Result<&TypeDefinition, StoreError>
        ensures found { IfOk result (λ definition. find_type self.now.schema type_name.now ≡ Some definition.now) }
        ensures own { IfOk result (λ definition. find_type self.now.schema definition.now.name ≡ Some definition.now) }
        ensures refused { IfErr result (λ error.
            (error ≡ unknown_type) × (find_type self.now.schema type_name.now ≡ None)) }
    {
        match self.schema().type_named(type_name) {
            Some(definition) => Ok(definition),
            None => Err(StoreError::Refused(Refusal::UnknownType)),
        }
    }

    /// The allocator of the store.
    pub fn alloc(&self) -> Global {
        *self.prefix.allocator()
    }
}
