// Types are added to a store. Called by `schedule` for the command `type`.
ghost use Rattle.std.specs.Prelude.{◌≡◌, ℕ, Ok, Option, IfOk, IfErr, OnErr, OnOk};
ghost use Rattle.kv_core.specs.Map.{Map};
ghost use Rattle.metadata.specs.Answers.{IsRefusedAs};
ghost use Rattle.metadata.specs.Change.{add_type};
ghost use Rattle.metadata.specs.Lawful.{IsLawfulSchema};
ghost use Rattle.kv_core.specs.Read.{NeverRefuses};
ghost use Rattle.record_store.specs.Call.{IsAnswered, IsRefused};
ghost use Rattle.record_store.specs.Calls.{type_call};

use crate::create::schema_mutations;
use crate::error::StoreError;
use crate::store::{Store, lawful_known, shared_schema};
use metadata::{MetadataError, Schema, TypeRequest};
use txn::Transaction;

impl Store {
    // The schema with one more type.
    fn with_type(&self, request: &TypeRequest) -> Result<Schema, MetadataError>
        ensures added { IfOk result (λ next. add_type self.now.schema request.now ≡ Ok next) }
        ensures lawful { IfOk result IsLawfulSchema }
        ensures refused { IfErr result (λ error. IsRefusedAs error (add_type self.now.schema request.now)) }
    {
        let old = self.schema();
        lawful_known(old);
        let mut next = old.copy()?;
        next.add_type(request)?;
        Ok(next)
    }

    /// Adds a type to the store's schema. It reads nothing.
    ///
    /// Refused as `Schema::add_type` is, and last with the write limit that the schema meets. After
    /// a refusal the store is as before.
    pub fn add_type(
        &mut self,
        tx: &mut Transaction,
        request: &TypeRequest,
    ) -> Result<(), StoreError>
        ensures added { OnOk result ((maps : ℕ → Map) →
            IsAnswered maps self.old (type_call self.old request.now) self.new.schema tx.old tx.new) }
        ensures prefix { OnOk result (self.new.prefix ≡ self.old.prefix) }
        ensures schema { OnOk result (add_type self.old.schema request.now ≡ Ok self.new.schema) }
        ensures kept { OnErr result (self.new ≡ self.old) }
        ensures refused { IfErr result (λ error.
            (maps : ℕ → Map) → IsRefused maps NeverRefuses self.old
            (type_call self.old request.now) error tx.old tx.new) }
    {
        let next = self.with_type(request)?;
        let mutations = schema_mutations(self.alloc(), self.prefix(), &next)?;
        let shared = shared_schema(self.alloc(), next)?;
        tx.write_all(mutations)?;
        self.schema = shared;
        Ok(())
    }
}
