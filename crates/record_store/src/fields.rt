// Fields are appended to the types of a store. Called by `schedule` for the command `field`.
ghost use Rattle.std.specs.Prelude.{◌≡◌, ℕ, Ok, IfOk, IfErr, OnErr, OnOk};
ghost use Rattle.kv_core.specs.Map.{Map};
ghost use Rattle.metadata.specs.Answers.{IsRefusedAs};
ghost use Rattle.metadata.specs.Change.{add_field};
ghost use Rattle.metadata.specs.Lawful.{IsLawfulSchema};
ghost use Rattle.kv_core.specs.Read.{NeverRefuses};
ghost use Rattle.record_store.specs.Call.{IsAnswered, IsRefused};
ghost use Rattle.record_store.specs.Calls.{field_call};

use crate::create::schema_mutations;
use crate::error::StoreError;
use crate::store::{Store, lawful_known, shared_schema};
use metadata::{Field, MetadataError, Schema};
use tuple_codec::Text;
use txn::Transaction;

impl Store {
    // The schema with a field appended to the type of this name.
    fn with_field(&self, type_name: &Text, field: &Field) -> Result<Schema, MetadataError>
        ensures added { IfOk result (λ next. add_field self.now.schema type_name.now field.now ≡ Ok next) }
        ensures lawful { IfOk result IsLawfulSchema }
        ensures refused { IfErr result (λ error.
            IsRefusedAs error (add_field self.now.schema type_name.now field.now)) }
    {
        let old = self.schema();
        lawful_known(old);
        let mut next = old.copy()?;
        next.add_field(type_name, field.copy()?)?;
        Ok(next)
    }

    /// Appends a field to a type of the store's schema. It reads nothing, and writes no record: those
    /// of the type have null there.
    ///
    /// Refused as `Schema::add_field` is, and last with the write limit that the schema meets. After
    /// a refusal the store is as before.
    pub fn add_field(
        &mut self,
        tx: &mut Transaction,
        type_name: &Text,
        field: &Field,
    ) -> Result<(), StoreError>
        ensures added { OnOk result ((maps : ℕ → Map) →
            IsAnswered maps self.old (field_call self.old type_name.now field.now) self.new.schema tx.old tx.new) }
        ensures prefix { OnOk result (self.new.prefix ≡ self.old.prefix) }
        ensures schema { OnOk result (add_field self.old.schema type_name.now field.now ≡ Ok self.new.schema) }
        ensures kept { OnErr result (self.new ≡ self.old) }
        ensures refused { IfErr result (λ error.
            (maps : ℕ → Map) → IsRefused maps NeverRefuses self.old
            (field_call self.old type_name.now field.now) error tx.old tx.new) }
    {
        let next = self.with_field(type_name, field)?;
        let mutations = schema_mutations(self.alloc(), self.prefix(), &next)?;
        let shared = shared_schema(self.alloc(), next)?;
        tx.write_all(mutations)?;
        self.schema = shared;
        Ok(())
    }
}
