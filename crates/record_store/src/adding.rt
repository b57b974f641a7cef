// Indexes are added to a store. Called by `schedule` for the command `index`.
ghost use Rattle.std.specs.Prelude.{◌≡◌, ◌∷◌, Ok, Some, IfOk, IfErr, OnErr, OnOk};
ghost use Rattle.kv_core.specs.declared.change.Mutation.TheVariants.{Set};
ghost use Rattle.metadata.specs.Answers.{IsRefusedAs};
ghost use Rattle.metadata.specs.IndexChange.{add_index};
ghost use Rattle.metadata.specs.Lawful.{IsLawfulSchema};
ghost use Rattle.metadata.specs.Schema.{find_type};
ghost use Rattle.metadata.specs.Written.{schema_bytes};
ghost use Rattle.record_store.specs.Call.{IsAnswered, IsRefused, first_of};
ghost use Rattle.record_store.specs.Calls.{IsIndexedAs, index_call};
ghost use Rattle.record_store.specs.Store.{new_state};
ghost use Rattle.record_store.specs.IndexWrites.{state_writes};
ghost use Rattle.record_store.specs.Layout.{schema_key, type_range};
ghost use Rattle.record_store.specs.Reading.{HasNotFound, HasRead};

use crate::create::schema_mutations;
use crate::error::StoreError;
use crate::layout::{place, state_key, state_value, type_range};
use crate::scan::records_in;
use crate::store::{Store, lawful_known, shared_schema};
use kv_core::Mutation;
use metadata::{
    IndexRequest, MetadataError, PLACE_OF_RECORDS, Record, Schema, State, TypeDefinition,
};
use std::alloc::AllocError;
use txn::{Snapshot, Transaction};

// The state of a new index over these records.
fn state_over(records: &[Record]) -> State
    ensures { result ≡ new_state records.now }
{
    if records.is_empty() {
        State::Readable
    } else {
        State::Disabled
    }
}

impl Store {
    // The schema with one more index.
    fn with_index(&self, request: &IndexRequest) -> Result<Schema, MetadataError>
        ensures added { IfOk result (λ next. add_index self.now.schema request.now ≡ Ok next) }
        ensures lawful { IfOk result IsLawfulSchema }
        ensures refused { IfErr result (λ error. IsRefusedAs error (add_index self.now.schema request.now)) }
    {
        let old = self.schema();
        lawful_known(old);
        let mut next = old.copy()?;
        next.add_index(request)?;
        Ok(next)
    }

    // The state of a new index over this type of the schema. Of the type's records the first alone is read.
    fn new_state<S: Snapshot>(
        &self,
        tx: &mut Transaction,
        db: &S,
        definition: &TypeDefinition,
    ) -> Result<State, StoreError>
        requires { find_type self.now.schema definition.now.name ≡ Some definition.now }
        ensures found { IfOk result (λ state.
            HasRead (S.map_at db.now) self.now definition.now.number state tx.old tx.new) }
        ensures refused { IfErr result (λ error.
            HasNotFound (S.map_at db.now) (S.may_refuse db.now) self.now
            (first_of (type_range self.now.prefix definition.now.number)) error tx.old tx.new) }
    {
        let alloc = self.alloc();
        let range = type_range(alloc, self.prefix(), definition.number)?;
        let pairs = tx.get_range(db, &range, 1, false)?;
        let place = place(alloc, self.prefix(), PLACE_OF_RECORDS)?;
        let records = records_in(alloc, place.as_slice(), definition, pairs.as_slice())?;
        Ok(state_over(records.as_slice()))
    }

    // What adding the index with this number, which leaves this schema, writes where this is its state.
    fn addition(
        &self,
        next: &Schema,
        number: u64,
        state: State,
    ) -> Result<Vec<Mutation>, AllocError>
        ensures { IfOk result (λ mutations.
            mutations.items ≡ Set (schema_key self.now.prefix) (schema_bytes next.now)
            ∷ state_writes self.now.prefix number state) }
    {
        let alloc = self.alloc();
        let mut mutations = schema_mutations(alloc, self.prefix(), next)?;
        if state != State::Readable {
            let key = state_key(alloc, self.prefix(), number)?;
            let value = state_value(alloc, state)?;
            mutations.push(Mutation::Set { key, value })?;
        }
        Ok(mutations)
    }

    /// Adds an index to the store's schema, and answers its state: it is readable where no record of
    /// its type is there, else disabled. Of the type's records only the first is read.
    ///
    /// Refused as `Schema::add_index` is, before anything is read; then with the snapshot's refusal
    /// of the read, with `Corrupt` and the first record's key where its pair isn't of the written
    /// form, and last with the write limit that is met. After a refusal the store is as before.
    pub fn add_index<S: Snapshot>(
        &mut self,
        tx: &mut Transaction,
        db: &S,
        request: &IndexRequest,
    ) -> Result<State, StoreError>
        ensures added { IfOk result (λ state.
            IsAnswered (S.map_at db.now) self.old (index_call self.old request.now) state tx.old tx.new) }
        ensures opened { IfOk result (λ state. IsIndexedAs self.old self.new request.now state) }
        ensures kept { OnErr result (self.new ≡ self.old) }
        ensures refused { IfErr result (λ error.
            IsRefused (S.map_at db.now) (S.may_refuse db.now) self.old
            (index_call self.old request.now) error tx.old tx.new) }
    {
        let index = self.schema().new_index(request)?;
        let next = self.with_index(request)?;
        let definition = self.definition(&request.type_name)?;
        let state = self.new_state(tx, db, definition)?;
        let mutations = self.addition(&next, index.number, state)?;
        let states = self.listed_with(next.indexes(), index.number, state)?;
        let shared = shared_schema(self.alloc(), next)?;
        tx.write_all(mutations)?;
        self.schema = shared;
        self.states = states;
        Ok(state)
    }
}
