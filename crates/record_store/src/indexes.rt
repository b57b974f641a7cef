// The states of a store's indexes; its indexes are dropped. Called by `schedule` for the commands
// `state` and `drop`, by `plan_exec`, and by `adding` and `marks`.
ghost use Rattle.std.specs.Prelude.{◌≡◌, ◌++◌, ◌∷◌, [], ℕ, Ok, Err, IfOk, IfErr, OnErr, OnOk, if◌then◌else◌};
ghost use Rattle.kv_core.specs.Map.{Map};
ghost use Rattle.metadata.specs.Schema.{find_index};
ghost use Rattle.kv_core.specs.Range.{point};
ghost use Rattle.kv_core.specs.declared.change.Mutation.TheVariants.{Set, ClearRange};
ghost use Rattle.metadata.specs.Answers.{IsRefusedAs};
ghost use Rattle.metadata.specs.Index.{is_readable};
ghost use Rattle.metadata.specs.IndexChange.{without_index};
ghost use Rattle.metadata.specs.Lawful.{IsLawfulSchema};
ghost use Rattle.metadata.specs.Written.{schema_bytes};
ghost use Rattle.record_store.specs.IndexWrites.{clear_kept};
ghost use Rattle.record_store.specs.Layout.{built_range, entries_range, schema_key, state_key};
ghost use Rattle.record_store.specs.Store.{listed_by, altered_at, state_in};
ghost use Rattle.kv_core.specs.Read.{NeverRefuses};
ghost use Rattle.record_store.specs.Call.{IsAnswered, IsRefused};
ghost use Rattle.record_store.specs.Calls.{drop_call};
ghost use Rattle.record_store.specs.Calls.{index_states, opened_without, state_named};
ghost use Rattle.record_store.specs.Meaning.{index_number};

use crate::create::schema_mutations;
use crate::error::StoreError;
use crate::layout::{built_range, entries_range, state_key};
use crate::store::{Store, lawful_known, shared_schema};
use kv_core::{KeyRange, Mutation};
use metadata::{IndexDefinition, MetadataError, Refusal, Schema, State};
use std::alloc::{AllocError, Global};
use tuple_codec::Text;
use txn::Transaction;

// Puts the state of the index with this number after others, unless it is readable.
fn push_listed(number: u64, state: State, states: &mut Vec<(u64, State)>) -> Result<(), AllocError>
    ensures { OnOk result (states.new.items
        ≡ states.old.items ++ (if is_readable state then [] else (number, state) ∷ [])) }
{
    if state != State::Readable {
        states.push((number, state))?;
    }
    Ok(())
}

impl Store {
    // The states that are listed of these indexes, where the one with this number has this state
    // and each other one the state that it has.
    pub(crate) fn listed_with(
        &self,
        indexes: &[IndexDefinition],
        number: u64,
        state: State,
    ) -> Result<Vec<(u64, State)>, AllocError>
        ensures { IfOk result (λ states.
            states.items ≡ listed_by indexes.now (altered_at number state (state_in self.now.states))) }
    {
        let mut states = Vec::new(self.alloc());
        for index in indexes {
            let own = self.state_of(index.number);
            let now = if index.number == number { state } else { own };
            push_listed(index.number, now, &mut states)?;
        }
        Ok(states)
    }

    // The number of the index of this name.
    pub(crate) fn index_number(&self, name: &Text) -> Result<u64, MetadataError>
        ensures found { IfOk result (λ number. index_number (find_index self.now.schema name.now) ≡ Ok number) }
        ensures refused { IfErr result (λ error.
            IsRefusedAs error (index_number (find_index self.now.schema name.now))) }
    {
        match self.schema().index_named(name) {
            Some(index) => Ok(index.number),
            None => Err(MetadataError::Refused(Refusal::UnknownIndex)),
        }
    }

    // The schema without the index of this name, which has this number.
    fn schema_without(&self, name: &Text, number: u64) -> Result<Schema, AllocError>
        requires { index_number (find_index self.now.schema name.now) ≡ Ok number }
        ensures next { IfOk result (λ next. next ≡ without_index self.now.schema number) }
        ensures lawful { IfOk result IsLawfulSchema }
    {
        let old = self.schema();
        lawful_known(old);
        let mut next = old.copy()?;
        match next.drop_index(name) {
            Ok(()) => Ok(next),
            Err(_) => unreachable!(),
        }
    }

    // Puts what takes out all that is kept of the index with this number.
    pub(crate) fn push_clear_kept(
        &self,
        number: u64,
        mutations: &mut Vec<Mutation>,
    ) -> Result<(), AllocError>
        ensures { OnOk result (mutations.new.items
            ≡ mutations.old.items ++ clear_kept self.now.prefix number) }
    {
        let alloc = self.alloc();
        let entries = entries_range(alloc, self.prefix(), number)?;
        mutations.push(Mutation::ClearRange(entries))?;
        let built = built_range(alloc, self.prefix(), number)?;
        mutations.push(Mutation::ClearRange(built))?;
        Ok(())
    }

    // What dropping the index with this number writes, where this schema is left.
    fn drop_mutations(&self, next: &Schema, number: u64) -> Result<Vec<Mutation>, AllocError>
        ensures { IfOk result (λ mutations.
            mutations.items ≡ Set (schema_key self.now.prefix) (schema_bytes next.now)
            ∷ ClearRange (entries_range self.now.prefix number)
            ∷ ClearRange (built_range self.now.prefix number)
            ∷ ClearRange (point (state_key self.now.prefix number)) ∷ []) }
    {
        let alloc = self.alloc();
        let mut mutations = schema_mutations(alloc, self.prefix(), next)?;
        self.push_clear_kept(number, &mut mutations)?;
        let key = state_key(alloc, self.prefix(), number)?;
        mutations.push(Mutation::ClearRange(KeyRange::point(alloc, &key)?))?;
        Ok(mutations)
    }

    /// The state of the index of this name. Refused with `UnknownIndex` where there is no such
    /// index. It takes no memory.
    pub fn state(&self, name: &Text) -> Result<State, Refusal>
        ensures found { IfOk result (λ state. state_named self.now name.now ≡ Ok state) }
        ensures refused { IfErr result (λ refusal. state_named self.now name.now ≡ Err refusal) }
    {
        match self.schema().index_named(name) {
            Some(index) => Ok(self.state_of(index.number)),
            None => Err(Refusal::UnknownIndex),
        }
    }

    /// One state for each index of the store, with the index's number, in the order of its schema's
    /// indexes: what a plan of a query is made from. Refused only where memory runs out.
    pub fn index_states(&self, alloc: Global) -> Result<Vec<(u64, State)>, AllocError>
        ensures { IfOk result (λ made. made.items ≡ index_states self.now) }
    {
        let mut made = Vec::new(alloc);
        for index in self.schema().indexes() {
            made.push((index.number, self.state_of(index.number)))?;
        }
        Ok(made)
    }

    /// Drops the index of this name: it goes from the schema, and what is kept of it goes too. It reads nothing.
    ///
    /// Refused with `UnknownIndex` where there is no such index, and last with the write limit that
    /// is met. After a refusal the store is as before.
    pub fn drop_index(&mut self, tx: &mut Transaction, name: &Text) -> Result<(), StoreError>
        ensures dropped { OnOk result ((maps : ℕ → Map) →
            IsAnswered maps self.old (drop_call self.old name.now) self.new.schema tx.old tx.new) }
        ensures opened { OnOk result ((number : ℕ) → index_number (find_index self.old.schema name.now) ≡ Ok number →
            self.new ≡ opened_without self.old number) }
        ensures kept { OnErr result (self.new ≡ self.old) }
        ensures refused { IfErr result (λ error.
            (maps : ℕ → Map) → IsRefused maps NeverRefuses self.old (drop_call self.old name.now) error tx.old tx.new) }
    {
        let number = self.index_number(name)?;
        let next = self.schema_without(name, number)?;
        let states = self.listed_with(next.indexes(), number, State::Readable)?;
        let mutations = self.drop_mutations(&next, number)?;
        let shared = shared_schema(self.alloc(), next)?;
        tx.write_all(mutations)?;
        self.schema = shared;
        self.states = states;
        Ok(())
    }
}
