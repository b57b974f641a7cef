// How the indexes of a store follow its records. Called by `save` and `remove`; the state of an
// index also by other modules here and by `plan_exec`.
ghost use Rattle.std.specs.Prelude.{◌≡◌, ◌==◌, ◌++◌, [], IfErr, IfOk, OnOk, find, get_or, map};
ghost use Rattle.std.specs.Option.{option_copied};
ghost use Rattle.record_store.specs.BuiltReading.{position_in};
ghost use Rattle.record_store.specs.IndexWrites.{one_index_writes};
ghost use Rattle.record_store.specs.Reading.{HaveFollowed, HaveNotFollowed};
ghost use Rattle.record_store.specs.Store.{state_in};

use crate::error::StoreError;
use crate::store::Store;
use index_maint::push_kept_changes;
use kv_core::{Bytes, Mutation, Pair};
use metadata::{IndexDefinition, RecordRef, State};
use std::alloc::AllocError;

// What was found at a place, or nothing.
fn found_at(found: &[Vec<Pair>], at: usize) -> &[Pair]
    ensures { result.now ≡ get_or (map (λ pairs. pairs.items) found.now) at [] }
{
    match found.get(at) {
        Some(pairs) => pairs.as_slice(),
        None => &[],
    }
}

impl Store {
    // What is listed for the index with this number.
    fn listed(&self, number: u64) -> Option<&(u64, State)>
        ensures { option_copied result ≡ find (λ listed. listed.0 == number) self.now.states }
    {
        self.states.iter().find(|listed| listed.0 == number)
    }

    /// The state of the index with this number: readable where no other one is listed for it.
    pub fn state_of(&self, number: u64) -> State
        ensures { result ≡ state_in self.now.states number }
    {
        match self.listed(number) {
            Some(listed) => listed.1,
            None => State::Readable,
        }
    }

    // Puts what one index wants written, where it is of the type with this number, by its state and by
    // whether the records' position is built.
    fn push_changes_of(
        &self,
        index: &IndexDefinition,
        number: u64,
        at_built: bool,
        old: Option<&RecordRef<'_>>,
        new: Option<&RecordRef<'_>>,
        mutations: &mut Vec<Mutation>,
    ) -> Result<(), AllocError>
        ensures { OnOk result (mutations.new.items
            ≡ mutations.old.items ++ one_index_writes self.now number at_built (option_copied old.entry)
            (option_copied new.entry) index.now) }
    {
        if index.type_number != number {
            return Ok(());
        }
        let (alloc, prefix) = (self.alloc(), self.prefix());
        let state = self.state_of(index.number);
        push_kept_changes(alloc, prefix, index, state, at_built, old, new, mutations)?;
        Ok(())
    }

    // Puts what the indexes of the type with this number want written where one record of it with this
    // key gives way to another, by what was found of their built ranges.
    pub(crate) fn push_index_changes(
        &self,
        number: u64,
        key: &Bytes,
        found: &[Vec<Pair>],
        old: Option<&RecordRef<'_>>,
        new: Option<&RecordRef<'_>>,
        mutations: &mut Vec<Mutation>,
    ) -> Result<(), StoreError>
        ensures followed { OnOk result (HaveFollowed self.now number
            (position_in self.now.prefix number key.now) (option_copied old.entry) (option_copied new.entry)
            (map (λ pairs. pairs.items) found.now) self.now.schema.indexes
            mutations.old.items mutations.new.items) }
        ensures refused { IfErr result (HaveNotFollowed self.now number
            (position_in self.now.prefix number key.now) (map (λ pairs. pairs.items) found.now)) }
    {
        for (at, index) in self.schema().indexes().iter().enumerate() {
            let pairs = found_at(found, at);
            let at_built = self.is_built(number, key, index, pairs)?;
            self.push_changes_of(index, number, at_built, old, new, mutations)?;
        }
        Ok(())
    }
}
