// Indexes are marked with other states. Called by `schedule` for the commands `disable`,
// `write_only` and `readable`; `online_builder` finds its index here.
ghost use Rattle.std.specs.Prelude.{◌≡◌, ℕ, Err, IfErr, IfOk, Ok, OnErr, OnOk};
ghost use Rattle.kv_core.specs.Map.{Map};
ghost use Rattle.metadata.specs.Schema.{find_index};
ghost use Rattle.kv_core.specs.Read.{NeverRefuses};
ghost use Rattle.record_store.specs.Call.{IsAnswered, IsRefused};
ghost use Rattle.record_store.specs.Calls.{disable_call, mark_call, readable_call, write_only_call};
ghost use Rattle.record_store.specs.Calls.{opened_marked};
ghost use Rattle.record_store.specs.IndexWrites.{marked_writes, readable_writes};
ghost use Rattle.record_store.specs.Meaning.{index_number, write_only_named};

use crate::error::StoreError;
use crate::layout::{built_range, state_key, state_value};
use crate::store::Store;
use index_maint::built_place;
use kv_core::{KeyRange, Mutation};
use metadata::{IndexDefinition, State};
use range_set::is_whole;
use std::alloc::AllocError;
use tuple_codec::Text;
use txn::{Snapshot, Transaction};

impl Store {
    // What marking the index with this number with this state writes, which isn't readable.
    fn marked_mutations(&self, number: u64, state: State) -> Result<Vec<Mutation>, AllocError>
        ensures { IfOk result (λ mutations. mutations.items ≡ marked_writes state self.now.prefix number) }
    {
        let alloc = self.alloc();
        let key = state_key(alloc, self.prefix(), number)?;
        let value = state_value(alloc, state)?;
        let mut mutations = Vec::new(alloc);
        mutations.push(Mutation::Set { key, value })?;
        self.push_clear_kept(number, &mut mutations)?;
        Ok(mutations)
    }

    // Marks the index of this name with this state.
    fn mark(&mut self, tx: &mut Transaction, name: &Text, state: State) -> Result<(), StoreError>
        requires { state ≡ State.Readable → ⊥ }
        ensures marked { OnOk result ((maps : ℕ → Map) →
            IsAnswered maps self.old (mark_call state self.old name.now) self.new.states tx.old tx.new) }
        ensures opened { OnOk result ((number : ℕ) → index_number (find_index self.old.schema name.now) ≡ Ok number →
            self.new ≡ opened_marked self.old number state) }
        ensures kept { OnErr result (self.new ≡ self.old) }
        ensures refused { IfErr result (λ error.
            (maps : ℕ → Map) → IsRefused maps NeverRefuses self.old
            (mark_call state self.old name.now) error tx.old tx.new) }
    {
        let number = self.index_number(name)?;
        let states = self.listed_with(self.schema().indexes(), number, state)?;
        let mutations = self.marked_mutations(number, state)?;
        tx.write_all(mutations)?;
        self.states = states;
        Ok(())
    }

    /// Disables the index of this name: its state is written, and what is kept of it goes. It reads
    /// nothing.
    ///
    /// Refused with `UnknownIndex` where there is no such index, and last with the write limit that
    /// is met. After a refusal the store is as before.
    pub fn mark_disabled(&mut self, tx: &mut Transaction, name: &Text) -> Result<(), StoreError>
        ensures disabled { OnOk result
            ((maps : ℕ → Map) → IsAnswered maps self.old
            (disable_call self.old name.now) self.new.states tx.old tx.new) }
        ensures opened { OnOk result ((number : ℕ) → index_number (find_index self.old.schema name.now) ≡ Ok number →
            self.new ≡ opened_marked self.old number State.Disabled) }
        ensures kept { OnErr result (self.new ≡ self.old) }
        ensures refused { IfErr result (λ error.
            (maps : ℕ → Map) → IsRefused maps NeverRefuses self.old
            (disable_call self.old name.now) error tx.old tx.new) }
    {
        self.mark(tx, name, State::Disabled)?;
        Ok(())
    }

    /// Marks the index of this name write-only, from whatever state: its state is written, and what
    /// is kept of it goes, entries, totals and built ranges, so that none of it is built. From then
    /// on it follows its records, and can be built. It reads nothing.
    ///
    /// Refused with `UnknownIndex` where there is no such index, and last with the write limit that
    /// is met. After a refusal the store is as before.
    pub fn mark_write_only(&mut self, tx: &mut Transaction, name: &Text) -> Result<(), StoreError>
        ensures marked { OnOk result
            ((maps : ℕ → Map) → IsAnswered maps self.old
            (write_only_call self.old name.now) self.new.states tx.old tx.new) }
        ensures opened { OnOk result ((number : ℕ) → index_number (find_index self.old.schema name.now) ≡ Ok number →
            self.new ≡ opened_marked self.old number State.WriteOnly) }
        ensures kept { OnErr result (self.new ≡ self.old) }
        ensures refused { IfErr result (λ error.
            (maps : ℕ → Map) → IsRefused maps NeverRefuses self.old
            (write_only_call self.old name.now) error tx.old tx.new) }
    {
        self.mark(tx, name, State::WriteOnly)?;
        Ok(())
    }

    /// The index of this name, where it is write-only. Refused with `UnknownIndex` where there is no
    /// such index, and with `WrongState` where it isn't write-only. It takes no memory.
    pub fn write_only_index(&self, name: &Text) -> Result<&IndexDefinition, StoreError>
        ensures found { IfOk result (λ index.
            write_only_named self.now.schema self.now.states name.now ≡ Ok index.now) }
        ensures refused { IfErr result (λ error.
            write_only_named self.now.schema self.now.states name.now ≡ Err error) }
    {
        let index = self.index(name)?;
        if self.state_of(index.number) != State::WriteOnly {
            return Err(StoreError::WrongState);
        }
        Ok(index)
    }

    // What marking the index with this number readable writes.
    fn readable_mutations(&self, number: u64) -> Result<Vec<Mutation>, AllocError>
        ensures { IfOk result (λ mutations. mutations.items ≡ readable_writes self.now.prefix number) }
    {
        let alloc = self.alloc();
        let key = state_key(alloc, self.prefix(), number)?;
        let built = built_range(alloc, self.prefix(), number)?;
        let mut mutations = Vec::new(alloc);
        mutations.push(Mutation::ClearRange(KeyRange::point(alloc, &key)?))?;
        mutations.push(Mutation::ClearRange(built))?;
        Ok(mutations)
    }

    /// Marks the write-only index of this name readable, where every position of it is built: its
    /// state and its built ranges go, what else is kept of it stays. All its built ranges are read.
    ///
    /// Refused with `UnknownIndex` where there is no such index, and with `WrongState` where it isn't
    /// write-only, before anything is read; then with the snapshot's refusal of the read, with
    /// `Corrupt` and the key of the first pair that is no built range that may be stored, or one that
    /// overlaps the range before it; then with `NotBuilt` where a position isn't built, and last with
    /// the write limit that is met. After a refusal the store is as before.
    pub fn mark_readable<S: Snapshot>(
        &mut self,
        tx: &mut Transaction,
        db: &S,
        name: &Text,
    ) -> Result<(), StoreError>
        ensures marked { OnOk result (IsAnswered (S.map_at db.now) self.old
            (readable_call self.old name.now) self.new.states tx.old tx.new) }
        ensures opened { OnOk result ((number : ℕ) → index_number (find_index self.old.schema name.now) ≡ Ok number →
            self.new ≡ opened_marked self.old number State.Readable) }
        ensures kept { OnErr result (self.new ≡ self.old) }
        ensures refused { IfErr result (λ error.
            IsRefused (S.map_at db.now) (S.may_refuse db.now) self.old
            (readable_call self.old name.now) error tx.old tx.new) }
    {
        let index = self.write_only_index(name)?;
        let number = index.number;
        let place = built_place(self.alloc(), self.prefix(), number)?;
        let whole = is_whole(self.alloc(), place.as_slice(), tx, db)?;
        if !whole {
            return Err(StoreError::NotBuilt);
        }
        let states = self.listed_with(self.schema().indexes(), number, State::Readable)?;
        let mutations = self.readable_mutations(number)?;
        tx.write_all(mutations)?;
        self.states = states;
        Ok(())
    }
}
