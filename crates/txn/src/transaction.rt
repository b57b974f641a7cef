// Transactions with optimistic concurrency control. Used by `range_set`, `record_store`,
// `online_builder`, `plan_exec`, `schedule`, `runtime` and applications.
ghost use Rattle.std.specs.Prelude.{◌≡◌, ◌⊎◌, ℕ, ◌≤◌, [], ◌∷◌, List, IfOk, IfErr};
ghost use Rattle.std.specs.Prelude.{OnOk, OnErr, IsTrue, IsNone, Some};
ghost use Rattle.std.specs.FinMap.{get as value_at};
ghost use Rattle.kv_core.specs.Bytes.{key_lt, end_of_keys};
ghost use Rattle.kv_core.specs.Range.{point};
ghost use Rattle.kv_core.specs.Map.{Map, Agree, pairs_in, value_after_all};
ghost use Rattle.kv_core.specs.Limits.{write_refusal, write_all_refusal};
ghost use Rattle.kv_core.specs.Read.{read_of, range_read};
ghost use Rattle.txn.specs.Reads.{seen, has_read, with_mutation, with_mutations};

use crate::latest::{Last, Latest};
use crate::own::OwnWrites;
use crate::read::{range_read, read_under};
use kv_core::{
    Bytes, CommitRequest, KeyRange, MAX_TRANSACTION_BYTES, Mutation, Mutations, Pair, RangeList,
    ReadError, Snapshot, WriteError, total_size,
};
use std::alloc::{AllocError, Global};
use std::marker::Model;

/// A transaction: the version of the database that it reads, the ranges that it read, and its
/// mutations.
///
/// Its reads see its own mutations, which nobody else sees before they are committed. Beside the
/// list of mutations it keeps where the last one of each key stands, which tells most values, and
/// what they come to in the order of the keys, each as far as its reads needed it, so that a read
/// takes time that grows as their logarithm.
#[derive(Debug)]
pub struct Transaction {
    request: CommitRequest,
    size: u64,
    own: OwnWrites,
    latest: Latest,
}

// Written out, so that no proof of a caller has to take its parts apart where one is dropped.
impl Drop for Transaction {
    fn drop(self) {
        let Transaction {
            request,
            size: _,
            own,
            latest,
        } = self;
        drop(request);
        drop(own);
        drop(latest);
    }
}

impl Model for Transaction {
    ghost use Rattle.kv_core.specs.declared.change.CommitRequest.{CommitRequest as Request};
    ghost use Rattle.txn.specs.Reads.{IsTransaction};

    ghost Value = { Request };

    ghost view = { λ a. a.request };

    ghost invariant = { λ a. IsTransaction a.request a.size a.own a.latest };
}

impl Transaction {
    /// A transaction that reads at a version and has done nothing yet, which takes no memory.
    pub fn begin(alloc: Global, read_version: u64) -> Transaction
        ensures { result ≡ record { read_version = read_version; reads = []; mutations = [] } }
    {
        Transaction {
            request: CommitRequest {
                read_version,
                reads: RangeList::new(alloc),
                mutations: Mutations::new(Vec::new(alloc)),
            },
            size: 0,
            own: OwnWrites::new(alloc),
            latest: Latest::new(alloc),
        }
    }

    /// The value at a key as the transaction sees it, where the snapshot has this value or none.
    /// Nothing is added to the ranges read.
    fn seen_value(
        &mut self,
        key: &Bytes,
        stored: Option<Bytes>,
    ) -> Result<Option<Bytes>, AllocError>
        ensures value { IfOk result (λ value. value ≡ value_after_all self.old.mutations key.now stored) }
        ensures kept { self.new ≡ self.old }
    {
        if self.request.mutations.is_empty() {
            return Ok(stored);
        }
        let mutations = self.request.mutations.as_slice();
        match self.latest.of(mutations, key)? {
            Last::Is(Mutation::Set { value, .. }) => Ok(Some(value.copy()?)),
            Last::Is(Mutation::ClearRange(_)) => Ok(None),
            Last::Missing => Ok(stored),
            _ => {
                self.own.catch_up(mutations)?;
                self.own.value(key, stored)
            }
        }
    }

    /// The value at a key, or None where there is none, as the transaction sees it. `Bytes::is_key`
    /// tells whether a byte string is a key.
    ///
    /// The key is added to the ranges read, also where the own mutations alone tell its value. The
    /// read is refused as the snapshot refuses a read of the key, and with `Memory` where memory
    /// runs out. A refusal leaves the transaction as it was.
    pub fn get<S: Snapshot>(&mut self, db: &S, key: &Bytes) -> Result<Option<Bytes>, ReadError>
        requires { IsTrue (key_lt key.now end_of_keys) }
        ensures answer { IfOk result (λ value. (m : Map) →
            Agree self.new.reads (S.map_at db.now self.old.read_version) m →
            value ≡ value_at (seen self.old m) key.now) }
        ensures reads { OnOk result (self.new ≡ has_read (point key.now) self.old) }
        ensures allowed { OnOk result (S.must_refuse db.now (point key.now) self.old.read_version → ⊥) }
        ensures kept { OnErr result (self.new ≡ self.old) }
        ensures refused { IfErr result (λ error.
            (error ≡ ReadError.Memory) ⊎ S.may_refuse db.now (point key.now) self.old.read_version error) }
    {
        let stored = db.value(key, self.request.read_version)?;
        let value = self.seen_value(key, stored)?;
        let range = KeyRange::point(self.own.alloc, key)?;
        self.request.reads.add(range)?;
        Ok(value)
    }

    /// Whether a read of the range in the transaction is refused at this time, which takes no memory.
    /// The range isn't added to those read: what was read of it before stands, if it isn't refused.
    pub fn check<S: Snapshot>(&self, db: &S, range: &KeyRange) -> Result<(), ReadError>
        ensures allowed { OnOk result (S.must_refuse db.now range.now self.now.read_version → ⊥) }
        ensures refused { IfErr result (λ error. S.may_refuse db.now range.now self.now.read_version error) }
    {
        db.check(range, self.request.read_version)
    }

    /// The pairs of a range as the transaction sees them, up to the limit. Nothing is added to the
    /// ranges read.
    pub(crate) fn seen_pairs<S: Snapshot>(
        &mut self,
        db: &S,
        range: &KeyRange,
        limit: usize,
        reverse: bool,
    ) -> Result<Vec<Pair>, ReadError>
        requires { 1 ≤ limit }
        ensures pairs { IfOk result (λ pairs.
            pairs.items ≡ read_of (seen self.old (S.map_at db.now self.old.read_version)) range.now limit reverse) }
        ensures kept { self.new ≡ self.old }
        ensures allowed { OnOk result (S.must_refuse db.now range.now self.old.read_version → ⊥) }
        ensures refused { IfErr result (λ error.
            (error ≡ ReadError.Memory) ⊎ S.may_refuse db.now range.now self.old.read_version error) }
    {
        let version = self.request.read_version;
        if self.request.mutations.is_empty() {
            return db.read(range, version, limit, reverse);
        }
        self.own.catch_up(self.request.mutations.as_slice())?;
        let pairs = read_under(db, &self.own, version, range, limit, reverse)?;
        Ok(pairs)
    }

    /// Adds a range to the ranges read, unless memory runs out. The transaction is as it was then.
    pub(crate) fn add_read(&mut self, range: KeyRange) -> Result<(), AllocError>
        ensures ok { OnOk result (self.new ≡ has_read range self.old) }
        ensures kept { OnErr result (self.new ≡ self.old) }
    {
        self.request.reads.add(range)
    }

    /// The pairs of a range as the transaction sees them: the first ones in the order of their
    /// keys, or with `reverse` the last ones with the last one first, as many as there are up to
    /// the limit.
    ///
    /// Where they are fewer than the limit, the whole range is added to the ranges read, and else
    /// its part through the last pair. The read is refused as the snapshot refuses a read of the
    /// range, and with `Memory` where memory runs out. A refusal leaves the transaction as it was.
    pub fn get_range<S: Snapshot>(
        &mut self,
        db: &S,
        range: &KeyRange,
        limit: usize,
        reverse: bool,
    ) -> Result<Vec<Pair>, ReadError>
        requires { 1 ≤ limit }
        ensures answer { IfOk result (λ pairs. (m : Map) →
            Agree self.new.reads (S.map_at db.now self.old.read_version) m →
            pairs.items ≡ read_of (seen self.old m) range.now limit reverse) }
        ensures reads { IfOk result (λ pairs.
            self.new ≡ has_read (range_read range.now limit reverse pairs.items) self.old) }
        ensures allowed { OnOk result (S.must_refuse db.now range.now self.old.read_version → ⊥) }
        ensures kept { OnErr result (self.new ≡ self.old) }
        ensures refused { IfErr result (λ error.
            (error ≡ ReadError.Memory) ⊎ S.may_refuse db.now range.now self.old.read_version error) }
    {
        let pairs = self.seen_pairs(db, range, limit, reverse)?;
        let read = range_read(range, limit, reverse, pairs.as_slice())?;
        self.add_read(read)?;
        Ok(pairs)
    }

    /// All pairs of a range as the transaction sees them, in the order of their keys.
    ///
    /// The whole range is added to the ranges read. The read is refused as `get_range` is. A
    /// refusal leaves the transaction as it was.
    pub fn get_all<S: Snapshot>(&mut self, db: &S, range: &KeyRange) -> Result<Vec<Pair>, ReadError>
        ensures answer { IfOk result (λ pairs. (m : Map) →
            Agree self.new.reads (S.map_at db.now self.old.read_version) m →
            pairs.items ≡ pairs_in (seen self.old m) range.now) }
        ensures reads { OnOk result (self.new ≡ has_read range.now self.old) }
        ensures allowed { OnOk result (S.must_refuse db.now range.now self.old.read_version → ⊥) }
        ensures kept { OnErr result (self.new ≡ self.old) }
        ensures refused { IfErr result (λ error.
            (error ≡ ReadError.Memory) ⊎ S.may_refuse db.now range.now self.old.read_version error) }
    {
        let pairs = self.get_range(db, range, usize::MAX, false)?;
        Ok(pairs)
    }

    /// Adds a mutation at the end.
    fn write(&mut self, mutation: Mutation) -> Result<(), WriteError>
        ensures ok { OnOk result (self.new ≡ with_mutation mutation self.old) }
        ensures allowed { OnOk result (IsNone (write_refusal self.old.mutations mutation)) }
        ensures kept { OnErr result (self.new ≡ self.old) }
        ensures refused { IfErr result (λ error.
            (error ≡ WriteError.Memory) ⊎ (write_refusal self.old.mutations mutation ≡ Some error)) }
    {
        let size = mutation.size()?;
        let total = self.size + size;
        if total > MAX_TRANSACTION_BYTES {
            return Err(WriteError::TransactionTooLarge);
        }
        self.request.mutations.push(mutation)?;
        self.size = total;
        Ok(())
    }

    /// Puts a pair, in the place of the key's pair where there is one.
    ///
    /// It is refused with `KeyOutside`, `KeyTooLarge` or `ValueTooLarge` as `Mutation::size` says,
    /// else with `TransactionTooLarge` where the transaction would have more than
    /// `MAX_TRANSACTION_BYTES`, and else with `Memory` where memory runs out. A refusal leaves the
    /// transaction as it was.
    pub fn set(&mut self, key: Bytes, value: Bytes) -> Result<(), WriteError>
        ensures ok { OnOk result (self.new ≡ with_mutation (Mutation.Set key value) self.old) }
        ensures allowed { OnOk result (IsNone (write_refusal self.old.mutations (Mutation.Set key value))) }
        ensures kept { OnErr result (self.new ≡ self.old) }
        ensures refused { IfErr result (λ error.
            (error ≡ WriteError.Memory) ⊎ (write_refusal self.old.mutations (Mutation.Set key value) ≡ Some error)) }
    {
        self.write(Mutation::Set { key, value })
    }

    /// Takes out the pairs whose keys lie in a range. It is refused as `set` is.
    pub fn clear_range(&mut self, range: KeyRange) -> Result<(), WriteError>
        ensures ok { OnOk result (self.new ≡ with_mutation (Mutation.ClearRange range) self.old) }
        ensures allowed { OnOk result (IsNone (write_refusal self.old.mutations (Mutation.ClearRange range))) }
        ensures kept { OnErr result (self.new ≡ self.old) }
        ensures refused { IfErr result (λ error.
            (error ≡ WriteError.Memory) ⊎ (write_refusal self.old.mutations (Mutation.ClearRange range) ≡ Some error)) }
    {
        self.write(Mutation::ClearRange(range))
    }

    /// Adds an operand to the value at a key, as `kv_core::add_le` does: the key isn't read.
    ///
    /// It is refused as `set` is, the operand as a value.
    pub fn add(&mut self, key: Bytes, operand: Bytes) -> Result<(), WriteError>
        ensures ok { OnOk result (self.new ≡ with_mutation (Mutation.Add key operand) self.old) }
        ensures allowed { OnOk result (IsNone (write_refusal self.old.mutations (Mutation.Add key operand))) }
        ensures kept { OnErr result (self.new ≡ self.old) }
        ensures refused { IfErr result (λ error.
            (error ≡ WriteError.Memory) ⊎ (write_refusal self.old.mutations (Mutation.Add key operand) ≡ Some error)) }
    {
        self.write(Mutation::Add { key, operand })
    }

    /// Takes out the pair of a key where its value is just the operand by the time of the commit: the
    /// key isn't read.
    ///
    /// It is refused as `set` is, the operand as a value.
    pub fn compare_and_clear(&mut self, key: Bytes, operand: Bytes) -> Result<(), WriteError>
        ensures ok { OnOk result (self.new ≡ with_mutation (Mutation.CompareAndClear key operand) self.old) }
        ensures allowed { OnOk result
            (IsNone (write_refusal self.old.mutations (Mutation.CompareAndClear key operand))) }
        ensures kept { OnErr result (self.new ≡ self.old) }
        ensures refused { IfErr result (λ error. (error ≡ WriteError.Memory)
            ⊎ (write_refusal self.old.mutations (Mutation.CompareAndClear key operand) ≡ Some error)) }
    {
        self.write(Mutation::CompareAndClear { key, operand })
    }

    /// Adds mutations in their order, all of them or none.
    ///
    /// The first one that is refused gives the refusal, as `set` is refused. A refusal leaves the
    /// transaction as it was.
    pub fn write_all(&mut self, mutations: Vec<Mutation>) -> Result<(), WriteError>
        ensures ok { OnOk result (self.new ≡ with_mutations mutations.items self.old) }
        ensures allowed { OnOk result (IsNone (write_all_refusal self.old.mutations mutations.items)) }
        ensures kept { OnErr result (self.new ≡ self.old) }
        ensures refused { IfErr result (λ error.
            (error ≡ WriteError.Memory) ⊎ (write_all_refusal self.old.mutations mutations.items ≡ Some error)) }
    {
        let total = total_size(self.size, mutations.as_slice())?;
        self.request.mutations.append(mutations)?;
        self.size = total;
        Ok(())
    }

    /// What is asked to have committed, which takes no memory.
    pub fn into_request(self) -> CommitRequest
        ensures { result ≡ self }
    {
        let Transaction {
            request,
            size: _,
            own,
            latest,
        } = self;
        drop(own);
        drop(latest);
        request
    }
}
