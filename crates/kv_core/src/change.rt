// Mutations, the commit request that has them, and the refusals of writes. Made by `txn` and by
// what writes in its transactions; applied by `kv_map` and by the roles of `cluster_core`.
ghost use Rattle.std.specs.Prelude.{◌≡◌, List, ℕ, IfOk, OnOk, OnErr, ◌++◌, ◌∷◌, [], IsTrue, ◌↔◌};
ghost use Rattle.kv_core.specs.Map.{value_after, value_after_all};
ghost use Rattle.kv_core.specs.declared.change.WriteError.TheVariants.{Memory};

use crate::addition::plus;
use crate::bytes::Bytes;
use crate::comparison::is_operand;
use crate::range::KeyRange;
use crate::range_list::RangeList;
use std::alloc::AllocError;
use std::marker::Model;
use thiserror::Error;

/// One change of the database.
#[derive(Debug, Drop)]
pub enum Mutation {
    /// Puts a pair, in the place of the key's pair where there is one.
    Set { key: Bytes, value: Bytes },
    /// Takes out each pair whose key lies in the range.
    ClearRange(KeyRange),
    /// Adds the operand to the value at a key, as `add_le` does, and puts the sum there.
    Add { key: Bytes, operand: Bytes },
    /// Takes out the key's pair where its value is just the operand, and else changes nothing.
    CompareAndClear { key: Bytes, operand: Bytes },
}

impl Mutation {
    /// The value at a key after the mutation, where there was this value or none before, unless
    /// memory runs out.
    pub fn value_after(
        &self,
        key: &Bytes,
        before: Option<Bytes>,
    ) -> Result<Option<Bytes>, AllocError>
        ensures { IfOk result (λ value. value ≡ value_after self.now key.now before) }
    {
        match self {
            Mutation::Set { key: own, value } => {
                if key.compare(own).is_eq() {
                    Ok(Some(value.copy()?))
                } else {
                    Ok(before)
                }
            }
            Mutation::Add { key: own, operand } => {
                if key.compare(own).is_eq() {
                    Ok(Some(plus(before.as_ref(), operand)?))
                } else {
                    Ok(before)
                }
            }
            Mutation::ClearRange(range) => {
                if range.contains(key) {
                    Ok(None)
                } else {
                    Ok(before)
                }
            }
            Mutation::CompareAndClear { key: own, operand } => {
                if key.compare(own).is_eq() && is_operand(before.as_ref(), operand) {
                    Ok(None)
                } else {
                    Ok(before)
                }
            }
        }
    }

    /// An equal mutation, unless memory runs out.
    pub fn copy(&self) -> Result<Mutation, AllocError>
        ensures { IfOk result (λ copy. copy ≡ self.now) }
    {
        match self {
            Mutation::Set { key, value } => {
                let key = key.copy()?;
                let value = value.copy()?;
                Ok(Mutation::Set { key, value })
            }
            Mutation::Add { key, operand } => {
                let key = key.copy()?;
                let operand = operand.copy()?;
                Ok(Mutation::Add { key, operand })
            }
            Mutation::ClearRange(range) => {
                let range = range.copy()?;
                Ok(Mutation::ClearRange(range))
            }
            Mutation::CompareAndClear { key, operand } => {
                let key = key.copy()?;
                let operand = operand.copy()?;
                Ok(Mutation::CompareAndClear { key, operand })
            }
        }
    }
}

impl Clone for Mutation {
    ghost is_clone = { λ x y. y ≡ x };

    fn clone(&self) -> Result<Mutation, AllocError> {
        self.copy()
    }
}

/// The value at a key after the mutations, where there was this value or none before.
fn value_after_each(
    mutations: &[Mutation],
    key: &Bytes,
    before: Option<Bytes>,
) -> Result<Option<Bytes>, AllocError>
    ensures { IfOk result (λ value. value ≡ value_after_all mutations.now key.now before) }
{
    let mut value = before;
    for mutation in mutations {
        value = mutation.value_after(key, value)?;
    }
    Ok(value)
}

/// Mutations, in the order in which they act.
#[derive(Debug, Drop)]
pub struct Mutations {
    mutations: Vec<Mutation>,
}

impl Model for Mutations {
    ghost use Rattle.std.specs.Prelude.{List};
    ghost use Rattle.kv_core.specs.declared.change.Mutation.{Mutation};

    ghost Value = { List Mutation };

    ghost view = { λ a. a.mutations.items };
}

impl Mutations {
    /// The list of these mutations, which it takes over with their allocator.
    pub fn new(mutations: Vec<Mutation>) -> Mutations
        ensures { result ≡ mutations.items }
    {
        Mutations { mutations }
    }

    /// An equal list, unless memory runs out.
    pub fn copy(&self) -> Result<Mutations, AllocError>
        ensures { IfOk result (λ copy. copy ≡ self.now) }
    {
        let mutations = self.mutations.clone()?;
        Ok(Mutations { mutations })
    }

    /// Adds a mutation at the end. Where memory runs out the list stays as it was.
    pub fn push(&mut self, mutation: Mutation) -> Result<(), AllocError>
        ensures ok { OnOk result (self.new ≡ self.old ++ mutation ∷ []) }
        ensures err { OnErr result (self.new ≡ self.old) }
    {
        self.mutations.push(mutation)?;
        Ok(())
    }

    /// Adds mutations at the end, in their order. Where memory runs out the list stays as it was.
    pub fn append(&mut self, mutations: Vec<Mutation>) -> Result<(), AllocError>
        ensures ok { OnOk result (self.new ≡ self.old ++ mutations.items) }
        ensures err { OnErr result (self.new ≡ self.old) }
    {
        let mut more = mutations;
        self.mutations.append(&mut more)?;
        Ok(())
    }

    /// Whether the list has no mutation.
    pub fn is_empty(&self) -> bool
        ensures { IsTrue result ↔ (self.now ≡ []) }
    {
        self.mutations.is_empty()
    }

    /// The mutations, in order.
    pub fn as_slice(&self) -> &[Mutation]
        ensures { result.now ≡ self.now }
    {
        self.mutations.as_slice()
    }

    /// The value at a key after all the mutations, the first one first, where there was this
    /// value or none before, unless memory runs out.
    pub fn value_after(
        &self,
        key: &Bytes,
        before: Option<Bytes>,
    ) -> Result<Option<Bytes>, AllocError>
        ensures { IfOk result (λ value. value ≡ value_after_all self.now key.now before) }
    {
        value_after_each(self.as_slice(), key, before)
    }
}

/// What a transaction asks to have committed.
#[derive(Debug, Drop)]
pub struct CommitRequest {
    /// The version of the database that the transaction read.
    pub read_version: u64,
    /// The ranges that it read: another transaction's write to one of them is a conflict.
    pub reads: RangeList,
    /// What it writes.
    pub mutations: Mutations,
}

impl CommitRequest {
    /// An equal request, unless memory runs out.
    pub fn copy(&self) -> Result<CommitRequest, AllocError>
        ensures { IfOk result (λ copy. copy ≡ self.now) }
    {
        let reads = self.reads.copy()?;
        let mutations = self.mutations.copy()?;
        Ok(CommitRequest {
            read_version: self.read_version,
            reads,
            mutations,
        })
    }
}

/// Why a mutation isn't taken.
#[derive(Clone, Copy, Debug, PartialEq, Eq, Error)]
pub enum WriteError {
    /// The key doesn't come before the byte FF.
    #[error("the key lies outside the keys, which end before the byte FF")]
    KeyOutside,
    /// The key, or the begin or the end of a range, has more bytes than it may have.
    #[error("the key is too large")]
    KeyTooLarge,
    /// The value or the operand has more bytes than it may have.
    #[error("the value is too large")]
    ValueTooLarge,
    /// The transaction would have more bytes than it may have.
    #[error("the transaction is too large")]
    TransactionTooLarge,
    /// Memory ran out.
    #[error("out of memory")]
    Memory,
}

impl From<AllocError> for WriteError {
    ghost from_gives = { λ _ e. e ≡ Memory };

    fn from(_e: AllocError) -> WriteError {
        WriteError::Memory
    }
}
