// The write set of a transaction in key order, for read-your-writes. Used by `transaction`, `read`
// and `merge`.
ghost use Rattle.std.specs.Prelude.{◌≡◌, ℕ, List, Option, IfOk, OnOk, false};
ghost use Rattle.kv_core.specs.Map.{value_after, value_after_all};
ghost use Rattle.txn.specs.Reads.{Follow, IsNoted};
ghost use Rattle.txn.specs.Own.{own_state, sum_at, under, worth, worth_of};
ghost use Rattle.std.specs.FinMap.{get};
ghost use Rattle.std.specs.Ordering.{is_eq};
ghost use Rattle.kv_core.specs.Addition.{added};
ghost use Rattle.kv_core.specs.Bytes.{key_cmp};

use crate::compared::{forget_key, forget_range, note_compared};
use crate::sum::Sum;
use kv_core::{Bytes, Coverage, KvMap, Mutation, Mutations};
use std::alloc::{AllocError, Global};
use std::collections::BTreeMap;
use std::mem;

/// What a transaction's own mutations come to, in the order of the keys.
///
/// Beside the map that they make of nothing stand the keys that they clear, and the sums of the
/// keys whose value they only add to. From its first comparison on, the mutations of a key stand by
/// themselves, until one takes their place: what they make of a value is told when it is read.
/// Mutations are noted when a read needs them.
#[derive(Debug, Drop)]
pub(crate) struct OwnWrites {
    pub(crate) alloc: Global,
    pub(crate) written: KvMap,
    pub(crate) cleared: Coverage,
    pub(crate) sums: BTreeMap<Bytes, Sum>,
    pub(crate) compared: BTreeMap<Bytes, Mutations>,
    pub(crate) noted: usize,
}

impl OwnWrites {
    /// What no mutation comes to, which takes no memory.
    pub(crate) fn new(alloc: Global) -> OwnWrites
        ensures none { result.noted ≡ 0 }
        ensures same { (key : List ℕ) (before : Option (List ℕ)) → under (own_state result) key before ≡ before }
    {
        OwnWrites {
            alloc,
            written: KvMap::new(alloc),
            cleared: Coverage::new(alloc),
            sums: BTreeMap::new(alloc),
            compared: BTreeMap::new(alloc),
            noted: 0,
        }
    }

    /// What the mutations come to with one more after them. Where memory runs out it is gone.
    fn with(self, mutation: &Mutation) -> Result<OwnWrites, AllocError>
        ensures { IfOk result (λ own.
            (key : List ℕ) (before : Option (List ℕ)) →
            under (own_state own) key before ≡ value_after mutation.now key (under (own_state self) key before)) }
    {
        let mut own = self;
        match mutation {
            Mutation::Set { key, .. } => {
                own.sums.remove(key);
                forget_key(&mut own.compared, key);
            }
            Mutation::Add { key, operand } => {
                if own.compared.get(key).is_some() {
                    return own.with_compared(key, mutation);
                }
                own.add(key, operand)?;
            }
            Mutation::ClearRange(range) => {
                own.cleared.add(range)?;
                forget_range(own.alloc, &mut own.compared, range)?;
            }
            Mutation::CompareAndClear { key, .. } => return own.with_compared(key, mutation),
        }
        own.written.apply(mutation)?;
        Ok(own)
    }

    /// The own writes with one more mutation of a compared key. Where memory runs out they are gone.
    fn with_compared(self, key: &Bytes, mutation: &Mutation) -> Result<OwnWrites, AllocError>
        requires { (other : List ℕ) (before : Option (List ℕ)) → is_eq (key_cmp key.now other) ≡ false →
            value_after mutation.now other before ≡ before }
        ensures { IfOk result (λ own.
            (other : List ℕ) (before : Option (List ℕ)) →
            under (own_state own) other before ≡ value_after mutation.now other (under (own_state self) other before)) }
    {
        let mut own = self;
        note_compared(own.alloc, &mut own.compared, key, mutation)?;
        Ok(own)
    }

    /// Notes the operand of an Add, before the map has it, where it is added to a value that own
    /// mutations don't tell.
    fn add(&mut self, key: &Bytes, operand: &Bytes) -> Result<(), AllocError>
        ensures written { OnOk result (self.new.written ≡ self.old.written) }
        ensures cleared { OnOk result (self.new.cleared ≡ self.old.cleared) }
        ensures noted { OnOk result (self.new.noted ≡ self.old.noted) }
        ensures compared { OnOk result (self.new.compared ≡ self.old.compared) }
        ensures others { OnOk result ((other : List ℕ) → is_eq (key_cmp key.now other) ≡ false →
            sum_at self.new.sums.entries other ≡ sum_at self.old.sums.entries other) }
        ensures sum { OnOk result ((before : Option (List ℕ)) →
            worth (added (get self.old.written key.now) operand.now) (sum_at self.new.sums.entries key.now) before ≡
            added (worth_of (get self.old.written key.now) (sum_at self.old.sums.entries key.now) before) operand.now) }
    {
        let known = self.written.get(key).is_some();
        let sum = match self.sums.remove(key) {
            Some(sum) if known => sum.plus(self.alloc, operand)?,
            None if known => return Ok(()),
            _ => Sum::new(self.alloc, operand)?,
        };
        self.sums.insert(key.copy()?, sum)?;
        Ok(())
    }

    /// What the mutations come to with more after them. Where memory runs out it is gone.
    fn with_all(self, mutations: &[Mutation]) -> Result<OwnWrites, AllocError>
        ensures { IfOk result (λ own.
            (key : List ℕ) (before : Option (List ℕ)) →
            under (own_state own) key before ≡ value_after_all mutations.now key (under (own_state self) key before)) }
    {
        let mut own = self;
        for mutation in mutations {
            own = own.with(mutation)?;
        }
        Ok(own)
    }

    /// Notes the mutations that aren't noted yet. Where memory runs out all are forgotten, to be
    /// noted anew.
    pub(crate) fn catch_up(&mut self, mutations: &[Mutation]) -> Result<(), AllocError>
        requires { IsNoted self.old mutations.now }
        ensures ok { OnOk result (Follow self.new mutations.now) }
        ensures noted { IsNoted self.new mutations.now }
    {
        let from = self.noted;
        if from == mutations.len() {
            return Ok(());
        }
        let own = mem::replace(self, OwnWrites::new(self.alloc));
        *self = own.with_all(&mutations[from..])?;
        self.noted = mutations.len();
        Ok(())
    }
}
