// The ordered key-value map. Used by `txn` for a transaction's own writes, and as a whole database
// by tests and benchmarks.
ghost use Rattle.std.specs.Prelude.{◌≡◌, List, ℕ, IfOk, OnOk, OnErr, take, reverse};
ghost use Rattle.std.specs.Option.{option_copied};
ghost use Rattle.std.specs.Map.{keys_of};
ghost use Rattle.std.specs.BTreeMap.{IsOrdered};
ghost use Rattle.std.specs.FinMap as finite;
ghost use Rattle.kv_core.specs.Bytes.{key_cmp};
ghost use Rattle.kv_core.specs.Map.{after, after_all};
ghost use Rattle.kv_core.specs.Range.{entries_in};
ghost use Rattle.kv_core.specs.Read.{read_of};

use crate::addition::plus;
use crate::bytes::Bytes;
use crate::change::Mutation;
use crate::comparison::is_operand;
use crate::pair::Pair;
use crate::range::KeyRange;
use crate::removal::remove_each;
use std::alloc::{AllocError, Global};
use std::collections::BTreeMap;
use std::marker::Model;

/// A map from keys to values, both byte strings, in the order of the keys.
///
/// It keeps its allocator, so that its methods take none.
#[derive(Debug, Drop)]
pub struct KvMap {
    alloc: Global,
    pairs: BTreeMap<Bytes, Bytes>,
}

impl Model for KvMap {
    ghost use Rattle.std.specs.FinMap.{FinMap, code, from_entries};
    ghost use Rattle.std.specs.Prelude.{List, ℕ};
    ghost use Rattle.std.specs.Coded.{coded_ℕ, coded_list};
    ghost use Rattle.kv_core.specs.Bytes.{key_cmp};

    ghost Value = { FinMap key_cmp (List ℕ) };

    ghost coded = { code (coded_list coded_ℕ) (coded_list coded_ℕ) };

    ghost view = { λ a. from_entries a.pairs.entries };
}

/// The first pairs of the range, up to the limit.
fn first_pairs(
    alloc: Global,
    map: &BTreeMap<Bytes, Bytes>,
    range: &KeyRange,
    limit: usize,
) -> Result<Vec<Pair>, AllocError>
    ensures pairs { IfOk result (λ pairs. pairs.items ≡ take limit (entries_in range.now map.now.entries)) }
    ensures ordered { IsOrdered key_cmp map.now }
{
    let mut pairs = Vec::new(alloc);
    let mut rest = map.range(range.begin()..range.end());
    for _ in 0..limit {
        let Some((key, value)) = rest.next() else {
            return Ok(pairs);
        };
        pairs.push((key.copy()?, value.copy()?))?;
    }
    Ok(pairs)
}

/// The last pairs of the range, the last one first, up to the limit.
fn last_pairs(
    alloc: Global,
    map: &BTreeMap<Bytes, Bytes>,
    range: &KeyRange,
    limit: usize,
) -> Result<Vec<Pair>, AllocError>
    ensures pairs { IfOk result (λ pairs. pairs.items ≡ take limit (reverse (entries_in range.now map.now.entries))) }
    ensures ordered { IsOrdered key_cmp map.now }
{
    let mut pairs = Vec::new(alloc);
    let mut front = map.range(range.begin()..range.end());
    for _ in 0..limit {
        let Some((key, value)) = front.next_back() else {
            return Ok(pairs);
        };
        pairs.push((key.copy()?, value.copy()?))?;
    }
    Ok(pairs)
}

/// The keys of the range.
fn keys_between(
    alloc: Global,
    map: &BTreeMap<Bytes, Bytes>,
    range: &KeyRange,
) -> Result<Vec<Bytes>, AllocError>
    ensures keys { IfOk result (λ keys. keys.items ≡ keys_of (entries_in range.now map.now.entries)) }
    ensures ordered { IsOrdered key_cmp map.now }
{
    let mut keys = Vec::new(alloc);
    for (key, _) in map.range(range.begin()..range.end()) {
        keys.push(key.copy()?)?;
    }
    Ok(keys)
}

impl KvMap {
    /// The map without pairs, which takes no memory.
    pub fn new(alloc: Global) -> KvMap
        ensures { result ≡ finite.empty }
    {
        KvMap {
            alloc,
            pairs: BTreeMap::new(alloc),
        }
    }

    /// The map of these pairs, in any order, unless memory runs out. Where a key is there more
    /// than once, the first of its pairs stands.
    pub fn from_pairs(alloc: Global, pairs: Vec<Pair>) -> Result<KvMap, AllocError>
        ensures { IfOk result (λ map. map ≡ finite.from_entries pairs.items) }
    {
        let mut rest = pairs;
        let mut map = BTreeMap::new(alloc);
        while let Some((key, value)) = rest.pop() {
            map.insert(key, value)?;
        }
        Ok(KvMap { alloc, pairs: map })
    }

    /// The map after the mutations, the first one first. Where memory runs out the map is gone.
    pub fn with_all(self, mutations: &[Mutation]) -> Result<KvMap, AllocError>
        ensures { IfOk result (λ map. map ≡ after_all mutations.now self) }
    {
        let mut map = self;
        for mutation in mutations {
            map.apply(mutation)?;
        }
        Ok(map)
    }

    /// An equal map, unless memory runs out.
    pub fn copy(&self) -> Result<KvMap, AllocError>
        ensures { IfOk result (λ copy. copy ≡ self.now) }
    {
        let pairs = self.pairs.clone()?;
        Ok(KvMap {
            alloc: self.alloc,
            pairs,
        })
    }

    /// The value at a key, or None where there is none, which takes no memory.
    pub fn get(&self, key: &Bytes) -> Option<&Bytes>
        ensures { option_copied result ≡ finite.get self.now key.now }
    {
        self.pairs.get(key)
    }

    /// Copies of the first pairs of the range in the order of their keys, or with `reverse` of
    /// the last ones with the last one first, as many as there are up to the limit, unless memory
    /// runs out.
    pub fn range(
        &self,
        range: &KeyRange,
        limit: usize,
        reverse: bool,
    ) -> Result<Vec<Pair>, AllocError>
        ensures { IfOk result (λ pairs. pairs.items ≡ read_of self.now range.now limit reverse) }
    {
        if reverse {
            last_pairs(self.alloc, &self.pairs, range, limit)
        } else {
            first_pairs(self.alloc, &self.pairs, range, limit)
        }
    }

    /// Puts a pair, in the place of the key's pair where there is one. Where memory runs out the map
    /// stays as it was.
    pub fn insert(&mut self, key: Bytes, value: Bytes) -> Result<(), AllocError>
        ensures ok { OnOk result (self.new ≡ finite.insert self.old key value) }
        ensures err { OnErr result (self.new ≡ self.old) }
    {
        self.pairs.insert(key, value)?;
        Ok(())
    }

    /// Takes out the pair of a key, if there is one, which takes no memory.
    pub fn remove(&mut self, key: &Bytes)
        ensures { self.new ≡ finite.remove self.old key.now }
    {
        self.pairs.remove(key);
    }

    /// Applies a mutation: a Set puts its pair, a ClearRange takes out each pair whose key lies
    /// in its range, an Add puts the sum of the key's value and its operand, and a CompareAndClear
    /// takes out the key's pair where its value is just the operand. Where memory runs out the map
    /// stays as it was.
    pub fn apply(&mut self, mutation: &Mutation) -> Result<(), AllocError>
        ensures ok { OnOk result (self.new ≡ after mutation.now self.old) }
        ensures err { OnErr result (self.new ≡ self.old) }
    {
        match mutation {
            Mutation::Set { key, value } => {
                let key = key.copy()?;
                let value = value.copy()?;
                self.insert(key, value)
            }
            Mutation::Add { key, operand } => {
                let sum = plus(self.get(key), operand)?;
                let key = key.copy()?;
                self.insert(key, sum)
            }
            Mutation::ClearRange(range) => {
                let keys = keys_between(self.alloc, &self.pairs, range)?;
                remove_each(&mut self.pairs, keys.as_slice());
                Ok(())
            }
            Mutation::CompareAndClear { key, operand } => {
                if is_operand(self.get(key), operand) {
                    self.remove(key);
                }
                Ok(())
            }
        }
    }
}
