// The multi-version map of a storage server. Used by `server`.
ghost use Rattle.std.specs.Prelude.{◌≡◌, ◌∷◌, ◌++◌, [], List, ℕ, IfOk, OnOk, OnErr, MatchOption};
ghost use Rattle.std.specs.Prelude.{if◌then◌else◌, false, length};
ghost use Rattle.std.specs.FinMap.{get};
ghost use Rattle.std.specs.Map.{keys_of};
ghost use Rattle.std.specs.Option.{option_copied};
ghost use Rattle.std.specs.Ordering.{is_eq};
ghost use Rattle.kv_core.specs.Addition.{added};
ghost use Rattle.kv_core.specs.Bytes.{has_key, key_cmp};
ghost use Rattle.kv_core.specs.Map.{after, pairs_in};
ghost use Rattle.kv_core.specs.Range.{point};
ghost use Rattle.kv_core.specs.Read.{read_of};
ghost use Rattle.kv_core.specs.declared.change.Mutation.TheVariants.{ClearRange, CompareAndClear};
ghost use Rattle.cluster_core.specs.Chains.{AreBelow, AreFalling, Writes, links_at, needed, put};
ghost use Rattle.cluster_core.specs.Chains.{shown, value_at, without};
ghost use Rattle.cluster_core.specs.Server.{turned};

use crate::chain::Chain;
use block_map::{BlockMap, Range};
use kv_core::{Bytes, KeyRange, Mutation, Pair, add_le, is_operand};
use std::alloc::{AllocError, Global};
use std::mem;

/// For how many pairs there is room once a read has found one.
const FEW_PAIRS: usize = 16;

/// The chains of a server's keys, and the keys that were written at the version to come.
#[derive(Debug, Drop)]
pub(crate) struct Chains {
    alloc: Global,
    chains: BlockMap<Chain>,
    written: Vec<Bytes>,
}

/// Puts a value, or that there is none, at a key from this version on. Where memory runs out the
/// chains stay as they were.
fn put_at(
    alloc: Global,
    chains: &mut BlockMap<Chain>,
    version: u64,
    key: &Bytes,
    value: Option<Bytes>,
) -> Result<(), AllocError>
    ensures ok { OnOk result ((own : List ℕ) → links_at chains.new own
        ≡ (if is_eq (key_cmp key.now own)
        then put version value (links_at chains.old own) else links_at chains.old own)) }
    ensures err { OnErr result ((own : List ℕ) →
        links_at chains.new own ≡ links_at chains.old own) }
{
    if let Some(chain) = chains.get_mut(key) {
        return chain.put(alloc, version, value);
    }
    chains.insert(key.copy()?, Chain::new(version, value))?;
    Ok(())
}

/// Takes back what was put at a key at this version.
fn take_back_at(chains: &mut BlockMap<Chain>, version: u64, key: &Bytes)
    ensures { (own : List ℕ) → links_at chains.new own ≡ (if is_eq (key_cmp key.now own)
        then without version (links_at chains.old own) else links_at chains.old own) }
{
    let Some(chain) = chains.get_mut(key) else {
        return;
    };
    if !chain.take_back(version) {
        chains.remove(key);
    }
}

/// Drops what no version from the floor on needs of a key.
fn settle_at(chains: &mut BlockMap<Chain>, floor: u64, key: &Bytes)
    requires { AreFalling chains.old }
    ensures { (own : List ℕ) → links_at chains.new own ≡ (if is_eq (key_cmp key.now own)
        then needed floor (links_at chains.old own) else links_at chains.old own) }
{
    let Some(chain) = chains.get_mut(key) else {
        return;
    };
    if !chain.settle(floor) {
        chains.remove(key);
    }
}

/// The value of a key at a version, or None where it has none.
fn value_of<'a>(chains: &'a BlockMap<Chain>, version: u64, key: &Bytes) -> Option<&'a Bytes>
    requires { AreFalling chains.now }
    ensures { option_copied result ≡ value_at version (links_at chains.now key.now) }
{
    match chains.get(key) {
        Some(chain) => chain.value_at(version),
        None => None,
    }
}

/// Adds a pair behind those of a read. There is room for a few at once, as many as are asked for.
fn push_pair(pairs: &mut Vec<Pair>, limit: usize, pair: Pair) -> Result<(), AllocError>
    ensures { OnOk result (pairs.new.items ≡ pairs.old.items ++ pair ∷ []) }
{
    if pairs.is_empty() {
        pairs.reserve(limit.min(FEW_PAIRS))?;
    }
    pairs.push(pair)?;
    Ok(())
}

/// The sum of the value of a key at a version and an operand.
fn sum_at(
    alloc: Global,
    chains: &BlockMap<Chain>,
    version: u64,
    key: &Bytes,
    operand: &Bytes,
) -> Result<Bytes, AllocError>
    requires { AreFalling chains.now }
    ensures { IfOk result (λ sum.
        sum ≡ added (value_at version (links_at chains.now key.now)) operand.now) }
{
    let sum = match value_of(chains, version, key) {
        Some(value) => add_le(alloc, Some(value.as_slice()), operand.as_slice())?,
        None => add_le(alloc, None, operand.as_slice())?,
    };
    Ok(Bytes::new(sum))
}

/// The keys of the range that have a value at a version.
fn keys_shown(
    alloc: Global,
    chains: &BlockMap<Chain>,
    version: u64,
    range: &KeyRange,
) -> Result<Vec<Bytes>, AllocError>
    requires { AreFalling chains.now }
    ensures { IfOk result (λ keys.
        keys.items ≡ keys_of (pairs_in (shown chains.now.entries version) range.now)) }
{
    let mut keys = Vec::new(alloc);
    for (key, chain) in chains.range(range.begin(), range.end()) {
        if chain.value_at(version).is_some() {
            keys.push(key.copy()?)?;
        }
    }
    Ok(keys)
}

/// The next of the entries from the front, or with `reverse` from the back.
fn next_of<'a>(rest: &mut Range<'a, Chain>, reverse: bool) -> Option<(&'a Bytes, &'a Chain)>
    ensures { MatchOption result (turned reverse rest.old ≡ [])
        (λ entry. turned reverse rest.old ≡ (entry.0.now, entry.1.now) ∷ turned reverse rest.new) }
{
    if reverse {
        rest.next_back()
    } else {
        rest.next()
    }
}

impl Chains {
    /// No key has a chain.
    pub(crate) fn new(alloc: Global) -> Chains
        ensures chains { result.chains.entries ≡ [] }
        ensures written { result.written.items ≡ [] }
    {
        Chains {
            alloc,
            chains: BlockMap::new(alloc),
            written: Vec::new(alloc),
        }
    }

    /// Puts a value, or that there is none, at a key from this version on, and lists the key.
    fn write(&mut self, version: u64, key: &Bytes, value: Option<Bytes>) -> Result<(), AllocError>
        ensures ok { OnOk result ((own : List ℕ) → links_at self.new.chains own
            ≡ (if is_eq (key_cmp key.now own)
            then put version value (links_at self.old.chains own)
            else links_at self.old.chains own)) }
        ensures writes { Writes version self.old.written.items self.old.chains
            self.new.written.items self.new.chains }
    {
        self.written.push(key.copy()?)?;
        put_at(self.alloc, &mut self.chains, version, key, value)
    }

    /// Clears the keys of the range that have a value at this version, and lists them.
    fn clear(&mut self, version: u64, range: &KeyRange) -> Result<(), AllocError>
        requires { AreBelow version self.old.chains }
        ensures ok { OnOk result (shown self.new.chains.entries version
            ≡ after (ClearRange range.now) (shown self.old.chains.entries version)) }
        ensures writes { Writes version self.old.written.items self.old.chains
            self.new.written.items self.new.chains }
    {
        let keys = keys_shown(self.alloc, &self.chains, version, range)?;
        for key in &keys {
            self.write(version, key, None)?;
        }
        Ok(())
    }

    /// Clears a key whose value at this version is just the operand, and lists it then.
    fn compare_and_clear(
        &mut self,
        version: u64,
        key: &Bytes,
        operand: &Bytes,
    ) -> Result<(), AllocError>
        requires { AreBelow version self.old.chains }
        ensures ok { OnOk result (shown self.new.chains.entries version
            ≡ after (CompareAndClear key.now operand.now) (shown self.old.chains.entries version)) }
        ensures writes { Writes version self.old.written.items self.old.chains
            self.new.written.items self.new.chains }
    {
        if is_operand(value_of(&self.chains, version, key), operand) {
            self.write(version, key, None)
        } else {
            Ok(())
        }
    }

    /// Applies a mutation at this version, and lists the keys that it writes. Where memory runs
    /// out some of its writes are done.
    pub(crate) fn apply(&mut self, version: u64, mutation: &Mutation) -> Result<(), AllocError>
        requires { AreBelow version self.old.chains }
        ensures ok { OnOk result (shown self.new.chains.entries version
            ≡ after mutation.now (shown self.old.chains.entries version)) }
        ensures writes { Writes version self.old.written.items self.old.chains
            self.new.written.items self.new.chains }
    {
        match mutation {
            Mutation::Set { key, value } => {
                let value = value.copy()?;
                self.write(version, key, Some(value))
            }
            Mutation::Add { key, operand } => {
                let sum = sum_at(self.alloc, &self.chains, version, key, operand)?;
                self.write(version, key, Some(sum))
            }
            Mutation::ClearRange(range) => self.clear(version, range),
            Mutation::CompareAndClear { key, operand } => {
                self.compare_and_clear(version, key, operand)
            }
        }
    }

    /// Takes back what was written at this version.
    pub(crate) fn take_back(&mut self, version: u64)
        requires below { AreBelow version self.old.chains }
        requires same { (key : List ℕ) → has_key self.old.written.items key ≡ false →
            without version (links_at self.old.chains key) ≡ links_at self.old.chains key }
        ensures chains { (key : List ℕ) →
            links_at self.new.chains key ≡ without version (links_at self.old.chains key) }
        ensures written { self.new.written.items ≡ [] }
    {
        let written = self.take_written();
        for key in &written {
            take_back_at(&mut self.chains, version, key);
        }
    }

    /// Hands out the list of the keys that were written, and begins a new one.
    pub(crate) fn take_written(&mut self) -> Vec<Bytes>
        ensures keys { result.items ≡ self.old.written.items }
        ensures written { self.new.written.items ≡ [] }
        ensures chains { self.new.chains ≡ self.old.chains }
    {
        mem::replace(&mut self.written, Vec::new(self.alloc))
    }

    /// Drops what no version from the floor on needs of these keys.
    pub(crate) fn settle(&mut self, floor: u64, keys: &[Bytes])
        requires { AreFalling self.old.chains }
        ensures chains { (key : List ℕ) → links_at self.new.chains key ≡ (if has_key keys.now key
            then needed floor (links_at self.old.chains key) else links_at self.old.chains key) }
        ensures written { self.new.written.items ≡ self.old.written.items }
    {
        for key in keys {
            settle_at(&mut self.chains, floor, key);
        }
    }

    // The pairs of the range at a version: the first ones in the order of their keys, or with
    // `reverse` the last ones with the last one first, as many as there are up to the limit.
    fn read_between(
        &self,
        range: &KeyRange,
        version: u64,
        limit: usize,
        reverse: bool,
    ) -> Result<Vec<Pair>, AllocError>
        requires { AreFalling self.now.chains }
        ensures { IfOk result (λ pairs.
            pairs.items ≡ read_of (shown self.now.chains.entries version) range.now limit reverse) }
    {
        let mut pairs = Vec::new(self.alloc);
        let mut rest = self.chains.range(range.begin(), range.end());
        while pairs.len() < limit {
            let Some((key, chain)) = next_of(&mut rest, reverse) else {
                break;
            };
            if let Some(value) = chain.value_at(version) {
                push_pair(&mut pairs, limit, (key.copy()?, value.copy()?))?;
            }
        }
        Ok(pairs)
    }

    // The pair of a key at a version, where it has a value there.
    fn read_point(&self, key: &Bytes, version: u64) -> Result<Vec<Pair>, AllocError>
        requires { AreFalling self.now.chains }
        ensures { IfOk result (λ pairs.
            pairs.items ≡ read_of (shown self.now.chains.entries version) (point key.now) 1 false) }
    {
        let mut pairs = Vec::new(self.alloc);
        match value_of(&self.chains, version, key) {
            None => Ok(pairs),
            Some(value) => {
                pairs.push((key.copy()?, value.copy()?))?;
                Ok(pairs)
            }
        }
    }

    /// How many links a key has.
    pub(crate) fn depth(&self, key: &Bytes) -> usize
        ensures { result ≡ length (links_at self.now.chains key.now) }
    {
        match self.chains.get(key) {
            Some(chain) => chain.len(),
            None => 0,
        }
    }

    /// The value of a key at a version, or None where it has none.
    pub(crate) fn value(&self, key: &Bytes, version: u64) -> Option<&Bytes>
        requires { AreFalling self.now.chains }
        ensures { option_copied result ≡ get (shown self.now.chains.entries version) key.now }
    {
        value_of(&self.chains, version, key)
    }

    /// The pairs of the range at a version: the first ones in the order of their keys, or with
    /// `reverse` the last ones with the last one first, as many as there are up to the limit.
    pub(crate) fn read(
        &self,
        range: &KeyRange,
        version: u64,
        limit: usize,
        reverse: bool,
    ) -> Result<Vec<Pair>, AllocError>
        requires { AreFalling self.now.chains }
        ensures { IfOk result (λ pairs.
            pairs.items ≡ read_of (shown self.now.chains.entries version) range.now limit reverse) }
    {
        // A key is looked for by itself: a range takes a search for each of its ends.
        if limit == 1 && !reverse && range.is_point() {
            return self.read_point(range.begin(), version);
        }
        self.read_between(range, version, limit, reverse)
    }
}
