// Stored pairs merged with own writes, for read-your-writes. Called by `read` and `transaction`.
ghost use Rattle.std.specs.Prelude.{◌≡◌, ◌≤◌, ℕ, List, Option, IfOk, OnOk, IsTrue, not};
ghost use Rattle.std.specs.Prelude.{if◌then◌else◌};
ghost use Rattle.std.specs.FinMap.{from_entries, get};
ghost use Rattle.std.specs.List.{filter};
ghost use Rattle.std.specs.Option.{option_copied};
ghost use Rattle.std.specs.Ordering.{is_eq};
ghost use Rattle.kv_core.specs.Bytes.{has_key, key_cmp};
ghost use Rattle.kv_core.specs.Map.{Map};
ghost use Rattle.kv_core.specs.Range.{contains, covers};
ghost use Rattle.kv_core.specs.Read.{read_of};
ghost use Rattle.txn.specs.Own.{IsUnder, known, laid_over, own_state, sum_at, under, worth};
ghost use Rattle.txn.specs.Own.{worth_of};
ghost use Rattle.txn.specs.Reading.{Tell};

use crate::compared::{compared_keys, value_compared};
use crate::own::OwnWrites;
use kv_core::{Bytes, KeyRange, KvMap, Pair};
use std::alloc::AllocError;

/// Puts a value at a key, or takes out the key's pair where there is none.
fn put(map: &mut KvMap, key: &Bytes, value: Option<Bytes>) -> Result<(), AllocError>
    ensures { OnOk result ((other : List ℕ) →
        get map.new other ≡ (if is_eq (key_cmp other key.now) then value else get map.old other)) }
{
    match value {
        Some(value) => map.insert(key.copy()?, value),
        None => {
            map.remove(key);
            Ok(())
        }
    }
}

/// A copy of a value, where there is one.
fn copy_of(value: Option<&Bytes>) -> Result<Option<Bytes>, AllocError>
    ensures { IfOk result (λ copy. copy ≡ option_copied value.entry) }
{
    match value {
        Some(value) => Ok(Some(value.copy()?)),
        None => Ok(None),
    }
}

impl OwnWrites {
    /// What a value that own mutations make of nothing is worth over a value that was there.
    fn worth(&self, key: &Bytes, value: Bytes, before: Option<&Bytes>) -> Result<Bytes, AllocError>
        ensures { IfOk result (λ worthy.
            worthy ≡ worth value (sum_at self.now.sums.entries key.now) (option_copied before.entry)) }
    {
        match self.sums.get(key) {
            Some(sum) => sum.over(self.alloc, before),
            None => Ok(value),
        }
    }

    /// The value at a key under the own mutations, where there was this value or none.
    pub(crate) fn value(
        &self,
        key: &Bytes,
        before: Option<Bytes>,
    ) -> Result<Option<Bytes>, AllocError>
        ensures { IfOk result (λ value. value ≡ under (own_state self.now) key.now before) }
    {
        let known = self.known(key, before)?;
        value_compared(&self.compared, key, known)
    }

    /// The value at a key before own mutations compare it, where there was this value or none.
    fn known(&self, key: &Bytes, before: Option<Bytes>) -> Result<Option<Bytes>, AllocError>
        ensures { IfOk result (λ value. value ≡ known (own_state self.now) key.now before) }
    {
        let left = if self.cleared.covers(key) {
            None
        } else {
            before
        };
        match self.written.get(key) {
            Some(written) => {
                let value = self.worth(key, written.copy()?, left.as_ref())?;
                Ok(Some(value))
            }
            None => Ok(left),
        }
    }

    /// The map of the stored pairs whose keys the own mutations don't clear.
    fn left(&self, stored: Vec<Pair>) -> Result<KvMap, AllocError>
        ensures { IfOk result (λ map.
            map ≡ from_entries (filter (λ pair. not (covers self.now.cleared pair.0)) stored.items)) }
    {
        let mut left = stored;
        left.retain(|pair| !self.cleared.covers(&pair.0));
        KvMap::from_pairs(self.alloc, left)
    }

    /// The map with own pairs put over it, each with what it is worth there.
    fn put_over(&self, pairs: Vec<Pair>, map: KvMap) -> Result<KvMap, AllocError>
        ensures { IfOk result (λ laid. laid ≡ laid_over self.now.sums.entries pairs.items map) }
    {
        let mut laid = map;
        for (key, value) in pairs {
            let worth = self.worth(&key, value, laid.get(&key))?;
            laid.insert(key, worth)?;
        }
        Ok(laid)
    }

    /// The map with the values at compared keys put over it, where these stored pairs are left.
    fn put_compared(&self, keys: &[Bytes], left: &KvMap, map: KvMap) -> Result<KvMap, AllocError>
        ensures { IfOk result (λ laid. (key : List ℕ) → get laid key
            ≡ (if has_key keys.now key then under (own_state self.now) key (get left.now key) else get map key)) }
    {
        let mut laid = map;
        for key in keys {
            let before = copy_of(left.get(key))?;
            let value = self.value(key, before)?;
            put(&mut laid, key, value)?;
        }
        Ok(laid)
    }

    /// The pairs of a range of whose keys none is compared, from the stored pairs that are left.
    ///
    /// No more own pairs are looked at than the limit.
    fn merged_known(
        &self,
        left: KvMap,
        range: &KeyRange,
        limit: usize,
        reverse: bool,
    ) -> Result<Vec<Pair>, AllocError>
        ensures { IfOk result (λ pairs. pairs.items ≡ read_of (laid_over self.now.sums.entries
            (read_of self.now.written range.now limit reverse) left) range.now limit reverse) }
    {
        let own = self.written.range(range, limit, reverse)?;
        let laid = self.put_over(own, left)?;
        let pairs = laid.range(range, limit, reverse)?;
        Ok(pairs)
    }

    /// The map with all own pairs of a range put over it, whose compared keys these are.
    fn put_all(&self, left: KvMap, range: &KeyRange, keys: &[Bytes]) -> Result<KvMap, AllocError>
        ensures { IfOk result (λ laid. (key : List ℕ) → IsTrue (contains range.now key) → get laid key
            ≡ (if has_key keys.now key then under (own_state self.now) key (get left key)
            else worth_of (get self.now.written key) (sum_at self.now.sums.entries key) (get left key))) }
    {
        let own = self.written.range(range, usize::MAX, false)?;
        let laid = self.put_over(own, left.copy()?)?;
        let all = self.put_compared(keys, &left, laid)?;
        Ok(all)
    }

    /// The pairs of a range under the own mutations, in order or from the last one back, as many as
    /// there are up to the limit, from the stored pairs that tell what was there.
    ///
    /// No more own pairs are looked at than the limit, unless a key of the range is compared: its
    /// pair may be gone.
    pub(crate) fn merged(
        &self,
        stored: Vec<Pair>,
        range: &KeyRange,
        limit: usize,
        reverse: bool,
    ) -> Result<Vec<Pair>, AllocError>
        requires { 1 ≤ limit }
        ensures { IfOk result (λ pairs.
            (base m : Map) → IsUnder (own_state self.now) base m → Tell self.now.cleared stored.items base range.now →
            pairs.items ≡ read_of m range.now limit reverse) }
    {
        let left = self.left(stored)?;
        let keys = compared_keys(self.alloc, &self.compared, range)?;
        if keys.is_empty() {
            return self.merged_known(left, range, limit, reverse);
        }
        let laid = self.put_all(left, range, keys.as_slice())?;
        let pairs = laid.range(range, limit, reverse)?;
        Ok(pairs)
    }
}
