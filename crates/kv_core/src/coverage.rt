// Unions of ranges, as interval sets. Used by `range_index`, and by `txn` for the keys that a
// transaction clears.
ghost use Rattle.std.specs.Prelude.{◌≡◌, ◌||◌, [], List, ℕ, false, IsTrue, IfOk, OnOk, OnErr};
ghost use Rattle.std.specs.BTreeMap.{IsOrdered};
ghost use Rattle.std.specs.List.{list_any};
ghost use Rattle.kv_core.specs.Bytes.{key_cmp, key_le, key_lt};
ghost use Rattle.kv_core.specs.Range.{contains, covers, any_meets, is_within};
ghost use Rattle.kv_core.specs.Coverage.{AreStretches, AreSwallowed, BeginsAt, Reaches, stretches_of};

use crate::bytes::Bytes;
use crate::range::KeyRange;
use crate::removal::remove_each;
use std::alloc::{AllocError, Global};
use std::collections::BTreeMap;
use std::marker::Model;
use std::ops::Bound;

/// The keys that ranges cover, as stretches: a map from the begin of each to its end.
///
/// No stretch lies within another, so the one that begins last before a key also ends last of
/// those that begin before it.
#[derive(Debug, Drop)]
pub struct Coverage {
    alloc: Global,
    stretches: BTreeMap<Bytes, Bytes>,
}

impl Model for Coverage {
    ghost use Rattle.std.specs.Prelude.{List};
    ghost use Rattle.kv_core.specs.Range.{KeyRange as Range};
    ghost use Rattle.kv_core.specs.Coverage.{AreStretches, stretches_of};

    ghost Value = { List Range };

    ghost view = { λ a. stretches_of a.stretches.entries };

    ghost invariant = { λ a. AreStretches a.stretches.entries };
}

/// The begins of the stretches that a range swallows: those that begin after it does and end
/// within it.
fn swallowed_by(
    alloc: Global,
    stretches: &BTreeMap<Bytes, Bytes>,
    range: &KeyRange,
) -> Result<Vec<Bytes>, AllocError>
    requires { AreStretches stretches.now.entries }
    ensures { IfOk result (λ begins. AreSwallowed range.now stretches.now.entries begins.items) }
{
    let mut begins = Vec::new(alloc);
    for (begin, end) in stretches.range((Bound::Excluded(range.begin()), Bound::Unbounded)) {
        if range.end().is_before(end) {
            return Ok(begins);
        }
        begins.push(begin.copy()?)?;
    }
    Ok(begins)
}

/// Where the stretch ends that has this byte string and begins last, or the byte string itself where
/// none has it.
fn end_over<'a>(stretches: &'a BTreeMap<Bytes, Bytes>, key: &'a Bytes) -> &'a Bytes
    requires { AreStretches stretches.now.entries }
    ensures reaches { Reaches stretches.now.entries key.now result.now }
    ensures ordered { IsOrdered key_cmp stretches.now }
{
    let mut begun = stretches.range(..=key);
    match begun.next_back() {
        Some((_, end)) => { if key.is_before(end) { end } else { key } }
        None => key,
    }
}

/// The first byte string from this one on that lies in no stretch.
fn first_past<'a>(stretches: &'a BTreeMap<Bytes, Bytes>, key: &'a Bytes) -> &'a Bytes
    requires { AreStretches stretches.now.entries }
    ensures from { IsTrue (key_le key.now result.now) }
    ensures covered { (q : List ℕ) → IsTrue (key_le key.now q) → IsTrue (key_lt q result.now) →
        IsTrue (covers (stretches_of stretches.now.entries) q) }
    ensures left_out { covers (stretches_of stretches.now.entries) result.now ≡ false }
{
    let mut place = end_over(stretches, key);
    for (begin, end) in stretches.range((Bound::Excluded(key), Bound::Unbounded)) {
        if place.is_before(begin) {
            return place;
        }
        place = end;
    }
    place
}

/// The first byte string from which on all those before this one lie in stretches.
fn first_before<'a>(stretches: &'a BTreeMap<Bytes, Bytes>, key: &'a Bytes) -> &'a Bytes
    requires { AreStretches stretches.now.entries }
    ensures upto { IsTrue (key_le result.now key.now) }
    ensures covered { (q : List ℕ) → IsTrue (key_le result.now q) → IsTrue (key_lt q key.now) →
        IsTrue (covers (stretches_of stretches.now.entries) q) }
    ensures stops { BeginsAt (stretches_of stretches.now.entries) result.now }
{
    let mut place = key;
    let mut earlier = stretches.range(..key);
    while let Some((begin, end)) = earlier.next_back() {
        if end.is_before(place) {
            return place;
        }
        place = begin;
    }
    place
}

impl Coverage {
    /// The coverage of no key, which takes no memory.
    pub fn new(alloc: Global) -> Coverage
        ensures { result ≡ [] }
    {
        Coverage {
            alloc,
            stretches: BTreeMap::new(alloc),
        }
    }

    /// An equal coverage, unless memory runs out.
    pub fn copy(&self) -> Result<Coverage, AllocError>
        ensures { IfOk result (λ copy. copy ≡ self.now) }
    {
        let stretches = self.stretches.clone()?;
        Ok(Coverage {
            alloc: self.alloc,
            stretches,
        })
    }

    /// Adds the keys of a range. Where memory runs out the coverage stays as it was.
    pub fn add(&mut self, range: &KeyRange) -> Result<(), AllocError>
        ensures ok { OnOk result ((key : List ℕ) →
            covers self.new key ≡ (covers self.old key || contains range.now key)) }
        ensures err { OnErr result (self.new ≡ self.old) }
    {
        if range.is_empty() || self.has_whole(range) {
            return Ok(());
        }
        let swallowed = swallowed_by(self.alloc, &self.stretches, range)?;
        let begin = range.begin().copy()?;
        let end = range.end().copy()?;
        self.stretches.insert(begin, end)?;
        remove_each(&mut self.stretches, swallowed.as_slice());
        Ok(())
    }

    /// Whether the key is covered, which takes no memory.
    pub fn covers(&self, key: &Bytes) -> bool
        ensures { result ≡ covers self.now key.now }
    {
        key.is_before(end_over(&self.stretches, key))
    }

    /// The first byte string from this one on that isn't covered: this one itself where it isn't.
    /// An error says that memory ran out.
    pub fn past(&self, key: &Bytes) -> Result<Bytes, AllocError>
        ensures from { IfOk result (λ end. IsTrue (key_le key.now end)) }
        ensures covered { IfOk result (λ end.
            (q : List ℕ) → IsTrue (key_le key.now q) → IsTrue (key_lt q end) → IsTrue (covers self.now q)) }
        ensures left_out { IfOk result (λ end. covers self.now end ≡ false) }
    {
        let end = first_past(&self.stretches, key).copy()?;
        Ok(end)
    }

    /// The first byte string from which on all those before this one are covered: this one itself
    /// where those just before it aren't. An error says that memory ran out.
    pub fn before(&self, key: &Bytes) -> Result<Bytes, AllocError>
        ensures upto { IfOk result (λ begin. IsTrue (key_le begin key.now)) }
        ensures covered { IfOk result (λ begin.
            (q : List ℕ) → IsTrue (key_le begin q) → IsTrue (key_lt q key.now) → IsTrue (covers self.now q)) }
        ensures stops { IfOk result (λ begin. BeginsAt self.now begin) }
    {
        let begin = first_before(&self.stretches, key).copy()?;
        Ok(begin)
    }

    /// Whether the range lies within one stretch.
    fn has_whole(&self, range: &KeyRange) -> bool
        ensures { result ≡ list_any (is_within range.now) self.now }
    {
        let mut upto = self.stretches.range(..=range.begin());
        match upto.next_back() {
            Some((_, end)) => range.end().is_upto(end),
            None => false,
        }
    }

    /// Whether some key of the range is covered.
    pub(crate) fn meets(&self, range: &KeyRange) -> bool
        ensures { result ≡ any_meets range.now self.now }
    {
        let mut before = self.stretches.range(..range.end());
        match before.next_back() {
            Some((_, end)) => !range.is_empty() && range.begin().is_before(end),
            None => false,
        }
    }
}
