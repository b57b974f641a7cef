// Single keys that requests wrote, by their hashes. Used by `kept`.
ghost use Rattle.std.specs.Prelude.{◌≡◌, ◌+◌, ◌<◌, ◌≤◌, ◌^◌, List, ℕ, zero, IsTrue, IfOk, IfSome};
ghost use Rattle.std.specs.Prelude.{OnOk, length};
ghost use Rattle.kv_core.specs.Change.{write_range, write_ranges};
ghost use Rattle.kv_core.specs.Range.{contains, covers, point};
ghost use Rattle.cluster_core.specs.Decision.{cut, owns};
ghost use Rattle.cluster_core.specs.Kept.{PutsEach, has_place, rise_between, writes_key};
ghost use Rattle.cluster_core.specs.Points.{AreSpanned, no_points, reaches, spans};
ghost use Rattle.cluster_core.specs.Segments.{IsCovered, IsNewestOver, Overlays, SegmentHolds};

use crate::part::Part;
use crate::requests::Requests;
use kv_core::{Bytes, KeyRange, Mutation};
use std::alloc::{AllocError, Global};
use std::collections::HashMap;
use std::marker::Model;

/// The least and the greatest of some keys.
#[derive(Debug, Drop)]
pub(crate) struct Hull {
    pub least: Bytes,
    pub greatest: Bytes,
}

impl Hull {
    /// The one that begins and ends with the empty key, which takes no memory.
    fn new(alloc: Global) -> Hull {
        Hull {
            least: Bytes::new(Vec::new(alloc)),
            greatest: Bytes::new(Vec::new(alloc)),
        }
    }

    /// That of one key.
    fn of(key: &Bytes) -> Result<Hull, AllocError>
        ensures { IfOk result (λ hull. IsTrue (spans hull key.now)) }
    {
        let least = key.copy()?;
        let greatest = key.copy()?;
        Ok(Hull { least, greatest })
    }

    /// Widens it to a key. Where memory runs out it still spans what it did.
    fn widen(&mut self, key: &Bytes) -> Result<(), AllocError>
        ensures wider { (own : List ℕ) → IsTrue (spans self.old own) → IsTrue (spans self.new own) }
        ensures key { OnOk result (IsTrue (spans self.new key.now)) }
    {
        if key.is_before(&self.least) {
            self.least = key.copy()?;
        }
        if self.greatest.is_before(key) {
            self.greatest = key.copy()?;
        }
        Ok(())
    }

    /// Whether it may span a key of the range.
    fn reaches(&self, range: &KeyRange) -> bool
        ensures { result ≡ reaches self.now range.now }
    {
        self.least.is_before(range.end()) && range.begin().is_upto(&self.greatest)
    }
}

/// Widens the hull of the keys to one more, or begins it anew where there are none.
fn widen(hull: &mut Hull, places: &HashMap<Bytes, usize>, key: &Bytes) -> Result<(), AllocError>
    ensures keys { AreSpanned hull.old places.now.entries → AreSpanned hull.new places.now.entries }
    ensures key { OnOk result (IsTrue (spans hull.new key.now)) }
{
    if places.is_empty() {
        *hull = Hull::of(key)?;
        return Ok(());
    }
    hull.widen(key)
}

/// For each single key that a request wrote the place of the last one that did, by the key's hash.
///
/// Where a request cleared more than a key, points are not all that was written up to its place.
#[derive(Debug, Drop)]
pub(crate) struct Points {
    places: HashMap<Bytes, usize>,
    hull: Hull,
    whole_from: usize,
}

impl Model for Points {
    ghost use Rattle.cluster_core.specs.Points.{AreSpanned, PointsState, points_of};

    ghost Value = { PointsState };

    ghost view = { λ a. record {
      segments = points_of a.places.entries;
      whole_from = a.whole_from;
    } };

    ghost invariant = { λ a. AreSpanned a.hull a.places.entries };
}

impl Points {
    /// No points, which takes no memory.
    pub fn new(alloc: Global) -> Points
        ensures { result ≡ no_points }
    {
        Points {
            places: HashMap::new(alloc),
            hull: Hull::new(alloc),
            whole_from: 0,
        }
    }

    /// The place from which on they are all that was written.
    pub fn whole_from(&self) -> usize
        ensures { result ≡ self.now.whole_from }
    {
        self.whole_from
    }

    /// Drops what stands under a place before this one.
    pub fn drop_before(&mut self, least: usize)
        ensures holds { (key : List ℕ) (place : ℕ) → SegmentHolds self.new.segments key place →
            SegmentHolds self.old.segments key place }
        ensures kept { (key : List ℕ) (place : ℕ) → least ≤ place →
            IsCovered self.old.segments key place → IsCovered self.new.segments key place }
        ensures recent { (key : List ℕ) (place : ℕ) → SegmentHolds self.new.segments key place →
            least ≤ place }
        ensures whole { self.new.whole_from ≡ self.old.whole_from }
    {
        self.places.retain(|_, place| *place >= least);
    }

    /// The newest place under which a key of the range stands that is the owner's. None where
    /// points don't tell it: where the range is wide and the hull reaches it.
    pub fn newest_in(&self, part: &Part, range: &KeyRange) -> Option<Option<usize>>
        ensures { IfSome result (IsNewestOver self.now.segments (cut part.now range.now)) }
    {
        if !range.is_point() {
            return if self.hull.reaches(range) {
                None
            } else {
                Some(None)
            };
        }
        if !part.owns(range.begin()) {
            return Some(None);
        }
        Some(self.places.get(range.begin()).copied())
    }

    /// Notes a key under a place, if it is the owner's.
    fn note_key(&mut self, part: &Part, key: &Bytes, place: usize) -> Result<(), AllocError>
        ensures overlays { Overlays (contains (point key.now)) place
            self.old.segments self.new.segments }
        ensures covered { OnOk result ((own : List ℕ) → IsTrue (owns part.now own) →
            IsTrue (contains (point key.now) own) → IsCovered self.new.segments own place) }
        ensures whole { self.new.whole_from ≡ self.old.whole_from }
    {
        if !part.owns(key) {
            return Ok(());
        }
        widen(&mut self.hull, &self.places, key)?;
        self.places.insert(key.copy()?, place)?;
        Ok(())
    }

    /// Notes a range under a place: its key where it is a point, and else that points aren't all
    /// that was written up to there, if any key of it is the owner's.
    fn note_range(&mut self, part: &Part, range: &KeyRange, place: usize) -> Result<(), AllocError>
        requires { place + 1 < 2 ^ 64 }
        ensures overlays { Overlays (contains range.now) place self.old.segments self.new.segments }
        ensures covered { OnOk result (self.new.whole_from ≤ place → (key : List ℕ) →
            IsTrue (owns part.now key) → IsTrue (contains range.now key) →
            IsCovered self.new.segments key place) }
        ensures whole { self.old.whole_from ≤ self.new.whole_from }
    {
        if range.is_point() {
            return self.note_key(part, range.begin(), place);
        }
        if part.meets(range) {
            self.whole_from = self.whole_from.max(place + 1);
        }
        Ok(())
    }

    /// Notes what a mutation writes under a place, if any of it is the owner's.
    fn note_mutation(
        &mut self,
        part: &Part,
        mutation: &Mutation,
        place: usize,
    ) -> Result<(), AllocError>
        requires { place + 1 < 2 ^ 64 }
        ensures overlays { Overlays (contains (write_range mutation.now)) place
            self.old.segments self.new.segments }
        ensures covered { OnOk result (self.new.whole_from ≤ place → (key : List ℕ) →
            IsTrue (owns part.now key) → IsTrue (contains (write_range mutation.now) key) →
            IsCovered self.new.segments key place) }
        ensures whole { self.old.whole_from ≤ self.new.whole_from }
    {
        match mutation {
            Mutation::Set { key, value: _ } => self.note_key(part, key, place),
            Mutation::Add { key, operand: _ } => self.note_key(part, key, place),
            Mutation::CompareAndClear { key, operand: _ } => self.note_key(part, key, place),
            Mutation::ClearRange(range) => self.note_range(part, range, place),
        }
    }

    /// Notes what mutations write under a place.
    fn note_all(
        &mut self,
        part: &Part,
        mutations: &[Mutation],
        place: usize,
    ) -> Result<(), AllocError>
        requires { place + 1 < 2 ^ 64 }
        ensures overlays { Overlays (covers (write_ranges mutations.now)) place
            self.old.segments self.new.segments }
        ensures covered { OnOk result (self.new.whole_from ≤ place → (key : List ℕ) →
            IsTrue (owns part.now key) → IsTrue (covers (write_ranges mutations.now) key) →
            IsCovered self.new.segments key place) }
        ensures whole { self.old.whole_from ≤ self.new.whole_from }
    {
        for mutation in mutations {
            self.note_mutation(part, mutation, place)?;
        }
        Ok(())
    }

    /// Notes what the request at a place writes under that place.
    fn note_request(
        &mut self,
        part: &Part,
        requests: &Requests,
        place: usize,
    ) -> Result<(), AllocError>
        requires fits { length requests.now.all < 2 ^ 64 }
        requires kept { requests.now.forgotten ≤ place }
        requires inside { place < length requests.now.all }
        ensures overlays { Overlays (writes_key requests.now.all place) place
            self.old.segments self.new.segments }
        ensures covered { OnOk result (self.new.whole_from ≤ place → (key : List ℕ) →
            IsTrue (owns part.now key) → IsTrue (writes_key requests.now.all place key) →
            IsCovered self.new.segments key place) }
        ensures whole { self.old.whole_from ≤ self.new.whole_from }
    {
        let request = requests.at(place);
        self.note_all(part, request.mutations.as_slice(), place)
    }

    /// Notes what the requests at these places write under their places, but for places before the
    /// least one, of which nobody asks.
    pub fn note_each(
        &mut self,
        part: &Part,
        requests: &Requests,
        least: usize,
        places: &[usize],
    ) -> Result<(), AllocError>
        requires fits { length requests.now.all < 2 ^ 64 }
        requires kept { requests.now.forgotten ≤ least }
        requires rising { IsTrue (rise_between zero (length requests.now.all) places.now) }
        ensures puts { PutsEach requests.now.all places.now self.old.segments self.new.segments }
        ensures covered { OnOk result ((key : List ℕ) (place : ℕ) → least ≤ place →
            self.new.whole_from ≤ place → IsTrue (has_place places.now place) →
            IsTrue (owns part.now key) → IsTrue (writes_key requests.now.all place key) →
            IsCovered self.new.segments key place) }
        ensures whole { self.old.whole_from ≤ self.new.whole_from }
    {
        for place in places {
            if *place < least {
                continue;
            }
            self.note_request(part, requests, *place)?;
        }
        Ok(())
    }
}
