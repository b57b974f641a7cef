// The last writer of each key, by runs of keys, and how what requests wrote is put there. Used by
// `kept`; `tree` holds its runs.
ghost use Rattle.std.specs.Prelude.{◌≡◌, ◌≤◌, ◌<◌, ◌↔◌, ℕ, zero, Option, List, [], IsTrue, IfOk};
ghost use Rattle.std.specs.Prelude.{IfNone, IfSome, OnOk, length};
ghost use Rattle.kv_core.specs.Bytes.{key_lt};
ghost use Rattle.kv_core.specs.Change.{write_range, write_ranges};
ghost use Rattle.kv_core.specs.Range.{contains, covers, point};
ghost use Rattle.cluster_core.specs.Decision.{owns};
ghost use Rattle.cluster_core.specs.Kept.{PutsEach, has_place, rise_between, writes_key};
ghost use Rattle.cluster_core.specs.Segments.{Begins, HaveKeys, IsCovered, IsNewestOver};
ghost use Rattle.cluster_core.specs.Segments.{SegmentHolds};
ghost use Rattle.cluster_core.specs.Segments.{IsOver, IsPartFrom, Overlays, from_to};
ghost use Rattle.cluster_core.specs.Tree.{InOrder, at_key};

use crate::part::Part;
use crate::requests::Requests;
use crate::tree::{Node, Tree, later};
use kv_core::{Bytes, Mutation};
use std::alloc::{AllocError, Global};
use std::marker::Model;
use std::mem;

/// A run of keys up to an end, and the place of the last request that wrote there.
#[derive(Debug, Drop)]
pub(crate) struct Segment {
    pub end: Bytes,
    pub place: usize,
}

/// The segment that begins last of those that begin at the key or before it, if it has the key.
fn segment_over<'a>(segments: &'a Tree, key: &Bytes) -> Option<&'a Node>
    requires { InOrder segments.now.entries }
    ensures some { IfSome result (λ over.
        IsOver segments.now.entries key.now over.now.begin over.now.segment) }
    ensures none { IfNone result ((at : ℕ) → ¬ IsCovered segments.now.entries key.now at) }
{
    match segments.last_upto(key) {
        Some(last) => if key.is_before(&last.segment.end) {
            Some(last)
        } else {
            None
        },
        None => None,
    }
}

/// The newest place of a segment that has a key from one on and before another.
fn newest_between(segments: &Tree, begin: &Bytes, end: &Bytes) -> Option<usize>
    requires keys { HaveKeys segments.now.entries }
    requires order { InOrder segments.now.entries }
    ensures { IsNewestOver segments.now.entries (from_to begin.now end.now) result }
{
    if !begin.is_before(end) {
        return None;
    }
    let begun = segments.newest_between(begin, end);
    match segment_over(segments, begin) {
        Some(over) => Some(later(begun, over.segment.place)),
        None => begun,
    }
}

/// The part from a key on of the segment over it, if that one begins before the key.
fn part_from(segments: &Tree, key: &Bytes) -> Result<Option<Segment>, AllocError>
    requires { InOrder segments.now.entries }
    ensures { IfOk result (IsPartFrom segments.now.entries key.now) }
{
    let Some(over) = segment_over(segments, key) else {
        return Ok(None);
    };
    if !over.begin.is_before(key) {
        return Ok(None);
    }
    let end = over.segment.end.copy()?;
    Ok(Some(Segment {
        end,
        place: over.segment.place,
    }))
}

/// The part from a key on of the segment over it, if that one begins before the key, as a tree.
fn rest_from(alloc: Global, segments: &Tree, key: &Bytes) -> Result<Tree, AllocError>
    requires { InOrder segments.now.entries }
    ensures rest { IfOk result (λ rest. (part : Option Segment)
        × IsPartFrom segments.now.entries key.now part × (rest.entries ≡ at_key key.now part)) }
    ensures height { IfOk result (λ rest. rest.height ≤ 1) }
{
    match part_from(segments, key)? {
        Some(part) => Ok(Tree::single(Node::new(alloc, key.copy()?, part)?)),
        None => Ok(Tree::new()),
    }
}

/// Puts the keys from one on and before another into a segment of their own with this place. Where
/// memory runs out the segments stay as they were.
fn overlay(
    alloc: Global,
    segments: &mut Tree,
    begin: Bytes,
    end: Bytes,
    place: usize,
) -> Result<(), AllocError>
    requires keys { HaveKeys segments.old.entries }
    requires order { InOrder segments.old.entries }
    requires some { IsTrue (key_lt begin end) }
    ensures keys { HaveKeys segments.new.entries }
    ensures order { InOrder segments.new.entries }
    ensures overlays { Overlays (contains (from_to begin end)) place
        segments.old.entries segments.new.entries }
    ensures covered { OnOk result ((key : List ℕ) → IsTrue (contains (from_to begin end) key) →
        IsCovered segments.new.entries key place) }
{
    if !segments.has_room() {
        return Err(AllocError);
    }
    let rest = rest_from(alloc, segments, &end)?;
    let node = Node::new(alloc, begin, Segment { end, place })?;
    segments.lay(node, rest);
    Ok(())
}

/// Drops the segments with a place before this one.
fn drop_before(segments: &mut Tree, least: usize)
    requires { InOrder segments.old.entries }
    ensures order { InOrder segments.new.entries }
    ensures dropped { (begin : List ℕ) (segment : Segment) →
        Begins segments.new.entries begin segment
        ↔ (Begins segments.old.entries begin segment × least ≤ segment.place) }
{
    *segments = mem::replace(segments, Tree::new()).since(least);
}

/// For each key the place of the last request that wrote it, of those that were put here, unless it
/// was dropped since.
///
/// A search for a key or for a range takes logarithmic time.
#[derive(Debug, Drop)]
pub(crate) struct Segments {
    alloc: Global,
    segments: Tree,
}

impl Model for Segments {
    ghost use Rattle.std.specs.Prelude.{List, ℕ};
    ghost use Rattle.cluster_core.specs.declared.segments.Segment.{Segment};
    ghost use Rattle.cluster_core.specs.Segments.{HaveKeys};
    ghost use Rattle.cluster_core.specs.Tree.{InOrder};

    ghost Value = { List (List ℕ × Segment) };

    ghost view = { λ a. a.segments.entries };

    ghost invariant = { λ a. HaveKeys a.segments.entries × InOrder a.segments.entries };
}

impl Segments {
    /// No segments, which takes no memory.
    pub fn new(alloc: Global) -> Segments
        ensures { result ≡ [] }
    {
        Segments {
            alloc,
            segments: Tree::new(),
        }
    }

    /// Puts the keys from one on and before another under this place. Where memory runs out what is
    /// covered stays so.
    pub fn put(&mut self, begin: Bytes, end: Bytes, place: usize) -> Result<(), AllocError>
        ensures overlays { Overlays (contains (from_to begin end)) place self.old self.new }
        ensures covered { OnOk result ((key : List ℕ) →
            IsTrue (contains (from_to begin end) key) → IsCovered self.new key place) }
    {
        if !begin.is_before(&end) {
            return Ok(());
        }
        overlay(self.alloc, &mut self.segments, begin, end, place)
    }

    /// The newest place under which a key stands from one on and before another.
    pub fn newest_between(&self, begin: &Bytes, end: &Bytes) -> Option<usize>
        ensures { IsNewestOver self.now (from_to begin.now end.now) result }
    {
        newest_between(&self.segments, begin, end)
    }

    /// Drops what stands under a place before this one.
    pub fn drop_before(&mut self, least: usize)
        ensures holds { (key : List ℕ) (place : ℕ) →
            SegmentHolds self.new key place → SegmentHolds self.old key place }
        ensures kept { (key : List ℕ) (place : ℕ) → least ≤ place → IsCovered self.old key place →
            IsCovered self.new key place }
        ensures recent { (key : List ℕ) (place : ℕ) → SegmentHolds self.new key place →
            least ≤ place }
    {
        drop_before(&mut self.segments, least);
    }
}

/// Puts a key under a place, if it is the owner's.
fn put_key(
    segments: &mut Segments,
    part: &Part,
    key: &Bytes,
    place: usize,
) -> Result<(), AllocError>
    ensures overlays { Overlays (contains (point key.now)) place segments.old segments.new }
    ensures covered { OnOk result ((own : List ℕ) → IsTrue (owns part.now own) →
        IsTrue (contains (point key.now) own) → IsCovered segments.new own place) }
{
    if !part.owns(key) {
        return Ok(());
    }
    segments.put(key.copy()?, key.next()?, place)
}

/// Puts the keys that a mutation writes under a place, if any of them is the owner's.
fn put_mutation(
    segments: &mut Segments,
    part: &Part,
    mutation: &Mutation,
    place: usize,
) -> Result<(), AllocError>
    ensures overlays { Overlays (contains (write_range mutation.now)) place
        segments.old segments.new }
    ensures covered { OnOk result ((key : List ℕ) → IsTrue (owns part.now key) →
        IsTrue (contains (write_range mutation.now) key) → IsCovered segments.new key place) }
{
    match mutation {
        Mutation::Set { key, value: _ } => put_key(segments, part, key, place),
        Mutation::Add { key, operand: _ } => put_key(segments, part, key, place),
        Mutation::CompareAndClear { key, operand: _ } => put_key(segments, part, key, place),
        Mutation::ClearRange(range) => if part.meets(range) {
            segments.put(range.begin().copy()?, range.end().copy()?, place)
        } else {
            Ok(())
        },
    }
}

/// Puts the keys of the owner that mutations write under a place.
fn put_all(
    segments: &mut Segments,
    part: &Part,
    mutations: &[Mutation],
    place: usize,
) -> Result<(), AllocError>
    ensures overlays { Overlays (covers (write_ranges mutations.now)) place
        segments.old segments.new }
    ensures covered { OnOk result ((key : List ℕ) → IsTrue (owns part.now key) →
        IsTrue (covers (write_ranges mutations.now) key) → IsCovered segments.new key place) }
{
    for mutation in mutations {
        put_mutation(segments, part, mutation, place)?;
    }
    Ok(())
}

/// Puts the keys of the owner that the request at a place writes under that place.
fn put_request(
    segments: &mut Segments,
    part: &Part,
    requests: &Requests,
    place: usize,
) -> Result<(), AllocError>
    requires kept { requests.now.forgotten ≤ place }
    requires inside { place < length requests.now.all }
    ensures overlays { Overlays (writes_key requests.now.all place) place
        segments.old segments.new }
    ensures covered { OnOk result ((key : List ℕ) → IsTrue (owns part.now key) →
        IsTrue (writes_key requests.now.all place key) → IsCovered segments.new key place) }
{
    let request = requests.at(place);
    put_all(segments, part, request.mutations.as_slice(), place)?;
    Ok(())
}

/// Puts the keys of the owner that the requests at these places write under their places, but for
/// places before the least one, of which nobody asks.
pub(crate) fn put_each(
    segments: &mut Segments,
    part: &Part,
    requests: &Requests,
    least: usize,
    places: &[usize],
) -> Result<(), AllocError>
    requires kept { requests.now.forgotten ≤ least }
    requires rising { IsTrue (rise_between zero (length requests.now.all) places.now) }
    ensures puts { PutsEach requests.now.all places.now segments.old segments.new }
    ensures covered { OnOk result ((key : List ℕ) (place : ℕ) → least ≤ place →
        IsTrue (has_place places.now place) → IsTrue (owns part.now key) →
        IsTrue (writes_key requests.now.all place key) → IsCovered segments.new key place) }
{
    for place in places {
        if *place < least {
            continue;
        }
        put_request(segments, part, requests, *place)?;
    }
    Ok(())
}
