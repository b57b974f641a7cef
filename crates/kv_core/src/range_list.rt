// The read set of a transaction, as a list of ranges. Held by a commit request (`change`), filled
// by `txn`, gone through by the resolvers of `cluster_core`.
ghost use Rattle.std.specs.Prelude.{◌≡◌, ◌<◌, List, [], ◌∷◌, ◌++◌, length};
ghost use Rattle.std.specs.Prelude.{IsTrue, IfOk, IsOk, OnOk, OnErr};
ghost use Rattle.std.specs.List.{list_any};
ghost use Rattle.kv_core.specs.Range.{KeyRange as Range, is_same_range, with_range, any_meets};
ghost use Rattle.kv_core.specs.RangeIndex.{HasIndex, bucket_of};

use crate::range::KeyRange;
use crate::range_index::RangeIndex;
use std::alloc::{AllocError, Global};
use std::marker::Model;

/// How many ranges are gone through one by one, without an index.
const FEW: usize = 16;

/// Ranges of keys, in the order in which they were added.
///
/// Where they are many, an index of them stands beside the list, by which a range is found among a
/// few that share its hash.
#[derive(Debug, Drop)]
pub struct RangeList {
    ranges: Vec<KeyRange>,
    index: RangeIndex,
}

impl Model for RangeList {
    ghost use Rattle.std.specs.Prelude.{List};
    ghost use Rattle.kv_core.specs.Range.{KeyRange as Range};
    ghost use Rattle.kv_core.specs.RangeIndex.{HasIndex};

    ghost Value = { List Range };

    ghost view = { λ a. a.ranges.items };

    ghost invariant = { λ a. HasIndex a.index a.ranges.items };
}

/// How many buckets an index of so many ranges begins with: two to four for each, and a power of
/// two, so that a hash is spread over all of them.
fn bucket_count(ranges: usize) -> usize
    ensures { 0 < result }
{
    let bits = usize::BITS.saturating_sub(ranges.leading_zeros());
    1 << (bits + 1).min(usize::BITS - 1)
}

/// What is known of ranges, where they are many.
fn index_of(alloc: Global, ranges: &[KeyRange]) -> Result<RangeIndex, AllocError>
    ensures { IfOk result (λ index. HasIndex index ranges.now) }
{
    if ranges.len() <= FEW {
        return Ok(RangeIndex::new(alloc));
    }
    RangeIndex::of(alloc, ranges, bucket_count(ranges.len()))
}

/// Whether there is a range with this begin and this end among these. The bucket of the range is
/// given.
fn has_range(index: &RangeIndex, ranges: &[KeyRange], range: &KeyRange, bucket: usize) -> bool
    requires index { HasIndex index.now ranges.now }
    requires bucket { bucket ≡ bucket_of (length index.now.last.items) range.now }
    ensures { result ≡ list_any (is_same_range range.now) ranges.now }
{
    if index.has_buckets() {
        index.has(ranges, range, bucket)
    } else {
        ranges.iter().any(|own| range.is_same(own))
    }
}

/// What is known of ranges with one more behind them, where they were many before.
fn index_with(
    alloc: Global,
    ranges: &[KeyRange],
    range: &KeyRange,
) -> Result<RangeIndex, AllocError>
    ensures { IfOk result (λ index. HasIndex index (ranges.now ++ range.now ∷ [])) }
{
    let mut index = index_of(alloc, ranges)?;
    if index.has_buckets() {
        index.note(index.bucket(range))?;
    }
    Ok(index)
}

/// Notes one more range behind these, whose bucket is given.
fn note_behind(
    alloc: Global,
    index: &mut RangeIndex,
    ranges: &[KeyRange],
    range: &KeyRange,
    bucket: usize,
) -> Result<(), AllocError>
    requires index { HasIndex index.old ranges.now }
    requires bucket { bucket ≡ bucket_of (length index.old.last.items) range.now }
    ensures ok { OnOk result (HasIndex index.new (ranges.now ++ range.now ∷ [])) }
    ensures err { OnErr result (HasIndex index.new ranges.now) }
{
    if index.has_room() {
        return index.note(bucket);
    }
    // As many ranges as buckets, or no buckets yet.
    *index = index_with(alloc, ranges, range)?;
    Ok(())
}

impl RangeList {
    /// The list without ranges, which takes no memory.
    pub fn new(alloc: Global) -> RangeList
        ensures { result ≡ [] }
    {
        RangeList {
            ranges: Vec::new(alloc),
            index: RangeIndex::new(alloc),
        }
    }

    /// The list of these ranges, as they stand, unless memory runs out.
    pub fn from_ranges(alloc: Global, ranges: Vec<KeyRange>) -> Result<RangeList, AllocError>
        ensures { IfOk result (λ list. list ≡ ranges.items) }
    {
        let index = index_of(alloc, ranges.as_slice())?;
        Ok(RangeList { ranges, index })
    }

    /// An equal list, unless memory runs out.
    pub fn copy(&self) -> Result<RangeList, AllocError>
        ensures { IfOk result (λ copy. copy ≡ self.now) }
    {
        let ranges = self.ranges.clone()?;
        let index = self.index.copy()?;
        Ok(RangeList { ranges, index })
    }

    /// The ranges, in order.
    pub fn as_slice(&self) -> &[KeyRange]
        ensures { result.now ≡ self.now }
    {
        self.ranges.as_slice()
    }

    /// Whether the list has a range with this begin and this end.
    pub fn has(&self, range: &KeyRange) -> bool
        ensures { result ≡ list_any (is_same_range range.now) self.now }
    {
        let bucket = self.index.bucket(range);
        has_range(&self.index, self.ranges.as_slice(), range, bucket)
    }

    /// Adds a range at the end, unless the list has it, which takes no memory. Where memory runs
    /// out the list stays as it was.
    pub fn add(&mut self, range: KeyRange) -> Result<(), AllocError>
        ensures ok { OnOk result (self.new ≡ with_range range self.old) }
        ensures err { OnErr result (self.new ≡ self.old) }
        ensures had { IsTrue (list_any (is_same_range range) self.old) → IsOk result }
    {
        let bucket = self.index.bucket(&range);
        if has_range(&self.index, self.ranges.as_slice(), &range, bucket) {
            return Ok(());
        }
        // Room for the range is made first, so that nothing fails once it is noted.
        self.ranges.reserve(1)?;
        let alloc = *self.ranges.allocator();
        let ranges = self.ranges.as_slice();
        note_behind(alloc, &mut self.index, ranges, &range, bucket)?;
        self.ranges.push(range)?;
        Ok(())
    }

    /// Whether some key lies in the range and in one of the list, which is gone through.
    pub fn intersects(&self, range: &KeyRange) -> bool
        ensures { result ≡ any_meets range.now self.now }
    {
        self.ranges.iter().any(|own| range.meets(own))
    }
}
