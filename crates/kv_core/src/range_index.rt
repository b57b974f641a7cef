// The search index beside a long list of ranges. Used by `range_list`.
ghost use Rattle.std.specs.Prelude.{◌≡◌, ◌<◌, [], length, IfOk, OnOk, OnErr, not, nat_lt};
ghost use Rattle.std.specs.List.{list_any};
ghost use Rattle.kv_core.specs.Range.{is_same_range};
ghost use Rattle.kv_core.specs.RangeIndex.{IsIndexOf, IsKept, IsMore, bucket_of, range_hash};

use crate::range::KeyRange;
use std::alloc::{AllocError, Global};
use std::hash::{FoldHasher, Hasher};

/// What is known of a list of ranges: the last one of each bucket, and before each the last one of
/// the same bucket, as its place in the list and 1, or 0 where there is none.
///
/// The bucket of a range is told by its hash, so that it is looked for among few. No range stands
/// in the index itself.
#[derive(Debug, Drop)]
pub(crate) struct RangeIndex {
    last: Vec<usize>,
    before: Vec<usize>,
}

/// The hash of a range, by its begin and its end.
fn range_hash(range: &KeyRange) -> u64
    ensures { result ≡ range_hash range.now }
{
    let mut hasher = FoldHasher::default();
    hasher.write(range.begin().as_slice());
    hasher.write(range.end().as_slice());
    hasher.finish()
}

impl RangeIndex {
    /// No buckets, which takes no memory.
    pub(crate) fn new(alloc: Global) -> RangeIndex
        ensures { length result.last.items ≡ 0 }
    {
        RangeIndex {
            last: Vec::new(alloc),
            before: Vec::new(alloc),
        }
    }

    /// What is known of no range, with so many buckets.
    fn with_buckets(alloc: Global, count: usize) -> Result<RangeIndex, AllocError>
        requires { 0 < count }
        ensures { IfOk result (λ index. IsIndexOf index []) }
    {
        let mut last = Vec::new(alloc);
        last.resize(count, 0)?;
        Ok(RangeIndex {
            last,
            before: Vec::new(alloc),
        })
    }

    /// What is known of these ranges, with so many buckets.
    pub(crate) fn of(
        alloc: Global,
        ranges: &[KeyRange],
        count: usize,
    ) -> Result<RangeIndex, AllocError>
        requires { 0 < count }
        ensures { IfOk result (λ index. IsIndexOf index ranges.now) }
    {
        let mut index = RangeIndex::with_buckets(alloc, count)?;
        for range in ranges {
            index.note(index.bucket(range))?;
        }
        Ok(index)
    }

    /// The same of an equal list.
    pub(crate) fn copy(&self) -> Result<RangeIndex, AllocError>
        ensures { IfOk result (λ copy. IsKept self.now copy) }
    {
        let last = self.last.clone()?;
        let before = self.before.clone()?;
        Ok(RangeIndex { last, before })
    }

    /// Whether there are buckets.
    pub(crate) fn has_buckets(&self) -> bool
        ensures { result ≡ nat_lt 0 (length self.now.last.items) }
    {
        !self.last.is_empty()
    }

    /// Whether there are more buckets than ranges, so that most have one range or none.
    pub(crate) fn has_room(&self) -> bool
        ensures { result ≡ nat_lt (length self.now.before.items) (length self.now.last.items) }
    {
        self.before.len() < self.last.len()
    }

    /// The bucket of a range.
    pub(crate) fn bucket(&self, range: &KeyRange) -> usize
        ensures { result ≡ bucket_of (length self.now.last.items) range.now }
    {
        if self.last.is_empty() {
            return 0;
        }
        range_hash(range) as usize & (self.last.len() - 1)
    }

    /// Whether the list has a range with this begin and this end, whose bucket is given.
    pub(crate) fn has(&self, ranges: &[KeyRange], range: &KeyRange, bucket: usize) -> bool
        requires index { IsIndexOf self.now ranges.now }
        requires bucket { bucket ≡ bucket_of (length self.now.last.items) range.now }
        ensures { result ≡ list_any (is_same_range range.now) ranges.now }
    {
        let mut place = self.last[bucket];
        while place > 0 {
            if range.is_same(&ranges[place - 1]) {
                return true;
            }
            place = self.before[place - 1];
        }
        false
    }

    /// Notes a range of this bucket at the end of the list.
    pub(crate) fn note(&mut self, bucket: usize) -> Result<(), AllocError>
        requires { bucket < length self.old.last.items }
        ensures ok { OnOk result (IsMore bucket self.old self.new) }
        ensures err { OnErr result (IsKept self.old self.new) }
    {
        self.before.push(self.last[bucket])?;
        self.last[bucket] = self.before.len();
        Ok(())
    }
}
