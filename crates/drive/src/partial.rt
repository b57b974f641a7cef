// The snapshot that has just what a host has read, and notes which reads want more. Used by
// `answering`.
ghost use Rattle.std.specs.Prelude.{◌≡◌};
ghost use Rattle.kv_core.specs.Read.{NeverRefuses};

use crate::wanted::{Want, wanted};
use cluster_core::ReadError;
use kv_core::{Bytes, Coverage, KeyRange, KvMap, Pair, RangeList};
use std::alloc::{AllocError, Global};
use std::cell::RefCell;
use txn::Snapshot;

/// How many wants are noted; further ones come up in a later round.
const MAX_WANTS: usize = 1000;

/// What reads have asked for that isn't covered, each range once.
#[derive(Drop)]
pub(crate) struct Asked {
    ranges: RangeList,
    pub(crate) wants: Vec<Want>,
}

impl Asked {
    pub(crate) fn new(alloc: Global) -> Asked {
        Asked {
            ranges: RangeList::new(alloc),
            wants: Vec::new(alloc),
        }
    }

    /// Adds a want, unless its range is there or there are many.
    pub(crate) fn add(&mut self, want: Want) -> Result<(), AllocError> {
        if self.wants.len() >= MAX_WANTS || self.ranges.has(&want.range) {
            return Ok(());
        }
        self.ranges.add(want.range.copy()?)?;
        self.wants.push(want)?;
        Ok(())
    }
}

/// The pairs that were given, as if there were no others. Answers that rest on what isn't covered
/// are to be dropped: `answering` looks whether there are any.
#[derive(Drop)]
pub(crate) struct Partial<'a> {
    alloc: Global,
    covered: &'a Coverage,
    pairs: &'a KvMap,
    pub(crate) asked: RefCell<Asked>,
}

impl<'a> Partial<'a> {
    pub(crate) fn new(alloc: Global, covered: &'a Coverage, pairs: &'a KvMap) -> Partial<'a>
        ensures { result.pairs.now ≡ pairs.now }
    {
        Partial {
            alloc,
            covered,
            pairs,
            asked: RefCell::new(Asked::new(alloc)),
        }
    }

    /// Notes what a read wants, where it found these pairs.
    fn note(
        &self,
        range: &KeyRange,
        limit: usize,
        reverse: bool,
        found: &[Pair],
    ) -> Result<(), AllocError> {
        if let Some(want) = wanted(self.covered, range, limit, reverse, found)?
            && let Ok(mut asked) = self.asked.try_borrow_mut()
        {
            asked.add(want)?;
        }
        Ok(())
    }
}

impl Snapshot for Partial<'_> {
    ghost map_at = { λ partial version. partial.pairs.now };

    ghost may_refuse = { λ partial. NeverRefuses };

    ghost must_refuse = { λ partial range version. ⊥ };

    ghost narrows = { λ partial whole part version error inside refused. absurd refused };

    fn read(
        &self,
        range: &KeyRange,
        version: u64,
        limit: usize,
        reverse: bool,
    ) -> Result<Vec<Pair>, ReadError> {
        let pairs = self.pairs.read(range, version, limit, reverse)?;
        self.note(range, limit, reverse, pairs.as_slice())?;
        Ok(pairs)
    }

    fn value(&self, key: &Bytes, version: u64) -> Result<Option<Bytes>, ReadError> {
        let value = self.pairs.value(key, version)?;
        if !self.covered.covers(key) {
            let point = KeyRange::point(self.alloc, key)?;
            self.note(&point, 1, false, &[])?;
        }
        Ok(value)
    }

    fn check(&self, _range: &KeyRange, _version: u64) -> Result<(), ReadError> {
        Ok(())
    }
}
