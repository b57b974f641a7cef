// A snapshot of one map, which counts its reads. Used by `test_calls` and `test_stores`.
use cluster_core::ReadError;
use kv_core::{Bytes, KeyRange, KvMap, Pair};
use std::cell::Cell;
use txn::Snapshot;

/// One map that stands at each version, and how often it was read, for pairs or for a value.
#[derive(Drop)]
pub struct Watched {
    /// The map.
    pub map: KvMap,
    reads: Cell<u64>,
}

impl Watched {
    /// A snapshot of the map that wasn't read yet.
    pub fn new(map: KvMap) -> Watched {
        Watched {
            map,
            reads: Cell::new(0),
        }
    }

    /// How often it was read.
    pub fn reads(&self) -> u64 {
        self.reads.get()
    }

    // Counts a read.
    fn count(&self) {
        self.reads.set(self.reads.get().wrapping_add(1));
    }
}

impl Snapshot for Watched {
    ghost map_at = { λ watched version. watched.map };

    ghost may_refuse = { λ watched range version error. ⊥ };

    ghost must_refuse = { λ watched range version. ⊥ };

    ghost narrows = { λ watched whole part version error inside refused. absurd refused };

    fn read(
        &self,
        range: &KeyRange,
        version: u64,
        limit: usize,
        reverse: bool,
    ) -> Result<Vec<Pair>, ReadError> {
        self.count();
        self.map.read(range, version, limit, reverse)
    }

    fn value(&self, key: &Bytes, version: u64) -> Result<Option<Bytes>, ReadError> {
        self.count();
        self.map.value(key, version)
    }

    fn check(&self, range: &KeyRange, version: u64) -> Result<(), ReadError> {
        self.count();
        self.map.check(range, version)
    }
}
