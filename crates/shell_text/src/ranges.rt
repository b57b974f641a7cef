// Ranges of keys, by the names of what stands there. Called by `shell` and `recordctl`.
use crate::keys::{number_in, words_at};
use crate::opened::{Opened, open};
use cluster_core::Cluster;
use kv_core::KeyRange;
use record_store::StoreNumber;
use std::alloc::{AllocError, Global};
use std::fmt::Write;

// What stands at a range of keys of a store, and of which one where it isn't the first.
fn words_in(
    alloc: Global,
    cluster: &Cluster,
    number: StoreNumber,
    range: &KeyRange,
    inner: &[u8],
) -> Result<String, AllocError> {
    let opened = open(alloc, cluster, number);
    let schema = opened.as_ref().ok().map(Opened::schema);
    let mut words = words_at(alloc, schema, range, inner)?;
    let store = number.get();
    if store != 1 {
        write!(words, " in store {store}")?;
    }
    Ok(words)
}

/// What stands at a range of keys, by the names that the cluster has committed.
pub fn range_named(
    alloc: Global,
    cluster: &Cluster,
    range: &KeyRange,
) -> Result<String, AllocError> {
    let begin = range.begin().as_slice();
    if let Some((number, inner)) = number_in(alloc, begin)? {
        if let Some(store) = StoreNumber::new(number) {
            return words_in(alloc, cluster, store, range, inner);
        }
    }
    String::from_str(alloc, "keys of stores")
}
