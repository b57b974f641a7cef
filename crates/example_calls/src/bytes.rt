// Tuples in bytes, and maps of bytes: `tuple_codec` and `kv_core`. Called by `main`.
use kv_core::{Bytes, KeyRange, KvMap, Mutation};
use std::alloc::Global;
use tuple_codec::{TupleInt, pack_int, pack_text, unpack};

/// A tuple of a text and a number, packed and read back.
pub(crate) fn tuples(alloc: Global) -> Option<String> {
    let mut pack = Vec::new(alloc);
    pack_text("Emma", &mut pack).ok()?;
    pack_int(TupleInt::from(3_u64), &mut pack).ok()?;
    let count = unpack(alloc, pack.as_slice()).ok()?.elements().len();
    format!(in alloc; "tuple_codec: {} has {count} elements", Bytes::new(pack)).ok()
}

/// A key, or a value.
pub(crate) fn key(alloc: Global, text: &str) -> Option<Bytes> {
    Bytes::from_slice(alloc, text.as_bytes()).ok()
}

/// A map with a pair that is put in and one that a mutation makes, read backwards.
pub(crate) fn map(alloc: Global) -> Option<String> {
    let mut map = KvMap::new(alloc);
    map.insert(key(alloc, "a")?, key(alloc, "1")?).ok()?;
    let (name, operand) = (key(alloc, "b")?, key(alloc, "2")?);
    map.apply(&Mutation::Add { key: name, operand }).ok()?;
    let all = KeyRange::new(key(alloc, "")?, key(alloc, "z")?)?;
    let last = map.range(&all, 1, true).ok()?;
    let (key, _) = last.as_slice().first()?;
    format!(in alloc; "kv_core: the last key is {key}").ok()
}
