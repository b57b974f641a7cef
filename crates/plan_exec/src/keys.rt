// The keys under which records and entries stand, and the ranges that are read for scans. Called by
// `opening`, `readers`, `entries` and `fetch_streams`.
ghost use Rattle.std.specs.Prelude.{◌≡◌, ◌≤◌, ◌+◌, ◌∷◌, ◌++◌, [], List, ℕ};
ghost use Rattle.std.specs.Prelude.{IfOk, IsTrue, OnOk, length, pos, take};
ghost use Rattle.plan_exec.specs.declared.keys.TheConstants.{JOINED_ROOM};
ghost use Rattle.tuple_codec.specs.Item.{int};
ghost use Rattle.kv_core.specs.Bytes.{end_of_keys, key_lt, key_max};
ghost use Rattle.record_store.specs.Layout.{place};
ghost use Rattle.metadata.specs.Cell.{items_of};
ghost use Rattle.metadata.specs.Layout.{entries_prefix, place_of_records};
ghost use Rattle.metadata.specs.Layout.{record_key, records_prefix};
ghost use Rattle.planner.specs.View.{range_of};
ghost use Rattle.plan_exec.specs.Reads.{scan_range};

use crate::entry::Entry;
use index_maint::entries_prefix;
use kv_core::{Bytes, KeyRange};
use metadata::{IndexDefinition, PLACE_OF_RECORDS, TypeDefinition};
use record_store::Store;
use std::alloc::{AllocError, Global};
use tuple_codec::{TupleInt, pack_int};

// Room for the numbers that the keys of a type's records begin with, after a store's prefix.
const PLACE_ROOM: usize = 16;

// What the keys of all records begin with.
pub(crate) fn records_place(store: &Store) -> Result<Vec<u8>, AllocError>
    ensures key { IfOk result (λ key. key.items ≡ place store.now.prefix place_of_records) }
    ensures below { OnOk result (IsTrue (key_lt store.now.prefix end_of_keys)) }
{
    let front = store.prefix();
    let mut key = Vec::with_capacity(store.alloc(), front.len().saturating_add(PLACE_ROOM))?;
    key.extend_from_slice(front)?;
    pack_int(TupleInt::from(PLACE_OF_RECORDS), &mut key)?;
    Ok(key)
}

// What the keys of the records of a type begin with.
pub(crate) fn records_key(store: &Store, definition: &TypeDefinition) -> Result<Vec<u8>, AllocError>
    ensures key { IfOk result (λ key. key.items ≡ records_prefix store.now.prefix definition.now.number) }
    ensures below { IfOk result (λ key. (rest : List ℕ) → IsTrue (key_lt (key.items ++ rest) end_of_keys)) }
{
    let mut key = records_place(store)?;
    pack_int(TupleInt::from(definition.number), &mut key)?;
    Ok(key)
}

// What the keys of the entries of an index begin with.
pub(crate) fn entries_key(store: &Store, index: &IndexDefinition) -> Result<Vec<u8>, AllocError>
    ensures key { IfOk result (λ key. key.items ≡ entries_prefix store.now.prefix index.now.number) }
    ensures below { IfOk result (λ key. (rest : List ℕ) → IsTrue (key_lt (key.items ++ rest) end_of_keys)) }
{
    entries_prefix(store.alloc(), store.prefix(), index.number)
}

// How long a key may be that is put together in no memory of its own.
const JOINED_ROOM: usize = 64;

// Puts bytes into the room, from a place on.
fn put(room: &mut [u8; JOINED_ROOM], start: usize, bytes: &[u8])
    requires { start + length bytes.now ≤ JOINED_ROOM }
    ensures { take (start + length bytes.now) room.new ≡ take start room.old ++ bytes.now }
{
    room[start..start + bytes.len()].copy_from_slice(bytes);
}

// Some bytes, and others after them.
fn joined(alloc: Global, bytes: &[u8], rest: &[u8]) -> Result<Bytes, AllocError>
    ensures { IfOk result (λ joined. joined ≡ bytes.now ++ rest.now) }
{
    let count = bytes.len() + rest.len();
    if count <= JOINED_ROOM {
        let mut room = [0; JOINED_ROOM];
        put(&mut room, 0, bytes);
        put(&mut room, bytes.len(), rest);
        let joined = Bytes::from_slice(alloc, &room[..count])?;
        return Ok(joined);
    }
    let mut joined = Vec::with_capacity(alloc, count)?;
    joined.extend_from_slice(bytes)?;
    joined.extend_from_slice(rest)?;
    Ok(Bytes::new(joined))
}

// The key of the record to which an entry leads, after what the keys of all records begin with.
pub(crate) fn record_key(store: &Store, front: &[u8], entry: &Entry) -> Result<Bytes, AllocError>
    requires { front.now ≡ place store.now.prefix place_of_records }
    ensures key { IfOk result (λ key.
        key ≡ record_key store.now.prefix (items_of entry.now.primary_key)) }
    ensures below { IfOk result (λ key. IsTrue (key_lt key end_of_keys)) }
{
    store.prefix();
    let key = joined(store.alloc(), front, entry.primary_key())?;
    Ok(key)
}

// The later of a begin and an end.
fn end_after(begin: &Bytes, end: Bytes) -> Result<Bytes, AllocError>
    ensures { IfOk result (λ later. later ≡ key_max begin.now end) }
{
    if begin.is_before(&end) {
        Ok(end)
    } else {
        begin.copy()
    }
}

// The range that is read for a scan after a key.
pub(crate) fn scan_range(
    alloc: Global,
    key: &[u8],
    range: &planner::KeyRange,
) -> Result<KeyRange, AllocError>
    requires { (rest : List ℕ) → IsTrue (key_lt (key.now ++ rest) end_of_keys) }
    ensures { IfOk result (λ read. read ≡ scan_range key.now (range_of range.now)) }
{
    let begin = joined(alloc, key, range.begin.as_slice())?;
    let end = end_after(&begin, joined(alloc, key, range.end.as_slice())?)?;
    match KeyRange::new(begin, end) {
        Some(read) => Ok(read),
        None => unreachable!(),
    }
}
