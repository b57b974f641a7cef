// Bytes of entries: of each kind of change, cut short at each length, and with another byte at each
// place. Run as tests.
use crate::parts::holds;
use crate::run::{COUNT, request};
use command_log::{Entry, EntryError, bytes_of, entry_of};
use std::alloc::Global;
use std::test::Fail;

/// The entry of the transaction at this place of the run.
fn entry(alloc: Global, place: usize) -> Result<Entry, Fail> {
    let asked = request(alloc, place)?;
    Ok(Entry {
        version: (place as u64).wrapping_add(1),
        client: asked.client,
        number: asked.number,
        store: asked.store.get(),
        changes: asked.changes,
    })
}

/// The bytes of that entry.
fn bytes_at(alloc: Global, place: usize) -> Result<Vec<u8>, Fail> {
    let entry = entry(alloc, place)?;
    Ok(bytes_of(alloc, &entry)?)
}

/// Whether an entry has these bytes.
fn has_bytes(alloc: Global, entry: &Entry, bytes: &[u8]) -> Result<bool, Fail> {
    let found = bytes_of(alloc, entry)?;
    Ok(found.as_slice() == bytes)
}

/// Bytes are read as an entry of this version, which has the same bytes.
fn are_read(alloc: Global, bytes: &[u8], version: u64) -> Result<(), Fail> {
    let found = entry_of(alloc, bytes)?;
    holds(found.version == version, "a version")?;
    holds(has_bytes(alloc, &found, bytes)?, "its bytes")
}

/// Each entry of the run is read again: what is read has the same bytes.
#[test]
fn entries_are_read_again(rt: HostRuntime) -> Result<(), Fail> {
    for place in 0..COUNT {
        let bytes = bytes_at(rt.alloc(), place)?;
        are_read(rt.alloc(), &bytes, (place as u64).wrapping_add(1))?;
    }
    Ok(())
}

fn are_refused(alloc: Global, bytes: &[u8]) -> bool {
    matches!(
        entry_of(alloc, bytes),
        Err(EntryError::NotAnEntry | EntryError::Unspelled(_))
    )
}

/// What is left of an entry's bytes is no entry's, whatever they are cut to.
#[test]
fn cut_bytes_are_refused(rt: HostRuntime) -> Result<(), Fail> {
    let bytes = bytes_at(rt.alloc(), 0)?;
    for len in 0..bytes.len() {
        let front = bytes.get(..len).ok_or("a length")?;
        holds(are_refused(rt.alloc(), front), "bytes that are cut")?;
    }
    Ok(())
}

/// Bytes are refused, or those of the entry as which they are read.
fn are_refused_or_own(alloc: Global, bytes: &[u8]) -> Result<(), Fail> {
    match entry_of(alloc, bytes) {
        Ok(found) => holds(has_bytes(alloc, &found, bytes)?, "other bytes"),
        Err(error) => holds(!matches!(error, EntryError::Memory), "memory"),
    }
}

/// Bytes with another one at a place.
fn changed(alloc: Global, bytes: &[u8], place: usize) -> Result<Vec<u8>, Fail> {
    let mut others = bytes.to_vec(alloc)?;
    if let Some(byte) = others.get_mut(place) {
        *byte ^= 1;
    }
    Ok(others)
}

/// With another byte at a place they are refused, or those of another entry.
#[test]
fn other_bytes_are_other_entries(rt: HostRuntime) -> Result<(), Fail> {
    let bytes = bytes_at(rt.alloc(), 5)?;
    for place in 0..bytes.len() {
        let others = changed(rt.alloc(), &bytes, place)?;
        are_refused_or_own(rt.alloc(), &others)?;
    }
    Ok(())
}
