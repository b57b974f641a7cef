// Records that are asked for before their turn: those of the index entries that come next, so that
// a query by an index takes a few rounds and not one for each record. Called by `answering`.
// Nothing rests on it but how many rounds there are.
use crate::given::Given;
use crate::partial::Asked;
use crate::wanted::Want;
use kv_core::{Bytes, KeyRange, Pair};
use std::alloc::{AllocError, Global};
use tuple_codec::{Element, TupleInt, UnpackFailure, pack_element, pack_int, unpack};

/// How many records are asked for ahead in a round, and how many entries of a range are looked at.
const AHEAD: usize = 128;

/// Of how many wants it is looked whether they are of such a record.
const LOOKED_AT: usize = 16;

/// What the keys of records and of index entries begin with after the store's prefix.
const RECORDS: u64 = 1;

const ENTRIES: u64 = 2;

/// The elements of a key, where it is a tuple.
fn elements_of(alloc: Global, key: &Bytes) -> Result<Option<Vec<Element>>, AllocError> {
    match unpack(alloc, key.as_slice()) {
        Ok(tuple) => Ok(Some(tuple.into_elements())),
        Err(UnpackFailure::Memory) => Err(AllocError),
        Err(UnpackFailure::Refused(_)) => Ok(None),
    }
}

/// Whether a tuple is that of a key under this number after the prefix.
fn stands_under(elements: &[Element], number: u64) -> bool {
    match elements {
        [_, Element::Int(second), _, ..] => second.get() == i128::from(number),
        _ => false,
    }
}

/// Packs elements after bytes.
fn pack_each(elements: &[Element], out: &mut Vec<u8>) -> Result<(), AllocError> {
    for element in elements {
        pack_element(element, out)?;
    }
    Ok(())
}

/// The key of the record whose entry has this key, where the type's number and the key cells are
/// so many of its last elements.
fn record_of(alloc: Global, entry: &Bytes, count: usize) -> Result<Option<Bytes>, AllocError> {
    let Some(elements) = elements_of(alloc, entry)? else {
        return Ok(None);
    };
    let Some(from) = elements.len().checked_sub(count) else {
        return Ok(None);
    };
    let (front, last) = elements.as_slice().split_at(from);
    if !stands_under(front, ENTRIES) {
        return Ok(None);
    }
    let mut key = Vec::new(alloc);
    pack_each(front.get(..1).unwrap_or_default(), &mut key)?;
    pack_int(TupleInt::from(RECORDS), &mut key)?;
    pack_each(last, &mut key)?;
    Ok(Some(Bytes::new(key)))
}

/// The key of the entry in a range that was read whose record has this key.
fn entry_with(
    alloc: Global,
    given: &Given,
    range: &KeyRange,
    record: &Bytes,
    count: usize,
) -> Result<Option<Bytes>, AllocError> {
    let pairs = given.pairs.range(range, AHEAD, false)?;
    for (key, _) in pairs.iter() {
        if let Some(found) = record_of(alloc, key, count)?
            && found == *record
        {
            return Ok(Some(key.copy()?));
        }
    }
    Ok(None)
}

/// All entries of the index that has this one.
fn entries_beside(alloc: Global, entry: &Bytes) -> Result<Option<KeyRange>, AllocError> {
    let Some(elements) = elements_of(alloc, entry)? else {
        return Ok(None);
    };
    let Some(front) = elements.as_slice().get(..3) else {
        return Ok(None);
    };
    let mut begin = Vec::new(alloc);
    pack_each(front, &mut begin)?;
    let mut end = begin.clone()?;
    end.push(0xff)?;
    Ok(KeyRange::new(Bytes::new(begin), Bytes::new(end)))
}

/// Asks for the records of entries that aren't covered.
fn add_each(
    alloc: Global,
    given: &Given,
    entries: &[Pair],
    count: usize,
    asked: &mut Asked,
) -> Result<(), AllocError> {
    for (key, _) in entries {
        if let Some(record) = record_of(alloc, key, count)?
            && record.is_key()
            && !given.covered.covers(&record)
        {
            let range = KeyRange::point(alloc, &record)?;
            asked.add(Want {
                range,
                limit: 1,
                reverse: false,
            })?;
        }
    }
    Ok(())
}

/// Asks for the records of the entries from this one on, and of those before it.
fn add_beside(
    alloc: Global,
    given: &Given,
    entry: &Bytes,
    count: usize,
    asked: &mut Asked,
) -> Result<(), AllocError> {
    let Some(all) = entries_beside(alloc, entry)? else {
        return Ok(());
    };
    let later = given.pairs.range(&all.starting_at(entry)?, AHEAD, false)?;
    add_each(alloc, given, later.as_slice(), count, asked)?;
    let earlier = given.pairs.range(&all.upto(entry)?, AHEAD, true)?;
    add_each(alloc, given, earlier.as_slice(), count, asked)
}

/// Asks for the records that come next where this one is wanted, by the entries that were read.
fn add_after(
    alloc: Global,
    given: &Given,
    reads: &[KeyRange],
    record: &Bytes,
    asked: &mut Asked,
) -> Result<(), AllocError> {
    let Some(elements) = elements_of(alloc, record)? else {
        return Ok(());
    };
    if !stands_under(elements.as_slice(), RECORDS) {
        return Ok(());
    }
    let count = elements.len().saturating_sub(2);
    for range in reads.iter().rev() {
        if !range.is_point()
            && let Some(entry) = entry_with(alloc, given, range, record, count)?
        {
            return add_beside(alloc, given, &entry, count, asked);
        }
    }
    Ok(())
}

/// Asks for records whose turn comes, where the first ones that are asked for are those of entries.
pub(crate) fn add_records(
    alloc: Global,
    given: &Given,
    reads: &[KeyRange],
    asked: &mut Asked,
) -> Result<(), AllocError> {
    let mut wanted = Vec::new(alloc);
    for want in asked.wants.iter().take(LOOKED_AT) {
        if want.range.is_point() {
            wanted.push(want.range.begin().copy()?)?;
        }
    }
    for record in wanted.iter() {
        add_after(alloc, given, reads, record, asked)?;
    }
    Ok(())
}
