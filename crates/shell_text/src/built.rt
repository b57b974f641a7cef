// Which positions of a write-only index are built, in words. Called by `described`, and by `shell`.
use crate::opened::Opened;
use cluster_core::Cluster;
use json_forms::cells_text;
use kv_core::{Bytes, KeyRange, Pair};
use metadata::Cells;
use std::alloc::{AllocError, Global};
use std::fmt::Write;
use tuple_codec::{Element, TupleInt, pack_int, unpack_first};

// The place of built positions in the store.
const BUILT: i128 = 6;

// Bytes after which the elements of a tuple stand.
fn push_number(bytes: &mut Vec<u8>, number: i128) -> Result<(), AllocError> {
    match TupleInt::new(number) {
        Some(number) => pack_int(number, bytes),
        None => Ok(()),
    }
}

// What the keys of the built ranges of an index begin with, after what those of its store do.
fn place_of(alloc: Global, prefix: &[u8], number: u64) -> Result<Vec<u8>, AllocError> {
    let mut place = Vec::from_slice(alloc, prefix)?;
    push_number(&mut place, BUILT)?;
    push_number(&mut place, i128::from(number))?;
    Ok(place)
}

// The keys that begin so.
fn keys_after(alloc: Global, place: &[u8]) -> Result<Option<KeyRange>, AllocError> {
    let begin = Vec::from_slice(alloc, place)?;
    let mut end = Vec::from_slice(alloc, place)?;
    end.push(0xff)?;
    Ok(KeyRange::new(Bytes::new(begin), Bytes::new(end)))
}

// The cells of a key in JSON, where bytes are those of a key.
fn cells_in(alloc: Global, bytes: &[u8]) -> Result<Option<String>, AllocError> {
    match Cells::unpack(alloc, bytes)? {
        Some(cells) => Ok(Some(cells_text(alloc, &cells)?)),
        None => Ok(None),
    }
}

// The cells of the record just after which a position is, where it is such a one.
fn cells_before(alloc: Global, position: &[u8]) -> Result<Option<String>, AllocError> {
    match position.strip_suffix(&[0]) {
        Some(before) => cells_in(alloc, before),
        None => Ok(None),
    }
}

// A position as it is written, where no record has it.
fn position_text(alloc: Global, position: &[u8]) -> Result<String, AllocError> {
    match cells_in(alloc, position)? {
        Some(cells) => Ok(cells),
        None => hex::encode(alloc, position),
    }
}

// From where a range of positions is.
fn begin_words(alloc: Global, position: &[u8]) -> Result<String, AllocError> {
    if position.is_empty() {
        return String::from_str(alloc, "from the first");
    }
    if let Some(cells) = cells_before(alloc, position)? {
        return format!(in alloc; "from after {cells}");
    }
    let text = position_text(alloc, position)?;
    format!(in alloc; "from {text}")
}

// Up to where it is.
fn end_words(alloc: Global, position: &[u8]) -> Result<String, AllocError> {
    if let [0xff] = position {
        return String::from_str(alloc, "to the last");
    }
    if let Some(cells) = cells_before(alloc, position)? {
        return format!(in alloc; "to {cells}");
    }
    let text = position_text(alloc, position)?;
    format!(in alloc; "to before {text}")
}

// The positions between two, in words.
fn words_between(alloc: Global, begin: &[u8], end: &[u8]) -> Result<String, AllocError> {
    let (begin, end) = (begin_words(alloc, begin)?, end_words(alloc, end)?);
    format!(in alloc; "{begin} {end}")
}

/// A range of positions, by the keys of the records between which it lies.
pub fn range_words(alloc: Global, range: &KeyRange) -> Result<String, AllocError> {
    words_between(alloc, range.begin().as_slice(), range.end().as_slice())
}

// Writes a built range.
fn push_range(
    alloc: Global,
    out: &mut String,
    place: &[u8],
    pair: &Pair,
) -> Result<(), AllocError> {
    let rest = pair.0.as_slice().strip_prefix(place).unwrap_or(&[]);
    if let Some((Element::Bytes(begin), _)) = unpack_first(alloc, rest)? {
        let words = words_between(alloc, begin.as_slice(), pair.1.as_slice())?;
        write!(out, " {words}")?;
    }
    Ok(())
}

/// Writes which positions of the index of a number are built: each range by the keys of the records
/// between which it lies.
pub(crate) fn push_built(
    alloc: Global,
    out: &mut String,
    cluster: &Cluster,
    opened: &mut Opened,
    number: u64,
) -> Result<(), AllocError> {
    let place = place_of(alloc, opened.prefix.as_slice(), number)?;
    let Some(range) = keys_after(alloc, place.as_slice())? else {
        return Ok(());
    };
    let Ok(pairs) = opened.tx.get_all(cluster, &range) else {
        return Ok(());
    };
    out.push_str("; built")?;
    if pairs.is_empty() {
        out.push_str(" nothing")?;
    }
    let mut separator = "";
    for pair in &pairs {
        out.push_str(separator)?;
        push_range(alloc, out, place.as_slice(), pair)?;
        separator = " and";
    }
    Ok(())
}
