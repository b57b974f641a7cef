//! Where ranges of keys stand in a store, a range of each kind a line.
#![tactic(auto)]

use record_layer::IndexOf::{Count, Value};
use record_layer::{Bytes, Error, KeyRange, Kind, Schema, SchemaMaker, place_of};
use std::alloc::Global;

/// Ranges: their begins and their ends after the prefix of a store.
const RANGES: [(&[u8], &[u8]); 20] = [
    // the key (0)
    (&[0x14], &[0x14, 0x00]),
    // those of the place (5)
    (&[0x15, 0x05, 0x00], &[0x15, 0x05, 0xff]),
    // the key (1, 1, "Emma"), and (1, 2, 00ff, -5, null)
    (
        b"\x15\x01\x15\x01\x02Emma\x00",
        b"\x15\x01\x15\x01\x02Emma\x00\x00",
    ),
    (
        b"\x15\x01\x15\x02\x01\x00\xff\xff\x00\x13\xfa\x00",
        b"\x15\x01\x15\x02\x01\x00\xff\xff\x00\x13\xfa\x00\x00",
    ),
    // all of (1, 1); from the first one through (1, 1, "Emma"); from (1, 1, "Emma") on
    (b"\x15\x01\x15\x01", b"\x15\x01\x15\x01\xff"),
    (b"\x15\x01\x15\x01", b"\x15\x01\x15\x01\x02Emma\x00\x00"),
    (b"\x15\x01\x15\x01\x02Emma\x00", b"\x15\x01\x15\x01\xff"),
    // cut within the element "Emma", as a resolver's keys may be
    (b"\x15\x01\x15\x01\x02Em", b"\x15\x01\x15\x01\xff"),
    // the total of (2, 2, "Austen")
    (
        b"\x15\x02\x15\x02\x02Austen\x00",
        b"\x15\x02\x15\x02\x02Austen\x00\x00",
    ),
    // all of (2, 1); all of (2, 1, "Austen"); from it on; from it through (2, 1, "Austen", 1, "Emma")
    (b"\x15\x02\x15\x01", b"\x15\x02\x15\x01\xff"),
    (
        b"\x15\x02\x15\x01\x02Austen\x00",
        b"\x15\x02\x15\x01\x02Austen\x00\xff",
    ),
    (b"\x15\x02\x15\x01\x02Austen\x00", b"\x15\x02\x15\x01\xff"),
    (
        b"\x15\x02\x15\x01\x02Austen\x00",
        b"\x15\x02\x15\x01\x02Austen\x00\x15\x01\x02Emma\x00\x00",
    ),
    // from (2, 1) up to the next index
    (b"\x15\x02\x15\x01\x02Austen\x00", b"\x15\x02\x15\x02"),
    // the place (6) of the first index
    (b"\x15\x06\x15\x01\x01Emma\x00", b"\x15\x06\x15\x01\xff"),
    // no place; a place that isn't there; a type, an index that isn't; no tuple
    (&[], &[0xff]),
    (&[0x15, 0x03], &[0x15, 0x04]),
    (&[0x15, 0x01, 0x15, 0x07], &[0x15, 0x01, 0x15, 0x08]),
    (&[0x15, 0x02, 0x15, 0x07], &[0x15, 0x02, 0x15, 0x08]),
    (&[0x03], &[0x04]),
];

/// What keys of store 1 begin with, of store 65,535, and of none: the packs of (1), (65535), (0),
/// (65536), and no pack.
const PREFIXES: [&[u8]; 5] = [
    &[0x15, 0x01],
    &[0x16, 0xff, 0xff],
    &[0x14],
    &[0x17, 0x01, 0x00, 0x00],
    &[0x16, 0x01],
];

/// Books by their titles, and marks by bytes and numbers; books by their authors, and their number.
fn shop(alloc: Global) -> Result<Schema, Error> {
    let book = [("title", Kind::Text), ("author", Kind::Text)];
    let mark = [
        ("seal", Kind::Bytes),
        ("year", Kind::Int),
        ("by", Kind::Text),
    ];
    let asked = SchemaMaker::new(alloc)
        .with_type("book", &book, &["title"])?
        .with_type("mark", &mark, &["seal", "year", "by"])?
        .with_index(Value, "by_author", "book", &["author"])?
        .with_index(Count, "books", "book", &["author"])?;
    Ok(asked.into_schema()?)
}

/// The key after a prefix.
fn key(alloc: Global, prefix: &[u8], rest: &[u8]) -> Result<Bytes, Error> {
    let mut bytes = Vec::from_slice(alloc, prefix)?;
    bytes.extend_from_slice(rest)?;
    Ok(Bytes::new(bytes))
}

/// Where a range stands, in a line.
fn line(
    alloc: Global,
    schema: &Schema,
    prefix: &[u8],
    range: (&[u8], &[u8]),
) -> Result<String, Error> {
    let (begin, end) = range;
    match KeyRange::new(key(alloc, prefix, begin)?, key(alloc, prefix, end)?) {
        Some(range) => {
            let place = place_of(alloc, schema, &range)?;
            Ok(format!(in alloc; "{place}")?)
        }
        None => Ok(String::from_str(alloc, "no range")?),
    }
}

fn main(rt: HostRuntime) -> Result<(), Error> {
    let schema = shop(rt.alloc())?;
    for range in RANGES {
        let line = line(rt.alloc(), &schema, PREFIXES[0], range)?;
        rt.println(line)?;
    }
    for prefix in PREFIXES {
        let line = line(rt.alloc(), &schema, prefix, RANGES[2])?;
        rt.println(line)?;
    }
    Ok(())
}
