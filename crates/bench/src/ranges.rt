// Lists of ranges: so many distinct ranges are added, and then asked for as often. Called by `main`
// for `bench ranges`.
use crate::keys::key;
use kv_core::{KeyRange, RangeList};
use std::alloc::{AllocError, Global};
use std::io;
use std::time::Instant;

// How many ranges are added.
const COUNTS: [u32; 2] = [10_000, 40_000];

// The range of that key alone.
fn point(alloc: Global, number: u32) -> Result<Option<KeyRange>, AllocError> {
    let key = key(alloc, number)?;
    let next = key.next()?;
    Ok(KeyRange::new(key, next))
}

// The list of the ranges of the even numbers below twice this one.
fn list_of(alloc: Global, count: u32) -> Result<RangeList, AllocError> {
    let mut list = RangeList::new(alloc);
    for number in 0..count {
        if let Some(range) = point(alloc, number.wrapping_mul(2))? {
            list.add(range)?;
        }
    }
    Ok(list)
}

// How many of the ranges of the numbers below this one the list has.
fn had_of(alloc: Global, list: &RangeList, count: u32) -> Result<u32, AllocError> {
    let mut had: u32 = 0;
    for number in 0..count {
        if let Some(range) = point(alloc, number)? {
            if list.has(&range) {
                had = had.wrapping_add(1);
            }
        }
    }
    Ok(had)
}

// Adds so many ranges, asks for as many, and prints both times in milliseconds.
fn measure_list(rt: &HostRuntime, count: u32) -> io::Result<()> {
    let start = Instant::now(rt)?;
    let list = list_of(rt.alloc(), count)?;
    let added = start.elapsed(rt)?.as_millis();
    let start = Instant::now(rt)?;
    let had = had_of(rt.alloc(), &list, count)?;
    let asked = start.elapsed(rt)?.as_millis();
    println!(rt; "{count} ranges: add {added} ms, has {asked} ms, {had} there")
}

/// Prints how long lists of ranges take.
pub fn measure(rt: &HostRuntime) -> io::Result<()> {
    for count in COUNTS {
        measure_list(rt, count)?;
    }
    Ok(())
}
