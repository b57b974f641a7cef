// Transactions with many own writes: each set is followed by a get of an earlier key and a read of
// ten pairs. Called by `main` for `bench transactions`.
use crate::keys::key;
use kv_core::{Bytes, KeyRange, KvMap};
use std::alloc::{AllocError, Global};
use std::io;
use std::io::ErrorKind;
use std::time::Instant;
use txn::Transaction;

// How many pairs are set in one transaction.
const COUNTS: [u32; 2] = [5_000, 20_000];

// How many pairs are read of a range.
const PAIRS: usize = 10;

// A snapshot with as many pairs as will be set, with other keys.
fn snapshot_with(alloc: Global, count: u32) -> Result<KvMap, AllocError> {
    let mut map = KvMap::new(alloc);
    for number in 0..count {
        let key = key(alloc, number.wrapping_add(0x8000_0000))?;
        map.insert(key.copy()?, key)?;
    }
    Ok(map)
}

// Sets a pair, gets the value of an earlier key, and reads the pairs from there on. It answers how many it found.
fn turn(
    alloc: Global,
    db: &KvMap,
    transaction: &mut Transaction,
    number: u32,
) -> io::Result<usize> {
    let own = key(alloc, number)?;
    let earlier = key(alloc, number / 2)?;
    let Some(range) = KeyRange::new(earlier.copy()?, Bytes::new(vec![in alloc; 0xff]?)) else {
        return Err(io::Error::from(ErrorKind::InvalidInput));
    };
    if !earlier.is_key() || transaction.set(own.copy()?, own).is_err() {
        return Err(io::Error::from(ErrorKind::InvalidInput));
    }
    let Ok(Some(_)) = transaction.get(db, &earlier) else {
        return Err(io::Error::from(ErrorKind::NotFound));
    };
    match transaction.get_range(db, &range, PAIRS, false) {
        Ok(pairs) => Ok(pairs.len()),
        Err(_) => Err(io::Error::from(ErrorKind::OutOfMemory)),
    }
}

// Runs one transaction with so many sets, and prints its time in milliseconds.
fn measure_transaction(rt: &HostRuntime, count: u32) -> io::Result<()> {
    let db = snapshot_with(rt.alloc(), count)?;
    let start = Instant::now(rt)?;
    let mut transaction = Transaction::begin(rt.alloc(), 0);
    let mut found: usize = 0;
    for number in 0..count {
        found = found.wrapping_add(turn(rt.alloc(), &db, &mut transaction, number)?);
    }
    let taken = start.elapsed(rt)?.as_millis();
    println!(rt; "{count} sets, gets and range reads: {taken} ms, {found} pairs read")
}

/// Prints how long transactions with many own writes take.
pub fn measure(rt: &HostRuntime) -> io::Result<()> {
    for count in COUNTS {
        measure_transaction(rt, count)?;
    }
    Ok(())
}
