// The pairs of records in one storage server, whose memory is read from outside. Called by `main` for
// `bench server`.
use crate::versions::{pull, server};
use kv_core::{Bytes, Mutation};
use metadata::{Cell, Cells};
use std::alloc::{AllocError, Global};
use std::io;
use tuple_codec::pack;

// How many records there are, and how many of them a version has.
const RECORDS: u32 = 1_000_000;

const SETS: u32 = 100;

// How many versions the server goes back.
const WINDOW: u64 = 10;

// The pack of these cells.
fn packed(alloc: Global, cells: Vec<Cell>) -> Result<Bytes, AllocError> {
    let tuple = Cells::new(cells).tuple(alloc)?;
    Ok(Bytes::new(pack(alloc, &tuple)?))
}

// Sets the pair that a record is in the map: the bytes that saving it writes.
fn set(alloc: Global, key: i64, value: i64) -> Result<Mutation, AllocError> {
    let cells = vec![in alloc; Cell::Int(1), Cell::Int(1), Cell::Int(1), Cell::Int(key)]?;
    let place = packed(alloc, cells)?;
    let cells = vec![in alloc; Cell::Int(key), Cell::Int(value)]?;
    let value = packed(alloc, cells)?;
    Ok(Mutation::Set { key: place, value })
}

// The pairs of the records that a version sets.
fn sets_of(alloc: Global, version: u32) -> Result<Vec<Mutation>, AllocError> {
    let mut sets = Vec::new(alloc);
    for place in 0..SETS {
        let number = i64::from(version.wrapping_mul(SETS).wrapping_add(place));
        sets.push(set(alloc, number, number)?)?;
    }
    Ok(sets)
}

/// Prints how many pairs a server has, and how many versions it pulled.
pub fn measure_server(rt: &HostRuntime) -> io::Result<()> {
    let mut tier = server(rt.alloc(), WINDOW)?;
    let versions = RECORDS / SETS;
    for version in 0..versions {
        let sets = sets_of(rt.alloc(), version)?;
        pull(&mut tier, sets.as_slice())?;
    }
    println!(rt; "{RECORDS} pairs of one server, in {versions} versions")
}
