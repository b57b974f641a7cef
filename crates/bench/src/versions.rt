// Versions pulled by one storage server: ten sets each, over keys that are written again and again.
// Called by `main` for `bench versions`, and by `server`, which fills one.
use crate::keys::key;
use cluster_core::{Config, Splits, Tier};
use kv_core::Mutation;
use std::alloc::{AllocError, Global};
use std::io;
use std::io::ErrorKind;
use std::time::Instant;

// How many versions are pulled.
const COUNTS: [u32; 3] = [3_000, 30_000, 300_000];

// How many keys are written in turn.
const KEYS: u32 = 10_000;

// How many versions a server goes back.
const WINDOW: u64 = 1_000;

/// One server with the empty map, which goes back so many versions.
pub fn server(alloc: Global, window: u64) -> io::Result<Tier> {
    let config = Config {
        resolver_splits: Splits::new(Vec::new(alloc)),
        storage_splits: Splits::new(Vec::new(alloc)),
        logs: 1,
        window,
        start: 1,
        places: 1,
    };
    Tier::new(alloc, &config).map_err(|_| io::Error::from(ErrorKind::OutOfMemory))
}

// The mutations of a version: each key and its value in turn.
fn mutations_of(alloc: Global, version: u32) -> Result<Vec<Mutation>, AllocError> {
    let mut mutations = Vec::new(alloc);
    for place in 0..10u32 {
        let own = key(alloc, version.wrapping_mul(10).wrapping_add(place) % KEYS)?;
        let value = key(alloc, version)?;
        mutations.push(Mutation::Set { key: own, value })?;
    }
    Ok(mutations)
}

/// Has the server pull a version with these mutations.
pub fn pull(tier: &mut Tier, mutations: &[Mutation]) -> io::Result<()> {
    if !tier.has_next() {
        return Err(io::Error::from(ErrorKind::InvalidInput));
    }
    tier.pull_entry(mutations)?;
    Ok(())
}

// Pulls so many versions, and prints their time in milliseconds.
fn measure_versions(rt: &HostRuntime, count: u32) -> io::Result<()> {
    let mut tier = server(rt.alloc(), WINDOW)?;
    let start = Instant::now(rt)?;
    for version in 0..count {
        let mutations = mutations_of(rt.alloc(), version)?;
        pull(&mut tier, mutations.as_slice())?;
    }
    let taken = start.elapsed(rt)?.as_millis();
    println!(rt; "{count} versions of 10 sets over {KEYS} keys: {taken} ms")
}

/// Prints how long a server takes to pull versions.
pub fn measure(rt: &HostRuntime) -> io::Result<()> {
    for count in COUNTS {
        measure_versions(rt, count)?;
    }
    Ok(())
}
