// Records in a running database, whose memory is read from outside. Called by `main` for
// `bench_threads database`.
use crate::threads::opened;
use runtime::Waits;
use std::alloc::Global;
use std::io;
use std::io::ErrorKind;
use std::sync::Wait;

// How many versions the database goes back.
const WINDOW: u64 = 10;

// How many commits made the store and so many records in a running database.
fn commits<R: Wait>(rt: &R, alloc: Global, records: u32) -> Option<u64> {
    let mut clients = opened(rt, alloc, Waits { rt }, 1, WINDOW, records)?;
    let client = clients.pop()?;
    Some(client.submissions())
}

/// Makes a running database with so many records, and prints how many commits made them and the
/// store.
pub fn measure_database<R: Wait + Print>(rt: &R, alloc: Global, records: u32) -> io::Result<()> {
    let Some(commits) = commits(rt, alloc, records) else {
        return Err(io::Error::from(ErrorKind::OutOfMemory));
    };
    println!(rt; "{records} records of a running database, in {commits} commits")
}
