// Two clients on threads add to one record, a thousand times in all. A tool has allocations fail
// meanwhile, so that replies are lost: whoever lost one asks what became of the submission, and
// adds again where it was refused. In the end the sum must be exact. Called by `main`.
use crate::adding::{EACH, add_beside};
use crate::counter::{Tried, make_store, sum};
use cluster_core::Config;
use runtime::{Client, End, Waits, open};
use std::alloc::Global;
use std::sync::Wait;
use std::test::Fail;
use std::thread::Threads;

/// What the sum must be.
const ALL: i64 = 1_000;

/// The sum, which is read until it is told.
fn found<E: End>(alloc: Global, client: &mut Client<E>) -> Option<i64> {
    for _ in 0..EACH {
        if let Some(total) = sum(alloc, client) {
            return Some(total);
        }
    }
    None
}

/// Makes the store, has two clients add beside each other, and compares the sum: how many replies
/// were lost.
fn add_all<E: End + Send, R: Threads + Wait + Sync>(
    rt: &R,
    alloc: Global,
    one: &mut Client<E>,
    other: &mut Client<E>,
) -> Result<u64, Fail> {
    if make_store(rt, alloc, one) != Tried::Committed {
        return Err(Fail::from("no store is made"));
    }
    let lost = add_beside(rt, alloc, one, other).ok_or("an addition isn't made")?;
    if found(alloc, one) == Some(ALL) {
        Ok(lost)
    } else {
        Err(Fail::from("the sum isn't exact"))
    }
}

/// Opens a database, and has its first two clients add.
fn open_and_add<R: Threads + Wait + Sync>(rt: &R, alloc: Global) -> Result<u64, Fail> {
    let mut clients = open(rt, alloc, Waits { rt }, &Config::single(alloc))?;
    let (one, others) = clients.as_mut_slice().split_first_mut().ok_or("no client")?;
    let (other, _) = others.split_first_mut().ok_or("no other client")?;
    add_all(rt, alloc, one, other)
}

/// Prints that the sum is exact, and tells where replies were lost.
pub(crate) fn work<R: Threads + Wait + Print + Eprint + Sync>(
    rt: &R,
    alloc: Global,
) -> Result<(), Fail> {
    let lost = open_and_add(rt, alloc)?;
    rt.println("the sum is exact")?;
    if lost > 0 {
        rt.eprintln("replies were lost")?;
    }
    Ok(())
}
