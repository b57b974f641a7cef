// A device that fails in each call of a run, with what it writes there torn. Run as tests.
use crate::parts::{BATCHES, appended, are_first, damage_of, holds};
use journal::{Fuse, Journal, Kept, Memory, Unrecovered, recover};
use std::alloc::Global;
use std::test::Fail;

/// How much of the failing call's write stands: nothing, a gate, a part of a head, a part of an
/// entry, all.
static TORN: [usize; 5] = [0, 1, 20, 70, 1_000_000];

fn bytes_left(alloc: Global, device: Fuse<Memory>) -> Result<Vec<u8>, Fail> {
    Ok(device.into_inner().bytes().to_vec(alloc)?)
}

/// How many batches a journal acknowledges, and what file is left.
fn after(alloc: Global, mut journal: Journal<Fuse<Memory>>) -> Result<(usize, Vec<u8>), Fail> {
    let count = appended(alloc, &mut journal)?;
    Ok((count, bytes_left(alloc, journal.into_device())?))
}

/// A run over a device that fails once: how many batches are acknowledged, and what file is left.
fn left(alloc: Global, device: Fuse<Memory>) -> Result<(usize, Vec<u8>), Fail> {
    let mut kept = Kept::new(alloc);
    match recover(alloc, device, &mut kept) {
        Ok(journal) => after(alloc, journal),
        Err(Unrecovered { device, error: _ }) => Ok((0, bytes_left(alloc, device)?)),
    }
}

/// After a failure the file has all acknowledged batches, and the next one whole or not at all.
fn is_whole(alloc: Global, calls: usize, torn: usize) -> Result<usize, Fail> {
    let memory = Memory::new(alloc, Vec::new(alloc));
    let (count, file) = left(alloc, Fuse::new(memory, calls, torn))?;
    let mut kept = Kept::new(alloc);
    holds(damage_of(alloc, file, &mut kept)?.is_none(), "a torn file")?;
    let found = kept.entries();
    let has_next = count < 3 && are_first(found, 2 * (count.min(2) + 1));
    holds(has_next || are_first(found, 2 * count.min(3)), "entries")?;
    Ok(count)
}

#[test]
fn batches_outlive_failures(rt: HostRuntime) -> Result<(), Fail> {
    for calls in 0..15 {
        for torn in &TORN {
            is_whole(rt.alloc(), calls, *torn)?;
        }
    }
    holds(is_whole(rt.alloc(), 13, 0)? == 2, "the last call fails")?;
    holds(
        is_whole(rt.alloc(), 14, 0)? == BATCHES.len(),
        "no call fails",
    )
}
