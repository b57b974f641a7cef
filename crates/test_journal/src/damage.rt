// Files that are cut short at each length, or of which one byte is another one. Run as tests.
ghost use Rattle.std.specs.Prelude.{◌<◌};

use crate::parts::{
    ENTRIES, LAST_END, LAST_GATE, LOOKED_AT, are_first, block_at, damage_of, holds, looked_at,
    looks_torn,
};
use journal::Kept;
use std::alloc::Global;
use std::test::Fail;

/// A file that is cut short to any length stands for the entries of the blocks that it has whole.
fn is_cut(alloc: Global, file: &[u8], len: usize) -> Result<(), Fail> {
    let mut kept = Kept::new(alloc);
    let front = file.get(..len).ok_or("a length")?;
    let damage = damage_of(alloc, front.to_vec(alloc)?, &mut kept)?;
    holds(damage.is_none(), "a cut")?;
    holds(
        are_first(kept.entries(), block_at(len).0),
        "entries of a cut",
    )
}

#[test]
fn cut_files_have_a_beginning(rt: HostRuntime) -> Result<(), Fail> {
    let file = looked_at(rt.alloc())?;
    for len in 0..LOOKED_AT {
        is_cut(rt.alloc(), &file, len)?;
    }
    Ok(())
}

/// Another byte at a place is told as damage from the block's gate on, or the file ends there, if
/// the block looks as if a crash had left a part of it.
fn is_told(alloc: Global, file: &[u8], place: usize, other: u8) -> Result<(), Fail> {
    let (count, gate) = block_at(place);
    let mut bytes = file.to_vec(alloc)?;
    if let Some(byte) = bytes.get_mut(place) {
        *byte = other;
    }
    let is_same = bytes.as_slice() == file;
    let is_end = is_same || looks_torn(&bytes, gate, place);
    let mut kept = Kept::new(alloc);
    let damage = damage_of(alloc, bytes, &mut kept)?;
    holds(
        damage == if is_end { None } else { Some(gate) },
        "a damaged byte",
    )?;
    holds(
        are_first(kept.entries(), if is_same { ENTRIES.len() } else { count }),
        "entries before the damage",
    )
}

/// How far apart the values are that are tried at a place: all at a gate, a count or a complement
/// behind which another block stands, and zero, the greatest and others elsewhere.
fn step_at(place: usize) -> usize
    ensures { 0 < result }
{
    let (_, gate) = block_at(place);
    if gate < LAST_GATE && place.saturating_sub(gate) < 33 {
        1
    } else {
        51
    }
}

fn others_are_told(alloc: Global, file: &[u8], place: usize) -> Result<(), Fail> {
    for other in (0..256_usize).step_by(step_at(place)) {
        is_told(alloc, file, place, (other % 256) as u8)?;
    }
    Ok(())
}

/// Each byte of a block in turn is another one.
fn block_is_told(alloc: Global, gate: usize) -> Result<(), Fail> {
    let file = looked_at(alloc)?;
    for (place, byte) in file.iter().enumerate() {
        if block_at(place).1 == gate && place <= LAST_END {
            is_told(alloc, &file, place, *byte ^ 1)?;
            others_are_told(alloc, &file, place)?;
        }
    }
    Ok(())
}

#[test]
fn other_bytes_of_the_first_block_are_told(rt: HostRuntime) -> Result<(), Fail> {
    block_is_told(rt.alloc(), block_at(0).1)
}

#[test]
fn other_bytes_of_the_second_block_are_told(rt: HostRuntime) -> Result<(), Fail> {
    block_is_told(rt.alloc(), block_at(LAST_GATE - 1).1)
}

#[test]
fn other_bytes_of_the_last_block_are_told(rt: HostRuntime) -> Result<(), Fail> {
    holds(block_at(LAST_END).0 == ENTRIES.len(), "the blocks")?;
    holds(block_at(LAST_END - 1).1 == LAST_GATE, "the last block")?;
    block_is_told(rt.alloc(), LAST_GATE)?;
    block_is_told(rt.alloc(), LAST_END)
}
