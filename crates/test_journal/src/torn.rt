// What a crash may leave of an append: the last block with some of its bytes zero, and any bytes
// past the end of the file that had no room. Run as tests.
use crate::parts::{ENTRIES, LAST_END, LAST_GATE, are_first, damage_of, holds, looked_at};
use journal::Kept;
use std::alloc::Global;
use std::test::Fail;

/// The bytes with zeros in the place of some.
fn zeroed(alloc: Global, file: &[u8], from: usize, to: usize) -> Result<Vec<u8>, Fail> {
    let mut bytes = file.to_vec(alloc)?;
    for (place, byte) in bytes.iter_mut().enumerate() {
        if from <= place && place < to {
            *byte = 0;
        }
    }
    Ok(bytes)
}

/// With zeros in the place of some bytes of its last block a file has the entries before it, and
/// all of the block's only if no byte is another one.
fn is_all_or_none(alloc: Global, file: &[u8], from: usize, to: usize) -> Result<(), Fail> {
    let bytes = zeroed(alloc, file, from, to)?;
    let count = if bytes.as_slice() == file { 6 } else { 4 };
    let mut kept = Kept::new(alloc);
    holds(
        damage_of(alloc, bytes, &mut kept)?.is_none(),
        "a torn block",
    )?;
    holds(are_first(kept.entries(), count), "entries of a torn block")
}

/// One byte of the last block is zero, all before one, or all behind one.
#[test]
fn torn_blocks_are_all_or_none(rt: HostRuntime) -> Result<(), Fail> {
    let file = looked_at(rt.alloc())?;
    for place in LAST_GATE..LAST_END {
        is_all_or_none(rt.alloc(), &file, place, place + 1)?;
        is_all_or_none(rt.alloc(), &file, LAST_GATE, place)?;
        is_all_or_none(rt.alloc(), &file, place, LAST_END)?;
    }
    holds(ENTRIES.len() == 6, "the entries of the run")
}

/// What may stand behind two blocks, and whether it is damage: what a crash leaves where the file
/// is written past its end, which is any byte alone, and any bytes behind a zero; and other gates.
static TAILS: [(&[u8], bool); 9] = [
    (b"", false),
    (b"\x00", false),
    (b"\x01", false),
    (b"\x07", false),
    (b"\xff", false),
    (b"\x00\x01\x02\x03\xff", false),
    (b"\x01\x00\x00", false),
    (b"\x07\x00", true),
    (b"\x02\x00\x00\x00", true),
];

fn ends_so(alloc: Global, file: &[u8], tail: &[u8], is_damaged: bool) -> Result<(), Fail> {
    let mut bytes = file.get(..LAST_GATE).ok_or("two blocks")?.to_vec(alloc)?;
    bytes.extend_from_slice(tail)?;
    let mut kept = Kept::new(alloc);
    let damage = damage_of(alloc, bytes, &mut kept)?;
    holds(
        damage == if is_damaged { Some(LAST_GATE) } else { None },
        "a tail",
    )?;
    holds(are_first(kept.entries(), 4), "entries before a tail")
}

#[test]
fn bytes_past_the_end_are_none(rt: HostRuntime) -> Result<(), Fail> {
    let file = looked_at(rt.alloc())?;
    for (tail, is_damaged) in &TAILS {
        ends_so(rt.alloc(), &file, tail, *is_damaged)?;
    }
    Ok(())
}
