// What the tests are written with: entries, files in memory, and how answers are compared.
ghost use Rattle.std.specs.Prelude.{◌≡◌, OnOk, true};

use journal::{Device, Journal, Kept, Memory, RecoverError, Unrecovered, recover};
use std::alloc::Global;
use std::test::Fail;

/// The entries of a run, in order.
pub static ENTRIES: [&str; 6] = ["a", "", "bcd", "e", "", "fghij"];

/// The entries of each batch of the run.
pub static BATCHES: [[&str; 2]; 3] = [["a", ""], ["bcd", "e"], ["", "fghij"]];

/// Where the gates of a run's file stand, the closed one last.
static GATES: [usize; 4] = [0, 82, 167, 253];

/// The gate of the last block.
pub const LAST_GATE: usize = 167;

/// Where that block ends.
pub const LAST_END: usize = 253;

/// How many bytes of a run's file are looked at: its blocks, and some zeros behind them.
pub const LOOKED_AT: usize = 300;

/// How many bytes a run's file has: a zero, and those for which it grows.
pub const FILE_BYTES: usize = 1 + (1 << 12);

/// The entries of the blocks before this place, and the gate of the block in which it lies.
pub fn block_at(place: usize) -> (usize, usize) {
    let mut found = (0, 0);
    for (count, gate) in GATES.iter().enumerate() {
        if *gate <= place {
            found = (2 * count, *gate);
        }
    }
    found
}

/// Fails where a fact doesn't hold of a row.
pub fn holds(fact: bool, row: &str) -> Result<(), Fail>
    ensures { OnOk result (fact ≡ true) }
{
    match fact {
        true => Ok(()),
        false => Err(Fail::new(format_args!("not so at {row}"))),
    }
}

fn bytes_of(alloc: Global, batch: &[&str]) -> Result<Vec<Vec<u8>>, Fail> {
    let mut entries = Vec::new(alloc);
    for text in batch {
        entries.push(text.as_bytes().to_vec(alloc)?)?;
    }
    Ok(entries)
}

/// Appends the batches, and tells how many were acknowledged before one failed.
pub fn appended<D: Device>(alloc: Global, journal: &mut Journal<D>) -> Result<usize, Fail> {
    for (place, batch) in BATCHES.iter().enumerate() {
        let entries = bytes_of(alloc, batch)?;
        if journal.append(alloc, &entries).is_err() {
            return Ok(place);
        }
    }
    Ok(BATCHES.len())
}

/// Recovers a file, and tells where it is damaged.
pub fn damage_of(alloc: Global, bytes: Vec<u8>, kept: &mut Kept) -> Result<Option<usize>, Fail> {
    match recover(alloc, Memory::new(alloc, bytes), kept) {
        Ok(_) => Ok(None),
        Err(Unrecovered { device: _, error }) => match error {
            RecoverError::Damage(at) => Ok(Some(at)),
            _ => Err(Fail::new(format_args!("another refusal"))),
        },
    }
}

/// The file after all batches, and the zeros behind them.
pub fn whole_file(alloc: Global) -> Result<Vec<u8>, Fail> {
    let mut kept = Kept::new(alloc);
    match recover(alloc, Memory::new(alloc, Vec::new(alloc)), &mut kept) {
        Ok(mut journal) => {
            holds(appended(alloc, &mut journal)? == BATCHES.len(), "batches")?;
            Ok(journal.into_device().bytes().to_vec(alloc)?)
        }
        Err(_) => Err(Fail::new(format_args!("an empty file"))),
    }
}

/// The first bytes of that file: its blocks, and some of the zeros.
pub fn looked_at(alloc: Global) -> Result<Vec<u8>, Fail> {
    let file = whole_file(alloc)?;
    holds(file.len() == FILE_BYTES, "the length of the file")?;
    let (front, zeros) = file.as_slice().split_at(LOOKED_AT.min(file.len()));
    holds(zeros.iter().all(|byte| *byte == 0), "zeros")?;
    Ok(front.to_vec(alloc)?)
}

/// Whether a file with this byte changed looks as if a crash had left it so: the byte is a gate,
/// and closed or open; or it is one of the last block, and is zero, or is one of a count or its
/// complement where the other of both is zero.
pub fn looks_torn(bytes: &[u8], gate: usize, place: usize) -> bool {
    let at = |place: usize| bytes.get(place).copied() == Some(0);
    if place == gate {
        return at(place) || bytes.get(place).copied() == Some(1);
    }
    if gate < LAST_GATE {
        return false;
    }
    match place.saturating_sub(gate) {
        1..17 => at(place) || at(place.saturating_add(16)),
        17..33 => at(place) || at(place.saturating_sub(16)),
        _ => at(place),
    }
}

/// Whether these are the first entries of the run, this many of them, and none else.
pub fn are_first(entries: &[Vec<u8>], count: usize) -> bool {
    if entries.len() != count {
        return false;
    }
    for (entry, text) in entries.iter().zip(&ENTRIES) {
        if entry.as_slice() != text.as_bytes() {
            return false;
        }
    }
    true
}
