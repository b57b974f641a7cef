// Blocks: what is written of a batch, and what bytes of a file begin with.
ghost use Rattle.std.specs.Prelude.{◌≡◌, ◌≤◌, ◌<◌, ◌+◌, ◌^◌, ◌++◌, List, ℕ, length, take};
ghost use Rattle.std.specs.Prelude.{drop, OnOk, IfOk, IfSome, MatchOption};
ghost use Rattle.journal.specs.Form.{nonzeros, packed, header, blocks, complement};
ghost use Rattle.journal.specs.Block.{said_number, mirrors, mirrored, counts_fit, counts_torn};
ghost use Rattle.journal.specs.Block.{most_said, behind_gate, head_says, entries_packed};
ghost use Rattle.journal.specs.Words.{bytes_of_each};

use sha2::{Digest, Sha256};
use std::alloc::{AllocError, Global};

pub(crate) const OPEN: u8 = 1;

pub(crate) const CLOSED: u8 = 0;

// The gate and the header.
pub(crate) const HEAD_BYTES: usize = 65;

/// What bytes of a file begin with.
#[derive(Drop)]
pub(crate) enum First<E> {
    End,
    Whole(E),
    Damaged,
}

/// What the head of a block says.
#[derive(Drop)]
pub(crate) enum Head {
    /// The gate is closed, or the file's last byte.
    Closed,
    /// The gate is open, and some of the block is missing.
    Part,
    /// The gate is open, and there is room for a batch of this length.
    Room(usize),
    /// The gate is neither open nor closed.
    Other,
}

/// The entries of a whole block, and the block's length.
#[derive(Drop)]
pub(crate) struct Batch {
    pub entries: Vec<Vec<u8>>,
    pub len: usize,
    ghost sized: { len ≡ length (blocks (bytes_of_each entries.items)) },
}

/// How many of the bytes aren't zero.
pub(crate) fn count_nonzeros(bytes: &[u8]) -> usize
    ensures { result ≡ nonzeros bytes.now }
{
    let mut count = 0;
    for byte in bytes {
        if *byte != 0 {
            count += 1;
        }
    }
    count
}

fn push_complement(out: &mut Vec<u8>, bytes: &[u8]) -> Result<(), AllocError>
    ensures { OnOk result (out.new.items ≡ out.old.items ++ complement bytes.now) }
{
    for byte in bytes {
        out.push(255 - *byte)?;
    }
    Ok(())
}

fn push_header(out: &mut Vec<u8>, bytes: &[u8]) -> Result<(), AllocError>
    requires { length bytes.now < 2 ^ 63 }
    ensures { OnOk result (out.new.items ≡ out.old.items ++ header bytes.now) }
{
    let digest = Sha256::digest(bytes);
    let len = (bytes.len() as u64).to_be_bytes();
    let count = ((count_nonzeros(&digest) + count_nonzeros(bytes)) as u64).to_be_bytes();
    out.extend_from_slice(&len)?;
    out.extend_from_slice(&count)?;
    push_complement(out, &len)?;
    push_complement(out, &count)?;
    out.extend_from_slice(&digest)?;
    Ok(())
}

fn packed_bytes(alloc: Global, entries: &[Vec<u8>]) -> Result<Vec<u8>, AllocError>
    ensures { IfOk result (λ bytes. bytes.items ≡ packed (bytes_of_each entries.now)) }
{
    let mut bytes = Vec::new(alloc);
    for entry in entries {
        bytes.extend_from_slice(&(entry.len() as u64).to_be_bytes())?;
        bytes.extend_from_slice(entry)?;
    }
    Ok(bytes)
}

/// What is written of a batch.
pub(crate) fn block_of(alloc: Global, entries: &[Vec<u8>]) -> Result<Vec<u8>, AllocError>
    ensures { IfOk result (λ bytes. bytes.items ≡ blocks (bytes_of_each entries.now)) }
{
    let body = packed_bytes(alloc, entries)?;
    let mut bytes = Vec::new(alloc);
    bytes.push(OPEN)?;
    push_header(&mut bytes, &body)?;
    bytes.extend_from_slice(&body)?;
    Ok(bytes)
}

fn is_mirror(bytes: &[u8], mirror: &[u8]) -> bool
    ensures { result ≡ mirrors bytes.now mirror.now }
{
    let [byte, bytes @ ..] = bytes else {
        return true;
    };
    let [other, mirror @ ..] = mirror else {
        return true;
    };
    *other == 255 - *byte && is_mirror(bytes, mirror)
}

fn was_mirror(bytes: &[u8], mirror: &[u8]) -> bool
    ensures { result ≡ mirrored bytes.now mirror.now }
{
    let [byte, bytes @ ..] = bytes else {
        return true;
    };
    let [other, mirror @ ..] = mirror else {
        return true;
    };
    (*other == 255 - *byte || *byte == 0 || *other == 0) && was_mirror(bytes, mirror)
}

// The counts, and what should be their complement.
fn halves(behind: &[u8]) -> (&[u8], &[u8])
    ensures counts { result.0.now ≡ take 16 behind.now }
    ensures mirror { result.1.now ≡ take 16 (drop 16 behind.now) }
{
    let (bytes, rest) = behind.split_at(behind.len().min(16));
    let (mirror, _) = rest.split_at(rest.len().min(16));
    (bytes, mirror)
}

fn is_fitting(behind: &[u8]) -> bool
    ensures { result ≡ counts_fit behind.now }
{
    let (bytes, mirror) = halves(behind);
    is_mirror(bytes, mirror)
}

pub(crate) fn is_torn(behind: &[u8]) -> bool
    ensures { result ≡ counts_torn behind.now }
{
    let (bytes, mirror) = halves(behind);
    was_mirror(bytes, mirror)
}

/// The number that the first eight bytes say.
pub(crate) fn number_said(behind: &[u8]) -> Option<usize>
    ensures said { MatchOption result (length behind.now < 8)
        (λ n. n ≡ said_number behind.now) }
    ensures enough { IfSome result (λ _. 8 ≤ length behind.now) }
{
    let [a, b, c, d, e, f, g, h, ..] = behind else {
        return None;
    };
    Some(u64::from_be_bytes([*a, *b, *c, *d, *e, *f, *g, *h]) as usize)
}

/// The greatest number of which a crash may have left this complement.
pub(crate) fn most_said(mirror: &[u8]) -> usize
    requires { 8 ≤ length mirror.now }
    ensures { result ≡ most_said mirror.now }
{
    let Some(number) = number_said(mirror) else {
        return usize::MAX;
    };
    usize::MAX - number
}

// What the bytes behind an open gate say, `left` with it, that begin with these.
fn read_behind(behind: &[u8], left: usize) -> Head
    ensures { (bytes : List ℕ) → behind.now ≡ take 64 bytes → left ≡ 1 + length bytes
        → result ≡ behind_gate bytes }
{
    if !is_fitting(behind) {
        return Head::Part;
    }
    let Some(len) = number_said(behind) else {
        return Head::Part;
    };
    if left < HEAD_BYTES || len > left - HEAD_BYTES {
        return Head::Part;
    }
    Head::Room(len)
}

/// What the bytes say that have this head, `left` of them.
pub(crate) fn read_head(head: &[u8], left: usize) -> Head
    ensures { (bytes : List ℕ) → head.now ≡ take 65 bytes → left ≡ length bytes
        → result ≡ head_says bytes }
{
    let [gate, behind @ ..] = head else {
        return Head::Closed;
    };
    if *gate == CLOSED || behind.is_empty() {
        return Head::Closed;
    }
    if *gate == OPEN {
        return read_behind(behind, left);
    }
    Head::Other
}

/// The entries that these bytes are packed of.
pub(crate) fn unpacked_entries(alloc: Global, bytes: &[u8]) -> Result<Vec<Vec<u8>>, AllocError>
    ensures { IfOk result (λ entries. bytes_of_each entries.items ≡ entries_packed bytes.now) }
{
    let mut entries = Vec::new(alloc);
    let mut at = 0;
    while let Some(len) = number_said(&bytes[at..]) {
        at += 8;
        let end = at + len.min(bytes.len() - at);
        entries.push(bytes[at..end].to_vec(alloc)?)?;
        at = end;
    }
    Ok(entries)
}
