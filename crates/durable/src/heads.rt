// What stands before a log that goes on from a checkpoint: a head, and pairs. Called by
// `checkpointing` and `reopening`, and by a schedule with a log on two devices.
ghost use Rattle.std.specs.Prelude.{◌≡◌, ◌<◌, ◌≤◌, ◌^◌, ◌++◌, All, IfOk, MatchOption, OnOk};
ghost use Rattle.std.specs.Prelude.{length, map};
ghost use Rattle.std.specs.Option.{option_map};
ghost use Rattle.journal.specs.Words.{bytes_of_each};
ghost use Rattle.durable.specs.Heads.{checkpoint_bytes, each_pair, generation_of, head_before};
ghost use Rattle.durable.specs.Heads.{head_bytes, head_in, written_pair, pair_in, pairs_after};
ghost use Rattle.durable.specs.Heads.{word_in};

use kv_core::{Bytes, Pair};
use std::alloc::{AllocError, Global};

// How many bytes stand after the zero of a head.
const NUMBERS: usize = 24;

/// What the first byte string of a checkpoint says.
#[derive(Clone, Copy)]
pub(crate) struct Head {
    /// Which checkpoint it is of those that a database has made.
    pub generation: u64,
    /// The version of the last transaction before it.
    pub version: u64,
    /// How many pairs follow.
    pub count: u64,
}

fn bytes_of_head(alloc: Global, head: &Head) -> Result<Vec<u8>, AllocError>
    ensures { IfOk result (λ bytes. bytes.items ≡ head_bytes head.now) }
{
    let mut bytes = Vec::new(alloc);
    bytes.push(0)?;
    bytes.extend_from_slice(&head.generation.to_be_bytes())?;
    bytes.extend_from_slice(&head.version.to_be_bytes())?;
    bytes.extend_from_slice(&head.count.to_be_bytes())?;
    Ok(bytes)
}

fn bytes_of_pair(alloc: Global, key: &[u8], value: &[u8]) -> Result<Vec<u8>, AllocError>
    ensures written { IfOk result (λ bytes. bytes.items ≡ written_pair (key.now, value.now)) }
    ensures small { OnOk result (length key.now < 2 ^ 64) }
{
    let mut bytes = Vec::new(alloc);
    bytes.extend_from_slice(&(key.len() as u64).to_be_bytes())?;
    bytes.extend_from_slice(key)?;
    bytes.extend_from_slice(value)?;
    Ok(bytes)
}

// Adds the byte strings of pairs.
fn push_pairs(alloc: Global, made: &mut Vec<Vec<u8>>, pairs: &[Pair]) -> Result<(), AllocError>
    ensures written { OnOk result (bytes_of_each made.new.items
        ≡ bytes_of_each made.old.items ++ map written_pair pairs.now) }
    ensures keys { OnOk result (All (λ pair. length pair.0 < 2 ^ 64) pairs.now) }
{
    for pair in pairs {
        made.push(bytes_of_pair(alloc, pair.0.as_slice(), pair.1.as_slice())?)?;
    }
    Ok(())
}

/// The byte strings of a checkpoint of this generation: its head, with the version of the last
/// transaction before it, and its pairs. Fails only where memory runs out.
pub fn bytes_of_checkpoint(
    alloc: Global,
    generation: u64,
    version: u64,
    pairs: &[Pair],
) -> Result<Vec<Vec<u8>>, AllocError>
    ensures written { IfOk result (λ made.
        bytes_of_each made.items ≡ checkpoint_bytes generation version pairs.now) }
    ensures numbers { OnOk result ((generation < 2 ^ 64) × (version < 2 ^ 64)) }
    ensures few { OnOk result (length pairs.now < 2 ^ 64) }
    ensures keys { OnOk result (All (λ pair. length pair.0 < 2 ^ 64) pairs.now) }
{
    let head = Head {
        generation,
        version,
        count: pairs.len() as u64,
    };
    let mut made = Vec::new(alloc);
    made.push(bytes_of_head(alloc, &head)?)?;
    push_pairs(alloc, &mut made, pairs)?;
    Ok(made)
}

// The number that the first eight bytes are.
fn word(bytes: &[u8]) -> Option<u64>
    ensures { MatchOption result (length bytes.now < 8)
        (λ n. (8 ≤ length bytes.now) × (n ≡ word_in bytes.now)) }
{
    let [a, b, c, d, e, f, g, h, ..] = bytes else {
        return None;
    };
    Some(u64::from_be_bytes([*a, *b, *c, *d, *e, *f, *g, *h]))
}

// The head that a byte string is, if it is one.
fn head_of(bytes: &[u8]) -> Option<Head>
    ensures { result ≡ head_in bytes.now }
{
    let [0, rest @ ..] = bytes else {
        return None;
    };
    if rest.len() != NUMBERS {
        return None;
    }
    let (Some(generation), Some(version), Some(count)) = (
        word(rest),
        word(&rest[8..]),
        word(&rest[16..]),
    ) else {
        return None;
    };
    Some(Head {
        generation,
        version,
        count,
    })
}

/// The head with which a file's byte strings begin, if they do.
pub(crate) fn first_head(log: &[Vec<u8>]) -> Option<Head>
    ensures { result ≡ head_before (bytes_of_each log.now) }
{
    match log.first() {
        Some(first) => head_of(first),
        None => None,
    }
}

/// The generation of a file that has these byte strings: 0 where no head stands before them.
pub(crate) fn generation(log: &[Vec<u8>]) -> u64
    ensures { result ≡ generation_of (bytes_of_each log.now) }
{
    match first_head(log) {
        Some(head) => head.generation,
        None => 0,
    }
}

// The pair that a byte string is, if it is long enough for its key.
fn pair_of(alloc: Global, bytes: &[u8]) -> Result<Option<Pair>, AllocError>
    ensures { IfOk result (λ pair. pair ≡ pair_in bytes.now) }
{
    let Some(len) = word(bytes) else {
        return Ok(None);
    };
    let (_, rest) = bytes.split_at(8);
    if (rest.len() as u64) < len {
        return Ok(None);
    }
    let (key, value) = rest.split_at(len as usize);
    Ok(Some((
        Bytes::from_slice(alloc, key)?,
        Bytes::from_slice(alloc, value)?,
    )))
}

// The pairs that byte strings are, if each is one.
fn pairs_of(alloc: Global, list: &[Vec<u8>]) -> Result<Option<Vec<Pair>>, AllocError>
    ensures { IfOk result (λ pairs.
        option_map (λ v. v.items) pairs ≡ each_pair (bytes_of_each list.now)) }
{
    let mut pairs = Vec::with_capacity(alloc, list.len())?;
    for bytes in list {
        let Some(pair) = pair_of(alloc, bytes)? else {
            return Ok(None);
        };
        pairs.push(pair)?;
    }
    Ok(Some(pairs))
}

/// The pairs after a head that says how many there are, if they are there.
pub(crate) fn counted_pairs(
    alloc: Global,
    count: u64,
    others: &[Vec<u8>],
) -> Result<Option<Vec<Pair>>, AllocError>
    ensures { IfOk result (λ pairs.
        option_map (λ v. v.items) pairs ≡ pairs_after count (bytes_of_each others.now)) }
{
    if (others.len() as u64) < count {
        return Ok(None);
    }
    let (front, _) = others.split_at(count as usize);
    pairs_of(alloc, front)
}
