// Range reads of a transaction, in rounds, and the ranges that they keep as read. Called by
// `transaction`.
ghost use Rattle.std.specs.Prelude.{◌≡◌, ◌⊎◌, ◌≤◌, ℕ, List, None, Some, IsTrue, IfOk};
ghost use Rattle.std.specs.Prelude.{IfErr, OnOk, if◌then◌else◌, length, nat_lt, ◌&&◌};
ghost use Rattle.kv_core.specs.Map.{Map};
ghost use Rattle.kv_core.specs.Range.{contains, has_keys, part_before, part_from};
ghost use Rattle.kv_core.specs.Read.{last_key, range_read, read_of};
ghost use Rattle.txn.specs.Own.{IsUnder, own_state};
ghost use Rattle.txn.specs.Reading.{CoversTo, IsPlaceBehind, IsReadSoFar, IsRestOf};

use crate::own::OwnWrites;
use kv_core::{Bytes, KeyRange, Pair, ReadError, Snapshot};
use std::alloc::AllocError;

/// The key of the last pair, or the one given where there is none.
pub(crate) fn last_key<'a>(key: &'a Bytes, pairs: &'a [Pair]) -> &'a Bytes
    ensures { result.now ≡ last_key key.now pairs.now }
{
    match pairs.last() {
        Some(pair) => &pair.0,
        None => key,
    }
}

/// The range that decides a read which gave these pairs.
pub(crate) fn range_read(
    range: &KeyRange,
    limit: usize,
    reverse: bool,
    pairs: &[Pair],
) -> Result<KeyRange, AllocError>
    requires { limit ≤ length pairs.now → IsTrue (contains range.now (last_key range.now.begin pairs.now)) }
    ensures { IfOk result (λ read. read ≡ range_read range.now limit reverse pairs.now) }
{
    if pairs.len() < limit {
        return range.copy();
    }
    let last = last_key(range.begin(), pairs);
    if reverse {
        range.starting_at(last)
    } else {
        range.upto(&last.next()?)
    }
}

/// Where a read goes on that stopped at these pairs: behind the last one, and behind the keys after
/// it that are cleared.
fn stop(
    own: &OwnWrites,
    range: &KeyRange,
    stored: &[Pair],
    reverse: bool,
) -> Result<Bytes, AllocError>
    ensures covers { IfOk result (λ place.
        CoversTo own.now.cleared reverse (last_key range.now.begin stored.now) place) }
    ensures behind { IfOk result (λ place. IsPlaceBehind reverse (last_key range.now.begin stored.now) place) }
{
    let last = last_key(range.begin(), stored);
    if reverse {
        own.cleared.before(last)
    } else {
        own.cleared.past(&last.next()?)
    }
}

/// The parts of a range before a place and behind it, in the direction of a read.
fn parts_at(
    range: &KeyRange,
    place: &Bytes,
    reverse: bool,
) -> Result<(KeyRange, KeyRange), AllocError>
    ensures near { IfOk result (λ parts.
        parts.0 ≡ (if reverse then part_from place.now range.now else part_before place.now range.now)) }
    ensures far { IfOk result (λ parts.
        parts.1 ≡ (if reverse then part_before place.now range.now else part_from place.now range.now)) }
{
    let upto = range.upto(place)?;
    let on = range.starting_at(place)?;
    if reverse {
        Ok((on, upto))
    } else {
        Ok((upto, on))
    }
}

/// What one round of a read gave, and what is left of its range.
#[derive(Drop)]
struct Round {
    pairs: Vec<Pair>,
    rest: Option<KeyRange>,
}

/// The rest of a range, where pairs are wanting and keys are left.
fn still_wanted(pairs: &[Pair], limit: usize, rest: KeyRange) -> Option<KeyRange>
    ensures { result ≡ (if nat_lt (length pairs.now) limit && has_keys rest then Some rest else None) }
{
    if pairs.len() < limit && !rest.is_empty() {
        Some(rest)
    } else {
        None
    }
}

/// Merges so many stored pairs, at which the read of a range stopped.
fn merge_part(
    own: &OwnWrites,
    stored: Vec<Pair>,
    range: &KeyRange,
    limit: usize,
    reverse: bool,
) -> Result<Round, AllocError>
    requires { 1 ≤ limit }
    ensures left { IfOk result (λ round.
        (base : Map) (asked : ℕ) → 1 ≤ asked → asked ≤ length stored.items →
        stored.items ≡ read_of base range.now asked reverse →
        IsRestOf base range.now limit round.pairs.items round.rest) }
    ensures gives { IfOk result (λ round. (base m : Map) (asked : ℕ) → 1 ≤ asked → asked ≤ length stored.items →
        stored.items ≡ read_of base range.now asked reverse →
        IsUnder (own_state own.now) base m → IsReadSoFar m range.now limit reverse round.pairs.items round.rest) }
{
    let place = stop(own, range, stored.as_slice(), reverse)?;
    let (near, far) = parts_at(range, &place, reverse)?;
    let pairs = own.merged(stored, &near, limit, reverse)?;
    let rest = still_wanted(pairs.as_slice(), limit, far);
    Ok(Round { pairs, rest })
}

/// Reads a range up to the limit, by one read of the snapshot that asks for so many pairs.
fn read_round<S: Snapshot>(
    db: &S,
    own: &OwnWrites,
    version: u64,
    range: &KeyRange,
    asked: usize,
    limit: usize,
    reverse: bool,
) -> Result<Round, ReadError>
    requires limit { 1 ≤ limit }
    requires asked { 1 ≤ asked }
    ensures left { IfOk result (λ round.
        IsRestOf (S.map_at db.now version) range.now limit round.pairs.items round.rest) }
    ensures gives { IfOk result (λ round.
        (m : Map) → IsUnder (own_state own.now) (S.map_at db.now version) m →
        IsReadSoFar m range.now limit reverse round.pairs.items round.rest) }
    ensures allowed { OnOk result (S.must_refuse db.now range.now version → ⊥) }
    ensures refused { IfErr result (λ error. (error ≡ ReadError.Memory) ⊎ S.may_refuse db.now range.now version error) }
{
    let stored = db.read(range, version, asked, reverse)?;
    if stored.len() < asked {
        let pairs = own.merged(stored, range, limit, reverse)?;
        return Ok(Round { pairs, rest: None });
    }
    let round = merge_part(own, stored, range, limit, reverse)?;
    Ok(round)
}

/// The pairs of a range as a transaction with these own writes sees them, in order or from the last
/// one back, as many as there are up to the limit.
///
/// The first read of the snapshot is one of the whole range, which decides whether it refuses. More
/// follow only where keys of the pairs read are cleared. They go on behind those keys, and each asks
/// for twice as many pairs as the one before it.
pub(crate) fn read_under<S: Snapshot>(
    db: &S,
    own: &OwnWrites,
    version: u64,
    range: &KeyRange,
    limit: usize,
    reverse: bool,
) -> Result<Vec<Pair>, ReadError>
    requires { 1 ≤ limit }
    ensures pairs { IfOk result (λ pairs.
        (m : Map) → IsUnder (own_state own.now) (S.map_at db.now version) m →
        pairs.items ≡ read_of m range.now limit reverse) }
    ensures allowed { OnOk result (S.must_refuse db.now range.now version → ⊥) }
    ensures refused { IfErr result (λ error. (error ≡ ReadError.Memory) ⊎ S.may_refuse db.now range.now version error) }
{
    let first = read_round(db, own, version, range, limit, limit, reverse)?;
    let mut pairs = first.pairs;
    let mut rest = first.rest;
    let mut asked = limit;
    while let Some(part) = rest {
        asked = asked.saturating_mul(2);
        let wanted = limit - pairs.len();
        let next = read_round(db, own, version, &part, asked, wanted, reverse)?;
        let mut more = next.pairs;
        pairs.append(&mut more)?;
        rest = next.rest;
    }
    Ok(pairs)
}
