// Membership, gaps and wholeness, read in a transaction. Called by `record_store` for what is
// built.
ghost use Rattle.std.specs.Prelude.{◌≡◌, IfErr, IfOk, IsTrue, OnOk};
ghost use Rattle.kv_core.specs.Bytes.{end_of_keys, key_lt};
ghost use Rattle.range_set.specs.Calls.{IsPositionTold, IsSetAnswered, IsSetRefused, IsUntold};
ghost use Rattle.range_set.specs.Calls.{all_ranges, last_upto};
ghost use Rattle.range_set.specs.Gaps.{first_gap, has_position, is_whole};
ghost use Rattle.range_set.specs.Steps.{ends_behind};
ghost use Rattle.range_set.specs.Stored.{upto_range, whole_range};
ghost use Rattle.range_set.specs.Told.{IsGapIn};

use crate::decoding::{bytes_known, ranges_found};
use crate::error::RangeSetError;
use crate::layout::upto_range;
use crate::ranges::read_ranges;
use kv_core::{KeyRange, Pair};
use std::alloc::Global;
use txn::{Snapshot, Transaction};

// Whether the first of some ranges, if there is one, ends after a position.
fn ends_behind(ranges: &[KeyRange], position: &[u8]) -> bool
    ensures { result ≡ ends_behind position.now ranges.now }
{
    match ranges {
        [] => false,
        [range, ..] => position.cmp(range.end().as_slice()).is_lt(),
    }
}

/// Whether a position is in the set, by the last pair that was found in the range of `upto_range`, or
/// none where none is there.
///
/// Refused with `Corrupt` and its key where the pair stands for no range that may be stored.
pub fn position_told(
    alloc: Global,
    place: &[u8],
    pairs: &[Pair],
    position: &[u8],
) -> Result<bool, RangeSetError>
    ensures told { IfOk result (IsPositionTold place.now position.now pairs.now) }
    ensures refused { IfErr result (IsUntold place.now position.now pairs.now) }
{
    bytes_known(position);
    let ranges = ranges_found(alloc, place, pairs)?;
    let told = ends_behind(ranges.as_slice(), position);
    Ok(told)
}

/// Whether a position is in the set.
///
/// Of the keys of ranges that begin at the position or before it the last one is read. Refused with
/// the snapshot's refusal of that read, and with `Corrupt` and its key where the pair found stands
/// for no range that may be stored. A refused read adds nothing to the ranges read.
pub fn contains<S: Snapshot>(
    alloc: Global,
    place: &[u8],
    tx: &mut Transaction,
    db: &S,
    position: &[u8],
) -> Result<bool, RangeSetError>
    requires { IsTrue (key_lt place.now end_of_keys) }
    ensures told { IfOk result (λ told.
        IsSetAnswered (S.map_at db.now) place.now (last_upto place.now position.now) tx.old tx.new
        (λ set. told ≡ has_position set position.now)) }
    ensures allowed { OnOk result
        (S.must_refuse db.now (upto_range place.now position.now) tx.old.read_version → ⊥) }
    ensures refused { IfErr result (λ error.
        IsSetRefused (S.map_at db.now) (S.may_refuse db.now) place.now
        (last_upto place.now position.now) error tx.old tx.new) }
{
    bytes_known(position);
    let range = upto_range(alloc, place, position)?;
    let pairs = tx.get_range(db, &range, 1, true)?;
    let ranges = ranges_found(alloc, place, pairs.as_slice())?;
    Ok(ends_behind(ranges.as_slice(), position))
}

/// The first range of positions that aren't in the set, or None where each is. Also where no set is
/// there, it is the gap that the pairs of the map tell.
///
/// Reads as `read_ranges` does, and is refused as that is.
pub fn first_gap<S: Snapshot>(
    alloc: Global,
    place: &[u8],
    tx: &mut Transaction,
    db: &S,
) -> Result<Option<KeyRange>, RangeSetError>
    requires { IsTrue (key_lt place.now end_of_keys) }
    ensures gap { IfOk result (λ gap.
        IsSetAnswered (S.map_at db.now) place.now (all_ranges place.now) tx.old tx.new
        (λ set. gap ≡ first_gap set)) }
    ensures told { IfOk result (IsGapIn (S.map_at db.now) place.now tx.old tx.new) }
    ensures allowed { OnOk result
        (S.must_refuse db.now (whole_range place.now) tx.old.read_version → ⊥) }
    ensures refused { IfErr result (λ error.
        IsSetRefused (S.map_at db.now) (S.may_refuse db.now) place.now (all_ranges place.now)
        error tx.old tx.new) }
{
    let ranges = read_ranges(alloc, place, tx, db)?;
    let gap = ranges.first_gap(alloc)?;
    Ok(gap)
}

/// Whether every position is in the set: all that come before the byte FF.
///
/// Reads as `first_gap` does, and is refused as that is.
pub fn is_whole<S: Snapshot>(
    alloc: Global,
    place: &[u8],
    tx: &mut Transaction,
    db: &S,
) -> Result<bool, RangeSetError>
    requires { IsTrue (key_lt place.now end_of_keys) }
    ensures whole { IfOk result (λ whole.
        IsSetAnswered (S.map_at db.now) place.now (all_ranges place.now) tx.old tx.new
        (λ set. whole ≡ is_whole set)) }
    ensures allowed { OnOk result
        (S.must_refuse db.now (whole_range place.now) tx.old.read_version → ⊥) }
    ensures refused { IfErr result (λ error.
        IsSetRefused (S.map_at db.now) (S.may_refuse db.now) place.now (all_ranges place.now)
        error tx.old tx.new) }
{
    let gap = first_gap(alloc, place, tx, db)?;
    Ok(gap.is_none())
}
