// The ranges of a set as they are stored: read in a transaction, asked for their first gap, and
// joined with one more. Called by `online_builder` where a range is built, and by `reading`.
ghost use Rattle.std.specs.Prelude.{◌≡◌, ◌⊎◌, IfErr, IfOk, IsNone, IsTrue, OnErr, OnOk, Some};
ghost use Rattle.kv_core.specs.Bytes.{end_of_keys, key_lt};
ghost use Rattle.kv_core.specs.Limits.{write_all_refusal};
ghost use Rattle.kv_core.specs.Map.{Map, after_all};
ghost use Rattle.kv_core.specs.Range.{has_keys};
ghost use Rattle.range_set.specs.Calls.{IsSetAnswered, IsSetRefused, all_ranges};
ghost use Rattle.range_set.specs.Gaps.{SamePositions, first_gap};
ghost use Rattle.range_set.specs.Stored.{Joins, insertion, whole_range};
ghost use Rattle.range_set.specs.Told.{ApartAt, AreRangesIn, stored_in};
ghost use Rattle.txn.specs.Reads.{seen, with_mutations};

use crate::decoding::ranges_found;
use crate::error::RangeSetError;
use crate::inserting::{insertion, range_known};
use crate::layout::whole_range;
use crate::walking::first_gap_of;
use kv_core::{KeyRange, Mutation, WriteError};
use std::alloc::{AllocError, Global};
use std::marker::Model;
use txn::{Snapshot, Transaction};

/// The ranges of a set as they are stored, in order.
#[derive(Drop)]
pub struct Ranges {
    ranges: Vec<KeyRange>,
}

impl Model for Ranges {
    ghost use Rattle.std.specs.Prelude.{List};
    ghost use Rattle.kv_core.specs.Range.{KeyRange as Range};
    ghost use Rattle.range_set.specs.Stored.{AreStored};

    ghost Value = { List Range };

    ghost view = { λ r. r.ranges.items };

    ghost invariant = { λ r. AreStored r.ranges.items };
}

/// The ranges of a set as they are stored: also where no set is there, those that the pairs of the
/// map tell.
///
/// All keys of ranges are read. Refused with the snapshot's refusal of that read, and with
/// `Corrupt` and the key of the first pair that stands for no range that may be stored, or for one
/// that overlaps the range of the pair before it. A refused read adds nothing to the ranges read.
pub fn read_ranges<S: Snapshot>(
    alloc: Global,
    place: &[u8],
    tx: &mut Transaction,
    db: &S,
) -> Result<Ranges, RangeSetError>
    requires { IsTrue (key_lt place.now end_of_keys) }
    ensures allowed { OnOk result
        (S.must_refuse db.now (whole_range place.now) tx.old.read_version → ⊥) }
    ensures set { IfOk result (λ ranges.
        IsSetAnswered (S.map_at db.now) place.now (all_ranges place.now) tx.old tx.new
        (SamePositions ranges)) }
    ensures told { IfOk result (AreRangesIn (S.map_at db.now) place.now tx.old tx.new) }
    ensures refused { IfErr result (λ error.
        IsSetRefused (S.map_at db.now) (S.may_refuse db.now) place.now (all_ranges place.now)
        error tx.old tx.new) }
{
    let range = whole_range(alloc, place)?;
    let pairs = tx.get_all(db, &range)?;
    let ranges = ranges_found(alloc, place, pairs.as_slice())?;
    Ok(Ranges { ranges })
}

impl Ranges {
    /// The first range of positions that aren't in the set, or None where each is.
    pub fn first_gap(&self, alloc: Global) -> Result<Option<KeyRange>, AllocError>
        ensures { IfOk result (λ gap. gap ≡ first_gap self.now) }
    {
        let gap = first_gap_of(alloc, self.ranges.as_slice())?;
        Ok(gap)
    }

    /// What is written to insert a range, which has a position, where these ranges stand under the
    /// place: it is put as one with those that touch it, and the pair of the one that began where
    /// it ends is taken out.
    ///
    /// Where the range lies in a gap of the set that stands there, the set that stands there after
    /// these mutations has its positions too, and no two of its ranges touch at an end of it.
    /// Others may touch: ranges that were stored side by side stay so.
    pub fn insertion(
        &self,
        alloc: Global,
        place: &[u8],
        range: &KeyRange,
    ) -> Result<Vec<Mutation>, AllocError>
        requires place { IsTrue (key_lt place.now end_of_keys) }
        requires range { IsTrue (has_keys range.now) }
        ensures mutations { IfOk result (λ mutations.
            mutations.items ≡ insertion place.now self.now range.now) }
        ensures joins { (m : Map) → stored_in place.now m ≡ Some self.now →
            Joins place.now range.now m (after_all (insertion place.now self.now range.now) m) }
        ensures apart { (m : Map) → stored_in place.now m ≡ Some self.now →
            ApartAt place.now range.now self.now
            (after_all (insertion place.now self.now range.now) m) }
    {
        range_known(range);
        let mutations = insertion(alloc, place, self.ranges.as_slice(), range)?;
        Ok(mutations)
    }

    /// Inserts a range, which has a position, by the mutations of `insertion`, all of them or none;
    /// nothing is read.
    ///
    /// Where these ranges stand under the place as the transaction sees it, and the range lies in
    /// a gap of them, the transaction sees the set with its positions then. That both is so is for
    /// the caller to know. Refused as `Transaction::write_all` is; a refusal leaves the transaction
    /// as it was.
    pub fn insert(
        &self,
        alloc: Global,
        place: &[u8],
        tx: &mut Transaction,
        range: &KeyRange,
    ) -> Result<(), WriteError>
        requires place { IsTrue (key_lt place.now end_of_keys) }
        requires range { IsTrue (has_keys range.now) }
        ensures ok { OnOk result
            (tx.new ≡ with_mutations (insertion place.now self.now range.now) tx.old) }
        ensures joins { OnOk result ((m : Map) →
            stored_in place.now (seen tx.old m) ≡ Some self.now →
            Joins place.now range.now (seen tx.old m) (seen tx.new m)) }
        ensures apart { OnOk result ((m : Map) →
            stored_in place.now (seen tx.old m) ≡ Some self.now →
            ApartAt place.now range.now self.now (seen tx.new m)) }
        ensures allowed { OnOk result (IsNone
            (write_all_refusal tx.old.mutations (insertion place.now self.now range.now))) }
        ensures kept { OnErr result (tx.new ≡ tx.old) }
        ensures refused { IfErr result (λ error.
            (error ≡ WriteError.Memory)
            ⊎ (write_all_refusal tx.old.mutations (insertion place.now self.now range.now)
            ≡ Some error)) }
    {
        let mutations = self.insertion(alloc, place, range)?;
        tx.write_all(mutations)?;
        Ok(())
    }
}
