// Cursors: ranges that are read in batches. Called by `plan_exec`.
ghost use Rattle.std.specs.Prelude.{◌≡◌, ℕ, ◌≤◌, Some, IsTrue, IfOk, IfErr, OnOk, OnErr};
ghost use Rattle.std.specs.Prelude.{length, option_map};
ghost use Rattle.kv_core.specs.Range.{KeyRange as Range, contains};
ghost use Rattle.kv_core.specs.Read.{last_key};
ghost use Rattle.txn.specs.Cursor.{IsNextBatch, IsNoBatch, rest_behind};

use crate::read::{last_key, range_read};
use crate::transaction::Transaction;
use kv_core::{KeyRange, Pair, ReadError, Snapshot};
use std::alloc::AllocError;

/// How many pairs a cursor reads at a time.
pub const BATCH: usize = 64;

/// A range that is read in batches of 64 pairs, in the order of the keys, or with `reverse` from
/// the last one back.
///
/// Where nothing is written between them, its batches together are the range's pairs as the
/// transaction sees them.
#[derive(Debug, Drop)]
pub struct RangeCursor {
    rest: Option<KeyRange>,
    reverse: bool,
}

/// What is left of a range behind a batch of these pairs, in the direction of the read: nothing
/// where they are fewer than 64.
fn rest_behind(
    range: &KeyRange,
    reverse: bool,
    pairs: &[Pair],
) -> Result<Option<KeyRange>, AllocError>
    requires { BATCH ≤ length pairs.now →
        IsTrue (contains range.now (last_key range.now.begin pairs.now)) }
    ensures { IfOk result (λ rest. rest ≡ rest_behind range.now BATCH reverse pairs.now) }
{
    if pairs.len() < BATCH {
        return Ok(None);
    }
    let last = last_key(range.begin(), pairs);
    if reverse {
        let before = range.upto(last)?;
        Ok(Some(before))
    } else {
        let after = range.starting_at(&last.next()?)?;
        Ok(Some(after))
    }
}

impl RangeCursor {
    /// A cursor that has still to give the whole range, which takes no memory.
    pub fn new(range: KeyRange, reverse: bool) -> RangeCursor
        ensures { result ≡ record { rest = Some range; reverse = reverse } }
    {
        RangeCursor {
            rest: Some(range),
            reverse,
        }
    }

    /// The next pairs of the range as the transaction sees them: 64, or what is left where that is
    /// less. None once there was less: nothing is read then.
    ///
    /// A batch is one `Transaction::get_range` of what is left of the range: its part through the
    /// last pair is added to the ranges read, or all of it where there are fewer than 64. It is
    /// refused as that is, and with `Memory` where memory runs out. A refusal leaves the cursor and
    /// the transaction as they were.
    pub fn next<S: Snapshot>(
        &mut self,
        tx: &mut Transaction,
        db: &S,
    ) -> Result<Option<Vec<Pair>>, ReadError>
        ensures next { IfOk result (λ batch. IsNextBatch (S.map_at db.now) self.old
            (option_map (λ pairs. pairs.items) batch) self.new tx.old tx.new) }
        ensures allowed { OnOk result ((range : Range) → self.old.rest ≡ Some range →
            S.must_refuse db.now range tx.old.read_version → ⊥) }
        ensures stays { OnErr result (self.new ≡ self.old) }
        ensures kept { OnErr result (tx.new ≡ tx.old) }
        ensures refused { IfErr result
            (IsNoBatch (S.may_refuse db.now) self.old tx.old.read_version) }
    {
        let range = match &self.rest {
            Some(range) => range,
            None => return Ok(None),
        };
        let pairs = tx.seen_pairs(db, range, BATCH, self.reverse)?;
        let read = range_read(range, BATCH, self.reverse, pairs.as_slice())?;
        // The rest is made first, so that nothing fails once the range is added.
        let rest = rest_behind(range, self.reverse, pairs.as_slice())?;
        tx.add_read(read)?;
        self.rest = rest;
        Ok(Some(pairs))
    }
}
