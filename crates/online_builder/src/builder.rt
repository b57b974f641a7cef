// The online build of an index. Called by `schedule` for the command `build`.
ghost use Rattle.std.specs.Prelude.{◌≡◌, ◌≤◌, ◌++◌, IfErr, IfOk, IsTrue, OnOk, Some};
ghost use Rattle.kv_core.specs.Bytes.{end_of_keys, key_lt, next_key};
ghost use Rattle.kv_core.specs.Map.{Map, after_all};
ghost use Rattle.kv_core.specs.Range.{has_keys};
ghost use Rattle.index_maint.specs.Built.{position as position_of};
ghost use Rattle.index_maint.specs.Kept.{build_writes};
ghost use Rattle.range_set.specs.Stored.{Joins, insertion};
ghost use Rattle.range_set.specs.Told.{stored_in};
ghost use Rattle.record_store.specs.Call.{IsAnswered, IsRefused};
ghost use Rattle.online_builder.specs.Stepping.{part_made, step_call};

use crate::progress::Progress;
use index_maint::{built_place, position, push_build};
use kv_core::{Bytes, KeyRange, Mutation};
use metadata::{IndexDefinition, Record};
use range_set::{Ranges, read_ranges};
use record_store::{Store, StoreError};
use std::alloc::{AllocError, Global};
use std::marker::Model;
use tuple_codec::Text;
use txn::{Snapshot, Transaction};

/// A builder of a write-only index, which is named, by so many records in a step, one at least.
#[derive(Drop)]
pub struct Builder {
    name: Text,
    limit: u32,
}

impl Model for Builder {
    ghost use Rattle.std.specs.Prelude.{◌≤◌};
    ghost use Rattle.online_builder.specs.Stepping.{BuildTask};

    ghost Value = { BuildTask };

    ghost view = { λ b. record { name = b.name; limit = b.limit } };

    ghost invariant = { λ b. 1 ≤ b.limit };
}

// The byte string after the position of a record.
fn behind(alloc: Global, one: &Record) -> Result<Bytes, AllocError>
    ensures { IfOk result (λ end. end ≡ next_key (position_of one.now)) }
{
    let key = one.cells().at(alloc, &one.definition().key)?;
    let end = Bytes::new(position(alloc, &key)?).next()?;
    Ok(end)
}

// The part of a gap up to behind the records that were found in it, or all of it where they are fewer
// than the limit.
fn part_of(
    alloc: Global,
    gap: &KeyRange,
    rows: &[Record],
    limit: usize,
) -> Result<KeyRange, AllocError>
    requires { 1 ≤ limit }
    ensures { IfOk result (λ part. part ≡ part_made limit rows.now gap.now) }
{
    if rows.len() < limit {
        let part = gap.copy()?;
        return Ok(part);
    }
    match rows.last() {
        Some(last) => {
            let end = behind(alloc, last)?;
            let part = gap.upto(&end)?;
            Ok(part)
        }
        None => unreachable!(),
    }
}

// What is written to build these records, and with them the range, which has a position, beside the
// ranges that are stored under the place.
fn build_mutations(
    alloc: Global,
    store: &Store,
    index: &IndexDefinition,
    place: &[u8],
    ranges: &Ranges,
    range: &KeyRange,
    rows: &[Record],
) -> Result<Vec<Mutation>, AllocError>
    requires place { IsTrue (key_lt place.now end_of_keys) }
    requires range { IsTrue (has_keys range.now) }
    ensures writes { IfOk result (λ mutations. mutations.items
        ≡ build_writes store.now.prefix index.now rows.now
        ++ insertion place.now ranges.now range.now) }
    ensures joins { OnOk result ((m : Map) → stored_in place.now m ≡ Some ranges.now →
        Joins place.now range.now m (after_all (insertion place.now ranges.now range.now) m)) }
{
    let mut mutations = Vec::new(alloc);
    push_build(alloc, store.prefix(), index, rows, &mut mutations)?;
    let mut inserted = ranges.insertion(alloc, place, range)?;
    mutations.append(&mut inserted)?;
    Ok(mutations)
}

impl Builder {
    /// A builder of the index of this name, by at most so many records in a step, one at least.
    pub fn new(name: Text, limit: u32) -> Builder
        requires { 1 ≤ limit }
        ensures name { result.name ≡ name }
        ensures limit { result.limit ≡ limit }
    {
        Builder { name, limit }
    }

    /// Builds, in the first range of positions of the index that aren't built, the records at the first
    /// of them, up to the limit: what each defines is written, and the range from the gap's begin up to
    /// after the last of them is built, or all of the gap where it has fewer. It is stored as one range
    /// with the built ranges that touch it. Nothing is written where every position is built.
    ///
    /// All built ranges of the index are read, and then, where there is a gap, the records in it up to
    /// the limit. Refused with `UnknownIndex` where there is no such index, and with `WrongState` where
    /// it isn't write-only, before anything is read; then with the snapshot's refusal of a read, with
    /// `Corrupt` and the key of the first damaged pair read, and last with the write limit that is met.
    pub fn step<S: Snapshot>(
        &self,
        store: &Store,
        tx: &mut Transaction,
        db: &S,
    ) -> Result<Progress, StoreError>
        ensures stepped { IfOk result (λ progress.
            IsAnswered (S.map_at db.now) store.now (step_call store.now self.now) progress tx.old tx.new) }
        ensures refused { IfErr result (λ error.
            IsRefused (S.map_at db.now) (S.may_refuse db.now) store.now
            (step_call store.now self.now) error tx.old tx.new) }
    {
        let alloc = store.alloc();
        let limit = self.limit as usize;
        let index = store.write_only_index(&self.name)?;
        let place = built_place(alloc, store.prefix(), index.number)?;
        let ranges = read_ranges(alloc, place.as_slice(), tx, db)?;
        let found = ranges.first_gap(alloc)?;
        let Some(gap) = found else {
            return Ok(Progress::Finished);
        };
        let rows = store.first_records(tx, db, index, &gap, limit)?;
        let range = part_of(alloc, &gap, rows.as_slice(), limit)?;
        if range.is_empty() {
            // A gap has positions, and so has the part, wherever ranges stand.
            return Ok(Progress::Finished);
        }
        let records = rows.as_slice().len();
        let mutations = build_mutations(
            alloc,
            store,
            index,
            place.as_slice(),
            &ranges,
            &range,
            rows.as_slice(),
        )?;
        tx.write_all(mutations)?;
        Ok(Progress::Built { records, range })
    }
}
