// Entries and records that are given one by one while a range is read. Used by `fetch_streams` and `rows`.
ghost use Rattle.std.specs.Prelude.{◌≡◌, IfErr, IfOk, Some};
ghost use Rattle.planner.specs.Layout.{stored_record};
ghost use Rattle.plan_exec.specs.Decoding.{IsDamage};
ghost use Rattle.plan_exec.specs.Packing.{HasPacked};
ghost use Rattle.plan_exec.specs.Reads.{or_damaged, stored_entry};
ghost use Rattle.plan_exec.specs.Streams.{HasNotGiven, entries_made, pair_course, records_made};

use crate::decoding::record_in;
use crate::entries::entry_in;
use crate::entry::Entry;
use crate::error::ExecError;
use crate::packing::push_record;
use crate::readers::{EntriesOf, RecordsOf};
use crate::streams::{PairStream, Stream};
use kv_core::Pair;
use metadata::Record;
use packed_rows::Rows;
use txn::{Snapshot, Transaction};

// What a pair stands for: where that is nothing the pair is damaged.
#[inline(always)]
fn or_corrupt<T: Drop>(found: Option<T>, pair: &Pair) -> Result<T, ExecError>
    ensures found { IfOk result (λ made. found ≡ Some made) }
    ensures damaged { IfErr result (IsDamage (or_damaged pair.now.0 found)) }
{
    match found {
        Some(made) => Ok(made),
        None => Err(ExecError::Corrupt(pair.0.copy()?)),
    }
}

// The entry that a pair stands for.
#[inline(always)]
fn entry_of(entries: &EntriesOf<'_>, pair: &Pair) -> Result<Entry, ExecError>
    ensures found { IfOk result (λ entry. stored_entry entries.now.store.now.prefix
        entries.now.definition.now entries.now.index.now pair.now ≡ Some entry) }
    ensures damaged { IfErr result (IsDamage (or_damaged pair.now.0
        (stored_entry entries.now.store.now.prefix entries.now.definition.now entries.now.index.now
        pair.now))) }
{
    let found = entry_in(
        entries.store,
        entries.definition,
        entries.index,
        &entries.form,
        pair,
    )?;
    or_corrupt(found, pair)
}

// The record that a pair stands for.
#[inline(always)]
pub(crate) fn record_of(records: &RecordsOf<'_>, pair: &Pair) -> Result<Record, ExecError>
    ensures found { IfOk result (λ row.
        stored_record records.now.store.now.prefix records.now.definition.value pair.now ≡
        Some row) }
    ensures damaged { IfErr result (IsDamage (or_damaged pair.now.0
        (stored_record records.now.store.now.prefix records.now.definition.value pair.now))) }
{
    let front = records.front.as_slice();
    let found = record_in(records.store, front, &records.definition, pair)?;
    or_corrupt(found, pair)
}

/// The entries of an index in a range.
#[derive(Drop)]
pub(crate) struct EntryStream<'a> {
    pub(crate) pairs: PairStream,
    pub(crate) entries: EntriesOf<'a>,
}

// Each pair is decoded once it is given.
impl Stream for EntryStream<'_> {
    type Found = Entry;

    ghost course = { λ stream pairs. entries_made stream.entries (pair_course stream.pairs pairs) };

    fn next<S: Snapshot>(
        &mut self,
        tx: &mut Transaction,
        db: &S,
    ) -> Result<Option<Entry>, ExecError> {
        match self.pairs.next_place(tx, db)? {
            Some(place) => {
                let entry = entry_of(&self.entries, &self.pairs.batch[place])?;
                Ok(Some(entry))
            }
            None => Ok(None),
        }
    }
}

/// The records of a type in a range.
#[derive(Drop)]
pub(crate) struct RecordStream<'a> {
    pub(crate) pairs: PairStream,
    pub(crate) records: &'a RecordsOf<'a>,
}

impl RecordStream<'_> {
    /// Adds the cells of the next record to those that were given, and tells whether there was one.
    pub(crate) fn next_packed<S: Snapshot>(
        &mut self,
        tx: &mut Transaction,
        db: &S,
        given: &mut Rows,
    ) -> Result<bool, ExecError>
        ensures packed { IfOk result (λ more. HasPacked (S.map_at db.now)
            (λ pairs. records_made self.old.records.now (pair_course self.old.pairs pairs))
            given.old more given.new
            (λ pairs. records_made self.new.records.now (pair_course self.new.pairs pairs))
            tx.old tx.new) }
        ensures stopped { IfErr result (λ error. HasNotGiven (S.map_at db.now)
            (S.may_refuse db.now)
            (λ pairs. records_made self.old.records.now (pair_course self.old.pairs pairs)) error
            tx.old tx.new) }
    {
        match self.pairs.next_place(tx, db)? {
            Some(place) => {
                push_record(self.records, &self.pairs.batch[place], given)?;
                Ok(true)
            }
            None => Ok(false),
        }
    }
}

// Each pair is decoded once it is given.
impl Stream for RecordStream<'_> {
    type Found = Record;

    ghost course = { λ stream pairs.
        records_made stream.records.now (pair_course stream.pairs pairs) };

    fn next<S: Snapshot>(
        &mut self,
        tx: &mut Transaction,
        db: &S,
    ) -> Result<Option<Record>, ExecError> {
        match self.pairs.next_place(tx, db)? {
            Some(place) => {
                let row = record_of(self.records, &self.pairs.batch[place])?;
                Ok(Some(row))
            }
            None => Ok(None),
        }
    }
}
