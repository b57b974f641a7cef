// Records that are given one by one while they are fetched by entries. Used by `rows` and `opening`.
ghost use Rattle.std.specs.Prelude.{◌≡◌, [], IfErr, IfOk, Some, true};
ghost use Rattle.metadata.specs.Cell.{items_of};
ghost use Rattle.metadata.specs.Layout.{record_key};
ghost use Rattle.plan_exec.specs.Course.{record_course, record_there};
ghost use Rattle.plan_exec.specs.Packing.{HasPacked};
ghost use Rattle.plan_exec.specs.Sources.{source_left};
ghost use Rattle.plan_exec.specs.Streams.{HasGiven, HasNotGiven, HasOnlyRead, records_fetched};

use crate::entry::Entry;
use crate::error::ExecError;
use crate::joined::next_joined;
use crate::keys::record_key;
use crate::level::Level;
use crate::packing::push_record;
use crate::readers::RecordsOf;
use crate::record_streams::{EntryStream, record_of};
use crate::streams::Stream;
use kv_core::Pair;
use metadata::Record;
use packed_rows::Rows;
use txn::{Snapshot, Transaction};

/// The entries by which a fetch finds its records.
#[derive(Drop)]
pub(crate) enum SourceStream<'a> {
    /// Those of one scan.
    Scanned(EntryStream<'a>),
    /// Those of the first of several scans whose primary keys all have.
    Shared(Vec<Level<EntryStream<'a>>>),
}

impl Stream for SourceStream<'_> {
    type Found = Entry;

    ghost course = { source_left };

    fn next<S: Snapshot>(
        &mut self,
        tx: &mut Transaction,
        db: &S,
    ) -> Result<Option<Entry>, ExecError> {
        match self {
            SourceStream::Scanned(entries) => entries.next(tx, db),
            SourceStream::Shared(levels) => next_joined(levels.as_mut_slice(), tx, db),
        }
    }
}

// Reads the pair of an entry's record.
fn record_pair<S: Snapshot>(
    records: &RecordsOf<'_>,
    tx: &mut Transaction,
    db: &S,
    entry: &Entry,
) -> Result<Pair, ExecError>
    ensures key { IfOk result (λ pair.
        pair.0 ≡ record_key records.now.store.now.prefix (items_of entry.now.primary_key)) }
    ensures gone { IfOk result (λ pair. HasOnlyRead (S.map_at db.now)
        (λ pairs. record_course records.now.store.now.prefix pairs records.now.definition.value
        entry.now)
        (λ pairs. record_there records.now.store.now.prefix pairs records.now.definition.value
        entry.now (Some pair.1))
        tx.old tx.new) }
    ensures stopped { IfErr result (λ error. HasNotGiven (S.map_at db.now) (S.may_refuse db.now)
        (λ pairs. record_course records.now.store.now.prefix pairs records.now.definition.value
        entry.now)
        error tx.old tx.new) }
{
    let key = record_key(records.store, records.front.as_slice(), entry)?;
    match tx.get(db, &key)? {
        Some(value) => Ok((key, value)),
        None => Err(ExecError::Corrupt(entry.key().copy()?)),
    }
}

// Reads the record of an entry.
fn fetch_record<S: Snapshot>(
    records: &RecordsOf<'_>,
    tx: &mut Transaction,
    db: &S,
    entry: &Entry,
) -> Result<Record, ExecError>
    ensures given { IfOk result (λ row. HasGiven (S.map_at db.now)
        (λ pairs. record_course records.now.store.now.prefix pairs records.now.definition.value
        entry.now)
        (Some row) (λ pairs. []) tx.old tx.new) }
    ensures stopped { IfErr result (λ error. HasNotGiven (S.map_at db.now) (S.may_refuse db.now)
        (λ pairs. record_course records.now.store.now.prefix pairs records.now.definition.value
        entry.now)
        error tx.old tx.new) }
{
    let pair = record_pair(records, tx, db, entry)?;
    let row = record_of(records, &pair)?;
    Ok(row)
}

// Reads the record of an entry, and adds its cells.
fn fetch_packed<S: Snapshot>(
    records: &RecordsOf<'_>,
    tx: &mut Transaction,
    db: &S,
    entry: &Entry,
    given: &mut Rows,
) -> Result<(), ExecError>
    ensures packed { IfOk result (λ _. HasPacked (S.map_at db.now)
        (λ pairs. record_course records.now.store.now.prefix pairs records.now.definition.value
        entry.now)
        given.old true given.new (λ pairs. []) tx.old tx.new) }
    ensures stopped { IfErr result (λ error. HasNotGiven (S.map_at db.now) (S.may_refuse db.now)
        (λ pairs. record_course records.now.store.now.prefix pairs records.now.definition.value
        entry.now)
        error tx.old tx.new) }
{
    let pair = record_pair(records, tx, db, entry)?;
    push_record(records, &pair, given)?;
    Ok(())
}

/// The records of a source's entries.
#[derive(Drop)]
pub(crate) struct FetchStream<'a> {
    pub(crate) entries: SourceStream<'a>,
    pub(crate) records: &'a RecordsOf<'a>,
}

impl FetchStream<'_> {
    /// Adds the cells of the next record to those that were given, and tells whether there was one.
    pub(crate) fn next_packed<S: Snapshot>(
        &mut self,
        tx: &mut Transaction,
        db: &S,
        given: &mut Rows,
    ) -> Result<bool, ExecError>
        ensures packed { IfOk result (λ more. HasPacked (S.map_at db.now)
            (λ pairs. records_fetched self.old.records.now pairs
            (source_left self.old.entries pairs)) given.old more given.new
            (λ pairs. records_fetched self.new.records.now pairs
            (source_left self.new.entries pairs)) tx.old tx.new) }
        ensures stopped { IfErr result (λ error. HasNotGiven (S.map_at db.now)
            (S.may_refuse db.now)
            (λ pairs. records_fetched self.old.records.now pairs
            (source_left self.old.entries pairs)) error tx.old tx.new) }
    {
        match self.entries.next(tx, db)? {
            Some(entry) => {
                fetch_packed(self.records, tx, db, &entry, given)?;
                Ok(true)
            }
            None => Ok(false),
        }
    }
}

// The record of each entry is read once this is given.
impl Stream for FetchStream<'_> {
    type Found = Record;

    ghost course = { λ stream pairs.
        records_fetched stream.records.now pairs (source_left stream.entries pairs) };

    fn next<S: Snapshot>(
        &mut self,
        tx: &mut Transaction,
        db: &S,
    ) -> Result<Option<Record>, ExecError> {
        match self.entries.next(tx, db)? {
            Some(entry) => {
                let row = fetch_record(self.records, tx, db, &entry)?;
                Ok(Some(row))
            }
            None => Ok(None),
        }
    }
}
