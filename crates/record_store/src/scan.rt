// The scan of a type's records. No command asks for it: tests call it. Its decoding is used by
// `adding` and `parts`, its list of records by `plan_exec` and `schedule`.
ghost use Rattle.std.specs.Prelude.{◌≡◌, ◌++◌, IfOk, IfErr, MatchOption};
ghost use Rattle.tuple_codec.specs.Subspace.{BeginsWith};
ghost use Rattle.record_store.specs.Call.{IsAnswered, IsRefused};
ghost use Rattle.record_store.specs.Calls.{records_call};
ghost use Rattle.record_store.specs.Reading.{ArePairsOfRecords, HaveNoRecords, IsPairOf};
ghost use Rattle.record_store.specs.Reading.{IsPairOfNone};

use crate::error::StoreError;
use crate::layout::{place, type_range};
use crate::store::Store;
use kv_core::Pair;
use metadata::{PLACE_OF_RECORDS, Record, TypeDefinition};
use std::alloc::Global;
use std::marker::Model;
use tuple_codec::Text;
use txn::{Snapshot, Transaction};

/// Records, in order.
pub struct Records {
    records: Vec<Record>,
}

// Written out, so that no proof of a caller has to take its parts apart where one is dropped.
impl Drop for Records {
    fn drop(self) {
        let Records { records } = self;
        drop(records);
    }
}

impl Model for Records {
    ghost use Rattle.std.specs.Prelude.{List};
    ghost use Rattle.metadata.specs.Record.{Record};

    ghost Value = { List Record };

    ghost view = { λ r. r.records.items };
}

impl Records {
    /// The list of these records.
    pub fn new(records: Vec<Record>) -> Records
        ensures { result ≡ records.items }
    {
        Records { records }
    }

    /// The records.
    pub fn as_slice(&self) -> &[Record]
        ensures { result.now ≡ self.now }
    {
        self.records.as_slice()
    }

    /// The records, handed back.
    pub fn into_vec(self) -> Vec<Record>
        ensures { result.items ≡ self }
    {
        let Records { records } = self;
        records
    }
}

// What stands after the place in a key.
pub(crate) fn behind<'a>(place: &[u8], key: &'a [u8]) -> Option<&'a [u8]>
    ensures { MatchOption result (BeginsWith place.now key.now → ⊥) (λ rest. key.now ≡ place.now ++ rest.now) }
{
    key.strip_prefix(place)
}

// The record of the type that a pair after the place of records stands for.
fn record_in(
    alloc: Global,
    place: &[u8],
    definition: &TypeDefinition,
    pair: &Pair,
) -> Result<Record, StoreError>
    ensures found { IfOk result (IsPairOf place.now definition.now pair.now) }
    ensures refused { IfErr result (IsPairOfNone place.now definition.now pair.now) }
{
    match behind(place, pair.0.as_slice()) {
        Some(primary_key) => {
            match Record::decode(alloc, definition, primary_key, pair.1.as_slice())? {
                Some(found) => Ok(found),
                None => Err(StoreError::Corrupt(pair.0.copy()?)),
            }
        }
        None => Err(StoreError::Corrupt(pair.0.copy()?)),
    }
}

// The records of the type that pairs after the place of records stand for.
pub(crate) fn records_in(
    alloc: Global,
    place: &[u8],
    definition: &TypeDefinition,
    pairs: &[Pair],
) -> Result<Vec<Record>, StoreError>
    ensures found { IfOk result (λ records. ArePairsOfRecords place.now definition.now pairs.now records.items) }
    ensures refused { IfErr result (HaveNoRecords place.now definition.now pairs.now) }
{
    let mut records = Vec::new(alloc);
    for pair in pairs {
        let found = record_in(alloc, place, definition, pair)?;
        records.push(found)?;
    }
    Ok(records)
}

impl Store {
    /// The records of the type of this name, in the order of their primary keys.
    ///
    /// Refused with `UnknownType` before anything is read; then with the snapshot's refusal of the
    /// read, and with `Corrupt` and the key of the first record whose pair isn't of the written
    /// form.
    pub fn records<S: Snapshot>(
        &self,
        tx: &mut Transaction,
        db: &S,
        type_name: &Text,
    ) -> Result<Records, StoreError>
        ensures found { IfOk result (λ rows.
            IsAnswered (S.map_at db.now) self.now (records_call self.now type_name.now) rows tx.old tx.new) }
        ensures refused { IfErr result (λ error.
            IsRefused (S.map_at db.now) (S.may_refuse db.now) self.now
            (records_call self.now type_name.now) error tx.old tx.new) }
    {
        let definition = self.definition(type_name)?;
        let range = type_range(self.alloc(), self.prefix(), definition.number)?;
        let pairs = tx.get_all(db, &range)?;
        let place = place(self.alloc(), self.prefix(), PLACE_OF_RECORDS)?;
        let records = records_in(self.alloc(), place.as_slice(), definition, pairs.as_slice())?;
        Ok(Records::new(records))
    }
}
