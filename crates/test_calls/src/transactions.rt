// Steps of transactions over one map. Run as a test.
use crate::maps::has_value;
use kv_core::{Bytes, KeyRange, KvMap, Mutation, Pair};
use std::alloc::Global;
use std::mem;
use std::test::Fail;
use test_parts::{
    Watched, are_mutations, are_pairs, are_ranges, bytes_of, holds, mutation_of, mutations_of,
    pairs_of, range_of, tells,
};
use txn::{RangeCursor, Transaction};

/// What is done with a transaction: a step takes a number and a text.
#[derive(Clone, Copy)]
enum Step {
    /// Begins anew, over a map with the text's pairs.
    New,
    /// Sets the pair, or clears the range, of the text.
    One,
    /// Adds all mutations of the text, or none.
    Write,
    Get,
    /// Reads the range of the text up to the limit of the number, from the front or from the back.
    Range,
    Back,
    /// Reads the whole range of the text.
    All,
    /// Reads the range of the text by a cursor, from the front or from the back, in batches of these
    /// sizes.
    Batches,
    BackBatches,
    /// Ends the transaction and asks for the ranges that it read, for its mutations, or for their number.
    Reads,
    Mutations,
    Length,
    /// Asks how often the map was read.
    Count,
    /// Puts so many numbered keys into the map.
    Fill,
    /// Clears so many of them one by one.
    ClearEach,
    /// Sets so many pairs of 100,000 bytes each.
    SetLarge,
}

use Step::{
    All, Back, BackBatches, Batches, ClearEach, Count, Fill, Get, Length, Mutations, New, One,
    Range, Reads, SetLarge, Write,
};

type Row = (Step, usize, &'static str, &'static str);

const NINE: &str = "61=01 62=02 63=03 64=04 65=05 66=06 67=07 68=08 69=09";

/// The pairs of the keys numbered from 1,000 on.
const BEHIND_A_THOUSAND: &str = "61000003e8= 61000003e9= 61000003ea= 61000003eb= 61000003ec= \
    61000003ed= 61000003ee= 61000003ef= 61000003f0= 61000003f1=";

/// Steps, and what is told of each.
static STEPS: [Row; 109] = [
    // Own writes are seen.
    (New, 0, "61=61 62=62 63=63", ""),
    (One, 0, "64=00", "Ok(())"),
    (One, 0, "62-63", "Ok(())"),
    (Back, 2, "61-65", "64=00 63=63"),
    (Get, 0, "62", "none"),
    (Get, 0, "62", "none"),
    (Reads, 0, "", "63-65 62-6200"),
    // The range read is whole below the limit.
    (New, 0, "61=61 63=63", ""),
    (One, 0, "62=00", "Ok(())"),
    (Range, 2, "61-65", "61=61 62=00"),
    (Range, 4, "61-65", "61=61 62=00 63=63"),
    (Reads, 0, "", "61-6200 61-65"),
    // All pairs of a range are read.
    (New, 0, "61=61 62=62 63=63", ""),
    (All, 0, "61-64", "61=61 62=62 63=63"),
    (One, 0, "64=00", "Ok(())"),
    (One, 0, "62-63", "Ok(())"),
    (All, 0, "62-65", "63=63 64=00"),
    (All, 0, "70-80", ""),
    (Reads, 0, "", "61-64 62-65 70-80"),
    // Sums stand over stored values.
    (New, 0, "61=61", ""),
    (Write, 0, "61+ff 61+02 61+0101", "Ok(())"),
    (Get, 0, "61", "6301"),
    (One, 0, "61-62", "Ok(())"),
    (Get, 0, "61", "none"),
    (Mutations, 0, "", "61+ff 61+02 61+0101 61-62"),
    // All mutations or none.
    (New, 0, "", ""),
    (Write, 0, "61= ff=", "Err(KeyOutside)"),
    (Mutations, 0, "", ""),
    // A refused mutation leaves the others.
    (New, 0, "", ""),
    (One, 0, "61=01", "Ok(())"),
    (One, 0, "ff=", "Err(KeyOutside)"),
    (Write, 0, "62+01 63-64", "Ok(())"),
    (Get, 0, "61", "01"),
    (Reads, 0, "", "61-6100"),
    // Nothing is kept of an ended transaction.
    (Get, 0, "61", "none"),
    (Mutations, 0, "", ""),
    (One, 0, "61=01", "Ok(())"),
    (Write, 0, "62+01 63-64", "Ok(())"),
    (Mutations, 0, "", "61=01 62+01 63-64"),
    (Reads, 0, "", ""),
    // The snapshot is read once for a range, unless keys are cleared of which it has pairs, and then once more behind
    // them.
    (New, 0, NINE, ""),
    (One, 0, "61-61", "Ok(())"),
    (One, 0, "6b=00", "Ok(())"),
    (Range, 3, "61-70", "61=01 62=02 63=03"),
    (Count, 0, "", "1"),
    (New, 0, NINE, ""),
    (One, 0, "61-68", "Ok(())"),
    (One, 0, "6b=00", "Ok(())"),
    (Range, 1, "61-70", "68=08"),
    (Count, 0, "", "2"),
    (New, 0, NINE, ""),
    (One, 0, "61-68", "Ok(())"),
    (One, 0, "6b=00", "Ok(())"),
    (Range, 9, "61-70", "68=08 69=09 6b=00"),
    (Count, 0, "", "2"),
    (New, 0, NINE, ""),
    (One, 0, "61-68", "Ok(())"),
    (One, 0, "6b=00", "Ok(())"),
    (Range, 10, "61-70", "68=08 69=09 6b=00"),
    (Count, 0, "", "1"),
    (New, 0, NINE, ""),
    (One, 0, "63-70", "Ok(())"),
    (One, 0, "6b=00", "Ok(())"),
    (Back, 1, "61-6b", "62=02"),
    (Count, 0, "", "2"),
    (New, 0, NINE, ""),
    (One, 0, "6a-70", "Ok(())"),
    (One, 0, "6b=00", "Ok(())"),
    (Back, 1, "61-70", "6b=00"),
    (Count, 0, "", "1"),
    (New, 0, NINE, ""),
    (One, 0, "61-70", "Ok(())"),
    (One, 0, "6b=00", "Ok(())"),
    (Range, 2, "61-70", "6b=00"),
    (Count, 0, "", "1"),
    // A thousand keys are cleared one by one, and ten pairs behind them are found in few reads.
    (New, 0, "", ""),
    (Fill, 1_010, "", ""),
    (ClearEach, 1_000, "", ""),
    (Range, 10, "61-62", BEHIND_A_THOUSAND),
    (Count, 0, "", "7"),
    // A cursor reads 64 pairs at a time, and its last batch has fewer.
    (New, 0, "", ""),
    (Fill, 200, "", ""),
    (Batches, 0, "61-62", "64 64 64 8"),
    (Count, 0, "", "4"),
    (New, 0, "", ""),
    (Fill, 128, "", ""),
    (Batches, 0, "61-62", "64 64 0"),
    (Count, 0, "", "3"),
    (BackBatches, 0, "61-62", "64 64 0"),
    (Count, 0, "", "6"),
    (Batches, 0, "63-64", "0"),
    (Count, 0, "", "7"),
    (New, 0, "", ""),
    (Fill, 65, "", ""),
    (Batches, 0, "61-62", "64 1"),
    (Reads, 0, "", "61-610000003f00 610000003f00-62"),
    (BackBatches, 0, "61-62", "64 1"),
    (Reads, 0, "", "6100000001-62 61-6100000001"),
    // It sees what the transaction has written.
    (New, 0, "", ""),
    (Fill, 65, "", ""),
    (One, 0, "6100000000-6100000002", "Ok(())"),
    (One, 0, "61000000ff=01", "Ok(())"),
    (Batches, 0, "61-62", "64 0"),
    (Reads, 0, "", "61-61000000ff00 61000000ff00-62"),
    // A transaction has as many bytes as it may have.
    (New, 0, "", ""),
    (SetLarge, 100, "", ""),
    (One, 0, "64=", "Err(TransactionTooLarge)"),
    (One, 0, "ff=", "Err(KeyOutside)"),
    (Length, 0, "", "100"),
];

#[derive(Drop)]
struct Trial {
    db: Watched,
    transaction: Transaction,
}

fn begun(alloc: Global, pairs: &str) -> Result<Trial, Fail> {
    let map = KvMap::from_pairs(alloc, pairs_of(alloc, pairs)?)?;
    Ok(Trial {
        db: Watched::new(map),
        transaction: Transaction::begin(alloc, 0),
    })
}

/// A pair that is set, or a range that is cleared, of which a transaction tells this.
fn write_one(
    alloc: Global,
    tx: &mut Transaction,
    mutation: Mutation,
    told: &str,
) -> Result<(), Fail> {
    match mutation {
        Mutation::Set { key, value } => tells(alloc, &tx.set(key, value), told),
        Mutation::ClearRange(range) => tells(alloc, &tx.clear_range(range), told),
        Mutation::Add { .. } | Mutation::CompareAndClear { .. } => {
            Err(Fail::from("no pair and no range"))
        }
    }
}

impl Trial {
    fn write(&mut self, alloc: Global, text: &str, told: &str) -> Result<(), Fail> {
        let mutations = mutations_of(alloc, text)?;
        tells(alloc, &self.transaction.write_all(mutations), told)
    }

    fn get(&mut self, alloc: Global, key: &str, told: &str) -> Result<(), Fail> {
        let key = bytes_of(alloc, key)?;
        if !key.is_key() {
            return Err(Fail::from("no key"));
        }
        let value = self.transaction.get(&self.db, &key)?;
        has_value(alloc, value.as_ref(), told)
    }

    fn range(
        &mut self,
        alloc: Global,
        range: &str,
        limit: usize,
        reverse: bool,
    ) -> Result<Vec<Pair>, Fail> {
        let range = range_of(alloc, range)?;
        let limit = limit.max(1);
        Ok(
            self.transaction
                .get_range(&self.db, &range, limit, reverse)?,
        )
    }

    fn all(&mut self, alloc: Global, range: &str) -> Result<Vec<Pair>, Fail> {
        let range = range_of(alloc, range)?;
        Ok(self.transaction.get_all(&self.db, &range)?)
    }

    /// Reads from the front, from the back, or the whole range.
    fn read(&mut self, alloc: Global, row: &Row) -> Result<(), Fail> {
        let (step, limit, range, told) = row;
        let pairs = match step {
            Range => self.range(alloc, range, *limit, false)?,
            Back => self.range(alloc, range, *limit, true)?,
            _ => self.all(alloc, range)?,
        };
        are_pairs(alloc, &pairs, told)
    }

    /// The size of a cursor's next batch, or None at its end.
    fn size(&mut self, cursor: &mut RangeCursor) -> Result<Option<usize>, Fail> {
        match cursor.next(&mut self.transaction, &self.db)? {
            Some(batch) => Ok(Some(batch.len())),
            None => Ok(None),
        }
    }

    /// Reads by a cursor, whose batches have these sizes.
    fn batches(
        &mut self,
        alloc: Global,
        range: &str,
        reverse: bool,
        sizes: &str,
    ) -> Result<(), Fail> {
        let mut cursor = RangeCursor::new(range_of(alloc, range)?, reverse);
        for size in sizes.split_whitespace() {
            match self.size(&mut cursor)? {
                Some(found) => tells(alloc, &found, size)?,
                None => return Err(Fail::from("too few batches")),
            }
        }
        holds(self.size(&mut cursor)?.is_none(), sizes)
    }

    /// Ends the transaction, begins another one, and says what is asked of the ended one.
    fn end(&mut self, alloc: Global, step: Step, told: &str) -> Result<(), Fail> {
        let ended = mem::replace(&mut self.transaction, Transaction::begin(alloc, 0));
        let request = ended.into_request();
        match step {
            Reads => are_ranges(alloc, request.reads.as_slice(), told),
            Mutations => are_mutations(alloc, request.mutations.as_slice(), told),
            _ => tells(alloc, &request.mutations.as_slice().len(), told),
        }
    }
}

fn numbered_key(alloc: Global, number: u32) -> Result<Bytes, Fail> {
    let mut key = vec![in alloc; 0x61]?;
    key.extend_from_slice(number.to_be_bytes().as_slice())?;
    Ok(Bytes::new(key))
}

/// What is done with the key of a number: it is cleared, or set with a value of 100,000 bytes, or with the empty one.
fn numbered(alloc: Global, step: Step, number: u32) -> Result<Mutation, Fail> {
    let key = numbered_key(alloc, number)?;
    let length = match step {
        ClearEach if key.is_key() => return Ok(Mutation::ClearRange(KeyRange::point(alloc, &key)?)),
        SetLarge => 99_995,
        _ => 0,
    };
    let value = Bytes::new(vec![in alloc; 0; length]?);
    Ok(Mutation::Set { key, value })
}

/// Has so many numbered keys filled, cleared or set.
fn repeat(alloc: Global, trial: &mut Trial, step: Step, count: usize) -> Result<(), Fail> {
    for number in 0..u32::try_from(count)? {
        let mutation = numbered(alloc, step, number)?;
        match step {
            Fill => trial.db.map.apply(&mutation)?,
            _ => write_one(alloc, &mut trial.transaction, mutation, "Ok(())")?,
        }
    }
    Ok(())
}

fn renew(alloc: Global, trial: &mut Trial, pairs: &str) -> Result<(), Fail> {
    *trial = begun(alloc, pairs)?;
    Ok(())
}

fn take(alloc: Global, trial: &mut Trial, row: &Row) -> Result<(), Fail> {
    let (step, number, text, told) = row;
    match step {
        New => renew(alloc, trial, text),
        One => write_one(
            alloc,
            &mut trial.transaction,
            mutation_of(alloc, text)?,
            told,
        ),
        Write => trial.write(alloc, text, told),
        Get => trial.get(alloc, text, told),
        Range | Back | All => trial.read(alloc, row),
        Batches => trial.batches(alloc, text, false, told),
        BackBatches => trial.batches(alloc, text, true, told),
        Count => tells(alloc, &trial.db.reads(), told),
        Reads | Mutations | Length => trial.end(alloc, *step, told),
        Fill | ClearEach | SetLarge => repeat(alloc, trial, *step, *number),
    }
}

#[test]
fn transactions_take_steps(rt: HostRuntime) -> Result<(), Fail> {
    let mut trial = begun(rt.alloc(), "")?;
    for row in &STEPS {
        take(rt.alloc(), &mut trial, row)?;
    }
    Ok(())
}
