// Reads of a snapshot that refuses one of them, whatever was read before. Run as a test.
use cluster_core::ReadError;
use kv_core::{CommitRequest, KvMap};
use std::alloc::Global;
use std::test::Fail;
use test_parts::{are_pairs, are_ranges, mutations_of, range_of, tells};
use txn::{FailAt, Transaction};

/// Which read of the snapshot is refused, and what two reads of the first pair tell, each by two
/// reads of the snapshot.
static ROWS: [(u64, &str, &str); 5] = [
    (1, "TooOld", "68=08"),
    (2, "TooOld", "68=08"),
    (3, "68=08", "TooOld"),
    (4, "68=08", "TooOld"),
    (5, "68=08", "68=08"),
];

/// Whether a read of the first pair tells this.
fn is_told(
    alloc: Global,
    db: &FailAt<'_, KvMap>,
    transaction: &mut Transaction,
    wanted: &str,
) -> Result<(), Fail> {
    let range = range_of(alloc, "61-70")?;
    match transaction.get_range(db, &range, 1, false) {
        Ok(pairs) => are_pairs(alloc, &pairs, wanted),
        Err(error) => tells(alloc, &error, wanted),
    }
}

/// The map of four pairs.
fn stored(alloc: Global) -> Result<KvMap, Fail> {
    let stored = mutations_of(alloc, "61=01 62=02 68=08 69=09")?;
    Ok(KvMap::new(alloc).with_all(stored.as_slice())?)
}

/// A transaction that has cleared some of them, and set one.
fn written(alloc: Global) -> Result<Transaction, Fail> {
    let mut transaction = Transaction::begin(alloc, 0);
    transaction.write_all(mutations_of(alloc, "61-68 6b=00")?)?;
    Ok(transaction)
}

fn has_read(alloc: Global, request: &CommitRequest) -> Result<(), Fail> {
    are_ranges(alloc, request.reads.as_slice(), "61-6800")?;
    tells(alloc, &request.mutations.as_slice().len(), "2")
}

/// The keys of the first pairs are cleared, so that the snapshot is read once more behind them. A
/// refused read leaves the transaction as it was.
fn reads_told(alloc: Global, map: &KvMap, row: &(u64, &str, &str)) -> Result<(), Fail> {
    let (at, first, second) = row;
    let db = FailAt::new(map, *at, ReadError::TooOld);
    let mut transaction = written(alloc)?;
    is_told(alloc, &db, &mut transaction, first)?;
    is_told(alloc, &db, &mut transaction, second)?;
    has_read(alloc, &transaction.into_request())
}

#[test]
fn refused_reads_leave_transactions(rt: HostRuntime) -> Result<(), Fail> {
    let map = stored(rt.alloc())?;
    for row in &ROWS {
        reads_told(rt.alloc(), &map, row)?;
    }
    Ok(())
}
