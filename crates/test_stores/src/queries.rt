// Queries each of whose reads is refused in turn, in a transaction that has written. Run as a test.
use crate::scene::{command_of, is_told, line_of};
use cluster_core::ReadError;
use kv_core::KvMap;
use std::alloc::Global;
use std::test::Fail;
use test_parts::{Watched, alike, are_mutations, tells};
use txn::{FailAt, Snapshot, Transaction};

/// The steps that make the store that stands, and those of the transaction before it queries.
static MADE: [&str; 4] = [
    r#"["create",0,{"types":[{"name":"t","fields":[["k","int"],["a","int"],["b","int"]],"key":["k"]}],"indexes":[{"name":"by_a","kind":"value","type":"t","columns":["a"]},{"name":"by_b","kind":"value","type":"t","columns":["b"]}]}]"#,
    r#"["save",0,"t",[1,1,2]]"#,
    r#"["save",0,"t",[2,1,3]]"#,
    r#"["save",0,"t",[3,9,2]]"#,
];

static OWN: [&str; 2] = [r#"["save",0,"t",[4,1,2]]"#, r#"["remove",0,"t",[2]]"#];

/// What the transaction writes: the record 4 with its entries, and that 2 goes with its own.
const WRITTEN: &str = "1501150115011504=150415011502 150115021501150115011504= \
    150115021502150215011504= 1501150115011502-150115011501150200 \
    150115021501150115011502-15011502150115011501150200 \
    150115021502150315011502-15011502150215031501150200";

/// A query, how many reads of the snapshot it takes, and its rows. Opening takes two, of the schema and of the states
/// of indexes, then each scan is one, and each record fetched.
static ROWS: [(&str, u64, &str); 6] = [
    (
        r#"["query",0,{"type":"t"}]"#,
        3,
        "rows [[1,1,2],[3,9,2],[4,1,2]]",
    ),
    (
        r#"["query",0,{"type":"t","filter":["=","a",1]}]"#,
        5,
        "rows [[1,1,2],[4,1,2]]",
    ),
    (
        r#"["query",0,{"type":"t","filter":["<","a",5],"sort":["a"],"reverse":true}]"#,
        5,
        "rows [[4,1,2],[1,1,2]]",
    ),
    (
        r#"["query",0,{"type":"t","filter":["or",["=","a",9],["=","b",2]]}]"#,
        8,
        "rows [[1,1,2],[3,9,2],[4,1,2]]",
    ),
    (
        r#"["query",0,{"type":"t","filter":["and",["=","a",1],["=","b",2]]}]"#,
        6,
        "rows [[1,1,2],[4,1,2]]",
    ),
    (
        r#"["query",0,{"type":"t","filter":["and",["=","a",1],["!=","k",1]]}]"#,
        5,
        "rows [[4,1,2]]",
    ),
];

/// How many records there are, a query of one of them, and how many reads it takes: a range is read
/// 64 pairs at a time, until a read finds fewer.
static LONG: [(u32, &str, &str); 4] = [
    (
        200,
        r#"["query",0,{"type":"t","filter":["not",["!=","k",5]]}]"#,
        "6",
    ),
    (
        128,
        r#"["query",0,{"type":"t","filter":["not",["!=","k",5]]}]"#,
        "5",
    ),
    (
        63,
        r#"["query",0,{"type":"t","filter":["not",["!=","k",5]]}]"#,
        "3",
    ),
    (
        65,
        r#"["query",0,{"type":"t","filter":["and",["=","a",7],["not",["!=","k",5]]]}]"#,
        "69",
    ),
];

/// Performs the command of a step: the line that it makes.
fn answer<S: Snapshot>(
    alloc: Global,
    db: &S,
    tx: &mut Transaction,
    step: &str,
) -> Result<String, Fail> {
    let command = command_of(alloc, step)?;
    line_of(alloc, db, tx, &command)
}

/// Performs the command of a step, which must make this line.
fn answers<S: Snapshot>(
    alloc: Global,
    db: &S,
    tx: &mut Transaction,
    step: &str,
    told: &str,
) -> Result<(), Fail> {
    let line = answer(alloc, db, tx, step)?;
    is_told(alloc, line.as_str(), told)
}

/// Performs the commands of steps, whatever they reply: what they wrote is compared later.
fn accepted<S: Snapshot>(
    alloc: Global,
    db: &S,
    tx: &mut Transaction,
    steps: &[&'static str],
) -> Result<(), Fail> {
    for step in steps {
        let _line = answer(alloc, db, tx, step)?;
    }
    Ok(())
}

/// What a transaction makes of a map.
fn committed(db: KvMap, tx: Transaction) -> Result<KvMap, Fail> {
    let request = tx.into_request();
    Ok(db.with_all(request.mutations.as_slice())?)
}

/// The store that stands.
fn stored(alloc: Global) -> Result<KvMap, Fail> {
    let db = KvMap::new(alloc);
    let mut tx = Transaction::begin(alloc, 0);
    accepted(alloc, &db, &mut tx, &MADE)?;
    committed(db, tx)
}

/// A transaction over it that has written.
fn written(alloc: Global, map: &KvMap) -> Result<Transaction, Fail> {
    let mut tx = Transaction::begin(alloc, 0);
    accepted(alloc, map, &mut tx, &OWN)?;
    Ok(tx)
}

fn has_written(alloc: Global, tx: Transaction) -> Result<(), Fail> {
    let request = tx.into_request();
    are_mutations(alloc, request.mutations.as_slice(), WRITTEN)
}

/// The read of this number is refused: so is the query, and it is answered when it is performed again. The
/// transaction's writes stay.
fn refused_at(alloc: Global, map: &KvMap, at: u64, row: &(&str, u64, &str)) -> Result<(), Fail> {
    let (query, _, rows) = row;
    let mut tx = written(alloc, map)?;
    let db = FailAt::new(map, at, ReadError::TooOld);
    answers(alloc, &db, &mut tx, query, "refused TooOld")?;
    answers(alloc, &db, &mut tx, query, rows)?;
    has_written(alloc, tx)
}

/// Each read of a query is refused in turn.
fn each_refused(alloc: Global, map: &KvMap, row: &(&str, u64, &str)) -> Result<(), Fail> {
    for read in 0..row.1 {
        refused_at(alloc, map, read + 1, row)?;
    }
    Ok(())
}

/// A query takes so many reads.
fn reads_taken(alloc: Global, row: &(&str, u64, &str)) -> Result<(), Fail> {
    let (query, reads, rows) = row;
    let map = stored(alloc)?;
    let mut tx = written(alloc, &map)?;
    let db = Watched::new(map);
    answers(alloc, &db, &mut tx, query, rows)?;
    alike(alloc, &db.reads(), reads)
}

#[test]
fn refused_queries_leave_transactions(rt: HostRuntime) -> Result<(), Fail> {
    let map = stored(rt.alloc())?;
    for row in &ROWS {
        reads_taken(rt.alloc(), row)?;
        each_refused(rt.alloc(), &map, row)?;
    }
    Ok(())
}

fn save_all(alloc: Global, db: &KvMap, tx: &mut Transaction, records: u32) -> Result<(), Fail> {
    for key in 0..records {
        let step = format!(in alloc; "[\"save\",0,\"t\",[{key},7,8]]")?;
        answers(alloc, db, tx, step.as_str(), "saved new")?;
    }
    Ok(())
}

/// A store of so many records.
pub(crate) fn filled(alloc: Global, records: u32) -> Result<KvMap, Fail> {
    let db = KvMap::new(alloc);
    let mut tx = Transaction::begin(alloc, 0);
    accepted(alloc, &db, &mut tx, &MADE[..1])?;
    save_all(alloc, &db, &mut tx, records)?;
    committed(db, tx)
}

/// A query over so many records takes so many reads.
fn batches_taken(alloc: Global, row: &(u32, &str, &str)) -> Result<(), Fail> {
    let (records, query, reads) = row;
    let db = Watched::new(filled(alloc, *records)?);
    let mut tx = Transaction::begin(alloc, 0);
    answers(alloc, &db, &mut tx, query, "rows [[5,7,8]]")?;
    tells(alloc, &db.reads(), reads)
}

#[test]
fn long_ranges_are_read_in_batches(rt: HostRuntime) -> Result<(), Fail> {
    for row in &LONG {
        batches_taken(rt.alloc(), row)?;
    }
    Ok(())
}
