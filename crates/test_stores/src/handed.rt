// Rows of plans that are handed out one by one, all of them or only the first ones. Run as a test.
use crate::queries::filled;
use crate::scene::have_text;
use json_forms::{query_of, value_of};
use kv_core::KvMap;
use metadata::{Cells, Record};
use plan_exec::{ExecError, execute_each, plan_for_store};
use planner::Plan;
use query::Query;
use record_store::Store;
use std::alloc::{AllocError, Global};
use std::test::Fail;
use test_parts::alike;
use txn::Transaction;

/// Under which key the store of commands stands.
const PREFIX: [u8; 2] = [0x15, 0x01];

/// Queries over 130 records, how many rows they have, and the first three of these.
static HANDED: [(&str, usize, &str); 4] = [
    (
        r#"{"type":"t","filter":["or",["<","k",2],[">","k",127]]}"#,
        4,
        "[[0,7,8],[1,7,8],[128,7,8]]",
    ),
    (
        r#"{"type":"t","filter":["and",["=","a",7],["=","b",8],["<","k",4]]}"#,
        4,
        "[[0,7,8],[1,7,8],[2,7,8]]",
    ),
    (
        r#"{"type":"t","filter":["or",[">","a",6],["<","b",0]]}"#,
        130,
        "[[0,7,8],[1,7,8],[2,7,8]]",
    ),
    (
        r#"{"type":"t","filter":["<","k",3],"sort":["k"],"reverse":true}"#,
        3,
        "[[2,7,8],[1,7,8],[0,7,8]]",
    ),
];

/// The query that a text asks for.
fn asked(alloc: Global, text: &str) -> Result<Query, Fail> {
    let value = value_of(alloc, text.as_bytes())?;
    Ok(query_of(alloc, &value)?)
}

/// An open store, and the plan of a query over it.
fn planned(
    alloc: Global,
    tx: &mut Transaction,
    db: &KvMap,
    query: &Query,
) -> Result<(Store, Plan), Fail> {
    let store = Store::open(alloc, &PREFIX, tx, db)?;
    query.check(store.schema())?;
    let plan = plan_for_store(alloc, &store, query)?.copy(alloc)?;
    Ok((store, plan))
}

/// The cells of the rows that are handed out before a closure takes no more.
fn first_rows(
    alloc: Global,
    db: &KvMap,
    query: &Query,
    most: usize,
) -> Result<(Vec<Cells>, Result<(), ExecError>), Fail> {
    let mut tx = Transaction::begin(alloc, 0);
    let (store, plan) = planned(alloc, &mut tx, db, query)?;
    Ok(taken(alloc, db, &mut tx, &store, &plan, most))
}

fn taken(
    alloc: Global,
    db: &KvMap,
    tx: &mut Transaction,
    store: &Store,
    plan: &Plan,
    most: usize,
) -> (Vec<Cells>, Result<(), ExecError>) {
    let mut rows = Vec::new(alloc);
    let ended = execute_each(
        plan,
        store,
        tx,
        db,
        &mut |row: Record| {
            if rows.len() == most {
                return Err(AllocError);
            }
            rows.push(row.cells().copy()?)?;
            Ok(())
        },
    );
    (rows, ended)
}

/// All rows are handed out.
fn all_are_handed_out(
    alloc: Global,
    db: &KvMap,
    query: &Query,
    row: &(&str, usize, &str),
) -> Result<(), Fail> {
    let (mut rows, ended) = first_rows(alloc, db, query, 1000)?;
    ended?;
    alike(alloc, &rows.len(), &row.1)?;
    rows.truncate(3);
    have_text(alloc, rows.as_slice(), row.2)
}

/// Three of them alone are, where no more are taken, and then it is told that they weren't all.
fn three_are_handed_out(
    alloc: Global,
    db: &KvMap,
    query: &Query,
    row: &(&str, usize, &str),
) -> Result<(), Fail> {
    let (rows, ended) = first_rows(alloc, db, query, 3)?;
    have_text(alloc, rows.as_slice(), row.2)?;
    alike(alloc, &ended.is_err(), &(row.1 > 3))
}

fn are_handed_out(alloc: Global, db: &KvMap, row: &(&str, usize, &str)) -> Result<(), Fail> {
    let query = asked(alloc, row.0)?;
    all_are_handed_out(alloc, db, &query, row)?;
    three_are_handed_out(alloc, db, &query, row)
}

#[test]
fn rows_are_handed_out(rt: HostRuntime) -> Result<(), Fail> {
    let db = filled(rt.alloc(), 130)?;
    for row in &HANDED {
        are_handed_out(rt.alloc(), &db, row)?;
    }
    Ok(())
}
