//! Queries in a transaction that has written, and commands of clients of a cluster, each of which is
//! asked again where memory runs out. A tool has each of its allocations fail in turn, and compares
//! what it prints.
#![tactic(auto)]

mod asking;
mod scene;
mod worked;

use asking::ask;
use kv_core::{CommitRequest, KvMap};
use scene::{OWN, QUERIES, WRITTEN, commands, perform_all, stored};
use schedule::Command;
use std::alloc::Global;
use std::test::Fail;
use test_parts::{alike, mutations_of};
use txn::Transaction;
use worked::ask_rows;

/// Asks each query, and prints its line.
fn ask_each(
    rt: &HostRuntime,
    db: &KvMap,
    tx: &mut Transaction,
    queries: &[Command],
) -> Result<(), Fail> {
    for query in queries {
        let line = ask(rt.alloc(), db, tx, query)?;
        rt.print(line)?;
    }
    Ok(())
}

/// Fails where the transaction hasn't written just what it wrote before it asked.
fn compare(alloc: Global, request: &CommitRequest) -> Result<(), Fail> {
    let wanted = mutations_of(alloc, WRITTEN)?;
    alike(alloc, &request.mutations.as_slice(), &wanted.as_slice())
}

/// A transaction that has written what it writes before it asks.
fn begun(alloc: Global, db: &KvMap) -> Result<Transaction, Fail> {
    let mut tx = Transaction::begin(alloc, 0);
    perform_all(alloc, db, &mut tx, OWN)?;
    Ok(tx)
}

/// Has a transaction over the store ask all queries.
fn asked(rt: &HostRuntime, db: &KvMap) -> Result<Transaction, Fail> {
    let mut tx = begun(rt.alloc(), db)?;
    let queries = commands(rt.alloc(), QUERIES)?;
    ask_each(rt, db, &mut tx, queries.as_slice())?;
    Ok(tx)
}

fn main(rt: HostRuntime) -> Result<(), Fail> {
    let alloc = rt.alloc();
    let db = stored(alloc)?;
    let tx = asked(&rt, &db)?;
    compare(alloc, &tx.into_request())?;
    ask_rows(&rt)?;
    rt.println("all stands")?;
    Ok(())
}
