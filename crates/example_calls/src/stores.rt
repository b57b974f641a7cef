// Stores in a transaction: `record_store`, `online_builder` and `plan_exec`. Called by `main`.
use crate::records::{book, books, many};
use kv_core::KvMap;
use online_builder::{Builder, Progress};
use plan_exec::{execute, plan_for_store};
use planner::Plan;
use record_store::Store;
use std::alloc::Global;
use tuple_codec::Text;
use txn::{Snapshot, Transaction};

/// What each key of the store begins with: the pack of (1).
const PREFIX: [u8; 2] = [0x15, 0x01];

/// Makes a store.
fn make<S: Snapshot>(alloc: Global, tx: &mut Transaction, db: &S) -> Option<Store> {
    Store::create(alloc, &PREFIX, tx, db, &books(alloc)?).ok()
}

/// Opens it.
fn open<S: Snapshot>(alloc: Global, tx: &mut Transaction, db: &S) -> Option<Store> {
    Store::open(alloc, &PREFIX, tx, db).ok()
}

/// Saves a book.
fn save<S: Snapshot>(
    alloc: Global,
    tx: &mut Transaction,
    db: &S,
    store: &Store,
    title: &str,
    copies: i64,
) -> Option<()> {
    let book = book(alloc, store.schema(), title, copies)?;
    store.save(tx, db, &book).ok()?;
    Some(())
}

/// Makes the store, and saves two books.
fn fill<S: Snapshot>(alloc: Global, tx: &mut Transaction, db: &S) -> Option<()> {
    let store = make(alloc, tx, db)?;
    save(alloc, tx, db, &store, "Emma", 3)?;
    save(alloc, tx, db, &store, "Persuasion", 2)
}

/// Has the index built anew, at most ten records a step, and answers how many there were.
fn rebuild<S: Snapshot>(alloc: Global, tx: &mut Transaction, db: &S) -> Option<usize> {
    let name = Text::from_str(alloc, "by_copies").ok()?;
    let mut store = open(alloc, tx, db)?;
    store.mark_write_only(tx, &name).ok()?;
    let built = step(&store, &name, tx, db)?;
    store.mark_readable(tx, db, &name).ok()?;
    Some(built)
}

/// How many records a step builds.
fn step<S: Snapshot>(store: &Store, name: &Text, tx: &mut Transaction, db: &S) -> Option<usize> {
    let builder = Builder::new(name.copy().ok()?, 10);
    match builder.step(store, tx, db).ok()? {
        Progress::Built { records, range: _ } => Some(records),
        Progress::Finished => None,
    }
}

/// The plan of a query over the store.
fn plan(alloc: Global, store: &Store) -> Option<Plan> {
    plan_for_store(alloc, store, &many(alloc, store.schema())?).ok()
}

/// How many books a query finds.
fn found<S: Snapshot>(alloc: Global, tx: &mut Transaction, db: &S) -> Option<usize> {
    let store = open(alloc, tx, db)?;
    let plan = plan(alloc, &store)?;
    Some(execute(&plan, &store, tx, db).ok()?.as_slice().len())
}

/// All of it in one transaction over an empty map.
pub(crate) fn stored(alloc: Global) -> Option<String> {
    let (db, mut tx) = (KvMap::new(alloc), Transaction::begin(alloc, 0));
    fill(alloc, &mut tx, &db)?;
    let (built, found) = (rebuild(alloc, &mut tx, &db)?, found(alloc, &mut tx, &db)?);
    format!(in alloc; "record_store, online_builder, plan_exec: built {built}, found {found}").ok()
}
