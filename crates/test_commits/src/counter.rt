// The transactions on the record that counts. Called by `adding` and `replies`.
use metadata::{Cell, Cells};
use runtime::{Client, CommandError, CommitError, Done, End, Txn, begin};
use schedule::Step;
use script::script_of;
use std::alloc::Global;
use std::sync::Wait;
use tuple_codec::Text;

/// Makes the store, which sums what its records count.
const MADE: &str = r#"{"steps":[["create",0,{"types":[
    {"name":"t","fields":[["k","int"],["n","int"]],"key":["k"]}
],"indexes":[{"name":"tot","kind":"sum","type":"t","columns":[],"summed":"n"}]}]]}"#;

/// The record that counts, and one that is saved so that something is committed.
const COUNTER: i64 = 1;

const OTHER: i64 = 2;

/// What is known of a transaction that was tried.
#[derive(Clone, Copy, PartialEq)]
pub(crate) enum Tried {
    /// It is committed.
    Committed,
    /// It was submitted, and its reply is lost.
    Lost,
    /// Nothing of it is committed.
    Failed,
}

/// How a commit ended.
fn ended_as(ended: Result<Done, CommitError>) -> Tried {
    match ended {
        Ok(_) => Tried::Committed,
        Err(CommitError::Unknown) => Tried::Lost,
        Err(_) => Tried::Failed,
    }
}

/// Performs the commands of `MADE`.
fn create<E: End>(alloc: Global, tx: &mut Txn<'_, E>) -> Result<(), CommandError> {
    let script = script_of(alloc, MADE.as_bytes()).map_err(|_| CommandError::Memory)?;
    for step in script.steps {
        if let Step::Perform(_, command) = step {
            tx.call(&command)?;
        }
    }
    Ok(())
}

/// What a record counts, or 0 where there is none.
fn count_of<E: End>(alloc: Global, tx: &mut Txn<'_, E>, key: i64) -> Result<i64, CommandError> {
    let name = Text::from_str(alloc, "t")?;
    let found = tx.load(name, Cells::new(vec![in alloc; Cell::Int(key)]?))?;
    Ok(found.map_or(0, |cells| count_in(&cells)))
}

/// What a record with these cells counts.
fn count_in(cells: &Cells) -> i64 {
    match cells.as_slice() {
        [_, Cell::Int(count)] => *count,
        _ => 0,
    }
}

/// Saves what a record counts.
fn save<E: End>(
    alloc: Global,
    tx: &mut Txn<'_, E>,
    key: i64,
    count: i64,
) -> Result<(), CommandError> {
    let name = Text::from_str(alloc, "t")?;
    tx.save(
        name,
        Cells::new(vec![in alloc; Cell::Int(key), Cell::Int(count)]?),
    )?;
    Ok(())
}

/// Adds one.
fn add_one<E: End>(alloc: Global, tx: &mut Txn<'_, E>) -> Result<(), CommandError> {
    let count = count_of(alloc, tx, COUNTER)?;
    save(alloc, tx, COUNTER, count.saturating_add(1))
}

/// Makes the store, in one transaction.
pub(crate) fn make_store<E: End, R: Wait>(rt: &R, alloc: Global, client: &mut Client<E>) -> Tried {
    let Ok(mut tx) = begin(client) else {
        return Tried::Failed;
    };
    match create(alloc, &mut tx) {
        Ok(()) => ended_as(tx.commit(rt)),
        Err(_) => Tried::Failed,
    }
}

/// Adds one, in one transaction.
pub(crate) fn add<E: End, R: Wait>(rt: &R, alloc: Global, client: &mut Client<E>) -> Tried {
    let Ok(mut tx) = begin(client) else {
        return Tried::Failed;
    };
    match add_one(alloc, &mut tx) {
        Ok(()) => ended_as(tx.commit(rt)),
        Err(_) => Tried::Failed,
    }
}

/// Commits a record that counts nothing.
pub(crate) fn touch<E: End, R: Wait>(rt: &R, alloc: Global, client: &mut Client<E>) -> Tried {
    let Ok(mut tx) = begin(client) else {
        return Tried::Failed;
    };
    match save(alloc, &mut tx, OTHER, 0) {
        Ok(()) => ended_as(tx.commit(rt)),
        Err(_) => Tried::Failed,
    }
}

/// The sum of what the records count, or None where it isn't read.
pub(crate) fn sum<E: End>(alloc: Global, client: &mut Client<E>) -> Option<i64> {
    let mut tx = begin(client).ok()?;
    let name = Text::from_str(alloc, "tot").ok()?;
    tx.aggregate(name, Cells::new(Vec::new(alloc))).ok()
}
