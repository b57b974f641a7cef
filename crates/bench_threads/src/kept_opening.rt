// A database of one thread over two files: how long its opening takes, by its log and from a
// checkpoint. Called by `kept_words` for `bench_threads kept open`.
use crate::commands::{create_indexed, save};
use command_log::{Change, Changes};
use durable::{Checkpointed, Request, open_two};
use journal_file::FileDevice;
use record_layer::{Command, StoreNumber};
use replay::change_of;
use std::alloc::Global;
use std::fs::{File, Files};
use std::io::{self, ErrorKind};
use std::rt::Clock;
use std::time::Instant;

// How many records one commit saves.
const SAVES: u64 = 1_000;

// The database in two files.
fn opened<R: Files<File = File>>(
    rt: &R,
    alloc: Global,
    one: &str,
    other: &str,
) -> Option<Checkpointed<FileDevice>> {
    let first = FileDevice::open(rt, alloc, one).ok()?;
    let second = FileDevice::open(rt, alloc, other).ok()?;
    open_two(alloc, first, second).ok()
}

// Adds the change that a command is.
fn push(changes: &mut Vec<Change>, command: &Command) -> Option<()> {
    let change = change_of(command).ok()??;
    changes.push(change).ok()
}

// Saves of the records of a commit.
fn saves(alloc: Global, number: u64) -> Option<Vec<Change>> {
    let mut changes = Vec::new(alloc);
    for place in 0..SAVES {
        let key = i64::try_from(number.wrapping_mul(SAVES).wrapping_add(place)).ok()?;
        let command = save(alloc, key, key).ok()?;
        push(&mut changes, &command)?;
    }
    Some(changes)
}

// Commits changes.
fn commit(
    alloc: Global,
    db: &mut Checkpointed<FileDevice>,
    number: u64,
    changes: Vec<Change>,
) -> Option<()> {
    let request = Request {
        client: 0,
        number,
        store: StoreNumber::first(),
        changes: Changes::new(changes),
    };
    db.commit(alloc, request).ok()?;
    Some(())
}

// Makes the store, with an index, and so many commits.
fn fill(alloc: Global, db: &mut Checkpointed<FileDevice>, commits: u64) -> Option<()> {
    let mut made = Vec::new(alloc);
    let create = create_indexed(alloc).ok()?;
    push(&mut made, &create)?;
    commit(alloc, db, 0, made)?;
    for number in 0..commits {
        commit(alloc, db, number, saves(alloc, number)?)?;
    }
    Some(())
}

// Opens the database, and prints how long that takes.
fn timed<R: Clock + Print + Files<File = File>>(
    rt: &R,
    alloc: Global,
    one: &str,
    other: &str,
    way: &str,
) -> io::Result<Checkpointed<FileDevice>> {
    let begun = Instant::now(rt)?;
    let Some(db) = opened(rt, alloc, one, other) else {
        return Err(io::Error::from(ErrorKind::InvalidData));
    };
    let time = begun.elapsed(rt)?.as_micros();
    println!(rt; "opened {way} in {time} us")?;
    Ok(db)
}

/// Makes a database of so many thousands of records in two files that have nothing, and prints how
/// long its opening takes, first by its log and then from a checkpoint.
pub fn run<R: Clock + Print + Files<File = File>>(
    rt: &R,
    alloc: Global,
    one: &str,
    other: &str,
    thousands: u64,
) -> io::Result<()> {
    let mut db = timed(rt, alloc, one, other, "with nothing")?;
    if fill(alloc, &mut db, thousands).is_none() {
        return Err(io::Error::from(ErrorKind::OutOfMemory));
    }
    drop(db);
    let mut db = timed(rt, alloc, one, other, "by its log")?;
    if db.checkpoint(alloc).is_err() {
        return Err(io::Error::from(ErrorKind::OutOfMemory));
    }
    drop(db);
    timed(rt, alloc, one, other, "from a checkpoint")?;
    Ok(())
}
