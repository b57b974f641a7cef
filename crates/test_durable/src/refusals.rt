// Transactions that are refused, and logs that no database writes. Run as tests.
use crate::parts::{holds, name, one, remove, save, store, two};
use command_log::{Change, Changes, Entry, bytes_of};
use durable::{CommitError, Durable, OpenError, Request, Uncommitted, Unopened, open};
use journal::{Journal, Kept, Memory, Unrecovered, recover};
use record_store::StoreNumber;
use replay::{PerformError, ReplayError};
use schedule::{Refusal, Reply};
use std::alloc::Global;
use std::test::Fail;

fn opened(alloc: Global, file: Vec<u8>) -> Result<Durable<Memory>, Fail> {
    match open(alloc, Memory::new(alloc, file)) {
        Ok(db) => Ok(db),
        Err(Unopened { device: _, error }) => Err(Fail::new(error)),
    }
}

fn request(number: u64, changes: Changes) -> Request {
    Request {
        client: 7,
        number,
        store: StoreNumber::first(),
        changes,
    }
}

/// A reply, in plain data.
#[derive(Clone, Copy, PartialEq, Eq)]
enum Told {
    Saved,
    Removed,
    Other,
}

/// What one change is told.
fn told_of(replies: &[Reply]) -> Told {
    match replies {
        [Reply::SavedNew] => Told::Saved,
        [Reply::Removed] => Told::Removed,
        _ => Told::Other,
    }
}

fn asked(alloc: Global, number: u64, change: Change) -> Result<Request, Fail> {
    Ok(request(number, one(alloc, change)?))
}

/// Commits one change, at this version: what it is told.
fn commit_one(
    alloc: Global,
    db: &mut Durable<Memory>,
    asked: Request,
    version: u64,
) -> Result<Told, Fail> {
    let done = db.commit(alloc, asked)?;
    holds(done.version == version, "the next version")?;
    Ok(told_of(&done.replies))
}

/// Whether a database is at this version.
fn is_at(db: &Durable<Memory>, version: u64) -> bool {
    matches!(db.image(), Some(image) if image.version() == version)
}

/// A change that is done, and one that is refused.
fn bad(alloc: Global) -> Result<Changes, Fail> {
    let saved = save(alloc, 1, "Ann", 10)?;
    let dropped = Change::Drop(name(alloc, "nothing")?);
    two(alloc, saved, dropped)
}

fn is_refused(alloc: Global, db: &mut Durable<Memory>) -> Result<bool, Fail> {
    let bad = request(2, bad(alloc)?);
    Ok(matches!(
        db.commit(alloc, bad),
        Err(CommitError::Refused(PerformError::Refused(1, Refusal::UnknownIndex)))
    ))
}

/// Makes the store, has a change refused, and saves a book.
fn refuse_and_go_on(alloc: Global, db: &mut Durable<Memory>) -> Result<(), Fail> {
    commit_one(alloc, db, asked(alloc, 1, store(alloc)?)?, 1)?;
    holds(is_refused(alloc, db)?, "a refused change")?;
    let bob = save(alloc, 1, "Bob", 20)?;
    let told = commit_one(alloc, db, asked(alloc, 3, bob)?, 2)?;
    holds(told == Told::Saved, "a reply")
}

/// A refused change leaves the log and what is read, and the next transaction is committed.
#[test]
fn a_refused_change_leaves_all(rt: HostRuntime) -> Result<(), Fail> {
    let alloc = rt.alloc();
    let mut db = opened(alloc, Vec::new(alloc))?;
    refuse_and_go_on(alloc, &mut db)?;
    let file = db.into_device().bytes().to_vec(alloc)?;
    let again = opened(alloc, file)?;
    holds(is_at(&again, 2), "the version of a log")
}

/// Of several transactions the third one is refused, which makes a second store.
fn several(alloc: Global) -> Result<Vec<Request>, Fail> {
    let mut requests = Vec::new(alloc);
    for number in 1..5 {
        let change = match number {
            2 => remove(alloc, 1)?,
            4 => remove(alloc, 2)?,
            _ => store(alloc)?,
        };
        requests.push(asked(alloc, number, change)?)?;
    }
    Ok(requests)
}

fn is_refusal(error: CommitError) -> bool {
    matches!(error, CommitError::Refused(_))
}

fn end_at_refusal(alloc: Global, db: &mut Durable<Memory>) -> Result<(), Fail> {
    match db.commit_each(alloc, several(alloc)?) {
        Err(Uncommitted { place, error }) => {
            holds(is_refusal(error), "the error")?;
            holds(place == 2, "the place")
        }
        Ok(()) => Err(Fail::from("a second store")),
    }
}

/// Of several transactions those before the first that is refused are committed.
#[test]
fn several_transactions_end_at_a_refusal(rt: HostRuntime) -> Result<(), Fail> {
    let mut db = opened(rt.alloc(), Vec::new(rt.alloc()))?;
    end_at_refusal(rt.alloc(), &mut db)?;
    holds(db.is_open(), "an open database")?;
    holds(is_at(&db, 2), "the version")
}

fn log_of(alloc: Global, entries: &[Entry]) -> Result<Vec<Vec<u8>>, Fail> {
    let mut log = Vec::new(alloc);
    for entry in entries {
        log.push(bytes_of(alloc, entry)?)?;
    }
    Ok(log)
}

fn appended(alloc: Global, mut journal: Journal<Memory>, log: &[Vec<u8>]) -> Result<Vec<u8>, Fail> {
    journal.append(alloc, log)?;
    Ok(journal.into_device().bytes().to_vec(alloc)?)
}

/// A file with the log of these entries.
fn file_of(alloc: Global, entries: &[Entry]) -> Result<Vec<u8>, Fail> {
    let log = log_of(alloc, entries)?;
    let mut kept = Kept::new(alloc);
    match recover(alloc, Memory::new(alloc, Vec::new(alloc)), &mut kept) {
        Ok(journal) => appended(alloc, journal, &log),
        Err(
            Unrecovered {
                device: _,
                error: _,
            },
        ) => Err(Fail::from("a new file")),
    }
}

fn entry(alloc: Global, version: u64, store: u64, change: Change) -> Result<Entry, Fail> {
    Ok(Entry {
        version,
        client: 0,
        number: 1,
        store,
        changes: one(alloc, change)?,
    })
}

/// A file with the log of a new store and this entry.
fn file_with(alloc: Global, second: Entry) -> Result<Vec<u8>, Fail> {
    let first = entry(alloc, 3, 1, store(alloc)?)?;
    let entries = vec![in alloc; first, second]?;
    file_of(alloc, &entries)
}

/// Why it isn't opened.
fn refusal_of(alloc: Global, second: Entry) -> Result<ReplayError, Fail> {
    let file = file_with(alloc, second)?;
    match open(alloc, Memory::new(alloc, file)) {
        Err(Unopened { device: _, error }) => match error {
            OpenError::Unreplayed(error) => Ok(error),
            _ => Err(Fail::from("another refusal")),
        },
        Ok(_) => Err(Fail::from("a log that is opened")),
    }
}

/// The version and the store's number of the second entry, whether it makes the store again, and why
/// it is refused: a version that stays, a store that isn't there, a number of no store, a second
/// store.
static REFUSED: [(u64, u64, bool, &str); 4] = [
    (3, 1, false, "OutOfOrder(1)"),
    (4, 2, false, "Refused(1, Refused(0, NoStore))"),
    (4, 0, false, "NoSuchStore(1)"),
    (4, 1, true, "Refused(1, Refused(0, AlreadyThere))"),
];

fn change_of(alloc: Global, is_store: bool) -> Result<Change, Fail> {
    if is_store {
        return store(alloc);
    }
    save(alloc, 1, "Ann", 1)
}

fn is_refused_so(alloc: Global, row: &(u64, u64, bool, &str)) -> Result<(), Fail> {
    let (version, store, is_store, told) = row;
    let second = entry(alloc, *version, *store, change_of(alloc, *is_store)?)?;
    let error = refusal_of(alloc, second)?;
    let found = format!(in alloc; "{error:?}")?;
    holds(found.as_str() == *told, told)
}

#[test]
fn other_logs_are_refused(rt: HostRuntime) -> Result<(), Fail> {
    for row in &REFUSED {
        is_refused_so(rt.alloc(), row)?;
    }
    Ok(())
}

/// A file with the log of a new store and of a book, with a gap between their versions.
fn gapped(alloc: Global) -> Result<Vec<u8>, Fail> {
    let saved = save(alloc, 1, "Ann", 1)?;
    file_with(alloc, entry(alloc, 900, 1, saved)?)
}

/// Versions may have gaps, and the next one is above the last.
#[test]
fn versions_go_on_above_gaps(rt: HostRuntime) -> Result<(), Fail> {
    let alloc = rt.alloc();
    let mut db = opened(alloc, gapped(alloc)?)?;
    let asked = asked(alloc, 2, remove(alloc, 1)?)?;
    let told = commit_one(alloc, &mut db, asked, 901)?;
    holds(told == Told::Removed, "a reply")
}
