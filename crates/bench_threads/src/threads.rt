// Clients of the running database on threads: loads beside a writer, and commits. Called by `main`
// for `bench_threads loads`, `bench_threads commits` and `bench_threads steady`, and by `database`,
// which opens one.
use crate::clients::{Job, config_of, jobs, made};
use crate::commands::{load, save};
use runtime::{Client, CommandError, CommitError, Done, End, Waits, begin, open};
use schedule::Reply;
use std::alloc::Global;
use std::io::ErrorKind;
use std::rt::Clock;
use std::sync::Wait;
use std::thread::Threads;
use std::time::Instant;
use std::{io, thread};

// For how long the threads work, in milliseconds.
const SPAN: u128 = 2_000;

// How many records there are, and how many loads or saves a transaction has.
const RECORDS: u32 = 10_000;

const COMMANDS: u32 = 100;

// How many clients commit over and over, and how many records each of them has.
const STEADY: u32 = 4;

const SHARE: u32 = RECORDS / STEADY;

// How many readers, and how many writers, there are in turn.
const READERS: [u32; 3] = [1, 2, 4];

const WRITERS: [u32; 2] = [1, 4];

// How many versions the database goes back.
const WINDOW: u64 = 1_000;

// What the clients do: so many save, each so many records of its own in a transaction, and the
// others load. With a number of commits each makes so many.
#[derive(Clone, Copy)]
struct Plan {
    writers: u32,
    count: u32,
    commits: u32,
}

// What a client does over and over.
#[derive(Clone, Copy)]
enum Work {
    // Loads records.
    Loads,
    // Saves so many records in a transaction, from the one of this number on.
    Saves { first: u32, count: u32 },
    // Saves a record in each of so many transactions: the share of one of four clients, over and
    // over.
    Steady { first: u32, commits: u32 },
}

// What the client at this place does.
fn work_of(plan: Plan, place: u32) -> Work {
    if plan.commits > 0 {
        Work::Steady {
            first: place.wrapping_mul(SHARE),
            commits: plan.commits,
        }
    } else if place < plan.writers {
        Work::Saves {
            first: place.wrapping_mul(RECORDS),
            count: plan.count,
        }
    } else {
        Work::Loads
    }
}

// The number of a record, which goes through all of them in a scattered order.
fn scattered(number: u32) -> i64 {
    i64::from(number.wrapping_mul(2_654_435_761) % RECORDS)
}

// Loads records in a transaction, and answers how many were found.
fn loads<E: End>(alloc: Global, client: &mut Client<E>, turn: u32) -> Option<u32> {
    let mut tx = begin(client).ok()?;
    let mut found: u32 = 0;
    for place in 0..COMMANDS {
        let number = turn.wrapping_mul(COMMANDS).wrapping_add(place);
        let command = load(alloc, scattered(number)).ok()?;
        if let Reply::Found(_) = tx.call(&command).ok()? {
            found = found.wrapping_add(1);
        }
    }
    Some(found)
}

// Saves records in a transaction, and answers how many are committed: none where it has grown too
// old, as it may while its thread has no processor.
fn saves<E: End, R: Wait>(
    rt: &R,
    alloc: Global,
    client: &mut Client<E>,
    first: u32,
    count: u32,
) -> Option<u32> {
    let mut tx = begin(client).ok()?;
    for place in 0..count {
        let number = i64::from(first.wrapping_add(place));
        let command = save(alloc, number, number).ok()?;
        match tx.call(&command) {
            Ok(_) => {}
            Err(CommandError::TooOld) => return Some(0),
            Err(_) => return None,
        }
    }
    match tx.commit(rt) {
        Ok(Done::Committed { .. }) => Some(count),
        Err(CommitError::TooOld) => Some(0),
        _ => None,
    }
}

// One transaction of the work.
fn turn<E: End, R: Wait>(
    rt: &R,
    alloc: Global,
    client: &mut Client<E>,
    work: Work,
    number: u32,
) -> Option<u32> {
    match work {
        Work::Loads => loads(alloc, client, number),
        Work::Saves { first, count } => {
            let start = first.wrapping_add(number.wrapping_mul(count) % RECORDS);
            saves(rt, alloc, client, start, count)
        }
        Work::Steady { first, commits: _ } => {
            let start = first.wrapping_add(number % SHARE);
            saves(rt, alloc, client, start, 1)
        }
    }
}

// Whether the work is over, of which so many turns are done.
fn is_over<R: Clock>(rt: &R, work: Work, begun: &Instant, turns: u32) -> Option<bool> {
    match work {
        Work::Steady { first: _, commits } => Some(turns >= commits),
        _ => Some(begun.elapsed(rt).ok()?.as_millis() >= SPAN),
    }
}

// Works until it is over, and answers how many loads or saves were done: none where one failed.
fn work_done<E: End, R: Wait + Clock>(
    rt: &R,
    alloc: Global,
    client: &mut Client<E>,
    work: Work,
) -> Option<u64> {
    let begun = Instant::now(rt).ok()?;
    let mut done: u64 = 0;
    for number in 0..u32::MAX {
        let count = turn(rt, alloc, client, work, number)?;
        done = done.wrapping_add(u64::from(count));
        if is_over(rt, work, &begun, number.wrapping_add(1))? {
            break;
        }
    }
    Some(done)
}

// The same of the client of a job, at its place.
fn worked<E: End, R: Wait + Clock>(rt: &R, alloc: Global, job: Job<E>, plan: Plan) -> Option<u64> {
    let mut job = job;
    let work = work_of(plan, job.place);
    work_done(rt, alloc, &mut job.client, work)
}

// Makes the store and so many records.
fn filled<E: End, R: Wait>(
    rt: &R,
    alloc: Global,
    client: &mut Client<E>,
    records: u32,
) -> Option<()> {
    made(rt, alloc, client)?;
    for number in 0..records / COMMANDS {
        if saves(rt, alloc, client, number.wrapping_mul(COMMANDS), COMMANDS)? < COMMANDS {
            return None;
        }
    }
    Some(())
}

/// So many clients of a database that goes back so many versions, with a store and so many records.
/// The last client has made them, in commits of 100.
pub fn opened<E: End, R: Wait>(
    rt: &R,
    alloc: Global,
    end: E,
    places: u32,
    window: u64,
    records: u32,
) -> Option<Vec<Client<E>>> {
    let mut clients = open(rt, alloc, end, &config_of(alloc, u64::from(places), window)).ok()?;
    let mut client = clients.pop()?;
    filled(rt, alloc, &mut client, records)?;
    clients.push(client).ok()?;
    Some(clients)
}

// Has the clients work, each on a thread of its own, and answers how many loads or saves each did.
fn work_each<E: End + Send, R: Threads + Wait + Clock + Sync>(
    rt: &R,
    alloc: Global,
    jobs: Vec<Job<E>>,
    plan: Plan,
) -> Option<Vec<Option<u64>>> {
    thread::map_vec(rt, jobs, &|job| worked(rt, alloc, job, plan)).ok()
}

// How many loads or saves each of the clients does, those that save first, beside so many others.
fn counts<R: Threads + Wait + Clock + Sync>(
    rt: &R,
    alloc: Global,
    plan: Plan,
    readers: u32,
) -> Option<Vec<Option<u64>>> {
    let places = plan.writers.wrapping_add(readers);
    let clients = opened(rt, alloc, Waits { rt }, places, WINDOW, RECORDS)?;
    work_each(rt, alloc, jobs(alloc, clients)?, plan)
}

// How many are done a second.
fn rate(counts: &[Option<u64>]) -> io::Result<u64> {
    let mut all: u64 = 0;
    for count in counts {
        let Some(count) = count else {
            return Err(io::Error::from(ErrorKind::InvalidData));
        };
        all = all.wrapping_add(*count);
    }
    Ok(all / 2)
}

// The rates of so many clients that save and so many that load.
fn rates<R: Threads + Wait + Clock + Sync>(
    rt: &R,
    alloc: Global,
    writers: u32,
    readers: u32,
    count: u32,
) -> io::Result<(u64, u64)> {
    let plan = Plan {
        writers,
        count,
        commits: 0,
    };
    let Some(counts) = counts(rt, alloc, plan, readers) else {
        return Err(io::Error::from(ErrorKind::OutOfMemory));
    };
    let Some((saves, loads)) = counts.as_slice().split_at_checked(writers as usize) else {
        return Err(io::Error::from(ErrorKind::InvalidData));
    };
    Ok((rate(saves)?, rate(loads)?))
}

/// Prints how many loads reader threads make beside a writer.
pub fn measure_loads<R: Threads + Wait + Clock + Print + Sync>(
    rt: &R,
    alloc: Global,
) -> io::Result<()> {
    for readers in READERS {
        let (saves, loads) = rates(rt, alloc, 1, readers, COMMANDS)?;
        println!(rt; "{readers} readers: {loads} loads a second, beside {saves} saves a second")?;
    }
    Ok(())
}

/// Prints how many commits of one save threads make.
pub fn measure_commits<R: Threads + Wait + Clock + Print + Sync>(
    rt: &R,
    alloc: Global,
) -> io::Result<()> {
    for writers in WRITERS {
        let (commits, _) = rates(rt, alloc, writers, 0, 1)?;
        println!(rt; "{writers} clients: {commits} commits of one save a second")?;
    }
    Ok(())
}

/// Has four clients make so many commits of one save over 10,000 keys, and prints how many they
/// made, and in how many milliseconds.
pub fn measure_steady<R: Threads + Wait + Clock + Print + Sync>(
    rt: &R,
    alloc: Global,
    commits: u32,
) -> io::Result<()> {
    let begun = Instant::now(rt)?;
    let plan = Plan {
        writers: STEADY,
        count: 1,
        commits: commits / STEADY,
    };
    let Some(counts) = counts(rt, alloc, plan, 0) else {
        return Err(io::Error::from(ErrorKind::OutOfMemory));
    };
    let made = rate(counts.as_slice())?.wrapping_mul(2);
    let time = begun.elapsed(rt)?.as_millis();
    println!(rt; "{made} commits over {RECORDS} keys in {time} ms")
}
