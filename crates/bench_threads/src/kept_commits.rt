// Clients on threads, whose commits are kept in a file. Called by `kept_words` for `bench_threads
// kept together`, `bench_threads kept alone` and `bench_threads kept told`.
use crate::clients::{Job, config_of, jobs, made};
use crate::commands::save;
use commit_log::{DeviceLog, begin_log};
use journal_file::FileDevice;
use runtime::{Client, Done, End, begin, open_kept};
use std::alloc::Global;
use std::fs::{File, Files};
use std::io::ErrorKind;
use std::rt::Clock;
use std::sync::{Mutex, Wait};
use std::thread::Threads;
use std::time::Instant;
use std::{io, thread};

// How many versions the database goes back.
const WINDOW: u64 = 1_000;

/// How commits are made.
#[derive(Clone, Copy, PartialEq, Eq)]
pub enum Way {
    /// Those that come together are kept together.
    Together,
    /// One at a time, so that each is kept by a call of its own.
    Alone,
    /// Together; the client and the number of each that was told to be committed are printed.
    Told,
}

/// What is asked for: so many clients, so many commits by all of them, and how.
#[derive(Clone, Copy)]
pub struct Asked {
    pub clients: u64,
    pub commits: u32,
    pub way: Way,
}

// Commits a transaction of one save, and says under which number, where it is told to be committed.
fn commit_one<E: End, R: Wait>(
    rt: &R,
    alloc: Global,
    client: &mut Client<E>,
    key: i64,
    turn: Option<&Mutex<()>>,
) -> Option<u64> {
    let mut tx = begin(client).ok()?;
    tx.call(&save(alloc, key, key).ok()?).ok()?;
    let guard = turn.map(|turn| turn.lock(rt));
    let done = tx.commit(rt);
    drop(guard);
    match done {
        Ok(Done::Committed { .. }) => Some(client.submissions()),
        _ => None,
    }
}

// Makes so many commits, and says how many were told to be committed.
fn worked<E: End, R: Wait + Print>(
    rt: &R,
    alloc: Global,
    job: Job<E>,
    commits: u32,
    way: Way,
    turn: &Mutex<()>,
) -> u64 {
    let mut job = job;
    let mut made: u64 = 0;
    let turn = if way == Way::Alone { Some(turn) } else { None };
    for one in 0..commits {
        let key = i64::from(job.place.wrapping_mul(1_000_000).wrapping_add(one));
        if let Some(number) = commit_one(rt, alloc, &mut job.client, key, turn) {
            made = made.wrapping_add(1);
            let place = job.place;
            if way == Way::Told {
                let _ = println!(rt; "{place} {number}");
            }
        }
    }
    made
}

// These clients, the last of which has made the store.
fn with_store<E: End, R: Wait>(
    rt: &R,
    alloc: Global,
    clients: Vec<Client<E>>,
) -> Option<Vec<Client<E>>> {
    let mut clients = clients;
    let mut client = clients.pop()?;
    made(rt, alloc, &mut client)?;
    clients.push(client).ok()?;
    Some(clients)
}

// The clients of a new database over a file, whose store is made.
fn opened<'a, R: Wait + Files<File = File>>(
    rt: &'a R,
    alloc: Global,
    path: &str,
    clients: u64,
) -> Option<Vec<Client<DeviceLog<FileDevice, &'a R>>>> {
    let device = FileDevice::open(rt, alloc, path).ok()?;
    let log = begin_log(rt, alloc, device).ok()?;
    let config = config_of(alloc, clients, WINDOW);
    let clients = open_kept(rt, alloc, log, &config).ok()?;
    with_store(rt, alloc, clients)
}

// Has the clients make their commits, each on a thread of its own, and says how many were told to
// be committed.
fn counted<E: End + Send, R: Threads + Wait + Print + Sync>(
    rt: &R,
    alloc: Global,
    clients: Vec<Client<E>>,
    asked: Asked,
) -> Option<u64> {
    let clients_asked = u32::try_from(asked.clients).ok()?;
    let each = asked.commits / clients_asked.max(1);
    let jobs = jobs(alloc, clients)?;
    let turn = Mutex::new(());
    let way = asked.way;
    let counts = thread::map_vec(rt, jobs, &|job| worked(rt, alloc, job, each, way, &turn)).ok()?;
    let mut all: u64 = 0;
    for count in &counts {
        all = all.wrapping_add(*count);
    }
    Some(all)
}

/// Makes so many commits over a new file, and prints how many, and in how many microseconds.
pub fn run<R: Threads + Wait + Clock + Print + Files<File = File> + Sync>(
    rt: &R,
    alloc: Global,
    path: &str,
    asked: Asked,
) -> io::Result<()> {
    let Some(clients) = opened(rt, alloc, path, asked.clients) else {
        return Err(io::Error::from(ErrorKind::InvalidData));
    };
    let begun = Instant::now(rt)?;
    let Some(made) = counted(rt, alloc, clients, asked) else {
        return Err(io::Error::from(ErrorKind::OutOfMemory));
    };
    let time = begun.elapsed(rt)?.as_micros();
    println!(rt; "{made} commits in {time} us")
}
