//! Measures a running database, and prints what it measured: `bench_threads loads` and
//! `bench_threads commits` run clients on threads, `bench_threads steady COMMITS` has four of them
//! make so many commits, and `bench_threads database RECORDS` holds so many records, for its memory
//! to be read from outside.
//!
//! `bench_threads kept WAY FILE CLIENTS COMMITS` has clients on threads make so many commits of one
//! save each, which are kept in a new file, and prints how many were told to be committed, and in
//! how many microseconds. The way is `together`, `alone`, which commits one at a time, or `told`,
//! which prints the client and the number of each one that was told to be committed. `bench_threads
//! kept list FILE` prints those that a file has, and `bench_threads kept open FILE OTHER THOUSANDS`
//! makes a database of so many thousands of records in two files, and prints how long its opening
//! takes.
#![tactic(auto)]

mod clients;
mod commands;
mod database;
mod kept_commits;
mod kept_listing;
mod kept_opening;
mod kept_words;
mod threads;

use std::alloc::Global;
use std::fs::{File, Files};
use std::process::ExitCode;
use std::rt::Clock;
use std::sync::Wait;
use std::thread::Threads;
use std::{env, io};

// What is printed where the command line names no benchmark.
const USAGE: &str = "usage: bench_threads commits|loads|database RECORDS|steady COMMITS, or: \
    bench_threads kept together|alone|told FILE CLIENTS COMMITS, or: \
    bench_threads kept open FILE OTHER THOUSANDS, or: bench_threads kept list FILE";

// Runs the benchmark of this name, and says whether there is one.
fn measures<R: Threads + Wait + Clock + Print + Sync>(
    rt: &R,
    alloc: Global,
    name: &str,
) -> io::Result<bool> {
    match name {
        "commits" => threads::measure_commits(rt, alloc)?,
        "loads" => threads::measure_loads(rt, alloc)?,
        _ => return Ok(false),
    }
    Ok(true)
}

// Runs the benchmark of this name over so many records or commits, and says whether there is one.
fn measures_so_many<R: Threads + Wait + Clock + Print + Sync>(
    rt: &R,
    alloc: Global,
    name: &str,
    count: u32,
) -> io::Result<bool> {
    match name {
        "database" => database::measure_database(rt, alloc, count)?,
        "steady" => threads::measure_steady(rt, alloc, count)?,
        _ => return Ok(false),
    }
    Ok(true)
}

// Runs what the command line asks for, and says whether there is such a benchmark.
fn runs<R: Threads + Wait + Clock + Print + Files<File = File> + Sync>(
    rt: &R,
    alloc: Global,
    words: &[String],
) -> io::Result<bool> {
    match words {
        [_, name] => measures(rt, alloc, name.as_str()),
        [_, name, count] => match count.as_str().parse::<u32>() {
            Ok(count) => measures_so_many(rt, alloc, name.as_str(), count),
            Err(_) => Ok(false),
        },
        [_, name, words @ ..] if name.as_str() == "kept" => kept_words::runs(rt, alloc, words),
        _ => Ok(false),
    }
}

fn main(rt: HostRuntime) -> io::Result<ExitCode> {
    let words: Vec<String> = env::args(&rt)?.collect(rt.alloc())?;
    if runs(&rt, rt.alloc(), words.as_slice())? {
        return Ok(ExitCode::SUCCESS);
    }
    rt.eprintln(USAGE)?;
    Ok(ExitCode::from(2))
}
