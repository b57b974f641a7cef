//! Measures the crates: `bench tuples` packs and unpacks tuples, `bench ranges` fills lists of
//! ranges, `bench schemas` writes and reads schemas and makes records, `bench plans` plans queries,
//! `bench transactions` writes and reads in transactions, `bench versions` pulls versions, and
//! `bench server` holds the pairs of records, for its memory to be read from outside. It prints
//! what it measured. `bench calls` does a work that it reads, for `tools/compare_sqlite`.
#![tactic(auto)]

mod call_lines;
mod call_rows;
mod call_store;
mod calls;
mod keys;
mod plans;
mod ranges;
mod schemas;
mod server;
mod transactions;
mod tuples;
mod versions;

use std::process::ExitCode;
use std::{env, io};

// What is printed where the command line names no benchmark.
const USAGE: &str = "usage: bench calls|plans|ranges|schemas|server|transactions|tuples|versions";

// The name of the benchmark that the command line asks for, if it is one.
fn asked(rt: &HostRuntime) -> io::Result<Option<String>> {
    let mut words: Vec<String> = env::args(rt)?.collect(rt.alloc())?;
    let word = words.pop();
    Ok(if words.len() == 1 { word } else { None })
}

// Does the work that is read. None where a line of it isn't done.
fn works(rt: &HostRuntime) -> io::Result<ExitCode> {
    match calls::run(rt.alloc(), &mut rt.stdin(), &mut rt.stdout())? {
        Some(()) => Ok(ExitCode::SUCCESS),
        None => {
            rt.eprintln("a line isn't one of a work, or is refused")?;
            Ok(ExitCode::FAILURE)
        }
    }
}

// Runs the benchmark of this name, and says whether there is one.
fn measures(rt: &HostRuntime, name: &str) -> io::Result<bool> {
    match name {
        "plans" => plans::measure(rt)?,
        "ranges" => ranges::measure(rt)?,
        "schemas" => schemas::measure(rt)?,
        "server" => server::measure_server(rt)?,
        "transactions" => transactions::measure(rt)?,
        "tuples" => tuples::measure(rt)?,
        "versions" => versions::measure(rt)?,
        _ => return Ok(false),
    }
    Ok(true)
}

fn main(rt: HostRuntime) -> io::Result<ExitCode> {
    if let Some(name) = asked(&rt)? {
        if name.as_str() == "calls" {
            return works(&rt);
        }
        if measures(&rt, name.as_str())? {
            return Ok(ExitCode::SUCCESS);
        }
    }
    rt.eprintln(USAGE)?;
    Ok(ExitCode::from(2))
}
