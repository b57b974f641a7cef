//! Calls each library once, in some ten lines, and prints what comes of it. `.ok()?` stands for the
//! errors of a caller's own.
#![tactic(auto)]

mod bytes;
mod others;
mod records;
mod stores;
mod threads;
mod versions;

use std::io;
use std::process::ExitCode;

/// Prints a line, and says whether there is one.
fn prints(rt: &HostRuntime, line: Option<String>) -> io::Result<bool> {
    match line {
        Some(line) => {
            rt.println(line)?;
            Ok(true)
        }
        None => Ok(false),
    }
}

/// Prints the lines of what works on values, and says whether each is there.
fn prints_values(rt: &HostRuntime) -> io::Result<bool> {
    let alloc = rt.alloc();
    let tuples = prints(rt, bytes::tuples(alloc))?;
    let map = prints(rt, bytes::map(alloc))?;
    let record = prints(rt, records::record_line(alloc))?;
    let truth = prints(rt, records::truth_line(alloc))?;
    let plan = prints(rt, records::plan_line(alloc))?;
    Ok(tuples && map && record && truth && plan)
}

/// Prints the lines of what reads and writes a database.
fn prints_databases(rt: &HostRuntime) -> io::Result<bool> {
    let alloc = rt.alloc();
    let added = prints(rt, versions::added(alloc))?;
    let built = prints(rt, versions::built(alloc))?;
    let stored = prints(rt, stores::stored(alloc))?;
    let script = prints(rt, others::script_line(alloc))?;
    let wanted = prints(rt, others::wanted(alloc))?;
    Ok(added && built && stored && script && wanted)
}

fn main(rt: HostRuntime) -> io::Result<ExitCode> {
    let values = prints_values(&rt)?;
    let databases = prints_databases(&rt)?;
    let committed = prints(&rt, threads::committed(&rt, rt.alloc()))?;
    Ok(if values && databases && committed {
        ExitCode::SUCCESS
    } else {
        ExitCode::FAILURE
    })
}
