//! Sells books from a store that threads share: opens a running database, has two clerks sell copies
//! of the same book beside each other, and reads how many are left. With the name of a folder,
//! `example_threads DIR`, the database is in that folder, and goes on there.
#![tactic(auto)]

mod books;
mod clerks;

use clerks::{TITLE, left, open_shop, sell_beside};
use record_layer::{Client, Config, End, Error, OpenAtError, Waits, open, open_at};
use std::alloc::Global;
use std::fmt::Display;
use std::fs::{File, Files};
use std::process::ExitCode;
use std::sync::Wait;
use std::thread::Threads;
use std::{env, io};

/// How many copies there were, what the clerks sold, and how many are left.
#[derive(Drop)]
struct Day {
    copies: i64,
    sold: i64,
    also_sold: i64,
    left: i64,
}

/// Opens the shop with a client of a database, has it sell there beside another one, and reads what
/// there was and what is left.
fn trade<E: End + Send, R: Threads + Wait + Sync>(
    rt: &R,
    alloc: Global,
    one: &mut Client<E>,
    other: &mut Client<E>,
) -> Result<Day, Error> {
    open_shop(rt, alloc, one)?;
    let copies = left(rt, alloc, one)?;
    let (sold, also_sold) = sell_beside(rt, alloc, one, other)?;
    let left = left(rt, alloc, one)?;
    Ok(Day {
        copies,
        sold,
        also_sold,
        left,
    })
}

/// Has the first two clients trade, where there are two.
fn trade_of<E: End + Send, R: Threads + Wait + Sync>(
    rt: &R,
    alloc: Global,
    clients: &mut [Client<E>],
) -> Result<Option<Day>, Error> {
    let Some((one, others)) = clients.split_first_mut() else {
        return Ok(None);
    };
    let Some((other, _)) = others.split_first_mut() else {
        return Ok(None);
    };
    Ok(Some(trade(rt, alloc, one, other)?))
}

/// The lines that tell a day.
fn lines(alloc: Global, day: &Day) -> Result<Vec<String>, Error> {
    let Day {
        copies,
        sold,
        also_sold,
        left,
    } = day;
    let mut lines = vec![in alloc; format!(in alloc; "{TITLE}: {copies} copies")?]?;
    lines.push(format!(in alloc; "two clerks sold {sold} and {also_sold} of them")?)?;
    lines.push(format!(in alloc; "{left} are left")?)?;
    Ok(lines)
}

/// Has the clients of a database trade, and answers the lines that tell it.
fn demonstrate<E: End + Send, R: Threads + Wait + Sync>(
    rt: &R,
    alloc: Global,
    clients: &mut [Client<E>],
) -> Result<Vec<String>, Error> {
    match trade_of(rt, alloc, clients)? {
        Some(day) => lines(alloc, &day),
        None => Ok(vec![in alloc; String::from_str(alloc, "too few clients")?]?),
    }
}

/// Has the clients of a new database in memory trade.
fn trade_anew<R: Threads + Wait + Sync>(rt: &R, alloc: Global) -> Result<Vec<String>, Error> {
    let mut clients = open(rt, alloc, Waits { rt }, &Config::single(alloc))?;
    demonstrate(rt, alloc, clients.as_mut_slice())
}

/// Prints lines.
fn print(rt: &HostRuntime, lines: &[String]) -> io::Result<ExitCode> {
    for line in lines {
        rt.println(line.as_str())?;
    }
    Ok(ExitCode::SUCCESS)
}

/// Prints why there are none.
fn refuse<T: Display>(rt: &HostRuntime, error: &T) -> io::Result<ExitCode> {
    rt.eprintln(error)?;
    Ok(ExitCode::FAILURE)
}

/// Prints the lines that tell a day, or why there are none.
fn tell(rt: &HostRuntime, told: Result<Vec<String>, Error>) -> io::Result<ExitCode> {
    match told {
        Ok(lines) => print(rt, &lines),
        Err(error) => refuse(rt, &error),
    }
}

/// Opens the database in this folder, and has its clients trade there.
fn trade_in<R: Threads + Wait + Files<File = File> + Sync>(
    rt: &R,
    alloc: Global,
    folder: &str,
) -> Result<Result<Vec<String>, Error>, OpenAtError> {
    let mut clients = open_at(rt, alloc, folder, Config::single(alloc))?;
    Ok(demonstrate(rt, alloc, clients.as_mut_slice()))
}

fn main(rt: HostRuntime) -> io::Result<ExitCode> {
    let words: Vec<String> = env::args(&rt)?.collect(rt.alloc())?;
    let Some(folder) = words.get(1) else {
        return tell(&rt, trade_anew(&rt, rt.alloc()));
    };
    match trade_in(&rt, rt.alloc(), folder.as_str()) {
        Ok(told) => tell(&rt, told),
        Err(error) => refuse(&rt, &error),
    }
}
