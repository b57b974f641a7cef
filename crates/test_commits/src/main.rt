//! A commit of a running database, and the next one by the same client or by another; the commits
//! of a worker; and one of a database of one thread. A tool has each allocation fail in turn, and
//! compares what is printed. `test_commits replies` has two clients on threads add to one record,
//! of whose allocations one in so many fails.
#![tactic(auto)]

mod adding;
mod clients;
mod counter;
mod replies;
mod settling;
mod worker;

use clients::{Told, committed, found, submit};
use cluster_core::Config;
use runtime::{Client, End, SubmissionStatus, Waits, open};
use settling::one_thread;
use std::alloc::Global;
use std::env;
use std::sync::Wait;
use std::test::Fail;
use worker::{Wanting, built};

/// Makes the store, without a record; the commit that memory runs out for, the next one, and what
/// is loaded after both.
const MADE: &str = r#"{"steps":[
    ["create",0,{"types":[{"name":"t","fields":[["k","int"],["a","int"],["b","int"]],"key":["k"]}]}]
]}"#;

const FIRST: &str = r#"{"steps":[["save",0,"t",[1,0,0]]]}"#;

const SECOND: &str = r#"{"steps":[["save",0,"t",[2,0,0]]]}"#;

const LOADS: &str = r#"{"steps":[["load",0,"t",[1]],["load",0,"t",[2]]]}"#;

/// What the loads find, where the first commit may have been made and where it never is.
const BOTH: &str = "1 found [1,0,0]\n1 found [2,0,0]\n";

const SECOND_ALONE: &str = "1 none\n1 found [2,0,0]\n";

/// What is told of what is committed next after the store.
const COMMITTED: SubmissionStatus = SubmissionStatus::Committed { version: 2 };

/// The word before a line on what memory ran out for.
fn again(is_refused: bool) -> &'static str {
    if is_refused { "again " } else { "" }
}

/// Whether the first commit was handed in, and whether its outcome is known: two lines.
fn lines(alloc: Global, told: Told, by: &str) -> Result<String, Fail> {
    let asked = again(told == Told::Memory);
    let known = again(told == Told::Unknown);
    Ok(format!(in alloc; "{asked}handed in, {by} next\n{known}told, {by} next\n")?)
}

/// The other client commits, or where there is none the same one; then both records are there, or
/// where the first commit was refused for want of memory, only the second one.
fn next<E: End, R: Wait>(
    rt: &R,
    alloc: Global,
    client: &mut Client<E>,
    told: Told,
) -> Result<(), Fail> {
    committed(rt, alloc, client, SECOND)?;
    let wanted = if told == Told::Memory {
        SECOND_ALONE
    } else {
        BOTH
    };
    found(alloc, client, LOADS, wanted)
}

/// The first commit's outcome before the next one, and after it where that is another client's.
fn outcome_at(told: Told, is_finished: bool) -> SubmissionStatus {
    match told {
        Told::Memory => SubmissionStatus::NotSubmitted,
        Told::Unknown if !is_finished => SubmissionStatus::Pending,
        _ => COMMITTED,
    }
}

/// What the client is told of its second submission must be this.
fn asked<E: End>(client: &mut Client<E>, wanted: SubmissionStatus) -> Result<(), Fail> {
    if client.outcome(2)? == wanted {
        Ok(())
    } else {
        Err(Fail::from("another outcome is told"))
    }
}

/// A client's commit, and the next one by the same client.
fn alone<R: Wait>(rt: &R, alloc: Global) -> Result<String, Fail> {
    let mut clients = open(rt, alloc, Waits { rt }, &Config::single(alloc))?;
    let client = clients.as_mut_slice().first_mut().ok_or("no client")?;
    committed(rt, alloc, client, MADE)?;
    let told = submit(rt, alloc, client, FIRST)?;
    asked(client, outcome_at(told, false))?;
    next(rt, alloc, client, told)?;
    asked(client, COMMITTED)?;
    lines(alloc, told, "the same client")
}

/// A client's commit, and the next one by another client.
fn beside<R: Wait>(rt: &R, alloc: Global) -> Result<String, Fail> {
    let mut clients = open(rt, alloc, Waits { rt }, &Config::single(alloc))?;
    let (one, others) = clients.as_mut_slice().split_first_mut().ok_or("no client")?;
    let (other, _) = others.split_first_mut().ok_or("no other client")?;
    committed(rt, alloc, one, MADE)?;
    let told = submit(rt, alloc, one, FIRST)?;
    asked(one, outcome_at(told, false))?;
    next(rt, alloc, other, told)?;
    asked(one, outcome_at(told, true))?;
    lines(alloc, told, "another client")
}

/// A worker's commits: a line for the work itself, and one for the reply to each commit.
fn working<R: Wait>(rt: &R, alloc: Global) -> Result<String, Fail> {
    let mut clients = open(rt, alloc, Waits { rt }, &Config::single(alloc))?;
    let client = clients.as_mut_slice().first_mut().ok_or("no client")?;
    let wanting = built(rt, alloc, client)?;
    let worked = again(wanting == Wanting::Work);
    let step = again(wanting == Wanting::Step);
    let mark = again(wanting == Wanting::Mark);
    Ok(format!(in alloc; "{worked}built\n{step}told of the step\n{mark}told of the mark\n")?)
}

/// A commit of a database of one thread, which is settled before the next one.
fn settled(alloc: Global) -> Result<String, Fail> {
    let known = again(!one_thread(alloc)?);
    Ok(format!(in alloc; "{known}told on one thread\n")?)
}

/// Has each of the databases do its work, and prints the lines of it.
fn work<R: Wait + Print>(rt: &R, alloc: Global) -> Result<(), Fail> {
    let lines = alone(rt, alloc)?;
    rt.print(lines)?;
    let lines = beside(rt, alloc)?;
    rt.print(lines)?;
    let lines = working(rt, alloc)?;
    rt.print(lines)?;
    let lines = settled(alloc)?;
    rt.print(lines)?;
    rt.println("all stands")?;
    Ok(())
}

fn main(rt: HostRuntime) -> Result<(), Fail> {
    let alloc = rt.alloc();
    let words: Vec<String> = env::args(&rt)?.collect(alloc)?;
    match words.as_slice() {
        [_] => work(&rt, alloc),
        [_, word] if word.as_str() == "replies" => replies::work(&rt, alloc),
        _ => Err(Fail::from("usage: test_commits [replies]")),
    }
}
