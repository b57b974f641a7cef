// The running database: `runtime`. Called by `main`.
use crate::records::asked_books;
use cluster_core::Config;
use runtime::{Client, Done, End, Waits, begin, open};
use schedule::Command;
use std::alloc::Global;
use std::sync::Wait;

/// Gives a client's transaction a command, and commits it: the version, if it wrote anything.
fn commit_one<E: End, R: Wait>(rt: &R, client: &mut Client<E>, command: &Command) -> Option<u64> {
    let mut tx = begin(client).ok()?;
    tx.call(command).ok()?;
    match tx.commit(rt).ok()? {
        Done::Committed { version, seen: _ } => Some(version),
        Done::ReadOnly => None,
    }
}

/// Has the first client make the store.
fn make_store<E: End, R: Wait>(rt: &R, alloc: Global, clients: &mut [Client<E>]) -> Option<u64> {
    let command = Command::Create(asked_books(alloc)?);
    commit_one(rt, clients.first_mut()?, &command)
}

/// Opens a database, of which its first client makes the store.
pub(crate) fn committed<R: Wait>(rt: &R, alloc: Global) -> Option<String> {
    let mut clients = open(rt, alloc, Waits { rt }, &Config::single(alloc)).ok()?;
    let version = make_store(rt, alloc, clients.as_mut_slice())?;
    format!(in alloc; "runtime: committed at {version}").ok()
}
