// Clients of a running database: what a thread has of them, how the database is configured, and how
// its store is made. Called by `threads` and `kept_commits`.
use crate::commands::create;
use cluster_core::Config;
use runtime::{Client, Done, End, begin};
use std::alloc::Global;
use std::sync::Wait;

/// What a thread has: a client, and its place among all of them.
#[derive(Drop)]
pub struct Job<E: End> {
    pub client: Client<E>,
    pub place: u32,
}

/// The jobs of clients, whose places are 0, 1 and so on.
pub fn jobs<E: End>(alloc: Global, clients: Vec<Client<E>>) -> Option<Vec<Job<E>>> {
    let mut jobs = Vec::new(alloc);
    let mut place: u32 = 0;
    for client in clients {
        jobs.push(Job { client, place }).ok()?;
        place = place.wrapping_add(1);
    }
    Some(jobs)
}

/// The configuration of a database of so many clients, which goes back so many versions.
pub fn config_of(alloc: Global, places: u64, window: u64) -> Config {
    Config {
        window,
        places,
        ..Config::single(alloc)
    }
}

/// Makes the store.
pub fn made<E: End, R: Wait>(rt: &R, alloc: Global, client: &mut Client<E>) -> Option<()> {
    let mut tx = begin(client).ok()?;
    tx.call(&create(alloc).ok()?).ok()?;
    match tx.commit(rt) {
        Ok(Done::Committed { .. }) => Some(()),
        _ => None,
    }
}
