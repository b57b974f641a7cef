// Transactions that are made once, though their replies may be lost. Called by `replies`.
use crate::counter::{Tried, add, touch};
use runtime::{Client, End, SubmissionStatus};
use std::alloc::Global;
use std::sync::Wait;
use std::thread;
use std::thread::Threads;

/// How often each client adds, and how often anything is tried.
pub(crate) const EACH: u64 = 500;

const TRIES: u64 = 100_000;

/// Whether the client's last submission is committed, or None where nobody tells. Where it isn't
/// decided, something else is committed, which finishes it.
fn is_committed<E: End, R: Wait>(rt: &R, alloc: Global, client: &mut Client<E>) -> Option<bool> {
    let number = client.submissions();
    for _ in 0..TRIES {
        match client.outcome(number) {
            Ok(SubmissionStatus::Committed { .. }) => return Some(true),
            Ok(SubmissionStatus::Refused) => return Some(false),
            Ok(SubmissionStatus::Pending) => {
                touch(rt, alloc, client);
            }
            Ok(SubmissionStatus::Forgotten | SubmissionStatus::NotSubmitted) => return None,
            Err(_) => {}
        }
    }
    None
}

/// Adds one, once: how many replies were lost. None where it isn't made, as far as is told.
fn add_once<E: End, R: Wait>(rt: &R, alloc: Global, client: &mut Client<E>) -> Option<u64> {
    let mut lost: u64 = 0;
    for _ in 0..TRIES {
        let is_made = match add(rt, alloc, client) {
            Tried::Committed => true,
            Tried::Failed => false,
            Tried::Lost => {
                lost = lost.saturating_add(1);
                is_committed(rt, alloc, client)?
            }
        };
        if is_made {
            return Some(lost);
        }
    }
    None
}

/// Adds `EACH` times: how many replies were lost.
fn add_each<E: End, R: Wait>(rt: &R, alloc: Global, client: &mut Client<E>) -> Option<u64> {
    let mut lost: u64 = 0;
    for _ in 0..EACH {
        lost = lost.saturating_add(add_once(rt, alloc, client)?);
    }
    Some(lost)
}

/// Two clients add beside each other, each on a thread: how many replies were lost.
pub(crate) fn add_beside<E: End + Send, R: Threads + Wait + Sync>(
    rt: &R,
    alloc: Global,
    one: &mut Client<E>,
    other: &mut Client<E>,
) -> Option<u64> {
    let (one, other) = thread::join(
        rt,
        || add_each(rt, alloc, one),
        || add_each(rt, alloc, other),
    );
    Some(one?.saturating_add(other?))
}
