// The words behind `bench_threads kept` on a command line: does what they ask for. Called by `main`.
use crate::kept_commits::{self, Asked, Way};
use crate::{kept_listing, kept_opening};
use std::alloc::Global;
use std::fs::{File, Files};
use std::io;
use std::rt::Clock;
use std::sync::Wait;
use std::thread::Threads;

// How commits are made, where the word says it.
fn way(word: &str) -> Option<Way> {
    match word {
        "together" => Some(Way::Together),
        "alone" => Some(Way::Alone),
        "told" => Some(Way::Told),
        _ => None,
    }
}

// What these words ask for.
fn asked(word: &str, clients: &str, commits: &str) -> Option<Asked> {
    Some(Asked {
        way: way(word)?,
        clients: clients.parse::<u64>().ok()?,
        commits: commits.parse::<u32>().ok()?,
    })
}

/// Does what the words ask for, and says whether it is something.
pub fn runs<R: Threads + Wait + Clock + Print + Files<File = File> + Sync>(
    rt: &R,
    alloc: Global,
    words: &[String],
) -> io::Result<bool> {
    match words {
        [word, path] => {
            if word.as_str() != "list" {
                return Ok(false);
            }
            kept_listing::list(rt, alloc, path.as_str())?;
            Ok(true)
        }
        [word, one, other, thousands] if word.as_str() == "open" => {
            let Ok(thousands) = thousands.parse::<u64>() else {
                return Ok(false);
            };
            kept_opening::run(rt, alloc, one.as_str(), other.as_str(), thousands)?;
            Ok(true)
        }
        [word, path, clients, commits] => {
            let Some(asked) = asked(word.as_str(), clients.as_str(), commits.as_str()) else {
                return Ok(false);
            };
            kept_commits::run(rt, alloc, path.as_str(), asked)?;
            Ok(true)
        }
        _ => Ok(false),
    }
}
