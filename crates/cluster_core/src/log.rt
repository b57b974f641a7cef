// The log role, and what all logs together do. Used by `pipeline`, which keeps the requests.
ghost use Rattle.std.specs.Prelude.{◌≡◌, ◌+◌, ◌<◌, ◌≤◌, ◌^◌, ◌++◌, ◌∷◌, [], length, slice_index_or, true};
ghost use Rattle.std.specs.Prelude.{All, IfOk, OnOk, OnErr, map, nat_lt, replicate};
ghost use Rattle.std.specs.List.{list_all};
ghost use Rattle.cluster_core.specs.Progress.{forgets};

use crate::requests::shed;
use std::alloc::{AllocError, Global};
use std::collections::VecDeque;
use std::marker::Model;

/// A log: it has for each request, in version order, whether the request is committed. Of the first
/// ones it keeps nothing, once they are forgotten: they show as committed.
#[derive(Debug, Drop)]
pub(crate) struct Log {
    count: usize,
    passes: VecDeque<bool>,
}

impl Model for Log {
    ghost use Rattle.std.specs.Prelude.{List, Bool, ◌-◌, ◌++◌, ◌≤◌, length, replicate, true};

    ghost Value = { List Bool };

    ghost view = { λ a. replicate (a.count - length a.passes.items) true ++ a.passes.items };

    ghost invariant = { λ a. length a.passes.items ≤ a.count };
}

impl Log {
    /// A log without requests.
    pub(crate) fn new(alloc: Global) -> Log
        ensures { result ≡ [] }
    {
        Log {
            count: 0,
            passes: VecDeque::new(alloc),
        }
    }

    /// The number of requests that it has.
    pub(crate) fn len(&self) -> usize
        ensures { result ≡ length self.now }
    {
        self.count
    }

    /// Whether the request at a place is committed.
    pub(crate) fn passes(&self, place: usize) -> bool
        requires { place < length self.now }
        ensures { result ≡ slice_index_or self.now place true }
    {
        let forgotten = self.count - self.passes.len();
        if place < forgotten {
            return true;
        }
        self.passes[place - forgotten]
    }

    /// Appends the next request, unless memory runs out, which leaves the log as it was.
    pub(crate) fn push(&mut self, passes: bool) -> Result<(), AllocError>
        requires { length self.old + 1 < 2 ^ 64 }
        ensures ok { OnOk result (self.new ≡ self.old ++ passes ∷ []) }
        ensures err { OnErr result (self.new ≡ self.old) }
    {
        self.passes.reserve(1)?;
        self.passes.push_back_reserved(passes);
        self.count += 1;
        Ok(())
    }

    /// Keeps nothing of the requests before a place.
    fn forget(&mut self, place: usize)
        requires { place ≤ length self.old }
        ensures { self.new ≡ forgets place self.old }
    {
        let forgotten = self.count - self.passes.len();
        shed(&mut self.passes, place.saturating_sub(forgotten));
    }
}

/// Has each of the logs keep nothing of the requests before a place.
pub(crate) fn forget_each(logs: &mut [Log], place: usize)
    requires { All (λ passes. place ≤ length passes) logs.old }
    ensures { logs.new ≡ map (forgets place) logs.old }
{
    if let Some((log, others)) = logs.split_first_mut() {
        log.forget(place);
        forget_each(others, place);
    }
}

/// So many logs without requests.
pub(crate) fn empty_logs(alloc: Global, count: u64) -> Result<Vec<Log>, AllocError>
    ensures { IfOk result (λ logs. logs.items ≡ replicate count []) }
{
    let mut logs = Vec::new(alloc);
    for _ in 0..count {
        logs.push(Log::new(alloc))?;
    }
    Ok(logs)
}

/// Whether every log has the request at a place.
pub(crate) fn all_logged(logs: &[Log], place: usize) -> bool
    ensures { result ≡ list_all (λ passes. nat_lt place (length passes)) logs.now }
{
    logs.iter().all(|log| place < log.len())
}
