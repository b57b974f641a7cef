// The requests of a pipeline: all of them in proofs, and the last ones as bytes. Used by `pipeline`,
// `resolver`, `kept`, `points` and `segments`.
ghost use Rattle.std.specs.Prelude.{◌≡◌, ◌+◌, ◌<◌, ◌≤◌, ◌^◌, ◌++◌, ◌∷◌, [], drop, length};
ghost use Rattle.std.specs.Prelude.{slice_index_or, OnOk, OnErr};

use crate::past::Past;
use kv_core::CommitRequest;
use std::alloc::{AllocError, Global};
use std::collections::VecDeque;
use std::marker::Model;

/// The requests in the order in which they were submitted. Of the first ones no bytes are kept, once
/// they are forgotten.
#[derive(Debug, Drop)]
pub(crate) struct Requests {
    past: Past,
    forgotten: usize,
    kept: VecDeque<CommitRequest>,
}

impl Model for Requests {
    ghost use Rattle.std.specs.Prelude.{◌≡◌, ◌+◌, ◌<◌, ◌^◌, drop, length};
    ghost use Rattle.cluster_core.specs.Requests.{RequestList};

    ghost Value = { RequestList };

    ghost view = { λ a. record { all = a.past.list; forgotten = a.forgotten } };

    ghost invariant = { λ a.
        (a.kept.items ≡ drop a.forgotten a.past.list)
        × (length a.past.list ≡ a.forgotten + length a.kept.items)
        × (length a.past.list < 2 ^ 64) };
}

/// Drops so many of the first items.
pub(crate) fn shed<T: Drop>(items: &mut VecDeque<T>, count: usize)
    ensures { items.new.items ≡ drop count items.old.items }
{
    for _ in 0..count {
        items.pop_front();
    }
}

impl Requests {
    /// No request.
    pub(crate) fn new(alloc: Global) -> Requests
        ensures { result ≡ record { all = []; forgotten = 0 } }
    {
        Requests {
            past: Past::new(),
            forgotten: 0,
            kept: VecDeque::new(alloc),
        }
    }

    /// The number of all requests.
    pub(crate) fn len(&self) -> usize
        ensures { result ≡ length self.now.all }
    {
        self.forgotten + self.kept.len()
    }

    /// Those that are kept.
    pub(crate) fn kept(&self) -> &VecDeque<CommitRequest>
        ensures { result.now.items ≡ drop self.now.forgotten self.now.all }
    {
        &self.kept
    }

    /// The request at a place.
    pub(crate) fn at(&self, place: usize) -> &CommitRequest
        requires kept { self.now.forgotten ≤ place }
        requires inside { place < length self.now.all }
        ensures { result.now ≡ slice_index_or self.now.all place result.now }
    {
        &self.kept[place - self.forgotten]
    }

    /// Adds a request, unless memory runs out.
    pub(crate) fn push(&mut self, request: CommitRequest) -> Result<(), AllocError>
        requires { length self.old.all + 1 < 2 ^ 64 }
        ensures ok { OnOk result (self.new ≡ record self.old { all = self.old.all ++ request ∷ [] }) }
        ensures err { OnErr result (self.new ≡ self.old) }
    {
        self.kept.reserve(1)?;
        let past = self.past.then(&request);
        self.kept.push_back_reserved(request);
        self.past = past;
        Ok(())
    }

    /// Keeps no bytes of the requests before a place.
    pub(crate) fn forget(&mut self, place: usize)
        requires from { self.old.forgotten ≤ place }
        requires upto { place ≤ length self.old.all }
        ensures { self.new ≡ record self.old { forgotten = place } }
    {
        shed(&mut self.kept, place - self.forgotten);
        self.forgotten = place;
    }
}
