// Entries of the log, as contracts see them. Used by `log_prefix`, `commit_state`, `in_flight` and
// `published`.
ghost use Rattle.std.specs.Prelude.{◌≡◌};
ghost use base.Fml.{ftrue};
ghost use Rattle.std.specs.Coded.{codes};
ghost use Rattle.kv_core.specs.declared.change.CommitRequest.{CommitRequest as Request};
ghost use Rattle.kv_core.specs.contracts.change.CommitRequest as requests;

use crate::trace::Trace;
use kv_core::CommitRequest;
use std::marker::Model;

/// One reported version: whose submission it was, what it asked for, and what its transaction
/// performed. No value of it is made. Whether it is committed follows from the log that it is in.
pub struct Entry {
    pub client: u64,
    pub number: u64,
    pub request: CommitRequest,
    pub trace: Trace,
}

/// A request as clauses see it: no bytes of it are kept.
#[derive(Drop)]
pub struct RequestView {
    pub ghost value: { Request } by { Prim.hlevel (codes, requests.the_row.coded) },
}

impl Model for RequestView {
    ghost also_owns = { λ _. ftrue };
}

// It owns nothing, so it may go to another thread, whatever its request would own.
unsafe impl Send for RequestView {}

impl RequestView {
    /// What clauses see of a request.
    pub fn of(_request: &CommitRequest) -> RequestView
        ensures { result.value ≡ _request.now }
    {
        RequestView {}
    }
}

/// A submission: what its entry will be. The request has no bytes here.
#[derive(Drop)]
pub struct Submitted {
    pub client: u64,
    pub number: u64,
    pub request: RequestView,
    pub trace: Trace,
}
