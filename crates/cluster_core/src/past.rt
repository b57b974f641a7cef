// The requests that were submitted, as contracts see them: no bytes of them are kept. Used by
// `requests`.
ghost use Rattle.std.specs.Prelude.{◌≡◌, List, [], ◌∷◌, ◌++◌};
ghost use base.Fml.{ftrue};
ghost use Rattle.std.specs.Coded.{codes};
ghost use Rattle.kv_core.specs.declared.change.CommitRequest.{CommitRequest as Request};
ghost use Rattle.kv_core.specs.contracts.change.CommitRequest as requests;

use kv_core::CommitRequest;
use std::marker::Model;

/// Requests in the order in which they were submitted. It exists in proofs alone.
#[derive(Debug, Drop)]
pub(crate) struct Past {
    pub ghost list: { List Request } by { Prim.hlevel (codes, requests.the_row.coded) },
}

impl Model for Past {
    ghost also_owns = { λ _. ftrue };
}

// It owns nothing, so it may go to another thread, whatever its requests would own.
unsafe impl Send for Past {}

impl Past {
    /// No request.
    pub fn new() -> Past
        ensures { result.list ≡ [] }
    {
        Past {}
    }

    /// The requests with one more.
    #[inline(always)]
    pub fn then(&self, _request: &CommitRequest) -> Past
        ensures { result.list ≡ self.now.list ++ _request.now ∷ [] }
    {
        Past {}
    }
}
