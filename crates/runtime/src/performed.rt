// The commands that a transaction performed, for contracts: no bytes of them are kept. Used by
// `trace`.
ghost use Rattle.std.specs.Prelude.{◌≡◌, List, [], ◌∷◌, ◌++◌};
ghost use base.Fml.{ftrue};
ghost use Rattle.std.specs.Coded.{codes};
ghost use Rattle.runtime.specs.declared.performed.Performed.{Performed};
ghost use Rattle.runtime.specs.contracts.performed.Performed as performed;

use schedule::{Command, Reply};
use std::marker::Model;

/// A command that was performed, and its reply. No value of it is made.
pub struct Performed {
    pub command: Command,
    pub reply: Reply,
}

/// The commands that a transaction performed, in order, as clauses see them: no bytes of them are
/// kept.
#[derive(Drop)]
pub struct Attempts {
    pub ghost list: { List Performed } by { Prim.hlevel (codes, performed.the_row.coded) },
}

impl Model for Attempts {
    ghost also_owns = { λ _. ftrue };
}

// It owns nothing, so it may go to another thread, whatever its commands would own.
unsafe impl Send for Attempts {}

impl Attempts {
    /// No command.
    pub fn new() -> Attempts
        ensures { result.list ≡ [] }
    {
        Attempts {}
    }

    /// The commands with one more, and its reply.
    #[inline(always)]
    pub fn then(&self, _command: &Command, _reply: &Reply) -> Attempts
        ensures { result.list
            ≡ self.now.list ++ record { command = _command.now; reply = _reply.now } ∷ [] }
    {
        Attempts {}
    }
}
