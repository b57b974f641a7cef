// Why work in a session isn't done and committed. Used by `session` and `working`, and by
// applications.
ghost use Rattle.std.specs.Prelude.{◌≡◌};

use crate::database::NotCommitted;
use crate::error::Error;
use std::fmt;

/// Why work isn't done and committed. It can't be dropped, as `NotCommitted` can't: match it, hand
/// it on by `?`, or let it go by `forget`.
#[derive(Debug)]
pub enum NotDone {
    /// The store isn't opened, or the work gave up. Nothing of it is committed.
    Refused(Error),
    /// What it wrote isn't committed, or isn't known to be.
    NotCommitted(NotCommitted),
}

impl NotDone {
    /// Lets the answer go.
    pub fn forget(self) {
        match self {
            NotDone::Refused(error) => drop(error),
            NotDone::NotCommitted(why) => why.forget(),
        }
    }
}

impl fmt::Display for NotDone {
    fn fmt<W: fmt::Write>(&self, f: &mut fmt::Formatter<W>) -> fmt::Result {
        match self {
            NotDone::Refused(error) => write!(f, "{error}"),
            NotDone::NotCommitted(why) => write!(f, "{why}"),
        }
    }
}

impl From<Error> for NotDone {
    ghost use Rattle.record_layer.specs.declared.not_done.NotDone.{NotDone};

    ghost from_gives = { λ error made. made ≡ NotDone.Refused error };

    fn from(error: Error) -> NotDone {
        NotDone::Refused(error)
    }
}

impl From<NotCommitted> for NotDone {
    ghost use Rattle.record_layer.specs.declared.not_done.NotDone.{NotDone};

    ghost from_gives = { λ error made. made ≡ NotDone.NotCommitted error };

    fn from(error: NotCommitted) -> NotDone {
        NotDone::NotCommitted(error)
    }
}
