// The decision of a retry loop. Called by `runtime` and applications; `race` and applications set
// its limits.
ghost use Rattle.std.specs.Prelude.{◌≡◌, ◌<◌, ◌↔◌};
ghost use Rattle.txn.specs.Attempts.{HasSucceeded, MayTryAgain, again_below, next_after};

/// How an attempt ended.
#[derive(Clone, Copy, Debug, PartialEq, Eq)]
pub enum Ended {
    /// What it wrote is committed.
    Committed,
    /// It wrote nothing, so there was nothing to commit.
    ReadOnly,
    /// A newer version wrote what it read.
    Conflict,
    /// It read longer ago than the window allows.
    TooOld,
    /// It read at a version that isn't there yet.
    FutureVersion,
    /// Its request has a version, and isn't known to be committed or not.
    Unknown,
    /// It failed in a way that another attempt doesn't help.
    Other,
}

/// What follows an attempt.
#[derive(Clone, Copy, Debug, PartialEq, Eq)]
pub enum Next {
    /// Another attempt.
    Again,
    /// Nothing: it did what it was for.
    Done,
    /// Nothing, though it failed.
    GiveUp,
}

/// How many attempts there may be.
#[derive(Clone, Copy, Debug, PartialEq, Eq)]
pub struct Retry {
    /// The number of the last attempt, where the first is 1.
    pub limit: u64,
}

impl Retry {
    /// What follows this attempt, counted from 1. An attempt whose end is unknown may have written,
    /// so another one follows it only where its writes are repeatable: where they may be made twice.
    pub fn next(self, ended: Ended, attempt: u64, repeatable: bool) -> Next
        ensures table { result ≡ next_after self.limit ended attempt repeatable }
        ensures done { (result ≡ Next.Done) ↔ HasSucceeded ended }
        ensures again { (result ≡ Next.Again) ↔ ((attempt < self.limit) × MayTryAgain ended repeatable) }
    {
        match ended {
            Ended::Committed | Ended::ReadOnly => Next::Done,
            Ended::Conflict | Ended::TooOld | Ended::FutureVersion => self.below(attempt),
            Ended::Unknown if repeatable => self.below(attempt),
            Ended::Unknown | Ended::Other => Next::GiveUp,
        }
    }

    /// What follows an attempt that another one may follow.
    fn below(self, attempt: u64) -> Next
        ensures { result ≡ again_below self.limit attempt }
    {
        if attempt < self.limit {
            Next::Again
        } else {
            Next::GiveUp
        }
    }
}
