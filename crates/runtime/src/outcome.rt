// What becomes of a request that a client hands in. Told by `commit_state`, handed on by
// `handing_in`, and made an answer by `client`.
ghost use Rattle.std.specs.Prelude.{◌≡◌, None};
ghost use Rattle.runtime.specs.Outcomes.{outcome_by};
ghost use Rattle.runtime.specs.declared.outcome.Outcome.TheVariants.{Memory};

use crate::log_prefix::LogPrefix;
use cluster_core::Reported;
use kv_core::KeyRange;
use std::alloc::AllocError;

/// What becomes of a request.
#[derive(Debug, Drop)]
pub enum Outcome {
    /// It is committed at this version.
    Committed { version: u64 },
    /// It is refused: the version `seen` is the newest that wrote in `range`, which it read.
    Conflict { seen: u64, range: KeyRange },
    /// It read longer ago than the window allows, and wasn't submitted.
    TooOld,
    /// There is no version left, or no number for its client, and it wasn't submitted.
    VersionsExhausted,
    /// It was submitted, and memory ran out before anything was told of it. Its entry comes next.
    Unknown,
    /// Memory ran out before it was submitted, also in finishing what was in flight, or there is no
    /// such client or log here.
    Memory,
}

impl From<AllocError> for Outcome {
    ghost from_gives = { λ _ made. made ≡ Memory };

    fn from(_error: AllocError) -> Outcome {
        Outcome::Memory
    }
}

impl Outcome {
    /// The outcome of a submission of which this is reported.
    pub fn of(reported: Reported) -> Outcome
        ensures { result ≡ outcome_by reported }
    {
        match reported {
            Reported::Committed(version) => Outcome::Committed { version },
            Reported::Conflict { seen, range } => Outcome::Conflict { seen, range },
            Reported::NothingToDo => Outcome::Unknown,
        }
    }
}

/// What became of a request that was handed in, and the log that ends with its entry, where it has
/// one and the history has that.
#[derive(Drop)]
pub struct HandedIn {
    pub outcome: Outcome,
    pub due: Option<LogPrefix>,
}

impl HandedIn {
    /// One of a request that has no entry.
    pub fn without(outcome: Outcome) -> HandedIn
        ensures { (result.outcome ≡ outcome) × (result.due ≡ None) }
    {
        HandedIn { outcome, due: None }
    }
}
