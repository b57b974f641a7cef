// Why a database isn't opened, and why a transaction isn't committed.
ghost use Rattle.std.specs.Prelude.{◌≡◌};
ghost use Rattle.durable.specs.declared.error.CheckpointError.TheVariants as checkpoints;
ghost use Rattle.durable.specs.declared.error.CommitError.TheVariants as commits;
ghost use Rattle.durable.specs.declared.error.ReopenError.TheVariants as reopens;
ghost use Rattle.durable.specs.Told.{commit_error, open_error, reopen_error, unreplayed_error};

use journal::RecoverError;
use replay::{PerformError, ReplayError};
use std::alloc::AllocError;
use thiserror::Error;

/// Why a database isn't opened.
#[derive(Debug, Drop, Error)]
pub enum OpenError {
    /// Memory ran out.
    #[error("out of memory")]
    Memory,
    /// The device failed.
    #[error("the device failed")]
    Failed,
    /// The log is damaged from this byte on. It keeps each of its bytes.
    #[error("the log is damaged from byte {0} on")]
    Damage(usize),
    /// What is logged isn't what a database logs.
    #[error("{0}")]
    Unreplayed(ReplayError),
}

impl From<RecoverError<AllocError>> for OpenError {
    ghost from_gives = { λ error made. made ≡ open_error error };

    fn from(error: RecoverError<AllocError>) -> OpenError {
        match error {
            RecoverError::Memory | RecoverError::Refused(_) => OpenError::Memory,
            RecoverError::Failed => OpenError::Failed,
            RecoverError::Damage(at) => OpenError::Damage(at),
        }
    }
}

impl From<ReplayError> for OpenError {
    ghost from_gives = { λ error made. made ≡ unreplayed_error error };

    fn from(error: ReplayError) -> OpenError {
        match error {
            ReplayError::Memory => OpenError::Memory,
            ReplayError::NotAnEntry(_, _)
            | ReplayError::OutOfOrder(_)
            | ReplayError::NoSuchStore(_)
            | ReplayError::Refused(_, _) => OpenError::Unreplayed(error),
        }
    }
}

/// A device whose log wasn't opened.
#[derive(Drop)]
pub struct Unopened<D> {
    pub device: D,
    pub error: OpenError,
}

/// Why a transaction isn't committed, or isn't known to be.
#[derive(Debug, Drop, Error)]
pub enum CommitError {
    /// Memory ran out. Nothing has changed.
    #[error("out of memory")]
    Memory,
    /// A change is refused. Nothing has changed.
    #[error("{0}")]
    Refused(PerformError),
    /// The log would get longer than a file may be. Nothing has changed.
    #[error("the log is full")]
    Full,
    /// The last version was given. Nothing has changed.
    #[error("no version is left")]
    Exhausted,
    /// It isn't known what became of an earlier transaction, so that the database has to be opened
    /// anew. Nothing has changed.
    #[error("the database is closed")]
    Closed,
    /// The device failed: the log has the transaction or not, and the database has to be opened
    /// anew.
    #[error("the device failed: the transaction may be committed or not")]
    Unknown,
    /// Memory ran out in the device, as it does in none that is a file: the log has the transaction
    /// or not, and the database has to be opened anew.
    #[error("out of memory in the device: the transaction may be committed or not")]
    Starved,
    /// It is committed, and the log has it. Memory ran out before it could be read, so that the
    /// database has to be opened anew.
    #[error("the transaction is committed, and out of memory to read it")]
    Unseen,
}

impl From<AllocError> for CommitError {
    ghost from_gives = { λ _ error. error ≡ commits.Memory };

    fn from(_error: AllocError) -> CommitError {
        CommitError::Memory
    }
}

impl From<PerformError> for CommitError {
    ghost from_gives = { λ error made. made ≡ commit_error error };

    fn from(error: PerformError) -> CommitError {
        match error {
            PerformError::Memory => CommitError::Memory,
            PerformError::Refused(_, _) | PerformError::Corrupt(_, _) => {
                CommitError::Refused(error)
            }
        }
    }
}

/// The first of several transactions that isn't committed.
#[derive(Debug, Drop, Error)]
#[error("transaction {place}: {error}")]
pub struct Uncommitted {
    /// How many before it are committed.
    pub place: usize,
    pub error: CommitError,
}

/// Why no checkpoint is made. What is committed stays so.
#[derive(Debug, Drop, Error)]
pub enum CheckpointError {
    /// Memory ran out. The database goes on as before.
    #[error("out of memory")]
    Memory,
    /// The state is longer than a file may be. The database goes on as before.
    #[error("the state is longer than a file may be")]
    Full,
    /// The last generation was given. The database goes on as before.
    #[error("no generation is left")]
    Exhausted,
    /// The database is closed, and has to be opened anew.
    #[error("the database is closed")]
    Closed,
    /// The device that isn't in use failed, so that the database has to be opened anew.
    #[error("the device failed")]
    Failed,
    /// Memory ran out in the device that isn't in use, so that the database has to be opened anew.
    #[error("out of memory in the device")]
    Starved,
}

impl From<AllocError> for CheckpointError {
    ghost from_gives = { λ _ error. error ≡ checkpoints.Memory };

    fn from(_error: AllocError) -> CheckpointError {
        CheckpointError::Memory
    }
}

/// Why a database over two devices isn't opened.
#[derive(Debug, Drop, Error)]
pub enum ReopenError {
    /// Memory ran out.
    #[error("out of memory")]
    Memory,
    /// The file of the first device isn't recovered.
    #[error("the first file: {0}")]
    First(OpenError),
    /// The file of the second device isn't recovered.
    #[error("the second file: {0}")]
    Second(OpenError),
    /// What stands after the head of the newer file aren't the pairs that it counts.
    #[error("the checkpoint isn't one of a database")]
    NotACheckpoint,
    /// What is logged in the newer file isn't what a database logs.
    #[error("{0}")]
    Unreplayed(ReplayError),
    /// Both files are of this generation.
    #[error("both files are of generation {0}")]
    SameGeneration(u64),
}

impl From<AllocError> for ReopenError {
    ghost from_gives = { λ _ error. error ≡ reopens.Memory };

    fn from(_error: AllocError) -> ReopenError {
        ReopenError::Memory
    }
}

impl From<ReplayError> for ReopenError {
    ghost from_gives = { λ error made. made ≡ reopen_error error };

    fn from(error: ReplayError) -> ReopenError {
        match error {
            ReplayError::Memory => ReopenError::Memory,
            ReplayError::NotAnEntry(_, _)
            | ReplayError::OutOfOrder(_)
            | ReplayError::NoSuchStore(_)
            | ReplayError::Refused(_, _) => ReopenError::Unreplayed(error),
        }
    }
}

/// Two devices whose database wasn't opened.
#[derive(Drop)]
pub struct UnopenedTwo<D> {
    pub first: D,
    pub second: D,
    pub error: ReopenError,
}

impl<D> UnopenedTwo<D> {
    // The same of the two devices in the other order.
    pub(crate) fn swapped(self) -> UnopenedTwo<D>
        ensures { result
            ≡ record { first = self.second; second = self.first; error = self.error } }
    {
        let UnopenedTwo {
            first,
            second,
            error,
        } = self;
        UnopenedTwo {
            first: second,
            second: first,
            error,
        }
    }
}
