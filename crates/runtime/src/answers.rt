// The answers and errors of the running database's calls. Used by `db`, `client`, `transaction`,
// `retrying` and `index_worker`, and by whoever calls these.
ghost use Rattle.std.specs.Prelude.{◌≡◌};
ghost use Rattle.runtime.specs.declared.answers.OpenError.TheVariants.{Memory as OpenMemory};
ghost use Rattle.runtime.specs.declared.answers.CommandError.TheVariants.{Memory as CommandMemory};
ghost use Rattle.runtime.specs.Errors.{command_error, config_error, run_memory, run_refused};

use crate::log_prefix::LogPrefix;
use crate::published_reads::EnterError;
use cluster_core::ConfigError;
use kv_core::{Bytes, KeyRange};
use schedule::Refusal;
use std::alloc::{AllocError, AllocFailed};
use thiserror::Error;

/// Why a database isn't opened.
#[derive(Clone, Copy, Debug, PartialEq, Eq, Error)]
pub enum OpenError {
    /// The configuration is refused.
    #[error("the configuration is refused")]
    Config(ConfigError),
    /// No place for a reader was given.
    #[error("no place for a reader was given")]
    NoPlace,
    /// Memory ran out.
    #[error("out of memory")]
    Memory,
}

impl From<ConfigError> for OpenError {
    ghost from_gives = { λ error made. made ≡ config_error error };

    fn from(error: ConfigError) -> OpenError {
        match error {
            ConfigError::Memory => OpenError::Memory,
            other => OpenError::Config(other),
        }
    }
}

impl From<AllocError> for OpenError {
    ghost from_gives = { λ _ made. made ≡ OpenMemory };

    fn from(_error: AllocError) -> OpenError {
        OpenError::Memory
    }
}

impl<T: Drop> From<AllocFailed<T>> for OpenError {
    ghost from_gives = { λ _ made. made ≡ OpenMemory };

    fn from(_error: AllocFailed<T>) -> OpenError {
        OpenError::Memory
    }
}

/// A published log, for another client to learn.
#[derive(Drop)]
pub struct Seen {
    pub prefix: LogPrefix,
}

/// How a transaction ended well.
#[derive(Drop)]
pub enum Done {
    /// It is committed at this version, and whoever learns `seen` sees it.
    Committed { version: u64, seen: Seen },
    /// It changed nothing.
    ReadOnly,
}

/// Why a transaction isn't committed, as far as is known.
#[derive(Debug, Drop, Error)]
pub enum CommitError {
    /// The version `seen` is the newest that wrote in `range`, which the transaction read.
    #[error("version {seen} wrote what the transaction read")]
    Conflict { seen: u64, range: KeyRange },
    /// The transaction read longer ago than the window allows.
    #[error("the transaction read too long ago")]
    TooOld,
    /// There is no version left, or no number for the submission.
    #[error("there is no version or number left")]
    VersionsExhausted,
    /// It was submitted, and memory ran out before it was told what became of it. Its place in the
    /// log is fixed, and whoever commits next finishes it.
    #[error("out of memory after the transaction was submitted")]
    Unknown,
    /// Memory ran out before it was submitted, also in recording what it changes or in finishing an
    /// earlier submission, or after it was refused and before that could be shown; or there was no
    /// open transaction.
    #[error("out of memory")]
    Memory,
    /// It wasn't submitted: the log failed, or memory ran out in an earlier commit, of which it
    /// isn't known what became. The database has to be opened anew.
    #[error("the database is closed")]
    Closed,
}

/// Why a command of a transaction has no answer.
#[derive(Debug, Drop, Error)]
pub enum CommandError {
    /// It is refused.
    #[error("the command is refused: {0:?}")]
    Refused(Refusal),
    /// The pair of this key isn't one that a store has there.
    #[error("a pair isn't one that a store has there")]
    Corrupt(Bytes),
    /// The published state wasn't entered, in `TRIES` attempts, or there is no open transaction.
    #[error("the published state wasn't entered")]
    NotEntered,
    /// The transaction reads longer ago than the window allows.
    #[error("the transaction reads too long ago")]
    TooOld,
    /// Memory ran out. The transaction can go on.
    #[error("out of memory")]
    Memory,
}

impl From<EnterError> for CommandError {
    ghost from_gives = { λ error made. made ≡ command_error error };

    fn from(error: EnterError) -> CommandError {
        match error {
            EnterError::NotEntered => CommandError::NotEntered,
            EnterError::TooOld => CommandError::TooOld,
            EnterError::Memory => CommandError::Memory,
        }
    }
}

impl From<AllocError> for CommandError {
    ghost from_gives = { λ _ made. made ≡ CommandMemory };

    fn from(_error: AllocError) -> CommandError {
        CommandError::Memory
    }
}

impl<T: Drop> From<AllocFailed<T>> for CommandError {
    ghost from_gives = { λ _ made. made ≡ CommandMemory };

    fn from(_error: AllocFailed<T>) -> CommandError {
        CommandError::Memory
    }
}

/// Why a run of transactions has no answer.
#[derive(Debug, Drop, Error)]
pub enum RunError {
    /// A transaction wasn't begun, or its body gave it up.
    #[error("a transaction was given up: {0}")]
    Refused(CommandError),
    /// The last attempt that there may be wasn't committed, or another one doesn't help.
    #[error("no attempt was committed")]
    GaveUp,
}

impl From<AllocError> for RunError {
    ghost from_gives = { λ _ made. made ≡ run_memory };

    fn from(_error: AllocError) -> RunError {
        RunError::Refused(CommandError::Memory)
    }
}

impl From<CommandError> for RunError {
    ghost from_gives = { λ error made. made ≡ run_refused error };

    fn from(error: CommandError) -> RunError {
        RunError::Refused(error)
    }
}
