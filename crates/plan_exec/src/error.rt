// The errors of an execution. Used by most modules here, and by `schedule` and applications.
ghost use Rattle.std.specs.Prelude.{◌≡◌};
ghost use Rattle.plan_exec.specs.Errors.{exec_memory, exec_read};

use kv_core::{Bytes, ReadError};
use std::alloc::{AllocError, AllocFailed};
use thiserror::Error;

/// Why a plan isn't executed.
#[derive(Debug, Drop, Error)]
pub enum ExecError {
    /// The store has no type of the plan's number, name and key whose fields begin with the plan's.
    #[error("the plan's type isn't that of the store's schema")]
    OtherSchema,
    /// An index of the plan isn't there with its definition, or isn't readable.
    #[error("an index of the plan isn't readable")]
    IndexNotReadable,
    /// A read is refused.
    #[error("{0}")]
    Read(ReadError),
    /// The pair of this key isn't one that a store has there.
    #[error("the pair of the key {0} isn't one that a store has there")]
    Corrupt(Bytes),
    /// Memory runs out.
    #[error("out of memory")]
    Memory,
}

impl From<AllocError> for ExecError {
    ghost from_gives = { λ _ made. made ≡ exec_memory };

    fn from(_error: AllocError) -> ExecError {
        ExecError::Memory
    }
}

impl<T: Drop> From<AllocFailed<T>> for ExecError {
    ghost from_gives = { λ _ made. made ≡ exec_memory };

    fn from(_error: AllocFailed<T>) -> ExecError {
        ExecError::Memory
    }
}

impl From<ReadError> for ExecError {
    ghost from_gives = { λ error made. made ≡ exec_read error };

    fn from(error: ReadError) -> ExecError {
        match error {
            ReadError::Memory => ExecError::Memory,
            error => ExecError::Read(error),
        }
    }
}
