// Why bytes are no entry.
ghost use Rattle.std.specs.Prelude.{◌≡◌};
ghost use Rattle.command_log.specs.declared.error.EntryError.TheVariants.{Memory};
ghost use Rattle.command_log.specs.Answers.{told_failure};

use std::alloc::{AllocError, AllocFailed};
use thiserror::Error;
use tuple_codec::{UnpackError, UnpackFailure};

/// Why bytes are no entry.
#[derive(Clone, Copy, Debug, PartialEq, Eq, Drop, Error)]
pub enum EntryError {
    /// Memory ran out.
    #[error("out of memory")]
    Memory,
    /// The bytes spell no tuple.
    #[error("no tuple: {0}")]
    Unspelled(UnpackError),
    /// The bytes spell a tuple that isn't an entry's.
    #[error("a tuple that isn't an entry's")]
    NotAnEntry,
}

impl From<AllocError> for EntryError {
    ghost from_gives = { λ _ error. error ≡ Memory };

    fn from(_error: AllocError) -> EntryError {
        EntryError::Memory
    }
}

impl<T: Drop> From<AllocFailed<T>> for EntryError {
    ghost from_gives = { λ _ error. error ≡ Memory };

    fn from(_error: AllocFailed<T>) -> EntryError {
        EntryError::Memory
    }
}

impl From<UnpackFailure> for EntryError {
    ghost from_gives = { λ failure error. error ≡ told_failure failure };

    fn from(failure: UnpackFailure) -> EntryError {
        match failure {
            UnpackFailure::Memory => EntryError::Memory,
            UnpackFailure::Refused(error) => EntryError::Unspelled(error),
        }
    }
}
