// The errors of a call. Used by `answering`, and by the crate `drive_form`.
ghost use Rattle.std.specs.Prelude.{◌≡◌};
ghost use Rattle.drive.specs.declared.error.DriveError.TheVariants.{Memory};
ghost use Rattle.drive.specs.Errors.{error_of};

use kv_core::WriteError;
use std::alloc::{AllocError, AllocFailed};
use thiserror::Error;

/// Why a call has no answer.
#[derive(Clone, Copy, Debug, PartialEq, Eq, Drop, Error)]
pub enum DriveError {
    /// What is said to be written so far is no transaction's.
    #[error("what was written so far is refused: {0}")]
    Write(WriteError),
    /// Memory ran out.
    #[error("out of memory")]
    Memory,
}

impl From<AllocError> for DriveError {
    ghost from_gives = { λ _ error. error ≡ Memory };

    fn from(_error: AllocError) -> DriveError {
        DriveError::Memory
    }
}

impl<T: Drop> From<AllocFailed<T>> for DriveError {
    ghost from_gives = { λ _ error. error ≡ Memory };

    fn from(_error: AllocFailed<T>) -> DriveError {
        DriveError::Memory
    }
}

impl From<WriteError> for DriveError {
    ghost from_gives = { λ why error. error ≡ error_of why };

    fn from(error: WriteError) -> DriveError {
        match error {
            WriteError::Memory => DriveError::Memory,
            WriteError::KeyOutside
            | WriteError::KeyTooLarge
            | WriteError::ValueTooLarge
            | WriteError::TransactionTooLarge => DriveError::Write(error),
        }
    }
}
