// Why bytes aren't taken. Used by the other modules here, and by the crate `record_c`.
ghost use Rattle.std.specs.Prelude.{◌≡◌};
ghost use Rattle.drive_form.specs.declared.error.FormError.TheVariants.{OutOfMemory};
ghost use Rattle.drive_form.specs.Refused.{of_call, of_script};

use drive::DriveError;
use script::ScriptError;
use std::alloc::{AllocError, AllocFailed};
use thiserror::Error;

/// Why there is no answer.
#[derive(Clone, Copy, Debug, PartialEq, Eq, Drop, Error)]
pub enum FormError {
    /// The bytes aren't of the form, or what they say was written is no transaction's.
    #[error("bad form")]
    BadForm,
    /// The commands aren't of their form.
    #[error("bad command")]
    BadCommand,
    /// Memory ran out.
    #[error("out of memory")]
    OutOfMemory,
}

impl From<AllocError> for FormError {
    ghost from_gives = { λ _ error. error ≡ OutOfMemory };

    fn from(_error: AllocError) -> FormError {
        FormError::OutOfMemory
    }
}

impl<T: Drop> From<AllocFailed<T>> for FormError {
    ghost from_gives = { λ _ error. error ≡ OutOfMemory };

    fn from(_error: AllocFailed<T>) -> FormError {
        FormError::OutOfMemory
    }
}

impl From<DriveError> for FormError {
    ghost from_gives = { λ why error. error ≡ of_call why };

    fn from(error: DriveError) -> FormError {
        match error {
            DriveError::Write(_) => FormError::BadForm,
            DriveError::Memory => FormError::OutOfMemory,
        }
    }
}

impl From<ScriptError> for FormError {
    ghost from_gives = { λ why error. error ≡ of_script why };

    fn from(error: ScriptError) -> FormError {
        match error {
            ScriptError::BadScript(_) => FormError::BadCommand,
            ScriptError::OutOfMemory => FormError::OutOfMemory,
        }
    }
}
