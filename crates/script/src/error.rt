// The errors of a script or a race that is read. Used by `script` and `race`; `recordctl` prints
// them.
ghost use Rattle.std.specs.Prelude.{◌≡◌};
ghost use Rattle.script.specs.declared.error.ScriptError.TheVariants.{OutOfMemory};

use json_forms::PartError;
use std::alloc::{AllocError, AllocFailed};
use thiserror::Error;

/// Why a text is no script.
#[derive(Clone, Copy, Debug, PartialEq, Eq, Drop, Error)]
pub enum ScriptError {
    /// The script is refused at this step, counted from 1; 0 is the script's frame.
    #[error("bad script at step {0}")]
    BadScript(usize),
    /// Memory is wanting.
    #[error("out of memory")]
    OutOfMemory,
}

impl From<AllocError> for ScriptError {
    ghost from_gives = { λ _ error. error ≡ OutOfMemory };

    fn from(_error: AllocError) -> ScriptError {
        ScriptError::OutOfMemory
    }
}

impl<T: Drop> From<AllocFailed<T>> for ScriptError {
    ghost from_gives = { λ _ error. error ≡ OutOfMemory };

    fn from(_error: AllocFailed<T>) -> ScriptError {
        ScriptError::OutOfMemory
    }
}

impl ScriptError {
    // The error of a script with this error in the step of this number.
    pub(crate) fn at(step: usize, error: PartError) -> ScriptError
        ensures form { error ≡ PartError.BadForm → result ≡ ScriptError.BadScript step }
        ensures memory { error ≡ PartError.OutOfMemory → result ≡ ScriptError.OutOfMemory }
    {
        match error {
            PartError::BadForm => ScriptError::BadScript(step),
            PartError::OutOfMemory => ScriptError::OutOfMemory,
        }
    }
}
