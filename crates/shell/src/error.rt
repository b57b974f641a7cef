// Why a shell ends. Used by every module here; `recordctl` prints it.
use logged_schedule::StepError;
use std::alloc::{AllocError, AllocFailed};
use std::io;
use std::io::ErrorKind;

/// Why a shell ends before its input does.
#[derive(Debug, Drop)]
pub enum ShellError {
    /// There isn't memory enough.
    OutOfMemory,
    /// What is told can't be written.
    CannotWrite,
    /// The input can't be read.
    CannotRead,
    /// The log of the database doesn't go on.
    Unlogged(StepError),
}

impl From<AllocError> for ShellError {
    fn from(_error: AllocError) -> ShellError {
        ShellError::OutOfMemory
    }
}

impl<T: Drop> From<AllocFailed<T>> for ShellError {
    fn from(_error: AllocFailed<T>) -> ShellError {
        ShellError::OutOfMemory
    }
}

impl From<io::Error> for ShellError {
    fn from(error: io::Error) -> ShellError {
        // As where a buffer isn't made.
        if error.kind() == ErrorKind::OutOfMemory {
            ShellError::OutOfMemory
        } else {
            ShellError::CannotWrite
        }
    }
}

impl From<StepError> for ShellError {
    fn from(error: StepError) -> ShellError {
        match error {
            StepError::Memory => ShellError::OutOfMemory,
            StepError::Full | StepError::Unknown | StepError::Starved => {
                ShellError::Unlogged(error)
            }
        }
    }
}
