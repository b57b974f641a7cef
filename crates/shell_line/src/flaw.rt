// What is wrong with a line. Used by every module here.
use std::alloc::{AllocError, AllocFailed, Global};

/// What is wrong with a line, and where.
#[derive(Debug, Drop)]
pub struct Flaw {
    /// Its place in the line, in bytes from 0.
    pub at: usize,
    /// What is wrong.
    pub reason: String,
}

/// Why a line stands for nothing.
#[derive(Debug, Drop)]
pub enum LineError {
    /// It isn't of any form.
    Bad(Flaw),
    /// There isn't memory enough.
    OutOfMemory,
}

impl From<AllocError> for LineError {
    fn from(_error: AllocError) -> LineError {
        LineError::OutOfMemory
    }
}

impl<T: Drop> From<AllocFailed<T>> for LineError {
    fn from(_error: AllocFailed<T>) -> LineError {
        LineError::OutOfMemory
    }
}

impl LineError {
    /// The error of what is wrong at a place.
    pub(crate) fn told(at: usize, reason: Result<String, AllocError>) -> LineError {
        match reason {
            Ok(reason) => LineError::Bad(Flaw { at, reason }),
            Err(AllocError) => LineError::OutOfMemory,
        }
    }

    /// The same of a text that is no value's.
    pub(crate) fn said(alloc: Global, at: usize, reason: &str) -> LineError {
        LineError::told(at, String::from_str(alloc, reason))
    }
}
