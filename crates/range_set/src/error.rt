// The errors of reads. Used by `reading`, `ranges` and `decoding`; `record_store` passes them on.
ghost use Rattle.std.specs.Prelude.{◌≡◌};
ghost use Rattle.range_set.specs.Steps.{set_memory, set_read};

use kv_core::{Bytes, ReadError};
use std::alloc::{AllocError, AllocFailed};
use thiserror::Error;

/// Why a set of positions isn't read.
#[derive(Debug, Drop, Error)]
pub enum RangeSetError {
    /// Memory runs out.
    #[error("out of memory")]
    Memory,
    /// The read is refused.
    #[error("{0}")]
    Read(ReadError),
    /// The pair of this key stands for no range that may be stored, or for one that overlaps the
    /// range of the pair before it.
    #[error("the pair of the key {0} isn't one that a set of positions has there")]
    Corrupt(Bytes),
}

impl From<AllocError> for RangeSetError {
    ghost from_gives = { λ _ made. made ≡ set_memory };

    fn from(_error: AllocError) -> RangeSetError {
        RangeSetError::Memory
    }
}

impl<T: Drop> From<AllocFailed<T>> for RangeSetError {
    ghost from_gives = { λ _ made. made ≡ set_memory };

    fn from(_error: AllocFailed<T>) -> RangeSetError {
        RangeSetError::Memory
    }
}

impl From<ReadError> for RangeSetError {
    ghost from_gives = { λ error made. made ≡ set_read error };

    fn from(error: ReadError) -> RangeSetError {
        match error {
            ReadError::Memory => RangeSetError::Memory,
            error => RangeSetError::Read(error),
        }
    }
}
