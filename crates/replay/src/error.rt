// Why changes weren't performed, and why a log isn't replayed.
ghost use Rattle.std.specs.Prelude.{◌≡◌};
ghost use Rattle.replay.specs.declared.error.PerformError.TheVariants as performs;
ghost use Rattle.replay.specs.declared.error.ReplayError.TheVariants as replays;

use command_log::EntryError;
use kv_core::Bytes;
use schedule::Refusal;
use std::alloc::{AllocError, AllocFailed};
use thiserror::Error;

/// Why changes weren't performed. Nothing has changed then.
#[derive(Debug, Drop, Error)]
pub enum PerformError {
    /// Memory ran out.
    #[error("out of memory")]
    Memory,
    /// The change at this place is refused.
    #[error("change {0} is refused: {1:?}")]
    Refused(usize, Refusal),
    /// The change at this place is refused: the pair of this key isn't one that a store has there.
    #[error("change {0} meets a damaged pair")]
    Corrupt(usize, Bytes),
}

impl From<AllocError> for PerformError {
    ghost from_gives = { λ _ error. error ≡ performs.Memory };

    fn from(_error: AllocError) -> PerformError {
        PerformError::Memory
    }
}

impl<T: Drop> From<AllocFailed<T>> for PerformError {
    ghost from_gives = { λ _ error. error ≡ performs.Memory };

    fn from(_error: AllocFailed<T>) -> PerformError {
        PerformError::Memory
    }
}

/// Why a log isn't replayed. Places count its entries, from 0.
#[derive(Debug, Drop, Error)]
pub enum ReplayError {
    /// Memory ran out.
    #[error("out of memory")]
    Memory,
    /// The bytes at this place are no entry's.
    #[error("entry {0}: {1}")]
    NotAnEntry(usize, EntryError),
    /// The version of the entry at this place isn't above that of the one before.
    #[error("entry {0} is out of order")]
    OutOfOrder(usize),
    /// The entry at this place has a number of a store that there isn't.
    #[error("entry {0} is of no store")]
    NoSuchStore(usize),
    /// A change of the entry at this place is refused.
    #[error("entry {0}: {1}")]
    Refused(usize, PerformError),
}

impl From<AllocError> for ReplayError {
    ghost from_gives = { λ _ error. error ≡ replays.Memory };

    fn from(_error: AllocError) -> ReplayError {
        ReplayError::Memory
    }
}
