// The errors of calls on a store. Used by most modules here, and by `online_builder`, `schedule`
// and applications.
ghost use Rattle.std.specs.Prelude.{◌≡◌};
ghost use Rattle.record_store.specs.Steps.{no_memory, of_metadata, of_read, of_set, of_write};

use kv_core::{Bytes, ReadError, WriteError};
use metadata::{MetadataError, Refusal};
use range_set::RangeSetError;
use std::alloc::{AllocError, AllocFailed};
use thiserror::Error;

/// Why a call on the store isn't answered.
#[derive(Debug, Drop, Error)]
pub enum StoreError {
    /// Memory runs out.
    #[error("out of memory")]
    Memory,
    /// A read is refused.
    #[error("{0}")]
    Read(ReadError),
    /// A write is refused.
    #[error("{0}")]
    Write(WriteError),
    /// The pair of this key isn't one that a store has there.
    #[error("the pair of the key {0} isn't one that a store has there")]
    Corrupt(Bytes),
    /// What is asked of the schema or of a record is refused.
    #[error("{0}")]
    Refused(Refusal),
    /// There is no store.
    #[error("there is no store")]
    NoStore,
    /// The store is there already.
    #[error("the store is there already")]
    AlreadyThere,
    /// The record's type isn't that of the store's schema.
    #[error("the record's type isn't that of the store's schema")]
    OtherSchema,
    /// The index is neither a COUNT nor a SUM index.
    #[error("the index is neither a COUNT nor a SUM index")]
    NotAggregate,
    /// The index isn't readable.
    #[error("the index isn't readable")]
    NotReadable,
    /// The index isn't write-only.
    #[error("the index isn't write-only")]
    WrongState,
    /// Not every position of the index is built.
    #[error("not every position of the index is built")]
    NotBuilt,
}

impl From<AllocError> for StoreError {
    ghost from_gives = { λ _ made. made ≡ no_memory };

    fn from(_error: AllocError) -> StoreError {
        StoreError::Memory
    }
}

impl<T: Drop> From<AllocFailed<T>> for StoreError {
    ghost from_gives = { λ _ made. made ≡ no_memory };

    fn from(_error: AllocFailed<T>) -> StoreError {
        StoreError::Memory
    }
}

impl From<ReadError> for StoreError {
    ghost from_gives = { λ error made. made ≡ of_read error };

    fn from(error: ReadError) -> StoreError {
        match error {
            ReadError::Memory => StoreError::Memory,
            error => StoreError::Read(error),
        }
    }
}

impl From<WriteError> for StoreError {
    ghost from_gives = { λ error made. made ≡ of_write error };

    fn from(error: WriteError) -> StoreError {
        match error {
            WriteError::Memory => StoreError::Memory,
            error => StoreError::Write(error),
        }
    }
}

impl From<RangeSetError> for StoreError {
    ghost from_gives = { λ error made. made ≡ of_set error };

    fn from(error: RangeSetError) -> StoreError {
        match error {
            RangeSetError::Memory => StoreError::Memory,
            RangeSetError::Read(error) => StoreError::Read(error),
            RangeSetError::Corrupt(key) => StoreError::Corrupt(key),
        }
    }
}

impl From<MetadataError> for StoreError {
    ghost from_gives = { λ error made. made ≡ of_metadata error };

    fn from(error: MetadataError) -> StoreError {
        match error {
            MetadataError::Memory => StoreError::Memory,
            MetadataError::Refused(refusal) => StoreError::Refused(refusal),
        }
    }
}
