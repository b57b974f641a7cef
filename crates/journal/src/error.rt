// Why entries weren't added, and why a file wasn't recovered.
ghost use Rattle.std.specs.Prelude.{◌≡◌};
ghost use Rattle.journal.specs.declared.error.AppendError.TheVariants.{Memory};
ghost use Rattle.journal.specs.Told.{recover_error};

use crate::DeviceError;
use std::alloc::AllocError;
use thiserror::Error;

/// Why a journal didn't acknowledge a batch.
#[derive(Clone, Copy, Debug, PartialEq, Eq, Error)]
pub enum AppendError {
    /// Nothing was written.
    #[error("out of memory")]
    Memory,
    /// The file would get longer than a file may be. Nothing was written.
    #[error("the file is full")]
    Full,
    /// An earlier append failed, so the file has to be recovered anew. Nothing was written.
    #[error("the journal is broken")]
    Broken,
    /// The file has all of the batch or none of it, and has to be recovered anew.
    #[error("the batch may have been written or not")]
    Device(DeviceError),
}

impl From<AllocError> for AppendError {
    ghost from_gives = { λ _ e. e ≡ Memory };

    fn from(_: AllocError) -> Self {
        AppendError::Memory
    }
}

/// Why a file wasn't recovered.
#[derive(Debug, Drop, Error)]
pub enum RecoverError<R> {
    #[error("out of memory")]
    Memory,
    #[error("the device failed")]
    Failed,
    /// The bytes from this one on are no block, and no crash leaves them.
    #[error("the file is damaged from byte {0} on")]
    Damage(usize),
    /// The sink took no more.
    #[error("an entry was refused")]
    Refused(R),
}

impl<R> From<AllocError> for RecoverError<R> {
    ghost use Rattle.journal.specs.declared.error.RecoverError.TheVariants as recover;

    ghost from_gives = { λ _ made. made ≡ recover.Memory };

    fn from(_: AllocError) -> Self {
        RecoverError::Memory
    }
}

impl<R> From<DeviceError> for RecoverError<R> {
    ghost from_gives = { λ error made. made ≡ recover_error error };

    fn from(error: DeviceError) -> Self {
        match error {
            DeviceError::Memory => RecoverError::Memory,
            DeviceError::Failed => RecoverError::Failed,
        }
    }
}

/// A device whose file wasn't recovered.
#[derive(Drop)]
pub struct Unrecovered<D, R> {
    pub device: D,
    pub error: RecoverError<R>,
}
