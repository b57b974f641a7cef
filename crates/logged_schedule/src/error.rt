// Why a schedule isn't opened from its log, and why it doesn't go on.
ghost use Rattle.std.specs.Prelude.{◌≡◌};
ghost use Rattle.logged_schedule.specs.declared.error.Unmade.TheVariants as checkpoints;
ghost use Rattle.logged_schedule.specs.declared.error.OpenError.TheVariants as opens;
ghost use Rattle.logged_schedule.specs.declared.error.StepError.TheVariants as stops;
ghost use Rattle.logged_schedule.specs.Told.{begun_error, files_error, opening_error, replay_error};
ghost use Rattle.logged_schedule.specs.Told.{schedule_error, stopped_by};

use cluster_core::ConfigError;
use durable::ReopenError;
use journal::{AppendError, DeviceError, RecoverError};
use replay::ReplayError;
use schedule::ScheduleError;
use std::alloc::AllocError;
use thiserror::Error;

/// Why a schedule isn't opened. Places count the entries of the log, from 0.
#[derive(Debug, Drop, Error)]
pub enum OpenError {
    /// Memory ran out.
    #[error("out of memory")]
    Memory,
    /// There is no database of this configuration.
    #[error("bad config {0:?}")]
    Config(ConfigError),
    /// The device failed.
    #[error("the device failed")]
    Failed,
    /// The log is damaged from this byte on. It keeps each of its bytes.
    #[error("the log is damaged from byte {0} on")]
    Damage(usize),
    /// What is logged isn't what a database logs.
    #[error("{0}")]
    Unreplayed(ReplayError),
}

impl From<AllocError> for OpenError {
    ghost from_gives = { λ _ error. error ≡ opens.Memory };

    fn from(_error: AllocError) -> OpenError {
        OpenError::Memory
    }
}

impl From<RecoverError<AllocError>> for OpenError {
    ghost from_gives = { λ error made. made ≡ opening_error error };

    fn from(error: RecoverError<AllocError>) -> OpenError {
        match error {
            RecoverError::Memory | RecoverError::Refused(_) => OpenError::Memory,
            RecoverError::Failed => OpenError::Failed,
            RecoverError::Damage(at) => OpenError::Damage(at),
        }
    }
}

impl From<ScheduleError> for OpenError {
    ghost from_gives = { λ error made. made ≡ schedule_error error };

    fn from(error: ScheduleError) -> OpenError {
        match error {
            ScheduleError::Memory => OpenError::Memory,
            ScheduleError::Config(why) => OpenError::Config(why),
        }
    }
}

impl From<ReplayError> for OpenError {
    ghost from_gives = { λ error made. made ≡ replay_error error };

    fn from(error: ReplayError) -> OpenError {
        match error {
            ReplayError::Memory => OpenError::Memory,
            ReplayError::NotAnEntry(_, _)
            | ReplayError::OutOfOrder(_)
            | ReplayError::NoSuchStore(_)
            | ReplayError::Refused(_, _) => OpenError::Unreplayed(error),
        }
    }
}

/// A device whose log wasn't opened.
#[derive(Drop)]
pub struct Unopened<D> {
    pub device: D,
    pub error: OpenError,
}

/// Why a step isn't answered. The schedule has ended then, and is opened anew from its log.
#[derive(Clone, Copy, Debug, PartialEq, Eq, Error)]
pub enum StepError {
    /// Memory ran out. Nothing was logged.
    #[error("out of memory")]
    Memory,
    /// The log would get longer than a file may be. Nothing was logged.
    #[error("the log is full")]
    Full,
    /// The device failed: the log has what the step committed, or nothing of it.
    #[error("the log can't be written: what is committed last may be in it or not")]
    Unknown,
    /// Memory ran out in the device, as it does in none that is a file: the log has what the step
    /// committed, or nothing of it.
    #[error("out of memory in the log: what is committed last may be in it or not")]
    Starved,
}

impl From<AllocError> for StepError {
    ghost from_gives = { λ _ error. error ≡ stops.Memory };

    fn from(_error: AllocError) -> StepError {
        StepError::Memory
    }
}

impl From<AppendError> for StepError {
    ghost from_gives = { λ error made. made ≡ stopped_by error };

    fn from(error: AppendError) -> StepError {
        match error {
            AppendError::Memory => StepError::Memory,
            AppendError::Full => StepError::Full,
            AppendError::Broken | AppendError::Device(DeviceError::Failed) => StepError::Unknown,
            AppendError::Device(DeviceError::Memory) => StepError::Starved,
        }
    }
}

/// A schedule that has ended, since a step isn't answered.
#[derive(Drop)]
pub struct Stopped<D> {
    /// What has the log, from which it is opened anew.
    pub device: D,
    pub error: StepError,
}

/// Why a schedule isn't opened from two devices.
#[derive(Debug, Drop, Error)]
pub enum OpenTwoError {
    /// Memory ran out.
    #[error("out of memory")]
    Memory,
    /// There is no database of this configuration.
    #[error("bad config {0:?}")]
    Config(ConfigError),
    /// A device failed, or the files aren't those of a database.
    #[error("{0}")]
    Files(ReopenError),
}

impl From<ReopenError> for OpenTwoError {
    ghost from_gives = { λ error made. made ≡ files_error error };

    fn from(error: ReopenError) -> OpenTwoError {
        match error {
            ReopenError::Memory => OpenTwoError::Memory,
            ReopenError::First(_)
            | ReopenError::Second(_)
            | ReopenError::NotACheckpoint
            | ReopenError::Unreplayed(_)
            | ReopenError::SameGeneration(_) => OpenTwoError::Files(error),
        }
    }
}

impl From<OpenError> for OpenTwoError {
    ghost from_gives = { λ error made. made ≡ begun_error error };

    fn from(error: OpenError) -> OpenTwoError {
        match error {
            OpenError::Config(why) => OpenTwoError::Config(why),
            OpenError::Memory
            | OpenError::Failed
            | OpenError::Damage(_)
            | OpenError::Unreplayed(_) => OpenTwoError::Memory,
        }
    }
}

/// Two devices whose schedule wasn't opened, in whichever order: it is opened anew from either.
#[derive(Drop)]
pub struct UnopenedTwo<D> {
    pub one: D,
    pub other: D,
    pub error: OpenTwoError,
}

/// A schedule that has ended, since a step isn't answered.
#[derive(Drop)]
pub struct StoppedTwo<D> {
    /// What has the log.
    pub device: D,
    /// The other device.
    pub spare: D,
    pub error: StepError,
}

/// Why no checkpoint is made. The schedule goes on as before.
#[derive(Clone, Copy, Debug, PartialEq, Eq, Error)]
pub enum Unmade {
    /// Memory ran out.
    #[error("out of memory")]
    Memory,
    /// The state is longer than a file may be.
    #[error("the state is longer than a file may be")]
    Full,
    /// The last generation was given.
    #[error("no generation is left")]
    Exhausted,
    /// A server can't be read at the last reported version: it hasn't pulled that yet, or has gone
    /// on by more than its window.
    #[error("a server can't be read at the last reported version")]
    Behind,
}

impl From<AllocError> for Unmade {
    ghost from_gives = { λ _ error. error ≡ checkpoints.Memory };

    fn from(_error: AllocError) -> Unmade {
        Unmade::Memory
    }
}

/// A schedule that has ended, since the other device failed while a checkpoint was written there.
/// All that is committed is in the log.
#[derive(Drop)]
pub struct Failed<D> {
    /// What has the log.
    pub device: D,
    /// The other device, on which the checkpoint may be or not.
    pub spare: D,
    pub error: DeviceError,
}
