// The errors of a race and of its threads. Used by `racing` and `telling`; `recordctl` prints them.
ghost use Rattle.std.specs.Prelude.{◌≡◌, IfErr};
ghost use Rattle.cluster_core.specs.declared.answers.Config.{Config};
ghost use Rattle.race.specs.Racing.{end_rank, explains_end, first_fault};
ghost use Rattle.race.specs.declared.error.Fault.TheVariants.{Memory};

use cluster_core::ConfigError;
use runtime::{CommandError, EnterError, RunError};
use schedule::Refusal;
use std::alloc::AllocError;
use thiserror::Error;

/// Why a race has no end that could be told.
#[derive(Clone, Copy, Debug, PartialEq, Eq, Drop, Error)]
pub enum RaceError {
    /// There is no database of the configuration, or it has too few places.
    #[error("the configuration is refused")]
    Config(ConfigError),
    /// A client gave up, or the published state had no place for it.
    #[error("gave up")]
    GaveUp,
    /// A command is refused.
    #[error("refused {0:?}")]
    Refused(Refusal),
    /// A command is refused: a pair isn't one that a store has there.
    #[error("refused Corrupt")]
    Corrupt,
    /// Memory runs out.
    #[error("out of memory")]
    Memory,
}

/// Why a race that began has no end that could be told.
#[derive(Drop)]
pub(crate) enum Fault {
    /// A client gave up, or there are too few clients.
    GaveUp,
    /// A command is refused.
    Refused(Refusal),
    /// A command is refused: a pair isn't one that a store has there.
    Corrupt,
    /// Memory runs out.
    Memory,
}

impl From<AllocError> for Fault {
    ghost from_gives = { λ _ error. error ≡ Memory };

    fn from(_error: AllocError) -> Fault {
        Fault::Memory
    }
}

impl From<EnterError> for Fault {
    fn from(error: EnterError) -> Fault {
        match error {
            EnterError::Memory => Fault::Memory,
            EnterError::NotEntered | EnterError::TooOld => Fault::GaveUp,
        }
    }
}

impl From<CommandError> for Fault {
    fn from(error: CommandError) -> Fault {
        match error {
            CommandError::Refused(why) => Fault::Refused(why),
            CommandError::Corrupt(_) => Fault::Corrupt,
            CommandError::Memory => Fault::Memory,
            CommandError::NotEntered | CommandError::TooOld => Fault::GaveUp,
        }
    }
}

impl From<RunError> for Fault {
    fn from(error: RunError) -> Fault {
        match error {
            RunError::Refused(error) => Fault::from(error),
            RunError::GaveUp => Fault::GaveUp,
        }
    }
}

// How much the end of a thread counts: that it gave up counts most, then want of memory.
fn rank(end: &Result<(), Fault>) -> u8
    ensures { result ≡ end_rank end.now }
{
    match end {
        Ok(()) => 0,
        Err(Fault::GaveUp) => 3,
        Err(Fault::Memory) => 2,
        Err(Fault::Refused(_) | Fault::Corrupt) => 1,
    }
}

/// Of the ends of two threads the one that counts more, and the first where both count the same.
pub(crate) fn first_fault(one: Result<(), Fault>, other: Result<(), Fault>) -> Result<(), Fault>
    ensures { result ≡ first_fault one other }
{
    if rank(&one) < rank(&other) {
        other
    } else {
        one
    }
}

/// What a race that began answers: no fault of it is that its configuration is refused.
pub(crate) fn ended(told: Result<String, Fault>) -> Result<String, RaceError>
    ensures err { (config : Config) → IfErr result (explains_end config) }
{
    match told {
        Ok(text) => Ok(text),
        Err(Fault::GaveUp) => Err(RaceError::GaveUp),
        Err(Fault::Refused(why)) => Err(RaceError::Refused(why)),
        Err(Fault::Corrupt) => Err(RaceError::Corrupt),
        Err(Fault::Memory) => Err(RaceError::Memory),
    }
}
