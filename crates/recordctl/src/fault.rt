// The faults of all commands of the program. Used by every module here.
ghost use Rattle.std.specs.Prelude.{◌≡◌, ◌≢◌};
ghost use Rattle.recordctl.specs.declared.fault.Fault.TheVariants.{OutOfMemory};

use cluster_core::ConfigError;
use metadata::Refusal;
use query::QueryError;
use schedule::Refusal as CommandRefusal;
use std::alloc::{AllocError, AllocFailed};
use thiserror::Error;
use tuple_codec::UnpackErrorKind;

/// Why a command doesn't do its work. Its text is the line on standard error.
#[derive(Clone, Copy, Debug, PartialEq, Eq, Drop, Error)]
pub enum Fault {
    /// The input can't be read.
    #[error("cannot read input")]
    CannotRead,
    /// The script is refused at this step, counted from 1; 0 is the script's frame.
    #[error("bad script at step {0}")]
    BadScript(usize),
    /// There is no database of the script's configuration.
    #[error("bad config {0:?}")]
    BadConfig(ConfigError),
    /// A word of the command line isn't of its form.
    #[error("bad argument")]
    BadArgument,
    /// The bytes spell no tuple: what is wrong with the first element that is refused, and the
    /// place where it begins.
    #[error("refused {0:?} at {1}")]
    Refused(UnpackErrorKind, usize),
    /// There is no such schema, or a state is given for what isn't an index of it.
    #[error("refused {0:?}")]
    RefusedSchema(Refusal),
    /// The query can't be asked under the schema.
    #[error("refused {0:?}")]
    RefusedQuery(QueryError),
    /// Neither the primary key nor a readable index serves the query's sort.
    #[error("refused SortNotServed")]
    SortNotServed,
    /// A client of a race gave up.
    #[error("gave up")]
    GaveUp,
    /// A command of a race is refused.
    #[error("refused {0:?}")]
    RefusedCommand(CommandRefusal),
    /// A command of a race is refused: a pair isn't one that a store has there.
    #[error("refused Corrupt")]
    Corrupt,
    /// Memory is wanting.
    #[error("out of memory")]
    OutOfMemory,
}

impl From<AllocError> for Fault {
    ghost from_gives = { λ _ fault. fault ≡ OutOfMemory };

    fn from(_error: AllocError) -> Fault {
        Fault::OutOfMemory
    }
}

impl<T: Drop> From<AllocFailed<T>> for Fault {
    ghost from_gives = { λ _ fault. fault ≡ OutOfMemory };

    fn from(_error: AllocFailed<T>) -> Fault {
        Fault::OutOfMemory
    }
}

/// The fault of a configuration that is refused.
pub fn refused(refusal: ConfigError) -> Fault
    ensures memory { refusal ≡ ConfigError.Memory → result ≡ Fault.OutOfMemory }
    ensures named { refusal ≢ ConfigError.Memory → result ≡ Fault.BadConfig refusal }
{
    match refusal {
        ConfigError::Memory => Fault::OutOfMemory,
        ConfigError::BadCount | ConfigError::BadSplits => Fault::BadConfig(refusal),
    }
}
