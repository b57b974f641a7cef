// The refusals of what asks for a plan. Used by `planning`; `recordctl` prints them.
ghost use Rattle.std.specs.Prelude.{◌≡◌};
ghost use Rattle.explain.specs.declared.error.ExplainError.TheVariants.{OutOfMemory};

use metadata::Refusal;
use query::QueryError;
use std::alloc::{AllocError, AllocFailed};
use thiserror::Error;

/// Why a file has no plan to show.
#[derive(Clone, Copy, Debug, PartialEq, Eq, Drop, Error)]
pub enum ExplainError {
    /// The text isn't JSON of the form that is wanted, or is longer than 4,000,000 bytes.
    #[error("bad form")]
    BadForm,
    /// There is no such schema.
    #[error("{0}")]
    BadSchema(Refusal),
    /// A state is given for what isn't an index of the schema.
    #[error("there is no index of this name")]
    UnknownIndex,
    /// The query can't be asked under the schema.
    #[error("{0}")]
    BadQuery(QueryError),
    /// Neither the primary key nor a readable index serves the sort.
    #[error("neither the primary key nor an index serves the sort")]
    SortNotServed,
    /// Memory is wanting.
    #[error("out of memory")]
    OutOfMemory,
}

impl From<AllocError> for ExplainError {
    ghost from_gives = { λ _ error. error ≡ OutOfMemory };

    fn from(_error: AllocError) -> ExplainError {
        ExplainError::OutOfMemory
    }
}

impl<T: Drop> From<AllocFailed<T>> for ExplainError {
    ghost from_gives = { λ _ error. error ≡ OutOfMemory };

    fn from(_error: AllocFailed<T>) -> ExplainError {
        ExplainError::OutOfMemory
    }
}
