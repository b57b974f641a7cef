// One error over those of all calls. Used by applications.
ghost use Rattle.std.specs.Prelude.{◌≡◌};

use crate::database::NotCommitted;
use crate::not_done::NotDone;
use cluster_core::ConfigError;
use metadata::MetadataError;
use plan_exec::ExecError;
use planner::PlanError;
use query::QueryError;
use record_store::StoreError;
use runtime::{CommandError, CommitError, OpenError, RunError};
use std::alloc::{AllocError, AllocFailed};
use std::io;
use thiserror::Error;

/// Why an application's call has no answer.
#[derive(Debug, Error)]
pub enum Error {
    /// A database isn't made.
    #[error("{0}")]
    Config(#[from] ConfigError),
    /// A schema or a record is refused.
    #[error("{0}")]
    Schema(MetadataError),
    /// A call on a store isn't answered.
    #[error("{0}")]
    Store(StoreError),
    /// A query may not be asked.
    #[error("{0}")]
    Query(QueryError),
    /// A query isn't planned.
    #[error("{0}")]
    Plan(PlanError),
    /// A plan isn't executed.
    #[error("{0}")]
    Execution(ExecError),
    /// A transaction isn't committed.
    #[error("{0}")]
    Commit(NotCommitted),
    /// A running database isn't opened.
    #[error("{0}")]
    Open(#[from] OpenError),
    /// A command of the running database has no answer.
    #[error("{0}")]
    Command(#[from] CommandError),
    /// A transaction of the running database isn't committed.
    #[error("{0}")]
    Ended(#[from] CommitError),
    /// A run of transactions has no answer.
    #[error("{0}")]
    Run(#[from] RunError),
    /// What is told isn't written.
    #[error("{0}")]
    Output(#[from] io::Error),
    /// Memory ran out.
    #[error("out of memory")]
    Memory,
}

// Written out, so that no proof of a caller has to tell the cases apart where one is dropped.
impl Drop for Error {
    fn drop(self) {
        match self {
            Error::Config(error) => drop(error),
            Error::Schema(error) => drop(error),
            Error::Store(error) => drop(error),
            Error::Query(error) => drop(error),
            Error::Plan(error) => drop(error),
            Error::Execution(error) => drop(error),
            Error::Commit(error) => error.forget(),
            Error::Open(error) => drop(error),
            Error::Command(error) => drop(error),
            Error::Ended(error) => drop(error),
            Error::Run(error) => drop(error),
            Error::Output(error) => drop(error),
            Error::Memory => {}
        }
    }
}

impl From<MetadataError> for Error {
    ghost use Rattle.record_layer.specs.declared.error.Error.{Error};

    ghost from_gives = { λ error made. made ≡ Error.Schema error };

    fn from(error: MetadataError) -> Error {
        Error::Schema(error)
    }
}

impl From<StoreError> for Error {
    ghost use Rattle.record_layer.specs.declared.error.Error.{Error};

    ghost from_gives = { λ error made. made ≡ Error.Store error };

    fn from(error: StoreError) -> Error {
        Error::Store(error)
    }
}

impl From<QueryError> for Error {
    ghost use Rattle.record_layer.specs.declared.error.Error.{Error};

    ghost from_gives = { λ error made. made ≡ Error.Query error };

    fn from(error: QueryError) -> Error {
        Error::Query(error)
    }
}

impl From<PlanError> for Error {
    ghost use Rattle.record_layer.specs.declared.error.Error.{Error};

    ghost from_gives = { λ error made. made ≡ Error.Plan error };

    fn from(error: PlanError) -> Error {
        Error::Plan(error)
    }
}

impl From<ExecError> for Error {
    ghost use Rattle.record_layer.specs.declared.error.Error.{Error};

    ghost from_gives = { λ error made. made ≡ Error.Execution error };

    fn from(error: ExecError) -> Error {
        Error::Execution(error)
    }
}

impl From<NotCommitted> for Error {
    ghost use Rattle.record_layer.specs.declared.error.Error.{Error};

    ghost from_gives = { λ error made. made ≡ Error.Commit error };

    fn from(error: NotCommitted) -> Error {
        Error::Commit(error)
    }
}

impl From<NotDone> for Error {
    fn from(error: NotDone) -> Error {
        match error {
            NotDone::Refused(error) => error,
            NotDone::NotCommitted(why) => Error::Commit(why),
        }
    }
}

impl From<AllocError> for Error {
    ghost use Rattle.record_layer.specs.declared.error.Error.{Error};

    ghost from_gives = { λ _ made. made ≡ Error.Memory };

    fn from(_error: AllocError) -> Error {
        Error::Memory
    }
}

impl<T: Drop> From<AllocFailed<T>> for Error {
    fn from(_error: AllocFailed<T>) -> Error {
        Error::Memory
    }
}
