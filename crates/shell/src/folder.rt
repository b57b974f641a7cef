// The database in a folder, opened from its log. Called by `recordctl`.
ghost use Rattle.std.specs.Prelude.{ℕ, IfOk, IsNone, OnOk};
ghost use Rattle.cluster_core.specs.Configuration.{config_refusal};
ghost use Rattle.shell.specs.Further.{IsOfStepsOver};

use crate::database::Database;
use cluster_core::Config;
use journal_file::{FolderError as LogError, log_path, open_in_folder};
use logged_schedule::{OpenError, open};
use std::alloc::{AllocError, Global};
use std::fs::{File, Files};
use thiserror::Error;

/// Why the database in a folder isn't opened. Its text is a line for whoever asked.
#[derive(Debug, Drop, Error)]
pub enum FolderError {
    /// The file of its log isn't opened, or there isn't memory enough.
    #[error("{0}")]
    Unopened(LogError),
    /// The log is damaged, or isn't what a database logs, or there is no database of the
    /// configuration.
    #[error("{0}: {1}")]
    Refused(String, OpenError),
}

impl From<AllocError> for FolderError {
    fn from(error: AllocError) -> FolderError {
        FolderError::Unopened(LogError::from(error))
    }
}

impl From<LogError> for FolderError {
    fn from(error: LogError) -> FolderError {
        FolderError::Unopened(error)
    }
}

// Why the log in a folder isn't that of a database.
fn refused(alloc: Global, folder: &str, error: OpenError) -> Result<FolderError, AllocError> {
    let path = log_path(alloc, folder)?;
    match error {
        OpenError::Memory => Ok(FolderError::from(AllocError)),
        OpenError::Failed => {
            let failed = LogError::Unopened(path, "the disk doesn't take it");
            Ok(FolderError::from(failed))
        }
        error => Ok(FolderError::Refused(path, error)),
    }
}

/// Opens the database of this configuration in a folder, which is made where it isn't there: its
/// log, the file `log` there, is performed again. Nobody else opens it until it is dropped.
///
/// It is refused with `Unopened` where the system refuses it, another process has it open, or there
/// isn't memory enough, and with `Refused` where the log is damaged or isn't that of a database, or
/// there is none of the configuration.
pub fn open_folder<H: Files<File = File>>(
    rt: &H,
    alloc: Global,
    folder: &str,
    config: Config,
) -> Result<Database, FolderError>
    ensures opened { IfOk result (λ database.
        (start : ℕ) × IsOfStepsOver config start database) }
    ensures allowed { OnOk result (IsNone (config_refusal config)) }
{
    let device = open_in_folder(rt, alloc, folder)?;
    match open(alloc, device, config) {
        Ok(schedule) => Ok(Database::logged(schedule)),
        Err(unopened) => Err(refused(alloc, folder, unopened.error)?),
    }
}
