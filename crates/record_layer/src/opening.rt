// The running database in a folder, which outlives its process. Called by applications.
ghost use Rattle.std.specs.Prelude.{◌≡◌, IfErr, IfOk, IsNone, List, OnOk};
ghost use Rattle.cluster_core.specs.Configuration.{config_refusal};
ghost use Rattle.command_log.specs.declared.entry.Entry.{Entry};
ghost use Rattle.commit_log.specs.Databases.{AreClientsOver};
ghost use Rattle.journal_file.specs.declared.folder.FolderError.TheVariants.{OutOfMemory};
ghost use Rattle.record_layer.specs.Opening.{IsWhyUnopenedAt};
ghost use Rattle.record_layer.specs.declared.opening.OpenAtError.TheVariants.{Folder};

use cluster_core::Config;
use commit_log::{DeviceLog, NotOpened, open_kept_on};
use journal_file::{FileDevice, FolderError, log_path, open_in_folder};
use runtime::Client;
use std::alloc::{AllocError, Global};
use std::fs::{File, Files};
use std::sync::Wait;
use thiserror::Error;

/// What keeps the commits of a database in a folder.
pub type FolderLog<'a, R> = DeviceLog<FileDevice, &'a R>;

/// Why the database in a folder isn't opened. Its text is a line for whoever asked.
#[derive(Debug, Drop, Error)]
pub enum OpenAtError {
    /// The file of its log isn't opened, or there isn't memory enough.
    #[error("{0}")]
    Folder(FolderError),
    /// The log is damaged, or isn't that of a database, or there is none of the configuration.
    #[error("{0}: {1}")]
    Refused(String, NotOpened),
}

impl From<FolderError> for OpenAtError {
    ghost from_gives = { λ error made. made ≡ Folder error };

    fn from(error: FolderError) -> OpenAtError {
        OpenAtError::Folder(error)
    }
}

impl From<AllocError> for OpenAtError {
    ghost from_gives = { λ _ made. made ≡ Folder OutOfMemory };

    fn from(_error: AllocError) -> OpenAtError {
        OpenAtError::Folder(FolderError::OutOfMemory)
    }
}

/// Opens the database of this configuration in a folder, which is made where it isn't there, and
/// gives as many clients as the configuration has places, numbered from 0. It goes on from its log,
/// the file `log` there, at the version of the last transaction or above it, and each committed
/// transaction is kept in that file before it is shown and answered. Nobody else opens it until all
/// clients are dropped.
///
/// It is refused with `Folder` where `open_in_folder` is, and with `Refused` where `open_kept_on`
/// is.
#[tactic(auto, using(crate::proofs::Folders::why_at))]
pub fn open_at<'a, R: Wait + Files<File = File>>(
    rt: &'a R,
    alloc: Global,
    folder: &str,
    config: Config,
) -> Result<Vec<Client<FolderLog<'a, R>>>, OpenAtError>
    // What the file has is for the system to say. Whatever it has, the clients are those of a
    // database that goes on from a lawful log.
    ensures opened { IfOk result (λ clients.
        (entries : List Entry) × AreClientsOver config entries clients.items) }
    ensures allowed { OnOk result (IsNone (config_refusal config)) }
    ensures refused { IfErr result (IsWhyUnopenedAt config) }
{
    let device = open_in_folder(rt, alloc, folder)?;
    match open_kept_on(rt, alloc, device, config) {
        Ok(clients) => Ok(clients),
        Err(error) => Err(OpenAtError::Refused(log_path(alloc, folder)?, error)),
    }
}
