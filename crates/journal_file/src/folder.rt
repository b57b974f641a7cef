// The file of a log in a folder, which is made where it isn't there.
use crate::{FileDevice, OpenError};
use std::alloc::{AllocError, Global};
use std::fs;
use std::fs::{File, Files};
use std::io::{self, ErrorKind};
use std::path::Path;
use thiserror::Error;

/// Why the log in a folder isn't opened. Its text is a line for whoever asked.
#[derive(Debug, Drop, Error)]
pub enum FolderError {
    /// There isn't memory enough.
    #[error("out of memory")]
    OutOfMemory,
    /// The folder isn't there, and can't be made.
    #[error("{0}: the folder can't be made: {1}")]
    Unmade(String, &'static str),
    /// The log can't be opened, or read.
    #[error("{0}: the log can't be opened: {1}")]
    Unopened(String, &'static str),
    /// Another device has the log, in this process or another one.
    #[error("{0}: another process has this database open")]
    Busy(String),
}

impl From<AllocError> for FolderError {
    fn from(_error: AllocError) -> FolderError {
        FolderError::OutOfMemory
    }
}

// What an error of the system says in plain words.
fn words_of(error: &io::Error) -> &'static str {
    match error.kind() {
        ErrorKind::NotFound => "there is no such folder",
        ErrorKind::PermissionDenied => "permission is denied",
        ErrorKind::ReadOnlyFilesystem => "the disk can only be read",
        ErrorKind::StorageFull | ErrorKind::QuotaExceeded => "the disk is full",
        ErrorKind::AlreadyExists | ErrorKind::NotADirectory => "a file stands in its place",
        ErrorKind::IsADirectory => "a folder stands in its place",
        ErrorKind::OutOfMemory => "there isn't memory enough",
        _ => "the system doesn't do it",
    }
}

// Puts the name of a folder on the disk.
fn sync_name<R: Files<File = File>>(rt: &R, folder: &str) -> io::Result<()> {
    let parent = match Path::new(folder).parent() {
        Some(parent) if !parent.as_str().is_empty() => parent,
        _ => Path::new("."),
    };
    File::open(rt, parent)?.sync_all()
}

// Makes a folder where it isn't there.
fn make_folder<R: Files<File = File>>(rt: &R, folder: &str) -> io::Result<()> {
    match fs::create_dir(rt, folder) {
        Ok(()) => sync_name(rt, folder),
        Err(error) if error.kind() == ErrorKind::AlreadyExists => Ok(()),
        Err(error) => Err(error),
    }
}

/// The path of the log in a folder.
pub fn log_path(alloc: Global, folder: &str) -> Result<String, AllocError> {
    format!(in alloc; "{folder}/log")
}

// The file of the log in a folder that is there, locked.
fn log_device<R: Files<File = File>>(
    rt: &R,
    alloc: Global,
    folder: &str,
) -> Result<FileDevice, FolderError> {
    let path = log_path(alloc, folder)?;
    match FileDevice::open(rt, alloc, path.as_str()) {
        Ok(device) => Ok(device),
        Err(OpenError::Busy) => Err(FolderError::Busy(path)),
        Err(OpenError::Io(error)) if error.kind() == ErrorKind::OutOfMemory => {
            Err(FolderError::OutOfMemory)
        }
        Err(OpenError::Io(error)) => Err(FolderError::Unopened(path, words_of(&error))),
    }
}

/// Opens the log in a folder, the file `log` there, and reads all of it. The folder is made where
/// it isn't there, and so is an empty file; their names are on the disk. Nobody else opens it until
/// it is dropped.
///
/// It is refused with `OutOfMemory` where there isn't memory enough, with `Unmade` and `Unopened`
/// where the system refuses it, and with `Busy` where another device has it.
pub fn open_in_folder<R: Files<File = File>>(
    rt: &R,
    alloc: Global,
    folder: &str,
) -> Result<FileDevice, FolderError> {
    if let Err(error) = make_folder(rt, folder) {
        let folder = String::from_str(alloc, folder)?;
        return Err(FolderError::Unmade(folder, words_of(&error)));
    }
    log_device(rt, alloc, folder)
}
