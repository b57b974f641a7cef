// Opens a file that outlives its process, for a journal.
use crate::FileDevice;
use std::alloc::Global;
use std::fs::{File, Files, OpenOptions, TryLockError};
use std::io::{self, Read};
use std::os::unix::fs::FileExt;
use std::path::Path;
use thiserror::Error;

/// Why a file wasn't opened.
#[derive(Debug, Drop, Error)]
pub enum OpenError {
    /// Another device has it, in this process or another one.
    #[error("the file is in use")]
    Busy,
    #[error("{0}")]
    Io(io::Error),
}

impl From<io::Error> for OpenError {
    fn from(error: io::Error) -> Self {
        OpenError::Io(error)
    }
}

// Writes a file's bytes once more and puts them on the disk: where the last sync of an earlier process
// failed, the system may hold them for written.
fn settle(file: &File, bytes: &[u8]) -> io::Result<()> {
    file.write_all_at(bytes, 0)?;
    file.sync_all()
}

fn sync_folder<R: Files<File = File>>(rt: &R, path: &str) -> io::Result<()> {
    let folder = match Path::new(path).parent() {
        Some(folder) if !folder.as_str().is_empty() => folder,
        _ => Path::new("."),
    };
    File::open(rt, folder)?.sync_all()
}

impl FileDevice {
    /// Opens a file, or makes an empty one, and reads all of it. No other device has it until this
    /// one is dropped. Its bytes and its name are on the disk.
    pub fn open<R: Files<File = File>>(
        rt: &R,
        alloc: Global,
        path: &str,
    ) -> Result<Self, OpenError> {
        let mut file = OpenOptions::new()
            .read(true)
            .write(true)
            .create(true)
            .open(rt, path)?;
        match file.try_lock() {
            Ok(()) => {}
            Err(TryLockError::WouldBlock) => return Err(OpenError::Busy),
            Err(TryLockError::Error(error)) => return Err(OpenError::Io(error)),
        }
        let mut bytes = Vec::new(alloc);
        file.read_to_end(&mut bytes)?;
        settle(&file, &bytes)?;
        sync_folder(rt, path)?;
        Ok(FileDevice::loaded(file, bytes))
    }
}
