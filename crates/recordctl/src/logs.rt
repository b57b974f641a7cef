// The command `log`. Called by `main`.
ghost use Rattle.std.specs.Prelude.{◌≤◌};
ghost use Rattle.std.specs.Process.{exit_status};

use crate::fault::Fault;
use crate::printing::refuse;
use cluster_core::Config;
use command_log::{EntryError, entry_of};
use journal::{Kept, Memory, RecoverError, recover};
use log_lines::entry_lines;
use logged_schedule::{OpenError, open};
use std::alloc::{AllocError, AllocFailed, Global};
use std::fs::File;
use std::io::{self, BufWriter, ErrorKind, Read, Write};
use std::process::ExitCode;
use std::rt::Files;
use thiserror::Error;

// Why a log isn't printed to its end, or isn't that of a database.
#[derive(Debug, Drop, Error)]
enum LogFault {
    #[error("out of memory")]
    OutOfMemory,
    #[error("there is no such file")]
    NotFound,
    #[error("the log can't be read")]
    CannotRead,
    #[error("the log is damaged from byte {0} on")]
    Damage(usize),
    #[error("entry {0}: {1}")]
    NotAnEntry(usize, EntryError),
    #[error("{0}")]
    Refused(OpenError),
    // Of which nothing is told.
    #[error("the output can't be written")]
    CannotWrite,
}

impl From<AllocError> for LogFault {
    fn from(_error: AllocError) -> LogFault {
        LogFault::OutOfMemory
    }
}

impl<T: Drop> From<AllocFailed<T>> for LogFault {
    fn from(_error: AllocFailed<T>) -> LogFault {
        LogFault::OutOfMemory
    }
}

impl From<io::Error> for LogFault {
    fn from(_error: io::Error) -> LogFault {
        LogFault::CannotWrite
    }
}

// All bytes of the log at a path.
fn bytes_at<H: Files + AllocGlobal>(rt: &H, path: &str) -> Result<Vec<u8>, LogFault> {
    let mut file = match File::open(rt, path) {
        Ok(file) => file,
        Err(error) if error.kind() == ErrorKind::NotFound => return Err(LogFault::NotFound),
        Err(_) => return Err(LogFault::CannotRead),
    };
    let mut bytes = Vec::new(rt.alloc());
    match file.read_to_end(&mut bytes) {
        Ok(_) => Ok(bytes),
        Err(error) if error.kind() == ErrorKind::OutOfMemory => Err(LogFault::OutOfMemory),
        Err(_) => Err(LogFault::CannotRead),
    }
}

// Prints the lines of entries.
fn write_entries<W: Write>(
    alloc: Global,
    entries: &[Vec<u8>],
    output: &mut W,
) -> Result<(), LogFault> {
    for (place, bytes) in entries.iter().enumerate() {
        let entry = match entry_of(alloc, bytes.as_slice()) {
            Ok(entry) => entry,
            Err(EntryError::Memory) => return Err(LogFault::OutOfMemory),
            Err(error) => return Err(LogFault::NotAnEntry(place, error)),
        };
        output.write_all(entry_lines(alloc, &entry)?.as_bytes())?;
    }
    Ok(())
}

// Performs a log again.
fn verify(alloc: Global, device: Memory) -> Result<(), LogFault> {
    match open(alloc, device, Config::single(alloc)) {
        Ok(_) => Ok(()),
        Err(unopened) => match unopened.error {
            OpenError::Memory => Err(LogFault::OutOfMemory),
            error => Err(LogFault::Refused(error)),
        },
    }
}

// Why a log isn't read to its end.
fn unread(error: &RecoverError<AllocError>) -> LogFault {
    match error {
        RecoverError::Damage(at) => LogFault::Damage(*at),
        RecoverError::Failed => LogFault::CannotRead,
        RecoverError::Memory | RecoverError::Refused(_) => LogFault::OutOfMemory,
    }
}

// Prints the entries of a log that has these bytes, up to damage, and performs them again.
fn print_entries<W: Write>(alloc: Global, bytes: Vec<u8>, output: &mut W) -> Result<(), LogFault> {
    let mut kept = Kept::new(alloc);
    let recovered = recover(alloc, Memory::new(alloc, bytes), &mut kept);
    let Ok(mut buffered) = BufWriter::new(alloc, output) else {
        return Err(LogFault::OutOfMemory);
    };
    let written = write_entries(alloc, kept.entries(), &mut buffered);
    buffered.flush()?;
    written?;
    match recovered {
        Ok(journal) => verify(alloc, journal.into_device()),
        Err(unrecovered) => Err(unread(&unrecovered.error)),
    }
}

// Prints the entries of the log at a path.
fn print_at<H: Files + AllocGlobal, W: Write>(
    rt: &H,
    path: &str,
    output: &mut W,
) -> Result<(), LogFault> {
    let bytes = bytes_at(rt, path)?;
    print_entries(rt.alloc(), bytes, output)
}

/// Prints the entries of the log in a folder, in the words of scripts, and performs them again, to
/// see that a database opens from it. Answers the exit status: 0, or 1 with a line on `errors` that
/// says what is wrong and where, after the entries before it, and 1 without one where `output`
/// can't be written.
pub fn print_log<H: Files + AllocGlobal, W: Write, E: Write>(
    rt: &H,
    folder: &str,
    output: &mut W,
    errors: &mut E,
) -> ExitCode
    ensures { exit_status result ≤ 1 }
{
    let Ok(path) = format!(in rt.alloc(); "{folder}/log") else {
        return refuse(errors, Fault::OutOfMemory);
    };
    match print_at(rt, path.as_str(), output) {
        Ok(()) => ExitCode::SUCCESS,
        Err(LogFault::CannotWrite) => ExitCode::FAILURE,
        Err(LogFault::OutOfMemory) => refuse(errors, Fault::OutOfMemory),
        Err(fault) => {
            let _ = writeln!(errors, "{path}: {fault}");
            ExitCode::FAILURE
        }
    }
}
