// The command `shell`. Called by `main`.
ghost use Rattle.std.specs.Prelude.{◌≤◌};
ghost use Rattle.std.specs.Process.{exit_status};

use crate::fault::Fault;
use crate::folders::database_in;
use crate::printing::refuse;
use cluster_core::Config;
use command_line::ShellWords;
use shell::{Database, FolderError, RowForm, ShellError, Telling, Watch, run_shell};
use std::alloc::AllocError;
use std::fs::File;
use std::io::{Read, Write};
use std::process::ExitCode;
use std::rt::Files;

/// Whether a person reads what is printed, whether one types, and whether one sees faults.
#[derive(Clone, Copy, Debug, PartialEq, Eq, Drop)]
pub struct Terminals {
    pub is_read: bool,
    pub is_typed: bool,
    pub is_watched: bool,
}

// Which long work is told of where faults are seen: all of it but where the replies are seen, too.
fn watch_of(terminals: Terminals) -> Watch {
    match (terminals.is_watched, terminals.is_read) {
        (true, true) => Watch::Imports,
        (true, false) => Watch::All,
        (false, _) => Watch::Nothing,
    }
}

// How steps are told.
fn telling_of(words: ShellWords, terminals: Terminals) -> Telling {
    let rows = if words.is_json {
        RowForm::Json
    } else if terminals.is_read {
        RowForm::Table
    } else {
        RowForm::Line
    };
    Telling {
        rows,
        is_echo: words.is_echo,
        is_prompting: terminals.is_read && terminals.is_typed,
        watch: watch_of(terminals),
    }
}

// The database in a folder, or without one an empty one.
fn typed_database<H: Files<File = File> + AllocGlobal>(
    rt: &H,
    folder: Option<&str>,
) -> Result<Database, FolderError> {
    let config = Config::single(rt.alloc());
    match Database::new(rt.alloc(), &config) {
        Ok(empty) => database_in(rt, folder, config, empty),
        Err(_) => Err(FolderError::from(AllocError)),
    }
}

/// Does the steps that are typed, each as it comes, and tells what it replies: over the database in
/// a folder, which is made where it isn't there, or without one over one in memory. Answers the
/// exit status: 0 at the end of the input, or 1 with a line on `errors` where the database isn't
/// opened, its log doesn't go on, the input can't be read or memory is wanting, and 1 without one
/// where `output` can't be written.
pub fn run_typed<H: Files<File = File> + AllocGlobal, R: Read, W: Write, E: Write>(
    rt: &H,
    words: ShellWords,
    folder: Option<&str>,
    terminals: Terminals,
    input: &mut R,
    output: &mut W,
    errors: &mut E,
) -> ExitCode
    ensures { exit_status result ≤ 1 }
{
    let telling = telling_of(words, terminals);
    let database = match typed_database(rt, folder) {
        Ok(database) => database,
        Err(error) => return refuse(errors, error),
    };
    match run_shell(rt, telling, database, input, output, errors) {
        Ok(_) => ExitCode::SUCCESS,
        Err(ShellError::OutOfMemory) => refuse(errors, Fault::OutOfMemory),
        Err(ShellError::CannotRead) => refuse(errors, Fault::CannotRead),
        Err(ShellError::CannotWrite) => ExitCode::FAILURE,
        Err(ShellError::Unlogged(error)) => refuse(errors, error),
    }
}
