// The lines of the input, read and done one after another. Called by `recordctl`.
ghost use Rattle.std.specs.Prelude.{IfOk};
ghost use Rattle.cluster_core.specs.Cluster.{ClusterState};
ghost use Rattle.shell.specs.Further.{IsFurther, IsOfStepsFrom};

use crate::database::Database;
use crate::error::ShellError;
use crate::importing::import_file;
use crate::lines::{next_line, without_end};
use crate::scripts::do_script;
use crate::session::{Asked, Done, Session, do_line};
use crate::telling::{Telling, Watch};
use json_forms::MAX_TEXT_BYTES;
use shell_text::Progress;
use std::alloc::Global;
use std::fs::File;
use std::io::{BufRead, BufReader, BufWriter, ErrorKind, Read, Write};
use std::rt::Files;
use std::str;

// What a person is asked for a line with, and what is told before the first one.
const PROMPT: &[u8] = b"> ";

const GREETING: &[u8] =
    b"The database is empty, and ends with the shell. help tells what can be typed.\n";

const LOGGED_GREETING: &[u8] =
    b"What is committed stays in the folder. help tells what can be typed.\n";

// Does a line of bytes.
fn do_bytes<W: Write>(
    alloc: Global,
    telling: Telling,
    session: &mut Session,
    schedule: Database,
    bytes: &[u8],
    output: &mut W,
) -> Result<Done, ShellError>
    ensures { IfOk result (λ done. IsFurther schedule done.schedule) }
{
    match str::from_utf8(without_end(bytes)) {
        Ok(line) => do_line(alloc, telling, session, schedule, line, output),
        Err(_) => {
            writeln!(output, "column 1: this line isn't UTF-8")?;
            let asked = Asked::Nothing;
            Ok(Done { schedule, asked })
        }
    }
}

// Has what was told be seen, and asks a person for a line.
fn ask<W: Write>(telling: Telling, output: &mut W) -> Result<(), ShellError> {
    if telling.is_prompting {
        output.write_all(PROMPT)?;
    }
    output.flush()?;
    Ok(())
}

// Does the lines of the input up to one that asks for something else; `Quit` at the end.
fn do_lines<R: Read, W: Write, E: Write>(
    alloc: Global,
    telling: Telling,
    progress: &mut Progress,
    session: &mut Session,
    schedule: Database,
    input: &mut BufReader<R>,
    output: &mut W,
    errors: &mut E,
) -> Result<Done, ShellError>
    ensures { IfOk result (λ done. IsFurther schedule done.schedule) }
{
    let mut schedule = schedule;
    let mut bytes = Vec::new(alloc);
    'lines: for _ in 0..u64::MAX {
        if input.buffer().is_empty() {
            ask(telling, output)?;
        }
        if !next_line(input, &mut bytes)? {
            let asked = Asked::Quit;
            return Ok(Done { schedule, asked });
        }
        let done = do_bytes(alloc, telling, session, schedule, bytes.as_slice(), output)?;
        progress.note(errors, "lines");
        let Done {
            schedule: after,
            asked,
        } = done;
        schedule = after;
        match asked {
            Asked::Nothing => {}
            asked => return Ok(Done { schedule, asked }),
        }
    }
    Ok(Done {
        schedule,
        asked: Asked::Quit,
    })
}

// Does what a line of a file asks for that wasn't done at once; false where the file is to end.
fn do_asked_in_file<H: Files + AllocGlobal, W: Write, E: Write>(
    rt: &H,
    telling: Telling,
    session: &Session,
    done: Done,
    output: &mut W,
    errors: &mut E,
) -> Result<(Database, bool), ShellError>
    ensures { IfOk result (λ after. IsFurther done.schedule after.0) }
{
    let Done { schedule, asked } = done;
    match asked {
        Asked::Nothing => Ok((schedule, true)),
        Asked::Read(_path) => {
            writeln!(output, "a file that is read reads no other one")?;
            Ok((schedule, true))
        }
        Asked::Import(order) => {
            let stores = &session.stores;
            let schedule = import_file(rt, telling, stores, schedule, &order, output, errors)?;
            Ok((schedule, true))
        }
        Asked::Quit => Ok((schedule, false)),
    }
}

// Does the lines of a file that is open.
fn do_file_lines<H: Files + AllocGlobal, R: Read, W: Write, E: Write>(
    rt: &H,
    telling: Telling,
    session: &mut Session,
    schedule: Database,
    input: &mut BufReader<R>,
    output: &mut W,
    errors: &mut E,
) -> Result<Database, ShellError>
    ensures { IfOk result (IsFurther schedule) }
{
    let alloc = rt.alloc();
    let mut schedule = schedule;
    let mut progress = Progress::new(telling.watch == Watch::All);
    'files: for _ in 0..u64::MAX {
        let done = do_lines(
            alloc,
            telling,
            &mut progress,
            session,
            schedule,
            input,
            output,
            errors,
        )?;
        let (after, goes_on) = do_asked_in_file(rt, telling, session, done, output, errors)?;
        if !goes_on {
            progress.end(errors);
            return Ok(after);
        }
        schedule = after;
    }
    Ok(schedule)
}

// Whether what an input begins with is an object, as that of a script.
fn is_object<R: Read>(input: &mut BufReader<R>) -> bool {
    match input.fill_buf() {
        Ok(bytes) => bytes.trim_ascii_start().first() == Some(&b'{'),
        Err(_) => false,
    }
}

// The input to its end, none where it is too long for a script.
fn script_text<R: Read>(
    alloc: Global,
    input: &mut BufReader<R>,
) -> Result<Option<Vec<u8>>, ShellError> {
    let mut text = Vec::new(alloc);
    let most = MAX_TEXT_BYTES as u64 + 1;
    match input.take(most).read_to_end(&mut text) {
        Ok(_) if text.len() <= MAX_TEXT_BYTES => Ok(Some(text)),
        Ok(_) => Ok(None),
        Err(error) if error.kind() == ErrorKind::OutOfMemory => Err(ShellError::OutOfMemory),
        Err(_) => Err(ShellError::CannotRead),
    }
}

// Tells that a file can't be read.
fn tell_unread<W: Write>(path: &str, output: &mut W) -> Result<(), ShellError> {
    writeln!(output, "{path} can't be read")?;
    Ok(())
}

// Does the lines of a file.
fn read_lines<H: Files + AllocGlobal, W: Write, E: Write>(
    rt: &H,
    telling: Telling,
    session: &mut Session,
    schedule: Database,
    path: &str,
    output: &mut W,
    errors: &mut E,
) -> Result<Database, ShellError>
    ensures { IfOk result (IsFurther schedule) }
{
    let Ok(mut file) = File::open(rt, path) else {
        tell_unread(path, output)?;
        return Ok(schedule);
    };
    let mut input = BufReader::new(rt.alloc(), &mut file)?;
    let telling = Telling {
        is_prompting: false,
        ..telling
    };
    do_file_lines(rt, telling, session, schedule, &mut input, output, errors)
}

// The text of the script that a file is, none of a file of another form or of a long one.
fn script_in<H: Files + AllocGlobal>(rt: &H, path: &str) -> Result<Option<Vec<u8>>, ShellError> {
    let alloc = rt.alloc();
    let Ok(mut file) = File::open(rt, path) else {
        return Ok(None);
    };
    let mut input = BufReader::new(alloc, &mut file)?;
    if is_object(&mut input) {
        script_text(alloc, &mut input)
    } else {
        Ok(None)
    }
}

// Does the steps of the script that a file is, or else its lines. A script that is too long to be
// read as a whole has lines that are steps, as `.dump` writes it.
fn read_file<H: Files + AllocGlobal, W: Write, E: Write>(
    rt: &H,
    telling: Telling,
    session: &mut Session,
    schedule: Database,
    path: &str,
    output: &mut W,
    errors: &mut E,
) -> Result<Database, ShellError>
    ensures { IfOk result (IsFurther schedule) }
{
    match script_in(rt, path) {
        Ok(Some(text)) => {
            let text = text.as_slice();
            do_script(rt.alloc(), telling, session, schedule, path, text, output)
        }
        Ok(None) => read_lines(rt, telling, session, schedule, path, output, errors),
        Err(ShellError::CannotRead) => {
            tell_unread(path, output)?;
            Ok(schedule)
        }
        Err(error) => Err(error),
    }
}

// Does what a line asks for that wasn't done at once; false where the shell is to end.
fn do_asked<H: Files + AllocGlobal, W: Write, E: Write>(
    rt: &H,
    telling: Telling,
    session: &mut Session,
    done: Done,
    output: &mut W,
    errors: &mut E,
) -> Result<(Database, bool), ShellError>
    ensures { IfOk result (λ after. IsFurther done.schedule after.0) }
{
    let Done { schedule, asked } = done;
    match asked {
        Asked::Read(path) => {
            let path = path.as_str();
            let schedule = read_file(rt, telling, session, schedule, path, output, errors)?;
            Ok((schedule, true))
        }
        asked => {
            let done = Done { schedule, asked };
            do_asked_in_file(rt, telling, session, done, output, errors)
        }
    }
}

// Does the lines of the input, and what they ask for, to its end.
fn do_all<H: Files + AllocGlobal, R: Read, W: Write, E: Write>(
    rt: &H,
    telling: Telling,
    schedule: Database,
    input: &mut BufReader<R>,
    output: &mut W,
    errors: &mut E,
) -> Result<Database, ShellError>
    ensures { IfOk result (IsFurther schedule) }
{
    let alloc = rt.alloc();
    let mut session = Session::new(alloc)?;
    let mut progress = Progress::new(false);
    let mut schedule = schedule;
    'all: for _ in 0..u64::MAX {
        let done = do_lines(
            alloc,
            telling,
            &mut progress,
            &mut session,
            schedule,
            input,
            output,
            errors,
        )?;
        let (after, goes_on) = do_asked(rt, telling, &mut session, done, output, errors)?;
        if !goes_on {
            return Ok(after);
        }
        schedule = after;
    }
    Ok(schedule)
}

// What is told before the first line.
fn greeting_of(database: &Database) -> &'static [u8] {
    if database.is_logged() {
        LOGGED_GREETING
    } else {
        GREETING
    }
}

/// Reads lines and does each as it comes, over a database, to the end of the input. What is told is
/// written on `output`, and how far long work is on `errors`. Answers the database in which it
/// ends: that of all steps that were done before, and then of these, one after another.
///
/// It is refused with `OutOfMemory` where memory is wanting, with `CannotRead` where the input
/// can't be read, with `CannotWrite` where the output can't be written, and with `Unlogged` where
/// the log of the database doesn't go on.
pub fn run_shell<H: Files + AllocGlobal, R: Read, W: Write, E: Write>(
    rt: &H,
    telling: Telling,
    database: Database,
    input: &mut R,
    output: &mut W,
    errors: &mut E,
) -> Result<Database, ShellError>
    ensures further { IfOk result (IsFurther database) }
    ensures steps { (first : ClusterState) → IsOfStepsFrom first database
        → IfOk result (IsOfStepsFrom first) }
{
    let alloc = rt.alloc();
    let mut input = BufReader::new(alloc, input)?;
    let mut output = BufWriter::new(alloc, output)?;
    if telling.is_prompting {
        output.write_all(greeting_of(&database))?;
    }
    let after = do_all(rt, telling, database, &mut input, &mut output, errors)?;
    output.flush()?;
    Ok(after)
}
