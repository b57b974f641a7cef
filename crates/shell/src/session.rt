// Lines, done one after another. Called by `reading`.
ghost use Rattle.std.specs.Prelude.{IfOk};
ghost use Rattle.shell.specs.Further.{IsFurther};

use crate::database::Database;
use crate::dump::write_dump;
use crate::error::ShellError;
use crate::importing::Order;
use crate::stepping::do_steps;
use crate::stores::Stores;
use crate::telling::Telling;
use cluster_core::Cluster;
use json::Scratch;
use json_places::Cursor;
use record_store::{StoreError, StoreNumber};
use schedule::Step;
use script::{ScriptError, script_with};
use script_check::check;
use shell_line::{Flaw, Line, LineError, Show, line_of, place_in_line};
use shell_text::{
    Opened, help_of, help_of_all, open, plan_lines, push_index_lines, push_type_lines,
};
use std::alloc::{AllocError, Global};
use std::io::Write;

/// What is kept beside the schedule: the stores in which clients are, and room for texts.
#[derive(Drop)]
pub(crate) struct Session {
    pub stores: Stores,
    pub scratch: Scratch,
}

impl Session {
    /// That of a shell in which nothing was done.
    pub(crate) fn new(alloc: Global) -> Result<Session, AllocError> {
        let stores = Stores::new(alloc)?;
        let scratch = Scratch::new(alloc);
        Ok(Session { stores, scratch })
    }
}

// What stands before the steps of a line in a script, and after them.
const BEFORE: &str = "{\"steps\":[";

const AFTER: &str = "]}";

// Tells what is wrong with a line, and in which column.
fn tell_flaw<W: Write>(line: &str, flaw: &Flaw, output: &mut W) -> Result<(), ShellError> {
    let column = Cursor::new(line.as_bytes()).place_of(flaw.at).column;
    let reason = flaw.reason.as_str();
    writeln!(output, "column {column}: {reason}")?;
    Ok(())
}

// What is wrong with the steps of a line, which stand in a script.
fn flaw_of_steps(alloc: Global, line: &str, text: &str, framed: &str) -> Result<Flaw, AllocError> {
    let problems = check(alloc, framed.as_bytes())?;
    match problems.into_iter().next() {
        Some(problem) => {
            let at = place_in_line(line, text, problem.at.saturating_sub(BEFORE.len()));
            let reason = problem.reason;
            Ok(Flaw { at, reason })
        }
        None => {
            let reason = String::from_str(alloc, "this isn't one step")?;
            Ok(Flaw { at: 0, reason })
        }
    }
}

// The steps of a line in a script.
fn framed(alloc: Global, text: &str) -> Result<String, AllocError> {
    let length = text.len().saturating_add(BEFORE.len() + AFTER.len());
    let mut framed = String::with_capacity(alloc, length)?;
    framed.push_str(BEFORE)?;
    framed.push_str(text)?;
    framed.push_str(AFTER)?;
    Ok(framed)
}

// The steps of a text.
fn steps_in(
    alloc: Global,
    scratch: &mut Scratch,
    framed: &str,
) -> Result<Option<Vec<Step>>, AllocError> {
    match script_with(alloc, scratch, framed.as_bytes()) {
        Ok(script) => Ok(Some(script.steps)),
        Err(ScriptError::OutOfMemory) => Err(AllocError),
        Err(ScriptError::BadScript(_)) => Ok(None),
    }
}

// Does the steps of a line.
fn do_text<W: Write>(
    alloc: Global,
    telling: Telling,
    session: &mut Session,
    schedule: Database,
    line: &str,
    text: &str,
    output: &mut W,
) -> Result<Database, ShellError>
    ensures { IfOk result (IsFurther schedule) }
{
    let framed = framed(alloc, text)?;
    match steps_in(alloc, &mut session.scratch, framed.as_str())? {
        Some(steps) => {
            if telling.is_echo {
                writeln!(output, "{text}")?;
            }
            let stores = &mut session.stores;
            do_steps(alloc, telling, stores, schedule, steps.as_slice(), output)
        }
        None => {
            let flaw = flaw_of_steps(alloc, line, text, framed.as_str())?;
            tell_flaw(line, &flaw, output)?;
            Ok(schedule)
        }
    }
}

// Tells how the store of a number, which isn't there, is made.
fn tell_no_store<W: Write>(number: StoreNumber, output: &mut W) -> Result<(), ShellError> {
    match number.get() {
        1 => writeln!(
            output,
            "there is no store: begin, create and commit make one"
        )?,
        store => writeln!(
            output,
            "there is no store {store}: begin {store}, create and commit make it"
        )?,
    }
    Ok(())
}

// Tells why the store of a number isn't opened.
fn tell_unopened<W: Write>(
    number: StoreNumber,
    error: &StoreError,
    output: &mut W,
) -> Result<(), ShellError> {
    match error {
        StoreError::Memory => Err(ShellError::OutOfMemory),
        StoreError::NoStore => tell_no_store(number, output),
        StoreError::Read(why) => {
            writeln!(output, "{why}: settle has the servers follow")?;
            Ok(())
        }
        _ => {
            writeln!(output, "{error}")?;
            Ok(())
        }
    }
}

// What is told of what is committed.
fn lines_of(
    alloc: Global,
    cluster: &Cluster,
    opened: &mut Opened,
    show: &Show,
) -> Result<String, AllocError> {
    let mut out = String::new(alloc);
    match show {
        Show::Schema if opened.schema().types().is_empty() => {
            out.push_str("no type is committed: type adds one\n")?;
        }
        Show::Schema => push_type_lines(&mut out, opened.schema())?,
        Show::Indexes if opened.schema().indexes().is_empty() => {
            out.push_str("no index is committed: index, count and sum add one\n")?;
        }
        Show::Indexes => push_index_lines(alloc, &mut out, cluster, opened)?,
        Show::Plan(query) => return plan_lines(alloc, &opened.store, query.as_str()),
        Show::Dump | Show::Read(_) | Show::Import(_, _) => {}
    }
    Ok(out)
}

// Tells something of what is committed in the store of a number.
fn tell_show<W: Write>(
    alloc: Global,
    schedule: &Database,
    number: StoreNumber,
    show: &Show,
    output: &mut W,
) -> Result<(), ShellError> {
    let cluster = schedule.cluster();
    let mut opened = match open(alloc, cluster, number) {
        Ok(opened) => opened,
        Err(error) => return tell_unopened(number, &error, output),
    };
    match show {
        Show::Dump => write_dump(alloc, cluster, number, &mut opened, output),
        _ => {
            let lines = lines_of(alloc, cluster, &mut opened, show)?;
            output.write_all(lines.as_bytes())?;
            Ok(())
        }
    }
}

/// What a line asks for that isn't done at once.
#[derive(Debug, Drop)]
pub(crate) enum Asked {
    /// Nothing.
    Nothing,
    /// To do the lines of a file, or the steps of the script that it is.
    Read(String),
    /// To save the records of a file.
    Import(Order),
    /// To end.
    Quit,
}

// A schedule after a line, and what the line asks for beside that.
#[derive(Drop)]
pub(crate) struct Done {
    pub schedule: Database,
    pub asked: Asked,
}

// Writes a text.
fn tell_text<W: Write>(text: &str, output: &mut W) -> Result<(), ShellError> {
    output.write_all(text.as_bytes())?;
    Ok(())
}

/// Does a line.
pub(crate) fn do_line<W: Write>(
    alloc: Global,
    telling: Telling,
    session: &mut Session,
    schedule: Database,
    line: &str,
    output: &mut W,
) -> Result<Done, ShellError>
    ensures { IfOk result (λ done. IsFurther schedule done.schedule) }
{
    let mut asked = Asked::Nothing;
    match line_of(alloc, line) {
        Ok(Line::Blank) => {}
        Ok(Line::Json(text)) => {
            let text = text.as_str();
            let schedule = do_text(alloc, telling, session, schedule, line, text, output)?;
            return Ok(Done { schedule, asked });
        }
        Ok(Line::Steps(text)) => {
            let text = text.as_str();
            let schedule = do_text(alloc, telling, session, schedule, line, text, output)?;
            return Ok(Done { schedule, asked });
        }
        Ok(Line::Help) => tell_text(help_of_all(alloc)?.as_str(), output)?,
        Ok(Line::HelpOf(topic)) => tell_text(help_of(alloc, topic)?.as_str(), output)?,
        Ok(Line::Show(_, Show::Read(file))) => asked = Asked::Read(file),
        Ok(Line::Show(client, Show::Import(path, type_name))) => {
            asked = Asked::Import(Order {
                client,
                path,
                type_name,
            });
        }
        Ok(Line::Show(client, show)) => {
            let store = session.stores.of(client);
            tell_show(alloc, &schedule, store, &show, output)?;
        }
        Ok(Line::Quit) => asked = Asked::Quit,
        Err(LineError::Bad(flaw)) => tell_flaw(line, &flaw, output)?,
        Err(LineError::OutOfMemory) => return Err(ShellError::OutOfMemory),
    }
    Ok(Done { schedule, asked })
}
