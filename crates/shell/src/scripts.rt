// A script in a file that is read. Called by `reading`.
ghost use Rattle.std.specs.Prelude.{IfOk};
ghost use Rattle.shell.specs.Further.{IsFurther};

use crate::database::Database;
use crate::error::ShellError;
use crate::session::Session;
use crate::stepping::do_steps;
use crate::stores::Stores;
use crate::telling::Telling;
use cluster_core::Config;
use schedule::Step;
use script::{ScriptError, script_with};
use script_check::{check, problem_lines};
use shell_text::step_lines;
use std::alloc::{AllocError, Global};
use std::io::Write;

// Whether a configuration is that of the shell's database.
fn is_single(config: &Config) -> bool {
    config.resolver_splits.as_slice().is_empty()
        && config.storage_splits.as_slice().is_empty()
        && (config.logs, config.window, config.start) == (1, 1000, 0)
}

// The lines of the steps, where they are told.
fn lines_shown(alloc: Global, telling: Telling, text: &[u8]) -> Result<Vec<Vec<u8>>, AllocError> {
    if telling.is_echo {
        step_lines(alloc, text)
    } else {
        Ok(Vec::new(alloc))
    }
}

// Does steps, and tells the line of each before its reply where there are lines.
fn do_shown<W: Write>(
    alloc: Global,
    telling: Telling,
    stores: &mut Stores,
    schedule: Database,
    steps: &[Step],
    lines: &[Vec<u8>],
    output: &mut W,
) -> Result<Database, ShellError>
    ensures { IfOk result (IsFurther schedule) }
{
    let mut schedule = schedule;
    'steps: for (index, step) in steps.chunks(1).enumerate() {
        if let Some(line) = lines.get(index) {
            output.write_all(line.as_slice())?;
        }
        schedule = do_steps(alloc, telling, stores, schedule, step, output)?;
    }
    Ok(schedule)
}

// Tells what is wrong with a text that is no script.
fn tell_problems<W: Write>(
    alloc: Global,
    path: &str,
    text: &[u8],
    output: &mut W,
) -> Result<(), ShellError> {
    let problems = check(alloc, text)?;
    let lines = problem_lines(alloc, path, text, problems.as_slice())?;
    output.write_all(lines.as_bytes())?;
    Ok(())
}

/// Does the steps of the script in a file, or tells what is wrong with it.
pub(crate) fn do_script<W: Write>(
    alloc: Global,
    telling: Telling,
    session: &mut Session,
    schedule: Database,
    path: &str,
    text: &[u8],
    output: &mut W,
) -> Result<Database, ShellError>
    ensures { IfOk result (IsFurther schedule) }
{
    match script_with(alloc, &mut session.scratch, text) {
        Ok(script) if is_single(&script.config) => {
            let lines = lines_shown(alloc, telling, text)?;
            do_shown(
                alloc,
                telling,
                &mut session.stores,
                schedule,
                script.steps.as_slice(),
                lines.as_slice(),
                output,
            )
        }
        Ok(_) => {
            writeln!(
                output,
                "{path} has a config, which a shell can't take: run it by recordctl run"
            )?;
            Ok(schedule)
        }
        Err(ScriptError::OutOfMemory) => Err(ShellError::OutOfMemory),
        Err(ScriptError::BadScript(_)) => {
            tell_problems(alloc, path, text, output)?;
            Ok(schedule)
        }
    }
}
