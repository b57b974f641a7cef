//! The program `recordctl`: runs scripts and races over a record store, shows the plans of queries,
//! and packs and unpacks tuples.
#![tactic(auto)]

ghost use Rattle.std.specs.Prelude.{◌≡◌, ◌≤◌, IfSome};
ghost use Rattle.std.specs.Process.{exit_status};
ghost use Rattle.recordctl.specs.Status.{refused_status};

mod checks;
mod drawing;
mod echo;
mod fault;
mod folders;
mod input;
mod logs;
mod plans;
mod printing;
mod racing;
mod run;
mod shelling;
mod simulating;
mod tuples;

use checks::{check_files, check_input};
use command_line::{CommandLineError, PlanForm, Request, RunWords, request_of, version_line};
use fault::Fault;
use logs::print_log;
use plans::print_plan;
use printing::{print_line, refuse};
use racing::run_race;
use run::{draw_run, run};
use shelling::{Terminals, run_typed};
use simulating::simulate;
use std::alloc::Global;
use std::fs::File;
use std::io::{IsTerminal, Read, Write};
use std::process::ExitCode;
use std::rt::Files;
use std::sync::Wait;
use std::thread::Threads;
use std::{env, io};
use tuples::{pack, unpack};

// The status of a command line that isn't taken.
const BAD_COMMAND_LINE: u8 = 2;

// Prints why the command line isn't taken, or the help that it asks for; answers the exit status.
fn refuse_command_line<E: Write>(errors: &mut E, error: &CommandLineError) -> ExitCode
    ensures { exit_status result ≡ refused_status error.now }
{
    match error {
        CommandLineError::NotTaken(text) => {
            let _ = write!(errors, "{text}");
            ExitCode::from(BAD_COMMAND_LINE)
        }
        CommandLineError::OutOfMemory => refuse(errors, Fault::OutOfMemory),
    }
}

// Runs the script that the input stands for, over the database in a folder where one is named, and
// prints what is asked for.
fn run_as<H: Files<File = File> + AllocGlobal, R: Read, W: Write, E: Write>(
    rt: &H,
    words: RunWords,
    folder: Option<&str>,
    is_watched: bool,
    input: &mut R,
    output: &mut W,
    errors: &mut E,
) -> ExitCode
    ensures { exit_status result ≤ 1 }
{
    if words.is_drawn {
        draw_run(rt.alloc(), input, output, errors)
    } else {
        run(rt, words, folder, is_watched, input, output, errors)
    }
}

// Runs the script in a file, or without one that which the input stands for.
fn run_file<H: Files<File = File> + AllocGlobal, R: Read, W: Write, E: Write>(
    rt: &H,
    words: RunWords,
    path: Option<&str>,
    folder: Option<&str>,
    terminals: Terminals,
    input: &mut R,
    output: &mut W,
    errors: &mut E,
) -> ExitCode
    ensures { exit_status result ≤ 1 }
{
    let Some(path) = path else {
        return run_as(rt, words, folder, false, input, output, errors);
    };
    let is_watched = terminals.is_watched && !terminals.is_read;
    match File::open(rt, path) {
        Ok(mut file) => run_as(rt, words, folder, is_watched, &mut file, output, errors),
        Err(_) => refuse(errors, Fault::CannotRead),
    }
}

// The form in which a plan is printed: where the words don't say, a tree on a terminal, else a line.
fn plan_form(form: Option<PlanForm>, terminals: Terminals) -> PlanForm
    ensures { IfSome form (λ asked. result ≡ asked) }
{
    match form {
        Some(form) => form,
        None if terminals.is_read => PlanForm::Tree,
        None => PlanForm::Line,
    }
}

// Prints in this form the plan that the text in a file asks for.
fn explain_file<H: Files + AllocGlobal, W: Write, E: Write>(
    rt: &H,
    form: PlanForm,
    path: &str,
    output: &mut W,
    errors: &mut E,
) -> ExitCode
    ensures { exit_status result ≤ 1 }
{
    match File::open(rt, path) {
        Ok(mut file) => print_plan(rt.alloc(), form, &mut file, output, errors),
        Err(_) => refuse(errors, Fault::CannotRead),
    }
}

// Runs the race in a file.
fn race_file<H: Files + AllocGlobal + Threads + Wait + Sync, W: Write, E: Write>(
    rt: &H,
    path: &str,
    output: &mut W,
    errors: &mut E,
) -> ExitCode
    ensures { exit_status result ≤ 1 }
{
    match File::open(rt, path) {
        Ok(mut file) => run_race(rt, rt.alloc(), &mut file, output, errors),
        Err(_) => refuse(errors, Fault::CannotRead),
    }
}

// Prints what the program was built from.
fn print_version<W: Write, E: Write>(alloc: Global, output: &mut W, errors: &mut E) -> ExitCode
    ensures { exit_status result ≤ 1 }
{
    match version_line(alloc) {
        Ok(line) => print_line(output, errors, Ok(line)),
        Err(_) => refuse(errors, Fault::OutOfMemory),
    }
}

// Does what the words of the command line ask for, where a text that isn't in a file is read from the input.
fn perform<
    H: Files<File = File> + AllocGlobal + Threads + Wait + Sync,
    R: Read,
    W: Write,
    E: Write,
>(
    rt: &H,
    words: &[String],
    terminals: Terminals,
    input: &mut R,
    output: &mut W,
    errors: &mut E,
) -> ExitCode
    ensures { exit_status result ≤ 2 }
{
    let alloc = rt.alloc();
    match request_of(alloc, words) {
        Ok(Request::Run(words, path, folder)) => {
            let (path, folder) = (path.as_deref(), folder.as_deref());
            run_file(rt, words, path, folder, terminals, input, output, errors)
        }
        Ok(Request::Check(paths)) if paths.is_empty() => check_input(alloc, input, output, errors),
        Ok(Request::Check(paths)) => check_files(rt, paths.as_slice(), output, errors),
        Ok(Request::Explain(form, Some(path))) => {
            let form = plan_form(form, terminals);
            explain_file(rt, form, path.as_str(), output, errors)
        }
        Ok(Request::Explain(form, None)) => {
            print_plan(alloc, plan_form(form, terminals), input, output, errors)
        }
        Ok(Request::Pack(word)) => pack(alloc, word.as_str(), output, errors),
        Ok(Request::Unpack(word)) => unpack(alloc, word.as_str(), output, errors),
        Ok(Request::Race(Some(path))) => race_file(rt, path.as_str(), output, errors),
        Ok(Request::Race(None)) => run_race(rt, alloc, input, output, errors),
        Ok(Request::Version) => print_version(alloc, output, errors),
        Ok(Request::Simulate(words)) => simulate(rt, words, output, errors),
        Ok(Request::Shell(words, folder)) => {
            let folder = folder.as_deref();
            run_typed(rt, words, folder, terminals, input, output, errors)
        }
        Ok(Request::Log(folder)) => print_log(rt, folder.as_str(), output, errors),
        Err(error) => refuse_command_line(errors, &error),
    }
}

// Whether people are at the terminals.
fn terminals_of(rt: &HostRuntime) -> Terminals {
    Terminals {
        is_read: rt.stdout().is_terminal(),
        is_typed: rt.stdin().is_terminal(),
        is_watched: rt.stderr().is_terminal(),
    }
}

// The words of the command line, the program's name first.
fn words_of(rt: &HostRuntime) -> io::Result<Vec<String>> {
    let words = env::args(rt)?.collect(rt.alloc())?;
    Ok(words)
}

fn main(rt: HostRuntime) -> ExitCode {
    match words_of(&rt) {
        Ok(words) => perform(
            &rt,
            words.as_slice(),
            terminals_of(&rt),
            &mut rt.stdin(),
            &mut rt.stdout(),
            &mut rt.stderr(),
        ),
        Err(error) if error.kind() == io::ErrorKind::OutOfMemory => refuse(
            &mut rt.stderr(),
            Fault::OutOfMemory,
        ),
        Err(_) => {
            let _ = rt.eprintln("error: an argument isn't UTF-8");
            ExitCode::from(BAD_COMMAND_LINE)
        }
    }
}
