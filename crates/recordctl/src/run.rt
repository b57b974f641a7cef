// The command `run`: a script is run a step at a time, over a database in memory or in a folder,
// and what each step replies is printed as it is done. Called by `main` and `simulating`.
ghost use Rattle.std.specs.Prelude.{◌≡◌, ◌≤◌, ◌⊎◌, false, IfOk, IfErr, IfSome, IsNone, OnOk};
ghost use Rattle.std.specs.Process.{exit_status};
ghost use Rattle.script_check.specs.Good.{IsRunnable};
ghost use Rattle.shell.specs.Further.{HasDoneNext};
ghost use Rattle.recordctl.specs.Run.{IsBegunOf, IsRunOf, IsRunOver, explains_run, stop_of};
ghost use Rattle.recordctl.specs.declared.run.Stopped.TheVariants.{CannotWrite, Refused, Unopened};
ghost use Rattle.recordctl.specs.declared.fault.Fault.TheVariants.{OutOfMemory};

use crate::drawing::drawn_steps;
use crate::echo::steps_shown;
use crate::fault::{Fault, refused};
use crate::folders::database_in;
use crate::input::read_input;
use crate::printing::{print_line, refuse};
use cluster_core::Config;
use command_line::RunWords;
use drawings::schedule_svg;
use logged_schedule::StepError;
use schedule::{Reply, ScheduleError, Step};
use script::{Script, ScriptError, make_line, script_of};
use shell::{Database, FolderError, push_named_reply};
use shell_text::{Progress, step_lines};
use std::alloc::{AllocError, Global};
use std::fmt::Write as _;
use std::fs::File;
use std::io::{BufWriter, Read, Write};
use std::process::ExitCode;
use std::rt::Files;
use std::{io, mem};

/// Why a script isn't run to its end.
#[derive(Drop)]
pub enum Stopped {
    /// It is refused, or memory is wanting.
    Refused(Fault),
    /// The output can't be written.
    CannotWrite,
    /// The database in the folder isn't opened.
    Unopened(FolderError),
    /// The log of the database doesn't go on.
    Unlogged(StepError),
}

impl From<Fault> for Stopped {
    ghost from_gives = { λ fault stopped. stopped ≡ Refused fault };

    fn from(fault: Fault) -> Stopped {
        Stopped::Refused(fault)
    }
}

impl From<AllocError> for Stopped {
    ghost from_gives = { λ _ stopped. stopped ≡ Refused OutOfMemory };

    fn from(_error: AllocError) -> Stopped {
        Stopped::Refused(Fault::OutOfMemory)
    }
}

impl From<io::Error> for Stopped {
    ghost from_gives = { λ _ stopped. stopped ≡ CannotWrite };

    fn from(_error: io::Error) -> Stopped {
        Stopped::CannotWrite
    }
}

impl From<FolderError> for Stopped {
    ghost from_gives = { λ error stopped. stopped ≡ Unopened error };

    fn from(error: FolderError) -> Stopped {
        Stopped::Unopened(error)
    }
}

impl From<StepError> for Stopped {
    ghost from_gives = { λ error stopped. stopped ≡ stop_of error };

    fn from(error: StepError) -> Stopped {
        match error {
            StepError::Memory => Stopped::Refused(Fault::OutOfMemory),
            StepError::Full | StepError::Unknown | StepError::Starved => Stopped::Unlogged(error),
        }
    }
}

/// A script that is begun: its configuration and its steps, and the database before them.
#[derive(Drop)]
pub struct Begun {
    pub config: Config,
    pub steps: Vec<Step>,
    pub database: Database,
}

// The script that a text stands for, begun over an empty database.
fn begun_of(alloc: Global, text: &[u8]) -> Result<Begun, Fault>
    ensures ok { IfOk result (IsBegunOf text.now) }
    ensures err { IfErr result (explains_run text.now) }
{
    let Script { config, steps } = match script_of(alloc, text) {
        Ok(script) => script,
        Err(ScriptError::BadScript(step)) => return Err(Fault::BadScript(step)),
        Err(ScriptError::OutOfMemory) => return Err(Fault::OutOfMemory),
    };
    match Database::new(alloc, &config) {
        Ok(database) => Ok(Begun {
            config,
            steps,
            database,
        }),
        Err(ScheduleError::Config(refusal)) => Err(refused(refusal)),
        Err(ScheduleError::Memory) => Err(Fault::OutOfMemory),
    }
}

// Makes the line of a step's reply, with names in the place of keys where that is asked for.
fn make_line_as(
    alloc: Global,
    words: RunWords,
    line: &mut String,
    number: usize,
    database: &Database,
    reply: &Reply,
) -> Result<(), AllocError> {
    if !words.is_named {
        return make_line(alloc, line, number, reply);
    }
    line.clear();
    write!(line, "{number} ")?;
    push_named_reply(alloc, line, database.cluster(), reply)?;
    line.push_str("\n")
}

// Prints the line of the step at a place, where there is one.
fn write_step<W: Write>(output: &mut W, steps: &[Vec<u8>], index: usize) -> io::Result<()> {
    match steps.get(index) {
        Some(step) => output.write_all(step.as_slice()),
        None => Ok(()),
    }
}

// Does steps, and prints the line of each as it is done, after that of the step where those are
// shown.
fn write_in_turn<W: Write, E: Write>(
    alloc: Global,
    words: RunWords,
    progress: Progress,
    database: Database,
    steps: &[Step],
    shown: &[Vec<u8>],
    output: &mut W,
    errors: &mut E,
) -> Result<Database, Stopped>
    ensures done { IfOk result (HasDoneNext steps.now database) }
    ensures quiet { progress ≡ false → E.contents errors.new ≡ E.contents errors.old }
{
    let mut progress = progress;
    let mut database = database;
    let mut line = String::new(alloc);
    for (index, step) in steps.iter().enumerate() {
        let (after, reply) = database.step(alloc, step)?;
        database = after;
        write_step(output, shown, index)?;
        make_line_as(alloc, words, &mut line, index + 1, &database, &reply)?;
        output.write_all(line.as_bytes())?;
        progress.note(errors, "steps");
    }
    progress.end(errors);
    output.flush()?;
    Ok(database)
}

// A script that is read and begun, and its text.
#[derive(Drop)]
struct Taken {
    text: Vec<u8>,
    begun: Begun,
}

// The script that is read, begun.
fn read_script<R: Read>(alloc: Global, input: &mut R) -> Result<Taken, Fault>
    ensures ok { IfOk result (λ taken.
        IfSome (R.remaining input.old) (λ text. IsBegunOf text taken.begun)) }
    ensures err { IfErr result (λ fault.
        (fault ≡ Fault.CannotRead) ⊎ IfSome (R.remaining input.old) (λ text. explains_run text fault)) }
{
    let text = read_input(alloc, input)?;
    let begun = begun_of(alloc, text.as_slice())?;
    Ok(Taken { text, begun })
}

// Runs the script that is read, and answers the database after its steps. It is checked whole
// before a folder is opened.
fn run_read<H: Files<File = File> + AllocGlobal, R: Read, W: Write, E: Write>(
    rt: &H,
    words: RunWords,
    folder: Option<&str>,
    is_watched: bool,
    input: &mut R,
    output: &mut W,
    errors: &mut E,
) -> Result<Database, Stopped>
    ensures over { IfOk result (λ database.
        IfSome (R.remaining input.old) (λ text. IsRunOver text database)) }
    ensures ran { IfOk result (λ database. IsNone folder.entry →
        IfSome (R.remaining input.old) (λ text. IsRunOf text database)) }
    ensures quiet { is_watched ≡ false → E.contents errors.new ≡ E.contents errors.old }
{
    let alloc = rt.alloc();
    let Taken { text, begun } = read_script(alloc, input)?;
    let Begun {
        config,
        steps,
        database,
    } = begun;
    let database = database_in(rt, folder, config, database)?;
    let shown = steps_shown(alloc, words, text.as_slice())?;
    drop(text);
    let Ok(mut buffered) = BufWriter::new(alloc, output) else {
        return Err(Stopped::Refused(Fault::OutOfMemory));
    };
    let ran = write_in_turn(
        alloc,
        words,
        Progress::new(is_watched),
        database,
        steps.as_slice(),
        shown.as_slice(),
        &mut buffered,
        errors,
    );
    // The process ends next, and takes them with it faster than one by one.
    mem::forget(steps);
    ran
}

/// Reads a script, runs its steps, and prints a line for each as it is done on `output`, and how
/// far it is on `errors` where somebody watches that. They run over an empty database, or over that
/// in a folder, which is made where it isn't there; a line is printed then once what its step
/// commits is in the log. A script is read and checked whole before that; where it is refused a
/// line on `errors` says why, and nothing is printed on `output`. Where steps are shown each line
/// stands after that of its step. Answers the exit status: 0, or 1 for such a fault, for want of
/// memory, where `output` can't be written, and where the folder isn't opened or its log doesn't go
/// on.
pub fn run<H: Files<File = File> + AllocGlobal, R: Read, W: Write, E: Write>(
    rt: &H,
    words: RunWords,
    folder: Option<&str>,
    is_watched: bool,
    input: &mut R,
    output: &mut W,
    errors: &mut E,
) -> ExitCode
    ensures status { exit_status result ≤ 1 }
    ensures script { exit_status result ≡ 0 → IfSome (R.remaining input.old) IsRunnable }
    ensures quiet { exit_status result ≡ 0 → is_watched ≡ false →
        E.contents errors.new ≡ E.contents errors.old }
{
    match run_read(rt, words, folder, is_watched, input, output, errors) {
        Ok(database) => {
            mem::forget(database);
            ExitCode::SUCCESS
        }
        Err(Stopped::Refused(fault)) => refuse(errors, fault),
        Err(Stopped::Unopened(error)) => refuse(errors, error),
        Err(Stopped::Unlogged(error)) => refuse(errors, error),
        Err(Stopped::CannotWrite) => ExitCode::FAILURE,
    }
}

// The drawing of the script that is read.
fn drawing_of_input<R: Read>(alloc: Global, input: &mut R) -> Result<String, Fault>
    ensures ok { OnOk result (IfSome (R.remaining input.old) IsRunnable) }
    ensures err { IfErr result (λ fault.
        (fault ≡ Fault.CannotRead) ⊎ IfSome (R.remaining input.old) (λ text. explains_run text fault)) }
{
    let Taken { text, begun } = read_script(alloc, input)?;
    let lines = step_lines(alloc, text.as_slice())?;
    let events = drawn_steps(alloc, begun, lines.as_slice())?;
    Ok(schedule_svg(alloc, events.as_slice())?)
}

/// Reads a script, runs its steps over an empty database, and prints a drawing of them. Answers the
/// exit status: 0, or 1 with a line on `errors` as `run`, and 1 without one where `output`
/// can't be written.
pub fn draw_run<R: Read, W: Write, E: Write>(
    alloc: Global,
    input: &mut R,
    output: &mut W,
    errors: &mut E,
) -> ExitCode
    ensures status { exit_status result ≤ 1 }
    ensures script { exit_status result ≡ 0 → IfSome (R.remaining input.old) IsRunnable }
    ensures quiet { exit_status result ≡ 0 → E.contents errors.new ≡ E.contents errors.old }
{
    let drawing = drawing_of_input(alloc, input);
    print_line(output, errors, drawing)
}
