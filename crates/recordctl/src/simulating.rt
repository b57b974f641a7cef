// The command `simulate`. Called by `main`.
ghost use Rattle.std.specs.Prelude.{◌≡◌, ◌≤◌};
ghost use Rattle.std.specs.Process.{exit_status};
ghost use Rattle.script_check.specs.Good.{IsRunnable};

use crate::fault::Fault;
use crate::printing::{print_line, refuse};
use crate::run::{draw_run, run};
use command_line::{RunWords, SimulationWords};
use simulation::{Simulation, script_text};
use std::fs::File;
use std::io::Write;
use std::process::ExitCode;
use std::rt::Files;

// What is printed of a run.
const ECHO: RunWords = RunWords {
    is_echo: true,
    is_named: false,
    is_drawn: false,
};

// Runs a script, and prints each step and its reply, or a drawing of them.
fn run_text<H: Files<File = File> + AllocGlobal, W: Write, E: Write>(
    rt: &H,
    is_drawn: bool,
    text: &str,
    output: &mut W,
    errors: &mut E,
) -> ExitCode
    ensures status { exit_status result ≤ 1 }
    ensures script { exit_status result ≡ 0 → IsRunnable text.now }
    ensures quiet { exit_status result ≡ 0 → E.contents errors.new ≡ E.contents errors.old }
{
    let mut input = text.as_bytes();
    if is_drawn {
        draw_run(rt.alloc(), &mut input, output, errors)
    } else {
        run(rt, ECHO, None, false, &mut input, output, errors)
    }
}

/// Prints the random script that is asked for, or runs it and prints each step and its reply, or a
/// drawing of them. Answers the exit status: 0, or 1 with a line on `errors` for want of memory,
/// and 1 without one where `output` can't be written.
pub fn simulate<H: Files<File = File> + AllocGlobal, W: Write, E: Write>(
    rt: &H,
    words: SimulationWords,
    output: &mut W,
    errors: &mut E,
) -> ExitCode
    ensures status { exit_status result ≤ 1 }
    ensures quiet { exit_status result ≡ 0 → E.contents errors.new ≡ E.contents errors.old }
{
    let simulation = Simulation {
        seed: words.seed,
        clients: words.clients,
        steps: words.steps,
    };
    match script_text(rt.alloc(), simulation) {
        Ok(text) if words.is_run || words.is_drawn => {
            run_text(rt, words.is_drawn, text.as_str(), output, errors)
        }
        Ok(text) => print_line(output, errors, Ok(text)),
        Err(_) => refuse(errors, Fault::OutOfMemory),
    }
}
