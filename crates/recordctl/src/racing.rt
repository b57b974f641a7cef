// The command `race`. Called by `main`.
ghost use Rattle.std.specs.Prelude.{◌≡◌, ◌≤◌, ◌⊎◌, OnOk, IfErr, IfSome};
ghost use Rattle.std.specs.Process.{exit_status};
ghost use Rattle.recordctl.specs.Racing.{IsRaced, explains_raced};

use crate::fault::{Fault, refused};
use crate::input::read_input;
use crate::printing::print_line;
use race::RaceError;
use script::{ScriptError, race_of};
use std::alloc::Global;
use std::io::{Read, Write};
use std::process::ExitCode;
use std::sync::Wait;
use std::thread::Threads;

// The lines of the race that a text stands for.
fn lines_of_text<H: Threads + Wait + Sync>(
    rt: &H,
    alloc: Global,
    text: &[u8],
) -> Result<String, Fault>
    ensures ok { OnOk result (IsRaced text.now) }
    ensures err { IfErr result (explains_raced text.now) }
{
    let race = match race_of(alloc, text) {
        Ok(race) => race,
        Err(ScriptError::BadScript(step)) => return Err(Fault::BadScript(step)),
        Err(ScriptError::OutOfMemory) => return Err(Fault::OutOfMemory),
    };
    match race::run(rt, alloc, &race) {
        Ok(lines) => Ok(lines),
        Err(RaceError::Config(refusal)) => Err(refused(refusal)),
        Err(RaceError::GaveUp) => Err(Fault::GaveUp),
        Err(RaceError::Refused(why)) => Err(Fault::RefusedCommand(why)),
        Err(RaceError::Corrupt) => Err(Fault::Corrupt),
        Err(RaceError::Memory) => Err(Fault::OutOfMemory),
    }
}

// The lines of the race that the input stands for.
fn lines_of_input<H: Threads + Wait + Sync, R: Read>(
    rt: &H,
    alloc: Global,
    input: &mut R,
) -> Result<String, Fault>
    ensures ok { OnOk result (IfSome (R.remaining input.old) IsRaced) }
    ensures err { IfErr result (λ fault.
        (fault ≡ Fault.CannotRead) ⊎ IfSome (R.remaining input.old) (λ text. explains_raced text fault)) }
{
    let text = read_input(alloc, input)?;
    lines_of_text(rt, alloc, text.as_slice())
}

/// Runs the race that the input stands for, and prints what there is at its end. Answers the exit
/// status: 0, or 1 with a line on `errors` where the input can't be read or is no race, its
/// configuration is refused, a client gave up (`gave up`), a command is refused (`refused NAME`) or
/// memory is wanting, and 1 without one where `output` can't be written.
pub fn run_race<H: Threads + Wait + Sync, R: Read, W: Write, E: Write>(
    rt: &H,
    alloc: Global,
    input: &mut R,
    output: &mut W,
    errors: &mut E,
) -> ExitCode
    ensures status { exit_status result ≤ 1 }
    ensures race { exit_status result ≡ 0 → IfSome (R.remaining input.old) IsRaced }
    ensures quiet { exit_status result ≡ 0 → E.contents errors.new ≡ E.contents errors.old }
{
    let lines = lines_of_input(rt, alloc, input);
    print_line(output, errors, lines)
}
