// What ends a command: the line of a fault, or one text. Called by all modules of commands here.
ghost use Rattle.std.specs.Prelude.{◌≡◌, ◌≤◌, OnOk, MatchResult, string_bytes};
ghost use Rattle.std.specs.Io.KnownBytes.{Appends};
ghost use Rattle.std.specs.Process.{exit_status};

use crate::fault::Fault;
use std::fmt::Display;
use std::io;
use std::io::Write;
use std::process::ExitCode;

/// Prints the line of a fault, and answers the exit status, which is 1.
pub fn refuse<E: Write, F: Display + Drop>(errors: &mut E, fault: F) -> ExitCode
    ensures { exit_status result ≡ 1 }
{
    let _ = writeln!(errors, "{fault}");
    ExitCode::FAILURE
}

// Writes a line.
fn write_line<W: Write>(output: &mut W, line: &str) -> io::Result<()>
    ensures { OnOk result (Appends (W.contents output.old) (W.contents output.new) line.now) }
{
    output.write_all(line.as_bytes())?;
    output.flush()
}

/// Prints a line, or the line of a fault, and answers the exit status.
pub fn print_line<W: Write, E: Write>(
    output: &mut W,
    errors: &mut E,
    line: Result<String, Fault>,
) -> ExitCode
    ensures status { exit_status result ≤ 1 }
    ensures printed { exit_status result ≡ 0 →
        MatchResult line (λ text. Appends (W.contents output.old) (W.contents output.new)
        (string_bytes text)) (λ _. ⊥) }
    ensures quiet { exit_status result ≡ 0 → E.contents errors.new ≡ E.contents errors.old }
{
    let line = match line {
        Ok(line) => line,
        Err(fault) => return refuse(errors, fault),
    };
    match write_line(output, line.as_str()) {
        Ok(()) => ExitCode::SUCCESS,
        Err(_) => ExitCode::FAILURE,
    }
}
