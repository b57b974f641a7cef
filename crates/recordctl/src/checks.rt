// The command `check`. Called by `main`.
ghost use Rattle.std.specs.Prelude.{◌≡◌, ◌↔◌, ◌≤◌, IfOk, IfSome, IsTrue, None};
ghost use Rattle.std.specs.Process.{exit_status};
ghost use Rattle.script_check.specs.Good.{IsGood};

use crate::fault::Fault;
use crate::input::read_input;
use script_check::{check, problem_lines};
use std::alloc::{AllocError, Global};
use std::fs::File;
use std::io::{Read, Write};
use std::process::ExitCode;
use std::rt::Files;

// The lines of what is wrong with a text, none where nothing is.
fn told_of_text(alloc: Global, name: &str, text: &[u8]) -> Result<Option<String>, AllocError>
    ensures { IfOk result (λ lines. (lines ≡ None) ↔ IsGood text.now) }
{
    let problems = check(alloc, text)?;
    if problems.is_empty() {
        return Ok(None);
    }
    Ok(Some(problem_lines(alloc, name, text, problems.as_slice())?))
}

// The same of the input.
fn told_of_input<R: Read>(alloc: Global, name: &str, input: &mut R) -> Result<Option<String>, Fault>
    ensures { IfOk result (λ lines. (lines ≡ None) → IfSome (R.remaining input.old) IsGood) }
{
    let text = read_input(alloc, input)?;
    let lines = told_of_text(alloc, name, text.as_slice())?;
    Ok(lines)
}

// Prints lines.
fn print_lines<W: Write>(output: &mut W, lines: &str) {
    if output.write_all(lines.as_bytes()).is_ok() {
        let _ = output.flush();
    }
}

/// Prints on `output` what is wrong with the input, a line for each place after the name that is
/// given for it, and answers whether nothing is. What can't be read, and want of memory, are told
/// on `errors` after that name.
pub fn is_good_input<R: Read, W: Write, E: Write>(
    alloc: Global,
    name: &str,
    input: &mut R,
    output: &mut W,
    errors: &mut E,
) -> bool
    ensures good { IsTrue result → IfSome (R.remaining input.old) IsGood }
    ensures quiet { IsTrue result → (W.contents output.new ≡ W.contents output.old)
        × (E.contents errors.new ≡ E.contents errors.old) }
{
    match told_of_input(alloc, name, input) {
        Ok(None) => true,
        Ok(Some(lines)) => {
            print_lines(output, lines.as_str());
            false
        }
        Err(fault) => {
            let _ = writeln!(errors, "{name}: {fault}");
            false
        }
    }
}

// The same of a file.
fn is_good_file<H: Files + AllocGlobal, W: Write, E: Write>(
    rt: &H,
    path: &str,
    output: &mut W,
    errors: &mut E,
) -> bool
    ensures { IsTrue result → (W.contents output.new ≡ W.contents output.old)
        × (E.contents errors.new ≡ E.contents errors.old) }
{
    match File::open(rt, path) {
        Ok(mut file) => is_good_input(rt.alloc(), path, &mut file, output, errors),
        Err(_) => {
            let fault = Fault::CannotRead;
            let _ = writeln!(errors, "{path}: {fault}");
            false
        }
    }
}

/// The status of a check: 0 where nothing is wrong, else 1.
pub fn status_of(is_good: bool) -> ExitCode
    ensures good { (exit_status result ≡ 0) ↔ IsTrue is_good }
    ensures bound { exit_status result ≤ 1 }
{
    if is_good {
        ExitCode::SUCCESS
    } else {
        ExitCode::FAILURE
    }
}

/// Prints what is wrong with each of some files, as `check_input` does, and answers the status.
pub fn check_files<H: Files + AllocGlobal, W: Write, E: Write>(
    rt: &H,
    paths: &[String],
    output: &mut W,
    errors: &mut E,
) -> ExitCode
    ensures status { exit_status result ≤ 1 }
    ensures quiet { exit_status result ≡ 0 → (W.contents output.new ≡ W.contents output.old)
        × (E.contents errors.new ≡ E.contents errors.old) }
{
    let mut is_good = true;
    for path in paths {
        if !is_good_file(rt, path.as_str(), output, errors) {
            is_good = false;
        }
    }
    status_of(is_good)
}

/// Prints what is wrong with the input, and answers the status.
pub fn check_input<R: Read, W: Write, E: Write>(
    alloc: Global,
    input: &mut R,
    output: &mut W,
    errors: &mut E,
) -> ExitCode
    ensures status { exit_status result ≤ 1 }
    ensures good { exit_status result ≡ 0 → IfSome (R.remaining input.old) IsGood }
    ensures quiet { exit_status result ≡ 0 → (W.contents output.new ≡ W.contents output.old)
        × (E.contents errors.new ≡ E.contents errors.old) }
{
    status_of(is_good_input(alloc, "stdin", input, output, errors))
}
