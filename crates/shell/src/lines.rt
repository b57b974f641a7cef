// Lines of an input. Called by `reading` and `importing`.
use crate::error::ShellError;
use std::io::{BufRead, ErrorKind};

/// A line without its end.
pub(crate) fn without_end(line: &[u8]) -> &[u8] {
    match line {
        [line @ .., b'\r', b'\n'] => line,
        [line @ .., b'\n'] => line,
        _ => line,
    }
}

/// The next line of an input in the place of what bytes held, or none at its end.
pub(crate) fn next_line<R: BufRead>(
    input: &mut R,
    bytes: &mut Vec<u8>,
) -> Result<bool, ShellError> {
    bytes.clear();
    match input.read_until(b'\n', bytes) {
        Ok(count) => Ok(count > 0),
        Err(error) if error.kind() == ErrorKind::OutOfMemory => Err(ShellError::OutOfMemory),
        Err(_) => Err(ShellError::CannotRead),
    }
}
