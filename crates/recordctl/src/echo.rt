// The lines of a script's steps, which `run --echo` prints. Called by `run`.
use command_line::RunWords;
use shell_text::step_lines;
use std::alloc::{AllocError, Global};

/// The lines of a script's steps where they are shown, each step as it is written, on one line;
/// else none.
pub fn steps_shown(
    alloc: Global,
    words: RunWords,
    text: &[u8],
) -> Result<Vec<Vec<u8>>, AllocError> {
    if words.is_echo {
        step_lines(alloc, text)
    } else {
        Ok(Vec::new(alloc))
    }
}
