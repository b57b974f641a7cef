// What the program says of its version. Called by `recordctl`.
use std::alloc::{AllocError, Global};

/// The commit whose files these are, where they come of an archive that git made: it writes the
/// commit here then, as `.gitattributes` has it. In a checkout, which may have changed, it doesn't.
const COMMIT: &str = "$Format:%h$";

/// The line that tells what the program was built from: no version has been set yet.
pub fn version_line(alloc: Global) -> Result<String, AllocError> {
    if COMMIT.starts_with("$") {
        String::from_str(alloc, "recordctl, built from a checkout\n")
    } else {
        format!(in alloc; "recordctl, built from the commit {COMMIT}\n")
    }
}
