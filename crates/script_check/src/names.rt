// Names that aren't known, and those that are near them. Called by `checking`, `leaves`, `filters`
// and `steps`.
use crate::finder::Finder;
use near_names::nearest;
use std::alloc::{AllocError, Global};

// The longest name that is shown, in bytes.
const MOST_SHOWN: usize = 40;

// What is told of a name that isn't among the known ones.
fn reason_of(alloc: Global, what: &str, name: &str, known: &[&str]) -> Result<String, AllocError> {
    if name.len() > MOST_SHOWN {
        return format!(in alloc; "no {what} has so long a name");
    }
    match nearest(alloc, name, known)? {
        Some(near) => { format!(in alloc; "no {what} is called {name:?}; did you mean {near:?}?") }
        None => format!(in alloc; "no {what} is called {name:?}"),
    }
}

/// Tells that a name isn't among the known ones.
pub(crate) fn tell_unknown(
    finder: &mut Finder,
    at: usize,
    what: &str,
    name: &str,
    known: &[&str],
) -> Result<(), AllocError> {
    let reason = reason_of(finder.alloc, what, name, known)?;
    finder.tell(at, reason)
}
