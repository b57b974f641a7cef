// The lines of an entry. Called by `recordctl`.
use crate::steps::push_step;
use command_log::Entry;
use std::alloc::{AllocError, Global};
use std::fmt::Write;

/// The lines of an entry: one of its version, its client, its number and its store, and then one
/// for each change, as the step of a script.
pub fn entry_lines(alloc: Global, entry: &Entry) -> Result<String, AllocError> {
    let mut out = String::new(alloc);
    let (version, client) = (entry.version, entry.client);
    let (number, store) = (entry.number, entry.store);
    writeln!(
        out,
        "version {version} client {client} number {number} store {store}"
    )?;
    for change in entry.changes.as_slice() {
        push_step(alloc, &mut out, client, change)?;
        out.push_str("\n")?;
    }
    Ok(out)
}
