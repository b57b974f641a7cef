//! A log of commands: its entries, each of which has what one committed transaction changed, and
//! their bytes.
#![tactic(auto)]

mod asked;
mod change;
mod changing;
mod entry;
mod error;
mod form;
mod numbers;
mod part;

pub use change::{Change, Changes};
pub use entry::Entry;
pub use error::EntryError;
pub use form::{bytes_of, entries_are_written_once, entry_of, push_entry};
