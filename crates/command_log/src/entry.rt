// An entry of the log: what one committed transaction changed. Written and read by `form`.
use crate::change::Changes;

/// What a committed transaction changed.
#[derive(Drop)]
pub struct Entry {
    /// The version at which it is committed.
    pub version: u64,
    /// Whose transaction it was.
    pub client: u64,
    /// The number that its client gave it.
    pub number: u64,
    /// The number of the store that it changed.
    pub store: u64,
    /// Its accepted commands that may change something, in order.
    pub changes: Changes,
}
