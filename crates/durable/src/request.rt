// What a transaction is to change, and what is told of one that is committed.
use command_log::Changes;
use record_store::StoreNumber;
use schedule::Reply;

/// What is to be changed in one transaction in a store.
#[derive(Drop)]
pub struct Request {
    /// Whose transaction it is.
    pub client: u64,
    /// The number that its client gives it.
    pub number: u64,
    /// The store that it changes.
    pub store: StoreNumber,
    /// What it changes, in order.
    pub changes: Changes,
}

/// A transaction that is committed.
#[derive(Drop)]
pub struct Committed {
    /// Its version.
    pub version: u64,
    /// The reply to each of its changes, in order.
    pub replies: Vec<Reply>,
}
