//! A database of one thread that outlives its process: each transaction is in a log on the disk
//! before it is acknowledged, and the log is performed again where the database is opened.
#![tactic(auto)]

mod checkpointing;
mod database;
mod error;
mod heads;
mod opening;
mod reopening;
mod request;

pub use checkpointing::{Checkpointed, CheckpointedParts, rewrite};
pub use database::Durable;
pub use error::{
    CheckpointError, CommitError, OpenError, ReopenError, Uncommitted, Unopened, UnopenedTwo,
};
pub use heads::bytes_of_checkpoint;
pub use opening::open;
pub use reopening::open_two;
pub use request::{Committed, Request};
