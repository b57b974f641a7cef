//! Transactions over snapshots.
#![tactic(auto)]

mod compared;
mod cursor;
mod fail_at;
mod latest;
mod laws;
mod merge;
mod own;
mod read;
mod retry;
mod sum;
mod transaction;

pub use cursor::{BATCH, RangeCursor};
pub use fail_at::FailAt;
pub use kv_core::Snapshot;
pub use laws::{batches_in_pairs, reads_decide};
pub use retry::{Ended, Next, Retry};
pub use transaction::Transaction;
