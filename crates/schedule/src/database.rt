// The state of a schedule: its cluster, and the transactions of its clients. Used by `starting`,
// `running`, `clients`, `roles`, `settle` and `reporting`.
ghost use Rattle.std.specs.Prelude.{◌≡◌, vec_len};
ghost use Rattle.schedule.specs.declared.step.TheConstants.{CLIENTS};

use crate::accepted::Accepted;
use crate::commit_log::CommitLog;
use cluster_core::{Cluster, Reported};
use record_store::{Store, StoreNumber};
use std::collections::VecDeque;
use txn::Transaction;

// A client's open transaction in a store, with the commands that it accepted.
#[derive(Drop)]
pub(crate) struct OpenTransaction {
    pub(crate) store: StoreNumber,
    pub(crate) transaction: Transaction,
    pub(crate) commands: Accepted,
    // The store, where a command left it open.
    pub(crate) opened: Option<Store>,
}

// What is listed of a submitted transaction once it is reported as committed.
#[derive(Drop)]
pub(crate) struct Unreported {
    pub(crate) client: u64,
    pub(crate) store: StoreNumber,
    pub(crate) read_version: u64,
    pub(crate) commands: Accepted,
}

// What is told of a submitted transaction, and whose it was.
#[derive(Drop)]
pub(crate) struct Told {
    pub(crate) client: u64,
    pub(crate) reported: Reported,
}

// The database of a schedule.
#[derive(Drop)]
pub(crate) struct Database {
    pub(crate) cluster: Cluster,
    // The open transaction of each client.
    pub(crate) transactions: Vec<Option<OpenTransaction>>,
    // What was submitted and isn't reported yet, in version order.
    pub(crate) unreported: VecDeque<Unreported>,
    // What was reported as committed, in version order.
    pub(crate) commits: CommitLog,
    ghost place_each: { vec_len transactions ≡ CLIENTS },
}
