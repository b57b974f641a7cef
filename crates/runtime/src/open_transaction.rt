// The state of an open transaction. Used by `client`.
ghost use Rattle.std.specs.Prelude.{◌≡◌};
ghost use Rattle.runtime.specs.Clients.{IsFresh};
ghost use Rattle.runtime.specs.Logs.{IsOpenOver, version_of};

use crate::log_prefix::LogPrefix;
use crate::trace::Trace;
use record_store::StoreNumber;
use std::alloc::Global;
use txn::Transaction;

/// An open transaction, and the log over which it was begun.
#[derive(Drop)]
pub struct OpenTransaction {
    pub prefix: LogPrefix,
    pub transaction: Transaction,
    pub trace: Trace,
}

impl OpenTransaction {
    /// A transaction in a store at the version of a log, which has done nothing yet. What it
    /// changes is recorded where that is kept.
    #[tactic(auto, using(crate::proofs::WellFormed::open_first))]
    pub fn new(alloc: Global, prefix: LogPrefix, store: StoreNumber) -> OpenTransaction
        ensures prefix { result.prefix ≡ prefix }
        ensures fresh { IsFresh prefix.name prefix.log store result }
        ensures over { IsOpenOver prefix.name.origin prefix.log
            result.transaction result.trace }
        ensures at { result.transaction.read_version ≡ version_of prefix.name.origin prefix.log }
    {
        let transaction = Transaction::begin(alloc, prefix.version());
        let trace = Trace::begin(alloc, store, prefix.is_kept());
        OpenTransaction {
            prefix,
            transaction,
            trace,
        }
    }
}
