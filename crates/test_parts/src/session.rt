// Transactions of three clients over a cluster, which are begun and committed. Used by
// `test_stores` and `test_memory`.
use crate::parts::{report_text, same};
use cluster_core::{Cluster, Config, Reported};
use kv_core::CommitRequest;
use std::alloc::Global;
use std::mem;
use std::test::Fail;
use txn::Transaction;

/// How many clients a session has.
const CLIENTS: usize = 3;

/// A cluster with one role of each kind, and the transactions of clients over it.
#[derive(Drop)]
pub struct Session {
    /// The cluster.
    pub cluster: Cluster,
    /// The transaction of each client.
    pub open: Vec<Transaction>,
}

/// Has the resolver answer for the next version.
fn resolve(cluster: &mut Cluster) -> Result<(), Fail> {
    if cluster.resolvers() > 0 {
        cluster.resolve(0)?;
    }
    Ok(())
}

/// Has the log append the next version.
fn append(cluster: &mut Cluster) -> Result<(), Fail> {
    if cluster.logs() > 0 {
        cluster.append_log(0)?;
    }
    Ok(())
}

/// Has each role handle a request: what is reported of it.
fn handle(cluster: &mut Cluster, request: CommitRequest) -> Result<Reported, Fail> {
    if request.read_version > cluster.read_version() {
        return Err(Fail::from("a version that isn't reported"));
    }
    cluster.submit(request)?;
    resolve(cluster)?;
    append(cluster)?;
    let reported = cluster.report();
    cluster.pull_all()?;
    Ok(reported)
}

impl Session {
    /// Clients of an empty database, who have begun.
    pub fn new(alloc: Global) -> Result<Session, Fail> {
        let cluster = Cluster::new(alloc, &Config::single(alloc))?;
        let mut open = Vec::new(alloc);
        for _ in 0..CLIENTS {
            open.push(Transaction::begin(alloc, 0))?;
        }
        Ok(Session { cluster, open })
    }

    /// Begins a client's transaction, which reads what is reported; one that is open is dropped.
    pub fn begin(&mut self, alloc: Global, client: usize) -> Result<(), Fail> {
        self.end(alloc, client)?;
        Ok(())
    }

    // Ends a client's transaction: its request. The next one has begun.
    fn end(&mut self, alloc: Global, client: usize) -> Result<CommitRequest, Fail> {
        let version = self.cluster.read_version();
        let tx = self.open.get_mut(client).ok_or("no such client")?;
        Ok(mem::replace(tx, Transaction::begin(alloc, version)).into_request())
    }

    /// Commits a client's transaction, of which this must be reported, as `report_text` writes it.
    /// The next one has begun.
    pub fn commit(&mut self, alloc: Global, client: usize, told: &str) -> Result<(), Fail> {
        let request = self.end(alloc, client)?;
        let reported = handle(&mut self.cluster, request)?;
        same(report_text(alloc, &reported)?.as_str(), told)
    }
}
