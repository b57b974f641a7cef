// A database of one thread in this process, whose commits can't be misread. Called by applications.
ghost use Rattle.std.specs.Prelude.{◌≡◌, [], true, false, IfErr, IfOk, OnOk, IsNone};
ghost use Rattle.cluster_core.specs.declared.answers.Reported.TheVariants.{Committed};
ghost use Rattle.cluster_core.specs.Cluster.{HasPulled, IsReadable, with_pipeline};
ghost use Rattle.cluster_core.specs.Configuration.{config_refusal, first_cluster};
ghost use Rattle.cluster_core.specs.Roles.{submit};
ghost use Rattle.commits.specs.Holds.{verdict};
ghost use Rattle.record_layer.specs.Databases.{IsFinished, IsCommittedAt, IsNotCommitted};
ghost use Rattle.record_layer.specs.Databases.{IsNotSettledAs, IsSettledAs, IsTaken};

use crate::finishing::finish;
use cluster_core::{Cluster, Config, ConfigError, Reported, SubmitError};
use kv_core::KeyRange;
use std::alloc::Global;
use std::fmt;
use std::marker::Model;
use txn::Transaction;

/// Why what a transaction wrote isn't committed, or isn't known to be.
///
/// It can't be dropped, so that no caller passes over a conflict: match it, hand it on by `?`, or
/// let it go by `forget`.
#[derive(Debug)]
pub enum NotCommitted {
    /// The version `seen` is the newest that wrote in `range`, which the transaction read. The same
    /// may be committed by a new transaction.
    Conflict { seen: u64, range: KeyRange },
    /// The transaction reads at a version that isn't there yet.
    Later,
    /// It wasn't given a version, and changed nothing.
    Refused(SubmitError),
    /// Memory ran out before it was known what became of it, which `settle` tells.
    Unknown,
    /// What became of an earlier transaction isn't known, so that this one wasn't submitted.
    Unsettled,
}

impl NotCommitted {
    /// Lets the answer go.
    pub fn forget(self) {
        match self {
            NotCommitted::Conflict { seen: _, range } => drop(range),
            NotCommitted::Refused(error) => drop(error),
            NotCommitted::Later | NotCommitted::Unknown | NotCommitted::Unsettled => {}
        }
    }
}

impl fmt::Display for NotCommitted {
    fn fmt<W: fmt::Write>(&self, f: &mut fmt::Formatter<W>) -> fmt::Result {
        match self {
            NotCommitted::Conflict { seen, range: _ } => {
                write!(f, "version {seen} wrote what the transaction read")
            }
            NotCommitted::Later => {
                f.write_str("the transaction reads at a version that isn't there yet")
            }
            NotCommitted::Refused(error) => write!(f, "{error}"),
            NotCommitted::Unknown => {
                f.write_str("out of memory before the transaction was known to be committed")
            }
            NotCommitted::Unsettled => {
                f.write_str("what became of an earlier transaction isn't known")
            }
        }
    }
}

/// A database in this process, for one thread at a time. Transactions read its `cluster`.
pub struct Database {
    cluster: Cluster,
    is_settled: bool,
}

// Written out, so that no proof of a caller has to take the cluster apart where one is dropped.
impl Drop for Database {
    fn drop(self) {
        let Database {
            cluster,
            is_settled: _,
        } = self;
        drop(cluster);
    }
}

impl Model for Database {
    ghost use Rattle.std.specs.Coded.{codes};
    ghost use Rattle.kv_core.specs.contracts.change.CommitRequest as requests;
    ghost use Rattle.cluster_core.specs.TierCode.{map_code};
    ghost use Rattle.record_layer.specs.Databases.{DatabaseView, IsDatabase};

    ghost Value = { DatabaseView };

    ghost coded = { Prim.hlevel (codes, map_code, requests.the_row.coded) };

    ghost view = { λ d. record { cluster = d.cluster; is_settled = d.is_settled } };

    ghost invariant = { λ d. IsDatabase d.cluster d.is_settled };
}

impl Database {
    /// An empty database. Refused as `Cluster::new` is.
    pub fn new(alloc: Global, config: &Config) -> Result<Database, ConfigError>
        ensures made { IfOk result (λ made.
            made ≡ record { cluster = first_cluster config.now; is_settled = true }) }
        ensures allowed { OnOk result (IsNone (config_refusal config.now)) }
    {
        let cluster = Cluster::new(alloc, config)?;
        Ok(Database {
            cluster,
            is_settled: true,
        })
    }

    /// What transactions read. Each server has all that is reported.
    pub fn cluster(&self) -> &Cluster
        ensures value { result.now ≡ self.now.cluster }
        ensures readable { IsReadable self.now.cluster }
    {
        &self.cluster
    }

    /// A transaction at the newest version.
    pub fn begin(&self, alloc: Global) -> Transaction
        ensures { result ≡ record {
          read_version = self.now.cluster.pipeline.reported;
          reads = [];
          mutations = [];
        } }
    {
        Transaction::begin(alloc, self.cluster.read_version())
    }

    /// Has a transaction committed, and answers the version. That another one came between is an
    /// error here (`Conflict`).
    ///
    /// After `Unknown` the transaction stands submitted, and `settle` tells what becomes of it.
    pub fn commit(&mut self, tx: Transaction) -> Result<u64, NotCommitted>
        ensures committed { IfOk result (λ version.
            verdict tx self.new.cluster.pipeline ≡ Committed version) }
        ensures told { IfOk result (λ version. IsCommittedAt version self.new) }
        ensures handled { OnOk result (IsFinished (submit tx self.old.cluster.pipeline) self.new) }
        ensures allowed { OnOk result (IsTaken tx self.old) }
        ensures refused { IfErr result (λ error. IsNotCommitted error tx self.old self.new) }
        ensures pulled { HasPulled
            (with_pipeline self.new.cluster.pipeline self.old.cluster) self.new.cluster }
    {
        if !self.is_settled {
            return Err(NotCommitted::Unsettled);
        }
        let request = tx.into_request();
        if request.read_version > self.cluster.read_version() {
            return Err(NotCommitted::Later);
        }
        if let Err(error) = self.cluster.submit(request) {
            return Err(NotCommitted::Refused(error));
        }
        self.is_settled = false;
        self.finish()
    }

    /// Goes on with a transaction of which `commit` answered `Unknown`, and tells what becomes of
    /// it: it is committed at this version, or it is refused (`Conflict`), or memory runs out again
    /// (`Unknown`), so that it can be settled later. None where no transaction is left so.
    pub fn settle(&mut self) -> Result<Option<u64>, NotCommitted>
        ensures settled { IfOk result (λ version. IsSettledAs version self.old self.new) }
        ensures refused { IfErr result (λ error. IsNotSettledAs error self.old self.new) }
        ensures pulled { HasPulled
            (with_pipeline self.new.cluster.pipeline self.old.cluster) self.new.cluster }
    {
        if self.is_settled {
            return Ok(None);
        }
        let version = self.finish()?;
        Ok(Some(version))
    }

    /// Has what stands submitted handled, and tells what becomes of it.
    fn finish(&mut self) -> Result<u64, NotCommitted>
        requires { self.old.is_settled ≡ false }
        ensures settled { OnOk result (IsFinished self.old.cluster.pipeline self.new) }
        ensures committed { IfOk result (λ version. IsCommittedAt version self.new) }
        ensures refused { IfErr result (λ error. IsNotSettledAs error self.old self.new) }
        ensures pulled { HasPulled
            (with_pipeline self.new.cluster.pipeline self.old.cluster) self.new.cluster }
    {
        let Ok(reported) = finish(&mut self.cluster) else {
            return Err(NotCommitted::Unknown);
        };
        self.is_settled = true;
        match reported {
            Reported::Committed(version) => Ok(version),
            Reported::Conflict { seen, range } => Err(NotCommitted::Conflict { seen, range }),
            Reported::NothingToDo => Err(NotCommitted::Unknown),
        }
    }
}
