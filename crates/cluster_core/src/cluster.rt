// The database on one thread. Used by `schedule` and `record_layer`, and by `txn`, which commits to it and
// reads from it.
ghost use Rattle.std.specs.Prelude.{◌≡◌, ◌⊎◌, ◌+◌, ◌<◌, ◌≤◌, Some, IsNone, IsTrue, IfOk};
ghost use Rattle.std.specs.Prelude.{IfErr, OnOk, OnErr, if◌then◌else◌, length};
ghost use Rattle.std.specs.FinMap.{from_entries, get};
ghost use Rattle.kv_core.specs.Range.{point};
ghost use Rattle.kv_core.specs.Read.{read_of};
ghost use Rattle.cluster_core.specs.Cluster.{Did, HasPulled, HasSameServers, HasWholeLog, IsAllPulled};
ghost use Rattle.cluster_core.specs.Cluster.{IsBehind, IsSomeBehind};
ghost use Rattle.cluster_core.specs.Cluster.{database_at, forget as with_forgotten, may_pull, pull as with_pulled};
ghost use Rattle.cluster_core.specs.Cluster.{tier_of, with_pipeline};
ghost use Rattle.cluster_core.specs.Configuration.{config_refusal, first_cluster, first_cluster_over};
ghost use Rattle.cluster_core.specs.History.{IsLegalOver};
ghost use Rattle.cluster_core.specs.Roles.{AreInOrder, append as with_appended, history, may_append, may_report};
ghost use Rattle.cluster_core.specs.Roles.{done_with, kept, may_resolve, outcome, report as with_reported};
ghost use Rattle.cluster_core.specs.Roles.{resolve as with_resolved};
ghost use Rattle.cluster_core.specs.Roles.{submit as with_submitted, submit_refusal, submitted};
ghost use Rattle.cluster_core.specs.Tier.{refusal};

use crate::answers::{Config, ConfigError, Reported, SubmitError, Work};
use crate::base::Base;
use crate::pipeline::{Pipeline, Ticket};
use crate::tier::Tier;
use kv_core::{Bytes, CommitRequest, KeyRange, Pair, ReadError};
use std::alloc::{AllocError, Global};
use std::collections::VecDeque;
use std::marker::Model;

/// The whole cluster: the sequencer, the resolvers and the logs, and the storage servers, which
/// pull from the logs.
#[derive(Debug)]
pub struct Cluster {
    base: Base,
    pipeline: Pipeline,
    tier: Tier,
}

// Written out, so that no proof of a caller has to take its parts apart where one is dropped.
impl Drop for Cluster {
    fn drop(self) {
        let Cluster {
            base,
            pipeline,
            tier,
        } = self;
        drop(base);
        drop(pipeline);
        drop(tier);
    }
}

impl Model for Cluster {
    ghost use Rattle.std.specs.Coded.{codes};
    ghost use Rattle.kv_core.specs.contracts.change.CommitRequest as requests;
    ghost use Rattle.cluster_core.specs.Cluster.{ClusterState};
    ghost use Rattle.cluster_core.specs.TierCode.{map_code};
    ghost use Rattle.cluster_core.specs.Pulled.{IsCluster, cluster_of};

    ghost Value = { ClusterState };

    ghost coded = { Prim.hlevel (codes, map_code, requests.the_row.coded) };

    ghost view = { λ a. cluster_of a.base.map a.pipeline a.tier };

    ghost invariant = { λ a. IsCluster a.base.map a.pipeline a.tier };
}

impl Cluster {
    /// The cluster at the start, without requests.
    ///
    /// It is refused with `BadCount` where a number of roles or the window is out of its bounds,
    /// else with `BadSplits` where the splits of the resolvers or those of the servers can't be
    /// splits, and else with `Memory` where memory runs out.
    pub fn new(alloc: Global, config: &Config) -> Result<Cluster, ConfigError>
        ensures made { IfOk result (λ cluster. cluster ≡ first_cluster config.now) }
        ensures allowed { OnOk result (IsNone (config_refusal config.now)) }
        ensures refused { IfErr result (λ error.
            (error ≡ ConfigError.Memory) ⊎ (config_refusal config.now ≡ Some error)) }
    {
        let pipeline = Pipeline::new(alloc, config)?;
        let tier = Tier::new(alloc, config)?;
        let pairs = Vec::new(alloc);
        let base = Base::of(&pairs);
        Ok(Cluster {
            base,
            pipeline,
            tier,
        })
    }

    /// The cluster over the map of these pairs, without requests: it stands at the first version of
    /// the configuration and at those before it, and is no map of version 0. Where a key is there
    /// more than once, the first of its pairs stands. It is refused as `new` is.
    pub fn over(alloc: Global, config: &Config, pairs: Vec<Pair>) -> Result<Cluster, ConfigError>
        requires { 1 ≤ config.now.start }
        ensures made { IfOk result (λ cluster.
            cluster ≡ first_cluster_over (from_entries pairs.items) config.now) }
        ensures allowed { OnOk result (IsNone (config_refusal config.now)) }
        ensures refused { IfErr result (λ error.
            (error ≡ ConfigError.Memory) ⊎ (config_refusal config.now ≡ Some error)) }
    {
        let pipeline = Pipeline::new(alloc, config)?;
        let base = Base::of(&pairs);
        let tier = Tier::over(alloc, config, pairs)?;
        Ok(Cluster {
            base,
            pipeline,
            tier,
        })
    }

    /// The last reported version. The clocks of the pipeline's roles stand in order, from it up to
    /// the last version that was given.
    pub fn read_version(&self) -> u64
        ensures value { result ≡ self.now.pipeline.reported }
        ensures clocks { AreInOrder self.now.pipeline }
    {
        self.pipeline.read_version()
    }

    /// The requests that were submitted and are kept, in version order: all of them but those that
    /// were forgotten. Those of all that are committed make a legal history: each would have read
    /// the same just before its own version.
    pub fn requests(&self) -> &VecDeque<CommitRequest>
        ensures value { result.now.items ≡ kept self.now.pipeline }
        ensures needed { self.now.pipeline.forgotten ≤ done_with self.now.pipeline }
        ensures legal { IsLegalOver self.now.base (history self.now.pipeline) }
    {
        self.pipeline.requests()
    }

    /// The number of resolvers.
    pub fn resolvers(&self) -> usize
        ensures { result ≡ length self.now.pipeline.resolved }
    {
        self.pipeline.resolvers()
    }

    /// The number of logs.
    pub fn logs(&self) -> usize
        ensures { result ≡ length self.now.pipeline.logged }
    {
        self.pipeline.logs()
    }

    /// The number of storage servers.
    pub fn servers(&self) -> usize
        ensures { result ≡ length self.now.pulled }
    {
        self.tier.servers()
    }

    /// Gives the request the next version, as `Pipeline::submit` does: it read at a version that
    /// is reported, at most the `read_version` of now.
    pub fn submit(&mut self, request: CommitRequest) -> Result<Ticket, SubmitError>
        requires { request.read_version ≤ self.old.pipeline.reported }
        ensures given { IfOk result (λ ticket.
            (self.new ≡ with_pipeline (with_submitted request self.old.pipeline) self.old)
            × (ticket ≡ submitted self.new.pipeline)) }
        ensures allowed { OnOk result (IsNone (submit_refusal self.old.pipeline request.read_version)) }
        ensures unchanged { OnErr result (self.new ≡ self.old) }
        ensures refused { IfErr result (λ error.
            (error ≡ SubmitError.Memory) ⊎ (submit_refusal self.old.pipeline request.read_version ≡ Some error)) }
        ensures roles { HasSameServers self.old self.new }
    {
        let ticket = self.pipeline.submit(request)?;
        Ok(ticket)
    }

    /// Has a resolver answer for its next version, unless memory runs out, which leaves the
    /// cluster as it was.
    pub fn resolve(&mut self, r: usize) -> Result<Work, AllocError>
        requires { r < length self.old.pipeline.resolved }
        ensures step { IfOk result (λ work.
            Did work (may_resolve self.old.pipeline r) self.old self.new
            (with_pipeline (with_resolved r self.old.pipeline) self.old)) }
        ensures unchanged { OnErr result (self.new ≡ self.old) }
        ensures roles { HasSameServers self.old self.new }
    {
        let work = self.pipeline.resolve(r)?;
        Ok(work)
    }

    /// Has a log append its next version, unless memory runs out, which leaves the cluster as it
    /// was.
    pub fn append_log(&mut self, l: usize) -> Result<Work, AllocError>
        requires { l < length self.old.pipeline.logged }
        ensures step { IfOk result (λ work.
            Did work (may_append self.old.pipeline l) self.old self.new
            (with_pipeline (with_appended l self.old.pipeline) self.old)) }
        ensures unchanged { OnErr result (self.new ≡ self.old) }
        ensures roles { HasSameServers self.old self.new }
    {
        let work = self.pipeline.append_log(l)?;
        Ok(work)
    }

    /// Reports the next version, as `Pipeline::report` does, which takes no memory.
    pub fn report(&mut self) -> Reported
        ensures told { result ≡ (if may_report self.old.pipeline
            then outcome self.old.pipeline (self.old.pipeline.reported + 1) else Reported.NothingToDo) }
        ensures step { self.new ≡ (if may_report self.old.pipeline
            then with_pipeline (with_reported self.old.pipeline) self.old else self.old) }
        ensures roles { HasSameServers self.old self.new }
    {
        self.pipeline.report()
    }

    /// Reports the next version to nobody: the same step as `report`, which takes no memory.
    pub fn report_lost(&mut self) -> Work
        ensures step { Did result (may_report self.old.pipeline) self.old self.new
            (with_pipeline (with_reported self.old.pipeline) self.old) }
        ensures roles { HasSameServers self.old self.new }
    {
        self.pipeline.report_lost()
    }

    /// Keeps no bytes of the requests of which neither a role nor a server asks again: those that are
    /// reported, older than the window, and pulled by every server.
    pub fn forget(&mut self)
        ensures step { self.new ≡ with_forgotten self.old }
        ensures roles { HasSameServers self.old self.new }
    {
        let done = self
            .tier
            .pulled_by_all(self.pipeline.start(), self.pipeline.done_with());
        self.pipeline.forget_before(done);
    }

    /// Has a server apply the next version of its log, once the log has it, unless memory runs
    /// out for that, which leaves the cluster as it was.
    pub fn pull(&mut self, s: usize) -> Result<Work, AllocError>
        requires { s < length self.old.pulled }
        ensures step { IfOk result (λ work. Did work (may_pull self.old s) self.old self.new (with_pulled s self.old)) }
        ensures unchanged { OnErr result (self.new ≡ self.old) }
        ensures wanted { OnErr result (IsTrue (may_pull self.old s)) }
        ensures roles { HasSameServers self.old self.new }
    {
        let log = s % self.pipeline.logs();
        let version = self.tier.version(s);
        let Some(mutations) = self.pipeline.logged_after(log, version) else {
            return Ok(Work::NothingToDo);
        };
        self.tier.pull(s, mutations)?;
        Ok(Work::Done)
    }

    /// Has a server apply all that its log has. Where memory runs out it has applied some of it.
    fn pull_log(&mut self, s: usize) -> Result<(), AllocError>
        requires { s < length self.old.pulled }
        ensures pulled { HasPulled self.old self.new }
        ensures whole { OnOk result (HasWholeLog self.new s) }
        ensures behind { OnErr result (IsBehind self.new s) }
    {
        while self.pull(s)? == Work::Done {}
        Ok(())
    }

    /// Has every server apply all that its log has. Where memory runs out some of it is applied,
    /// a server lacks some still, and another call goes on from there.
    pub fn pull_all(&mut self) -> Result<(), AllocError>
        ensures pulled { HasPulled self.old self.new }
        ensures all { OnOk result (IsAllPulled self.new) }
        ensures behind { OnErr result (IsSomeBehind self.new) }
    {
        for s in 0..self.servers() {
            self.pull_log(s)?;
        }
        Ok(())
    }

    /// Whether a read of the range at a version is refused, as `Tier::check` says.
    pub fn check(&self, range: &KeyRange, version: u64) -> Result<(), ReadError>
        ensures allowed { OnOk result (IsNone (refusal (tier_of self.now) range.now version)) }
        ensures refused { IfErr result (λ error. refusal (tier_of self.now) range.now version ≡ Some error) }
    {
        self.tier.check(range, version)
    }

    /// The pairs of the range in the database at a version: the first ones in the order of their
    /// keys, or with `reverse` the last ones with the last one first, as many as there are up to
    /// the limit. It is refused as `Tier::read` is.
    pub fn read(
        &self,
        range: &KeyRange,
        version: u64,
        limit: usize,
        reverse: bool,
    ) -> Result<Vec<Pair>, ReadError>
        ensures pairs { IfOk result (λ pairs.
            pairs.items ≡ read_of (database_at self.now version) range.now limit reverse) }
        ensures allowed { OnOk result (IsNone (refusal (tier_of self.now) range.now version)) }
        ensures refused { IfErr result (λ error.
            (error ≡ ReadError.Memory) ⊎ (refusal (tier_of self.now) range.now version ≡ Some error)) }
    {
        let pairs = self.tier.read(range, version, limit, reverse)?;
        Ok(pairs)
    }

    /// The value of a key in the database at a version, or None where it has none. It is refused as
    /// `Tier::value` is.
    pub fn value(&self, key: &Bytes, version: u64) -> Result<Option<Bytes>, ReadError>
        ensures value { IfOk result (λ value. value ≡ get (database_at self.now version) key.now) }
        ensures allowed { OnOk result (IsNone (refusal (tier_of self.now) (point key.now) version)) }
        ensures refused { IfErr result (λ error.
            (error ≡ ReadError.Memory) ⊎ (refusal (tier_of self.now) (point key.now) version ≡ Some error)) }
    {
        let value = self.tier.value(key, version)?;
        Ok(value)
    }
}
