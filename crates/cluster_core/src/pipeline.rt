// The commit pipeline of optimistic concurrency control. Used by `cluster`, by `txn`, which commits
// to it, and by `runtime`, which keeps it behind a lock.
ghost use Rattle.std.specs.Prelude.{◌≡◌, ◌⊎◌, ◌*◌, ℕ, [], slice_index, ◌+◌, ◌-◌, ◌<◌, ◌≤◌, Some, None};
ghost use Rattle.std.specs.Prelude.{IsNone, IfOk, IfErr, OnOk, OnErr, if◌then◌else◌, length, map};
ghost use Rattle.std.specs.Prelude.{replicate, slice_get, true, nat_lt, ◌^◌, IsSome, IfSome, is_some};
ghost use Rattle.kv_core.specs.Map.{Map};
ghost use Rattle.cluster_core.specs.History.{IsLegalOver};
ghost use Rattle.cluster_core.specs.Decision.{log, owners};
ghost use Rattle.cluster_core.specs.Configuration.{config_refusal, first_pipeline};
ghost use Rattle.cluster_core.specs.Cluster.{Did};
ghost use Rattle.cluster_core.specs.Roles.{AreInOrder, HasSameRoles, PipelineState, entries, history};
ghost use Rattle.cluster_core.specs.Roles.{submitted, submit_refusal};
ghost use Rattle.cluster_core.specs.Roles.{submit as with_submitted, may_resolve, resolve as with_resolved, may_append};
ghost use Rattle.cluster_core.specs.Roles.{append as with_appended, may_report, report as with_reported, outcome};
ghost use Rattle.cluster_core.specs.Roles.{done_with, forget as with_forgotten, kept};
ghost use Rattle.cluster_core.specs.Progress.{fresh, pipeline_state};

use crate::answers::{Config, ConfigError, Reported, Splits, SubmitError, Work};
use crate::config::refusal_of;
use crate::log::{Log, all_logged, empty_logs, forget_each};
use crate::part::parts_between;
use crate::requests::Requests;
use crate::resolver::{Resolver, all_agree, all_answered, resolvers_of, take_cause};
use kv_core::{CommitRequest, Mutation};
use std::alloc::{AllocError, Global};
use std::collections::VecDeque;
use std::marker::Model;

/// The version that was given to a request.
#[derive(Clone, Copy, Debug, PartialEq, Eq)]
pub struct Ticket {
    version: u64,
}

impl Model for Ticket {
    ghost use Rattle.std.specs.Prelude.{ℕ};

    ghost Value = { ℕ };

    ghost view = { λ a. a.version };

    ghost inverse = { λ n. record { version = n } };
}

impl Ticket {
    /// The version.
    pub fn version(self) -> u64
        ensures { result ≡ self }
    {
        self.version
    }
}

/// The sequencer, the resolvers and the logs.
///
/// Each version passes them in turn: the sequencer gives it to a request, each resolver answers
/// for it, each log appends it, and then it is reported. All requests are kept, until `forget` drops
/// those of which no role asks again.
#[derive(Debug)]
pub struct Pipeline {
    window: u64,
    start: u64,
    splits: Splits,
    requests: Requests,
    resolvers: Vec<Resolver>,
    logs: Vec<Log>,
    reported: usize,
}

// Written out, so that no proof of a caller has to take its parts apart where one is dropped.
impl Drop for Pipeline {
    fn drop(self) {
        let Pipeline {
            window: _,
            start: _,
            splits,
            requests,
            resolvers,
            logs,
            reported: _,
        } = self;
        drop(splits);
        drop(requests);
        drop(resolvers);
        drop(logs);
    }
}

impl Model for Pipeline {
    ghost use Rattle.cluster_core.specs.Roles.{PipelineState};
    ghost use Rattle.cluster_core.specs.Progress.{IsPipeline, pipeline_state};

    ghost Value = { PipelineState };

    ghost view = { λ a.
        pipeline_state a.splits a.window a.start a.requests a.resolvers.items a.logs.items a.reported };

    ghost invariant = { λ a.
        IsPipeline a.splits a.window a.start a.requests a.resolvers.items a.logs.items a.reported };
}

impl Pipeline {
    /// The pipeline at the start, without requests.
    ///
    /// It is refused with `BadCount` where a number of roles or the window is out of its bounds,
    /// else with `BadSplits` where the splits of the resolvers or those of the servers can't be
    /// splits, and else with `Memory` where memory runs out.
    pub fn new(alloc: Global, config: &Config) -> Result<Pipeline, ConfigError>
        ensures made { IfOk result (λ pipeline. pipeline ≡ first_pipeline config.now) }
        ensures allowed { OnOk result (IsNone (config_refusal config.now)) }
        ensures refused { IfErr result (λ error.
            (error ≡ ConfigError.Memory) ⊎ (config_refusal config.now ≡ Some error)) }
    {
        if let Some(error) = refusal_of(config) {
            return Err(error);
        }
        let splits = config.resolver_splits.copy()?;
        let pipeline = Pipeline::with_roles(
            alloc,
            config.window,
            config.start,
            splits,
            config.logs,
        )?;
        Ok(pipeline)
    }

    /// The pipeline without requests that has a resolver for each part between the splits, and so
    /// many logs.
    fn with_roles(
        alloc: Global,
        window: u64,
        start: u64,
        splits: Splits,
        logs: u64,
    ) -> Result<Pipeline, AllocError>
        requires { 1 ≤ logs }
        ensures { IfOk result (λ pipeline.
            pipeline ≡ pipeline_state splits window start (record { all = []; forgotten = 0 })
            (map fresh (owners splits)) (replicate logs []) 0) }
    {
        let parts = parts_between(alloc, splits.as_slice())?;
        let resolvers = resolvers_of(alloc, parts)?;
        let logs = empty_logs(alloc, logs)?;
        Ok(Pipeline {
            window,
            start,
            splits,
            requests: Requests::new(alloc),
            resolvers,
            logs,
            reported: 0,
        })
    }

    /// The last reported version. The clocks of the roles stand in order, from it up to the last
    /// version that was given.
    pub fn read_version(&self) -> u64
        ensures value { result ≡ self.now.reported }
        ensures clocks { AreInOrder self.now }
    {
        self.start + self.reported as u64
    }

    /// The requests that were submitted and are kept, in version order: all of them but those that
    /// were forgotten. Those of all that are committed make a legal history: each would have read
    /// the same just before its own version.
    pub fn requests(&self) -> &VecDeque<CommitRequest>
        ensures value { result.now.items ≡ kept self.now }
        ensures needed { self.now.forgotten ≤ done_with self.now }
        ensures legal { (base : Map) → IsLegalOver base (history self.now) }
    {
        self.requests.kept()
    }

    /// The number of resolvers.
    pub fn resolvers(&self) -> usize
        ensures { result ≡ length self.now.resolved }
    {
        self.resolvers.len()
    }

    /// Of how many versions, the last ones for which it has answered, a resolver keeps what was
    /// written: those of two windows at most, or of one version where the window is 0.
    pub fn depth(&self, r: usize) -> usize
        requires { r < length self.now.resolved }
        ensures { result ≤ 2 * self.now.window + (1 - self.now.window) }
    {
        self.resolvers[r].depth()
    }

    /// The number of logs.
    pub fn logs(&self) -> usize
        ensures { result ≡ length self.now.logged }
    {
        self.logs.len()
    }

    /// The last version that was given.
    fn submitted(&self) -> u64
        ensures value { result ≡ submitted self.now }
        ensures reported { self.now.reported ≤ result }
    {
        self.start + self.requests.len() as u64
    }

    /// Gives the request the next version. It read at a version that is reported: at most the
    /// `read_version` of now, which never goes down.
    ///
    /// It is refused with `VersionsExhausted` where there is no version left, else with `TooOld`
    /// where it read longer ago than the window allows, and else with `Memory` where memory runs
    /// out. A refusal leaves the pipeline as it was.
    pub fn submit(&mut self, request: CommitRequest) -> Result<Ticket, SubmitError>
        requires { request.read_version ≤ self.old.reported }
        ensures given { IfOk result (λ ticket.
            (self.new ≡ with_submitted request self.old) × (ticket ≡ submitted self.new)) }
        ensures allowed { OnOk result (IsNone (submit_refusal self.old request.read_version)) }
        ensures unchanged { OnErr result (self.new ≡ self.old) }
        ensures refused { IfErr result (λ error.
            (error ≡ SubmitError.Memory) ⊎ (submit_refusal self.old request.read_version ≡ Some error)) }
        ensures roles { HasSameRoles self.old self.new }
    {
        let last = self.submitted();
        if last == u64::MAX {
            return Err(SubmitError::VersionsExhausted);
        }
        if last - request.read_version > self.window {
            return Err(SubmitError::TooOld);
        }
        self.requests.push(request)?;
        Ok(Ticket { version: last + 1 })
    }

    /// Has a resolver answer for its next version, if it is submitted. Where memory runs out the
    /// pipeline stays as it was.
    pub fn resolve(&mut self, r: usize) -> Result<Work, AllocError>
        requires { r < length self.old.resolved }
        ensures step { IfOk result (λ work.
            Did work (may_resolve self.old r) self.old self.new (with_resolved r self.old)) }
        ensures unchanged { OnErr result (self.new ≡ self.old) }
        ensures roles { HasSameRoles self.old self.new }
    {
        if self.resolvers[r].answered() == self.requests.len() {
            return Ok(Work::NothingToDo);
        }
        self.resolvers[r].answer_next(self.start, self.window, &self.requests)?;
        Ok(Work::Done)
    }

    /// Has a log append its next version, if every resolver has answered for it. Where memory runs
    /// out the pipeline stays as it was.
    pub fn append_log(&mut self, l: usize) -> Result<Work, AllocError>
        requires { l < length self.old.logged }
        ensures step { IfOk result (λ work.
            Did work (may_append self.old l) self.old self.new (with_appended l self.old)) }
        ensures unchanged { OnErr result (self.new ≡ self.old) }
        ensures roles { HasSameRoles self.old self.new }
    {
        let place = self.logs[l].len();
        if !all_answered(self.resolvers.as_slice(), place) {
            return Ok(Work::NothingToDo);
        }
        let passes = all_agree(self.resolvers.as_slice(), place);
        self.logs[l].push(passes)?;
        Ok(Work::Done)
    }

    /// Whether the next version may be reported: every log has it.
    fn may_report(&self) -> bool
        ensures { result ≡ may_report self.now }
    {
        all_logged(self.logs.as_slice(), self.reported)
    }

    /// Reports the next version.
    fn report_next(&mut self) -> Reported
        requires { may_report self.old ≡ true }
        ensures told { result ≡ outcome self.old (self.old.reported + 1) }
        ensures step { self.new ≡ with_reported self.old }
    {
        let place = self.reported;
        let version = self.start + place as u64 + 1;
        let cause = take_cause(self.resolvers.as_mut_slice());
        self.reported = place + 1;
        match cause {
            Some(cause) => Reported::Conflict {
                seen: cause.seen,
                range: cause.range,
            },
            None => Reported::Committed(version),
        }
    }

    /// Reports the next version, if every log has it: that its request is committed, or the newest
    /// version that wrote what the request read. This takes no memory.
    pub fn report(&mut self) -> Reported
        ensures told { result ≡ (if may_report self.old then outcome self.old (self.old.reported + 1)
            else Reported.NothingToDo) }
        ensures step { self.new ≡ (if may_report self.old then with_reported self.old else self.old) }
        ensures roles { HasSameRoles self.old self.new }
    {
        if self.may_report() {
            self.report_next()
        } else {
            Reported::NothingToDo
        }
    }

    /// Reports the next version to nobody: the step of `report`, whose answer is lost.
    pub fn report_lost(&mut self) -> Work
        ensures step { Did result (may_report self.old) self.old self.new (with_reported self.old) }
        ensures roles { HasSameRoles self.old self.new }
    {
        if !self.may_report() {
            return Work::NothingToDo;
        }
        self.report_next();
        Work::Done
    }

    /// Keeps no bytes of the requests before a place.
    pub(crate) fn forget_before(&mut self, place: usize)
        requires from { self.old.forgotten ≤ place }
        requires upto { place ≤ done_with self.old }
        ensures { self.new ≡ record self.old { forgotten = place } }
    {
        self.requests.forget(place);
        forget_each(self.logs.as_mut_slice(), place);
    }

    /// The version at which the clocks began.
    pub(crate) fn start(&self) -> u64
        ensures { result ≡ self.now.start }
    {
        self.start
    }

    /// How many requests, the first ones, no role asks for again.
    pub(crate) fn done_with(&self) -> usize
        ensures value { result ≡ done_with self.now }
        ensures forgotten { self.now.forgotten ≤ result }
    {
        self.reported.saturating_sub(self.window as usize)
    }

    /// Keeps no bytes of the requests of which no role asks again: those that are reported, and older
    /// than the window. What is kept then is no more than the window and what isn't reported.
    pub fn forget(&mut self)
        ensures step { self.new ≡ with_forgotten self.old }
        ensures bound { length (kept self.new) ≤ self.new.window + (submitted self.new - self.new.reported) }
        ensures roles { HasSameRoles self.old self.new }
    {
        self.forget_before(self.done_with());
    }

    /// What a log has of the request at a place: its mutations where it is committed, and else
    /// nothing.
    pub(crate) fn logged(&self, l: usize, place: usize) -> &[Mutation]
        requires log { l < length self.now.logged }
        requires kept { self.now.forgotten ≤ place }
        requires place { self.now.start + place < slice_index self.now.logged l }
        ensures { slice_get (log self.now.splits (entries self.now)) place ≡ Some result.now }
    {
        if self.logs[l].passes(place) {
            self.requests.at(place).mutations.as_slice()
        } else {
            &[]
        }
    }

    /// What a log has of the version after this one, or None where it doesn't have it yet.
    pub(crate) fn logged_after(&self, l: usize, version: u64) -> Option<&[Mutation]>
        requires log { l < length self.now.logged }
        requires kept { self.now.start + self.now.forgotten ≤ version }
        ensures some { IfSome result (λ mutations.
            slice_get (log self.now.splits (entries self.now)) (version - self.now.start) ≡ Some mutations.now) }
        ensures given { IsSome result → version < submitted self.now }
        ensures next { IsSome result → version + 1 < 2 ^ 64 }
        ensures may { is_some result ≡ nat_lt version (slice_index self.now.logged l) }
    {
        let place = (version - self.start) as usize;
        if place < self.logs[l].len() {
            Some(self.logged(l, place))
        } else {
            None
        }
    }
}
