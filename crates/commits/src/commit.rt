// Commits one at a time. Called on a cluster, as by tests, and by `runtime` on a pipeline alone.
ghost use Rattle.std.specs.Prelude.{◌≡◌, ◌≤◌, IfOk, IfErr, IsNone, OnOk};
ghost use Rattle.cluster_core.specs.Cluster.{ClusterState, HasPulled, IsReadable, with_pipeline};
ghost use Rattle.cluster_core.specs.Roles.{all_handled, is_caught_up};
ghost use Rattle.cluster_core.specs.Roles.{outcome, submit, submit_refusal, submitted};
ghost use Rattle.commits.specs.Holds.{HeldError, verdict};

use crate::roles::handle;
use cluster_core::{Cluster, Pipeline, Reported, SubmitError};
use kv_core::CommitRequest;
use std::alloc::AllocError;
use thiserror::Error;

/// Why a commit has no answer, or not all of it.
#[derive(Debug, Drop, Error)]
pub enum HoldError {
    /// The request wasn't given a version.
    #[error("{0}")]
    Submit(SubmitError),
    /// The request has a version, and memory ran out before it was reported.
    #[error("out of memory before the request was reported")]
    Unknown,
    /// The request is reported so, and memory ran out before every server had pulled it.
    #[error("out of memory before the servers had pulled the request")]
    Behind(Reported),
}

impl From<SubmitError> for HoldError {
    ghost use Rattle.commits.specs.declared.commit.HoldError.TheVariants.{Submit};

    ghost from_gives = { λ error made. made ≡ Submit error };

    fn from(error: SubmitError) -> HoldError {
        HoldError::Submit(error)
    }
}

/// Something that commits one request at a time, from its submission to its report.
pub trait Commit {
    /// The requests, how far each role has come, and what each server has, if there are any.
    ghost state: { Self → ClusterState };

    /// Has the request handled by every role, and tells what is reported of it: that it is
    /// committed at the next version, or the newest version that wrote what it read. Servers have
    /// it then, so that it can be read.
    ///
    /// It is refused with `Submit` where it isn't given a version, which leaves all as it was, and
    /// with `Unknown` where memory ran out after that: the request stands submitted and some roles
    /// have handled it, so that it may still be committed; no server has moved. Where memory ran
    /// out behind the report, `Behind` has what was reported: some server lacks it still. Without
    /// servers there is no such answer.
    fn commit(&mut self, request: CommitRequest) -> Result<Reported, HoldError>
        requires caught_up { is_caught_up (state self.old).pipeline }
        requires reads_reported { request.read_version ≤ (state self.old).pipeline.reported }
        ensures handled { OnOk result
            ((state self.new).pipeline ≡ all_handled (submit request (state self.old).pipeline)) }
        ensures told { IfOk result (λ reported.
            reported ≡ outcome (state self.new).pipeline (submitted (state self.new).pipeline)) }
        ensures decided { IfOk result (λ reported. reported ≡ verdict request (state self.new).pipeline) }
        ensures later { (state self.old).pipeline.reported ≤ (state self.new).pipeline.reported }
        ensures ready { OnOk result (is_caught_up (state self.new).pipeline) }
        ensures readable { OnOk result (IsReadable (state self.new)) }
        ensures pulled { HasPulled (with_pipeline (state self.new).pipeline (state self.old)) (state self.new) }
        ensures allowed { OnOk result (IsNone (submit_refusal (state self.old).pipeline request.read_version)) }
        ensures refused { IfErr result (λ error. HeldError error request (state self.old) (state self.new)) };
}

/// The database without its servers.
impl Commit for Pipeline {
    ghost use Rattle.cluster_core.specs.Cluster.{without_servers};

    ghost state = { without_servers };

    fn commit(&mut self, request: CommitRequest) -> Result<Reported, HoldError> {
        handle(self, request)
    }
}

/// The database with its servers, which pull what is committed.
impl Commit for Cluster {
    ghost state = { λ cluster. cluster };

    fn commit(&mut self, request: CommitRequest) -> Result<Reported, HoldError> {
        let reported = handle(self, request)?;
        match self.pull_all() {
            Ok(()) => Ok(reported),
            Err(AllocError) => Err(HoldError::Behind(reported)),
        }
    }
}
