// The steps by which the roles handle a request, for a pipeline and for a cluster. Called by
// `commit`.
ghost use Rattle.std.specs.Prelude.{◌≡◌, ◌⊎◌, ℕ, ◌+◌, ◌<◌, ◌≤◌, All, Some, if◌then◌else◌};
ghost use Rattle.std.specs.Prelude.{IfOk, IfErr, IsNone, OnOk, OnErr, length};
ghost use Rattle.cluster_core.specs.Cluster.{ClusterState, Did, with_pipeline};
ghost use Rattle.cluster_core.specs.Roles.{AreInOrder, all_handled, append as with_appended};
ghost use Rattle.cluster_core.specs.Roles.{is_caught_up, may_append, may_report, may_resolve, outcome};
ghost use Rattle.cluster_core.specs.Roles.{report as with_reported, resolve as with_resolved};
ghost use Rattle.cluster_core.specs.Roles.{submit, submit_refusal, submitted};
ghost use Rattle.commits.specs.Holds.{HeldError, verdict, with_handled};

use crate::commit::HoldError;
use cluster_core::{Cluster, Pipeline, Reported, SubmitError, Ticket, Work};
use kv_core::CommitRequest;
use std::alloc::AllocError;

/// The roles that handle a request, each with its next step, which leaves the servers as they are.
pub(crate) trait Roles {
    /// The requests, how far each role has come, and what each server has, if there are any.
    ghost state: { Self → ClusterState };

    /// The last reported version.
    fn reported(&self) -> u64
        ensures value { result ≡ (state self.now).pipeline.reported }
        ensures clocks { AreInOrder (state self.now).pipeline };

    /// The number of resolvers.
    fn resolvers(&self) -> usize
        ensures { result ≡ length (state self.now).pipeline.resolved };

    /// The number of logs.
    fn logs(&self) -> usize
        ensures { result ≡ length (state self.now).pipeline.logged };

    /// Gives the request the next version.
    fn submit(&mut self, request: CommitRequest) -> Result<Ticket, SubmitError>
        requires { request.read_version ≤ (state self.old).pipeline.reported }
        ensures given { OnOk result (state self.new
            ≡ with_pipeline (submit request (state self.old).pipeline) (state self.old)) }
        ensures allowed { OnOk result (IsNone (submit_refusal (state self.old).pipeline request.read_version)) }
        ensures unchanged { OnErr result (state self.new ≡ state self.old) }
        ensures refused { IfErr result (λ error. (error ≡ SubmitError.Memory)
            ⊎ (submit_refusal (state self.old).pipeline request.read_version ≡ Some error)) };

    /// Has a resolver answer for its next version.
    fn resolve(&mut self, r: usize) -> Result<Work, AllocError>
        requires { r < length (state self.old).pipeline.resolved }
        ensures step { IfOk result (λ work. Did work (may_resolve (state self.old).pipeline r)
            (state self.old) (state self.new)
            (with_pipeline (with_resolved r (state self.old).pipeline) (state self.old))) }
        ensures unchanged { OnErr result (state self.new ≡ state self.old) };

    /// Has a log append its next version.
    fn append_log(&mut self, l: usize) -> Result<Work, AllocError>
        requires { l < length (state self.old).pipeline.logged }
        ensures step { IfOk result (λ work. Did work (may_append (state self.old).pipeline l)
            (state self.old) (state self.new)
            (with_pipeline (with_appended l (state self.old).pipeline) (state self.old))) }
        ensures unchanged { OnErr result (state self.new ≡ state self.old) };

    /// Reports the next version.
    fn report(&mut self) -> Reported
        ensures told { result ≡ (if may_report (state self.old).pipeline
            then outcome (state self.old).pipeline ((state self.old).pipeline.reported + 1)
            else Reported.NothingToDo) }
        ensures step { state self.new ≡ (if may_report (state self.old).pipeline
            then with_pipeline (with_reported (state self.old).pipeline) (state self.old)
            else state self.old) };
}

impl Roles for Pipeline {
    ghost use Rattle.cluster_core.specs.Cluster.{without_servers};

    ghost state = { without_servers };

    fn reported(&self) -> u64 {
        self.read_version()
    }

    fn resolvers(&self) -> usize {
        Pipeline::resolvers(self)
    }

    fn logs(&self) -> usize {
        Pipeline::logs(self)
    }

    fn submit(&mut self, request: CommitRequest) -> Result<Ticket, SubmitError> {
        Pipeline::submit(self, request)
    }

    fn resolve(&mut self, r: usize) -> Result<Work, AllocError> {
        Pipeline::resolve(self, r)
    }

    fn append_log(&mut self, l: usize) -> Result<Work, AllocError> {
        Pipeline::append_log(self, l)
    }

    fn report(&mut self) -> Reported {
        Pipeline::report(self)
    }
}

impl Roles for Cluster {
    ghost state = { λ roles. roles };

    fn reported(&self) -> u64 {
        self.read_version()
    }

    fn resolvers(&self) -> usize {
        Cluster::resolvers(self)
    }

    fn logs(&self) -> usize {
        Cluster::logs(self)
    }

    fn submit(&mut self, request: CommitRequest) -> Result<Ticket, SubmitError> {
        Cluster::submit(self, request)
    }

    fn resolve(&mut self, r: usize) -> Result<Work, AllocError> {
        Cluster::resolve(self, r)
    }

    fn append_log(&mut self, l: usize) -> Result<Work, AllocError> {
        Cluster::append_log(self, l)
    }

    fn report(&mut self) -> Reported {
        Cluster::report(self)
    }
}

/// Has every resolver answer for its next version, or where memory runs out only some of the first
/// ones.
fn resolve_each<R: Roles>(roles: &mut R) -> Result<(), AllocError>
    requires { All (λ clock. clock < submitted (R.state roles.old).pipeline) (R.state roles.old).pipeline.resolved }
    ensures ok { OnOk result (R.state roles.new
        ≡ with_handled (length (R.state roles.old).pipeline.resolved) 0 (R.state roles.old)) }
    ensures err { OnErr result ((count : ℕ) × (count < length (R.state roles.old).pipeline.resolved)
        × (R.state roles.new ≡ with_handled count 0 (R.state roles.old))) }
{
    for r in 0..roles.resolvers() {
        roles.resolve(r)?;
    }
    Ok(())
}

/// Has every log append its next version, or where memory runs out only some of the first ones.
fn append_each<R: Roles>(roles: &mut R) -> Result<(), AllocError>
    requires { All (λ log. All (λ clock. log < clock) (R.state roles.old).pipeline.resolved)
        (R.state roles.old).pipeline.logged }
    ensures ok { OnOk result (R.state roles.new
        ≡ with_handled 0 (length (R.state roles.old).pipeline.logged) (R.state roles.old)) }
    ensures err { OnErr result ((count : ℕ) × (count < length (R.state roles.old).pipeline.logged)
        × (R.state roles.new ≡ with_handled 0 count (R.state roles.old))) }
{
    for l in 0..roles.logs() {
        roles.append_log(l)?;
    }
    Ok(())
}

/// Has the request handled by every role, and tells what is reported of it, as `Commit::commit`
/// does, but leaves the servers as they are.
pub(crate) fn handle<R: Roles>(roles: &mut R, request: CommitRequest) -> Result<Reported, HoldError>
    requires caught_up { is_caught_up (R.state roles.old).pipeline }
    requires reads_reported { request.read_version ≤ (R.state roles.old).pipeline.reported }
    ensures handled { OnOk result
        ((R.state roles.new).pipeline ≡ all_handled (submit request (R.state roles.old).pipeline)) }
    ensures told { IfOk result (λ reported.
        reported ≡ outcome (R.state roles.new).pipeline (submitted (R.state roles.new).pipeline)) }
    ensures decided { IfOk result (λ reported. reported ≡ verdict request (R.state roles.new).pipeline) }
    ensures allowed { OnOk result (IsNone (submit_refusal (R.state roles.old).pipeline request.read_version)) }
    ensures later { (R.state roles.old).pipeline.reported ≤ (R.state roles.new).pipeline.reported }
    ensures ready { OnOk result (is_caught_up (R.state roles.new).pipeline) }
    ensures some_log { OnOk result (1 ≤ length (R.state roles.new).pipeline.logged) }
    ensures servers { R.state roles.new ≡ with_pipeline (R.state roles.new).pipeline (R.state roles.old) }
    ensures refused { IfErr result (λ error. HeldError error request (R.state roles.old) (R.state roles.new)) }
{
    prove!(request.read_version <= roles.reported());
    roles.submit(request)?;
    let Ok(()) = resolve_each(roles) else {
        return Err(HoldError::Unknown);
    };
    let Ok(()) = append_each(roles) else {
        return Err(HoldError::Unknown);
    };
    Ok(roles.report())
}
