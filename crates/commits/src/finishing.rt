// What the roles still have to do for a version that isn't reported: for a host that goes on after
// a commit that stopped for want of memory.
ghost use Rattle.std.specs.Prelude.{◌≡◌, ◌≤◌, All, IfOk, OnOk, OnErr};
ghost use Rattle.cluster_core.specs.Roles.{all_handled, outcome, submitted};
ghost use Rattle.commits.specs.Finishing.{HasGoneOn, IsUnfinished};

use cluster_core::{Pipeline, Reported};
use std::alloc::AllocError;

/// Has each resolver answer that hasn't. Where memory runs out, some more of them have.
fn resolve_rest(pipeline: &mut Pipeline) -> Result<(), AllocError>
    requires { IsUnfinished pipeline.old }
    ensures on { HasGoneOn pipeline.old pipeline.new }
    ensures all { OnOk result (
        All (λ clock. submitted pipeline.new ≤ clock) pipeline.new.resolved) }
{
    for r in 0..pipeline.resolvers() {
        prove!(pipeline.read_version() <= u64::MAX);
        pipeline.resolve(r)?;
    }
    Ok(())
}

/// Has each log append that hasn't. Where memory runs out, some more of them have.
fn append_rest(pipeline: &mut Pipeline) -> Result<(), AllocError>
    requires unfinished { IsUnfinished pipeline.old }
    requires resolved { All (λ clock. submitted pipeline.old ≤ clock) pipeline.old.resolved }
    ensures on { HasGoneOn pipeline.old pipeline.new }
    ensures resolved { pipeline.new.resolved ≡ pipeline.old.resolved }
    ensures all { OnOk result (
        All (λ clock. submitted pipeline.new ≤ clock) pipeline.new.logged) }
{
    for l in 0..pipeline.logs() {
        prove!(pipeline.read_version() <= u64::MAX);
        pipeline.append_log(l)?;
    }
    Ok(())
}

/// Has each role handle the last version that was given, which isn't reported yet, and tells what
/// is reported of it. Where memory runs out, some more roles have, and it can be finished later.
pub fn finish(pipeline: &mut Pipeline) -> Result<Reported, AllocError>
    requires { IsUnfinished pipeline.old }
    ensures handled { OnOk result (pipeline.new ≡ all_handled pipeline.old) }
    ensures told { IfOk result (λ reported.
        reported ≡ outcome pipeline.new (submitted pipeline.new)) }
    ensures stays { OnErr result (HasGoneOn pipeline.old pipeline.new) }
{
    resolve_rest(pipeline)?;
    append_rest(pipeline)?;
    prove!(pipeline.read_version() <= u64::MAX);
    Ok(pipeline.report())
}
