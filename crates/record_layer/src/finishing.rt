// What the roles of a cluster still have to do for a version that isn't reported: they resolve,
// append and pull it, and then it is reported, so that it can be read at. Called by `database`.
ghost use Rattle.std.specs.Prelude.{◌≡◌, IfOk, OnOk, OnErr};
ghost use Rattle.cluster_core.specs.Cluster.{HasPulled, IsReadable, with_pipeline};
ghost use Rattle.cluster_core.specs.Roles.{all_handled, forget, outcome, submitted};
ghost use Rattle.commits.specs.Finishing.{HasGoneOn, IsUnfinished};
ghost use Rattle.record_layer.specs.Databases.{HaveAll};

use cluster_core::{Cluster, Reported};
use std::alloc::AllocError;

/// Has each resolver answer that hasn't. Where memory runs out, some more of them have.
fn resolve_rest(cluster: &mut Cluster) -> Result<(), AllocError>
    requires { IsUnfinished cluster.old.pipeline }
    ensures on { HasGoneOn cluster.old.pipeline cluster.new.pipeline }
    ensures servers { cluster.new ≡ with_pipeline cluster.new.pipeline cluster.old }
    ensures all { OnOk result (HaveAll cluster.new.pipeline cluster.new.pipeline.resolved) }
{
    for r in 0..cluster.resolvers() {
        prove!(cluster.read_version() <= u64::MAX);
        cluster.resolve(r)?;
    }
    Ok(())
}

/// Has each log append that hasn't. Where memory runs out, some more of them have.
fn append_rest(cluster: &mut Cluster) -> Result<(), AllocError>
    requires unfinished { IsUnfinished cluster.old.pipeline }
    requires resolved { HaveAll cluster.old.pipeline cluster.old.pipeline.resolved }
    ensures on { HasGoneOn cluster.old.pipeline cluster.new.pipeline }
    ensures servers { cluster.new ≡ with_pipeline cluster.new.pipeline cluster.old }
    ensures resolved { cluster.new.pipeline.resolved ≡ cluster.old.pipeline.resolved }
    ensures all { OnOk result (HaveAll cluster.new.pipeline cluster.new.pipeline.logged) }
{
    for l in 0..cluster.logs() {
        prove!(cluster.read_version() <= u64::MAX);
        cluster.append_log(l)?;
    }
    Ok(())
}

/// Has each role handle the last version that was given, which isn't reported yet, each server pull
/// it, and tells then what is reported of it; of requests that are older than the window no bytes
/// are kept then. Where memory runs out, some more roles have, and it can be finished later.
pub(crate) fn finish(cluster: &mut Cluster) -> Result<Reported, AllocError>
    requires { IsUnfinished cluster.old.pipeline }
    ensures handled { OnOk result
        (cluster.new.pipeline ≡ forget (all_handled cluster.old.pipeline)) }
    ensures told { IfOk result (λ reported.
        reported ≡ outcome cluster.new.pipeline (submitted cluster.new.pipeline)) }
    ensures readable { OnOk result (IsReadable cluster.new) }
    ensures pulled { HasPulled (with_pipeline cluster.new.pipeline cluster.old) cluster.new }
    ensures stays { OnErr result (HasGoneOn cluster.old.pipeline cluster.new.pipeline) }
{
    resolve_rest(cluster)?;
    append_rest(cluster)?;
    cluster.pull_all()?;
    prove!(cluster.read_version() <= u64::MAX);
    let reported = cluster.report();
    cluster.forget();
    Ok(reported)
}
