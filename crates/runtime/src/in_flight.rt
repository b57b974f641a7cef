// How far the last submission has come on its way from the pipeline to the published log. Used by
// `commit_state`.
ghost use Rattle.std.specs.Prelude.{◌≡◌, List, [], ◌∷◌, ◌++◌, IfSome};
ghost use Rattle.runtime.specs.CommitStates.{IsInFlight, IsRecorded, decided_due, due_of};
ghost use Rattle.cluster_core.specs.Roles.{PipelineState, whole};
ghost use Rattle.commits.specs.Finishing.{IsUnfinished};
ghost use Rattle.runtime.specs.History.{Name, log_prefix, submitted_entry};
ghost use Rattle.runtime.specs.Logs.{IsWellFormedLog};
ghost use Rattle.runtime.specs.declared.log_entry.Entry.{Entry};

use crate::log_entry::Submitted;
use crate::log_prefix::{LogHead, LogPrefix};
use crate::published::Step;
use cluster_core::{Pipeline, Reported};
use commits::finish;
use kv_core::Mutations;
use std::alloc::Global;

/// The history has room for so many entries.
const MOST: u64 = 1 << 60;

/// A submission whose entry is due, with mutations: those of its request until it is reported, and
/// then what the logs have of it; and the log that ends with its entry, once the history has that.
#[derive(Drop)]
pub struct Due {
    pub submitted: Submitted,
    pub mutations: Mutations,
    pub prefix: Option<LogPrefix>,
}

/// What is in flight between the pipeline and the published log: one submission at most.
#[derive(Drop)]
pub enum InFlight {
    /// Nothing.
    Idle,
    /// A submission that some roles have handled and that isn't reported.
    Unreported(Due),
    /// A submission that is reported, with its version, 0 where it is refused.
    Decided(Due, u64),
    /// A submission that is reported and in the history, and that the writer doesn't have yet.
    Added(Step),
}

/// A submission of which this was reported: it keeps its mutations where it is committed.
pub(crate) fn decided(alloc: Global, reported: &Reported, due: Due) -> InFlight
    ensures { result ≡ decided_due reported.now due }
{
    match reported {
        Reported::Committed(version) => InFlight::Decided(due, *version),
        _ => {
            let Due {
                submitted,
                mutations: _,
                prefix,
            } = due;
            let mutations = Mutations::new(Vec::new(alloc));
            let due = Due {
                submitted,
                mutations,
                prefix,
            };
            InFlight::Decided(due, 0)
        }
    }
}

/// Adds the entry to the history, after this log, where that doesn't have it yet.
pub(crate) fn recorded(head: &LogHead, log: &LogPrefix, due: Due) -> Due
    requires head { head.now ≡ log.now.name.book }
    requires well_formed { IsWellFormedLog log.now.name.origin
        (log.now.log ++ submitted_entry due.submitted ∷ []) }
    requires recorded { IsRecorded log.now.name log.now.log due }
    ensures same { (result.submitted ≡ due.submitted) × (result.mutations ≡ due.mutations) }
    ensures recorded { IsRecorded log.now.name log.now.log result }
{
    if due.prefix.is_some() {
        return due;
    }
    let Due {
        submitted,
        mutations,
        prefix: _,
    } = due;
    let prefix = with_entry(head, log, &submitted);
    Due {
        submitted,
        mutations,
        prefix,
    }
}

/// The log with the entry of a submission, which is added to the history. None where that is longer
/// than the log, or has no room.
fn with_entry(head: &LogHead, log: &LogPrefix, submitted: &Submitted) -> Option<LogPrefix>
    requires head { head.now ≡ log.now.name.book }
    requires well_formed { IsWellFormedLog log.now.name.origin
        (log.now.log ++ submitted_entry submitted.now ∷ []) }
    ensures { IfSome result (λ prefix. prefix ≡ log_prefix log.now.name
        (log.now.log ++ submitted_entry submitted.now ∷ [])) }
{
    let mut prefix = log.again();
    if prefix.len() < MOST && prefix.add(head, submitted) {
        Some(prefix)
    } else {
        None
    }
}

/// A reported submission, as the writer is to have it where the history has its entry.
pub(crate) fn added(due: Due, version: u64) -> InFlight
    ensures due { (log : List Entry) →
        due_of result log ≡ log ++ submitted_entry due.submitted ∷ [] }
    ensures further { (name : Name) (log : List Entry) (p : PipelineState) →
        IsInFlight name log p (InFlight.Decided due version) → IsInFlight name log p result }
{
    let Due {
        submitted,
        mutations,
        prefix,
    } = due;
    match prefix {
        Some(prefix) => InFlight::Added(Step {
            submitted,
            mutations,
            version,
            prefix,
        }),
        None => {
            let due = Due {
                submitted,
                mutations,
                prefix: None,
            };
            InFlight::Decided(due, version)
        }
    }
}

/// Has the roles handle a submission that isn't reported. Where memory runs out it still isn't.
pub(crate) fn report(alloc: Global, pipeline: &mut Pipeline, due: Due) -> InFlight
    requires { IsUnfinished pipeline.old }
    ensures due { (log : List Entry) →
        due_of result log ≡ log ++ submitted_entry due.submitted ∷ [] }
    ensures further { (name : Name) (log : List Entry) →
        IsInFlight name log (whole pipeline.old) (InFlight.Unreported due) →
        IsInFlight name log (whole pipeline.new) result }
{
    match finish(pipeline) {
        Ok(reported) => decided(alloc, &reported, due),
        Err(_) => InFlight::Unreported(due),
    }
}
