// Replies with the names of what stands at keys in the place of the keys. Called by `recordctl`.
use cluster_core::Cluster;
use schedule::{Reply, Report};
use script::{push_reply, push_report};
use shell_text::{range_named, range_words};
use std::alloc::{AllocError, Global};
use std::fmt::Write;

// Writes what became of a transaction.
fn push_named_report(
    alloc: Global,
    line: &mut String,
    cluster: &Cluster,
    report: &Report,
) -> Result<(), AllocError> {
    match report {
        Report::Conflict {
            client,
            seen,
            range,
        } => {
            let words = range_named(alloc, cluster, range)?;
            write!(line, "client {client} conflict {seen} {words}")
        }
        _ => push_report(alloc, line, report),
    }
}

/// Writes what a step replied after what the line holds, as `push_reply` of `script` does, but of
/// a conflict and of a part that was built what stands at its keys, in words. The names are those
/// that the cluster has committed.
pub fn push_named_reply(
    alloc: Global,
    line: &mut String,
    cluster: &Cluster,
    reply: &Reply,
) -> Result<(), AllocError> {
    match reply {
        Reply::Built { records, range } => {
            let words = range_words(alloc, range)?;
            write!(line, "built {records} {words}")
        }
        Reply::Reported(reports) => {
            let mut separator = "";
            for report in reports.as_slice() {
                line.push_str(separator)?;
                push_named_report(alloc, line, cluster, report)?;
                separator = ", ";
            }
            Ok(())
        }
        _ => push_reply(alloc, line, reply),
    }
}
