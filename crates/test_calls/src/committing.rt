// Commits by a pipeline, from the submission to the report, and what follows attempts. Run as
// tests.
ghost use Rattle.cluster_core.specs.Roles.{is_caught_up};

use crate::configs::{config_of, logs_and_window};
use cluster_core::Pipeline;
use commits::{Commit, HoldError};
use kv_core::CommitRequest;
use std::alloc::Global;
use std::test::Fail;
use test_parts::{holds, report_text, request_of, same, shown};
use txn::{Ended, Next, Retry};

/// A pipeline whose roles have handled all that was submitted.
#[derive(Drop)]
struct Settled {
    pipeline: Pipeline,
    ghost caught_up: { is_caught_up pipeline },
}

type Row = (
    &'static str,
    u64,
    &'static str,
    &'static str,
    &'static str,
    u64,
);

/// Commits one after another: the logs and the window where a pipeline begins anew, at the version that is read, with
/// resolvers that meet at the key 62; the version that a request read, the key that it read and what it writes, what is
/// told of it, and the last reported version then.
static COMMITS: [Row; 8] = [
    // A request conflicts with one that wrote later what it read.
    ("2 10", 0, "61", "61=14", "committed 1", 1),
    ("", 0, "63", "63=14", "committed 2", 2),
    ("", 0, "61", "61=14", "conflict 1 61-6100", 3),
    // A request that read too long ago.
    ("2 1", 0, "61", "61=14", "committed 1", 1),
    ("", 1, "61", "61=14", "committed 2", 2),
    ("", 0, "61", "61=14", "TooOld", 2),
    // The last version.
    (
        "2 1",
        18_446_744_073_709_551_614,
        "61",
        "61=14",
        "committed 18446744073709551615",
        18_446_744_073_709_551_615,
    ),
    (
        "",
        18_446_744_073_709_551_615,
        "61",
        "61=14",
        "VersionsExhausted",
        18_446_744_073_709_551_615,
    ),
];

fn begun(alloc: Global, counts: &str, start: u64) -> Result<Settled, Fail> {
    let (logs, window) = logs_and_window(counts)?;
    let config = config_of(alloc, ("62", ""), logs, window, start)?;
    let pipeline = Pipeline::new(alloc, &config)?;
    Ok(Settled { pipeline })
}

/// What is told of a request, and the pipeline then.
fn commit(
    alloc: Global,
    settled: Settled,
    request: CommitRequest,
) -> Result<(Settled, String), Fail> {
    let Settled { mut pipeline } = settled;
    if request.read_version > pipeline.read_version() {
        return Err(Fail::from("the read version isn't reported"));
    }
    match pipeline.commit(request) {
        Ok(reported) => Ok((Settled { pipeline }, report_text(alloc, &reported)?)),
        Err(HoldError::Submit(error)) => Ok((Settled { pipeline }, shown(alloc, &error)?)),
        Err(_) => Err(Fail::from("memory")),
    }
}

/// Commits what a row says, which is told of it, and hands back the pipeline then.
fn committed(alloc: Global, settled: Settled, row: &Row) -> Result<Settled, Fail> {
    let (_, version, reads, writes, told, reported) = row;
    let request = request_of(alloc, *version, reads, writes)?;
    let (settled, answer) = commit(alloc, settled, request)?;
    same(answer.as_str(), told)?;
    holds(settled.pipeline.read_version() == *reported, told)?;
    Ok(settled)
}

#[test]
fn requests_are_committed(rt: HostRuntime) -> Result<(), Fail> {
    let mut settled = begun(rt.alloc(), "1 1", 0)?;
    for row in &COMMITS {
        if !row.0.is_empty() {
            settled = begun(rt.alloc(), row.0, row.1)?;
        }
        settled = committed(rt.alloc(), settled, row)?;
    }
    Ok(())
}

/// How attempts ended, their numbers, whether their writes may be made twice, and what follows where three may be made.
static ATTEMPTS: [(Ended, u64, bool, Next); 11] = [
    (Ended::Conflict, 1, false, Next::Again),
    (Ended::Conflict, 3, false, Next::GiveUp),
    (Ended::Unknown, 1, false, Next::GiveUp),
    (Ended::Unknown, 1, true, Next::Again),
    (Ended::Unknown, 3, true, Next::GiveUp),
    (Ended::Committed, 3, false, Next::Done),
    (Ended::ReadOnly, 1, false, Next::Done),
    (Ended::TooOld, 2, false, Next::Again),
    (Ended::FutureVersion, 2, false, Next::Again),
    (Ended::FutureVersion, 3, true, Next::GiveUp),
    (Ended::Other, 1, true, Next::GiveUp),
];

#[test]
fn attempts_are_followed() -> Result<(), Fail> {
    let retry = Retry { limit: 3 };
    for (ended, attempt, repeatable, next) in &ATTEMPTS {
        let found = retry.next(*ended, *attempt, *repeatable);
        holds(found == *next, "an attempt")?;
    }
    Ok(())
}
