// Steps of the whole cluster and of its roles. Run as a test.
use crate::configs::{config_of, logs_and_window};
use cluster_core::{Cluster, Work};
use std::alloc::Global;
use std::test::Fail;
use test_parts::{are_pairs, range_of, report_text, request_of, same, shown, tells};
use txn::Snapshot;

/// What is done with a cluster: a step takes a number and two texts.
#[derive(Clone, Copy)]
enum Step {
    /// Begins anew: at the version of the number, with the second text's logs and window, and with the first text's
    /// splits between resolvers, between servers, or between both.
    Resolvers,
    Servers,
    Both,
    /// Submits a request that read at the version the ranges of the first text, and writes the second.
    Submit,
    /// Has one resolver, one log, or one server, take its next version.
    Resolve,
    Append,
    Pull,
    /// Reports, to somebody or to nobody.
    Report,
    Lose,
    /// Has every resolver and every log take its next version, and reports.
    Settle,
    /// Submits, and settles.
    Commit,
    /// Has every server take its next version.
    PullEach,
    /// Commits what the second text writes, and has every server take it.
    Write,
    /// Reads at the version the range of the first text, up to the second's limit, from the front or from the back.
    Read,
    Back,
    /// Asks for the last reported version, or for the number of the requests.
    Version,
    Requests,
}

use Step::{
    Append, Back, Both, Commit, Lose, Pull, PullEach, Read, Report, Requests, Resolve, Resolvers,
    Servers, Settle, Submit, Version, Write,
};

/// Between sixteen roles, and a key of each.
const SIXTEEN: &str = "10 20 30 40 50 60 70 80 90 a0 b0 c0 d0 e0 f0";

const A_KEY_OF_EACH: &str =
    "05=00 15=01 25=02 35=03 45=04 55=05 65=06 75=07 85=08 95=09 a5=0a b5=0b c5=0c d5=0d e5=0e f5=0f";

type Row = (Step, u64, &'static str, &'static str, &'static str);

/// Steps, and what is told of each: of a beginning the numbers of resolvers, logs and servers.
static STEPS: [Row; 163] = [
    // Two requests read what both write: the later one is refused.
    (Resolvers, 0, "", "3 1000", "1 3 1"),
    (Commit, 0, "", "61=14 62=14", "committed 1"),
    (Commit, 1, "62 61", "61=14", "committed 2"),
    (Commit, 1, "61 62", "62=14", "conflict 2 61-6100"),
    // A refused request still stands where it was agreed to: at the resolver of 62.
    (Resolvers, 0, "62", "3 1000", "2 3 1"),
    (Commit, 0, "", "61=14 62=14", "committed 1"),
    (Commit, 1, "61", "61=14", "committed 2"),
    (Commit, 1, "61 62", "62=14", "conflict 2 61-6100"),
    (Commit, 1, "62 63", "63=14", "conflict 3 62-6200"),
    // With one resolver it stands nowhere.
    (Resolvers, 0, "", "3 1000", "1 3 1"),
    (Commit, 0, "", "61=14 62=14", "committed 1"),
    (Commit, 1, "61", "61=14", "committed 2"),
    (Commit, 1, "61 62", "62=14", "conflict 2 61-6100"),
    (Commit, 1, "62 63", "63=14", "committed 4"),
    // The window.
    (Resolvers, 0, "", "3 1", "1 3 1"),
    (Commit, 0, "", "61=14", "committed 1"),
    (Commit, 1, "", "61=14", "committed 2"),
    (Commit, 2, "", "61=14", "committed 3"),
    (Requests, 0, "", "", "3"),
    (Submit, 1, "", "61=14", "TooOld"),
    (Submit, 2, "", "61=14", "4"),
    // The last version.
    (Resolvers, u64::MAX - 1, "", "3 1", "1 3 1"),
    (
        Commit,
        u64::MAX - 1,
        "",
        "61=14",
        "committed 18446744073709551615",
    ),
    (Submit, 0, "", "61=14", "VersionsExhausted"),
    (Submit, u64::MAX - 1, "", "61=14", "VersionsExhausted"),
    (Submit, u64::MAX, "", "61=14", "VersionsExhausted"),
    (Version, 0, "", "", "18446744073709551615"),
    // Each role waits for those before it.
    (Resolvers, 0, "1500", "3 1", "2 3 1"),
    (Resolve, 0, "", "", "NothingToDo"),
    (Submit, 0, "", "61=14", "1"),
    (Resolve, 0, "", "", "Done"),
    (Resolve, 0, "", "", "NothingToDo"),
    (Append, 0, "", "", "NothingToDo"),
    (Resolve, 1, "", "", "Done"),
    (Append, 0, "", "", "Done"),
    (Append, 1, "", "", "Done"),
    (Lose, 0, "", "", "NothingToDo"),
    (Append, 2, "", "", "Done"),
    (Lose, 0, "", "", "Done"),
    (Lose, 0, "", "", "NothingToDo"),
    (Report, 0, "", "", "NothingToDo"),
    (Version, 0, "", "", "1"),
    // Sixteen resolvers and sixteen logs.
    (Resolvers, 0, SIXTEEN, "16 1000", "16 16 1"),
    (Commit, 0, "00-ff", A_KEY_OF_EACH, "committed 1"),
    (Commit, 0, "26-30 25-26 f5", "f5=14", "conflict 1 25-26"),
    (Commit, 1, "25-26 f5", "f5=14", "committed 3"),
    (Submit, 1, "e0-ff", "05=14", "4"),
    (Report, 0, "", "", "NothingToDo"),
    (Resolve, 15, "", "", "Done"),
    (Append, 15, "", "", "NothingToDo"),
    (Commit, 3, "", "15=14", "conflict 3 e0-ff"),
    (Requests, 0, "", "", "5"),
    (Version, 0, "", "", "4"),
    (Resolve, 15, "", "", "NothingToDo"),
    (Resolve, 14, "", "", "Done"),
    // Two servers that meet at the key 62.
    (Servers, 10, "62", "1 1", "1 1 2"),
    (Write, 0, "", "63=03 61=01", "committed 11"),
    (Write, 0, "", "62=02", "committed 12"),
    // At each version.
    (Read, 11, "61-64", "9", "61=01 63=03"),
    (Read, 12, "61-64", "9", "61=01 62=02 63=03"),
    // Backwards and up to a limit.
    (Back, 12, "61-64", "9", "63=03 62=02 61=01"),
    (Read, 12, "61-64", "1", "61=01"),
    (Back, 12, "61-64", "1", "63=03"),
    (Read, 12, "61-64", "2", "61=01 62=02"),
    // Across the split.
    (Read, 12, "61-63", "9", "61=01 62=02"),
    (Back, 12, "61-63", "9", "62=02 61=01"),
    (Read, 12, "62-63", "9", "62=02"),
    (Read, 13, "61-64", "1", "FutureVersion"),
    (Read, 10, "61-64", "1", "TooOld"),
    (Read, 11, "61-64", "1", "61=01"),
    (Read, 13, "61-61", "1", ""),
    // The last version.
    (Servers, u64::MAX - 1, "", "1 1", "1 1 1"),
    (Write, 0, "", "", "committed 18446744073709551615"),
    (Read, u64::MAX, "00-ff", "9", ""),
    // Ranges are cleared and numbers added: at one server, and then across a split.
    (Servers, 0, "", "1 1000", "1 1 1"),
    (Write, 0, "", "61=01 62=02 63=ff", "committed 1"),
    (Write, 0, "", "61-63", "committed 2"),
    (Write, 0, "", "63+0100 64+02", "committed 3"),
    (Write, 0, "", "64+ff 63-64 63+07", "committed 4"),
    (Read, 0, "61-65", "9", ""),
    (Read, 1, "61-65", "9", "61=01 62=02 63=ff"),
    (Read, 2, "61-65", "9", "63=ff"),
    (Read, 3, "61-65", "9", "63=0001 64=02"),
    (Read, 4, "61-65", "9", "63=07 64=01"),
    (Servers, 0, "62 63", "1 1000", "1 1 3"),
    (Write, 0, "", "61=01 62=02 63=ff", "committed 1"),
    (Write, 0, "", "6100-6300", "committed 2"),
    (Write, 0, "", "61+ff 62+01 63+0100", "committed 3"),
    (Write, 0, "", "00-ff 62=05", "committed 4"),
    (Back, 1, "61-65", "9", "63=ff 62=02 61=01"),
    (Back, 2, "61-65", "9", "61=01"),
    (Back, 3, "61-65", "9", "63=0100 62=01 61=00"),
    (Back, 4, "61-65", "9", "62=05"),
    // Sixteen servers.
    (Servers, 0, SIXTEEN, "1 1000", "1 1 16"),
    (Write, 0, "", "05=00 15=01 f5=0f 85=08 10=10", "committed 1"),
    (Write, 0, "", "0f-f5", "committed 2"),
    (Read, 1, "00-ff", "99", "05=00 10=10 15=01 85=08 f5=0f"),
    (Back, 1, "00-ff", "2", "f5=0f 85=08"),
    (Read, 2, "00-ff", "99", "05=00 f5=0f"),
    (Read, 2, "05-f5", "99", "05=00"),
    (Read, 3, "f0-ff", "99", "FutureVersion"),
    // Servers wait for their log.
    (Servers, 0, "62", "1 1", "1 1 2"),
    (Submit, 0, "61-64", "61=01", "1"),
    (Pull, 0, "", "", "NothingToDo"),
    (Settle, 0, "", "", "committed 1"),
    (Pull, 0, "", "", "Done"),
    (Pull, 0, "", "", "NothingToDo"),
    // A server answers for its keys: the second one owns those from 62 on.
    (Servers, 0, "62", "1 1", "1 1 2"),
    (Submit, 0, "61-64", "63=03", "1"),
    (Settle, 0, "", "", "committed 1"),
    (Pull, 0, "", "", "Done"),
    (Read, 1, "61-62", "99", ""),
    (Read, 1, "61-63", "99", "FutureVersion"),
    // Servers have what is committed: the second request read the keys before the first one wrote there.
    (Submit, 0, "61-64", "62=09", "2"),
    (Settle, 0, "", "", "conflict 1 61-64"),
    (PullEach, 0, "", "", ""),
    (PullEach, 0, "", "", ""),
    (Pull, 0, "", "", "NothingToDo"),
    (Read, 2, "61-64", "99", "63=03"),
    // Versions back.
    (Servers, 0, "62", "1 1", "1 1 2"),
    (Submit, 0, "61-64", "61=09", "1"),
    (Settle, 0, "", "", "committed 1"),
    (PullEach, 0, "", "", ""),
    (Submit, 1, "61-64", "63=09", "2"),
    (Settle, 0, "", "", "committed 2"),
    (PullEach, 0, "", "", ""),
    (Submit, 2, "61-64", "62=09", "3"),
    (Settle, 0, "", "", "committed 3"),
    (PullEach, 0, "", "", ""),
    (Requests, 0, "", "", "3"),
    (Read, 1, "61-64", "99", "TooOld"),
    (Back, 2, "61-64", "99", "63=09 61=09"),
    (Back, 3, "61-64", "99", "63=09 62=09 61=09"),
    // A lost report is a step.
    (Servers, 0, "62", "1 1", "1 1 2"),
    (Submit, 0, "61-64", "63=03", "1"),
    (Settle, 0, "", "", "committed 1"),
    (Lose, 0, "", "", "NothingToDo"),
    (Report, 0, "", "", "NothingToDo"),
    (Submit, 1, "61-64", "61=01", "2"),
    (Resolve, 0, "", "", "Done"),
    (Append, 0, "", "", "Done"),
    (Lose, 0, "", "", "Done"),
    (Version, 0, "", "", "2"),
    // A request that read too long ago.
    (Submit, 2, "", "61=02", "3"),
    (Submit, 1, "", "61=03", "TooOld"),
    // Sixteen resolvers, logs and servers.
    (Both, 0, SIXTEEN, "16 1000", "16 16 16"),
    (Submit, 0, "00-ff", A_KEY_OF_EACH, "1"),
    (Settle, 0, "", "", "committed 1"),
    (PullEach, 0, "", "", ""),
    (Read, 1, "00-ff", "99", A_KEY_OF_EACH),
    (Submit, 0, "f0-ff", "05=14", "2"),
    (Submit, 1, "10-ff", "26-e0 e5+ff f5+0100", "3"),
    (Settle, 0, "", "", "conflict 1 f0-ff"),
    (Settle, 0, "", "", "committed 3"),
    (PullEach, 0, "", "", ""),
    (PullEach, 0, "", "", ""),
    (Read, 2, "00-40", "99", "05=00 15=01 25=02 35=03"),
    (Read, 3, "00-ff", "99", "05=00 15=01 25=02 e5=0d f5=1000"),
    (Back, 3, "10-f6", "99", "f5=1000 e5=0d 25=02 15=01"),
    (Read, 4, "f0-ff", "99", "FutureVersion"),
    (Pull, 15, "", "", "NothingToDo"),
    (Version, 0, "", "", "3"),
    (Requests, 0, "", "", "3"),
];

fn begun(alloc: Global, start: u64, splits: (&str, &str), counts: &str) -> Result<Cluster, Fail> {
    let (logs, window) = logs_and_window(counts)?;
    let config = config_of(alloc, splits, logs, window, start)?;
    Ok(Cluster::new(alloc, &config)?)
}

fn roles_of(alloc: Global, cluster: &Cluster) -> Result<String, Fail> {
    let (resolvers, logs, servers) = (cluster.resolvers(), cluster.logs(), cluster.servers());
    Ok(format!(in alloc; "{resolvers} {logs} {servers}")?)
}

fn renew(
    alloc: Global,
    cluster: &mut Cluster,
    start: u64,
    splits: (&str, &str),
    counts: &str,
) -> Result<String, Fail> {
    *cluster = begun(alloc, start, splits, counts)?;
    roles_of(alloc, cluster)
}

/// The version of the ticket, or the refusal.
fn submit(
    alloc: Global,
    cluster: &mut Cluster,
    version: u64,
    texts: (&str, &str),
) -> Result<String, Fail> {
    let request = request_of(alloc, version, texts.0, texts.1)?;
    if request.read_version > cluster.read_version() {
        return Err(Fail::from("the read version isn't reported"));
    }
    match cluster.submit(request) {
        Ok(ticket) => shown(alloc, &ticket.version()),
        Err(error) => shown(alloc, &error),
    }
}

/// Has one role take its next version, or a report be lost.
fn work(cluster: &mut Cluster, step: Step, number: usize) -> Result<Work, Fail> {
    match step {
        Resolve if number < cluster.resolvers() => Ok(cluster.resolve(number)?),
        Append if number < cluster.logs() => Ok(cluster.append_log(number)?),
        Pull if number < cluster.servers() => Ok(cluster.pull(number)?),
        Lose => Ok(cluster.report_lost()),
        _ => Err(Fail::from("no such role")),
    }
}

/// Has the first so many roles of a kind take their next version.
fn work_each(cluster: &mut Cluster, step: Step, count: usize) -> Result<(), Fail> {
    for number in 0..count {
        work(cluster, step, number)?;
    }
    Ok(())
}

fn settle(alloc: Global, cluster: &mut Cluster) -> Result<String, Fail> {
    work_each(cluster, Resolve, cluster.resolvers())?;
    work_each(cluster, Append, cluster.logs())?;
    report_text(alloc, &cluster.report())
}

/// What is told of a request, once it is settled.
fn commit(
    alloc: Global,
    cluster: &mut Cluster,
    version: u64,
    texts: (&str, &str),
) -> Result<String, Fail> {
    submit(alloc, cluster, version, texts)?;
    settle(alloc, cluster)
}

fn pull_each(alloc: Global, cluster: &mut Cluster) -> Result<String, Fail> {
    work_each(cluster, Pull, cluster.servers())?;
    Ok(String::new(alloc))
}

/// Commits what reads nothing, and has every server take it.
fn write(alloc: Global, cluster: &mut Cluster, mutations: &str) -> Result<String, Fail> {
    let told = commit(alloc, cluster, cluster.read_version(), ("", mutations))?;
    work_each(cluster, Pull, cluster.servers())?;
    Ok(told)
}

/// Reads, and fails where other pairs or another refusal are found.
fn read(
    alloc: Global,
    cluster: &Cluster,
    version: u64,
    (range, limit): (&str, &str),
    reverse: bool,
    told: &str,
) -> Result<(), Fail> {
    let range = range_of(alloc, range)?;
    let limit = limit.parse::<usize>()?.max(1);
    match Snapshot::read(cluster, &range, version, limit, reverse) {
        Ok(pairs) => are_pairs(alloc, &pairs, told),
        Err(error) => tells(alloc, &error, told),
    }
}

/// Takes a step that reads nothing, and says what is told of it.
fn take(
    alloc: Global,
    cluster: &mut Cluster,
    step: Step,
    number: u64,
    texts: (&str, &str),
) -> Result<String, Fail> {
    match step {
        Resolvers => renew(alloc, cluster, number, (texts.0, ""), texts.1),
        Servers => renew(alloc, cluster, number, ("", texts.0), texts.1),
        Both => renew(alloc, cluster, number, (texts.0, texts.0), texts.1),
        Submit => submit(alloc, cluster, number, texts),
        Report => report_text(alloc, &cluster.report()),
        Settle => settle(alloc, cluster),
        Commit => commit(alloc, cluster, number, texts),
        PullEach => pull_each(alloc, cluster),
        Write => write(alloc, cluster, texts.1),
        Version => shown(alloc, &cluster.read_version()),
        Requests => shown(alloc, &cluster.requests().len()),
        step => shown(alloc, &work(cluster, step, number as usize)?),
    }
}

fn holds(alloc: Global, cluster: &mut Cluster, row: &Row) -> Result<(), Fail> {
    let (step, number, first, second, told) = row;
    let texts = (*first, *second);
    match step {
        Read => read(alloc, cluster, *number, texts, false, told),
        Back => read(alloc, cluster, *number, texts, true, told),
        step => same(take(alloc, cluster, *step, *number, texts)?.as_str(), told),
    }
}

#[test]
fn clusters_take_steps(rt: HostRuntime) -> Result<(), Fail> {
    let mut cluster = begun(rt.alloc(), 0, ("", ""), "1 1")?;
    for row in &STEPS {
        holds(rt.alloc(), &mut cluster, row)?;
    }
    Ok(())
}
