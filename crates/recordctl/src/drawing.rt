// What is drawn of a script's steps. Called by `run`.
use crate::run::Begun;
use cluster_core::Cluster;
use drawings::{Act, Event, Lane, Outcome};
use schedule::{Command, Refusal, Reply, Report, Reports, Step};
use shell::push_named_reply;
use shell_text::range_named;
use std::alloc::{AllocError, Global};
use std::fmt::Write;
use std::str;

// Who takes a step.
fn lane_of(step: &Step) -> Lane {
    match step {
        Step::Begin(client, _)
        | Step::Perform(client, _)
        | Step::Execute(client)
        | Step::Commit(client)
        | Step::Abandon(client) => Lane::Client(*client),
        Step::Resolve(_) => Lane::Resolvers,
        Step::Log(_) => Lane::Logs,
        Step::Pull(_) => Lane::Servers,
        Step::Report | Step::Lost => Lane::Reports,
        Step::Settle => Lane::Roles,
    }
}

// Whether a command only reads.
fn is_reading(command: &Command) -> bool {
    matches!(
        command,
        Command::Load(_, _)
            | Command::Query(_)
            | Command::Plan(_)
            | Command::Execute(_)
            | Command::State(_)
            | Command::Aggregate(_, _)
    )
}

// What a client's step does that isn't refused.
fn act_of_client(step: &Step, reply: &Reply) -> Act {
    match (step, reply) {
        (_, Reply::Begun(_)) => Act::Begin,
        (_, Reply::Submitted(version)) => Act::Submit(*version),
        (Step::Commit(_) | Step::Abandon(_), _) => Act::End,
        (Step::Perform(_, command), _) if !is_reading(command) => Act::Write,
        _ => Act::Read,
    }
}

// What a step of a client does: a refused commit ends its transaction, where there was one.
fn act_of(step: &Step, reply: &Reply) -> Act {
    match (step, reply) {
        (_, Reply::Refused(Refusal::NoSuchClient | Refusal::NoTransaction)) => Act::Refused,
        (Step::Commit(_), Reply::Refused(_)) => Act::End,
        (_, Reply::Refused(_) | Reply::Corrupt(_)) => Act::Refused,
        _ => act_of_client(step, reply),
    }
}

// What a client is told of its transaction.
fn outcome_of(alloc: Global, cluster: &Cluster, report: &Report) -> Result<Outcome, AllocError> {
    let mut words = String::new(alloc);
    let (client, seen) = match report {
        Report::Committed { client, version } => {
            write!(words, "committed {version}")?;
            (*client, None)
        }
        Report::Conflict {
            client,
            seen,
            range,
        } => {
            let what = range_named(alloc, cluster, range)?;
            write!(words, "conflict {seen}: {what}")?;
            (*client, Some(*seen))
        }
        Report::Unknown { client } => {
            words.push_str("unknown")?;
            (*client, None)
        }
    };
    Ok(Outcome {
        client,
        words,
        seen,
    })
}

// What clients are told of their transactions.
fn outcomes_of(
    alloc: Global,
    cluster: &Cluster,
    reports: &Reports,
) -> Result<Vec<Outcome>, AllocError> {
    let mut outcomes = Vec::new(alloc);
    for report in reports.as_slice() {
        outcomes.push(outcome_of(alloc, cluster, report)?)?;
    }
    Ok(outcomes)
}

// The words of a step after its name, without the number of a client.
fn parts_of<'a>(step: &Step, after: &'a str) -> &'a str {
    let parts = after.strip_suffix("]").unwrap_or(after);
    let parts = parts.strip_prefix(",").unwrap_or(parts);
    match lane_of(step) {
        Lane::Client(_) => parts.split_once(",").map_or("", |(_, rest)| rest),
        _ => parts,
    }
}

// A step in words, from its line.
fn words_of(alloc: Global, step: &Step, line: &[u8]) -> Result<String, AllocError> {
    match step {
        Step::Begin(_, store) if *store != 1 => format!(in alloc; "begin in store {store}"),
        _ => line_words(alloc, step, line),
    }
}

// The words of the line of a step: its name, and its parts without the number of a client.
fn line_words(alloc: Global, step: &Step, line: &[u8]) -> Result<String, AllocError> {
    let text = str::from_utf8(line.trim_ascii()).unwrap_or("");
    let inner = text.strip_prefix("[\"").unwrap_or(text);
    match inner.split_once("\"") {
        Some((name, after)) => {
            let parts = parts_of(step, after);
            format!(in alloc; "{name} {parts}")
        }
        None => String::from_str(alloc, text),
    }
}

// What is drawn of a step and its reply.
fn event_of(
    alloc: Global,
    cluster: &Cluster,
    line: &[u8],
    step: &Step,
    reply: &Reply,
) -> Result<Event, AllocError> {
    let mut told = String::new(alloc);
    let act = match (lane_of(step), reply) {
        (Lane::Client(_), _) => {
            push_named_reply(alloc, &mut told, cluster, reply)?;
            act_of(step, reply)
        }
        (_, Reply::Reported(reports)) => Act::Work(outcomes_of(alloc, cluster, reports)?),
        _ => {
            push_named_reply(alloc, &mut told, cluster, reply)?;
            Act::Work(Vec::new(alloc))
        }
    };
    Ok(Event {
        lane: lane_of(step),
        step: words_of(alloc, step, line)?,
        reply: told,
        act,
    })
}

/// Does the steps of a script, and answers what is drawn of each.
pub fn drawn_steps(
    alloc: Global,
    begun: Begun,
    lines: &[Vec<u8>],
) -> Result<Vec<Event>, AllocError> {
    let Begun {
        steps,
        mut database,
        ..
    } = begun;
    let mut events = Vec::new(alloc);
    for (index, step) in steps.iter().enumerate() {
        // A database in memory ends for want of memory alone.
        let Ok((after, reply)) = database.step(alloc, step) else {
            return Err(AllocError);
        };
        database = after;
        let line = lines
            .get(index)
            .map_or(&[] as &[u8], |line| line.as_slice());
        events.push(event_of(alloc, database.cluster(), line, step, &reply)?)?;
    }
    Ok(events)
}
