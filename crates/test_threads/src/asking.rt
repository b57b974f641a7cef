// Clients that ask what became of their submissions. Run as tests.
use crate::transactions::{alone, are_told, over, two_clients};
use cluster_core::Config;
use runtime::{
    Body, Client, CommandError, End, KEPT_OUTCOMES, RunError, SubmissionStatus, Txn, Waits, begin,
    open,
};
use schedule::{Command, Step};
use script::script_of;
use std::alloc::Global;
use std::sync::Wait;
use std::test::Fail;
use txn::Retry;

/// Makes the store.
const MADE: &str = r#"{"steps":[
    ["create",0,{"types":[{"name":"t","fields":[["k","int"],["a","int"],["b","int"]],"key":["k"]}]}]
]}"#;

const SAVED: &str = r#"{"steps":[["save",0,"t",[1,0,0]]]}"#;

/// What the two clients are told, whose second and first submissions save the same record.
const BESIDE: &str = "0: not submitted; not submitted;
0 ok\ncommitted 1
0 saved new\ncommitted 2
0 saved new\nconflict 2
2: committed 1; committed 2; not submitted;
1: not submitted; refused; not submitted;
";

/// What is told of a submission, in words.
fn words_of(alloc: Global, status: SubmissionStatus) -> Option<String> {
    match status {
        SubmissionStatus::Committed { version } => format!(in alloc; " committed {version};").ok(),
        SubmissionStatus::Refused => String::from_str(alloc, " refused;").ok(),
        SubmissionStatus::Pending => String::from_str(alloc, " pending;").ok(),
        SubmissionStatus::Forgotten => String::from_str(alloc, " forgotten;").ok(),
        SubmissionStatus::NotSubmitted => String::from_str(alloc, " not submitted;").ok(),
    }
}

/// How many submissions a client has made, and what is told of these.
fn told<E: End>(alloc: Global, client: &mut Client<E>, numbers: &[u64]) -> Option<String> {
    let made = client.submissions();
    let mut line = format!(in alloc; "{made}:").ok()?;
    for number in numbers {
        let status = client.outcome(*number).ok()?;
        line.push_str(words_of(alloc, status)?.as_str()).ok()?;
    }
    Some(line)
}

/// Writes a line after the others.
fn push_line(lines: &mut String, line: Option<String>) -> Option<()> {
    lines.push_str(line?.as_str()).ok()?;
    lines.push_str("\n").ok()?;
    Some(())
}

/// Two transactions, begun at the same version, save the same record.
fn save_beside<E: End, R: Wait>(
    rt: &R,
    alloc: Global,
    one: &mut Client<E>,
    other: &mut Client<E>,
) -> Option<(Option<String>, Option<String>)> {
    let early = begin(one).ok()?;
    let late = begin(other).ok()?;
    let first = over(rt, alloc, early, SAVED).lines;
    let second = over(rt, alloc, late, SAVED).lines;
    Some((first, second))
}

/// Clients make the store and save the same record: what each is told of its commits, and of its
/// submissions.
fn ask_beside<E: End, R: Wait>(
    rt: &R,
    alloc: Global,
    one: &mut Client<E>,
    other: &mut Client<E>,
) -> Option<String> {
    let mut lines = String::new(alloc);
    push_line(&mut lines, told(alloc, one, &[0, 1]))?;
    push_line(&mut lines, alone(rt, alloc, one, MADE).lines)?;
    let (first, second) = save_beside(rt, alloc, one, other)?;
    push_line(&mut lines, first)?;
    push_line(&mut lines, second)?;
    push_line(&mut lines, told(alloc, one, &[1, 2, 3]))?;
    push_line(&mut lines, told(alloc, other, &[0, 1, 2]))?;
    Some(lines)
}

/// The same of two clients of a new store.
fn told_beside<R: Wait>(rt: &R, alloc: Global) -> Option<String> {
    let (mut one, mut other) = two_clients(rt, alloc)?;
    ask_beside(rt, alloc, &mut one, &mut other)
}

#[test]
fn a_client_asks_for_its_submissions(rt: HostRuntime) -> Result<(), Fail> {
    are_told(told_beside(&rt, rt.alloc()), BESIDE)
}

/// Saves a record so many times, once the store is made, each in a transaction of its own: whether
/// all have lines.
fn save_again<E: End, R: Wait>(rt: &R, alloc: Global, client: &mut Client<E>, times: u64) -> bool {
    let mut told = alone(rt, alloc, client, MADE).lines.is_some();
    for _ in 0..times {
        told = told && alone(rt, alloc, client, SAVED).lines.is_some();
    }
    told
}

/// Saves as often as outcomes are kept, and asks for the first submissions and the last one.
fn ask_late<E: End, R: Wait>(rt: &R, alloc: Global, client: &mut Client<E>) -> Option<String> {
    if save_again(rt, alloc, client, KEPT_OUTCOMES) {
        told(alloc, client, &[1, 2, 129])
    } else {
        None
    }
}

/// The same of a client of a new store.
fn told_late<R: Wait>(rt: &R, alloc: Global) -> Option<String> {
    let (mut one, _other) = two_clients(rt, alloc)?;
    ask_late(rt, alloc, &mut one)
}

#[test]
fn an_old_outcome_is_forgotten(rt: HostRuntime) -> Result<(), Fail> {
    are_told(
        told_late(&rt, rt.alloc()),
        "129: forgotten; committed 2; committed 129;",
    )
}

/// Performs a command.
#[derive(Drop)]
struct Perform {
    command: Command,
}

impl<E: End> Body<E> for Perform {
    type Answer = ();

    ghost did = { λ body old result new after. Unit {0} };

    fn attempt(&mut self, tx: &mut Txn<'_, E>) -> Result<(), CommandError> {
        tx.call(&self.command)?;
        Ok(())
    }
}

/// The first command of a script.
fn command_in(alloc: Global, script: &str) -> Option<Command> {
    let steps = script_of(alloc, script.as_bytes()).ok()?.steps;
    for step in steps {
        if let Step::Perform(_, command) = step {
            return Some(command);
        }
    }
    None
}

/// Whether a run of the first command of `MADE` gives up.
fn gives_up<E: End, R: Wait>(rt: &R, alloc: Global, client: &mut Client<E>) -> bool {
    let Some(command) = command_in(alloc, MADE) else {
        return false;
    };
    let mut body = Perform { command };
    let ended = client.run(rt, Retry { limit: 10 }, true, &mut body);
    matches!(ended, Err(RunError::GaveUp))
}

/// Makes a store where no version is left, and runs the same: what is told.
fn make_at_the_end<E: End, R: Wait>(
    rt: &R,
    alloc: Global,
    client: &mut Client<E>,
) -> Option<String> {
    let mut lines = String::new(alloc);
    push_line(&mut lines, alone(rt, alloc, client, MADE).lines)?;
    if gives_up(rt, alloc, client) {
        push_line(&mut lines, told(alloc, client, &[1]))?;
    }
    Some(lines)
}

/// The same by the first client of a database whose versions are used up.
fn told_at_the_end<R: Wait>(rt: &R, alloc: Global) -> Option<String> {
    let config = Config {
        start: u64::MAX,
        ..Config::single(alloc)
    };
    let mut clients = open(rt, alloc, Waits { rt }, &config).ok()?;
    make_at_the_end(rt, alloc, clients.as_mut_slice().first_mut()?)
}

#[test]
fn there_is_a_last_version(rt: HostRuntime) -> Result<(), Fail> {
    are_told(
        told_at_the_end(&rt, rt.alloc()),
        "0 ok\nthere is no version or number left\n0: not submitted;\n",
    )
}
