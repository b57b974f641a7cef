// Transactions written as scripts, and what is told of them in lines. Called by the tests.
ghost use Rattle.std.specs.Prelude.{◌≡◌, IfSome, None, Ok, Some};
ghost use Rattle.runtime.specs.Runs.{Continues};
ghost use Rattle.test_threads.specs.Turns.{AreOf};

use cluster_core::Config;
use metadata::Cells;
use runtime::{Client, CommandError, CommitError, Done, End, Seen, Txn, Waits, begin, open};
use schedule::{AskedQuery, Command, Reply, SharedPlan, Step};
use script::{make_line, script_of};
use std::alloc::Global;
use std::sync::Wait;
use std::test::Fail;
use tuple_codec::Text;

/// The lines that tell a transaction, and what another client may learn of it.
#[derive(Drop)]
pub(crate) struct Told {
    pub(crate) lines: Option<String>,
    pub(crate) seen: Option<Seen>,
}

/// The last two of the clients of a store.
fn two_of<E: End>(clients: Vec<Client<E>>) -> Option<(Client<E>, Client<E>)>
    requires { AreOf clients.items None }
    ensures { IfSome result (λ it. it.0.name ≡ it.1.name) }
{
    let mut clients = clients;
    let Some(one) = clients.pop() else {
        return None;
    };
    let Some(other) = clients.pop() else {
        return None;
    };
    Some((one, other))
}

/// Two clients of a new store.
pub(crate) fn two_clients<R: Wait>(
    rt: &R,
    alloc: Global,
) -> Option<(Client<Waits<&R>>, Client<Waits<&R>>)>
    ensures named { IfSome result (λ it. it.0.name ≡ it.1.name) }
{
    let config = Config::single(alloc);
    match open(rt, alloc, Waits { rt }, &config) {
        Ok(clients) => two_of(clients),
        Err(_) => None,
    }
}

/// Fails where other lines are told, or none.
pub(crate) fn are_told(found: Option<String>, wanted: &str) -> Result<(), Fail> {
    let found = found.ok_or("nothing is told")?;
    if found.as_str() == wanted {
        return Ok(());
    }
    Err(Fail::new(format_args!("found {}, wanted {wanted}", found.as_str())))
}

/// The command of a step; `execute` takes this plan.
fn command_of(step: Step, plan: &Option<SharedPlan>) -> Option<Command> {
    match step {
        Step::Perform(_, command) => Some(command),
        Step::Execute(_) => Some(Command::Execute(plan.as_ref()?.copy().ok()?)),
        _ => None,
    }
}

/// The reply that tells of the record that was there before a save.
fn saved(old: Option<Cells>) -> Reply {
    match old {
        Some(cells) => Reply::SavedOver(cells),
        None => Reply::SavedNew,
    }
}

/// The reply that tells of a record that was found, or not.
fn found(found: Option<Cells>) -> Reply {
    match found {
        Some(cells) => Reply::Found(cells),
        None => Reply::Absent,
    }
}

/// A command for which there is a call of its name, by what that call takes.
#[derive(Drop)]
enum Named {
    Save(Text, Cells),
    Load(Text, Cells),
    Remove(Text, Cells),
    Plan(AskedQuery),
    Execute(SharedPlan),
    Aggregate(Text, Cells),
}

/// What the call of a command's name takes, where there is one, and memory for it.
fn asked_by_name(command: &Command) -> Option<Named> {
    match command {
        Command::Save(name, cells) => Some(Named::Save(name.copy().ok()?, cells.copy().ok()?)),
        Command::Load(name, key) => Some(Named::Load(name.copy().ok()?, key.copy().ok()?)),
        Command::Remove(name, key) => Some(Named::Remove(name.copy().ok()?, key.copy().ok()?)),
        Command::Plan(query) => Some(Named::Plan(query.copy().ok()?)),
        Command::Execute(plan) => Some(Named::Execute(plan.copy().ok()?)),
        Command::Aggregate(name, group) => {
            Some(Named::Aggregate(name.copy().ok()?, group.copy().ok()?))
        }
        _ => None,
    }
}

/// Performs a command by the call of its name, where there is one.
fn ask<E: End>(tx: &mut Txn<'_, E>, command: Command) -> Result<Reply, CommandError>
    ensures same_reference { tx.new.client.ghost_name ≡ tx.old.client.ghost_name }
    ensures continues { Continues tx.old.client.now tx.new.client.now }
{
    match asked_by_name(&command) {
        Some(Named::Save(type_name, cells)) => Ok(saved(tx.save(type_name, cells)?)),
        Some(Named::Load(type_name, key)) => Ok(found(tx.load(type_name, key)?)),
        Some(Named::Remove(type_name, key)) => Ok(if tx.remove(type_name, key)? {
            Reply::Removed
        } else {
            Reply::Absent
        }),
        Some(Named::Plan(query)) => Ok(Reply::Planned(tx.plan(query)?)),
        Some(Named::Execute(plan)) => Ok(Reply::Rows(tx.execute(plan)?)),
        Some(Named::Aggregate(index, group)) => Ok(Reply::Total(tx.aggregate(index, group)?)),
        None => tx.call(&command),
    }
}

/// Writes the line of a reply behind the others.
fn push_line(alloc: Global, lines: &mut String, index: usize, reply: &Reply) -> bool {
    let mut line = String::new(alloc);
    make_line(alloc, &mut line, index, reply).is_ok() && lines.push_str(line.as_str()).is_ok()
}

/// The plan that a reply gives.
fn planned(reply: Reply) -> Option<SharedPlan> {
    match reply {
        Reply::Planned(made) => Some(made),
        _ => None,
    }
}

/// Writes the line of a reply, and keeps the plan that it gives.
fn take_reply(
    alloc: Global,
    lines: &mut String,
    plan: &mut Option<SharedPlan>,
    index: usize,
    reply: Reply,
) -> bool {
    let told = push_line(alloc, lines, index, &reply);
    let made = planned(reply);
    if made.is_some() {
        *plan = made;
    }
    told
}

/// Performs the command of a step, and writes the line that it replies.
fn follow<E: End>(
    alloc: Global,
    tx: &mut Txn<'_, E>,
    lines: &mut String,
    plan: &mut Option<SharedPlan>,
    numbered: (usize, Step),
) -> bool
    ensures same_reference { tx.new.client.ghost_name ≡ tx.old.client.ghost_name }
    ensures continues { Continues tx.old.client.now tx.new.client.now }
{
    let (index, step) = numbered;
    let Some(command) = command_of(step, plan) else {
        return false;
    };
    match ask(tx, command) {
        Ok(reply) => take_reply(alloc, lines, plan, index, reply),
        Err(_) => false,
    }
}

/// Performs the commands of these steps, as far as they have replies.
fn follow_all<E: End>(
    alloc: Global,
    tx: &mut Txn<'_, E>,
    lines: &mut String,
    steps: Vec<Step>,
) -> bool
    ensures same_reference { tx.new.client.ghost_name ≡ tx.old.client.ghost_name }
    ensures continues { Continues tx.old.client.now tx.new.client.now }
{
    let mut plan = None;
    let mut told = true;
    for numbered in steps.into_iter().enumerate() {
        if told {
            told = follow(alloc, tx, lines, &mut plan, numbered);
        }
    }
    told
}

/// The steps of a script.
fn steps_in(alloc: Global, script: &str) -> Option<Vec<Step>> {
    match script_of(alloc, script.as_bytes()) {
        Ok(script) => Some(script.steps),
        Err(_) => None,
    }
}

/// Performs the commands of a script's steps: the lines that they reply.
fn performed<E: End>(alloc: Global, tx: &mut Txn<'_, E>, script: &str) -> Option<String>
    ensures same_reference { tx.new.client.ghost_name ≡ tx.old.client.ghost_name }
    ensures continues { Continues tx.old.client.now tx.new.client.now }
{
    let mut lines = String::new(alloc);
    let steps = steps_in(alloc, script)?;
    if follow_all(alloc, tx, &mut lines, steps) {
        Some(lines)
    } else {
        None
    }
}

/// What a commit is told, in words.
fn words_of(alloc: Global, answer: &Result<Done, CommitError>) -> Option<String> {
    match answer {
        Ok(Done::Committed { version, seen: _ }) => format!(in alloc; "committed {version}").ok(),
        Ok(Done::ReadOnly) => String::from_str(alloc, "read only").ok(),
        Err(CommitError::Conflict { seen, range: _ }) => format!(in alloc; "conflict {seen}").ok(),
        Err(error) => format!(in alloc; "{error}").ok(),
    }
}

/// What another client may learn of a commit.
fn seen_of(answer: Result<Done, CommitError>) -> Option<Seen>
    ensures { IfSome result (λ seen. (version : _) × (answer ≡ Ok (Done.Committed version seen))) }
{
    match answer {
        Ok(Done::Committed { version: _, seen }) => Some(seen),
        _ => None,
    }
}

/// A text with more after it.
pub(crate) fn joined(lines: Option<String>, more: Option<String>) -> Option<String> {
    let mut lines = lines?;
    lines.push_str(more?.as_str()).ok()?;
    Some(lines)
}

/// The lines of commands with what their commit is told after them, and what another client may
/// learn of it.
fn told_of(alloc: Global, lines: Option<String>, answer: Result<Done, CommitError>) -> Told
    ensures { IfSome result.seen (λ it.
        (version : _) × (answer ≡ Ok (Done.Committed version it))) }
{
    let lines = joined(lines, words_of(alloc, &answer));
    let seen = seen_of(answer);
    Told { lines, seen }
}

/// Performs these commands and commits: the lines that they reply with what the commit is told
/// after them, and what another client may learn of it.
pub(crate) fn over<E: End, R: Wait>(rt: &R, alloc: Global, tx: Txn<'_, E>, script: &str) -> Told
    ensures seen { (work : _) → tx.entry.client.now.begun ≡ Some work →
        IfSome result.seen (λ it. it.prefix.name ≡ tx.entry.client.now.name) }
{
    let mut tx = tx;
    let lines = performed(alloc, &mut tx, script);
    let answer = tx.commit(rt);
    told_of(alloc, lines, answer)
}

/// The same in a transaction that is begun for them.
pub(crate) fn alone<E: End, R: Wait>(
    rt: &R,
    alloc: Global,
    client: &mut Client<E>,
    script: &str,
) -> Told
    ensures same { client.new.name ≡ client.old.name }
    ensures seen { IfSome result.seen (λ it. it.prefix.name ≡ client.old.name) }
{
    let Ok(tx) = begin(client) else {
        return Told {
            lines: None,
            seen: None,
        };
    };
    let mut tx = tx;
    let lines = performed(alloc, &mut tx, script);
    let answer = tx.commit(rt);
    told_of(alloc, lines, answer)
}
