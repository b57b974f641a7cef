// Transactions of a client whose commands are those of a script. Called by `main`.
use runtime::{Client, CommitError, Done, End, Txn, begin};
use schedule::Step;
use script::{make_line, script_of};
use std::alloc::Global;
use std::sync::Wait;
use std::test::Fail;
use test_parts::same;

/// What a commit is told.
#[derive(Clone, Copy, PartialEq)]
pub(crate) enum Told {
    /// It is committed.
    Committed,
    /// Memory ran out before it was submitted.
    Memory,
    /// It was submitted, and its outcome isn't known.
    Unknown,
}

/// Performs the command of a step, and writes the line of its reply after the others.
fn perform<E: End>(
    alloc: Global,
    tx: &mut Txn<'_, E>,
    lines: &mut String,
    step: Step,
) -> Result<(), Fail> {
    let Step::Perform(_, command) = step else {
        return Err(Fail::from("no command"));
    };
    let reply = tx.call(&command)?;
    let mut line = String::new(alloc);
    make_line(alloc, &mut line, 1, &reply)?;
    lines.push_str(line.as_str())?;
    Ok(())
}

/// Performs the commands of a script: the lines of their replies.
fn performed<E: End>(alloc: Global, tx: &mut Txn<'_, E>, script: &str) -> Result<String, Fail> {
    let mut lines = String::new(alloc);
    for step in script_of(alloc, script.as_bytes())?.steps {
        perform(alloc, tx, &mut lines, step)?;
    }
    Ok(lines)
}

/// Performs the commands of a script in a transaction, and commits it: what that is told.
pub(crate) fn submit<E: End, R: Wait>(
    rt: &R,
    alloc: Global,
    client: &mut Client<E>,
    script: &str,
) -> Result<Told, Fail> {
    let mut tx = begin(client)?;
    performed(alloc, &mut tx, script)?;
    match tx.commit(rt) {
        Ok(Done::Committed { .. }) => Ok(Told::Committed),
        Ok(Done::ReadOnly) => Err(Fail::from("nothing was changed")),
        Err(CommitError::Memory) => Ok(Told::Memory),
        Err(CommitError::Unknown) => Ok(Told::Unknown),
        Err(error) => Err(error.into()),
    }
}

/// The same, and it must be committed.
pub(crate) fn committed<E: End, R: Wait>(
    rt: &R,
    alloc: Global,
    client: &mut Client<E>,
    script: &str,
) -> Result<(), Fail> {
    match submit(rt, alloc, client, script)? {
        Told::Committed => Ok(()),
        _ => Err(Fail::from("it isn't committed")),
    }
}

/// The commands of a script must reply these lines.
pub(crate) fn found<E: End>(
    alloc: Global,
    client: &mut Client<E>,
    script: &str,
    wanted: &str,
) -> Result<(), Fail> {
    let mut tx = begin(client)?;
    let lines = performed(alloc, &mut tx, script)?;
    same(lines.as_str(), wanted)
}
