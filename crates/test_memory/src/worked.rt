// Commands of clients of a cluster, and what they are told. Called by `main`.
use crate::asking::ask;
use crate::scene::command_of;
use schedule::Command;
use std::alloc::Global;
use std::test::Fail;
use test_parts::{Action, Session, WORKED, Worked, same};

/// The line of the reply to a client's command, with `again` before one that was asked again.
fn line_of(
    alloc: Global,
    session: &mut Session,
    client: usize,
    command: &Command,
) -> Result<String, Fail> {
    let tx = session.open.get_mut(client).ok_or("no such client")?;
    ask(alloc, &session.cluster, tx, command)
}

/// The line tells this, once or again.
fn is_told(alloc: Global, line: &str, told: &str) -> Result<(), Fail> {
    let wanted = format!(in alloc; "1 {told}\n")?;
    same(line.strip_prefix("again ").unwrap_or(line), wanted.as_str())
}

/// The line of the reply to a row's command.
fn asked(alloc: Global, session: &mut Session, row: &Worked) -> Result<String, Fail> {
    let command = command_of(alloc, row.2)?;
    line_of(alloc, session, row.1, &command)
}

/// Prints the line of the reply to a row's command, which must tell what the row does.
fn print(rt: &HostRuntime, session: &mut Session, row: &Worked) -> Result<(), Fail> {
    let line = asked(rt.alloc(), session, row)?;
    is_told(rt.alloc(), line.as_str(), row.3)?;
    rt.print(line)?;
    Ok(())
}

fn take(rt: &HostRuntime, session: &mut Session, row: &Worked) -> Result<(), Fail> {
    let alloc = rt.alloc();
    match row.0 {
        Action::Open => *session = Session::new(alloc)?,
        Action::Begin => session.begin(alloc, row.1)?,
        Action::Ask => print(rt, session, row)?,
        Action::Commit => session.commit(alloc, row.1, row.3)?,
    }
    Ok(())
}

/// Does what clients do, and prints the line of each reply.
pub(crate) fn ask_rows(rt: &HostRuntime) -> Result<(), Fail> {
    let mut session = Session::new(rt.alloc())?;
    for row in &WORKED {
        take(rt, &mut session, row)?;
    }
    Ok(())
}
