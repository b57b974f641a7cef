// Commands each of whose reads of the database is refused in turn. Run as a test.
use crate::scene::{command_of, is_told, line_of};
use cluster_core::ReadError;
use schedule::Command;
use std::alloc::Global;
use std::test::Fail;
use test_parts::{Action, Session, WORKED, Worked, same};
use txn::FailAt;

/// More reads than a command takes.
const MOST_READS: u64 = 1000;

/// Performs a command over a cluster whose read of this number is refused: the line of its reply,
/// and whether it read so often.
fn tried(
    alloc: Global,
    session: &mut Session,
    client: usize,
    command: &Command,
    at: u64,
) -> Result<(String, bool), Fail> {
    let tx = session.open.get_mut(client).ok_or("no such client")?;
    let failing = FailAt::new(&session.cluster, at, ReadError::FutureVersion);
    let line = line_of(alloc, &failing, tx, command)?;
    Ok((line, failing.reads() >= at))
}

/// Each read of a command is refused in turn, and so is the command; then it is told this.
fn each_refused(
    alloc: Global,
    session: &mut Session,
    client: usize,
    command: &Command,
    told: &str,
) -> Result<(), Fail> {
    for at in 1..MOST_READS {
        let (line, is_refused) = tried(alloc, session, client, command, at)?;
        if !is_refused {
            return is_told(alloc, line.as_str(), told);
        }
        same(line.as_str(), "1 refused FutureVersion\n")?;
    }
    Err(Fail::from("it reads without end"))
}

fn ask(alloc: Global, session: &mut Session, row: &Worked) -> Result<(), Fail> {
    let command = command_of(alloc, row.2)?;
    each_refused(alloc, session, row.1, &command, row.3)
}

fn open(alloc: Global, session: &mut Session) -> Result<(), Fail> {
    *session = Session::new(alloc)?;
    Ok(())
}

fn take(alloc: Global, session: &mut Session, row: &Worked) -> Result<(), Fail> {
    match row.0 {
        Action::Open => open(alloc, session),
        Action::Begin => session.begin(alloc, row.1),
        Action::Ask => ask(alloc, session, row),
        Action::Commit => session.commit(alloc, row.1, row.3),
    }
}

#[test]
fn refused_commands_are_performed_again(rt: HostRuntime) -> Result<(), Fail> {
    let mut session = Session::new(rt.alloc())?;
    for row in &WORKED {
        take(rt.alloc(), &mut session, row)?;
    }
    Ok(())
}
