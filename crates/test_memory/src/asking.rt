// A command performed, and once more where memory runs out. Called by `main` and `worked`.
use record_store::StoreNumber;
use schedule::{Command, Reply, perform};
use script::make_line;
use std::alloc::Global;
use std::test::Fail;
use txn::{Snapshot, Transaction};

/// The reply to a command, which is performed once more where memory runs out: `asked` has `again`
/// then.
fn reply_of<S: Snapshot>(
    alloc: Global,
    db: &S,
    tx: &mut Transaction,
    command: &Command,
    asked: &mut String,
) -> Result<Reply, Fail> {
    match perform(alloc, command, StoreNumber::first(), tx, db) {
        Ok(reply) => Ok(reply),
        Err(_) => {
            asked.push_str("again ")?;
            let reply = perform(alloc, command, StoreNumber::first(), tx, db)?;
            Ok(reply)
        }
    }
}

/// Puts the line of a reply after what was asked.
fn push_line(alloc: Global, asked: &mut String, reply: &Reply) -> Result<(), Fail> {
    let mut line = String::new(alloc);
    make_line(alloc, &mut line, 1, reply)?;
    asked.push_str(line.as_str())?;
    Ok(())
}

/// Asks, and once more where memory runs out: the line of the reply, with `again` before one that
/// was asked again.
pub(crate) fn ask<S: Snapshot>(
    alloc: Global,
    db: &S,
    tx: &mut Transaction,
    command: &Command,
) -> Result<String, Fail> {
    let mut asked = String::new(alloc);
    let reply = reply_of(alloc, db, tx, command, &mut asked)?;
    push_line(alloc, &mut asked, &reply)?;
    Ok(asked)
}
