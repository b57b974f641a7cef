//! Keeps books in a store that lives in this process: makes the store, has two transactions meet,
//! does anew what the one was for that is refused, and reads what came of it.
#![tactic(auto)]

ghost use Rattle.std.specs.Prelude.{IfOk};
ghost use Rattle.record_layer.specs.Databases.{IsCommittedAt};

mod books;
mod copies;
mod queries;

use books::books;
use copies::{add_copies, copies, make_store};
use queries::push_books;
use record_layer::{Config, Database, Error, NotCommitted, Schema, Session, Transaction, place_of};
use std::alloc::Global;
use std::io;
use std::process::ExitCode;

/// What is told of a commit, in a line: of a conflict, what was read that a newer version wrote.
fn line(
    alloc: Global,
    schema: &Schema,
    who: &str,
    told: Result<u64, NotCommitted>,
) -> Result<String, Error> {
    match told {
        Ok(version) => Ok(format!(in alloc; "{who}: committed at version {version}")?),
        Err(NotCommitted::Conflict { seen, range }) => {
            let place = place_of(alloc, schema, &range)?;
            Ok(format!(in alloc; "{who}: version {seen} wrote {place}")?)
        }
        Err(why) => Err(Error::from(why)),
    }
}

/// Each of two sessions adds copies of one book.
fn add_beside(one: &mut Session<'_>, other: &mut Session<'_>) -> Result<(), Error> {
    add_copies(one, "Emma", 3)?;
    add_copies(other, "Emma", 2)
}

/// Two transactions that each add copies of one book.
fn adding(alloc: Global, db: &Database) -> Result<(Transaction, Transaction), Error> {
    let (mut one, mut other) = (db.session(alloc)?, db.session(alloc)?);
    add_beside(&mut one, &mut other)?;
    Ok((one.into_transaction(), other.into_transaction()))
}

/// Adds the line that tells a commit.
fn tell(
    alloc: Global,
    schema: &Schema,
    who: &str,
    told: Result<u64, NotCommitted>,
    lines: &mut Vec<String>,
) -> Result<(), Error> {
    lines.push(line(alloc, schema, who, told)?)?;
    Ok(())
}

/// Two transactions add copies of one book, and the second one is refused, for what it read.
fn commit_both(
    alloc: Global,
    db: &mut Database,
    schema: &Schema,
    lines: &mut Vec<String>,
) -> Result<(), Error> {
    let (one, other) = adding(alloc, db)?;
    tell(alloc, schema, "one", db.commit(one), lines)?;
    tell(alloc, schema, "other", db.commit(other), lines)
}

/// The same, told in the words of the schema.
fn meet(alloc: Global, db: &mut Database, lines: &mut Vec<String>) -> Result<(), Error> {
    let schema = books(alloc)?;
    commit_both(alloc, db, &schema, lines)
}

/// Adds copies in a new session, and answers the version.
fn add_again(alloc: Global, db: &mut Database) -> Result<u64, Error>
    ensures { IfOk result (λ version. IsCommittedAt version db.new) }
{
    let mut work = |session: &mut Session<'_>| add_copies(session, "Emma", 2);
    let (_, version) = db.run(alloc, &mut work)?;
    Ok(version)
}

/// Reads in a session what is committed, and queries it together with what the session itself
/// writes, whatever becomes of that.
fn look(alloc: Global, session: &mut Session<'_>, lines: &mut Vec<String>) -> Result<(), Error> {
    let found = copies(session, "Emma")?;
    add_copies(session, "Persuasion", 7)?;
    push_books(alloc, session, 5, lines)?;
    lines.push(format!(in alloc; "committed of Emma: {found}")?)?;
    Ok(())
}

/// Does so in a new session.
fn read(alloc: Global, db: &Database, lines: &mut Vec<String>) -> Result<(), Error> {
    let mut session = db.session(alloc)?;
    look(alloc, &mut session, lines)
}

/// Makes the store and changes it, and adds the lines that tell it.
fn change(alloc: Global, db: &mut Database, lines: &mut Vec<String>) -> Result<(), Error> {
    let made = make_store(alloc, db)?;
    lines.push(format!(in alloc; "store: committed at version {made}")?)?;
    meet(alloc, db, lines)?;
    let again = add_again(alloc, db)?;
    lines.push(format!(in alloc; "again: committed at version {again}")?)?;
    Ok(())
}

/// Does all of it, and answers the lines that tell it.
fn demonstrate(alloc: Global) -> Result<Vec<String>, Error> {
    let mut db = Database::new(alloc, &Config::single(alloc))?;
    let mut lines = Vec::new(alloc);
    change(alloc, &mut db, &mut lines)?;
    read(alloc, &db, &mut lines)?;
    Ok(lines)
}

fn print(rt: &HostRuntime, lines: &[String]) -> io::Result<ExitCode> {
    for line in lines {
        rt.println(line.as_str())?;
    }
    Ok(ExitCode::SUCCESS)
}

fn main(rt: HostRuntime) -> io::Result<ExitCode> {
    match demonstrate(rt.alloc()) {
        Ok(lines) => print(&rt, &lines),
        Err(error) => {
            rt.eprintln(error)?;
            Ok(ExitCode::FAILURE)
        }
    }
}
