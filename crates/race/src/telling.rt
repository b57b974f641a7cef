// What there is at the end of a race, in lines. Called by `racing`.
use crate::asking::{all_records, counts_all};
use crate::error::Fault;
use metadata::Cells;
use runtime::{Client, End, Txn, begin};
use schedule::{AskedQuery, Command};
use script::{Race, push_reply};
use std::alloc::{AllocError, Global};
use std::fmt::Write;

// Performs a command, and writes its reply behind the words that begin a line.
fn push_line<E: End>(
    alloc: Global,
    tx: &mut Txn<'_, E>,
    text: &mut String,
    command: &Command,
) -> Result<(), Fault> {
    let reply = tx.call(command)?;
    push_reply(alloc, text, &reply)?;
    text.push_str("\n")?;
    Ok(())
}

// The command that asks for all records of the race's type.
fn rows_command(alloc: Global, race: &Race) -> Result<Command, AllocError> {
    let query = all_records(alloc, race)?;
    Ok(Command::Query(AskedQuery::new(alloc, query)?))
}

// Writes the line of the index.
fn push_index<E: End>(
    alloc: Global,
    tx: &mut Txn<'_, E>,
    text: &mut String,
    race: &Race,
) -> Result<(), Fault> {
    let name = race.index.name.as_str();
    write!(text, "index {name} ")?;
    let command = Command::State(race.index.name.copy()?);
    push_line(alloc, tx, text, &command)
}

// Writes the line of the total of all records.
fn push_total<E: End>(
    alloc: Global,
    tx: &mut Txn<'_, E>,
    text: &mut String,
    race: &Race,
) -> Result<(), Fault> {
    let group = Cells::new(Vec::new(alloc));
    let command = Command::Aggregate(race.index.name.copy()?, group);
    push_line(alloc, tx, text, &command)
}

/// What a client finds at the end of a race: the rows of its type in the order of their keys, the
/// state of its index, and the total where the index counts all records; a line each.
pub fn lines<E: End>(alloc: Global, client: &mut Client<E>, race: &Race) -> Result<String, Fault> {
    let mut tx = begin(client)?;
    let mut text = String::new(alloc);
    push_line(alloc, &mut tx, &mut text, &rows_command(alloc, race)?)?;
    push_index(alloc, &mut tx, &mut text, race)?;
    if counts_all(&race.index) {
        push_total(alloc, &mut tx, &mut text, race)?;
    }
    Ok(text)
}
