// The threads of a race, from its database to its end. Called by `recordctl`.
ghost use Rattle.std.specs.Prelude.{OnOk, IfErr, IfOk, IsNone};
ghost use Rattle.race.specs.Racing.{explains_end, race_refusal};
ghost use Rattle.race.specs.Runs.{BuildsIndex, RunsEach, SavesEach};

use crate::commands::{InTurn, filling, indexing, save};
use crate::error::{Fault, RaceError, ended, first_fault};
use crate::telling::lines;
use cluster_core::{Config, ConfigError};
use metadata::Cells;
use runtime::{Client, End, Gate, GatePoint, OpenError, Waits, build_worker, open};
use schedule::Command;
use script::Race;
use std::alloc::Global;
use std::sync::Wait;
use std::thread;
use std::thread::Threads;
use tuple_codec::Text;
use txn::Retry;

// How often a transaction is tried.
const ATTEMPTS: Retry = Retry { limit: 1_000 };

// How many transactions the builder may make.
const TURNS: u32 = 1_000;

// How many places for readers a race takes: one for each client, and one to spare.
const PLACES: u64 = 4;

// A builder that waits at no place.
#[derive(Drop)]
struct Open;

impl Gate for Open {
    ghost use Rattle.race.specs.Runs.{is_passed};

    ghost passed = { is_passed };

    fn pass(&mut self, _place: GatePoint) {}
}

// The clients of a new database of this configuration.
fn opened<E: End, R: Wait>(
    rt: &R,
    alloc: Global,
    end: E,
    config: &Config,
) -> Result<Vec<Client<E>>, RaceError>
    ensures ok { OnOk result (IsNone (race_refusal config.now)) }
    ensures err { IfErr result (explains_end config.now) }
{
    if config.places < PLACES {
        return Err(RaceError::Config(ConfigError::BadCount));
    }
    match open(rt, alloc, end, config) {
        Ok(clients) => Ok(clients),
        Err(OpenError::Config(why)) => Err(RaceError::Config(why)),
        Err(OpenError::NoPlace) => Err(RaceError::GaveUp),
        Err(OpenError::Memory) => Err(RaceError::Memory),
    }
}

// Runs commands in a transaction, which is tried again where another client's writes came between.
fn commit_each<E: End, R: Wait>(
    rt: &R,
    client: &mut Client<E>,
    commands: &[Command],
) -> Result<(), Fault>
    ensures { IfOk result (λ _. RunsEach commands.now client.old client.new) }
{
    client.run(rt, ATTEMPTS, true, &mut InTurn { commands })?;
    Ok(())
}

// Makes what the race begins with.
fn make<E: End, R: Wait>(
    rt: &R,
    alloc: Global,
    client: &mut Client<E>,
    race: &Race,
) -> Result<(), Fault> {
    let filling = filling(alloc, race)?;
    commit_each(rt, client, filling.as_slice())?;
    let indexing = indexing(alloc, race)?;
    commit_each(rt, client, indexing.as_slice())
}

// Saves records, each in a transaction of its own.
fn save_each<E: End, R: Wait>(
    rt: &R,
    client: &mut Client<E>,
    record_type: &Text,
    rows: &[Cells],
) -> Result<(), Fault>
    ensures { IfOk result (λ _. SavesEach record_type.now rows.now client.old client.new) }
{
    for cells in rows {
        commit_each(rt, client, &[save(record_type, cells)?])?;
    }
    Ok(())
}

// Builds the index, and marks it readable.
fn build<E: End, R: Wait>(rt: &R, client: &mut Client<E>, race: &Race) -> Result<(), Fault>
    ensures { IfOk result (λ _. BuildsIndex race.now client.old client.new) }
{
    let index = race.index.name.copy()?;
    build_worker(rt, client, index, race.limit, TURNS, Open)?;
    Ok(())
}

// A client saves its records while another one builds.
fn save_and_build<E: End + Send, R: Threads + Wait + Sync>(
    rt: &R,
    race: &Race,
    saver: &mut Client<E>,
    worker: &mut Client<E>,
) -> (Result<(), Fault>, Result<(), Fault>) {
    let record_type = &race.record_type;
    let rows = race.clients.second.as_slice();
    thread::join(
        rt,
        || save_each(rt, saver, record_type, rows),
        || build(rt, worker, race),
    )
}

// The clients save while a third one builds.
fn run_threads<E: End + Send, R: Threads + Wait + Sync>(
    rt: &R,
    race: &Race,
    one: &mut Client<E>,
    other: &mut Client<E>,
    worker: &mut Client<E>,
) -> Result<(), Fault> {
    let record_type = &race.record_type;
    let rows = race.clients.first.as_slice();
    let (first, (second, built)) = thread::join(
        rt,
        || save_each(rt, one, record_type, rows),
        || { save_and_build(rt, race, other, worker) },
    );
    first_fault(first_fault(first, second), built)
}

// Runs a race with these clients, of which the first tells what there is at the end.
fn raced<E: End + Send, R: Threads + Wait + Sync>(
    rt: &R,
    alloc: Global,
    race: &Race,
    one: &mut Client<E>,
    other: &mut Client<E>,
    worker: &mut Client<E>,
) -> Result<String, Fault> {
    make(rt, alloc, one, race)?;
    run_threads(rt, race, one, other, worker)?;
    lines(alloc, one, race)
}

// Runs a race with the first three of these clients.
fn raced_among<E: End + Send, R: Threads + Wait + Sync>(
    rt: &R,
    alloc: Global,
    race: &Race,
    clients: &mut [Client<E>],
) -> Result<String, Fault> {
    let Some((one, others)) = clients.split_first_mut() else {
        return Err(Fault::GaveUp);
    };
    let Some((other, others)) = others.split_first_mut() else {
        return Err(Fault::GaveUp);
    };
    let Some((worker, _)) = others.split_first_mut() else {
        return Err(Fault::GaveUp);
    };
    raced(rt, alloc, race, one, other, worker)
}

/// Runs a race over a new database: one client makes the store, the records that are there before
/// and the index, write-only; then two clients save their records, each in a transaction of its own,
/// while a third one builds the index. Answers what the first client finds at the end, in lines.
///
/// It answers `Config` where the configuration is refused, or has fewer than four places. Else
/// `GaveUp` counts before `Memory`, and that before a refusal, of which the first counts, in the
/// order of the client that makes the store, the two clients and the builder.
pub fn run<R: Threads + Wait + Sync>(
    rt: &R,
    alloc: Global,
    race: &Race,
) -> Result<String, RaceError>
    ensures ok { OnOk result (IsNone (race_refusal race.now.config)) }
    ensures err { IfErr result (explains_end race.now.config) }
{
    let mut clients = opened(rt, alloc, Waits { rt }, &race.config)?;
    ended(raced_among(rt, alloc, race, clients.as_mut_slice()))
}
