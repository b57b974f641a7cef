// The worker that builds an index beside other clients. Called by `race`.
ghost use Rattle.std.specs.Prelude.{◌≡◌, IfErr, IfOk, MatchResult, OnOk};
ghost use Rattle.runtime.specs.Builds.{IsBuilt};
ghost use Rattle.runtime.specs.Calls.{marked_reply, part_reply};
ghost use Rattle.runtime.specs.Clients.{Knowledge};
ghost use Rattle.runtime.specs.Runs.{GoesOnFrom};
ghost use Rattle.runtime.specs.Settles.{AreTokensOf, IsProgress, IsSettledUpto};
ghost use Rattle.runtime.specs.Works.{Asks, EndsWork, IsWork, MayGoOn, Performs, TakesRound};
ghost use Rattle.runtime.specs.Works.{Works};

use crate::answers::{CommandError, RunError};
use crate::client::Client;
use crate::locked_state::End;
use crate::replies::{marked, part};
use crate::retrying::{Body, Failure, attempt};
use crate::transaction::Txn;
use crate::worker_progress::{Built, Progress, Round, Unsettled, settle};
use kv_core::KeyRange;
use record_store::StoreNumber;
use schedule::Command;
use std::sync::Wait;
use tuple_codec::Text;
use txn::Ended;

/// A place in a round of a worker.
#[derive(Clone, Copy, Debug, PartialEq, Eq)]
pub enum GatePoint {
    /// Its transaction has begun.
    Begun,
    /// Its transaction is about to be committed.
    BeforeCommit,
}

/// What a worker passes in each of its rounds.
pub trait Gate: Drop {
    ghost use Rattle.runtime.specs.declared.index_worker.GatePoint.{GatePoint};

    /// What passing a place does, by the gate before and after it.
    ghost passed: { Self → GatePoint → Self → Type 0 };

    /// Passes the place. It may wait there.
    fn pass(&mut self, place: GatePoint)
        ensures passed { passed self.old place self.new };
}

/// Asks for a part of the index in an open transaction. It answers how many records the part has,
/// and where. None where every position is built.
fn build_part<E: End>(
    tx: &mut Txn<'_, E>,
    index: &Text,
    limit: u32,
) -> Result<Option<(usize, KeyRange)>, CommandError>
    ensures same_reference { tx.new.client.ghost_name ≡ tx.old.client.ghost_name }
    ensures asks { Asks part_reply (Command.Build index.now limit)
        tx.old.client.now result tx.new.client.now }
{
    let build = Command::Build(index.copy()?, limit);
    let reply = tx.call(&build);
    part(reply)
}

/// Marks the index readable in an open transaction.
fn mark<E: End>(tx: &mut Txn<'_, E>, index: &Text) -> Result<(), CommandError>
    ensures same_reference { tx.new.client.ghost_name ≡ tx.old.client.ghost_name }
    ensures asks { Asks marked_reply (Command.Readable index.now)
        tx.old.client.now result tx.new.client.now }
{
    let readable = Command::Readable(index.copy()?);
    let reply = tx.call(&readable);
    marked(reply)
}

/// Performs the commands of a round in an open transaction.
fn perform_round<E: End>(
    tx: &mut Txn<'_, E>,
    index: &Text,
    limit: u32,
) -> Result<Round, CommandError>
    ensures same_reference { tx.new.client.ghost_name ≡ tx.old.client.ghost_name }
    ensures performs { Performs index.now limit tx.old.client.now result tx.new.client.now }
{
    match build_part(tx, index, limit)? {
        Some((records, _)) => Ok(Round::Built(records)),
        None => {
            mark(tx, index)?;
            Ok(Round::Marked)
        }
    }
}

/// What a worker does in the transaction of a round.
#[derive(Drop)]
pub(crate) struct Worker<G: Gate> {
    index: Text,
    limit: u32,
    gate: G,
}

impl<E: End, G: Gate> Body<E> for Worker<G> {
    type Answer = Round;

    ghost did = { Works G.passed };

    fn attempt(&mut self, tx: &mut Txn<'_, E>) -> Result<Round, CommandError> {
        self.gate.pass(GatePoint::Begun);
        let round = perform_round(tx, &self.index, self.limit)?;
        self.gate.pass(GatePoint::BeforeCommit);
        Ok(round)
    }
}

/// Whether another round may come to more after one that ended so. It gives up where none does.
fn go_on(ended: Ended) -> Result<(), RunError>
    ensures { MatchResult result (λ _. MayGoOn ended)
        (λ error. (error ≡ RunError.GaveUp) × (MayGoOn ended → ⊥)) }
{
    match ended {
        Ended::Conflict | Ended::TooOld => Ok(()),
        _ => Err(RunError::GaveUp),
    }
}

/// One round in a store, and then what became of it and of those before it, as far as that is
/// known.
fn take_round<E: End, R: Wait, G: Gate>(
    rt: &R,
    client: &mut Client<E>,
    store: StoreNumber,
    worker: &mut Worker<G>,
    progress: &mut Progress,
) -> Result<(), RunError>
    requires names { AreTokensOf client.old.name progress.old.lost.items }
    ensures follows { GoesOnFrom client.old client.new }
    ensures index { OnOk result (worker.new.index ≡ worker.old.index) }
    ensures round { OnOk result (TakesRound store (Works G.passed) progress.new.marked
        (worker.old, client.old) (worker.new, client.new)) }
    ensures progress { (start : Knowledge) →
        IsProgress (store, worker.old.index) start client.old client.old.last progress.old →
        OnOk result (IsSettledUpto (store, worker.old.index) start client.new client.new.last
        progress.new) }
    ensures ended { (start : Knowledge) →
        IsProgress (store, worker.old.index) start client.old client.old.last progress.old →
        IfErr result (λ error. EndsWork store (Works G.passed) worker.old.index start
        (worker.old, client.old) error (worker.new, client.new)) }
{
    progress.lost.reserve(1)?;
    let ended = attempt(rt, client, store, worker);
    prove!(client.submissions() <= u64::MAX);
    match ended {
        Ok((round, _)) => {
            settle(client, progress)?;
            progress.count(round)
        }
        Err(Failure::Lost(round, Some(prefix))) => {
            let number = client.submissions();
            progress.lost.push_reserved(Unsettled {
                number,
                round,
                prefix,
            });
            settle(client, progress)
        }
        Err(Failure::Lost(_, None)) => Err(RunError::GaveUp),
        Err(Failure::Ended(ended)) => {
            go_on(ended)?;
            settle(client, progress)
        }
        Err(Failure::Refused(error)) => {
            settle(client, progress)?;
            if progress.marked {
                Ok(())
            } else {
                Err(RunError::Refused(error))
            }
        }
    }
}

/// Builds a write-only index of store 1, as `build_worker_in` does.
pub fn build_worker<E: End, R: Wait, G: Gate>(
    rt: &R,
    client: &mut Client<E>,
    index: Text,
    limit: u32,
    rounds: u32,
    gate: G,
) -> Result<Built, RunError>
    ensures follows { GoesOnFrom client.old client.new }
    ensures built { IfOk result (λ built. IsBuilt (1, index) client.old client.new built) }
    ensures work { (after : _) × IsWork 1 (Works G.passed) index rounds
        (record { index = index; limit = limit; gate = gate }, client.old) result
        (after, client.new) }
{
    let store = StoreNumber::first();
    build_worker_in(rt, client, store, index, limit, rounds, gate)
}

/// Builds a write-only index of a store, a transaction for each part of so many records at most,
/// until every position of it is built, and marks it readable then. An index of that name in
/// another store has nothing to do with it.
///
/// It passes the gate in each round. A round that read too long ago or was refused with a conflict
/// is followed by the next one, and so is one of which it isn't known what became: as soon as the
/// log has its entry, what it built is counted where it is committed. A refusal of a command is
/// `Refused`, and so is `NotEntered`, and want of memory before a command; but where a mark of
/// which it wasn't known is committed, the work is done. `GaveUp` is told where a commit is refused
/// otherwise, where an outcome is forgotten, where the numbers of what is built don't suffice, and
/// after so many rounds.
pub fn build_worker_in<E: End, R: Wait, G: Gate>(
    rt: &R,
    client: &mut Client<E>,
    store: StoreNumber,
    index: Text,
    limit: u32,
    rounds: u32,
    gate: G,
) -> Result<Built, RunError>
    ensures follows { GoesOnFrom client.old client.new }
    ensures built { IfOk result (λ built. IsBuilt (store, index) client.old client.new built) }
    ensures work { (after : _) × IsWork store (Works G.passed) index rounds
        (record { index = index; limit = limit; gate = gate }, client.old) result
        (after, client.new) }
{
    let mut worker = Worker { index, limit, gate };
    let mut progress = Progress::new(client.allocator());
    for round in 0..rounds {
        take_round(rt, client, store, &mut worker, &mut progress)?;
        prove!(client.submissions() <= u64::MAX);
        if progress.marked {
            return Ok(progress.built);
        }
    }
    Err(RunError::GaveUp)
}
