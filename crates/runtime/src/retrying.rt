// Transactions that are tried again. Called by `index_worker`, and by `race` and applications.
ghost use Rattle.std.specs.Prelude.{◌≡◌, IfOk, IfErr};
ghost use Rattle.runtime.specs.Runs.{Continues, FailsSo, GoesOnFrom, IsRun, TriesAndEnds, ended_by};
ghost use Rattle.runtime.specs.Runs.{failure_by, failure_ended};

use crate::answers::{CommandError, CommitError, Done, RunError};
use crate::client::Client;
use crate::locked_state::End;
use crate::log_prefix::LogPrefix;
use crate::transaction::Txn;
use record_store::StoreNumber;
use schedule::Refusal;
use std::sync::Wait;
use txn::{Ended, Next, Retry};

/// What a transaction does, which may be tried again.
pub trait Body<E: End> {
    ghost use Rattle.std.specs.Prelude.{◌≡◌, Result};
    ghost use Rattle.runtime.specs.Clients.{Knowledge};
    ghost use Rattle.runtime.specs.Runs.{Continues};
    ghost use Rattle.runtime.specs.declared.answers.CommandError.{CommandError};

    /// What it answers.
    type Answer: Drop;

    /// What an attempt does, by the body and its client before and after it.
    ghost did: { Self → Knowledge → Result Self.Answer CommandError → Knowledge → Self → Type 0 };

    /// Performs the commands of one attempt. The transaction is left to the caller, who commits it.
    fn attempt(&mut self, tx: &mut Txn<'_, E>) -> Result<Self::Answer, CommandError>
        ensures same_reference { tx.new.client.ghost_name ≡ tx.old.client.ghost_name }
        ensures continues { Continues tx.old.client.now tx.new.client.now }
        ensures did { did self.old tx.old.client.now result tx.new.client.now self.new };
}

/// How an attempt failed, where its body has an answer of this type.
#[derive(Drop)]
pub(crate) enum Failure<A: Drop> {
    /// It wasn't begun, or its body gave it up, but not for its age.
    Refused(CommandError),
    /// It isn't known what became of it. The body had this answer in it, and the log ends with its
    /// entry, where it has one.
    Lost(A, Option<LogPrefix>),
    /// It ended so.
    Ended(Ended),
}

impl<A: Drop> Failure<A> {
    /// How it ended, or why the run is refused.
    fn ended(self) -> Result<Ended, RunError>
        ensures { result ≡ failure_ended self }
    {
        match self {
            Failure::Refused(error) => Err(RunError::Refused(error)),
            Failure::Lost(..) => Ok(Ended::Unknown),
            Failure::Ended(ended) => Ok(ended),
        }
    }
}

/// How an attempt failed that its body gave up.
fn failure_of<A: Drop>(error: CommandError) -> Failure<A>
    ensures { result ≡ failure_by error }
{
    match error {
        CommandError::TooOld | CommandError::Refused(Refusal::TooOld) => {
            Failure::Ended(Ended::TooOld)
        }
        other => Failure::Refused(other),
    }
}

/// How an attempt ended that wasn't committed, as far as is known.
fn ended_of(error: &CommitError) -> Ended
    ensures { result ≡ ended_by error.now }
{
    match error {
        CommitError::Conflict { .. } => Ended::Conflict,
        CommitError::TooOld => Ended::TooOld,
        CommitError::Unknown => Ended::Unknown,
        CommitError::VersionsExhausted | CommitError::Memory | CommitError::Closed => Ended::Other,
    }
}

/// The body's answer in the open transaction of a client.
fn answer_of<E: End, B: Body<E>>(
    client: &mut Client<E>,
    body: &mut B,
) -> Result<B::Answer, CommandError>
    ensures continues { Continues client.old client.new }
    ensures did { B.did body.old client.old result client.new body.new }
{
    let mut tx = Txn { client };
    body.attempt(&mut tx)
}

/// One attempt, in a store.
pub(crate) fn attempt<E: End, R: Wait, B: Body<E>>(
    rt: &R,
    client: &mut Client<E>,
    store: StoreNumber,
    body: &mut B,
) -> Result<(B::Answer, Done), Failure<B::Answer>>
    ensures follows { GoesOnFrom client.old client.new }
    ensures done { IfOk result (λ both.
        TriesAndEnds store B.did (body.old, client.old) both.0 (Ok both.1) (body.new, client.new)) }
    ensures failed { IfErr result (λ failure.
        FailsSo store B.did (body.old, client.old) failure (body.new, client.new)) }
{
    if let Err(error) = client.begin_here(store) {
        return Err(Failure::Refused(CommandError::from(error)));
    }
    let answer = match answer_of(client, body) {
        Ok(answer) => answer,
        Err(error) => return Err(failure_of(error)),
    };
    let (result, due) = client.commit_here(rt);
    match result {
        Ok(done) => Ok((answer, done)),
        Err(CommitError::Unknown) => Err(Failure::Lost(answer, due)),
        Err(error) => Err(Failure::Ended(ended_of(&error))),
    }
}

impl<E: End> Client<E> {
    /// Runs the body in store 1, as `run_in` does.
    pub fn run<R: Wait, B: Body<E>>(
        &mut self,
        rt: &R,
        retry: Retry,
        repeatable: bool,
        body: &mut B,
    ) -> Result<(B::Answer, Done), RunError>
        ensures follows { GoesOnFrom self.old self.new }
        ensures run { IsRun 1 B.did repeatable retry.limit (body.old, self.old) result
            (body.new, self.new) }
    {
        let store = StoreNumber::first();
        self.run_in(rt, store, retry, repeatable, body)
    }

    /// Runs the body in a transaction in a store and commits it, until it is committed, or changed
    /// nothing. Another attempt follows one that read too long ago or was refused with a conflict,
    /// up to the limit of `retry`; where the writes are repeatable, also one of which it isn't
    /// known whether it is committed.
    pub fn run_in<R: Wait, B: Body<E>>(
        &mut self,
        rt: &R,
        store: StoreNumber,
        retry: Retry,
        repeatable: bool,
        body: &mut B,
    ) -> Result<(B::Answer, Done), RunError>
        ensures follows { GoesOnFrom self.old self.new }
        ensures run { IsRun store B.did repeatable retry.limit (body.old, self.old) result
            (body.new, self.new) }
    {
        let mut number = 1u64;
        loop {
            let failure = match attempt(rt, self, store, body) {
                Ok(both) => return Ok(both),
                Err(failure) => failure,
            };
            let ended = match failure.ended() {
                Ok(ended) => ended,
                Err(error) => return Err(error),
            };
            match retry.next(ended, number, repeatable) {
                Next::Again => number += 1,
                _ => return Err(RunError::GaveUp),
            }
        }
    }
}
