// Work in sessions of a database of one thread: it is done, committed, and done anew after a
// conflict. Called by applications.
ghost use Rattle.std.specs.Prelude.{◌≡◌, IfErr, IfOk};
ghost use Rattle.std.specs.Fn.{CalledAtMut};
ghost use Rattle.record_layer.specs.Databases.{IsCommittedAt};
ghost use Rattle.record_layer.specs.Working.{IsAttempt, IsCompleted, IsRunOnce, IsNoAttempt};
ghost use Rattle.record_layer.specs.Working.{ended_uncommitted, ended_unsubmitted};

use crate::database::{Database, NotCommitted};
use crate::error::Error;
use crate::not_done::NotDone;
use crate::session::Session;
use cluster_core::SubmitError;
use std::alloc::Global;
use txn::{Ended, Next, Retry, Transaction};

/// How an attempt ended that was refused before it had a version.
fn ended_unsubmitted(error: SubmitError) -> Ended
    ensures { result ≡ ended_unsubmitted error }
{
    match error {
        SubmitError::TooOld => Ended::TooOld,
        SubmitError::VersionsExhausted | SubmitError::Memory => Ended::Other,
    }
}

/// How an attempt ended that isn't committed, or isn't known to be.
fn ended_uncommitted(why: &NotCommitted) -> Ended
    ensures { result ≡ ended_uncommitted why.now }
{
    match why {
        NotCommitted::Conflict { .. } => Ended::Conflict,
        NotCommitted::Later => Ended::FutureVersion,
        NotCommitted::Refused(error) => ended_unsubmitted(*error),
        NotCommitted::Unknown => Ended::Unknown,
        NotCommitted::Unsettled => Ended::Other,
    }
}

impl Database {
    /// Does the work in a new session, and answers what it does and the transaction that it left,
    /// to be committed by `complete`.
    pub fn attempt<A: Drop, F: FnMut(&mut Session<'_>) -> Result<A, Error>>(
        &self,
        alloc: Global,
        work: &mut F,
    ) -> Result<(A, Transaction), Error>
        requires { F.IsAlwaysCallable work.old }
        ensures always { F.IsAlwaysCallable work.new }
        ensures made { IfOk result (λ left.
            IsAttempt (CalledAtMut F.FnMut) self.now work.old left.0 left.1 work.new) }
        ensures refused { IfErr result (λ error.
            IsNoAttempt (CalledAtMut F.FnMut) self.now work.old error work.new) }
    {
        let mut session = self.session(alloc)?;
        match work(&mut session) {
            Ok(answer) => Ok((answer, session.into_transaction())),
            Err(error) => Err(error),
        }
    }

    /// Commits what an attempt left, and answers that with its version. Where another one came
    /// between, or it read too long ago, the work is done anew, up to the limit of `retry`.
    pub fn complete<A: Drop, F: FnMut(&mut Session<'_>) -> Result<A, Error>>(
        &mut self,
        alloc: Global,
        retry: Retry,
        first: (A, Transaction),
        work: &mut F,
    ) -> Result<(A, u64), NotDone>
        requires { F.IsAlwaysCallable work.old }
        ensures completed { IsCompleted (CalledAtMut F.FnMut) retry.limit
            (record { database = self.old; work = work.old; answer = first.0; tx = first.1 })
            result work.new self.new }
        ensures told { IfOk result (λ done. IsCommittedAt done.1 self.new) }
    {
        let (mut answer, mut tx) = first;
        let mut number = 1u64;
        loop {
            let why = match self.commit(tx) {
                Ok(version) => return Ok((answer, version)),
                Err(why) => why,
            };
            match retry.next(ended_uncommitted(&why), number, false) {
                Next::Again => why.forget(),
                _ => return Err(NotDone::NotCommitted(why)),
            }
            number += 1;
            (answer, tx) = match self.attempt(alloc, work) {
                Ok(left) => left,
                Err(error) => return Err(NotDone::Refused(error)),
            };
        }
    }

    /// Does the work in a new session and commits it, and answers what it does with the version.
    /// Nothing comes between, so that one attempt is enough.
    pub fn run<A: Drop, F: FnMut(&mut Session<'_>) -> Result<A, Error>>(
        &mut self,
        alloc: Global,
        work: &mut F,
    ) -> Result<(A, u64), NotDone>
        requires { F.IsAlwaysCallable work.old }
        ensures done { IsRunOnce (CalledAtMut F.FnMut) self.old work.old result work.new self.new }
        ensures told { IfOk result (λ done. IsCommittedAt done.1 self.new) }
    {
        let (answer, tx) = match self.attempt(alloc, work) {
            Ok(left) => left,
            Err(error) => return Err(NotDone::Refused(error)),
        };
        match self.commit(tx) {
            Ok(version) => Ok((answer, version)),
            Err(why) => Err(NotDone::NotCommitted(why)),
        }
    }
}
