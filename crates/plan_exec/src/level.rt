//! A stream among others, of which the next thing may be known already. Used by `joined`,
//! `fetch_streams` and `opening`.
ghost use Rattle.std.specs.Prelude.{IfErr, IfOk, OnOk, ◌≡◌};
ghost use Rattle.plan_exec.specs.Levels.{head_then};
ghost use Rattle.plan_exec.specs.Streams.{HasGiven, HasNotGiven};

use crate::error::ExecError;
use crate::streams::Stream;
use txn::{Snapshot, Transaction};

/// A stream before the levels after it, with the next thing of the stream and that of those levels,
/// where they are known.
#[derive(Drop)]
pub(crate) struct Level<R: Stream> {
    pub(crate) stream: R,
    pub(crate) head: Option<R::Found>,
    pub(crate) other: Option<R::Found>,
}

impl<R: Stream> Level<R> {
    /// A level of which nothing is known.
    pub(crate) fn new(stream: R) -> Level<R>
        ensures { result ≡ record { stream = stream; head = None; other = None } }
    {
        Level {
            stream,
            head: None,
            other: None,
        }
    }

    /// Goes on to the stream's next thing, unless it is known.
    pub(crate) fn find_head<S: Snapshot>(
        &mut self,
        tx: &mut Transaction,
        db: &S,
    ) -> Result<(), ExecError>
        ensures other { OnOk result (self.new.other ≡ self.old.other) }
        ensures given { OnOk result (HasGiven (S.map_at db.now)
            (λ pairs. head_then self.old.head (R.course self.old.stream pairs)) self.new.head
            (R.course self.new.stream) tx.old tx.new) }
        ensures stopped { IfErr result (λ error. HasNotGiven (S.map_at db.now) (S.may_refuse db.now)
            (λ pairs. head_then self.old.head (R.course self.old.stream pairs)) error tx.old
            tx.new) }
    {
        if self.head.is_none() {
            self.head = self.stream.next(tx, db)?;
        }
        Ok(())
    }

    /// The stream's next thing, which is no longer known then.
    pub(crate) fn next<S: Snapshot>(
        &mut self,
        tx: &mut Transaction,
        db: &S,
    ) -> Result<Option<R::Found>, ExecError>
        ensures given { IfOk result (λ given. HasGiven (S.map_at db.now)
            (λ pairs. head_then self.old.head (R.course self.old.stream pairs)) given
            (λ pairs. head_then self.new.head (R.course self.new.stream pairs)) tx.old tx.new) }
        ensures stopped { IfErr result (λ error. HasNotGiven (S.map_at db.now) (S.may_refuse db.now)
            (λ pairs. head_then self.old.head (R.course self.old.stream pairs)) error tx.old
            tx.new) }
    {
        self.find_head(tx, db)?;
        Ok(self.head.take())
    }
}
