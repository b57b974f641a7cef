// What is given one by one while it is read. Used by most modules here.
ghost use Rattle.std.specs.Prelude.{◌≡◌, ◌<◌, List, IfErr, IfOk, IfSome, length};
ghost use Rattle.metadata.specs.Layout.{Pair as PairValue};
ghost use Rattle.plan_exec.specs.Course.{range_course};
ghost use Rattle.plan_exec.specs.Streams.{HasGiven, HasNotGiven, pair_at, pair_course};

use crate::error::ExecError;
use kv_core::{KeyRange, Pair};
use std::alloc::Global;
use txn::{RangeCursor, Snapshot, Transaction};

/// What is given one by one, and read as far as that needs.
pub(crate) trait Stream {
    ghost use Rattle.std.specs.Prelude.{List, IfOk, IfErr};
    ghost use Rattle.metadata.specs.Layout.{Pair as PairValue};
    ghost use Rattle.plan_exec.specs.Course.{Course};
    ghost use Rattle.plan_exec.specs.Streams.{HasGiven, HasNotGiven};

    /// What is given.
    type Found: Drop;

    /// What is still to be read and given, where a map has these pairs.
    ghost course: { Self → List PairValue → Course Self.Found };

    /// The next one, or None where there are no more. After an error nothing more is to be asked.
    fn next<S: Snapshot>(
        &mut self,
        tx: &mut Transaction,
        db: &S,
    ) -> Result<Option<Self::Found>, ExecError>
        ensures given { IfOk result (λ given.
            HasGiven (S.map_at db.now) (course self.old) given (course self.new) tx.old tx.new) }
        ensures stopped { IfErr result (λ error.
            HasNotGiven (S.map_at db.now) (S.may_refuse db.now) (course self.old) error tx.old
            tx.new) };
}

/// The pairs of a range, which is read in batches: its cursor, a batch, and the place of the next
/// pair in it.
#[derive(Drop)]
pub(crate) struct PairStream {
    pub(crate) cursor: RangeCursor,
    pub(crate) batch: Vec<Pair>,
    pub(crate) place: usize,
}

impl PairStream {
    /// The pairs of a range, of which none is read yet.
    pub(crate) fn new(alloc: Global, range: KeyRange, reversed: bool) -> PairStream
        ensures { (pairs : List PairValue) →
            pair_course result pairs ≡ range_course reversed range pairs }
    {
        PairStream {
            cursor: RangeCursor::new(range, reversed),
            batch: Vec::new(alloc),
            place: 0,
        }
    }

    /// The place in the batch of the next pair, or None where there are no more. A batch is read
    /// where all pairs of the one before it were given. After an error nothing more is to be asked.
    #[inline(always)]
    pub(crate) fn next_place<S: Snapshot>(
        &mut self,
        tx: &mut Transaction,
        db: &S,
    ) -> Result<Option<usize>, ExecError>
        ensures there { IfOk result (λ place.
            IfSome place (λ there. there < length self.new.batch.items)) }
        ensures given { IfOk result (λ place. HasGiven (S.map_at db.now) (pair_course self.old)
            (pair_at self.new place) (pair_course self.new) tx.old tx.new) }
        ensures stopped { IfErr result (λ error. HasNotGiven (S.map_at db.now) (S.may_refuse db.now)
            (pair_course self.old) error tx.old tx.new) }
    {
        while self.batch.len() <= self.place {
            match self.cursor.next(tx, db)? {
                Some(batch) => {
                    self.batch = batch;
                    self.place = 0;
                }
                None => return Ok(None),
            }
        }
        let place = self.place;
        self.place = place + 1;
        Ok(Some(place))
    }
}
