//! Streams joined by their keys.
ghost use Rattle.std.specs.Prelude.{IfErr, IfOk};
ghost use Rattle.plan_exec.specs.Levels.{TakesShared, joined_levels};
ghost use Rattle.plan_exec.specs.Streams.{HasGiven, HasNotGiven};

use crate::error::ExecError;
use crate::keyed::{Keyed, compare_heads};
use crate::level::Level;
use crate::streams::Stream;
use std::cmp::Ordering;
use txn::{Snapshot, Transaction};

// Drops the one with the lower key. Of two with the same key both are taken, and the first one is given.
fn take_shared<T: Keyed + Drop>(head: &mut Option<T>, other: &mut Option<T>) -> Option<T>
    ensures { TakesShared T.key head.old other.old result head.new other.new }
{
    match compare_heads(head, other) {
        Ordering::Less => {
            *head = None;
            None
        }
        Ordering::Equal => {
            let _ = other.take();
            head.take()
        }
        Ordering::Greater => {
            *other = None;
            None
        }
    }
}

/// The next thing of the first level whose key all levels have.
///
/// After an error nothing more is to be asked.
pub(crate) fn next_joined<S: Snapshot, R: Stream>(
    levels: &mut [Level<R>],
    tx: &mut Transaction,
    db: &S,
) -> Result<Option<R::Found>, ExecError>
where
    R::Found: Keyed + Drop,
    ensures given { IfOk result (λ given. HasGiven (S.map_at db.now)
        (joined_levels R.course R.Found.key levels.old) given
        (joined_levels R.course R.Found.key levels.new) tx.old tx.new) }
    ensures stopped { IfErr result (λ error. HasNotGiven (S.map_at db.now) (S.may_refuse db.now)
        (joined_levels R.course R.Found.key levels.old) error tx.old tx.new) }
{
    let Some((level, rest)) = levels.split_first_mut() else {
        return Ok(None);
    };
    if rest.is_empty() {
        return level.next(tx, db);
    }
    'heads: loop {
        level.find_head(tx, db)?;
        if level.other.is_none() {
            level.other = next_joined(rest, tx, db)?;
        }
        if level.head.is_none() && level.other.is_none() {
            return Ok(None);
        }
        if let Some(found) = take_shared(&mut level.head, &mut level.other) {
            return Ok(Some(found));
        }
    }
}
