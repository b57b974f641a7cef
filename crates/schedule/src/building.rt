// The command that has a builder build a part of an index. Called by `performing`.
ghost use Rattle.std.specs.Prelude.{◌≡◌, IfOk, IfErr};
ghost use Rattle.schedule.specs.declared.step.Command.{Command};
ghost use Rattle.schedule.specs.Calls.{IsCommandRefused};
ghost use Rattle.schedule.specs.Known.{IsKnown, StaysKnown};
ghost use Rattle.schedule.specs.Performed.{IsPerformed};
ghost use Rattle.schedule.specs.Serve.{reply_to_build};

use crate::commands::open;
use crate::known::Known;
use crate::refusal::Refusal;
use crate::reply::Reply;
use online_builder::{Builder, Progress};
use record_store::{StoreError, StoreNumber};
use std::alloc::Global;
use tuple_codec::Text;
use txn::{Snapshot, Transaction};

/// The reply to a step of a builder.
fn build_reply(progress: Progress) -> Reply
    ensures { result ≡ reply_to_build progress }
{
    match progress {
        Progress::Built { records, range } => Reply::Built { records, range },
        Progress::Finished => Reply::Finished,
    }
}

/// Builds a part of the first gap in the write-only index of this name, of at most so many records.
pub(crate) fn build<S: Snapshot>(
    alloc: Global,
    number: StoreNumber,
    tx: &mut Transaction,
    db: &S,
    known: &mut Known,
    name: &Text,
    limit: u32,
) -> Result<Reply, StoreError>
    requires known { IsKnown number (S.map_at db.now) known.old.store tx.old }
    ensures known { StaysKnown number (S.map_at db.now) known.new.store tx.old tx.new }
    ensures performed { IfOk result (λ answer.
        IsPerformed number (S.map_at db.now)
        (λ range. S.may_refuse db.now range tx.old.read_version)
        (Command.Build name.now limit) answer tx.old tx.new) }
    ensures refused { IfErr result (λ error.
        IsCommandRefused number (S.map_at db.now) (S.may_refuse db.now)
        (Command.Build name.now limit) error tx.old tx.new) }
{
    if limit == 0 {
        return Ok(Reply::Refused(Refusal::BadLimit));
    }
    let store = open(alloc, number, tx, db, known)?;
    let builder = Builder::new(name.copy()?, limit);
    let progress = builder.step(&store, tx, db)?;
    Ok(build_reply(progress))
}
