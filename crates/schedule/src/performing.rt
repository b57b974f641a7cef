// The dispatch of commands. Called by `clients` and, for transactions on threads, by `runtime`.
ghost use Rattle.std.specs.Prelude.{◌≡◌, None, Some, IfOk, IfErr, OnErr};
ghost use Rattle.schedule.specs.Performed.{IsCommandStopped, IsPerformed};
ghost use Rattle.schedule.specs.Calls.{IsCommandRefused};
ghost use Rattle.schedule.specs.Known.{IsKnown, StaysKnown};
ghost use Rattle.schedule.specs.Refusals.{read_reply, reply_of, write_reply};

use crate::building::build;
use crate::commands::{add_field, add_type, create, load, remove, save};
use crate::executing::{execute, query};
use crate::index_commands::{
    add_index, aggregate, disable_index, drop_index, index_state, mark_readable, mark_write_only,
};
use crate::known::Known;
use crate::planning::plan;
use crate::refusal::Refusal;
use crate::reply::Reply;
use crate::step::Command;
use cluster_core::ReadError;
use kv_core::WriteError;
use record_store::{KnownSchema, StoreError, StoreNumber};
use std::alloc::{AllocError, Global};
use std::mem;
use txn::{Snapshot, Transaction};

/// The reply that a refused read is; want of memory is none.
fn read_reply(error: ReadError) -> Result<Reply, AllocError>
    ensures reply { IfOk result (λ answer. read_reply error ≡ Some answer) }
    ensures none { OnErr result (read_reply error ≡ None) }
{
    match error {
        ReadError::FutureVersion => Ok(Reply::Refused(Refusal::FutureVersion)),
        ReadError::TooOld => Ok(Reply::Refused(Refusal::TooOld)),
        ReadError::Memory => Err(AllocError),
    }
}

/// The reply that a refused write is; want of memory is none.
fn write_reply(error: WriteError) -> Result<Reply, AllocError>
    ensures reply { IfOk result (λ answer. write_reply error ≡ Some answer) }
    ensures none { OnErr result (write_reply error ≡ None) }
{
    match error {
        WriteError::KeyOutside => Ok(Reply::Refused(Refusal::KeyOutside)),
        WriteError::KeyTooLarge => Ok(Reply::Refused(Refusal::KeyTooLarge)),
        WriteError::ValueTooLarge => Ok(Reply::Refused(Refusal::ValueTooLarge)),
        WriteError::TransactionTooLarge => Ok(Reply::Refused(Refusal::TransactionTooLarge)),
        WriteError::Memory => Err(AllocError),
    }
}

/// The reply that an error is; want of memory is none.
fn reply_of(error: StoreError) -> Result<Reply, AllocError>
    ensures reply { IfOk result (λ answer. reply_of error ≡ Some answer) }
    ensures none { OnErr result (reply_of error ≡ None) }
{
    match error {
        StoreError::Memory => Err(AllocError),
        StoreError::Read(error) => read_reply(error),
        StoreError::Write(error) => write_reply(error),
        StoreError::Corrupt(key) => Ok(Reply::Corrupt(key)),
        StoreError::Refused(refusal) => Ok(Reply::Refused(Refusal::from(refusal))),
        StoreError::NoStore => Ok(Reply::Refused(Refusal::NoStore)),
        StoreError::AlreadyThere => Ok(Reply::Refused(Refusal::AlreadyThere)),
        StoreError::OtherSchema => Ok(Reply::Refused(Refusal::OtherSchema)),
        StoreError::NotAggregate => Ok(Reply::Refused(Refusal::NotAggregate)),
        StoreError::NotReadable => Ok(Reply::Refused(Refusal::NotReadable)),
        StoreError::WrongState => Ok(Reply::Refused(Refusal::WrongState)),
        StoreError::NotBuilt => Ok(Reply::Refused(Refusal::NotBuilt)),
    }
}

/// What a command replies, or why it is refused.
fn answer<S: Snapshot>(
    alloc: Global,
    command: &Command,
    number: StoreNumber,
    tx: &mut Transaction,
    db: &S,
    known: &mut Known,
) -> Result<Reply, StoreError>
    requires known { IsKnown number (S.map_at db.now) known.old.store tx.old }
    ensures known { StaysKnown number (S.map_at db.now) known.new.store tx.old tx.new }
    ensures performed { IfOk result (λ answer.
        IsPerformed number (S.map_at db.now)
        (λ range. S.may_refuse db.now range tx.old.read_version) command.now answer
        tx.old tx.new) }
    ensures refused { IfErr result (λ error.
        IsCommandRefused number (S.map_at db.now) (S.may_refuse db.now)
        command.now error tx.old tx.new) }
{
    match command {
        Command::Create(request) => {
            known.store = None;
            create(alloc, number, tx, db, request)
        }
        Command::Type(request) => add_type(alloc, number, tx, db, known, request),
        Command::Field(name, field) => add_field(alloc, number, tx, db, known, name, field),
        Command::Save(type_name, cells) => save(alloc, number, tx, db, known, type_name, cells),
        Command::Load(type_name, cells) => load(alloc, number, tx, db, known, type_name, cells),
        Command::Remove(type_name, cells) => remove(alloc, number, tx, db, known, type_name, cells),
        Command::Query(asked) => query(alloc, number, tx, db, known, asked),
        Command::Plan(asked) => plan(alloc, number, tx, db, known, asked),
        Command::Execute(plan) => execute(alloc, number, tx, db, known, plan),
        Command::Index(request) => add_index(alloc, number, tx, db, known, request),
        Command::Drop(name) => drop_index(alloc, number, tx, db, known, name),
        Command::Disable(name) => disable_index(alloc, number, tx, db, known, name),
        Command::WriteOnly(name) => mark_write_only(alloc, number, tx, db, known, name),
        Command::Readable(name) => mark_readable(alloc, number, tx, db, known, name),
        Command::Build(name, limit) => build(alloc, number, tx, db, known, name, *limit),
        Command::State(name) => index_state(alloc, number, tx, db, known, name),
        Command::Aggregate(name, group) => aggregate(alloc, number, tx, db, known, name, group),
    }
}

/// Performs a command on the store of this number in a transaction, whose reads are answered by the
/// snapshot.
///
/// It adds to the ranges read just those that the command reads, in order. A refusal is a reply: it
/// keeps the ranges that were read, and writes nothing. `Corrupt` has the key of the first pair
/// read that isn't of the written form. The only error is want of memory, which writes nothing
/// either and keeps what was read before it, so that the transaction can go on.
pub fn perform<S: Snapshot>(
    alloc: Global,
    command: &Command,
    number: StoreNumber,
    tx: &mut Transaction,
    db: &S,
) -> Result<Reply, AllocError>
    ensures performed { IfOk result (λ answer.
        IsPerformed number (S.map_at db.now)
        (λ range. S.may_refuse db.now range tx.old.read_version) command.now answer
        tx.old tx.new) }
    ensures stopped { OnErr result (
        IsCommandStopped number (S.map_at db.now) command.now tx.old tx.new) }
{
    let mut known = Known::new();
    perform_open(alloc, command, number, tx, db, &mut known)
}

/// The same, where the schema of the store may be known, which needn't be decoded again. It is
/// known then. What is known of one store does no harm in another, which has its own bytes.
pub fn perform_knowing<S: Snapshot>(
    alloc: Global,
    command: &Command,
    number: StoreNumber,
    tx: &mut Transaction,
    db: &S,
    known: &mut KnownSchema,
) -> Result<Reply, AllocError>
    ensures performed { IfOk result (λ answer.
        IsPerformed number (S.map_at db.now)
        (λ range. S.may_refuse db.now range tx.old.read_version) command.now answer
        tx.old tx.new) }
    ensures stopped { OnErr result (
        IsCommandStopped number (S.map_at db.now) command.now tx.old tx.new) }
{
    let mut own = Known::of(mem::replace(known, KnownSchema::new()));
    let reply = perform_open(alloc, command, number, tx, db, &mut own);
    let Known { schema, store: _ } = own;
    *known = schema;
    reply
}

/// The same, where the store may stand open too, as an earlier command of the transaction left it:
/// then it needn't be opened anew.
///
/// The store that is known is to be the one of this number, and to stand there as the transaction
/// sees it, as it does after a command of this transaction: let it go (`Known::let_go`) before
/// another one begins. After a command that may change the schema or the state of an index no store
/// is known.
pub fn perform_open<S: Snapshot>(
    alloc: Global,
    command: &Command,
    number: StoreNumber,
    tx: &mut Transaction,
    db: &S,
    known: &mut Known,
) -> Result<Reply, AllocError>
    requires known { IsKnown number (S.map_at db.now) known.old.store tx.old }
    ensures known { StaysKnown number (S.map_at db.now) known.new.store tx.old tx.new }
    ensures performed { IfOk result (λ answer.
        IsPerformed number (S.map_at db.now)
        (λ range. S.may_refuse db.now range tx.old.read_version) command.now answer
        tx.old tx.new) }
    ensures stopped { OnErr result (
        IsCommandStopped number (S.map_at db.now) command.now tx.old tx.new) }
{
    match answer(alloc, command, number, tx, db, known) {
        Ok(reply) => Ok(reply),
        Err(error) => reply_of(error),
    }
}
