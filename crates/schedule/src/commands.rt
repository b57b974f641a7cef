// The commands on types and records, and the opening of the store. Called by `performing`; the
// opening also by the modules of the other commands.
ghost use Rattle.std.specs.Prelude.{◌≡◌, None, IfOk, IfErr, OnOk};
ghost use Rattle.std.specs.Option.{option_map_or};
ghost use Rattle.record_store.specs.Layout.{store_prefix};
ghost use Rattle.record_store.specs.Opening.{AreAllowed, IsOpened, IsUnopened, StandsThere};
ghost use Rattle.record_store.specs.Opening.{opening_reach};
ghost use Rattle.schedule.specs.declared.reply.Reply.TheVariants.{Absent, Found};
ghost use Rattle.schedule.specs.declared.step.Command.{Command};
ghost use Rattle.schedule.specs.Serve.{reply_to_remove, reply_to_save};
ghost use Rattle.schedule.specs.Performed.{IsPerformed};
ghost use Rattle.schedule.specs.Calls.{IsCommandRefused};
ghost use Rattle.schedule.specs.Known.{IsKnown, SeesSerial, StaysKnown};

use crate::known::Known;
use crate::reply::Reply;
use metadata::{Cells, Field, Record, Schema, SchemaRequest, TypeRequest};
use record_store::{Store, StoreError, StoreNumber};
use std::alloc::Global;
use tuple_codec::Text;
use txn::{Snapshot, Transaction};

/// Opens the store of this number: that which is known is opened again, and given away.
pub(crate) fn open<S: Snapshot>(
    alloc: Global,
    number: StoreNumber,
    tx: &mut Transaction,
    db: &S,
    known: &mut Known,
) -> Result<Store, StoreError>
    requires known { IsKnown number (S.map_at db.now) known.old.store tx.old }
    ensures taken { known.new.store ≡ None }
    ensures opened { IfOk result (λ store. IsOpened (S.map_at db.now) store tx.old tx.new) }
    ensures prefix { IfOk result (λ store. store.prefix ≡ store_prefix number) }
    ensures there { IfOk result (λ store.
        SeesSerial number (S.map_at db.now) tx.old → StandsThere (S.map_at db.now) store tx.new) }
    ensures allowed { OnOk result
        (AreAllowed (S.must_refuse db.now)
        (opening_reach (store_prefix number)) tx.new.read_version) }
    ensures refused { IfErr result (λ error.
        IsUnopened (S.map_at db.now) (S.may_refuse db.now) (store_prefix number) error tx.old tx.new) }
{
    if let Some(store) = known.store.take() {
        store.reopen(tx, db)?;
        return Ok(store);
    }
    let prefix = number.prefix(alloc)?;
    Store::open_knowing(alloc, &prefix, tx, db, &mut known.schema)
}

/// Makes the store of this number, of these types and indexes, where there is none.
pub(crate) fn create<S: Snapshot>(
    alloc: Global,
    number: StoreNumber,
    tx: &mut Transaction,
    db: &S,
    request: &SchemaRequest,
) -> Result<Reply, StoreError>
    ensures performed { IfOk result (λ answer.
        IsPerformed number (S.map_at db.now)
        (λ range. S.may_refuse db.now range tx.old.read_version)
        (Command.Create request.now) answer tx.old tx.new) }
    ensures refused { IfErr result (λ error.
        IsCommandRefused number (S.map_at db.now) (S.may_refuse db.now)
        (Command.Create request.now) error tx.old tx.new) }
{
    let schema = Schema::of_request(alloc, request)?;
    let prefix = number.prefix(alloc)?;
    let _store = Store::create(alloc, &prefix, tx, db, &schema)?;
    Ok(Reply::Done)
}

/// Adds a type to the store.
pub(crate) fn add_type<S: Snapshot>(
    alloc: Global,
    number: StoreNumber,
    tx: &mut Transaction,
    db: &S,
    known: &mut Known,
    request: &TypeRequest,
) -> Result<Reply, StoreError>
    requires known { IsKnown number (S.map_at db.now) known.old.store tx.old }
    ensures known { StaysKnown number (S.map_at db.now) known.new.store tx.old tx.new }
    ensures performed { IfOk result (λ answer.
        IsPerformed number (S.map_at db.now)
        (λ range. S.may_refuse db.now range tx.old.read_version)
        (Command.«Type» request.now) answer tx.old tx.new) }
    ensures refused { IfErr result (λ error.
        IsCommandRefused number (S.map_at db.now) (S.may_refuse db.now)
        (Command.«Type» request.now) error tx.old tx.new) }
{
    let mut store = open(alloc, number, tx, db, known)?;
    store.add_type(tx, request)?;
    Ok(Reply::Done)
}

/// Appends a field to the type of this name.
pub(crate) fn add_field<S: Snapshot>(
    alloc: Global,
    number: StoreNumber,
    tx: &mut Transaction,
    db: &S,
    known: &mut Known,
    type_name: &Text,
    field: &Field,
) -> Result<Reply, StoreError>
    requires known { IsKnown number (S.map_at db.now) known.old.store tx.old }
    ensures known { StaysKnown number (S.map_at db.now) known.new.store tx.old tx.new }
    ensures performed { IfOk result (λ answer.
        IsPerformed number (S.map_at db.now)
        (λ range. S.may_refuse db.now range tx.old.read_version)
        (Command.Field type_name.now field.now) answer tx.old tx.new) }
    ensures refused { IfErr result (λ error.
        IsCommandRefused number (S.map_at db.now) (S.may_refuse db.now)
        (Command.Field type_name.now field.now) error tx.old tx.new) }
{
    let mut store = open(alloc, number, tx, db, known)?;
    store.add_field(tx, type_name, field)?;
    Ok(Reply::Done)
}

/// The reply to a save, by the record that was there.
fn saved_reply(old: Option<Record>) -> Reply
    ensures { result ≡ reply_to_save old }
{
    match old {
        Some(old) => Reply::SavedOver(old.into_cells()),
        None => Reply::SavedNew,
    }
}

/// Puts the record of the type of this name with these cells in the place of the one with its primary key.
pub(crate) fn save<S: Snapshot>(
    alloc: Global,
    number: StoreNumber,
    tx: &mut Transaction,
    db: &S,
    known: &mut Known,
    type_name: &Text,
    cells: &Cells,
) -> Result<Reply, StoreError>
    requires known { IsKnown number (S.map_at db.now) known.old.store tx.old }
    ensures known { StaysKnown number (S.map_at db.now) known.new.store tx.old tx.new }
    ensures performed { IfOk result (λ answer.
        IsPerformed number (S.map_at db.now)
        (λ range. S.may_refuse db.now range tx.old.read_version)
        (Command.Save type_name.now cells.now) answer tx.old tx.new) }
    ensures refused { IfErr result (λ error.
        IsCommandRefused number (S.map_at db.now) (S.may_refuse db.now)
        (Command.Save type_name.now cells.now) error tx.old tx.new) }
{
    let store = open(alloc, number, tx, db, known)?;
    let old = store.save_as(tx, db, type_name, cells)?;
    known.store = Some(store);
    Ok(saved_reply(old))
}

/// The reply to a load, by the cells of the record that was found.
fn loaded_reply(found: Option<Cells>) -> Reply
    ensures { result ≡ option_map_or Found found Absent }
{
    match found {
        Some(cells) => Reply::Found(cells),
        None => Reply::Absent,
    }
}

/// Asks for the record of the type of this name with these key cells.
pub(crate) fn load<S: Snapshot>(
    alloc: Global,
    number: StoreNumber,
    tx: &mut Transaction,
    db: &S,
    known: &mut Known,
    type_name: &Text,
    cells: &Cells,
) -> Result<Reply, StoreError>
    requires known { IsKnown number (S.map_at db.now) known.old.store tx.old }
    ensures known { StaysKnown number (S.map_at db.now) known.new.store tx.old tx.new }
    ensures performed { IfOk result (λ answer.
        IsPerformed number (S.map_at db.now)
        (λ range. S.may_refuse db.now range tx.old.read_version)
        (Command.Load type_name.now cells.now) answer tx.old tx.new) }
    ensures refused { IfErr result (λ error.
        IsCommandRefused number (S.map_at db.now) (S.may_refuse db.now)
        (Command.Load type_name.now cells.now) error tx.old tx.new) }
{
    let store = open(alloc, number, tx, db, known)?;
    let found = store.load_cells(tx, db, type_name, cells)?;
    known.store = Some(store);
    Ok(loaded_reply(found))
}

/// The reply to a removal, by whether there was a record.
fn removed_reply(was_there: bool) -> Reply
    ensures { result ≡ reply_to_remove was_there }
{
    if was_there {
        Reply::Removed
    } else {
        Reply::Absent
    }
}

/// Takes out the record of the type of this name with these key cells.
pub(crate) fn remove<S: Snapshot>(
    alloc: Global,
    number: StoreNumber,
    tx: &mut Transaction,
    db: &S,
    known: &mut Known,
    type_name: &Text,
    cells: &Cells,
) -> Result<Reply, StoreError>
    requires known { IsKnown number (S.map_at db.now) known.old.store tx.old }
    ensures known { StaysKnown number (S.map_at db.now) known.new.store tx.old tx.new }
    ensures performed { IfOk result (λ answer.
        IsPerformed number (S.map_at db.now)
        (λ range. S.may_refuse db.now range tx.old.read_version)
        (Command.Remove type_name.now cells.now) answer tx.old tx.new) }
    ensures refused { IfErr result (λ error.
        IsCommandRefused number (S.map_at db.now) (S.may_refuse db.now)
        (Command.Remove type_name.now cells.now) error tx.old tx.new) }
{
    let store = open(alloc, number, tx, db, known)?;
    let was_there = store.remove(tx, db, type_name, cells)?;
    known.store = Some(store);
    Ok(removed_reply(was_there))
}
