// A map and a transaction over it, in which commands are performed and a store is used. Called by
// `stores`, `joining` and `queries`.
use json_forms::rows_text;
use kv_core::{Bytes, CommitRequest, KvMap, WriteError};
use metadata::{Cells, Record, Schema};
use packed_rows::Rows;
use record_store::{Records as Found, Store, StoreError, StoreNumber};
use schedule::{Command, Reply, Step as Scripted, perform};
use script::{make_line, script_of};
use std::alloc::Global;
use std::mem;
use std::test::Fail;
use test_parts::{
    are_mutations, bytes_of, cells_asked, pair_of, same, schema_asked, tells, text_of,
};
use tuple_codec::Text;
use txn::{Snapshot, Transaction};

/// What is done with a map and a transaction over it: a row has two texts and what is told.
#[derive(Clone, Copy)]
pub(crate) enum Step {
    /// Empties the map, and begins with the prefix of the store of commands.
    New,
    /// Begins a transaction with the store under a prefix.
    At,
    /// Puts a pair into the map, or sets it in the transaction.
    Pair,
    Set,
    /// Performs the command of a script's step, and prints its reply.
    Perform,
    /// Makes the store of the type t under the prefix, or saves there the record of these cells of the type t of a
    /// schema, or tells the records there.
    Create,
    Save,
    Records,
    /// Ends the transaction, and tells what it wrote, or how many mutations and ranges that were read it has.
    Written,
    Counts,
}

use Step::{At, Counts, Create, New, Pair, Perform, Records, Save, Set, Written};

pub(crate) type Row = (Step, &'static str, &'static str, &'static str);

/// Makes the store of that schema.
pub(crate) const CREATE: &str = r#"["create",0,{"types":[
    {"name":"t","fields":[["k","int"],["a","int"],["b","int"]],"key":["k"]}
]}]"#;

/// The schema of the type t of whole numbers k, a and b, whose key is k.
pub(crate) const REQUEST: &str =
    r#"{"types":[{"name":"t","fields":[["k","int"],["a","int"],["b","int"]],"key":["k"]}]}"#;

/// A map, and a transaction over it in which the store under a prefix is used.
#[derive(Drop)]
pub(crate) struct Scene {
    alloc: Global,
    db: KvMap,
    tx: Transaction,
    prefix: Bytes,
}

/// The line of a reply.
fn told_line(alloc: Global, reply: &Reply) -> Result<String, Fail> {
    let mut line = String::new(alloc);
    make_line(alloc, &mut line, 1, reply)?;
    Ok(line)
}

/// Performs a command, and makes the line of its reply.
pub(crate) fn line_of<S: Snapshot>(
    alloc: Global,
    db: &S,
    tx: &mut Transaction,
    command: &Command,
) -> Result<String, Fail> {
    let reply = perform(alloc, command, StoreNumber::first(), tx, db)?;
    told_line(alloc, &reply)
}

/// The line tells this.
pub(crate) fn is_told(alloc: Global, line: &str, told: &str) -> Result<(), Fail> {
    let wanted = format!(in alloc; "1 {told}\n")?;
    same(line, wanted.as_str())
}

fn last_step(alloc: Global, script: &str) -> Result<Option<Scripted>, Fail> {
    let mut script = script_of(alloc, script.as_bytes())?;
    Ok(script.steps.pop())
}

/// The command of a script's step.
pub(crate) fn command_of(alloc: Global, step: &str) -> Result<Command, Fail> {
    let text = format!(in alloc; "{{\"steps\":[{step}]}}")?;
    match last_step(alloc, text.as_str())? {
        Some(Scripted::Perform(_, command)) => Ok(command),
        _ => Err(Fail::from("no command")),
    }
}

fn performed(scene: &mut Scene, step: &str) -> Result<String, Fail> {
    let command = command_of(scene.alloc, step)?;
    line_of(scene.alloc, &scene.db, &mut scene.tx, &command)
}

fn print(scene: &mut Scene, step: &str, told: &str) -> Result<(), Fail> {
    let line = performed(scene, step)?;
    is_told(scene.alloc, line.as_str(), told)
}

impl Scene {
    fn opened(&mut self) -> Result<Store, StoreError> {
        if !self.prefix.is_key() {
            return Err(StoreError::Write(WriteError::KeyOutside));
        }
        Store::open(self.alloc, self.prefix.as_slice(), &mut self.tx, &self.db)
    }

    fn saved(&mut self, new: &Record) -> Result<Option<Record>, StoreError> {
        let store = self.opened()?;
        store.save(&mut self.tx, &self.db, new)
    }

    /// Saves a record, where there is none.
    fn save(&mut self, new: &Record, told: &str) -> Result<(), Fail> {
        match self.saved(new) {
            Ok(None) => same("none", told),
            Err(StoreError::OtherSchema) => same("OtherSchema", told),
            _ => Err(Fail::from("another answer")),
        }
    }

    fn made(&mut self, schema: &Schema) -> Result<Store, StoreError> {
        if !self.prefix.is_key() {
            return Err(StoreError::Write(WriteError::KeyOutside));
        }
        let prefix = self.prefix.as_slice();
        Store::create(self.alloc, prefix, &mut self.tx, &self.db, schema)
    }

    /// Makes a store of the type t, which has no index.
    fn create(&mut self, told: &str) -> Result<(), Fail> {
        let schema = schema_asked(self.alloc, REQUEST)?;
        let _store = self.made(&schema)?;
        same("done", told)
    }

    fn listed(&mut self, name: &Text) -> Result<Found, StoreError> {
        let store = self.opened()?;
        store.records(&mut self.tx, &self.db, name)
    }

    /// The records of the type t have these cells.
    fn records(&mut self, told: &str) -> Result<(), Fail> {
        let name = text_of(self.alloc, "t")?;
        let records = self.listed(&name)?;
        have_cells(self.alloc, records, told)
    }

    fn begin(&mut self, prefix: &str) -> Result<(), Fail> {
        self.prefix = bytes_of(self.alloc, prefix)?;
        self.tx = Transaction::begin(self.alloc, 0);
        Ok(())
    }

    /// Puts a pair into the map, or sets it in the transaction.
    fn put(&mut self, step: Step, pair: &str) -> Result<(), Fail> {
        let (key, value) = pair_of(self.alloc, pair)?;
        match step {
            Pair => Ok(self.db.insert(key, value)?),
            _ => Ok(self.tx.set(key, value)?),
        }
    }

    /// Ends the transaction.
    fn end(&mut self) -> CommitRequest {
        mem::replace(&mut self.tx, Transaction::begin(self.alloc, 0)).into_request()
    }
}

/// The cells of records have this text.
fn have_cells(alloc: Global, records: Found, told: &str) -> Result<(), Fail> {
    let mut rows = Vec::new(alloc);
    for found in records.into_vec() {
        rows.push(found.into_cells())?;
    }
    have_text(alloc, rows.as_slice(), told)
}

/// Rows have this text.
pub(crate) fn have_text(alloc: Global, rows: &[Cells], told: &str) -> Result<(), Fail> {
    let mut packed = Rows::new(alloc);
    for cells in rows {
        packed.push(cells)?;
    }
    let found = rows_text(alloc, &packed)?;
    same(found.as_str(), told)
}

fn record_of(alloc: Global, schema: &Schema, cells: &str) -> Result<Record, Fail> {
    let name = text_of(alloc, "t")?;
    Ok(Record::new(alloc, schema, &name, cells_asked(alloc, cells)?)?)
}

fn record_asked(alloc: Global, request: &str, cells: &str) -> Result<Record, Fail> {
    let schema = schema_asked(alloc, request)?;
    record_of(alloc, &schema, cells)
}

fn save(scene: &mut Scene, request: &str, cells: &str, told: &str) -> Result<(), Fail> {
    let record = record_asked(scene.alloc, request, cells)?;
    scene.save(&record, told)
}

fn renew(alloc: Global, scene: &mut Scene) -> Result<(), Fail> {
    *scene = begun(alloc)?;
    Ok(())
}

fn counted(alloc: Global, request: &CommitRequest, told: &str) -> Result<(), Fail> {
    let mutations = request.mutations.as_slice().len();
    tells(alloc, &(mutations, request.reads.as_slice().len()), told)
}

pub(crate) fn take(alloc: Global, scene: &mut Scene, row: &Row) -> Result<(), Fail> {
    let (step, first, second, told) = row;
    match step {
        New => renew(alloc, scene),
        At => scene.begin(first),
        Pair | Set => scene.put(*step, first),
        Perform => print(scene, first, told),
        Create => scene.create(told),
        Save => save(scene, first, second, told),
        Records => scene.records(told),
        Written => are_mutations(alloc, scene.end().mutations.as_slice(), told),
        Counts => counted(alloc, &scene.end(), told),
    }
}

pub(crate) fn begun(alloc: Global) -> Result<Scene, Fail> {
    Ok(Scene {
        alloc,
        db: KvMap::new(alloc),
        tx: Transaction::begin(alloc, 0),
        prefix: bytes_of(alloc, "1501")?,
    })
}
