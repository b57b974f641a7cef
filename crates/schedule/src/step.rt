// The instructions of a schedule: commands and steps. Read from JSON by `script`; commands are also
// made by `runtime`, `race` and applications. Performed by the other modules here.
ghost use Rattle.std.specs.Prelude.{◌≡◌, IfOk};

use crate::asked_query::AskedQuery;
use crate::shared_plan::SharedPlan;
use metadata::{Cells, Field, IndexRequest, SchemaRequest, TypeRequest};
use std::alloc::AllocError;
use tuple_codec::Text;

/// The number of clients of a schedule.
pub const CLIENTS: usize = 16;

/// A command on the store, in a transaction.
pub enum Command {
    /// Makes the store, with these types and indexes.
    Create(SchemaRequest),
    /// Adds this type to the store.
    Type(TypeRequest),
    /// Append a field to the type of this name.
    Field(Text, Field),
    /// Puts the record of this type with these cells in the place of the one with its primary key.
    Save(Text, Cells),
    /// Asks for the record of this type with these key cells.
    Load(Text, Cells),
    /// Takes out the record of this type with these key cells.
    Remove(Text, Cells),
    /// Asks for the answer to a query.
    Query(AskedQuery),
    /// Asks for the plan of a query.
    Plan(AskedQuery),
    /// Asks for the rows of a plan, whenever that plan was made.
    Execute(SharedPlan),
    /// Adds this index to the store.
    Index(IndexRequest),
    /// Drops the index of this name.
    Drop(Text),
    /// Disables the index of this name.
    Disable(Text),
    /// Marks the index of this name write-only, without a built position.
    WriteOnly(Text),
    /// Marks the write-only index of this name readable, once every position of it is built.
    Readable(Text),
    /// Builds a part of the first gap in the write-only index of this name, of at most so many
    /// records, one at least.
    Build(Text, u32),
    /// Asks for the state of the index of this name.
    State(Text),
    /// Asks for the total of the group of these cells, of the COUNT or SUM index of this name.
    Aggregate(Text, Cells),
}

// Written out, so that no proof of a caller has to tell the cases apart where one is dropped.
impl Drop for Command {
    fn drop(self) {
        match self {
            Command::Create(request) => drop(request),
            Command::Type(request) => drop(request),
            Command::Field(name, field) => {
                drop(name);
                drop(field);
            }
            Command::Save(name, cells) => {
                drop(name);
                drop(cells);
            }
            Command::Load(name, cells) => {
                drop(name);
                drop(cells);
            }
            Command::Remove(name, cells) => {
                drop(name);
                drop(cells);
            }
            Command::Query(query) => drop(query),
            Command::Plan(query) => drop(query),
            Command::Execute(plan) => drop(plan),
            Command::Index(request) => drop(request),
            Command::Drop(name) => drop(name),
            Command::Disable(name) => drop(name),
            Command::WriteOnly(name) => drop(name),
            Command::Readable(name) => drop(name),
            Command::Build(name, _) => drop(name),
            Command::State(name) => drop(name),
            Command::Aggregate(name, cells) => {
                drop(name);
                drop(cells);
            }
        }
    }
}

impl Command {
    /// An equal command.
    pub fn copy(&self) -> Result<Command, AllocError>
        ensures { IfOk result (λ copy. copy ≡ self.now) }
    {
        match self {
            Command::Create(request) => Ok(Command::Create(request.copy()?)),
            Command::Type(request) => Ok(Command::Type(request.copy()?)),
            Command::Field(type_name, field) => Ok(Command::Field(
                type_name.copy()?,
                field.copy()?,
            )),
            Command::Save(name, cells) => Ok(Command::Save(name.copy()?, cells.copy()?)),
            Command::Load(name, cells) => Ok(Command::Load(name.copy()?, cells.copy()?)),
            Command::Remove(name, cells) => Ok(Command::Remove(name.copy()?, cells.copy()?)),
            Command::Query(query) => Ok(Command::Query(query.copy()?)),
            Command::Plan(query) => Ok(Command::Plan(query.copy()?)),
            Command::Execute(plan) => Ok(Command::Execute(plan.copy()?)),
            Command::Index(request) => Ok(Command::Index(request.copy()?)),
            Command::Drop(name) => Ok(Command::Drop(name.copy()?)),
            Command::Disable(name) => Ok(Command::Disable(name.copy()?)),
            Command::WriteOnly(name) => Ok(Command::WriteOnly(name.copy()?)),
            Command::Readable(name) => Ok(Command::Readable(name.copy()?)),
            Command::Build(name, limit) => Ok(Command::Build(name.copy()?, *limit)),
            Command::State(name) => Ok(Command::State(name.copy()?)),
            Command::Aggregate(name, group) => Ok(Command::Aggregate(name.copy()?, group.copy()?)),
        }
    }
}

/// A step of a schedule: of a client, of which there are `CLIENTS`, or of a role of the database.
#[derive(Drop)]
pub enum Step {
    /// A client begins a transaction in the store of this number, which reads at the last reported
    /// version.
    Begin(u64, u64),
    /// A client performs a command in its open transaction.
    Perform(u64, Command),
    /// A client executes the plan that it keeps, that of its last accepted `Command::Plan`, in its
    /// open transaction.
    Execute(u64),
    /// A client submits its open transaction, which ends.
    Commit(u64),
    /// A client ends its open transaction, whose changes are dropped.
    Abandon(u64),
    /// A resolver answers for the next version.
    Resolve(u64),
    /// A log appends the next version.
    Log(u64),
    /// A storage server pulls the next version from its log.
    Pull(u64),
    /// The next version is reported to its client.
    Report,
    /// The next version is reported, and the report is lost.
    Lost,
    /// All roles do what there is to do, and every version is reported.
    Settle,
}
