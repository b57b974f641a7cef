// Definitions of indexes, the requests that ask for them, and their states. Used by most modules
// here, and by the crates above that keep, plan or read indexes.
ghost use Rattle.std.specs.Prelude.{◌≡◌, IfOk};

use crate::definition::{Names, Places};
use std::alloc::AllocError;
use std::marker::Model;
use tuple_codec::Text;

/// What an index keeps.
#[derive(Clone, Copy, Debug, PartialEq, Eq, Drop)]
pub enum IndexKind {
    /// An entry for each record: its columns and its primary key.
    Value,
    /// The number of the records that have the same columns.
    Count,
    /// The sum of a field over the records that have the same columns.
    Sum,
}

/// Whether an index may be read, and whether it is kept.
#[derive(Clone, Copy, Debug, PartialEq, Eq, Drop)]
pub enum State {
    /// It is kept, and queries may read it.
    Readable,
    /// It is being built: writers keep it, and nobody reads it.
    WriteOnly,
    /// It is not kept.
    Disabled,
}

/// The states of a schema's indexes, one for each, in the order of their numbers.
#[derive(Drop)]
pub struct States {
    states: Vec<State>,
}

impl Model for States {
    ghost use Rattle.std.specs.Prelude.{List};
    ghost use Rattle.metadata.specs.declared.index.State.{State};

    ghost Value = { List State };

    ghost view = { λ s. s.states.items };
}

impl States {
    /// The list of these states.
    pub fn new(states: Vec<State>) -> States
        ensures { result ≡ states.items }
    {
        States { states }
    }

    /// The states.
    pub fn as_slice(&self) -> &[State]
        ensures { result.now ≡ self.now }
    {
        self.states.as_slice()
    }

    /// Equal states.
    pub fn copy(&self) -> Result<States, AllocError>
        ensures { IfOk result (λ copy. copy ≡ self.now) }
    {
        let states = self.states.clone()?;
        Ok(States { states })
    }
}

/// An index over a type: its number, which no other index of the store ever has, its name, the
/// number of its type, the places of its columns and, of a SUM, that of the summed field. A COUNT may
/// be cleared at zero: it keeps nothing then for a group without records.
#[derive(Drop)]
pub struct IndexDefinition {
    pub number: u64,
    pub name: Text,
    pub kind: IndexKind,
    pub type_number: u64,
    pub columns: Places,
    pub summed: Option<usize>,
    pub clear_when_zero: bool,
}

impl IndexDefinition {
    /// An equal definition.
    pub fn copy(&self) -> Result<IndexDefinition, AllocError>
        ensures { IfOk result (λ copy. copy ≡ self.now) }
    {
        let name = self.name.copy()?;
        let columns = self.columns.copy()?;
        Ok(IndexDefinition {
            number: self.number,
            name,
            kind: self.kind,
            type_number: self.type_number,
            columns,
            summed: self.summed,
            clear_when_zero: self.clear_when_zero,
        })
    }
}

/// An index as it is asked for: its type, its columns and the summed field by their names. A COUNT
/// alone may be cleared at zero.
#[derive(Drop)]
pub struct IndexRequest {
    pub name: Text,
    pub kind: IndexKind,
    pub type_name: Text,
    pub columns: Names,
    pub summed: Option<Text>,
    pub clear_when_zero: bool,
}

impl IndexRequest {
    /// An equal request.
    pub fn copy(&self) -> Result<IndexRequest, AllocError>
        ensures { IfOk result (λ copy. copy ≡ self.now) }
    {
        let name = self.name.copy()?;
        let type_name = self.type_name.copy()?;
        let columns = self.columns.copy()?;
        let summed = match &self.summed {
            Some(field) => Some(field.copy()?),
            None => None,
        };
        Ok(IndexRequest {
            name,
            kind: self.kind,
            type_name,
            columns,
            summed,
            clear_when_zero: self.clear_when_zero,
        })
    }
}
