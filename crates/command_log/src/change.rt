// Commands that may change something. Made by who writes the log, and read of its entries.
ghost use Rattle.std.specs.Prelude.{◌≡◌};

use metadata::{Cells, Field, IndexRequest, SchemaRequest, TypeRequest};
use std::marker::Model;
use tuple_codec::Text;

/// A command that may change something.
#[derive(Drop)]
pub enum Change {
    /// Makes the store, with these types and indexes.
    Create(SchemaRequest),
    /// Adds this type to the store.
    Type(TypeRequest),
    /// Appends a field to the type of this name.
    Field(Text, Field),
    /// Adds this index to the store.
    Index(IndexRequest),
    /// Puts the record of this type with these cells in the place of the one with its primary key.
    Save(Text, Cells),
    /// Takes out the record of this type with these key cells.
    Remove(Text, Cells),
    /// Drops the index of this name.
    Drop(Text),
    /// Disables the index of this name.
    Disable(Text),
    /// Marks the index of this name write-only, without a built position.
    WriteOnly(Text),
    /// Marks the write-only index of this name readable.
    Readable(Text),
    /// Builds a part of the first gap in the write-only index of this name, of at most so many
    /// records.
    Build(Text, u32),
}

/// Changes, in the order in which they were made.
#[derive(Drop)]
pub struct Changes {
    changes: Vec<Change>,
}

impl Model for Changes {
    ghost use Rattle.std.specs.Prelude.{List};
    ghost use Rattle.command_log.specs.declared.change.Change.{Change};
    ghost use Rattle.command_log.specs.contracts.change.Change as one;
    ghost use Rattle.std.specs.Coded.{codes};

    ghost Value = { List Change };

    ghost coded = { Prim.hlevel (codes, one.the_row.coded) };

    ghost view = { λ c. c.changes.items };
}

impl Changes {
    /// The list of these changes.
    pub fn new(changes: Vec<Change>) -> Changes
        ensures { result ≡ changes.items }
    {
        Changes { changes }
    }

    /// The changes.
    pub fn as_slice(&self) -> &[Change]
        ensures { result.now ≡ self.now }
    {
        self.changes.as_slice()
    }

    /// The changes, handed back.
    pub fn into_vec(self) -> Vec<Change>
        ensures { result.items ≡ self }
    {
        self.changes
    }
}
