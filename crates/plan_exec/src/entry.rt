// Entries of indexes, and their form. Used by `entries`, `readers`, `keys`, `keyed` and the streams
// of entries.
ghost use Rattle.std.specs.Prelude.{◌≡◌, All};
ghost use Rattle.tuple_codec.specs.Spelling.{spelling};
ghost use Rattle.metadata.specs.Cell.{IsCell, items_of};
ghost use Rattle.plan_exec.specs.Entry.{IsEntryAt, entry_with};

use kv_core::Bytes;
use metadata::Kind;
use std::marker::Model;

/// An entry of an index, as it is found: its key, whose end is the pack of the primary key in it.
#[derive(Drop)]
pub(crate) struct Entry {
    key: Bytes,
    // Where that pack begins.
    at: usize,
}

impl Model for Entry {
    ghost use Rattle.plan_exec.specs.Entry.{Entry as EntryValue, IsEntryAt, entry_with};

    ghost Value = { EntryValue };

    ghost view = { λ e. entry_with e.key e.at };

    ghost invariant = { λ e. IsEntryAt e.key e.at };
}

impl Entry {
    /// The entry with this key, in which the pack of the primary key begins there.
    #[inline(always)]
    pub(crate) fn new(key: Bytes, at: usize) -> Entry
        requires { IsEntryAt key at }
        ensures { result ≡ entry_with key at }
    {
        Entry { key, at }
    }

    /// Its key.
    pub(crate) fn key(&self) -> &Bytes
        ensures { result.now ≡ self.now.key }
    {
        &self.key
    }

    /// The pack of the primary key.
    #[inline(always)]
    pub(crate) fn primary_key(&self) -> &[u8]
        ensures packed { result.now ≡ spelling (items_of self.now.primary_key) }
        ensures cells { All IsCell self.now.primary_key }
    {
        &self.key.as_slice()[self.at..]
    }
}

/// What the keys of an index's entries begin with, and the kinds of their columns and of the key
/// fields after them.
#[derive(Drop)]
pub(crate) struct EntryForm {
    pub(crate) front: Vec<u8>,
    pub(crate) columns: Vec<Kind>,
    pub(crate) key: Vec<Kind>,
}
