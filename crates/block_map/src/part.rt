// A part of a block's entries, which goes from either end. Used by `block` and `range`.
ghost use Rattle.std.specs.Prelude.{◌≡◌, [], length, zip};
ghost use Rattle.std.specs.Map.Iter.{TakesFirst, TakesLast, deref_pair};

use kv_core::Bytes;
use std::marker::Model;

/// Neighbouring entries that are left to go over.
#[derive(Drop)]
pub(crate) struct Part<'a, V> {
    keys: &'a [Bytes],
    values: &'a [V],
}

impl<'a, V> Model for Part<'a, V> {
    ghost use Rattle.std.specs.Prelude.{◌≡◌, List, ℕ, length, zip};

    ghost Value = { List (List ℕ × V) };

    ghost view = { λ a. zip a.keys.now a.values.now };

    ghost invariant = { λ a. length a.values.now ≡ length a.keys.now };
}

impl<'a, V> Part<'a, V> {
    /// No entries.
    pub fn empty() -> Part<'a, V>
        ensures { result ≡ [] }
    {
        Part {
            keys: &[],
            values: &[],
        }
    }

    /// Keys, each with its value.
    pub fn new(keys: &'a [Bytes], values: &'a [V]) -> Part<'a, V>
        requires { length values.now ≡ length keys.now }
        ensures { result ≡ zip keys.now values.now }
    {
        Part { keys, values }
    }

    /// Takes the first entry off.
    pub fn take_first(&mut self) -> Option<(&'a Bytes, &'a V)>
        ensures { TakesFirst deref_pair self.old result self.new }
    {
        let (key, keys) = self.keys.split_first()?;
        let (value, values) = self.values.split_first()?;
        self.keys = keys;
        self.values = values;
        Some((key, value))
    }

    /// Takes the last entry off.
    pub fn take_last(&mut self) -> Option<(&'a Bytes, &'a V)>
        ensures { TakesLast deref_pair self.old result self.new }
    {
        let (key, keys) = self.keys.split_last()?;
        let (value, values) = self.values.split_last()?;
        self.keys = keys;
        self.values = values;
        Some((key, value))
    }
}
