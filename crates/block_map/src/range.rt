// The entries of a map in a range of keys, from either end. Made by `blocks`.
ghost use Rattle.std.specs.Prelude.{◌≡◌, ◌<◌, ◌++◌, length};
ghost use Rattle.std.specs.Iterator.{at_most};
ghost use Rattle.std.specs.List.{AllByRecursion};
ghost use Rattle.std.specs.Map.Iter.{TakesFirst, TakesLast, deref_pair};
ghost use Rattle.block_map.specs.Blocks.{block_entries};

use crate::block::Block;
use crate::part::Part;
use kv_core::Bytes;
use std::iter::{DoubleEndedIterator, Iterator};
use std::marker::Model;

/// Neighbouring entries of a map that are left to go over, in order or from the last one back.
#[derive(Drop)]
pub struct Range<'a, V> {
    front: Part<'a, V>,
    middle: &'a [Block<V>],
    back: Part<'a, V>,
}

impl<'a, V> Model for Range<'a, V> {
    ghost use Rattle.std.specs.Prelude.{◌<◌, ◌++◌, List, ℕ, length};
    ghost use Rattle.std.specs.List.{AllByRecursion};
    ghost use Rattle.block_map.specs.Blocks.{block_entries};

    ghost Value = { List (List ℕ × V) };

    ghost view = { λ a. a.front ++ (block_entries a.middle.now ++ a.back) };

    ghost invariant = { λ a. AllByRecursion (λ block. 0 < length block) a.middle.now };
}

impl<'a, V> Range<'a, V> {
    /// The entries of a part, of blocks, and of another part.
    pub(crate) fn new(front: Part<'a, V>, middle: &'a [Block<V>], back: Part<'a, V>) -> Range<'a, V>
        requires { AllByRecursion (λ block. 0 < length block) middle.now }
        ensures { result ≡ front.entry ++ (block_entries middle.now ++ back.entry) }
    {
        Range {
            front,
            middle,
            back,
        }
    }
}

impl<'a, V> Iterator for Range<'a, V> {
    type Item = (&'a Bytes, &'a V);

    ghost next_gives = { TakesFirst deref_pair };

    ghost remaining = { λ s. at_most (length s) };

    fn next(&mut self) -> Option<(&'a Bytes, &'a V)> {
        if let Some(entry) = self.front.take_first() {
            return Some(entry);
        }
        let Some((block, rest)) = self.middle.split_first() else {
            return self.back.take_first();
        };
        self.middle = rest;
        self.front = block.part(0, block.len());
        self.front.take_first()
    }
}

impl<'a, V> DoubleEndedIterator for Range<'a, V> {
    ghost next_back_gives = { TakesLast deref_pair };

    fn next_back(&mut self) -> Option<(&'a Bytes, &'a V)> {
        if let Some(entry) = self.back.take_last() {
            return Some(entry);
        }
        let Some((block, rest)) = self.middle.split_last() else {
            return self.front.take_last();
        };
        self.middle = rest;
        self.back = block.part(0, block.len());
        self.back.take_last()
    }
}
