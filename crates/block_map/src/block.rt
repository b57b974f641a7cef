// Blocks of neighbouring entries. Used by `blocks` and `range`.
ghost use Rattle.std.specs.Prelude.{◌≡◌, ◌≤◌, ◌<◌, ◌+◌, ◌++◌, [], Err, Some, IfOk, IsTrue};
ghost use Rattle.std.specs.Prelude.{length, take, drop, insert, remove, slice_get, slice_range};
ghost use Rattle.std.specs.Prelude.{unwrap_or, vec_capacity, vec_len};
ghost use Rattle.std.specs.Borrow.{sem};
ghost use Rattle.std.specs.List.Sorted.{IsStrictlySortedBy};
ghost use Rattle.std.specs.Map.{keys_of, values_of};
ghost use Rattle.std_collections.specs.Layout.BTreeMap.{seek};
ghost use Rattle.std_collections.specs.Layout.Columns.{set_value_at};
ghost use Rattle.kv_core.specs.Bytes.{key_cmp};
ghost use Rattle.block_map.specs.Blocks.{most};

use crate::near::{comes_after, comes_before, count_upto};
use crate::part::Part;
use kv_core::Bytes;
use std::alloc::{AllocError, Global};
use std::cmp::Ordering;
use std::marker::Model;
use std::mem;

/// How many entries a block has at most.
pub(crate) const MOST: usize = 64;

/// Neighbouring keys in order, and the value of each.
///
/// Room for the most entries is made when a block begins, so nothing else that is done to it takes
/// memory.
#[derive(Debug, Drop)]
pub(crate) struct Block<V> {
    keys: Vec<Bytes>,
    values: Vec<V>,
    // Where the last entry was put: no more than where a block is best split.
    last: usize,
}

impl<V> Model for Block<V> {
    ghost use Rattle.std.specs.Prelude.{List, ℕ, length, vec_capacity, zip};
    ghost use Rattle.std.specs.Coded.{coded×, coded_list, coded_ℕ};
    ghost use Rattle.block_map.specs.Blocks.{HasRoom};

    ghost Value = { List (List ℕ × V) };

    ghost coded = { coded_list (coded× (coded_list coded_ℕ) V.code) };

    ghost view = { λ a. zip a.keys.items a.values.items };

    ghost invariant = { λ a. HasRoom (length a.keys.items) (length a.values.items)
        (vec_capacity a.keys) (vec_capacity a.values) };
}

/// Puts an item at a place of a list that has room for it.
pub(crate) fn insert_reserved<T: Drop>(list: &mut Vec<T>, place: usize, item: T)
    requires within { place ≤ vec_len list.old }
    requires room { vec_len list.old < vec_capacity list.old }
    ensures items { list.new.items ≡ insert list.old.items place item }
    ensures capacity { vec_capacity list.old ≤ vec_capacity list.new }
{
    let _ = list.insert(place, item);
}

/// Moves the items from a place on to an empty list that has room for them.
fn move_rest<T>(from: &mut Vec<T>, place: usize, to: &mut Vec<T>)
    requires within { place ≤ vec_len from.old }
    requires empty { to.old.items ≡ [] }
    requires room { vec_len from.old ≤ vec_capacity to.old }
    ensures kept { from.new.items ≡ take place from.old.items }
    ensures moved { to.new.items ≡ drop place from.old.items }
    ensures capacity { vec_capacity from.new ≡ vec_capacity from.old }
    ensures room { vec_capacity to.new ≡ vec_capacity to.old }
{
    while from.len() > place {
        let item = from.take_last();
        to.push_reserved(item);
    }
    to.reverse();
}

/// Moves the items of another list to the end of one that has room for them.
fn append_reserved<T>(list: &mut Vec<T>, other: &mut Vec<T>)
    requires { vec_len list.old + vec_len other.old ≤ vec_capacity list.old }
    ensures items { list.new.items ≡ list.old.items ++ other.old.items }
    ensures capacity { vec_capacity list.old ≤ vec_capacity list.new }
    ensures none { other.new.items ≡ [] }
    ensures room { vec_capacity other.new ≡ vec_capacity other.old }
{
    let _ = list.append(other);
}

/// The items from one place up to another.
pub(crate) fn between<T>(items: &[T], from: usize, to: usize) -> &[T]
    requires begin { from ≤ to }
    requires end { to ≤ length items.now }
    ensures { result.now ≡ slice_range items.now from to }
{
    &items[from..to]
}

impl<V> Block<V> {
    ghost use Rattle.block_map.specs.Lends.{lends_value};

    /// No entries, with room for the most, unless memory runs out.
    pub fn new(alloc: Global) -> Result<Block<V>, AllocError>
        ensures { IfOk result (λ block. block ≡ []) }
    {
        let keys = Vec::with_capacity(alloc, MOST)?;
        let values = Vec::with_capacity(alloc, MOST)?;
        Ok(Block {
            keys,
            values,
            last: 0,
        })
    }

    /// How many entries there are.
    pub fn len(&self) -> usize
        ensures value { result ≡ length self.now }
        ensures fits { length self.now ≤ most }
    {
        self.keys.len()
    }

    /// Where a key stands, or else where it would stand.
    pub fn find(&self, key: &Bytes) -> Result<usize, usize>
        requires { IsStrictlySortedBy key_cmp (keys_of self.now) }
        ensures { result ≡ seek (key_cmp key.now) self.now }
    {
        let keys = self.keys.as_slice();
        let place = count_upto(keys, key);
        if place == 0 {
            return Err(0);
        }
        match keys[place - 1].compare(key) {
            Ordering::Equal => Ok(place - 1),
            _ => Err(place),
        }
    }

    /// Whether a key comes between the one before a place and the one there.
    pub fn is_gap(&self, place: usize, key: &Bytes) -> bool
        requires { IsStrictlySortedBy key_cmp (keys_of self.now) }
        ensures { IsTrue result → (seek (key_cmp key.now) self.now ≡ Err place) }
    {
        let keys = self.keys.as_slice();
        if place > keys.len() || !comes_after(keys, place, key) {
            return false;
        }
        comes_before(keys, place, key)
    }

    /// The key at a place, or another one where none stands there.
    pub fn key_or<'a>(&'a self, place: usize, other: &'a Bytes) -> &'a Bytes
        ensures { result.now ≡ unwrap_or (slice_get (keys_of self.now) place) other.now }
    {
        match self.keys.get(place) {
            Some(key) => key,
            None => other,
        }
    }

    /// The value at a place.
    pub fn value(&self, place: usize) -> &V
        requires { place < length self.now }
        ensures { slice_get (values_of self.now) place ≡ Some result.now }
    {
        &self.values[place]
    }

    /// The value at a place, to be changed.
    pub fn value_mut(&mut self, place: usize) -> &mut V
        requires { place < length self.old }
        ensures* writes_back { sem 𝓛 (lends_value V.row self.entry place result) }
        ensures value { slice_get (values_of self.old) place ≡ Some result.now }
    {
        &mut self.values[place]
    }

    /// Puts a value in the place of another one, and hands that out.
    pub fn replace(&mut self, place: usize, value: V) -> V
        requires { place < length self.old }
        ensures old { slice_get (values_of self.old) place ≡ Some result }
        ensures new { self.new ≡ set_value_at self.old place value }
    {
        mem::replace(&mut self.values[place], value)
    }

    /// The entries from one place up to another.
    pub fn part(&self, from: usize, to: usize) -> Part<'_, V>
        requires begin { from ≤ to }
        requires end { to ≤ length self.now }
        ensures { result ≡ slice_range self.now from to }
    {
        let keys = between(self.keys.as_slice(), from, to);
        let values = between(self.values.as_slice(), from, to);
        Part::new(keys, values)
    }

    /// Where a full block is cut in two for an entry at a place: there where the key is the last
    /// one or follows the last one that was put here, as rising keys do, and else in the middle.
    pub fn cut_for(&self, place: usize) -> usize
        requires { place ≤ most }
        ensures some { 0 < result }
        ensures fits { result ≤ most }
        ensures last { result ≡ most → place ≡ most }
    {
        if place == MOST || (place > 0 && self.last == place - 1) {
            place
        } else {
            MOST / 2
        }
    }

    // Hands the entries from a place on over to an empty block.
    fn split(&mut self, place: usize, rest: &mut Block<V>)
        requires within { place ≤ length self.old }
        requires empty { rest.old ≡ [] }
        ensures kept { self.new ≡ take place self.old }
        ensures moved { rest.new ≡ drop place self.old }
    {
        move_rest(&mut self.keys, place, &mut rest.keys);
        move_rest(&mut self.values, place, &mut rest.values);
    }

    /// Takes over the entries of another block, which fit into this one.
    pub fn append(&mut self, other: &mut Block<V>)
        requires { length self.old + length other.old ≤ most }
        ensures { self.new ≡ self.old ++ other.old }
    {
        append_reserved(&mut self.keys, &mut other.keys);
        append_reserved(&mut self.values, &mut other.values);
    }

    /// Takes the entry at a place out, and hands its value out.
    pub fn remove(&mut self, place: usize) -> V
        requires { place < length self.old }
        ensures value { slice_get (values_of self.old) place ≡ Some result }
        ensures new { self.new ≡ remove self.old place }
    {
        self.keys.remove(place);
        self.values.remove(place)
    }
}

impl<V: Drop> Block<V> {
    /// Puts an entry at a place.
    pub fn put(&mut self, place: usize, key: Bytes, value: V)
        requires within { place ≤ length self.old }
        requires room { length self.old < most }
        ensures { self.new ≡ insert self.old place (key, value) }
    {
        insert_reserved(&mut self.keys, place, key);
        insert_reserved(&mut self.values, place, value);
        self.last = place;
    }

    /// Puts an entry at a place of a full block, which is cut: what stands from there on goes to an
    /// empty block, and the entry to one of the two.
    pub fn put_cut(&mut self, cut: usize, place: usize, key: Bytes, value: V, rest: &mut Block<V>)
        requires full { length self.old ≡ most }
        requires some { 0 < cut }
        requires fits { cut ≤ most }
        requires within { place ≤ most }
        requires last { cut ≡ most → place ≡ most }
        requires empty { rest.old ≡ [] }
        ensures whole { self.new ++ rest.new ≡ insert self.old place (key, value) }
        ensures kept { 0 < length self.new }
        ensures kept_fits { length self.new ≤ most }
        ensures moved { length rest.new ≤ most }
        ensures bound { slice_get (keys_of rest.new) 0
            ≡ Some (unwrap_or (slice_get (keys_of self.old) cut) key) }
    {
        self.split(cut, rest);
        if place <= cut && cut < MOST {
            self.put(place, key, value);
        } else {
            rest.put(place - cut, key, value);
        }
    }
}
