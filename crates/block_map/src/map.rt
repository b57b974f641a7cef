// The ordered map.
ghost use Rattle.std.specs.Prelude.{◌≡◌, ◌≤◌, ◌<◌, ◌+◌, ◌*◌, ◌-◌, ◌↔◌, if◌then◌else◌, IsTrue};
ghost use Rattle.std.specs.Prelude.{None, Some, IfNone, IfOk, IfSome, IsSome, OnOk, OnErr};
ghost use Rattle.std.specs.Prelude.{is_some, slice_get};
ghost use Rattle.std.specs.Borrow.{sem};
ghost use Rattle.std.specs.BTreeMap.{IsEmpty, IsOrdered, IsUnchanged, Updates, UpdatesBy};
ghost use Rattle.std.specs.BTreeMap.{btree_map_len, get, insert_entry, is_at, keys};
ghost use Rattle.std.specs.BTreeMap.Range.{entries_between};
ghost use Rattle.std.specs.declared.ops.Bound.TheVariants.{Included, Excluded};
ghost use Rattle.std.specs.Map.{remove_entry};
ghost use Rattle.std.specs.Option.{option_copied, option_copied_mut};
ghost use Rattle.kv_core.specs.Bytes.{key_cmp};

use crate::blocks::Blocks;
use crate::range::Range;
use kv_core::Bytes;
use std::alloc::{AllocError, Global};
use std::marker::Model;

/// A map from keys, which are byte strings, to values, in the order of the keys.
///
/// Its entries lie in blocks of at most 64, one after another. A full block whose keys rise is
/// continued by a new one, so rising keys fill theirs, also in the middle of a map; and blocks that
/// fit into one are joined, so each two neighbours have more than 64 entries. It keeps its
/// allocator, so that its methods take none.
#[derive(Debug)]
pub struct BlockMap<V> {
    alloc: Global,
    len: usize,
    // Where a key was looked for in vain the last time: there the next one is likely to be put.
    near: (usize, usize),
    blocks: Blocks<V>,
}

// Written out, so that no proof of a caller has to take its parts apart where one is dropped.
impl<V: Drop> Drop for BlockMap<V> {
    fn drop(self) {
        let BlockMap {
            alloc: _,
            len: _,
            near: _,
            blocks,
        } = self;
        drop(blocks);
    }
}

impl<V> Model for BlockMap<V> {
    ghost use Rattle.std.specs.Prelude.{◌≡◌, List, ℕ, length};
    ghost use Rattle.std.specs.BTreeMap.{BTreeMap};
    ghost use Rattle.std.specs.Coded.{coded_list, coded_ℕ};
    ghost use Rattle.std_collections.specs.Layout.BTreeMap.{btree_map_code};
    ghost use Rattle.block_map.specs.Blocks.{IsWhole, block_entries, seen_map};

    ghost Value = { BTreeMap (List ℕ) V };

    ghost coded = { btree_map_code (coded_list coded_ℕ) V.code };

    ghost view = { λ a. seen_map a.blocks.list.items };

    ghost invariant = { λ a. IsWhole a.blocks.bounds.items a.blocks.list.items
        × (a.len ≡ length (block_entries a.blocks.list.items)) };
}

impl<V> BlockMap<V> {
    ghost use Rattle.block_map.specs.Lends.{follows_get};

    /// No entries, which takes no memory.
    pub fn new(alloc: Global) -> BlockMap<V>
        ensures empty { IsEmpty result }
        ensures ordered { IsOrdered key_cmp result }
    {
        BlockMap {
            alloc,
            len: 0,
            near: (0, 0),
            blocks: Blocks::new(alloc),
        }
    }

    /// How many entries there are.
    pub fn len(&self) -> usize
        ensures len { result ≡ btree_map_len self.now }
        ensures ordered { IsOrdered key_cmp self.now }
    {
        self.len
    }

    /// Whether there are none.
    pub fn is_empty(&self) -> bool
        ensures { IsTrue result ↔ (btree_map_len self.now ≡ 0) }
    {
        self.len == 0
    }

    /// How many blocks there are, each with room for 64 entries: two for each 65 entries at most,
    /// and one.
    pub fn blocks(&self) -> usize
        ensures { 65 * result ≤ 2 * btree_map_len self.now + 65 }
    {
        self.blocks.count()
    }

    /// The value of a key, which takes no memory.
    pub fn get(&self, key: &Bytes) -> Option<&V>
        ensures value { option_copied result ≡ get key_cmp self.now key.now }
    {
        match self.blocks.find(key) {
            (block, Ok(place)) => Some(self.blocks.value(block, place)),
            (_, Err(_)) => None,
        }
    }

    /// The value of a key, to be changed, which takes no memory. Where there is none, a call of
    /// `insert` with the key takes no second search.
    pub fn get_mut(&mut self, key: &Bytes) -> Option<&mut V>
        ensures* writes_back { sem 𝓛 (follows_get V.row self.entry key.now result) }
        ensures value { option_copied_mut result ≡ get key_cmp self.old key.now }
        ensures ordered { IsOrdered key_cmp self.old }
    {
        match self.blocks.find(key) {
            (block, Ok(place)) => Some(self.blocks.value_mut(block, place)),
            (block, Err(place)) => {
                self.near = (block, place);
                None
            }
        }
    }

    /// The first entry.
    pub fn first_key_value(&self) -> Option<(&Bytes, &V)>
        ensures variant { IsSome result ↔ (0 < btree_map_len self.now) }
        ensures first { IfSome result (λ p.
            slice_get self.now.entries 0 ≡ Some (p.0.now, p.1.now)) }
    {
        self.iter().next()
    }

    /// The last entry.
    pub fn last_key_value(&self) -> Option<(&Bytes, &V)>
        ensures variant { IsSome result ↔ (0 < btree_map_len self.now) }
        ensures last { IfSome result (λ p. slice_get self.now.entries (btree_map_len self.now - 1)
            ≡ Some (p.0.now, p.1.now)) }
    {
        self.iter().next_back()
    }

    /// The entries, in order or from the last one back.
    pub fn iter(&self) -> Range<'_, V>
        ensures rest { result ≡ self.now.entries }
        ensures ordered { IsOrdered key_cmp self.now }
    {
        self.blocks.all()
    }

    /// The entries from one key on and before another, in order or from the last one back. There
    /// are none where the first isn't before the second.
    pub fn range(&self, begin: &Bytes, end: &Bytes) -> Range<'_, V>
        ensures between { result
            ≡ entries_between key_cmp (Included begin.now) (Excluded end.now) self.now.entries }
        ensures ordered { IsOrdered key_cmp self.now }
    {
        self.blocks.between(begin, end)
    }
}

impl<V: Drop> BlockMap<V> {
    /// Puts a value at a key, and answers the one that was there, which keeps its own key. Where
    /// memory runs out, which it does for a new key alone, the map stays as it was.
    pub fn insert(&mut self, key: Bytes, value: V) -> Result<Option<V>, AllocError>
        // On success `key` has `value`, its old value is returned, and other keys keep theirs.
        ensures old { IfOk result (λ old. old ≡ get key_cmp self.old key) }
        ensures updates { OnOk result (Updates key_cmp self.old self.new key (Some value)) }
        ensures entries { OnOk result
            (self.new.entries ≡ insert_entry key_cmp self.old.entries key value) }

        // On failure the entries stay. Only a new key can fail.
        ensures absent { OnErr result (get key_cmp self.old key ≡ None) }
        ensures err { OnErr result (IsUnchanged self.old self.new) }

        // The keys ascend.
        ensures ordered { IsOrdered key_cmp self.new }
        ensures was_ordered { IsOrdered key_cmp self.old }
    {
        match self.blocks.find_near(self.near, &key) {
            (block, Ok(place)) => Ok(Some(self.blocks.replace(block, place, value))),
            (block, Err(place)) => {
                // No memory has as many entries as can't be counted.
                if self.len == usize::MAX {
                    return Err(AllocError);
                }
                self.blocks.put(self.alloc, block, place, key, value)?;
                self.len += 1;
                Ok(None)
            }
        }
    }

    /// Takes a key's entry out, and answers its value, which takes no memory.
    pub fn remove(&mut self, key: &Bytes) -> Option<V>
        // The value at `key` is returned and its entry removed. Other keys keep theirs.
        ensures value { result ≡ get key_cmp self.old key.now }
        ensures updates { UpdatesBy key_cmp (key_cmp key.now) self.old self.new None }
        ensures entries { self.new.entries
            ≡ remove_entry (is_at (key_cmp key.now)) self.old.entries }

        // `None` leaves the entries as they were, `Some` takes one, and the keys still ascend.
        ensures unchanged { IfNone result (IsUnchanged self.old self.new) }
        ensures len { btree_map_len self.new + (if is_some result then 1 else 0)
            ≡ btree_map_len self.old }
        ensures ordered { IsOrdered key_cmp self.new }
    {
        match self.blocks.find(key) {
            (block, Ok(place)) => {
                let value = self.blocks.remove(block, place);
                self.len -= 1;
                Some(value)
            }
            (_, Err(_)) => None,
        }
    }
}
