// The blocks of a map, and the bounds between them. Used by `map`.
ghost use Rattle.std.specs.Prelude.{◌≡◌, ◌≤◌, ◌<◌, ◌+◌, ◌*◌, ◌∷◌, [], length, insert, remove};
ghost use Rattle.std.specs.Prelude.{Some, Err, IfOk, IsTrue, OnOk, OnErr, slice_get, unwrap_or};
ghost use Rattle.std.specs.Prelude.{vec_capacity, vec_len};
ghost use Rattle.std.specs.Borrow.{sem};
ghost use Rattle.std.specs.BTreeMap.{insert_entry};
ghost use Rattle.std.specs.BTreeMap.Range.{entries_between};
ghost use Rattle.std.specs.declared.ops.Bound.TheVariants.{Included, Excluded};
ghost use Rattle.std.specs.Map.{keys_of, values_of};
ghost use Rattle.std_collections.specs.Layout.BTreeMap.{seek};
ghost use Rattle.std_collections.specs.Layout.Columns.{set_value_at};
ghost use Rattle.kv_core.specs.Bytes.{key_cmp};
ghost use Rattle.block_map.specs.Blocks.{Forks, Grows, IsWhole, block_at, edited, block_entries};
ghost use Rattle.block_map.specs.Blocks.{joined_blocks, joined_before, joined_bounds};
ghost use Rattle.block_map.specs.Blocks.{joined_bounds_before};
ghost use Rattle.block_map.specs.Blocks.{most, search_place, bounds_upto, without_empty};

use crate::block::{Block, MOST, between, insert_reserved};
use crate::near::{comes_before, comes_from, count_upto};
use crate::part::Part;
use crate::range::Range;
use kv_core::Bytes;
use std::alloc::{AllocError, Global};

/// Blocks one after another, and between each two a bound.
///
/// The keys of a block come before the bound behind it, and those of the blocks behind that don't.
/// So a key is looked for among the bounds, which lie close together, and then in one block; and no
/// bound has to change where a block's first key does.
#[derive(Debug, Drop)]
pub(crate) struct Blocks<V> {
    bounds: Vec<Bytes>,
    list: Vec<Block<V>>,
}

/// A block to come, which has no entries yet, and the bound before it.
#[derive(Drop)]
struct Fresh<V> {
    bound: Bytes,
    block: Block<V>,
}

impl<V> Blocks<V> {
    ghost use Rattle.block_map.specs.Lends.{lends_at};

    /// No blocks, which takes no memory.
    pub fn new(alloc: Global) -> Blocks<V>
        ensures bounds { result.bounds.items ≡ [] }
        ensures list { result.list.items ≡ [] }
    {
        Blocks {
            bounds: Vec::new(alloc),
            list: Vec::new(alloc),
        }
    }

    /// How many blocks there are: two for each 65 entries at most, and one.
    pub fn count(&self) -> usize
        requires { IsWhole self.now.bounds.items self.now.list.items }
        ensures { 65 * result ≤ 2 * length (block_entries self.now.list.items) + 65 }
    {
        self.list.len()
    }

    // The block to which a key belongs, where there are any.
    fn block_of(&self, key: &Bytes) -> usize
        requires { IsWhole self.now.bounds.items self.now.list.items }
        ensures { result ≡ bounds_upto key.now self.now.bounds.items }
    {
        count_upto(self.bounds.as_slice(), key)
    }

    /// The block to which a key belongs, and where the key stands there, or else would stand.
    pub fn find(&self, key: &Bytes) -> (usize, Result<usize, usize>)
        requires { IsWhole self.now.bounds.items self.now.list.items }
        ensures block { result.0 ≡ bounds_upto key.now self.now.bounds.items }
        ensures place { result.1
            ≡ seek (key_cmp key.now) (block_at self.now.list.items result.0) }
    {
        let block = self.block_of(key);
        match self.list.get(block) {
            Some(own) => (block, own.find(key)),
            None => (block, Err(0)),
        }
    }

    // Whether a key belongs to a block.
    fn is_of(&self, block: usize, key: &Bytes) -> bool
        requires { IsWhole self.now.bounds.items self.now.list.items }
        ensures { IsTrue result → (block ≡ bounds_upto key.now self.now.bounds.items) }
    {
        let bounds = self.bounds.as_slice();
        if block > bounds.len() || !comes_from(bounds, block, key) {
            return false;
        }
        comes_before(bounds, block, key)
    }

    // Whether a key would stand at a place of a block, and doesn't.
    fn is_gap(&self, block: usize, place: usize, key: &Bytes) -> bool
        requires { IsWhole self.now.bounds.items self.now.list.items }
        ensures block { IsTrue result → (block ≡ bounds_upto key.now self.now.bounds.items) }
        ensures place { IsTrue result
            → (seek (key_cmp key.now) (block_at self.now.list.items block) ≡ Err place) }
    {
        match self.list.get(block) {
            Some(own) => self.is_of(block, key) && own.is_gap(place, key),
            None => false,
        }
    }

    /// The same as `find`, by four comparisons where the key would stand at a place that is given.
    pub fn find_near(&self, near: (usize, usize), key: &Bytes) -> (usize, Result<usize, usize>)
        requires { IsWhole self.now.bounds.items self.now.list.items }
        ensures block { result.0 ≡ bounds_upto key.now self.now.bounds.items }
        ensures place { result.1
            ≡ seek (key_cmp key.now) (block_at self.now.list.items result.0) }
    {
        let (block, place) = near;
        if self.is_gap(block, place, key) {
            return (block, Err(place));
        }
        self.find(key)
    }

    /// The value at a place of a block.
    pub fn value(&self, block: usize, place: usize) -> &V
        requires { place < length (block_at self.now.list.items block) }
        ensures { slice_get (values_of (block_at self.now.list.items block)) place
            ≡ Some result.now }
    {
        self.list[block].value(place)
    }

    /// The value at a place of a block, to be changed.
    pub fn value_mut(&mut self, block: usize, place: usize) -> &mut V
        requires { place < length (block_at self.old.list.items block) }
        ensures* writes_back { sem 𝓛 (lends_at V.row self.entry block place result) }
        ensures value { slice_get (values_of (block_at self.old.list.items block)) place
            ≡ Some result.now }
    {
        self.list[block].value_mut(place)
    }

    /// Puts a value in the place of another one, and hands that out.
    pub fn replace(&mut self, block: usize, place: usize, value: V) -> V
        requires { place < length (block_at self.old.list.items block) }
        ensures old { slice_get (values_of (block_at self.old.list.items block)) place
            ≡ Some result }
        ensures bounds { self.new.bounds.items ≡ self.old.bounds.items }
        ensures list { self.new.list.items
            ≡ edited block (λ own. set_value_at own place value) self.old.list.items }
    {
        self.list[block].replace(place, value)
    }

    /// All entries.
    pub fn all(&self) -> Range<'_, V>
        requires { IsWhole self.now.bounds.items self.now.list.items }
        ensures { result ≡ block_entries self.now.list.items }
    {
        Range::new(Part::empty(), self.list.as_slice(), Part::empty())
    }

    /// The entries from one key on and before another.
    pub fn between(&self, begin: &Bytes, end: &Bytes) -> Range<'_, V>
        requires { IsWhole self.now.bounds.items self.now.list.items }
        ensures { result ≡ entries_between key_cmp (Included begin.now) (Excluded end.now)
            (block_entries self.now.list.items) }
    {
        if self.list.is_empty() || !begin.is_before(end) {
            return Range::new(Part::empty(), &[], Part::empty());
        }
        let (first, from) = self.spot_of(begin);
        let (last, to) = self.spot_of(end);
        let head = &self.list[first];
        if first == last {
            return Range::new(head.part(from, to), &[], Part::empty());
        }
        let front = head.part(from, head.len());
        let back = self.list[last].part(0, to);
        let middle = between(self.list.as_slice(), first + 1, last);
        Range::new(front, middle, back)
    }

    // The block to which a key belongs, and how many keys there come before it.
    fn spot_of(&self, key: &Bytes) -> (usize, usize)
        requires whole { IsWhole self.now.bounds.items self.now.list.items }
        requires some { 0 < length self.now.list.items }
        ensures block { result.0 ≡ bounds_upto key.now self.now.bounds.items }
        ensures within { result.0 < length self.now.list.items }
        ensures place { result.1
            ≡ search_place (seek (key_cmp key.now) (block_at self.now.list.items result.0)) }
        ensures fits { result.1 ≤ length (block_at self.now.list.items result.0) }
    {
        match self.find(key) {
            (block, Ok(place)) => (block, place),
            (block, Err(place)) => (block, place),
        }
    }
}

impl<V: Drop> Blocks<V> {
    // Begins the first block, with one entry. Where memory runs out there is none.
    fn begin(&mut self, alloc: Global, key: Bytes, value: V) -> Result<(), AllocError>
        requires { self.old.list.items ≡ [] }
        ensures bounds { self.new.bounds.items ≡ self.old.bounds.items }
        ensures ok { OnOk result (self.new.list.items ≡ ((key, value) ∷ []) ∷ []) }
        ensures err { OnErr result (self.new.list.items ≡ []) }
    {
        let mut block = Block::new(alloc)?;
        block.put(0, key, value);
        self.list.push(block)?;
        Ok(())
    }

    // Makes what the block needs that a full one is continued by for a key, which goes from a place
    // on, and room for it. Where memory runs out nothing has changed.
    fn prepare(
        &mut self,
        alloc: Global,
        block: usize,
        cut: usize,
        key: &Bytes,
    ) -> Result<Fresh<V>, AllocError>
        requires { block < length self.old.list.items }
        ensures empty { IfOk result (λ fresh. fresh.block ≡ []) }
        ensures bound { IfOk result (λ fresh. fresh.bound
            ≡ unwrap_or (slice_get (keys_of (block_at self.old.list.items block)) cut) key.now) }
        ensures bounds { self.new.bounds.items ≡ self.old.bounds.items }
        ensures list { self.new.list.items ≡ self.old.list.items }
        ensures room { OnOk result (vec_len self.new.bounds < vec_capacity self.new.bounds) }
        ensures list_room { OnOk result (vec_len self.new.list < vec_capacity self.new.list) }
    {
        let bound = self.list[block].key_or(cut, key).copy()?;
        let fresh = Block::new(alloc)?;
        self.bounds.reserve(1)?;
        self.list.reserve(1)?;
        Ok(Fresh {
            bound,
            block: fresh,
        })
    }

    // Puts an entry at a place of a full block, which is cut in two: a new one begins behind it.
    fn fork(
        &mut self,
        block: usize,
        cut: usize,
        place: usize,
        key: Bytes,
        value: V,
        fresh: Fresh<V>,
    )
        requires block { block < length self.old.list.items }
        requires bounds { block ≤ length self.old.bounds.items }
        requires full { length (block_at self.old.list.items block) ≡ most }
        requires some { 0 < cut }
        requires fits { cut ≤ most }
        requires within { place ≤ most }
        requires last { cut ≡ most → place ≡ most }
        requires empty { fresh.block ≡ [] }
        requires bound { fresh.bound
            ≡ unwrap_or (slice_get (keys_of (block_at self.old.list.items block)) cut) key }
        requires room { vec_len self.old.bounds < vec_capacity self.old.bounds }
        requires list_room { vec_len self.old.list < vec_capacity self.old.list }
        ensures bounds { self.new.bounds.items
            ≡ insert self.old.bounds.items block fresh.bound }
        ensures list { Forks block place key value fresh.bound
            self.old.list.items self.new.list.items }
    {
        let Fresh {
            bound,
            block: mut rest,
        } = fresh;
        self.list[block].put_cut(cut, place, key, value, &mut rest);
        insert_reserved(&mut self.bounds, block, bound);
        insert_reserved(&mut self.list, block + 1, rest);
    }

    // Joins a block with the next one, where there is one and both fit into one.
    fn join(&mut self, block: usize)
        requires { length self.old.list.items ≤ length self.old.bounds.items + 1 }
        ensures bounds { self.new.bounds.items
            ≡ joined_bounds block self.old.bounds.items self.old.list.items }
        ensures list { self.new.list.items ≡ joined_blocks block self.old.list.items }
    {
        if self.list.len().saturating_sub(block) < 2 {
            return;
        }
        if self.list[block].len() + self.list[block + 1].len() > MOST {
            return;
        }
        let mut next = self.list.remove(block + 1);
        self.list[block].append(&mut next);
        self.bounds.remove(block);
    }

    // Joins a block with the one before it, where there is one and both fit into one.
    fn join_before(&mut self, block: usize)
        requires { length self.old.list.items ≤ length self.old.bounds.items + 1 }
        ensures bounds { self.new.bounds.items
            ≡ joined_bounds_before block self.old.bounds.items self.old.list.items }
        ensures list { self.new.list.items ≡ joined_before block self.old.list.items }
    {
        if block > 0 {
            self.join(block - 1);
        }
    }

    // Drops a block that is the only one, where it has no entries.
    fn drop_empty(&mut self)
        ensures bounds { self.new.bounds.items ≡ self.old.bounds.items }
        ensures list { self.new.list.items ≡ without_empty self.old.list.items }
    {
        if self.list.len() == 1 && self.list[0].len() == 0 {
            self.list.pop();
        }
    }

    // Puts an entry into a full block, which is cut in two for it; each part is joined with its
    // other neighbour where both fit into one. Where memory runs out nothing has changed.
    fn grow(
        &mut self,
        alloc: Global,
        key: Bytes,
        value: V,
        block: usize,
        place: usize,
    ) -> Result<(), AllocError>
        requires within { block < length self.old.list.items }
        requires bounds { length self.old.list.items ≡ length self.old.bounds.items + 1 }
        requires full { length (block_at self.old.list.items block) ≡ most }
        requires place { place ≤ most }
        ensures ok { OnOk result (Grows block place key value self.old.bounds.items
            self.old.list.items self.new.bounds.items self.new.list.items) }
        ensures err_bounds { OnErr result (self.new.bounds.items ≡ self.old.bounds.items) }
        ensures err_list { OnErr result (self.new.list.items ≡ self.old.list.items) }
    {
        let cut = self.list[block].cut_for(place);
        let fresh = self.prepare(alloc, block, cut, &key)?;
        self.fork(block, cut, place, key, value, fresh);
        self.join(block + 1);
        self.join_before(block);
        Ok(())
    }

    /// Puts a new entry at a place of a block. Where memory runs out nothing has changed.
    pub fn put(
        &mut self,
        alloc: Global,
        block: usize,
        place: usize,
        key: Bytes,
        value: V,
    ) -> Result<(), AllocError>
        requires whole { IsWhole self.old.bounds.items self.old.list.items }
        requires block { block ≡ bounds_upto key self.old.bounds.items }
        requires place { seek (key_cmp key) (block_at self.old.list.items block) ≡ Err place }
        ensures whole { IsWhole self.new.bounds.items self.new.list.items }
        ensures ok { OnOk result (block_entries self.new.list.items
            ≡ insert_entry key_cmp (block_entries self.old.list.items) key value) }
        ensures err { OnErr result (self.new.list.items ≡ self.old.list.items) }
    {
        if self.list.is_empty() {
            return self.begin(alloc, key, value);
        }
        if self.list[block].len() == MOST {
            return self.grow(alloc, key, value, block, place);
        }
        self.list[block].put(place, key, value);
        Ok(())
    }

    /// Takes the entry at a place of a block out, and hands its value out.
    pub fn remove(&mut self, block: usize, place: usize) -> V
        requires whole { IsWhole self.old.bounds.items self.old.list.items }
        requires within { place < length (block_at self.old.list.items block) }
        ensures value { slice_get (values_of (block_at self.old.list.items block)) place
            ≡ Some result }
        ensures whole { IsWhole self.new.bounds.items self.new.list.items }
        ensures entries { block_entries self.new.list.items
            ≡ block_entries (edited block (λ own. remove own place) self.old.list.items) }
        ensures count { length (block_entries self.new.list.items) + 1
            ≡ length (block_entries self.old.list.items) }
    {
        let value = self.list[block].remove(place);
        self.join(block);
        self.join_before(block);
        self.drop_empty();
        value
    }
}
