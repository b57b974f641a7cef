// Rows, as the packs of their cells in one list of bytes.
ghost use Rattle.std.specs.Prelude.{◌≡◌, ◌==◌, ◌∷◌, ◌++◌, ◌≤◌, List, [], length, vec_len};
ghost use Rattle.std.specs.Prelude.{IfOk, IfSome, OnOk, OnErr, slice_get};
ghost use Rattle.std.specs.Option.{IfNone};
ghost use Rattle.metadata.specs.declared.cells.Cell.{Cell};
ghost use Rattle.metadata.specs.Stored.{AreStoredAs};
ghost use Rattle.packed_rows.specs.Packs.{ArePacked, IsPackAt, begin_from};
ghost use Rattle.packed_rows.specs.OneList.{ArePacked-prop};

use metadata::Cells;
use std::alloc::{AllocError, Global};
use std::marker::Model;

/// Rows of cells, in order. Each is kept as the pack of its cells, after that of the row before.
pub struct Rows {
    bytes: Vec<u8>,
    ends: Vec<usize>,
    ghost kept: { ArePacked bytes.items ends.items } by { ArePacked-prop bytes.items ends.items },
}

// Written out, so that no proof of a caller has to take its parts apart where one is dropped.
impl Drop for Rows {
    fn drop(self) {
        let Rows { bytes, ends } = self;
        drop(bytes);
        drop(ends);
    }
}

impl Model for Rows {
    ghost use Rattle.std.specs.Prelude.{List};
    ghost use Rattle.metadata.specs.declared.cells.Cell.{Cell};

    ghost Value = { List (List Cell) };

    ghost view = { λ r. r.kept.rows };
}

// Appends a pack, and where it ends. Where memory is refused, both lists are as they were.
fn push_piece(bytes: &mut Vec<u8>, ends: &mut Vec<usize>, pack: &[u8]) -> Result<(), AllocError>
    ensures bytes { OnOk result (bytes.new.items ≡ bytes.old.items ++ pack.now) }
    ensures ends { OnOk result (ends.new.items ≡ ends.old.items ++ length bytes.new.items ∷ []) }
    ensures same_bytes { OnErr result (bytes.new.items ≡ bytes.old.items) }
    ensures same_ends { OnErr result (ends.new.items ≡ ends.old.items) }
{
    ends.reserve(1)?;
    bytes.extend_from_slice(pack)?;
    ends.push_reserved(bytes.len());
    Ok(())
}

// Where the pack at a place begins.
fn begin_at(ends: &[usize], place: usize) -> usize
    requires { place ≤ length ends.now }
    ensures { result ≡ begin_from 0 ends.now place }
{
    if place == 0 { 0 } else { ends[place - 1] }
}

impl Rows {
    /// No rows, which take no memory.
    pub fn new(alloc: Global) -> Rows
        ensures { result ≡ [] }
    {
        Rows {
            bytes: Vec::new(alloc),
            ends: Vec::new(alloc),
        }
    }

    /// No rows, with memory for so many rows of so many bytes in all.
    pub fn with_capacity(alloc: Global, rows: usize, bytes: usize) -> Result<Rows, AllocError>
        ensures { IfOk result (λ rows. rows ≡ []) }
    {
        let bytes = Vec::with_capacity(alloc, bytes)?;
        let ends = Vec::with_capacity(alloc, rows)?;
        Ok(Rows { bytes, ends })
    }

    /// How many rows there are.
    pub fn len(&self) -> usize
        ensures { result ≡ length self.now }
    {
        self.ends.len()
    }

    /// Whether there is no row.
    pub fn is_empty(&self) -> bool
        ensures { result ≡ (length self.now == 0) }
    {
        self.ends.is_empty()
    }

    /// Adds a row of these cells after the others. Where memory is refused, the rows are as they
    /// were.
    pub fn push(&mut self, cells: &Cells) -> Result<(), AllocError>
        ensures ok { OnOk result (self.new ≡ self.old ++ cells.now ∷ []) }
        ensures err { OnErr result (self.new ≡ self.old) }
    {
        let mut pack = Vec::new(*self.bytes.allocator());
        cells.push_pack(&mut pack)?;
        push_piece(&mut self.bytes, &mut self.ends, pack.as_slice())?;
        Ok(())
    }

    /// Adds the row of which this is the pack after the others. Where memory is refused, the rows
    /// are as they were.
    pub fn push_pack(&mut self, pack: &[u8]) -> Result<(), AllocError>
        requires { (row : List Cell) × AreStoredAs pack.now row }
        ensures ok { OnOk result ((row : List Cell) → AreStoredAs pack.now row
            → self.new ≡ self.old ++ row ∷ []) }
        ensures err { OnErr result (self.new ≡ self.old) }
    {
        push_piece(&mut self.bytes, &mut self.ends, pack)?;
        Ok(())
    }

    /// The pack of the row at this place, if there is one.
    pub fn pack_at(&self, place: usize) -> Option<&[u8]>
        ensures found { IfSome result (λ pack. IsPackAt self.now place pack.now) }
        ensures none { IfNone result (length self.now ≤ place) }
    {
        if place >= self.ends.len() {
            return None;
        }
        let begin = begin_at(self.ends.as_slice(), place);
        let end = self.ends[place];
        Some(&self.bytes[begin..end])
    }

    /// The cells of the row at this place, if there is one.
    pub fn cells_at(&self, alloc: Global, place: usize) -> Result<Option<Cells>, AllocError>
        ensures { IfOk result (λ cells. cells ≡ slice_get self.now place) }
    {
        let Some(pack) = self.pack_at(place) else {
            return Ok(None);
        };
        match Cells::unpack(alloc, pack)? {
            Some(cells) => Ok(Some(cells)),
            None => unreachable!(),
        }
    }

    /// Equal rows.
    pub fn copy(&self) -> Result<Rows, AllocError>
        ensures { IfOk result (λ copy. copy ≡ self.now) }
    {
        let alloc = *self.bytes.allocator();
        let bytes = Vec::from_slice(alloc, self.bytes.as_slice())?;
        let ends = Vec::from_slice(alloc, self.ends.as_slice())?;
        Ok(Rows { bytes, ends })
    }
}
