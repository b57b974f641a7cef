// Cells, which are typed nullable values, with their kinds and packs. Used by most modules here and
// by most crates above.
ghost use Rattle.std.specs.Prelude.{◌≡◌, ◌++◌, All, IfOk, MatchOption, OnOk};
ghost use Rattle.std.specs.List.{list_any};
ghost use Rattle.tuple_codec.specs.Item.{AreBytes, IsTuple, nesting};
ghost use Rattle.tuple_codec.specs.Elements.{item_in, items_in};
ghost use Rattle.tuple_codec.specs.Spelling.{item_spelling, outer, spelling};
ghost use Rattle.tuple_codec.specs.Subspace.{BeginsWith};
ghost use Rattle.metadata.specs.Cell.{IsCell, all_fit, cell_at, cells_at, fits, is_null, item_of};
ghost use Rattle.metadata.specs.Cell.{items_of};

use crate::definition::Places;
use std::alloc::{AllocError, Global};
use std::marker::Model;
use tuple_codec::{
    ByteString, Element, Text, Tuple, TupleInt, pack_bytes, pack_int, pack_null, pack_text,
    strip_bytes, strip_int, strip_null, strip_text,
};

/// What a field holds.
#[derive(Clone, Copy, Debug, PartialEq, Eq, Drop)]
pub enum Kind {
    /// A whole number of 64 bits.
    Int,
    /// A text.
    Text,
    /// A byte string.
    Bytes,
}

/// The value of one field of a record.
#[derive(Drop)]
pub enum Cell {
    /// No value, which a field of any kind may hold.
    Null,
    /// A whole number of 64 bits.
    Int(i64),
    /// A text.
    Text(Text),
    /// A byte string.
    Bytes(ByteString),
}

// Does nothing: its clause tells what the type knows of the numbers.
fn bytes_known(bytes: &[u8])
    ensures { AreBytes bytes.now }
{}

impl Cell {
    /// Whether the cell may stand in a field of this kind: it is null or of the kind.
    pub fn fits(&self, kind: Kind) -> bool
        ensures { result ≡ fits kind self.now }
    {
        match (self, kind) {
            (Cell::Null, _) => true,
            (Cell::Int(_), Kind::Int) => true,
            (Cell::Text(_), Kind::Text) => true,
            (Cell::Bytes(_), Kind::Bytes) => true,
            _ => false,
        }
    }

    /// Whether the cell is null.
    pub fn is_null(&self) -> bool
        ensures { result ≡ is_null self.now }
    {
        matches!(self, Cell::Null)
    }

    /// An equal cell.
    pub fn copy(&self) -> Result<Cell, AllocError>
        ensures { IfOk result (λ copy. copy ≡ self.now) }
    {
        match self {
            Cell::Null => Ok(Cell::Null),
            Cell::Int(value) => Ok(Cell::Int(*value)),
            Cell::Text(value) => Ok(Cell::Text(value.copy()?)),
            Cell::Bytes(value) => Ok(Cell::Bytes(value.copy()?)),
        }
    }

    /// Does nothing: its clause tells a caller's proof that the cell is a value of its type.
    pub fn known(&self)
        ensures { IsCell self.now }
    {
        match self {
            Cell::Null => {}
            Cell::Int(value) => {
                let _value = *value;
            }
            Cell::Text(value) => {
                let _ = value.as_str();
            }
            Cell::Bytes(value) => bytes_known(value.as_slice()),
        }
    }

    /// Appends the pack of the cell, as it stands in the pack of the tuple of cells. Where memory is
    /// wanting some of its bytes may stand there.
    pub fn push_pack(&self, out: &mut Vec<u8>) -> Result<(), AllocError>
        ensures packed { OnOk result (out.new.items
            ≡ out.old.items ++ item_spelling outer (item_of self.now)) }
        ensures cell { IsCell self.now }
    {
        self.known();
        match self {
            Cell::Null => pack_null(out),
            Cell::Int(value) => pack_int(TupleInt::from(*value), out),
            Cell::Text(value) => pack_text(value.as_str(), out),
            Cell::Bytes(value) => pack_bytes(value.as_slice(), out),
        }
    }

    /// What stands behind the pack of the cell, where the bytes begin with it.
    #[inline(always)]
    pub fn strip_pack<'a>(&self, bytes: &'a [u8]) -> Option<&'a [u8]>
        ensures { MatchOption result
            (BeginsWith (item_spelling outer (item_of self.now)) bytes.now → ⊥)
            (λ rest. bytes.now ≡ item_spelling outer (item_of self.now) ++ rest.now) }
    {
        match self {
            Cell::Null => strip_null(bytes),
            Cell::Int(value) => strip_int(TupleInt::from(*value), bytes),
            Cell::Text(value) => strip_text(value.as_str(), bytes),
            Cell::Bytes(value) => strip_bytes(value.as_slice(), bytes),
        }
    }

    // The element of a tuple that the cell is.
    fn element(&self) -> Result<Element, AllocError>
        ensures element { IfOk result (λ element. item_in element ≡ item_of self.now) }
        ensures cell { IsCell self.now }
    {
        self.known();
        match self {
            Cell::Null => Ok(Element::Null),
            Cell::Int(value) => Ok(Element::Int(TupleInt::from(*value))),
            Cell::Text(value) => Ok(Element::Text(value.copy()?)),
            Cell::Bytes(value) => Ok(Element::Bytes(value.copy()?)),
        }
    }
}

// The tuple of elements that nest no tuples.
pub(crate) fn flat_tuple(elements: Vec<Element>) -> Tuple
    requires { nesting (items_in elements.items) ≡ 0 }
    ensures tuple { result ≡ items_in elements.items }
    ensures is_tuple { IsTuple result }
{
    match Tuple::new(elements) {
        Ok(tuple) => {
            let _ = tuple.elements();
            tuple
        }
        Err(_) => unreachable!(),
    }
}

/// The cells of a record, or of a key, in order.
pub struct Cells {
    pub(crate) cells: Vec<Cell>,
}

// Written out, so that no proof of a caller has to take its parts apart where one is dropped.
impl Drop for Cells {
    fn drop(self) {
        let Cells { cells } = self;
        drop(cells);
    }
}

impl Model for Cells {
    ghost use Rattle.std.specs.Prelude.{List};
    ghost use Rattle.metadata.specs.declared.cells.Cell.{Cell};

    ghost Value = { List Cell };

    ghost view = { λ c. c.cells.items };
}

impl Cells {
    /// The list of these cells.
    pub fn new(cells: Vec<Cell>) -> Cells
        ensures { result ≡ cells.items }
    {
        Cells { cells }
    }

    // The cells, handed back as a list.
    #[inline(always)]
    pub(crate) fn into_vec(self) -> Vec<Cell>
        ensures { result.items ≡ self }
    {
        let Cells { cells } = self;
        cells
    }

    /// The cells.
    pub fn as_slice(&self) -> &[Cell]
        ensures { result.now ≡ self.now }
    {
        self.cells.as_slice()
    }

    /// Whether there is a cell for each kind, null or of that kind.
    pub fn fit(&self, kinds: &[Kind]) -> bool
        ensures { result ≡ all_fit kinds.now self.now }
    {
        let cells = self.as_slice();
        if cells.len() != kinds.len() {
            return false;
        }
        cells.iter().zip(kinds).all(|(cell, kind)| cell.fits(*kind))
    }

    /// Whether one of the cells is null.
    pub fn has_null(&self) -> bool
        ensures { result ≡ list_any is_null self.now }
    {
        self.cells.iter().any(Cell::is_null)
    }

    // An equal of the cell at this place, null past the end.
    fn cell_at(&self, place: usize) -> Result<Cell, AllocError>
        ensures { IfOk result (λ cell. cell ≡ cell_at self.now place) }
    {
        match self.cells.get(place) {
            Some(cell) => cell.copy(),
            None => Ok(Cell::Null),
        }
    }

    // Whether the cell at this place is null, as one past the end is.
    fn is_null_at(&self, place: usize) -> bool
        ensures { result ≡ is_null (cell_at self.now place) }
    {
        match self.cells.get(place) {
            Some(cell) => cell.is_null(),
            None => true,
        }
    }

    // Whether the cell at one of these places is null.
    fn is_null_among(&self, places: &[usize]) -> bool
        ensures { result ≡ list_any (λ place. is_null (cell_at self.now place)) places.now }
    {
        places.iter().any(|place| self.is_null_at(*place))
    }

    // Whether one of the cells at these places is null.
    pub(crate) fn has_null_at(&self, places: &Places) -> bool
        ensures { result ≡ list_any is_null (cells_at self.now places.now) }
    {
        let found = self.is_null_among(places.as_slice());
        found
    }

    // What stands behind the pack of the cell at this place, null past the end.
    fn strip_cell_at<'a>(&self, place: usize, bytes: &'a [u8]) -> Option<&'a [u8]>
        ensures { MatchOption result
            (BeginsWith (item_spelling outer (item_of (cell_at self.now place))) bytes.now → ⊥)
            (λ rest. bytes.now ≡ item_spelling outer (item_of (cell_at self.now place)) ++ rest.now) }
    {
        match self.cells.get(place) {
            Some(cell) => cell.strip_pack(bytes),
            None => strip_null(bytes),
        }
    }

    // What stands behind the pack of the tuple of the cells at these places.
    pub(crate) fn strip_at<'a>(&self, places: &Places, bytes: &'a [u8]) -> Option<&'a [u8]>
        ensures { MatchOption result
            (BeginsWith (spelling (items_of (cells_at self.now places.now))) bytes.now → ⊥)
            (λ rest. bytes.now ≡ spelling (items_of (cells_at self.now places.now)) ++ rest.now) }
    {
        let mut rest = bytes;
        for place in places.as_slice() {
            match self.strip_cell_at(*place, rest) {
                Some(behind) => rest = behind,
                None => return None,
            }
        }
        Some(rest)
    }

    /// The cells at these places, null past the end.
    pub fn at(&self, alloc: Global, places: &Places) -> Result<Cells, AllocError>
        ensures { IfOk result (λ cells. cells ≡ cells_at self.now places.now) }
    {
        let mut cells = Vec::with_capacity(alloc, places.as_slice().len())?;
        for place in places.as_slice() {
            cells.push(self.cell_at(*place)?)?;
        }
        Ok(Cells { cells })
    }

    /// Equal cells.
    pub fn copy(&self) -> Result<Cells, AllocError>
        ensures { IfOk result (λ copy. copy ≡ self.now) }
    {
        let mut cells = Vec::with_capacity(*self.cells.allocator(), self.cells.len())?;
        for cell in &self.cells {
            cells.push(cell.copy()?)?;
        }
        Ok(Cells { cells })
    }

    // The elements of the tuple that the cells are, behind these elements.
    pub(crate) fn push_elements(&self, elements: &mut Vec<Element>) -> Result<(), AllocError>
        ensures items { OnOk result (items_in elements.new.items ≡ items_in elements.old.items ++ items_of self.now) }
        ensures cells { OnOk result (All IsCell self.now) }
    {
        for cell in &self.cells {
            elements.push(cell.element()?)?;
        }
        Ok(())
    }

    /// Appends the pack of the tuple of the cells. Where memory is wanting some of its bytes may
    /// stand there.
    pub fn push_pack(&self, out: &mut Vec<u8>) -> Result<(), AllocError>
        ensures packed { OnOk result (out.new.items
            ≡ out.old.items ++ spelling (items_of self.now)) }
        ensures cells { OnOk result (All IsCell self.now) }
    {
        for cell in &self.cells {
            cell.push_pack(out)?;
        }
        Ok(())
    }

    // Appends the pack of the cell at this place, null past the end.
    fn push_cell_at(&self, place: usize, out: &mut Vec<u8>) -> Result<(), AllocError>
        ensures packed { OnOk result (out.new.items
            ≡ out.old.items ++ item_spelling outer (item_of (cell_at self.now place))) }
        ensures cell { OnOk result (IsCell (cell_at self.now place)) }
    {
        match self.cells.get(place) {
            Some(cell) => cell.push_pack(out),
            None => pack_null(out),
        }
    }

    /// Appends the pack of the tuple of the cells at these places, null past the end, without copying
    /// a cell. Where memory is wanting some of its bytes may stand there.
    pub fn push_pack_at(&self, places: &Places, out: &mut Vec<u8>) -> Result<(), AllocError>
        ensures packed { OnOk result (out.new.items
            ≡ out.old.items ++ spelling (items_of (cells_at self.now places.now))) }
        ensures cells { OnOk result (All IsCell (cells_at self.now places.now)) }
    {
        for place in places.as_slice() {
            self.push_cell_at(*place, out)?;
        }
        Ok(())
    }

    /// The tuple of the cells, in order.
    pub fn tuple(&self, alloc: Global) -> Result<Tuple, AllocError>
        ensures tuple { IfOk result (λ tuple. tuple ≡ items_of self.now) }
        ensures is_tuple { IfOk result IsTuple }
        ensures cells { OnOk result (All IsCell self.now) }
    {
        let mut elements = Vec::with_capacity(alloc, self.cells.len())?;
        self.push_elements(&mut elements)?;
        Ok(flat_tuple(elements))
    }
}
