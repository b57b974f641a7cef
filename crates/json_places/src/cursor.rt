// Lines and columns. Called by `script_check`.
ghost use Rattle.std.specs.Prelude.{◌≡◌, ◌≤◌, fold, length, min};
ghost use Rattle.json_places.specs.Places.{column_at, column_after, line_at, line_after};

use std::marker::Model;

/// A place of a text as people count: lines and characters, both from 1.
#[derive(Clone, Copy, Debug, PartialEq, Eq, Drop)]
pub struct Place {
    /// The line.
    pub line: usize,
    /// The character in it.
    pub column: usize,
}

/// Finds the lines and columns of places of a text, fast where they are asked for in their order.
#[derive(Drop)]
pub struct Cursor<'a> {
    text: &'a [u8],
    at: usize,
    place: Place,
}

impl<'a> Model for Cursor<'a> {
    ghost use Rattle.std.specs.Prelude.{◌≡◌, ◌≤◌, ℕ, List, length};
    ghost use Rattle.json_places.specs.Places.{column_at, line_at};

    ghost Value = { List ℕ };

    ghost view = { λ c. c.text.now };

    ghost invariant = { λ c. (c.at ≤ length c.text.now) × (c.place.line ≡ line_at c.text.now c.at)
        × (c.place.column ≡ column_at c.text.now c.at) };
}

// Where a text begins.
const BEGIN: Place = Place { line: 1, column: 1 };

// The place after a byte.
fn after(place: Place, byte: u8) -> Place
    ensures line { result.line ≡ line_after place.line byte }
    ensures column { result.column ≡ column_after place.column byte }
{
    match byte {
        b'\n' => Place {
            line: place.line.saturating_add(1),
            column: 1,
        },
        0x80..=0xbf => place,
        _ => Place {
            line: place.line,
            column: place.column.saturating_add(1),
        },
    }
}

// The place after bytes.
fn place_after(place: Place, bytes: &[u8]) -> Place
    ensures line { result.line ≡ fold line_after place.line bytes.now }
    ensures column { result.column ≡ fold column_after place.column bytes.now }
{
    let mut place = place;
    for byte in bytes {
        place = after(place, *byte);
    }
    place
}

// The place of a byte of a text, or of its end, from a byte before it whose place is known.
#[tactic(auto, using(crate::proofs::Folds::fold_between))]
fn place_from(text: &[u8], from: usize, known: Place, wanted: usize) -> Place
    requires ahead { from ≤ wanted }
    requires within { wanted ≤ length text.now }
    requires line { known.line ≡ line_at text.now from }
    requires column { known.column ≡ column_at text.now from }
    ensures line { result.line ≡ line_at text.now wanted }
    ensures column { result.column ≡ column_at text.now wanted }
{
    place_after(known, &text[from..wanted])
}

impl<'a> Cursor<'a> {
    /// One at the beginning of a text.
    pub fn new(text: &'a [u8]) -> Cursor<'a>
        ensures { result ≡ text.now }
    {
        Cursor {
            text,
            at: 0,
            place: BEGIN,
        }
    }

    /// The line and the column of a byte, or of the text's end.
    pub fn place_of(&mut self, at: usize) -> Place
        ensures line { result.line ≡ line_at self.old (min at (length self.old)) }
        ensures column { result.column ≡ column_at self.old (min at (length self.old)) }
        ensures text { self.new ≡ self.old }
    {
        let wanted = at.min(self.text.len());
        self.place = if wanted < self.at {
            place_from(self.text, 0, BEGIN, wanted)
        } else {
            place_from(self.text, self.at, self.place, wanted)
        };
        self.at = wanted;
        self.place
    }
}
