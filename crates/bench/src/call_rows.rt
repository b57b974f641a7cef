// Records, printed as the shell of SQLite does. Called by `calls`.
use itoa::Buffer;
use metadata::{Cell, Cells, unpack_cell};
use std::alloc::Global;
use std::io::{self, Write};

fn write_cell<W: Write>(output: &mut W, cell: &Cell) -> io::Result<()> {
    match cell {
        Cell::Int(number) => output.write_all(Buffer::new().format(*number).as_bytes()),
        Cell::Text(text) => output.write_all(text.as_str().as_bytes()),
        _ => Ok(()),
    }
}

/// Prints a row: a bar between two cells.
pub fn write_row<W: Write>(output: &mut W, cells: &Cells) -> io::Result<()> {
    for (place, cell) in cells.as_slice().iter().enumerate() {
        if place > 0 {
            output.write_all(b"|")?;
        }
        write_cell(output, cell)?;
    }
    output.write_all(b"\n")
}

// Prints a cell of a pack, after a bar where it isn't the first one.
fn write_next<W: Write>(output: &mut W, cell: Cell, is_first: bool) -> io::Result<()> {
    if !is_first {
        output.write_all(b"|")?;
    }
    write_cell(output, &cell)
}

/// Prints the row whose pack the bytes are.
pub fn write_pack<W: Write>(alloc: Global, output: &mut W, pack: &[u8]) -> io::Result<()> {
    let mut rest = pack;
    while let Some((cell, after)) = unpack_cell(alloc, rest)? {
        write_next(output, cell, rest.len() == pack.len())?;
        rest = after;
    }
    output.write_all(b"\n")
}
