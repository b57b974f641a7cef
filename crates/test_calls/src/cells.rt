// Cells, their order and their copies, and copies of states. Run as tests.
use metadata::{Cell, Cells, Kind, Places, State, States};
use std::alloc::Global;
use std::test::Fail;
use test_parts::{cells_asked, has_digits, holds, tells};
use tuple_codec::pack;

/// Cells in their order.
const RISING: &str =
    r#"[null,{"hex":""},{"hex":"00"},{"hex":"0001"},{"hex":"01"},"","aa","b",-256,-255,-1,0,255,256]"#;

/// The cell at a place is ordered beside each of these, which rise, as their places are.
fn stands_at(cell: &Cell, place: usize, cells: &[Cell]) -> Result<(), Fail> {
    for (other, one) in cells.iter().enumerate() {
        holds(cell.compare(one) == place.cmp(&other), "cells that rise")?;
    }
    Ok(())
}

fn cells_rise(cells: &[Cell]) -> Result<(), Fail> {
    for (place, cell) in cells.iter().enumerate() {
        stands_at(cell, place, cells)?;
    }
    Ok(())
}

/// Two lists of cells, and how they are ordered.
static ORDERED: [(&str, &str, &str); 3] = [
    ("[1]", "[1,null]", "Less"),
    ("[2]", "[1,null]", "Greater"),
    ("[1]", "[1]", "Equal"),
];

fn ordered(alloc: Global, first: &str, second: &str, told: &str) -> Result<(), Fail> {
    let first = cells_asked(alloc, first)?;
    let second = cells_asked(alloc, second)?;
    tells(alloc, &first.compare(&second), told)
}

#[test]
fn cells_and_lists_are_ordered(rt: HostRuntime) -> Result<(), Fail> {
    cells_rise(cells_asked(rt.alloc(), RISING)?.as_slice())?;
    for (first, second, told) in &ORDERED {
        ordered(rt.alloc(), first, second, told)?;
    }
    Ok(())
}

/// A copy of a text and of a byte string, taken at the places 1, 0 and 2, the last of which is past the end.
fn at_places(alloc: Global) -> Result<Cells, Fail> {
    let places = Places::new(Vec::from_slice(alloc, &[1, 0, 2])?);
    let cells = cells_asked(alloc, r#"["x",{"hex":""}]"#)?.at(alloc, &places)?;
    Ok(cells.copy()?)
}

/// A copy of each cell fits a kind that is none of theirs exactly where it is null.
fn only_null_fits(cells: &[Cell], kind: Kind) -> Result<(), Fail> {
    for cell in cells {
        let copy = cell.copy()?;
        holds(copy.fits(kind) == copy.is_null(), "a copy")?;
    }
    Ok(())
}

fn are_taken(alloc: Global) -> Result<(), Fail> {
    let cells = at_places(alloc)?;
    holds(cells.has_null(), "a place past the end")?;
    only_null_fits(cells.as_slice(), Kind::Int)?;
    let bytes = pack(alloc, &cells.tuple(alloc)?)?;
    has_digits(alloc, &bytes, "010002780000")
}

#[test]
fn cells_and_states_are_copied(rt: HostRuntime) -> Result<(), Fail> {
    are_taken(rt.alloc())?;
    let states = [State::Readable, State::WriteOnly, State::Disabled];
    let copy = States::new(Vec::from_slice(rt.alloc(), &states)?).copy()?;
    tells(
        rt.alloc(),
        &copy.as_slice(),
        "[Readable, WriteOnly, Disabled]",
    )
}
