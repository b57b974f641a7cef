//! The words that tell what a range says of columns. Called by `ranges`.
ghost use Rattle.std.specs.Prelude.{◌≡◌, ◌++◌, codes, IfOk, OnOk, map, string_bytes};
ghost use Rattle.serde_json.specs.Written.{compact_text};
ghost use Rattle.json_forms.specs.CellJson.{cell_data};
ghost use Rattle.planner.specs.Match.{name_at};
ghost use Rattle.explain.specs.Shown.{and_all, bound_text, compared, equalities, equality, name_behind, told_text};
ghost use Rattle.explain.specs.View.{bound_shown};

use crate::bounds::Bound;
use json_forms::cell_text;
use metadata::{Cell, TypeDefinition};
use std::alloc::{AllocError, Global};
use tuple_codec::Text;

// The name of the field at a place.
fn name_at(definition: &TypeDefinition, place: usize) -> &str
    ensures { result.now ≡ name_at definition.now place }
{
    match definition.fields.as_slice().get(place) {
        Some(field) => field.name.as_str(),
        None => "",
    }
}

// The name of the column behind so many others.
fn name_behind<'a>(definition: &'a TypeDefinition, columns: &[usize], fixed: usize) -> &'a str
    ensures { result.now ≡ name_behind definition.now columns.now fixed }
{
    match columns.get(fixed) {
        Some(place) => name_at(definition, *place),
        None => "",
    }
}

// A column and a cell, with a word between them.
fn compared(alloc: Global, name: &str, word: &str, cell: &Cell) -> Result<Text, AllocError>
    ensures { IfOk result (λ text. text ≡ compared name.now word.now cell.now) }
{
    let value = cell_text(alloc, cell)?;
    let mut text = String::from_str(alloc, name)?;
    text.push_str(word)?;
    text.push_str(value.as_str())?;
    Ok(Text::new(text))
}

// The cell of a column.
fn equality(alloc: Global, name: &str, cell: &Cell) -> Result<Text, AllocError>
    ensures { IfOk result (λ text. text ≡ equality name.now cell.now) }
{
    match cell {
        Cell::Null => {
            let mut text = String::from_str(alloc, name)?;
            text.push_str(" is null")?;
            Ok(Text::new(text))
        }
        _ => compared(alloc, name, " = ", cell),
    }
}

// A bound on a column.
fn bound_text(alloc: Global, name: &str, bound: Bound) -> Result<Text, AllocError>
    ensures { IfOk result (λ text. text ≡ bound_text name.now (bound_shown bound.entry)) }
{
    match bound {
        Bound::Above(cell) => compared(alloc, name, " > ", cell),
        Bound::From(cell) => compared(alloc, name, " >= ", cell),
        Bound::Below(cell) => compared(alloc, name, " < ", cell),
        Bound::UpTo(cell) => compared(alloc, name, " <= ", cell),
        Bound::Prefixed(cell) => compared(alloc, name, " starts ", cell),
    }
}

// Adds the cells of the first columns.
fn push_equalities(
    alloc: Global,
    conditions: &mut Vec<Text>,
    definition: &TypeDefinition,
    columns: &[usize],
    cells: &[Cell],
) -> Result<(), AllocError>
    ensures { OnOk result (conditions.new.items
        ≡ conditions.old.items ++ equalities definition.now columns.now cells.now) }
{
    let [column, columns @ ..] = columns else {
        return Ok(());
    };
    let [cell, cells @ ..] = cells else {
        return Ok(());
    };
    conditions.push(equality(alloc, name_at(definition, *column), cell)?)?;
    push_equalities(alloc, conditions, definition, columns, cells)
}

// Adds the bounds on a column.
fn push_bounds(
    alloc: Global,
    conditions: &mut Vec<Text>,
    name: &str,
    bounds: &[Bound],
) -> Result<(), AllocError>
    ensures { OnOk result (conditions.new.items
        ≡ conditions.old.items ++ map (bound_text name.now) (map bound_shown bounds.now)) }
{
    for bound in bounds {
        conditions.push(bound_text(alloc, name, *bound)?)?;
    }
    Ok(())
}

// Writes conditions, with `and` between each two.
fn push_all(text: &mut String, conditions: &[Text]) -> Result<(), AllocError>
    ensures { OnOk result (string_bytes text.new ≡ string_bytes text.old ++ and_all conditions.now) }
{
    match conditions {
        [] => text.push_str("all"),
        [only] => text.push_str(only.as_str()),
        [first, rest @ ..] => {
            text.push_str(first.as_str())?;
            text.push_str(" and ")?;
            push_all(text, rest)
        }
    }
}

/// What the cells of the first columns and the bounds on the next one tell.
pub(crate) fn told_text(
    alloc: Global,
    definition: &TypeDefinition,
    columns: &[usize],
    fixed: &[Cell],
    bounds: &[Bound],
) -> Result<String, AllocError>
    ensures { IfOk result (λ text. string_bytes text ≡ told_text definition.now columns.now
        (record { fixed = fixed.now; bounds = map bound_shown bounds.now })) }
{
    let name = name_behind(definition, columns, fixed.len());
    let mut conditions = Vec::new(alloc);
    push_equalities(alloc, &mut conditions, definition, columns, fixed)?;
    push_bounds(alloc, &mut conditions, name, bounds)?;
    let mut text = String::new(alloc);
    push_all(&mut text, conditions.as_slice())?;
    Ok(text)
}
