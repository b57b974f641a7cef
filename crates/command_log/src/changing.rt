// Changes and entries, as tuples. What is passed over as they are read, as the number of the form,
// is told by the entry's own bytes, with which those that are read are compared. Called by `form`.
ghost use Rattle.std.specs.Prelude.{◌≡◌, [], ◌∷◌, IfOk, OnOk};
ghost use Rattle.tuple_codec.specs.Elements.{item_in, items_in};
ghost use Rattle.metadata.specs.Written.{number_item};
ghost use Rattle.command_log.specs.Depth.{shallow-changes};
ghost use Rattle.command_log.specs.Form.{IsChange, IsEntry, change_item, change_parts};
ghost use Rattle.command_log.specs.Form.{tuple_of_entry};
ghost use Rattle.command_log.specs.Reading.{build_in, cells_change, cells_change_in, change_by};
ghost use Rattle.command_log.specs.Reading.{change_in, create_in, entry_in, field_change_in};
ghost use Rattle.command_log.specs.Reading.{name_change, of_tuple};

use crate::change::{Change, Changes};
use crate::entry::Entry;
use crate::numbers::{limit_at, number, number_at, small_at};
use crate::part::{Part, list, list_at, nested, part_at, tuple_in};
use metadata::{Cells, SchemaRequest};
use std::alloc::{AllocError, Global};
use tuple_codec::{Element, Text, Tuple};

/// The form that is written here.
const FORM: u64 = 1;

/// A number, and one element behind it.
fn two(alloc: Global, first: u64, second: Element) -> Result<Vec<Element>, AllocError>
    ensures { IfOk result (λ parts. items_in parts.items
        ≡ number_item first ∷ item_in second ∷ []) }
{
    let mut parts = Vec::with_capacity(alloc, 2)?;
    parts.push(number(first))?;
    parts.push(second)?;
    Ok(parts)
}

/// A number, and two elements behind it.
fn three(
    alloc: Global,
    first: u64,
    second: Element,
    third: Element,
) -> Result<Vec<Element>, AllocError>
    ensures { IfOk result (λ parts. items_in parts.items
        ≡ number_item first ∷ item_in second ∷ item_in third ∷ []) }
{
    let mut parts = two(alloc, first, second)?;
    parts.push(third)?;
    Ok(parts)
}

/// The parts of a change: its number, and what it says.
fn parts_of(alloc: Global, change: &Change) -> Result<Vec<Element>, AllocError>
    ensures parts { IfOk result (λ parts. items_in parts.items ≡ change_parts change.now) }
    ensures known { OnOk result (IsChange change.now) }
{
    match change {
        Change::Create(asked) => {
            let types = list(alloc, asked.types())?;
            three(alloc, 1, types, list(alloc, asked.indexes())?)
        }
        Change::Type(asked) => two(alloc, 2, asked.element(alloc)?),
        Change::Field(name, field) => {
            three(alloc, 3, name.element(alloc)?, field.element(alloc)?)
        }
        Change::Index(asked) => two(alloc, 4, asked.element(alloc)?),
        Change::Save(name, cells) => {
            let name = name.element(alloc)?;
            three(alloc, 5, name, list(alloc, cells.as_slice())?)
        }
        Change::Remove(name, cells) => {
            let name = name.element(alloc)?;
            three(alloc, 6, name, list(alloc, cells.as_slice())?)
        }
        Change::Drop(name) => two(alloc, 7, name.element(alloc)?),
        Change::Disable(name) => two(alloc, 8, name.element(alloc)?),
        Change::WriteOnly(name) => two(alloc, 9, name.element(alloc)?),
        Change::Readable(name) => two(alloc, 10, name.element(alloc)?),
        Change::Build(name, limit) => {
            let limit = number(u64::from(*limit));
            three(alloc, 11, name.element(alloc)?, limit)
        }
    }
}

/// The change that makes the store.
fn create_in(alloc: Global, tuple: &Tuple) -> Result<Option<Change>, AllocError>
    ensures { IfOk result (λ change. change ≡ create_in tuple.now) }
{
    let Some(types) = list_at(alloc, tuple, 1)? else {
        return Ok(None);
    };
    match list_at(alloc, tuple, 2)? {
        Some(indexes) => Ok(Some(Change::Create(SchemaRequest::new(types, indexes)))),
        None => Ok(None),
    }
}

/// The change that appends a field.
fn field_change_in(alloc: Global, tuple: &Tuple) -> Result<Option<Change>, AllocError>
    ensures { IfOk result (λ change. change ≡ field_change_in tuple.now) }
{
    let Some(name) = part_at(alloc, tuple, 1)? else {
        return Ok(None);
    };
    match part_at(alloc, tuple, 2)? {
        Some(field) => Ok(Some(Change::Field(name, field))),
        None => Ok(None),
    }
}

/// The change of this number that is one of a name and cells.
fn cells_change(number: u8, name: Text, cells: Cells) -> Change
    ensures { result ≡ cells_change number name cells }
{
    if number == 5 {
        Change::Save(name, cells)
    } else {
        Change::Remove(name, cells)
    }
}

/// The change of this number, which is one of a name and cells, that a tuple is.
fn cells_change_in(alloc: Global, number: u8, tuple: &Tuple) -> Result<Option<Change>, AllocError>
    ensures { IfOk result (λ change. change ≡ cells_change_in number tuple.now) }
{
    let Some(name) = part_at(alloc, tuple, 1)? else {
        return Ok(None);
    };
    match list_at(alloc, tuple, 2)? {
        Some(cells) => Ok(Some(cells_change(number, name, Cells::new(cells)))),
        None => Ok(None),
    }
}

/// The change that builds a part of an index.
fn build_in(alloc: Global, tuple: &Tuple) -> Result<Option<Change>, AllocError>
    ensures { IfOk result (λ change. change ≡ build_in tuple.now) }
{
    let Some(name) = part_at(alloc, tuple, 1)? else {
        return Ok(None);
    };
    match limit_at(tuple, 2) {
        Some(limit) => Ok(Some(Change::Build(name, limit))),
        None => Ok(None),
    }
}

/// The change of this number that is one of a name alone.
fn name_change(number: u8, name: Text) -> Option<Change>
    ensures { result ≡ name_change number name }
{
    match number {
        7 => Some(Change::Drop(name)),
        8 => Some(Change::Disable(name)),
        9 => Some(Change::WriteOnly(name)),
        10 => Some(Change::Readable(name)),
        _ => None,
    }
}

/// The change of this number that a tuple is.
fn change_by(alloc: Global, number: u8, tuple: &Tuple) -> Result<Option<Change>, AllocError>
    ensures { IfOk result (λ change. change ≡ change_by number tuple.now) }
{
    match number {
        1 => create_in(alloc, tuple),
        2 => Ok(part_at(alloc, tuple, 1)?.map(Change::Type)),
        3 => field_change_in(alloc, tuple),
        4 => Ok(part_at(alloc, tuple, 1)?.map(Change::Index)),
        5 | 6 => cells_change_in(alloc, number, tuple),
        11 => build_in(alloc, tuple),
        _ => match part_at(alloc, tuple, 1)? {
            Some(name) => Ok(name_change(number, name)),
            None => Ok(None),
        },
    }
}

/// The change that a tuple is.
fn change_in(alloc: Global, tuple: &Tuple) -> Result<Option<Change>, AllocError>
    ensures { IfOk result (λ change. change ≡ change_in tuple.now) }
{
    match small_at(tuple, 0) {
        Some(number) => change_by(alloc, number, tuple),
        None => Ok(None),
    }
}

impl Part for Change {
    ghost item = { change_item };

    ghost is = { IsChange };

    ghost read = { of_tuple change_in };

    fn element(&self, alloc: Global) -> Result<Element, AllocError> {
        Ok(nested(parts_of(alloc, self)?))
    }

    fn of(alloc: Global, element: &Element) -> Result<Option<Change>, AllocError> {
        match tuple_in(element) {
            Some(tuple) => change_in(alloc, tuple),
            None => Ok(None),
        }
    }

    ghost shallow = { shallow-changes };
}

/// The tuple of an entry.
pub(crate) fn entry_tuple(alloc: Global, entry: &Entry) -> Result<Tuple, AllocError>
    ensures tuple { IfOk result (λ tuple. tuple ≡ tuple_of_entry entry.now) }
    ensures known { OnOk result (IsEntry entry.now) }
{
    let mut parts = Vec::with_capacity(alloc, 6)?;
    parts.push(number(FORM))?;
    parts.push(number(entry.version))?;
    parts.push(number(entry.client))?;
    parts.push(number(entry.number))?;
    parts.push(number(entry.store))?;
    parts.push(list(alloc, entry.changes.as_slice())?)?;
    let Ok(tuple) = Tuple::new(parts) else {
        unreachable!();
    };
    let _ = tuple.elements();
    Ok(tuple)
}

/// The entry that a tuple is.
pub(crate) fn entry_in(alloc: Global, tuple: &Tuple) -> Result<Option<Entry>, AllocError>
    ensures { IfOk result (λ entry. entry ≡ entry_in tuple.now) }
{
    let Some(version) = number_at(tuple, 1) else {
        return Ok(None);
    };
    let Some(client) = number_at(tuple, 2) else {
        return Ok(None);
    };
    let Some(number) = number_at(tuple, 3) else {
        return Ok(None);
    };
    let Some(store) = number_at(tuple, 4) else {
        return Ok(None);
    };
    let Some(changes) = list_at(alloc, tuple, 5)? else {
        return Ok(None);
    };
    Ok(Some(Entry {
        version,
        client,
        number,
        store,
        changes: Changes::new(changes),
    }))
}
