// Which pairs of an index's entries are of the written form. An entry is told by its bytes: its
// cells are looked at one after another, and none is kept. Called by `readers`, `record_streams`
// and `packing`.
ghost use Rattle.std.specs.Prelude.{◌≡◌, ◌<◌, ◌^◌, ◌&&◌, ◌++◌, List, ℕ, IfOk, IsTrue};
ghost use Rattle.std.specs.Prelude.{MatchOption, None, drop, not, pos};
ghost use Rattle.std.specs.List.{list_any};
ghost use Rattle.kv_core.specs.Bytes.{end_of_keys, key_lt};
ghost use Rattle.metadata.specs.declared.cells.Cell.TheVariants.{Int};
ghost use Rattle.metadata.specs.Cell.{all_fit, is_null};
ghost use Rattle.metadata.specs.Schema.{key_kinds, kind_at};
ghost use Rattle.metadata.specs.Stored.{BeginsWithCell};
ghost use Rattle.planner.specs.Layout.{column_kinds, is_primary_key};
ghost use Rattle.plan_exec.specs.Decoding.{AreAfter, EndsWithKey, IsFormOf, NoneAreAfter};
ghost use Rattle.plan_exec.specs.Decoding.{entry_key_in, is_pack_of};
ghost use Rattle.plan_exec.specs.Reads.{stored_entry};

use crate::entry::{Entry, EntryForm};
use crate::keys::entries_key;
use kv_core::Pair;
use metadata::{Cell, Field, IndexDefinition, Kind, TypeDefinition};
use record_store::Store;
use std::alloc::{AllocError, Global};
use tuple_codec::{TupleInt, strip_int};

// The kind of the field at this place.
fn kind_at(fields: &[Field], place: usize) -> Option<Kind>
    ensures { result ≡ kind_at fields.now place }
{
    fields.get(place).map(|field| field.kind)
}

// The kinds of an index's columns.
fn column_kinds(
    alloc: Global,
    definition: &TypeDefinition,
    index: &IndexDefinition,
) -> Result<Vec<Kind>, AllocError>
    ensures { IfOk result (λ kinds. kinds.items ≡ column_kinds definition.now index.now) }
{
    index
        .columns
        .as_slice()
        .iter()
        .filter_map(|place| kind_at(definition.fields.as_slice(), *place))
        .collect(alloc)
}

// Of what form the entries of an index over the type are.
pub(crate) fn entry_form(
    store: &Store,
    definition: &TypeDefinition,
    index: &IndexDefinition,
) -> Result<EntryForm, AllocError>
    ensures form { IfOk result (IsFormOf store.now.prefix definition.now index.now) }
    ensures below { IfOk result (λ form. (rest : List ℕ) →
        IsTrue (key_lt (form.front.items ++ rest) end_of_keys)) }
{
    let front = entries_key(store, index)?;
    let columns = column_kinds(store.alloc(), definition, index)?;
    let key = definition.key_kinds(store.alloc())?;
    Ok(EntryForm {
        front,
        columns,
        key,
    })
}

// What stands after the packs of cells of these kinds, null or not. None where others stand there.
pub(crate) fn after_columns<'a>(
    alloc: Global,
    kinds: &[Kind],
    bytes: &'a [u8],
) -> Result<Option<&'a [u8]>, AllocError>
    ensures { IfOk result (λ found. MatchOption found
        (NoneAreAfter kinds.now bytes.now) (λ rest. AreAfter kinds.now rest.now bytes.now)) }
{
    let mut rest = bytes;
    for kind in kinds {
        match Cell::skip_pack(alloc, *kind, rest)? {
            Some(after) => rest = after,
            None => return Ok(None),
        }
    }
    Ok(Some(rest))
}

// No cell is so great a number, or a greater one.
const BEYOND_CELLS: u64 = 1 << 63;

// What stands after the pack of a type's number, where that is a cell's.
#[inline(always)]
pub(crate) fn after_number(number: u64, bytes: &[u8]) -> Option<&[u8]>
    ensures told { MatchOption result
        ((rest : List ℕ) → BeginsWithCell (Int (pos number)) rest bytes.now → ⊥)
        (λ rest. BeginsWithCell (Int (pos number)) rest.now bytes.now) }
    ensures fits { number < 2 ^ 64 }
{
    if number < BEYOND_CELLS {
        strip_int(TupleInt::from(number), bytes)
    } else {
        None
    }
}

// Whether the bytes are the pack of cells of these kinds, none of them null.
fn is_key(alloc: Global, kinds: &[Kind], bytes: &[u8]) -> Result<bool, AllocError>
    ensures { IfOk result (λ so. so ≡ is_pack_of
        (λ cells. all_fit kinds.now cells && not (list_any is_null cells)) bytes.now) }
{
    let mut rest = bytes;
    for kind in kinds {
        match Cell::skip_value(alloc, *kind, rest)? {
            Some(after) => rest = after,
            None => return Ok(false),
        }
    }
    Ok(rest.is_empty())
}

// Whether the bytes are the pack of the primary key of a record of the type.
fn is_primary_key(
    alloc: Global,
    definition: &TypeDefinition,
    kinds: &[Kind],
    bytes: &[u8],
) -> Result<bool, AllocError>
    requires { kinds.now ≡ key_kinds definition.now }
    ensures { IfOk result (λ so. so ≡ is_pack_of (is_primary_key definition.now) bytes.now) }
{
    match after_number(definition.number, bytes) {
        Some(key) => {
            let so = is_key(alloc, kinds, key)?;
            Ok(so)
        }
        None => Ok(false),
    }
}

// The pack of the primary key at the end of an entry's bytes, if they are those of one.
fn primary_key_in<'a>(
    alloc: Global,
    definition: &TypeDefinition,
    index: &IndexDefinition,
    form: &EntryForm,
    bytes: &'a [u8],
) -> Result<Option<&'a [u8]>, AllocError>
    requires columns { form.now.columns.items ≡ column_kinds definition.now index.now }
    requires key { form.now.key.items ≡ key_kinds definition.now }
    ensures { IfOk result (λ found. MatchOption found
        (entry_key_in definition.now index.now bytes.now ≡ None)
        (λ rest. EndsWithKey definition.now index.now rest.now bytes.now)) }
{
    if form.columns.len() != index.columns.as_slice().len() {
        return Ok(None);
    }
    let Some(rest) = after_columns(alloc, form.columns.as_slice(), bytes)? else {
        return Ok(None);
    };
    if is_primary_key(alloc, definition, form.key.as_slice(), rest)? {
        Ok(Some(rest))
    } else {
        Ok(None)
    }
}

// What stands after so many bytes.
fn after(count: usize, bytes: &[u8]) -> &[u8]
    ensures { result.now ≡ drop count bytes.now }
{
    if count < bytes.len() {
        &bytes[count..]
    } else {
        &bytes[bytes.len()..]
    }
}

// The entry that a pair stands for, if it is of the written form.
pub(crate) fn entry_in(
    store: &Store,
    definition: &TypeDefinition,
    index: &IndexDefinition,
    form: &EntryForm,
    pair: &Pair,
) -> Result<Option<Entry>, AllocError>
    requires { IsFormOf store.now.prefix definition.now index.now form.now }
    ensures { IfOk result (λ entry. entry ≡ stored_entry store.now.prefix definition.now index.now pair.now) }
{
    if !pair.1.as_slice().is_empty() {
        return Ok(None);
    }
    let key = pair.0.as_slice();
    let bytes = after(form.front.len(), key);
    match primary_key_in(store.alloc(), definition, index, form, bytes)? {
        Some(primary_key) => {
            let at = key.len() - primary_key.len();
            Ok(Some(Entry::new(pair.0.copy()?, at)))
        }
        None => Ok(None),
    }
}
