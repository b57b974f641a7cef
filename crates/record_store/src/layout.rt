// The keys and values of a store. Called by the modules here that read or write pairs.
ghost use Rattle.std.specs.Prelude.{◌≡◌, ◌∷◌, [], All, Ok, IfErr, IfOk, IsTrue, OnOk, drop, pos};
ghost use Rattle.tuple_codec.specs.Item.{IsTuple, int};
ghost use Rattle.kv_core.specs.Bytes.{end_of_keys, key_lt};
ghost use Rattle.kv_core.specs.Range.{is_key_range};
ghost use Rattle.metadata.specs.Answers.{IsRefusedAs};
ghost use Rattle.metadata.specs.Cell.{IsCell};
ghost use Rattle.metadata.specs.Layout.{records_prefix};
ghost use Rattle.metadata.specs.Record.{key_in, key_items, primary_key as primary_key_of};
ghost use Rattle.record_store.specs.Building.{positions_range};
ghost use Rattle.record_store.specs.Layout.{built_range, entries_range, packed_in, place, record_key, record_value};
ghost use Rattle.record_store.specs.Layout.{schema_key, state_key, state_number, state_value, states_range, type_range};

use index_maint::{built_place, entries_prefix};
use kv_core::{Bytes, KeyRange};
use metadata::{
    Cells, MetadataError, PLACE_OF_RECORDS, PLACE_OF_SCHEMA, PLACE_OF_STATES, RecordRef, State,
    TypeDefinition,
};
use std::alloc::{AllocError, Global};
use tuple_codec::{Element, Subspace, Tuple, TupleInt, pack, pack_int, pack_into};

// Room for a key after a store's prefix, as long as it mostly is.
const KEY_ROOM: usize = 32;

// Room for the value of a record, as long as it mostly is.
const VALUE_ROOM: usize = 64;

// How many bytes the pack of the place of records has.
const RECORDS_PLACE_SIZE: usize = 2;

// What stands after the first bytes, so many.
pub(crate) fn without_first(bytes: &[u8], count: usize) -> &[u8]
    ensures { result.now ≡ drop count bytes.now }
{
    match bytes.get(count..) {
        Some(rest) => rest,
        None => &[],
    }
}

// The tuple of a number alone.
pub(crate) fn number_tuple(alloc: Global, number: u64) -> Result<Tuple, AllocError>
    ensures { IfOk result (λ tuple. tuple ≡ int (pos number) ∷ []) }
{
    let mut elements = Vec::new(alloc);
    elements.push(Element::Int(TupleInt::from(number)))?;
    match Tuple::new(elements) {
        Ok(tuple) => Ok(tuple),
        Err(_) => unreachable!(),
    }
}

// What the keys of a place begin with.
pub(crate) fn place(alloc: Global, prefix: &[u8], number: u64) -> Result<Vec<u8>, AllocError>
    ensures { IfOk result (λ key. key.items ≡ place prefix.now number) }
{
    let mut key = Vec::with_capacity(alloc, prefix.len().saturating_add(KEY_ROOM))?;
    key.extend_from_slice(prefix)?;
    pack_int(TupleInt::from(number), &mut key)?;
    Ok(key)
}

/// The key of the schema.
pub(crate) fn schema_key(alloc: Global, prefix: &[u8]) -> Result<Bytes, AllocError>
    requires { IsTrue (key_lt prefix.now end_of_keys) }
    ensures key { IfOk result (λ key. key ≡ schema_key prefix.now) }
    ensures below { IfOk result (λ key. IsTrue (key_lt key end_of_keys)) }
{
    let key = place(alloc, prefix, PLACE_OF_SCHEMA)?;
    Ok(Bytes::new(key))
}

/// The range of the states of indexes.
pub(crate) fn states_range(alloc: Global, prefix: &[u8]) -> Result<KeyRange, AllocError>
    requires { IsTrue (key_lt prefix.now end_of_keys) }
    ensures { IfOk result (λ range. range ≡ states_range prefix.now) }
{
    let ends = Subspace::new(place(alloc, prefix, PLACE_OF_STATES)?).range(alloc)?;
    match KeyRange::new(Bytes::new(ends.begin), Bytes::new(ends.end)) {
        Some(range) => Ok(range),
        None => unreachable!(),
    }
}

/// The key of the record with this primary key.
pub(crate) fn record_key(
    alloc: Global,
    prefix: &[u8],
    primary_key: &Tuple,
) -> Result<Bytes, AllocError>
    requires { IsTrue (key_lt prefix.now end_of_keys) }
    ensures key { IfOk result (λ key. key ≡ record_key prefix.now primary_key.now) }
    ensures below { IfOk result (λ key. IsTrue (key_lt key end_of_keys)) }
{
    let mut key = place(alloc, prefix, PLACE_OF_RECORDS)?;
    pack_into(primary_key, &mut key)?;
    Ok(Bytes::new(key))
}

/// The key of a record.
pub(crate) fn key_of_record(
    alloc: Global,
    prefix: &[u8],
    lent: &RecordRef<'_>,
) -> Result<Bytes, AllocError>
    requires { IsTrue (key_lt prefix.now end_of_keys) }
    ensures key { IfOk result (λ key. key ≡ record_key prefix.now (primary_key_of lent.now)) }
    ensures below { IfOk result (λ key. IsTrue (key_lt key end_of_keys)) }
    ensures is_tuple { OnOk result (IsTuple (primary_key_of lent.now)) }
{
    let mut at = place(alloc, prefix, PLACE_OF_RECORDS)?;
    lent.push_primary_key(&mut at)?;
    Ok(Bytes::new(at))
}

/// The key of the record of this type with these key cells. Refused as `push_key` is.
pub(crate) fn key_asked(
    alloc: Global,
    prefix: &[u8],
    definition: &TypeDefinition,
    cells: &Cells,
) -> Result<Bytes, MetadataError>
    requires { IsTrue (key_lt prefix.now end_of_keys) }
    ensures key { IfOk result (λ key.
        key ≡ record_key prefix.now (key_items definition.now.number cells.now)) }
    ensures below { IfOk result (λ key. IsTrue (key_lt key end_of_keys)) }
    ensures made { OnOk result (key_in definition.now cells.now
        ≡ Ok (key_items definition.now.number cells.now)) }
    ensures is_tuple { OnOk result (IsTuple (key_items definition.now.number cells.now)) }
    ensures refused { IfErr result (λ error. IsRefusedAs error (key_in definition.now cells.now)) }
{
    let mut asked = place(alloc, prefix, PLACE_OF_RECORDS)?;
    definition.push_key(cells, &mut asked)?;
    Ok(Bytes::new(asked))
}

/// The pack of the primary key in the key of a record.
pub(crate) fn packed_in<'a>(prefix: &[u8], key: &'a Bytes) -> &'a [u8]
    ensures { result.now ≡ packed_in prefix.now key.now }
{
    let rest = without_first(key.as_slice(), prefix.len());
    without_first(rest, RECORDS_PLACE_SIZE)
}

/// What the key of each record of the type with this number begins with.
pub(crate) fn records_prefix(
    alloc: Global,
    prefix: &[u8],
    number: u64,
) -> Result<Vec<u8>, AllocError>
    ensures { IfOk result (λ front. front.items ≡ records_prefix prefix.now number) }
{
    let mut front = place(alloc, prefix, PLACE_OF_RECORDS)?;
    pack_int(TupleInt::from(number), &mut front)?;
    Ok(front)
}

/// The value of a record with these cells.
pub(crate) fn record_value(alloc: Global, cells: &Cells) -> Result<Bytes, AllocError>
    ensures value { IfOk result (λ value. value ≡ record_value cells.now) }
    ensures cells { OnOk result (All IsCell cells.now) }
{
    let mut value = Vec::with_capacity(alloc, VALUE_ROOM)?;
    cells.push_pack(&mut value)?;
    Ok(Bytes::new(value))
}

/// The range of the records of the type with this number: from the key of the number up to that key followed by FF.
pub(crate) fn type_range(alloc: Global, prefix: &[u8], number: u64) -> Result<KeyRange, AllocError>
    requires { IsTrue (key_lt prefix.now end_of_keys) }
    ensures { IfOk result (λ range. range ≡ type_range prefix.now number) }
{
    let tuple = number_tuple(alloc, number)?;
    let begin = record_key(alloc, prefix, &tuple)?;
    let mut end = Vec::from_slice(alloc, begin.as_slice())?;
    end.push(0xff)?;
    match KeyRange::new(begin, Bytes::new(end)) {
        Some(range) => Ok(range),
        None => unreachable!(),
    }
}

/// The range of the records of the type with this number at positions of a range.
pub(crate) fn positions_range(
    alloc: Global,
    prefix: &[u8],
    number: u64,
    range: &KeyRange,
) -> Result<KeyRange, AllocError>
    requires { IsTrue (key_lt prefix.now end_of_keys) }
    ensures keys { IfOk result (λ keys. keys ≡ positions_range prefix.now number range.now) }
    ensures lawful { OnOk result (IsTrue (is_key_range range.now)) }
{
    let tuple = number_tuple(alloc, number)?;
    let before = record_key(alloc, prefix, &tuple)?;
    let mut begin = Vec::from_slice(alloc, before.as_slice())?;
    begin.extend_from_slice(range.begin().as_slice())?;
    let mut end = Vec::from_slice(alloc, before.as_slice())?;
    end.extend_from_slice(range.end().as_slice())?;
    match KeyRange::new(Bytes::new(begin), Bytes::new(end)) {
        Some(keys) => Ok(keys),
        None => unreachable!(),
    }
}

// The number that stands for a state.
pub(crate) fn state_number(state: State) -> u64
    ensures { result ≡ state_number state }
{
    match state {
        State::Readable => 0,
        State::WriteOnly => 1,
        State::Disabled => 2,
    }
}

/// The key of the state of the index with this number.
pub(crate) fn state_key(alloc: Global, prefix: &[u8], number: u64) -> Result<Bytes, AllocError>
    requires { IsTrue (key_lt prefix.now end_of_keys) }
    ensures key { IfOk result (λ key. key ≡ state_key prefix.now number) }
    ensures below { IfOk result (λ key. IsTrue (key_lt key end_of_keys)) }
{
    let tuple = number_tuple(alloc, number)?;
    let mut key = place(alloc, prefix, PLACE_OF_STATES)?;
    pack_into(&tuple, &mut key)?;
    Ok(Bytes::new(key))
}

/// The value that stands for a state.
pub(crate) fn state_value(alloc: Global, state: State) -> Result<Bytes, AllocError>
    ensures { IfOk result (λ value. value ≡ state_value state) }
{
    let tuple = number_tuple(alloc, state_number(state))?;
    let value = pack(alloc, &tuple)?;
    Ok(Bytes::new(value))
}

/// The range of the built ranges of the index with this number.
pub(crate) fn built_range(alloc: Global, prefix: &[u8], number: u64) -> Result<KeyRange, AllocError>
    requires { IsTrue (key_lt prefix.now end_of_keys) }
    ensures { IfOk result (λ range. range ≡ built_range prefix.now number) }
{
    let place = built_place(alloc, prefix, number)?;
    let ends = Subspace::new(place).range(alloc)?;
    match KeyRange::new(Bytes::new(ends.begin), Bytes::new(ends.end)) {
        Some(range) => Ok(range),
        None => unreachable!(),
    }
}

/// The range of the entries of the index with this number.
pub(crate) fn entries_range(
    alloc: Global,
    prefix: &[u8],
    number: u64,
) -> Result<KeyRange, AllocError>
    requires { IsTrue (key_lt prefix.now end_of_keys) }
    ensures { IfOk result (λ range. range ≡ entries_range prefix.now number) }
{
    let begin = entries_prefix(alloc, prefix, number)?;
    let mut end = Vec::from_slice(alloc, begin.as_slice())?;
    end.push(0xff)?;
    match KeyRange::new(Bytes::new(begin), Bytes::new(end)) {
        Some(range) => Ok(range),
        None => unreachable!(),
    }
}
