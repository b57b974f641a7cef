// What is written to insert a range beside others: those that touch it are joined with it. Called
// by `ranges`.
ghost use Rattle.std.specs.Prelude.{◌≡◌, IfOk, IsTrue};
ghost use Rattle.kv_core.specs.Bytes.{end_of_keys, key_lt};
ghost use Rattle.kv_core.specs.Range.{has_keys, point};
ghost use Rattle.range_set.specs.Stored.{IsStoredRange, begin_of_left, begins_at, end_of_right};
ghost use Rattle.range_set.specs.Stored.{insertion, range_key};

use crate::decoding::bytes_known;
use crate::layout::range_key;
use kv_core::{Bytes, KeyRange, Mutation};
use std::alloc::{AllocError, Global};

// Where the range begins that ends at a position, or that position where none does.
fn begin_of_left<'a>(ranges: &'a [KeyRange], position: &'a Bytes) -> &'a Bytes
    ensures { result.now ≡ begin_of_left ranges.now position.now }
{
    for range in ranges {
        if range.end().compare(position).is_eq() {
            return range.begin();
        }
    }
    position
}

// Where the range ends that begins at a position, or that position where none does.
fn end_of_right<'a>(ranges: &'a [KeyRange], position: &'a Bytes) -> &'a Bytes
    ensures { result.now ≡ end_of_right ranges.now position.now }
{
    for range in ranges {
        if range.begin().compare(position).is_eq() {
            return range.end();
        }
    }
    position
}

// Whether a range begins at a position.
fn begins_at(ranges: &[KeyRange], position: &Bytes) -> bool
    ensures { result ≡ begins_at ranges.now position.now }
{
    ranges
        .iter()
        .any(|range| range.begin().compare(position).is_eq())
}

// The mutation that puts the range from a begin to an end.
fn put(alloc: Global, place: &[u8], begin: &Bytes, end: &Bytes) -> Result<Mutation, AllocError>
    ensures { IfOk result (λ mutation.
        mutation ≡ Mutation.Set (range_key place.now begin.now) end.now) }
{
    let key = range_key(alloc, place, begin.as_slice())?;
    let value = end.copy()?;
    Ok(Mutation::Set { key, value })
}

// The mutation that takes out the range that begins at a position.
fn take_out(alloc: Global, place: &[u8], position: &Bytes) -> Result<Mutation, AllocError>
    requires { IsTrue (key_lt place.now end_of_keys) }
    ensures { IfOk result (λ mutation.
        mutation ≡ Mutation.ClearRange (point (range_key place.now position.now))) }
{
    let key = range_key(alloc, place, position.as_slice())?;
    let range = KeyRange::point(alloc, &key)?;
    Ok(Mutation::ClearRange(range))
}

/// What is written to insert a range beside these.
pub(crate) fn insertion(
    alloc: Global,
    place: &[u8],
    ranges: &[KeyRange],
    range: &KeyRange,
) -> Result<Vec<Mutation>, AllocError>
    requires { IsTrue (key_lt place.now end_of_keys) }
    ensures { IfOk result (λ mutations.
        mutations.items ≡ insertion place.now ranges.now range.now) }
{
    let begin = begin_of_left(ranges, range.begin());
    let end = end_of_right(ranges, range.end());
    let mut mutations = Vec::new(alloc);
    mutations.push(put(alloc, place, begin, end)?)?;
    if begins_at(ranges, range.end()) {
        mutations.push(take_out(alloc, place, range.end())?)?;
    }
    Ok(mutations)
}

/// Does nothing: its clause tells what the types know of a range that has a position.
pub(crate) fn range_known(range: &KeyRange)
    requires { IsTrue (has_keys range.now) }
    ensures { IsStoredRange range.now }
{
    bytes_known(range.begin().as_slice());
    bytes_known(range.end().as_slice());
}
