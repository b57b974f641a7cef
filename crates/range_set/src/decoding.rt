// The ranges that pairs stand for. Called by `reading` and `ranges`; `bytes_known` also by
// `inserting`, for its proof.
ghost use Rattle.std.specs.Prelude.{◌≡◌, IfErr, IfOk};
ghost use Rattle.tuple_codec.specs.Item.{AreBytes};
ghost use Rattle.range_set.specs.Steps.{HaveNoRanges, IsNext, IsNoStoredRange, IsNotNext};
ghost use Rattle.range_set.specs.Steps.{IsPairOfNoRange, IsPairOfRange};
ghost use Rattle.range_set.specs.Steps.{IsSpelledAs, IsUnspelled, only_bytes};
ghost use Rattle.range_set.specs.Stored.{ArePairsOf, IsStoredRange};

use crate::error::RangeSetError;
use kv_core::{Bytes, KeyRange, Pair};
use std::alloc::Global;
use tuple_codec::{Element, StripError, Subspace, Tuple};

// Does nothing: its clause tells what the type knows of the numbers.
pub(crate) fn bytes_known(bytes: &[u8])
    ensures { AreBytes bytes.now }
{}

// The only element of a tuple, if that is bytes.
fn only_bytes(tuple: Tuple) -> Option<Bytes>
    ensures { result ≡ only_bytes tuple }
{
    let mut elements = tuple.into_elements();
    if elements.len() != 1 {
        return None;
    }
    match elements.pop() {
        Some(Element::Bytes(begin)) => Some(Bytes::new(begin.into_vec())),
        _ => None,
    }
}

// The tuple after the place in a key, if there is one.
fn tuple_behind(alloc: Global, place: &[u8], key: &Bytes) -> Result<Tuple, RangeSetError>
    ensures spelled { IfOk result (IsSpelledAs place.now key.now) }
    ensures refused { IfErr result (IsUnspelled place.now key.now) }
{
    match Subspace::new(Vec::from_slice(alloc, place)?).strip(alloc, key.as_slice()) {
        Ok(tuple) => Ok(tuple),
        Err(StripError::Memory) => Err(RangeSetError::Memory),
        Err(StripError::Outside) => Err(RangeSetError::Corrupt(key.copy()?)),
        Err(StripError::Bad(_)) => Err(RangeSetError::Corrupt(key.copy()?)),
    }
}

// The range from a begin to an end, if it may be stored; the pair has this key.
fn range_between(key: &Bytes, begin: Bytes, end: &Bytes) -> Result<KeyRange, RangeSetError>
    ensures found { IfOk result (λ range.
        (range ≡ record { begin = begin; end = end.now }) × IsStoredRange range) }
    ensures refused { IfErr result (IsNoStoredRange key.now begin end.now) }
{
    bytes_known(begin.as_slice());
    bytes_known(end.as_slice());
    if !begin.is_before(end) {
        return Err(RangeSetError::Corrupt(key.copy()?));
    }
    match KeyRange::new(begin, end.copy()?) {
        Some(range) => Ok(range),
        None => Err(RangeSetError::Corrupt(key.copy()?)),
    }
}

// The range that a pair after the place stands for.
fn range_found(alloc: Global, place: &[u8], pair: &Pair) -> Result<KeyRange, RangeSetError>
    ensures found { IfOk result (IsPairOfRange place.now pair.now) }
    ensures refused { IfErr result (IsPairOfNoRange place.now pair.now) }
{
    let tuple = tuple_behind(alloc, place, &pair.0)?;
    match only_bytes(tuple) {
        Some(begin) => range_between(&pair.0, begin, &pair.1),
        None => Err(RangeSetError::Corrupt(pair.0.copy()?)),
    }
}

// The range that a pair stands for, if it doesn't begin before this end of the one before it.
fn next_range(
    alloc: Global,
    place: &[u8],
    end: &Bytes,
    pair: &Pair,
) -> Result<KeyRange, RangeSetError>
    ensures found { IfOk result (IsNext place.now end.now pair.now) }
    ensures refused { IfErr result (IsNotNext place.now end.now pair.now) }
{
    let range = range_found(alloc, place, pair)?;
    if range.begin().is_before(end) {
        return Err(RangeSetError::Corrupt(pair.0.copy()?));
    }
    Ok(range)
}

/// The ranges that pairs stand for, in order.
pub(crate) fn ranges_found(
    alloc: Global,
    place: &[u8],
    pairs: &[Pair],
) -> Result<Vec<KeyRange>, RangeSetError>
    ensures found { IfOk result (λ ranges. ArePairsOf place.now pairs.now ranges.items) }
    ensures refused { IfErr result (HaveNoRanges place.now pairs.now) }
{
    let mut ranges = Vec::new(alloc);
    let mut end = Bytes::new(Vec::new(alloc));
    for pair in pairs {
        let range = next_range(alloc, place, &end, pair)?;
        end = range.end().copy()?;
        ranges.push(range)?;
    }
    Ok(ranges)
}
