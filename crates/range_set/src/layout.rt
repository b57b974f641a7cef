// The keys of a set of positions. Called by `reading`, `ranges` and `inserting`; `upto_range` also
// by `record_store`.
ghost use Rattle.std.specs.Prelude.{◌≡◌, ◌∷◌, [], IfOk, IsTrue};
ghost use Rattle.tuple_codec.specs.Item.{bytes};
ghost use Rattle.kv_core.specs.Bytes.{end_of_keys, key_lt};
ghost use Rattle.range_set.specs.Stored.{range_key, upto_range, whole_range};

use kv_core::{Bytes, KeyRange};
use std::alloc::{AllocError, Global};
use tuple_codec::{ByteString, Element, Subspace, Tuple};

// The tuple of a position alone.
fn position_tuple(alloc: Global, position: &[u8]) -> Result<Tuple, AllocError>
    ensures { IfOk result (λ tuple. tuple ≡ bytes position.now ∷ []) }
{
    let only = ByteString::new(Vec::from_slice(alloc, position)?);
    let mut elements = Vec::new(alloc);
    elements.push(Element::Bytes(only))?;
    match Tuple::new(elements) {
        Ok(tuple) => Ok(tuple),
        Err(_) => unreachable!(),
    }
}

/// The key of the range that begins at a position.
pub(crate) fn range_key(alloc: Global, place: &[u8], begin: &[u8]) -> Result<Bytes, AllocError>
    ensures { IfOk result (λ key. key ≡ range_key place.now begin.now) }
{
    let tuple = position_tuple(alloc, begin)?;
    let key = Subspace::new(Vec::from_slice(alloc, place)?).key(alloc, &tuple)?;
    Ok(Bytes::new(key))
}

/// The keys of all ranges of a set.
pub(crate) fn whole_range(alloc: Global, place: &[u8]) -> Result<KeyRange, AllocError>
    requires { IsTrue (key_lt place.now end_of_keys) }
    ensures { IfOk result (λ range. range ≡ whole_range place.now) }
{
    let ends = Subspace::new(Vec::from_slice(alloc, place)?).range(alloc)?;
    match KeyRange::new(Bytes::new(ends.begin), Bytes::new(ends.end)) {
        Some(range) => Ok(range),
        None => unreachable!(),
    }
}

/// The keys of those ranges that begin at a position or before it: the last pair there, if there is
/// one, tells whether the position is in the set.
pub fn upto_range(alloc: Global, place: &[u8], position: &[u8]) -> Result<KeyRange, AllocError>
    requires { IsTrue (key_lt place.now end_of_keys) }
    ensures { IfOk result (λ range. range ≡ upto_range place.now position.now) }
{
    let mut begin = Vec::from_slice(alloc, place)?;
    begin.push(0)?;
    let end = range_key(alloc, place, position)?.next()?;
    match KeyRange::new(Bytes::new(begin), end) {
        Some(range) => Ok(range),
        None => unreachable!(),
    }
}
