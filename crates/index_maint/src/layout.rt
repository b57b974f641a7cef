// The key prefixes of an index. Called by `maintainer` and `total`, and by `record_store`,
// `online_builder` and `plan_exec`.
ghost use Rattle.std.specs.Prelude.{◌≡◌, ◌∷◌, [], IfOk, IsTrue, pos};
ghost use Rattle.tuple_codec.specs.Item.{int};
ghost use Rattle.tuple_codec.specs.Subspace.{subspace_key};
ghost use Rattle.kv_core.specs.Bytes.{end_of_keys, key_lt};
ghost use Rattle.index_maint.specs.Layout.{built_place, entries_prefix};

use metadata::{PLACE_OF_BUILT_RANGES, PLACE_OF_ENTRIES};
use std::alloc::{AllocError, Global};
use tuple_codec::{TupleInt, pack_int};

// Room for the key of an entry behind a store's prefix, as long as it mostly is.
const KEY_ROOM: usize = 48;

// The prefix, and the pack of these two numbers.
fn place_under(alloc: Global, prefix: &[u8], place: u64, number: u64) -> Result<Vec<u8>, AllocError>
    ensures { IfOk result (λ bytes.
        bytes.items ≡ subspace_key prefix.now (int (pos place) ∷ int (pos number) ∷ [])) }
{
    let mut bytes = Vec::with_capacity(alloc, prefix.len().saturating_add(KEY_ROOM))?;
    bytes.extend_from_slice(prefix)?;
    pack_int(TupleInt::from(place), &mut bytes)?;
    pack_int(TupleInt::from(number), &mut bytes)?;
    Ok(bytes)
}

/// What the key of each entry of the index with this number begins with, under a store's prefix:
/// the prefix and the pack of (2, number).
pub fn entries_prefix(alloc: Global, prefix: &[u8], number: u64) -> Result<Vec<u8>, AllocError>
    ensures { IfOk result (λ bytes. bytes.items ≡ entries_prefix prefix.now number) }
{
    place_under(alloc, prefix, PLACE_OF_ENTRIES, number)
}

/// What the key of each built range of the index with this number begins with, under a store's
/// prefix: the prefix and the pack of (6, number). It is a key where the prefix is one.
pub fn built_place(alloc: Global, prefix: &[u8], number: u64) -> Result<Vec<u8>, AllocError>
    ensures place { IfOk result (λ place. place.items ≡ built_place prefix.now number) }
    ensures below { IfOk result (λ place.
        IsTrue (key_lt prefix.now end_of_keys) → IsTrue (key_lt place.items end_of_keys)) }
{
    place_under(alloc, prefix, PLACE_OF_BUILT_RANGES, number)
}
