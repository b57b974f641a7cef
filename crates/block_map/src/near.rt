// Where a key comes in a list in order. Used by `block` and `blocks`.
ghost use Rattle.std.specs.Prelude.{◌≡◌, ◌≤◌, ◌<◌, ◌-◌, [], true, false, length, slice_index_or};
ghost use Rattle.std.specs.Prelude.{IsTrue};
ghost use Rattle.kv_core.specs.Bytes.{key_lt};

use kv_core::Bytes;

/// Whether a key comes before the one at a place, where one stands there.
pub(crate) fn comes_before(keys: &[Bytes], place: usize, key: &Bytes) -> bool
    ensures { IsTrue result → place < length keys.now
        → key_lt key.now (slice_index_or keys.now place []) ≡ true }
{
    match keys.get(place) {
        Some(next) => key.is_before(next),
        None => true,
    }
}

/// Whether a key comes after the one before a place, where one stands there.
pub(crate) fn comes_after(keys: &[Bytes], place: usize, key: &Bytes) -> bool
    requires { place ≤ length keys.now }
    ensures { IsTrue result → 0 < place
        → key_lt (slice_index_or keys.now (place - 1) []) key.now ≡ true }
{
    if place == 0 {
        return true;
    }
    keys[place - 1].is_before(key)
}

/// Whether a key is the one before a place or comes after it, where one stands there.
pub(crate) fn comes_from(keys: &[Bytes], place: usize, key: &Bytes) -> bool
    requires { place ≤ length keys.now }
    ensures { IsTrue result → 0 < place
        → key_lt key.now (slice_index_or keys.now (place - 1) []) ≡ false }
{
    if place == 0 {
        return true;
    }
    !key.is_before(&keys[place - 1])
}

/// How many keys of a list in order come before another one or are that: a place behind which the
/// next one comes after it, found by halves.
pub(crate) fn count_upto(keys: &[Bytes], key: &Bytes) -> usize
    ensures within { result ≤ length keys.now }
    ensures from { 0 < result → key_lt key.now (slice_index_or keys.now (result - 1) []) ≡ false }
    ensures before { result < length keys.now
        → key_lt key.now (slice_index_or keys.now result []) ≡ true }
{
    let mut low = 0;
    let mut high = keys.len();
    while low < high {
        let middle = low + (high - low) / 2;
        if key.is_before(&keys[middle]) {
            high = middle;
        } else {
            low = middle + 1;
        }
    }
    low
}
