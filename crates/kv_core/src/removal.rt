// A helper of the ordered maps here. Called by `coverage` and `kv_map`.
ghost use Rattle.std.specs.Prelude.{◌≡◌, List, ℕ, None, if◌then◌else◌};
ghost use Rattle.std.specs.BTreeMap.{IsOrdered, get};
ghost use Rattle.kv_core.specs.Bytes.{key_cmp, has_key};

use crate::bytes::Bytes;
use std::collections::BTreeMap;

/// Takes out the entries with these keys.
pub(crate) fn remove_each(map: &mut BTreeMap<Bytes, Bytes>, keys: &[Bytes])
    requires { IsOrdered key_cmp map.old }
    ensures gone { (key : List ℕ) →
        get key_cmp map.new key ≡ (if has_key keys.now key then None else get key_cmp map.old key) }
    ensures ordered { IsOrdered key_cmp map.new }
{
    for key in keys {
        map.remove(key);
    }
}
