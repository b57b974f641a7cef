// The hash of byte strings. Used by `txn` and `cluster_core`, whose maps go by it.
ghost use Rattle.std.specs.Prelude.{[], ◌∷◌};
ghost use Rattle.kv_core.specs.Hashing.{fed_alike};

use crate::bytes::Bytes;
use std::hash::{Hash, Hasher};

/// A byte string is hashed as one run of its bytes.
impl Hash for Bytes {
    ghost hash_input = { λ bytes. bytes ∷ [] };

    ghost respects_eq = { fed_alike };

    fn hash<H: Hasher>(&self, state: &mut H) {
        state.write(self.as_slice());
    }
}
