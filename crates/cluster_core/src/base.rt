// The map that stood before the first request, as contracts see it: no bytes of it are kept. Used by
// `cluster`.
ghost use Rattle.std.specs.Prelude.{◌≡◌};
ghost use Rattle.std.specs.FinMap.{from_entries};
ghost use base.Fml.{ftrue};
ghost use Rattle.kv_core.specs.Map.{Map};
ghost use Rattle.cluster_core.specs.TierCode.{map_code};

use kv_core::Pair;
use std::marker::Model;

/// A map. It exists in proofs alone.
#[derive(Debug, Drop)]
pub(crate) struct Base {
    pub ghost map: { Map } by { map_code },
}

impl Model for Base {
    ghost also_owns = { λ _. ftrue };
}

// It owns nothing, so it may go to another thread.
unsafe impl Send for Base {}

impl Base {
    /// The map of these pairs. Where a key is there more than once, the first of its pairs stands.
    pub fn of(_pairs: &Vec<Pair>) -> Base
        ensures { result.map ≡ from_entries _pairs.now.items }
    {
        Base {}
    }
}
