// Whether a value is just an operand, as the mutation CompareAndClear asks. Called by `change` and
// `kv_map`, by the storage servers of `cluster_core` and by the own writes of `txn`.
ghost use Rattle.std.specs.Prelude.{◌≡◌};
ghost use Rattle.std.specs.Option.{option_copied};
ghost use Rattle.kv_core.specs.Map.{is_just};

use crate::bytes::Bytes;

/// Whether there is a stored value and it is just the operand, byte by byte.
pub fn is_operand(stored: Option<&Bytes>, operand: &Bytes) -> bool
    ensures { result ≡ is_just operand.now (option_copied stored.entry) }
{
    match stored {
        Some(value) => value.compare(operand).is_eq(),
        None => false,
    }
}
