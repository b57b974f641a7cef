// The keys that a transaction compares, each with its mutations from the first comparison on, for
// read-your-writes. Used by `own` and `merge`.
ghost use Rattle.std.specs.Prelude.{◌≡◌, ◌++◌, ◌∷◌, [], ℕ, List, IfOk, OnOk, if◌then◌else◌};
ghost use Rattle.std.specs.Map.{keys_of};
ghost use Rattle.std.specs.Ordering.{is_eq};
ghost use Rattle.kv_core.specs.Bytes.{has_key, key_cmp};
ghost use Rattle.kv_core.specs.Map.{value_after_all};
ghost use Rattle.kv_core.specs.Range.{contains};
ghost use Rattle.txn.specs.Own.{compared_at, compared_in};

use kv_core::{Bytes, KeyRange, Mutation, Mutations};
use std::alloc::{AllocError, Global};
use std::collections::BTreeMap;

/// What the mutations of a key make of a value that was there, or of none.
pub(crate) fn value_compared(
    compared: &BTreeMap<Bytes, Mutations>,
    key: &Bytes,
    before: Option<Bytes>,
) -> Result<Option<Bytes>, AllocError>
    ensures { IfOk result (λ value.
        value ≡ value_after_all (compared_at compared.now key.now) key.now before) }
{
    match compared.get(key) {
        Some(mutations) => mutations.value_after(key, before),
        None => Ok(before),
    }
}

/// Notes one more mutation of a key, after the others. Where memory runs out they may be gone.
pub(crate) fn note_compared(
    alloc: Global,
    compared: &mut BTreeMap<Bytes, Mutations>,
    key: &Bytes,
    mutation: &Mutation,
) -> Result<(), AllocError>
    ensures { OnOk result ((other : List ℕ) → compared_at compared.new other
        ≡ (if is_eq (key_cmp key.now other) then compared_at compared.old other ++ mutation.now ∷ []
        else compared_at compared.old other)) }
{
    let mut mutations = match compared.remove(key) {
        Some(earlier) => earlier,
        None => Mutations::new(Vec::new(alloc)),
    };
    mutations.push(mutation.copy()?)?;
    compared.insert(key.copy()?, mutations)?;
    Ok(())
}

/// Forgets the mutations of a key.
pub(crate) fn forget_key(compared: &mut BTreeMap<Bytes, Mutations>, key: &Bytes)
    ensures { (other : List ℕ) → compared_at compared.new other
        ≡ (if is_eq (key_cmp key.now other) then [] else compared_at compared.old other) }
{
    compared.remove(key);
}

/// The compared keys of a range.
pub(crate) fn compared_keys(
    alloc: Global,
    compared: &BTreeMap<Bytes, Mutations>,
    range: &KeyRange,
) -> Result<Vec<Bytes>, AllocError>
    ensures { IfOk result (λ keys. keys.items ≡ keys_of (compared_in range.now compared.now.entries)) }
{
    let mut keys = Vec::new(alloc);
    for (key, _) in compared.range(range.begin()..range.end()) {
        keys.push(key.copy()?)?;
    }
    Ok(keys)
}

/// Forgets the mutations of these keys.
fn forget_each(compared: &mut BTreeMap<Bytes, Mutations>, keys: &[Bytes])
    ensures { (other : List ℕ) → compared_at compared.new other
        ≡ (if has_key keys.now other then [] else compared_at compared.old other) }
{
    for key in keys {
        forget_key(compared, key);
    }
}

/// Forgets the mutations of the keys of a range. Where memory runs out none are forgotten.
pub(crate) fn forget_range(
    alloc: Global,
    compared: &mut BTreeMap<Bytes, Mutations>,
    range: &KeyRange,
) -> Result<(), AllocError>
    ensures { OnOk result ((other : List ℕ) → compared_at compared.new other
        ≡ (if contains range.now other then [] else compared_at compared.old other)) }
{
    let keys = compared_keys(alloc, compared, range)?;
    forget_each(compared, keys.as_slice());
    Ok(())
}
