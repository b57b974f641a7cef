// What the pairs of records stand for. Called by `readers`, `record_streams` and `packing`.
ghost use Rattle.std.specs.Prelude.{◌≡◌, ◌++◌, IfOk, MatchOption};
ghost use Rattle.tuple_codec.specs.Subspace.{BeginsWith};
ghost use Rattle.metadata.specs.Layout.{place_of_records};
ghost use Rattle.record_store.specs.Layout.{place};
ghost use Rattle.planner.specs.Layout.{stored_record};

use kv_core::Pair;
use metadata::{Record, TypeDefinition};
use record_store::Store;
use std::alloc::{AllocError, Global};
use std::rc::Rc;

// What stands after the front in a key.
#[inline(always)]
pub(crate) fn behind<'a>(front: &[u8], key: &'a [u8]) -> Option<&'a [u8]>
    ensures { MatchOption result (BeginsWith front.now key.now → ⊥) (λ rest. key.now ≡ front.now ++ rest.now) }
{
    key.strip_prefix(front)
}

// An equal definition, to be shared by records.
pub(crate) fn shared(
    alloc: Global,
    definition: &TypeDefinition,
) -> Result<Rc<TypeDefinition>, AllocError>
    ensures { IfOk result (λ shared. shared.value ≡ definition.now) }
{
    let shared = Rc::new(alloc, definition.copy()?)?;
    Ok(shared)
}

// The record of the type that a pair stands for, if it is of the written form.
#[inline(always)]
pub(crate) fn record_in(
    store: &Store,
    front: &[u8],
    definition: &Rc<TypeDefinition>,
    pair: &Pair,
) -> Result<Option<Record>, AllocError>
    requires { front.now ≡ place store.now.prefix place_of_records }
    ensures { IfOk result (λ found. found ≡ stored_record store.now.prefix definition.now.value pair.now) }
{
    let key = pair.0.as_slice();
    let value = pair.1.as_slice();
    match behind(front, key) {
        Some(primary_key) => Record::decode_shared(store.alloc(), definition, primary_key, value),
        None => Ok(None),
    }
}
