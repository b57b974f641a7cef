// What the bytes of a state's pair tell: the number of its index, and the state. Called by
// `opening`.
ghost use Rattle.std.specs.Prelude.{◌≡◌, ◌++◌, ◌<◌, ℕ, length, MatchBool, MatchOption, IfSome};
ghost use Rattle.tuple_codec.specs.Subspace.{BeginsWith};
ghost use Rattle.metadata.specs.Layout.{place_of_states};
ghost use Rattle.metadata.specs.declared.index.State.{State};
ghost use Rattle.record_store.specs.Layout.{place};
ghost use Rattle.record_store.specs.Reading.{IsNumber, IsStateValue, number_pack};

use crate::layout::state_number;
use crate::scan::behind;
use metadata::{IndexDefinition, PLACE_OF_STATES, State};
use tuple_codec::{TupleInt, strip_int};

// Whether the bytes are the pack of the number.
#[inline(always)]
fn is_pack_of(number: u64, bytes: &[u8]) -> bool
    ensures { MatchBool result
        (bytes.now ≡ number_pack number) (bytes.now ≡ number_pack number → ⊥) }
{
    match strip_int(TupleInt::from(number), bytes) {
        Some(rest) => rest.is_empty(),
        None => false,
    }
}

// What follows the place of states in the key.
pub(crate) fn after_states_place<'a>(prefix: &[u8], key: &'a [u8]) -> Option<&'a [u8]>
    ensures { MatchOption result
        (BeginsWith (place prefix.now place_of_states) key.now → ⊥)
        (λ rest. key.now ≡ place prefix.now place_of_states ++ rest.now) }
{
    match behind(prefix, key) {
        Some(rest) => strip_int(TupleInt::from(PLACE_OF_STATES), rest),
        None => None,
    }
}

// The state whose value the bytes are. That of a readable index is never written.
pub(crate) fn state_of_value(bytes: &[u8]) -> Option<State>
    ensures { MatchOption result
        ((state : State) → IsStateValue bytes.now state → ⊥) (IsStateValue bytes.now) }
{
    if is_pack_of(state_number(State::WriteOnly), bytes) {
        return Some(State::WriteOnly);
    }
    if is_pack_of(state_number(State::Disabled), bytes) {
        return Some(State::Disabled);
    }
    None
}

// The place and the number of the first index whose number the bytes are the pack of.
fn numbered(indexes: &[IndexDefinition], bytes: &[u8]) -> Option<(usize, u64)>
    ensures number { MatchOption result
        ((number : ℕ) → IsNumber indexes.now bytes.now number → ⊥)
        (λ found. IsNumber indexes.now bytes.now found.1) }
    ensures place { IfSome result (λ found. found.0 < length indexes.now) }
{
    for at in 0..indexes.len() {
        let number = indexes[at].number;
        if is_pack_of(number, bytes) {
            return Some((at, number));
        }
    }
    None
}

// The same, looked for from a place on and then before it. Pairs come in the order of their numbers,
// as indexes do: from the place after the last one that was found, all are found in one walk.
pub(crate) fn numbered_from(
    indexes: &[IndexDefinition],
    from: usize,
    bytes: &[u8],
) -> Option<(usize, u64)>
    ensures number { MatchOption result
        ((number : ℕ) → IsNumber indexes.now bytes.now number → ⊥)
        (λ found. IsNumber indexes.now bytes.now found.1) }
    ensures place { IfSome result (λ found. found.0 < length indexes.now) }
{
    let (first, later) = indexes.split_at(from.min(indexes.len()));
    match numbered(later, bytes) {
        Some((at, number)) => Some((first.len() + at, number)),
        None => numbered(first, bytes),
    }
}
