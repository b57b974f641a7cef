// How the states of indexes are told from the pairs that stand for them, which `known` keeps.
ghost use Rattle.std.specs.Prelude.{IfOk, IfErr, IsTrue, MatchOption};
ghost use Rattle.kv_core.specs.Bytes.{end_of_keys, key_lt};
ghost use Rattle.record_store.specs.Form.{IsStatePair};
ghost use Rattle.record_store.specs.Reading.{AreStates, HaveNoStates, IsNoState, IsPairOfState};

use crate::error::StoreError;
use crate::state_bytes::{after_states_place, numbered_from, state_of_value};
use kv_core::Pair;
use metadata::{IndexDefinition, State};
use std::alloc::Global;

// The state that a pair stands for, of one of these indexes, if it does. The index is looked for
// from a place on first, then the place is the one after it; any place gives the same answer.
fn state_told(
    prefix: &[u8],
    indexes: &[IndexDefinition],
    from: &mut usize,
    pair: &Pair,
) -> Option<(u64, State)>
    ensures { MatchOption result
        (IsStatePair prefix.now indexes.now pair.now → ⊥)
        (IsPairOfState prefix.now indexes.now pair.now) }
{
    let Some(bytes) = after_states_place(prefix, pair.0.as_slice()) else {
        return None;
    };
    let Some((at, number)) = numbered_from(indexes, *from, bytes) else {
        return None;
    };
    let Some(state) = state_of_value(pair.1.as_slice()) else {
        return None;
    };
    *from = at + 1;
    Some((number, state))
}

// The state that a pair stands for, of one of these indexes, which is looked for as above.
fn state_found(
    prefix: &[u8],
    indexes: &[IndexDefinition],
    from: &mut usize,
    pair: &Pair,
) -> Result<(u64, State), StoreError>
    requires { IsTrue (key_lt prefix.now end_of_keys) }
    ensures found { IfOk result (IsPairOfState prefix.now indexes.now pair.now) }
    ensures refused { IfErr result (IsNoState prefix.now indexes.now pair.now) }
{
    match state_told(prefix, indexes, from, pair) {
        Some(listed) => Ok(listed),
        None => Err(StoreError::Corrupt(pair.0.copy()?)),
    }
}

// The states that pairs stand for.
pub(crate) fn states_found(
    alloc: Global,
    prefix: &[u8],
    indexes: &[IndexDefinition],
    pairs: &[Pair],
) -> Result<Vec<(u64, State)>, StoreError>
    requires { IsTrue (key_lt prefix.now end_of_keys) }
    ensures found { IfOk result (λ states.
        AreStates prefix.now indexes.now pairs.now states.items) }
    ensures refused { IfErr result (HaveNoStates prefix.now indexes.now pairs.now) }
{
    let mut states = Vec::with_capacity(alloc, pairs.len())?;
    let mut from = 0;
    for pair in pairs {
        let found = state_found(prefix, indexes, &mut from, pair)?;
        states.push(found)?;
    }
    Ok(states)
}
