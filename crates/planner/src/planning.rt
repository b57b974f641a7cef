//! The indexes that a plan may use, and the longest match along them. Called by `planner` and
//! `unions`.
ghost use Rattle.std.specs.Prelude.{◌≡◌, ◌++◌, ◌==◌, ◌&&◌, false, None, Some, filter, map, option_map};
ghost use Rattle.std.specs.Prelude.{[], ◌||◌, true, nat_lt, fold, IfOk, OnOk};
ghost use Rattle.std.specs.Option.{option_map_or};
ghost use Rattle.metadata.specs.Index.{is_readable, is_value, listed_state};
ghost use Rattle.planner.specs.ByField.{IsByField};
ghost use Rattle.planner.specs.Match.{along, match_of as match_of_path, match_reach, matching};
ghost use Rattle.planner.specs.Match.{name_at, path_number};
ghost use Rattle.planner.specs.Planned.{longer_of, matched_paths};
ghost use Rattle.planner.specs.Rules.{usable};
ghost use Rattle.planner.specs.View.{conjunct_of, match_of, matched_of, path_of};

use crate::by_field::on_field;
use crate::longest::{Matched, Path, path_number};
use crate::matching::{Conjunct, is_longer, name_at, reach};
use crate::serving::match_of;
use metadata::{IndexDefinition, IndexKind, Schema, State, TypeDefinition};
use std::alloc::{AllocError, Global};

/// The state of the index with this number.
fn state_of(states: &[(u64, State)], number: u64) -> Option<State>
    ensures { result ≡ listed_state states.now number }
{
    match states {
        [] => None,
        [first, rest @ ..] => {
            if first.0 == number {
                Some(first.1)
            } else {
                state_of(rest, number)
            }
        }
    }
}

/// Whether an index may be used for a type.
fn may_use(index: &IndexDefinition, states: &[(u64, State)], t: &TypeDefinition) -> bool
    ensures { result ≡ (is_value index.now.kind && index.now.type_number == t.now.number
        && option_map_or is_readable (listed_state states.now index.now.number) false) }
{
    let by_value = match index.kind {
        IndexKind::Value => true,
        IndexKind::Count | IndexKind::Sum => false,
    };
    let readable = match state_of(states, index.number) {
        Some(State::Readable) => true,
        Some(State::WriteOnly) | Some(State::Disabled) | None => false,
    };
    by_value && index.type_number == t.number && readable
}

/// Adds the indexes that may be used for a type.
fn add_usable<'a>(
    indexes: &'a [IndexDefinition],
    states: &[(u64, State)],
    t: &TypeDefinition,
    into: &mut Vec<&'a IndexDefinition>,
) -> Result<(), AllocError>
    ensures { OnOk result (map (λ i. i.now) into.new.items ≡ map (λ i. i.now) into.old.items
        ++ filter (λ i. is_value i.kind && i.type_number == t.now.number
        && option_map_or is_readable (listed_state states.now i.number) false) indexes.now) }
{
    match indexes {
        [] => Ok(()),
        [first, rest @ ..] => {
            if may_use(first, states, t) {
                into.push(first)?;
            }
            add_usable(rest, states, t, into)
        }
    }
}

/// Whether no conjunct speaks of the first column, so that none of the columns is matched.
fn is_untold(t: &TypeDefinition, columns: &[usize], conjuncts: &[Conjunct]) -> bool
    requires { IsByField (map conjunct_of conjuncts.now) }
    ensures { result ≡ true → matching (map conjunct_of conjuncts.now)
        (map (name_at t.now) columns.now) ≡ record { fixed = []; bounds = [] } }
{
    match columns {
        [] => true,
        [first, ..] => {
            let own = on_field(name_at(t, *first), conjuncts);
            own.is_empty()
        }
    }
}

/// Whether no match without columns is longer: the path is the primary one, or its match has columns.
fn outdoes_none(m: &Matched) -> bool
    ensures { result ≡ (path_number (matched_of m.now).0 == 0
        || nat_lt 0 (match_reach (matched_of m.now).1)) }
{
    path_number(m.path) == 0 || 0 < reach(&m.columns)
}

/// Keeps the longer of a path's match and of an index's, by conjuncts in the order of their fields.
fn keep_longer<'a>(
    alloc: Global,
    t: &TypeDefinition,
    index: &'a IndexDefinition,
    conjuncts: &[Conjunct<'a>],
    best: &mut Matched<'a>,
) -> Result<(), AllocError>
    requires { IsByField (map conjunct_of conjuncts.now) }
    ensures { OnOk result (matched_of best.new ≡ longer_of (matched_of best.old)
        (along index.now, match_of_path t.now (map conjunct_of conjuncts.now) (along index.now))) }
{
    if outdoes_none(best) && is_untold(t, index.columns.as_slice(), conjuncts) {
        return Ok(());
    }
    let path = Path::Along(index);
    let columns = match_of(alloc, t, path, conjuncts)?;
    if is_longer(
        path_number(path),
        &columns,
        path_number(best.path),
        &best.columns,
    ) {
        *best = Matched { path, columns };
    }
    Ok(())
}

/// Keeps the longest of a path's match and of those of indexes, by conjuncts in the order of their
/// fields.
pub(crate) fn keep_longest<'a>(
    alloc: Global,
    t: &TypeDefinition,
    indexes: &[&'a IndexDefinition],
    conjuncts: &[Conjunct<'a>],
    best: &mut Matched<'a>,
) -> Result<(), AllocError>
    requires { IsByField (map conjunct_of conjuncts.now) }
    ensures { OnOk result (matched_of best.new ≡ fold longer_of (matched_of best.old)
        (matched_paths t.now (map conjunct_of conjuncts.now)
        (map along (map (λ i. i.now) indexes.now)))) }
{
    match indexes {
        [] => Ok(()),
        [first, rest @ ..] => {
            keep_longer(alloc, t, *first, conjuncts, best)?;
            keep_longest(alloc, t, rest, conjuncts, best)
        }
    }
}

/// The indexes that may be used for a type: its readable VALUE indexes.
pub(crate) fn usable<'a>(
    alloc: Global,
    schema: &'a Schema,
    states: &[(u64, State)],
    t: &TypeDefinition,
) -> Result<Vec<&'a IndexDefinition>, AllocError>
    ensures { IfOk result (λ found. map (λ i. i.now) found.items
        ≡ usable schema.now states.now t.now) }
{
    let mut found = Vec::new(alloc);
    add_usable(schema.indexes(), states, t, &mut found)?;
    Ok(found)
}
