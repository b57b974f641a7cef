//! How conjuncts match the columns of a path. Called by `serving`; its matches are used by most
//! modules here.
ghost use Rattle.std.specs.Prelude.{◌≡◌, ◌+◌, ◌∷◌, ◌++◌, [], map, option_map, IfOk, OnOk};
ghost use Rattle.planner.specs.ByField.{IsByField};
ghost use Rattle.planner.specs.Match.{name_at, first, said, fixing, bounding, matching};
ghost use Rattle.planner.specs.Match.{match_reach, is_longer};
ghost use Rattle.planner.specs.View.{conjunct_of, fixed_of, bounds_of, match_of};

use crate::by_field::on_field;
use crate::fixing::{Bound, Fixed, bounding, fixing};
use metadata::TypeDefinition;
use query::Filter;
use std::alloc::{AllocError, Global};

/// A conjunct and its place among the conjuncts.
#[derive(Clone, Copy)]
pub(crate) struct Conjunct<'a> {
    pub place: usize,
    pub filter: &'a Filter,
}

/// The columns fixed, and the bounds on the next one, each with the place of the conjunct that says it.
#[derive(Drop)]
pub(crate) struct Match<'a> {
    pub fixed: Vec<(usize, Fixed<'a>)>,
    pub bounds: Vec<(usize, Bound<'a>)>,
}

/// The name of the field at a place.
pub(crate) fn name_at(t: &TypeDefinition, place: usize) -> &[u8]
    ensures { result.now ≡ name_at t.now place }
{
    match t.fields.as_slice().get(place) {
        Some(field) => field.name.as_str().as_bytes(),
        None => &[],
    }
}

/// The first of the conjuncts that fixes a field.
fn first_fixing<'a>(name: &[u8], conjuncts: &[Conjunct<'a>]) -> Option<(usize, Fixed<'a>)>
    ensures { option_map fixed_of result
        ≡ first (said (fixing name.now) (map conjunct_of conjuncts.now)) }
{
    match conjuncts {
        [] => None,
        [c, rest @ ..] => match fixing(name, c.filter) {
            Some(cell) => Some((c.place, cell)),
            None => first_fixing(name, rest),
        },
    }
}

/// How many columns are fixed and bounded together.
pub(crate) fn reach(m: &Match) -> usize
    ensures { result ≡ match_reach (match_of m.now) }
{
    if m.bounds.is_empty() {
        m.fixed.len()
    } else {
        m.fixed.len() + 1
    }
}

/// Adds all bounds that the conjuncts set on a field.
fn add_bounds<'a>(
    name: &[u8],
    conjuncts: &[Conjunct<'a>],
    bounds: &mut Vec<(usize, Bound<'a>)>,
) -> Result<(), AllocError>
    ensures { OnOk result (map bounds_of bounds.new.items ≡ map bounds_of bounds.old.items
        ++ said (bounding name.now) (map conjunct_of conjuncts.now)) }
{
    match conjuncts {
        [] => Ok(()),
        [c, rest @ ..] => {
            if let Some(bound) = bounding(name, c.filter) {
                bounds.push((c.place, bound))?;
            }
            add_bounds(name, rest, bounds)
        }
    }
}

/// Adds the columns that are fixed, and answers the bounds on the next one.
fn match_columns<'a>(
    alloc: Global,
    t: &TypeDefinition,
    columns: &[usize],
    conjuncts: &[Conjunct<'a>],
    fixed: &mut Vec<(usize, Fixed<'a>)>,
) -> Result<Vec<(usize, Bound<'a>)>, AllocError>
    requires { IsByField (map conjunct_of conjuncts.now) }
    ensures fixed { OnOk result (map fixed_of fixed.new.items ≡ map fixed_of fixed.old.items
        ++ (matching (map conjunct_of conjuncts.now) (map (name_at t.now) columns.now)).fixed) }
    ensures bounds { IfOk result (λ b. map bounds_of b.items
        ≡ (matching (map conjunct_of conjuncts.now) (map (name_at t.now) columns.now)).bounds) }
{
    match columns {
        [] => Ok(Vec::new(alloc)),
        [column, rest @ ..] => {
            let name = name_at(t, *column);
            let own = on_field(name, conjuncts);
            match first_fixing(name, own) {
                Some(cell) => {
                    fixed.push(cell)?;
                    match_columns(alloc, t, rest, conjuncts, fixed)
                }
                None => {
                    let mut bounds = Vec::new(alloc);
                    add_bounds(name, own, &mut bounds)?;
                    Ok(bounds)
                }
            }
        }
    }
}

/// The match of conjuncts along columns; they stand in the order of their fields.
pub(crate) fn matching<'a>(
    alloc: Global,
    t: &TypeDefinition,
    columns: &[usize],
    conjuncts: &[Conjunct<'a>],
) -> Result<Match<'a>, AllocError>
    requires { IsByField (map conjunct_of conjuncts.now) }
    ensures { IfOk result (λ m. match_of m ≡ matching (map conjunct_of conjuncts.now)
        (map (name_at t.now) columns.now)) }
{
    let mut fixed = Vec::new(alloc);
    let bounds = match_columns(alloc, t, columns, conjuncts, &mut fixed)?;
    Ok(Match { fixed, bounds })
}

/// Whether the first match is longer: in all its columns, else in those fixed, else by the number of its path.
pub(crate) fn is_longer(p: u64, m: &Match, q: u64, n: &Match) -> bool
    ensures { result ≡ is_longer (p, match_of m.now) (q, match_of n.now) }
{
    let (a, b) = (reach(m), reach(n));
    let (f, g) = (m.fixed.len(), n.fixed.len());
    b < a || a == b && (g < f || f == g && p < q)
}
