//! The conjuncts that no scan uses. Called by `draft` and `serving`.
ghost use Rattle.std.specs.Prelude.{◌≡◌, ◌++◌, ◌==◌, ◌||◌, map, IfOk, OnOk};
ghost use Rattle.std.specs.List.{list_any};
ghost use Rattle.planner.specs.Match.{used, others};
ghost use Rattle.planner.specs.View.{conjunct_of, fixed_of, bounds_of, match_of};

use crate::fixing::{Bound, Fixed};
use crate::matching::{Conjunct, Match};
use std::alloc::{AllocError, Global};

/// Whether a column is fixed by the conjunct at a place.
fn is_fixing(place: usize, fixed: &[(usize, Fixed)]) -> bool
    ensures { result ≡ list_any (◌==◌ place) (map (λ f. f.0) (map fixed_of fixed.now)) }
{
    match fixed {
        [] => false,
        [first, rest @ ..] => place == first.0 || is_fixing(place, rest),
    }
}

/// Whether a bound is set by the conjunct at a place.
fn is_bounding(place: usize, bounds: &[(usize, Bound)]) -> bool
    ensures { result ≡ list_any (◌==◌ place) (map (λ b. b.0) (map bounds_of bounds.now)) }
{
    match bounds {
        [] => false,
        [first, rest @ ..] => place == first.0 || is_bounding(place, rest),
    }
}

/// Whether a match uses the conjunct at a place.
#[tactic(auto, using(crate::proofs::Bodies::any_either))]
pub(crate) fn is_used(place: usize, m: &Match) -> bool
    ensures { result ≡ list_any (◌==◌ place) (used (match_of m.now)) }
{
    is_fixing(place, m.fixed.as_slice()) || is_bounding(place, m.bounds.as_slice())
}

/// The conjuncts that a match doesn't use.
pub(crate) fn others<'a>(
    alloc: Global,
    m: &Match,
    conjuncts: &[Conjunct<'a>],
) -> Result<Vec<Conjunct<'a>>, AllocError>
    ensures { IfOk result (λ cs. map conjunct_of cs.items
        ≡ others (used (match_of m.now)) (map conjunct_of conjuncts.now)) }
{
    let mut left = Vec::new(alloc);
    add_others(m, conjuncts, &mut left)?;
    Ok(left)
}

/// Adds the conjuncts that a match doesn't use.
fn add_others<'a>(
    m: &Match,
    conjuncts: &[Conjunct<'a>],
    left: &mut Vec<Conjunct<'a>>,
) -> Result<(), AllocError>
    ensures { OnOk result (map conjunct_of left.new.items ≡ map conjunct_of left.old.items
        ++ others (used (match_of m.now)) (map conjunct_of conjuncts.now)) }
{
    match conjuncts {
        [] => Ok(()),
        [c, rest @ ..] => {
            if !is_used(c.place, m) {
                left.push(*c)?;
            }
            add_others(m, rest, left)
        }
    }
}
