//! The plan for a sort: the serving path of the longest match, and the other conjuncts. Called by
//! `unions`; the match of a path also by `draft` and `planning`.
ghost use Rattle.std.specs.Prelude.{◌≡◌, ◌++◌, ◌∷◌, [], None, Some, filter, length, map, option_map, IfOk};
ghost use Rattle.std.specs.Prelude.{OnOk, MatchOption};
ghost use Rattle.planner.specs.ByField.{IsByField};
ghost use Rattle.planner.specs.Match.{columns, match_of as match_of_path, paths, serves, sort_columns};
ghost use Rattle.planner.specs.Match as names;
ghost use Rattle.planner.specs.Planned.{matched_paths, path_scan, residual, sorted_plan};
ghost use Rattle.planner.specs.View.{conjunct_of, match_of, matched_of, node_of, path_of};

use crate::by_field::by_field;
use crate::left_over::others;
use crate::longest::{Matched, Path, longest};
use crate::matching::{Conjunct, Match, matching};
use crate::nodes_of::{path_scan, residual};
use crate::plan::Node;
use crate::sorting::serves_from;
use metadata::{IndexDefinition, TypeDefinition};
use std::alloc::{AllocError, Global};
use tuple_codec::Text;

/// The match of a path by conjuncts in the order of their fields.
pub(crate) fn match_of<'a>(
    alloc: Global,
    t: &TypeDefinition,
    path: Path,
    conjuncts: &[Conjunct<'a>],
) -> Result<Match<'a>, AllocError>
    requires { IsByField (map conjunct_of conjuncts.now) }
    ensures { IfOk result (λ m. match_of m ≡ match_of_path t.now (map conjunct_of conjuncts.now)
        (path_of path.entry)) }
{
    match path {
        Path::Primary => matching(alloc, t, t.key.as_slice(), conjuncts),
        Path::Along(index) => matching(alloc, t, index.columns.as_slice(), conjuncts),
    }
}

/// The places of the fields that a path goes by for sorting.
fn sort_columns(alloc: Global, t: &TypeDefinition, path: Path) -> Result<Vec<usize>, AllocError>
    ensures { IfOk result (λ places. places.items ≡ sort_columns t.now (path_of path.entry)) }
{
    let mut places = Vec::new(alloc);
    if let Path::Along(index) = path {
        places.extend_from_slice(index.columns.as_slice())?;
    }
    places.extend_from_slice(t.key.as_slice())?;
    Ok(places)
}

/// Whether a path of this match serves a sort.
fn serves(
    alloc: Global,
    t: &TypeDefinition,
    path: Path,
    m: &Match,
    sort: &[Text],
) -> Result<bool, AllocError>
    ensures { IfOk result (λ served. served
        ≡ names.serves_from sort.now (length (match_of m.now).fixed)
        (map (names.name_at t.now) (sort_columns t.now (path_of path.entry)))) }
{
    let places = sort_columns(alloc, t, path)?;
    Ok(serves_from(t, places.as_slice(), sort, m.fixed.len()))
}

/// Adds a path with its match, where it serves the sort.
fn add_serving<'a>(
    alloc: Global,
    t: &TypeDefinition,
    path: Path<'a>,
    conjuncts: &[Conjunct<'a>],
    sort: &[Text],
    into: &mut Vec<Matched<'a>>,
) -> Result<(), AllocError>
    requires { IsByField (map conjunct_of conjuncts.now) }
    ensures { OnOk result (map matched_of into.new.items ≡ map matched_of into.old.items
        ++ matched_paths t.now (map conjunct_of conjuncts.now)
        (filter (names.serves t.now (map conjunct_of conjuncts.now) sort.now) (path_of path.entry
        ∷ []))) }
{
    let columns = match_of(alloc, t, path, conjuncts)?;
    if serves(alloc, t, path, &columns, sort)? {
        into.push(Matched { path, columns })?;
    }
    Ok(())
}

/// Adds the paths along indexes with their matches, where they serve the sort.
#[tactic(auto, using(crate::proofs::Bodies::serving_step))]
fn add_serving_indexes<'a>(
    alloc: Global,
    t: &TypeDefinition,
    indexes: &[&'a IndexDefinition],
    conjuncts: &[Conjunct<'a>],
    sort: &[Text],
    into: &mut Vec<Matched<'a>>,
) -> Result<(), AllocError>
    requires { IsByField (map conjunct_of conjuncts.now) }
    ensures { OnOk result (map matched_of into.new.items ≡ map matched_of into.old.items
        ++ matched_paths t.now (map conjunct_of conjuncts.now)
        (filter (names.serves t.now (map conjunct_of conjuncts.now) sort.now)
        (map names.along (map (λ i. i.now) indexes.now)))) }
{
    match indexes {
        [] => Ok(()),
        [first, rest @ ..] => {
            let index = *first;
            add_serving(alloc, t, Path::Along(index), conjuncts, sort, into)?;
            add_serving_indexes(alloc, t, rest, conjuncts, sort, into)
        }
    }
}

/// The paths that serve a sort, with their matches.
fn serving_paths<'a>(
    alloc: Global,
    t: &TypeDefinition,
    indexes: &[&'a IndexDefinition],
    conjuncts: &[Conjunct<'a>],
    sort: &[Text],
) -> Result<Vec<Matched<'a>>, AllocError>
    ensures { IfOk result (λ found. map matched_of found.items
        ≡ matched_paths t.now (map conjunct_of conjuncts.now)
        (filter (names.serves t.now (map conjunct_of conjuncts.now) sort.now)
        (paths (map (λ i. i.now) indexes.now)))) }
{
    let sorted = by_field(alloc, conjuncts)?;
    let told = sorted.as_slice();
    let mut serving = Vec::new(alloc);
    add_serving(alloc, t, Path::Primary, told, sort, &mut serving)?;
    add_serving_indexes(alloc, t, indexes, told, sort, &mut serving)?;
    Ok(serving)
}

/// The plan for a sort: the serving path of the longest match, and the other conjuncts.
pub(crate) fn sorted_plan<'a>(
    alloc: Global,
    t: &TypeDefinition,
    indexes: &[&'a IndexDefinition],
    conjuncts: &[Conjunct<'a>],
    sort: &[Text],
    reverse: bool,
) -> Result<Option<Node>, AllocError>
    ensures { IfOk result (λ made. option_map node_of made
        ≡ sorted_plan t.now (map (λ i. i.now) indexes.now) (map conjunct_of conjuncts.now) sort.now
        reverse) }
{
    let serving = serving_paths(alloc, t, indexes, conjuncts, sort)?;
    match longest(serving.as_slice()) {
        None => Ok(None),
        Some(best) => {
            let left = others(alloc, &best.columns, conjuncts)?;
            let node = path_scan(alloc, best.path, &best.columns, reverse)?;
            Ok(Some(residual(alloc, left.as_slice(), node)?))
        }
    }
}
