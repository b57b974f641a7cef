//! The plan of a filter along one path, or along several indexes whose columns are all fixed.
//! Called by `unions`.
ghost use Rattle.std.specs.Prelude.{◌≡◌, ◌≤◌, length, ◌++◌, ◌∷◌, ◌==◌, false, not, [], map, filter, flat_map};
ghost use Rattle.std.specs.Prelude.{if◌then◌else◌, IfOk, OnOk};
ghost use Rattle.std.specs.List.{list_any};
ghost use Rattle.planner.specs.ByField.{IsByField, SaysTheSame};
ghost use Rattle.planner.specs.Match.{along, used, others};
ghost use Rattle.planner.specs.Planned.{all_draft, fixes_all, index_draft, index_scan, joining, other_than, path_draft};
ghost use Rattle.planner.specs.Planned.{path_scan, residual};
ghost use Rattle.planner.specs.Plan.{fetch, intersection};
ghost use Rattle.planner.specs.View.{conjunct_of, draft_of, index_scan_of, joined_of, match_of, node_of, path_of};

use crate::left_over::{is_used, others};
use crate::longest::Path;
use crate::matching::{Conjunct, Match};
use crate::nodes_of::{index_scan, path_scan, residual};
use crate::plan::{IndexScan, Node, Source};
use crate::serving::match_of;
use metadata::{IndexDefinition, TypeDefinition};
use std::alloc::{AllocError, Global};

/// A node, and whether its records come in primary key order.
#[derive(Drop)]
pub(crate) struct Draft {
    pub root: Node,
    pub in_key_order: bool,
}

/// An index with its match.
#[derive(Drop)]
struct Joined<'a> {
    index: &'a IndexDefinition,
    columns: Match<'a>,
}

/// Whether a match fixes all columns of an index.
fn fixes_all(index: &IndexDefinition, m: &Match) -> bool
    ensures { result ≡ fixes_all index.now (match_of m.now) }
{
    m.fixed.len() == index.columns.as_slice().len()
}

/// Adds the other indexes.
fn add_others_than<'a>(
    number: u64,
    indexes: &[&'a IndexDefinition],
    into: &mut Vec<&'a IndexDefinition>,
) -> Result<(), AllocError>
    ensures { OnOk result (map (λ i. i.now) into.new.items ≡ map (λ i. i.now) into.old.items
        ++ filter (λ j. not (j.number == number)) (map (λ i. i.now) indexes.now)) }
{
    match indexes {
        [] => Ok(()),
        [first, rest @ ..] => {
            if first.number != number {
                into.push(*first)?;
            }
            add_others_than(number, rest, into)
        }
    }
}

/// Adds the indexes that join an intersection, each with its match of the conjuncts that none before it
/// uses; they stand in the order of their fields.
fn add_joining<'a>(
    alloc: Global,
    t: &TypeDefinition,
    indexes: &[&'a IndexDefinition],
    conjuncts: &[Conjunct<'a>],
    into: &mut Vec<Joined<'a>>,
) -> Result<(), AllocError>
    requires { IsByField (map conjunct_of conjuncts.now) }
    ensures { OnOk result (map joined_of into.new.items ≡ map joined_of into.old.items
        ++ joining t.now (map (λ i. i.now) indexes.now) (map conjunct_of conjuncts.now)) }
{
    match indexes {
        [] => Ok(()),
        [first, rest @ ..] => {
            let index = *first;
            let columns = match_of(alloc, t, Path::Along(index), conjuncts)?;
            if fixes_all(index, &columns) {
                let left = others(alloc, &columns, conjuncts)?;
                into.push(Joined { index, columns })?;
                add_joining(alloc, t, rest, left.as_slice(), into)
            } else {
                add_joining(alloc, t, rest, conjuncts, into)
            }
        }
    }
}

/// Whether one of the matches uses the conjunct at a place.
#[tactic(auto, using(crate::proofs::Bodies::any_either))]
fn is_used_by_any(place: usize, joined: &[Joined]) -> bool
    ensures { result ≡ list_any (◌==◌ place) (flat_map (λ k. used k.1) (map joined_of joined.now)) }
{
    match joined {
        [] => false,
        [first, rest @ ..] => is_used(place, &first.columns) || is_used_by_any(place, rest),
    }
}

/// Adds the conjuncts that none of the matches uses.
fn add_unused<'a>(
    joined: &[Joined],
    conjuncts: &[Conjunct<'a>],
    left: &mut Vec<Conjunct<'a>>,
) -> Result<(), AllocError>
    ensures { OnOk result (map conjunct_of left.new.items ≡ map conjunct_of left.old.items
        ++ others (flat_map (λ k. used k.1) (map joined_of joined.now))
        (map conjunct_of conjuncts.now)) }
{
    match conjuncts {
        [] => Ok(()),
        [c, rest @ ..] => {
            if !is_used_by_any(c.place, joined) {
                left.push(*c)?;
            }
            add_unused(joined, rest, left)
        }
    }
}

/// Adds the scans of indexes.
fn add_scans(alloc: Global, joined: &[Joined], into: &mut Vec<IndexScan>) -> Result<(), AllocError>
    ensures { OnOk result (map index_scan_of into.new.items ≡ map index_scan_of into.old.items
        ++ map (λ k. index_scan k.0 k.1 false) (map joined_of joined.now)) }
{
    match joined {
        [] => Ok(()),
        [first, rest @ ..] => {
            let scan = index_scan(alloc, first.index, &first.columns, false)?;
            into.push(scan)?;
            add_scans(alloc, rest, into)
        }
    }
}

/// The conjuncts that none of several matches uses, as a filter over a node.
fn filtered_by_all(
    alloc: Global,
    joined: &[Joined],
    conjuncts: &[Conjunct],
    node: Node,
) -> Result<Node, AllocError>
    ensures { IfOk result (λ made. node_of made
        ≡ residual (others (flat_map (λ k. used k.1) (map joined_of joined.now))
        (map conjunct_of conjuncts.now)) (node_of node)) }
{
    let mut left = Vec::new(alloc);
    add_unused(joined, conjuncts, &mut left)?;
    residual(alloc, left.as_slice(), node)
}

/// The scan of a path within the range of its match, and the other conjuncts.
fn along_path(
    alloc: Global,
    path: Path,
    m: &Match,
    conjuncts: &[Conjunct],
) -> Result<Node, AllocError>
    ensures { IfOk result (λ made. node_of made
        ≡ residual (others (used (match_of m.now)) (map conjunct_of conjuncts.now))
        (path_scan (path_of path.entry) (match_of m.now) false)) }
{
    let left = others(alloc, m, conjuncts)?;
    let node = path_scan(alloc, path, m, false)?;
    residual(alloc, left.as_slice(), node)
}

/// The scans of several indexes, and the conjuncts that none of them uses.
fn intersected(alloc: Global, all: &[Joined], conjuncts: &[Conjunct]) -> Result<Node, AllocError>
    ensures { IfOk result (λ made. node_of made
        ≡ residual (others (flat_map (λ k. used k.1) (map joined_of all.now))
        (map conjunct_of conjuncts.now))
        (fetch (intersection (map (λ k. index_scan k.0 k.1 false) (map joined_of all.now))))) }
{
    let mut scans = Vec::new(alloc);
    add_scans(alloc, all, &mut scans)?;
    filtered_by_all(
        alloc,
        all,
        conjuncts,
        Node::Fetch(Source::Intersection(scans)),
    )
}

/// The draft of an index with those that join it.
fn all_draft(alloc: Global, all: &[Joined], conjuncts: &[Conjunct]) -> Result<Draft, AllocError>
    requires { 1 ≤ length all.now }
    ensures { IfOk result (λ draft. draft_of draft ≡ all_draft (map conjunct_of conjuncts.now)
        (map joined_of all.now)) }
{
    match all {
        [] => unreachable!(),
        [one] => {
            let root = along_path(alloc, Path::Along(one.index), &one.columns, conjuncts)?;
            Ok(Draft {
                root,
                in_key_order: fixes_all(one.index, &one.columns),
            })
        }
        _ => {
            let root = intersected(alloc, all, conjuncts)?;
            Ok(Draft {
                root,
                in_key_order: true,
            })
        }
    }
}

/// The plan along an index, or along it and others, by conjuncts that also stand in the order of their
/// fields.
fn along_index<'a>(
    alloc: Global,
    t: &TypeDefinition,
    indexes: &[&'a IndexDefinition],
    conjuncts: &[Conjunct<'a>],
    by_field: &[Conjunct<'a>],
    index: &'a IndexDefinition,
    m: Match<'a>,
) -> Result<Draft, AllocError>
    requires { IsByField (map conjunct_of by_field.now) }
    ensures { IfOk result (λ draft. draft_of draft
        ≡ index_draft (map conjunct_of conjuncts.now) index.now (match_of m.entry)
        (if fixes_all index.now (match_of m.entry)
        then joining t.now (other_than index.now (map (λ i. i.now) indexes.now))
        (others (used (match_of m.entry)) (map conjunct_of by_field.now)) else [])) }
{
    let joins = fixes_all(index, &m);
    let left = others(alloc, &m, by_field)?;
    let mut all = Vec::new(alloc);
    all.push(Joined { index, columns: m })?;
    if joins {
        let mut more = Vec::new(alloc);
        add_others_than(index.number, indexes, &mut more)?;
        add_joining(alloc, t, more.as_slice(), left.as_slice(), &mut all)?;
    }
    all_draft(alloc, all.as_slice(), conjuncts)
}

/// The plan of a path with its match, by conjuncts that also stand in the order of their fields.
pub(crate) fn path_draft<'a>(
    alloc: Global,
    t: &TypeDefinition,
    indexes: &[&'a IndexDefinition],
    conjuncts: &[Conjunct<'a>],
    by_field: &[Conjunct<'a>],
    path: Path<'a>,
    m: Match<'a>,
) -> Result<Draft, AllocError>
    requires order { IsByField (map conjunct_of by_field.now) }
    requires same { SaysTheSame (map conjunct_of by_field.now) (map conjunct_of conjuncts.now) }
    ensures { IfOk result (λ draft. draft_of draft
        ≡ path_draft t.now (map (λ i. i.now) indexes.now) (map conjunct_of conjuncts.now)
        (path_of path.entry) (match_of m.entry)) }
{
    match path {
        Path::Primary => {
            let root = along_path(alloc, Path::Primary, &m, conjuncts)?;
            Ok(Draft {
                root,
                in_key_order: true,
            })
        }
        Path::Along(index) => along_index(alloc, t, indexes, conjuncts, by_field, index, m),
    }
}
