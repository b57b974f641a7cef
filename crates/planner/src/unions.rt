//! The plan of a filter without a sort: a union for an `or` of two or more parts, else the plan of
//! the longest match. Called by `planner`.
ghost use Rattle.std.specs.Prelude.{◌≡◌, ◌++◌, length, nat_lt, [], map, option_map, IfOk, OnOk};
ghost use Rattle.std.specs.List.{list_all, list_any};
ghost use Rattle.query.specs.Filter.{conjuncts, conjuncts_of, filters_of, parts};
ghost use Rattle.query.specs.View.{filter_of, query_of};
ghost use Rattle.planner.specs.Match.{numbered_filters, paths};
ghost use Rattle.planner.specs.Planned.{is_empty, matched_paths, nodes_of, only_union_plan, part_plans};
ghost use Rattle.planner.specs.Planned.{planned, single_plan, union_of, union_plan, unsorted_plan};
ghost use Rattle.planner.specs.Scanned.{is_full, scans_all, scans_of, scans_of_all, source_scans};
ghost use Rattle.planner.specs.View.{conjunct_of, draft_of, matched_of, node_of, source_of};

use crate::by_field::by_field;
use crate::conjuncts::conjuncts;
use crate::draft::{Draft, path_draft};
use crate::longest::{Matched, Path};
use crate::plan::{Node, Source};
use crate::planning::keep_longest;
use crate::serving::{match_of, sorted_plan};
use metadata::{IndexDefinition, TypeDefinition};
use query::{Filter, Query};
use std::alloc::{AllocError, Global};

/// Whether a filter has no conjuncts: an `and` of nothing else.
#[cycle(empty)]
fn has_none(filter: &Filter) -> bool
    ensures { result ≡ is_empty (conjuncts (filter_of filter.now)) }
{
    match filter {
        Filter::And(parts) => have_none(parts.as_slice()),
        _ => false,
    }
}

#[cycle(empty)]
#[tactic(auto, using(crate::proofs::Bodies::empty_both))]
fn have_none(parts: &[Filter]) -> bool
    ensures { result ≡ is_empty (conjuncts_of (filters_of (map filter_of parts.now))) }
{
    match parts {
        [] => true,
        [first, rest @ ..] => has_none(first) && have_none(rest),
    }
}

/// Whether a fetch is given a full record scan, which it never is.
#[tactic(auto, using(crate::proofs::Bodies::fetch_not_full))]
fn has_full(source: &Source) -> bool
    ensures { result ≡ list_any is_full (source_scans (source_of source.now)) }
{
    let _ = source;
    false
}

/// Whether there are two parts.
#[tactic(auto, using(crate::proofs::Bodies::count_parts))]
fn has_two(filters: &[Filter]) -> bool
    ensures { result ≡ nat_lt 1 (length (parts (filters_of (map filter_of filters.now)))) }
{
    filters.len() > 1
}

/// Whether a node has a full record scan.
#[cycle(scans)]
#[tactic(auto, using(crate::proofs::Bodies::any_either, crate::proofs::Bodies::has_size))]
fn scans_all(node: &Node) -> bool
    ensures { result ≡ list_any is_full (scans_of (node_of node.now)) }
{
    match node {
        Node::Scan(scan) => scan.range.begin.as_slice().is_empty()
            && scan.range.end.as_slice() == [0xffu8].as_slice(),
        Node::Fetch(source) => has_full(source),
        Node::Filter(_, part) => scans_all(part),
        Node::Union(parts) | Node::UnorderedUnion(parts) => one_scans_all(parts.as_slice()),
        Node::Distinct(part) => scans_all(part),
    }
}

#[cycle(scans)]
#[tactic(auto, using(crate::proofs::Bodies::any_either, crate::proofs::Bodies::has_size))]
fn one_scans_all(parts: &[Node]) -> bool
    ensures { result ≡ list_any is_full (scans_of_all (nodes_of (map node_of parts.now))) }
{
    match parts {
        [] => false,
        [first, rest @ ..] => scans_all(first) || one_scans_all(rest),
    }
}

/// The plan of the longest match, where no path matches the scan of all records.
fn single_plan<'a>(
    alloc: Global,
    t: &TypeDefinition,
    indexes: &[&'a IndexDefinition],
    filter: &'a Filter,
) -> Result<Draft, AllocError>
    ensures { IfOk result (λ draft. draft_of draft
        ≡ single_plan t.now (map (λ i. i.now) indexes.now)
        (numbered_filters (conjuncts (filter_of filter.now)))) }
{
    let all = conjuncts(alloc, filter)?;
    let sorted = by_field(alloc, all.as_slice())?;
    let told = sorted.as_slice();
    let path = Path::Primary;
    let columns = match_of(alloc, t, path, told)?;
    let mut best = Matched { path, columns };
    keep_longest(alloc, t, indexes, told, &mut best)?;
    path_draft(
        alloc,
        t,
        indexes,
        all.as_slice(),
        told,
        best.path,
        best.columns,
    )
}

/// Whether one of the drafts has a full record scan, and whether all are in primary key order.
fn one_draft_scans_all(drafts: &[Draft]) -> bool
    ensures { result ≡ list_any (λ d. scans_all d.root) (map draft_of drafts.now) }
{
    match drafts {
        [] => false,
        [first, rest @ ..] => scans_all(&first.root) || one_draft_scans_all(rest),
    }
}

fn all_in_key_order(drafts: &[Draft]) -> bool
    ensures { result ≡ list_all (λ d. d.in_key_order) (map draft_of drafts.now) }
{
    match drafts {
        [] => true,
        [first, rest @ ..] => first.in_key_order && all_in_key_order(rest),
    }
}

/// The nodes of drafts.
fn roots(alloc: Global, drafts: Vec<Draft>) -> Result<Vec<Node>, AllocError>
    ensures { IfOk result (λ nodes. map node_of nodes.items
        ≡ map (λ d. d.root) (map draft_of drafts.items)) }
{
    let mut nodes = Vec::new(alloc);
    for draft in drafts {
        nodes.push(draft.root)?;
    }
    Ok(nodes)
}

/// The plans of alternatives put together, unless one scans all records.
fn union_of(alloc: Global, drafts: Vec<Draft>) -> Result<Option<Draft>, AllocError>
    ensures { IfOk result (λ made. option_map draft_of made ≡ union_of (map draft_of drafts.items)) }
{
    if one_draft_scans_all(drafts.as_slice()) {
        return Ok(None);
    }
    if all_in_key_order(drafts.as_slice()) {
        let nodes = roots(alloc, drafts)?;
        return Ok(Some(Draft {
            root: Node::Union(nodes),
            in_key_order: true,
        }));
    }
    let nodes = roots(alloc, drafts)?;
    let root = Node::Distinct(Box::new(alloc, Node::UnorderedUnion(nodes))?);
    Ok(Some(Draft {
        root,
        in_key_order: false,
    }))
}

/// The union for a filter whose only conjunct is an `or` of two or more parts.
#[cycle(alternatives)]
fn union_plan<'a>(
    alloc: Global,
    t: &TypeDefinition,
    indexes: &[&'a IndexDefinition],
    filter: &'a Filter,
) -> Result<Option<Draft>, AllocError>
    ensures { IfOk result (λ made. option_map draft_of made
        ≡ union_plan t.now (map (λ i. i.now) indexes.now) (filter_of filter.now)) }
{
    match filter {
        Filter::And(parts) => only_union_plan(alloc, t, indexes, parts.as_slice()),
        Filter::Or(parts) => {
            if !has_two(parts.as_slice()) {
                return Ok(None);
            }
            let mut drafts = Vec::new(alloc);
            add_part_plans(alloc, t, indexes, parts.as_slice(), &mut drafts)?;
            union_of(alloc, drafts)
        }
        Filter::Compare { .. }
        | Filter::IsNull { .. }
        | Filter::StartsWith { .. }
        | Filter::Not(_) => Ok(None),
    }
}

/// The same for the parts of an `and`.
#[cycle(alternatives)]
fn only_union_plan<'a>(
    alloc: Global,
    t: &TypeDefinition,
    indexes: &[&'a IndexDefinition],
    parts: &'a [Filter],
) -> Result<Option<Draft>, AllocError>
    ensures { IfOk result (λ made. option_map draft_of made
        ≡ only_union_plan t.now (map (λ i. i.now) indexes.now)
        (filters_of (map filter_of parts.now))) }
{
    match parts {
        [] => Ok(None),
        [first, rest @ ..] => {
            if has_none(first) {
                only_union_plan(alloc, t, indexes, rest)
            } else if have_none(rest) {
                union_plan(alloc, t, indexes, first)
            } else {
                Ok(None)
            }
        }
    }
}

/// The plan of each alternative.
#[cycle(alternatives)]
fn add_part_plans<'a>(
    alloc: Global,
    t: &TypeDefinition,
    indexes: &[&'a IndexDefinition],
    parts: &'a [Filter],
    into: &mut Vec<Draft>,
) -> Result<(), AllocError>
    ensures { OnOk result (map draft_of into.new.items ≡ map draft_of into.old.items
        ++ part_plans t.now (map (λ i. i.now) indexes.now) (filters_of (map filter_of parts.now))) }
{
    match parts {
        [] => Ok(()),
        [first, rest @ ..] => {
            let draft = match union_plan(alloc, t, indexes, first)? {
                Some(draft) => draft,
                None => single_plan(alloc, t, indexes, first)?,
            };
            into.push(draft)?;
            add_part_plans(alloc, t, indexes, rest, into)
        }
    }
}

/// The plan of a query, if there is one.
pub(crate) fn planned<'a>(
    alloc: Global,
    t: &TypeDefinition,
    indexes: &[&'a IndexDefinition],
    query: &'a Query,
) -> Result<Option<Node>, AllocError>
    ensures { IfOk result (λ made. option_map node_of made
        ≡ planned t.now (map (λ i. i.now) indexes.now) (query_of query.now)) }
{
    let sort = query.sort.as_slice();
    if sort.is_empty() {
        let draft = unsorted_plan(alloc, t, indexes, &query.filter)?;
        return Ok(Some(draft.root));
    }
    let all = conjuncts(alloc, &query.filter)?;
    sorted_plan(alloc, t, indexes, all.as_slice(), sort, query.reverse)
}

/// The plan of a filter without a sort.
fn unsorted_plan<'a>(
    alloc: Global,
    t: &TypeDefinition,
    indexes: &[&'a IndexDefinition],
    filter: &'a Filter,
) -> Result<Draft, AllocError>
    ensures { IfOk result (λ draft. draft_of draft
        ≡ unsorted_plan t.now (map (λ i. i.now) indexes.now) (filter_of filter.now)) }
{
    match union_plan(alloc, t, indexes, filter)? {
        Some(draft) => Ok(draft),
        None => single_plan(alloc, t, indexes, filter),
    }
}
