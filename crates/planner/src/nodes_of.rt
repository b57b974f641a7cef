//! The nodes of a plan for the records along a path. Called by `draft` and `serving`.
ghost use Rattle.std.specs.Prelude.{◌≡◌, ◌++◌, map, IfOk, OnOk};
ghost use Rattle.query.specs.View.{filter_of};
ghost use Rattle.planner.specs.Planned.{index_scan, path_scan, residual};
ghost use Rattle.planner.specs.View.{conjunct_of, index_scan_of, match_of, node_of, path_of};

use crate::bounds::matched_range;
use crate::longest::Path;
use crate::matching::{Conjunct, Match};
use crate::plan::{IndexScan, Node, Scan, Source};
use metadata::IndexDefinition;
use query::Filter;
use std::alloc::{AllocError, Global};

/// The scan of an index within the range of its match.
pub(crate) fn index_scan(
    alloc: Global,
    index: &IndexDefinition,
    m: &Match,
    reverse: bool,
) -> Result<IndexScan, AllocError>
    ensures { IfOk result (λ scan. index_scan_of scan
        ≡ index_scan index.now (match_of m.now) reverse) }
{
    let range = matched_range(alloc, m)?;
    let index = index.copy()?;
    Ok(IndexScan {
        index,
        range,
        reverse,
    })
}

/// The records along a path within the range of its match.
pub(crate) fn path_scan(
    alloc: Global,
    path: Path,
    m: &Match,
    reverse: bool,
) -> Result<Node, AllocError>
    ensures { IfOk result (λ node. node_of node
        ≡ path_scan (path_of path.entry) (match_of m.now) reverse) }
{
    match path {
        Path::Primary => {
            let range = matched_range(alloc, m)?;
            Ok(Node::Scan(Scan { range, reverse }))
        }
        Path::Along(index) => {
            let scan = index_scan(alloc, index, m, reverse)?;
            Ok(Node::Fetch(Source::IndexScan(scan)))
        }
    }
}

/// Adds equal filters of conjuncts.
fn add_filters(
    alloc: Global,
    conjuncts: &[Conjunct],
    into: &mut Vec<Filter>,
) -> Result<(), AllocError>
    ensures { OnOk result (map filter_of into.new.items ≡ map filter_of into.old.items
        ++ map (λ e. e.1) (map conjunct_of conjuncts.now)) }
{
    match conjuncts {
        [] => Ok(()),
        [first, rest @ ..] => {
            let copy = first.filter.copy(alloc)?;
            into.push(copy)?;
            add_filters(alloc, rest, into)
        }
    }
}

/// The records of a node at which conjuncts are true: one by itself, several under one `and`.
pub(crate) fn residual(
    alloc: Global,
    conjuncts: &[Conjunct],
    node: Node,
) -> Result<Node, AllocError>
    ensures { IfOk result (λ made. node_of made ≡ residual (map conjunct_of conjuncts.now)
        (node_of node)) }
{
    match conjuncts {
        [] => Ok(node),
        [one] => {
            let filter = one.filter.copy(alloc)?;
            Ok(Node::Filter(filter, Box::new(alloc, node)?))
        }
        _ => {
            let mut parts = Vec::new(alloc);
            add_filters(alloc, conjuncts, &mut parts)?;
            Ok(Node::Filter(Filter::And(parts), Box::new(alloc, node)?))
        }
    }
}
