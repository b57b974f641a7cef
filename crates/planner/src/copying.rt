//! Copies of plans, for whoever keeps one and hands another one on. Called by tests.
ghost use Rattle.std.specs.Prelude.{◌≡◌, map, IfOk};
ghost use Rattle.planner.specs.View.{node_of, source_of};

use crate::plan::{IndexScan, KeyRange, Node, Plan, Scan, Source};
use std::alloc::{AllocError, Global};

impl KeyRange {
    /// An equal range.
    pub fn copy(&self) -> Result<KeyRange, AllocError>
        ensures { IfOk result (λ copy. copy ≡ self.now) }
    {
        let first = self.begin.copy()?;
        let behind = self.end.copy()?;
        Ok(KeyRange {
            begin: first,
            end: behind,
        })
    }
}

impl Scan {
    /// An equal scan.
    pub fn copy(&self) -> Result<Scan, AllocError>
        ensures { IfOk result (λ copy. copy ≡ self.now) }
    {
        let range = self.range.copy()?;
        Ok(Scan {
            range,
            reverse: self.reverse,
        })
    }
}

impl IndexScan {
    /// An equal scan of the same index.
    pub fn copy(&self) -> Result<IndexScan, AllocError>
        ensures { IfOk result (λ copy. copy ≡ self.now) }
    {
        let index = self.index.copy()?;
        let range = self.range.copy()?;
        Ok(IndexScan {
            index,
            range,
            reverse: self.reverse,
        })
    }
}

// Equal scans.
fn copy_scans(alloc: Global, scans: &[IndexScan]) -> Result<Vec<IndexScan>, AllocError>
    ensures { IfOk result (λ copy. copy.items ≡ scans.now) }
{
    let mut copy = Vec::with_capacity(alloc, scans.len())?;
    for scan in scans {
        copy.push(scan.copy()?)?;
    }
    Ok(copy)
}

// An equal source.
fn copy_source(alloc: Global, source: &Source) -> Result<Source, AllocError>
    ensures { IfOk result (λ copy. source_of copy ≡ source_of source.now) }
{
    match source {
        Source::IndexScan(scan) => {
            let copy = scan.copy()?;
            Ok(Source::IndexScan(copy))
        }
        Source::Intersection(scans) => {
            let copies = copy_scans(alloc, scans.as_slice())?;
            Ok(Source::Intersection(copies))
        }
    }
}

// An equal step.
#[cycle(copying)]
fn copy_node(alloc: Global, node: &Node) -> Result<Node, AllocError>
    ensures { IfOk result (λ copy. node_of copy ≡ node_of node.now) }
{
    match node {
        Node::Scan(scan) => {
            let copy = scan.copy()?;
            Ok(Node::Scan(copy))
        }
        Node::Fetch(source) => {
            let copy = copy_source(alloc, source)?;
            Ok(Node::Fetch(copy))
        }
        Node::Filter(filter, part) => {
            let condition = filter.copy(alloc)?;
            let copy = copy_node(alloc, part)?;
            Ok(Node::Filter(condition, Box::new(alloc, copy)?))
        }
        Node::Union(parts) => {
            let copies = copy_nodes(alloc, parts.as_slice())?;
            Ok(Node::Union(copies))
        }
        Node::UnorderedUnion(parts) => {
            let copies = copy_nodes(alloc, parts.as_slice())?;
            Ok(Node::UnorderedUnion(copies))
        }
        Node::Distinct(part) => {
            let copy = copy_node(alloc, part)?;
            Ok(Node::Distinct(Box::new(alloc, copy)?))
        }
    }
}

// Equal steps.
#[cycle(copying)]
fn copy_nodes(alloc: Global, parts: &[Node]) -> Result<Vec<Node>, AllocError>
    ensures { IfOk result (λ copies. map node_of copies.items ≡ map node_of parts.now) }
{
    let mut copies = Vec::with_capacity(alloc, parts.len())?;
    for part in parts {
        copies.push(copy_node(alloc, part)?)?;
    }
    Ok(copies)
}

impl Plan {
    ghost use Rattle.planner.specs.View.{plan_of};
    ghost use Rattle.query.specs.View.{query_of};

    /// An equal plan, for an equal query.
    pub fn copy(&self, alloc: Global) -> Result<Plan, AllocError>
        ensures plan { IfOk result (λ copy. plan_of copy ≡ plan_of self.now) }
        ensures query { IfOk result (λ copy. query_of copy.query ≡ query_of self.now.query) }
    {
        let definition = self.definition.copy()?;
        let root = copy_node(alloc, &self.root)?;
        let query = self.query.copy(alloc)?;
        Ok(Plan {
            definition,
            root,
            query,
        })
    }
}
