// The plan tree. Built by `nodes_of`, `draft`, `serving` and `unions`, answered by `planner`;
// printed by `explain`, executed by `plan_exec`, shared with clients by `schedule`.
ghost use Rattle.std.specs.Prelude.{◌≡◌};
ghost use Rattle.planner.specs.declared.plan.PlanError.TheVariants.{Memory};

use metadata::{IndexDefinition, TypeDefinition};
use query::{Filter, Query};
use std::alloc::AllocError;
use std::marker::Model;
use thiserror::Error;
use tuple_codec::ByteString;

/// Keys from `begin` up to, not including, `end`, relative to the key below which a scan reads.
#[derive(Drop)]
pub struct KeyRange {
    /// The first key.
    pub begin: ByteString,
    /// The key behind the last one.
    pub end: ByteString,
}

/// A scan of a type's records.
#[derive(Drop)]
pub struct Scan {
    /// The keys that are read, behind the type's number.
    pub range: KeyRange,
    /// Whether the last key comes first.
    pub reverse: bool,
}

/// A scan of an index's entries.
#[derive(Drop)]
pub struct IndexScan {
    /// The index.
    pub index: IndexDefinition,
    /// The keys that are read, behind the index's number.
    pub range: KeyRange,
    /// Whether the last key comes first.
    pub reverse: bool,
}

/// Where a fetch gets its primary keys from.
#[derive(Drop)]
pub enum Source {
    /// The entries of one scan.
    IndexScan(IndexScan),
    /// The primary keys that all of several scans have, in their order.
    Intersection(Vec<IndexScan>),
}

/// A step of a plan, which gives records.
#[derive(Drop)]
pub enum Node {
    /// The records of a range of primary keys.
    Scan(Scan),
    /// The records with these primary keys.
    Fetch(Source),
    /// The records at which the filter is true.
    Filter(Filter, Box<Node>),
    /// The records of several steps, each of which goes by primary key, each record once.
    Union(Vec<Node>),
    /// The records of several steps, one step behind another.
    UnorderedUnion(Vec<Node>),
    /// The records of a step, each once.
    Distinct(Box<Node>),
}

/// How the records of a query are found: those of a type, by the steps from the last one to the
/// first. Each plan is of the type that its query names, scans indexes over that type alone, is
/// right for its query, and merges only steps and scans that go by primary key.
pub struct Plan {
    pub(crate) definition: TypeDefinition,
    pub(crate) root: Node,
    pub(crate) query: Query,
}

// Written out, so that no proof of a caller has to take its parts apart where one is dropped.
impl Drop for Plan {
    fn drop(self) {
        let Plan {
            definition,
            root,
            query,
        } = self;
        drop(definition);
        drop(root);
        drop(query);
    }
}

impl Model for Plan {
    ghost use Rattle.planner.specs.Asked.{AskedPlan};
    ghost use Rattle.planner.specs.Right.{IsPlanFor};
    ghost use Rattle.planner.specs.View.{node_of};
    ghost use Rattle.query.specs.View.{query_of};
    ghost use Rattle.std.specs.Coded.{codes};
    ghost use Rattle.query.specs.contracts.filter.Query as asked;
    ghost use Rattle.planner.specs.contracts.plan.Node as node;

    ghost Value = { AskedPlan };

    ghost coded = { Prim.hlevel (codes, node.the_row.coded, asked.the_row.coded) };

    ghost view = { λ p. record { definition = p.definition; root = p.root; query = p.query } };

    ghost invariant = { λ p. IsPlanFor (query_of p.query)
        (record { definition = p.definition; root = node_of p.root }) };
}

impl Plan {
    ghost use Rattle.planner.specs.Right.{IsRightFor, ScansOwn};
    ghost use Rattle.planner.specs.Rising.{MergesRising};
    ghost use Rattle.planner.specs.View.{node_of, plan_of};
    ghost use Rattle.query.specs.View.{query_of};

    /// The type of the records.
    pub fn definition(&self) -> &TypeDefinition
        ensures { result.now ≡ (plan_of self.now).definition }
    {
        &self.definition
    }

    /// The step whose records are the query's.
    pub fn root(&self) -> &Node
        ensures { node_of result.now ≡ (plan_of self.now).root }
    {
        &self.root
    }

    /// The query that the plan is for. In each union of the plan each part goes by primary key by
    /// its form alone, and in each intersection each scan.
    pub fn query(&self) -> &Query
        ensures query { result.now ≡ self.now.query }
        ensures typed { (plan_of self.now).definition.name ≡ (query_of result.now).record_type }
        ensures over { ScansOwn (plan_of self.now) }
        ensures right { IsRightFor (query_of result.now) (plan_of self.now) }
        ensures merges { MergesRising (plan_of self.now).root }
    {
        &self.query
    }
}

/// Why there is no plan.
#[derive(Clone, Copy, Debug, PartialEq, Eq, Drop, Error)]
pub enum PlanError {
    /// No path to the records gives them in the order that is asked for.
    #[error("neither the primary key nor an index serves the sort")]
    SortNotServed,
    /// Memory ran out.
    #[error("out of memory")]
    Memory,
}

impl From<AllocError> for PlanError {
    ghost from_gives = { λ error made. made ≡ Memory };

    fn from(_: AllocError) -> PlanError {
        PlanError::Memory
    }
}
