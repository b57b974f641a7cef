//! Plans for queries: which ranges of records and index entries are read, and what is done with
//! them, so that the records that come out are the query's.
//!
//! A plan is made from a schema, the states of its indexes and a query that was checked. Nothing is
//! read for it.
#![tactic(auto)]

mod bounds;
mod by_field;
mod conjuncts;
mod copying;
mod draft;
mod fixing;
mod laws;
mod left_over;
mod longest;
mod matching;
mod nodes_of;
mod plan;
mod planner;
mod planning;
mod serving;
mod sorting;
mod unions;

pub use laws::pairs_are_read_back;
pub use plan::{IndexScan, KeyRange, Node, Plan, PlanError, Scan, Source};
pub use planner::plan as plan_query;
