//! The plan of a query as people read it: what a file asks a plan for, and the text of a plan.
//!
//! A file is JSON: `{"schema":SCHEMA,"states":{"by_a":"write-only"},"query":QUERY}`. Nothing is
//! read of a database, and no plan is executed.
#![tactic(auto)]

mod bounds;
mod conditions;
mod edges;
mod error;
mod file;
mod plan_text;
mod plan_tree;
mod planning;
mod ranges;

pub use error::ExplainError;
pub use plan_text::explain;
pub use plan_tree::tree;
pub use planning::plan_asked;
