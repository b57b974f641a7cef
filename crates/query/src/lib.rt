//! Filters over the records of a type, their truth at a record, and queries: what they mean, and
//! which of them may be asked.
//!
//! Truth has three values, as in SQL: a comparison with null is unknown.
#![tactic(auto)]

mod checking;
mod copying;
mod error;
mod filter;
mod leaf;
mod three;
mod walk;

pub use checking::{MAX_DEPTH, MAX_NODES, MAX_SORT, values_known};
pub use error::QueryError;
pub use filter::{Filter, Operator, Query, Truth};
pub use walk::truth;
