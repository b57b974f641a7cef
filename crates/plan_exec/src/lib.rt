//! The plan of a query over an open store, and its execution in a transaction.
//!
//! The planner's words speak of pairs of keys and values; laws say that the map of a store has just
//! the pairs that they ask for.
#![tactic(auto)]

mod accepting;
mod decoding;
mod distinct;
mod entries;
mod entry;
mod error;
mod execution;
mod fetch_streams;
mod joined;
mod keyed;
mod keys;
mod laws;
mod level;
mod opening;
mod packing;
mod planning;
mod readers;
mod record_streams;
mod rows;
mod selecting;
mod streams;

pub use error::ExecError;
pub use execution::{execute, execute_each, execute_rows};
pub use laws::{
    plans_answer, plans_read_their_scans, states_are_told, stores_are_exact, usable_are_scannable,
};
pub use planning::plan_for_store;
