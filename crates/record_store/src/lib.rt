//! A store of typed records under a prefix of the keys, used in transactions.
//!
//! A call answers `StoreError::Memory` only where memory runs out. A call that fails writes
//! nothing; the ranges that it read stay in the transaction.
#![tactic(auto)]

mod adding;
mod aggregate;
mod built;
mod create;
mod error;
mod fields;
mod following;
mod found_states;
mod indexes;
mod known;
mod layout;
mod load;
mod marks;
mod number;
mod opening;
mod parts;
mod reading;
mod remove;
mod save;
mod scan;
mod state_bytes;
mod store;
mod types;

pub use error::StoreError;
pub use known::KnownSchema;
pub use number::{StoreNumber, stores_are_apart};
pub use scan::Records;
pub use store::Store;
