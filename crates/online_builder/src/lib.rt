//! A builder of write-only indexes: each step builds a range of positions in a transaction, beside
//! which others write records.
//!
//! A call answers `StoreError::Memory` only where memory runs out. A step that fails writes
//! nothing; the ranges that it read stay in the transaction.
#![tactic(auto)]

mod builder;
mod laws;
mod progress;

pub use builder::Builder;
pub use laws::{gaps_are_counted, steps_advance};
pub use progress::Progress;
