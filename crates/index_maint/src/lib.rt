//! Indexes over records: the entries that records define, and how they follow a record that changes.
//!
//! A call answers `AllocError` only where memory is wanting.
#![tactic(auto)]

mod kept;
mod laws;
mod layout;
mod maintainer;
mod total;

pub use kept::{position, push_build, push_kept_changes};
pub use laws::{entries_tell_records, indexes_are_built, kept_indexes_follow, places_are_apart};
pub use layout::{built_place, entries_prefix};
pub use maintainer::{CountIndex, Maintainer, SumIndex, ValueIndex};
pub use total::group_key;
