//! The words of the database: byte strings, ranges of keys, mutations, their sizes and limits,
//! the ordered map from keys to values, and what can be read as one at versions.
#![tactic(auto)]

mod addition;
mod bytes;
mod change;
mod comparison;
mod coverage;
mod hashing;
mod kv_map;
mod laws;
mod limits;
mod pair;
mod range;
mod range_index;
mod range_list;
mod removal;
mod short_bytes;
mod size;
mod snapshot;
mod words;

pub use addition::add_le;
pub use bytes::Bytes;
pub use change::{CommitRequest, Mutation, Mutations, WriteError};
pub use comparison::is_operand;
pub use coverage::Coverage;
pub use kv_map::KvMap;
pub use laws::{
    limits_in_bytes, maps_by_their_keys, ranges_by_their_keys, refusals_by_size, sums_wrap,
};
pub use limits::{MAX_KEY_BYTES, MAX_RANGE_END_BYTES, MAX_TRANSACTION_BYTES, MAX_VALUE_BYTES};
pub use pair::Pair;
pub use range::KeyRange;
pub use range_list::RangeList;
pub use size::total_size;
pub use snapshot::{ReadError, Snapshot};
