//! Sets of positions, which are byte strings, kept as disjoint ranges in the database.
//!
//! A set stands under a place, which is what its keys begin with. The range [begin, end) of
//! positions is a pair: its key is the place followed by the pack of the begin's bytes, its value
//! the end's bytes. Positions lie from no bytes up to, and not including, the byte FF. A range that
//! is inserted is joined with those that touch it.
#![tactic(auto)]

mod decoding;
mod error;
mod inserting;
mod laws;
mod layout;
mod ranges;
mod reading;
mod walking;

pub use error::RangeSetError;
pub use laws::{
    first_gaps_are_of_positions, pairs_tell_ranges, reads_decide_positions, sets_are_of_places,
};
pub use layout::upto_range;
pub use ranges::{Ranges, read_ranges};
pub use reading::{contains, first_gap, is_whole, position_told};
