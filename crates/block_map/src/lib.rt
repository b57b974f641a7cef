//! An ordered map from byte strings to values, in blocks that rising keys fill.
#![tactic(auto)]

mod block;
mod blocks;
mod map;
mod near;
mod part;
mod range;

pub use map::BlockMap;
pub use range::Range;
