//! The rows of an answer, as packs one after another.
#![tactic(auto)]

mod rows;

pub use rows::Rows;
