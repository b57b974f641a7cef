//! The lines of a log of commands: what stands in each entry, in the words of scripts.
#![tactic(auto)]

mod lines;
mod requests;
mod steps;

pub use lines::entry_lines;
