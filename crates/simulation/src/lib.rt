//! Random scripts: of a seed, the same on each machine.
#![tactic(auto)]

mod admin;
mod dice;
mod reading;
mod records;
mod script;
mod steps;

pub use script::{Simulation, script_text};
