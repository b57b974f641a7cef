//! The command line of `recordctl`: what its words ask for.
#![tactic(auto)]

mod commands;
mod request;
mod version;

pub use request::{
    CommandLineError, PlanForm, Request, RunWords, ShellWords, SimulationWords, request_of,
};
pub use version::version_line;
