//! Commits one at a time, each from its submission to its report.
#![tactic(auto)]

mod commit;
mod finishing;
mod roles;

pub use commit::{Commit, HoldError};
pub use finishing::finish;
