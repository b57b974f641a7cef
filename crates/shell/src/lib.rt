//! The shell: steps that are typed, done over a database as they come.
//!
//! Each step goes through the calls by which a script runs, so that what the steps so far did is a
//! run of them: the clauses of `Schedule`.
#![tactic(auto)]

mod database;
mod dump;
mod error;
mod folder;
mod import;
mod importing;
mod lines;
mod names;
mod reading;
mod refusals;
mod scripts;
mod session;
mod stepping;
mod stores;
mod telling;

pub use database::Database;
pub use error::ShellError;
pub use folder::{FolderError, open_folder};
pub use names::push_named_reply;
pub use reading::run_shell;
pub use telling::{RowForm, Telling, Watch};
