//! Races: two clients save records on threads of their own while a third thread builds an index, and
//! what there is at the end.
#![tactic(auto)]

mod asking;
mod commands;
mod error;
mod racing;
mod telling;

pub use error::RaceError;
pub use racing::run;
