//! A log of commands, performed again: the database that its entries come to.
#![tactic(auto)]

mod command;
mod error;
mod image;
mod laws;
mod replaying;

pub use command::{change_of, command_of};
pub use error::{PerformError, ReplayError};
pub use image::{Done, Image};
pub use laws::logs_hold;
pub use replaying::{replay, replay_on};
