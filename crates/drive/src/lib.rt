//! Performs commands over what a host has read of a database of its own, and tells it what to read
//! next, or what to reply and to commit. It keeps nothing between calls, and reads nothing itself.
#![tactic(auto)]

mod ahead;
mod answering;
mod error;
mod given;
mod laws;
mod partial;
mod wanted;

pub use answering::{Answer, Driven, drive};
pub use error::DriveError;
pub use given::Given;
pub use laws::{histories_of_hosts, rounds_of_hosts};
pub use wanted::Want;
