//! The log of a running database, on a device: what is committed is there before it is shown.
#![tactic(auto)]

mod database;
mod device_log;
mod opening;

pub use database::{NotOpened, open_kept_on};
pub use device_log::{DeviceLog, NotBegun, begin_log};
pub use opening::{OpenedLog, open_log};
