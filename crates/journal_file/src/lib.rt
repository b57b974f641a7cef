//! A journal's device over a file of the operating system.
#![tactic(auto)]

mod device;
mod folder;
mod history;
mod opening;

pub use device::FileDevice;
pub use folder::{FolderError, log_path, open_in_folder};
pub use opening::OpenError;
