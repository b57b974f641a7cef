//! A journal of entries in a file that outlives its process: each is on the disk before it is
//! acknowledged.
#![tactic(auto)]

mod block;
mod device;
mod error;
mod fuse;
mod journal;
mod laws;
mod memory;
mod recovery;
mod sink;

pub use device::{Device, DeviceError};
pub use error::{AppendError, RecoverError, Unrecovered};
pub use fuse::Fuse;
pub use journal::Journal;
pub use laws::readings_are_whole_beginnings;
pub use memory::Memory;
pub use recovery::recover;
pub use sink::{Kept, Sink};
