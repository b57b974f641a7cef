// What a database goes on from: the entries of a log, and what they come to. Used by `db`,
// `commit_state`, `publisher`, `published` and `log_prefix`.
ghost use Rattle.std.specs.Prelude.{◌≡◌, []};
ghost use Rattle.replay.specs.Replaying.{IsLogged};

use command_log::Entry;
use replay::Image;
use std::alloc::Global;

/// What a database goes on from.
#[derive(Drop)]
pub struct Base {
    /// The entries of a log, in order.
    pub entries: Vec<Entry>,
    /// The pairs that they come to, and the version of the last one.
    pub image: Image,
}

impl Base {
    /// Nothing, as a new database has.
    pub fn none(alloc: Global) -> Base
        ensures entries { result.entries.items ≡ [] }
        ensures version { result.image.version ≡ 0 }
        ensures logged { IsLogged result.entries.items result.image }
    {
        Base {
            entries: Vec::new(alloc),
            image: Image::new(alloc),
        }
    }

    /// The version of the last entry, 0 where there is none: a database that goes on from these
    /// begins there, or above it.
    pub fn version(&self) -> u64
        ensures { result ≡ self.now.image.version }
    {
        self.image.version()
    }
}
