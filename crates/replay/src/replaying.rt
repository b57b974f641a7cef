// The entries of a log, performed again. Called by who opens what a log has kept.
ghost use Rattle.std.specs.Prelude.{◌≡◌, [], List, IfOk, IfErr};
ghost use Rattle.command_log.specs.Answers.{IsWrittenAs};
ghost use Rattle.command_log.specs.declared.entry.Entry.{Entry as EntryValue};
ghost use Rattle.replay.specs.Replaying.{IsLogged, IsReplay, IsReplayOn, IsUnreplayed};
ghost use Rattle.replay.specs.Replaying.{IsNoStep, IsNoneRead, IsStep, IsUnreplayedOn};
ghost use Rattle.replay.specs.Replaying.{IsUnreadAt, IsUnsteppedAt, IsWhyOn};
ghost use Rattle.replay.specs.Replaying.{log_bytes, told_at};

use crate::error::{PerformError, ReplayError};
use crate::image::Image;
use command_log::{Entry, EntryError, entry_of};
use record_store::StoreNumber;
use std::alloc::Global;

/// The entry whose bytes these are, at this place of a log.
fn entry_at(alloc: Global, place: usize, bytes: &[u8]) -> Result<Entry, ReplayError>
    ensures read { IfOk result (IsWrittenAs bytes.now) }
    ensures unread { IfErr result (IsNoneRead bytes.now) }
    ensures told { IfErr result (IsUnreadAt place bytes.now) }
{
    match entry_of(alloc, bytes) {
        Ok(entry) => Ok(entry),
        Err(EntryError::Memory) => Err(ReplayError::Memory),
        Err(error) => Err(ReplayError::NotAnEntry(place, error)),
    }
}

/// How it is told that the changes of the entry at this place of a log weren't performed.
fn told_at(place: usize, error: PerformError) -> ReplayError
    ensures { result ≡ told_at place error }
{
    match error {
        PerformError::Memory => ReplayError::Memory,
        PerformError::Refused(_, _) | PerformError::Corrupt(_, _) => {
            ReplayError::Refused(place, error)
        }
    }
}

/// The database after the entry at this place of a log.
fn after_entry(
    alloc: Global,
    image: Image,
    place: usize,
    entry: Entry,
) -> Result<Image, ReplayError>
    ensures step { IfOk result (IsStep image entry) }
    ensures no_step { IfErr result (IsNoStep image entry) }
    ensures told { IfErr result (IsUnsteppedAt place image entry) }
{
    if entry.version <= image.version() {
        return Err(ReplayError::OutOfOrder(place));
    }
    let Some(store) = StoreNumber::new(entry.store) else {
        return Err(ReplayError::NoSuchStore(place));
    };
    let mut image = image;
    let version = entry.version;
    match image.perform(alloc, store, entry.changes) {
        Ok(done) => Ok(image.accept(version, &done.mutations)?),
        Err(error) => Err(told_at(place, error)),
    }
}

/// The database that the entries of a log come to after what is there, whose bytes these are: the
/// changes of each are performed in one transaction in its store, in their order. What makes no
/// lawful log with the entries that what is there comes from is refused.
pub fn replay_on(alloc: Global, image: Image, log: &[Vec<u8>]) -> Result<Image, ReplayError>
    ensures replayed { IfOk result (λ next. (before : List EntryValue) → IsLogged before image
        → IsReplayOn before (log_bytes log.now) next) }
    ensures refused { IfErr result (λ error. (before : List EntryValue) → IsLogged before image
        → IsUnreplayedOn before (log_bytes log.now) error) }
    ensures told { IfErr result (λ error. (before : List EntryValue) → IsLogged before image
        → IsWhyOn before (log_bytes log.now) error) }
{
    let mut next = image;
    for (place, bytes) in log.iter().enumerate() {
        let entry = entry_at(alloc, place, bytes.as_slice())?;
        next = after_entry(alloc, next, place, entry)?;
    }
    Ok(next)
}

/// The database that the entries of a log come to over a database without pairs. What isn't a
/// lawful log is refused.
pub fn replay(alloc: Global, log: &[Vec<u8>]) -> Result<Image, ReplayError>
    ensures replayed { IfOk result (IsReplay (log_bytes log.now)) }
    ensures refused { IfErr result (IsUnreplayed (log_bytes log.now)) }
    ensures told { IfErr result (IsWhyOn [] (log_bytes log.now)) }
{
    replay_on(alloc, Image::new(alloc), log)
}
