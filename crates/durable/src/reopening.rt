// Opens a database over two devices.
ghost use Rattle.std.specs.Prelude.{◌≡◌, true, List, Some, IfOk, IfErr};
ghost use Rattle.journal.specs.Device.{LeavesOnly};
ghost use Rattle.journal.specs.Standing.{device_of, is_open as takes_entries};
ghost use Rattle.journal.specs.Recovery.{IsAsBefore};
ghost use Rattle.journal.specs.Words.{bytes_of_each};
ghost use Rattle.command_log.specs.declared.entry.Entry.{Entry as EntryValue};
ghost use Rattle.durable.specs.Checkpoints.{HaveHistory};
ghost use Rattle.durable.specs.Heads.{generation_of as file_generation, head_before};
ghost use Rattle.durable.specs.Reopening.{AreRun, IsLoaded, IsNotLoaded, IsNotReopened};
ghost use Rattle.durable.specs.Reopening.{is_current};
ghost use Rattle.durable.specs.Choosing.{IsChosen, IsNotChosen};
ghost use Rattle.durable.specs.Twofold.{KeepsHistory, generation_of, image_of, log_device};
ghost use Rattle.durable.specs.Twofold.{spare_device, takes_commits};

use crate::checkpointing::Checkpointed;
use crate::database::Durable;
use crate::error::{OpenError, ReopenError, UnopenedTwo};
use crate::heads::{Head, counted_pairs, first_head, generation};
use journal::{Device, Journal, Kept, recover};
use replay::{Image, replay, replay_on};
use std::alloc::Global;

// Whether the first file isn't older than the second one.
fn is_current(log: &[Vec<u8>], other: &[Vec<u8>]) -> bool
    ensures { result ≡ is_current (bytes_of_each log.now) (bytes_of_each other.now) }
{
    other.is_empty() || generation(other) < generation(log)
}

// The database that a file's byte strings come to, which begin with this head.
fn after_head(alloc: Global, log: &[Vec<u8>], head: &Head) -> Result<Image, ReopenError>
    requires { head_before (bytes_of_each log.now) ≡ Some head.now }
    ensures loaded { IfOk result (IsLoaded (bytes_of_each log.now)) }
    ensures refused { IfErr result (IsNotLoaded (bytes_of_each log.now)) }
{
    let [_, others @ ..] = log else {
        unreachable!();
    };
    let Some(pairs) = counted_pairs(alloc, head.count, others)? else {
        return Err(ReopenError::NotACheckpoint);
    };
    let image = Image::of_pairs(alloc, head.version, pairs)?;
    let (_, entries) = others.split_at(others.len().min(head.count as usize));
    Ok(replay_on(alloc, image, entries)?)
}

// The database that a file's byte strings come to.
fn loaded(alloc: Global, log: &[Vec<u8>]) -> Result<Image, ReopenError>
    ensures loaded { IfOk result (IsLoaded (bytes_of_each log.now)) }
    ensures refused { IfErr result (IsNotLoaded (bytes_of_each log.now)) }
{
    match first_head(log) {
        Some(head) => after_head(alloc, log, &head),
        None => Ok(replay(alloc, log)?),
    }
}

// The database whose log is in the first of two journals, which has these byte strings.
fn joined<D: Device>(
    alloc: Global,
    current: Journal<D>,
    log: &[Vec<u8>],
    other: Journal<D>,
) -> Result<Checkpointed<D>, UnopenedTwo<D>>
    requires current { takes_entries current ≡ true }
    requires other { takes_entries other ≡ true }
    ensures loaded { IfOk result (λ db. IsLoaded (bytes_of_each log.now) (image_of db)) }
    ensures log { IfOk result (λ db. log_device db ≡ device_of current) }
    ensures spare { IfOk result (λ db. spare_device db ≡ device_of other) }
    ensures generation { IfOk result (λ db.
        generation_of db ≡ file_generation (bytes_of_each log.now)) }
    ensures ok { IfOk result (λ db. takes_commits db ≡ true) }
    ensures devices { IfErr result (λ refused. (refused.first ≡ device_of current)
        × (refused.second ≡ device_of other)) }
    ensures refused { IfErr result (λ refused.
        IsNotLoaded (bytes_of_each log.now) refused.error) }
{
    match loaded(alloc, log) {
        Ok(image) => {
            let generation = generation(log);
            Ok(Checkpointed::of(Durable::of(image, current), other, generation))
        }
        Err(error) => Err(UnopenedTwo {
            first: current.into_device(),
            second: other.into_device(),
            error,
        }),
    }
}

// The database of the newer one of two journals, which have these byte strings.
fn between<D: Device>(
    alloc: Global,
    first: Journal<D>,
    one: &[Vec<u8>],
    second: Journal<D>,
    two: &[Vec<u8>],
) -> Result<Checkpointed<D>, UnopenedTwo<D>>
    requires first { takes_entries first ≡ true }
    requires second { takes_entries second ≡ true }
    ensures chosen { IfOk result (IsChosen (device_of first) (bytes_of_each one.now)
        (device_of second) (bytes_of_each two.now)) }
    ensures ok { IfOk result (λ db. takes_commits db ≡ true) }
    ensures devices { IfErr result (λ refused. (refused.first ≡ device_of first)
        × (refused.second ≡ device_of second)) }
    ensures refused { IfErr result (λ refused.
        IsNotChosen (bytes_of_each one.now) (bytes_of_each two.now) refused.error) }
{
    if is_current(one, two) {
        return joined(alloc, first, one, second);
    }
    if is_current(two, one) {
        return match joined(alloc, second, two, first) {
            Ok(db) => Ok(db),
            Err(unopened) => Err(unopened.swapped()),
        };
    }
    Err(UnopenedTwo {
        first: first.into_device(),
        second: second.into_device(),
        error: ReopenError::SameGeneration(generation(one)),
    })
}

/// Opens the database that two devices have, which a crash may have left: both files are recovered,
/// and of the newer one the pairs are taken, and the entries after them performed again. Devices
/// that have nothing have a new database.
pub fn open_two<D: Device>(
    alloc: Global,
    first: D,
    second: D,
) -> Result<Checkpointed<D>, UnopenedTwo<D>>
    // Whatever history the files have, the database keeps.
    ensures opened { IfOk result (λ db. (entries : List EntryValue)
        → HaveHistory entries (D.seen first) (D.seen second)
        → KeepsHistory D.seen D.may_leave entries (generation_of db) (log_device db)
        (spare_device db) (image_of db)) }
    ensures ok { IfOk result (λ db. takes_commits db ≡ true) }

    // Files that have one are refused only where memory runs out or a device fails.
    ensures refused { IfErr result (λ refused. IsNotReopened (D.faults first)
        (D.faults refused.first) (D.seen first) (D.faults second) (D.faults refused.second)
        (D.seen second) refused.error) }

    // A crash at any moment leaves files that are read alike, or what one before the call might
    // have left.
    ensures any_moment { IfOk result (λ db. AreRun
        (λ now. LeavesOnly D.moment D.left_since first now
        (IsAsBefore (D.may_leave first) (D.seen first)))
        (λ now. LeavesOnly D.moment D.left_since second now
        (IsAsBefore (D.may_leave second) (D.seen second))) db) }
    ensures any_moment_err { IfErr result (λ refused. LeavesOnly D.moment D.left_since first
        refused.first (IsAsBefore (D.may_leave first) (D.seen first))) }
    ensures any_moment_err_two { IfErr result (λ refused. LeavesOnly D.moment D.left_since second
        refused.second (IsAsBefore (D.may_leave second) (D.seen second))) }
{
    let mut one = Kept::new(alloc);
    let first = match recover(alloc, first, &mut one) {
        Ok(journal) => journal,
        Err(unrecovered) => {
            return Err(UnopenedTwo {
                first: unrecovered.device,
                second,
                error: ReopenError::First(OpenError::from(unrecovered.error)),
            });
        }
    };
    let mut two = Kept::new(alloc);
    let second = match recover(alloc, second, &mut two) {
        Ok(journal) => journal,
        Err(unrecovered) => {
            return Err(UnopenedTwo {
                first: first.into_device(),
                second: unrecovered.device,
                error: ReopenError::Second(OpenError::from(unrecovered.error)),
            });
        }
    };
    between(alloc, first, one.entries(), second, two.entries())
}
