// Opens the log that a device has, and what its entries come to.
ghost use Rattle.std.specs.Prelude.{◌≡◌, IfErr, IfOk};
ghost use Rattle.commit_log.specs.Standing.{device_of_log};
ghost use Rattle.durable.specs.Keeping.{HasLogOf, HasOnDisk, no_base};
ghost use Rattle.durable.specs.Opening.{IsNotOpened, IsUnreplayedAs};
ghost use Rattle.journal.specs.Device.{LeavesOnly};
ghost use Rattle.journal.specs.Recovery.{IsAsBefore};
ghost use Rattle.journal.specs.Standing.{device_of};
ghost use Rattle.journal.specs.Words.{bytes_of_each};
ghost use Rattle.replay.specs.Replaying.{AreWrittenAs, IsLogged};

use crate::device_log::DeviceLog;
use command_log::{Entry, entry_of};
use durable::{OpenError, Unopened};
use journal::{Device, Journal, Kept, recover};
use replay::{Image, replay};
use std::alloc::{AllocError, Global};
use std::sync::Wait;

/// A log that a device had, and what a database goes on from.
#[derive(Drop)]
pub struct OpenedLog<D: Device + Drop, R: Wait + Drop> {
    /// The log, which goes on after the entries.
    pub log: DeviceLog<D, R>,
    /// The entries that it has, in order.
    pub entries: Vec<Entry>,
    /// The database that they come to.
    pub image: Image,
}

/// The entries of a log that was replayed, whose bytes these are.
fn entries_of(alloc: Global, log: &[Vec<u8>]) -> Result<Vec<Entry>, AllocError>
    ensures { IfOk result (λ all. AreWrittenAs (bytes_of_each log.now) all.items) }
{
    let mut all = Vec::new(alloc);
    for bytes in log {
        match entry_of(alloc, bytes.as_slice()) {
            Ok(entry) => all.push(entry)?,
            Err(_) => return Err(AllocError), // What was replayed is entries, so memory ran out.
        }
    }
    Ok(all)
}

/// The entries whose bytes these are, and the database that they come to.
fn come_to(alloc: Global, log: &[Vec<u8>]) -> Result<(Vec<Entry>, Image), OpenError>
    ensures written { IfOk result (λ made. AreWrittenAs (bytes_of_each log.now) made.0.items) }
    ensures logged { IfOk result (λ made. IsLogged made.0.items made.1) }
    ensures refused { IfErr result (IsUnreplayedAs (bytes_of_each log.now)) }
{
    match replay(alloc, log) {
        Ok(image) => match entries_of(alloc, log) {
            Ok(entries) => Ok((entries, image)),
            Err(AllocError) => Err(OpenError::Memory),
        },
        Err(error) => Err(OpenError::from(error)),
    }
}

/// What the entries of a journal come to, whose bytes these are.
fn opened<D: Device + Drop, R: Wait + Drop>(
    rt: R,
    alloc: Global,
    journal: Journal<D>,
    log: &[Vec<u8>],
) -> Result<OpenedLog<D, R>, Unopened<D>>
    ensures written { IfOk result (λ opened.
        AreWrittenAs (bytes_of_each log.now) opened.entries.items) }
    ensures logged { IfOk result (λ opened. IsLogged opened.entries.items opened.image) }
    ensures device { IfOk result (λ opened. device_of_log opened.log ≡ device_of journal) }
    ensures device_err { IfErr result (λ refused. refused.device ≡ device_of journal) }
    ensures refused { IfErr result (λ refused.
        IsUnreplayedAs (bytes_of_each log.now) refused.error) }
{
    match come_to(alloc, log) {
        Ok((entries, image)) => Ok(OpenedLog {
            log: DeviceLog::new(rt, journal),
            entries,
            image,
        }),
        Err(error) => Err(Unopened {
            device: journal.into_device(),
            error,
        }),
    }
}

/// Opens the log that a device has, which a crash may have left: it is recovered, and its entries
/// are performed again. A device that has nothing has the log of a new database.
///
/// A log that isn't what a database logs is refused.
#[tactic(auto, using(crate::proofs::Openings::openings))]
pub fn open_log<D: Device + Drop, R: Wait + Drop>(
    rt: R,
    alloc: Global,
    device: D,
) -> Result<OpenedLog<D, R>, Unopened<D>>
    // The entries are those of the file, whose log goes on after them, and the image is what they
    // come to.
    ensures had { IfOk result (λ opened. HasLogOf no_base (D.seen device) opened.entries.items) }
    ensures has { IfOk result (λ opened. HasOnDisk D.seen D.may_leave no_base
        opened.entries.items (device_of_log opened.log)) }
    ensures logged { IfOk result (λ opened. IsLogged opened.entries.items opened.image) }

    // A crash at any moment leaves a file that is read alike, or what one before the call might
    // have left.
    ensures any_moment { IfOk result (λ opened. LeavesOnly D.moment D.left_since device
        (device_of_log opened.log) (IsAsBefore (D.may_leave device) (D.seen device))) }
    ensures any_moment_err { IfErr result (λ refused. LeavesOnly D.moment D.left_since device
        refused.device (IsAsBefore (D.may_leave device) (D.seen device))) }

    // The log of a database is never refused, but where memory runs out or the device fails.
    ensures refused { IfErr result (λ refused. IsNotOpened (D.faults device)
        (D.faults refused.device) (D.seen device) refused.error) }
{
    let mut kept = Kept::new(alloc);
    match recover(alloc, device, &mut kept) {
        Ok(journal) => opened(rt, alloc, journal, kept.entries()),
        Err(unrecovered) => Err(Unopened {
            device: unrecovered.device,
            error: OpenError::from(unrecovered.error),
        }),
    }
}
