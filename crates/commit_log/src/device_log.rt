// A log on a device, which stands beside the state of a running database. Made by who opens one.
ghost use Rattle.std.specs.Prelude.{◌≡◌, [], IfOk};
ghost use Rattle.commit_log.specs.Standing.{device_of_log};
ghost use Rattle.durable.specs.Keeping.{HasLogOf, HasOnDisk, no_base};
ghost use Rattle.journal.specs.Standing.{device_of};
ghost use Rattle.journal.specs.Words.{bytes_of_each};
ghost use Rattle.replay.specs.Replaying.{AreWrittenAs};

use command_log::{Entry, bytes_of};
use journal::{Device, Journal, Kept, recover};
use runtime::{CommitState, End, NotKept};
use std::alloc::{AllocError, Global};
use std::sync::Wait;

/// A log on a device. It waits for the readers at the end.
#[derive(Drop)]
pub struct DeviceLog<D: Device + Drop, R: Wait + Drop> {
    pub(crate) journal: Journal<D>,
    rt: R,
}

/// Why a log isn't begun.
#[derive(Clone, Copy, Debug, PartialEq, Eq)]
pub enum NotBegun {
    /// The device failed, or is damaged, or memory ran out.
    NotRecovered,
    /// The device has entries.
    HasEntries,
}

/// The log of a new database, on a device that has no entry.
#[tactic(auto, using(crate::proofs::Batches::none_yet))]
pub fn begin_log<D: Device + Drop, R: Wait + Drop>(
    rt: R,
    alloc: Global,
    device: D,
) -> Result<DeviceLog<D, R>, NotBegun>
    ensures { IfOk result (λ log. HasOnDisk D.seen D.may_leave no_base [] (device_of_log log)) }
{
    let mut kept = Kept::new(alloc);
    let Ok(journal) = recover(alloc, device, &mut kept) else {
        return Err(NotBegun::NotRecovered);
    };
    if !kept.entries().is_empty() {
        return Err(NotBegun::HasEntries);
    }
    Ok(DeviceLog::new(rt, journal))
}

/// The bytes of each entry.
fn bytes_of_all(alloc: Global, entries: &[Entry]) -> Result<Vec<Vec<u8>>, AllocError>
    ensures { IfOk result (λ bytes. AreWrittenAs (bytes_of_each bytes.items) entries.now) }
{
    let mut all = Vec::new(alloc);
    for entry in entries {
        all.push(bytes_of(alloc, entry)?)?;
    }
    Ok(all)
}

impl<D: Device + Drop, R: Wait + Drop> DeviceLog<D, R> {
    ghost use Rattle.commit_log.specs.Standing.{device_of_log};

    /// The log of a journal.
    pub fn new(rt: R, journal: Journal<D>) -> DeviceLog<D, R>
        ensures { device_of_log result ≡ device_of journal }
    {
        DeviceLog { journal, rt }
    }
}

impl<D: Device + Drop, R: Wait + Drop> End for DeviceLog<D, R> {
    ghost use Rattle.commit_log.specs.Laws.{leaves_log};

    ghost may_leave = { λ x file. D.may_leave (device_of x.journal) file };

    ghost moment = { λ x. D.moment (device_of x.journal) };

    ghost left_since = { λ x t file. D.left_since (device_of x.journal) t file };

    ghost is_log = { λ file entries. HasLogOf no_base file entries };

    ghost has = { λ x entries.
        HasOnDisk D.seen D.may_leave no_base entries (device_of x.journal) };

    #[tactic(auto, using(crate::proofs::Batches::batches))]
    fn keep(&mut self, alloc: Global, entries: &[Entry]) -> Result<(), NotKept> {
        if !self.journal.is_open() {
            return Err(NotKept);
        }
        let Ok(batch) = bytes_of_all(alloc, entries) else {
            return Err(NotKept);
        };
        match self.journal.append(alloc, batch.as_slice()) {
            Ok(()) => Ok(()),
            Err(_) => Err(NotKept),
        }
    }

    fn end(self, state: CommitState) {
        let DeviceLog { journal, rt } = self;
        drop(journal);
        state.close(&rt);
    }

    ghost leaves = { λ x entries file has left.
        leaves_log D.seen D.may_leave (device_of x.journal) entries file has left };

    ghost counts_now = { λ x t file le now.
        D.counts_now (device_of x.journal) t file le now };

    ghost only_now = { λ x file left. D.only_now (device_of x.journal) file left };
}
