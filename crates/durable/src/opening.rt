// Opens a database from a device that has its log.
ghost use Rattle.std.specs.Prelude.{◌≡◌, true, IfOk, IfErr};
ghost use Rattle.journal.specs.Device.{LeavesOnly};
ghost use Rattle.journal.specs.Recovery.{IsAsBefore};
ghost use Rattle.journal.specs.Standing.{device_of as journal_device, is_open as takes_entries};
ghost use Rattle.journal.specs.Words.{bytes_of_each};
ghost use Rattle.replay.specs.Replaying.{IsReplay};
ghost use Rattle.durable.specs.Opening.{IsReopened, IsNotOpened, IsUnreplayedAs};
ghost use Rattle.durable.specs.Standing.{image_of, log_device, takes_commits};

use crate::database::Durable;
use crate::error::{OpenError, Unopened};
use journal::{Device, Journal, Kept, recover};
use replay::replay;
use std::alloc::Global;

// The database that a journal's entries come to.
fn replayed<D: Device>(
    alloc: Global,
    journal: Journal<D>,
    log: &[Vec<u8>],
) -> Result<Durable<D>, Unopened<D>>
    requires { takes_entries journal ≡ true }
    ensures replayed { IfOk result (λ db. IsReplay (bytes_of_each log.now) (image_of db)) }
    ensures device { IfOk result (λ db. log_device db ≡ journal_device journal) }
    ensures ok { IfOk result (λ db. takes_commits db ≡ true) }
    ensures device_err { IfErr result (λ refused. refused.device ≡ journal_device journal) }
    ensures unreplayed { IfErr result (λ refused.
        IsUnreplayedAs (bytes_of_each log.now) refused.error) }
{
    match replay(alloc, log) {
        Ok(image) => Ok(Durable::of(image, journal)),
        Err(error) => Err(Unopened {
            device: journal.into_device(),
            error: OpenError::from(error),
        }),
    }
}

/// Opens the database whose log a device has, which a crash may have left: the log is recovered,
/// and its entries are performed again. A device that has nothing has the log of a new database.
///
/// A log that isn't what a database logs is refused.
pub fn open<D: Device>(alloc: Global, device: D) -> Result<Durable<D>, Unopened<D>>
    // The database is what the entries of the file come to, whose log it goes on with.
    ensures opened { IfOk result (λ db. IsReopened D.seen D.may_leave (D.seen device)
        (log_device db) (image_of db)) }
    ensures ok { IfOk result (λ db. takes_commits db ≡ true) }

    // A crash at any moment leaves a file that is read alike, or what one before the call might
    // have left.
    ensures any_moment { IfOk result (λ db. LeavesOnly D.moment D.left_since device
        (log_device db) (IsAsBefore (D.may_leave device) (D.seen device))) }
    ensures any_moment_err { IfErr result (λ refused. LeavesOnly D.moment D.left_since device
        refused.device (IsAsBefore (D.may_leave device) (D.seen device))) }

    // The log of a database is never refused, but where memory runs out or the device fails.
    ensures refused { IfErr result (λ refused. IsNotOpened (D.faults device)
        (D.faults refused.device) (D.seen device) refused.error) }
{
    let mut kept = Kept::new(alloc);
    match recover(alloc, device, &mut kept) {
        Ok(journal) => replayed(alloc, journal, kept.entries()),
        Err(unrecovered) => Err(Unopened {
            device: unrecovered.device,
            error: OpenError::from(unrecovered.error),
        }),
    }
}
