// Opens a schedule from a device that has its log.
ghost use Rattle.std.specs.Prelude.{IfErr, IfOk, IsNone, OnOk};
ghost use Rattle.cluster_core.specs.Configuration.{config_refusal};
ghost use Rattle.journal.specs.Device.{LeavesOnly};
ghost use Rattle.journal.specs.Recovery.{IsAsBefore};
ghost use Rattle.logged_schedule.specs.Opening.{IsOpenedAgain};
ghost use Rattle.logged_schedule.specs.Refusals.{IsNoneOpened};
ghost use Rattle.logged_schedule.specs.Standing.{device_with_log};

use crate::again::begun_again;
use crate::error::{OpenError, Unopened};
use crate::logged::LoggedSchedule;
use cluster_core::Config;
use journal::{Device, Kept, recover};
use std::alloc::Global;

/// Opens the schedule whose log a device has, which a crash may have left: the log is recovered,
/// its entries are performed again, and a schedule of this configuration begins over what they come
/// to. A device that has nothing has the log of a new one. The schedule begins at the
/// configuration's first version, or at that of the last entry, if that is later.
///
/// It is refused with `Config` where the configuration is, with `Failed` where the device fails,
/// and with `Memory` where memory runs out; with `Damage` where the log is damaged; and with
/// `Unreplayed` where it isn't what a schedule logs, at the place of the first entry that can't be
/// performed again.
pub fn open<D: Device>(
    alloc: Global,
    device: D,
    config: Config,
) -> Result<LoggedSchedule<D>, Unopened<D>>
    // The schedule has done nothing yet over what the file's entries come to, whose log it goes on
    // with.
    ensures opened { IfOk result (IsOpenedAgain D.seen D.may_leave config (D.seen device)) }
    ensures allowed { OnOk result (IsNone (config_refusal config)) }

    // A crash at any moment leaves a file that is read alike, or what one before the call might
    // have left.
    ensures any_moment { IfOk result (λ logged. LeavesOnly D.moment D.left_since device
        (device_with_log logged) (IsAsBefore (D.may_leave device) (D.seen device))) }
    ensures any_moment_err { IfErr result (λ refused. LeavesOnly D.moment D.left_since device
        refused.device (IsAsBefore (D.may_leave device) (D.seen device))) }
    ensures refused { IfErr result (λ refused. IsNoneOpened config (D.faults device)
        (D.faults refused.device) (D.seen device) refused.error) }
{
    let mut kept = Kept::new(alloc);
    match recover(alloc, device, &mut kept) {
        Ok(journal) => match begun_again(alloc, config, kept) {
            Ok(followed) => Ok(LoggedSchedule::of(followed, journal)),
            Err(error) => Err(Unopened {
                device: journal.into_device(),
                error,
            }),
        },
        Err(unrecovered) => Err(Unopened {
            device: unrecovered.device,
            error: OpenError::from(unrecovered.error),
        }),
    }
}
