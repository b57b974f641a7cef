// Opens a schedule from two devices, of which one has its log.
ghost use Rattle.std.specs.Prelude.{IfErr, IfOk, IsNone, OnOk};
ghost use Rattle.cluster_core.specs.Configuration.{config_refusal};
ghost use Rattle.journal.specs.Device.{LeavesOnly};
ghost use Rattle.journal.specs.Recovery.{IsAsBefore};
ghost use Rattle.logged_schedule.specs.Reopening.{AreEither, IsBegunOverSome, IsNotOpenedTwo};
ghost use Rattle.logged_schedule.specs.Reopening.{IsOpenedOnHistory};
ghost use Rattle.logged_schedule.specs.Twofold.{current_device, schedule_of, other_device};

use crate::again::begun_over;
use crate::error::{OpenTwoError, UnopenedTwo};
use crate::twofold::TwofoldSchedule;
use cluster_core::Config;
use durable::CheckpointedParts;
use journal::Device;
use std::alloc::Global;

/// Opens the schedule whose history two devices have, which a crash may have left, in whichever
/// order they are handed over: both files are recovered, the pairs of the newer one are taken, the
/// entries after them are performed again, and a schedule of this configuration begins over what
/// they come to. Devices that have nothing have the history of a new one. The schedule begins at
/// the configuration's first version, or at that of the last entry, if that is later.
///
/// It is refused with `Config` where the configuration is, with `Memory` where memory runs out, and
/// with `Files` where a device fails, or the files aren't those of a database.
pub fn open_two<D: Device>(
    alloc: Global,
    first: D,
    second: D,
    config: Config,
) -> Result<TwofoldSchedule<D>, UnopenedTwo<D>>
    // The schedule has done nothing yet over what the history comes to, which it goes on with,
    // whatever history the files have.
    ensures opened { IfOk result
        (IsOpenedOnHistory D.seen D.may_leave config (D.seen first) (D.seen second)) }

    // Whatever the files have, it is a schedule of no steps over some pairs.
    ensures begun { IfOk result (λ two. IsBegunOverSome config (schedule_of two)) }
    ensures allowed { OnOk result (IsNone (config_refusal config)) }

    // Files that have a history are refused only where memory runs out or a device fails.
    ensures refused { IfErr result (λ refused. IsNotOpenedTwo config (D.faults first)
        (D.faults refused.one) (D.seen first) (D.faults second) (D.faults refused.other)
        (D.seen second) refused.error) }

    // A crash at any moment leaves files that are read alike, or what one before the call might
    // have left.
    ensures any_moment { IfOk result (λ two. AreEither
        (λ now. LeavesOnly D.moment D.left_since first now
        (IsAsBefore (D.may_leave first) (D.seen first)))
        (λ now. LeavesOnly D.moment D.left_since second now
        (IsAsBefore (D.may_leave second) (D.seen second)))
        (current_device two) (other_device two)) }
    ensures any_moment_err { IfErr result (λ refused. AreEither
        (λ now. LeavesOnly D.moment D.left_since first now
        (IsAsBefore (D.may_leave first) (D.seen first)))
        (λ now. LeavesOnly D.moment D.left_since second now
        (IsAsBefore (D.may_leave second) (D.seen second))) refused.one refused.other) }
{
    let parts = match durable::open_two(alloc, first, second) {
        Ok(db) => db.into_parts(),
        Err(unopened) => {
            return Err(UnopenedTwo {
                one: unopened.first,
                other: unopened.second,
                error: OpenTwoError::from(unopened.error),
            });
        }
    };
    let CheckpointedParts {
        image,
        log,
        spare,
        generation,
    } = parts;
    let last = image.version();
    // Pairs of a checkpoint are a claim, so it isn't known that they are those of stores.
    match begun_over(alloc, config, image, false) {
        Ok(followed) => Ok(TwofoldSchedule::of(followed, log, spare, generation, last)),
        Err(error) => Err(UnopenedTwo {
            one: log.into_device(),
            other: spare.into_device(),
            error: OpenTwoError::from(error),
        }),
    }
}
