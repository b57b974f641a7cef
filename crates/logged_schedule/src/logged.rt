// A schedule with a log on a device, made by `opening`; and what is made of a step before it is
// logged and answered, also by `twofold`.
ghost use Rattle.std.specs.Prelude.{◌≡◌, ℕ, true, IfOk, unwrap_or};
ghost use Rattle.journal.specs.Standing.{is_open as takes_entries};
ghost use Rattle.replay.specs.Logged.{last_version};
ghost use Rattle.replay.specs.Replaying.{AreWrittenAs, log_bytes};

use crate::error::{StepError, Stopped};
use crate::followed::{Followed, Stepped, told_as};
use command_log::{Entry, bytes_of};
use journal::{Device, Journal};
use schedule::{Reply, Schedule, Step};
use std::alloc::{AllocError, Global};

/// A schedule whose commits are in a log on a device. What a step commits is on the disk before the
/// step is answered.
pub struct LoggedSchedule<D: Device> {
    followed: Followed,
    journal: Journal<D>,
    ghost journal_open: { takes_entries journal ≡ true },
}

// Written out, so that no proof of a caller has to take its parts apart where one is dropped.
impl<D: Device + Drop> Drop for LoggedSchedule<D> {
    fn drop(self) {
        let LoggedSchedule { followed, journal } = self;
        drop(followed);
        drop(journal);
    }
}

// The bytes of entries, in order.
fn bytes_of_entries(alloc: Global, entries: &[Entry]) -> Result<Vec<Vec<u8>>, AllocError>
    ensures { IfOk result (λ out. AreWrittenAs (log_bytes out.items) entries.now) }
{
    let mut out = Vec::with_capacity(alloc, entries.len())?;
    for entry in entries {
        out.push(bytes_of(alloc, entry)?)?;
    }
    Ok(out)
}

// The version of the last entry, if there is one.
fn last_told(entries: &[Entry]) -> Option<u64>
    ensures { (version : ℕ) → last_version version entries.now ≡ unwrap_or result version }
{
    let mut last = None;
    for entry in entries {
        last = Some(entry.version);
    }
    last
}

// What is answered of a step, and the bytes of the entries that are logged before, with the version
// of the last one.
#[derive(Drop)]
pub(crate) struct Answer {
    pub(crate) followed: Followed,
    pub(crate) reply: Reply,
    pub(crate) batch: Vec<Vec<u8>>,
    pub(crate) last: Option<u64>,
}

impl Answer {
    ghost use Rattle.logged_schedule.specs.Answers.{IsStepAnswer};

    // Does a step, and makes all that is wanted to log and to answer it.
    pub(crate) fn of(alloc: Global, followed: Followed, step: &Step) -> Result<Answer, AllocError>
        ensures { IfOk result (IsStepAnswer step.now followed) }
    {
        let Stepped {
            followed,
            reply,
            told,
        } = followed.step(alloc, step)?;
        let batch = bytes_of_entries(alloc, told.as_slice())?;
        let last = last_told(told.as_slice());
        let reply = told_as(alloc, step, reply)?;
        Ok(Answer {
            followed,
            reply,
            batch,
            last,
        })
    }
}

impl<D: Device> LoggedSchedule<D> {
    ghost use Rattle.std.specs.Prelude.{◌<◌, IfErr, List};
    ghost use Rattle.command_log.specs.declared.entry.Entry.{Entry as EntryValue};
    ghost use Rattle.journal.specs.Standing.{device_of};
    ghost use Rattle.schedule.specs.Stepwise.{DoesNext};
    ghost use Rattle.logged_schedule.specs.Keeping.{IsKeptStep, IsWithoutAnswer, KeepsRun};
    ghost use Rattle.logged_schedule.specs.Runs.{Run};
    ghost use Rattle.logged_schedule.specs.Standing.{device_with_log, schedule_of};

    // A schedule that is what its log comes to.
    pub(crate) fn of(followed: Followed, journal: Journal<D>) -> LoggedSchedule<D>
        requires { takes_entries journal ≡ true }
        ensures followed { result.followed ≡ followed }
        ensures device { device_with_log result ≡ device_of journal }
    {
        LoggedSchedule { followed, journal }
    }

    /// The schedule, to be read.
    pub fn schedule(&self) -> &Schedule
        ensures { result.now ≡ schedule_of self.now }
    {
        &self.followed.schedule
    }

    /// The device, from which it can be opened anew.
    pub fn into_device(self) -> D
        ensures { result ≡ device_with_log self }
    {
        let LoggedSchedule { followed, journal } = self;
        drop(followed);
        journal.into_device()
    }

    /// Does one step more, and answers its reply once all that it commits is logged on the disk, in
    /// one batch.
    ///
    /// It is refused with `Memory` where memory runs out and with `Full` where the log would get
    /// longer than a file may be, so that nothing is logged; and with `Unknown` where the device
    /// failed, or `Starved` where memory ran out in it, so that the log has what the step committed
    /// or nothing of it. The schedule has ended then.
    pub fn step(self, alloc: Global, step: &Step) -> Result<(LoggedSchedule<D>, Reply), Stopped<D>>
        // The schedule has done one step more, with this reply.
        ensures next { IfOk result (λ done.
            DoesNext step.now done.1 (schedule_of self) (schedule_of done.0)) }

        // Whatever run was done before, and whichever entries the log has of it: it has those of
        // what the step committed after them. A crash leaves all of these or none.
        ensures kept { IfOk result (λ done. (run : Run) (entries : List EntryValue)
            → KeepsRun D.seen D.may_leave run entries self
            → IsKeptStep D.seen D.may_leave D.moment D.left_since run entries step.now done.1
            self done.0) }

        // A step that isn't answered leaves the log as it was, or with all that the step committed.
        ensures stopped { IfErr result (λ why. (run : Run) (entries : List EntryValue)
            → KeepsRun D.seen D.may_leave run entries self
            → IsWithoutAnswer D.seen D.moment D.left_since run entries step.now why.error self
            why.device) }
        ensures unknown { IfErr result (λ why. why.error ≡ StepError.Unknown
            → D.faults (device_with_log self) < D.faults why.device) }
        ensures starved { IfErr result (λ why. why.error ≡ StepError.Starved
            → D.wants_memory ≡ true) }
    {
        let LoggedSchedule {
            followed,
            mut journal,
        } = self;
        let Ok(answer) = Answer::of(alloc, followed, step) else {
            return Err(Stopped {
                device: journal.into_device(),
                error: StepError::Memory,
            });
        };
        let Answer {
            followed,
            reply,
            batch,
            last: _,
        } = answer;
        // What is committed is on the disk before anyone is told of it.
        match journal.append(alloc, batch.as_slice()) {
            Ok(()) => Ok((LoggedSchedule { followed, journal }, reply)),
            Err(error) => Err(Stopped {
                device: journal.into_device(),
                error: StepError::from(error),
            }),
        }
    }
}
