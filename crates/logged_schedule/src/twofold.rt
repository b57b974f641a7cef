// A schedule whose log is on one of two devices in turn. Made by `reopening`.
ghost use Rattle.std.specs.Prelude.{◌≡◌, ◌+◌, true, IfErr, IfOk, OnOk};
ghost use Rattle.journal.specs.Standing.{is_open as takes_entries};

use crate::error::{Failed, StepError, StoppedTwo, Unmade};
use crate::followed::Followed;
use crate::logged::Answer;
use crate::whole::pairs_of;
use durable::{bytes_of_checkpoint, rewrite};
use journal::{AppendError, Device, DeviceError, Journal};
use schedule::{Reply, Schedule, Step};
use std::alloc::Global;

/// A schedule whose commits are in a log on one of two devices. A checkpoint writes what is
/// committed into the other one, which has the log from then on. What a step commits is on the disk
/// before the step is answered.
#[derive(Drop)]
pub struct TwofoldSchedule<D: Device> {
    followed: Followed,
    log: Journal<D>,
    spare: Journal<D>,
    generation: u64,
    // The version of the last entry.
    last: u64,
    ghost log_open: { takes_entries log ≡ true },
    ghost spare_open: { takes_entries spare ≡ true },
}

// The byte strings of a checkpoint, and its generation.
#[derive(Drop)]
struct Made {
    generation: u64,
    batch: Vec<Vec<u8>>,
}

impl<D: Device> TwofoldSchedule<D> {
    ghost use Rattle.std.specs.Prelude.{◌<◌, List, OnErr};
    ghost use Rattle.command_log.specs.declared.entry.Entry.{Entry as EntryValue};
    ghost use Rattle.journal.specs.Device.{LeavesOnly};
    ghost use Rattle.journal.specs.Standing.{device_of};
    ghost use Rattle.journal.specs.Words.{bytes_of_each};
    ghost use Rattle.replay.specs.Pairs.{all_pairs};
    ghost use Rattle.schedule.specs.Stepwise.{DoesNext};
    ghost use Rattle.durable.specs.Checkpoints.{HaveHistory};
    ghost use Rattle.durable.specs.Exchanging.{IsCheckpointOf};
    ghost use Rattle.durable.specs.Heads.{checkpoint_bytes};
    ghost use Rattle.logged_schedule.specs.Runs.{Run};
    ghost use Rattle.logged_schedule.specs.Twofold.{IsKeptStepTwo, IsNotMade, IsNotPrepared};
    ghost use Rattle.logged_schedule.specs.Twofold.{IsWithoutAnswerTwo, KeepsRunTwo};
    ghost use Rattle.logged_schedule.specs.Twofold.{checkpoints_of, image_after, image_reported};
    ghost use Rattle.logged_schedule.specs.Twofold.{current_device, schedule_of, other_device};

    // A schedule that is what its history comes to, whose last entry has this version.
    pub(crate) fn of(
        followed: Followed,
        log: Journal<D>,
        spare: Journal<D>,
        generation: u64,
        last: u64,
    ) -> TwofoldSchedule<D>
        requires log { takes_entries log ≡ true }
        requires spare { takes_entries spare ≡ true }
        ensures followed { result.followed ≡ followed }
        ensures log { current_device result ≡ device_of log }
        ensures spare { other_device result ≡ device_of spare }
        ensures generation { checkpoints_of result ≡ generation }
        ensures last { result.last ≡ last }
    {
        TwofoldSchedule {
            followed,
            log,
            spare,
            generation,
            last,
        }
    }

    /// The schedule, to be read.
    pub fn schedule(&self) -> &Schedule
        ensures value { result.now ≡ schedule_of self.now }
    {
        &self.followed.schedule
    }

    /// The devices, from which it can be opened anew: that of the log, and the other one.
    pub fn into_devices(self) -> (D, D)
        ensures { result ≡ (current_device self, other_device self) }
    {
        let TwofoldSchedule {
            followed,
            log,
            spare,
            generation: _,
            last: _,
        } = self;
        drop(followed);
        (log.into_device(), spare.into_device())
    }

    /// Does one step more, and answers its reply once all that it commits is logged on the disk, in
    /// one batch.
    ///
    /// It is refused as `LoggedSchedule::step` is. The schedule has ended then.
    pub fn step(
        self,
        alloc: Global,
        step: &Step,
    ) -> Result<(TwofoldSchedule<D>, Reply), StoppedTwo<D>>
        // The schedule has done one step more, with this reply.
        ensures next { IfOk result (λ done.
            DoesNext step.now done.1 (schedule_of self) (schedule_of done.0)) }

        // Whatever run was done before, and whichever history the files have of it: it has just the
        // entries of what the step committed more. A crash leaves all of these or none. The other
        // device isn't touched.
        ensures kept { IfOk result (λ done. (run : Run) (entries : List EntryValue)
            → KeepsRunTwo D.seen D.may_leave run entries self
            → IsKeptStepTwo D.seen D.may_leave D.moment D.left_since run entries step.now done.1
            self done.0) }
        ensures spare { IfOk result (λ done. other_device done.0 ≡ other_device self) }
        ensures generation { IfOk result (λ done. checkpoints_of done.0 ≡ checkpoints_of self) }

        // A step that isn't answered leaves the history as it was, or with all that the step
        // committed.
        ensures stopped { IfErr result (λ why. (run : Run) (entries : List EntryValue)
            → KeepsRunTwo D.seen D.may_leave run entries self
            → IsWithoutAnswerTwo D.seen D.moment D.left_since run entries step.now why.error self
            why.device) }
        ensures spare_err { IfErr result (λ why. why.spare ≡ other_device self) }
        ensures unknown { IfErr result (λ why. why.error ≡ StepError.Unknown
            → D.faults (current_device self) < D.faults why.device) }
        ensures starved { IfErr result (λ why. why.error ≡ StepError.Starved
            → D.wants_memory ≡ true) }
    {
        let TwofoldSchedule {
            followed,
            mut log,
            spare,
            generation,
            last,
        } = self;
        let Ok(answer) = Answer::of(alloc, followed, step) else {
            return Err(StoppedTwo {
                device: log.into_device(),
                spare: spare.into_device(),
                error: StepError::Memory,
            });
        };
        let Answer {
            batch,
            last: told,
            followed,
            reply,
        } = answer;
        // What is committed is on the disk before anyone is told of it.
        match log.append(alloc, batch.as_slice()) {
            Ok(()) => {
                let last = told.unwrap_or(last);
                let two = TwofoldSchedule::of(followed, log, spare, generation, last);
                Ok((two, reply))
            }
            Err(error) => Err(StoppedTwo {
                device: log.into_device(),
                spare: spare.into_device(),
                error: StepError::from(error),
            }),
        }
    }

    // The byte strings of a checkpoint of the next generation.
    fn made(&self, alloc: Global) -> Result<Made, Unmade>
        ensures next { IfOk result (λ made. made.generation ≡ checkpoints_of self.now + 1) }
        ensures made { IfOk result (λ made. (run : Run) (entries : List EntryValue)
            → KeepsRunTwo D.seen D.may_leave run entries self.now
            → IsCheckpointOf made.generation (image_after entries)
            (bytes_of_each made.batch.items)) }
        ensures written { IfOk result (λ made. let image = image_reported self.now in
            bytes_of_each made.batch.items
            ≡ checkpoint_bytes made.generation image.version (all_pairs image.map)) }
        ensures unmade { IfErr result (IsNotPrepared (schedule_of self.now).database.cluster
            (checkpoints_of self.now)) }
    {
        let Some(generation) = self.generation.checked_add(1) else {
            return Err(Unmade::Exhausted);
        };
        let pairs = match pairs_of(alloc, self.followed.schedule.cluster()) {
            Ok(pairs) => pairs,
            Err(error) => return Err(error),
        };
        let batch = bytes_of_checkpoint(alloc, generation, self.last, &pairs)?;
        Ok(Made { generation, batch })
    }

    /// Writes what is committed into the device that isn't in use, which has the log from then on.
    /// The log before it isn't needed then, and the next checkpoint drops it. What is open, or
    /// isn't reported yet, stays so.
    ///
    /// It isn't made, and the schedule goes on as before, with `Memory` where memory runs out, with
    /// `Full` where the state is longer than a file may be, with `Exhausted` where no generation is
    /// left, and with `Behind` where a server can't be read at the last reported version. Where the
    /// device that isn't in use fails the checkpoint may be there or not, and the schedule has
    /// ended.
    pub fn checkpoint(
        self,
        alloc: Global,
    ) -> Result<(TwofoldSchedule<D>, Result<(), Unmade>), Failed<D>>
        // The run goes on, and the history is the same.
        ensures schedule { IfOk result (λ done. schedule_of done.0 ≡ schedule_of self) }
        ensures kept { IfOk result (λ done. (run : Run) (entries : List EntryValue)
            → KeepsRunTwo D.seen D.may_leave run entries self
            → KeepsRunTwo D.seen D.may_leave run entries done.0) }
        ensures generation { IfOk result (λ done. OnOk done.1
            (checkpoints_of done.0 ≡ checkpoints_of self + 1)) }

        // The device with the log isn't touched, and is the other one from then on. A crash at any
        // moment leaves two files with the same history.
        ensures untouched { IfOk result (λ done. OnOk done.1
            (other_device done.0 ≡ current_device self)) }
        ensures stays { IfOk result (λ done. OnErr done.1
            (current_device done.0 ≡ current_device self)) }
        ensures untouched_err { IfErr result (λ failed. failed.device ≡ current_device self) }
        ensures any_moment { IfOk result (λ done. OnOk done.1 ((run : Run)
            (entries : List EntryValue) → KeepsRunTwo D.seen D.may_leave run entries self
            → LeavesOnly D.moment D.left_since (other_device self) (current_device done.0)
            (HaveHistory entries (D.seen (current_device self))))) }
        ensures any_moment_unmade { IfOk result (λ done. OnErr done.1 ((run : Run)
            (entries : List EntryValue) → KeepsRunTwo D.seen D.may_leave run entries self
            → LeavesOnly D.moment D.left_since (other_device self) (other_device done.0)
            (HaveHistory entries (D.seen (current_device self))))) }
        ensures any_moment_err { IfErr result (λ failed. (run : Run) (entries : List EntryValue)
            → KeepsRunTwo D.seen D.may_leave run entries self
            → LeavesOnly D.moment D.left_since (other_device self) failed.spare
            (HaveHistory entries (D.seen (current_device self)))) }

        // Why it isn't made, and the generation stays then.
        ensures unmade { IfOk result (λ done. IfErr done.1 (λ error.
            IsNotMade D.seen self (other_device done.0) error
            × (checkpoints_of done.0 ≡ checkpoints_of self))) }
        ensures failed { IfErr result (λ failed. failed.error ≡ DeviceError.Failed
            → D.faults (other_device self) < D.faults failed.spare) }
        ensures starved { IfErr result (λ failed. failed.error ≡ DeviceError.Memory
            → D.wants_memory ≡ true) }
    {
        let Made { generation, batch } = match self.made(alloc) {
            Ok(made) => made,
            Err(error) => return Ok((self, Err(error))),
        };
        let TwofoldSchedule {
            followed,
            log,
            mut spare,
            generation: before,
            last,
        } = self;
        // Until all of it is on the disk the log goes on where it is.
        match rewrite(alloc, &mut spare, &batch) {
            Ok(()) => {
                let two = TwofoldSchedule::of(followed, spare, log, generation, last);
                Ok((two, Ok(())))
            }
            Err(AppendError::Memory) => {
                let two = TwofoldSchedule::of(followed, log, spare, before, last);
                Ok((two, Err(Unmade::Memory)))
            }
            Err(AppendError::Full) => {
                let two = TwofoldSchedule::of(followed, log, spare, before, last);
                Ok((two, Err(Unmade::Full)))
            }
            Err(AppendError::Broken) => unreachable!(),
            Err(AppendError::Device(error)) => Err(Failed {
                device: log.into_device(),
                spare: spare.into_device(),
                error,
            }),
        }
    }
}
