// A database over two devices that are used in turn. Made by `reopening`.
ghost use Rattle.std.specs.Prelude.{◌≡◌, ◌+◌, ◌-◌, ◌^◌, true, IfErr, IfOk, MatchOption, OnOk};
ghost use Rattle.journal.specs.Block.{StandsFor};
ghost use Rattle.journal.specs.Device.{LeavesOnly, Only};
ghost use Rattle.journal.specs.Journal.{entries_read};
ghost use Rattle.journal.specs.Standing.{device_of, is_open as takes_entries};
ghost use Rattle.journal.specs.Words.{bytes_of_each};
ghost use Rattle.durable.specs.Exchanging.{IsCheckpointOf, IsNotRewritten, IsRewritten};
ghost use Rattle.durable.specs.Standing.{takes_commits as log_takes};

use crate::database::Durable;
use crate::error::{CheckpointError, CommitError};
use crate::heads::bytes_of_checkpoint;
use crate::request::{Committed, Request};
use journal::{AppendError, Device, DeviceError, Journal};
use replay::Image;
use std::alloc::{AllocError, Global};
use std::mem;

/// A database of one thread over two devices. One has the log, after a checkpoint or from the
/// first transaction on; a checkpoint writes what the database is into the other one, which has the
/// log from then on.
#[derive(Drop)]
pub struct Checkpointed<D: Device> {
    log: Durable<D>,
    spare: Journal<D>,
    generation: u64,
    ghost spare_open: { log_takes log ≡ true → takes_entries spare ≡ true },
}

/// What a database over two devices is made of, so that another one can go on with it.
#[derive(Drop)]
pub struct CheckpointedParts<D: Device> {
    /// What is committed.
    pub image: Image,
    /// The journal that has the log.
    pub log: Journal<D>,
    /// The other one.
    pub spare: Journal<D>,
    /// How many checkpoints its history has.
    pub generation: u64,
}

/// Puts these byte strings in the place of all that a journal has.
///
/// It is refused with `Memory` where memory runs out, and with `Full` where they are longer than a
/// file may be: the journal has nothing then, and goes on. Where the device failed, or memory ran
/// out in it, a crash leaves what the file had, nothing, or these byte strings.
pub fn rewrite<D: Device>(
    alloc: Global,
    journal: &mut Journal<D>,
    batch: &[Vec<u8>],
) -> Result<(), AppendError>
    requires { takes_entries journal.old ≡ true }
    ensures written { OnOk result
        (StandsFor (D.seen (device_of journal.new)) (bytes_of_each batch.now)) }
    ensures durable { OnOk result
        (Only (D.seen (device_of journal.new)) (D.may_leave (device_of journal.new))) }
    ensures ok { OnOk result (takes_entries journal.new ≡ true) }
    ensures any_moment { LeavesOnly D.moment D.left_since (device_of journal.old)
        (device_of journal.new) (IsRewritten (entries_read (D.seen (device_of journal.old)))
        (bytes_of_each batch.now)) }
    ensures unwritten { IfErr result (λ error. IsNotRewritten D.seen D.may_leave D.faults
        D.wants_memory (bytes_of_each batch.now) error (device_of journal.old) journal.new) }
{
    journal.clear()?;
    journal.append(alloc, batch)
}

// The generation after this one, if there is one.
fn next_generation(generation: u64) -> Option<u64>
    ensures { MatchOption result (generation ≡ 2 ^ 64 - 1) (λ next. next ≡ generation + 1) }
{
    generation.checked_add(1)
}

// The byte strings of a checkpoint of this generation, of a database.
fn checkpoint_of(alloc: Global, generation: u64, image: &Image) -> Result<Vec<Vec<u8>>, AllocError>
    ensures { IfOk result (λ batch.
        IsCheckpointOf generation image.now (bytes_of_each batch.items)) }
{
    let pairs = image.pairs(alloc)?;
    bytes_of_checkpoint(alloc, generation, image.version(), &pairs)
}

impl<D: Device> Durable<D> {
    ghost use Rattle.std.specs.Prelude.{OnErr};
    ghost use Rattle.durable.specs.Exchanging.{IsOpenAfter};
    ghost use Rattle.durable.specs.Standing.{image_of, log_device};

    // Puts these byte strings in the place of all that another journal has, and goes on after them
    // there. The journal from before is the other one then.
    fn exchange(
        &mut self,
        alloc: Global,
        other: &mut Journal<D>,
        batch: &[Vec<u8>],
    ) -> Result<(), AppendError>
        requires open { log_takes self.old ≡ true }
        requires other { takes_entries other.old ≡ true }
        ensures written { OnOk result
            (StandsFor (D.seen (log_device self.new)) (bytes_of_each batch.now)) }
        ensures durable { OnOk result
            (Only (D.seen (log_device self.new)) (D.may_leave (log_device self.new))) }
        ensures ok { OnOk result (log_takes self.new ≡ true) }
        ensures other_open { OnOk result (takes_entries other.new ≡ true) }
        ensures swapped { OnOk result (device_of other.new ≡ log_device self.old) }
        ensures any_moment { OnOk result (LeavesOnly D.moment D.left_since (device_of other.old)
            (log_device self.new) (IsRewritten (entries_read (D.seen (device_of other.old)))
            (bytes_of_each batch.now))) }
        ensures image { image_of self.new ≡ image_of self.old }
        ensures stays { OnErr result (log_device self.new ≡ log_device self.old) }
        ensures any_moment_err { OnErr result (LeavesOnly D.moment D.left_since
            (device_of other.old) (device_of other.new)
            (IsRewritten (entries_read (D.seen (device_of other.old))) (bytes_of_each batch.now))) }
        ensures unexchanged { IfErr result (λ error. IsNotRewritten D.seen D.may_leave D.faults
            D.wants_memory (bytes_of_each batch.now) error (device_of other.old) other.new) }
        ensures goes_on { IfErr result (λ error. IsOpenAfter error (log_takes self.new)) }
    {
        // A log that goes on while the other device has failed might not be the one that is opened.
        self.is_open = false;
        match rewrite(alloc, other, batch) {
            Ok(()) => {
                mem::swap(&mut self.journal, other);
                self.is_open = true;
                Ok(())
            }
            Err(AppendError::Memory) => {
                self.is_open = true;
                Err(AppendError::Memory)
            }
            Err(AppendError::Full) => {
                self.is_open = true;
                Err(AppendError::Full)
            }
            Err(error) => Err(error),
        }
    }
}

impl<D: Device> Checkpointed<D> {
    ghost use Rattle.std.specs.Prelude.{◌<◌, ◌≤◌, ◌⊎◌, ◌++◌, [], ◌∷◌, List};
    ghost use Rattle.std.specs.Prelude.{false, OnErr, IsErrOf};
    ghost use Rattle.std.specs.Option.{option_copied};
    ghost use Rattle.command_log.specs.declared.entry.Entry.{Entry as EntryValue};
    ghost use Rattle.durable.specs.Checkpoints.{HaveHistory, HaveOnDisk};
    ghost use Rattle.durable.specs.Exchanging.{HasNoRoomForAll};
    ghost use Rattle.durable.specs.Keeping.{HasNoRoom, entry_at};
    ghost use Rattle.durable.specs.Standing as databases;
    ghost use Rattle.durable.specs.Twofold.{IsAdded, IsUncommittedTwo, KeepsHistory};
    ghost use Rattle.durable.specs.Twofold.{MakesNoCheckpoint};
    ghost use Rattle.durable.specs.Twofold.{generation_of, image_of, log_device, spare_device};
    ghost use Rattle.durable.specs.Twofold.{takes_commits};

    // A database whose log is that of one device, and the other device at rest.
    pub(crate) fn of(log: Durable<D>, spare: Journal<D>, generation: u64) -> Checkpointed<D>
        requires { takes_entries spare ≡ true }
        ensures log { log_device result ≡ databases.log_device log }
        ensures spare { spare_device result ≡ device_of spare }
        ensures image { image_of result ≡ databases.image_of log }
        ensures generation { generation_of result ≡ generation }
        ensures open_still { takes_commits result ≡ log_takes log }
    {
        Checkpointed {
            log,
            spare,
            generation,
        }
    }

    /// What is committed, to be read. None where the database is closed.
    pub fn image(&self) -> Option<&Image>
        ensures { option_copied result ≡ databases.read_image self.now.log }
    {
        self.log.image()
    }

    /// Whether it commits: one of which it isn't known what became closes it.
    pub fn is_open(&self) -> bool
        ensures { result ≡ takes_commits self.now }
    {
        self.log.is_open()
    }

    /// The devices, with which the database can be opened anew: that of the log, and the other one.
    pub fn into_devices(self) -> (D, D)
        ensures { result ≡ (log_device self, spare_device self) }
    {
        let Checkpointed {
            log,
            spare,
            generation: _,
        } = self;
        (log.into_device(), spare.into_device())
    }

    /// What it is made of. Its journals take entries where it commits; else the image may be behind
    /// the log.
    pub fn into_parts(self) -> CheckpointedParts<D>
        ensures image { result.image ≡ image_of self }
        ensures log { device_of result.log ≡ log_device self }
        ensures spare { device_of result.spare ≡ spare_device self }
        ensures generation { result.generation ≡ generation_of self }
        ensures ok { takes_commits self ≡ true → takes_entries result.log ≡ true }
        ensures spare_ok { takes_commits self ≡ true → takes_entries result.spare ≡ true }
    {
        let Checkpointed {
            log,
            spare,
            generation,
        } = self;
        let Durable {
            image,
            journal,
            is_open: _,
        } = log;
        CheckpointedParts {
            image,
            log: journal,
            spare,
            generation,
        }
    }

    /// Performs changes in one transaction, all or none, and answers once its entry is on the disk.
    pub fn commit(&mut self, alloc: Global, request: Request) -> Result<Committed, CommitError>
        ensures committed { IfOk result (λ done. (entries : List EntryValue)
            → KeepsHistory D.seen D.may_leave entries (generation_of self.old)
            (log_device self.old) (spare_device self.old) (image_of self.old)
            → IsAdded D.seen D.may_leave entries (generation_of self.old)
            (image_of self.old).version request done (log_device self.new)
            (spare_device self.new) (image_of self.new)) }

        // A crash at any moment of the call leaves two files with the history from before it, with
        // the transaction or without.
        ensures any_moment { (entries : List EntryValue)
            → KeepsHistory D.seen D.may_leave entries (generation_of self.old)
            (log_device self.old) (spare_device self.old) (image_of self.old)
            → LeavesOnly D.moment D.left_since (log_device self.old) (log_device self.new)
            (λ c. HaveHistory entries c (D.seen (spare_device self.old))
            ⊎ HaveHistory (entries ++ entry_at ((image_of self.old).version + 1) request ∷ []) c
            (D.seen (spare_device self.old))) }
        ensures spare { spare_device self.new ≡ spare_device self.old }

        ensures given { IfOk result (λ done. (done.version ≡ (image_of self.old).version + 1)
            × ((image_of self.new).version ≡ done.version)) }
        ensures ok { OnOk result (takes_commits self.new ≡ true) }
        ensures generation { generation_of self.new ≡ generation_of self.old }
        ensures later { D.faults (log_device self.old) ≤ D.faults (log_device self.new) }
        ensures refused { IfErr result (λ error.
            IsUncommittedTwo error request self.old self.new) }
        ensures closed { takes_commits self.old ≡ false → IsErrOf result CommitError.Closed }
        ensures full { IfErr result (λ error. error ≡ CommitError.Full
            → HasNoRoom (D.seen (log_device self.old)) (image_of self.old).version request) }

        // It isn't known what became of it only where the device has failed, or wants memory.
        ensures unknown { IfErr result (λ error. error ≡ CommitError.Unknown
            → D.faults (log_device self.old) < D.faults (log_device self.new)) }
        ensures starved { IfErr result (λ error. error ≡ CommitError.Starved
            → D.wants_memory ≡ true) }

        // One that can't be read is in the history, on the disk.
        ensures unseen { IfErr result (λ error. error ≡ CommitError.Unseen
            → (entries : List EntryValue)
            → KeepsHistory D.seen D.may_leave entries (generation_of self.old)
            (log_device self.old) (spare_device self.old) (image_of self.old)
            → HaveOnDisk D.seen D.may_leave
            (entries ++ entry_at ((image_of self.old).version + 1) request ∷ [])
            (log_device self.new) (spare_device self.new)) }
    {
        self.log.commit(alloc, request)
    }

    /// Writes what the database is into the device that isn't in use, which has its log from then
    /// on. The log before it isn't needed then, and the next checkpoint drops it.
    pub fn checkpoint(&mut self, alloc: Global) -> Result<(), CheckpointError>
        // The history is the same, and so is what is read.
        ensures kept { OnOk result ((entries : List EntryValue)
            → KeepsHistory D.seen D.may_leave entries (generation_of self.old)
            (log_device self.old) (spare_device self.old) (image_of self.old)
            → KeepsHistory D.seen D.may_leave entries (generation_of self.new)
            (log_device self.new) (spare_device self.new) (image_of self.old)) }
        ensures image { image_of self.new ≡ image_of self.old }
        ensures ok { OnOk result (takes_commits self.new ≡ true) }
        ensures generation { OnOk result (generation_of self.new ≡ generation_of self.old + 1) }

        // The device with the log isn't touched, and a crash at any moment of the call leaves two
        // files with the same history.
        ensures untouched { OnOk result (spare_device self.new ≡ log_device self.old) }
        ensures untouched_err { OnErr result (log_device self.new ≡ log_device self.old) }
        ensures any_moment { OnOk result ((entries : List EntryValue)
            → KeepsHistory D.seen D.may_leave entries (generation_of self.old)
            (log_device self.old) (spare_device self.old) (image_of self.old)
            → LeavesOnly D.moment D.left_since (spare_device self.old) (log_device self.new)
            (λ c. HaveHistory entries (D.seen (log_device self.old)) c)) }
        ensures any_moment_err { OnErr result ((entries : List EntryValue)
            → KeepsHistory D.seen D.may_leave entries (generation_of self.old)
            (log_device self.old) (spare_device self.old) (image_of self.old)
            → LeavesOnly D.moment D.left_since (spare_device self.old) (spare_device self.new)
            (λ c. HaveHistory entries (D.seen (log_device self.old)) c)) }

        // Where it isn't made the database goes on with the same history, or is closed since the
        // device failed.
        ensures unmade { IfErr result (λ error. MakesNoCheckpoint error self.old self.new) }
        ensures full { IfErr result (λ error. error ≡ CheckpointError.Full
            → HasNoRoomForAll (D.seen (spare_device self.new)) (generation_of self.old + 1)
            (image_of self.old)) }
        ensures closed { takes_commits self.old ≡ false
            → IsErrOf result CheckpointError.Closed }
        ensures goes_on { OnErr result (takes_commits self.new ≡ true → (entries : List EntryValue)
            → KeepsHistory D.seen D.may_leave entries (generation_of self.old)
            (log_device self.old) (spare_device self.old) (image_of self.old)
            → KeepsHistory D.seen D.may_leave entries (generation_of self.new)
            (log_device self.new) (spare_device self.new) (image_of self.new)) }
        ensures failed { IfErr result (λ error. error ≡ CheckpointError.Failed
            → D.faults (spare_device self.old) < D.faults (spare_device self.new)) }
        ensures starved { IfErr result (λ error. error ≡ CheckpointError.Starved
            → D.wants_memory ≡ true) }
    {
        let Some(image) = self.log.image() else {
            return Err(CheckpointError::Closed);
        };
        let Some(generation) = next_generation(self.generation) else {
            return Err(CheckpointError::Exhausted);
        };
        let batch = checkpoint_of(alloc, generation, image)?;
        // Until all of it is on the disk the log goes on where it is.
        match self.log.exchange(alloc, &mut self.spare, &batch) {
            Ok(()) => {
                self.generation = generation;
                Ok(())
            }
            Err(AppendError::Memory) => Err(CheckpointError::Memory),
            Err(AppendError::Full) => Err(CheckpointError::Full),
            Err(AppendError::Broken) => unreachable!(),
            Err(AppendError::Device(DeviceError::Failed)) => Err(CheckpointError::Failed),
            Err(AppendError::Device(DeviceError::Memory)) => Err(CheckpointError::Starved),
        }
    }
}
