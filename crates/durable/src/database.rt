// A database over a log on a device, and what it commits. Made by `opening`.
ghost use Rattle.std.specs.Prelude.{◌≡◌, true};
ghost use Rattle.journal.specs.Standing.{is_open as takes_entries};

use crate::error::{CommitError, Uncommitted};
use crate::request::{Committed, Request};
use command_log::{Entry, bytes_of};
use journal::{AppendError, Device, DeviceError, Journal};
use kv_core::Mutations;
use replay::Image;
use std::alloc::Global;
use std::mem;

/// A database of one thread, whose transactions are in a log on a device. All that is read of it is
/// on the disk.
#[derive(Drop)]
pub struct Durable<D: Device> {
    pub(crate) image: Image,
    pub(crate) journal: Journal<D>,
    pub(crate) is_open: bool,
    ghost journal_open: { is_open ≡ true → takes_entries journal ≡ true },
}

impl<D: Device> Durable<D> {
    ghost use Rattle.std.specs.Prelude.{◌+◌, ◌<◌, ◌≤◌, ◌^◌, ◌++◌, [], ◌∷◌, List, ℕ, length};
    ghost use Rattle.std.specs.Prelude.{false, IfOk, IfErr, OnOk, OnErr, IsErrOf};
    ghost use Rattle.std.specs.Option.{option_copied};
    ghost use Rattle.kv_core.specs.Map.{after_all};
    ghost use Rattle.journal.specs.Block.{StandsFor};
    ghost use Rattle.journal.specs.Form.{blocks};
    ghost use Rattle.journal.specs.Device.{LeavesOnly, Only};
    ghost use Rattle.journal.specs.Journal.{IsBeforeOrAfter, entries_read};
    ghost use Rattle.command_log.specs.declared.entry.Entry.{Entry as EntryValue};
    ghost use Rattle.command_log.specs.Form.{bytes_of_entry};
    ghost use Rattle.durable.specs.Keeping.{Base, HasFirst, HasOnDisk, HasOneOrNone, IsCommitted};
    ghost use Rattle.durable.specs.Keeping.{KeepsLog, entries_after, entry_at};
    ghost use Rattle.durable.specs.Stopping.{StopsAt};
    ghost use Rattle.durable.specs.Standing.{IsUnchanged, image_of, log_device, read_image};
    ghost use Rattle.durable.specs.Standing.{takes_commits};
    ghost use Rattle.durable.specs.Refusals.{IsOfAppend, IsUncommitted};
    ghost use Rattle.journal.specs.Standing.{device_of as journal_device};

    // A database that is what its log comes to.
    pub(crate) fn of(image: Image, journal: Journal<D>) -> Durable<D>
        requires { takes_entries journal ≡ true }
        ensures image { image_of result ≡ image }
        ensures device { log_device result ≡ journal_device journal }
        ensures ok { takes_commits result ≡ true }
    {
        Durable {
            image,
            journal,
            is_open: true,
        }
    }

    /// What is committed, to be read. None where the database is closed.
    pub fn image(&self) -> Option<&Image>
        ensures { option_copied result ≡ read_image self.now }
    {
        if self.is_open {
            Some(&self.image)
        } else {
            None
        }
    }

    /// Whether it commits: one of which it isn't known what became closes it.
    pub fn is_open(&self) -> bool
        ensures { result ≡ takes_commits self.now }
    {
        self.is_open
    }

    /// The device, with which the database can be opened anew.
    pub fn into_device(self) -> D
        ensures { result ≡ log_device self }
    {
        let Durable {
            image,
            journal,
            is_open: _,
        } = self;
        drop(image);
        journal.into_device()
    }

    // Adds the bytes of an entry to the log.
    fn append(&mut self, alloc: Global, bytes: Vec<u8>) -> Result<(), CommitError>
        requires { takes_commits self.old ≡ true }
        ensures acknowledged { OnOk result (StandsFor (D.seen (log_device self.new))
            (entries_read (D.seen (log_device self.old)) ++ bytes.items ∷ [])) }
        ensures durable { OnOk result
            (Only (D.seen (log_device self.new)) (D.may_leave (log_device self.new))) }
        ensures any_moment { LeavesOnly D.moment D.left_since (log_device self.old)
            (log_device self.new) (IsBeforeOrAfter (entries_read (D.seen (log_device self.old)))
            (bytes.items ∷ [])) }
        ensures image { image_of self.new ≡ image_of self.old }
        ensures ok { OnOk result (takes_commits self.new ≡ true) }
        ensures memory { IsErrOf result CommitError.Memory → IsUnchanged self.old self.new }
        ensures full { IsErrOf result CommitError.Full → IsUnchanged self.old self.new }
        ensures no_room { IsErrOf result CommitError.Full
            → 2 ^ 63 ≤ length (D.seen (log_device self.old)) + length (blocks (bytes.items ∷ [])) }
        ensures unknown { IsErrOf result CommitError.Unknown → (takes_commits self.new ≡ false)
            × (D.faults (log_device self.old) < D.faults (log_device self.new)) }
        ensures starved { IsErrOf result CommitError.Starved → (takes_commits self.new ≡ false)
            × (D.wants_memory ≡ true) }
        ensures later { D.faults (log_device self.old) ≤ D.faults (log_device self.new) }
        ensures others { IfErr result IsOfAppend }
    {
        self.is_open = false;
        match self.journal.append(alloc, &[bytes]) {
            Ok(()) => {
                self.is_open = true;
                Ok(())
            }
            Err(AppendError::Memory) => {
                self.is_open = true;
                Err(CommitError::Memory)
            }
            Err(AppendError::Full) => {
                self.is_open = true;
                Err(CommitError::Full)
            }
            Err(AppendError::Broken) => unreachable!(),
            Err(AppendError::Device(DeviceError::Memory)) => Err(CommitError::Starved),
            Err(AppendError::Device(DeviceError::Failed)) => Err(CommitError::Unknown),
        }
    }

    // Makes what a transaction of this version wrote visible.
    fn accept(
        &mut self,
        alloc: Global,
        version: u64,
        mutations: &Mutations,
    ) -> Result<(), CommitError>
        requires { takes_commits self.old ≡ true }
        ensures device { log_device self.new ≡ log_device self.old }
        ensures image { OnOk result (image_of self.new ≡ record {
          map = after_all mutations.now (image_of self.old).map;
          version = version;
        }) }
        ensures ok { OnOk result (takes_commits self.new ≡ true) }
        ensures err { OnErr result (takes_commits self.new ≡ false) }
        ensures unseen { IfErr result (λ error. error ≡ CommitError.Unseen) }
    {
        self.is_open = false;
        let before = mem::replace(&mut self.image, Image::new(alloc));
        match before.accept(version, mutations) {
            Ok(after) => {
                self.image = after;
                self.is_open = true;
                Ok(())
            }
            Err(_) => Err(CommitError::Unseen),
        }
    }

    /// Performs changes in one transaction, all or none, and answers once its entry is on the disk.
    ///
    /// After `Unknown` and `Starved` the database is closed, and the log has the entry or not.
    /// After `Unseen` it is closed, and the log has the entry.
    pub fn commit(&mut self, alloc: Global, request: Request) -> Result<Committed, CommitError>
        ensures committed { IfOk result (λ done. (base : Base) (entries : List EntryValue)
            → KeepsLog D.seen D.may_leave base entries (log_device self.old) (image_of self.old)
            → IsCommitted D.seen D.may_leave base entries (image_of self.old).version request done
            (log_device self.new) (image_of self.new)) }

        // A crash at any moment of the call leaves the log from before it, with the transaction or
        // without.
        ensures any_moment { (base : Base) (entries : List EntryValue)
            → KeepsLog D.seen D.may_leave base entries (log_device self.old) (image_of self.old)
            → LeavesOnly D.moment D.left_since (log_device self.old) (log_device self.new)
            (HasOneOrNone base entries (entry_at ((image_of self.old).version + 1) request)) }

        ensures given { IfOk result (λ done. (done.version ≡ (image_of self.old).version + 1)
            × ((image_of self.new).version ≡ done.version)) }
        ensures ok { OnOk result (takes_commits self.new ≡ true) }
        ensures no_reopening { takes_commits self.new ≡ true → takes_commits self.old ≡ true }
        ensures refused { IfErr result (λ error.
            IsUncommitted error request self.old self.new) }
        ensures closed { takes_commits self.old ≡ false → IsErrOf result CommitError.Closed }
        ensures full { IfErr result (λ error. error ≡ CommitError.Full
            → let entry = entry_at ((image_of self.old).version + 1) request in
            2 ^ 63 ≤ length (D.seen (log_device self.old))
            + length (blocks (bytes_of_entry entry ∷ []))) }

        // It isn't known what became of it only where the device has failed, or wants memory.
        ensures unknown { IfErr result (λ error. error ≡ CommitError.Unknown
            → D.faults (log_device self.old) < D.faults (log_device self.new)) }
        ensures starved { IfErr result (λ error. error ≡ CommitError.Starved
            → D.wants_memory ≡ true) }
        ensures later { D.faults (log_device self.old) ≤ D.faults (log_device self.new) }

        // One that can't be read is in the log, on the disk.
        ensures unseen { IfErr result (λ error. error ≡ CommitError.Unseen
            → (base : Base) (entries : List EntryValue)
            → KeepsLog D.seen D.may_leave base entries (log_device self.old) (image_of self.old)
            → HasOnDisk D.seen D.may_leave base
            (entries ++ entry_at ((image_of self.old).version + 1) request ∷ [])
            (log_device self.new)) }
    {
        if !self.is_open {
            return Err(CommitError::Closed);
        }
        let Some(version) = self.image.version().checked_add(1) else {
            return Err(CommitError::Exhausted);
        };
        let entry = Entry {
            version,
            client: request.client,
            number: request.number,
            store: request.store.get(),
            changes: request.changes,
        };
        let bytes = bytes_of(alloc, &entry)?;
        let done = self.image.perform(alloc, request.store, entry.changes)?;
        self.append(alloc, bytes)?; // The entry is on the disk before anyone sees what it changes.
        self.accept(alloc, version, &done.mutations)?;
        Ok(Committed {
            version,
            replies: done.replies,
        })
    }

    /// Commits transactions, one after another, up to the first that isn't.
    pub fn commit_each(&mut self, alloc: Global, requests: Vec<Request>) -> Result<(), Uncommitted>
        ensures committed { OnOk result ((base : Base) (entries : List EntryValue)
            → KeepsLog D.seen D.may_leave base entries (log_device self.old) (image_of self.old)
            → KeepsLog D.seen D.may_leave base
            (entries ++ entries_after (image_of self.old).version requests.items)
            (log_device self.new) (image_of self.new)) }

        // A crash at any moment leaves the log from before the call, with the first of the
        // transactions, none of them skipped and none in part.
        ensures any_moment { (base : Base) (entries : List EntryValue)
            → KeepsLog D.seen D.may_leave base entries (log_device self.old) (image_of self.old)
            → LeavesOnly D.moment D.left_since (log_device self.old) (log_device self.new)
            (HasFirst base entries (entries_after (image_of self.old).version requests.items)) }

        ensures stopped { IfErr result (λ why. (base : Base) (entries : List EntryValue)
            → KeepsLog D.seen D.may_leave base entries (log_device self.old) (image_of self.old)
            → StopsAt D.seen D.may_leave base entries (image_of self.old).version requests.items why
            (log_device self.new) (image_of self.new)) }

        // Only the first one finds the database closed, where it was. It isn't known what became of
        // one only where the device has failed, or wants memory.
        ensures closed { IfErr result (λ why. why.error ≡ CommitError.Closed
            → (why.place ≡ 0) × (takes_commits self.old ≡ false)) }
        ensures unknown { IfErr result (λ why. why.error ≡ CommitError.Unknown
            → D.faults (log_device self.old) < D.faults (log_device self.new)) }
        ensures starved { IfErr result (λ why. why.error ≡ CommitError.Starved
            → D.wants_memory ≡ true) }
    {
        let mut place = 0;
        for request in requests {
            if let Err(error) = self.commit(alloc, request) {
                return Err(Uncommitted { place, error });
            }
            place += 1;
        }
        Ok(())
    }
}
