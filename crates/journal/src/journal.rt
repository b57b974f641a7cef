// A journal that is open for appends.
ghost use Rattle.std.specs.Prelude.{◌≡◌, ◌<◌, ◌≤◌, ◌+◌, ◌^◌, ◌++◌, [], ◌∷◌, List, ℕ, length};
ghost use Rattle.std.specs.Prelude.{true, OnOk, IfOk, IsErrOf};
ghost use Rattle.journal.specs.Device.{Only, LeavesOnly, HasCause};
ghost use Rattle.journal.specs.Form.{zeros, blocks};
ghost use Rattle.journal.specs.Block.{StandsFor};
ghost use Rattle.journal.specs.Journal.{IsKeptAtRest, IsBeforeOrAfter};
ghost use Rattle.journal.specs.Journal.{IsBeforeOrNone, entries_read};

use crate::block::{CLOSED, block_of};
use crate::{AppendError, Device, DeviceError};
use std::alloc::{AllocError, Global};

// No file of which a device tells the length is longer.
const MAX_BYTES: usize = (1 << 63) - 1;

// Where the room behind the blocks is used up, as many zeros are written as the file has bytes, but
// no fewer and no more than these.
const LEAST_ROOM: usize = 1 << 12;

const MOST_ROOM: usize = 1 << 20;

/// The entries of a file, to which more can be added. After a failure of the device it is broken,
/// and takes none.
#[derive(Drop)]
pub struct Journal<D: Device> {
    device: D,
    // Where the blocks end.
    end: usize,
    // Where the zeros behind them end, and with them the file.
    len: usize,
    is_open: bool,
    ghost settled: { is_open ≡ true → IsKeptAtRest D.seen D.may_leave device end len },
}

// The zeros by which a file of this length has to grow, so that it has room up to a place and one
// zero more.
fn growth(alloc: Global, len: usize, place: usize) -> Result<Vec<u8>, AllocError>
    requires small { len ≤ 2 ^ 63 }
    requires within { place + 1 < 2 ^ 63 }
    ensures items { IfOk result (λ v. v.items ≡ zeros (length v.items)) }
    ensures room { IfOk result (λ v. place < len + length v.items) }
    ensures bound { IfOk result (λ v. len + length v.items ≤ 2 ^ 63) }
{
    if place < len {
        return Ok(Vec::new(alloc));
    }
    let most = MAX_BYTES - len;
    let room = len.max(LEAST_ROOM).min(MOST_ROOM).min(most);
    let wanted = (place - len + 1).max(room);
    Vec::from_elem(alloc, 0, wanted)
}

// Writes zeros at the file's end.
fn grow<D: Device>(device: &mut D, end: usize, len: usize, more: &[u8]) -> Result<(), DeviceError>
    requires kept { IsKeptAtRest D.seen D.may_leave device.old end len }
    requires zeros { more.now ≡ zeros (length more.now) }
    requires small { len + length more.now ≤ 2 ^ 63 }
    ensures grown { OnOk result
        (IsKeptAtRest D.seen D.may_leave device.new end (len + length more.now)) }
    ensures same { OnOk result
        (entries_read (D.seen device.new) ≡ entries_read (D.seen device.old)) }
    ensures any_moment { LeavesOnly D.moment D.left_since device.old device.new
        (λ c. StandsFor c (entries_read (D.seen device.old))) }
    ensures cause { HasCause (D.faults device.old) (D.faults device.new) result }
    ensures fed { IsErrOf result DeviceError.Memory → D.wants_memory ≡ true }
{
    if more.is_empty() {
        return Ok(());
    }
    device.write_at(len, more)?;
    device.sync()?; // The zeros are on the disk before a block is written over them.
    Ok(())
}

// Writes a block over zeros behind the blocks.
fn add<D: Device>(device: &mut D, end: usize, len: usize, block: &[u8]) -> Result<(), DeviceError>
    requires kept { IsKeptAtRest D.seen D.may_leave device.old end len }
    requires room { end + length block.now < len }
    ensures added { (batch : List (List ℕ)) → block.now ≡ blocks batch → OnOk result
        (StandsFor (D.seen device.new) (entries_read (D.seen device.old) ++ batch)) }
    ensures kept { (batch : List (List ℕ)) → block.now ≡ blocks batch → OnOk result
        (IsKeptAtRest D.seen D.may_leave device.new (end + length block.now) len) }
    ensures any_moment { (batch : List (List ℕ)) → block.now ≡ blocks batch
        → LeavesOnly D.moment D.left_since device.old device.new
        (IsBeforeOrAfter (entries_read (D.seen device.old)) batch) }
    ensures cause { HasCause (D.faults device.old) (D.faults device.new) result }
    ensures fed { IsErrOf result DeviceError.Memory → D.wants_memory ≡ true }
{
    device.write_at(end, block)?;
    device.sync()?; // The block is on the disk before the batch is acknowledged.
    Ok(())
}

// Shuts the file's first gate, so that it stands for no entry, and then cuts off what follows.
fn empty<D: Device>(device: &mut D, end: usize, len: usize) -> Result<(), DeviceError>
    requires { IsKeptAtRest D.seen D.may_leave device.old end len }
    ensures emptied { OnOk result (D.seen device.new ≡ 0 ∷ []) }
    ensures durable { OnOk result (Only (D.seen device.new) (D.may_leave device.new)) }
    ensures any_moment { LeavesOnly D.moment D.left_since device.old device.new
        (IsBeforeOrNone (entries_read (D.seen device.old))) }
    ensures cause { HasCause (D.faults device.old) (D.faults device.new) result }
    ensures fed { IsErrOf result DeviceError.Memory → D.wants_memory ≡ true }
{
    device.write_at(0, &[CLOSED])?;
    device.sync()?; // The gate is shut on the disk before the blocks after it are cut off,
    device.cut(1)?;
    device.sync()?; // and they are gone before that is acknowledged.
    Ok(())
}

impl<D: Device> Journal<D> {
    ghost use Rattle.std.specs.Prelude.{false, IfErr};
    ghost use Rattle.journal.specs.Words.{bytes_of_each};
    ghost use Rattle.journal.specs.Standing.{device_of, is_open};
    ghost use Rattle.journal.specs.Told.{IsOfClear};

    // The journal of a file that is at rest.
    pub(crate) fn at_rest(device: D, end: usize, len: usize) -> Self
        requires { IsKeptAtRest D.seen D.may_leave device end len }
        ensures device { device_of result ≡ device }
        ensures ok { is_open result ≡ true }
    {
        Journal {
            device,
            end,
            len,
            is_open: true,
        }
    }

    /// Whether it takes entries: an append that the device failed in breaks it.
    pub fn is_open(&self) -> bool
        ensures { result ≡ is_open self.now }
    {
        self.is_open
    }

    /// The device, whose file can be recovered anew.
    pub fn into_device(self) -> D
        ensures { result ≡ device_of self }
    {
        let Journal {
            device,
            end: _,
            len: _,
            is_open: _,
        } = self;
        device
    }

    /// Adds all entries of a batch or none. At `Ok` they are acknowledged: from then on each crash
    /// leaves a file that has them. An empty batch writes nothing.
    pub fn append(&mut self, alloc: Global, entries: &[Vec<u8>]) -> Result<(), AppendError>
        ensures acknowledged { OnOk result (StandsFor (D.seen (device_of self.new))
            (entries_read (D.seen (device_of self.old)) ++ bytes_of_each entries.now)) }
        ensures durable { OnOk result
            (Only (D.seen (device_of self.new)) (D.may_leave (device_of self.new))) }

        // A crash at any moment of the call leaves the entries from before it, with all of the
        // batch or none.
        ensures any_moment { is_open self.old ≡ true
            → LeavesOnly D.moment D.left_since (device_of self.old) (device_of self.new)
            (IsBeforeOrAfter (entries_read (D.seen (device_of self.old)))
            (bytes_of_each entries.now)) }

        ensures ok { OnOk result (is_open self.new ≡ true) }
        ensures memory { IsErrOf result AppendError.Memory → self.new ≡ self.old }
        ensures full { IsErrOf result AppendError.Full → self.new ≡ self.old }
        ensures no_room { is_open self.old ≡ true → IsErrOf result AppendError.Full
            → 2 ^ 63 ≤ length (D.seen (device_of self.old))
            + length (blocks (bytes_of_each entries.now)) }
        ensures broken { IsErrOf result AppendError.Broken → self.new ≡ self.old }
        ensures stays_broken { is_open self.old ≡ false → IsErrOf result AppendError.Broken }
        ensures was_open { is_open self.old ≡ true → IsErrOf result AppendError.Broken → ⊥ }
        ensures breaks { (e : _) → IsErrOf result (AppendError.Device e)
            → is_open self.new ≡ false }
        ensures failed { IsErrOf result (AppendError.Device DeviceError.Failed)
            → D.faults (device_of self.old) < D.faults (device_of self.new) }
        ensures fed { IsErrOf result (AppendError.Device DeviceError.Memory)
            → D.wants_memory ≡ true }
        ensures later { D.faults (device_of self.old) ≤ D.faults (device_of self.new) }
        ensures nothing { entries.now ≡ [] → self.new ≡ self.old }
    {
        if !self.is_open {
            return Err(AppendError::Broken);
        }
        if entries.is_empty() {
            return Ok(());
        }
        let block = block_of(alloc, entries)?;
        if block.len() >= MAX_BYTES - self.end {
            return Err(AppendError::Full);
        }
        let more = growth(alloc, self.len, self.end + block.len())?;
        self.is_open = false;
        if let Err(refused) = grow(&mut self.device, self.end, self.len, &more) {
            return Err(AppendError::Device(refused));
        }
        self.len += more.len();
        if let Err(error) = add(&mut self.device, self.end, self.len, &block) {
            return Err(AppendError::Device(error));
        }
        self.end += block.len();
        self.is_open = true;
        Ok(())
    }

    /// Drops all entries. At `Ok` each crash leaves a file that has none; it has one byte then.
    pub fn clear(&mut self) -> Result<(), AppendError>
        ensures cleared { OnOk result (StandsFor (D.seen (device_of self.new)) []) }
        ensures short { OnOk result (length (D.seen (device_of self.new)) ≡ 1) }
        ensures durable { OnOk result
            (Only (D.seen (device_of self.new)) (D.may_leave (device_of self.new))) }

        // A crash at any moment of the call leaves all entries from before it or none.
        ensures any_moment { is_open self.old ≡ true
            → LeavesOnly D.moment D.left_since (device_of self.old) (device_of self.new)
            (IsBeforeOrNone (entries_read (D.seen (device_of self.old)))) }

        ensures ok { OnOk result (is_open self.new ≡ true) }
        ensures broken { IsErrOf result AppendError.Broken → self.new ≡ self.old }
        ensures was_open { is_open self.old ≡ true → IsErrOf result AppendError.Broken → ⊥ }
        ensures others { IfErr result IsOfClear }
        ensures breaks { (e : _) → IsErrOf result (AppendError.Device e)
            → is_open self.new ≡ false }
        ensures failed { IsErrOf result (AppendError.Device DeviceError.Failed)
            → D.faults (device_of self.old) < D.faults (device_of self.new) }
        ensures fed { IsErrOf result (AppendError.Device DeviceError.Memory)
            → D.wants_memory ≡ true }
        ensures later { D.faults (device_of self.old) ≤ D.faults (device_of self.new) }
    {
        if !self.is_open {
            return Err(AppendError::Broken);
        }
        self.is_open = false;
        if let Err(fault) = empty(&mut self.device, self.end, self.len) {
            return Err(AppendError::Device(fault));
        }
        self.end = 0;
        self.len = 1;
        self.is_open = true;
        Ok(())
    }
}
