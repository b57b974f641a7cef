// Reads the entries of a file that a crash may have left, and repairs its end.
ghost use Rattle.std.specs.Prelude.{◌≡◌, ◌<◌, ◌≤◌, ◌+◌, ◌^◌, [], ◌∷◌, ◌++◌, List, ℕ, length};
ghost use Rattle.std.specs.Prelude.{take, drop, true, Option, None, IfOk, IfErr, OnOk};
ghost use Rattle.std.specs.Prelude.{if◌then◌else◌, bytes_eq};
ghost use Rattle.journal.specs.declared.block.First.TheVariants.{Whole, Damaged};
ghost use Rattle.journal.specs.Form.{nonzeros, blocks};
ghost use Rattle.journal.specs.Device.{Only, LeavesOnly, HasCause, Reads};
ghost use Rattle.journal.specs.Block.{reading, tested, part_said, what_begins, StandsFor};
ghost use Rattle.journal.specs.Journal.{entries_read, damage_read, IsBlocksAndZeros, IsKeptAtRest};
ghost use Rattle.journal.specs.Standing.{device_of, is_open};
ghost use Rattle.journal.specs.Words.{bytes_of_each};
ghost use Rattle.journal.specs.Recovery.{IsAsBefore, TookFirst, HasReason, LeavesAlone};
ghost use Rattle.journal.specs.Recovery.{EntriesEndAt, batch_bytes};

use crate::block::{
    Batch, CLOSED, First, HEAD_BYTES, Head, block_of, count_nonzeros, is_torn, most_said,
    number_said, read_head, unpacked_entries,
};
use crate::{Device, DeviceError, Journal, RecoverError, Sink, Unrecovered};
use std::alloc::{AllocError, Global};

// Behind a block of which a part is missing the file is read in pieces of so many bytes.
const PIECE_BYTES: usize = 1 << 16;

// The batch of these entries, if the block is what is written of it.
fn test_entries(
    alloc: Global,
    block: &[u8],
    entries: Vec<Vec<u8>>,
) -> Result<First<Batch>, AllocError>
    ensures { IfOk result (λ f. batch_bytes f
        ≡ (if bytes_eq block.now (blocks (bytes_of_each entries.items))
        then Whole (bytes_of_each entries.items) else Damaged)) }
{
    let bytes = block_of(alloc, &entries)?;
    if block == bytes.as_slice() {
        let len = block.len();
        Ok(First::Whole(Batch { entries, len }))
    } else {
        Ok(First::Damaged)
    }
}

// The batch of a block whose counts fit their complement.
fn test_block(alloc: Global, block: &[u8]) -> Result<First<Batch>, AllocError>
    requires { 65 ≤ length block.now }
    ensures { IfOk result (λ f. batch_bytes f ≡ tested block.now) }
{
    let Some(count) = number_said(&block[9..]) else {
        return Ok(First::End);
    };
    // A crash left zeros in the place of other bytes.
    if count_nonzeros(&block[33..]) < count {
        return Ok(First::End);
    }
    let entries = unpacked_entries(alloc, &block[HEAD_BYTES..])?;
    let found = test_entries(alloc, block, entries)?;
    Ok(found)
}

// The batch of a block that has room at a place.
fn read_whole<D: Device>(
    alloc: Global,
    device: &mut D,
    at: usize,
    size: usize,
) -> Result<First<Batch>, DeviceError>
    requires room { at + (65 + size) ≤ length (D.seen device.old) }
    requires small { length (D.seen device.old) < 2 ^ 63 }
    ensures found { IfOk result (λ f. batch_bytes f
        ≡ tested (take (65 + size) (drop at (D.seen device.old)))) }
    ensures reads { Reads D.seen D.may_leave D.moment D.left_since device.old device.new }
    ensures cause { HasCause (D.faults device.old) (D.faults device.new) result }
{
    let block = device.read_at(alloc, at, HEAD_BYTES + size)?;
    Ok(test_block(alloc, &block)?)
}

// How many bytes of a file of this length aren't zero, from a place on.
fn count_from<D: Device>(
    alloc: Global,
    device: &mut D,
    from: usize,
    len: usize,
) -> Result<usize, DeviceError>
    requires all { len ≡ length (D.seen device.old) }
    requires small { len < 2 ^ 63 }
    ensures count { IfOk result (λ count. count ≡ nonzeros (drop from (D.seen device.old))) }
    ensures reads { Reads D.seen D.may_leave D.moment D.left_since device.old device.new }
    ensures cause { HasCause (D.faults device.old) (D.faults device.new) result }
{
    let mut at = from;
    let mut count = 0;
    while at < len {
        let piece = device.read_at(alloc, at, PIECE_BYTES)?;
        count += count_nonzeros(&piece);
        at += PIECE_BYTES;
    }
    Ok(count)
}

// The end, if a crash may have left a part of a block at this place, and else damage.
fn read_part<D: Device>(
    alloc: Global,
    device: &mut D,
    behind: &[u8],
    at: usize,
    len: usize,
) -> Result<First<Batch>, DeviceError>
    requires all { len ≡ length (D.seen device.old) }
    requires within { at < len }
    requires small { len < 2 ^ 63 }
    requires behind { behind.now ≡ take 64 (drop (at + 1) (D.seen device.old)) }
    ensures found { IfOk result (λ f. batch_bytes f
        ≡ part_said (drop (at + 1) (D.seen device.old))) }
    ensures reads { Reads D.seen D.may_leave D.moment D.left_since device.old device.new }
    ensures cause { HasCause (D.faults device.old) (D.faults device.new) result }
{
    if !is_torn(behind) {
        return Ok(First::Damaged);
    }
    if behind.len() < 32 {
        return Ok(First::End);
    }
    let count = count_from(alloc, device, at + 33, len)?;
    if count > most_said(&behind[24..]) {
        return Ok(First::Damaged);
    }
    let most = most_said(&behind[16..]).min(len - at);
    let rest = count_from(alloc, device, at + HEAD_BYTES + most, len)?;
    if rest > 0 {
        return Ok(First::Damaged);
    }
    Ok(First::End)
}

// What stands at a place of a file of this length.
fn read_block<D: Device>(
    alloc: Global,
    device: &mut D,
    at: usize,
    len: usize,
) -> Result<First<Batch>, DeviceError>
    requires all { len ≡ length (D.seen device.old) }
    requires within { at ≤ len }
    requires small { len < 2 ^ 63 }
    ensures found { IfOk result (λ f. batch_bytes f ≡ what_begins (drop at (D.seen device.old))) }
    ensures reads { Reads D.seen D.may_leave D.moment D.left_since device.old device.new }
    ensures cause { HasCause (D.faults device.old) (D.faults device.new) result }
{
    let head = device.read_at(alloc, at, HEAD_BYTES)?;
    match read_head(&head, len - at) {
        Head::Closed => Ok(First::End),
        Head::Other => Ok(First::Damaged),
        Head::Part => read_part(alloc, device, &head[1..], at, len),
        Head::Room(size) => match read_whole(alloc, device, at, size)? {
            First::End => read_part(alloc, device, &head[1..], at, len),
            First::Whole(batch) => Ok(First::Whole(batch)),
            First::Damaged => Ok(First::Damaged),
        },
    }
}

// Cuts off what stands for nothing, and puts a zero there.
fn close<D: Device>(device: &mut D, end: usize) -> Result<(), DeviceError>
    requires ends { EntriesEndAt (D.seen device.old) end }
    requires small { length (D.seen device.old) < 2 ^ 63 }
    requires durable { Only (D.seen device.old) (D.may_leave device.old) }
    ensures closed { OnOk result (D.seen device.new ≡ take end (D.seen device.old) ++ 0 ∷ []) }
    ensures durable { OnOk result (Only (D.seen device.new) (D.may_leave device.new)) }
    ensures any_moment { LeavesOnly D.moment D.left_since device.old device.new
        (λ c. StandsFor c (entries_read (D.seen device.old))) }
    ensures cause { HasCause (D.faults device.old) (D.faults device.new) result }
{
    device.cut(end)?;
    device.write_at(end, &[CLOSED])?;
    device.sync()?; // Nothing is left there before a block is written.
    Ok(())
}

// Hands the entries of a batch to the sink.
fn hand_over<S: Sink>(
    alloc: Global,
    entries: &[Vec<u8>],
    sink: &mut S,
) -> Result<(), RecoverError<S::Refusal>>
    ensures took { OnOk result (S.took sink.new ≡ S.took sink.old ++ bytes_of_each entries.now) }
    ensures took_first { TookFirst (S.took sink.old) (S.took sink.new)
        (bytes_of_each entries.now) }
    ensures reason { IfErr result (λ error. (f g : ℕ) (damage : Option ℕ)
        → HasReason f g (S.has_refused sink.new) damage error) }
{
    for entry in entries {
        if let Err(refusal) = sink.take(alloc, entry.to_vec(alloc)?) {
            return Err(RecoverError::Refused(refusal));
        }
    }
    Ok(())
}

// Hands each entry of a file of this length to the sink, and tells where its end begins.
fn replay<D: Device, S: Sink>(
    alloc: Global,
    device: &mut D,
    len: usize,
    sink: &mut S,
) -> Result<usize, RecoverError<S::Refusal>>
    requires all { len ≡ length (D.seen device.old) }
    requires small { len < 2 ^ 63 }
    ensures ends { IfOk result (λ end. EntriesEndAt (D.seen device.old) end) }
    ensures whole { OnOk result (damage_read (D.seen device.old) ≡ None) }
    ensures took { OnOk result
        (S.took sink.new ≡ S.took sink.old ++ entries_read (D.seen device.old)) }
    ensures took_first { TookFirst (S.took sink.old) (S.took sink.new)
        (entries_read (D.seen device.old)) }
    ensures reads { Reads D.seen D.may_leave D.moment D.left_since device.old device.new }
    ensures reason { IfErr result (HasReason (D.faults device.old) (D.faults device.new)
        (S.has_refused sink.new) (damage_read (D.seen device.old))) }
    ensures later { D.faults device.old ≤ D.faults device.new }
{
    let mut at = 0;
    loop {
        match read_block(alloc, device, at, len)? {
            First::End => return Ok(at),
            First::Damaged => return Err(RecoverError::Damage(at)),
            First::Whole(batch) => {
                at += batch.len;
                if let Err(error) = hand_over(alloc, &batch.entries, sink) {
                    return Err(error);
                }
            }
        }
    }
}

// Reads a file, and repairs its end.
fn repair<D: Device, S: Sink>(
    alloc: Global,
    device: &mut D,
    sink: &mut S,
) -> Result<usize, RecoverError<S::Refusal>>
    ensures settled { IfOk result
        (λ end. IsKeptAtRest D.seen D.may_leave device.new end (end + 1)) }
    ensures at_rest { OnOk result (IsBlocksAndZeros (D.seen device.new)) }
    ensures same { OnOk result (StandsFor (D.seen device.new) (entries_read (D.seen device.old))) }
    ensures whole { OnOk result (StandsFor (D.seen device.old)
        (entries_read (D.seen device.old))) }
    ensures took { OnOk result
        (S.took sink.new ≡ S.took sink.old ++ entries_read (D.seen device.old)) }
    ensures took_first { TookFirst (S.took sink.old) (S.took sink.new)
        (entries_read (D.seen device.old)) }
    ensures any_moment { LeavesOnly D.moment D.left_since device.old device.new
        (IsAsBefore (D.may_leave device.old) (D.seen device.old)) }
    ensures untouched { IfErr result (λ error. LeavesAlone error
        (Reads D.seen D.may_leave D.moment D.left_since device.old device.new)) }
    ensures reason { IfErr result (HasReason (D.faults device.old) (D.faults device.new)
        (S.has_refused sink.new) (damage_read (D.seen device.old))) }
{
    device.sync()?; // What is read may have been written by a process that ended before its sync.
    let len = device.len()?;
    let end = replay(alloc, device, len, sink)?;
    close(device, end)?;
    Ok(end)
}

/// Hands the entries of a file that a crash may have left to a sink, one by one, repairs the file's
/// end, and gives its journal.
pub fn recover<D: Device, S: Sink>(
    alloc: Global,
    device: D,
    sink: &mut S,
) -> Result<Journal<D>, Unrecovered<D, S::Refusal>>
    // The file isn't damaged, and the sink takes each of its entries once, in order.
    ensures whole { OnOk result (StandsFor (D.seen device) (entries_read (D.seen device))) }
    ensures took { OnOk result (S.took sink.new ≡ S.took sink.old ++ entries_read (D.seen device)) }

    // The file is at rest then, with the same entries, all of it on the disk.
    ensures same { IfOk result (λ journal. StandsFor (D.seen (device_of journal))
        (entries_read (D.seen device))) }
    ensures at_rest { IfOk result (λ journal. IsBlocksAndZeros (D.seen (device_of journal))) }
    ensures durable { IfOk result (λ journal. Only (D.seen (device_of journal))
        (D.may_leave (device_of journal))) }
    ensures ok { IfOk result (λ journal. is_open journal ≡ true) }

    // A crash at any moment leaves a file that is read alike, or what one before the call might
    // have left: after a restart that is the same file.
    ensures any_moment { IfOk result (λ journal. LeavesOnly D.moment D.left_since device
        (device_of journal) (IsAsBefore (D.may_leave device) (D.seen device))) }
    ensures any_moment_err { IfErr result (λ refused. LeavesOnly D.moment D.left_since device
        refused.device (IsAsBefore (D.may_leave device) (D.seen device))) }

    // A damaged file, and one of which the sink takes no more, keeps each of its bytes.
    ensures untouched { IfErr result (λ refused. LeavesAlone refused.error
        (Reads D.seen D.may_leave D.moment D.left_since device refused.device)) }

    // The sink takes nothing but a beginning of the entries before the damage, and why it isn't
    // recovered is told truly.
    ensures took_first { TookFirst (S.took sink.old) (S.took sink.new)
        (entries_read (D.seen device)) }
    ensures reason { IfErr result (λ refused. HasReason (D.faults device)
        (D.faults refused.device) (S.has_refused sink.new) (damage_read (D.seen device))
        refused.error) }
{
    let mut device = device;
    match repair(alloc, &mut device, sink) {
        Ok(end) => Ok(Journal::at_rest(device, end, end + 1)),
        Err(error) => Err(Unrecovered { device, error }),
    }
}
