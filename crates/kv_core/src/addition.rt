// Little-endian addition that wraps, as the mutation ADD does it. Called by `change` and `kv_map`,
// by the storage servers of `cluster_core` and by the sums of `txn`.
ghost use Rattle.std.specs.Prelude.{◌≡◌, ◌+◌, ◌<◌, List, ℕ, IfOk, length, slice_index};
ghost use Rattle.std.specs.Option.{option_copied};
ghost use Rattle.kv_core.specs.Addition.{added, bytes_of, number_of};

use crate::bytes::Bytes;
use std::alloc::{AllocError, Global};

/// The byte at a place, or zero past the end.
fn byte_at(bytes: &[u8], place: usize) -> u8
    ensures { result ≡ slice_index bytes.now place }
{
    if place < bytes.len() { bytes[place] } else { 0 }
}

/// The sum of two numbers, the least significant byte first, in as many bytes as the second one
/// has.
fn sum_of(alloc: Global, stored: &[u8], operand: &[u8]) -> Result<Vec<u8>, AllocError>
    ensures { let number = number_of stored.now + number_of operand.now in
        IfOk result (λ bytes. bytes.items ≡ bytes_of (length operand.now) number) }
{
    let mut sum = Vec::new(alloc);
    let mut carry: u16 = 0;
    for place in 0..operand.len() {
        let digits = byte_at(stored, place) as u16 + byte_at(operand, place) as u16 + carry;
        sum.push((digits % 256) as u8)?;
        carry = digits / 256;
    }
    Ok(sum)
}

/// The sum of a stored value and an operand, both numbers of any length with the least
/// significant byte first, unless memory runs out.
///
/// The sum has as many bytes as the operand. No stored value counts as zero, a shorter one is
/// filled up with zero bytes, and what lies beyond the operand's bytes is dropped, of a longer
/// stored value as of the sum itself. This is FoundationDB's mutation ADD.
pub fn add_le(alloc: Global, stored: Option<&[u8]>, operand: &[u8]) -> Result<Vec<u8>, AllocError>
    ensures { IfOk result (λ bytes. bytes.items ≡ added (option_copied stored.entry) operand.now) }
{
    match stored {
        Some(bytes) => sum_of(alloc, bytes, operand),
        None => sum_of(alloc, &[], operand),
    }
}

/// The sum of a stored value and an operand as a byte string.
pub(crate) fn plus(stored: Option<&Bytes>, operand: &Bytes) -> Result<Bytes, AllocError>
    ensures { IfOk result (λ sum. sum ≡ added (option_copied stored.entry) operand.now) }
{
    let alloc = operand.allocator();
    let sum = match stored {
        Some(bytes) => add_le(alloc, Some(bytes.as_slice()), operand.as_slice())?,
        None => add_le(alloc, None, operand.as_slice())?,
    };
    Ok(Bytes::new(sum))
}
