// The sizes of mutations, held against the limits. Called by `txn` before it takes a write.
ghost use Rattle.std.specs.Prelude.{◌≡◌, ◌+◌, ◌≤◌, None, Some, IfOk, IfErr, length};
ghost use Rattle.kv_core.specs.Limits.{pair_refusal, own_refusal, size_of, size_of_all, refusal_after};

use crate::bytes::Bytes;
use crate::change::{Mutation, WriteError};
use crate::limits::{MAX_KEY_BYTES, MAX_RANGE_END_BYTES, MAX_TRANSACTION_BYTES, MAX_VALUE_BYTES};

/// The bytes of a key and a value together, or why they are refused.
fn pair_size(key: &Bytes, value: &Bytes) -> Result<u64, WriteError>
    ensures size { IfOk result (λ size. size ≡ length key.now + length value.now) }
    ensures small { IfOk result (λ size. size ≤ MAX_KEY_BYTES + MAX_VALUE_BYTES) }
    ensures allowed { IfOk result (λ _. pair_refusal key.now value.now ≡ None) }
    ensures refused { IfErr result (λ error. pair_refusal key.now value.now ≡ Some error) }
{
    if !key.is_key() {
        return Err(WriteError::KeyOutside);
    }
    let key_bytes = key.as_slice().len();
    if key_bytes > MAX_KEY_BYTES {
        return Err(WriteError::KeyTooLarge);
    }
    let value_bytes = value.as_slice().len();
    if value_bytes > MAX_VALUE_BYTES {
        return Err(WriteError::ValueTooLarge);
    }
    Ok((key_bytes + value_bytes) as u64)
}

impl Mutation {
    /// The bytes that the mutation counts, which are those of its key and its value or operand,
    /// or of the begin and the end of its range.
    ///
    /// A Set, an Add or a CompareAndClear is refused with `KeyOutside` where the key doesn't come
    /// before the byte FF, else with `KeyTooLarge` past `MAX_KEY_BYTES`, else with `ValueTooLarge`
    /// past `MAX_VALUE_BYTES`. A ClearRange is refused with `KeyTooLarge` where its begin is past
    /// `MAX_KEY_BYTES` or its end past `MAX_RANGE_END_BYTES`. There is no other refusal.
    pub fn size(&self) -> Result<u64, WriteError>
        ensures size { IfOk result (λ size. size ≡ size_of self.now) }
        ensures small { IfOk result (λ size. size ≤ MAX_KEY_BYTES + MAX_VALUE_BYTES) }
        ensures allowed { IfOk result (λ _. own_refusal self.now ≡ None) }
        ensures refused { IfErr result (λ error. own_refusal self.now ≡ Some error) }
    {
        match self {
            Mutation::Set { key, value } => pair_size(key, value),
            Mutation::Add { key, operand } => pair_size(key, operand),
            Mutation::CompareAndClear { key, operand } => pair_size(key, operand),
            Mutation::ClearRange(range) => {
                let begin = range.begin().as_slice().len();
                if begin > MAX_KEY_BYTES {
                    return Err(WriteError::KeyTooLarge);
                }
                let end = range.end().as_slice().len();
                if end > MAX_RANGE_END_BYTES {
                    return Err(WriteError::KeyTooLarge);
                }
                Ok((begin + end) as u64)
            }
        }
    }
}

/// The bytes of the mutations together with so many bytes before them, which takes no memory.
///
/// The first mutation that is refused gives the refusal: its own, as `Mutation::size` says, else
/// `TransactionTooLarge` where the bytes up to and with it are more than `MAX_TRANSACTION_BYTES`.
pub fn total_size(before: u64, mutations: &[Mutation]) -> Result<u64, WriteError>
    requires { before ≤ MAX_TRANSACTION_BYTES }
    ensures size { IfOk result (λ total. total ≡ before + size_of_all mutations.now) }
    ensures small { IfOk result (λ total. total ≤ MAX_TRANSACTION_BYTES) }
    ensures allowed { IfOk result (λ _. refusal_after before mutations.now ≡ None) }
    ensures refused { IfErr result (λ error. refusal_after before mutations.now ≡ Some error) }
{
    let mut total = before;
    for mutation in mutations {
        match mutation.size() {
            Ok(size) => {
                if total + size > MAX_TRANSACTION_BYTES {
                    return Err(WriteError::TransactionTooLarge);
                }
                total += size;
            }
            Err(error) => return Err(error),
        }
    }
    Ok(total)
}
