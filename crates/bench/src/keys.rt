// Keys for the benchmarks. Called by `ranges`, `transactions` and `versions`.
use kv_core::Bytes;
use std::alloc::{AllocError, Global};

/// The key with a number that goes through all numbers in a scattered order.
pub fn key(alloc: Global, number: u32) -> Result<Bytes, AllocError> {
    let scattered = number.wrapping_mul(2_654_435_761);
    let mut bytes = "record/".as_bytes().to_vec(alloc)?;
    bytes.extend_from_slice(scattered.to_be_bytes().as_slice())?;
    Ok(Bytes::new(bytes))
}
