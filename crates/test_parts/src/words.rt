// Bytes and texts, of the words that tables are written in and back. Called by `parts`, `test_calls`
// and `test_stores`.
use kv_core::Bytes;
use std::alloc::{AllocError, Global};
use std::test::Fail;
use tuple_codec::Text;

/// The bytes of hexadecimal digits.
pub fn bytes_of(alloc: Global, digits: &str) -> Result<Bytes, Fail> {
    Ok(Bytes::new(hex::decode(alloc, digits)?))
}

/// The hexadecimal digits of bytes.
pub fn digits_of(alloc: Global, bytes: &[u8]) -> Result<String, Fail> {
    Ok(hex::encode(alloc, bytes)?)
}

/// A text of an element.
pub fn text_of(alloc: Global, text: &str) -> Result<Text, AllocError> {
    Ok(Text::new(String::from_str(alloc, text)?))
}
