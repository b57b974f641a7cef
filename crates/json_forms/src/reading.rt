// The parser of texts of JSON. Called by `script` and `explain`; `recordctl` reads input up to its
// limit.
ghost use Rattle.std.specs.Prelude.{◌≡◌, Some, None, IfOk, IfErr};
ghost use Rattle.serde_json.specs.View.{view};
ghost use Rattle.json_forms.specs.Json.{value_in};

use crate::error::PartError;
use serde_json::Value;
use std::alloc::Global;

/// The most bytes of a text of JSON that is read.
pub const MAX_TEXT_BYTES: usize = 4_000_000;

/// The value that a text of JSON in UTF-8 writes. `BadForm` where the text has more than
/// `MAX_TEXT_BYTES` or is no such text.
pub fn value_of(alloc: Global, text: &[u8]) -> Result<Value, PartError>
    ensures ok { IfOk result (λ value. value_in text.now ≡ Some (view value)) }
    ensures err { IfErr result (λ error. error ≡ PartError.BadForm → value_in text.now ≡ None) }
{
    if text.len() > MAX_TEXT_BYTES {
        return Err(PartError::BadForm);
    }
    match Value::from_slice(alloc, text) {
        Ok(value) => Ok(value),
        Err(error) if error.is_memory() => Err(PartError::OutOfMemory),
        Err(_) => Err(PartError::BadForm),
    }
}
