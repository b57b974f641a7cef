// The text of a file or of standard input. Called by `run`, `plans` and `racing`.
ghost use Rattle.std.specs.Prelude.{◌≡◌, ◌⊎◌, take, IfOk, IfErr, IfSome};

use crate::fault::Fault;
use json_forms::MAX_TEXT_BYTES;
use std::alloc::Global;
use std::io::{ErrorKind, Read};

/// The input to its end, or as much of it as shows that it is too long to be read.
pub fn read_input<R: Read>(alloc: Global, input: &mut R) -> Result<Vec<u8>, Fault>
    ensures ok { IfOk result (λ bytes. IfSome (R.remaining input.old) (λ text. bytes.items ≡ take 4000001 text)) }
    ensures err { IfErr result (λ fault. (fault ≡ Fault.CannotRead) ⊎ (fault ≡ Fault.OutOfMemory)) }
{
    let mut bytes = Vec::new(alloc);
    let most = MAX_TEXT_BYTES as u64 + 1;
    match input.take(most).read_to_end(&mut bytes) {
        Ok(_) => Ok(bytes),
        Err(error) if error.kind() == ErrorKind::OutOfMemory => Err(Fault::OutOfMemory),
        Err(_) => Err(Fault::CannotRead),
    }
}
