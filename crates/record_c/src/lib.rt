//! The record layer as a function of C, over bytes. `record.h` beside this folder declares it.
#![tactic(auto)]

ghost use Rattle.std.specs.Prelude.{◌≡◌, ◌⊎◌, ◌<◌, ◌≤◌, ◌++◌, length, drop};
ghost use Rattle.drive_form.specs.Refused.{BeginsForm, IsNotTold, TellNoCommands};
ghost use Rattle.drive_form.specs.Refused.{TellRefusedWrites};
ghost use Rattle.record_c.specs.Answered.{IsPlaced, IsTooLong, status_of};

use drive_form::{FormError, drive_bytes};
use std::alloc::Global;

/// What the function answers: `record.h` has the same numbers.
const ANSWERED: u32 = 0;

const TOO_SHORT: u32 = 1;

const OUT_OF_MEMORY: u32 = 2;

const BAD_FORM: u32 = 3;

const BAD_COMMAND: u32 = 4;

fn status_of(error: FormError) -> u32
    ensures { result ≡ status_of error }
{
    match error {
        FormError::BadForm => BAD_FORM,
        FormError::BadCommand => BAD_COMMAND,
        FormError::OutOfMemory => OUT_OF_MEMORY,
    }
}

/// Writes bytes into the room for them, where it suffices.
fn put(bytes: &[u8], out: &mut [u8]) -> u32
    ensures few { result < 2 }
    ensures answered { result ≡ 0 → out.new ≡ bytes.now ++ drop (length bytes.now) out.old }
    ensures wider { result ≡ 1 → length out.old < length bytes.now }
    ensures left { result ≡ 1 → out.new ≡ out.old }
{
    if bytes.len() > out.len() {
        return TOO_SHORT;
    }
    out[..bytes.len()].copy_from_slice(bytes);
    ANSWERED
}

/// Answers what a host tells. `written` is how many bytes the answer has, also where `out` has no
/// room for so many; where there is no answer it is 0. It keeps nothing, and may be called from any
/// threads at once.
#[unsafe(no_mangle)]
pub extern "C" fn record_drive(
    alloc: Global,
    given: &[u8],
    out: &mut [u8],
    written: &mut usize,
) -> u32
    ensures answered { result ≡ 0 → IsPlaced given.now out.old out.new written.new }
    ensures too_short { result ≡ 1 → IsTooLong given.now out.old out.new written.new }
    ensures none { 2 ≤ result → written.new ≡ 0 }
    ensures left { 2 ≤ result → out.new ≡ out.old }
    ensures no_memory { result ≡ 2 → BeginsForm given.now }
    ensures bad_form { result ≡ 3 → IsNotTold given.now ⊎ TellRefusedWrites given.now }
    ensures bad_command { result ≡ 4 → TellNoCommands given.now }
    ensures known { result ≤ 4 }
{
    *written = 0;
    match drive_bytes(alloc, given) {
        Ok(bytes) => {
            *written = bytes.len();
            put(bytes.as_slice(), out)
        }
        Err(error) => status_of(error),
    }
}
