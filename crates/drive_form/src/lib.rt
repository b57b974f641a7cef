//! The bytes in which a host tells what it has read, and is told what to read next, or what to
//! reply and to commit. `docs/guide/DRIVE.md` describes them.
#![tactic(auto)]

mod answer_bytes;
mod error;
mod given_bytes;
mod laws;
mod reading;

ghost use Rattle.std.specs.Prelude.{IfErr, IfOk};
ghost use Rattle.drive_form.specs.Refused.{ExplainsRefusal};
ghost use Rattle.drive_form.specs.Spelled.{IsBytesAnswer};

pub use answer_bytes::answer_of;
use drive::drive;
pub use error::FormError;
pub use given_bytes::given_of;
pub use laws::read_once;
use std::alloc::Global;

/// Reads what a host tells, performs its commands, and makes the bytes of the answer.
pub fn drive_bytes(alloc: Global, given: &[u8]) -> Result<Vec<u8>, FormError>
    ensures ok { IfOk result (λ bytes. IsBytesAnswer given.now bytes.items) }
    ensures err { IfErr result (ExplainsRefusal given.now) }
{
    let given = given_of(alloc, given)?;
    let driven = drive(alloc, &given)?;
    let bytes = answer_of(alloc, &driven)?;
    Ok(bytes)
}
