// A file as the journal sees it: what a read returns, and what a crash may leave.
ghost use Rattle.std.specs.Prelude.{◌≡◌, ◌<◌, ◌≤◌, ◌^◌, List, ℕ, length, take, drop, IfOk, OnOk};
ghost use Rattle.std.specs.Prelude.{Bool, true, IsErrOf};
ghost use Rattle.journal.specs.declared.device.DeviceError.TheVariants.{Memory};
ghost use Rattle.journal.specs.Device.{Only, LeftBy, Torn, Cut, HasWritten, Elapses, HasCause};

use std::alloc::{AllocError, AllocFailed, Global};
use thiserror::Error;

/// Why a device didn't do a call.
#[derive(Clone, Copy, Debug, PartialEq, Eq, Error)]
pub enum DeviceError {
    #[error("out of memory")]
    Memory,
    #[error("the device failed")]
    Failed,
}

impl From<AllocError> for DeviceError {
    ghost from_gives = { λ _ e. e ≡ Memory };

    fn from(_: AllocError) -> Self {
        DeviceError::Memory
    }
}

impl<T: Drop> From<AllocFailed<T>> for DeviceError {
    ghost from_gives = { λ _ e. e ≡ Memory };

    fn from(_: AllocFailed<T>) -> Self {
        DeviceError::Memory
    }
}

/// A file that outlives its process. What its calls promise is the premise of all that the journal
/// promises of crashes.
pub trait Device {
    /// The bytes that a read returns.
    ghost seen: { Self → List ℕ };

    /// What a crash at this moment may leave.
    ghost may_leave: { Self → List ℕ → Type 0 };

    /// The moment, as a number that doesn't fall.
    ghost moment: { Self → ℕ };

    /// What a crash at some moment from that one on might have left, during a call or between two.
    ghost left_since: { Self → ℕ → List ℕ → Type 0 };

    /// How often the device has failed.
    ghost faults: { Self → ℕ };

    /// Whether a write, a cut or a sync may want memory. A file's don't.
    ghost wants_memory: { Bool };

    /// How many bytes there are.
    fn len(&mut self) -> Result<usize, DeviceError>
        ensures len { IfOk result (λ len. len ≡ length (seen self.old)) }
        ensures small { IfOk result (λ len. len < 2 ^ 63) }
        ensures seen { seen self.new ≡ seen self.old }
        ensures crash { (c : List ℕ) → may_leave self.new c → may_leave self.old c }
        ensures time { Elapses (moment self.old) (moment self.new)
            (left_since self.old) (left_since self.new) (may_leave self.new) }
        ensures cause { HasCause (faults self.old) (faults self.new) result };

    /// This many of the bytes from there on, or as many as there are.
    fn read_at(&mut self, alloc: Global, at: usize, len: usize) -> Result<Vec<u8>, DeviceError>
        ensures bytes { IfOk result (λ bytes. bytes.items ≡ take len (drop at (seen self.old))) }
        ensures seen { seen self.new ≡ seen self.old }
        ensures crash { (c : List ℕ) → may_leave self.new c → may_leave self.old c }
        ensures time { Elapses (moment self.old) (moment self.new)
            (left_since self.old) (left_since self.new) (may_leave self.new) }
        ensures cause { HasCause (faults self.old) (faults self.new) result };

    /// Writes over what is there, and past the end. Until a sync, a crash may leave each byte in
    /// the range as it was or as it is written, and any bytes past the end that the file has on the
    /// disk.
    fn write_at(&mut self, at: usize, bytes: &[u8]) -> Result<(), DeviceError>
        requires { at ≤ length (seen self.old) }
        ensures written { OnOk result (HasWritten (seen self.old) at bytes.now (seen self.new)) }
        ensures crash { LeftBy (Torn at bytes.now) (may_leave self.old)
            (may_leave self.new) }
        ensures time { Elapses (moment self.old) (moment self.new)
            (left_since self.old) (left_since self.new) (may_leave self.new) }
        ensures cause { HasCause (faults self.old) (faults self.new) result }
        ensures fed { IsErrOf result Memory → wants_memory ≡ true };

    /// Cuts the file to a length.
    fn cut(&mut self, len: usize) -> Result<(), DeviceError>
        requires { len ≤ length (seen self.old) }
        ensures cut { OnOk result (seen self.new ≡ take len (seen self.old)) }
        ensures crash { LeftBy (Cut len) (may_leave self.old) (may_leave self.new) }
        ensures time { Elapses (moment self.old) (moment self.new)
            (left_since self.old) (left_since self.new) (may_leave self.new) }
        ensures cause { HasCause (faults self.old) (faults self.new) result }
        ensures fed { IsErrOf result Memory → wants_memory ≡ true };

    /// After it, a crash leaves what a read returns.
    fn sync(&mut self) -> Result<(), DeviceError>
        ensures durable { OnOk result (Only (seen self.old) (may_leave self.new)) }
        ensures seen { seen self.new ≡ seen self.old }
        ensures crash { (c : List ℕ) → may_leave self.new c → may_leave self.old c }
        ensures time { Elapses (moment self.old) (moment self.new)
            (left_since self.old) (left_since self.new) (may_leave self.new) }
        ensures cause { HasCause (faults self.old) (faults self.new) result }
        ensures fed { IsErrOf result Memory → wants_memory ≡ true };

    /// This moment is one of those since an earlier one.
    ghost counts_now: { (file : Self) (t : ℕ) (c : List ℕ) → t ≤ moment file → may_leave file c
        → left_since file t c };

    /// Since this moment there is no other.
    ghost only_now: { (file : Self) (c : List ℕ) → left_since file (moment file) c
        → may_leave file c };
}
