// The calls on a file, as contracts see them.
ghost use Rattle.std.specs.Prelude.{◌≡◌, ℕ, List, []};
ghost use base.Fml.{ftrue};
ghost use Rattle.journal_file.specs.Files.{NotedCall};

use journal::DeviceError;
use std::marker::Model;

/// What is asked of a file.
#[derive(Clone, Copy)]
pub(crate) enum Kind {
    Write,
    Shorten,
    Sync,
    /// Nothing: the device refuses the call by itself.
    Nothing,
}

/// A call, and whether it was done.
#[derive(Clone, Copy)]
pub(crate) struct Call<'a> {
    pub kind: Kind,
    pub at: usize,
    pub bytes: &'a [u8],
    pub is_done: bool,
}

/// What a file had as it was opened, and the calls since, the newest first: no bytes of them are
/// kept.
#[derive(Drop)]
pub(crate) struct History {
    pub ghost first: { List ℕ },
    pub ghost calls: { List NotedCall },
}

impl Model for History {
    ghost also_owns = { λ _. ftrue };
}

impl History {
    ghost use Rattle.std.specs.Prelude.{true, false, OnOk, IfErr};
    ghost use Rattle.journal.specs.declared.device.DeviceError.TheVariants.{Failed};
    ghost use Rattle.journal_file.specs.Files.{unmade};
    ghost use Rattle.journal_file.specs.Calls.{noted_of};
    ghost use Rattle.journal_file.specs.Histories.{HasGone};

    /// A file with these bytes, on which no call was made.
    pub fn of(_first: &Vec<u8>) -> History
        ensures { (result.first ≡ _first.now.items) × (result.calls ≡ []) }
    {
        History {}
    }

    /// The calls with one more.
    pub fn then(&self, _call: &Call<'_>) -> History
        ensures { HasGone self.now result (noted_of _call.now) }
    {
        History {}
    }

    /// Notes a call, and answers it.
    pub fn note(&mut self, call: &Call<'_>) -> Result<(), DeviceError>
        ensures ok { OnOk result (call.now.is_done ≡ true) }
        ensures err { IfErr result (λ e. (e ≡ Failed) × (call.now.is_done ≡ false)) }
        ensures noted { HasGone self.old self.new (noted_of call.now) }
    {
        *self = self.then(call);
        if call.is_done {
            Ok(())
        } else {
            Err(DeviceError::Failed)
        }
    }

    /// Notes that a call isn't made.
    pub fn refuse(&mut self) -> DeviceError
        ensures failed { result ≡ Failed }
        ensures noted { HasGone self.old self.new unmade }
    {
        *self = self.then(&Call {
            kind: Kind::Nothing,
            at: 0,
            bytes: &[],
            is_done: false,
        });
        DeviceError::Failed
    }
}
