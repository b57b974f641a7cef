// Whether what is committed is kept. Used by `locked_state`, `handing_in` and
// `group_commit`.
ghost use Rattle.std.specs.Prelude.{◌≡◌};

/// Entries weren't kept, or it isn't known whether they are.
#[derive(Clone, Copy, Debug, PartialEq, Eq)]
pub struct NotKept;

/// Whether what is committed is kept, before it is shown to readers.
#[derive(Clone, Copy, Debug, PartialEq, Eq)]
pub enum Keeping {
    /// It isn't.
    Off,
    /// It is.
    On,
    /// It was, and nothing is committed any more.
    Closed,
}

impl Keeping {
    ghost use Rattle.runtime.specs.Keeping.{is_kept};

    /// Whether what is committed is kept, or was as long as anything was committed.
    pub(crate) fn is_kept(self) -> bool
        ensures { result ≡ is_kept self }
    {
        match self {
            Keeping::Off => false,
            Keeping::On | Keeping::Closed => true,
        }
    }
}
