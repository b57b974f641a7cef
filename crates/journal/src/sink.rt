// What takes the entries that a recovery reads.
ghost use Rattle.std.specs.Prelude.{◌≡◌, ◌++◌, [], ◌∷◌, List, ℕ, Bool, true, OnOk, OnErr};
ghost use Rattle.journal.specs.Words.{bytes_of_each};

use std::alloc::{AllocError, Global};

/// Takes the entries that a recovery reads.
pub trait Sink {
    /// Why it takes no more.
    type Refusal: Drop;

    /// The entries that it took.
    ghost took: { Self → List (List ℕ) };

    /// It has refused one.
    ghost has_refused: { Self → Bool };

    /// Takes the next entry, or refuses it, which takes nothing.
    fn take(&mut self, alloc: Global, entry: Vec<u8>) -> Result<(), Self::Refusal>
        ensures took { OnOk result (took self.new ≡ took self.old ++ entry.items ∷ []) }
        ensures refused { OnErr result (took self.new ≡ took self.old) }
        ensures cause { OnErr result (has_refused self.new ≡ true) }
        ensures kept { OnOk result (has_refused self.new ≡ has_refused self.old) };
}

/// Keeps all entries in memory, as far as it suffices.
#[derive(Drop)]
pub struct Kept {
    entries: Vec<Vec<u8>>,
    is_full: bool,
}

impl Kept {
    ghost use Rattle.journal.specs.Sinks.{kept_entries};

    /// Has no entry yet.
    pub fn new(alloc: Global) -> Self
        ensures { kept_entries result ≡ [] }
    {
        Kept {
            entries: Vec::new(alloc),
            is_full: false,
        }
    }

    /// The entries that it took, in order.
    pub fn entries(&self) -> &[Vec<u8>]
        ensures { bytes_of_each result.now ≡ kept_entries self.now }
    {
        &self.entries
    }
}

impl Sink for Kept {
    type Refusal = AllocError;

    ghost took = { λ k. bytes_of_each k.entries.items };

    ghost has_refused = { λ k. k.is_full };

    fn take(&mut self, _alloc: Global, entry: Vec<u8>) -> Result<(), AllocError> {
        match self.entries.push(entry) {
            Ok(()) => Ok(()),
            Err(_) => {
                self.is_full = true;
                Err(AllocError)
            }
        }
    }
}
