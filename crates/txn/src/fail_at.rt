// A snapshot that refuses one read, so that each refusal can be tried in turn. Used by the programs
// that try them.
ghost use Rattle.std.specs.Prelude.{◌≡◌, ◌⊎◌, IfErr};
ghost use Rattle.std.proofs.Common.{inl, inr};

use kv_core::{Bytes, KeyRange, Pair, ReadError, Snapshot};
use std::cell::Cell;

/// Another snapshot, whose read of this number, counted from 1, is refused with this error. The
/// others, for pairs or for a value, are passed on. A check counts as a read.
#[derive(Drop)]
pub struct FailAt<'a, S: Snapshot> {
    db: &'a S,
    at: u64,
    error: ReadError,
    reads: Cell<u64>,
}

impl<'a, S: Snapshot> FailAt<'a, S> {
    /// The snapshot, of which nothing was read yet. With number 0 no read is refused but by itself.
    pub fn new(db: &'a S, at: u64, error: ReadError) -> FailAt<'a, S>
        ensures db { result.db.now ≡ db.now }
        ensures error { result.error ≡ error }
    {
        FailAt {
            db,
            at,
            error,
            reads: Cell::new(0),
        }
    }

    /// How often it was read, refused reads included.
    pub fn reads(&self) -> u64 {
        self.reads.get()
    }

    // Counts a read, and refuses it where it is the one to be refused.
    fn count(&self) -> Result<(), ReadError>
        ensures { IfErr result (λ error. error ≡ self.now.error) }
    {
        let number = self.reads.get().wrapping_add(1);
        self.reads.set(number);
        if number == self.at {
            Err(self.error)
        } else {
            Ok(())
        }
    }
}

impl<S: Snapshot> Snapshot for FailAt<'_, S> {
    ghost map_at = { λ failing version. S.map_at failing.db.now version };

    ghost may_refuse = { λ failing range version error.
        (error ≡ failing.error) ⊎ S.may_refuse failing.db.now range version error };

    ghost must_refuse = { λ failing range version. S.must_refuse failing.db.now range version };

    ghost narrows = { λ failing whole part version error inside refused. elim refused [
      | inl own ↦ inl (inl own)
      | inr below ↦ elim (S.narrows failing.db.now whole part version error inside below) [
        | inl may ↦ inl (inr may)
        | inr must ↦ inr must
      ]
    ] };

    fn read(
        &self,
        range: &KeyRange,
        version: u64,
        limit: usize,
        reverse: bool,
    ) -> Result<Vec<Pair>, ReadError> {
        self.count()?;
        self.db.read(range, version, limit, reverse)
    }

    fn value(&self, key: &Bytes, version: u64) -> Result<Option<Bytes>, ReadError> {
        self.count()?;
        self.db.value(key, version)
    }

    fn check(&self, range: &KeyRange, version: u64) -> Result<(), ReadError> {
        self.count()?;
        self.db.check(range, version)
    }
}
